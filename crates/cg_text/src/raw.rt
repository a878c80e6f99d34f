//! Raw lines.
ghost use Rattle.std.specs.Prelude.{◌≡◌, ◌<◌, ◌≤◌, ◌↔◌, true, IsTrue, length, slice_index, take};
ghost use Rattle.cg_text.specs.Raw.{IsRawLine};
ghost use Rattle.cg_text.specs.RawState.{IsRawByte, IsRawRest};
ghost use Rattle.cg_text.specs.Token.{Spells};

use crate::count::count_before;
use crate::items::Items;
use crate::pushed::Pushed;
use crate::token::Token;
use std::alloc::Global;

/// Any bytes 1 to 255 but newlines, also none.
#[derive(Drop)]
pub struct RawText {
    bytes: Vec<u8>,
}

/// Whether raw lines have this byte.
pub(crate) fn is_raw_byte(byte: u8) -> bool
    ensures { IsTrue result ↔ IsRawByte byte }
{
    byte != 0 && byte != b'\n'
}

/// How many bytes of a raw line `bytes` begins with.
fn raw_length(bytes: &[u8]) -> usize
    ensures within { result ≤ length bytes.now }
    ensures raw { IsRawLine (take result bytes.now) }
    ensures stops { result < length bytes.now → IsRawByte (slice_index bytes.now result) → ⊥ }
{
    let (line, _) = bytes.split_at(count_before(b'\n', bytes));
    count_before(0, line)
}

impl RawText {
    /// A token of raw lines.
    pub fn new(alloc: Global) -> RawText
        ensures spells { Spells ⟦<RawText as Token>⟧.means result (λ rest line. (line ≡ rest) × IsRawLine rest) }
        ensures size { ⟦<RawText as Token>⟧.size result ≡ 0 }
    {
        RawText {
            bytes: Vec::new(alloc),
        }
    }
}

impl Token for RawText {
    type Out = Items<u8>;

    ghost use Rattle.cg_text.specs.RawLaws.{raw_completes, raw_one, raw_ends_is, raw_bytes};
    ghost use Rattle.cg_text.specs.WordLaws.{true_not_false};

    ghost means = { λ s rest line. IsRawRest s.bytes.items rest line };

    ghost size = { λ s. length s.bytes.items };

    ghost value_size = { length };

    ghost ends = { λ _. true };

    ghost grows = { true };

    fn push(&mut self, bytes: &[u8]) -> Pushed {
        let count = raw_length(bytes);
        if count == 0 {
            return if bytes.is_empty() {
                Pushed::All
            } else {
                Pushed::Refused(0)
            };
        }
        let (run, _) = bytes.split_at(count);
        match self.bytes.extend_from_slice(run) {
            Ok(()) => {}
            Err(_) => return Pushed::Starved(0),
        }
        if count == bytes.len() {
            Pushed::All
        } else {
            Pushed::Refused(count)
        }
    }

    fn allows(&self, byte: u8) -> bool {
        is_raw_byte(byte)
    }

    fn can_end(&self) -> bool {
        true
    }

    fn held(&self) -> u64 {
        self.bytes.len() as u64
    }

    fn take(self) -> Items<u8> {
        Items::of(self.bytes)
    }

    fn held_in(value: &Items<u8>) -> u64 {
        value.as_slice().len() as u64
    }

    ghost completes = { λ s. raw_completes s.bytes.items };

    ghost no_size = { λ e _. absurd (true_not_false e) };

    ghost ends_is = { λ s. raw_ends_is s.bytes.items };

    ghost one_value = { λ s. raw_one s.bytes.items };

    ghost holds_bytes = { λ s rest v h. raw_bytes rest h.raw };
}
