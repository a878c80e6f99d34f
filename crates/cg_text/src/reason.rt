//! The reason of an invalid partition, and the closing parenthesis behind it.
ghost use Rattle.std.specs.Prelude.{◌≡◌, ◌<◌, true, ◌++◌, length};
ghost use Rattle.cg_text.specs.Raw.{IsRawLine, IsReason};
ghost use Rattle.cg_text.specs.RawState.{is_closed};
ghost use Rattle.cg_text.specs.RawLaws.{IsRawLine_prop};
ghost use Rattle.cg_text.specs.Token.{Spells};

use crate::items::Items;
use crate::memory::OutOfMemory;
use crate::pushed::Pushed;
use crate::raw::is_raw_byte;
use crate::steps::{Steps, push_bytes};
use crate::token::Token;
use std::alloc::Global;

/// The bytes of a raw line, and `)`, which is the last byte. The reason may itself hold `)`.
#[derive(Drop)]
pub struct ReasonText {
    bytes: Vec<u8>,
    ghost raw: { IsRawLine bytes.items } by { IsRawLine_prop bytes.items },
}

impl ReasonText {
    /// A token of reasons.
    pub fn new(alloc: Global) -> ReasonText
        ensures spells { Spells ⟦<ReasonText as Token>⟧.means result (λ rest reason. IsReason reason rest) }
        ensures size { ⟦<ReasonText as Token>⟧.size result ≡ 0 }
    {
        ReasonText {
            bytes: Vec::new(alloc),
        }
    }
}

impl Token for ReasonText {
    type Out = Items<u8>;

    ghost use Rattle.cg_text.specs.RawLaws.{reason_completes, reason_one, reason_ends_is, reason_bytes};
    ghost use Rattle.cg_text.specs.WordLaws.{true_not_false};

    ghost means = { λ s rest reason. IsReason reason (s.bytes.items ++ rest) };

    ghost size = { λ s. length s.bytes.items };

    ghost value_size = { length };

    ghost ends = { λ s. is_closed s.bytes.items };

    ghost grows = { true };

    fn push(&mut self, bytes: &[u8]) -> Pushed {
        push_bytes(self, bytes)
    }

    fn allows(&self, byte: u8) -> bool {
        is_raw_byte(byte)
    }

    fn can_end(&self) -> bool {
        !self.bytes.is_empty() && self.bytes[self.bytes.len() - 1] == b')'
    }

    fn held(&self) -> u64 {
        self.bytes.len() as u64
    }

    fn take(self) -> Items<u8> {
        let mut bytes = self.bytes;
        bytes.pop();
        Items::of(bytes)
    }

    fn held_in(value: &Items<u8>) -> u64 {
        value.as_slice().len() as u64
    }

    ghost completes = { λ s. reason_completes s.bytes.items s.raw };

    ghost no_size = { λ e _. absurd (true_not_false e) };

    ghost ends_is = { λ s. reason_ends_is s.bytes.items s.raw };

    ghost one_value = { λ s rest. reason_one (s.bytes.items ++ rest) };

    ghost holds_bytes = { λ s rest v h. reason_bytes s.bytes.items rest v h };
}

impl Steps for ReasonText {
    type Value = Items<u8>;

    ghost rests = { ⟦<ReasonText as Token>⟧.means };

    ghost room = { ⟦<ReasonText as Token>⟧.size };

    ghost grows = { ⟦<ReasonText as Token>⟧.grows };

    fn take_byte(&mut self, byte: u8) -> Result<bool, OutOfMemory> {
        if !is_raw_byte(byte) {
            return Ok(false);
        }
        self.bytes.push(byte)?;
        Ok(true)
    }
}
