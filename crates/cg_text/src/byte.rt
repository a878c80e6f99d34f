//! One byte.
ghost use Rattle.std.specs.Prelude.{◌≡◌, ◌<◌, false, [], ◌∷◌, IfSome, refl};
ghost use Rattle.cg_text.specs.Token.{Spells};
ghost use Rattle.cg_text.specs.ByteLaws.{left};

use crate::memory::OutOfMemory;
use crate::pushed::Pushed;
use crate::steps::{Steps, push_bytes};
use crate::token::Token;

/// The text of one byte.
#[derive(Clone, Copy, Drop)]
pub struct ByteText {
    byte: u8,
    taken: bool,
    ghost small: { byte < 256 },
}

/// What is behind the space in front of `bytes`, if there is one.
pub(crate) fn behind_space(bytes: &[u8]) -> Option<&[u8]>
    ensures { IfSome result (λ rest. bytes.now ≡ 32 ∷ rest.now) }
{
    match bytes.split_first() {
        Some((first, rest)) if *first == b' ' => Some(rest),
        _ => None,
    }
}

impl ByteText {
    /// A token of this byte.
    pub fn new(byte: u8) -> ByteText
        ensures spells { Spells ⟦<ByteText as Token>⟧.means result (λ rest _. rest ≡ byte ∷ []) }
        ensures size { ⟦<ByteText as Token>⟧.size result ≡ 0 }
    {
        ByteText { byte, taken: false }
    }
}

impl Token for ByteText {
    type Out = ();

    ghost use Rattle.cg_text.specs.ByteLaws.{byte_ends, byte_bytes};

    ghost means = { λ s rest _. rest ≡ left s.taken s.byte };

    ghost size = { λ _. 0 };

    ghost value_size = { λ _. 0 };

    ghost ends = { λ s. s.taken };

    ghost grows = { false };

    fn push(&mut self, bytes: &[u8]) -> Pushed {
        push_bytes(self, bytes)
    }

    fn whole(&self, bytes: &[u8]) -> Option<((), usize)> {
        if self.taken || bytes.is_empty() || bytes[0] != self.byte {
            None
        } else {
            Some(((), 1))
        }
    }

    fn allows(&self, byte: u8) -> bool {
        !self.taken && byte == self.byte
    }

    fn can_end(&self) -> bool {
        self.taken
    }

    fn held(&self) -> u64 {
        0
    }

    fn take(self) {}

    fn held_in(_value: &()) -> u64 {
        0
    }

    ghost completes = { λ s. (left s.taken s.byte, tt, refl) };

    ghost no_size = { λ _ _. refl };

    ghost ends_is = { λ s. byte_ends s.taken s.byte };

    ghost one_value = { λ s rest v w h k. refl };

    ghost holds_bytes = { λ s rest v h. byte_bytes s.taken s.byte rest s.small h };
}

impl Steps for ByteText {
    type Value = ();

    ghost rests = { ⟦<ByteText as Token>⟧.means };

    ghost room = { ⟦<ByteText as Token>⟧.size };

    ghost grows = { ⟦<ByteText as Token>⟧.grows };

    fn take_byte(&mut self, byte: u8) -> Result<bool, OutOfMemory> {
        if !self.taken && byte == self.byte {
            self.taken = true;
            Ok(true)
        } else {
            Ok(false)
        }
    }
}
