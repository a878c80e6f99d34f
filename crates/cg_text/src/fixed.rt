//! A text that is always the same.
ghost use Rattle.std.specs.Prelude.{◌≡◌, ◌≤◌, false, length, drop, refl, nat_eq};
ghost use Rattle.cg_text.specs.Token.{Spells, AreBytes};
ghost use Rattle.cg_text.specs.TokenLaws.{AreBytes_prop};

use crate::memory::OutOfMemory;
use crate::pushed::Pushed;
use crate::steps::{Steps, push_bytes};
use crate::token::Token;

/// The one text.
#[derive(Clone, Copy, Drop)]
pub struct FixedText {
    text: &'static [u8],
    at: usize,
    ghost within: { at ≤ length text.now },
    ghost bytes: { AreBytes text.now } by { AreBytes_prop text.now },
}

impl FixedText {
    /// A token of this text.
    pub fn new(text: &'static [u8]) -> FixedText
        ensures spells { Spells ⟦<FixedText as Token>⟧.means result (λ rest _. rest ≡ text.now) }
        ensures size { ⟦<FixedText as Token>⟧.size result ≡ 0 }
    {
        FixedText { text, at: 0 }
    }
}

impl Token for FixedText {
    type Out = ();

    ghost use Rattle.cg_text.specs.TokenLaws.{fixed_bytes};
    ghost use Rattle.cg_text.specs.FixedLaws.{drop_at_end};

    ghost means = { λ s rest _. rest ≡ drop s.at s.text.now };

    ghost size = { λ _. 0 };

    ghost value_size = { λ _. 0 };

    ghost ends = { λ s. nat_eq s.at (length s.text.now) };

    ghost grows = { false };

    fn push(&mut self, bytes: &[u8]) -> Pushed {
        push_bytes(self, bytes)
    }

    fn allows(&self, byte: u8) -> bool {
        self.at < self.text.len() && self.text[self.at] == byte
    }

    fn can_end(&self) -> bool {
        self.at == self.text.len()
    }

    fn held(&self) -> u64 {
        0
    }

    fn take(self) {}

    fn held_in(_value: &()) -> u64 {
        0
    }

    ghost completes = { λ s. (drop s.at s.text.now, tt, refl) };

    ghost no_size = { λ _ _. refl };

    ghost ends_is = { λ s. drop_at_end s.at s.text.now s.within };

    ghost one_value = { λ s rest v w h k. refl };

    ghost holds_bytes = { λ s rest v h. fixed_bytes s.at s.text.now rest s.bytes h };
}

impl Steps for FixedText {
    type Value = ();

    ghost rests = { ⟦<FixedText as Token>⟧.means };

    ghost room = { ⟦<FixedText as Token>⟧.size };

    ghost grows = { ⟦<FixedText as Token>⟧.grows };

    fn take_byte(&mut self, byte: u8) -> Result<bool, OutOfMemory> {
        if self.at < self.text.len() && self.text[self.at] == byte {
            self.at += 1;
            Ok(true)
        } else {
            Ok(false)
        }
    }
}
