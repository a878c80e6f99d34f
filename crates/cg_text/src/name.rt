//! Name values.
ghost use Rattle.std.specs.Prelude.{◌≡◌, ◌↔◌, true, IsTrue, length, nat_lt};
ghost use Rattle.cg_text.specs.Name.{IsLower, IsNameValue};
ghost use Rattle.cg_text.specs.NameState.{IsNameFront, IsLowerFirst, IsNameRest};
ghost use Rattle.cg_text.specs.NameLaws.{IsNameFront_prop};
ghost use Rattle.cg_text.specs.Token.{Spells};

use crate::key::Key;
use crate::memory::OutOfMemory;
use crate::pushed::Pushed;
use crate::steps::{Steps, push_bytes};
use crate::token::{Token, push_count};
use crate::word::WordText;
use std::alloc::Global;

/// A word whose first byte is `a` to `z`.
#[derive(Drop)]
pub struct NameText {
    word: WordText,
    ghost front: { IsNameFront word.bytes.items } by { IsNameFront_prop word.bytes.items },
}

/// Whether the byte is `a` to `z`.
fn is_lower(byte: u8) -> bool
    ensures { IsTrue result ↔ IsLower byte }
{
    b'a' <= byte && byte <= b'z'
}

impl NameText {
    /// A token of name values.
    pub fn new(alloc: Global) -> NameText
        ensures spells { Spells ⟦<NameText as Token>⟧.means result
            (λ rest name. (name ≡ rest) × IsNameValue rest) }
        ensures size { ⟦<NameText as Token>⟧.size result ≡ 0 }
    {
        NameText {
            word: WordText::new(alloc, false),
        }
    }

    /// Whether the byte isn't the first, or is `a` to `z`.
    fn may_begin(&self, byte: u8) -> bool
        ensures { IsTrue result ↔ IsLowerFirst self.now.word.bytes.items byte }
    {
        self.word.can_end() || is_lower(byte)
    }
}

impl Token for NameText {
    type Out = Key;

    ghost use Rattle.cg_text.specs.NameLaws.{name_completes, name_ends};
    ghost use Rattle.cg_text.specs.WordLaws.{word_one, word_bytes, true_not_false};

    ghost means = { λ s rest name. IsNameRest s.word.controller s.word.bytes.items rest name };

    ghost size = { λ s. length s.word.bytes.items };

    ghost value_size = { length };

    ghost ends = { λ s. nat_lt 0 (length s.word.bytes.items) };

    ghost grows = { true };

    fn push(&mut self, bytes: &[u8]) -> Pushed {
        push_bytes(self, bytes)
    }

    fn whole(&self, bytes: &[u8]) -> Option<(Key, usize)> {
        match bytes.first() {
            Some(first) if is_lower(*first) => self.word.whole(bytes),
            _ => None,
        }
    }

    fn allows(&self, byte: u8) -> bool {
        self.may_begin(byte) && self.word.allows(byte)
    }

    fn can_end(&self) -> bool {
        self.word.can_end()
    }

    fn held(&self) -> u64 {
        self.word.held()
    }

    fn take(self) -> Key {
        self.word.take()
    }

    fn held_in(value: &Key) -> u64 {
        value.bytes().len() as u64
    }

    ghost completes = { λ s. name_completes s.word.controller s.word.bytes.items s.word.sound s.front };

    ghost no_size = { λ e _. absurd (true_not_false e) };

    ghost ends_is = { λ s. name_ends s.word.controller s.word.bytes.items s.word.sound s.front };

    ghost one_value = { λ s rest v w h k. word_one s.word.controller s.word.bytes.items rest v w h.0 k.0 };

    ghost holds_bytes = { λ s rest v h. word_bytes s.word.controller s.word.bytes.items rest v h.0 };
}

impl Steps for NameText {
    type Value = Key;

    ghost rests = { ⟦<NameText as Token>⟧.means };

    ghost room = { ⟦<NameText as Token>⟧.size };

    ghost grows = { ⟦<NameText as Token>⟧.grows };

    fn take_byte(&mut self, byte: u8) -> Result<bool, OutOfMemory> {
        if !self.may_begin(byte) {
            return Ok(false);
        }
        self.word.step(byte)
    }

    fn take_run(&mut self, bytes: &[u8]) -> usize {
        // The first byte goes by `take_byte`.
        if !self.word.can_end() {
            return 0;
        }
        push_count(&mut self.word, bytes)
    }
}
