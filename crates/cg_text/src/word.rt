//! Words.
ghost use Rattle.std.specs.Prelude.{◌≡◌, ◌<◌, ◌↔◌, true, IsTrue, length, nat_lt};
ghost use Rattle.cg_text.specs.Word.{IsWordText, IsWordByte, IsNoSign};
ghost use Rattle.cg_text.specs.WordState.{IsWordFront, IsWordRest, is_taken};
ghost use Rattle.cg_text.specs.WordLaws.{IsWordFront_prop};
ghost use Rattle.cg_text.specs.Token.{Spells};

use crate::key::{Key, is_word_byte, word_front};
use crate::pushed::Pushed;
use crate::token::Token;
use std::alloc::Global;

/// A word, or a controller's word, which begins with no sign.
#[derive(Drop)]
pub struct WordText {
    alloc: Global,
    controller: bool,
    bytes: Vec<u8>,
    ghost sound: { IsWordFront controller bytes.items } by { IsWordFront_prop controller bytes.items },
}

/// Whether the byte may stand in a word, in one of a controller, at its beginning.
fn may_stand(controller: bool, first: bool, byte: u8) -> bool
    ensures { IsTrue result ↔ (IsWordByte byte × (IsTrue controller → IsTrue first → IsNoSign byte)) }
{
    if controller && first && (byte == b'+' || byte == b'-') {
        return false;
    }
    is_word_byte(byte)
}

impl WordText {
    /// A token of words, or of a controller's words.
    pub fn new(alloc: Global, controller: bool) -> WordText
        ensures spells { Spells ⟦<WordText as Token>⟧.means result
            (λ rest word. (word ≡ rest) × IsWordText controller rest) }
        ensures size { ⟦<WordText as Token>⟧.size result ≡ 0 }
    {
        WordText {
            alloc,
            controller,
            bytes: Vec::new(alloc),
        }
    }

    /// The bytes that were taken, which begin a word.
    pub fn bytes(&self) -> &[u8]
        ensures { result.now ≡ self.now.bytes.items }
    {
        self.bytes.as_slice()
    }

    /// Whether what was taken is this key.
    pub fn is(&self, key: &Key) -> bool
        ensures { result ≡ is_taken self.now.bytes.items key.now }
    {
        !self.bytes.is_empty() && self.bytes() == key.bytes()
    }
}

impl Token for WordText {
    type Out = Key;

    ghost use Rattle.cg_text.specs.WordLaws.{word_completes, word_one, word_ends_is, word_bytes, true_not_false};

    ghost means = { λ s rest word. IsWordRest s.controller s.bytes.items rest word };

    ghost size = { λ s. length s.bytes.items };

    ghost value_size = { length };

    ghost ends = { λ s. nat_lt 0 (length s.bytes.items) };

    ghost grows = { true };

    fn push(&mut self, bytes: &[u8]) -> Pushed {
        if bytes.is_empty() {
            return Pushed::All;
        }
        if !may_stand(self.controller, self.bytes.is_empty(), bytes[0]) {
            return Pushed::Refused(0);
        }
        let (count, _) = word_front(bytes);
        let (run, _) = bytes.split_at(count);
        match self.bytes.extend_from_slice(run) {
            Ok(()) => {}
            Err(_) => return Pushed::Starved(0),
        }
        if count == bytes.len() {
            Pushed::All
        } else {
            Pushed::Refused(count)
        }
    }

    #[inline(always)]
    fn whole(&self, bytes: &[u8]) -> Option<(Key, usize)> {
        // Where something was taken, the bytes are pushed.
        if !self.bytes.is_empty()
            || bytes.is_empty()
            || !may_stand(self.controller, true, bytes[0])
        {
            return None;
        }
        let (count, hash) = word_front(bytes);
        if count == 0 {
            return None;
        }
        match Key::of_word(self.alloc, bytes, count, hash) {
            Ok(key) => Some((key, count)),
            Err(_) => None,
        }
    }

    fn allows(&self, byte: u8) -> bool {
        may_stand(self.controller, self.bytes.is_empty(), byte)
    }

    fn can_end(&self) -> bool {
        !self.bytes.is_empty()
    }

    fn held(&self) -> u64 {
        self.bytes.len() as u64
    }

    fn take(self) -> Key {
        Key::of(self.bytes)
    }

    fn held_in(value: &Key) -> u64 {
        value.bytes().len() as u64
    }

    ghost completes = { λ s. word_completes s.controller s.bytes.items s.sound };

    ghost no_size = { λ e _. absurd (true_not_false e) };

    ghost ends_is = { λ s. word_ends_is s.controller s.bytes.items s.sound };

    ghost one_value = { λ s. word_one s.controller s.bytes.items };

    ghost holds_bytes = { λ s rest v h. word_bytes s.controller s.bytes.items rest v h };
}
