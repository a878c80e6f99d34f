//! Words as the tokens of repetitions.
ghost use Rattle.std.specs.Prelude.{◌≡◌, map};
ghost use Rattle.cg_text.specs.Word.{IsWordText};
ghost use Rattle.cg_text.specs.WordState.{is_taken};
ghost use Rattle.cg_join.specs.Distinct.{any_value};

use crate::make_token::MakeToken;
use cg_index::{HasKey, KeyedBuilder};
use cg_text::WordText;
use std::alloc::Global;

/// Makes tokens of words, or of a controller's words.
#[derive(Clone, Copy)]
pub struct WordStart {
    alloc: Global,
    controller: bool,
}

impl WordStart {
    /// Words, or a controller's words, which begin with no sign.
    pub fn new(alloc: Global, controller: bool) -> WordStart
        ensures { result.controller ≡ controller }
    {
        WordStart { alloc, controller }
    }

    /// From where words take their memory.
    pub(crate) fn alloc(&self) -> Global {
        self.alloc
    }
}

impl MakeToken<WordText> for WordStart {
    ghost use Rattle.cg_join.specs.WordStartLaws.{some_word, one_word, word_text_bytes};

    ghost texts = { λ s text word. (word ≡ text) × IsWordText s.controller text };

    fn start(&self) -> WordText {
        WordText::new(self.alloc, self.controller)
    }

    ghost some_text = { λ s. some_word s.controller };

    ghost one_text = { λ s. one_word s.controller };

    ghost text_bytes = { λ s. word_text_bytes s.controller };
}

/// Whether what was taken is the key of an item.
pub(crate) fn has<T: HasKey>(items: &KeyedBuilder<T>, token: &WordText) -> bool
    ensures { result ≡ any_value (is_taken token.now.bytes.items) (map T.key_of items.now.items) }
{
    let taken = token.bytes();
    !taken.is_empty() && items.has(taken)
}
