//! What makes the tokens of the pairs of a line.
ghost use Rattle.std.specs.Prelude.{◌≡◌, ◌<◌, Option, Some, []};
ghost use Rattle.cg_join.specs.JoinedPairs.{AreJoinedPairs};
ghost use Rattle.cg_join.specs.Line.{LacksByte};
ghost use Rattle.cg_join.specs.Pairs.{IsPairText};
ghost use Rattle.cg_join.specs.Repeat.{Stops};
ghost use Rattle.cg_join.specs.WordStartLaws.{SpellsWord};

use crate::make_token::MakeToken;
use crate::make_value::MakeValue;
use crate::pairing::Pairing;
use crate::pairs::DistinctPairs;
use crate::words::WordStart;
use cg_index::KeyedItems;
use cg_text::{Token, WordText};
use std::alloc::Global;
use std::marker::PhantomData;

/// Makes tokens of the pairs that follow a key: one or more, with a separator between, no word twice.
/// A key that stands alone has none.
#[derive(Drop)]
pub struct PairsStart<V: Token, B: MakeToken<V> + Copy, F: Pairing<V>> {
    alloc: Global,
    words: WordStart,
    values: B,
    separator: u8,
    delimiter: u8,
    value: PhantomData<V>,
    pairing: PhantomData<F>,
    ghost lacks: { LacksByte (SpellsWord words.controller) delimiter },
    ghost stops: { Stops (B.texts values) separator },
    ghost small_separator: { separator < 256 },
    ghost small_delimiter: { delimiter < 256 },
}

impl<V: Token, B: MakeToken<V> + Copy, F: Pairing<V>> PairsStart<V, B, F> {
    /// Pairs of a word and a value, whose tokens are made by `words` and `values`.
    pub fn new(
        alloc: Global,
        words: WordStart,
        values: B,
        separator: u8,
        delimiter: u8,
    ) -> PairsStart<V, B, F>
        requires lacks { LacksByte (SpellsWord words.controller) delimiter }
        requires stops { Stops (B.texts values) separator }
        ensures words { result.words ≡ words }
        ensures values { result.values ≡ values }
        ensures separator { result.separator ≡ separator }
        ensures delimiter { result.delimiter ≡ delimiter }
    {
        PairsStart {
            alloc,
            words,
            values,
            separator,
            delimiter,
            value: PhantomData,
            pairing: PhantomData,
        }
    }
}

impl<V: Token, B: MakeToken<V> + Copy, F: Pairing<V>> MakeToken<DistinctPairs<V, B, F>>
    for PairsStart<V, B, F> {
    ghost use Rattle.cg_join.specs.JoinedPairsLaws.{joined_bytes, joined_one, joined_some};
    ghost use Rattle.cg_join.specs.WordStartLaws.{new_word_text, one_word, word_text_bytes};

    ghost texts = { λ s. AreJoinedPairs F.word_of (IsPairText F.word_of F.value_of (SpellsWord s.words.controller)
        (B.texts s.values) s.delimiter) s.separator };

    fn start(&self) -> DistinctPairs<V, B, F> {
        DistinctPairs::joined(
            self.alloc,
            self.words,
            self.values,
            self.separator,
            self.delimiter,
        )
    }

    ghost some_text = { λ s. joined_some F.word_of F.value_of (SpellsWord s.words.controller) (B.texts s.values)
        s.delimiter
        s.separator F.paired F.has_word F.has_value (new_word_text s.words.controller) (B.some_text s.values) };

    ghost one_text = { λ s. joined_one F.word_of F.value_of (SpellsWord s.words.controller) (B.texts s.values)
        s.delimiter
        s.separator F.paired F.whole s.lacks s.stops (one_word s.words.controller) (B.one_text s.values) };

    ghost text_bytes = { λ s. joined_bytes F.word_of F.value_of (SpellsWord s.words.controller) (B.texts s.values)
        s.delimiter s.separator s.small_delimiter s.small_separator (word_text_bytes s.words.controller)
        (B.text_bytes s.values) };
}

impl<V: Token, B: MakeToken<V> + Copy, F: Pairing<V>> MakeValue<DistinctPairs<V, B, F>>
    for PairsStart<V, B, F> {
    ghost use Rattle.cg_join.specs.JoinedPairsLaws.{no_pairs};
    ghost use Rattle.cg_join.specs.Pairs.{pair_size};

    ghost bare_value = { λ _. Some [] };

    fn bare_value(&self) -> Option<KeyedItems<F::Pair>> {
        Some(KeyedItems::new(self.alloc))
    }

    ghost bare_value_empty = { λ s ps e. no_pairs (pair_size F.word_of F.value_of ⟦<WordText as Token>⟧.value_size
        V.value_size) ps e };
}
