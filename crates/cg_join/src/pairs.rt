//! Any number of pairs of a word and a value, the words all different.
ghost use Rattle.std.specs.Prelude.{◌≡◌, ◌+◌, ◌≤◌, ◌<◌, true, false, [], map, length, IsTrue, IfSome, OnErr};
ghost use Rattle.cg_text.specs.Token.{Begins, Follows, IfRefused, IfTaken, NoneBegins, Same, Spells, UnlessTaken};
ghost use Rattle.cg_join.specs.Repeat.{Stops, items_size};
ghost use Rattle.cg_join.specs.Line.{LacksByte};
ghost use Rattle.cg_join.specs.Distinct.{AreDistinct};
ghost use Rattle.cg_join.specs.DistinctLaws.{AreDistinct_prop};
ghost use Rattle.cg_join.specs.JoinedPairs.{AreJoinedPairs};
ghost use Rattle.cg_join.specs.Pairs.{IsPairFront, IsPairText, PairRest, ArePairs, ArePairsAfter, pair_size};
ghost use Rattle.cg_join.specs.PairsState.{WordAtHand, last_size, whole_pairs};
ghost use Rattle.cg_join.specs.WordStartLaws.{SpellsWord};
ghost use Rattle.cg_join.specs.declared.pairs.Stage.TheVariants.{Before, InWord, InValue};

use crate::make_token::MakeToken;
use crate::pairing::{Pairing, complete_last, held_in_pairs, is_old_word, renew};
use crate::words::WordStart;
use cg_index::{KeyedBuilder, KeyedItems};
use cg_text::{OutOfMemory, Pushed, Steps, Token, WordText, push_bytes, push_count};
use std::alloc::Global;
use std::marker::PhantomData;

/// A pair with its separator mostly has this many bytes or more.
const PAIR: usize = 10;

/// For how many pairs there is room at most before they come.
const ROOM: usize = 16;

/// How far the pair at hand is.
#[derive(Clone, Copy)]
pub enum Stage {
    /// No pair is begun.
    Before,
    /// Its word can be lengthened.
    InWord,
    /// Its word is ended by the delimiter.
    InValue,
}

/// Any number of pairs, also none, each a separator, a word, a delimiter and a value. No word comes twice:
/// one may be followed by the delimiter, which no word has, only where it is new.
#[derive(Drop)]
pub struct DistinctPairs<V: Token, B: MakeToken<V>, F: Pairing<V>> {
    words: WordStart,
    values: B,
    separator: u8,
    delimiter: u8,
    /// In a value, the last pair is that of the value.
    items: KeyedBuilder<F::Pair>,
    stage: Stage,
    word: WordText,
    value: V,
    pairing: PhantomData<F>,
    ghost lacks: { LacksByte (⟦<WordText as Token>⟧.means word) delimiter },
    ghost words_lack: { LacksByte (SpellsWord words.controller) delimiter },
    ghost stops: { Stops (V.means value) separator },
    ghost values_stop: { Stops (B.texts values) separator },
    ghost small_separator: { separator < 256 },
    ghost small_delimiter: { delimiter < 256 },
    ghost begun: { stage ≡ InValue → 0 < length items.items },
    ghost awaits: { stage ≡ InValue → last_size (λ p. V.value_size (F.value_of p)) items.items ≡ 0 },
    ghost new_word: { (stage ≡ InWord → ⊥) → ⟦<WordText as Token>⟧.size word ≡ 0 },
    ghost distinct: { AreDistinct (map F.word_of items.items) } by { AreDistinct_prop (map F.word_of items.items) },
}

impl<V: Token, B: MakeToken<V>, F: Pairing<V>> DistinctPairs<V, B, F> {
    /// Any number of pairs of a word and a value, whose tokens are made by `words` and `values`.
    pub fn new(
        alloc: Global,
        words: WordStart,
        values: B,
        separator: u8,
        delimiter: u8,
    ) -> DistinctPairs<V, B, F>
        requires lacks { LacksByte (SpellsWord words.controller) delimiter }
        requires stops { Stops (B.texts values) separator }
        ensures spells { Spells ⟦<DistinctPairs<V, B, F> as Token>⟧.means result
            (ArePairs F.word_of (IsPairText F.word_of F.value_of (SpellsWord words.controller) (B.texts values)
            delimiter)
            separator) }
        ensures size { ⟦<DistinctPairs<V, B, F> as Token>⟧.size result ≡ 0 }
    {
        let word = words.start();
        let value = values.start();
        DistinctPairs {
            words,
            values,
            separator,
            delimiter,
            items: KeyedBuilder::new(alloc),
            stage: Stage::Before,
            word,
            value,
            pairing: PhantomData,
        }
    }
    /// One or more pairs of a word and a value, with a separator between them but none before the first.
    pub fn joined(
        alloc: Global,
        words: WordStart,
        values: B,
        separator: u8,
        delimiter: u8,
    ) -> DistinctPairs<V, B, F>
        requires lacks { LacksByte (SpellsWord words.controller) delimiter }
        requires stops { Stops (B.texts values) separator }
        ensures spells { Spells ⟦<DistinctPairs<V, B, F> as Token>⟧.means result
            (AreJoinedPairs F.word_of (IsPairText F.word_of F.value_of (SpellsWord words.controller) (B.texts values)
            delimiter) separator) }
        ensures size { ⟦<DistinctPairs<V, B, F> as Token>⟧.size result ≡ 0 }
    {
        let word = words.start();
        let value = values.start();
        DistinctPairs {
            words,
            values,
            separator,
            delimiter,
            items: KeyedBuilder::new(alloc),
            stage: Stage::InWord,
            word,
            value,
            pairing: PhantomData,
        }
    }

    /// Takes a byte of a word, or the delimiter after it.
    fn step_word(&mut self, byte: u8) -> Result<bool, OutOfMemory>
        requires { self.old.stage ≡ InWord }
        ensures taken { IfTaken result (Follows ⟦<DistinctPairs<V, B, F> as Token>⟧.means self.old byte self.new) }
        ensures refused { IfRefused result (NoneBegins ⟦<DistinctPairs<V, B, F> as Token>⟧.means self.old byte) }
        ensures same { UnlessTaken result (Same ⟦<DistinctPairs<V, B, F> as Token>⟧.means self.old self.new) }
        ensures same_size { UnlessTaken result (⟦<DistinctPairs<V, B, F> as Token>⟧.size self.new ≡
            ⟦<DistinctPairs<V, B, F> as Token>⟧.size self.old) }
        ensures size { ⟦<DistinctPairs<V, B, F> as Token>⟧.size self.new ≤ ⟦<DistinctPairs<V, B, F> as Token>⟧.size
            self.old + 1 }
        ensures last { OnErr result (Begins ⟦<DistinctPairs<V, B, F> as Token>⟧.means self.old byte) }
    {
        if byte != self.delimiter {
            return self.word.step(byte);
        }
        if !self.word.can_end() {
            return Ok(false);
        }
        if is_old_word::<V, F>(&self.items, &self.word) {
            return Ok(false);
        }
        match self.items.reserve() {
            Ok(()) => {}
            Err(e) => return Err(e),
        }
        let word = renew(&mut self.word, &self.words);
        self.items.push(F::begin(word));
        self.stage = Stage::InValue;
        Ok(true)
    }

    /// Takes a byte of a value, or the separator after it.
    fn step_value(&mut self, byte: u8) -> Result<bool, OutOfMemory>
        requires { self.old.stage ≡ InValue }
        ensures taken { IfTaken result (Follows ⟦<DistinctPairs<V, B, F> as Token>⟧.means self.old byte self.new) }
        ensures refused { IfRefused result (NoneBegins ⟦<DistinctPairs<V, B, F> as Token>⟧.means self.old byte) }
        ensures same { UnlessTaken result (Same ⟦<DistinctPairs<V, B, F> as Token>⟧.means self.old self.new) }
        ensures same_size { UnlessTaken result (⟦<DistinctPairs<V, B, F> as Token>⟧.size self.new ≡
            ⟦<DistinctPairs<V, B, F> as Token>⟧.size self.old) }
        ensures size { ⟦<DistinctPairs<V, B, F> as Token>⟧.size self.new ≤ ⟦<DistinctPairs<V, B, F> as Token>⟧.size
            self.old + 1 }
        ensures last { OnErr result (Begins ⟦<DistinctPairs<V, B, F> as Token>⟧.means self.old byte) }
    {
        match self.value.step(byte) {
            Ok(true) => return Ok(true),
            Ok(false) => {}
            Err(e) => return Err(e),
        }
        if byte != self.separator {
            return Ok(false);
        }
        if !self.value.can_end() {
            return Ok(false);
        }
        let value = renew(&mut self.value, &self.values);
        complete_last::<V, F>(&mut self.items, value);
        // The token is as new, but what it takes is known only of one that is made here.
        self.word = self.words.start();
        self.stage = Stage::InWord;
        Ok(true)
    }
}

impl<V: Token, B: MakeToken<V>, F: Pairing<V>> DistinctPairs<V, B, F> {
    /// Whether the word of the first pair is at hand.
    fn is_first_word(&self) -> bool
        ensures { IsTrue result → (self.now.stage ≡ InWord) × (self.now.items.items ≡ []) }
    {
        match self.stage {
            Stage::Before => false,
            Stage::InWord => self.items.cells().is_empty(),
            Stage::InValue => false,
        }
    }
}

/// The pair in front of the bytes, a rest of the word, the delimiter and a rest of the value, and how many bytes it
/// has. It may find none where there is one.
#[inline(always)]
fn pair_in_front<V: Token, F: Pairing<V>>(
    word: &WordText,
    value: &V,
    delimiter: u8,
    bytes: &[u8],
) -> Option<(F::Pair, usize)>
    ensures front { IfSome result (IsPairFront F.word_of F.value_of (⟦<WordText as Token>⟧.means word.now)
        (V.means value.now) delimiter bytes.now) }
    ensures size { IfSome result (λ r. pair_size F.word_of F.value_of ⟦<WordText as Token>⟧.value_size V.value_size r.0
        + 1 ≤ ⟦<WordText as Token>⟧.size word.now + (V.size value.now + r.1)) }
{
    let (key, count) = match word.whole(bytes) {
        Some(found) => found,
        None => return None,
    };
    if count == bytes.len() || bytes[count] != delimiter {
        return None;
    }
    let (_, rest) = bytes.split_at(count + 1);
    let (part, more) = match value.whole(rest) {
        Some(found) => found,
        None => return None,
    };
    let mut pair = F::begin(key);
    F::complete(&mut pair, part);
    Some((pair, count + 1 + more))
}

impl<V: Token, B: MakeToken<V>, F: Pairing<V>> Token for DistinctPairs<V, B, F> {
    type Out = KeyedItems<F::Pair>;

    ghost use Rattle.cg_join.specs.RepeatLaws.{true_not_false};
    ghost use Rattle.cg_join.specs.PairsLaws.{ends_at, led_after_bytes, led_after_one, pair_bytes, pair_one, pair_stops};
    ghost use Rattle.cg_join.specs.WordStartLaws.{one_word, word_new, word_text_bytes};
    ghost use Rattle.cg_join.specs.PairsStateLaws.{state_bytes, state_completes, state_ends, state_one, state_stops};

    ghost means = { λ s rest all. ArePairsAfter F.word_of s.stage (whole_pairs s.stage s.items.items)
        (PairRest F.word_of F.value_of
        (WordAtHand F.word_of s.stage s.items.items (⟦<WordText as Token>⟧.means s.word))
        (V.means s.value) s.stage s.delimiter)
        (IsPairText F.word_of F.value_of (SpellsWord s.words.controller) (B.texts s.values) s.delimiter) s.separator
        rest
        all };

    ghost size = { λ s. items_size (pair_size F.word_of F.value_of ⟦<WordText as Token>⟧.value_size V.value_size)
        s.items.items + (⟦<WordText as Token>⟧.size s.word + V.size s.value) };

    ghost value_size = { items_size (pair_size F.word_of F.value_of ⟦<WordText as Token>⟧.value_size V.value_size) };

    ghost ends = { λ s. ends_at s.stage (V.ends s.value) };

    ghost grows = { true };

    fn push(&mut self, bytes: &[u8]) -> Pushed {
        push_bytes(self, bytes)
    }

    fn whole(&self, bytes: &[u8]) -> Option<(KeyedItems<F::Pair>, usize)> {
        if !self.is_first_word() {
            return None;
        }
        let (pair, mut used) = match pair_in_front::<V, F>(
            &self.word,
            &self.value,
            self.delimiter,
            bytes,
        ) {
            Some(found) => found,
            None => return None,
        };
        // Room for all pairs at once, where they are few.
        let room = (bytes.len() / PAIR).min(ROOM);
        let mut items = KeyedItems::with_room(self.words.alloc(), room);
        if items.push(pair).is_err() {
            return None;
        }
        let word = self.words.start();
        let value = self.values.start();
        while used < bytes.len() && bytes[used] == self.separator {
            let (_, rest) = bytes.split_at(used + 1);
            let (pair, count) = match pair_in_front::<V, F>(&word, &value, self.delimiter, rest) {
                Some(found) => found,
                None => return None,
            };
            if items.push(pair).is_err() {
                return None;
            }
            used += 1 + count;
        }
        Some((items, used))
    }

    fn allows(&self, byte: u8) -> bool {
        match self.stage {
            Stage::Before => byte == self.separator,
            Stage::InWord => {
                if byte != self.delimiter {
                    return self.word.allows(byte);
                }
                let ended = self.word.can_end();
                let old = is_old_word::<V, F>(&self.items, &self.word);
                ended & !old
            }
            Stage::InValue => {
                let more = self.value.allows(byte);
                let next = byte == self.separator;
                let ended = self.value.can_end();
                more | (next & ended)
            }
        }
    }

    fn can_end(&self) -> bool {
        match self.stage {
            Stage::Before => true,
            Stage::InWord => false,
            Stage::InValue => self.value.can_end(),
        }
    }

    fn held(&self) -> u64 {
        let at_hand = self.word.held().saturating_add(self.value.held());
        held_in_pairs::<V, F>(self.items.places(), self.items.cells()).saturating_add(at_hand)
    }

    fn take(self) -> KeyedItems<F::Pair> {
        let mut items = self.items;
        let value = self.value;
        match self.stage {
            Stage::Before => items.finish(),
            Stage::InWord => unreachable!(),
            Stage::InValue => {
                complete_last::<V, F>(&mut items, value.take());
                items.finish()
            }
        }
    }

    fn held_in(value: &KeyedItems<F::Pair>) -> u64 {
        held_in_pairs::<V, F>(value.places(), value.cells())
    }

    ghost completes = { λ s. state_completes F.word_of F.value_of F.paired F.has_word F.has_value s.items.items
        (IsPairText F.word_of F.value_of (SpellsWord s.words.controller) (B.texts s.values) s.delimiter) s.separator
        s.delimiter (⟦<WordText as Token>⟧.means s.word) (V.means s.value) s.distinct s.stage
        (word_new s.word.controller s.word.bytes.items [] (⟦<WordText as Token>⟧.completes s.word)
        (map F.word_of s.items.items)) (V.completes s.value) s.begun };

    ghost no_size = { λ e s. absurd (true_not_false e) };

    ghost ends_is = { λ s. state_ends F.word_of F.value_of F.paired F.has_word F.has_value s.items.items
        (IsPairText F.word_of F.value_of (SpellsWord s.words.controller) (B.texts s.values) s.delimiter) s.separator
        s.delimiter (⟦<WordText as Token>⟧.means s.word) (V.means s.value) s.distinct s.stage (V.ends s.value)
        (V.ends_is s.value) s.begun };

    ghost one_value = { λ s rest v w h k. led_after_one s.separator s.stage (whole_pairs s.stage s.items.items)
        (PairRest F.word_of F.value_of
        (WordAtHand F.word_of s.stage s.items.items (⟦<WordText as Token>⟧.means s.word))
        (V.means s.value) s.stage s.delimiter)
        (IsPairText F.word_of F.value_of (SpellsWord s.words.controller) (B.texts s.values) s.delimiter)
        (state_stops F.word_of F.value_of (⟦<WordText as Token>⟧.means s.word) s.delimiter s.items.items
        (V.means s.value)
        s.stage s.separator s.lacks s.stops)
        (pair_stops F.word_of F.value_of s.delimiter (SpellsWord s.words.controller) (B.texts s.values) s.separator
        s.words_lack s.values_stop)
        (state_one F.word_of F.value_of (⟦<WordText as Token>⟧.means s.word) s.delimiter s.items.items F.paired F.whole
        (V.means s.value) s.stage s.lacks (⟦<WordText as Token>⟧.one_value s.word) (V.one_value s.value))
        (pair_one F.word_of F.value_of (SpellsWord s.words.controller) s.delimiter F.paired F.whole (B.texts s.values)
        s.words_lack (one_word s.words.controller) (B.one_text s.values))
        rest v w h.0 k.0 };

    ghost holds_bytes = { λ s rest all h. led_after_bytes s.separator s.stage (whole_pairs s.stage s.items.items)
        (PairRest F.word_of F.value_of
        (WordAtHand F.word_of s.stage s.items.items (⟦<WordText as Token>⟧.means s.word))
        (V.means s.value) s.stage s.delimiter)
        (IsPairText F.word_of F.value_of (SpellsWord s.words.controller) (B.texts s.values) s.delimiter)
        s.small_separator
        (state_bytes F.word_of F.value_of (⟦<WordText as Token>⟧.means s.word) s.delimiter s.items.items
        (V.means s.value)
        s.stage s.small_delimiter (⟦<WordText as Token>⟧.holds_bytes s.word) (V.holds_bytes s.value))
        (pair_bytes F.word_of F.value_of s.delimiter (SpellsWord s.words.controller) (B.texts s.values)
        s.small_delimiter
        (word_text_bytes s.words.controller) (B.text_bytes s.values))
        rest all h.0 };
}

impl<V: Token, B: MakeToken<V>, F: Pairing<V>> Steps for DistinctPairs<V, B, F> {
    type Value = KeyedItems<F::Pair>;

    ghost rests = { ⟦<DistinctPairs<V, B, F> as Token>⟧.means };

    ghost room = { ⟦<DistinctPairs<V, B, F> as Token>⟧.size };

    ghost grows = { ⟦<DistinctPairs<V, B, F> as Token>⟧.grows };

    fn take_byte(&mut self, byte: u8) -> Result<bool, OutOfMemory> {
        match self.stage {
            Stage::Before => {
                if byte != self.separator {
                    return Ok(false);
                }
                self.stage = Stage::InWord;
                Ok(true)
            }
            Stage::InWord => self.step_word(byte),
            Stage::InValue => self.step_value(byte),
        }
    }

    fn take_run(&mut self, bytes: &[u8]) -> usize {
        match self.stage {
            Stage::Before => 0,
            Stage::InWord => push_count(&mut self.word, bytes),
            Stage::InValue => push_count(&mut self.value, bytes),
        }
    }
}
