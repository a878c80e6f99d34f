//! One or more words, all different, with a byte between.
ghost use Rattle.std.specs.Prelude.{◌≡◌, ◌+◌, ◌<◌, true, false, not, ◌&&◌, [], IsTrue, map};
ghost use Rattle.std.specs.List.{sum_by};
ghost use Rattle.cg_text.specs.Token.{Spells, saturated};
ghost use Rattle.cg_index.specs.Cells.{item_of};
ghost use Rattle.cg_join.specs.Repeat.{LacksEmpty, Stops, items_size, out_size};
ghost use Rattle.cg_join.specs.Distinct.{AreDistinct, AreDistinctJoined, any_value, IsDistinctAfter};
ghost use Rattle.cg_join.specs.DistinctLaws.{AreDistinct_prop};
ghost use Rattle.cg_join.specs.WordStartLaws.{SpellsWord};
ghost use Rattle.cg_text.specs.WordState.{is_taken};

use crate::make_token::MakeToken;
use crate::words::{WordStart, has};
use cg_index::{Cell, KeyedBuilder, KeyedItems};
use cg_text::{Key, OutOfMemory, Pushed, Steps, Token, WordText, push_bytes, push_count};
use std::alloc::Global;
use std::mem;

/// One or more words, all different, with a byte between that no word has. A word may end, or be followed by the byte,
/// only where it is new.
#[derive(Drop)]
pub struct DistinctWords {
    start: WordStart,
    separator: u8,
    items: KeyedBuilder<Key>,
    current: WordText,
    ghost stops: { Stops (⟦<WordText as Token>⟧.means current) separator },
    ghost starts: { Stops (SpellsWord start.controller) separator },
    ghost filled: { LacksEmpty (SpellsWord start.controller) },
    ghost room: { IsTrue (⟦<WordText as Token>⟧.ends current) → IsTrue items.has_room },
    ghost small: { separator < 256 },
    ghost distinct: { AreDistinct items.items } by { AreDistinct_prop items.items },
}

impl DistinctWords {
    /// One or more of the words whose tokens `start` makes, all different.
    pub fn new(alloc: Global, start: WordStart, separator: u8) -> DistinctWords
        requires stops { Stops (SpellsWord start.controller) separator }
        requires filled { LacksEmpty (SpellsWord start.controller) }
        ensures spells { Spells ⟦<DistinctWords as Token>⟧.means result
            (AreDistinctJoined (SpellsWord start.controller) separator) }
        ensures size { ⟦<DistinctWords as Token>⟧.size result ≡ 0 }
    {
        let current = start.start();
        DistinctWords {
            start,
            separator,
            items: KeyedBuilder::new(alloc),
            current,
        }
    }
}

/// The places, and the sum of the lengths of the words.
fn held_in_words(places: usize, cells: &[Cell<Key>]) -> u64
    ensures { result ≡ saturated (places + sum_by ⟦<WordText as Token>⟧.value_size (map item_of cells.now)) }
{
    let mut total = places as u64;
    for cell in cells {
        total = total.saturating_add(WordText::held_in(&cell.item));
    }
    total
}

impl Token for DistinctWords {
    type Out = KeyedItems<Key>;

    ghost use Rattle.cg_join.specs.ByteLaws.{list_bytes};
    ghost use Rattle.cg_join.specs.WordStartLaws.{one_word, taken_is, word_new, word_text_bytes};
    ghost use Rattle.cg_join.specs.RepeatLaws.{true_not_false};
    ghost use Rattle.cg_join.specs.DistinctLaws.{distinct_completes, distinct_ends, distinct_one};

    ghost means = { λ s rest all. IsDistinctAfter s.items.items (⟦<WordText as Token>⟧.means s.current)
        (SpellsWord s.start.controller) s.separator rest all };

    ghost size = { λ s. items_size ⟦<WordText as Token>⟧.value_size s.items.items
        + ⟦<WordText as Token>⟧.size s.current };

    ghost value_size = { out_size ⟦<WordText as Token>⟧.value_size };

    ghost ends = { λ s. ⟦<WordText as Token>⟧.ends s.current && not
        (any_value (is_taken s.current.bytes.items) s.items.items) };

    ghost grows = { true };

    fn push(&mut self, bytes: &[u8]) -> Pushed {
        push_bytes(self, bytes)
    }

    fn allows(&self, byte: u8) -> bool {
        let more = self.current.allows(byte);
        let next = byte == self.separator;
        let ended = self.can_end();
        more | (next & ended)
    }

    fn can_end(&self) -> bool {
        let ended = self.current.can_end();
        let old = has(&self.items, &self.current);
        ended & !old
    }

    fn held(&self) -> u64 {
        held_in_words(self.items.places(), self.items.cells()).saturating_add(self.current.held())
    }

    fn take(self) -> KeyedItems<Key> {
        let mut items = self.items;
        items.push(self.current.take());
        items.finish()
    }

    fn held_in(value: &KeyedItems<Key>) -> u64 {
        held_in_words(value.places().saturating_sub(1), value.cells())
    }

    ghost completes = { λ s. distinct_completes (⟦<WordText as Token>⟧.means s.current)
        (SpellsWord s.start.controller) s.separator s.items.items s.distinct
        (word_new s.current.controller s.current.bytes.items []
        (⟦<WordText as Token>⟧.completes s.current) s.items.items) };

    ghost no_size = { λ e s. absurd (true_not_false e) };

    ghost ends_is = { λ s. distinct_ends (⟦<WordText as Token>⟧.means s.current)
        (SpellsWord s.start.controller) s.separator s.items.items (is_taken s.current.bytes.items)
        (⟦<WordText as Token>⟧.ends s.current) s.distinct
        (taken_is s.current.controller s.current.bytes.items s.current.sound)
        (⟦<WordText as Token>⟧.one_value s.current) (⟦<WordText as Token>⟧.ends_is s.current) };

    ghost one_value = { λ s. distinct_one (⟦<WordText as Token>⟧.means s.current) (SpellsWord s.start.controller)
        s.separator s.items.items s.stops s.starts (⟦<WordText as Token>⟧.one_value s.current)
        (one_word s.start.controller) };

    ghost holds_bytes = { λ s rest all h. list_bytes (⟦<WordText as Token>⟧.means s.current)
        (SpellsWord s.start.controller) s.separator s.small (⟦<WordText as Token>⟧.holds_bytes s.current)
        (word_text_bytes s.start.controller) rest h.0.0 h.0.2 };
}

impl Steps for DistinctWords {
    type Value = KeyedItems<Key>;

    ghost rests = { ⟦<DistinctWords as Token>⟧.means };

    ghost room = { ⟦<DistinctWords as Token>⟧.size };

    ghost grows = { ⟦<DistinctWords as Token>⟧.grows };

    fn take_byte(&mut self, byte: u8) -> Result<bool, OutOfMemory> {
        // The last value is put in its place by `take`, which takes no memory.
        match self.items.reserve() {
            Ok(()) => {}
            Err(e) => {
                // A byte that is refused is refused without memory too.
                let allowed = self.allows(byte);
                return if allowed { Err(e) } else { Ok(false) };
            }
        }
        match self.current.step(byte) {
            Ok(true) => return Ok(true),
            Ok(false) => {}
            Err(e) => return Err(e),
        }
        if byte != self.separator {
            return Ok(false);
        }
        if !self.current.can_end() {
            return Ok(false);
        }
        if has(&self.items, &self.current) {
            return Ok(false);
        }
        let next = self.start.start();
        let done = mem::replace(&mut self.current, next);
        let value = done.take();
        self.items.push(value);
        Ok(true)
    }

    fn take_run(&mut self, bytes: &[u8]) -> usize {
        match self.items.reserve() {
            Ok(()) => {}
            Err(_) => return 0,
        }
        push_count(&mut self.current, bytes)
    }
}
