//! Lists of numbers and ranges in any order.
ghost use Rattle.std.specs.Prelude.{◌≡◌, false, length};
ghost use Rattle.cg_text.specs.Token.{Spells};
ghost use Rattle.cg_text.specs.List.{IsLooseList};
ghost use Rattle.cg_text.specs.GivenRanges.{GivesOnly, only_ranges_prop};
ghost use Rattle.cg_text.specs.LooseState.{IsLooseRest};
ghost use Rattle.cg_text.specs.Numbers.{AreRanges};

use crate::numbers::{NumberSet, join};
use crate::pushed::Pushed;
use crate::ranges::RangesText;
use crate::token::Token;
use std::alloc::Global;

/// Numbers and ranges in any order, which may overlap, with commas between: `a` or `a-b`, where b is at least a. None
/// is the empty text.
#[derive(Drop)]
pub struct LooseListText {
    list: RangesText,
    ghost sound: { GivesOnly AreRanges list } by { only_ranges_prop list },
}

impl LooseListText {
    /// A token of such lists of numbers up to `most`. It takes no memory yet.
    pub fn new(alloc: Global, most: u32) -> LooseListText
        ensures spells { Spells ⟦<LooseListText as Token>⟧.means result (λ rest set. IsLooseList most set rest) }
        ensures size { ⟦<LooseListText as Token>⟧.size result ≡ 0 }
    {
        LooseListText {
            list: RangesText::new(alloc, false, most),
        }
    }
}

impl Token for LooseListText {
    type Out = NumberSet;

    ghost use Rattle.cg_text.specs.LooseLaws.{loose_completes, loose_ends, loose_one};

    ghost means = { λ s. IsLooseRest (⟦<RangesText as Token>⟧.means s.list) };

    ghost size = { λ s. ⟦<RangesText as Token>⟧.size s.list };

    ghost value_size = { length };

    ghost ends = { λ s. ⟦<RangesText as Token>⟧.ends s.list };

    ghost grows = { ⟦<RangesText as Token>⟧.grows };

    fn push(&mut self, bytes: &[u8]) -> Pushed {
        self.list.push(bytes)
    }

    fn allows(&self, byte: u8) -> bool {
        self.list.allows(byte)
    }

    fn can_end(&self) -> bool {
        self.list.can_end()
    }

    fn held(&self) -> u64 {
        self.list.held()
    }

    fn take(self) -> NumberSet {
        let mut ranges = self.list.take().into_vec();
        join(&mut ranges);
        NumberSet { ranges }
    }

    fn held_in(value: &NumberSet) -> u64 {
        value.ranges.len() as u64
    }

    ghost completes = { λ s. loose_completes (⟦<RangesText as Token>⟧.means s.list) s.sound
        (⟦<RangesText as Token>⟧.completes s.list) };

    ghost no_size = { λ e s. ⟦<RangesText as Token>⟧.no_size e s.list };

    ghost ends_is = { λ s. loose_ends (⟦<RangesText as Token>⟧.means s.list) (⟦<RangesText as Token>⟧.ends s.list)
        s.sound (⟦<RangesText as Token>⟧.ends_is s.list) };

    ghost one_value = { λ s. loose_one (⟦<RangesText as Token>⟧.means s.list)
        (⟦<RangesText as Token>⟧.one_value s.list) };

    ghost holds_bytes = { λ s rest set h. ⟦<RangesText as Token>⟧.holds_bytes s.list rest h.0 h.1 };
}
