//! Lists of numbers and ranges.
ghost use Rattle.std.specs.Prelude.{◌≡◌, true, length};
ghost use Rattle.cg_text.specs.Token.{Spells};
ghost use Rattle.cg_text.specs.List.{IsStrictList};
ghost use Rattle.cg_text.specs.GivenRanges.{GivesOnly, only_sets_prop};
ghost use Rattle.cg_text.specs.Numbers.{IsSet};

use crate::numbers::NumberSet;
use crate::pushed::Pushed;
use crate::ranges::RangesText;
use crate::token::Token;
use std::alloc::Global;

/// The maximal ranges of a set in order, with commas between: `a` or `a-b`. The empty set is the empty text.
#[derive(Drop)]
pub struct StrictListText {
    list: RangesText,
    ghost sound: { GivesOnly IsSet list } by { only_sets_prop list },
}

impl StrictListText {
    /// A token of such lists of numbers up to `most`. It takes no memory yet.
    pub fn new(alloc: Global, most: u32) -> StrictListText
        ensures spells { Spells ⟦<StrictListText as Token>⟧.means result (λ rest set. IsStrictList most set rest) }
        ensures size { ⟦<StrictListText as Token>⟧.size result ≡ 0 }
    {
        StrictListText {
            list: RangesText::new(alloc, true, most),
        }
    }
}

impl Token for StrictListText {
    type Out = NumberSet;

    ghost means = { λ s. ⟦<RangesText as Token>⟧.means s.list };

    ghost size = { λ s. ⟦<RangesText as Token>⟧.size s.list };

    ghost value_size = { length };

    ghost ends = { λ s. ⟦<RangesText as Token>⟧.ends s.list };

    ghost grows = { ⟦<RangesText as Token>⟧.grows };

    fn push(&mut self, bytes: &[u8]) -> Pushed {
        self.list.push(bytes)
    }

    fn allows(&self, byte: u8) -> bool {
        self.list.allows(byte)
    }

    fn can_end(&self) -> bool {
        self.list.can_end()
    }

    fn held(&self) -> u64 {
        self.list.held()
    }

    fn take(self) -> NumberSet {
        let ranges = self.list.take().into_vec();
        NumberSet { ranges }
    }

    fn held_in(value: &NumberSet) -> u64 {
        value.ranges.len() as u64
    }

    ghost completes = { λ s. ⟦<RangesText as Token>⟧.completes s.list };

    ghost no_size = { λ e s. ⟦<RangesText as Token>⟧.no_size e s.list };

    ghost ends_is = { λ s. ⟦<RangesText as Token>⟧.ends_is s.list };

    ghost one_value = { λ s. ⟦<RangesText as Token>⟧.one_value s.list };

    ghost holds_bytes = { λ s. ⟦<RangesText as Token>⟧.holds_bytes s.list };
}
