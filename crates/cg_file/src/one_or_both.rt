//! One of two tokens, or both in their order.
ghost use Rattle.std.specs.Prelude.{◌≡◌, ◌+◌, ◌||◌, IsTrue};
ghost use Rattle.cg_text.specs.Token.{Spells};
ghost use Rattle.cg_join.specs.Join.{AreApart};
ghost use Rattle.cg_join.specs.Repeat.{LacksEmpty};
ghost use Rattle.cg_file.specs.OneOrBoth.{Differ, IsOneOrBoth, OneOrBothRest, ends_at, in_second, is_start, waits};

use cg_text::{OutOfMemory, Pushed, Steps, Token, push_bytes, push_count};

/// Which of the two tokens took bytes.
#[derive(Clone, Copy)]
pub enum PartsTaken {
    /// None.
    Start,
    /// The first.
    First,
    /// The second alone.
    Second,
    /// The first, and then the second.
    Both,
}

/// A text of the first token, of the second, or of the first and then the second, with the values of those that are
/// there. No text of theirs is empty, and they begin with different bytes.
#[derive(Drop)]
pub struct OneOrBoth<A: Token, B: Token> {
    first: A,
    second: B,
    place: PartsTaken,
    ghost apart: { IsTrue (waits place) → AreApart A.means B.means first second },
    ghost filled: { IsTrue (waits place) → LacksEmpty (B.means second) },
    ghost differ: { IsTrue (is_start place) → Differ (A.means first) (B.means second) },
    ghost ended: { IsTrue (in_second place) → IsTrue (A.ends first) },
}

impl<A: Token, B: Token> OneOrBoth<A, B> {
    /// The one, the other, or both in this order.
    pub fn new(first: A, second: B) -> OneOrBoth<A, B>
        requires apart { AreApart A.means B.means first second }
        requires filled { LacksEmpty (B.means second) }
        requires differ { Differ (A.means first) (B.means second) }
        ensures spells { Spells ⟦<OneOrBoth<A, B> as Token>⟧.means result
            (λ text v. IsOneOrBoth (A.means first) (B.means second) text v.0 v.1) }
        ensures size { ⟦<OneOrBoth<A, B> as Token>⟧.size result ≡ A.size first + B.size second }
    {
        OneOrBoth {
            first,
            second,
            place: PartsTaken::Start,
        }
    }
}

impl<A: Token, B: Token> Token for OneOrBoth<A, B> {
    type Out = (Option<A::Out>, Option<B::Out>);

    ghost use Rattle.cg_join.specs.Maybe.{maybe_size};
    ghost use Rattle.cg_join.specs.SequenceLaws.{sum_none};
    ghost use Rattle.cg_file.specs.OneOrBothLaws.{one_completes, one_ends, one_value_of, one_bytes};

    ghost means = { λ s rest v. OneOrBothRest A.means B.means s.place s.first s.second rest v.0 v.1 };

    ghost size = { λ s. A.size s.first + B.size s.second };

    ghost value_size = { λ v. maybe_size A.value_size v.0 + maybe_size B.value_size v.1 };

    ghost ends = { λ s. ends_at s.place (A.ends s.first) (B.ends s.second) };

    ghost grows = { A.grows || B.grows };

    fn push(&mut self, bytes: &[u8]) -> Pushed {
        push_bytes(self, bytes)
    }

    fn allows(&self, byte: u8) -> bool {
        let first = self.first.allows(byte);
        let ended = self.first.can_end();
        let second = self.second.allows(byte);
        match self.place {
            PartsTaken::Start => first | second,
            PartsTaken::First => first | (ended & second),
            PartsTaken::Second => second,
            PartsTaken::Both => second,
        }
    }

    fn can_end(&self) -> bool {
        match self.place {
            PartsTaken::Start => false,
            PartsTaken::First => self.first.can_end(),
            PartsTaken::Second => self.second.can_end(),
            PartsTaken::Both => self.second.can_end(),
        }
    }

    fn held(&self) -> u64 {
        self.first.held().saturating_add(self.second.held())
    }

    fn take(self) -> (Option<A::Out>, Option<B::Out>) {
        match self.place {
            PartsTaken::Start => unreachable!(),
            PartsTaken::First => (Some(self.first.take()), None),
            PartsTaken::Second => (None, Some(self.second.take())),
            PartsTaken::Both => (Some(self.first.take()), Some(self.second.take())),
        }
    }

    fn held_in(value: &(Option<A::Out>, Option<B::Out>)) -> u64 {
        let first = match &value.0 {
            Some(v) => A::held_in(v),
            None => 0,
        };
        let second = match &value.1 {
            Some(w) => B::held_in(w),
            None => 0,
        };
        first.saturating_add(second)
    }

    ghost completes = { λ s. one_completes A.means B.means s.place s.first s.second
        (λ e. (A.ends_is s.first).0 (s.ended e)) (A.completes s.first) (B.completes s.second) };

    ghost no_size = { λ e s. sum_none A.grows B.grows (A.size s.first) (B.size s.second) e (λ f. A.no_size f s.first)
        (λ f. B.no_size f s.second) };

    ghost ends_is = { λ s. one_ends A.means B.means s.place s.first s.second (A.ends s.first) (B.ends s.second) s.differ
        s.filled s.ended (A.ends_is s.first) (B.ends_is s.second) };

    ghost one_value = { λ s. one_value_of A.means B.means s.place s.first s.second s.differ s.filled s.apart
        (A.one_value s.first) (B.one_value s.second) };

    ghost holds_bytes = { λ s. one_bytes A.means B.means s.place s.first s.second (A.holds_bytes s.first)
        (B.holds_bytes s.second) };
}

impl<A: Token, B: Token> Steps for OneOrBoth<A, B> {
    type Value = (Option<A::Out>, Option<B::Out>);

    ghost rests = { ⟦<OneOrBoth<A, B> as Token>⟧.means };

    ghost room = { ⟦<OneOrBoth<A, B> as Token>⟧.size };

    ghost grows = { ⟦<OneOrBoth<A, B> as Token>⟧.grows };

    fn take_byte(&mut self, byte: u8) -> Result<bool, OutOfMemory> {
        match self.place {
            PartsTaken::Start => match self.first.step(byte) {
                Ok(true) => {
                    self.place = PartsTaken::First;
                    Ok(true)
                }
                Ok(false) => match self.second.step(byte) {
                    Ok(true) => {
                        self.place = PartsTaken::Second;
                        Ok(true)
                    }
                    Ok(false) => Ok(false),
                    Err(e) => Err(e),
                },
                Err(e) => Err(e),
            },
            PartsTaken::First => match self.first.step(byte) {
                Ok(true) => Ok(true),
                Ok(false) => {
                    if !self.first.can_end() {
                        return Ok(false);
                    }
                    match self.second.step(byte) {
                        Ok(true) => {
                            self.place = PartsTaken::Both;
                            Ok(true)
                        }
                        Ok(false) => Ok(false),
                        Err(e) => Err(e),
                    }
                }
                Err(e) => Err(e),
            },
            PartsTaken::Second => self.second.step(byte),
            PartsTaken::Both => self.second.step(byte),
        }
    }

    fn take_run(&mut self, bytes: &[u8]) -> usize {
        match self.place {
            PartsTaken::Start => 0,
            PartsTaken::First => push_count(&mut self.first, bytes),
            PartsTaken::Second => push_count(&mut self.second, bytes),
            PartsTaken::Both => push_count(&mut self.second, bytes),
        }
    }
}
