//! One of two tokens, by the first byte.
ghost use Rattle.std.specs.Prelude.{◌≡◌, ◌+◌, ◌||◌, IsTrue};
ghost use Rattle.cg_text.specs.Token.{Spells};
ghost use Rattle.cg_join.specs.Repeat.{LacksEmpty};
ghost use Rattle.cg_join.specs.Spelling.{IsEither};
ghost use Rattle.cg_file.specs.Branch.{BranchRest, branch_ends_at, is_open, may_first};
ghost use Rattle.cg_file.specs.OneOrBoth.{Differ};

use cg_join::Either;
use cg_text::{OutOfMemory, Pushed, Steps, Token, push_bytes, push_count};

/// Which of the two tokens took bytes.
#[derive(Clone, Copy)]
pub enum BranchTaken {
    /// None.
    Start,
    /// The first.
    First,
    /// The second.
    Second,
}

/// A text of the first token or of the second. No text of theirs is empty, and they begin with different bytes, so the
/// first byte says which it is. The second holds nothing before it takes that byte.
#[derive(Drop)]
pub struct Branch<A: Token, B: Token> {
    first: A,
    second: B,
    place: BranchTaken,
    ghost filled: { IsTrue (is_open place) → LacksEmpty (B.means second) },
    ghost differ: { IsTrue (is_open place) → Differ (A.means first) (B.means second) },
    ghost fresh: { IsTrue (may_first place) → B.size second ≡ 0 },
}

impl<A: Token, B: Token> Branch<A, B> {
    /// The one or the other. The second is new.
    pub fn new(first: A, second: B) -> Branch<A, B>
        requires filled { LacksEmpty (B.means second) }
        requires differ { Differ (A.means first) (B.means second) }
        requires fresh { B.size second ≡ 0 }
        ensures spells { Spells ⟦<Branch<A, B> as Token>⟧.means result (IsEither (A.means first) (B.means second)) }
        ensures size { ⟦<Branch<A, B> as Token>⟧.size result ≡ A.size first + B.size second }
    {
        Branch {
            first,
            second,
            place: BranchTaken::Start,
        }
    }
}

impl<A: Token, B: Token> Token for Branch<A, B> {
    type Out = Either<A::Out, B::Out>;

    ghost use Rattle.cg_join.specs.ByteLaws.{choice_bytes};
    ghost use Rattle.cg_join.specs.Choice.{either_size};
    ghost use Rattle.cg_join.specs.ChoiceLaws.{choice_completes, choice_one};
    ghost use Rattle.cg_join.specs.SequenceLaws.{sum_none};
    ghost use Rattle.cg_file.specs.Branch.{may_second};
    ghost use Rattle.cg_file.specs.BranchLaws.{one_may, branch_ends, none_share};

    ghost means = { λ s rest v. BranchRest A.means B.means s.place s.first s.second rest v };

    ghost size = { λ s. A.size s.first + B.size s.second };

    ghost value_size = { either_size A.value_size B.value_size };

    ghost ends = { λ s. branch_ends_at s.place (A.ends s.first) (B.ends s.second) };

    ghost grows = { A.grows || B.grows };

    fn push(&mut self, bytes: &[u8]) -> Pushed {
        push_bytes(self, bytes)
    }

    fn allows(&self, byte: u8) -> bool {
        let first = self.first.allows(byte);
        let second = self.second.allows(byte);
        match self.place {
            BranchTaken::Start => first | second,
            BranchTaken::First => first,
            BranchTaken::Second => second,
        }
    }

    fn can_end(&self) -> bool {
        match self.place {
            BranchTaken::Start => false,
            BranchTaken::First => self.first.can_end(),
            BranchTaken::Second => self.second.can_end(),
        }
    }

    fn held(&self) -> u64 {
        self.first.held().saturating_add(self.second.held())
    }

    fn take(self) -> Either<A::Out, B::Out> {
        match self.place {
            BranchTaken::Start => unreachable!(),
            BranchTaken::First => Either::Left(self.first.take()),
            BranchTaken::Second => Either::Right(self.second.take()),
        }
    }

    fn held_in(value: &Either<A::Out, B::Out>) -> u64 {
        match value {
            Either::Left(v) => A::held_in(v),
            Either::Right(w) => B::held_in(w),
        }
    }

    ghost completes = { λ s. choice_completes A.means B.means (may_first s.place) (may_second s.place) s.first s.second
        (one_may s.place) (A.completes s.first) (B.completes s.second) };

    ghost no_size = { λ e s. sum_none A.grows B.grows (A.size s.first) (B.size s.second) e (λ f. A.no_size f s.first)
        (λ f. B.no_size f s.second) };

    ghost ends_is = { λ s. branch_ends A.means B.means s.place s.first s.second (A.ends s.first) (B.ends s.second)
        s.differ s.filled (A.ends_is s.first) (B.ends_is s.second) };

    ghost one_value = { λ s. choice_one A.means B.means (may_first s.place) (may_second s.place) s.first s.second
        (none_share A.means B.means s.place s.first s.second s.differ) (A.one_value s.first) (B.one_value s.second) };

    ghost holds_bytes = { λ s. choice_bytes A.means B.means (may_first s.place) (may_second s.place) s.first s.second
        (A.holds_bytes s.first) (B.holds_bytes s.second) };
}

impl<A: Token, B: Token> Steps for Branch<A, B> {
    type Value = Either<A::Out, B::Out>;

    ghost rests = { ⟦<Branch<A, B> as Token>⟧.means };

    ghost room = { ⟦<Branch<A, B> as Token>⟧.size };

    ghost grows = { ⟦<Branch<A, B> as Token>⟧.grows };

    fn take_byte(&mut self, byte: u8) -> Result<bool, OutOfMemory> {
        match self.place {
            BranchTaken::Start => match self.first.step(byte) {
                Ok(true) => {
                    self.place = BranchTaken::First;
                    Ok(true)
                }
                Ok(false) => match self.second.step(byte) {
                    Ok(true) => {
                        self.place = BranchTaken::Second;
                        Ok(true)
                    }
                    Ok(false) => Ok(false),
                    Err(e) => Err(e),
                },
                Err(e) => Err(e),
            },
            BranchTaken::First => self.first.step(byte),
            BranchTaken::Second => self.second.step(byte),
        }
    }

    fn take_run(&mut self, bytes: &[u8]) -> usize {
        match self.place {
            BranchTaken::Start => 0,
            BranchTaken::First => push_count(&mut self.first, bytes),
            BranchTaken::Second => push_count(&mut self.second, bytes),
        }
    }
}
