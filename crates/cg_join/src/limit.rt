//! Limits.
ghost use Rattle.std.specs.Prelude.{◌≡◌, ◌≤◌, ◌<◌, MatchOption, ⊤, false, refl};
ghost use Rattle.cg_text.specs.Token.{Spells};
ghost use Rattle.cg_text.specs.Limit.{IsLimit};
ghost use Rattle.cg_join.specs.Composites.{IsLimitWhere};

use crate::bounded::decimal_in;
use crate::choice::{Choice, Either};
use crate::mapped::{MapValue, Mapped};
use cg_text::{DecimalText, Keyword, KeywordText, Limit, Pushed, Token};

/// The limit of a choice.
#[derive(Clone, Copy)]
struct ToLimit;

impl MapValue<Choice<DecimalText, KeywordText>> for ToLimit {
    type To = Limit;

    ghost use Rattle.cg_join.specs.LimitState.{limit_of};

    ghost mapped = { limit_of };

    ghost value_size = { λ _. 0 };

    fn map_value(value: Either<u64, ()>) -> Limit {
        match value {
            Either::Left(n) => Limit::At(n),
            Either::Right(_) => Limit::Max,
        }
    }

    fn held_in(_value: &Limit) -> u64 {
        0
    }

    ghost use Rattle.std.proofs.Common.{arith};

    ghost adds_no_memory = { λ v. Prim.omega arith };
}

type Parts = Mapped<Choice<DecimalText, KeywordText>, ToLimit>;

/// The word `max`, or a decimal number of a range.
#[derive(Drop)]
pub struct LimitText {
    parts: Parts,
}

impl LimitText {
    /// A token of `max` and the numbers from `lo` to `hi`, unless there are no such numbers.
    pub fn new(lo: u64, hi: u64) -> Option<LimitText>
        ensures spells { MatchOption result (hi < lo) (λ token. (lo ≤ hi) ×
            Spells ⟦<LimitText as Token>⟧.means token (λ rest v. IsLimit lo hi v rest)) }
        ensures size { MatchOption result ⊤ (λ token. ⟦<LimitText as Token>⟧.size token ≡ 0) }
    {
        match DecimalText::new(lo, hi) {
            Some(number) => Some(LimitText {
                parts: Mapped::new(Choice::new(number, KeywordText::new(Keyword::Max))),
            }),
            None => None,
        }
    }

    /// A token of the numbers from `lo` to `hi` and, where `max`, of `max` too.
    pub fn conditional(lo: u64, hi: u64, max: bool) -> LimitText
        requires { lo ≤ hi }
        ensures spells { Spells ⟦<LimitText as Token>⟧.means result (IsLimitWhere max lo hi) }
        ensures size { ⟦<LimitText as Token>⟧.size result ≡ 0 }
    {
        let number = decimal_in(lo, hi);
        let word = KeywordText::new(Keyword::Max);
        LimitText {
            parts: Mapped::new(Choice::conditional(number, word, max)),
        }
    }
}

impl Token for LimitText {
    type Out = Limit;

    ghost means = { λ s rest v. ⟦<Parts as Token>⟧.means s.parts rest v };

    ghost size = { λ _. 0 };

    ghost value_size = { λ _. 0 };

    ghost ends = { λ s. ⟦<Parts as Token>⟧.ends s.parts };

    ghost grows = { false };

    ghost completes = { λ s. ⟦<Parts as Token>⟧.completes s.parts };

    ghost no_size = { λ _ _. refl };

    ghost ends_is = { λ s. ⟦<Parts as Token>⟧.ends_is s.parts };

    ghost one_value = { λ s. ⟦<Parts as Token>⟧.one_value s.parts };

    ghost holds_bytes = { λ s. ⟦<Parts as Token>⟧.holds_bytes s.parts };

    #[inline(always)]
    fn push(&mut self, bytes: &[u8]) -> Pushed {
        self.parts.push(bytes)
    }

    #[inline(always)]
    fn whole(&self, bytes: &[u8]) -> Option<(Limit, usize)> {
        self.parts.whole(bytes)
    }

    fn allows(&self, byte: u8) -> bool {
        self.parts.allows(byte)
    }

    fn can_end(&self) -> bool {
        self.parts.can_end()
    }

    fn held(&self) -> u64 {
        0
    }

    fn take(self) -> Limit {
        self.parts.take()
    }

    fn held_in(_value: &Limit) -> u64 {
        0
    }
}
