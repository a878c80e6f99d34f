//! Amounts of `io.stat`.
ghost use Rattle.std.specs.Prelude.{◌≡◌, false, refl};
ghost use Rattle.cg_text.specs.Token.{Spells};
ghost use Rattle.cg_text.specs.Amount.{IsAmount};

use crate::bounded::decimal_in;
use crate::choice::{Choice, Either};
use crate::fork::Fork;
use crate::make_token::MakeToken;
use crate::mapped::{MapValue, Mapped};
use crate::sequence::Sequence;
use cg_text::{
    Amount, ByteText, DecimalText, Hundredths, HundredthsText, Keyword, KeywordText, Pushed,
    Spelling, Token,
};

/// A minus sign, and a number.
type Negated = Sequence<ByteText, DecimalText>;

/// Makes tokens of a minus sign and a number.
#[derive(Clone, Copy, Drop)]
struct MakeNegated;

impl MakeToken<Negated> for MakeNegated {
    ghost use Rattle.cg_join.specs.AmountLaws.{IsNegated, negated_proper};

    ghost texts = { λ _. IsNegated };

    fn start(&self) -> Negated {
        Sequence::new(ByteText::new(b'-'), decimal_in(1, 2147483648))
    }

    ghost some_text = { λ _. negated_proper.some_text };

    ghost one_text = { λ _. negated_proper.one_text };

    ghost text_bytes = { λ _. negated_proper.text_bytes };
}

// Most amounts are numbers, so these come first.
type Unsigned = Choice<DecimalText, Choice<HundredthsText, KeywordText>>;

type AnyAmount = Fork<Unsigned, Negated, MakeNegated>;

/// The amount of a choice.
#[derive(Clone, Copy)]
struct ToAmount;

impl MapValue<AnyAmount> for ToAmount {
    type To = Amount;

    ghost use Rattle.cg_join.specs.AmountState.{amount_of};

    ghost mapped = { amount_of };

    ghost value_size = { λ _. 0 };

    fn map_value(value: Either<Either<u64, Either<Hundredths, ()>>, ((), u64)>) -> Amount {
        match value {
            Either::Left(Either::Left(n)) => Amount::Whole(n),
            Either::Left(Either::Right(Either::Left(hundredths))) => Amount::Decimal(hundredths),
            Either::Left(Either::Right(Either::Right(_))) => Amount::Max,
            Either::Right((_, n)) => Amount::Below(n),
        }
    }

    fn held_in(_value: &Amount) -> u64 {
        0
    }

    ghost use Rattle.std.proofs.Common.{arith};

    ghost adds_no_memory = { λ v. Prim.omega arith };
}

type Parts = Mapped<AnyAmount, ToAmount>;

/// The word `max`, a whole number, or a number with two digits after the dot, whose whole part is at most 999999999;
/// also a number from -2147483648 to -1, where such are allowed.
#[derive(Drop)]
pub struct AmountText {
    parts: Parts,
}

impl AmountText {
    /// A token of amounts, also of those below 0 where `signed`.
    pub fn new(signed: bool) -> AmountText
        ensures spells { Spells ⟦<AmountText as Token>⟧.means result (λ rest v. IsAmount signed v rest) }
        ensures size { ⟦<AmountText as Token>⟧.size result ≡ 0 }
    {
        let hundredths = HundredthsText::new(Spelling::Read, 99999999999);
        let other = Choice::new(hundredths, KeywordText::new(Keyword::Max));
        let unsigned = Choice::new(decimal_in(0, u64::MAX), other);
        AmountText {
            parts: Mapped::new(Fork::new(unsigned, MakeNegated, b'-', signed)),
        }
    }
}

impl Token for AmountText {
    type Out = Amount;

    ghost means = { λ s rest v. ⟦<Parts as Token>⟧.means s.parts rest v };

    ghost size = { λ _. 0 };

    ghost value_size = { λ _. 0 };

    ghost ends = { λ s. ⟦<Parts as Token>⟧.ends s.parts };

    ghost grows = { false };

    ghost completes = { λ s. ⟦<Parts as Token>⟧.completes s.parts };

    ghost no_size = { λ _ _. refl };

    ghost ends_is = { λ s. ⟦<Parts as Token>⟧.ends_is s.parts };

    ghost one_value = { λ s. ⟦<Parts as Token>⟧.one_value s.parts };

    ghost holds_bytes = { λ s. ⟦<Parts as Token>⟧.holds_bytes s.parts };

    #[inline(always)]
    fn push(&mut self, bytes: &[u8]) -> Pushed {
        self.parts.push(bytes)
    }

    #[inline(always)]
    fn whole(&self, bytes: &[u8]) -> Option<(Amount, usize)> {
        self.parts.whole(bytes)
    }

    fn allows(&self, byte: u8) -> bool {
        self.parts.allows(byte)
    }

    fn can_end(&self) -> bool {
        self.parts.can_end()
    }

    fn held(&self) -> u64 {
        0
    }

    fn take(self) -> Amount {
        self.parts.take()
    }

    fn held_in(_value: &Amount) -> u64 {
        0
    }
}
