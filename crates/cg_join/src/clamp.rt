//! Utilization clamps.
ghost use Rattle.std.specs.Prelude.{◌≡◌, false, refl};
ghost use Rattle.cg_text.specs.Token.{Spells};
ghost use Rattle.cg_text.specs.Clamp.{IsClamp};

use crate::choice::{Choice, Either};
use crate::mapped::{MapValue, Mapped};
use cg_text::{Clamp, Hundredths, HundredthsText, Keyword, KeywordText, Pushed, Spelling, Token};

/// The clamp of a choice.
#[derive(Clone, Copy)]
struct ToClamp;

impl MapValue<Choice<KeywordText, HundredthsText>> for ToClamp {
    type To = Clamp;

    ghost use Rattle.cg_join.specs.ClampState.{clamp_of};

    ghost mapped = { clamp_of };

    ghost value_size = { λ _. 0 };

    fn map_value(value: Either<(), Hundredths>) -> Clamp {
        match value {
            Either::Left(_) => Clamp::Max,
            Either::Right(percentage) => Clamp::At(percentage),
        }
    }

    fn held_in(_value: &Clamp) -> u64 {
        0
    }

    ghost use Rattle.std.proofs.Common.{arith};

    ghost adds_no_memory = { λ v. Prim.omega arith };
}

type Parts = Mapped<Choice<KeywordText, HundredthsText>, ToClamp>;

/// The word `max`, or a percentage of at most 100.00 in a form.
#[derive(Drop)]
pub struct ClampText {
    parts: Parts,
}

impl ClampText {
    /// A token of clamps, with percentages in the form.
    pub fn new(form: Spelling) -> ClampText
        ensures spells { Spells ⟦<ClampText as Token>⟧.means result (λ rest v. IsClamp form v rest) }
        ensures size { ⟦<ClampText as Token>⟧.size result ≡ 0 }
    {
        ClampText {
            parts: Mapped::new(Choice::new(
                KeywordText::new(Keyword::Max),
                HundredthsText::new(form, 10000),
            )),
        }
    }
}

impl Token for ClampText {
    type Out = Clamp;

    ghost means = { λ s rest v. ⟦<Parts as Token>⟧.means s.parts rest v };

    ghost size = { λ _. 0 };

    ghost value_size = { λ _. 0 };

    ghost ends = { λ s. ⟦<Parts as Token>⟧.ends s.parts };

    ghost grows = { false };

    ghost completes = { λ s. ⟦<Parts as Token>⟧.completes s.parts };

    ghost no_size = { λ _ _. refl };

    ghost ends_is = { λ s. ⟦<Parts as Token>⟧.ends_is s.parts };

    ghost one_value = { λ s. ⟦<Parts as Token>⟧.one_value s.parts };

    ghost holds_bytes = { λ s. ⟦<Parts as Token>⟧.holds_bytes s.parts };

    #[inline(always)]
    fn push(&mut self, bytes: &[u8]) -> Pushed {
        self.parts.push(bytes)
    }

    #[inline(always)]
    fn whole(&self, bytes: &[u8]) -> Option<(Clamp, usize)> {
        self.parts.whole(bytes)
    }

    fn allows(&self, byte: u8) -> bool {
        self.parts.allows(byte)
    }

    fn can_end(&self) -> bool {
        self.parts.can_end()
    }

    fn held(&self) -> u64 {
        0
    }

    fn take(self) -> Clamp {
        self.parts.take()
    }

    fn held_in(_value: &Clamp) -> u64 {
        0
    }
}
