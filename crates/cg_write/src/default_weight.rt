//! The weight of the devices that have none of their own (cgroup-v2.rst, io.weight).
ghost use Rattle.std.specs.Prelude.{◌≡◌, ◌≤◌};
ghost use Rattle.cg_text.specs.Token.{Spells};
ghost use Rattle.cg_write.specs.Texts.{IsDefault};

use cg_join::{Choice, Either, LabelText, MapValue, Mapped, Spaced, decimal_in, labelled, spaced};
use cg_text::{DecimalText, Keyword, Pushed, Token};

/// The value, without how it is spelled.
#[derive(Clone, Copy)]
struct ToDefault;

impl MapValue<Choice<DecimalText, LabelText<Spaced<DecimalText>>>> for ToDefault {
    type To = u64;

    ghost use Rattle.cg_write.specs.Mapped.{default_weight};
    ghost use Rattle.std.proofs.Common.{arith};

    ghost mapped = { default_weight };

    ghost value_size = { λ _. 0 };

    fn map_value(value: Either<u64, ((), ((), u64))>) -> u64 {
        match value {
            Either::Left(weight) => weight,
            Either::Right((_, (_, weight))) => weight,
        }
    }

    fn held_in(_value: &u64) -> u64 {
        0
    }

    ghost adds_no_memory = { λ v. Prim.omega arith };
}

type Parts = Mapped<Choice<DecimalText, LabelText<Spaced<DecimalText>>>, ToDefault>;

/// A weight, alone or after the word `default` and a space.
#[derive(Drop)]
pub struct DefaultText {
    parts: Parts,
}

impl DefaultText {
    /// A token of such texts, with weights from 1 to `most`.
    pub(crate) fn new(most: u64) -> DefaultText
        requires { 1 ≤ most }
        ensures spells { Spells ⟦<DefaultText as Token>⟧.means result (IsDefault most) }
        ensures size { ⟦<DefaultText as Token>⟧.size result ≡ 0 }
    {
        let alone = decimal_in(1, most);
        let weight = spaced(decimal_in(1, most));
        let named = labelled(Keyword::Default, weight);
        DefaultText {
            parts: Mapped::new(Choice::new(alone, named)),
        }
    }
}

impl Token for DefaultText {
    type Out = u64;

    ghost means = { λ s. ⟦<Parts as Token>⟧.means s.parts };

    ghost size = { λ s. ⟦<Parts as Token>⟧.size s.parts };

    ghost value_size = { λ _. 0 };

    ghost ends = { λ s. ⟦<Parts as Token>⟧.ends s.parts };

    ghost grows = { ⟦<Parts as Token>⟧.grows };

    ghost completes = { λ s. ⟦<Parts as Token>⟧.completes s.parts };

    ghost no_size = { λ e s. ⟦<Parts as Token>⟧.no_size e s.parts };

    ghost ends_is = { λ s. ⟦<Parts as Token>⟧.ends_is s.parts };

    ghost one_value = { λ s. ⟦<Parts as Token>⟧.one_value s.parts };

    ghost holds_bytes = { λ s. ⟦<Parts as Token>⟧.holds_bytes s.parts };

    fn push(&mut self, bytes: &[u8]) -> Pushed {
        self.parts.push(bytes)
    }

    fn whole(&self, bytes: &[u8]) -> Option<(u64, usize)> {
        self.parts.whole(bytes)
    }

    fn allows(&self, byte: u8) -> bool {
        self.parts.allows(byte)
    }

    fn can_end(&self) -> bool {
        self.parts.can_end()
    }

    fn held(&self) -> u64 {
        self.parts.held()
    }

    fn take(self) -> u64 {
        self.parts.take()
    }

    fn held_in(_value: &u64) -> u64 {
        0
    }
}
