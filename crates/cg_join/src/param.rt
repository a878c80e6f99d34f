//! Parameters of devices.
ghost use Rattle.std.specs.Prelude.{◌≡◌};
ghost use Rattle.cg_text.specs.Param.{IsParam};
ghost use Rattle.cg_text.specs.Token.{Spells};

use crate::bounded::decimal_in;
use crate::choice::{Choice, Either};
use crate::mapped::{MapValue, Mapped};
use cg_text::{
    DecimalText, Hundredths, HundredthsText, Key, NameText, ParamValue, Pushed, Spelling, Token,
};
use std::alloc::Global;

// A name takes memory, so it comes first.
type AnyParam = Choice<NameText, Choice<DecimalText, HundredthsText>>;

/// The parameter of a choice.
#[derive(Clone, Copy)]
struct ToParam;

impl MapValue<AnyParam> for ToParam {
    type To = ParamValue;

    ghost use Rattle.cg_join.specs.ParamState.{param_of, param_size};
    ghost use Rattle.cg_join.specs.ParamLaws.{param_no_more};

    ghost mapped = { param_of };

    ghost value_size = { param_size };

    fn map_value(value: Either<Key, Either<u64, Hundredths>>) -> ParamValue {
        match value {
            Either::Left(name) => ParamValue::Name(name),
            Either::Right(Either::Left(n)) => ParamValue::Whole(n),
            Either::Right(Either::Right(hundredths)) => ParamValue::Decimal(hundredths),
        }
    }

    fn held_in(value: &ParamValue) -> u64 {
        match value {
            ParamValue::Name(name) => name.bytes().len() as u64,
            ParamValue::Whole(_) | ParamValue::Decimal(_) => 0,
        }
    }

    ghost adds_no_memory = { param_no_more };
}

type Parts = Mapped<AnyParam, ToParam>;

/// A whole number, a number with two digits after the dot, whose whole part is at most 999999999, or a name value.
#[derive(Drop)]
pub struct ParamText {
    parts: Parts,
}

impl ParamText {
    /// A token of parameters.
    pub fn new(alloc: Global) -> ParamText
        ensures spells { Spells ⟦<ParamText as Token>⟧.means result (λ text v. IsParam v text) }
        ensures size { ⟦<ParamText as Token>⟧.size result ≡ 0 }
    {
        let hundredths = HundredthsText::new(Spelling::Read, 99999999999);
        let number = Choice::new(decimal_in(0, u64::MAX), hundredths);
        ParamText {
            parts: Mapped::new(Choice::new(NameText::new(alloc), number)),
        }
    }
}

impl Token for ParamText {
    type Out = ParamValue;

    ghost use Rattle.cg_join.specs.ParamState.{param_size};

    ghost means = { λ s. ⟦<Parts as Token>⟧.means s.parts };

    ghost size = { λ s. ⟦<Parts as Token>⟧.size s.parts };

    ghost value_size = { param_size };

    ghost ends = { λ s. ⟦<Parts as Token>⟧.ends s.parts };

    ghost grows = { ⟦<Parts as Token>⟧.grows };

    ghost completes = { λ s. ⟦<Parts as Token>⟧.completes s.parts };

    ghost no_size = { λ e s. ⟦<Parts as Token>⟧.no_size e s.parts };

    ghost ends_is = { λ s. ⟦<Parts as Token>⟧.ends_is s.parts };

    ghost one_value = { λ s. ⟦<Parts as Token>⟧.one_value s.parts };

    ghost holds_bytes = { λ s. ⟦<Parts as Token>⟧.holds_bytes s.parts };

    fn push(&mut self, bytes: &[u8]) -> Pushed {
        self.parts.push(bytes)
    }

    fn whole(&self, bytes: &[u8]) -> Option<(ParamValue, usize)> {
        self.parts.whole(bytes)
    }

    fn allows(&self, byte: u8) -> bool {
        self.parts.allows(byte)
    }

    fn can_end(&self) -> bool {
        self.parts.can_end()
    }

    fn held(&self) -> u64 {
        self.parts.held()
    }

    fn take(self) -> ParamValue {
        self.parts.take()
    }

    fn held_in(value: &ParamValue) -> u64 {
        Parts::held_in(value)
    }
}
