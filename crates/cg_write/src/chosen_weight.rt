//! A weight of a device, or that it has none of its own (cgroup-v2.rst, io.weight).
ghost use Rattle.std.specs.Prelude.{◌≡◌, ◌≤◌};
ghost use Rattle.cg_text.specs.Token.{Spells};
ghost use Rattle.cg_write.specs.Texts.{IsChosen};

use cg_join::{Choice, Either, MapValue, Mapped, decimal_in};
use cg_text::{DecimalText, Keyword, KeywordText, Pushed, Token};

/// The value, without how it is spelled.
#[derive(Clone, Copy)]
struct ToChosen;

impl MapValue<Choice<KeywordText, DecimalText>> for ToChosen {
    type To = Option<u64>;

    ghost use Rattle.cg_write.specs.Mapped.{chosen_weight};
    ghost use Rattle.std.proofs.Common.{arith};

    ghost mapped = { chosen_weight };

    ghost value_size = { λ _. 0 };

    fn map_value(value: Either<(), u64>) -> Option<u64> {
        match value {
            Either::Left(_) => None,
            Either::Right(weight) => Some(weight),
        }
    }

    fn held_in(_value: &Option<u64>) -> u64 {
        0
    }

    ghost adds_no_memory = { λ v. Prim.omega arith };
}

type Parts = Mapped<Choice<KeywordText, DecimalText>, ToChosen>;

/// The word `default`, whose value is none, or a weight.
#[derive(Drop)]
pub struct ChosenText {
    parts: Parts,
}

impl ChosenText {
    /// A token of such texts, with weights from 1 to `most`.
    pub(crate) fn new(most: u64) -> ChosenText
        requires { 1 ≤ most }
        ensures spells { Spells ⟦<ChosenText as Token>⟧.means result (IsChosen most) }
        ensures size { ⟦<ChosenText as Token>⟧.size result ≡ 0 }
    {
        let word = KeywordText::new(Keyword::Default);
        ChosenText {
            parts: Mapped::new(Choice::new(word, decimal_in(1, most))),
        }
    }
}

impl Token for ChosenText {
    type Out = Option<u64>;

    ghost means = { λ s. ⟦<Parts as Token>⟧.means s.parts };

    ghost size = { λ s. ⟦<Parts as Token>⟧.size s.parts };

    ghost value_size = { λ _. 0 };

    ghost ends = { λ s. ⟦<Parts as Token>⟧.ends s.parts };

    ghost grows = { ⟦<Parts as Token>⟧.grows };

    ghost completes = { λ s. ⟦<Parts as Token>⟧.completes s.parts };

    ghost no_size = { λ e s. ⟦<Parts as Token>⟧.no_size e s.parts };

    ghost ends_is = { λ s. ⟦<Parts as Token>⟧.ends_is s.parts };

    ghost one_value = { λ s. ⟦<Parts as Token>⟧.one_value s.parts };

    ghost holds_bytes = { λ s. ⟦<Parts as Token>⟧.holds_bytes s.parts };

    fn push(&mut self, bytes: &[u8]) -> Pushed {
        self.parts.push(bytes)
    }

    fn whole(&self, bytes: &[u8]) -> Option<(Option<u64>, usize)> {
        self.parts.whole(bytes)
    }

    fn allows(&self, byte: u8) -> bool {
        self.parts.allows(byte)
    }

    fn can_end(&self) -> bool {
        self.parts.can_end()
    }

    fn held(&self) -> u64 {
        self.parts.held()
    }

    fn take(self) -> Option<u64> {
        self.parts.take()
    }

    fn held_in(_value: &Option<u64>) -> u64 {
        0
    }
}
