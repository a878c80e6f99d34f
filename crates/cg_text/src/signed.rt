//! Signed decimal numbers of a range.
ghost use Rattle.std.specs.Prelude.{◌≤◌, ◌<◌, false, IsTrue, MatchOption, ⊤, refl, ℤ, pos, ◌≤ℤ◌, ◌<ℤ◌};
ghost use Rattle.cg_text.specs.Signed.{IsSigned};
ghost use Rattle.cg_text.specs.SignedState.{SignedRest, IsMagnitude, LacksPlain, LacksNegative, IsBounded, is_live, signed_ends};
ghost use Rattle.cg_text.specs.SignedLaws.{IsBounded_prop};
ghost use Rattle.cg_text.specs.NumberRest.{number_rest};
ghost use Rattle.cg_text.specs.Token.{Follows, NoneBegins, Spells};

use crate::decimal::DecimalText;
use crate::digit::after_digit;
use crate::memory::OutOfMemory;
use crate::pushed::Pushed;
use crate::steps::{Steps, push_bytes};
use crate::token::Token;

/// What was taken of a number.
#[derive(Clone, Copy, Drop)]
enum Taken {
    /// No minus sign: the digits that may follow, and those that may follow a minus sign.
    Plain(Option<DecimalText>, Option<DecimalText>),
    /// A minus sign, and the digits that may follow.
    Negative(DecimalText),
}

/// A signed decimal number of a range: `-` stands before the digits of one below 0.
#[derive(Clone, Copy, Drop)]
pub struct SignedText {
    taken: Taken,
    ghost bounded: { IsBounded taken } by { IsBounded_prop taken },
    ghost live: { IsTrue (is_live taken) },
}

/// The numbers at 0 or above.
fn plain(lo: i64, hi: i64) -> Option<DecimalText>
    ensures { MatchOption result (LacksPlain lo hi)
        (λ token. Spells number_rest token (λ rest n. IsSigned lo hi (pos n) rest)) }
{
    if hi < 0 {
        return None;
    }
    let least = if lo < 0 { 0 } else { lo };
    DecimalText::new(least as u64, hi as u64)
}

/// The numbers below 0, without their minus signs.
fn magnitude(lo: i64, hi: i64) -> Option<DecimalText>
    ensures { MatchOption result (LacksNegative lo hi)
        (λ token. Spells number_rest token (λ rest n. IsMagnitude lo hi n rest)) }
{
    if 0 <= lo {
        return None;
    }
    let least = if hi < 0 { hi.unsigned_abs() } else { 1 };
    DecimalText::new(least, lo.unsigned_abs())
}

/// The state after one more byte, where some rest begins with it.
fn after(taken: Taken, byte: u8) -> Option<Taken>
    requires { IsBounded taken }
    ensures follows { MatchOption result (NoneBegins SignedRest taken byte) (Follows SignedRest taken byte) }
    ensures bounded { MatchOption result ⊤ (λ new. IsBounded new) }
    ensures live { MatchOption result ⊤ (λ new. IsTrue (is_live new)) }
{
    match taken {
        Taken::Plain(digits, magnitude) => {
            if byte == b'-' {
                return match magnitude {
                    Some(number) => Some(Taken::Negative(number)),
                    None => None,
                };
            }
            match digits {
                Some(number) => match after_digit(number, byte) {
                    Some(number) => Some(Taken::Plain(Some(number), None)),
                    None => None,
                },
                None => None,
            }
        }
        Taken::Negative(number) => match after_digit(number, byte) {
            Some(number) => Some(Taken::Negative(number)),
            None => None,
        },
    }
}

impl SignedText {
    /// A token of the numbers from `lo` to `hi`, unless there are none.
    pub fn new(lo: i64, hi: i64) -> Option<SignedText>
        ensures { MatchOption result (hi <ℤ lo)
            (λ token. (lo ≤ℤ hi) × Spells ⟦<SignedText as Token>⟧.means token (λ rest z. IsSigned lo hi z rest)) }
    {
        if lo <= hi {
            Some(SignedText {
                taken: Taken::Plain(plain(lo, hi), magnitude(lo, hi)),
            })
        } else {
            None
        }
    }
}

impl Token for SignedText {
    type Out = i64;

    ghost use Rattle.cg_text.specs.SignedLaws.{signed_completes, signed_ends_is, signed_one, signed_bytes};

    ghost means = { λ s rest z. SignedRest s.taken rest z };

    ghost size = { λ _. 0 };

    ghost value_size = { λ _. 0 };

    ghost ends = { λ s. signed_ends s.taken };

    ghost grows = { false };

    fn push(&mut self, bytes: &[u8]) -> Pushed {
        push_bytes(self, bytes)
    }

    fn allows(&self, byte: u8) -> bool {
        match after(self.taken, byte) {
            Some(_) => true,
            None => false,
        }
    }

    fn can_end(&self) -> bool {
        match self.taken {
            Taken::Plain(digits, _) => match digits {
                Some(number) => number.can_end(),
                None => false,
            },
            Taken::Negative(number) => number.can_end(),
        }
    }

    fn held(&self) -> u64 {
        0
    }

    fn take(self) -> i64 {
        match self.taken {
            Taken::Plain(digits, _) => match digits {
                Some(number) => number.take() as i64,
                None => unreachable!(),
            },
            Taken::Negative(number) => -1 - (number.take() - 1) as i64,
        }
    }

    fn held_in(_value: &i64) -> u64 {
        0
    }

    ghost completes = { λ s. signed_completes s.taken s.bounded s.live };

    ghost no_size = { λ _ _. refl };

    ghost ends_is = { λ s. signed_ends_is s.taken s.bounded };

    ghost one_value = { λ s. signed_one s.taken };

    ghost holds_bytes = { λ s. signed_bytes s.taken };
}

impl Steps for SignedText {
    type Value = i64;

    ghost rests = { ⟦<SignedText as Token>⟧.means };

    ghost room = { ⟦<SignedText as Token>⟧.size };

    ghost grows = { ⟦<SignedText as Token>⟧.grows };

    fn take_byte(&mut self, byte: u8) -> Result<bool, OutOfMemory> {
        match after(self.taken, byte) {
            Some(taken) => {
                self.taken = taken;
                Ok(true)
            }
            None => Ok(false),
        }
    }
}
