//! Sizes with a suffix.
ghost use Rattle.std.specs.Prelude.{◌≡◌, ℕ, ◌<◌, false, MatchOption, ⊤, refl};
ghost use Rattle.cg_text.specs.Size.{HasFactor, IsSize};
ghost use Rattle.cg_text.specs.SizeState.{SizeRest, EndsSize, IsSmall, size_ends};
ghost use Rattle.cg_text.specs.SizeLaws.{IsSmall_prop};
ghost use Rattle.cg_text.specs.NumberRest.{number_rest};
ghost use Rattle.cg_text.specs.Token.{Follows, NoneBegins, Spells};

use crate::decimal::DecimalText;
use crate::digit::after_digit;
use crate::memory::OutOfMemory;
use crate::pushed::Pushed;
use crate::steps::{Steps, push_bytes};
use crate::token::Token;

/// What was taken of a size.
#[derive(Clone, Copy, Drop)]
enum Taken {
    Count(DecimalText),
    /// A suffix, which ends a size of so many bytes.
    Whole(u64),
}

/// A number of bytes: a decimal number and at most one suffix, which is a factor.
#[derive(Clone, Copy, Drop)]
pub struct SizeText {
    taken: Taken,
    ghost small: { IsSmall taken } by { IsSmall_prop taken },
}

/// The factor of a suffix.
fn factor(suffix: u8) -> Option<u64>
    ensures { MatchOption result ((factor : ℕ) → HasFactor suffix factor → ⊥) (λ factor. HasFactor suffix factor) }
{
    match suffix {
        b'K' | b'k' => Some(1024),
        b'M' | b'm' => Some(1048576),
        b'G' | b'g' => Some(1073741824),
        b'T' | b't' => Some(1099511627776),
        b'P' | b'p' => Some(1125899906842624),
        b'E' | b'e' => Some(1152921504606846976),
        _ => None,
    }
}

/// The size that a suffix ends, where there is one.
fn ended(number: DecimalText, suffix: u8) -> Option<u64>
    ensures { MatchOption result ((size : ℕ) → EndsSize (number_rest number) suffix size → ⊥)
        (λ size. EndsSize (number_rest number) suffix size) }
{
    match factor(suffix) {
        Some(factor) => {
            if number.can_end() {
                number.take().checked_mul(factor)
            } else {
                None
            }
        }
        None => None,
    }
}

/// The state after one more byte, where some rest begins with it.
#[inline(always)]
fn after(taken: Taken, byte: u8) -> Option<Taken>
    requires { IsSmall taken }
    ensures follows { MatchOption result (NoneBegins SizeRest taken byte) (Follows SizeRest taken byte) }
    ensures small { MatchOption result ⊤ (λ new. IsSmall new) }
{
    match taken {
        Taken::Count(number) => match after_digit(number, byte) {
            Some(number) => Some(Taken::Count(number)),
            None => match ended(number, byte) {
                Some(size) => Some(Taken::Whole(size)),
                None => None,
            },
        },
        Taken::Whole(_) => None,
    }
}

impl SizeText {
    /// A token of sizes that fit 64 bits.
    pub fn new() -> SizeText
        ensures spells { Spells ⟦<SizeText as Token>⟧.means result (λ rest n. IsSize n rest) }
        ensures size { ⟦<SizeText as Token>⟧.size result ≡ 0 }
    {
        match DecimalText::new(0, u64::MAX) {
            Some(number) => SizeText {
                taken: Taken::Count(number),
            },
            None => unreachable!(),
        }
    }
}

impl Token for SizeText {
    type Out = u64;

    ghost use Rattle.cg_text.specs.SizeLaws.{size_completes, size_ends_is, size_one, size_bytes};

    ghost means = { λ s rest n. SizeRest s.taken rest n };

    ghost size = { λ _. 0 };

    ghost value_size = { λ _. 0 };

    ghost ends = { λ s. size_ends s.taken };

    ghost grows = { false };

    fn push(&mut self, bytes: &[u8]) -> Pushed {
        push_bytes(self, bytes)
    }

    #[inline(always)]
    fn whole(&self, bytes: &[u8]) -> Option<(u64, usize)> {
        let mut token = *self;
        let count = token.push(bytes).used(bytes);
        if token.can_end() {
            Some((token.take(), count))
        } else {
            None
        }
    }

    fn allows(&self, byte: u8) -> bool {
        match after(self.taken, byte) {
            Some(_) => true,
            None => false,
        }
    }

    fn can_end(&self) -> bool {
        match self.taken {
            Taken::Count(number) => number.can_end(),
            Taken::Whole(_) => true,
        }
    }

    fn held(&self) -> u64 {
        0
    }

    fn take(self) -> u64 {
        match self.taken {
            Taken::Count(number) => number.take(),
            Taken::Whole(size) => size,
        }
    }

    fn held_in(_value: &u64) -> u64 {
        0
    }

    ghost completes = { λ s. size_completes s.taken s.small };

    ghost no_size = { λ _ _. refl };

    ghost ends_is = { λ s. size_ends_is s.taken s.small };

    ghost one_value = { λ s. size_one s.taken };

    ghost holds_bytes = { λ s. size_bytes s.taken };
}

impl Steps for SizeText {
    type Value = u64;

    ghost rests = { ⟦<SizeText as Token>⟧.means };

    ghost room = { ⟦<SizeText as Token>⟧.size };

    ghost grows = { ⟦<SizeText as Token>⟧.grows };

    fn take_byte(&mut self, byte: u8) -> Result<bool, OutOfMemory> {
        match after(self.taken, byte) {
            Some(taken) => {
                self.taken = taken;
                Ok(true)
            }
            None => Ok(false),
        }
    }
}
