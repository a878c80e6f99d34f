//! One more digit of a number.
ghost use Rattle.std.specs.Prelude.{MatchOption};
ghost use Rattle.cg_text.specs.NumberRest.{number_rest};
ghost use Rattle.cg_text.specs.Token.{Follows, NoneBegins};

use crate::decimal::DecimalText;
use crate::token::Token;

/// The number after one more byte, where some rest begins with it.
pub(crate) fn after_digit(number: DecimalText, byte: u8) -> Option<DecimalText>
    ensures { MatchOption result (NoneBegins number_rest number byte) (Follows number_rest number byte) }
{
    let mut number = number;
    match number.step(byte) {
        Ok(true) => Some(number),
        Ok(false) => None,
        Err(_) => unreachable!(),
    }
}
