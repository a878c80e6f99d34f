//! Tokens of the numbers of a range that isn't empty.
ghost use Rattle.std.specs.Prelude.{◌≡◌, ◌≤◌, ◌<◌};
ghost use Rattle.cg_text.specs.Decimal.{IsDecimal};
ghost use Rattle.cg_text.specs.Limit.{IsLimit};
ghost use Rattle.cg_text.specs.Token.{Spells};

use crate::limit::LimitText;
use cg_text::{DecimalText, Token};

/// A decimal number from `lo` to `hi`.
pub fn decimal_in(lo: u64, hi: u64) -> DecimalText
    requires { lo ≤ hi }
    ensures spells { Spells ⟦<DecimalText as Token>⟧.means result (λ text n. IsDecimal lo hi n text) }
    ensures size { ⟦<DecimalText as Token>⟧.size result ≡ 0 }
{
    match DecimalText::new(lo, hi) {
        Some(token) => token,
        None => unreachable!(),
    }
}

/// The word `max`, or a decimal number from `lo` to `hi`.
pub fn limit_in(lo: u64, hi: u64) -> LimitText
    requires { lo ≤ hi }
    ensures spells { Spells ⟦<LimitText as Token>⟧.means result (λ text v. IsLimit lo hi v text) }
    ensures size { ⟦<LimitText as Token>⟧.size result ≡ 0 }
{
    match LimitText::new(lo, hi) {
        Some(token) => token,
        None => unreachable!(),
    }
}
