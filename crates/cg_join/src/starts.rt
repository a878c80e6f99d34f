//! What makes the tokens of numbers.
ghost use Rattle.std.specs.Prelude.{◌≡◌, ◌≤◌, ◌<◌};
ghost use Rattle.cg_text.specs.Decimal.{IsDecimal};

use crate::make_token::MakeToken;
use cg_text::DecimalText;

/// Makes tokens of the decimal numbers of a range.
#[derive(Clone, Copy, Drop)]
pub struct NumberStart {
    lo: u64,
    hi: u64,
    ghost range: { lo ≤ hi },
}

impl NumberStart {
    /// The numbers from `lo` to `hi`.
    pub fn new(lo: u64, hi: u64) -> NumberStart
        requires { lo ≤ hi }
        ensures low { result.lo ≡ lo }
        ensures high { result.hi ≡ hi }
    {
        NumberStart { lo, hi }
    }
}

impl MakeToken<DecimalText> for NumberStart {
    ghost use Rattle.cg_join.specs.StartLaws.{some_decimal, one_decimal, decimal_bytes};

    ghost texts = { λ s text n. IsDecimal s.lo s.hi n text };

    fn start(&self) -> DecimalText {
        match DecimalText::new(self.lo, self.hi) {
            Some(token) => token,
            None => unreachable!(),
        }
    }

    ghost some_text = { λ s. some_decimal s.lo s.hi s.range };

    ghost one_text = { λ s. one_decimal s.lo s.hi };

    ghost text_bytes = { λ s. decimal_bytes s.lo s.hi };
}
