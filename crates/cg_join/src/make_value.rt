//! What follows a key.
ghost use Rattle.std.specs.Prelude.{◌≡◌, Option, Some, None};

use crate::make_token::MakeToken;
use crate::starts::NumberStart;
use cg_text::{DecimalText, Token};

/// What makes the tokens of what follows a key, and says whether a key may stand alone.
pub trait MakeValue<V: Token>: MakeToken<V> {
    /// The value of a key that stands alone, if one may.
    ghost bare_value: { Self → Option V.Out };

    /// The value of a key that stands alone, if one may. It takes no memory.
    fn bare_value(&self) -> Option<V::Out>
        ensures { result ≡ bare_value self.now };

    /// The value of a key that stands alone has no vector with an element.
    ghost bare_value_empty: { (s : Self) (value : V.Out) → bare_value s ≡ Some value → V.value_size value ≡ 0 };
}

impl MakeValue<DecimalText> for NumberStart {
    ghost use Rattle.cg_join.specs.KeyedLaws.{none_some};

    ghost bare_value = { λ _. None };

    fn bare_value(&self) -> Option<u64> {
        None
    }

    ghost bare_value_empty = { λ _ value e. absurd (none_some value e) };
}
