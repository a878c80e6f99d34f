//! A write of one number (cgroup-v2.rst, "Interface Files").
ghost use Rattle.std.specs.Prelude.{◌≡◌, ◌≤◌};
ghost use Rattle.cg_text.specs.Token.{Spells};
ghost use Rattle.cg_value.specs.Settings.{WriteText};
ghost use Rattle.cg_value.specs.declared.kind.WriteForm.TheVariants.{Number as NumberForm};

use cg_join::{Line, MapValue, NamedToken, Sequence, decimal_in, one_line};
use cg_text::{ByteText, DecimalText, Token};
use cg_value::Setting;

/// The line, turned into the setting.
#[derive(Clone, Copy)]
pub struct ToNumber;

impl MapValue<Sequence<DecimalText, ByteText>> for ToNumber {
    type To = Setting;

    ghost use Rattle.cg_write.specs.Mapped.{number_setting};
    ghost use Rattle.std.proofs.Common.{arith};

    ghost mapped = { number_setting };

    ghost value_size = { λ _. 0 };

    fn map_value(value: (u64, ())) -> Setting {
        Setting::Number(value.0)
    }

    fn held_in(_value: &Setting) -> u64 {
        0
    }

    ghost adds_no_memory = { λ v. Prim.omega arith };
}

/// The text of a write of one number from `lo` to `hi`.
pub type NumberWrite = Line<DecimalText, ToNumber>;

impl NamedToken<NumberWrite> for ToNumber {
    ghost token = { ⟦<NumberWrite as Token>⟧ };
}

/// The text of a write of one number from `lo` to `hi` (cgroup-v2.rst, "Interface Files").
pub fn number_write(lo: u64, hi: u64) -> NumberWrite
    requires { lo ≤ hi }
    ensures spells { Spells ⟦<NumberWrite as Token>⟧.means result (λ text s. WriteText (NumberForm lo hi) s text) }
    ensures size { ⟦<NumberWrite as Token>⟧.size result ≡ 0 }
{
    one_line(decimal_in(lo, hi))
}
