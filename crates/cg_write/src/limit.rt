//! A write of one limit (cgroup-v2.rst, pids.max).
ghost use Rattle.std.specs.Prelude.{◌≡◌, ◌≤◌};
ghost use Rattle.cg_text.specs.Token.{Spells};
ghost use Rattle.cg_value.specs.Settings.{WriteText};
ghost use Rattle.cg_value.specs.declared.kind.WriteForm.TheVariants.{Limit as LimitForm};

use cg_join::{LimitText, Line, MapValue, NamedToken, Sequence, limit_in, one_line};
use cg_text::{ByteText, Limit, Token};
use cg_value::Setting;

/// The line, turned into the setting.
#[derive(Clone, Copy)]
pub struct ToLimit;

impl MapValue<Sequence<LimitText, ByteText>> for ToLimit {
    type To = Setting;

    ghost use Rattle.cg_write.specs.Mapped.{limit_setting};
    ghost use Rattle.std.proofs.Common.{arith};

    ghost mapped = { limit_setting };

    ghost value_size = { λ _. 0 };

    fn map_value(value: (Limit, ())) -> Setting {
        Setting::Limit(value.0)
    }

    fn held_in(_value: &Setting) -> u64 {
        0
    }

    ghost adds_no_memory = { λ v. Prim.omega arith };
}

/// The text of a write of `max`, or of one number from `lo` to `hi`.
pub type LimitWrite = Line<LimitText, ToLimit>;

impl NamedToken<LimitWrite> for ToLimit {
    ghost token = { ⟦<LimitWrite as Token>⟧ };
}

/// The text of a write of `max`, or of one number from `lo` to `hi` (cgroup-v2.rst, pids.max).
pub fn limit_write(lo: u64, hi: u64) -> LimitWrite
    requires { lo ≤ hi }
    ensures spells { Spells ⟦<LimitWrite as Token>⟧.means result (λ text s. WriteText (LimitForm lo hi) s text) }
    ensures size { ⟦<LimitWrite as Token>⟧.size result ≡ 0 }
{
    one_line(limit_in(lo, hi))
}
