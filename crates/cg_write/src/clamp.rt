//! A write of one utilization clamp (cgroup-v2.rst, cpu.uclamp.min).
ghost use Rattle.std.specs.Prelude.{◌≡◌};
ghost use Rattle.cg_text.specs.Token.{Spells};
ghost use Rattle.cg_value.specs.Settings.{WriteText};
ghost use Rattle.cg_value.specs.declared.kind.WriteForm.TheVariants.{Clamp as ClampForm};

use cg_join::{ClampText, Line, MapValue, NamedToken, Sequence, one_line};
use cg_text::{ByteText, Clamp, Spelling, Token};
use cg_value::Setting;

/// The line, turned into the setting.
#[derive(Clone, Copy)]
pub struct ToClamp;

impl MapValue<Sequence<ClampText, ByteText>> for ToClamp {
    type To = Setting;

    ghost use Rattle.cg_write.specs.Mapped.{clamp_setting};
    ghost use Rattle.std.proofs.Common.{arith};

    ghost mapped = { clamp_setting };

    ghost value_size = { λ _. 0 };

    fn map_value(value: (Clamp, ())) -> Setting {
        Setting::Clamp(value.0)
    }

    fn held_in(_value: &Setting) -> u64 {
        0
    }

    ghost adds_no_memory = { λ v. Prim.omega arith };
}

/// The text of a write of one utilization clamp.
pub type ClampWrite = Line<ClampText, ToClamp>;

impl NamedToken<ClampWrite> for ToClamp {
    ghost token = { ⟦<ClampWrite as Token>⟧ };
}

/// The text of a write of one utilization clamp (cgroup-v2.rst, cpu.uclamp.min).
pub fn clamp_write() -> ClampWrite
    ensures spells { Spells ⟦<ClampWrite as Token>⟧.means result (λ text s. WriteText ClampForm s text) }
    ensures size { ⟦<ClampWrite as Token>⟧.size result ≡ 0 }
{
    one_line(ClampText::new(Spelling::Written))
}
