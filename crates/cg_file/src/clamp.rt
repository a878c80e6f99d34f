//! A file of one utilization clamp (cgroup-v2.rst, cpu.uclamp.min).
ghost use Rattle.std.specs.Prelude.{◌≡◌};
ghost use Rattle.cg_text.specs.Token.{Spells};
ghost use Rattle.cg_value.specs.Files.{KindText};
ghost use Rattle.cg_value.specs.declared.kind.ReadForm.TheVariants.{Clamp as ClampForm};

use cg_join::{ClampText, Line, MapValue, NamedToken, Sequence, one_line};
use cg_text::{ByteText, Clamp, Spelling, Token};
use cg_value::Value;

/// A line, turned into the file's value.
#[derive(Clone, Copy)]
pub struct ToClamp;

impl MapValue<Sequence<ClampText, ByteText>> for ToClamp {
    type To = Value;

    ghost use Rattle.cg_join.specs.SettledLaws.{zero_least};
    ghost use Rattle.cg_file.specs.OneLineMapped.{clamp_value};

    ghost mapped = { clamp_value };

    ghost value_size = { λ _. 0 };

    fn map_value(value: (Clamp, ())) -> Value {
        Value::Clamp(value.0)
    }

    fn held_in(_value: &Value) -> u64 {
        0
    }

    ghost adds_no_memory = { λ v. zero_least _ };
}

/// The text of a file of one utilization clamp.
pub type ClampFile = Line<ClampText, ToClamp>;

impl NamedToken<ClampFile> for ToClamp {
    ghost token = { ⟦<ClampFile as Token>⟧ };
}

/// A token of such files.
pub fn clamp_file() -> ClampFile
    ensures spells { Spells ⟦<ClampFile as Token>⟧.means result (λ text v. KindText ClampForm v text) }
    ensures size { ⟦<ClampFile as Token>⟧.size result ≡ 0 }
{
    one_line(ClampText::new(Spelling::Read))
}
