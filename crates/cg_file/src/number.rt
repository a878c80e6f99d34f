//! A file of one number (cgroup-v2.rst, "Interface Files").
ghost use Rattle.std.specs.Prelude.{◌≡◌, ◌≤◌};
ghost use Rattle.cg_text.specs.Token.{Spells};
ghost use Rattle.cg_value.specs.Files.{KindText};
ghost use Rattle.cg_value.specs.declared.kind.ReadForm.TheVariants.{Number as NumberForm};

use cg_join::{Line, MapValue, NamedToken, Sequence, one_line};
use cg_text::{ByteText, DecimalText, Token};
use cg_value::Value;

/// A line, turned into the file's value.
#[derive(Clone, Copy)]
pub struct ToNumber;

impl MapValue<Sequence<DecimalText, ByteText>> for ToNumber {
    type To = Value;

    ghost use Rattle.cg_join.specs.SettledLaws.{zero_least};
    ghost use Rattle.cg_file.specs.Mapped.{number_value};

    ghost mapped = { number_value };

    ghost value_size = { λ _. 0 };

    fn map_value(value: (u64, ())) -> Value {
        Value::Number(value.0)
    }

    fn held_in(_value: &Value) -> u64 {
        0
    }

    ghost adds_no_memory = { λ v. zero_least _ };
}

/// The text of a file of one number of a range.
pub type NumberFile = Line<DecimalText, ToNumber>;

impl NamedToken<NumberFile> for ToNumber {
    ghost token = { ⟦<NumberFile as Token>⟧ };
}

/// The text of a file of one number from `lo` to `hi`.
pub fn number_file(lo: u64, hi: u64) -> NumberFile
    requires { lo ≤ hi }
    ensures spells { Spells ⟦<NumberFile as Token>⟧.means result (λ text v. KindText (NumberForm lo hi) v text) }
    ensures size { ⟦<NumberFile as Token>⟧.size result ≡ 0 }
{
    match DecimalText::new(lo, hi) {
        Some(number) => one_line(number),
        None => unreachable!(),
    }
}
