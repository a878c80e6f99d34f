//! A file of one limit (cgroup-v2.rst, "Conventions": `max` for none).
ghost use Rattle.std.specs.Prelude.{◌≡◌};
ghost use Rattle.cg_text.specs.Token.{Spells};
ghost use Rattle.cg_value.specs.Files.{KindText};
ghost use Rattle.cg_value.specs.declared.kind.ReadForm.TheVariants.{Limit as LimitForm};

use cg_join::{LimitText, Line, MapValue, NamedToken, Sequence, one_line};
use cg_text::{ByteText, Limit, Token};
use cg_value::Value;

/// A line, turned into the file's value.
#[derive(Clone, Copy)]
pub struct ToLimit;

impl MapValue<Sequence<LimitText, ByteText>> for ToLimit {
    type To = Value;

    ghost use Rattle.cg_join.specs.SettledLaws.{zero_least};
    ghost use Rattle.cg_file.specs.Mapped.{limit_value};

    ghost mapped = { limit_value };

    ghost value_size = { λ _. 0 };

    fn map_value(value: (Limit, ())) -> Value {
        Value::Limit(value.0)
    }

    fn held_in(_value: &Value) -> u64 {
        0
    }

    ghost adds_no_memory = { λ v. zero_least _ };
}

/// The text of a file of one limit.
pub type LimitFile = Line<LimitText, ToLimit>;

impl NamedToken<LimitFile> for ToLimit {
    ghost token = { ⟦<LimitFile as Token>⟧ };
}

/// A token of such files.
pub fn limit_file() -> LimitFile
    ensures spells { Spells ⟦<LimitFile as Token>⟧.means result (λ text v. KindText LimitForm v text) }
    ensures size { ⟦<LimitFile as Token>⟧.size result ≡ 0 }
{
    match LimitText::new(0, u64::MAX) {
        Some(limit) => one_line(limit),
        None => unreachable!(),
    }
}
