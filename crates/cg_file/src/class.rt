//! A file of one class of requests (cgroup-v2.rst, "IO Priority").
ghost use Rattle.std.specs.Prelude.{◌≡◌};
ghost use Rattle.cg_text.specs.Token.{Spells};
ghost use Rattle.cg_value.specs.Files.{KindText};
ghost use Rattle.cg_value.specs.declared.kind.ReadForm.TheVariants.{Class as ClassForm};

use cg_join::{ClassText, Line, MapValue, NamedToken, Sequence, one_line};
use cg_text::{ByteText, IoClass, Token};
use cg_value::Value;

/// A line, turned into the file's value.
#[derive(Clone, Copy)]
pub struct ToClass;

impl MapValue<Sequence<ClassText, ByteText>> for ToClass {
    type To = Value;

    ghost use Rattle.cg_join.specs.SettledLaws.{zero_least};
    ghost use Rattle.cg_file.specs.OneLineMapped.{class_value};

    ghost mapped = { class_value };

    ghost value_size = { λ _. 0 };

    fn map_value(value: (IoClass, ())) -> Value {
        Value::Class(value.0)
    }

    fn held_in(_value: &Value) -> u64 {
        0
    }

    ghost adds_no_memory = { λ v. zero_least _ };
}

/// The text of a file of one class of requests.
pub type ClassFile = Line<ClassText, ToClass>;

impl NamedToken<ClassFile> for ToClass {
    ghost token = { ⟦<ClassFile as Token>⟧ };
}

/// A token of such files.
pub fn class_file() -> ClassFile
    ensures spells { Spells ⟦<ClassFile as Token>⟧.means result (λ text v. KindText ClassForm v text) }
    ensures size { ⟦<ClassFile as Token>⟧.size result ≡ 0 }
{
    one_line(ClassText::new())
}
