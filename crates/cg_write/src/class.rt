//! A write of one class of requests (cgroup-v2.rst, "IO Priority").
ghost use Rattle.std.specs.Prelude.{◌≡◌};
ghost use Rattle.cg_text.specs.Token.{Spells};
ghost use Rattle.cg_value.specs.Settings.{WriteText};
ghost use Rattle.cg_value.specs.declared.kind.WriteForm.TheVariants.{Class as ClassForm};

use cg_join::{ClassText, Line, MapValue, NamedToken, Sequence, one_line};
use cg_text::{ByteText, IoClass, Token};
use cg_value::Setting;

/// The line, turned into the setting.
#[derive(Clone, Copy)]
pub struct ToClass;

impl MapValue<Sequence<ClassText, ByteText>> for ToClass {
    type To = Setting;

    ghost use Rattle.cg_write.specs.Mapped.{class_setting};
    ghost use Rattle.std.proofs.Common.{arith};

    ghost mapped = { class_setting };

    ghost value_size = { λ _. 0 };

    fn map_value(value: (IoClass, ())) -> Setting {
        Setting::Class(value.0)
    }

    fn held_in(_value: &Setting) -> u64 {
        0
    }

    ghost adds_no_memory = { λ v. Prim.omega arith };
}

/// The text of a write of one class of requests.
pub type ClassWrite = Line<ClassText, ToClass>;

impl NamedToken<ClassWrite> for ToClass {
    ghost token = { ⟦<ClassWrite as Token>⟧ };
}

/// The text of a write of one class of requests (cgroup-v2.rst, "IO Priority").
pub fn class_write() -> ClassWrite
    ensures spells { Spells ⟦<ClassWrite as Token>⟧.means result (λ text s. WriteText ClassForm s text) }
    ensures size { ⟦<ClassWrite as Token>⟧.size result ≡ 0 }
{
    one_line(ClassText::new())
}
