//! A write of a mode (cgroup-v2.rst, cgroup.type).
ghost use Rattle.std.specs.Prelude.{◌≡◌};
ghost use Rattle.cg_text.specs.Token.{Spells};
ghost use Rattle.cg_value.specs.Settings.{WriteText};
ghost use Rattle.cg_value.specs.declared.kind.WriteForm.TheVariants.{Mode as ModeForm};

use cg_join::{Line, MapValue, NamedToken, Sequence, one_line};
use cg_text::{ByteText, Keyword, KeywordText, Token};
use cg_value::Setting;

/// The line, turned into the setting.
#[derive(Clone, Copy)]
pub struct ToMode;

impl MapValue<Sequence<KeywordText, ByteText>> for ToMode {
    type To = Setting;

    ghost use Rattle.cg_write.specs.Mapped.{mode_setting};
    ghost use Rattle.std.proofs.Common.{arith};

    ghost mapped = { mode_setting };

    ghost value_size = { λ _. 0 };

    fn map_value(_value: ((), ())) -> Setting {
        Setting::Threaded
    }

    fn held_in(_value: &Setting) -> u64 {
        0
    }

    ghost adds_no_memory = { λ v. Prim.omega arith };
}

/// The text of a write of the word `threaded`.
pub type ModeWrite = Line<KeywordText, ToMode>;

impl NamedToken<ModeWrite> for ToMode {
    ghost token = { ⟦<ModeWrite as Token>⟧ };
}

/// The text of a write of the word `threaded` (cgroup-v2.rst, cgroup.type).
pub fn mode_write() -> ModeWrite
    ensures spells { Spells ⟦<ModeWrite as Token>⟧.means result (λ text s. WriteText ModeForm s text) }
    ensures size { ⟦<ModeWrite as Token>⟧.size result ≡ 0 }
{
    one_line(KeywordText::new(Keyword::Threaded))
}
