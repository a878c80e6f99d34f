//! A write of one signed number (cgroup-v2.rst, cpu.weight.nice).
ghost use Rattle.std.specs.Prelude.{◌≡◌, ◌≤◌, ◌≤ℤ◌};
ghost use Rattle.cg_text.specs.Token.{Spells};
ghost use Rattle.cg_value.specs.Settings.{WriteText};
ghost use Rattle.cg_value.specs.declared.kind.WriteForm.TheVariants.{Signed as SignedForm};

use cg_join::{Line, MapValue, NamedToken, Sequence, one_line};
use cg_text::{ByteText, SignedText, Token};
use cg_value::Setting;

/// The line, turned into the setting.
#[derive(Clone, Copy)]
pub struct ToSigned;

impl MapValue<Sequence<SignedText, ByteText>> for ToSigned {
    type To = Setting;

    ghost use Rattle.cg_write.specs.Mapped.{signed_setting};
    ghost use Rattle.std.proofs.Common.{arith};

    ghost mapped = { signed_setting };

    ghost value_size = { λ _. 0 };

    fn map_value(value: (i64, ())) -> Setting {
        Setting::Signed(value.0)
    }

    fn held_in(_value: &Setting) -> u64 {
        0
    }

    ghost adds_no_memory = { λ v. Prim.omega arith };
}

/// The text of a write of one signed number from `lo` to `hi`.
pub type SignedWrite = Line<SignedText, ToSigned>;

impl NamedToken<SignedWrite> for ToSigned {
    ghost token = { ⟦<SignedWrite as Token>⟧ };
}

/// The text of a write of one signed number from `lo` to `hi` (cgroup-v2.rst, cpu.weight.nice).
pub fn signed_write(lo: i64, hi: i64) -> SignedWrite
    requires { lo ≤ℤ hi }
    ensures spells { Spells ⟦<SignedWrite as Token>⟧.means result (λ text s. WriteText (SignedForm lo hi) s text) }
    ensures size { ⟦<SignedWrite as Token>⟧.size result ≡ 0 }
{
    match SignedText::new(lo, hi) {
        Some(number) => one_line(number),
        None => unreachable!(),
    }
}
