//! A file of one signed number (cgroup-v2.rst, cpu.weight.nice).
ghost use Rattle.std.specs.Prelude.{◌≡◌, ◌≤◌, ◌≤ℤ◌};
ghost use Rattle.cg_text.specs.Token.{Spells};
ghost use Rattle.cg_value.specs.Files.{KindText};
ghost use Rattle.cg_value.specs.declared.kind.ReadForm.TheVariants.{Signed as SignedForm};

use cg_join::{Line, MapValue, NamedToken, Sequence, one_line};
use cg_text::{ByteText, SignedText, Token};
use cg_value::Value;

/// A line, turned into the file's value.
#[derive(Clone, Copy)]
pub struct ToSigned;

impl MapValue<Sequence<SignedText, ByteText>> for ToSigned {
    type To = Value;

    ghost use Rattle.cg_join.specs.SettledLaws.{zero_least};
    ghost use Rattle.cg_file.specs.OneLineMapped.{signed_value};

    ghost mapped = { signed_value };

    ghost value_size = { λ _. 0 };

    fn map_value(value: (i64, ())) -> Value {
        Value::Signed(value.0)
    }

    fn held_in(_value: &Value) -> u64 {
        0
    }

    ghost adds_no_memory = { λ v. zero_least _ };
}

/// The text of a file of one signed number of a range.
pub type SignedFile = Line<SignedText, ToSigned>;

impl NamedToken<SignedFile> for ToSigned {
    ghost token = { ⟦<SignedFile as Token>⟧ };
}

/// The text of a file of one signed number from `lo` to `hi`.
pub fn signed_file(lo: i64, hi: i64) -> SignedFile
    requires { lo ≤ℤ hi }
    ensures spells { Spells ⟦<SignedFile as Token>⟧.means result (λ text v. KindText (SignedForm lo hi) v text) }
    ensures size { ⟦<SignedFile as Token>⟧.size result ≡ 0 }
{
    match SignedText::new(lo, hi) {
        Some(number) => one_line(number),
        None => unreachable!(),
    }
}
