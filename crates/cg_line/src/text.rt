//! Tokens over the whole text of a file, or of a write.
ghost use Rattle.std.specs.Prelude.{◌<◌, ◌↔◌, ℕ, [], IsTrue};
ghost use Rattle.cg_text.specs.Bytes.{HasByte};
ghost use Rattle.cg_text.specs.Texts.{Next, TextOf};
ghost use Rattle.cg_line.specs.Rests.{SomeNext};

use cg_text::{ByteSet, Token};

/// The bytes that may come next.
pub(crate) fn allowed_by<T: Token>(text: &T) -> ByteSet
    ensures { (byte : ℕ) → HasByte result byte ↔ Next (TextOf (T.means text.now)) [] byte }
{
    let mut set = ByteSet::new();
    for number in 0..256u16 {
        let byte = number as u8;
        if text.allows(byte) {
            set.insert(byte);
        }
    }
    set
}

/// Whether any byte may come next.
pub(crate) fn goes_on<T: Token>(text: &T) -> bool
    ensures { IsTrue result ↔ SomeNext (TextOf (T.means text.now)) [] }
{
    // Nearly every line can begin with a 0, and others begin with a letter; the second line of pressure begins with
    // an f.
    for likely in b"0af" {
        if text.allows(*likely) {
            return true;
        }
    }
    for number in 0..256u16 {
        if text.allows(number as u8) {
            return true;
        }
    }
    false
}
