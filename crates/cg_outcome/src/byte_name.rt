//! How bytes are named.
ghost use Rattle.std.specs.Prelude.{◌≡◌, ◌≤◌, ◌<◌, ◌+◌, ◌++◌, length};
ghost use Rattle.cg_outcome.specs.ByteNames.{byte_name, hex_digit};

use crate::line::Line;

/// The digit of a number below 16.
fn digit(number: u8) -> u8
    requires { number < 16 }
    ensures { result ≡ hex_digit number }
{
    if number < 10 {
        b'0' + number
    } else {
        b'a' + (number - 10)
    }
}

/// Adds the name of a byte.
pub(crate) fn add_name(line: &mut Line, byte: u8)
    requires { length line.old + 7 ≤ 80 }
    ensures named { line.new ≡ line.old ++ byte_name byte }
    ensures short { length (byte_name byte) ≤ 7 }
{
    match byte {
        0 => line.add(b"NUL"),
        b'\n' => line.add(b"newline"),
        b' ' => line.add(b"space"),
        33..=126 => line.add(&[b'\'', byte, b'\'']),
        _ => line.add(&[b'0', b'x', digit(byte / 16), digit(byte % 16)]),
    }
}
