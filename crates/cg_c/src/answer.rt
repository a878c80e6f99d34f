//! What a call answers: a status, and a text in the caller's buffer.
ghost use Rattle.std.specs.Prelude.{◌≡◌, ◌<◌, ◌++◌, length, drop, IsTrue, IsFalse};
ghost use Rattle.cg_c.specs.Answer.{profile_of};

use cg_value::Profile;

/// Done: what was asked for is told.
pub(crate) const DONE: u32 = 0;
/// After a byte, whose place is told, no text continues.
pub(crate) const REFUSED: u32 = 1;
/// The bytes end before a text does.
pub(crate) const CUT: u32 = 2;
/// A file of the name can't be read, or written.
pub(crate) const NO_FORM: u32 = 3;
/// The buffer is shorter than the text, whose length is told.
pub(crate) const NO_ROOM: u32 = 4;
/// No memory was left.
pub(crate) const NO_MEMORY: u32 = 5;
/// No profile has the number.
pub(crate) const NO_PROFILE: u32 = 6;
/// The file has no such number.
pub(crate) const NONE: u32 = 7;
/// The number is `max`.
pub(crate) const MAX: u32 = 8;
/// The path is empty, has a NUL or a newline, or ends with `/`.
pub(crate) const BAD_PATH: u32 = 9;
/// The file has no line.
pub(crate) const NO_LINES: u32 = 10;
/// No entry is whole yet.
pub(crate) const MORE: u32 = 11;
/// The stream has ended.
pub(crate) const END: u32 = 12;
/// A record is longer than 1048576 bytes.
pub(crate) const TOO_LONG: u32 = 13;
/// An entry has more than 1000000 records.
pub(crate) const TOO_MANY: u32 = 14;
/// A stream is longer than 1073741824 bytes.
pub(crate) const TOO_MUCH: u32 = 15;
/// The bytes are a text, so there is nothing to explain.
pub(crate) const WHOLE: u32 = 16;

/// The profile of a number.
pub(crate) fn profile_of(number: u32) -> Option<Profile>
    ensures { result ≡ profile_of number }
{
    match number {
        1 => Some(Profile::One),
        2 => Some(Profile::Two),
        3 => Some(Profile::Kernel),
        _ => None,
    }
}

/// Puts the text at the front of the buffer, if there is room.
pub(crate) fn put(text: &[u8], out: &mut [u8]) -> bool
    ensures yes { IsTrue result → out.new ≡ text.now ++ drop (length text.now) out.old }
    ensures no { IsFalse result → length out.old < length text.now }
    ensures kept { IsFalse result → out.new ≡ out.old }
{
    if out.len() < text.len() {
        return false;
    }
    out[..text.len()].copy_from_slice(text);
    true
}

/// What was read; or else the call answers the fault, with its place where it has one.
macro_rules! read_or_answer {
    ($read:expr, $at:ident, $faults:ident::$no_form:ident) => {
        match $read {
            Ok(read) => read,
            Err($faults::$no_form) => return $crate::answer::NO_FORM,
            Err($faults::Refused { at: place }) => {
                *$at = place;
                return $crate::answer::REFUSED;
            }
            Err($faults::Cut { at: place }) => {
                *$at = place;
                return $crate::answer::CUT;
            }
            Err($faults::OutOfMemory) => return $crate::answer::NO_MEMORY,
        }
    };
}

pub(crate) use read_or_answer;
