//! A whole text.
ghost use Rattle.cg_line.specs.Decode.{IsReadWhole};

use crate::push::{PushFault, push_run_to};
use cg_text::Token;

/// Why bytes are no text of a token.
#[derive(Clone, Copy)]
pub(crate) enum TextFault {
    /// After the byte at this place no text goes on.
    Refused { at: u64 },
    /// The bytes end before a text does, at their length.
    Cut { at: u64 },
    OutOfMemory,
}

/// The value of the text that the bytes are.
pub(crate) fn read_all<T: Token>(text: T, bytes: &[u8]) -> Result<T::Out, TextFault>
    ensures { IsReadWhole (T.means text) bytes.now result }
{
    let mut text = text;
    let mut at = 0;
    while at < bytes.len() {
        let (_, rest) = bytes.split_at(at);
        let run = push_run_to(&mut text, rest);
        at += run.used;
        match run.fault {
            None => {}
            Some(PushFault::Refused) => return Err(TextFault::Refused { at: at as u64 }),
            Some(PushFault::OutOfMemory) => return Err(TextFault::OutOfMemory),
        }
    }
    if text.can_end() {
        Ok(text.take())
    } else {
        Err(TextFault::Cut { at: at as u64 })
    }
}
