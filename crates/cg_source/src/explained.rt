//! Why bytes that are at hand are no text.
ghost use Rattle.std.specs.Prelude.{◌≡◌, [], length};
ghost use Rattle.cg_text.specs.Texts.{TextOf};
ghost use Rattle.cg_outcome.specs.Spot.{more_words};
ghost use Rattle.cg_source.specs.Explained.{IsExplained, IsLine};

use crate::reading::{Ending, take_piece};
use crate::spot::text_spot;
use crate::text_reader::TextReader;
use cg_outcome::{Lines, Spot, append_spot};
use cg_snap::Stop;
use cg_text::OutOfMemory;
use std::alloc::Global;

/// What is told of bytes, where memory is left for it.
#[derive(Drop)]
pub enum Explained {
    /// Why they are no text: the line that `--explain` writes.
    Line(Vec<u8>),
    /// They are a text, so there is nothing to explain.
    Whole,
    /// A file of the name can't be read, or written.
    NoForm,
}

/// The line of a spot, empty where there is none.
fn line_of(alloc: Global, spot: Option<Spot<'_>>) -> Result<Explained, OutOfMemory>
    ensures { IsLine (more_words spot.entry) result }
{
    let mut text = Vec::new(alloc);
    let Some(spot) = spot else {
        return Ok(Explained::Line(text));
    };
    match append_spot(&mut text, &spot) {
        Ok(()) => Ok(Explained::Line(text)),
        Err(_) => Err(OutOfMemory),
    }
}

/// Why bytes, which are so many, are no text of the reader's form, by the name of the file. The reader took none.
pub fn explain_text<T: TextReader>(
    alloc: Global,
    text: T,
    name: &[u8],
    bytes: &[u8],
    end: u64,
) -> Result<Explained, OutOfMemory>
    requires { end ≡ length bytes.now }
    ensures { (form : T.Grammar) → T.took text form [] →
        IsExplained ⊥ (TextOf (T.text form)) name.now bytes.now result }
{
    let mut text = text;
    let mut lines = Some(Lines::new());
    match take_piece(&mut text, bytes, 0, end, &mut lines) {
        None if text.can_finish() => Ok(Explained::Whole),
        None => {
            let stop = Stop::Cut { at: end };
            line_of(alloc, text_spot(name, &text, lines, stop, None))
        }
        Some(Ending::Stopped { stop, byte }) => {
            line_of(alloc, text_spot(name, &text, lines, stop, byte))
        }
        Some(Ending::OutOfMemory) => Err(OutOfMemory),
        // There is no source, which ends or fails.
        Some(Ending::End { .. }) => Err(OutOfMemory),
        Some(Ending::ReadFault) => Err(OutOfMemory),
    }
}
