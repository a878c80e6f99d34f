//! Reading one text from a source.
ghost use Rattle.std.specs.Prelude.{◌≡◌, ◌≤◌, ◌<◌, ◌+◌, ℕ, List, [], ◌∷◌, ◌++◌, false, length, IfNone, is_some};
ghost use Rattle.cg_text.specs.Texts.{TextOf};
ghost use Rattle.cg_snap.specs.Stop.{TextStopOf, place_of};
ghost use Rattle.cg_outcome.specs.Lines.{AreBehind};
ghost use Rattle.cg_source.specs.Reading.{AreBehindPiece, ending_of, GoesOn, TookPiece, HasRead};

use crate::source::Source;
use crate::spot::next_byte;
use crate::text_reader::TextReader;
use cg_line::PushFault;
use cg_outcome::{Lines, lines_behind};
use cg_print::Failed;
use cg_snap::{Stop, Why};

/// How reading ended.
#[derive(Clone, Copy, Debug, PartialEq, Eq)]
pub enum Ending {
    /// The source had no more bytes than these.
    End { at: u64 },
    /// This byte stopped it.
    Stopped { stop: Stop, byte: Option<u8> },
    /// The source failed.
    ReadFault,
    OutOfMemory,
}

/// How the byte whose place is the limit of the stream stops it: by the grammar first.
fn stop_at_limit<T: TextReader>(reader: &T, byte: u8, at: u64) -> Stop
    ensures stops { (form : T.Grammar) (taken : List ℕ) → T.took reader.now form taken → at ≡ length taken →
        TextStopOf (TextOf (T.text form)) at (taken ++ byte ∷ []) result }
    ensures place { place_of result ≡ at }
{
    if reader.allowed().contains(byte) {
        Stop::TooMuch { at }
    } else {
        Stop::Refused { at, why: Why::Line }
    }
}

/// How reading ends at a byte of this place, which was not taken.
fn ending_at(fault: PushFault, at: u64, byte: Option<u8>) -> Ending
    ensures { result ≡ ending_of fault at byte }
{
    match fault {
        PushFault::Refused => Ending::Stopped {
            stop: Stop::Refused { at, why: Why::Line },
            byte,
        },
        PushFault::OutOfMemory => Ending::OutOfMemory,
    }
}

/// Takes the bytes of a piece, of which the first has the place `at`.
pub(crate) fn take_piece<T: TextReader>(
    reader: &mut T,
    piece: &[u8],
    at: u64,
    max: u64,
    lines: &mut Option<Lines>,
) -> Option<Ending>
    requires { at ≤ max }
    ensures took { (form : T.Grammar) (taken : List ℕ) → at ≡ length taken → GoesOn (T.took reader.old form) max taken →
        TookPiece (TextOf (T.text form)) (T.took reader.new form) max taken piece.now result }
    ensures room { IfNone result (at + length piece.now ≤ max) }
    ensures behind { (taken : List ℕ) → at ≡ length taken → AreBehind lines.old taken →
        AreBehindPiece lines.new (taken ++ piece.now) result }
    ensures same { is_some lines.new ≡ is_some lines.old }
{
    let mut used = 0;
    while used < piece.len() {
        let place = at + used as u64;
        if place == max {
            let (front, rest) = piece.split_at(used);
            *lines = lines_behind(*lines, front);
            let stop = stop_at_limit(reader, piece[used], place);
            let byte = next_byte(rest);
            return Some(Ending::Stopped { stop, byte });
        }
        let (_, rest) = piece.split_at(used);
        let run = reader.take_run(rest, max - place);
        used += run.used;
        match run.fault {
            None => {}
            Some(fault) => {
                let (front, behind) = piece.split_at(used);
                *lines = lines_behind(*lines, front);
                return Some(ending_at(fault, place + run.used as u64, next_byte(behind)));
            }
        }
    }
    *lines = lines_behind(*lines, piece);
    None
}

/// Reads a text to the end of its source, or until something stops it.
pub fn read_all<T: TextReader, R: Source>(
    reader: &mut T,
    source: &mut R,
    buffer: &mut [u8],
    max: u64,
    lines: &mut Option<Lines>,
) -> Ending
    requires { 0 < length buffer.old }
    ensures read { (form : T.Grammar) → T.took reader.old form [] → R.has_failed source.old ≡ false →
        AreBehind lines.old [] →
        HasRead (TextOf (T.text form)) (T.took reader.new form) max (R.coming source.old) (R.coming source.new)
        (R.has_failed source.new) lines.new result }
    ensures same { is_some lines.new ≡ is_some lines.old }
    ensures asks { R.asks source.new ≤ R.asks source.old + max + 1 }
{
    let mut at = 0;
    'reads: loop {
        let count = match source.pull(buffer) {
            Ok(count) => count,
            Err(Failed) => return Ending::ReadFault,
        };
        if count == 0 {
            return Ending::End { at };
        }
        let (piece, _) = buffer.split_at(count);
        match take_piece(reader, piece, at, max, lines) {
            None => at += count as u64,
            Some(ending) => return ending,
        }
    }
}
