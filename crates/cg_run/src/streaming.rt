//! A run over a stream: the parts that a piece of the input gives are written before the next piece is asked for, and
//! nothing is held but these and the present part.
ghost use Rattle.std.specs.Prelude.{◌≡◌, ◌≤◌, ◌+◌, ℕ, Bool, false, List, [], ◌++◌, Option, MatchResult, IfErr, OnOk, is_some};
ghost use Rattle.std.specs.Io.KnownBytes.{IsAtEnd};
ghost use Rattle.cg_outcome.specs.Explain.{Tells};
ghost use Rattle.cg_outcome.specs.Lines.{AreBehind};
ghost use Rattle.cg_run.specs.Run.{DidRunWith};
ghost use Rattle.cg_outcome.specs.Wrote.{IsRealFault};
ghost use Rattle.cg_run.specs.Stream.{IsEarlyRight, IsStreamRight};
ghost use Rattle.cg_run.specs.Streaming.{Before, EndsSo};
ghost use Rattle.cg_run.specs.Output.{BeforeNext, StreamedIs};

use crate::output::Output;
use crate::running::PIECE;
use crate::spot::stream_spot;
use crate::stream_reader::{LastPart, Standing, StreamReader};
use cg_outcome::told::write_after;
use cg_outcome::{Lines, Outcome, gone_on, lines_behind};
use cg_print::{Failed, Sink};
use cg_snap::{Event, Stop, StreamFault};
use cg_source::{Source, next_byte};
use std::alloc::Global;

/// Hands a piece to the reader, and writes the parts that it gives. The error is how the run ended.
fn take_parts<S: StreamReader, W: Sink>(
    stream: &mut S,
    piece: &[u8],
    output: &mut Output,
    writer: &mut W,
    lines: Option<Lines>,
    max: u64,
) -> Result<(), Outcome>
    ensures took { (form : S.Setup) (first : Option (List ℕ)) (read : List ℕ) → S.limit form ≡ max →
        BeforeNext (S.took stream.old form) first (W.taken writer.old) output.old read →
        MatchResult result
        (λ _. Before (S.took stream.new form) first (W.taken writer.new) output.new.written (read ++ piece.now))
        (λ o. AreBehind lines read → (left : Option (List ℕ)) (failed : Bool) →
        EndsSo (IsEarlyRight (S.whole form) (S.closes form) (S.unstopped form) (S.stops form))
        (Tells (S.explained form) (is_some lines))
        (read ++ piece.now) left failed first (W.taken writer.new) (W.has_failed writer.new) o) }
    ensures none { OnOk result (output.new.text.items ≡ []) }
    ensures real { IfErr result (λ o. IsRealFault o (W.has_failed writer.new)) }
{
    let mut used = 0;
    while used < piece.len() {
        let (_, rest) = piece.split_at(used);
        let progress = stream.next(rest, &mut output.text);
        used += progress.used;
        match progress.what {
            Event::NeedMore | Event::Given(()) => output.write_many(writer)?,
            Event::Stopped(stop) => {
                let (front, rest) = piece.split_at(used);
                let behind = lines_behind(lines, front);
                let spot = stream_spot(stream, behind, stop, next_byte(rest));
                return Err(output.stop(writer, stop, spot));
            }
            Event::OutOfMemory => return Err(output.finish(writer, Outcome::OutOfMemory)),
        }
    }
    output.write(writer)
}

/// Writes what the end of the input leaves.
fn write_end<S: LastPart, W: Sink>(
    stream: S,
    output: &mut Output,
    writer: &mut W,
    lines: Option<Lines>,
    max: u64,
) -> Outcome
    ensures ended { (form : S.Setup) (first : Option (List ℕ)) (read : List ℕ) → S.limit form ≡ max →
        AreBehind lines read → BeforeNext (S.took stream form) first (W.taken writer.old) output.old read →
        (left : Option (List ℕ)) (failed : Bool) → IsAtEnd left → failed ≡ false →
        EndsSo (IsStreamRight (S.whole form) (S.closes form) (S.unstopped form) (S.stops form))
        (Tells (S.explained form) (is_some lines))
        read left failed first (W.taken writer.new) (W.has_failed writer.new) result }
    ensures real { IsRealFault result (W.has_failed writer.new) }
{
    let Standing {
        is_cut,
        consumed,
        ..
    } = stream.standing();
    if is_cut {
        let stop = Stop::Cut { at: consumed };
        let spot = stream_spot(&stream, lines, stop, None);
        return output.stop(writer, stop, spot);
    }
    match stream.finish(&mut output.text) {
        Ok(left_out) => output.finish(writer, gone_on(left_out)),
        Err(StreamFault::Stopped(stop)) => output.finish(writer, Outcome::Stopped(stop)),
        Err(StreamFault::OutOfMemory) => output.finish(writer, Outcome::OutOfMemory),
    }
}

/// Reads a stream to the end of its source, or until something stops it, and writes the parts that its bytes close. The
/// error is how the run ended before.
pub(crate) fn read_stream<S: StreamReader, R: Source, W: Sink>(
    alloc: Global,
    stream: &mut S,
    reader: &mut R,
    writer: &mut W,
    lines: &mut Option<Lines>,
    max: u64,
) -> Result<Output, Outcome>
    requires { (form : S.Setup) × S.took stream.old form [] [] × (S.limit form ≡ max) }
    ensures read { (form : S.Setup) → S.limit form ≡ max → S.took stream.old form [] [] →
        R.has_failed reader.old ≡ false → AreBehind lines.old [] →
        StreamedIs (S.took stream.new form) (IsEarlyRight (S.whole form) (S.closes form) (S.unstopped form)
        (S.stops form)) (Tells (S.explained form) (is_some lines.old))
        (R.coming reader.old) (R.coming reader.new) (R.has_failed reader.new)
        (W.taken writer.old) (W.taken writer.new) (W.has_failed writer.new) lines.new result }
    ensures same { is_some lines.new ≡ is_some lines.old }
    ensures real { IfErr result (λ o. IsRealFault o (W.has_failed writer.new)) }
    ensures asks { R.asks reader.new ≤ R.asks reader.old + max + 1 }
{
    let mut buffer = [0; PIECE];
    let mut output = Output::new(alloc);
    'reads: loop {
        let count = match reader.pull(&mut buffer) {
            Ok(count) => count,
            Err(Failed) => return Err(write_after(writer, output.written, Outcome::ReadFault)),
        };
        if count == 0 {
            return Ok(output);
        }
        let (piece, _) = buffer.split_at(count);
        take_parts(stream, piece, &mut output, writer, *lines, max)?;
        *lines = lines_behind(*lines, piece);
    }
}

/// Reads a stream to the end of its source, or until something stops it, and writes its parts.
pub(crate) fn run_stream<S: LastPart, R: Source, W: Sink>(
    alloc: Global,
    mut stream: S,
    reader: &mut R,
    writer: &mut W,
    lines: Option<Lines>,
    max: u64,
) -> Outcome
    requires { (form : S.Setup) × S.took stream form [] [] × (S.limit form ≡ max) }
    ensures ran { (form : S.Setup) → S.limit form ≡ max → S.took stream form [] [] → R.has_failed reader.old ≡ false →
        AreBehind lines [] →
        DidRunWith (IsStreamRight (S.whole form) (S.closes form) (S.unstopped form) (S.stops form))
        (Tells (S.explained form) (is_some lines))
        (R.coming reader.old) (R.coming reader.new) (R.has_failed reader.new)
        (W.taken writer.old) (W.taken writer.new) (W.has_failed writer.new) result }
    ensures real { IsRealFault result (W.has_failed writer.new) }
    ensures asks { R.asks reader.new ≤ R.asks reader.old + max + 1 }
{
    let mut behind = lines;
    match read_stream(alloc, &mut stream, reader, writer, &mut behind, max) {
        Ok(mut output) => write_end(stream, &mut output, writer, behind, max),
        Err(outcome) => outcome,
    }
}
