//! A run that checks a snapshot: a line for each finding, after the end of input.
ghost use Rattle.std.specs.Prelude.{◌≡◌, ◌≤◌, ◌+◌, ℕ, Bool, false, List, [], ◌∷◌, ◌++◌, Option, IfOk, OnOk, is_some, map};
ghost use Rattle.std.specs.Io.KnownBytes.{IsAtEnd};
ghost use Rattle.cg_run.specs.Check.{IsCheckRight, finding_line, word_at};
ghost use Rattle.cg_run.specs.Checked.{HasWrittenLines};
ghost use Rattle.cg_outcome.specs.Explain.{Tells};
ghost use Rattle.cg_outcome.specs.Lines.{AreBehind};
ghost use Rattle.cg_run.specs.Run.{DidRunWith};
ghost use Rattle.cg_outcome.specs.Wrote.{HasWritten, IsRealFault};
ghost use Rattle.cg_run.specs.Streaming.{Before, EndsSo};

use crate::spot::stream_spot;
use crate::stream_reader::{KeptEntries, Standing};
use crate::streaming::read_stream;
use cg_outcome::told::{write_after, write_part};
use cg_outcome::{Lines, Outcome, checked, write_stop};
use cg_print::Sink;
use cg_snap::{Stop, StreamFault};
use cg_source::Source;
use cg_text::OutOfMemory;
use cg_tree::{Finding, findings};
use cg_value::{Entry, Value};
use std::alloc::Global;

/// The word at this place of those that an entry holds, nothing where there is none.
fn word_of(entry: &Entry, place: usize) -> &[u8]
    ensures { result.now ≡ word_at entry.now.value place }
{
    match entry.value() {
        Value::Words(words) => match words.get(place) {
            Some(word) => word.bytes(),
            None => &[],
        },
        _ => &[],
    }
}

/// Adds the path of a `cgroup.subtree_control`, a space and its word at this place.
fn add_control(line: &mut Vec<u8>, control: &Entry, place: usize) -> Result<(), OutOfMemory>
    ensures { OnOk result (line.new.items ≡ line.old.items ++
        (control.now.path ++ 32 ∷ word_at control.now.value place)) }
{
    line.extend_from_slice(control.path())?;
    line.push(b' ')?;
    line.extend_from_slice(word_of(control, place))?;
    Ok(())
}

/// The line with its newline.
fn ended(mut line: Vec<u8>) -> Result<Vec<u8>, OutOfMemory>
    ensures { IfOk result (λ whole. whole.items ≡ line.items ++ 10 ∷ []) }
{
    line.push(b'\n')?;
    Ok(line)
}

/// The line of a finding: the rule, the path of the `cgroup.subtree_control` and the word, with a space between.
fn line_of(alloc: Global, entries: &[Entry], finding: &Finding) -> Result<Vec<u8>, OutOfMemory>
    ensures { IfOk result (λ line. line.items ≡ finding_line entries.now finding.now) }
{
    let mut line = Vec::from_slice(alloc, finding.rule.name().as_bytes())?;
    line.push(b' ')?;
    match entries.get(finding.at) {
        Some(control) => {
            add_control(&mut line, control, finding.word)?;
            ended(line)
        }
        None => ended(line),
    }
}

/// Writes a line for each finding. So many bytes were written before, and so many blocks were left out.
fn write_lines<W: Sink>(
    alloc: Global,
    entries: &[Entry],
    found: &[Finding],
    left_out: u64,
    writer: &mut W,
    before: u64,
) -> Outcome
    ensures told { (first : Option (List ℕ)) (parts : List (List ℕ)) →
        HasWritten first (W.taken writer.old) parts before →
        HasWrittenLines parts (map (finding_line entries.now) found.now) left_out first (W.taken writer.new)
        (W.has_failed writer.new) result }
    ensures real { IsRealFault result (W.has_failed writer.new) }
{
    let mut written = before;
    for finding in found {
        match line_of(alloc, entries, finding) {
            Ok(line) => match write_part(writer, line.as_slice(), &mut written) {
                Ok(()) => {}
                Err(fault) => return fault,
            },
            Err(_) => return write_after(writer, written, Outcome::OutOfMemory),
        }
    }
    checked(found.len() as u64, left_out)
}

/// Writes what the entries of the snapshot break, once its input has ended. So many bytes were written before.
fn write_findings<K: KeptEntries, W: Sink>(
    alloc: Global,
    kept: K,
    writer: &mut W,
    written: u64,
    lines: Option<Lines>,
    max: u64,
) -> Outcome
    ensures ended { (form : K.Setup) (first : Option (List ℕ)) (read : List ℕ) → K.limit form ≡ max →
        AreBehind lines read → Before (K.took kept form) first (W.taken writer.old) written read →
        (left : Option (List ℕ)) (failed : Bool) → IsAtEnd left → failed ≡ false →
        EndsSo (IsCheckRight (K.whole form) (K.closes form) (K.unstopped form) (K.stops form))
        (Tells (K.explained form) (is_some lines))
        read left failed first (W.taken writer.new) (W.has_failed writer.new)
        result }
    ensures real { IsRealFault result (W.has_failed writer.new) }
{
    let Standing {
        is_cut,
        consumed,
        ..
    } = kept.standing();
    if is_cut {
        let stop = Stop::Cut { at: consumed };
        let spot = stream_spot(&kept, lines, stop, None);
        return write_stop(writer, written, stop, spot);
    }
    let kept = match kept.finish_kept() {
        Ok(kept) => kept,
        Err(StreamFault::Stopped(stop)) => {
            return write_after(writer, written, Outcome::Stopped(stop));
        }
        Err(StreamFault::OutOfMemory) => {
            return write_after(writer, written, Outcome::OutOfMemory);
        }
    };
    let entries = kept.entries.as_slice();
    match findings(alloc, entries) {
        Ok(found) => write_lines(
            alloc,
            entries,
            found.as_slice(),
            kept.left_out,
            writer,
            written,
        ),
        Err(_) => write_after(writer, written, Outcome::OutOfMemory),
    }
}

/// Reads a snapshot, keeps its entries, and writes what they break after the end of input.
pub(crate) fn run_check<K: KeptEntries, R: Source, W: Sink>(
    alloc: Global,
    mut kept: K,
    reader: &mut R,
    writer: &mut W,
    lines: Option<Lines>,
    max: u64,
) -> Outcome
    requires { (form : K.Setup) × K.took kept form [] [] × (K.limit form ≡ max) }
    ensures ran { (form : K.Setup) → K.limit form ≡ max → K.took kept form [] [] → R.has_failed reader.old ≡ false →
        AreBehind lines [] →
        DidRunWith (IsCheckRight (K.whole form) (K.closes form) (K.unstopped form) (K.stops form))
        (Tells (K.explained form) (is_some lines))
        (R.coming reader.old) (R.coming reader.new) (R.has_failed reader.new)
        (W.taken writer.old) (W.taken writer.new) (W.has_failed writer.new) result }
    ensures real { IsRealFault result (W.has_failed writer.new) }
    ensures asks { R.asks reader.new ≤ R.asks reader.old + max + 1 }
{
    let mut behind = lines;
    match read_stream(alloc, &mut kept, reader, writer, &mut behind, max) {
        Ok(output) => write_findings(alloc, kept, writer, output.written, behind, max),
        Err(outcome) => outcome,
    }
}
