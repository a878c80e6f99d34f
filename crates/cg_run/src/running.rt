//! The program's run.
ghost use Rattle.std.specs.Prelude.{◌≡◌, ◌≢◌, ◌≤◌, ◌+◌, ℕ, List, [], false, None, is_some, length};
ghost use Rattle.cg_value.specs.Table.{read_form_of, write_form_of};
ghost use Rattle.cg_text.specs.Texts.{TextOf};
ghost use Rattle.cg_outcome.specs.Explain.{ExplainsNext, IsInText, Tells};
ghost use Rattle.cg_outcome.specs.Lines.{AreBehind};
ghost use Rattle.cg_run.specs.Run.{DidRunWith, Ran, RanWith, IsIdle, IsTextRight, IsFileRight, IsShowRight, IsJsonRight, IsCheckedRight, IsWriteRight, TellsOfFile, TellsOfSnapshot, TellsOfWrite};
ghost use Rattle.cg_outcome.specs.Wrote.{IsRealFault};
ghost use Rattle.cg_run.specs.Ended.{HasEnded};

use crate::checked::run_check;
use crate::command::Command;
use crate::entries::EntryReader;
use crate::file_reader::FileReader;
use crate::going_on::GoingOnReader;
use crate::kept::KeptReader;
use crate::options::Options;
use crate::planned::PlannedReader;
use crate::shown::ShownReader;
use crate::streaming::run_stream;
use crate::teller::{JsonTeller, KeptTeller, ShownTeller};
use cg_line::SettingReader;
use cg_outcome::told::{told, told_line};
use cg_outcome::{Lines, Outcome, lines_of, told_kinds, write_stop};
use cg_print::Sink;
use cg_snap::{Limits, Stop};
use cg_source::{Ending, Source, TextReader, read_all, text_spot};
use cg_value::{Profile, read_kind, write_kind};
use std::alloc::Global;

/// How many bytes are read at once.
pub(crate) const PIECE: usize = 32768;

/// What is written once the input of a text has ended at this place.
#[tactic(auto, using(cg_outcome::proofs::Written::wrote_real))]
fn told_end<T: TextReader, W: Sink>(
    alloc: Global,
    text: T,
    at: u64,
    writer: &mut W,
    name: &[u8],
    lines: Option<Lines>,
) -> Outcome
    ensures ended { (form : T.Grammar) (bytes : List ℕ) → T.took text form bytes → at ≡ length bytes →
        AreBehind lines bytes → HasEnded (T.text form) T.printed (is_some lines) (IsInText name.now) bytes
        (W.taken writer.old) (W.taken writer.new) (W.has_failed writer.new) result }
    ensures real { IsRealFault result (W.has_failed writer.new) }
{
    if !text.can_finish() {
        let stop = Stop::Cut { at };
        return write_stop(writer, 0, stop, text_spot(name, &text, lines, stop, None));
    }
    match text.finish(alloc) {
        Ok(Some(text)) => told(writer, text.as_slice(), Outcome::Done),
        Ok(None) => told_line(writer, Outcome::Stopped(Stop::Cut { at })),
        Err(_) => told_line(writer, Outcome::OutOfMemory),
    }
}

/// Reads a text and writes its canonical text after the end of input.
#[tactic(auto, using(cg_outcome::proofs::Written::wrote_real))]
fn run_text<T: TextReader, R: Source, W: Sink>(
    alloc: Global,
    mut text: T,
    reader: &mut R,
    writer: &mut W,
    max: u64,
    name: &[u8],
    lines: Option<Lines>,
) -> Outcome
    ensures ran { (form : T.Grammar) → T.took text form [] → R.has_failed reader.old ≡ false → AreBehind lines [] →
        DidRunWith (IsTextRight (T.text form) T.printed max)
        (Tells (ExplainsNext (TextOf (T.text form)) (IsInText name.now)) (is_some lines))
        (R.coming reader.old) (R.coming reader.new) (R.has_failed reader.new)
        (W.taken writer.old) (W.taken writer.new) (W.has_failed writer.new) result }
    ensures real { IsRealFault result (W.has_failed writer.new) }
    ensures asks { R.asks reader.new ≤ R.asks reader.old + max + 1 }
{
    let mut buffer = [0; PIECE];
    let mut behind = lines;
    match read_all(&mut text, reader, &mut buffer, max, &mut behind) {
        Ending::End { at } => told_end(alloc, text, at, writer, name, behind),
        Ending::Stopped { stop, byte } => {
            let spot = text_spot(name, &text, behind, stop, byte);
            write_stop(writer, 0, stop, spot)
        }
        Ending::ReadFault => told_line(writer, Outcome::ReadFault),
        Ending::OutOfMemory => told_line(writer, Outcome::OutOfMemory),
    }
}

/// Reads the file of this name, where it can be read.
#[tactic(auto, using(cg_outcome::proofs::Written::wrote_real))]
fn run_file<R: Source, W: Sink>(
    alloc: Global,
    profile: Profile,
    name: &[u8],
    reader: &mut R,
    writer: &mut W,
    max: u64,
    lines: Option<Lines>,
) -> Outcome
    ensures ran { R.has_failed reader.old ≡ false → AreBehind lines [] →
        DidRunWith (IsFileRight (read_form_of profile name.now) max)
        (TellsOfFile (is_some lines) name.now (read_form_of profile name.now))
        (R.coming reader.old) (R.coming reader.new) (R.has_failed reader.new)
        (W.taken writer.old) (W.taken writer.new) (W.has_failed writer.new) result }
    ensures real { IsRealFault result (W.has_failed writer.new) }
    ensures asks { R.asks reader.new ≤ R.asks reader.old + max + 1 }
    ensures unasked { read_form_of profile name.now ≡ None → R.asks reader.new ≡ R.asks reader.old }
    ensures no_memory { read_form_of profile name.now ≡ None → result ≢ Outcome.OutOfMemory }
{
    match read_kind(profile, name) {
        Ok(kind) => run_text(
            alloc,
            FileReader::new(alloc, kind),
            reader,
            writer,
            max,
            name,
            lines,
        ),
        Err(_) => told_line(writer, Outcome::NotReadable),
    }
}

/// Reads one write to the file of this name, where it can be written.
#[tactic(auto, using(cg_outcome::proofs::Written::wrote_real))]
fn run_setting<R: Source, W: Sink>(
    alloc: Global,
    profile: Profile,
    name: &[u8],
    reader: &mut R,
    writer: &mut W,
    max: u64,
    lines: Option<Lines>,
) -> Outcome
    ensures ran { R.has_failed reader.old ≡ false → AreBehind lines [] →
        DidRunWith (IsWriteRight (write_form_of profile name.now) max)
        (TellsOfWrite (is_some lines) name.now (write_form_of profile name.now))
        (R.coming reader.old) (R.coming reader.new) (R.has_failed reader.new)
        (W.taken writer.old) (W.taken writer.new) (W.has_failed writer.new) result }
    ensures real { IsRealFault result (W.has_failed writer.new) }
    ensures asks { R.asks reader.new ≤ R.asks reader.old + max + 1 }
    ensures unasked { write_form_of profile name.now ≡ None → R.asks reader.new ≡ R.asks reader.old }
    ensures no_memory { write_form_of profile name.now ≡ None → result ≢ Outcome.OutOfMemory }
{
    match write_kind(profile, name) {
        Ok(kind) => run_text(
            alloc,
            SettingReader::new(alloc, kind),
            reader,
            writer,
            max,
            name,
            lines,
        ),
        Err(_) => told_line(writer, Outcome::NotWritable),
    }
}

/// Reads a snapshot, and shows each entry.
#[tactic(auto, using(cg_outcome::proofs::Written::wrote_real))]
fn run_show<R: Source, W: Sink>(
    alloc: Global,
    profile: Profile,
    reader: &mut R,
    writer: &mut W,
    limits: Limits,
    keep_going: bool,
    lines: Option<Lines>,
) -> Outcome
    ensures ran { R.has_failed reader.old ≡ false → AreBehind lines [] →
        DidRunWith (IsShowRight keep_going (is_some lines) profile limits)
        (TellsOfSnapshot keep_going profile limits (is_some lines))
        (R.coming reader.old) (R.coming reader.new) (R.has_failed reader.new)
        (W.taken writer.old) (W.taken writer.new) (W.has_failed writer.new) result }
    ensures real { IsRealFault result (W.has_failed writer.new) }
    ensures asks { R.asks reader.new ≤ R.asks reader.old + limits.max_stream + 1 }
{
    let max = limits.max_stream;
    if keep_going {
        let entries = GoingOnReader::new(alloc, profile, limits, lines.is_some(), ShownTeller);
        return run_stream(alloc, entries, reader, writer, lines, max);
    }
    let entries = ShownReader::new(alloc, profile, limits);
    run_stream(alloc, entries, reader, writer, lines, max)
}

/// Reads a snapshot, and tells each entry as a line of JSON.
#[tactic(auto, using(cg_outcome::proofs::Written::wrote_real))]
fn run_json<R: Source, W: Sink>(
    alloc: Global,
    profile: Profile,
    reader: &mut R,
    writer: &mut W,
    limits: Limits,
    keep_going: bool,
    lines: Option<Lines>,
) -> Outcome
    ensures ran { R.has_failed reader.old ≡ false → AreBehind lines [] →
        DidRunWith (IsJsonRight keep_going profile limits)
        (TellsOfSnapshot keep_going profile limits (is_some lines))
        (R.coming reader.old) (R.coming reader.new) (R.has_failed reader.new)
        (W.taken writer.old) (W.taken writer.new) (W.has_failed writer.new) result }
    ensures real { IsRealFault result (W.has_failed writer.new) }
    ensures asks { R.asks reader.new ≤ R.asks reader.old + limits.max_stream + 1 }
{
    let max = limits.max_stream;
    if keep_going {
        let entries = GoingOnReader::new(alloc, profile, limits, false, JsonTeller);
        return run_stream(alloc, entries, reader, writer, lines, max);
    }
    let entries = EntryReader::new(alloc, profile, limits);
    run_stream(alloc, entries, reader, writer, lines, max)
}

/// Reads a snapshot, and tells what it breaks.
#[tactic(auto, using(cg_outcome::proofs::Written::wrote_real))]
fn run_checked<R: Source, W: Sink>(
    alloc: Global,
    profile: Profile,
    reader: &mut R,
    writer: &mut W,
    limits: Limits,
    keep_going: bool,
    lines: Option<Lines>,
) -> Outcome
    ensures ran { R.has_failed reader.old ≡ false → AreBehind lines [] →
        DidRunWith (IsCheckedRight keep_going (is_some lines) profile limits)
        (TellsOfSnapshot keep_going profile limits (is_some lines))
        (R.coming reader.old) (R.coming reader.new) (R.has_failed reader.new)
        (W.taken writer.old) (W.taken writer.new) (W.has_failed writer.new) result }
    ensures real { IsRealFault result (W.has_failed writer.new) }
    ensures asks { R.asks reader.new ≤ R.asks reader.old + limits.max_stream + 1 }
{
    let max = limits.max_stream;
    if keep_going {
        let teller = KeptTeller::new(alloc);
        let kept = GoingOnReader::new(alloc, profile, limits, lines.is_some(), teller);
        return run_check(alloc, kept, reader, writer, lines, max);
    }
    let kept = KeptReader::new(alloc, profile, limits);
    run_check(alloc, kept, reader, writer, lines, max)
}

/// Runs a command with the options: reads from the source by pieces, and writes to the sink.
///
/// Only of a snapshot something is left out. Each block that is left out is explained too, but not in JSON.
#[tactic(auto, using(cg_outcome::proofs::Written::wrote_real))]
pub fn run_with<R: Source, W: Sink>(
    alloc: Global,
    profile: Profile,
    command: &Command,
    reader: &mut R,
    writer: &mut W,
    limits: Limits,
    options: Options,
) -> Outcome
    ensures ran { R.has_failed reader.old ≡ false → RanWith profile command.now limits options
        (R.coming reader.old) (R.coming reader.new) (R.has_failed reader.new)
        (W.taken writer.old) (W.taken writer.new) (W.has_failed writer.new) result }
    ensures real { IsRealFault result (W.has_failed writer.new) }
    ensures asks { R.asks reader.new ≤ R.asks reader.old + limits.max_stream + 2 }
    ensures unasked { IsIdle profile command.now → R.asks reader.new ≡ R.asks reader.old }
    ensures no_memory { IsIdle profile command.now → result ≢ Outcome.OutOfMemory }
{
    let max = limits.max_stream;
    let lines = lines_of(options.explain);
    let keep_going = options.keep_going;
    match command {
        Command::File { name } => run_file(
            alloc,
            profile,
            name.as_slice(),
            reader,
            writer,
            max,
            lines,
        ),
        Command::Setting { name } => {
            run_setting(alloc, profile, name.as_slice(), reader, writer, max, lines)
        }
        Command::Kinds => told_kinds(profile, writer),
        Command::Plan => run_stream(
            alloc,
            PlannedReader::new(alloc, profile, limits),
            reader,
            writer,
            lines,
            max,
        ),
        Command::Show => run_show(alloc, profile, reader, writer, limits, keep_going, lines),
        Command::Json => run_json(alloc, profile, reader, writer, limits, keep_going, lines),
        Command::Check => run_checked(alloc, profile, reader, writer, limits, keep_going, lines),
    }
}

/// Runs a command without an option.
#[tactic(auto, using(cg_outcome::proofs::Written::wrote_real))]
pub fn run<R: Source, W: Sink>(
    alloc: Global,
    profile: Profile,
    command: &Command,
    reader: &mut R,
    writer: &mut W,
    limits: Limits,
) -> Outcome
    ensures ran { R.has_failed reader.old ≡ false → Ran profile command.now limits
        (R.coming reader.old) (R.coming reader.new) (R.has_failed reader.new)
        (W.taken writer.old) (W.taken writer.new) (W.has_failed writer.new) result }
    ensures real { IsRealFault result (W.has_failed writer.new) }
    ensures asks { R.asks reader.new ≤ R.asks reader.old + limits.max_stream + 2 }
    ensures unasked { IsIdle profile command.now → R.asks reader.new ≡ R.asks reader.old }
    ensures no_memory { IsIdle profile command.now → result ≢ Outcome.OutOfMemory }
{
    run_with(
        alloc,
        profile,
        command,
        reader,
        writer,
        limits,
        Options::NONE,
    )
}
