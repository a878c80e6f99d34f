//! Entries that one profile read, as another reads them.
ghost use Rattle.std.specs.Prelude.{◌≡◌, ◌≢◌, ℕ, List, [], MatchOption};
ghost use Rattle.std.specs.List.{AllByRecursion};
ghost use Rattle.cg_text.specs.Texts.{Lacks};
ghost use Rattle.cg_value.specs.declared.kind.ReadForm.{ReadForm};
ghost use Rattle.cg_value.specs.declared.profile.Profile.TheVariants.{Two};
ghost use Rattle.cg_line.specs.Reads.{Reads};
ghost use Rattle.cg_line.specs.Upgrading.{AreLinesRead, AreLinesTaken, AreToRead, IsLineTaken, IsUpgraded, fault_in};

use crate::push::PushFault;
use crate::reader::ValueReader;
use cg_text::OutOfMemory;
use cg_value::{Entry, Profile, RawLines, ReadForm, ReadKind, Value, read_kind};
use std::alloc::Global;
use thiserror::Error;

/// Why an entry has no form in a profile.
#[derive(Clone, Copy, Debug, PartialEq, Eq, Error)]
pub enum UpgradeFault {
    /// The first raw line, counted from 0, that can't stand there in a file of the profile, and the place in it of the
    /// first byte with which no such file goes on: the line's length where that is its newline.
    #[error("line {line} refused at {at}")]
    Line { line: u64, at: u64 },
    #[error("out of memory")]
    OutOfMemory,
}

/// Raw lines, and the kind by which they are to be read.
#[derive(Clone, Copy)]
struct ToRead<'a> {
    kind: ReadKind,
    lines: &'a RawLines,
}

/// Why the byte at this place of the line was not taken.
fn fault_at(fault: PushFault, line: u64, at: u64) -> UpgradeFault
    ensures { result ≡ fault_in fault line at }
{
    match fault {
        PushFault::Refused => UpgradeFault::Line { line, at },
        PushFault::OutOfMemory => UpgradeFault::OutOfMemory,
    }
}

/// Takes the line of this number, and its newline.
fn take_line(reader: &mut ValueReader, number: u64, line: &[u8]) -> Result<(), UpgradeFault>
    ensures { (kind : ReadForm) (before : List ℕ) → Reads reader.old kind before → Lacks 10 line.now →
        IsLineTaken kind reader.new before number line.now result }
{
    let run = reader.push_run(line);
    if let Some(fault) = run.fault {
        return Err(fault_at(fault, number, run.used as u64));
    }
    match reader.push(b'\n') {
        Ok(()) => Ok(()),
        Err(fault) => Err(fault_at(fault, number, line.len() as u64)),
    }
}

/// Takes the lines, each with its newline.
fn take_lines(reader: &mut ValueReader, lines: &RawLines) -> Result<(), UpgradeFault>
    ensures { (kind : ReadForm) → Reads reader.old kind [] → AllByRecursion (Lacks 10) lines.now →
        AreLinesTaken kind reader.new lines.now result }
{
    let mut number: u64 = 0;
    for line in lines.lines() {
        take_line(reader, number, line)?;
        number += 1;
    }
    Ok(())
}

/// What the lines hold by the kind.
fn read_lines(alloc: Global, kind: ReadKind, lines: &RawLines) -> Result<Value, UpgradeFault>
    requires plain { AllByRecursion (Lacks 10) lines.now }
    requires some { lines.now ≢ [] }
    ensures { AreLinesRead kind lines.now result }
{
    let mut reader = ValueReader::new(alloc, kind);
    take_lines(&mut reader, lines)?;
    match reader.finish() {
        Ok(value) => Ok(value),
        Err(_) => unreachable!(),
    }
}

/// The raw lines of the entry, where a file of its name isn't raw in the profile.
fn raw_lines<'a>(to: Profile, entry: &'a Entry) -> Option<ToRead<'a>>
    ensures { MatchOption result ((kind : ReadForm) (lines : List (List ℕ)) → AreToRead to entry.now kind lines → ⊥)
        (λ r. AreToRead to entry.now r.kind r.lines.now) }
{
    let lines = match entry.value() {
        Value::Raw(lines) => lines,
        _ => return None,
    };
    let kind = match read_kind(to, entry.name()) {
        Ok(kind) => kind,
        Err(_) => return None,
    };
    match kind.form() {
        ReadForm::Raw => None,
        _ => Some(ToRead { kind, lines }),
    }
}

/// The entry of the same path, with what its raw lines hold by the kind.
fn read_again(alloc: Global, to: Profile, entry: &Entry, raw: ToRead) -> Result<Entry, UpgradeFault>
    requires { AreToRead to entry.now raw.kind raw.lines.now }
    ensures { IsUpgraded to entry.now result }
{
    let value = read_lines(alloc, raw.kind, raw.lines)?;
    let path = match Vec::from_slice(alloc, entry.path()) {
        Ok(path) => path,
        Err(_) => return Err(UpgradeFault::OutOfMemory),
    };
    match Entry::new(to, path, value) {
        Ok(entry) => Ok(entry),
        Err(_) => unreachable!(),
    }
}

/// The entry as the profile reads it, where its own is an earlier one: raw lines are read by the kind that a file of
/// its name has there, or the first byte is told with which they can't be; every other entry is copied.
pub fn upgrade_to(alloc: Global, to: Profile, entry: &Entry) -> Result<Entry, UpgradeFault>
    ensures { IsUpgraded to entry.now result }
{
    if let Some(raw) = raw_lines(to, entry) {
        return read_again(alloc, to, entry, raw);
    }
    match entry.copy(alloc) {
        Ok(copy) => Ok(copy),
        Err(OutOfMemory) => Err(UpgradeFault::OutOfMemory),
    }
}

/// The entry as the second profile reads it: raw lines of `memory.numa_stat` are read as nested there, or the first
/// byte is told with which they can't be; every other entry is copied.
pub fn upgrade(alloc: Global, entry: &Entry) -> Result<Entry, UpgradeFault>
    ensures { IsUpgraded Two entry.now result }
{
    upgrade_to(alloc, Profile::Two, entry)
}
