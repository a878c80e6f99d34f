//! The records of one entry.
ghost use Rattle.std.specs.Prelude.{◌≡◌, ◌+◌, ◌≤◌, ◌<◌, ◌↔◌, ◌⊎◌, ◌++◌, ℕ, List, [], Some, true, false, IsTrue, IsFalse, MatchOption, length, take};
ghost use Rattle.cg_value.specs.Entry.{EntryData};
ghost use Rattle.cg_value.specs.Print.{print_lines};
ghost use Rattle.cg_value.specs.declared.kind.ReadForm.{ReadForm};
ghost use Rattle.cg_value.specs.declared.profile.Profile.{Profile};
ghost use Rattle.cg_line.specs.Place.{TakesLine};
ghost use Rattle.cg_line.specs.Reads.{Reads};
ghost use Rattle.cg_snap.specs.Course.{AreFew, AreOfRecord, GoesForward, IsLineEvent, Leaves};
ghost use Rattle.cg_snap.specs.DecoderState.{HasConsumed, HasConsumedInPath};
ghost use Rattle.cg_snap.specs.HeadState.{Repeats};
ghost use Rattle.cg_snap.specs.Snap.{AreEntryLines};
ghost use Rattle.cg_snap.specs.SnapStop.{IsManyRecords};
ghost use Rattle.cg_snap.specs.Streams.{snap_stream};

use crate::event::{Event, Progress};
use crate::path::ends_line;
use crate::present::CurrentEntry;
use crate::stop::{Stop, Why};
use cg_line::{PushFault, ValueReader};
use cg_value::{Entry, Value};

/// Whether the bytes begin with the entry's path and a NUL, and one more record isn't one too many.
fn repeats(present: &CurrentEntry, bytes: &[u8], max_lines: u64) -> bool
    ensures { IsTrue result → Repeats present.now bytes.now max_lines }
{
    let size = present.path.len();
    if size >= bytes.len() || bytes[size] != 0 || present.lines >= max_lines {
        return false;
    }
    let (path, _) = bytes.split_at(size);
    path == present.path.as_slice()
}

/// Whether so many bytes of a line were taken, or, where none were, one may begin.
fn has_line(reader: &ValueReader, used: usize) -> bool
    ensures line { IsTrue result → (0 < used) ⊎ ((used ≡ 0) × ((kind : ReadForm) (taken : List ℕ) →
        Reads reader.now kind taken → TakesLine kind taken)) }
    ensures none { IsFalse result → used ≡ 0 }
{
    used > 0 || reader.takes_line()
}

/// Takes the path of one more record with its NUL, where the bytes begin with them, no path and no line is begun, and
/// one more record may come; and bytes of its line, to the newline at the most. Answers how many bytes it took, 0 where
/// none.
pub(crate) fn take_again(present: &mut CurrentEntry, bytes: &[u8], max_lines: u64) -> usize
    requires { present.old.in_line ≡ false }
    ensures taken { (profile : Profile) (p : List ℕ) (es : List EntryData) →
        HasConsumedInPath profile [] present.old p es →
        HasConsumed profile [] (Some present.new) (p ++ take result bytes.now) es }
    ensures few { (profile : Profile) (p : List ℕ) (es : List EntryData) →
        HasConsumedInPath profile [] present.old p es →
        AreFew (IsManyRecords profile max_lines) p (take result bytes.now) }
    ensures of_record { (profile : Profile) (p : List ℕ) (es : List EntryData) →
        HasConsumedInPath profile [] present.old p es →
        AreOfRecord (take result bytes.now) }
    ensures within { result ≤ length bytes.now }
    ensures between { result ≡ 0 → present.new.in_line ≡ false }
{
    if !repeats(present, bytes, max_lines) {
        return 0;
    }
    let head = present.path.len() + 1;
    let (_, rest) = bytes.split_at(head);
    let run = present.reader.push_run(rest);
    let used = run.used;
    if ends_line(rest, used) {
        present.lines = present.lines.saturating_add(1);
        return head + used;
    }
    if !has_line(&present.reader, used) {
        return 0;
    }
    present.in_line = true;
    head + used
}

/// What bytes of a line come to, by why the reader took no more of them, and the place of the next one in the stream.
pub(crate) fn line_event<Part>(fault: Option<PushFault>, at: u64) -> Event<Part>
    ensures { IsLineEvent fault at result }
{
    match fault {
        None => Event::NeedMore,
        Some(PushFault::Refused) => Event::Stopped(Stop::Refused { at, why: Why::Line }),
        Some(PushFault::OutOfMemory) => Event::OutOfMemory,
    }
}

/// Takes bytes of the line that is begun, to its newline at the most.
pub(crate) fn take_line(
    begun: &Vec<u8>,
    present: &mut CurrentEntry,
    bytes: &[u8],
    at: u64,
) -> Progress<Entry>
    requires place { at + length bytes.now ≤ 18446744073709551615 }
    ensures left { (profile : Profile) (p : List ℕ) (es : List EntryData) →
        HasConsumed profile begun.now.items (Some present.old) p es → present.old.in_line ≡ true → at ≡ length p →
        (max : ℕ) →
        Leaves (snap_stream profile) (HasConsumed profile begun.now.items (Some present.new)) max p es
        bytes.now result.used
        result.what }
    ensures few { (profile : Profile) (p : List ℕ) (es : List EntryData) →
        HasConsumed profile begun.now.items (Some present.old) p es → present.old.in_line ≡ true → (max : ℕ) →
        AreFew (IsManyRecords profile max) p (take result.used bytes.now) }
    ensures of_record { (profile : Profile) (p : List ℕ) (es : List EntryData) →
        HasConsumed profile begun.now.items (Some present.old) p es → present.old.in_line ≡ true →
        AreOfRecord (take result.used bytes.now) }
    ensures within { result.used ≤ length bytes.now }
    ensures forward { GoesForward (length bytes.now) result.used result.what }
{
    let run = present.reader.push_run(bytes);
    let used = run.used;
    if ends_line(bytes, used) {
        present.in_line = false;
        present.lines = present.lines.saturating_add(1);
    }
    Progress {
        used,
        what: line_event(run.fault, at + used as u64),
    }
}

/// Whether the value has no line. It doesn't go over the bytes of raw lines.
fn is_lineless(value: &Value) -> bool
    ensures { IsTrue result ↔ length (print_lines value.now) ≡ 0 }
{
    match value {
        Value::Raw(lines) => lines.text().is_empty(),
        _ => value.line_count() == 0,
    }
}

/// The entry of the whole records. There always is one.
#[inline(always)]
pub(crate) fn ended(present: CurrentEntry) -> Option<Entry>
    ensures { (profile : Profile) (begun p : List ℕ) (es : List EntryData)
        (h : HasConsumedInPath profile begun present p es) →
        MatchOption result ⊥ (λ e. (e.path ≡ present.path.items) × AreEntryLines profile e h.lines) }
{
    let CurrentEntry {
        path,
        reader,
        lines: _,
        in_line: _,
    } = present;
    match reader.into_value() {
        Some(value) => {
            if is_lineless(&value) {
                None
            } else {
                Some(Entry::known(path, value))
            }
        }
        None => None,
    }
}
