//! What bytes do to the records of a snapshot.
ghost use Rattle.std.specs.Prelude.{◌≡◌, ◌+◌, ◌∷◌, ◌≤◌, ◌<◌, ◌↔◌, ◌++◌, ℕ, List, [], length, take, get_or, IsTrue, true, IfOk, MatchOption, MatchResult};
ghost use Rattle.cg_line.specs.Reads.{Reads};
ghost use Rattle.cg_text.specs.Texts.{Lacks, Next};
ghost use Rattle.cg_value.specs.Entry.{EntryData};
ghost use Rattle.cg_value.specs.declared.profile.Profile.{Profile};
ghost use Rattle.cg_snap.specs.Course.{AreFew, AreOfRecord, FullIs, GoesForward, HoldsBack, Leaves};
ghost use Rattle.cg_snap.specs.DecoderState.{HasConsumed, IsBetween, IsLineCount, IsLineFlag, IsOfKind};
ghost use Rattle.cg_snap.specs.PathBytes.{ArePathBytes, EndsPath};
ghost use Rattle.cg_snap.specs.Snap.{Snap};
ghost use Rattle.cg_snap.specs.SnapStop.{IsManyRecords};
ghost use Rattle.cg_snap.specs.Sound.{IsReadable};
ghost use Rattle.cg_snap.specs.Streams.{snap_stream};

use crate::entry::{ended, take_again, take_line};
use crate::event::{Event, Progress};
use crate::path::take_path;
use crate::present::CurrentEntry;
use crate::refusal::kind_after;
use crate::stop::{Stop, Why};
use cg_line::ValueReader;
use cg_value::{Entry, Profile, ReadKind};
use std::alloc::Global;
use std::mem;

/// Whether the NUL of a record came that hasn't ended.
fn is_in_line(present: &Option<CurrentEntry>) -> bool
    ensures { IsLineFlag present.now result }
{
    match present {
        None => false,
        Some(x) => x.in_line,
    }
}

/// Whether so many records have ended of the entry whose path is begun: none where it's another entry than the present
/// one. The paths are compared only where so many have ended of the present entry.
fn has_lines(begun: &Vec<u8>, present: &Option<CurrentEntry>, count: u64) -> bool
    ensures { (n : ℕ) → IsLineCount begun.now.items present.now n → IsTrue result ↔ count ≤ n }
{
    if count == 0 {
        return true;
    }
    match present {
        None => false,
        Some(x) if x.lines < count => false,
        Some(x) => x.path.as_slice() == begun.as_slice(),
    }
}

/// Whether a NUL would begin a record too many of its entry.
pub(crate) fn is_full(begun: &Vec<u8>, present: &Option<CurrentEntry>, max_lines: u64) -> bool
    ensures { (profile : Profile) (p : List ℕ) (es : List EntryData) →
        HasConsumed profile begun.now.items present.now p es →
        FullIs (Snap profile) (IsManyRecords profile) max_lines p 0 result }
{
    !is_in_line(present) && has_lines(begun, present, max_lines)
}

/// The entry whose path ended, of a file of this kind: its first line is begun, and no path any more.
fn begin(alloc: Global, begun: &mut Vec<u8>, kind: ReadKind) -> CurrentEntry
    requires { IsReadable begun.old.items kind }
    ensures path { result.path.items ≡ begun.old.items }
    ensures begun { begun.new.items ≡ [] }
    ensures reads { Reads result.reader kind [] }
    ensures lines { result.lines ≡ 0 }
    ensures in_line { result.in_line ≡ true }
{
    CurrentEntry {
        path: mem::replace(begun, Vec::new(alloc)),
        reader: ValueReader::new(alloc, kind),
        lines: 0,
        in_line: true,
    }
}

/// Begins a line at the path that is begun, of a file of this kind, after its NUL. Answers the entry before, if its
/// path is another.
fn begin_line(
    alloc: Global,
    begun: &mut Vec<u8>,
    present: &mut Option<CurrentEntry>,
    kind: ReadKind,
) -> Option<Entry>
    requires path { ArePathBytes begun.old.items }
    requires readable { IsReadable begun.old.items kind }
    ensures path { ArePathBytes begun.new.items }
    ensures begun { (profile : Profile) (p : List ℕ) (es : List EntryData) →
        HasConsumed profile begun.old.items present.old p es → IsBetween present.old →
        IsOfKind profile begun.old.items kind → Next (Snap profile) p 0 →
        MatchOption result (HasConsumed profile begun.new.items present.new (p ++ 0 ∷ []) es)
        (λ e. HasConsumed profile begun.new.items present.new (p ++ 0 ∷ []) (es ++ e ∷ [])) }
{
    match present {
        None => {
            *present = Some(begin(alloc, begun, kind));
            None
        }
        Some(x) => {
            if x.path.as_slice() == begun.as_slice() {
                begun.clear();
                x.in_line = true;
                return None;
            }
            let before = mem::replace(x, begin(alloc, begun, kind));
            ended(before)
        }
    }
}

/// Takes the byte after a path, which is a NUL or a newline, and answers the entry that it closes, if it closes one; or
/// why it can't come.
fn end_path(
    alloc: Global,
    profile: Profile,
    begun: &mut Vec<u8>,
    present: &mut Option<CurrentEntry>,
    byte: u8,
    at: u64,
    max_lines: u64,
) -> Result<Option<Entry>, Stop>
    requires path { ArePathBytes begun.old.items }
    requires ends { EndsPath byte }
    ensures path { ArePathBytes begun.new.items }
    ensures taken { (p : List ℕ) (es : List EntryData) → HasConsumed profile begun.old.items present.old p es →
        IsBetween present.old → at ≡ length p → MatchResult result (λ given. MatchOption given
        (HasConsumed profile begun.new.items present.new (p ++ byte ∷ []) es)
        (λ e. HasConsumed profile begun.new.items present.new (p ++ byte ∷ []) (es ++ e ∷ [])))
        (λ stop. HasConsumed profile begun.new.items present.new p es ×
        HoldsBack (snap_stream profile) max_lines p byte stop) }
    ensures few { (p : List ℕ) (es : List EntryData) → HasConsumed profile begun.old.items present.old p es →
        IsBetween present.old → IfOk result (λ given. IsManyRecords profile max_lines (p ++ byte ∷ []) (length p) → ⊥) }
    ensures nul { IfOk result (λ given. byte ≡ 0) }
{
    if byte == b'\n' {
        return Err(Stop::Refused {
            at,
            why: Why::PathByte,
        });
    }
    let kind = match kind_after(profile, begun, present) {
        Ok(kind) => kind,
        Err(why) => return Err(Stop::Refused { at, why }),
    };
    if is_full(begun, present, max_lines) {
        return Err(Stop::TooMany { at });
    }
    Ok(begin_line(alloc, begun, present, kind))
}

/// Takes what comes of a path, and the NUL after it.
fn take_head(
    alloc: Global,
    profile: Profile,
    begun: &mut Vec<u8>,
    present: &mut Option<CurrentEntry>,
    bytes: &[u8],
    at: u64,
    max_lines: u64,
) -> Progress<Entry>
    requires path { ArePathBytes begun.old.items }
    requires place { at + length bytes.now ≤ 18446744073709551615 }
    ensures path { ArePathBytes begun.new.items }
    ensures left { (p : List ℕ) (es : List EntryData) → HasConsumed profile begun.old.items present.old p es →
        IsBetween present.old → at ≡ length p →
        Leaves (snap_stream profile) (HasConsumed profile begun.new.items present.new)
        max_lines p es bytes.now result.used result.what }
    ensures few { (p : List ℕ) (es : List EntryData) → HasConsumed profile begun.old.items present.old p es →
        IsBetween present.old → AreFew (IsManyRecords profile max_lines) p (take result.used bytes.now) }
    ensures plain { Lacks 10 (take result.used bytes.now) }
    ensures within { result.used ≤ length bytes.now }
    ensures forward { GoesForward (length bytes.now) result.used result.what }
{
    let used = match take_path(begun, bytes) {
        Ok(used) => used,
        Err(_) => {
            return Progress {
                used: 0,
                what: Event::OutOfMemory,
            };
        }
    };
    if used == bytes.len() {
        return Progress {
            used,
            what: Event::NeedMore,
        };
    }
    let place = at + used as u64;
    match end_path(
        alloc,
        profile,
        begun,
        present,
        bytes[used],
        place,
        max_lines,
    ) {
        Ok(None) => Progress {
            used: used + 1,
            what: Event::NeedMore,
        },
        Ok(Some(entry)) => Progress {
            used: used + 1,
            what: Event::Given(entry),
        },
        Err(stop) => Progress {
            used,
            what: Event::Stopped(stop),
        },
    }
}

/// Takes bytes to the end of the path or of the line that they go on with. Where they begin with the present entry's
/// path and its NUL, and no path is begun, these are taken at once, and so is the line behind them, where it's there.
pub(crate) fn take(
    alloc: Global,
    profile: Profile,
    begun: &mut Vec<u8>,
    present: &mut Option<CurrentEntry>,
    bytes: &[u8],
    at: u64,
    max_lines: u64,
) -> Progress<Entry>
    requires path { ArePathBytes begun.old.items }
    requires place { at + length bytes.now ≤ 18446744073709551615 }
    ensures path { ArePathBytes begun.new.items }
    ensures left { (p : List ℕ) (es : List EntryData) → HasConsumed profile begun.old.items present.old p es →
        at ≡ length p →
        Leaves (snap_stream profile) (HasConsumed profile begun.new.items present.new) max_lines p es
        bytes.now result.used
        result.what }
    ensures few { (p : List ℕ) (es : List EntryData) → HasConsumed profile begun.old.items present.old p es →
        AreFew (IsManyRecords profile max_lines) p (take result.used bytes.now) }
    ensures of_record { (p : List ℕ) (es : List EntryData) → HasConsumed profile begun.old.items present.old p es →
        AreOfRecord (take result.used bytes.now) }
    ensures within { result.used ≤ length bytes.now }
    ensures forward { GoesForward (length bytes.now) result.used result.what }
{
    if let Some(x) = present {
        if x.in_line {
            return take_line(begun, x, bytes, at);
        }
        if begun.is_empty() {
            let used = take_again(x, bytes, max_lines);
            if used > 0 {
                return Progress {
                    used,
                    what: Event::NeedMore,
                };
            }
        }
    }
    take_head(alloc, profile, begun, present, bytes, at, max_lines)
}
