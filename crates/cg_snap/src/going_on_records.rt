//! The records of a snapshot of which what is at fault is left out.
ghost use Rattle.std.specs.Prelude.{◌≡◌, ◌≢◌, ◌+◌, ◌≤◌, ◌<◌, ◌⊎◌, ◌++◌, ◌∷◌, ℕ, List, [], Some, None, true, false, MatchBool, MatchOption, MatchResult, OnErr, length, take};
ghost use Rattle.cg_value.specs.declared.profile.Profile.{Profile};
ghost use Rattle.cg_snap.specs.Course.{AreOfRecord, GoesForward, HasProgressed};
ghost use Rattle.cg_snap.specs.GoingOn.{IsCause, Told, block_limits};
ghost use Rattle.cg_snap.specs.GoingOnDecoder.{GoingFinishIs};
ghost use Rattle.cg_snap.specs.GoingOnEntry.{BlockDid, EntryDid, IsGivenBy, IsOfBlock};
ghost use Rattle.cg_snap.specs.GoingOnState.{FaultLeaves, HasFound, HasTold, IsAgain, IsEnded, IsLeft, IsOfEntry, IsPathAt, IsReading, IsUnsettled, IsWholeStop, form_of, going_stream};
ghost use Rattle.cg_snap.specs.Streams.{snap_stream};
ghost use Rattle.cg_snap.specs.SnapStop.{SnapStopOf};
ghost use Rattle.cg_snap.specs.declared.event.Event.TheVariants as events;
ghost use Rattle.cg_snap.specs.declared.going_on.Found.{Found};
ghost use Rattle.cg_snap.specs.declared.limits.Limits.{Limits};
ghost use Rattle.cg_snap.specs.declared.stop.Stop.{Stop};

use crate::class::is_nameless;
use crate::course::{advance, pull};
use crate::entry::ended;
use crate::event::{Event, Progress};
use crate::fault::Fault;
use crate::going_on::{Cause, Found, LeftOut};
use crate::limits::Limits;
use crate::meter::Meter;
use crate::path::line_length;
use crate::records::Records;
use crate::snapshot_records::SnapshotRecords;
use crate::stop::{Stop, Why};
use cg_text::{ByteSet, Items, OutOfMemory};
use cg_value::{Entry, Profile};
use std::alloc::Global;
use std::mem;

/// The records of a snapshot, as far as they came, of which what is at fault is left out.
pub struct GoingOnRecords {
    pub(crate) limits: Limits,
    /// What reads the present block, as though no other came.
    pub(crate) block: SnapshotRecords,
    /// Counts the bytes of the present block.
    pub(crate) meter: Meter,
    /// The path of the block that was left out last, if it has one and may still go on.
    pub(crate) left_out: Option<Items<u8>>,
    /// Whether the rest of a line of it is passed over.
    pub(crate) is_passing: bool,
}

/// Drops the block and the path. By hand, as a derived `drop` is proved anew in each crate above.
impl Drop for GoingOnRecords {
    fn drop(self) {
        let GoingOnRecords {
            limits: _limits,
            block: _block,
            meter: _meter,
            left_out: _left_out,
            is_passing: _is_passing,
        } = self;
    }
}

/// What is wrong with a block, none where nothing is wrong with it alone.
fn cause_of(stop: Stop) -> Option<Cause>
    ensures { MatchOption result (IsWholeStop stop) (λ cause. IsCause cause stop) }
{
    match stop {
        Stop::Refused { at: _, why } => Some(Cause::Refused(why)),
        Stop::TooLong { at: _ } => Some(Cause::TooLong),
        Stop::TooMany { at: _ } => Some(Cause::TooMany),
        Stop::TooMuch { at: _ } => None,
        Stop::Cut { at: _ } => None,
    }
}

/// Whether the byte is of the present entry: it is in a line of it, or begins one more.
fn is_of_entry(block: &SnapshotRecords, byte: u8) -> bool
    ensures { MatchBool result (IsOfEntry block.now byte) (IsOfEntry block.now byte → ⊥) }
{
    match &block.present {
        None => false,
        Some(x) if x.in_line => true,
        Some(x) => byte == 0 && x.path.as_slice() == block.begun.as_slice(),
    }
}

/// Whether the present path is that of the block that was left out; none where either isn't there.
fn is_again(left_out: &Option<Items<u8>>, block: &SnapshotRecords) -> Option<bool>
    ensures { IsAgain left_out.now block.now.present result }
{
    match (left_out, &block.present) {
        (Some(path), Some(x)) => Some(path.as_slice() == x.path.as_slice()),
        _ => None,
    }
}

/// Whether a line goes on behind the byte.
fn is_within_line(byte: u8) -> bool
    ensures { MatchBool result (byte ≢ 10) (byte ≡ 10) }
{
    byte != b'\n'
}

/// A copy of the path.
fn copied(alloc: Global, path: &[u8]) -> Result<Option<Items<u8>>, OutOfMemory>
    ensures { MatchResult result (λ copy. copy ≡ Some path.now) (λ _. Unit {0}) }
{
    Ok(Some(Items::of(Vec::from_slice(alloc, path)?)))
}

/// The path of the line that the byte is of, which is of the present entry or not, if the line has one.
fn path_of(
    block: &SnapshotRecords,
    byte: u8,
    has_room: bool,
    of_entry: bool,
) -> Result<Option<Items<u8>>, OutOfMemory>
    ensures { MatchResult result
        (λ path. IsPathAt block.now.begun.items byte has_room block.now.present of_entry path) (λ _. Unit {0}) }
{
    if of_entry {
        if let Some(x) = &block.present {
            return copied(block.alloc, x.path.as_slice());
        }
    }
    let path = block.begun.as_slice();
    if byte == 0 && has_room && !is_nameless(path) {
        copied(block.alloc, path)
    } else {
        Ok(None)
    }
}

/// Whether both are there, and are the same.
fn are_same(a: &Option<Items<u8>>, b: &Option<Items<u8>>) -> bool
    ensures { MatchBool result ((path : List ℕ) × (a.now ≡ Some path) × (b.now ≡ Some path))
        ((path : List ℕ) → a.now ≡ Some path → b.now ≡ Some path → ⊥) }
{
    match (a, b) {
        (Some(a), Some(b)) => a.as_slice() == b.as_slice(),
        _ => false,
    }
}

/// The entry whose records have come, if there is one.
fn end_entry(block: &mut SnapshotRecords) -> Option<Entry>
    ensures ended { IsEnded block.old.present result }
    ensures none { block.new.present ≡ None }
    ensures begun { block.new.begun.items ≡ block.old.begun.items }
    ensures profile { block.new.profile ≡ block.old.profile }
{
    match block.present.take() {
        Some(x) => ended(x),
        None => None,
    }
}

/// The entry that bytes close, of which so many were taken.
pub(crate) fn given(used: usize, entry: Entry) -> Progress<Found>
    ensures used { result.used ≡ used }
    ensures what { result.what ≡ events.Given (record { entry = Some entry; left_out = None; fault = None }) }
{
    Progress {
        used,
        what: Event::Given(Found {
            entry: Some(entry),
            left_out: None,
            fault: None,
        }),
    }
}

impl GoingOnRecords {
    /// No record came.
    pub(crate) fn new(alloc: Global, profile: Profile, limits: Limits) -> GoingOnRecords
        ensures { HasTold result profile limits [] [] }
    {
        GoingOnRecords {
            limits,
            block: SnapshotRecords::new(alloc, profile),
            meter: Meter::new(limits.of_block()),
            left_out: None,
            is_passing: false,
        }
    }

    /// Begins a block, of which nothing came. The rest of a line is passed over before, or none is.
    fn begin_block(&mut self, is_passing: bool)
        ensures fresh { (profile : Profile) → self.old.block.profile ≡ profile →
            HasProgressed (snap_stream profile) self.new.block self.new.meter [] [] }
        ensures profile { self.new.block.profile ≡ self.old.block.profile }
        ensures limits { self.new.limits ≡ self.old.limits }
        ensures meter { self.new.meter.limits ≡ block_limits self.old.limits }
        ensures left_out { self.new.left_out ≡ self.old.left_out }
        ensures passing { self.new.is_passing ≡ is_passing }
    {
        self.block.clear();
        self.meter = Meter::new(self.limits.of_block());
        self.is_passing = is_passing;
    }

    /// Passes over what is left of a line, to its newline at the most.
    fn pass(&mut self, bytes: &[u8]) -> usize
        ensures passed { (profile : Profile) (limits : Limits) (p : List ℕ) (told : List Told) →
            HasTold self.old profile limits p told → self.old.is_passing ≡ true →
            HasTold self.new profile limits (p ++ take result bytes.now) told }
        ensures of_record { AreOfRecord (take result bytes.now) }
        ensures within { result ≤ length bytes.now }
        ensures some { 0 < length bytes.now → 0 < result }
        ensures profile { self.new.block.profile ≡ self.old.block.profile }
        ensures limits { self.new.limits ≡ self.old.limits }
    {
        let used = line_length(bytes);
        if used == bytes.len() {
            return used;
        }
        self.is_passing = false;
        used + 1
    }

    /// Passes over the line whose NUL came, where its path is that of the block that was left out; where it's another,
    /// no further line of that block may come.
    fn settle(&mut self)
        ensures settled { (profile : Profile) (limits : Limits) (p : List ℕ) (told : List Told) →
            self.old.block.profile ≡ profile → self.old.meter.limits ≡ block_limits limits → self.old.limits ≡ limits →
            self.old.is_passing ≡ false → IsUnsettled self.old profile limits p told →
            HasTold self.new profile limits p told }
        ensures other { self.old.left_out ≡ None → self.new ≡ self.old }
        ensures profile { self.new.block.profile ≡ self.old.block.profile }
        ensures limits { self.new.limits ≡ self.old.limits }
    {
        match is_again(&self.left_out, &self.block) {
            None => {}
            Some(true) => self.begin_block(true),
            Some(false) => self.left_out = None,
        }
    }

    /// Takes the byte at fault, and answers what is left out by it and which entry it closes, if it closes one; or
    /// nothing, where the block was left out before.
    fn leave_out(&mut self, byte: u8, at: u64, cause: Cause) -> Result<Option<Found>, OutOfMemory>
        ensures left { (profile : Profile) (limits : Limits) (p : List ℕ) (told : List Told) →
            self.old.block.profile ≡ profile → self.old.meter.limits ≡ block_limits limits → self.old.limits ≡ limits →
            (h : IsReading self.old profile limits p told) (stop : Stop) →
            SnapStopOf profile (block_limits limits) (h.block ++ byte ∷ []) stop → IsCause cause stop → at ≡ length p →
            MatchResult result (λ found. IsLeft self.new profile limits (p ++ byte ∷ []) told found) (λ _. Unit {0}) }
        ensures kept { OnErr result (self.new ≡ self.old) }
        ensures profile { self.new.block.profile ≡ self.old.block.profile }
        ensures limits { self.new.limits ≡ self.old.limits }
    {
        let alloc = self.block.alloc;
        let of_entry = is_of_entry(&self.block, byte);
        let path = path_of(&self.block, byte, self.meter.has_room(), of_entry)?;
        let is_in_line = is_within_line(byte);
        if are_same(&self.left_out, &path) {
            self.begin_block(is_in_line);
            return Ok(None);
        }
        let kept = match &path {
            None => None,
            Some(path) => copied(alloc, path.as_slice())?,
        };
        let entry = if of_entry {
            None
        } else {
            end_entry(&mut self.block)
        };
        let profile = self.block.profile;
        let records = mem::replace(&mut self.block, SnapshotRecords::new(alloc, profile));
        self.left_out = kept;
        self.begin_block(is_in_line);
        Ok(Some(Found {
            entry,
            left_out: Some(LeftOut { at, path, cause }),
            fault: Some(Fault { records }),
        }))
    }

    /// Takes the byte at fault, where something is at fault with it in its block alone.
    fn take_fault(&mut self, byte: u8, at: u64, stop: Stop) -> Progress<Found>
        ensures left { (profile : Profile) (limits : Limits) (p : List ℕ) (told : List Told) →
            self.old.block.profile ≡ profile → self.old.meter.limits ≡ block_limits limits → self.old.limits ≡ limits →
            (h : IsReading self.old profile limits p told) →
            SnapStopOf profile (block_limits limits) (h.block ++ byte ∷ []) stop → at ≡ length p →
            FaultLeaves self.old self.new profile limits (p ++ byte ∷ []) told stop result.used result.what }
        ensures within { result.used ≤ 1 }
        ensures forward { GoesForward 1 result.used result.what }
        ensures profile { self.new.block.profile ≡ self.old.block.profile }
        ensures limits { self.new.limits ≡ self.old.limits }
    {
        let cause = match cause_of(stop) {
            Some(cause) => cause,
            None => {
                return Progress {
                    used: 0,
                    what: Event::Stopped(stop),
                };
            }
        };
        match self.leave_out(byte, at, cause) {
            Ok(Some(found)) => Progress {
                used: 1,
                what: Event::Given(found),
            },
            Ok(None) => Progress {
                used: 1,
                what: Event::NeedMore,
            },
            Err(_) => Progress {
                used: 0,
                what: Event::OutOfMemory,
            },
        }
    }

    /// How many of so many bytes are handed on at once: of a path behind a block that is left out one after another,
    /// since a line of that block may have begun with its NUL.
    fn stride(&self, bytes: usize) -> usize
        ensures within { result ≤ bytes }
        ensures some { 0 < bytes → 0 < result }
        ensures one { self.now.left_out ≡ None ⊎ (result ≤ 1) }
    {
        match self.left_out {
            Some(_) => bytes.min(1),
            None => bytes,
        }
    }

    /// Takes bytes of the block, to the NUL that closes its entry, where nothing was left out that may go on. Counts
    /// them.
    pub(crate) fn pull_entry(&mut self, meter: &mut Meter, piece: &[u8]) -> Progress<Entry>
        ensures pulled { (form : Profile × Limits) (p : List ℕ) (found : List Found) →
            HasProgressed (going_stream form) self.old meter.old p found →
            EntryDid form self.new meter.new p found piece.now result.used result.what }
        ensures block { (profile : Profile) (block : List ℕ) → IsOfBlock profile self.old block →
            BlockDid profile self.new (block ++ take result.used piece.now) result.what }
        ensures used { result.used ≤ length piece.now }
        ensures some { IsGivenBy result.used result.what }
        ensures form { form_of self.new ≡ form_of self.old }
        ensures limits { meter.new.limits ≡ meter.old.limits }
    {
        if self.is_passing || self.left_out.is_some() {
            return Progress {
                used: 0,
                what: Event::NeedMore,
            };
        }
        let (front, _) = piece.split_at(meter.room(piece.len()));
        let progress = pull(&mut self.block, &mut self.meter, front);
        meter.count_to(progress.used, self.meter.record_len);
        if let Event::Given(_) = &progress.what {
            self.meter.begin_at_record();
        }
        progress
    }

    /// What the end of a stream makes of the records.
    pub(crate) fn finish(self, at: u64) -> Result<Option<Entry>, Stop>
        ensures { (p : List ℕ) (found : List Found) → HasFound self (form_of self) p found → at ≡ length p →
            GoingFinishIs (form_of self).0 (form_of self).1 p found result }
    {
        let GoingOnRecords {
            limits: _limits,
            block,
            meter,
            left_out: _left_out,
            is_passing,
        } = self;
        if is_passing {
            return Err(Stop::Cut { at });
        }
        match block.finish(meter.offset) {
            Ok(last) => Ok(last),
            Err(_) => Err(Stop::Cut { at }),
        }
    }
}

impl Records for GoingOnRecords {
    type Part = Found;

    type Setup = (Profile, Limits);

    ghost use Rattle.cg_snap.specs.GoingOnState.{form_of, going_closed, going_goes_on, going_stream};

    ghost form_of = { form_of };

    ghost stream = { going_stream };

    ghost closed = { going_closed };

    ghost goes_on = { going_goes_on };

    fn refusal(&self, _byte: u8) -> Option<Why> {
        None
    }

    fn line_allowed(&self) -> Option<ByteSet> {
        None
    }

    fn is_full(&self, _max_lines: u64, _byte: u8) -> bool {
        false
    }

    fn take(&mut self, bytes: &[u8], at: u64, _max_lines: u64) -> Progress<Found> {
        if bytes.is_empty() {
            return Progress {
                used: 0,
                what: Event::NeedMore,
            };
        }
        if self.is_passing {
            return Progress {
                used: self.pass(bytes),
                what: Event::NeedMore,
            };
        }
        let (front, _) = bytes.split_at(self.stride(bytes.len()));
        let Progress { used, what } = advance(&mut self.block, &mut self.meter, front);
        match what {
            Event::Given(entry) => {
                self.meter.begin_at_record();
                let found = Found {
                    entry: Some(entry),
                    left_out: None,
                    fault: None,
                };
                Progress {
                    used,
                    what: Event::Given(found),
                }
            }
            Event::Stopped(stop) if used == 0 => self.take_fault(bytes[0], at, stop),
            Event::OutOfMemory if used == 0 => Progress {
                used,
                what: Event::OutOfMemory,
            },
            _ => {
                self.settle();
                Progress {
                    used,
                    what: Event::NeedMore,
                }
            }
        }
    }
}
