//! The decoder of a snapshot that leaves out what is at fault, and goes on.
ghost use Rattle.std.specs.Prelude.{◌≡◌, ◌≤◌, ◌++◌, ℕ, List, [], Option, Some, None, Ok, Err, MatchBool, MatchOption, length, take};
ghost use Rattle.cg_text.specs.Token.{saturated};
ghost use Rattle.cg_value.specs.Entry.{EntryData};
ghost use Rattle.cg_value.specs.declared.profile.Profile.{Profile};
ghost use Rattle.cg_snap.specs.Begun.{IsRecordEnd};
ghost use Rattle.cg_snap.specs.GoingOn.{IsPassed, IsWanted, stream_limits};
ghost use Rattle.cg_snap.specs.GoingOnDecoder.{GoingFinishIs, IsHeldOn, StandsOn, going_form_of, going_held_by, going_limits_of, going_stop_of};
ghost use Rattle.cg_snap.specs.GoingOnEntry.{BlockDid, EntryDid, IsGivenBy, IsOfBlock};
ghost use Rattle.cg_snap.specs.RecordPlace.{IsRecordPlace};
ghost use Rattle.cg_snap.specs.declared.going_on.Found.{Found};
ghost use Rattle.cg_snap.specs.declared.stop.Stop.{Stop};

use crate::course::allowed;
use crate::decoder::Decoder;
use crate::event::{Event, Progress};
use crate::going_on_records::GoingOnRecords;
use crate::limits::Limits;
use crate::record_place::RecordPlace;
use crate::stop::Stop;
use cg_text::ByteSet;
use cg_value::{Entry, Profile};
use std::alloc::Global;

/// A decoder of a snapshot that goes on past what is at fault. A block, which is the lines of one path that come one
/// after another, or a line that has no path, is left out where `SnapshotDecoder` would stop in it; of every other it
/// gives the entry. Only the limit of the whole stream stops it, and its end within a line.
pub type GoingOnDecoder = Decoder<GoingOnRecords>;

impl Decoder<GoingOnRecords> {
    /// A decoder that consumed nothing. It takes no memory.
    pub fn new(alloc: Global, profile: Profile, limits: Limits) -> GoingOnDecoder
        ensures stands { StandsOn result [] [] }
        ensures form { going_form_of result ≡ (profile, limits) }
        ensures limits { going_limits_of result ≡ stream_limits limits }
        ensures stop { going_stop_of result ≡ None }
    {
        Decoder::begin(
            GoingOnRecords::new(alloc, profile, limits),
            limits.of_stream(),
        )
    }

    /// Consumes bytes of the block that is read until they close its entry, and gives this alone, more quickly than
    /// `next`. Where it gives none it may not have consumed the whole piece, and what it answers is said of the block
    /// alone: `next` tells what comes of the rest. It consumes nothing where lines are passed over or may be, and after
    /// a stop.
    pub fn next_entry(&mut self, piece: &[u8]) -> Progress<Entry>
        ensures pulled { (p : List ℕ) (found : List Found) → self.old.stop ≡ None → StandsOn self.old p found →
            EntryDid (going_form_of self.new) self.new.records self.new.meter p found piece.now
            result.used result.what }
        ensures block { (profile : Profile) (block : List ℕ) → self.old.stop ≡ None →
            IsOfBlock profile self.old.records block →
            BlockDid profile self.new.records (block ++ take result.used piece.now) result.what }
        ensures used { result.used ≤ length piece.now }
        ensures some { IsGivenBy result.used result.what }
        ensures stuck { (s : Stop) → self.old.stop ≡ Some s → (result.used ≡ 0) × (self.new ≡ self.old) }
        ensures stop { self.new.stop ≡ self.old.stop }
        ensures form { going_form_of self.new ≡ going_form_of self.old }
        ensures limits { going_limits_of self.new ≡ going_limits_of self.old }
    {
        if self.stop.is_some() {
            return Progress {
                used: 0,
                what: Event::NeedMore,
            };
        }
        self.records.pull_entry(&mut self.meter, piece)
    }

    /// The sum of the lengths of its vectors, or `u64::MAX` where that is more. It takes no memory.
    pub fn held(&self) -> u64
        ensures exact { result ≡ saturated (going_held_by self.now) }
        ensures held { (p : List ℕ) (found : List Found) → StandsOn self.now p found →
            IsHeldOn (going_form_of self.now).0 (going_form_of self.now).1 p (going_held_by self.now) }
    {
        let block = self.records.block.held();
        match &self.records.left_out {
            None => block,
            Some(path) => block.saturating_add(path.as_slice().len() as u64),
        }
    }

    /// The path of the record that comes, and whether its NUL came; none in the rest of a line that is passed over and
    /// has no path, of which nothing is held. It takes no memory.
    pub fn record_place(&self) -> Option<RecordPlace<'_>>
        ensures { (p : List ℕ) (found : List Found) → StandsOn self.now p found → MatchOption result
            (IsPassed (going_form_of self.now).0 (going_form_of self.now).1 p None)
            (λ place. IsRecordPlace p place.path.now place.in_line) }
    {
        if !self.records.is_passing {
            return Some(self.records.block.record_place());
        }
        match &self.records.left_out {
            Some(path) => Some(RecordPlace {
                path: path.as_slice(),
                in_line: true,
            }),
            None => None,
        }
    }

    /// The bytes with which nothing is at fault in the block that comes: any in the rest of a line that is passed over.
    /// It takes no memory.
    pub fn wanted(&self) -> ByteSet
        ensures { (p : List ℕ) (found : List Found) → StandsOn self.now p found →
            IsWanted (going_form_of self.now).0 (going_form_of self.now).1 p result }
    {
        if self.records.is_passing {
            return allowed(&self.records);
        }
        allowed(&self.records.block)
    }

    /// Whether the bytes that were consumed are whole lines, so that the stream may end. It takes no memory.
    pub fn can_finish(&self) -> bool
        ensures { (p : List ℕ) (found : List Found) → StandsOn self.now p found → MatchBool result
            ((last : Option EntryData) ×
            GoingFinishIs (going_form_of self.now).0 (going_form_of self.now).1 p found (Ok last))
            (IsRecordEnd p → ⊥) }
    {
        if self.records.is_passing {
            return false;
        }
        self.records.block.can_finish()
    }

    /// The entry that the end of the stream closes, if it closes one; or where a line is begun, `Cut` with the stream's
    /// length; or the stop that came. It takes no memory.
    pub fn finish(self) -> Result<Option<Entry>, Stop>
        ensures finished { (p : List ℕ) (found : List Found) → going_stop_of self ≡ None → StandsOn self p found →
            GoingFinishIs (going_form_of self).0 (going_form_of self).1 p found result }
        ensures stuck { (s : Stop) → going_stop_of self ≡ Some s → result ≡ Err s }
    {
        let Decoder {
            records,
            meter,
            stop,
        } = self;
        match stop {
            Some(stop) => Err(stop),
            None => records.finish(meter.offset),
        }
    }
}
