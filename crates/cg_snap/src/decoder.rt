//! The decoders of streams: of a snapshot, and of a plan.
ghost use Rattle.std.specs.Prelude.{◌≡◌, ◌↔◌, ◌≤◌, ℕ, List, [], length, Some, None, Err};
ghost use Rattle.cg_text.specs.Bytes.{HasByte};
ghost use Rattle.cg_text.specs.Texts.{Next};
ghost use Rattle.cg_text.specs.Token.{saturated};
ghost use Rattle.cg_value.specs.Entry.{EntryData, ItemData};
ghost use Rattle.cg_value.specs.declared.profile.Profile.{Profile};
ghost use Rattle.cg_snap.specs.Begun.{IsBegun};
ghost use Rattle.cg_snap.specs.Closed.{IsHeldFor};
ghost use Rattle.cg_snap.specs.Course.{IsMovedBy};
ghost use Rattle.cg_snap.specs.Decoder.{FinishIs, Stands, held_by, limits_of, profile_of, stop_of};
ghost use Rattle.cg_snap.specs.PlanDecoder.{PlanFinishIs, StandsForPlan, plan_held_by, plan_limits_of, plan_profile_of, plan_stop_of};
ghost use Rattle.cg_snap.specs.PlanState.{HasTakenItems};
ghost use Rattle.cg_snap.specs.Pulled.{IsStuck, StandsFor, WhatCame};
ghost use Rattle.cg_snap.specs.Streams.{plan_stream, snap_stream};

use crate::course::allowed;
use crate::event::{Event, Progress};
use crate::limits::Limits;
use crate::meter::Meter;
use crate::plan_records::PlanRecords;
use crate::pull::Pull;
use crate::snapshot_records::SnapshotRecords;
use crate::stop::Stop;
use cg_text::ByteSet;
use cg_value::{Entry, PlanItem, Profile};
use std::alloc::Global;

/// A decoder of a stream of records of a path, a NUL, a line and a newline. It takes the stream in pieces, however it's
/// cut.
#[derive(Drop)]
pub struct Decoder<R> {
    pub(crate) records: R,
    pub(crate) meter: Meter,
    pub(crate) stop: Option<Stop>,
}

/// A decoder of a snapshot, whose records become an entry for each path.
pub type SnapshotDecoder = Decoder<SnapshotRecords>;

/// A decoder of a plan, of whose records each is an item. The limit on the records of one path isn't looked at.
pub type PlanDecoder = Decoder<PlanRecords>;

/// What bytes of a snapshot came to.
pub type What = Event<Entry>;

/// What bytes of a plan came to.
pub type PlanWhat = Event<PlanItem>;

/// What `next` of a decoder of a snapshot answers.
pub type Pulled = Progress<Entry>;

/// What `next` of a decoder of a plan answers.
pub type PlanPulled = Progress<PlanItem>;

impl<R: Pull> Decoder<R> {
    /// A decoder that consumed nothing, of these records, of which none came.
    pub(crate) fn begin(records: R, limits: Limits) -> Decoder<R>
        ensures stands { (form : R.Setup) → (R.stream form).at records [] [] → StandsFor (R.stream form) result [] [] }
        ensures records { result.records ≡ records }
        ensures limits { result.meter.limits ≡ limits }
        ensures stop { result.stop ≡ None }
    {
        Decoder {
            records,
            meter: Meter::new(limits),
            stop: None,
        }
    }

    /// Consumes bytes until one event: a part, which is an entry or an item, a stop, or no memory. Where none comes, it
    /// consumes the whole piece. After a stop it consumes nothing and answers the same stop. After `OutOfMemory` the
    /// call may be made again with the rest of the piece.
    pub fn next(&mut self, piece: &[u8]) -> Progress<R::Part>
        ensures pulled { (p : List ℕ) (es : List R.Part) → self.old.stop ≡ None →
            StandsFor (R.stream (R.form_of self.old.records)) self.old p es →
            WhatCame (R.stream (R.form_of self.new.records)) self.new p es piece.now result.used result.what }
        ensures used { result.used ≤ length piece.now }
        ensures progress { IsMovedBy (length piece.now) result.used result.what }
        ensures stuck { (s : Stop) → self.old.stop ≡ Some s → IsStuck self.old self.new result s }
        ensures form { R.form_of self.new.records ≡ R.form_of self.old.records }
        ensures limits { self.new.meter.limits ≡ self.old.meter.limits }
    {
        if let Some(stop) = self.stop {
            return Progress {
                used: 0,
                what: Event::Stopped(stop),
            };
        }
        let progress = self.records.pull(&mut self.meter, piece);
        if let Event::Stopped(stop) = &progress.what {
            self.stop = Some(*stop);
        }
        progress
    }

    /// How many bytes were consumed. It takes no memory.
    pub fn offset(&self) -> u64
        ensures { (p : List ℕ) (es : List R.Part) → StandsFor (R.stream (R.form_of self.now.records)) self.now p es →
            result ≡ length p }
    {
        self.meter.offset
    }

    /// The bytes with which some stream goes on. Limits don't matter, nor a stop that came. It takes no memory.
    pub fn allowed(&self) -> ByteSet
        ensures { (p : List ℕ) (es : List R.Part) → StandsFor (R.stream (R.form_of self.now.records)) self.now p es →
            (byte : ℕ) → HasByte result byte ↔ Next (R.stream (R.form_of self.now.records)).language p byte }
    {
        allowed(&self.records)
    }
}

impl Decoder<SnapshotRecords> {
    /// A decoder that consumed nothing. It takes no memory.
    pub fn new(alloc: Global, profile: Profile, limits: Limits) -> SnapshotDecoder
        ensures stands { StandsFor (snap_stream profile) result [] [] }
        ensures profile { profile_of result ≡ profile }
        ensures limits { limits_of result ≡ limits }
        ensures stop { stop_of result ≡ None }
    {
        Decoder::begin(SnapshotRecords::new(alloc, profile), limits)
    }

    /// The sum of the lengths of its vectors, or `u64::MAX` where that is more. It takes no memory.
    pub fn held(&self) -> u64
        ensures exact { result ≡ saturated (held_by self.now) }
        ensures held { (p : List ℕ) (es : List EntryData) → Stands self.now p es →
            IsHeldFor (profile_of self.now) p es (held_by self.now) }
    {
        self.records.held()
    }

    /// The last entry, none of an empty snapshot; or where a record is begun, `Cut` with the stream's length; or the
    /// stop that came. It takes no memory.
    pub fn finish(self) -> Result<Option<Entry>, Stop>
        ensures finished { (p : List ℕ) (es : List EntryData) → stop_of self ≡ None → Stands self p es →
            FinishIs (profile_of self) p es result }
        ensures stuck { (s : Stop) → stop_of self ≡ Some s → result ≡ Err s }
    {
        let Decoder {
            records,
            meter,
            stop,
        } = self;
        match stop {
            Some(stop) => Err(stop),
            None => records.finish(meter.offset),
        }
    }
}

impl Decoder<PlanRecords> {
    /// A decoder that consumed nothing. It takes no memory.
    pub fn new(alloc: Global, profile: Profile, limits: Limits) -> PlanDecoder
        ensures stands { StandsFor (plan_stream profile) result [] [] }
        ensures profile { plan_profile_of result ≡ profile }
        ensures limits { plan_limits_of result ≡ limits }
        ensures stop { plan_stop_of result ≡ None }
    {
        Decoder::begin(PlanRecords::new(alloc, profile), limits)
    }

    /// The sum of the lengths of its vectors, or `u64::MAX` where that is more: never more than the record that is
    /// begun. It takes no memory.
    pub fn held(&self) -> u64
        ensures exact { result ≡ saturated (plan_held_by self.now) }
        ensures held { (p : List ℕ) (items : List ItemData) → StandsForPlan self.now p items → (begun : List ℕ) ×
            IsBegun p begun × (plan_held_by self.now ≤ length begun) }
    {
        let begun = self.records.begun.len() as u64;
        match &self.records.present {
            None => begun,
            Some(writing) => begun
                .saturating_add(writing.path.len() as u64)
                .saturating_add(writing.reader.held()),
        }
    }

    /// Whether the stream is a whole plan, whose items were all given; or where a record is begun, `Cut` with the
    /// stream's length; or the stop that came. It takes no memory.
    pub fn finish(self) -> Result<(), Stop>
        ensures finished { (p : List ℕ) (items : List ItemData) → plan_stop_of self ≡ None →
            StandsForPlan self p items → PlanFinishIs (plan_profile_of self) p items result }
        ensures stuck { (s : Stop) → plan_stop_of self ≡ Some s → result ≡ Err s }
    {
        match self.stop {
            Some(stop) => Err(stop),
            None => finish_items(&self.records, self.meter.offset),
        }
    }
}

/// What the end of a plan makes of the records.
fn finish_items(records: &PlanRecords, at: u64) -> Result<(), Stop>
    ensures { (profile : Profile) (p : List ℕ) (items : List ItemData) → HasTakenItems records.now profile p items →
        at ≡ length p → PlanFinishIs profile p items result }
{
    if records.present.is_none() && records.begun.is_empty() {
        Ok(())
    } else {
        Err(Stop::Cut { at })
    }
}
