//! Where the record stands that comes, and whether a stream may end there.
ghost use Rattle.std.specs.Prelude.{◌↔◌, ℕ, List, IsTrue};
ghost use Rattle.cg_value.specs.Entry.{EntryData, ItemData};
ghost use Rattle.cg_snap.specs.Decoder.{Stands, profile_of};
ghost use Rattle.cg_snap.specs.Plan.{Plan};
ghost use Rattle.cg_snap.specs.PlanDecoder.{StandsForPlan, plan_profile_of};
ghost use Rattle.cg_snap.specs.RecordPlace.{IsRecordPlace};
ghost use Rattle.cg_snap.specs.Snap.{Snap};

use crate::decoder::Decoder;
use crate::plan_records::PlanRecords;
use crate::snapshot_records::SnapshotRecords;

/// Where the record stands that comes.
#[derive(Clone, Copy)]
pub struct RecordPlace<'a> {
    /// Its path, as far as it came.
    pub path: &'a [u8],
    /// Whether the NUL behind it came.
    pub in_line: bool,
}

impl Decoder<SnapshotRecords> {
    /// The path of the record that comes, and whether its NUL came. After a stop it's that of the byte at fault. It
    /// takes no memory.
    pub fn record_place(&self) -> RecordPlace<'_>
        ensures { (p : List ℕ) (es : List EntryData) → Stands self.now p es →
            IsRecordPlace p result.path.now result.in_line }
    {
        self.records.record_place()
    }

    /// Whether the bytes that were consumed are a whole snapshot. It takes no memory.
    pub fn can_finish(&self) -> bool
        ensures { (p : List ℕ) (es : List EntryData) → Stands self.now p es →
            (IsTrue result ↔ Snap (profile_of self.now) p) }
    {
        self.records.can_finish()
    }
}

impl Decoder<PlanRecords> {
    /// The path of the record that comes, and whether its NUL came. After a stop it's that of the byte at fault. It
    /// takes no memory.
    pub fn record_place(&self) -> RecordPlace<'_>
        ensures { (p : List ℕ) (items : List ItemData) → StandsForPlan self.now p items →
            IsRecordPlace p result.path.now result.in_line }
    {
        match &self.records.present {
            Some(writing) => RecordPlace {
                path: writing.path.as_slice(),
                in_line: true,
            },
            None => RecordPlace {
                path: self.records.begun.as_slice(),
                in_line: false,
            },
        }
    }

    /// Whether the bytes that were consumed are a whole plan. It takes no memory.
    pub fn can_finish(&self) -> bool
        ensures { (p : List ℕ) (items : List ItemData) → StandsForPlan self.now p items →
            (IsTrue result ↔ Plan (plan_profile_of self.now) p) }
    {
        self.records.present.is_none() && self.records.begun.is_empty()
    }
}
