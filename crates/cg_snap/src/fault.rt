//! What a block that is left out was before its byte at fault.
ghost use Rattle.std.specs.Prelude.{◌↔◌, ℕ, List};
ghost use Rattle.cg_text.specs.Bytes.{HasByte};
ghost use Rattle.cg_text.specs.Texts.{Next};
ghost use Rattle.cg_value.specs.declared.profile.Profile.{Profile};
ghost use Rattle.cg_snap.specs.GoingOnState.{IsBefore};
ghost use Rattle.cg_snap.specs.RecordPlace.{IsRecordPlace};
ghost use Rattle.cg_snap.specs.Snap.{Snap};

use crate::course::allowed;
use crate::record_place::RecordPlace;
use crate::snapshot_records::SnapshotRecords;
use cg_text::ByteSet;

/// What came of a block that is left out before its byte at fault. It holds what the decoder held of it.
pub struct Fault {
    pub(crate) records: SnapshotRecords,
}

/// Drops what came of the block. By hand, as a derived `drop` is proved anew in each crate above.
impl Drop for Fault {
    fn drop(self) {
        let Fault { records: _records } = self;
    }
}

impl Fault {
    /// The path of the record at fault, as far as it came, and whether its NUL came. It takes no memory.
    pub fn record_place(&self) -> RecordPlace<'_>
        ensures { (profile : Profile) (block : List ℕ) → IsBefore self.now profile block →
            IsRecordPlace block result.path.now result.in_line }
    {
        self.records.record_place()
    }

    /// The bytes that might have come in place of the byte at fault, so that a snapshot of this block goes on. It takes
    /// no memory.
    pub fn allowed(&self) -> ByteSet
        ensures { (profile : Profile) (block : List ℕ) → IsBefore self.now profile block →
            (byte : ℕ) → HasByte result byte ↔ Next (Snap profile) block byte }
    {
        allowed(&self.records)
    }
}
