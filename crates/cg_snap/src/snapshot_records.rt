//! The records of a snapshot.
ghost use Rattle.std.specs.Prelude.{◌≡◌, ◌↔◌, ℕ, List, [], length, IsTrue};
ghost use Rattle.cg_text.specs.Token.{saturated};
ghost use Rattle.cg_value.specs.Entry.{EntryData};
ghost use Rattle.cg_value.specs.declared.profile.Profile.{Profile};
ghost use Rattle.cg_snap.specs.Closed.{IsHeldFor};
ghost use Rattle.cg_snap.specs.PathBytes.{ArePathBytes, path_bytes_prop};
ghost use Rattle.cg_snap.specs.RecordPlace.{IsRecordPlace};
ghost use Rattle.cg_snap.specs.Snap.{Snap};

use crate::entry::ended;
use crate::event::Progress;
use crate::present::CurrentEntry;
use crate::record_place::RecordPlace;
use crate::records::Records;
use crate::refusal::refusal;
use crate::snapshot::{is_full, take};
use crate::stop::{Stop, Why};
use cg_text::ByteSet;
use cg_value::{Entry, Profile};
use std::alloc::Global;
use std::mem;

/// The records of a snapshot, as far as they came: what is begun of a path, and the entry whose records come.
pub struct SnapshotRecords {
    pub(crate) alloc: Global,
    pub(crate) profile: Profile,
    pub(crate) begun: Vec<u8>,
    pub(crate) present: Option<CurrentEntry>,
    ghost path: { ArePathBytes begun.items } by { path_bytes_prop begun.items },
}

/// Drops the path and the entry. By hand, as a derived `drop` is proved anew in each crate above, with all that is
/// below it.
impl Drop for SnapshotRecords {
    fn drop(self) {
        let SnapshotRecords {
            alloc: _alloc,
            profile: _profile,
            begun: _begun,
            present: _present,
        } = self;
    }
}

impl SnapshotRecords {
    ghost use Rattle.cg_snap.specs.Decoder.{FinishIs, held_by_records};
    ghost use Rattle.cg_snap.specs.DecoderState.{HasTakenRecords};

    /// No record came.
    pub(crate) fn new(alloc: Global, profile: Profile) -> SnapshotRecords
        ensures taken { HasTakenRecords result profile [] [] }
        ensures profile { result.profile ≡ profile }
    {
        SnapshotRecords {
            alloc,
            profile,
            begun: Vec::new(alloc),
            present: None,
        }
    }

    /// Forgets what came.
    pub(crate) fn clear(&mut self)
        ensures taken { HasTakenRecords self.new self.old.profile [] [] }
        ensures profile { self.new.profile ≡ self.old.profile }
    {
        self.begun.clear();
        mem::drop(self.present.take());
    }

    /// The sum of the lengths of its vectors, or `u64::MAX` where that is more.
    pub(crate) fn held(&self) -> u64
        ensures exact { result ≡ saturated (held_by_records self.now) }
        ensures held { (profile : Profile) (p : List ℕ) (es : List EntryData) →
            HasTakenRecords self.now profile p es → IsHeldFor profile p es (held_by_records self.now) }
    {
        let begun = self.begun.len() as u64;
        match &self.present {
            None => begun,
            Some(x) => begun
                .saturating_add(x.path.len() as u64)
                .saturating_add(x.reader.held()),
        }
    }

    /// The path of the record that comes, and whether its NUL came.
    pub(crate) fn record_place(&self) -> RecordPlace<'_>
        ensures { (profile : Profile) (p : List ℕ) (es : List EntryData) → HasTakenRecords self.now profile p es →
            IsRecordPlace p result.path.now result.in_line }
    {
        match &self.present {
            Some(x) if x.in_line => RecordPlace {
                path: x.path.as_slice(),
                in_line: true,
            },
            _ => RecordPlace {
                path: self.begun.as_slice(),
                in_line: false,
            },
        }
    }

    /// Whether the bytes that came are a whole snapshot.
    pub(crate) fn can_finish(&self) -> bool
        ensures { (profile : Profile) (p : List ℕ) (es : List EntryData) → HasTakenRecords self.now profile p es →
            (IsTrue result ↔ Snap profile p) }
    {
        if !self.begun.is_empty() {
            return false;
        }
        match &self.present {
            Some(x) => !x.in_line,
            None => true,
        }
    }

    /// What the end of a snapshot makes of the records.
    pub(crate) fn finish(self, at: u64) -> Result<Option<Entry>, Stop>
        ensures { (profile : Profile) (p : List ℕ) (es : List EntryData) → HasTakenRecords self profile p es → at ≡
            length p → FinishIs profile p es result }
    {
        let SnapshotRecords {
            alloc: _alloc,
            profile: _profile,
            begun,
            present,
        } = self;
        if !begun.is_empty() {
            return Err(Stop::Cut { at });
        }
        match present {
            None => Ok(None),
            Some(x) => {
                if x.in_line {
                    return Err(Stop::Cut { at });
                }
                match ended(x) {
                    Some(entry) => Ok(Some(entry)),
                    None => Err(Stop::Cut { at }),
                }
            }
        }
    }
}

impl Records for SnapshotRecords {
    type Part = Entry;

    type Setup = Profile;

    ghost use Rattle.cg_snap.specs.DecoderState.{records_closed, records_go_on};
    ghost use Rattle.cg_snap.specs.Streams.{snap_stream};

    ghost form_of = { λ s. s.profile };

    ghost stream = { snap_stream };

    ghost closed = { records_closed };

    ghost goes_on = { records_go_on };

    fn refusal(&self, byte: u8) -> Option<Why> {
        refusal(self.profile, &self.begun, &self.present, byte)
    }

    fn line_allowed(&self) -> Option<ByteSet> {
        if let Some(x) = &self.present {
            if x.in_line {
                return Some(x.reader.allowed());
            }
        }
        None
    }

    fn is_full(&self, max_lines: u64, byte: u8) -> bool {
        byte == 0 && is_full(&self.begun, &self.present, max_lines)
    }

    fn take(&mut self, bytes: &[u8], at: u64, max_lines: u64) -> Progress<Entry> {
        take(
            self.alloc,
            self.profile,
            &mut self.begun,
            &mut self.present,
            bytes,
            at,
            max_lines,
        )
    }
}
