//! The records of a plan.
ghost use Rattle.std.specs.Prelude.{◌≡◌, []};
ghost use Rattle.cg_snap.specs.PathBytes.{ArePathBytes, path_bytes_prop};

use crate::event::Progress;
use crate::plan::{CurrentItem, line_refusal, path_refusal, take_head, take_line};
use crate::records::Records;
use crate::stop::Why;
use cg_text::ByteSet;
use cg_value::{PlanItem, Profile};
use std::alloc::Global;

/// The records of a plan, as far as they came: what is begun of a path, and the item whose line comes.
pub struct PlanRecords {
    pub(crate) alloc: Global,
    pub(crate) profile: Profile,
    pub(crate) begun: Vec<u8>,
    pub(crate) present: Option<CurrentItem>,
    ghost path: { ArePathBytes begun.items } by { path_bytes_prop begun.items },
}

/// Drops the path and the item. By hand, as a derived `drop` is proved anew in each crate above.
impl Drop for PlanRecords {
    fn drop(self) {
        let PlanRecords {
            alloc: _alloc,
            profile: _profile,
            begun: _begun,
            present: _present,
        } = self;
    }
}

impl PlanRecords {
    ghost use Rattle.cg_snap.specs.PlanState.{HasTakenItems};

    /// No record came.
    pub(crate) fn new(alloc: Global, profile: Profile) -> PlanRecords
        ensures taken { HasTakenItems result profile [] [] }
        ensures profile { result.profile ≡ profile }
    {
        PlanRecords {
            alloc,
            profile,
            begun: Vec::new(alloc),
            present: None,
        }
    }
}

impl Records for PlanRecords {
    type Part = PlanItem;

    type Setup = Profile;

    ghost use Rattle.cg_snap.specs.PlanState.{items_closed, items_go_on};
    ghost use Rattle.cg_snap.specs.Streams.{plan_stream};

    ghost form_of = { λ s. s.profile };

    ghost stream = { plan_stream };

    ghost closed = { items_closed };

    ghost goes_on = { items_go_on };

    fn refusal(&self, byte: u8) -> Option<Why> {
        match &self.present {
            Some(writing) => line_refusal(&self.begun, writing, byte),
            None => path_refusal(self.profile, &self.begun, byte),
        }
    }

    fn line_allowed(&self) -> Option<ByteSet> {
        match &self.present {
            Some(writing) => Some(writing.reader.allowed()),
            None => None,
        }
    }

    fn is_full(&self, _max_lines: u64, _byte: u8) -> bool {
        false
    }

    fn take(&mut self, bytes: &[u8], at: u64, _max_lines: u64) -> Progress<PlanItem> {
        let (alloc, profile) = (self.alloc, self.profile);
        let begun = &mut self.begun;
        // Asked first, since it costs to move what isn't there.
        if self.present.is_none() {
            return take_head(alloc, profile, begun, &mut self.present, bytes, at);
        }
        match self.present.take() {
            Some(writing) => take_line(profile, begun, &mut self.present, writing, bytes, at),
            None => take_head(alloc, profile, begun, &mut self.present, bytes, at),
        }
    }
}
