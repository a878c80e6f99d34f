//! How the records of a stream take a piece of it.
ghost use Rattle.std.specs.Prelude.{◌≡◌, ◌≤◌, ℕ, List, length};
ghost use Rattle.cg_snap.specs.Course.{HasProgressed, IsMovedBy, PieceDid};

use crate::course::{pull, pull_rest};
use crate::event::{Event, Progress};
use crate::going_on::Found;
use crate::going_on_records::{GoingOnRecords, given};
use crate::meter::Meter;
use crate::plan_records::PlanRecords;
use crate::records::Records;
use crate::snapshot_records::SnapshotRecords;
use cg_value::{Entry, PlanItem};

/// Records that take a piece of their stream.
pub trait Pull: Records {
    /// Takes bytes until a part is there, a byte stops the stream or no memory is left; where none of these comes, the
    /// whole piece. Counts them.
    fn pull(&mut self, meter: &mut Meter, piece: &[u8]) -> Progress<Self::Part>
        ensures pulled { (form : Self.Setup) (p : List ℕ) (es : List Self.Part) →
            HasProgressed (Self.stream form) self.old meter.old p es →
            PieceDid (Self.stream form) self.new meter.new p es piece.now result.used result.what }
        ensures used { result.used ≤ length piece.now }
        ensures progress { IsMovedBy (length piece.now) result.used result.what }
        ensures form { Self.form_of self.new ≡ Self.form_of self.old }
        ensures limits { meter.new.limits ≡ meter.old.limits };
}

impl Pull for SnapshotRecords {
    fn pull(&mut self, meter: &mut Meter, piece: &[u8]) -> Progress<Entry> {
        pull(self, meter, piece)
    }
}

impl Pull for PlanRecords {
    fn pull(&mut self, meter: &mut Meter, piece: &[u8]) -> Progress<PlanItem> {
        pull(self, meter, piece)
    }
}

impl Pull for GoingOnRecords {
    // Behind what the block didn't take at once the stream is read on record by record.
    fn pull(&mut self, meter: &mut Meter, piece: &[u8]) -> Progress<Found> {
        let Progress { used, what } = self.pull_entry(meter, piece);
        match what {
            Event::Given(entry) => given(used, entry),
            _ => pull_rest(self, meter, piece, used),
        }
    }
}
