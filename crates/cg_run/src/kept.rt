//! The entries of a snapshot that the rules speak of, which are kept until its end.
ghost use Rattle.std.specs.Prelude.{◌≡◌, ℕ, true, List, [], ◌∷◌, ◌++◌, MatchResult, OnErr, OnOk};
ghost use Rattle.cg_tree.specs.Directory.{name_of};
ghost use Rattle.cg_tree.specs.Ruled.{is_ruled, ruled};

use crate::stream_reader::{KeptEntries, Standing, StreamReader};
use cg_snap::{Event, Limits, Progress, SnapshotDecoder, StreamFault};
use cg_text::OutOfMemory;
use cg_tree::is_ruled;
use cg_value::{Entry, Profile};
use std::alloc::Global;

/// The entries of a snapshot that the rules speak of, and how many blocks were left out of it.
#[derive(Drop)]
pub(crate) struct Kept {
    pub(crate) entries: Vec<Entry>,
    pub(crate) left_out: u64,
}

impl Kept {
    /// Of a whole snapshot nothing is left out.
    fn whole(entries: Vec<Entry>) -> Kept
        ensures entries { result.entries ≡ entries }
        ensures none { result.left_out ≡ 0 }
    {
        Kept {
            entries,
            left_out: 0,
        }
    }
}

/// A reader of a snapshot, of which the entries are kept that the rules speak of.
#[derive(Drop)]
pub(crate) struct KeptReader {
    decoder: SnapshotDecoder,
    entries: Vec<Entry>,
}

impl KeptReader {
    ghost use Rattle.cg_run.specs.Kept.{HasKept};

    /// A reader that consumed nothing.
    pub(crate) fn new(alloc: Global, profile: Profile, limits: Limits) -> KeptReader
        ensures { HasKept result (profile, limits) [] [] }
    {
        KeptReader {
            decoder: SnapshotDecoder::new(alloc, profile, limits),
            entries: Vec::new(alloc),
        }
    }
}

/// Keeps an entry behind the others, if the rules speak of it. Another takes no memory.
pub(crate) fn keep(entries: &mut Vec<Entry>, entry: Entry) -> Result<(), OutOfMemory>
    ensures kept { OnOk result (entries.new.items ≡ entries.old.items ++ ruled (entry ∷ [])) }
    ensures wanted { OnErr result (is_ruled (name_of entry.path) ≡ true) }
{
    if is_ruled(&entry) {
        entries.push(entry)?;
    }
    Ok(())
}

impl StreamReader for KeptReader {
    type Setup = (Profile, Limits);

    ghost use Rattle.cg_outcome.specs.Explain.{AreNext, ExplainsNext, IsInRecord};
    ghost use Rattle.cg_run.specs.Stood.{HasSnapStood, snap_stood, snap_within};
    ghost use Rattle.cg_run.specs.Check.{HasNoParts, finding_lines, found_outcome};
    ghost use Rattle.cg_run.specs.Stream.{WholeOf};
    ghost use Rattle.cg_run.specs.Kept.{HasKept, kept_closed, kept_counted, kept_offset, kept_passed};
    ghost use Rattle.cg_snap.specs.Snap.{Snap, SnapText};
    ghost use Rattle.cg_snap.specs.SnapStop.{IsSnapUnstopped, SnapStopOf};

    ghost whole = { λ form. WholeOf finding_lines found_outcome (λ bytes es. SnapText (form.0) es bytes) };

    ghost closes = { λ form. HasNoParts };

    ghost unstopped = { λ form. IsSnapUnstopped (form.0) (form.1) };

    ghost stops = { λ form. SnapStopOf (form.0) (form.1) };

    ghost limit = { λ form. form.1.max_stream };

    ghost wanted = { λ form. AreNext (Snap (form.0)) };

    ghost explained = { λ form. ExplainsNext (Snap (form.0)) IsInRecord };

    ghost explains = { λ form p what text h. h };

    ghost stood = { λ s form. HasSnapStood s.decoder (form.0) (form.1) };

    ghost stands = { λ s form p parts h. snap_stood s.decoder (form.0) (form.1) p h.given h.taken };

    ghost within = { λ s form p h. snap_within s.decoder (form.0) (form.1) p h };

    ghost offset = { kept_offset };

    ghost took = { HasKept };

    ghost closed = { kept_closed };

    ghost passed = { kept_passed };

    ghost counted = { kept_counted };

    fn next(&mut self, piece: &[u8], _out: &mut Vec<u8>) -> Progress<()> {
        let pulled = self.decoder.next(piece);
        let used = pulled.used;
        match pulled.what {
            Event::NeedMore => Progress {
                used,
                what: Event::NeedMore,
            },
            Event::Given(entry) => match keep(&mut self.entries, entry) {
                Ok(()) => Progress {
                    used,
                    what: Event::NeedMore,
                },
                // The byte that closes the entry wants the memory.
                Err(_) => Progress {
                    used: used - 1,
                    what: Event::OutOfMemory,
                },
            },
            Event::Stopped(stop) => Progress {
                used,
                what: Event::Stopped(stop),
            },
            Event::OutOfMemory => Progress {
                used,
                what: Event::OutOfMemory,
            },
        }
    }

    fn standing(&self) -> Standing<'_> {
        Standing {
            place: Some(self.decoder.record_place()),
            wanted: self.decoder.allowed(),
            is_cut: !self.decoder.can_finish(),
            consumed: self.decoder.offset(),
        }
    }
}

impl KeptEntries for KeptReader {
    fn finish_kept(self) -> Result<Kept, StreamFault> {
        let mut entries = self.entries;
        match self.decoder.finish() {
            Ok(None) => Ok(Kept::whole(entries)),
            Ok(Some(entry)) => match keep(&mut entries, entry) {
                Ok(()) => Ok(Kept::whole(entries)),
                Err(_) => Err(StreamFault::OutOfMemory),
            },
            Err(stop) => Err(StreamFault::Stopped(stop)),
        }
    }
}
