//! The entries of a snapshot, each as a line of JSON once its bytes are closed.
ghost use Rattle.std.specs.Prelude.{◌≡◌, ◌++◌, [], OnErr, OnOk};
ghost use Rattle.cg_run.specs.Stream.{json_part};
ghost use Rattle.cg_run.specs.Streaming.{IsAppended};

use crate::stream_reader::{LastPart, Standing, StreamReader};
use cg_snap::{Event, Limits, Progress, SnapshotDecoder, StreamFault, What};
use cg_text::OutOfMemory;
use cg_value::{Entry, Profile};
use std::alloc::Global;

/// A reader of a snapshot, of which each entry is a line of JSON.
#[derive(Drop)]
pub(crate) struct EntryReader {
    decoder: SnapshotDecoder,
    /// Room for a line.
    line: Vec<u8>,
}

impl EntryReader {
    ghost use Rattle.cg_run.specs.Entries.{HasTold};

    /// A reader that consumed nothing.
    pub(crate) fn new(alloc: Global, profile: Profile, limits: Limits) -> EntryReader
        ensures { HasTold result (profile, limits) [] [] }
    {
        EntryReader {
            decoder: SnapshotDecoder::new(alloc, profile, limits),
            line: Vec::new(alloc),
        }
    }
}

/// Appends the line of an entry, which is made in `line`. After `OutOfMemory` `out` is as before.
fn append_json(out: &mut Vec<u8>, line: &mut Vec<u8>, entry: &Entry) -> Result<(), OutOfMemory>
    ensures added { OnOk result (out.new.items ≡ out.old.items ++ json_part entry.now) }
    ensures kept { OnErr result (out.new.items ≡ out.old.items) }
{
    line.clear();
    cg_json::append_line(line, entry)?;
    out.extend_from_slice(line.as_slice())?;
    Ok(())
}

/// Appends the line of an entry, if one was found.
fn append_found(out: &mut Vec<u8>, line: &mut Vec<u8>, what: What) -> Event<()>
    ensures { IsAppended json_part what out.old.items out.new.items result }
{
    match what {
        Event::NeedMore => Event::NeedMore,
        Event::Given(entry) => match append_json(out, line, &entry) {
            Ok(()) => Event::Given(()),
            Err(_) => Event::OutOfMemory,
        },
        Event::Stopped(stop) => Event::Stopped(stop),
        Event::OutOfMemory => Event::OutOfMemory,
    }
}

impl StreamReader for EntryReader {
    type Setup = (Profile, Limits);

    ghost use Rattle.cg_outcome.specs.Explain.{AreNext, ExplainsNext, IsInRecord};
    ghost use Rattle.cg_run.specs.Stood.{HasSnapStood, snap_stood, snap_within};
    ghost use Rattle.cg_run.specs.Entries.{HasTold, told_closed, told_counted, told_offset, told_passed};
    ghost use Rattle.cg_run.specs.Stream.{DoneOf, PartsOf, json_part};
    ghost use Rattle.cg_snap.specs.Closed.{Closed};
    ghost use Rattle.cg_snap.specs.Snap.{Snap, SnapText};
    ghost use Rattle.cg_snap.specs.SnapStop.{IsSnapUnstopped, SnapStopOf};

    ghost whole = { λ form. DoneOf json_part (λ bytes es. SnapText (form.0) es bytes) };

    ghost closes = { λ form. PartsOf json_part (λ bytes es. Closed (form.0) bytes es) };

    ghost unstopped = { λ form. IsSnapUnstopped (form.0) (form.1) };

    ghost stops = { λ form. SnapStopOf (form.0) (form.1) };

    ghost limit = { λ form. form.1.max_stream };

    ghost wanted = { λ form. AreNext (Snap (form.0)) };

    ghost explained = { λ form. ExplainsNext (Snap (form.0)) IsInRecord };

    ghost explains = { λ form p what text h. h };

    ghost stood = { λ s form. HasSnapStood s.decoder (form.0) (form.1) };

    ghost stands = { λ s form p parts h. snap_stood s.decoder (form.0) (form.1) p (h.0) h.1 };

    ghost within = { λ s form p h. snap_within s.decoder (form.0) (form.1) p h };

    ghost offset = { told_offset };

    ghost took = { HasTold };

    ghost closed = { told_closed };

    ghost passed = { told_passed };

    ghost counted = { told_counted };

    fn next(&mut self, piece: &[u8], out: &mut Vec<u8>) -> Progress<()> {
        let pulled = self.decoder.next(piece);
        Progress {
            used: pulled.used,
            what: append_found(out, &mut self.line, pulled.what),
        }
    }

    fn standing(&self) -> Standing<'_> {
        Standing {
            place: Some(self.decoder.record_place()),
            wanted: self.decoder.allowed(),
            is_cut: !self.decoder.can_finish(),
            consumed: self.decoder.offset(),
        }
    }
}

impl LastPart for EntryReader {
    fn finish(self, out: &mut Vec<u8>) -> Result<u64, StreamFault> {
        let mut line = self.line;
        match self.decoder.finish() {
            Ok(None) => Ok(0),
            Ok(Some(entry)) => match append_json(out, &mut line, &entry) {
                Ok(()) => Ok(0),
                Err(_) => Err(StreamFault::OutOfMemory),
            },
            Err(stop) => Err(StreamFault::Stopped(stop)),
        }
    }
}
