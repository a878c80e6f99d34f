//! The entries of a snapshot, each shown once its bytes are closed.
ghost use Rattle.std.specs.Prelude.{◌≡◌, ◌≤◌, ℕ, List, [], length};
ghost use Rattle.cg_value.specs.Entry.{EntryData};
ghost use Rattle.cg_snap.specs.Decode.{HasTaken};
ghost use Rattle.cg_run.specs.Decoded.{DecodedIs};
ghost use Rattle.cg_run.specs.Stood.{HasSnapStood};
ghost use Rattle.cg_run.specs.Streaming.{IsFoundBy, StandsBehind};

use crate::shown_text::{append_closed, append_shown, append_text};
use crate::stream_reader::{LastPart, Standing, StreamReader};
use cg_snap::{Event, Limits, Progress, SnapshotDecoder, StreamFault};
use cg_value::Profile;
use std::alloc::Global;

/// A reader of a snapshot, of which each entry is shown. The lines of a snapshot are canonical, so an entry's text is
/// made of its bytes, and not of its value.
#[derive(Drop)]
pub(crate) struct ShownReader {
    decoder: SnapshotDecoder,
    /// What came behind the entries that are closed, as it is shown.
    present: Vec<u8>,
}

/// How far a decoder came in a piece.
#[derive(Drop)]
pub(crate) struct Decoded {
    /// How many bytes it consumed.
    pub(crate) used: usize,
    /// How many up to the last that closes an entry, and 0 where none does.
    pub(crate) closed: usize,
    /// What it came to behind the entries.
    pub(crate) what: Event<()>,
}

/// Decodes a piece as far as it goes, and lets go of the entries.
fn decode(decoder: &mut SnapshotDecoder, piece: &[u8]) -> Decoded
    ensures decoded { (profile : Profile) (limits : Limits) (p : List ℕ) (es : List EntryData) →
        HasTaken decoder.old profile limits p es →
        DecodedIs decoder.new profile limits p es piece.now result.used result.closed result.what }
    ensures stood { (profile : Profile) (limits : Limits) (p : List ℕ) (es : List EntryData) →
        HasTaken decoder.old profile limits p es →
        StandsBehind (HasSnapStood decoder.new profile limits) p piece.now result.used result.what }
    ensures closed { result.closed ≤ result.used }
    ensures used { result.used ≤ length piece.now }
    ensures progress { IsFoundBy (length piece.now) result.used result.what }
{
    let mut used = 0;
    let mut closed = 0;
    'entries: loop {
        let (_, rest) = piece.split_at(used);
        let pulled = decoder.next(rest);
        used += pulled.used;
        let what = match pulled.what {
            Event::Given(_) => {
                closed = used;
                continue 'entries;
            }
            Event::NeedMore => Event::NeedMore,
            Event::Stopped(stop) => Event::Stopped(stop),
            Event::OutOfMemory => Event::OutOfMemory,
        };
        return Decoded { used, closed, what };
    }
}

impl ShownReader {
    ghost use Rattle.cg_run.specs.Shown.{HasShown};

    /// A reader that consumed nothing.
    pub(crate) fn new(alloc: Global, profile: Profile, limits: Limits) -> ShownReader
        ensures { HasShown result (profile, limits) [] [] }
    {
        ShownReader {
            decoder: SnapshotDecoder::new(alloc, profile, limits),
            present: Vec::new(alloc),
        }
    }
}

impl StreamReader for ShownReader {
    type Setup = (Profile, Limits);

    ghost use Rattle.cg_outcome.specs.Explain.{AreNext, ExplainsNext, IsInRecord};
    ghost use Rattle.cg_run.specs.Stood.{HasSnapStood, snap_stood, snap_within};
    ghost use Rattle.cg_run.specs.Shown.{HasShown, shown_closed, shown_counted, shown_offset, shown_passed};
    ghost use Rattle.cg_run.specs.Stream.{DoneOf, PartsOf, shown_part};
    ghost use Rattle.cg_snap.specs.Closed.{Closed};
    ghost use Rattle.cg_snap.specs.Snap.{Snap, SnapText};
    ghost use Rattle.cg_snap.specs.SnapStop.{IsSnapUnstopped, SnapStopOf};

    ghost whole = { λ form. DoneOf shown_part (λ bytes es. SnapText (form.0) es bytes) };

    ghost closes = { λ form. PartsOf shown_part (λ bytes es. Closed (form.0) bytes es) };

    ghost unstopped = { λ form. IsSnapUnstopped (form.0) (form.1) };

    ghost stops = { λ form. SnapStopOf (form.0) (form.1) };

    ghost limit = { λ form. form.1.max_stream };

    ghost wanted = { λ form. AreNext (Snap (form.0)) };

    ghost explained = { λ form. ExplainsNext (Snap (form.0)) IsInRecord };

    ghost explains = { λ form p what text h. h };

    ghost stood = { λ s form. HasSnapStood s.decoder (form.0) (form.1) };

    ghost stands = { λ s form p parts h. snap_stood s.decoder (form.0) (form.1) p h.es h.taken };

    ghost within = { λ s form p h. snap_within s.decoder (form.0) (form.1) p h };

    ghost offset = { shown_offset };

    ghost took = { HasShown };

    ghost closed = { shown_closed };

    ghost passed = { shown_passed };

    ghost counted = { shown_counted };

    fn next(&mut self, piece: &[u8], out: &mut Vec<u8>) -> Progress<()> {
        let decoded = decode(&mut self.decoder, piece);
        let (front, rest) = piece.split_at(decoded.closed);
        match append_closed(out, &mut self.present, front) {
            Ok(()) => {}
            Err(_) => {
                return Progress {
                    used: decoded.closed,
                    what: Event::OutOfMemory,
                };
            }
        }
        match decoded.what {
            Event::NeedMore => match append_shown(&mut self.present, rest) {
                Ok(()) => Progress {
                    used: decoded.used,
                    what: Event::NeedMore,
                },
                // The first byte behind the entries wants the memory.
                Err(_) => Progress {
                    used: decoded.closed,
                    what: Event::OutOfMemory,
                },
            },
            what => Progress {
                used: decoded.used,
                what,
            },
        }
    }

    fn standing(&self) -> Standing<'_> {
        Standing {
            place: Some(self.decoder.record_place()),
            wanted: self.decoder.allowed(),
            is_cut: !self.decoder.can_finish(),
            consumed: self.decoder.offset(),
        }
    }
}

impl LastPart for ShownReader {
    fn finish(self, out: &mut Vec<u8>) -> Result<u64, StreamFault> {
        let mut present = self.present;
        match self.decoder.finish() {
            Ok(None) => Ok(0),
            Ok(Some(_)) => match append_text(out, &mut present) {
                Ok(()) => Ok(0),
                Err(_) => Err(StreamFault::OutOfMemory),
            },
            Err(stop) => Err(StreamFault::Stopped(stop)),
        }
    }
}
