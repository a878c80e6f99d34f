//! One snapshot, or one plan, as a whole.
ghost use Rattle.std.specs.Prelude.{◌≡◌, ℕ, List, [], ◌++◌, MatchOption, MatchResult};
ghost use Rattle.cg_value.specs.declared.profile.Profile.{Profile};
ghost use Rattle.cg_snap.specs.Decode.{HasTaken, IsDecoded, IsPlanDecoded, IsPlanFault, IsSnapFault, IsStreamFault};
ghost use Rattle.cg_snap.specs.GoingOn.{stream_limits};
ghost use Rattle.cg_snap.specs.GoingOnDecoder.{IsGoingFault, IsGoneOn};
ghost use Rattle.cg_snap.specs.GoingOnState.{form_of, going_stream};
ghost use Rattle.cg_snap.specs.Pieces.{EndsStream, joined};
ghost use Rattle.cg_snap.specs.Pulled.{HasPulled};

use crate::decoder::{Decoder, PlanDecoder, SnapshotDecoder};
use crate::event::Event;
use crate::going_on::Found;
use crate::going_on_decoder::GoingOnDecoder;
use crate::limits::Limits;
use crate::pull::Pull;
use crate::stop::Stop;
use cg_value::{Entry, PlanItem, Profile};
use std::alloc::Global;
use thiserror::Error;

/// Why bytes give no list of entries, or of items.
#[derive(Clone, Copy, Debug, PartialEq, Eq, Error)]
pub enum StreamFault {
    /// A byte stops the stream, or the bytes end before a snapshot, or a plan, does.
    #[error("{0}")]
    Stopped(Stop),
    #[error("out of memory")]
    OutOfMemory,
}

/// Hands a piece to the decoder until all of it is consumed, and puts the parts that it gives behind the others.
fn take_piece<R: Pull>(
    decoder: &mut Decoder<R>,
    parts: &mut Vec<R::Part>,
    piece: &[u8],
) -> Option<StreamFault>
    ensures { (form : R.Setup) (limits : Limits) (p : List ℕ) →
        HasPulled R.stream R.form_of decoder.old form limits p parts.old.items →
        MatchOption result (HasPulled R.stream R.form_of decoder.new form limits (p ++ piece.now) parts.new.items)
        (λ fault. EndsStream (R.stream form) limits (p ++ piece.now) fault) }
{
    let mut used = 0;
    while used < piece.len() {
        let (_, rest) = piece.split_at(used);
        let pulled = decoder.next(rest);
        used += pulled.used;
        match pulled.what {
            Event::NeedMore => {}
            Event::Given(part) => match parts.push(part) {
                Ok(()) => {}
                Err(_) => return Some(StreamFault::OutOfMemory),
            },
            Event::Stopped(stop) => return Some(StreamFault::Stopped(stop)),
            Event::OutOfMemory => return Some(StreamFault::OutOfMemory),
        }
    }
    None
}

/// Hands all pieces to the decoder, one after another.
fn take_pieces<R: Pull>(
    decoder: &mut Decoder<R>,
    parts: &mut Vec<R::Part>,
    pieces: &[&[u8]],
) -> Option<StreamFault>
    ensures { (form : R.Setup) (limits : Limits) →
        HasPulled R.stream R.form_of decoder.old form limits [] parts.old.items →
        MatchOption result (HasPulled R.stream R.form_of decoder.new form limits (joined pieces.now) parts.new.items)
        (λ fault. IsStreamFault (R.stream form).language (R.stream form).breaks (R.stream form).many limits
        (joined pieces.now) fault) }
{
    for piece in pieces {
        if let Some(fault) = take_piece(decoder, parts, piece) {
            return Some(fault);
        }
    }
    None
}

/// Puts the last entry behind the others.
fn end_entries(decoder: SnapshotDecoder, entries: &mut Vec<Entry>) -> Option<StreamFault>
    ensures { (profile : Profile) (limits : Limits) (bytes : List ℕ) →
        HasTaken decoder profile limits bytes entries.old.items →
        MatchOption result (IsDecoded profile limits bytes entries.new.items)
        (λ fault. IsSnapFault profile limits bytes fault) }
{
    match decoder.finish() {
        Ok(None) => None,
        Ok(Some(entry)) => match entries.push(entry) {
            Ok(()) => None,
            Err(_) => Some(StreamFault::OutOfMemory),
        },
        Err(stop) => Some(StreamFault::Stopped(stop)),
    }
}

/// The entries of the snapshot whose text is these pieces, joined. They are any list of slices: empty ones may be among
/// them, and each may begin anywhere, also within a path or a token. Each is taken by `SnapshotDecoder::next`.
///
/// `Stopped` is the stop of the joined bytes, which is `Cut` with their length where they end before a snapshot does;
/// `OutOfMemory` is a want of memory. Both are as `decode_snapshot` tells them of the joined bytes.
pub fn decode_snapshot_pieces(
    alloc: Global,
    profile: Profile,
    limits: Limits,
    pieces: &[&[u8]],
) -> Result<Vec<Entry>, StreamFault>
    ensures { MatchResult result (λ entries. IsDecoded profile limits (joined pieces.now) entries.items)
        (λ fault. IsSnapFault profile limits (joined pieces.now) fault) }
{
    let mut decoder = SnapshotDecoder::new(alloc, profile, limits);
    let mut entries = Vec::new(alloc);
    if let Some(fault) = take_pieces(&mut decoder, &mut entries, pieces) {
        return Err(fault);
    }
    match end_entries(decoder, &mut entries) {
        Some(fault) => Err(fault),
        None => Ok(entries),
    }
}

/// The entries of the snapshot whose whole text these bytes are.
pub fn decode_snapshot(
    alloc: Global,
    profile: Profile,
    limits: Limits,
    bytes: &[u8],
) -> Result<Vec<Entry>, StreamFault>
    ensures { MatchResult result (λ entries. IsDecoded profile limits bytes.now entries.items)
        (λ fault. IsSnapFault profile limits bytes.now fault) }
{
    decode_snapshot_pieces(alloc, profile, limits, &[bytes])
}

/// Puts the last entry that is found behind the others.
fn end_found(decoder: GoingOnDecoder, found: &mut Vec<Found>) -> Option<StreamFault>
    ensures { (profile : Profile) (limits : Limits) (bytes : List ℕ) →
        HasPulled going_stream form_of decoder (profile, limits) (stream_limits limits) bytes found.old.items →
        MatchOption result (IsGoneOn profile limits bytes found.new.items) (λ fault. IsGoingFault limits bytes fault) }
{
    match decoder.finish() {
        Ok(None) => None,
        Ok(Some(entry)) => {
            let last = Found {
                entry: Some(entry),
                left_out: None,
                fault: None,
            };
            match found.push(last) {
                Ok(()) => None,
                Err(_) => Some(StreamFault::OutOfMemory),
            }
        }
        Err(stop) => Some(StreamFault::Stopped(stop)),
    }
}

/// The entries of the stream whose whole text these bytes are, and what is left out of it, in the order of the bytes
/// that tell it.
///
/// `Stopped` is `TooMuch`, the limit of the whole stream, or `Cut` where the bytes end within a line; `OutOfMemory` is
/// want of memory. What was found before these, `GoingOnDecoder::next` gives.
pub fn decode_snapshot_going_on(
    alloc: Global,
    profile: Profile,
    limits: Limits,
    bytes: &[u8],
) -> Result<Vec<Found>, StreamFault>
    ensures { MatchResult result (λ found. IsGoneOn profile limits bytes.now found.items)
        (λ fault. IsGoingFault limits bytes.now fault) }
{
    let mut decoder = GoingOnDecoder::new(alloc, profile, limits);
    let mut found = Vec::new(alloc);
    if let Some(fault) = take_pieces(&mut decoder, &mut found, &[bytes]) {
        return Err(fault);
    }
    match end_found(decoder, &mut found) {
        Some(fault) => Err(fault),
        None => Ok(found),
    }
}

/// The items of the plan whose text is these pieces, joined. They are any list of slices: empty ones may be among them,
/// and each may begin anywhere, also within a path or a token. Each is taken by `PlanDecoder::next`.
///
/// `Stopped` is the stop of the joined bytes, which is `Cut` with their length where they end before a plan does;
/// `OutOfMemory` is a want of memory. Both are as `decode_plan` tells them of the joined bytes.
pub fn decode_plan_pieces(
    alloc: Global,
    profile: Profile,
    limits: Limits,
    pieces: &[&[u8]],
) -> Result<Vec<PlanItem>, StreamFault>
    ensures { MatchResult result (λ items. IsPlanDecoded profile limits (joined pieces.now) items.items)
        (λ fault. IsPlanFault profile limits (joined pieces.now) fault) }
{
    let mut decoder = PlanDecoder::new(alloc, profile, limits);
    let mut items = Vec::new(alloc);
    if let Some(fault) = take_pieces(&mut decoder, &mut items, pieces) {
        return Err(fault);
    }
    match decoder.finish() {
        Ok(()) => Ok(items),
        Err(stop) => Err(StreamFault::Stopped(stop)),
    }
}

/// The items of the plan whose whole text these bytes are.
pub fn decode_plan(
    alloc: Global,
    profile: Profile,
    limits: Limits,
    bytes: &[u8],
) -> Result<Vec<PlanItem>, StreamFault>
    ensures { MatchResult result (λ items. IsPlanDecoded profile limits bytes.now items.items)
        (λ fault. IsPlanFault profile limits bytes.now fault) }
{
    decode_plan_pieces(alloc, profile, limits, &[bytes])
}
