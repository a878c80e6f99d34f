//! The course of a decoder over its stream: record by record, with the limits.
ghost use Rattle.std.specs.Prelude.{◌≡◌, ◌↔◌, ◌<◌, ◌≤◌, ◌++◌, ℕ, List, length, take};
ghost use Rattle.cg_text.specs.Bytes.{HasByte};
ghost use Rattle.cg_text.specs.Texts.{Next};
ghost use Rattle.cg_snap.specs.Course.{Advances, AreOfRecord, GoesForward, HasProgressed, IsMovedBy, PieceDid};

use crate::event::{Event, Progress};
use crate::meter::Meter;
use crate::records::Records;
use crate::stop::Stop;
use cg_text::ByteSet;

/// Takes bytes of one record, as far as its path goes, or its line, and the limits let it.
pub(crate) fn advance<R: Records>(
    records: &mut R,
    meter: &mut Meter,
    piece: &[u8],
) -> Progress<R::Part>
    requires { 0 < length piece.now }
    ensures advances { (form : R.Setup) (p : List ℕ) (es : List R.Part) →
        HasProgressed (R.stream form) records.old meter.old p es →
        Advances (R.stream form) records.new meter.new p es piece.now result.used result.what }
    ensures of_record { (form : R.Setup) (p : List ℕ) (es : List R.Part) →
        HasProgressed (R.stream form) records.old meter.old p es → AreOfRecord (take result.used piece.now) }
    ensures used { result.used ≤ length piece.now }
    ensures forward { GoesForward (length piece.now) result.used result.what }
    ensures form { R.form_of records.new ≡ R.form_of records.old }
    ensures limits { meter.new.limits ≡ meter.old.limits }
{
    let at = meter.offset;
    let max_lines = meter.limits.max_lines;
    if let Some(limit) = meter.limit(records.is_full(max_lines, piece[0])) {
        let stop = match records.refusal(piece[0]) {
            Some(why) => Stop::Refused { at, why },
            None => limit,
        };
        return Progress {
            used: 0,
            what: Event::Stopped(stop),
        };
    }
    let (front, _) = piece.split_at(meter.room(piece.len()));
    let progress = records.take(front, at, max_lines);
    let (taken, _) = front.split_at(progress.used);
    meter.count(taken);
    progress
}

/// Takes bytes until a part is there, a byte stops the stream or no memory is left; where none of these comes, the
/// whole piece.
pub(crate) fn pull<R: Records>(
    records: &mut R,
    meter: &mut Meter,
    piece: &[u8],
) -> Progress<R::Part>
    ensures pulled { (form : R.Setup) (p : List ℕ) (es : List R.Part) →
        HasProgressed (R.stream form) records.old meter.old p es →
        PieceDid (R.stream form) records.new meter.new p es piece.now result.used result.what }
    ensures used { result.used ≤ length piece.now }
    ensures progress { IsMovedBy (length piece.now) result.used result.what }
    ensures form { R.form_of records.new ≡ R.form_of records.old }
    ensures limits { meter.new.limits ≡ meter.old.limits }
{
    let mut used = 0;
    while used < piece.len() {
        let (_, rest) = piece.split_at(used);
        let progress = advance(records, meter, rest);
        used += progress.used;
        match progress.what {
            Event::NeedMore => {}
            what => return Progress { used, what },
        }
    }
    Progress {
        used,
        what: Event::NeedMore,
    }
}

/// Goes on with a piece of which so many bytes were taken.
pub(crate) fn pull_rest<R: Records>(
    records: &mut R,
    meter: &mut Meter,
    piece: &[u8],
    at: usize,
) -> Progress<R::Part>
    requires { at ≤ length piece.now }
    ensures pulled { (form : R.Setup) (p : List ℕ) (es : List R.Part) →
        HasProgressed (R.stream form) records.old meter.old (p ++ take at piece.now) es →
        PieceDid (R.stream form) records.new meter.new p es piece.now result.used result.what }
    ensures used { result.used ≤ length piece.now }
    ensures progress { IsMovedBy (length piece.now) result.used result.what }
    ensures form { R.form_of records.new ≡ R.form_of records.old }
    ensures limits { meter.new.limits ≡ meter.old.limits }
{
    let (_, rest) = piece.split_at(at);
    let Progress { used, what } = pull(records, meter, rest);
    Progress {
        used: at + used,
        what,
    }
}

/// The bytes with which some text goes on.
pub(crate) fn allowed<R: Records>(records: &R) -> ByteSet
    ensures { (form : R.Setup) (p : List ℕ) (es : List R.Part) → (R.stream form).at records.now p es → (byte : ℕ) →
        HasByte result byte ↔ Next (R.stream form).language p byte }
{
    if let Some(set) = records.line_allowed() {
        return set;
    }
    let mut set = ByteSet::new();
    for number in 0..256u16 {
        let byte = number as u8;
        match records.refusal(byte) {
            None => set.insert(byte),
            Some(_) => {}
        }
    }
    set
}
