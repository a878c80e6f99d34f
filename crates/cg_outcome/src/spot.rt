//! Where a stop is, what came there, and what may come.
ghost use Rattle.std.specs.Prelude.{◌≡◌, ◌≤◌, ℕ, List, length};
ghost use Rattle.cg_snap.specs.RecordPlace.{IsRecordPlace};
ghost use Rattle.cg_outcome.specs.Explain.{Explains, IsInRecord};
ghost use Rattle.cg_outcome.specs.Lines.{AreCounted};
ghost use Rattle.cg_outcome.specs.Spot.{before_in, is_explained, spot_words};

use crate::lines::Lines;
use cg_snap::{RecordPlace, Stop};
use cg_text::ByteSet;

/// Where a stop is, what came there, and what may come.
#[derive(Drop)]
pub struct Spot<'a> {
    /// How many lines have ended before it.
    pub ended: u64,
    /// The name of the file, or the path of the record as far as it came.
    pub path: &'a [u8],
    /// Whether the path is still coming.
    pub in_path: bool,
    /// How many bytes came before it, of the path where that is coming, and else of the line.
    pub before: u64,
    /// The byte that came, none at the end.
    pub byte: Option<u8>,
    /// The bytes that may come.
    pub wanted: ByteSet,
}

/// Whether a stop is explained: where the grammar refused a byte, or the input ended.
pub fn is_explained(stop: Stop) -> bool
    ensures { result ≡ is_explained stop }
{
    match stop {
        Stop::Refused { at: _, why: _ } => true,
        Stop::Cut { at: _ } => true,
        _ => false,
    }
}

/// How many bytes of its path or of its line came before a byte of a record, of which so many came.
fn before_in(place: RecordPlace<'_>, begun: u64) -> u64
    ensures { result ≡ before_in place.entry.in_line place.entry.path.now begun }
{
    if place.in_line {
        begun
            .saturating_sub(place.path.len() as u64)
            .saturating_sub(1)
    } else {
        begun
    }
}

/// Where the byte stands of a record that is at this place, behind bytes whose lines are counted.
pub fn spot_in(
    place: RecordPlace<'_>,
    counted: Lines,
    byte: Option<u8>,
    wanted: ByteSet,
) -> Spot<'_>
    ensures { (p : List ℕ) → AreCounted counted p → length p ≤ 18446744073709551615 →
        IsRecordPlace p place.entry.path.now place.entry.in_line →
        Explains (λ q set. set ≡ wanted) IsInRecord p byte (spot_words result) }
{
    Spot {
        ended: counted.ended,
        path: place.path,
        in_path: !place.in_line,
        before: before_in(place, counted.begun),
        byte,
        wanted,
    }
}
