//! Where a stream stops.
ghost use Rattle.std.specs.Prelude.{◌≤◌, ℕ, List, is_some, length};
ghost use Rattle.cg_outcome.specs.Explain.{TellsSpot};
ghost use Rattle.cg_outcome.specs.Lines.{AreBehind};
ghost use Rattle.cg_outcome.specs.Spot.{more_words};

use crate::stream_reader::{Standing, StreamReader};
use cg_outcome::{Lines, Spot, is_explained, spot_in};
use cg_snap::Stop;

/// Where a stream stops, if lines are counted and the stop is explained.
pub(crate) fn stream_spot<S: StreamReader>(
    stream: &S,
    lines: Option<Lines>,
    stop: Stop,
    byte: Option<u8>,
) -> Option<Spot<'_>>
    ensures { (form : S.Setup) (p : List ℕ) → S.stood stream.now form p → length p ≤ 18446744073709551615 →
        AreBehind lines p →
        TellsSpot (S.explained form) (is_some lines) p byte stop (more_words result) }
{
    let Some(counted) = lines else {
        return None;
    };
    if !is_explained(stop) {
        return None;
    }
    let Standing { place, wanted, .. } = stream.standing();
    match place {
        Some(place) => Some(spot_in(place, counted, byte, wanted)),
        None => None,
    }
}
