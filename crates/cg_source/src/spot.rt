//! Where a text stops.
ghost use Rattle.std.specs.Prelude.{◌≡◌, ◌≤◌, ◌<◌, ℕ, List, None, Some, is_some, length, slice_index_or};
ghost use Rattle.cg_text.specs.Texts.{TextOf};
ghost use Rattle.cg_outcome.specs.Explain.{ExplainsNext, IsInText, TellsSpot};
ghost use Rattle.cg_outcome.specs.Lines.{AreBehind};
ghost use Rattle.cg_outcome.specs.Spot.{more_words};

use crate::text_reader::TextReader;
use cg_outcome::{Lines, Spot, is_explained};
use cg_snap::Stop;

/// Where the text of a file of this name stops, if lines are counted and the stop is explained.
pub fn text_spot<'a, T: TextReader>(
    name: &'a [u8],
    text: &T,
    lines: Option<Lines>,
    stop: Stop,
    byte: Option<u8>,
) -> Option<Spot<'a>>
    ensures { (form : T.Grammar) (p : List ℕ) → T.took text.now form p → length p ≤ 18446744073709551615 →
        AreBehind lines p →
        TellsSpot (ExplainsNext (TextOf (T.text form)) (IsInText name.now)) (is_some lines) p byte stop
        (more_words result) }
{
    let Some(counted) = lines else {
        return None;
    };
    if !is_explained(stop) {
        return None;
    }
    Some(Spot {
        ended: counted.ended,
        path: name,
        in_path: false,
        before: counted.begun,
        byte,
        wanted: text.allowed(),
    })
}

/// The byte in front, if there is one.
pub fn next_byte(bytes: &[u8]) -> Option<u8>
    ensures some { 0 < length bytes.now → result ≡ Some (slice_index_or bytes.now 0 0) }
    ensures none { length bytes.now ≡ 0 → result ≡ None }
{
    if bytes.is_empty() {
        None
    } else {
        Some(bytes[0])
    }
}
