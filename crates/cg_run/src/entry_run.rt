//! The entries that lie one behind another in a piece of a snapshot that is gone on with.
ghost use Rattle.std.specs.Prelude.{◌≡◌, ◌≤◌, ◌<◌, ◌++◌, ◌∷◌, [], ℕ, List, length, take};
ghost use Rattle.cg_value.specs.Entry.{IsPath};
ghost use Rattle.cg_value.specs.declared.profile.Profile.{Profile};
ghost use Rattle.cg_snap.specs.GoingOnEntry.{BeginsBlock, IsOfBlock};
ghost use Rattle.cg_snap.specs.declared.going_on.Found.{Found};
ghost use Rattle.cg_snap.specs.declared.limits.Limits.{Limits};
ghost use Rattle.cg_run.specs.EntryRun.{HavePassed, IsRun};
ghost use Rattle.cg_run.specs.GoneOnReader.{HasTakenOn};

use crate::shown_text::lines_end;
use cg_snap::{Event, GoingOnDecoder};

/// How far a decoder came in a piece that gave entries alone.
#[derive(Drop)]
pub(crate) struct Passed {
    /// How many bytes it consumed.
    pub(crate) used: usize,
    /// How many up to the last that closes an entry, and 0 where none does.
    pub(crate) closed: usize,
}

/// Where entries lie in a piece.
#[derive(Drop)]
pub(crate) struct EntryRun {
    /// How many bytes stand before them.
    pub(crate) begin: usize,
    /// How many up to and with the byte that closes the last, and as many as before them where there is none.
    pub(crate) end: usize,
    /// How many bytes were consumed.
    pub(crate) used: usize,
}

/// Hands a piece to the decoder as far as it closes entries one behind another, and lets go of them.
fn pass_entries(decoder: &mut GoingOnDecoder, piece: &[u8]) -> Passed
    ensures passed { (form : Profile × Limits) (p : List ℕ) (found : List Found) (next : List ℕ) → IsPath next →
        HasTakenOn decoder.old form p found → IsOfBlock (form.0) decoder.old.records (next ++ 0 ∷ []) →
        HavePassed decoder.new form p found next piece.now result.used result.closed }
    ensures closed { result.closed ≤ result.used }
    ensures used { result.used ≤ length piece.now }
{
    let mut used = 0;
    let mut closed = 0;
    'entries: loop {
        let (_, rest) = piece.split_at(used);
        let pulled = decoder.next_entry(rest);
        used += pulled.used;
        if let Event::Given(_) = pulled.what {
            closed = used;
            continue 'entries;
        }
        return Passed { used, closed };
    }
}

/// Hands what is behind so many bytes of a piece to the decoder, as far as it closes entries whose lines lie in the
/// piece one behind another, and lets go of them.
pub(crate) fn pass_run(decoder: &mut GoingOnDecoder, piece: &[u8], at: usize) -> EntryRun
    requires { at ≤ length piece.now }
    ensures passed { (form : Profile × Limits) (p : List ℕ) (found : List Found) →
        HasTakenOn decoder.old form (p ++ take at piece.now) found →
        BeginsBlock (form.0) decoder.old.records (p ++ take at piece.now) →
        IsRun decoder.new form p found piece.now result.begin result.end result.used }
    ensures begin { result.begin ≤ result.end }
    ensures end { result.end ≤ result.used }
    ensures used { result.used ≤ length piece.now }
    ensures some { at ≤ result.used }
{
    let (front, rest) = piece.split_at(at);
    let begin = lines_end(front);
    if begin == 0 {
        return EntryRun {
            begin,
            end: begin,
            used: at,
        };
    }
    let passed = pass_entries(decoder, rest);
    if passed.closed == 0 {
        return EntryRun {
            begin,
            end: begin,
            used: at + passed.used,
        };
    }
    EntryRun {
        begin,
        end: at + passed.closed,
        used: at + passed.used,
    }
}
