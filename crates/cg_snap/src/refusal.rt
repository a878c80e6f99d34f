//! Why a byte can't come next.
ghost use Rattle.std.specs.Prelude.{◌≡◌, ℕ, List, Some, true, MatchBool, MatchResult, IfOk};
ghost use Rattle.cg_text.specs.Texts.{Next};
ghost use Rattle.cg_value.specs.Entry.{EntryData};
ghost use Rattle.cg_snap.specs.DecoderState.{HasConsumed, IsBetween, IsOfKind, IsOver, RefusalIs, TakesMore};
ghost use Rattle.cg_snap.specs.Snap.{Snap};

use crate::class::readable;
use crate::present::CurrentEntry;
use crate::stop::Why;
use cg_value::{Profile, ReadKind};

/// Why the byte can't come within a line.
fn line_refusal(begun: &Vec<u8>, present: &CurrentEntry, byte: u8) -> Option<Why>
    ensures { (profile : Profile) (p : List ℕ) (es : List EntryData) →
        HasConsumed profile begun.now.items (Some present.now) p es → present.now.in_line ≡ true →
        RefusalIs profile p byte result }
{
    if present.reader.allowed().contains(byte) {
        None
    } else {
        Some(Why::Line)
    }
}

/// Whether the path that is begun is that of the present entry, whose file takes no further line.
fn is_over(begun: &Vec<u8>, present: &Option<CurrentEntry>) -> bool
    ensures { MatchBool result (IsOver begun.now.items present.now) (TakesMore begun.now.items present.now) }
{
    match present {
        Some(x) => x.path.as_slice() == begun.as_slice() && !x.reader.takes_line(),
        None => false,
    }
}

/// The kind of the file at the path that is begun, of which a line may begin after a NUL; or why no NUL can come.
pub(crate) fn kind_after(
    profile: Profile,
    begun: &Vec<u8>,
    present: &Option<CurrentEntry>,
) -> Result<ReadKind, Why>
    ensures after { (p : List ℕ) (es : List EntryData) → HasConsumed profile begun.now.items present.now p es →
        IsBetween present.now → MatchResult result (λ kind. IsOfKind profile begun.now.items kind ×
        Next (Snap profile) p 0) (λ why. RefusalIs profile p 0 (Some why)) }
    ensures kind { IfOk result (λ kind. IsOfKind profile begun.now.items kind) }
{
    if is_over(begun, present) {
        return Err(Why::NoMoreLines);
    }
    readable(profile, begun.as_slice())
}

/// Why the byte can't come within a path, or after it.
fn path_refusal(
    profile: Profile,
    begun: &Vec<u8>,
    present: &Option<CurrentEntry>,
    byte: u8,
) -> Option<Why>
    ensures { (p : List ℕ) (es : List EntryData) → HasConsumed profile begun.now.items present.now p es →
        IsBetween present.now →
        RefusalIs profile p byte result }
{
    if byte == 0 {
        return match kind_after(profile, begun, present) {
            Ok(_) => None,
            Err(why) => Some(why),
        };
    }
    if byte == b'\n' {
        return Some(Why::PathByte);
    }
    None
}

/// Why the byte can't come next, none where it can.
pub(crate) fn refusal(
    profile: Profile,
    begun: &Vec<u8>,
    present: &Option<CurrentEntry>,
    byte: u8,
) -> Option<Why>
    ensures { (p : List ℕ) (es : List EntryData) → HasConsumed profile begun.now.items present.now p es →
        RefusalIs profile p byte result }
{
    match present {
        Some(x) if x.in_line => line_refusal(begun, x, byte),
        _ => path_refusal(profile, begun, present, byte),
    }
}
