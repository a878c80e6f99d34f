//! Why bytes are no file, or no write to it.
ghost use Rattle.std.specs.Prelude.{◌≡◌, ◌≤◌, [], ◌∷◌, None, IsSomeAnd, true};
ghost use Rattle.cg_source.specs.Explained.{IsExplained, IsExplanation};
ghost use Rattle.cg_c.specs.Answer.{is_one_of, profile_of, HasNoRoom, IsPrinted};
ghost use Rattle.cg_c.specs.Explain.{HasNoForm, HasNoMemory, Texts, the_line};

use crate::answer::{DONE, NO_FORM, NO_MEMORY, NO_PROFILE, NO_ROOM, WHOLE, profile_of, put};
use cg_run::{Explained, explain_file, explain_setting};
use cg_text::OutOfMemory;
use cg_value::Profile;
use std::alloc::Global;

/// What is told of the bytes of a write to the file of this name, or of those of the file.
fn explained(
    alloc: Global,
    profile: Profile,
    name: &[u8],
    is_written: bool,
    text: &[u8],
) -> Result<Explained, OutOfMemory>
    ensures { IsExplained (HasNoForm profile name.now is_written) (Texts profile name.now is_written)
        name.now text.now result }
{
    if is_written {
        explain_setting(alloc, profile, name, text)
    } else {
        explain_file(alloc, profile, name, text)
    }
}

/// The line that explains why the text is no write to the file of this name, or no file of it.
#[unsafe(no_mangle)]
pub extern "C" fn cgfile_explain(
    alloc: Global,
    profile: u32,
    name: &[u8],
    is_written: bool,
    text: &[u8],
    out: &mut [u8],
    used: &mut usize,
) -> u32
    ensures done { result ≡ 0 → IsSomeAnd (profile_of profile) (λ p.
        IsPrinted (IsExplanation (Texts p name.now is_written) name.now text.now) the_line out.old out.new used.new) }
    ensures no_form { result ≡ 3 → IsSomeAnd (profile_of profile) (λ p. HasNoForm p name.now is_written) }
    ensures no_room { result ≡ 4 → IsSomeAnd (profile_of profile) (λ p.
        HasNoRoom (IsExplanation (Texts p name.now is_written) name.now text.now) the_line out.old used.new) }
    ensures no_memory { result ≡ 5 → IsSomeAnd (profile_of profile) (λ p.
        HasNoMemory p name.now is_written text.now) }
    ensures no_profile { result ≡ 6 → profile_of profile ≡ None }
    ensures whole { result ≡ 16 → IsSomeAnd (profile_of profile) (λ p. Texts p name.now is_written text.now) }
    ensures known { is_one_of result (0 ∷ 3 ∷ 4 ∷ 5 ∷ 6 ∷ 16 ∷ []) ≡ true }
    ensures kept { 1 ≤ result → out.new ≡ out.old }
{
    let profile = match profile_of(profile) {
        Some(profile) => profile,
        None => return NO_PROFILE,
    };
    let line = match explained(alloc, profile, name, is_written, text) {
        Ok(Explained::Line(line)) => line,
        Ok(Explained::Whole) => return WHOLE,
        Ok(Explained::NoForm) => return NO_FORM,
        Err(_) => return NO_MEMORY,
    };
    *used = line.len();
    if put(line.as_slice(), out) {
        DONE
    } else {
        NO_ROOM
    }
}
