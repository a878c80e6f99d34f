//! The kinds of files, by their names.
ghost use Rattle.std.specs.Prelude.{◌≡◌, ◌≤◌, [], ◌∷◌, Some, None, IsSomeAnd, MatchOption, true, false};
ghost use Rattle.cg_value.specs.Table.{has_row};
ghost use Rattle.cg_value.specs.declared.profile.Profile.TheVariants.{One, Two};
ghost use Rattle.cg_c.specs.Answer.{is_one_of, profile_of, IsPut, IsTooLong};
ghost use Rattle.cg_c.specs.Kind.{kind_word};

use crate::answer::{DONE, NO_FORM, NO_PROFILE, NO_ROOM, profile_of, put};
use cg_value::{Profile, has_row, read_kind, write_kind};

/// Whether the file table of the first two profiles has this name.
#[unsafe(no_mangle)]
pub extern "C" fn cgfile_known(name: &[u8]) -> bool
    ensures first { result ≡ has_row One name.now }
    ensures second { result ≡ has_row Two name.now }
{
    has_row(Profile::One, name)
}

/// The word of what is read of a file of this name.
fn read_word(profile: Profile, name: &[u8]) -> Option<&'static [u8]>
    ensures { MatchOption result (kind_word profile name.now false ≡ None)
        (λ word. kind_word profile name.now false ≡ Some word.now) }
{
    match read_kind(profile, name) {
        Ok(kind) => Some(kind.name().as_bytes()),
        Err(_) => None,
    }
}

/// The word of what is written to a file of this name.
fn write_word(profile: Profile, name: &[u8]) -> Option<&'static [u8]>
    ensures { MatchOption result (kind_word profile name.now true ≡ None)
        (λ word. kind_word profile name.now true ≡ Some word.now) }
{
    match write_kind(profile, name) {
        Ok(kind) => Some(kind.name().as_bytes()),
        Err(_) => None,
    }
}

/// The word of what is written to a file of this name, or read of it.
fn kind_word(profile: Profile, name: &[u8], is_written: bool) -> Option<&'static [u8]>
    ensures { MatchOption result (kind_word profile name.now is_written ≡ None)
        (λ word. kind_word profile name.now is_written ≡ Some word.now) }
{
    if is_written {
        write_word(profile, name)
    } else {
        read_word(profile, name)
    }
}

/// The word of the kind of what is written to a file of this name, or read of it. It takes no memory.
#[unsafe(no_mangle)]
pub extern "C" fn cgfile_kind(
    profile: u32,
    name: &[u8],
    is_written: bool,
    out: &mut [u8],
    used: &mut usize,
) -> u32
    ensures done { result ≡ 0 → IsSomeAnd (profile_of profile) (λ p.
        IsSomeAnd (kind_word p name.now is_written) (λ word. IsPut word out.old out.new used.new)) }
    ensures no_form { result ≡ 3 → IsSomeAnd (profile_of profile) (λ p. kind_word p name.now is_written ≡ None) }
    ensures no_room { result ≡ 4 → IsSomeAnd (profile_of profile) (λ p.
        IsSomeAnd (kind_word p name.now is_written) (λ word. IsTooLong word out.old used.new)) }
    ensures no_profile { result ≡ 6 → profile_of profile ≡ None }
    ensures known { is_one_of result (0 ∷ 3 ∷ 4 ∷ 6 ∷ []) ≡ true }
    ensures kept { 1 ≤ result → out.new ≡ out.old }
{
    let profile = match profile_of(profile) {
        Some(profile) => profile,
        None => return NO_PROFILE,
    };
    let word = match kind_word(profile, name, is_written) {
        Some(word) => word,
        None => return NO_FORM,
    };
    *used = word.len();
    if put(word, out) { DONE } else { NO_ROOM }
}
