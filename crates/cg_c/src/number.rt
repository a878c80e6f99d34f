//! The number of a file.
ghost use Rattle.std.specs.Prelude.{◌≡◌, ◌≤◌, [], ◌∷◌, None, Some, IsSomeAnd, true};
ghost use Rattle.cg_text.specs.Texts.{FirstBad};
ghost use Rattle.cg_text.specs.declared.values.Limit.TheVariants.{At, Max};
ghost use Rattle.cg_value.specs.Files.{File};
ghost use Rattle.cg_value.specs.Table.{read_form_of};
ghost use Rattle.cg_line.specs.Decode.{IsCut};
ghost use Rattle.cg_c.specs.Answer.{is_one_of, profile_of, IsFileTold, IsOutOfMemory};
ghost use Rattle.cg_c.specs.Number.{limit_in, IsFileLimit};

use crate::answer::{DONE, MAX, NO_PROFILE, NONE, profile_of, read_or_answer};
use cg_line::{FileFault, decode_file};
use cg_text::Limit;
use cg_value::{Profile, Value};
use std::alloc::Global;

/// The number of the key in a flat value, and without a key that of a number or a limit.
fn limit_in(value: &Value, key: &[u8]) -> Option<Limit>
    ensures { result ≡ limit_in value.now key.now }
{
    match value {
        Value::Flat(flat) => match flat.get(key) {
            Some(number) => Some(Limit::At(number)),
            None => None,
        },
        Value::Number(number) if key.is_empty() => Some(Limit::At(*number)),
        Value::Limit(limit) if key.is_empty() => Some(*limit),
        _ => None,
    }
}

/// The number in a value, which is let go of.
fn taken_limit(value: Value, key: &[u8]) -> Option<Limit>
    ensures { result ≡ limit_in value key.now }
{
    limit_in(&value, key)
}

/// The number in the file of this name whose whole text this is.
fn file_limit(
    alloc: Global,
    profile: Profile,
    name: &[u8],
    text: &[u8],
    key: &[u8],
) -> Result<Option<Limit>, FileFault>
    ensures { IsFileTold profile name.now text.now (λ v limit. limit ≡ limit_in v key.now) result }
{
    match decode_file(alloc, profile, name, text) {
        Ok(value) => Ok(taken_limit(value, key)),
        Err(fault) => Err(fault),
    }
}

/// The number of the key in the file of this name whose whole text this is; without a key that of a file of one number,
/// or of one limit.
#[unsafe(no_mangle)]
pub extern "C" fn cgfile_number(
    alloc: Global,
    profile: u32,
    name: &[u8],
    text: &[u8],
    key: &[u8],
    number: &mut u64,
    at: &mut u64,
) -> u32
    ensures done { result ≡ 0 → IsSomeAnd (profile_of profile) (λ p.
        IsFileLimit p name.now text.now key.now (Some (At number.new))) }
    ensures refused { result ≡ 1 → IsSomeAnd (profile_of profile) (λ p. FirstBad (File p name.now) text.now at.new) }
    ensures cut { result ≡ 2 → IsSomeAnd (profile_of profile) (λ p. IsCut (File p name.now) text.now at.new) }
    ensures no_form { result ≡ 3 → IsSomeAnd (profile_of profile) (λ p. read_form_of p name.now ≡ None) }
    ensures no_memory { result ≡ 5 → IsSomeAnd (profile_of profile) (λ p. IsOutOfMemory (File p name.now) text.now) }
    ensures no_profile { result ≡ 6 → profile_of profile ≡ None }
    ensures none { result ≡ 7 → IsSomeAnd (profile_of profile) (λ p. IsFileLimit p name.now text.now key.now None) }
    ensures max { result ≡ 8 → IsSomeAnd (profile_of profile) (λ p.
        IsFileLimit p name.now text.now key.now (Some Max)) }
    ensures known { is_one_of result (0 ∷ 1 ∷ 2 ∷ 3 ∷ 5 ∷ 6 ∷ 7 ∷ 8 ∷ []) ≡ true }
    ensures kept { 1 ≤ result → number.new ≡ number.old }
{
    let profile = match profile_of(profile) {
        Some(profile) => profile,
        None => return NO_PROFILE,
    };
    let limit = read_or_answer!(
        file_limit(alloc, profile, name, text, key),
        at,
        FileFault::NotReadable
    );
    match limit {
        Some(Limit::At(count)) => {
            *number = count;
            DONE
        }
        Some(Limit::Max) => MAX,
        None => NONE,
    }
}
