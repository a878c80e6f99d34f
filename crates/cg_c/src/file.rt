//! One file.
ghost use Rattle.std.specs.Prelude.{◌≡◌, ◌≤◌, None, IfOk, IsSomeAnd};
ghost use Rattle.cg_text.specs.Texts.{FirstBad};
ghost use Rattle.cg_value.specs.Files.{FileText, File};
ghost use Rattle.cg_value.specs.Print.{print_of};
ghost use Rattle.cg_value.specs.Table.{read_form_of};
ghost use Rattle.cg_line.specs.Decode.{IsCut};
ghost use Rattle.cg_c.specs.Answer.{profile_of, HasNoRoom, IsFileTold, IsOutOfMemory, IsPrinted};

use crate::answer::{DONE, NO_PROFILE, NO_ROOM, profile_of, put, read_or_answer};
use cg_line::{FileFault, decode_file};
use cg_print::print_file;
use cg_text::OutOfMemory;
use cg_value::{Profile, Value};
use std::alloc::Global;

/// The canonical text of a value, which is let go of.
fn text_of(alloc: Global, value: Value) -> Result<Vec<u8>, OutOfMemory>
    ensures { IfOk result (λ text. text.items ≡ print_of value) }
{
    print_file(alloc, &value)
}

/// The canonical text of the file of this name whose whole text this is.
fn file_text(
    alloc: Global,
    profile: Profile,
    name: &[u8],
    text: &[u8],
) -> Result<Vec<u8>, FileFault>
    ensures { IsFileTold profile name.now text.now (λ v out. out.items ≡ print_of v) result }
{
    match decode_file(alloc, profile, name, text) {
        Ok(value) => match text_of(alloc, value) {
            Ok(text) => Ok(text),
            Err(_) => Err(FileFault::OutOfMemory),
        },
        Err(fault) => Err(fault),
    }
}

/// The canonical text of the file of this name whose whole text this is.
#[unsafe(no_mangle)]
pub extern "C" fn cgfile_file(
    alloc: Global,
    profile: u32,
    name: &[u8],
    text: &[u8],
    out: &mut [u8],
    used: &mut usize,
    at: &mut u64,
) -> u32
    ensures done { result ≡ 0 → IsSomeAnd (profile_of profile) (λ p.
        IsPrinted (λ v. FileText p name.now v text.now) print_of out.old out.new used.new) }
    ensures refused { result ≡ 1 → IsSomeAnd (profile_of profile) (λ p. FirstBad (File p name.now) text.now at.new) }
    ensures cut { result ≡ 2 → IsSomeAnd (profile_of profile) (λ p. IsCut (File p name.now) text.now at.new) }
    ensures no_form { result ≡ 3 → IsSomeAnd (profile_of profile) (λ p. read_form_of p name.now ≡ None) }
    ensures no_room { result ≡ 4 → IsSomeAnd (profile_of profile) (λ p.
        HasNoRoom (λ v. FileText p name.now v text.now) print_of out.old used.new) }
    ensures no_memory { result ≡ 5 → IsSomeAnd (profile_of profile) (λ p. IsOutOfMemory (File p name.now) text.now) }
    ensures no_profile { result ≡ 6 → profile_of profile ≡ None }
    ensures known { result ≤ 6 }
    ensures kept { 1 ≤ result → out.new ≡ out.old }
{
    let profile = match profile_of(profile) {
        Some(profile) => profile,
        None => return NO_PROFILE,
    };
    let text = read_or_answer!(
        file_text(alloc, profile, name, text),
        at,
        FileFault::NotReadable
    );
    *used = text.len();
    if put(text.as_slice(), out) {
        DONE
    } else {
        NO_ROOM
    }
}
