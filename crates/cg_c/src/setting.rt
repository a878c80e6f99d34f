//! One write to a file.
ghost use Rattle.std.specs.Prelude.{◌≡◌, ◌≤◌, None, IsSomeAnd};
ghost use Rattle.cg_text.specs.Texts.{FirstBad};
ghost use Rattle.cg_value.specs.Print.{print_setting_of};
ghost use Rattle.cg_value.specs.Settings.{SettingText, Write};
ghost use Rattle.cg_value.specs.Table.{write_form_of};
ghost use Rattle.cg_line.specs.Decode.{IsCut};
ghost use Rattle.cg_c.specs.Answer.{profile_of, HasNoRoom, IsOutOfMemory, IsPrinted};

use crate::answer::{DONE, NO_MEMORY, NO_PROFILE, NO_ROOM, profile_of, put, read_or_answer};
use cg_line::{SettingFault, decode_setting};
use cg_print::print_setting;
use std::alloc::Global;

/// The canonical text of the write to the file of this name whose whole text the line is.
#[unsafe(no_mangle)]
pub extern "C" fn cgfile_setting(
    alloc: Global,
    profile: u32,
    name: &[u8],
    line: &[u8],
    out: &mut [u8],
    used: &mut usize,
    at: &mut u64,
) -> u32
    ensures done { result ≡ 0 → IsSomeAnd (profile_of profile) (λ p.
        IsPrinted (λ s. SettingText p name.now s line.now) print_setting_of out.old out.new used.new) }
    ensures refused { result ≡ 1 → IsSomeAnd (profile_of profile) (λ p. FirstBad (Write p name.now) line.now at.new) }
    ensures cut { result ≡ 2 → IsSomeAnd (profile_of profile) (λ p. IsCut (Write p name.now) line.now at.new) }
    ensures no_form { result ≡ 3 → IsSomeAnd (profile_of profile) (λ p. write_form_of p name.now ≡ None) }
    ensures no_room { result ≡ 4 → IsSomeAnd (profile_of profile) (λ p.
        HasNoRoom (λ s. SettingText p name.now s line.now) print_setting_of out.old used.new) }
    ensures no_memory { result ≡ 5 → IsSomeAnd (profile_of profile) (λ p. IsOutOfMemory (Write p name.now) line.now) }
    ensures no_profile { result ≡ 6 → profile_of profile ≡ None }
    ensures known { result ≤ 6 }
    ensures kept { 1 ≤ result → out.new ≡ out.old }
{
    let profile = match profile_of(profile) {
        Some(profile) => profile,
        None => return NO_PROFILE,
    };
    let setting = read_or_answer!(
        decode_setting(alloc, profile, name, line),
        at,
        SettingFault::NotWritable
    );
    let text = match print_setting(alloc, &setting) {
        Ok(text) => text,
        Err(_) => return NO_MEMORY,
    };
    *used = text.len();
    if put(text.as_slice(), out) {
        DONE
    } else {
        NO_ROOM
    }
}
