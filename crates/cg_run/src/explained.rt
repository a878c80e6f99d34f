//! Why bytes that are at hand are no file, or no write to it.
ghost use Rattle.std.specs.Prelude.{◌≡◌, None};
ghost use Rattle.cg_value.specs.Files.{File};
ghost use Rattle.cg_value.specs.Settings.{Write};
ghost use Rattle.cg_value.specs.Table.{read_form_of, write_form_of};
ghost use Rattle.cg_source.specs.Explained.{IsExplained};

use crate::file_reader::FileReader;
use cg_line::SettingReader;
use cg_source::{Explained, explain_text};
use cg_text::OutOfMemory;
use cg_value::{Profile, read_kind, write_kind};
use std::alloc::Global;

/// Why bytes are no file of this name: the line with which `--explain` tells their first bad byte, or their end, where
/// they end before a file does.
pub fn explain_file(
    alloc: Global,
    profile: Profile,
    name: &[u8],
    bytes: &[u8],
) -> Result<Explained, OutOfMemory>
    ensures { IsExplained (read_form_of profile name.now ≡ None) (File profile name.now) name.now bytes.now result }
{
    match read_kind(profile, name) {
        Ok(kind) => {
            let reader = FileReader::new(alloc, kind);
            explain_text(alloc, reader, name, bytes, bytes.len() as u64)
        }
        Err(_) => Ok(Explained::NoForm),
    }
}

/// Why bytes are no write to the file of this name, as `explain_file` tells it.
pub fn explain_setting(
    alloc: Global,
    profile: Profile,
    name: &[u8],
    bytes: &[u8],
) -> Result<Explained, OutOfMemory>
    ensures { IsExplained (write_form_of profile name.now ≡ None) (Write profile name.now) name.now bytes.now result }
{
    match write_kind(profile, name) {
        Ok(kind) => {
            let reader = SettingReader::new(alloc, kind);
            explain_text(alloc, reader, name, bytes, bytes.len() as u64)
        }
        Err(_) => Ok(Explained::NoForm),
    }
}
