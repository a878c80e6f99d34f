//! One write as a whole.
ghost use Rattle.std.specs.Prelude.{ℕ, List, Err};
ghost use Rattle.cg_value.specs.Settings.{Write};
ghost use Rattle.cg_value.specs.declared.profile.Profile.{Profile};
ghost use Rattle.cg_line.specs.Decode.{IsTextFault};
ghost use Rattle.cg_line.specs.DecodeWrite.{IsWriteDecoded};

use crate::read_all::{TextFault, read_all};
use cg_value::{Profile, Setting, write_kind};
use cg_write::AnyWrite;
use std::alloc::Global;
use thiserror::Error;

/// Why bytes are no write.
#[derive(Clone, Copy, Debug, PartialEq, Eq, Error)]
pub enum SettingFault {
    /// A file of the name can't be written.
    #[error("not writable")]
    NotWritable,
    /// After the byte at this place no write of the name continues.
    #[error("refused at {at}")]
    Refused { at: u64 },
    /// The bytes end before a write of the name does, at their length.
    #[error("cut at {at}")]
    Cut { at: u64 },
    #[error("out of memory")]
    OutOfMemory,
}

/// What is told of a write whose bytes are no text.
fn setting_fault(fault: TextFault) -> SettingFault
    ensures { (profile : Profile) (name bytes : List ℕ) → IsTextFault (Write profile name) bytes fault →
        IsWriteDecoded profile name bytes (Err result) }
{
    match fault {
        TextFault::Refused { at } => SettingFault::Refused { at },
        TextFault::Cut { at } => SettingFault::Cut { at },
        TextFault::OutOfMemory => SettingFault::OutOfMemory,
    }
}

/// The setting of the write of the file of this name whose whole text these bytes are.
pub fn decode_setting(
    alloc: Global,
    profile: Profile,
    name: &[u8],
    bytes: &[u8],
) -> Result<Setting, SettingFault>
    ensures { IsWriteDecoded profile name.now bytes.now result }
{
    let kind = match write_kind(profile, name) {
        Ok(kind) => kind,
        Err(_) => return Err(SettingFault::NotWritable),
    };
    match read_all(AnyWrite::new(alloc, kind), bytes) {
        Ok(setting) => Ok(setting),
        Err(fault) => Err(setting_fault(fault)),
    }
}
