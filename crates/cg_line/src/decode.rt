//! One file as a whole.
ghost use Rattle.std.specs.Prelude.{ℕ, List, Err};
ghost use Rattle.cg_file.specs.Kinds.{TextsOf};
ghost use Rattle.cg_value.specs.Files.{File};
ghost use Rattle.cg_value.specs.declared.profile.Profile.{Profile};
ghost use Rattle.cg_line.specs.Decode.{IsDecoded, IsReadWhole, IsTextFault};

use crate::read_all::{TextFault, read_all};
use cg_file::AnyFile;
use cg_value::{Profile, ReadKind, Value, read_kind};
use std::alloc::Global;
use thiserror::Error;

/// Why bytes are no file.
#[derive(Clone, Copy, Debug, PartialEq, Eq, Error)]
pub enum FileFault {
    /// A file of the name can't be read.
    #[error("not readable")]
    NotReadable,
    /// After the byte at this place no file of the name continues.
    #[error("refused at {at}")]
    Refused { at: u64 },
    /// The bytes end before a file of the name does, at their length.
    #[error("cut at {at}")]
    Cut { at: u64 },
    #[error("out of memory")]
    OutOfMemory,
}

/// What is told of a file whose bytes are no text.
fn file_fault(fault: TextFault) -> FileFault
    ensures { (profile : Profile) (name bytes : List ℕ) → IsTextFault (File profile name) bytes fault →
        IsDecoded profile name bytes (Err result) }
{
    match fault {
        TextFault::Refused { at } => FileFault::Refused { at },
        TextFault::Cut { at } => FileFault::Cut { at },
        TextFault::OutOfMemory => FileFault::OutOfMemory,
    }
}

/// The value of a whole file of this kind.
#[inline(never)]
fn read_file(alloc: Global, kind: ReadKind, bytes: &[u8]) -> Result<Value, TextFault>
    ensures { IsReadWhole (TextsOf kind) bytes.now result }
{
    read_all(AnyFile::new(alloc, kind), bytes)
}

/// The value of the file of this name whose whole text these bytes are.
pub fn decode_file(
    alloc: Global,
    profile: Profile,
    name: &[u8],
    bytes: &[u8],
) -> Result<Value, FileFault>
    ensures { IsDecoded profile name.now bytes.now result }
{
    let kind = match read_kind(profile, name) {
        Ok(kind) => kind,
        Err(_) => return Err(FileFault::NotReadable),
    };
    match AnyFile::read_front(alloc, kind, bytes) {
        Some((value, used)) if used == bytes.len() => return Ok(value),
        _ => {}
    }
    match read_file(alloc, kind, bytes) {
        Ok(value) => Ok(value),
        Err(fault) => Err(file_fault(fault)),
    }
}
