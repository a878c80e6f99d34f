//! Files that are read and written back.
use crate::shown;
use cg_line::{FileFault, decode_file};
use cg_print::print_file;
use cg_value::Profile;
use std::alloc::Global;
use std::{fs, io};

/// What became of a file.
enum Fate {
    Same,
    /// It has no bytes, and one empty line is written.
    EmptyLine,
    /// The text that is written is another.
    Other,
    Unread(FileFault),
    OutOfMemory,
}

/// Reads the bytes of a file of this name and writes its value back.
fn fate_of(alloc: Global, profile: Profile, name: &[u8], bytes: &[u8]) -> Fate {
    let value = match decode_file(alloc, profile, name, bytes) {
        Ok(value) => value,
        Err(fault) => return Fate::Unread(fault),
    };
    match print_file(alloc, &value) {
        Ok(text) => {
            if text.as_slice() == bytes {
                Fate::Same
            } else if bytes.is_empty() && text.as_slice() == b"\n".as_slice() {
                Fate::EmptyLine
            } else {
                Fate::Other
            }
        }
        Err(_) => Fate::OutOfMemory,
    }
}

/// How many texts were tried, and how many of them were given back.
#[derive(Drop)]
pub(crate) struct Tally {
    pub(crate) same: u64,
    pub(crate) all: u64,
}

/// The name of the file whose content this one holds: what stands before the last dot.
fn name_of(copy: &str) -> &str {
    match copy.rfind('.') {
        Some(dot) => &copy[..dot],
        None => copy,
    }
}

/// Whether the file at this path is given back byte for byte. Prints a line where it isn't.
fn is_given_back(rt: &HostRuntime, profile: Profile, path: &str, copy: &str) -> io::Result<bool> {
    let bytes = fs::read(rt, path)?;
    let name = name_of(copy).as_bytes();
    match fate_of(rt.alloc(), profile, name, bytes.as_slice()) {
        Fate::Same => return Ok(true),
        Fate::EmptyLine => println!(rt; "{path}: no bytes, written as one empty line")?,
        Fate::Other => println!(rt; "{path}: written otherwise")?,
        Fate::Unread(fault) => println!(rt; "{path}: {fault}")?,
        Fate::OutOfMemory => println!(rt; "{path}: out of memory")?,
    }
    Ok(false)
}

/// Reads the file at this path in each profile and writes it back. `copy` is its name in its folder.
pub(crate) fn give_back(
    rt: &HostRuntime,
    path: &str,
    copy: &str,
    tally: &mut Tally,
) -> io::Result<()> {
    for profile in [Profile::One, Profile::Two, Profile::Kernel] {
        tally.all = tally.all.saturating_add(1);
        let is_same = if copy.ends_with(".snap") {
            shown::is_given_back(rt, profile, path)?
        } else {
            is_given_back(rt, profile, path, copy)?
        };
        if is_same {
            tally.same = tally.same.saturating_add(1);
        }
    }
    Ok(())
}
