//! The first entry.
ghost use Rattle.std.specs.Prelude.{◌≡◌, ℕ, List, [], None, length, IfSome};
ghost use Rattle.cg_value.specs.Print.{print_lines};
ghost use Rattle.cg_value.specs.Records.{records};
ghost use Rattle.cg_snap.specs.Decoder.{Stands, profile_of, stop_of};
ghost use Rattle.cg_first.specs.First.{IsCounted, IsFirstTold, IsLast};

use cg_print::print_entry;
use cg_snap::laws::{one_list, pulled_is_closed};
use cg_snap::{Limits, Pulled, SnapshotDecoder, StreamFault, What};
use cg_value::{Entry, Profile};
use std::alloc::Global;
use std::mem;

/// What bytes begin with.
#[derive(Drop)]
pub enum First {
    /// An entry, whose records are the first `taken` bytes.
    Entry { entry: Entry, taken: usize },
    /// No entry is whole yet.
    More,
    /// No entry: the stream has ended.
    End,
}

/// How many bytes the records of an entry have.
fn size_of(alloc: Global, entry: &Entry) -> Option<usize>
    ensures { IfSome result (λ count. count ≡ length (records entry.now.path (print_lines entry.now.value))) }
{
    match print_entry(alloc, entry) {
        Ok(text) => Some(text.len()),
        Err(_) => None,
    }
}

/// An entry with the length of its records.
fn counted(alloc: Global, entry: Entry) -> Result<First, StreamFault>
    ensures { IsCounted entry result }
{
    match size_of(alloc, &entry) {
        Some(taken) => Ok(First::Entry { entry, taken }),
        None => {
            mem::drop(entry);
            Err(StreamFault::OutOfMemory)
        }
    }
}

/// What the end of the stream makes of a decoder that consumed so many bytes and gave no entry.
fn ended(decoder: SnapshotDecoder, taken: usize) -> Result<First, StreamFault>
    ensures { (bytes : List ℕ) → stop_of decoder ≡ None → Stands decoder bytes [] → taken ≡ length bytes →
        IsLast (profile_of decoder) bytes result }
{
    match decoder.finish() {
        Ok(None) => Ok(First::End),
        Ok(Some(entry)) => Ok(First::Entry { entry, taken }),
        Err(stop) => Err(StreamFault::Stopped(stop)),
    }
}

/// The first entry of a snapshot of which these bytes came, all where it has ended; or why there is none. The caller
/// keeps the bytes from the start of an entry on, and drops those of an entry that was told.
pub fn first_entry(
    alloc: Global,
    profile: Profile,
    limits: Limits,
    bytes: &[u8],
    is_end: bool,
) -> Result<First, StreamFault>
    ensures { IsFirstTold profile limits bytes.now is_end result }
{
    pulled_is_closed();
    one_list();
    let mut decoder = SnapshotDecoder::new(alloc, profile, limits);
    let Pulled { what, .. } = decoder.next(bytes);
    match what {
        What::NeedMore => {
            if is_end {
                return ended(decoder, bytes.len());
            }
            mem::drop(decoder);
            Ok(First::More)
        }
        What::Given(entry) => {
            mem::drop(decoder);
            counted(alloc, entry)
        }
        What::Stopped(stop) => {
            mem::drop(decoder);
            Err(StreamFault::Stopped(stop))
        }
        What::OutOfMemory => {
            mem::drop(decoder);
            Err(StreamFault::OutOfMemory)
        }
    }
}
