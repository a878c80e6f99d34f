//! Entries and items as bytes: a snapshot and a plan.
ghost use Rattle.std.specs.Prelude.{◌≡◌, IfOk, MatchOption, MatchResult, length};
ghost use Rattle.cg_snap.specs.Encode.{IsEncoded, IsEncodeFault, IsSamePath};
ghost use Rattle.cg_snap.specs.Laws.{AreApart, print_entries, print_items};

use cg_print::{append_entry, append_item};
use cg_text::OutOfMemory;
use cg_value::{Entry, PlanItem};
use std::alloc::Global;
use thiserror::Error;

/// Why entries make no snapshot.
#[derive(Clone, Copy, Debug, PartialEq, Eq, Error)]
pub enum EncodeFault {
    /// The entry at this place, counted from 0, is the first that has the path of the one before it.
    #[error("entry {at} has the path of the one before it")]
    SamePath { at: usize },
    /// No memory was left.
    #[error("out of memory")]
    OutOfMemory,
}

/// The place of the first entry that has the path of the one before it.
fn same_path(entries: &[Entry]) -> Option<usize>
    ensures { MatchOption result (AreApart entries.now (length entries.now)) (λ at. IsSamePath entries.now at) }
{
    for at in 1..entries.len() {
        if entries[at].path() == entries[at - 1].path() {
            return Some(at);
        }
    }
    None
}

/// The records of the entries, one after another.
fn records_of(alloc: Global, entries: &[Entry]) -> Result<Vec<u8>, OutOfMemory>
    ensures { IfOk result (λ text. text.items ≡ print_entries entries.now) }
{
    let mut text = Vec::new(alloc);
    for entry in entries {
        append_entry(&mut text, entry)?;
    }
    Ok(text)
}

/// The snapshot of the entries: for each, in order, the records of its canonical lines, as `grep -rZ` prints a
/// hierarchy.
///
/// `SamePath` where an entry has the path of the one before it, since their records would be read as one entry's. It
/// takes no profile: entries of several are encoded record by record, and what a decoder makes of them depends on its
/// own.
pub fn encode_snapshot(alloc: Global, entries: &[Entry]) -> Result<Vec<u8>, EncodeFault>
    ensures { MatchResult result (λ text. IsEncoded entries.now text.items) (λ fault. IsEncodeFault entries.now fault) }
{
    if let Some(at) = same_path(entries) {
        return Err(EncodeFault::SamePath { at });
    }
    match records_of(alloc, entries) {
        Ok(text) => Ok(text),
        Err(OutOfMemory) => Err(EncodeFault::OutOfMemory),
    }
}

/// The plan of the items: for each, in order, its path, a NUL and the canonical line of its setting with a newline.
/// Adjacent items may have the same path. `OutOfMemory` where no memory is left.
pub fn encode_plan(alloc: Global, items: &[PlanItem]) -> Result<Vec<u8>, OutOfMemory>
    ensures { IfOk result (λ text. text.items ≡ print_items items.now) }
{
    let mut text = Vec::new(alloc);
    for item in items {
        append_item(&mut text, item)?;
    }
    Ok(text)
}
