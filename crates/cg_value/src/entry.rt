//! Entries of a snapshot: a path with what its file holds.
ghost use Rattle.std.specs.Prelude.{◌≡◌, ◌≢◌, [], IfOk, IfErr, MatchOption};
ghost use Rattle.cg_value.specs.Entry.{IsEntry, IsPath, IsSomeEntry};
ghost use Rattle.cg_value.specs.EntryRefusal.{IsEntryFault};
ghost use Rattle.cg_value.specs.Path.{IsNameOf};
ghost use Rattle.cg_value.specs.Print.{print_lines};

use crate::copied::Copied;
use crate::path::{is_path, name_of};
use crate::profile::Profile;
use crate::table::read_kind;
use crate::value::Value;
use cg_text::OutOfMemory;
use std::alloc::Global;
use std::marker::Model;
use thiserror::Error;

/// A path, and what the file there holds: a value that fits the kind of the path's name in the profile with which it
/// was made, and that has at least one line.
#[derive(Debug, Drop)]
pub struct Entry {
    path: Vec<u8>,
    value: Value,
    ghost fits: { IsSomeEntry path.items value },
}

impl Model for Entry {
    ghost use Rattle.cg_value.specs.Entry.{EntryData};

    ghost Value = { EntryData };

    ghost view = { λ e. record { path = e.path.items; value = e.value; fits = e.fits } };
}

/// Why a path and a value make no entry: the first that applies.
#[derive(Clone, Copy, Debug, PartialEq, Eq, Error)]
pub enum EntryFault {
    /// The path is empty, holds NUL or a newline, or ends with `/`.
    #[error("bad path")]
    BadPath,
    /// A file of the name can't be read.
    #[error("not readable")]
    NotReadable,
    /// A file of the name can't hold the value.
    #[error("wrong kind")]
    WrongKind,
    /// The value has no line.
    #[error("no lines")]
    NoLines,
}

/// A path and a value that make no entry, handed back.
#[derive(Debug, Drop, Error)]
#[error("no entry: {why}")]
pub struct EntryRefused {
    pub why: EntryFault,
    pub path: Vec<u8>,
    pub value: Value,
}

/// Why the path and the value make no entry, if so.
fn entry_fault(profile: Profile, path: &[u8], value: &Value) -> Option<EntryFault>
    ensures { MatchOption result (IsEntry profile path.now value.now)
        (λ why. IsEntryFault profile path.now value.now why) }
{
    if !is_path(path) {
        return Some(EntryFault::BadPath);
    }
    let kind = match read_kind(profile, name_of(path)) {
        Ok(kind) => kind,
        Err(_) => return Some(EntryFault::NotReadable),
    };
    if !value.fits(kind) {
        return Some(EntryFault::WrongKind);
    }
    if value.line_count() == 0 {
        return Some(EntryFault::NoLines);
    }
    None
}

impl Entry {
    /// The entry of the path and the value. It takes no memory.
    pub fn new(profile: Profile, path: Vec<u8>, value: Value) -> Result<Entry, EntryRefused>
        ensures ok { IfOk result (λ e. (e.path ≡ path.items) × (e.value ≡ value) × IsEntry profile path.items value) }
        ensures err { IfErr result (λ r. (r.path.items ≡ path.items) × (r.value ≡ value) ×
            IsEntryFault profile path.items value r.why) }
    {
        match entry_fault(profile, path.as_slice(), &value) {
            Some(why) => Err(EntryRefused { why, path, value }),
            None => Ok(Entry { path, value }),
        }
    }

    /// The entry of a path and a value of which it's known that they make one. It takes no memory.
    pub fn known(path: Vec<u8>, value: Value) -> Entry
        requires { IsSomeEntry path.items value }
        ensures path { result.path ≡ path.items }
        ensures value { result.value ≡ value }
    {
        Entry { path, value }
    }

    /// The path.
    pub fn path(&self) -> &[u8]
        ensures path { result.now ≡ self.now.path }
        ensures good { IsPath result.now }
    {
        self.path.as_slice()
    }

    /// The name of the file: what follows the last `/` of the path.
    pub fn name(&self) -> &[u8]
        ensures { IsNameOf self.now.path result.now }
    {
        name_of(self.path.as_slice())
    }

    /// What the file holds.
    pub fn value(&self) -> &Value
        ensures value { result.now ≡ self.now.value }
        ensures some_line { print_lines result.now ≢ [] }
    {
        &self.value
    }

    /// A copy.
    pub fn copy(&self, alloc: Global) -> Result<Entry, OutOfMemory>
        ensures { IfOk result (λ copy. copy ≡ self.now) }
    {
        let path = Vec::from_slice(alloc, self.path.as_slice())?;
        let value = self.value.copy(alloc)?;
        Ok(Entry { path, value })
    }
}
