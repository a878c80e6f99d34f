//! Files of one name among entries, and look-ups of those in a directory.
ghost use Rattle.std.specs.Prelude.{◌≡◌, ℕ, List, IfOk};
ghost use Rattle.cg_tree.specs.Files.{named, within, above};

use crate::directory::directory_of;
use cg_text::OutOfMemory;
use cg_value::{Entry, Value};
use std::alloc::Global;
use std::marker::Model;

/// A file: its place among the entries, its directory, and what it holds.
#[derive(Drop)]
pub(crate) struct File<'a> {
    pub(crate) place: usize,
    pub(crate) directory: &'a [u8],
    pub(crate) value: &'a Value,
}

impl<'a> Model for File<'a> {
    ghost use Rattle.cg_tree.specs.File.{FileData};

    ghost Value = { FileData };

    ghost view = { λ f. record { place = f.place; directory = f.directory.now; value = f.value.now } };
}

/// The entries of this name, in order.
pub(crate) fn named<'a>(
    alloc: Global,
    entries: &'a [Entry],
    name: &[u8],
) -> Result<Vec<File<'a>>, OutOfMemory>
    ensures { IfOk result (λ files. files.items ≡ named name.now entries.now) }
{
    let mut files = Vec::new(alloc);
    for (place, entry) in entries.iter().enumerate() {
        if entry.name() == name {
            files.push(File {
                place,
                directory: directory_of(entry.path()),
                value: entry.value(),
            })?;
        }
    }
    Ok(files)
}

/// Files in the order of their directories.
#[derive(Drop)]
pub(crate) struct Index<'a> {
    files: Vec<File<'a>>,
}

impl<'a> Model for Index<'a> {
    ghost use Rattle.std.specs.Prelude.{List};
    ghost use Rattle.cg_tree.specs.File.{FileData};
    ghost use Rattle.cg_tree.specs.FilesLaws.{AreInOrder};

    ghost Value = { List FileData };

    ghost view = { λ s. s.files.items };

    ghost invariant = { λ s. AreInOrder s.files.items };
}

impl<'a> Index<'a> {
    /// The entries of this name. Those of one directory keep their order.
    pub(crate) fn new(
        alloc: Global,
        entries: &'a [Entry],
        name: &[u8],
    ) -> Result<Index<'a>, OutOfMemory>
        ensures { IfOk result (λ index. (d : List ℕ) → within d index ≡ within d (named name.now entries.now)) }
    {
        let mut files = named(alloc, entries, name)?;
        files.sort_by(|a, b| a.directory.cmp(&b.directory))?;
        Ok(Index { files })
    }

    /// Those in the directory.
    pub(crate) fn within(&self, directory: &[u8]) -> &[File<'a>]
        ensures { result.now ≡ within directory.now self.now }
    {
        let files = self.files.as_slice();
        let start = files.partition_point(|file| file.directory.cmp(&directory).is_lt());
        let end = files.partition_point(|file| file.directory.cmp(&directory).is_le());
        let (front, _) = files.split_at(end);
        let (_, found) = front.split_at(start);
        found
    }

    /// Those in the directory above this one.
    pub(crate) fn above(&self, directory: &[u8]) -> &[File<'a>]
        ensures { result.now ≡ above directory.now self.now }
    {
        match directory.split_last() {
            Some((_, front)) => self.within(directory_of(front)),
            None => &[],
        }
    }
}
