//! Snapshots that are read in pieces, shown, and written back.
use cg_print::{append_entry, print_shown};
use cg_snap::{Event, Limits, SnapshotDecoder};
use cg_text::OutOfMemory;
use cg_value::{Entry, Profile};
use std::alloc::Global;
use std::{fs, io};

/// How many bytes a piece has.
const STEPS: [usize; 3] = [1, 7, 65536];

/// What became of a snapshot.
#[derive(Drop)]
enum Fate {
    Same,
    /// Its records are written otherwise.
    Other,
    /// Its lines are shown otherwise.
    ShownOtherwise,
    Unread,
    OutOfMemory,
}

/// What is written of the entries that came.
#[derive(Drop)]
struct Texts {
    records: Vec<u8>,
    shown: Vec<u8>,
}

/// Adds the texts of an entry.
fn add_texts(alloc: Global, texts: &mut Texts, entry: &Entry) -> Result<(), OutOfMemory> {
    append_entry(&mut texts.records, entry)?;
    let shown = print_shown(alloc, entry)?;
    texts.shown.extend_from_slice(shown.as_slice())?;
    Ok(())
}

/// Adds the texts of an entry, which is dropped.
fn add_entry(alloc: Global, texts: &mut Texts, entry: Entry) -> Result<(), OutOfMemory> {
    add_texts(alloc, texts, &entry)
}

/// Hands a piece to the decoder. The answer is whether all of it was consumed.
fn take_piece(
    alloc: Global,
    decoder: &mut SnapshotDecoder,
    piece: &[u8],
    texts: &mut Texts,
) -> Result<bool, OutOfMemory> {
    let mut used = 0;
    while used < piece.len() {
        let (_, rest) = piece.split_at(used);
        let pulled = decoder.next(rest);
        used += pulled.used;
        match pulled.what {
            Event::NeedMore => {}
            Event::Given(entry) => add_entry(alloc, texts, entry)?,
            Event::Stopped(_) => return Ok(false),
            Event::OutOfMemory => return Err(OutOfMemory),
        }
    }
    Ok(true)
}

/// The texts of a snapshot that is read in pieces of this length, if it is one.
fn texts_of(
    alloc: Global,
    profile: Profile,
    bytes: &[u8],
    step: usize,
) -> Result<Option<Texts>, OutOfMemory> {
    let mut decoder = SnapshotDecoder::new(alloc, profile, Limits::DEFAULT);
    let mut texts = Texts {
        records: Vec::new(alloc),
        shown: Vec::new(alloc),
    };
    for piece in bytes.chunks(step.max(1)) {
        if !take_piece(alloc, &mut decoder, piece, &mut texts)? {
            return Ok(None);
        }
    }
    match decoder.finish() {
        Ok(Some(entry)) => add_entry(alloc, &mut texts, entry)?,
        Ok(None) => {}
        Err(_) => return Ok(None),
    }
    Ok(Some(texts))
}

/// The bytes with a colon and a space in place of each NUL.
fn without_nul(alloc: Global, bytes: &[u8]) -> Result<Vec<u8>, OutOfMemory> {
    let mut text = Vec::new(alloc);
    for byte in bytes {
        if *byte == 0 {
            text.extend_from_slice(b": ")?;
        } else {
            text.push(*byte)?;
        }
    }
    Ok(text)
}

/// What becomes of a snapshot in pieces of this length.
fn fate_of(
    alloc: Global,
    profile: Profile,
    bytes: &[u8],
    step: usize,
) -> Result<Fate, OutOfMemory> {
    let Some(texts) = texts_of(alloc, profile, bytes, step)? else {
        return Ok(Fate::Unread);
    };
    let wanted = without_nul(alloc, bytes)?;
    if texts.records.as_slice() != bytes {
        return Ok(Fate::Other);
    }
    if texts.shown.as_slice() != wanted.as_slice() {
        return Ok(Fate::ShownOtherwise);
    }
    Ok(Fate::Same)
}

/// Whether a snapshot is given back byte for byte, whatever the pieces. Prints a line where it isn't.
pub(crate) fn is_given_back(rt: &HostRuntime, profile: Profile, copy: &str) -> io::Result<bool> {
    let bytes = fs::read(rt, copy)?;
    for step in STEPS {
        let fate = fate_of(rt.alloc(), profile, bytes.as_slice(), step);
        match fate.unwrap_or(Fate::OutOfMemory) {
            Fate::Same => continue,
            Fate::Other => println!(rt; "{copy}: written otherwise")?,
            Fate::ShownOtherwise => println!(rt; "{copy}: shown otherwise")?,
            Fate::Unread => println!(rt; "{copy}: no snapshot")?,
            Fate::OutOfMemory => println!(rt; "{copy}: out of memory")?,
        }
        return Ok(false);
    }
    Ok(true)
}
