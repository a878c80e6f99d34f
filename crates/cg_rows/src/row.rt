//! Rows, as a table spells them.
use crate::escape::bytes_of;
use cg_text::{ByteSet, OutOfMemory};
use std::alloc::{AllocError, AllocFailed, Global};
use std::fmt;

/// Why a line is no row.
#[derive(Clone, Copy, Debug, PartialEq, Eq)]
pub(crate) enum RowFault {
    /// It has other fields than its form.
    Fields,
    /// A byte isn't spelled by two hexadecimal digits.
    BadByte,
    /// A word isn't text, or the words ask for no such run.
    BadWord,
    /// A status is no number.
    BadStatus,
    /// A place is no number, or no byte stands there.
    BadPlace,
    OutOfMemory,
}

impl fmt::Display for RowFault {
    fn fmt<W: fmt::Write>(&self, f: &mut fmt::Formatter<W>) -> fmt::Result {
        f.write_str(match self {
            RowFault::Fields => "other fields than a row has",
            RowFault::BadByte => "a byte without two hexadecimal digits",
            RowFault::BadWord => "words that ask for no such run",
            RowFault::BadStatus => "a status that is no number",
            RowFault::BadPlace => "a place without a byte",
            RowFault::OutOfMemory => "out of memory",
        })
    }
}

impl From<AllocError> for RowFault {
    fn from(_e: AllocError) -> RowFault {
        RowFault::OutOfMemory
    }
}

impl From<OutOfMemory> for RowFault {
    fn from(_e: OutOfMemory) -> RowFault {
        RowFault::OutOfMemory
    }
}

impl<T: Drop> From<AllocFailed<T>> for RowFault {
    fn from(_e: AllocFailed<T>) -> RowFault {
        RowFault::OutOfMemory
    }
}

/// Which bytes of the input settle what is written.
#[derive(Clone, Copy, Debug, PartialEq, Eq)]
pub(crate) enum Reach {
    /// Nothing is read.
    Nothing,
    /// The byte of this place, and those before it.
    UpTo(usize),
    /// All bytes, and that they end there.
    End,
}

/// What is written, and the exit status.
#[derive(Drop)]
pub(crate) struct Told {
    pub(crate) text: Vec<u8>,
    /// Whether this is the whole text, and not only a part of it.
    pub(crate) is_whole: bool,
    pub(crate) status: u8,
    pub(crate) reach: Reach,
}

/// After how many bytes a read fails, and a write.
#[derive(Clone, Copy)]
pub(crate) struct Faults {
    pub(crate) read: usize,
    pub(crate) write: Option<usize>,
}

/// What a row says.
#[derive(Drop)]
pub(crate) enum Claim {
    /// The input is answered so.
    Ends(Told),
    /// The input is answered so where these calls fail.
    Fails(Told, Faults),
    /// These bytes may follow the input.
    GoesOn(ByteSet),
}

/// A row of a table.
#[derive(Drop)]
pub(crate) struct Row {
    pub(crate) words: Vec<String>,
    pub(crate) input: Vec<u8>,
    pub(crate) claim: Claim,
}

/// A word of a command line.
fn word_of(alloc: Global, text: &str) -> Result<String, RowFault> {
    if text == "\"\"" {
        return Ok(String::new(alloc));
    }
    let bytes = bytes_of(alloc, text)?;
    match String::from_utf8(bytes) {
        Ok(word) => Ok(word),
        Err(_) => Err(RowFault::BadWord),
    }
}

/// The words of a command line.
pub(crate) fn words_of(alloc: Global, field: &str) -> Result<Vec<String>, RowFault> {
    let mut words = Vec::new(alloc);
    for text in field.split_whitespace() {
        let word = word_of(alloc, text)?;
        words.push(word)?;
    }
    Ok(words)
}

/// The place of the byte that stops a run, if a line of the output names one. What is left out stops nothing.
fn stop_of(output: &str) -> Option<usize> {
    for line in output.strip_suffix('$')?.split('$') {
        match told_at(line) {
            None | Some(("left out", _)) => {}
            Some(("cut", _)) => return None,
            Some((_, rest)) => return rest.split(':').next()?.parse::<usize>().ok(),
        }
    }
    None
}

/// What a line tells that isn't of the input, and of which place.
fn told_at(line: &str) -> Option<(&str, &str)> {
    let (_, told) = line.split_once("cgfile: ")?;
    told.split_once(" at ")
}

/// What settles an answer.
fn reach_of(words: &str, output: &str) -> Reach {
    if words.ends_with("kinds") || output.starts_with("cgfile: not ") {
        return Reach::Nothing;
    }
    match stop_of(output) {
        Some(at) => Reach::UpTo(at),
        None => Reach::End,
    }
}

/// What is written and the status, by the fields of a row.
fn told_of(alloc: Global, words: &str, output: &str, status: &str) -> Result<Told, RowFault> {
    let Ok(status) = status.parse::<u8>() else {
        return Err(RowFault::BadStatus);
    };
    let part = output.strip_prefix('~');
    let text = bytes_of(alloc, part.unwrap_or(output))?;
    Ok(Told {
        text,
        is_whole: part.is_none(),
        status,
        reach: reach_of(words, output),
    })
}

/// The bytes of a field, or after `!` all others.
pub(crate) fn set_of(alloc: Global, field: &str) -> Result<ByteSet, RowFault> {
    let others = field.strip_prefix('!');
    let named = bytes_of(alloc, others.unwrap_or(field))?;
    let mut set = ByteSet::new();
    for byte in 0..=u8::MAX {
        if named.as_slice().contains(&byte) != others.is_some() {
            set.insert(byte);
        }
    }
    Ok(set)
}

/// What fails, by the fields of a row.
fn faults_of(read: &str, write: &str) -> Result<Faults, RowFault> {
    let Ok(read) = read.parse::<usize>() else {
        return Err(RowFault::BadPlace);
    };
    Ok(Faults {
        read,
        write: write.parse::<usize>().ok(),
    })
}

/// What the fields behind the input say.
fn claim_of(alloc: Global, words: &str, fields: &[&str]) -> Result<Claim, RowFault> {
    match fields {
        [bytes] => Ok(Claim::GoesOn(set_of(alloc, bytes)?)),
        [output, status] => Ok(Claim::Ends(told_of(alloc, words, output, status)?)),
        [output, status, read, write] => {
            let faults = faults_of(read, write)?;
            Ok(Claim::Fails(told_of(alloc, words, output, status)?, faults))
        }
        _ => Err(RowFault::Fields),
    }
}

/// The fields of a line.
pub(crate) fn fields_of(alloc: Global, line: &str) -> Result<Vec<&str>, RowFault> {
    let mut fields = Vec::new(alloc);
    for field in line.split('|') {
        fields.push(field.trim())?;
    }
    Ok(fields)
}

/// The row of these fields.
pub(crate) fn row_of(alloc: Global, fields: &[&str]) -> Result<Row, RowFault> {
    let [words, input, others @ ..] = fields else {
        return Err(RowFault::Fields);
    };
    let claim = claim_of(alloc, words, others)?;
    let words = words_of(alloc, words)?;
    let input = bytes_of(alloc, input)?;
    Ok(Row {
        words,
        input,
        claim,
    })
}
