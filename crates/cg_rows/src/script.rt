//! What a text leads to byte by byte, as a row spells it.
use crate::asked::{Asked, asked_by};
use crate::escape::bytes_of;
use crate::row::{RowFault, words_of};
use cg_snap::{Stop, Why};
use std::alloc::{AllocError, Global};
use std::fmt;

/// What a mark tells.
#[derive(Clone, Copy, Debug, PartialEq, Eq)]
pub(crate) enum Sign {
    /// Once so many bytes came, a text is given.
    Given,
    /// Where the text ends after so many bytes, this is the rest that is given.
    Ends,
    /// The byte of this place stops it, or its end.
    Stops,
    /// Nothing came yet.
    More,
    /// What no row wants.
    Wrong,
}

impl fmt::Display for Sign {
    fn fmt<W: fmt::Write>(&self, f: &mut fmt::Formatter<W>) -> fmt::Result {
        f.write_str(match self {
            Sign::Given => ">",
            Sign::Ends => "=",
            Sign::Stops => "!",
            Sign::More => "+",
            Sign::Wrong => "?",
        })
    }
}

/// Adds a mark.
pub(crate) fn add_mark(
    log: &mut Vec<u8>,
    sign: Sign,
    place: u64,
    text: &[u8],
) -> Result<(), AllocError> {
    let alloc = *log.allocator();
    let front = format!(in alloc; "|{sign} {place} ")?;
    log.extend_from_slice(front.as_bytes())?;
    log.extend_from_slice(text)?;
    Ok(())
}

/// The words of a refusal.
fn words_of_why(why: Why) -> &'static [u8] {
    match why {
        Why::PathByte => b"path byte",
        Why::NoName => b"no name",
        Why::NotReadable => b"not readable",
        Why::NotWritable => b"not writable",
        Why::NoMoreLines => b"no more lines",
        Why::Line => b"line",
    }
}

/// Where a stop is, and its words.
pub(crate) fn told(stop: Stop) -> (u64, &'static [u8]) {
    match stop {
        Stop::Refused { at, why } => (at, words_of_why(why)),
        Stop::TooLong { at } => (at, b"record too long"),
        Stop::TooMany { at } => (at, b"too many lines"),
        Stop::TooMuch { at } => (at, b"stream too long"),
        Stop::Cut { at } => (at, b"cut"),
    }
}

/// A mark of a row.
#[derive(Drop)]
pub(crate) struct Mark {
    pub(crate) sign: Sign,
    pub(crate) place: u64,
    pub(crate) text: Vec<u8>,
}

/// The mark that a field spells.
pub(crate) fn mark_of(alloc: Global, field: &str) -> Result<Mark, RowFault> {
    let (letter, rest) = field.split_once(' ').ok_or(RowFault::Fields)?;
    let (digits, text) = rest.split_once(' ').unwrap_or((rest, ""));
    let sign = match letter {
        ">" => Sign::Given,
        "=" => Sign::Ends,
        "!" => Sign::Stops,
        "+" => Sign::More,
        _ => Sign::Wrong,
    };
    let Ok(place) = digits.parse::<u64>() else {
        return Err(RowFault::BadPlace);
    };
    let text = bytes_of(alloc, text)?;
    Ok(Mark { sign, place, text })
}

/// A text, what takes it, and what it leads to.
#[derive(Drop)]
pub(crate) struct Script {
    pub(crate) asked: Asked,
    pub(crate) text: Vec<u8>,
    marks: Vec<Mark>,
}

/// What the words of a field ask for.
pub(crate) fn asked_of(alloc: Global, field: &str) -> Result<Asked, RowFault> {
    let words = words_of(alloc, field)?;
    match asked_by(alloc, words.as_slice()) {
        Ok(asked) => Ok(asked),
        Err(_) => Err(RowFault::BadWord),
    }
}

/// The marks that fields spell.
fn marks_of(alloc: Global, fields: &[&str]) -> Result<Vec<Mark>, RowFault> {
    let mut marks = Vec::new(alloc);
    for field in fields {
        let mark = mark_of(alloc, field)?;
        marks.push(mark)?;
    }
    Ok(marks)
}

/// The script of the fields of a row.
pub(crate) fn script_of(alloc: Global, fields: &[&str]) -> Result<Script, RowFault> {
    let [words, text, others @ ..] = fields else {
        return Err(RowFault::Fields);
    };
    let asked = asked_of(alloc, words)?;
    let text = bytes_of(alloc, text)?;
    let marks = marks_of(alloc, others)?;
    Ok(Script { asked, text, marks })
}

impl Mark {
    /// Whether a run over the first `len` bytes has it.
    fn stands(&self, len: u64) -> bool {
        match self.sign {
            Sign::Given => self.place <= len,
            Sign::Ends => self.place == len,
            Sign::Stops => self.place < len,
            Sign::More | Sign::Wrong => true,
        }
    }
}

impl Script {
    /// The marks of a run over the first `len` bytes. The text is cut where no mark tells another end.
    pub(crate) fn wanted(&self, alloc: Global, len: usize) -> Result<Vec<u8>, AllocError> {
        let len = len as u64;
        let mut log = Vec::new(alloc);
        let mut is_ended = false;
        for mark in self.marks.iter() {
            if mark.stands(len) {
                add_mark(&mut log, mark.sign, mark.place, mark.text.as_slice())?;
                is_ended = mark.sign != Sign::Given;
            }
        }
        if !is_ended {
            add_mark(&mut log, Sign::Stops, len, b"cut")?;
        }
        Ok(log)
    }

    /// How many bytes come before the one that stops it.
    pub(crate) fn viable_len(&self) -> usize {
        for mark in self.marks.iter() {
            if mark.sign == Sign::Stops {
                let place = usize::try_from(mark.place).unwrap_or(usize::MAX);
                return place.min(self.text.len());
            }
        }
        self.text.len()
    }
}
