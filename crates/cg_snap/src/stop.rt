//! Why a stream stopped, and where.

use thiserror::Error;

/// Which rule of the grammar a byte breaks.
#[derive(Clone, Copy, Debug, PartialEq, Eq, Error)]
pub enum Why {
    /// A newline in a path.
    #[error("path byte")]
    PathByte,
    /// A NUL after a path that has no name.
    #[error("no name")]
    NoName,
    /// A NUL after the path of a file that can't be read.
    #[error("not readable")]
    NotReadable,
    /// A NUL after the path of a file that can't be written.
    #[error("not writable")]
    NotWritable,
    /// A NUL after the present entry's path, where its file takes no further line.
    #[error("no more lines")]
    NoMoreLines,
    /// A byte of a line.
    #[error("line")]
    Line,
}

/// Where a stream stopped: the place of the byte at fault, counted from 0, or its length.
#[derive(Clone, Copy, Debug, PartialEq, Eq, Error)]
pub enum Stop {
    /// After this byte no text of the grammar continues.
    #[error("refused at {at}: {why}")]
    Refused { at: u64, why: Why },
    /// With this byte its record is longer than the limit.
    #[error("record too long at {at}")]
    TooLong { at: u64 },
    /// With the record that this NUL begins the entry has more records than the limit.
    #[error("too many lines at {at}")]
    TooMany { at: u64 },
    /// The byte's place is the limit of the whole stream.
    #[error("stream too long at {at}")]
    TooMuch { at: u64 },
    /// The stream ended before its text did.
    #[error("cut at {at}")]
    Cut { at: u64 },
}
