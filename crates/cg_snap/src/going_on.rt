//! What is told of a snapshot of which what is at fault is left out.

use crate::stop::Why;
use cg_text::Items;
use cg_value::Entry;
use thiserror::Error;

/// What is wrong with a block that is left out.
#[derive(Clone, Copy, Debug, PartialEq, Eq, Error)]
pub enum Cause {
    /// A byte after which no snapshot goes on.
    #[error("{0}")]
    Refused(Why),
    /// A record that is longer than its limit.
    #[error("record too long")]
    TooLong,
    /// More records of one path than their limit.
    #[error("too many lines")]
    TooMany,
}

/// A block that is left out: the lines of one path, or a line that has none.
#[derive(Debug, Drop)]
pub struct LeftOut {
    /// The place in the stream of the byte at fault.
    pub at: u64,
    /// The path of its lines, if they have one.
    pub path: Option<Items<u8>>,
    pub cause: Cause,
}

/// What a byte of a stream tells that is gone on with: the entry that it closes, what it makes be left out, or both, of
/// which the entry comes first.
#[derive(Debug, Drop)]
pub struct Found {
    pub entry: Option<Entry>,
    pub left_out: Option<LeftOut>,
    /// How many bytes the lines of the entry are, and how many came behind them.
    pub size: u64,
    pub behind: u64,
}
