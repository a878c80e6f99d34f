//! The entry whose records come.
ghost use Rattle.cg_snap.specs.Sound.{IsSound};

use cg_line::ValueReader;

/// The entry whose records come.
#[derive(Drop)]
pub(crate) struct CurrentEntry {
    pub(crate) path: Vec<u8>,
    pub(crate) reader: ValueReader,
    /// How many of its records have ended, or `u64::MAX` where that is more.
    pub(crate) lines: u64,
    /// Whether the NUL of a further record came.
    pub(crate) in_line: bool,
    ghost sound: { IsSound path.items reader },
}
