//! What comes of the bytes of a stream.

use crate::stop::Stop;

/// What bytes of a stream came to, whose parts are entries or items.
#[derive(Drop)]
pub enum Event<Part> {
    /// Nothing yet: the whole piece was consumed.
    NeedMore,
    /// A part. The last byte consumed closes it: the NUL after another path that of an entry, the newline of its record
    /// that of an item.
    Given(Part),
    /// A byte that stops the stream. It isn't consumed.
    Stopped(Stop),
    /// No memory was left for a byte, which isn't consumed.
    OutOfMemory,
}

/// What bytes of a piece came to, and how many of them were consumed.
#[derive(Drop)]
pub struct Progress<Part> {
    pub used: usize,
    pub what: Event<Part>,
}
