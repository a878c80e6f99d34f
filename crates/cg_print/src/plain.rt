//! The sink over a writer.
ghost use Rattle.std.specs.Prelude.{◌≡◌, false};

use crate::sink::{Failed, Sink};
use std::io::Write;

/// A sink over a `Write`. An error of `write`, and a `write` that takes no byte, is its failure.
#[derive(Drop)]
pub struct PlainWriter<W> {
    inner: W,
    failed: bool,
}

impl<W: Write + Drop> PlainWriter<W> {
    /// The sink over this writer, which hasn't failed.
    pub fn new(inner: W) -> PlainWriter<W>
        ensures inner { result.inner ≡ inner }
        ensures fresh { result.failed ≡ false }
    {
        PlainWriter {
            inner,
            failed: false,
        }
    }
}

impl<W: Write + Drop> Sink for PlainWriter<W> {
    ghost taken = { λ s. W.contents s.inner };

    ghost has_failed = { λ s. s.failed };

    fn put(&mut self, bytes: &[u8]) -> Result<usize, Failed> {
        if bytes.is_empty() {
            return Ok(0);
        }
        match self.inner.write(bytes) {
            Ok(0) => {
                self.failed = true;
                Err(Failed)
            }
            Ok(count) => Ok(count),
            Err(_) => {
                self.failed = true;
                Err(Failed)
            }
        }
    }
}
