//! The source over a reader.
ghost use Rattle.std.specs.Prelude.{◌≡◌, false};

use crate::source::Source;
use cg_print::Failed;
use std::io::Read;

/// A source over a `Read`. An error of `read` is its failure.
#[derive(Drop)]
pub struct PlainReader<R> {
    inner: R,
    failed: bool,
    asks: u64,
}

impl<R: Read + Drop> PlainReader<R> {
    /// The source over this reader, which hasn't failed and wasn't asked.
    pub fn new(inner: R) -> PlainReader<R>
        ensures inner { result.inner ≡ inner }
        ensures fresh { result.failed ≡ false }
        ensures asks { result.asks ≡ 0 }
    {
        PlainReader {
            inner,
            failed: false,
            asks: 0,
        }
    }
}

impl<R: Read + Drop> Source for PlainReader<R> {
    ghost coming = { λ s. R.remaining s.inner };

    ghost has_failed = { λ s. s.failed };

    ghost asks = { λ s. s.asks };

    fn pull(&mut self, buffer: &mut [u8]) -> Result<usize, Failed> {
        self.asks = self.asks.saturating_add(1);
        if buffer.is_empty() {
            return Ok(0);
        }
        match self.inner.read(buffer) {
            Ok(count) => Ok(count),
            Err(_) => {
                self.failed = true;
                Err(Failed)
            }
        }
    }
}
