//! What takes bytes.
ghost use Rattle.std.specs.Prelude.{ℕ, List, Option, Bool};
ghost use Rattle.cg_print.specs.Sink.{Puts};

use thiserror::Error;

/// A sink that took no byte, or a source that gave none, because it has failed.
#[derive(Clone, Copy, Debug, PartialEq, Eq, Error)]
#[error("failed")]
pub struct Failed;

/// What takes bytes, as a file or a pipe does.
pub trait Sink {
    // The bytes that it took, where they are known.
    ghost taken: { Self → Option (List ℕ) };

    // Whether it has failed.
    ghost has_failed: { Self → Bool };

    /// Takes the first bytes of `bytes`, and answers how many: at least one, where there is one.
    /// After `Err` none was taken, and the sink has failed. Of no bytes it takes none, by `Ok(0)`.
    fn put(&mut self, bytes: &[u8]) -> Result<usize, Failed>
        ensures { Puts (taken self.old) (taken self.new)
            (has_failed self.old) (has_failed self.new) bytes.now result };
}
