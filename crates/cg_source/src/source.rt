//! What gives bytes.
ghost use Rattle.std.specs.Prelude.{◌≡◌, ℕ, List, Option, Bool};
ghost use Rattle.cg_source.specs.Source.{Pulls, ask_more};

use cg_print::Failed;

/// What gives bytes, as a file or a pipe does.
pub trait Source {
    // The bytes to come, where they are known.
    ghost coming: { Self → Option (List ℕ) };

    // Whether it has failed.
    ghost has_failed: { Self → Bool };

    // How often it was asked, which stays at the greatest number of 64 bits.
    ghost asks: { Self → ℕ };

    /// Puts the next bytes at the front of `buffer`, and answers how many: none only where none is
    /// to come. After `Err` none was given, and the source has failed. Into an empty buffer it
    /// gives none, by `Ok(0)`.
    fn pull(&mut self, buffer: &mut [u8]) -> Result<usize, Failed>
        ensures bytes { Pulls (coming self.old) (coming self.new)
            (has_failed self.old) (has_failed self.new) buffer.new result }
        ensures asks { asks self.new ≡ ask_more (asks self.old) };
}
