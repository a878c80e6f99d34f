//! A source over an array that is lent, for tests.
ghost use Rattle.std.specs.Prelude.{◌≡◌, ◌<◌, false, max};

use crate::source::Source;
use cg_print::Failed;

/// A source that gives the bytes of an array. It fails after a stated number of bytes, gives at
/// most a stated number in one call, and answers 0 where its array ends before its failure, so a
/// source that is to end has a number above the array's length.
#[derive(Drop)]
pub struct CutSource<'a> {
    rest: &'a [u8],
    budget: usize,
    step: usize,
    failed: bool,
    asks: u64,
    ghost moves: { 0 < step },
}

impl<'a> CutSource<'a> {
    /// The source of these bytes that fails after `budget` of them, and gives at most `step` bytes
    /// in one call, but at least 1.
    pub fn new(rest: &'a [u8], budget: usize, step: usize) -> CutSource<'a>
        ensures rest { result.rest ≡ rest.entry }
        ensures fresh { result.failed ≡ false }
        ensures asks { result.asks ≡ 0 }
        ensures budget { result.budget ≡ budget }
        ensures step { result.step ≡ max step 1 }
    {
        CutSource {
            rest,
            budget,
            step: step.max(1),
            failed: false,
            asks: 0,
        }
    }

    /// How often it was asked, which stays at `u64::MAX`.
    pub fn asks(&self) -> u64
        ensures { result ≡ self.now.asks }
    {
        self.asks
    }
}

impl<'a> Source for CutSource<'a> {
    ghost use Rattle.std.specs.Prelude.{Some};

    ghost coming = { λ s. Some s.rest.now };

    ghost has_failed = { λ s. s.failed };

    ghost asks = { λ s. s.asks };

    fn pull(&mut self, buffer: &mut [u8]) -> Result<usize, Failed> {
        self.asks = self.asks.saturating_add(1);
        if buffer.is_empty() {
            return Ok(0);
        }
        if self.budget == 0 {
            self.failed = true;
            return Err(Failed);
        }
        if self.rest.is_empty() {
            return Ok(0);
        }
        let room = buffer.len().min(self.step).min(self.budget);
        let count = room.min(self.rest.len());
        let (front, rest) = self.rest.split_at(count);
        buffer[..count].copy_from_slice(front);
        self.rest = rest;
        self.budget -= count;
        Ok(count)
    }
}
