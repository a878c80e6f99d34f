//! A sink over a fixed array, for tests.
ghost use Rattle.std.specs.Prelude.{◌≡◌, false, [], max};

use crate::sink::{Failed, Sink};
use std::marker::Model;

/// How many bytes a `CutSink` has room for.
const ROOM: usize = 4096;

/// A sink that keeps what it takes in an array of 4096 bytes. It fails after a stated number of
/// bytes, and when it is full, and takes at most a stated number in one call.
#[derive(Drop)]
pub struct CutSink {
    held: [u8; 4096],
    len: usize,
    budget: usize,
    step: usize,
    failed: bool,
}

impl Model for CutSink {
    ghost use Rattle.std.specs.Prelude.{List, ℕ, Bool, take, ◌≤◌, ◌<◌};

    ghost Value = { List ℕ × Bool × ℕ × ℕ };

    ghost view = { λ s. (take s.len s.held, s.failed, s.budget, s.step) };

    ghost invariant = { λ s. (s.len ≤ 4096) × (0 < s.step) };
}

impl CutSink {
    /// The empty sink that fails after `budget` bytes, and takes at most `step` bytes in one call,
    /// but at least 1.
    pub fn new(budget: usize, step: usize) -> CutSink
        ensures { result ≡ ([], false, budget, max step 1) }
    {
        CutSink {
            held: [0; 4096],
            len: 0,
            budget,
            step: step.max(1),
            failed: false,
        }
    }

    /// The bytes that it took.
    pub fn bytes(&self) -> &[u8]
        ensures { result.now ≡ self.now.0 }
    {
        &self.held[..self.len]
    }
}

impl Sink for CutSink {
    ghost use Rattle.std.specs.Prelude.{Some};

    ghost taken = { λ s. Some s.0 };

    ghost has_failed = { λ s. s.1 };

    fn put(&mut self, bytes: &[u8]) -> Result<usize, Failed> {
        if bytes.is_empty() {
            return Ok(0);
        }
        let room = self.budget.min(ROOM - self.len);
        let count = bytes.len().min(self.step).min(room);
        if count == 0 {
            self.failed = true;
            return Err(Failed);
        }
        let end = self.len + count;
        self.held[self.len..end].copy_from_slice(&bytes[..count]);
        self.len = end;
        self.budget -= count;
        Ok(count)
    }
}
