//! Bytes pushed to a token over a whole text.
ghost use Rattle.std.specs.Prelude.{◌≡◌, ℕ, ◌≤◌, ◌<◌, ◌+◌, [], length, take, IfNone, OnErr};
ghost use Rattle.cg_text.specs.Texts.{Lacks, TextOf};
ghost use Rattle.cg_line.specs.Rests.{IsAfter, Leaves};
ghost use Rattle.cg_line.specs.Runs.{EndsLine, LeavesRun};

use crate::reader::PushedRun;
use cg_text::{Pushed, Token, count_before};
use thiserror::Error;

/// Why a byte was not taken. The reader is unchanged, so another byte may be tried.
#[derive(Clone, Copy, Debug, PartialEq, Eq, Error)]
pub enum PushFault {
    /// No text of the kind goes on with the byte.
    #[error("the byte was refused")]
    Refused,
    /// A text of the kind goes on with the byte, but there was no memory for it.
    #[error("out of memory")]
    OutOfMemory,
}

/// Steps a token, and says why it did not take the byte.
pub(crate) fn push_to<T: Token>(text: &mut T, byte: u8) -> Result<(), PushFault>
    ensures pushed { Leaves (IsAfter T.means T.size text.old text.new) (TextOf (T.means text.old)) [] byte result }
    ensures size { T.size text.new ≤ T.size text.old + 1 }
    ensures same_size { OnErr result (T.size text.new ≡ T.size text.old) }
{
    match text.step(byte) {
        Ok(true) => Ok(()),
        Ok(false) => Err(PushFault::Refused),
        Err(_) => Err(PushFault::OutOfMemory),
    }
}

/// How many bytes stand in front of the first newline, and it; all where there is none.
#[inline(always)]
fn line_front(bytes: &[u8]) -> usize
    ensures within { result ≤ length bytes.now }
    ensures ends { EndsLine bytes.now result }
    ensures plain { (used : ℕ) → used < result → Lacks 10 (take used bytes.now) }
    ensures some { 0 < length bytes.now → 0 < result }
{
    let count = count_before(b'\n', bytes);
    if count < bytes.len() {
        count + 1
    } else {
        count
    }
}

/// Takes bytes from the front of `bytes` as `push_to` would take one after another: until a newline was taken, none is
/// left, or one is refused or memory is.
#[inline(always)]
pub(crate) fn push_run_to<T: Token>(text: &mut T, bytes: &[u8]) -> PushedRun
    ensures pushed { LeavesRun (IsAfter T.means T.size text.old text.new) (TextOf (T.means text.old)) [] bytes.now
        result }
    ensures within { result.used ≤ length bytes.now }
    ensures goes_on { IfNone result.fault (0 < length bytes.now → 0 < result.used) }
    ensures size { T.size text.new ≤ T.size text.old + result.used }
    ensures same_size { result.used ≡ 0 → T.size text.new ≡ T.size text.old }
{
    let count = line_front(bytes);
    let (line, _) = bytes.split_at(count);
    match text.push(line) {
        Pushed::All => PushedRun {
            used: count,
            fault: None,
        },
        Pushed::Refused(used) => PushedRun {
            used,
            fault: Some(PushFault::Refused),
        },
        Pushed::Starved(used) => PushedRun {
            used,
            fault: Some(PushFault::OutOfMemory),
        },
    }
}
