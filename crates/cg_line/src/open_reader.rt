//! A reader of one file of which bytes were taken.
#![tactic(auto, unfolding(crate::specs::OpenReads::open_held))]

ghost use Rattle.std.specs.Prelude.{◌≡◌, ◌≤◌, ◌<◌, ◌+◌, ◌↔◌, ℕ, List, [], ◌∷◌, ◌++◌, length, take, IsTrue, IfNone, OnErr};
ghost use Rattle.cg_value.specs.Files.{KindFile};
ghost use Rattle.cg_value.specs.declared.kind.ReadForm.{ReadForm};
ghost use Rattle.cg_line.specs.Place.{IsPlace, TakesLine};
ghost use Rattle.cg_line.specs.Rests.{Leaves};

use crate::push::{PushFault, push_run_to, push_to};
use crate::reader::PushedRun;
use crate::text::goes_on;
use cg_file::AnyFile;
use cg_value::ReadKind;
use std::alloc::Global;

/// A reader of the text of one file, which takes line bytes and newlines: the file's token, and the place among the
/// lines.
#[derive(Drop)]
pub(crate) struct OpenReader {
    pub(crate) text: AnyFile,
    /// Whether a line is begun.
    pub(crate) in_line: bool,
}

/// Whether a line is begun after the byte.
fn is_in_line(byte: u8) -> bool
    ensures { (front : List ℕ) → IsPlace result (front ++ byte ∷ []) }
{
    byte != b'\n'
}

impl OpenReader {
    ghost use Rattle.cg_line.specs.Runs.{LeavesRun};
    ghost use Rattle.cg_line.specs.OpenReads.{OpenReads, open_held};

    /// A reader of a file of this kind, of which nothing was taken. It takes no memory.
    #[inline(always)]
    pub(crate) fn new(alloc: Global, kind: ReadKind) -> OpenReader
        ensures reads { OpenReads result kind [] }
        ensures held { open_held result ≡ 0 }
    {
        OpenReader {
            text: AnyFile::new(alloc, kind),
            in_line: false,
        }
    }

    /// Takes a byte where some file of the kind goes on with it, and refuses every other.
    /// After a refusal the reader is unchanged.
    pub(crate) fn push(&mut self, byte: u8) -> Result<(), PushFault>
        ensures pushed { (kind : ReadForm) (taken : List ℕ) → OpenReads self.old kind taken →
            Leaves (OpenReads self.new kind) (KindFile kind) taken byte result }
        ensures held { open_held self.new ≤ open_held self.old + 1 }
        ensures same_held { OnErr result (open_held self.new ≡ open_held self.old) }
    {
        match push_to(&mut self.text, byte) {
            Ok(()) => {
                self.in_line = is_in_line(byte);
                Ok(())
            }
            Err(fault) => Err(fault),
        }
    }

    /// Takes bytes from the front of `bytes` as `push` would take one after another: until a newline was taken, none is
    /// left, or one is refused or memory is.
    pub(crate) fn push_run(&mut self, bytes: &[u8]) -> PushedRun
        ensures pushed { (kind : ReadForm) (taken : List ℕ) → OpenReads self.old kind taken →
            LeavesRun (OpenReads self.new kind) (KindFile kind) taken bytes.now result }
        ensures within { result.used ≤ length bytes.now }
        ensures goes_on { IfNone result.fault (0 < length bytes.now → 0 < result.used) }
        ensures held { open_held self.new ≤ open_held self.old + result.used }
        ensures same_held { result.used ≡ 0 → open_held self.new ≡ open_held self.old }
    {
        let run = push_run_to(&mut self.text, bytes);
        if run.used > 0 {
            self.in_line = is_in_line(bytes[run.used - 1]);
        }
        run
    }

    /// Whether no line is begun and another may begin. It takes no memory.
    pub(crate) fn takes_line(&self) -> bool
        ensures { (kind : ReadForm) (taken : List ℕ) → OpenReads self.now kind taken →
            (IsTrue result ↔ TakesLine kind taken) }
    {
        if self.in_line {
            return false;
        }
        goes_on(&self.text)
    }
}
