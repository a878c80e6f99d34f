//! Readers of one write.
#![tactic(auto, unfolding(crate::specs::SettingReads::held_of))]

ghost use Rattle.std.specs.Prelude.{◌≡◌, ◌≤◌, ◌<◌, ◌+◌, ◌↔◌, ℕ, List, [], length, MatchResult, IsTrue, IfNone, OnErr};
ghost use Rattle.cg_text.specs.Bytes.{HasByte};
ghost use Rattle.cg_text.specs.Texts.{Next};
ghost use Rattle.cg_text.specs.Token.{saturated};
ghost use Rattle.cg_value.specs.Settings.{WriteText, KindWrite};
ghost use Rattle.cg_value.specs.declared.kind.WriteForm.{WriteForm};

use crate::push::{PushFault, push_run_to, push_to};
use crate::reader::PushedRun;
use crate::text::allowed_by;
use cg_text::{ByteSet, Token};
use cg_value::{Setting, WriteKind};
use cg_write::AnyWrite;
use std::alloc::Global;
use std::fmt;
use thiserror::Error;

/// A reader of the text of one write, which takes the bytes of its line and its newline.
pub struct SettingReader {
    text: AnyWrite,
}

/// Drops what the reader took. By hand, as a derived `drop` is proved anew in each crate above.
impl Drop for SettingReader {
    fn drop(self) {
        let SettingReader { text: _text } = self;
    }
}

/// A reader whose bytes are no whole write, handed back.
#[derive(Drop, Error)]
#[error("no whole write")]
pub struct SettingCut {
    pub reader: SettingReader,
}

impl fmt::Debug for SettingCut {
    fn fmt<W: fmt::Write>(&self, f: &mut fmt::Formatter<W>) -> fmt::Result {
        f.write_str("SettingCut")
    }
}

impl SettingReader {
    ghost use Rattle.cg_line.specs.SettingReads.{SettingReads, IsBytePushed, IsRunPushed, held_of};

    /// A reader of a write of this kind, of which nothing was taken. It takes no memory.
    pub fn new(alloc: Global, kind: WriteKind) -> SettingReader
        ensures takes { SettingReads result kind [] }
        ensures held { held_of result ≡ 0 }
    {
        SettingReader {
            text: AnyWrite::new(alloc, kind),
        }
    }

    /// Takes a byte where some write of the kind goes on with it, and refuses every other.
    /// After a refusal the reader is unchanged.
    pub fn push(&mut self, byte: u8) -> Result<(), PushFault>
        ensures pushed { (kind : WriteForm) (taken : List ℕ) → SettingReads self.old kind taken →
            IsBytePushed self.new kind taken byte result }
        ensures held { held_of self.new ≤ held_of self.old + 1 }
        ensures same_held { OnErr result (held_of self.new ≡ held_of self.old) }
    {
        push_to(&mut self.text, byte)
    }

    /// Takes bytes from the front of `bytes` as `push` would take one after another: until a newline was taken, none is
    /// left, or one is refused or memory is.
    pub fn push_run(&mut self, bytes: &[u8]) -> PushedRun
        ensures pushed { (kind : WriteForm) (taken : List ℕ) → SettingReads self.old kind taken →
            IsRunPushed self.new kind taken bytes.now result }
        ensures within { result.used ≤ length bytes.now }
        ensures goes_on { IfNone result.fault (0 < length bytes.now → 0 < result.used) }
        ensures held { held_of self.new ≤ held_of self.old + result.used }
        ensures same_held { result.used ≡ 0 → held_of self.new ≡ held_of self.old }
    {
        push_run_to(&mut self.text, bytes)
    }

    /// Whether the bytes so far are a whole write. It takes no memory.
    pub fn can_finish(&self) -> bool
        ensures { (kind : WriteForm) (taken : List ℕ) → SettingReads self.now kind taken →
            (IsTrue result ↔ KindWrite kind taken) }
    {
        self.text.can_end()
    }

    /// The bytes with which some write of the kind goes on. It takes no memory.
    pub fn allowed(&self) -> ByteSet
        ensures { (kind : WriteForm) (taken : List ℕ) → SettingReads self.now kind taken → (byte : ℕ) → HasByte result
            byte ↔
            Next (KindWrite kind) taken byte }
    {
        allowed_by(&self.text)
    }

    /// The sum of the lengths of its vectors, or `u64::MAX` where that is more. It takes no memory.
    pub fn held(&self) -> u64
        ensures exact { result ≡ saturated (held_of self.now) }
        ensures most { (kind : WriteForm) (taken : List ℕ) → SettingReads self.now kind taken →
            held_of self.now ≤ length taken }
    {
        self.text.held()
    }

    /// The setting of a whole write, or else the reader. It takes no memory.
    pub fn finish(self) -> Result<Setting, SettingCut>
        ensures { (kind : WriteForm) (taken : List ℕ) → SettingReads self kind taken →
            MatchResult result (λ s. WriteText kind s taken)
            (λ cut. (cut.reader ≡ self) × (KindWrite kind taken → ⊥)) }
    {
        let SettingReader { text } = self;
        if text.can_end() {
            Ok(text.take())
        } else {
            Err(SettingCut {
                reader: SettingReader { text },
            })
        }
    }
}
