//! Readers of one file.
ghost use Rattle.std.specs.Prelude.{◌≡◌, ◌≤◌, ◌<◌, ◌+◌, ◌↔◌, ℕ, List, [], ◌∷◌, ◌++◌, length, take, MatchOption, MatchResult, IsTrue, IfNone, IfSome, IfOk, IfErr, OnErr};
ghost use Rattle.cg_text.specs.Bytes.{HasByte};
ghost use Rattle.cg_text.specs.Texts.{Lacks, Next};
ghost use Rattle.cg_text.specs.Token.{saturated};
ghost use Rattle.cg_value.specs.Files.{ReadLines, KindText, KindFile};
ghost use Rattle.cg_value.specs.Lines.{unlines};
ghost use Rattle.cg_value.specs.Held.{held_of_lines};
ghost use Rattle.cg_value.specs.declared.value.Value.{Value};
ghost use Rattle.cg_value.specs.declared.kind.ReadForm.{ReadForm};
ghost use Rattle.cg_line.specs.Begun.{IsFinished, IsPushFault};
ghost use Rattle.cg_line.specs.Place.{TakesLine};
ghost use Rattle.cg_line.specs.Reads.{IsState, state_held};
ghost use Rattle.cg_line.specs.Runs.{RunStops};
ghost use Rattle.cg_line.specs.OpenReads.{OpenReads, open_held};

use crate::open_reader::OpenReader;
use crate::push::PushFault;
use crate::text::allowed_by;
use crate::whole_file::WholeFile;
use cg_file::AnyFile;
use cg_text::{ByteSet, Token};
use cg_value::{ReadKind, Value};
use std::alloc::Global;
use std::fmt;
use thiserror::Error;

/// What a reader took.
#[derive(Drop)]
pub(crate) enum State {
    /// Nothing.
    New { alloc: Global, kind: ReadKind },
    /// A whole file of one line, with which no longer file of the kind begins.
    Whole(WholeFile),
    /// Other bytes.
    Open(Box<OpenReader>),
}

/// A reader of the text of one file, which takes line bytes and newlines. What it keeps of most files of one line is
/// their value; of others it is their token, which lies on the heap.
pub struct ValueReader {
    pub(crate) state: State,
}

/// Drops what the reader took. By hand, as a derived `drop` is proved anew in each crate above, with all that is below
/// it.
impl Drop for ValueReader {
    fn drop(self) {
        let ValueReader { state: _state } = self;
    }
}

/// What became of a run of bytes.
#[derive(Clone, Copy, Debug, PartialEq, Eq)]
pub struct PushedRun {
    /// How many of them were taken.
    pub used: usize,
    /// Why the next one was not. None where the last that was taken is a newline, or all were.
    pub fault: Option<PushFault>,
}

/// A reader whose bytes are no whole file, handed back.
#[derive(Drop, Error)]
#[error("no whole file")]
pub struct ReaderCut {
    pub reader: ValueReader,
}

impl fmt::Debug for ReaderCut {
    fn fmt<W: fmt::Write>(&self, f: &mut fmt::Formatter<W>) -> fmt::Result {
        f.write_str("ReaderCut")
    }
}

/// What became of a run of bytes of a reader that took nothing, and the reader that took them where some were taken.
#[derive(Drop)]
struct Begun {
    reader: Option<Box<OpenReader>>,
    run: PushedRun,
}

/// The value on the heap, if memory is left for it.
#[inline(always)]
fn boxed<T: Drop>(alloc: Global, value: T) -> Option<Box<T>>
    ensures { IfSome result (λ boxed. boxed.value ≡ value) }
{
    match Box::new(alloc, value) {
        Ok(boxed) => Some(boxed),
        Err(_) => None,
    }
}

/// The reader that took this byte alone.
#[inline(never)]
fn begin_by(alloc: Global, kind: ReadKind, byte: u8) -> Result<Box<OpenReader>, PushFault>
    ensures begun { IfOk result (λ reader. OpenReads reader.value kind (byte ∷ []) × (open_held reader.value ≤ 1)) }
    ensures fault { IfErr result (λ fault. IsPushFault kind [] byte fault) }
{
    let mut reader = OpenReader::new(alloc, kind);
    match reader.push(byte) {
        Ok(()) => match boxed(alloc, reader) {
            Some(reader) => Ok(reader),
            None => Err(PushFault::OutOfMemory),
        },
        Err(fault) => Err(fault),
    }
}

/// The reader that took bytes from the front of `bytes`, until a newline was taken, none is left, or one is refused or
/// memory is.
#[inline(never)]
fn begin_run(alloc: Global, kind: ReadKind, bytes: &[u8]) -> Begun
    ensures reader { MatchOption result.reader (result.run.used ≡ 0) (λ reader. (0 < result.run.used) ×
        OpenReads reader.value kind (take result.run.used bytes.now) × (open_held reader.value ≤ result.run.used)) }
    ensures stops { RunStops kind [] bytes.now result.run.used result.run.fault }
    ensures within { result.run.used ≤ length bytes.now }
    ensures goes_on { IfNone result.run.fault (0 < length bytes.now → 0 < result.run.used) }
{
    let mut reader = OpenReader::new(alloc, kind);
    let run = reader.push_run(bytes);
    if run.used == 0 {
        return Begun { reader: None, run };
    }
    match boxed(alloc, reader) {
        Some(reader) => Begun {
            reader: Some(reader),
            run,
        },
        None => Begun {
            reader: None,
            run: PushedRun {
                used: 0,
                fault: Some(PushFault::OutOfMemory),
            },
        },
    }
}

/// Takes the first bytes of a reader that took nothing: a whole file of one line, or what `begin_run` takes.
#[inline(never)]
fn begin(state: &mut State, alloc: Global, kind: ReadKind, bytes: &[u8]) -> PushedRun
    ensures state { IsState state.old kind [] → IsState state.new kind (take result.used bytes.now) }
    ensures stops { RunStops kind [] bytes.now result.used result.fault }
    ensures within { result.used ≤ length bytes.now }
    ensures goes_on { IfNone result.fault (0 < length bytes.now → 0 < result.used) }
    ensures held { state_held state.new ≤ state_held state.old + result.used }
    ensures same_held { result.used ≡ 0 → state_held state.new ≡ state_held state.old }
{
    if let Some((value, used)) = AnyFile::read_front(alloc, kind, bytes) {
        *state = State::Whole(WholeFile { value });
        return PushedRun { used, fault: None };
    }
    let Begun { reader, run } = begin_run(alloc, kind, bytes);
    if let Some(reader) = reader {
        *state = State::Open(reader);
    }
    run
}

/// What a run of bytes does after a whole file with which no other goes on: nothing.
fn refuse(bytes: &[u8]) -> PushedRun
    ensures used { result.used ≡ 0 }
    ensures stops { (kind : ReadForm) (taken : List ℕ) → ((byte : ℕ) → Next (KindFile kind) taken byte → ⊥) →
        RunStops kind taken bytes.now result.used result.fault }
    ensures goes_on { IfNone result.fault (0 < length bytes.now → 0 < result.used) }
{
    PushedRun {
        used: 0,
        fault: if bytes.is_empty() {
            None
        } else {
            Some(PushFault::Refused)
        },
    }
}

/// Whether a file of the kind may have a line.
#[inline(never)]
fn begins_line(alloc: Global, kind: ReadKind) -> bool
    ensures { IsTrue result ↔ TakesLine kind [] }
{
    OpenReader::new(alloc, kind).takes_line()
}

/// The bytes with which some file of the kind begins.
#[inline(never)]
fn first_allowed(alloc: Global, kind: ReadKind) -> ByteSet
    ensures { (byte : ℕ) → HasByte result byte ↔ Next (KindFile kind) [] byte }
{
    allowed_by(&OpenReader::new(alloc, kind).text)
}

/// Whether there is a file of the kind of no bytes.
#[inline(never)]
fn may_be_empty(alloc: Global, kind: ReadKind) -> bool
    ensures { IsTrue result ↔ KindFile kind [] }
{
    OpenReader::new(alloc, kind).text.can_end()
}

/// The value of the file of the kind of no bytes, if there is one.
#[inline(never)]
fn empty_value(alloc: Global, kind: ReadKind) -> Option<Value>
    ensures { MatchOption result (KindFile kind [] → ⊥) (λ v. KindText kind v []) }
{
    let text = OpenReader::new(alloc, kind).text;
    if text.can_end() {
        Some(text.take())
    } else {
        None
    }
}

/// The value of a whole file, or else the reader.
#[inline(never)]
fn finish_open(reader: Box<OpenReader>) -> Result<Value, State>
    ensures { (kind : ReadForm) (taken : List ℕ) → OpenReads reader.value kind taken →
        IsFinished kind taken (State.Open reader) result }
{
    if reader.text.can_end() {
        Ok(Box::into_inner(reader).text.take())
    } else {
        Err(State::Open(reader))
    }
}

/// The value of a whole file, or else the state.
#[inline(always)]
fn finish_state(state: State) -> Result<Value, State>
    ensures { (kind : ReadForm) (taken : List ℕ) → IsState state kind taken → IsFinished kind taken state result }
{
    match state {
        State::New { alloc, kind } => match empty_value(alloc, kind) {
            Some(value) => Ok(value),
            None => Err(State::New { alloc, kind }),
        },
        State::Whole(file) => Ok(file.value),
        State::Open(reader) => finish_open(reader),
    }
}

impl ValueReader {
    ghost use Rattle.cg_line.specs.Reads.{Reads, IsPushed, held_by};
    ghost use Rattle.cg_line.specs.Runs.{IsPushedRun};

    /// A reader of a file of this kind, of which nothing was taken. It takes no memory.
    pub fn new(alloc: Global, kind: ReadKind) -> ValueReader
        ensures reads { Reads result kind [] }
        ensures held { held_by result ≡ 0 }
    {
        let _form = kind.form();
        ValueReader {
            state: State::New { alloc, kind },
        }
    }

    /// Takes a byte where some file of the kind goes on with it, and refuses every other.
    /// After a refusal the reader is unchanged.
    pub fn push(&mut self, byte: u8) -> Result<(), PushFault>
        ensures pushed { (kind : ReadForm) (taken : List ℕ) → Reads self.old kind taken →
            IsPushed self.new kind taken byte result }
        ensures held { held_by self.new ≤ held_by self.old + 1 }
        ensures same_held { OnErr result (held_by self.new ≡ held_by self.old) }
    {
        match &mut self.state {
            State::New { alloc, kind } => match begin_by(*alloc, *kind, byte) {
                Ok(reader) => {
                    self.state = State::Open(reader);
                    Ok(())
                }
                Err(fault) => Err(fault),
            },
            State::Whole(_) => Err(PushFault::Refused),
            State::Open(reader) => reader.push(byte),
        }
    }

    /// Takes bytes from the front of `bytes` as `push` would take one after another: until a newline was taken, none is
    /// left, or one is refused or memory is.
    #[inline(always)]
    pub fn push_run(&mut self, bytes: &[u8]) -> PushedRun
        ensures pushed { (kind : ReadForm) (taken : List ℕ) → Reads self.old kind taken →
            IsPushedRun self.new kind taken bytes.now result }
        ensures within { result.used ≤ length bytes.now }
        ensures goes_on { IfNone result.fault (0 < length bytes.now → 0 < result.used) }
        ensures held { held_by self.new ≤ held_by self.old + result.used }
        ensures same_held { result.used ≡ 0 → held_by self.new ≡ held_by self.old }
    {
        match &mut self.state {
            State::New { alloc, kind } => {
                let (alloc, kind) = (*alloc, *kind);
                begin(&mut self.state, alloc, kind, bytes)
            }
            State::Whole(_) => refuse(bytes),
            State::Open(reader) => reader.push_run(bytes),
        }
    }

    /// Whether no line is begun and another may begin. It takes no memory.
    pub fn takes_line(&self) -> bool
        ensures { (kind : ReadForm) (taken : List ℕ) → Reads self.now kind taken →
            (IsTrue result ↔ TakesLine kind taken) }
    {
        match &self.state {
            State::New { alloc, kind } => begins_line(*alloc, *kind),
            State::Whole(_) => false,
            State::Open(reader) => reader.takes_line(),
        }
    }

    /// Whether the bytes so far are a whole file. It takes no memory.
    pub fn can_finish(&self) -> bool
        ensures { (kind : ReadForm) (taken : List ℕ) → Reads self.now kind taken →
            (IsTrue result ↔ KindFile kind taken) }
    {
        match &self.state {
            State::New { alloc, kind } => may_be_empty(*alloc, *kind),
            State::Whole(_) => true,
            State::Open(reader) => reader.text.can_end(),
        }
    }

    /// The bytes with which some file of the kind goes on. It takes no memory.
    pub fn allowed(&self) -> ByteSet
        ensures { (kind : ReadForm) (taken : List ℕ) → Reads self.now kind taken → (byte : ℕ) → HasByte result byte ↔
            Next (KindFile kind) taken byte }
    {
        match &self.state {
            State::New { alloc, kind } => first_allowed(*alloc, *kind),
            State::Whole(_) => ByteSet::new(),
            State::Open(reader) => allowed_by(&reader.text),
        }
    }

    /// The sum of the lengths of its vectors, or `u64::MAX` where that is more. It takes no memory.
    pub fn held(&self) -> u64
        ensures exact { result ≡ saturated (held_by self.now) }
        ensures few { (kind : ReadForm) (taken : List ℕ) → Reads self.now kind taken → held_by self.now ≤ length taken }
        ensures most { (kind : ReadForm) (lines : List (List ℕ)) (line : List ℕ) (v : Value) →
            Reads self.now kind (unlines lines ++ line) → Lacks 10 line → ReadLines kind v lines →
            held_by self.now ≤ held_of_lines v lines + length line }
    {
        match &self.state {
            State::New { .. } => 0,
            State::Whole(_) => 0,
            State::Open(reader) => reader.text.held(),
        }
    }

    /// The value of a whole file, and none of other bytes, where the reader isn't wanted again. It takes no memory.
    #[inline(always)]
    pub fn into_value(self) -> Option<Value>
        ensures { (kind : ReadForm) (taken : List ℕ) → Reads self kind taken →
            MatchOption result (KindFile kind taken → ⊥) (λ v. KindText kind v taken) }
    {
        match self.finish() {
            Ok(value) => Some(value),
            Err(_) => None,
        }
    }

    /// The value of a whole file, or else the reader. It takes no memory.
    #[inline(always)]
    pub fn finish(self) -> Result<Value, ReaderCut>
        ensures { (kind : ReadForm) (taken : List ℕ) → Reads self kind taken →
            MatchResult result (λ v. KindText kind v taken) (λ cut. (cut.reader ≡ self) × (KindFile kind taken → ⊥)) }
    {
        let ValueReader { state } = self;
        match finish_state(state) {
            Ok(value) => Ok(value),
            Err(state) => Err(ReaderCut {
                reader: ValueReader { state },
            }),
        }
    }
}
