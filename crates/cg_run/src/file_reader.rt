//! What reads one file, and keeps its text. A file is the canonical text of what it spells, so nothing is printed.
ghost use Rattle.std.specs.Prelude.{◌≡◌, ◌↔◌, ◌<◌, ℕ, List, [], length, IfNone, IsTrue};
ghost use Rattle.cg_value.specs.declared.kind.ReadForm.{ReadForm};
ghost use Rattle.cg_line.specs.Reads.{Reads, held_by};
ghost use Rattle.cg_line.specs.Runs.{RunStops};
ghost use Rattle.cg_run.specs.FileReader.{lines_alone};

use cg_line::{PushFault, PushedRun, ValueReader};
use cg_print::print_file;
use cg_source::{TextReader, front_of};
use cg_text::{ByteSet, OutOfMemory};
use cg_value::{ReadForm, ReadKind, Value};
use std::alloc::Global;

/// How many bytes at least are taken by one reader, before what they spell is let go of.
const ROOM: usize = 16384;

/// A reader of one file, and the bytes that it took. The value of the file is not wanted, so where lines don't depend
/// on one another, the reader is made anew at the end of a line every now and then, and holds no more than the lines
/// since then.
#[derive(Drop)]
pub(crate) struct FileReader {
    alloc: Global,
    kind: ReadKind,
    reader: ValueReader,
    text: Vec<u8>,
    /// How many bytes of the text were taken before the reader was made.
    before: usize,
}

/// Whether the lines of the kind's files don't depend on one another.
fn has_lines_alone(kind: ReadKind) -> bool
    ensures { result ≡ lines_alone kind }
{
    match kind.form() {
        ReadForm::Numbers { lo: _, hi: _ } => true,
        ReadForm::DeviceStats { kernel: _ } => true,
        ReadForm::DeviceLimits { kernel: _ } => true,
        ReadForm::DeviceTargets { kernel: _ } => true,
        ReadForm::DeviceParams => true,
        ReadForm::Raw => true,
        _ => false,
    }
}

/// No byte is taken, since no memory is left to keep it; or since no file goes on with it, where that is so.
fn starved(reader: &ValueReader, bytes: &[u8]) -> PushedRun
    requires { 0 < length bytes.now }
    ensures stops { (kind : ReadForm) (taken : List ℕ) → Reads reader.now kind taken →
        RunStops kind taken bytes.now 0 result.fault }
    ensures none { result.used ≡ 0 }
    ensures goes_on { IfNone result.fault (0 < result.used) }
{
    let fault = if reader.allowed().contains(bytes[0]) {
        PushFault::OutOfMemory
    } else {
        PushFault::Refused
    };
    PushedRun {
        used: 0,
        fault: Some(fault),
    }
}

impl FileReader {
    ghost use Rattle.cg_run.specs.FileReader.{HasKept, IsDue, IsLetGo, IsSettled};

    /// A reader of a file of this kind, of which nothing was taken. It takes no memory.
    pub(crate) fn new(alloc: Global, kind: ReadKind) -> FileReader
        ensures { IsSettled result kind [] }
    {
        FileReader {
            alloc,
            kind,
            reader: ValueReader::new(alloc, kind),
            text: Vec::new(alloc),
            before: 0,
        }
    }

    /// Whether the reader is to be made anew: it took enough, and a line of a kind whose lines don't depend on one
    /// another has ended.
    fn is_due(&self) -> bool
        ensures { (kind : ReadForm) (taken : List ℕ) → HasKept self.now kind taken →
            (IsTrue result ↔ IsDue self.now kind taken) }
    {
        let since = self.text.len().saturating_sub(self.before);
        if since < ROOM {
            return false;
        }
        has_lines_alone(self.kind) && self.reader.can_finish()
    }

    /// Makes the reader anew, so that what the bytes spell is let go of. It is a function of its own, since the room
    /// for a new reader is cleared whenever a function that makes one is entered.
    #[inline(never)]
    fn renew(&mut self)
        ensures kept { (kind : ReadForm) (taken : List ℕ) → HasKept self.old kind taken → IsLetGo kind taken →
            HasKept self.new kind taken }
        ensures all { (kind : ReadForm) (taken : List ℕ) → HasKept self.old kind taken →
            self.new.before ≡ length taken }
        ensures none { held_by self.new.reader ≡ 0 }
    {
        self.before = self.text.len();
        self.reader = ValueReader::new(self.alloc, self.kind);
    }
}

impl TextReader for FileReader {
    type Grammar = ReadForm;

    type Spelled = Value;

    ghost use Rattle.cg_run.specs.FileReader.{IsSettled, settled_viable};
    ghost use Rattle.cg_value.specs.Files.{KindText};
    ghost use Rattle.cg_value.specs.Print.{print_of};

    ghost text = { λ form text v. KindText form v text };

    ghost printed = { print_of };

    ghost took = { IsSettled };

    ghost viable = { settled_viable };

    fn take_run(&mut self, bytes: &[u8], room: u64) -> PushedRun {
        let front = front_of(bytes, room);
        if self.text.try_reserve(front.len()).is_err() {
            return starved(&self.reader, front);
        }
        let run = self.reader.push_run(front);
        let (taken, _) = front.split_at(run.used);
        match self.text.extend_from_slice(taken) {
            Ok(()) => {}
            Err(_) => unreachable!(),
        }
        if self.is_due() {
            self.renew();
        }
        run
    }

    fn allowed(&self) -> ByteSet {
        self.reader.allowed()
    }

    fn can_finish(&self) -> bool {
        self.reader.can_finish()
    }

    fn finish(self, alloc: Global) -> Result<Option<Vec<u8>>, OutOfMemory> {
        let FileReader { reader, text, .. } = self;
        let value = match reader.finish() {
            Ok(value) => value,
            Err(_) => return Ok(None),
        };
        // No words have the text of no bytes too.
        if text.is_empty() {
            return Ok(Some(print_file(alloc, &value)?));
        }
        Ok(Some(text))
    }
}
