//! What takes a text in pieces: the decoders of snapshots, of those that are gone on with, and of plans, and the
//! readers of a file and of a write.
use crate::asked::Asked;
use cg_line::{PushFault, PushedRun, SettingReader, ValueReader};
use cg_print::{append_entry, print_entry, print_file, print_item, print_setting};
use cg_run::Command;
use cg_snap::{
    Event, Found as Told, GoingOnDecoder, LeftOut, PlanDecoder, SnapshotDecoder, Stop, Why,
};
use cg_text::{ByteSet, OutOfMemory};
use cg_value::{read_kind, write_kind};
use std::alloc::Global;

/// What a piece, or the end, led to.
#[derive(Drop)]
pub(crate) enum Found {
    /// Nothing yet, and the whole piece was taken; or after a newline a reader took no more of it.
    More,
    /// This text: the records of an entry or of an item, or a file's or a write's canonical text.
    Text(Vec<u8>),
    Stopped(Stop),
    /// No memory was left, or two answers that contradict each other.
    Wrong,
}

/// What a piece led to, and how many of its bytes were taken.
#[derive(Drop)]
pub(crate) struct Step {
    pub(crate) used: usize,
    pub(crate) found: Found,
}

pub(crate) trait Taker: Drop + Sized {
    /// One that took nothing, if the command has such.
    fn fresh(alloc: Global, asked: &Asked) -> Option<Self>;

    /// Takes bytes from the front of the piece until one event.
    fn next(&mut self, alloc: Global, piece: &[u8]) -> Step;

    /// The bytes that may come.
    fn allowed(&self) -> ByteSet;

    /// How many bytes were taken.
    fn offset(&self) -> u64;

    /// Whether no line is begun and another may begin, if it tells that.
    fn takes_line(&self) -> Option<bool>;

    /// What the end of the text makes of it.
    fn end(self, alloc: Global) -> Found;
}

/// A text, if memory was left for it.
fn text(printed: Result<Vec<u8>, OutOfMemory>) -> Found {
    match printed {
        Ok(text) => Found::Text(text),
        Err(OutOfMemory) => Found::Wrong,
    }
}

/// What was found, if another answer doesn't contradict it.
fn found_if(agrees: bool, found: Found) -> Found {
    if agrees { found } else { Found::Wrong }
}

impl Taker for SnapshotDecoder {
    fn fresh(alloc: Global, asked: &Asked) -> Option<SnapshotDecoder> {
        Some(SnapshotDecoder::new(alloc, asked.profile, asked.limits))
    }

    fn next(&mut self, alloc: Global, piece: &[u8]) -> Step {
        let pulled = SnapshotDecoder::next(self, piece);
        let used = pulled.used;
        let found = match pulled.what {
            Event::NeedMore => found_if(used == piece.len(), Found::More),
            Event::OutOfMemory => Found::Wrong,
            Event::Given(entry) => text(print_entry(alloc, &entry)),
            Event::Stopped(stop) => Found::Stopped(stop),
        };
        Step { used, found }
    }

    fn allowed(&self) -> ByteSet {
        SnapshotDecoder::allowed(self)
    }

    fn offset(&self) -> u64 {
        SnapshotDecoder::offset(self)
    }

    fn takes_line(&self) -> Option<bool> {
        None
    }

    fn end(self, alloc: Global) -> Found {
        match self.finish() {
            Ok(Some(entry)) => text(print_entry(alloc, &entry)),
            Ok(None) => Found::Text(Vec::new(alloc)),
            Err(stop) => Found::Stopped(stop),
        }
    }
}

impl Taker for PlanDecoder {
    fn fresh(alloc: Global, asked: &Asked) -> Option<PlanDecoder> {
        Some(PlanDecoder::new(alloc, asked.profile, asked.limits))
    }

    fn next(&mut self, alloc: Global, piece: &[u8]) -> Step {
        let pulled = PlanDecoder::next(self, piece);
        let used = pulled.used;
        let found = match pulled.what {
            Event::NeedMore => found_if(used == piece.len(), Found::More),
            Event::OutOfMemory => Found::Wrong,
            Event::Given(item) => text(print_item(alloc, &item)),
            Event::Stopped(stop) => Found::Stopped(stop),
        };
        Step { used, found }
    }

    fn allowed(&self) -> ByteSet {
        PlanDecoder::allowed(self)
    }

    fn offset(&self) -> u64 {
        PlanDecoder::offset(self)
    }

    fn takes_line(&self) -> Option<bool> {
        None
    }

    fn end(self, alloc: Global) -> Found {
        match self.finish() {
            Ok(()) => Found::Text(Vec::new(alloc)),
            Err(stop) => Found::Stopped(stop),
        }
    }
}

/// Appends the line of what is left out.
fn append_left_out(
    alloc: Global,
    text: &mut Vec<u8>,
    left_out: &LeftOut,
) -> Result<(), OutOfMemory> {
    let line = format!(in alloc; "left out at {}: {}", left_out.at, left_out.cause)?;
    text.extend_from_slice(line.as_bytes())?;
    if let Some(path) = &left_out.path {
        text.extend_from_slice(b": ")?;
        text.extend_from_slice(path.as_slice())?;
    }
    text.push(b'\n')?;
    Ok(())
}

/// The records of the entry, and a line for what is left out.
fn told_text(alloc: Global, told: &Told) -> Result<Vec<u8>, OutOfMemory> {
    let mut text = Vec::new(alloc);
    if let Some(entry) = &told.entry {
        append_entry(&mut text, entry)?;
    }
    if let Some(left_out) = &told.left_out {
        append_left_out(alloc, &mut text, left_out)?;
    }
    Ok(text)
}

impl Taker for GoingOnDecoder {
    fn fresh(alloc: Global, asked: &Asked) -> Option<GoingOnDecoder> {
        Some(GoingOnDecoder::new(alloc, asked.profile, asked.limits))
    }

    fn next(&mut self, alloc: Global, piece: &[u8]) -> Step {
        let pulled = GoingOnDecoder::next(self, piece);
        let used = pulled.used;
        let found = match pulled.what {
            Event::NeedMore => found_if(used == piece.len(), Found::More),
            Event::OutOfMemory => Found::Wrong,
            Event::Given(told) => text(told_text(alloc, &told)),
            Event::Stopped(stop) => Found::Stopped(stop),
        };
        Step { used, found }
    }

    fn allowed(&self) -> ByteSet {
        GoingOnDecoder::allowed(self)
    }

    fn offset(&self) -> u64 {
        GoingOnDecoder::offset(self)
    }

    fn takes_line(&self) -> Option<bool> {
        None
    }

    fn end(self, alloc: Global) -> Found {
        match self.finish() {
            Ok(Some(entry)) => text(print_entry(alloc, &entry)),
            Ok(None) => Found::Text(Vec::new(alloc)),
            Err(stop) => Found::Stopped(stop),
        }
    }
}

/// How far a reader came. Unlike a decoder, it doesn't tell.
#[derive(Clone, Copy)]
struct Course {
    offset: u64,
    stop: Option<Stop>,
}

/// The course of a reader that took nothing.
const BEGIN: Course = Course {
    offset: 0,
    stop: None,
};

impl Course {
    /// Goes on with what a run of bytes led to.
    fn step(&mut self, run: PushedRun) -> Step {
        self.offset = self.offset.saturating_add(run.used as u64);
        let found = match run.fault {
            None => Found::More,
            Some(PushFault::OutOfMemory) => Found::Wrong,
            Some(PushFault::Refused) => {
                let stop = Stop::Refused {
                    at: self.offset,
                    why: Why::Line,
                };
                self.stop = Some(stop);
                Found::Stopped(stop)
            }
        };
        Step {
            used: run.used,
            found,
        }
    }

    /// What the end is where the reader gives nothing.
    fn cut(&self) -> Found {
        Found::Stopped(Stop::Cut { at: self.offset })
    }
}

/// A reader of a file.
#[derive(Drop)]
pub(crate) struct FileTaker {
    reader: ValueReader,
    course: Course,
}

impl Taker for FileTaker {
    fn fresh(alloc: Global, asked: &Asked) -> Option<FileTaker> {
        let Command::File { name } = &asked.command else {
            return None;
        };
        let kind = read_kind(asked.profile, name.as_slice()).ok()?;
        Some(FileTaker {
            reader: ValueReader::new(alloc, kind),
            course: BEGIN,
        })
    }

    fn next(&mut self, _alloc: Global, piece: &[u8]) -> Step {
        let run = self.reader.push_run(piece);
        self.course.step(run)
    }

    fn allowed(&self) -> ByteSet {
        self.reader.allowed()
    }

    fn offset(&self) -> u64 {
        self.course.offset
    }

    fn takes_line(&self) -> Option<bool> {
        Some(self.reader.takes_line())
    }

    fn end(self, alloc: Global) -> Found {
        let FileTaker { reader, course } = self;
        if let Some(stop) = course.stop {
            return Found::Stopped(stop);
        }
        let can_finish = reader.can_finish();
        match reader.finish() {
            Ok(value) => found_if(can_finish, text(print_file(alloc, &value))),
            Err(_) => found_if(!can_finish, course.cut()),
        }
    }
}

/// A reader of a write.
#[derive(Drop)]
pub(crate) struct WriteTaker {
    reader: SettingReader,
    course: Course,
}

impl Taker for WriteTaker {
    fn fresh(alloc: Global, asked: &Asked) -> Option<WriteTaker> {
        let Command::Setting { name } = &asked.command else {
            return None;
        };
        let kind = write_kind(asked.profile, name.as_slice()).ok()?;
        Some(WriteTaker {
            reader: SettingReader::new(alloc, kind),
            course: BEGIN,
        })
    }

    fn next(&mut self, _alloc: Global, piece: &[u8]) -> Step {
        let run = self.reader.push_run(piece);
        self.course.step(run)
    }

    fn allowed(&self) -> ByteSet {
        self.reader.allowed()
    }

    fn offset(&self) -> u64 {
        self.course.offset
    }

    fn takes_line(&self) -> Option<bool> {
        None
    }

    fn end(self, alloc: Global) -> Found {
        let WriteTaker { reader, course } = self;
        if let Some(stop) = course.stop {
            return Found::Stopped(stop);
        }
        let can_finish = reader.can_finish();
        match reader.finish() {
            Ok(setting) => found_if(can_finish, text(print_setting(alloc, &setting))),
            Err(_) => found_if(!can_finish, course.cut()),
        }
    }
}
