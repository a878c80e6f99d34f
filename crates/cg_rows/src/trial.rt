//! Runs of a row's command, and whether they do what the row says.
use crate::asked::{Asked, asked_by};
use crate::closed::first_parts;
use crate::row::{Claim, Faults, Reach, Row, RowFault, Told};
use cg_print::CutSink;
use cg_program::run_words;
use cg_run::{CutSource, Outcome, run_with, status};
use cg_snap::Limits;
use cg_text::ByteSet;
use std::alloc::{AllocError, Global};
use std::fmt;

/// How many bytes are read and written at once.
const STEPS: [usize; 5] = [1, 2, 7, 4096, 65536];

/// How a run differs from what a row says.
#[derive(Clone, Copy, Debug, PartialEq, Eq)]
pub(crate) enum Way {
    /// Pieces of so many bytes were read and written.
    Pieces(usize),
    /// The source failed after so many bytes.
    Read(usize),
    /// The sink failed after so many bytes.
    Write(usize),
    /// The source failed, and the sink if the row says so.
    Faults,
    /// This byte followed the input.
    Next(u8),
    /// This byte followed the input, at the limit of the stream.
    Limited(u8),
    /// The text ended after so many bytes.
    Cut(usize),
    /// The text came in two pieces, the first of so many bytes, or in pieces of one byte.
    Split(usize),
    /// It's told otherwise whether another line may begin.
    Line,
    /// A call is answered otherwise.
    Answer,
    /// There is none, and the row wants one.
    Same,
}

impl fmt::Display for Way {
    fn fmt<W: fmt::Write>(&self, f: &mut fmt::Formatter<W>) -> fmt::Result {
        match self {
            Way::Pieces(step) => write!(f, "in pieces of {step} bytes"),
            Way::Read(budget) => write!(f, "the read after {budget} bytes failing"),
            Way::Write(budget) => write!(f, "the write after {budget} bytes failing"),
            Way::Faults => f.write_str("the calls of the row failing"),
            Way::Next(byte) => write!(f, "the byte {byte} behind it"),
            Way::Limited(byte) => write!(f, "the byte {byte} at the limit"),
            Way::Cut(len) => write!(f, "ended after {len} bytes"),
            Way::Split(len) => write!(f, "in pieces, the first of {len} bytes, or all of one"),
            Way::Line => f.write_str("whether a line may begin"),
            Way::Answer => f.write_str("another answer"),
            Way::Same => f.write_str("no difference"),
        }
    }
}

/// A run of what a row asks for. It promises nothing, so that what calls it is quick to check.
fn ran(
    alloc: Global,
    asked: &Asked,
    limits: Limits,
    source: &mut CutSource<'_>,
    sink: &mut CutSink,
) -> Outcome {
    run_with(
        alloc,
        asked.profile,
        &asked.command,
        source,
        sink,
        limits,
        asked.options,
    )
}

/// Whether these bytes stand somewhere in a text.
fn has_part(text: &[u8], part: &[u8]) -> bool {
    part.is_empty() || text.windows(part.len()).any(|it| it == part)
}

/// Whether a text is written as a row says, with this status.
fn is_told(told: &Told, text: &[u8], status: u8) -> bool {
    let wanted = told.text.as_slice();
    let is_text = if told.is_whole {
        text == wanted
    } else {
        has_part(text, wanted)
    };
    is_text && status == told.status
}

/// The whole program with a row's words, which promises nothing either.
fn ran_by_words(
    alloc: Global,
    words: &[String],
    source: &mut CutSource<'_>,
    sink: &mut CutSink,
) -> u8 {
    run_words(alloc, Ok(words), source, sink)
}

/// Whether the row is met with pieces of this length, and the source is asked at most so often.
fn is_met_in_pieces(alloc: Global, row: &Row, told: &Told, most: u64, step: usize) -> bool {
    let mut source = CutSource::new(row.input.as_slice(), usize::MAX, step);
    let mut sink = CutSink::new(usize::MAX, step);
    let status = ran_by_words(alloc, row.words.as_slice(), &mut source, &mut sink);
    source.asks() <= most && is_told(told, sink.bytes(), status)
}

/// What is written last where a read failed.
const READ_FAULT: &[u8] = b"cgfile: read fault\n";

/// Whether reading fails where the row isn't settled before the source fails, after the parts of the text that the
/// bytes before settle; and where it is, the row is met.
fn is_met_reading(
    alloc: Global,
    asked: &Asked,
    input: &[u8],
    told: &Told,
    budget: usize,
    step: usize,
) -> bool {
    let mut source = CutSource::new(input, budget, step);
    let mut sink = CutSink::new(usize::MAX, 4096);
    let outcome = ran(alloc, asked, asked.limits, &mut source, &mut sink);
    let is_settled = match told.reach {
        Reach::Nothing => true,
        Reach::UpTo(at) => at < budget,
        Reach::End => false,
    };
    if is_settled {
        return is_told(told, sink.bytes(), status(&outcome));
    }
    let (read, _) = input.split_at_checked(budget).unwrap_or((input, b""));
    let parts = first_parts(alloc, asked, read, told.text.as_slice());
    outcome == Outcome::ReadFault
        && status(&outcome) == 3
        && sink.bytes().strip_suffix(READ_FAULT) == Some(parts)
}

/// Whether the sink has the first bytes of the text when it fails, and the run says how many.
fn is_met_writing(alloc: Global, asked: &Asked, input: &[u8], text: &[u8], budget: usize) -> bool {
    let mut source = CutSource::new(input, usize::MAX, 4096);
    let mut sink = CutSink::new(budget, 2);
    let outcome = ran(alloc, asked, asked.limits, &mut source, &mut sink);
    let written = budget as u64;
    outcome == Outcome::WriteFault { written }
        && status(&outcome) == 3
        && sink.bytes().len() == budget
        && text.starts_with(sink.bytes())
}

/// Whether a run with these failing calls is answered so.
fn is_met_failing(alloc: Global, asked: &Asked, input: &[u8], told: &Told, faults: Faults) -> bool {
    let mut source = CutSource::new(input, faults.read, 4096);
    let mut sink = CutSink::new(faults.write.unwrap_or(usize::MAX), 4096);
    let outcome = ran(alloc, asked, asked.limits, &mut source, &mut sink);
    let wanted = match faults.write {
        Some(budget) => Outcome::WriteFault {
            written: budget as u64,
        },
        None => Outcome::ReadFault,
    };
    outcome == wanted && is_told(told, sink.bytes(), status(&outcome))
}

/// How often the source may be asked: not at all where nothing is to be read, else twice more than there may be bytes.
fn most_asks(asked: &Asked, told: &Told) -> u64 {
    match told.reach {
        Reach::Nothing => 0,
        _ => asked.limits.max_stream.saturating_add(2),
    }
}

/// The first way in which the program, called with a row's words, doesn't do what the row says.
fn difference_of_pieces(alloc: Global, row: &Row, told: &Told, most: u64) -> Option<Way> {
    for step in STEPS {
        if !is_met_in_pieces(alloc, row, told, most, step) {
            return Some(Way::Pieces(step));
        }
    }
    None
}

/// The first failing read with which a row isn't met.
fn difference_of_reads(alloc: Global, asked: &Asked, input: &[u8], told: &Told) -> Option<Way> {
    for budget in 0..=input.len() {
        let by_bytes = is_met_reading(alloc, asked, input, told, budget, 1);
        if !by_bytes || !is_met_reading(alloc, asked, input, told, budget, 4096) {
            return Some(Way::Read(budget));
        }
    }
    None
}

/// The first failing write with which a row isn't met.
fn difference_of_writes(alloc: Global, asked: &Asked, input: &[u8], told: &Told) -> Option<Way> {
    let text = told.text.as_slice();
    for budget in 0..text.len() {
        if told.is_whole && !is_met_writing(alloc, asked, input, text, budget) {
            return Some(Way::Write(budget));
        }
    }
    None
}

/// What is written where a byte follows the input.
#[derive(Drop)]
struct Lines {
    /// It is refused.
    refused: String,
    /// It may follow, and stands at the limit of the stream.
    too_long: String,
}

fn lines_at(alloc: Global, at: usize) -> Result<Lines, AllocError> {
    let refused = format!(in alloc; "cgfile: refused at {at}: ")?;
    let too_long = format!(in alloc; "cgfile: stream too long at {at}\n")?;
    Ok(Lines { refused, too_long })
}

/// Whether a run over these bytes, within these limits, writes this in its last line.
fn writes(alloc: Global, asked: &Asked, limits: Limits, input: &[u8], line: &str) -> bool {
    let mut source = CutSource::new(input, usize::MAX, 4096);
    let mut sink = CutSink::new(usize::MAX, 4096);
    let _ = ran(alloc, asked, limits, &mut source, &mut sink);
    has_part(sink.bytes(), line.as_bytes())
}

/// The way in which a text, whose last byte may follow those before it or not, is answered otherwise.
fn difference_of_byte(
    alloc: Global,
    asked: &Asked,
    text: &[u8],
    may_follow: bool,
    lines: &Lines,
) -> Option<Way> {
    let (byte, front) = text.split_last()?;
    let refused = lines.refused.as_str();
    if writes(alloc, asked, asked.limits, text, refused) == may_follow {
        return Some(Way::Next(*byte));
    }
    let limits = Limits {
        max_stream: front.len() as u64,
        ..asked.limits
    };
    let line = if may_follow {
        lines.too_long.as_str()
    } else {
        refused
    };
    if writes(alloc, asked, limits, text, line) {
        None
    } else {
        Some(Way::Limited(*byte))
    }
}

/// The first way in which a row isn't met, whose input goes on with these bytes.
fn difference_of_next(
    alloc: Global,
    asked: &Asked,
    input: &[u8],
    set: &ByteSet,
) -> Result<Option<Way>, AllocError> {
    let lines = lines_at(alloc, input.len())?;
    let mut text = Vec::from_slice(alloc, input)?;
    for byte in 0..=u8::MAX {
        text.push(byte)?;
        let way = difference_of_byte(alloc, asked, text.as_slice(), set.contains(byte), &lines);
        if way.is_some() {
            return Ok(way);
        }
        let _ = text.pop();
    }
    Ok(None)
}

/// Whether the status is the same and the sink has the first bytes where it fails, and no run was asked for.
fn is_met_telling(alloc: Global, row: &Row, told: &Told, budget: usize) -> bool {
    let mut source = CutSource::new(row.input.as_slice(), usize::MAX, 4096);
    let mut sink = CutSink::new(budget, 4096);
    let status = ran_by_words(alloc, row.words.as_slice(), &mut source, &mut sink);
    let told_front = told.text.as_slice().get(..budget);
    source.asks() == 0 && status == told.status && told_front == Some(sink.bytes())
}

/// The first way in which a row isn't met whose words ask for no run: nothing is read.
fn difference_of_words(alloc: Global, row: &Row) -> Option<Way> {
    let Claim::Ends(told) = &row.claim else {
        return Some(Way::Answer);
    };
    for budget in 0..told.text.len() {
        if told.is_whole && !is_met_telling(alloc, row, told, budget) {
            return Some(Way::Write(budget));
        }
    }
    difference_of_pieces(alloc, row, told, 0)
}

/// The first way in which a row isn't met whose input is answered so.
fn difference_of_answer(alloc: Global, asked: &Asked, row: &Row, told: &Told) -> Option<Way> {
    let input = row.input.as_slice();
    difference_of_pieces(alloc, row, told, most_asks(asked, told))
        .or(difference_of_reads(alloc, asked, input, told))
        .or(difference_of_writes(alloc, asked, input, told))
}

/// The first way in which a row isn't met.
pub(crate) fn difference_of(alloc: Global, row: &Row) -> Result<Option<Way>, RowFault> {
    let Ok(asked) = asked_by(alloc, row.words.as_slice()) else {
        return Ok(difference_of_words(alloc, row));
    };
    let input = row.input.as_slice();
    match &row.claim {
        Claim::Ends(told) => Ok(difference_of_answer(alloc, &asked, row, told)),
        Claim::Fails(told, faults) => {
            let is_met = is_met_failing(alloc, &asked, input, told, *faults);
            Ok((!is_met).then_some(Way::Faults))
        }
        Claim::GoesOn(set) => Ok(difference_of_next(alloc, &asked, input, set)?),
    }
}
