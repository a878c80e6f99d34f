//! Sweeps over a text: where it may end, how it may be cut into pieces, and which bytes may come.
use crate::asked::Asked;
use crate::row::RowFault;
use crate::script::{Script, Sign, add_mark, told};
use crate::taker::{FileTaker, Found, Step, Taker, WriteTaker};
use crate::trial::Way;
use cg_run::Command;
use cg_snap::{GoingOnDecoder, Limits, PlanDecoder, SnapshotDecoder, Stop};
use cg_text::ByteSet;
use std::alloc::{AllocError, Global};

/// How many runs were made, and how many of them differ from what is wanted.
#[derive(Clone, Copy)]
pub(crate) struct Count {
    pub(crate) runs: u64,
    pub(crate) differing: u64,
}

impl Count {
    pub(crate) const NONE: Count = Count {
        runs: 0,
        differing: 0,
    };

    /// Counts a run.
    fn add(&mut self, is_same: bool) {
        self.merge(Count {
            runs: 1,
            differing: u64::from(!is_same),
        });
    }

    /// Counts the runs of another count too.
    fn merge(&mut self, other: Count) {
        self.runs = self.runs.saturating_add(other.runs);
        self.differing = self.differing.saturating_add(other.differing);
    }
}

/// The runs of the three sweeps, and the first that differs.
#[derive(Clone, Copy)]
pub(crate) struct Counts {
    pub(crate) cuts: Count,
    pub(crate) pieces: Count,
    pub(crate) bytes: Count,
    pub(crate) first: Option<Way>,
}

impl Counts {
    pub(crate) const NONE: Counts = Counts {
        cuts: Count::NONE,
        pieces: Count::NONE,
        bytes: Count::NONE,
        first: None,
    };

    /// Counts the runs of another row too.
    pub(crate) fn merge(&mut self, other: Counts) {
        self.cuts.merge(other.cuts);
        self.pieces.merge(other.pieces);
        self.bytes.merge(other.bytes);
    }

    /// Counts a run.
    fn add(&mut self, way: Way, is_same: bool) {
        match way {
            Way::Cut(_) => self.cuts.add(is_same),
            Way::Split(_) => self.pieces.add(is_same),
            _ => self.bytes.add(is_same),
        }
        if !is_same && self.first.is_none() {
            self.first = Some(way);
        }
    }
}

/// What became of the front of a piece.
enum Taking {
    /// So many bytes of it were taken.
    Taken(usize),
    /// A byte behind it stops the text.
    Stopped,
    /// What no row wants.
    Wrong,
}

/// Whether the next byte of the rest is the one at fault, and nothing is taken where the rest is handed over again, and
/// the same answered.
fn stays<T: Taker>(alloc: Global, taker: &mut T, rest: &[u8], stop: Stop) -> bool {
    let (at, _) = told(stop);
    let Step { used, found } = taker.next(alloc, rest);
    let is_same = match found {
        Found::Stopped(other) => other == stop,
        _ => false,
    };
    is_same && used == 0 && at == taker.offset()
}

/// Hands over a piece, of which bytes are taken until one event, and adds the mark of what is given.
fn take_front<T: Taker>(
    alloc: Global,
    taker: &mut T,
    piece: &[u8],
    log: &mut Vec<u8>,
) -> Result<Taking, AllocError> {
    let before = taker.offset();
    let Step { used, found } = taker.next(alloc, piece);
    let offset = taker.offset();
    if offset != before.saturating_add(used as u64) {
        return Ok(Taking::Wrong);
    }
    match found {
        Found::More => Ok(Taking::Taken(used)),
        Found::Text(text) => {
            add_mark(log, Sign::Given, offset, text.as_slice())?;
            Ok(Taking::Taken(used))
        }
        Found::Stopped(stop) => {
            let (_, rest) = piece.split_at_checked(used).unwrap_or((piece, b""));
            let stays = stays(alloc, taker, rest, stop);
            Ok(if stays {
                Taking::Stopped
            } else {
                Taking::Wrong
            })
        }
        Found::Wrong => Ok(Taking::Wrong),
    }
}

/// Hands over a piece. The answer is whether all of it was taken. An event may come with its last byte, so that none is
/// left for the next call.
fn take_piece<T: Taker>(
    alloc: Global,
    taker: &mut T,
    piece: &[u8],
    log: &mut Vec<u8>,
) -> Result<bool, AllocError> {
    let mut at: usize = 0;
    for _ in 0..=piece.len() {
        let (_, rest) = piece.split_at_checked(at).unwrap_or((piece, b""));
        match take_front(alloc, taker, rest, log)? {
            Taking::Taken(used) => at = at.saturating_add(used),
            Taking::Stopped => return Ok(false),
            Taking::Wrong => break,
        }
        if at == piece.len() {
            return Ok(true);
        }
    }
    add_mark(log, Sign::Wrong, taker.offset(), b"")?;
    Ok(false)
}

/// Adds the mark of the end of the text.
fn add_end<T: Taker>(alloc: Global, taker: T, log: &mut Vec<u8>) -> Result<(), AllocError> {
    let offset = taker.offset();
    match taker.end(alloc) {
        Found::Text(text) => add_mark(log, Sign::Ends, offset, text.as_slice()),
        Found::Stopped(stop) => {
            let (at, words) = told(stop);
            add_mark(log, Sign::Stops, at, words)
        }
        _ => add_mark(log, Sign::Wrong, offset, b""),
    }
}

/// The marks of a run over a piece, and then over the others in pieces of this length.
fn marks_of<T: Taker>(
    alloc: Global,
    asked: &Asked,
    piece: &[u8],
    others: &[u8],
    step: usize,
) -> Result<Vec<u8>, RowFault> {
    let mut taker = T::fresh(alloc, asked).ok_or(RowFault::BadWord)?;
    let mut log = Vec::new(alloc);
    let mut is_taken = take_piece(alloc, &mut taker, piece, &mut log)?;
    for piece in others.chunks(step.max(1)) {
        if is_taken {
            is_taken = take_piece(alloc, &mut taker, piece, &mut log)?;
        }
    }
    add_end(alloc, taker, &mut log)?;
    Ok(log)
}

/// Ends the text at each byte.
fn cut<T: Taker>(alloc: Global, script: &Script, counts: &mut Counts) -> Result<(), RowFault> {
    let text = script.text.as_slice();
    for len in 0..=text.len() {
        let (front, _) = text.split_at_checked(len).ok_or(RowFault::BadPlace)?;
        let marks = marks_of::<T>(alloc, &script.asked, front, b"", 1)?;
        let wanted = script.wanted(alloc, len)?;
        counts.add(Way::Cut(len), marks.as_slice() == wanted.as_slice());
    }
    Ok(())
}

/// Hands over the text in all pairs of pieces, and then in pieces of one byte.
fn split<T: Taker>(alloc: Global, script: &Script, counts: &mut Counts) -> Result<(), RowFault> {
    let text = script.text.as_slice();
    let wanted = script.wanted(alloc, text.len())?;
    for len in 0..=text.len() {
        let (front, rest) = text.split_at_checked(len).ok_or(RowFault::BadPlace)?;
        let marks = marks_of::<T>(alloc, &script.asked, front, rest, text.len())?;
        counts.add(Way::Split(len), marks.as_slice() == wanted.as_slice());
    }
    let marks = marks_of::<T>(alloc, &script.asked, b"", text, 1)?;
    counts.add(Way::Split(1), marks.as_slice() == wanted.as_slice());
    Ok(())
}

/// What has taken these bytes.
fn fed<T: Taker>(alloc: Global, asked: &Asked, front: &[u8]) -> Result<T, RowFault> {
    let mut taker = T::fresh(alloc, asked).ok_or(RowFault::BadWord)?;
    let mut log = Vec::new(alloc);
    if take_piece(alloc, &mut taker, front, &mut log)? {
        Ok(taker)
    } else {
        Err(RowFault::BadPlace)
    }
}

/// Whether a byte behind these is taken, or it is refused at its place.
fn is_answered<T: Taker>(
    alloc: Global,
    asked: &Asked,
    front: &[u8],
    byte: u8,
    may_follow: bool,
) -> Result<bool, RowFault> {
    let mut taker = fed::<T>(alloc, asked, front)?;
    let step = taker.next(alloc, &[byte]);
    Ok(match step.found {
        Found::More | Found::Text(_) => may_follow && step.used == 1,
        Found::Stopped(Stop::Refused { at, .. }) => {
            !may_follow && step.used == 0 && at == front.len() as u64
        }
        _ => false,
    })
}

/// Whether it's told rightly whether another line may begin behind these bytes.
fn tells_line<T: Taker>(taker: &T, front: &[u8], allowed: &ByteSet) -> bool {
    let is_between = front.last().is_none_or(|byte| *byte == b'\n');
    match taker.takes_line() {
        Some(takes_line) => takes_line == (is_between && !allowed.is_empty()),
        None => true,
    }
}

/// Tries each byte behind these.
fn follow<T: Taker>(
    alloc: Global,
    asked: &Asked,
    front: &[u8],
    counts: &mut Counts,
) -> Result<(), RowFault> {
    let taker = fed::<T>(alloc, asked, front)?;
    let allowed = taker.allowed();
    counts.add(Way::Line, tells_line(&taker, front, &allowed));
    for byte in 0..=u8::MAX {
        let is_same = is_answered::<T>(alloc, asked, front, byte, allowed.contains(byte))?;
        counts.add(Way::Next(byte), is_same);
    }
    Ok(())
}

/// Tries each byte after each front of the text before a stop.
fn try_bytes<T: Taker>(
    alloc: Global,
    script: &Script,
    counts: &mut Counts,
) -> Result<(), RowFault> {
    for len in 0..=script.viable_len() {
        let (front, _) = script
            .text
            .as_slice()
            .split_at_checked(len)
            .ok_or(RowFault::BadPlace)?;
        follow::<T>(alloc, &script.asked, front, counts)?;
    }
    Ok(())
}

/// Makes all sweeps. Limits have no part in which bytes may come.
fn sweep_by<T: Taker>(alloc: Global, script: &Script, counts: &mut Counts) -> Result<(), RowFault> {
    cut::<T>(alloc, script, counts)?;
    split::<T>(alloc, script, counts)?;
    if script.asked.limits == Limits::DEFAULT {
        try_bytes::<T>(alloc, script, counts)?;
    }
    Ok(())
}

/// Makes all sweeps over a text, by what the command takes it with.
pub(crate) fn sweep(alloc: Global, script: &Script, counts: &mut Counts) -> Result<(), RowFault> {
    match &script.asked.command {
        Command::Show if script.asked.options.keep_going => {
            sweep_by::<GoingOnDecoder>(alloc, script, counts)
        }
        Command::Show => sweep_by::<SnapshotDecoder>(alloc, script, counts),
        Command::Plan => sweep_by::<PlanDecoder>(alloc, script, counts),
        Command::File { .. } => sweep_by::<FileTaker>(alloc, script, counts),
        Command::Setting { .. } => sweep_by::<WriteTaker>(alloc, script, counts),
        _ => Err(RowFault::BadWord),
    }
}
