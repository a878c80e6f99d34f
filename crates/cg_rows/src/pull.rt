//! Calls one after another, as a row spells them.
use crate::asked::Asked;
use crate::escape::bytes_of;
use crate::row::{RowFault, set_of};
use crate::script::{Sign, add_mark, asked_of, mark_of, told};
use crate::taker::{FileTaker, Found, Step, Taker, WriteTaker};
use cg_run::Command;
use cg_snap::{PlanDecoder, SnapshotDecoder, Stop};
use cg_text::ByteSet;
use std::alloc::{AllocError, Global};

/// Adds a stop, at its place.
fn add_stop(log: &mut Vec<u8>, used: u64, stop: Stop) -> Result<(), AllocError> {
    let (at, words) = told(stop);
    add_mark(log, Sign::Stops, used, words)?;
    let alloc = *log.allocator();
    let place = format!(in alloc; " at {at}")?;
    log.extend_from_slice(place.as_bytes())
}

/// Adds what a call answers, with the number of bytes that it took.
fn add_step(log: &mut Vec<u8>, step: Step) -> Result<(), AllocError> {
    let used = step.used as u64;
    match step.found {
        Found::More => add_mark(log, Sign::More, used, b""),
        Found::Text(text) => add_mark(log, Sign::Given, used, text.as_slice()),
        Found::Stopped(stop) => add_stop(log, used, stop),
        Found::Wrong => add_mark(log, Sign::Wrong, used, b""),
    }
}

/// Whether two sets have the same bytes.
fn are_same(set: &ByteSet, other: &ByteSet) -> bool {
    for byte in 0..=u8::MAX {
        if set.contains(byte) != other.contains(byte) {
            return false;
        }
    }
    true
}

/// Whether a piece is answered so.
fn takes<T: Taker>(
    alloc: Global,
    taker: &mut T,
    piece: &str,
    answer: &str,
) -> Result<bool, RowFault> {
    let piece = bytes_of(alloc, piece)?;
    let mut log = Vec::new(alloc);
    add_step(&mut log, taker.next(alloc, piece.as_slice()))?;
    let mark = mark_of(alloc, answer)?;
    let mut wanted = Vec::new(alloc);
    add_mark(&mut wanted, mark.sign, mark.place, mark.text.as_slice())?;
    Ok(log.as_slice() == wanted.as_slice())
}

/// Whether a call is answered so.
fn is_answered<T: Taker>(
    alloc: Global,
    taker: &mut T,
    call: &str,
    answer: &str,
) -> Result<bool, RowFault> {
    match call.strip_prefix("next") {
        Some(piece) => takes(alloc, taker, piece.trim_start(), answer),
        None => Ok(are_same(&taker.allowed(), &set_of(alloc, answer)?)),
    }
}

/// Whether each call is answered as the field behind it says.
fn are_answered<T: Taker>(alloc: Global, asked: &Asked, calls: &[&str]) -> Result<bool, RowFault> {
    let mut taker = T::fresh(alloc, asked).ok_or(RowFault::BadWord)?;
    for pair in calls.chunks(2) {
        let [call, answer] = pair else {
            return Err(RowFault::Fields);
        };
        if !is_answered(alloc, &mut taker, call, answer)? {
            return Ok(false);
        }
    }
    Ok(true)
}

/// Whether the calls of a row are answered so, by what its command takes a text with.
pub(crate) fn agrees(alloc: Global, fields: &[&str]) -> Result<bool, RowFault> {
    let [words, calls @ ..] = fields else {
        return Err(RowFault::Fields);
    };
    let asked = asked_of(alloc, words)?;
    match &asked.command {
        Command::Show => are_answered::<SnapshotDecoder>(alloc, &asked, calls),
        Command::Plan => are_answered::<PlanDecoder>(alloc, &asked, calls),
        Command::File { .. } => are_answered::<FileTaker>(alloc, &asked, calls),
        Command::Setting { .. } => are_answered::<WriteTaker>(alloc, &asked, calls),
        _ => Err(RowFault::BadWord),
    }
}
