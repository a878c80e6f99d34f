//! How much of the output the bytes that were read settle.
use crate::asked::Asked;
use cg_run::Command;
use cg_snap::{Cause, Event, Found, GoingOnDecoder, LeftOut};
use std::alloc::Global;

/// The records and the entries of a snapshot that are closed.
#[derive(Clone, Copy)]
struct Closed {
    records: usize,
    entries: usize,
}

/// The path of a record of which the NUL came.
fn path_in(record: &[u8]) -> Option<&[u8]> {
    let nul = record.iter().position(|byte| *byte == 0)?;
    record.get(..nul)
}

/// What is closed: the records before those of the last path whose NUL came, and their entries.
fn closed_in(read: &[u8]) -> Closed {
    let mut begun = Closed {
        records: 0,
        entries: 0,
    };
    let mut closed = begun;
    let mut present: Option<&[u8]> = None;
    for record in read.split(|byte| *byte == b'\n') {
        let path = path_in(record);
        if path.is_some() && path != present {
            closed = begun;
            begun.entries = begun.entries.saturating_add(1);
            present = path;
        }
        begun.records = begun.records.saturating_add(1);
    }
    closed
}

/// How many lines of the output tell that a block is left out, if one is: its own, and one that explains it.
fn left_out_lines(asked: &Asked, left_out: &Option<LeftOut>) -> usize {
    let Some(left_out) = left_out else {
        return 0;
    };
    match (&asked.command, left_out.cause) {
        (Command::Show | Command::Check, Cause::Refused(_)) if asked.options.explain => 2,
        _ => 1,
    }
}

/// How many lines of the output are of what was found in a snapshot that is gone on with.
fn found_lines(asked: &Asked, found: &Found) -> usize {
    let entry = match (&asked.command, &found.entry) {
        (Command::Show, Some(entry)) => entry.value().line_count() as usize,
        (Command::Json, Some(_)) => 1,
        _ => 0,
    };
    entry.saturating_add(left_out_lines(asked, &found.left_out))
}

/// How many lines of the output the bytes of one settle, as its decoder tells, which other rows judge.
fn going_on_lines(alloc: Global, asked: &Asked, read: &[u8]) -> usize {
    let mut decoder = GoingOnDecoder::new(alloc, asked.profile, asked.limits);
    let mut rest = read;
    let mut lines: usize = 0;
    for _ in 0..=read.len() {
        let pulled = decoder.next(rest);
        let used = pulled.used;
        let Event::Given(found) = pulled.what else {
            return lines;
        };
        lines = lines.saturating_add(found_lines(asked, &found));
        rest = rest.get(used..).unwrap_or(b"");
    }
    lines
}

/// How many lines of the output the bytes settle.
fn settled_lines(alloc: Global, asked: &Asked, read: &[u8]) -> usize {
    if asked.options.keep_going {
        return going_on_lines(alloc, asked, read);
    }
    match &asked.command {
        Command::Show => closed_in(read).records,
        Command::Json => closed_in(read).entries,
        Command::Plan => read.iter().filter(|byte| **byte == b'\n').count(),
        _ => 0,
    }
}

/// The first parts of the output, which these bytes settle whatever follows them.
pub(crate) fn first_parts<'a>(
    alloc: Global,
    asked: &Asked,
    read: &[u8],
    text: &'a [u8],
) -> &'a [u8] {
    let lines = settled_lines(alloc, asked, read);
    let mut len: usize = 0;
    for line in text.split_inclusive(|byte| *byte == b'\n').take(lines) {
        len = len.saturating_add(line.len());
    }
    text.get(..len).unwrap_or(text)
}
