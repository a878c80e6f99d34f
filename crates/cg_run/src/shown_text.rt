//! The text of entries, as it is shown, made of the bytes of their records: each NUL as a colon and a space, and the
//! other bytes as they are. No line of a snapshot has a NUL, so each ends a path.
ghost use Rattle.std.specs.Prelude.{◌≡◌, ◌≤◌, ◌<◌, ◌++◌, List, ℕ, length, take, drop, [], MatchResult, OnErr, OnOk};
ghost use Rattle.cg_run.specs.ShownBytes.{Begins, CutsOff, IsCut, shown_bytes};

use cg_text::OutOfMemory;
use memchr::{memchr, memrchr};
use std::mem;

/// A record mostly has this many bytes or more. Each is shown with a byte more.
const RECORD: usize = 8;

/// Appends what the bytes begin with up to their first NUL, or all where there is none. Answers how many bytes it was.
fn append_some(text: &mut Vec<u8>, bytes: &[u8]) -> Result<usize, OutOfMemory>
    requires { 0 < length bytes.now }
    ensures { MatchResult result
        (λ used. (0 < used) × (used ≤ length bytes.now) ×
        (text.new.items ≡ text.old.items ++ shown_bytes (take used bytes.now)))
        (λ _. Begins text.old.items text.new.items) }
{
    match memchr(0, bytes) {
        Some(place) => {
            let (front, _) = bytes.split_at(place);
            text.extend_from_slice(front)?;
            text.extend_from_slice(b": ")?;
            Ok(place + 1)
        }
        None => {
            text.extend_from_slice(bytes)?;
            Ok(bytes.len())
        }
    }
}

/// Appends what the bytes are shown as. Memory may be wanted only where there is a byte; then some of it may have been
/// appended.
pub(crate) fn append_shown(text: &mut Vec<u8>, bytes: &[u8]) -> Result<(), OutOfMemory>
    ensures { MatchResult result (λ _. text.new.items ≡ text.old.items ++ shown_bytes bytes.now)
        (λ _. Begins text.old.items text.new.items × (0 < length bytes.now)) }
{
    // Room for all at once, where memory is left for it: else the text grows as it comes.
    let _ = text.try_reserve((bytes.len() / RECORD).saturating_add(bytes.len()));
    let mut used = 0;
    while used < bytes.len() {
        let (_, rest) = bytes.split_at(used);
        used += append_some(text, rest)?;
    }
    Ok(())
}

/// Moves a text to the end of `out`. After `OutOfMemory` both are as before.
pub(crate) fn append_text(out: &mut Vec<u8>, text: &mut Vec<u8>) -> Result<(), OutOfMemory>
    ensures moved { OnOk result ((out.new.items ≡ out.old.items ++ text.old.items) × (text.new.items ≡ [])) }
    ensures kept { OnErr result (out.new.items ≡ out.old.items) }
{
    if out.is_empty() {
        mem::swap(out, text);
        return Ok(());
    }
    out.append(text)?;
    Ok(())
}

/// How many bytes of a text are lines.
pub(crate) fn lines_end(text: &[u8]) -> usize
    ensures cut { IsCut text.now (take result text.now) (drop result text.now) }
    ensures within { result ≤ length text.now }
{
    match memrchr(b'\n', text) {
        Some(place) => place + 1,
        None => 0,
    }
}

/// Appends to `out` the lines of a text that goes on with the bytes, and keeps what comes after the last newline.
fn append_lines(out: &mut Vec<u8>, text: &mut Vec<u8>, bytes: &[u8]) -> Result<(), OutOfMemory>
    ensures { MatchResult result
        (λ _. (lines : List ℕ) × (out.new.items ≡ out.old.items ++ lines) ×
        IsCut (text.old.items ++ shown_bytes bytes.now) lines text.new.items)
        (λ _. Begins out.old.items out.new.items) }
{
    let start = out.len();
    append_text(out, text)?;
    append_shown(out, bytes)?;
    let (_, shown) = out.as_slice().split_at(start);
    let end = start + lines_end(shown);
    let (_, rest) = out.as_slice().split_at(end);
    text.extend_from_slice(rest)?;
    out.truncate(end);
    Ok(())
}

/// Appends to `out` the lines of a text that goes on with the bytes, the last of entries and behind them those of the
/// next record, and keeps what comes of these; no lines where there are no bytes. After `OutOfMemory` `out` is as
/// before.
pub(crate) fn append_closed(
    out: &mut Vec<u8>,
    text: &mut Vec<u8>,
    bytes: &[u8],
) -> Result<(), OutOfMemory>
    ensures { MatchResult result
        (λ _. (lines : List ℕ) × (out.new.items ≡ out.old.items ++ lines) ×
        CutsOff text.old.items text.new.items bytes.now lines)
        (λ _. (out.new.items ≡ out.old.items) × (0 < length bytes.now)) }
{
    if bytes.is_empty() {
        return Ok(());
    }
    let start = out.len();
    match append_lines(out, text, bytes) {
        Ok(()) => Ok(()),
        Err(wanted) => {
            out.truncate(start);
            Err(wanted)
        }
    }
}
