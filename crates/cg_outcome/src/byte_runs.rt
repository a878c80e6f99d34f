//! How a set of bytes is told.
ghost use Rattle.std.specs.Prelude.{◌≡◌, ◌≤◌, ◌<◌, ◌++◌, ◌∷◌, ℕ, List, Option, MatchResult, IfErr, drop, length, slice_index_or};
ghost use Rattle.cg_outcome.specs.ByteNames.{is_next, item, items, joint, listed, run_of, set_words};
ghost use Rattle.cg_outcome.specs.Wrote.{FailsAfter, HasWrittenText, IsRealFault};

use crate::byte_list::bytes_of;
use crate::byte_name::add_name;
use crate::line::Line;
use crate::outcome::Outcome;
use crate::told::write_part;
use cg_print::Sink;
use cg_text::ByteSet;

/// Whether a byte is the next after one, where both are quoted.
fn is_next(byte: u8, next: u8) -> bool
    ensures { result ≡ is_next byte next }
{
    33 <= byte && byte < 126 && next == byte + 1
}

/// How many bytes of the front are a run: each is the next after the one before it.
fn run_length(bytes: &[u8]) -> usize
    requires { 0 < length bytes.now }
    ensures run { result ≡ run_of bytes.now }
    ensures some { 0 < result }
    ensures within { result ≤ length bytes.now }
{
    let mut length = 1;
    while length < bytes.len() && is_next(bytes[length - 1], bytes[length]) {
        length += 1;
    }
    length
}

/// A byte, and of a run its last too, behind what joins it to those before.
fn item_line(joint: &[u8], first: u8, last: Option<u8>) -> Line
    requires { length joint.now ≤ 4 }
    ensures { result ≡ joint.now ++ item first last }
{
    let mut line = Line::new();
    line.add(joint);
    add_name(&mut line, first);
    if let Some(last) = last {
        line.add(b" to ");
        add_name(&mut line, last);
    }
    line
}

/// How many bytes of the front are told together, and the last of them where they are a run.
fn first_item(bytes: &[u8]) -> (usize, Option<u8>)
    requires { 0 < length bytes.now }
    ensures front { items 0 bytes.now ≡
        item (slice_index_or bytes.now 0 0) result.1 ∷ items 0 (drop result.0 bytes.now) }
    ensures some { 0 < result.0 }
    ensures within { result.0 ≤ length bytes.now }
{
    let length = run_length(bytes);
    if length >= 3 {
        (length, Some(bytes[length - 1]))
    } else {
        (1, None)
    }
}

/// What joins bytes to those that are told before them, so many.
fn joint_of(before: usize, is_last: bool) -> &'static [u8]
    ensures joint { result.now ≡ joint before is_last }
    ensures short { length result.now ≤ 4 }
{
    if before == 0 {
        b""
    } else if is_last {
        b" or "
    } else {
        b", "
    }
}

/// Writes bytes.
fn tell_bytes<W: Sink>(writer: &mut W, bytes: &[u8], written: &mut u64) -> Result<(), Outcome>
    ensures told { (first : Option (List ℕ)) (text : List ℕ) →
        HasWrittenText first (W.taken writer.old) text written.old →
        MatchResult result
        (λ _. HasWrittenText first (W.taken writer.new) (text ++ listed (items 0 bytes.now)) written.new)
        (FailsAfter first (W.taken writer.new) (W.has_failed writer.new) (text ++ listed (items 0 bytes.now))) }
    ensures real { IfErr result (λ fault. IsRealFault fault (W.has_failed writer.new)) }
{
    let mut at = 0;
    while at < bytes.len() {
        let (_, rest) = bytes.split_at(at);
        let (count, last) = first_item(rest);
        let end = at + count;
        let joint = joint_of(at, end == bytes.len());
        write_part(writer, item_line(joint, rest[0], last).bytes(), written)?;
        at = end;
    }
    Ok(())
}

/// Writes which bytes are in a set.
pub(crate) fn tell_set<W: Sink>(
    writer: &mut W,
    set: &ByteSet,
    written: &mut u64,
) -> Result<(), Outcome>
    ensures told { (first : Option (List ℕ)) (text : List ℕ) →
        HasWrittenText first (W.taken writer.old) text written.old →
        MatchResult result (λ _. HasWrittenText first (W.taken writer.new) (text ++ set_words set.now) written.new)
        (FailsAfter first (W.taken writer.new) (W.has_failed writer.new) (text ++ set_words set.now)) }
    ensures real { IfErr result (λ fault. IsRealFault fault (W.has_failed writer.new)) }
{
    let taken = bytes_of(set, true);
    let within = taken.bytes();
    if within.is_empty() {
        return write_part(writer, b"nothing", written);
    }
    if within.len() <= 128 {
        return tell_bytes(writer, within, written);
    }
    let left = bytes_of(set, false);
    let others = left.bytes();
    if others.is_empty() {
        return write_part(writer, b"any byte", written);
    }
    write_part(writer, b"any byte but ", written)?;
    tell_bytes(writer, others, written)
}
