//! Strings, and bytes that are none.
ghost use Rattle.std.specs.Prelude.{◌≡◌, ◌↔◌, ◌++◌, IsTrue, IfOk, OnOk};
ghost use Rattle.serde_json.specs.Data.{string};
ghost use Rattle.serde_json.specs.View.{view};
ghost use Rattle.serde_json.specs.Written.{compact_text};
ghost use Rattle.cg_json.specs.Compact.{led, joined, ArePlain, IsPlainByte};
ghost use Rattle.cg_json.specs.Json.{array_of, text_data};

use crate::compact::{append_byte, append_tree};
use crate::json::{Json, array};
use cg_text::{Items, Key, OutOfMemory};
use cg_value::{LinesIn, RawLines};
use serde_json::Value;
use std::alloc::Global;

/// The string of this text.
pub(crate) fn string(alloc: Global, text: &str) -> Result<Value, OutOfMemory>
    ensures { IfOk result (λ tree. view tree ≡ string text.now) }
{
    Ok(Value::String(String::from_str(alloc, text)?))
}

/// The string of the bytes where they are UTF-8, else the array of their numbers.
pub(crate) fn text(alloc: Global, bytes: &[u8]) -> Result<Value, OutOfMemory>
    ensures { IfOk result (λ tree. view tree ≡ text_data bytes.now) }
{
    match str::from_utf8(bytes) {
        Ok(text) => string(alloc, text),
        Err(_) => array(alloc, bytes),
    }
}

/// The array of the texts of these lines.
pub(crate) fn texts(alloc: Global, lines: &RawLines) -> Result<Value, OutOfMemory>
    ensures { IfOk result (λ tree. view tree ≡ array_of text_data lines.now) }
{
    let mut list = Vec::new(alloc);
    for line in lines.lines() {
        list.push(text(alloc, line)?)?;
    }
    Ok(Value::Array(list))
}

/// The text of a key, which is ASCII.
pub(crate) fn key_text(key: &Key) -> &str
    ensures { result.now ≡ key.now }
{
    match str::from_utf8(key.bytes()) {
        Ok(text) => text,
        Err(_) => unreachable!(),
    }
}

/// Whether a byte stands for itself in a string.
fn is_plain_byte(byte: u8) -> bool
    ensures { IsTrue result ↔ IsPlainByte byte }
{
    32 <= byte && byte <= 126 && byte != b'"' && byte != b'\\'
}

/// Whether each byte stands for itself in a string.
fn is_plain(bytes: &[u8]) -> bool
    ensures { IsTrue result → ArePlain bytes.now }
{
    let mut plain = true;
    for byte in bytes {
        // No byte ends the loop, so that many can be looked at in one step.
        plain &= is_plain_byte(*byte);
    }
    plain
}

/// Adds the string of bytes that stand for themselves.
fn append_plain(out: &mut Vec<u8>, bytes: &[u8]) -> Result<(), OutOfMemory>
    requires { ArePlain bytes.now }
    ensures { OnOk result (out.new.items ≡ out.old.items ++ compact_text (string bytes.now)) }
{
    out.try_reserve(bytes.len() + 2)?;
    out.push_reserved(b'"');
    out.extend_from_slice(bytes)?;
    out.push_reserved(b'"');
    Ok(())
}

/// Adds the string of this text.
pub(crate) fn append_string(out: &mut Vec<u8>, text: &str) -> Result<(), OutOfMemory>
    ensures { OnOk result (out.new.items ≡ out.old.items ++ compact_text (string text.now)) }
{
    if is_plain(text.as_bytes()) {
        return append_plain(out, text.as_bytes());
    }
    let tree = string(*out.allocator(), text)?;
    append_tree(out, &tree)
}

/// Adds the string of the bytes where they are UTF-8, else the array of their numbers.
pub(crate) fn append_text(out: &mut Vec<u8>, bytes: &[u8]) -> Result<(), OutOfMemory>
    ensures { OnOk result (out.new.items ≡ out.old.items ++ compact_text (text_data bytes.now)) }
{
    if is_plain(bytes) {
        return append_plain(out, bytes);
    }
    let tree = text(*out.allocator(), bytes)?;
    append_tree(out, &tree)
}

/// Adds the string of a key.
pub(crate) fn append_key(out: &mut Vec<u8>, key: &Key) -> Result<(), OutOfMemory>
    ensures { OnOk result (out.new.items ≡ out.old.items ++ compact_text (string key.now)) }
{
    if is_plain(key.bytes()) {
        return append_plain(out, key.bytes());
    }
    append_string(out, key_text(key))
}

/// Adds the texts of these lines, each with a comma before it.
fn append_led_texts(out: &mut Vec<u8>, lines: LinesIn<'_>) -> Result<(), OutOfMemory>
    ensures { OnOk result (out.new.items ≡ out.old.items ++ led (λ x. compact_text (text_data x)) lines.entry) }
{
    for line in lines {
        append_byte(out, b',')?;
        append_text(out, line)?;
    }
    Ok(())
}

/// Adds the texts of these lines, with commas between them.
fn append_joined_texts(out: &mut Vec<u8>, lines: &RawLines) -> Result<(), OutOfMemory>
    ensures { OnOk result (out.new.items ≡ out.old.items ++ joined (λ x. compact_text (text_data x)) lines.now) }
{
    let mut rest = lines.lines();
    match rest.next() {
        Some(first) => {
            append_text(out, first)?;
            append_led_texts(out, rest)
        }
        None => Ok(()),
    }
}

/// Adds the array of the texts of these lines.
pub(crate) fn append_texts(out: &mut Vec<u8>, lines: &RawLines) -> Result<(), OutOfMemory>
    ensures { OnOk result (out.new.items ≡ out.old.items ++ compact_text (array_of text_data lines.now)) }
{
    append_byte(out, b'[')?;
    append_joined_texts(out, lines)?;
    append_byte(out, b']')
}

impl Json for Key {
    ghost tree_of = { string };

    fn json(&self, alloc: Global) -> Result<Value, OutOfMemory> {
        string(alloc, key_text(self))
    }

    fn append_to(&self, out: &mut Vec<u8>) -> Result<(), OutOfMemory> {
        append_key(out, self)
    }
}

/// The bytes of a line.
impl Json for Items<u8> {
    ghost tree_of = { text_data };

    fn json(&self, alloc: Global) -> Result<Value, OutOfMemory> {
        text(alloc, self.as_slice())
    }

    fn append_to(&self, out: &mut Vec<u8>) -> Result<(), OutOfMemory> {
        append_text(out, self.as_slice())
    }
}
