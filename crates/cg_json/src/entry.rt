//! Entries as JSON trees, and as lines of JSON.
ghost use Rattle.std.specs.Prelude.{◌≡◌, ◌++◌, IfOk, OnOk};
ghost use Rattle.serde_json.specs.View.{view as tree_view};
ghost use Rattle.cg_json.specs.Entry.{line_of, view_of};

use crate::compact::{append_bytes, append_labelled};
use crate::json::Json;
use crate::text::{append_string, append_text, string, text};
use crate::value::kind_word;
use cg_text::OutOfMemory;
use cg_value::Entry;
use serde_json::{Map, Value};
use std::alloc::Global;

/// As many bytes as most lines have.
const FIRST_ROOM: usize = 256;

/// The JSON tree of an entry: an object of the word of its kind, its path and its value. Bytes that aren't UTF-8 are
/// arrays of numbers. `OutOfMemory` where no memory is left.
pub fn view(alloc: Global, entry: &Entry) -> Result<Value, OutOfMemory>
    ensures { IfOk result (λ tree. tree_view tree ≡ view_of entry.now) }
{
    let value = entry.value();
    let mut map = Map::new(alloc);
    serde_json::put(&mut map, alloc, "kind", string(alloc, kind_word(value))?)?;
    serde_json::put(&mut map, alloc, "path", text(alloc, entry.path())?)?;
    serde_json::put(&mut map, alloc, "value", value.json(alloc)?)?;
    Ok(Value::Object(map))
}

/// Adds the JSON tree of an entry without spaces, and a newline. `OutOfMemory` where no memory is left.
pub fn append_line(out: &mut Vec<u8>, entry: &Entry) -> Result<(), OutOfMemory>
    ensures { OnOk result (out.new.items ≡ out.old.items ++ line_of entry.now) }
{
    let value = entry.value();
    append_bytes(out, b"{\"kind\":")?;
    append_string(out, kind_word(value))?;
    append_bytes(out, b",\"path\":")?;
    append_text(out, entry.path())?;
    append_labelled(out, b",\"value\":", value)?;
    append_bytes(out, b"}\n")
}

/// The JSON tree of an entry without spaces, and a newline. `OutOfMemory` where no memory is left.
pub fn line(alloc: Global, entry: &Entry) -> Result<Vec<u8>, OutOfMemory>
    ensures { IfOk result (λ line. line.items ≡ line_of entry.now) }
{
    let mut line = Vec::with_capacity(alloc, FIRST_ROOM)?;
    append_line(&mut line, entry)?;
    Ok(line)
}
