//! The texts of entries and of items, among others of their kind.
ghost use Rattle.std.specs.Prelude.{◌≡◌, ◌++◌, ◌∷◌, IfOk, OnOk, OnErr};
ghost use Rattle.cg_value.specs.Print.{print_lines, print_setting_of};
ghost use Rattle.cg_value.specs.Records.{records};
ghost use Rattle.cg_print.specs.Headed.{headed, shown};
ghost use Rattle.cg_print.specs.Entry.{WroteEntry};

use crate::canonical::{append_bytes, append_newline};
use crate::file::append_value;
use crate::setting::append_setting;
use crate::sink::Sink;
use crate::text::{WriteStopped, write_text};
use cg_text::OutOfMemory;
use cg_value::{Entry, PlanItem};
use std::alloc::Global;
use thiserror::Error;

/// Why an entry wasn't written.
#[derive(Clone, Copy, Debug, PartialEq, Eq, Error)]
pub enum EntryWriteFault {
    /// The sink failed when it had taken so many bytes.
    #[error("stopped after {written} bytes")]
    Device { written: u64 },
    /// No memory was left, and nothing was written.
    #[error("out of memory")]
    OutOfMemory,
}

/// How many bytes a line mostly has at most, its newline among them.
const LINE: usize = 32;

/// The canonical lines of an entry, each after its path and the mark.
fn print_marked(alloc: Global, entry: &Entry, mark: &[u8]) -> Result<Vec<u8>, OutOfMemory>
    ensures { IfOk result (λ text. text.items ≡ headed (entry.now.path ++ mark.now) (print_lines entry.now.value)) }
{
    let mut head = Vec::with_capacity(alloc, entry.path().len().saturating_add(mark.len()))?;
    append_bytes(&mut head, entry.path())?;
    append_bytes(&mut head, mark)?;
    let line = head.len().saturating_add(LINE);
    let lines = entry.value().line_count() as usize;
    let mut text = Vec::with_capacity(alloc, line.saturating_mul(lines))?;
    append_value(&mut text, head.as_slice(), entry.value())?;
    Ok(text)
}

/// The records of an entry, as a snapshot holds them: for each canonical line the path, a NUL, the line and a newline.
/// `OutOfMemory` where no memory is left.
#[tactic(auto, using(crate::specs::JoinedLaws::headed_path))]
pub fn print_entry(alloc: Global, entry: &Entry) -> Result<Vec<u8>, OutOfMemory>
    ensures { IfOk result (λ text. text.items ≡ records entry.now.path (print_lines entry.now.value)) }
{
    print_marked(alloc, entry, b"\0")
}

/// The lines of an entry to be read by people: its records with a colon and a space in place of each NUL. `OutOfMemory`
/// where no memory is left.
#[tactic(auto, using(crate::specs::JoinedLaws::headed_shown))]
pub fn print_shown(alloc: Global, entry: &Entry) -> Result<Vec<u8>, OutOfMemory>
    ensures { IfOk result (λ text. text.items ≡ shown entry.now.path (print_lines entry.now.value)) }
{
    print_marked(alloc, entry, b": ")
}

/// The record of an item, as a plan holds it: the path, a NUL and the canonical line of its setting with a newline.
/// `OutOfMemory` where no memory is left.
pub fn print_item(alloc: Global, item: &PlanItem) -> Result<Vec<u8>, OutOfMemory>
    ensures { IfOk result (λ text. text.items ≡ item.now.path ++ 0 ∷ print_setting_of item.now.setting) }
{
    let path = item.path();
    let mut text = Vec::with_capacity(alloc, path.len().saturating_add(LINE))?;
    append_bytes(&mut text, path)?;
    append_bytes(&mut text, b"\0")?;
    append_setting(&mut text, item.setting())?;
    append_newline(&mut text)?;
    Ok(text)
}

/// Adds the records of an entry. After `OutOfMemory` the bytes are as before.
pub fn append_entry(out: &mut Vec<u8>, entry: &Entry) -> Result<(), OutOfMemory>
    ensures added { OnOk result
        (out.new.items ≡ out.old.items ++ records entry.now.path (print_lines entry.now.value)) }
    ensures kept { OnErr result (out.new.items ≡ out.old.items) }
{
    let text = print_entry(*out.allocator(), entry)?;
    append_bytes(out, text.as_slice())
}

/// Adds the record of an item. After `OutOfMemory` the bytes are as before.
pub fn append_item(out: &mut Vec<u8>, item: &PlanItem) -> Result<(), OutOfMemory>
    ensures added { OnOk result (out.new.items ≡ out.old.items ++
        (item.now.path ++ 0 ∷ print_setting_of item.now.setting)) }
    ensures kept { OnErr result (out.new.items ≡ out.old.items) }
{
    let text = print_item(*out.allocator(), item)?;
    append_bytes(out, text.as_slice())
}

/// Writes the records of an entry. Where the sink fails, it has the first `written` bytes of them.
pub fn write_entry<W: Sink>(
    alloc: Global,
    entry: &Entry,
    writer: &mut W,
) -> Result<(), EntryWriteFault>
    ensures { WroteEntry (records entry.now.path (print_lines entry.now.value))
        (W.taken writer.old) (W.taken writer.new) (W.has_failed writer.old) (W.has_failed writer.new) result }
{
    let text = match print_entry(alloc, entry) {
        Ok(text) => text,
        Err(OutOfMemory) => return Err(EntryWriteFault::OutOfMemory),
    };
    match write_text(writer, text.as_slice()) {
        Ok(()) => Ok(()),
        Err(WriteStopped { written }) => Err(EntryWriteFault::Device { written }),
    }
}
