//! Canonical texts, one after another.
ghost use Rattle.std.specs.Prelude.{◌≡◌, ◌++◌, ◌∷◌, ℕ, List, [], Option, OnOk, OnErr, map};
ghost use Rattle.cg_value.specs.Print.{print_given, print_led};
ghost use Rattle.cg_print.specs.Joined.{led, joined};
ghost use Rattle.cg_print.specs.Headed.{headed};

use cg_index::{Cell, HasKey, KeyedItems};
use cg_text::OutOfMemory;

/// What has a canonical text.
pub(crate) trait Canonical {
    // The canonical text.
    ghost printed: { Self → List ℕ };

    /// Adds the canonical text.
    fn append_to(&self, out: &mut Vec<u8>) -> Result<(), OutOfMemory>
        ensures { OnOk result (out.new.items ≡ out.old.items ++ printed self.now) };
}

impl<T: Canonical> Canonical for Cell<T> {
    ghost printed = { λ cell. T.printed cell.item };

    fn append_to(&self, out: &mut Vec<u8>) -> Result<(), OutOfMemory> {
        self.item.append_to(out)
    }
}

/// Adds bytes.
pub(crate) fn append_bytes(out: &mut Vec<u8>, bytes: &[u8]) -> Result<(), OutOfMemory>
    ensures added { OnOk result (out.new.items ≡ out.old.items ++ bytes.now) }
    ensures kept { OnErr result (out.new.items ≡ out.old.items) }
{
    out.extend_from_slice(bytes)?;
    Ok(())
}

/// Adds a value with a label before it, as ` target=75`.
pub(crate) fn append_labelled<T: Canonical>(
    out: &mut Vec<u8>,
    label: &[u8],
    value: &T,
) -> Result<(), OutOfMemory>
    ensures { OnOk result (out.new.items ≡ out.old.items ++ label.now ++ T.printed value.now) }
{
    append_bytes(out, label)?;
    value.append_to(out)
}

/// Adds a value with a label before it, where it is given.
pub(crate) fn append_given<T: Canonical + Copy>(
    out: &mut Vec<u8>,
    label: &[u8],
    value: Option<T>,
) -> Result<(), OutOfMemory>
    ensures { OnOk result (out.new.items ≡ out.old.items ++ print_given label.now T.printed value) }
{
    match value {
        Some(value) => append_labelled(out, label, &value),
        None => Ok(()),
    }
}

/// Adds a newline.
pub(crate) fn append_newline(out: &mut Vec<u8>) -> Result<(), OutOfMemory>
    ensures { OnOk result (out.new.items ≡ out.old.items ++ 10 ∷ []) }
{
    out.push(b'\n')?;
    Ok(())
}

/// Adds a line after the head, with its newline.
pub(crate) fn append_line<T: Canonical>(
    out: &mut Vec<u8>,
    head: &[u8],
    line: &T,
) -> Result<(), OutOfMemory>
    ensures { OnOk result (out.new.items ≡ out.old.items ++ headed head.now (T.printed line.now ∷ [])) }
{
    append_labelled(out, head, line)?;
    append_newline(out)
}

/// Adds lines, each after the head and with its newline.
pub(crate) fn append_lines<T: Canonical>(
    out: &mut Vec<u8>,
    head: &[u8],
    lines: &[T],
) -> Result<(), OutOfMemory>
    ensures { OnOk result (out.new.items ≡ out.old.items ++ headed head.now (map T.printed lines.now)) }
{
    for line in lines {
        append_line(out, head, line)?;
    }
    Ok(())
}

/// Adds the lines of items that have keys, each after the head and with its newline.
pub(crate) fn append_keyed_lines<T: Canonical + HasKey>(
    out: &mut Vec<u8>,
    head: &[u8],
    lines: &KeyedItems<T>,
) -> Result<(), OutOfMemory>
    ensures { OnOk result (out.new.items ≡ out.old.items ++ headed head.now (map T.printed lines.now)) }
{
    append_lines(out, head, lines.cells())
}

/// Adds values, each with the mark before it.
fn append_led<T: Canonical>(out: &mut Vec<u8>, mark: u8, values: &[T]) -> Result<(), OutOfMemory>
    ensures { OnOk result (out.new.items ≡ out.old.items ++ led mark T.printed values.now) }
{
    for value in values {
        out.push(mark)?;
        value.append_to(out)?;
    }
    Ok(())
}

/// Adds items that have keys, each with a space before it.
pub(crate) fn append_spaced<T: Canonical + HasKey>(
    out: &mut Vec<u8>,
    items: &KeyedItems<T>,
) -> Result<(), OutOfMemory>
    ensures { OnOk result (out.new.items ≡ out.old.items ++ print_led T.printed items.now) }
{
    append_led(out, b' ', items.cells())
}

/// Adds values, with the mark between them.
pub(crate) fn append_joined<T: Canonical>(
    out: &mut Vec<u8>,
    mark: u8,
    values: &[T],
) -> Result<(), OutOfMemory>
    ensures { OnOk result (out.new.items ≡ out.old.items ++ joined mark T.printed values.now) }
{
    match values {
        [] => Ok(()),
        [first, others @ ..] => {
            first.append_to(out)?;
            append_led(out, mark, others)
        }
    }
}
