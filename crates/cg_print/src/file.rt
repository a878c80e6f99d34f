//! The canonical text of a file.
ghost use Rattle.std.specs.Prelude.{◌≡◌, ◌++◌, ◌∷◌, [], IfOk, OnOk, decimal, map, codes};
ghost use Rattle.cg_value.specs.Kind.{IsReadForm};
ghost use Rattle.cg_value.specs.Files.{Fits, KindText};
ghost use Rattle.cg_value.specs.Print.{print_limit, print_default_line, print_weight_line, print_partition, print_pressure_line, print_node_stats, print_lines, print_of};
ghost use Rattle.cg_value.specs.declared.kind.ReadForm.{ReadForm};
ghost use Rattle.cg_print.specs.Headed.{headed};

use crate::canonical::{
    Canonical, append_bytes, append_keyed_lines, append_labelled, append_line, append_lines,
    append_newline, append_spaced,
};
use cg_index::KeyedItems;
use cg_text::{Items, Limit, OutOfMemory};
use cg_value::{Averages, NestedPair, RawLines, Role, Value, WeightLine};
use std::alloc::Global;

/// The canonical text of a value: the text of the file that holds it, which is whole lines, each with its newline. It
/// depends on the value alone, and the text of no words is one newline. `OutOfMemory` where no memory is left.
pub fn print_file(alloc: Global, value: &Value) -> Result<Vec<u8>, OutOfMemory>
    ensures text { IfOk result (λ text. text.items ≡ print_of value.now) }
    ensures in_grammar { IfOk result (λ text. (kind : ReadForm) →
        IsReadForm kind → Fits kind value.now → KindText kind value.now text.items) }
{
    let mut text = Vec::new(alloc);
    append_value(&mut text, b"", value)?;
    Ok(text)
}

/// Adds the canonical lines of a value, each after the head.
pub(crate) fn append_value(
    text: &mut Vec<u8>,
    head: &[u8],
    value: &Value,
) -> Result<(), OutOfMemory>
    ensures { OnOk result (text.new.items ≡ text.old.items ++ headed head.now (print_lines value.now)) }
{
    match value {
        Value::Number(number) => append_line(text, head, number),
        Value::Signed(number) => append_line(text, head, number),
        Value::Limit(limit) => append_line(text, head, limit),
        Value::Mode(mode) => append_line(text, head, mode),
        Value::Class(class) => append_line(text, head, class),
        Value::CpuMax { quota, period } => append_cpu_max(text, head, *quota, *period),
        Value::Clamp(clamp) => append_line(text, head, clamp),
        Value::Numbers(numbers) => append_lines(text, head, numbers.as_slice()),
        Value::Words(words) => append_line(text, head, words),
        Value::Flat(flat) => append_lines(text, head, flat.pairs()),
        Value::FlatLimits(pairs) => append_keyed_lines(text, head, pairs),
        Value::DeviceStats(lines) => append_lines(text, head, lines.as_slice()),
        Value::DeviceLimits(lines) => append_lines(text, head, lines.as_slice()),
        Value::DeviceWeights { default, lines } => append_weights(
            text,
            head,
            *default,
            lines.as_slice(),
        ),
        Value::DeviceTargets(lines) => append_lines(text, head, lines.as_slice()),
        Value::DeviceParams(lines) => append_lines(text, head, lines.as_slice()),
        Value::Set(set) => append_line(text, head, set),
        Value::Partition {
            role,
            valid,
            reason,
        } => append_partition(text, head, *role, *valid, reason),
        Value::Pressure { some, full } => append_pressure(text, head, *some, *full),
        Value::Nested(lines) => append_keyed_lines(text, head, lines),
        Value::NodeStats { total, nodes } => append_node_stats(text, head, *total, nodes),
        Value::Raw(lines) => append_raw_lines(text, head, lines),
    }
}

/// Adds the line of a quota and a period, as `max 100000`.
fn append_cpu_max(
    text: &mut Vec<u8>,
    head: &[u8],
    quota: Limit,
    period: u64,
) -> Result<(), OutOfMemory>
    ensures { OnOk result
        (text.new.items ≡ text.old.items ++ headed head.now ((print_limit quota ++ 32 ∷ decimal period) ∷ [])) }
{
    append_labelled(text, head, &quota)?;
    append_labelled(text, b" ", &period)?;
    append_newline(text)
}

/// Adds the line of the default weight and those of the devices.
fn append_weights(
    text: &mut Vec<u8>,
    head: &[u8],
    default: u64,
    lines: &[WeightLine],
) -> Result<(), OutOfMemory>
    ensures { OnOk result (text.new.items ≡ text.old.items
        ++ headed head.now (print_default_line default ∷ map print_weight_line lines.now)) }
{
    append_bytes(text, head)?;
    append_labelled(text, b"default ", &default)?;
    append_newline(text)?;
    append_lines(text, head, lines)
}

/// Adds the line of a partition, as `root` or `root invalid (Parent is not a partition root)`.
fn append_partition(
    text: &mut Vec<u8>,
    head: &[u8],
    role: Role,
    valid: bool,
    reason: &Option<Items<u8>>,
) -> Result<(), OutOfMemory>
    ensures { OnOk result (text.new.items ≡ text.old.items
        ++ headed head.now (print_partition role valid reason.now ∷ [])) }
{
    append_labelled(text, head, &role)?;
    if !valid {
        append_bytes(text, b" invalid")?;
        if let Some(reason) = reason {
            append_labelled(text, b" (", reason)?;
            append_bytes(text, b")")?;
        }
    }
    append_newline(text)
}

/// Adds the line of `some` and that of `full`, where they are given.
fn append_pressure(
    text: &mut Vec<u8>,
    head: &[u8],
    some: Option<Averages>,
    full: Option<Averages>,
) -> Result<(), OutOfMemory>
    ensures { OnOk result (text.new.items ≡ text.old.items
        ++ headed head.now (print_pressure_line (codes "some") some
        ++ print_pressure_line (codes "full") full)) }
{
    append_pressure_line(text, head, b"some", some)?;
    append_pressure_line(text, head, b"full", full)
}

/// Adds the line of a word and its averages, where they are given.
fn append_pressure_line(
    text: &mut Vec<u8>,
    head: &[u8],
    word: &[u8],
    averages: Option<Averages>,
) -> Result<(), OutOfMemory>
    ensures { OnOk result (text.new.items ≡ text.old.items
        ++ headed head.now (print_pressure_line word.now averages)) }
{
    match averages {
        Some(averages) => {
            append_bytes(text, head)?;
            append_labelled(text, word, &averages)?;
            append_newline(text)
        }
        None => Ok(()),
    }
}

/// Adds the line of a total and its pairs, as `total=4096 N0=4096 N1=0`.
fn append_node_stats(
    text: &mut Vec<u8>,
    head: &[u8],
    total: u64,
    nodes: &KeyedItems<NestedPair>,
) -> Result<(), OutOfMemory>
    ensures { OnOk result (text.new.items ≡ text.old.items
        ++ headed head.now (print_node_stats total nodes.now ∷ [])) }
{
    append_bytes(text, head)?;
    append_labelled(text, b"total=", &total)?;
    append_spaced(text, nodes)?;
    append_newline(text)
}

/// Adds lines of bytes, each after the head.
fn append_raw_lines(text: &mut Vec<u8>, head: &[u8], lines: &RawLines) -> Result<(), OutOfMemory>
    ensures { OnOk result (text.new.items ≡ text.old.items ++ headed head.now lines.now) }
{
    if head.is_empty() {
        return append_bytes(text, lines.text());
    }
    for line in lines.lines() {
        append_bytes(text, head)?;
        append_bytes(text, line)?;
        append_newline(text)?;
    }
    Ok(())
}
