//! Pairs of a key and a number, and lines of such pairs.
ghost use Rattle.std.specs.Prelude.{◌≡◌, ◌++◌, IfOk, OnOk};
ghost use Rattle.serde_json.specs.View.{view};
ghost use Rattle.serde_json.specs.Written.{compact_text};
ghost use Rattle.cg_json.specs.Json.{keyed, number_data, amount_data, nested_data, node_stats_data, limit_data, param_data};

use crate::compact::{append_byte, append_labelled, append_object};
use crate::json::{Json, object};
use cg_index::{HasKey, KeyedItems};
use cg_text::OutOfMemory;
use cg_value::{FlatLimit, FlatPair, NestedLine, NestedPair, ParamPair, StatPair};
use serde_json::{Map, Value};
use std::alloc::Global;

/// The number.
impl Json for FlatPair {
    ghost tree_of = { λ pair. number_data pair.number };

    fn json(&self, alloc: Global) -> Result<Value, OutOfMemory> {
        self.number.json(alloc)
    }

    fn append_to(&self, out: &mut Vec<u8>) -> Result<(), OutOfMemory> {
        self.number.append_to(out)
    }
}

/// The limit.
impl Json for FlatLimit {
    ghost tree_of = { λ pair. limit_data pair.limit };

    fn json(&self, alloc: Global) -> Result<Value, OutOfMemory> {
        self.limit.json(alloc)
    }

    fn append_to(&self, out: &mut Vec<u8>) -> Result<(), OutOfMemory> {
        self.limit.append_to(out)
    }
}

/// The number.
impl Json for NestedPair {
    ghost tree_of = { λ pair. number_data pair.number };

    fn json(&self, alloc: Global) -> Result<Value, OutOfMemory> {
        self.number.json(alloc)
    }

    fn append_to(&self, out: &mut Vec<u8>) -> Result<(), OutOfMemory> {
        self.number.append_to(out)
    }
}

/// The amount.
impl Json for StatPair {
    ghost tree_of = { λ pair. amount_data pair.amount };

    fn json(&self, alloc: Global) -> Result<Value, OutOfMemory> {
        self.amount.json(alloc)
    }

    fn append_to(&self, out: &mut Vec<u8>) -> Result<(), OutOfMemory> {
        self.amount.append_to(out)
    }
}

/// The parameter.
impl Json for ParamPair {
    ghost tree_of = { λ pair. param_data pair.value };

    fn json(&self, alloc: Global) -> Result<Value, OutOfMemory> {
        self.value.json(alloc)
    }

    fn append_to(&self, out: &mut Vec<u8>) -> Result<(), OutOfMemory> {
        self.value.append_to(out)
    }
}

/// The object of these.
impl<T: Json + HasKey> Json for KeyedItems<T> {
    ghost tree_of = { λ items. keyed T.HasKey.key_of T.Json.tree_of items };

    fn json(&self, alloc: Global) -> Result<Value, OutOfMemory> {
        object(alloc, self.cells())
    }

    fn append_to(&self, out: &mut Vec<u8>) -> Result<(), OutOfMemory> {
        append_object(out, self.cells())
    }
}

/// The object of the pairs.
impl Json for NestedLine {
    ghost tree_of = { nested_data };

    fn json(&self, alloc: Global) -> Result<Value, OutOfMemory> {
        self.pairs.json(alloc)
    }

    fn append_to(&self, out: &mut Vec<u8>) -> Result<(), OutOfMemory> {
        self.pairs.append_to(out)
    }
}

/// A total and the object of its pairs.
pub(crate) fn node_stats(
    alloc: Global,
    total: u64,
    nodes: &KeyedItems<NestedPair>,
) -> Result<Value, OutOfMemory>
    ensures { IfOk result (λ tree. view tree ≡ node_stats_data total nodes.now) }
{
    let mut map = Map::new(alloc);
    serde_json::put(&mut map, alloc, "nodes", nodes.json(alloc)?)?;
    serde_json::put(&mut map, alloc, "total", total.json(alloc)?)?;
    Ok(Value::Object(map))
}

/// Adds a total and the object of its pairs.
pub(crate) fn append_node_stats(
    out: &mut Vec<u8>,
    total: u64,
    nodes: &KeyedItems<NestedPair>,
) -> Result<(), OutOfMemory>
    ensures { OnOk result (out.new.items ≡ out.old.items ++ compact_text (node_stats_data total nodes.now)) }
{
    append_labelled(out, b"{\"nodes\":", nodes)?;
    append_labelled(out, b",\"total\":", &total)?;
    append_byte(out, b'}')
}
