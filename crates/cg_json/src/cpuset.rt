//! Sets of numbers, partitions, and processor time.
ghost use Rattle.std.specs.Prelude.{◌≡◌, ◌++◌, IfOk, OnOk};
ghost use Rattle.serde_json.specs.View.{view};
ghost use Rattle.serde_json.specs.Written.{compact_text};
ghost use Rattle.cg_json.specs.Json.{range_data, partition_data, cpu_max_data};

use crate::compact::{append_byte, append_bytes, append_labelled};
use crate::json::Json;
use cg_text::{Items, Limit, OutOfMemory};
use cg_value::Role;
use serde_json::{Map, Value};
use std::alloc::Global;

/// The first and the last number of a range.
impl Json for (u32, u32) {
    ghost tree_of = { range_data };

    fn json(&self, alloc: Global) -> Result<Value, OutOfMemory> {
        let (first, last) = self;
        let mut list = Vec::new(alloc);
        list.push(first.json(alloc)?)?;
        list.push(last.json(alloc)?)?;
        Ok(Value::Array(list))
    }

    fn append_to(&self, out: &mut Vec<u8>) -> Result<(), OutOfMemory> {
        let (first, last) = self;
        append_byte(out, b'[')?;
        first.append_to(out)?;
        append_byte(out, b',')?;
        last.append_to(out)?;
        append_byte(out, b']')
    }
}

/// A partition's role, whether it is valid, and why it is not, where that is known.
pub(crate) fn partition(
    alloc: Global,
    role: Role,
    valid: bool,
    reason: &Option<Items<u8>>,
) -> Result<Value, OutOfMemory>
    ensures { IfOk result (λ tree. view tree ≡ partition_data role valid reason.now) }
{
    let mut map = Map::new(alloc);
    serde_json::put(&mut map, alloc, "reason", reason.json(alloc)?)?;
    serde_json::put(&mut map, alloc, "role", role.json(alloc)?)?;
    serde_json::put(&mut map, alloc, "valid", Value::Bool(valid))?;
    Ok(Value::Object(map))
}

/// Adds a partition's role, whether it is valid, and why it is not, where that is known.
pub(crate) fn append_partition(
    out: &mut Vec<u8>,
    role: Role,
    valid: bool,
    reason: &Option<Items<u8>>,
) -> Result<(), OutOfMemory>
    ensures { OnOk result (out.new.items ≡ out.old.items
        ++ compact_text (partition_data role valid reason.now)) }
{
    append_labelled(out, b"{\"reason\":", reason)?;
    append_labelled(out, b",\"role\":", &role)?;
    if valid {
        append_bytes(out, b",\"valid\":true}")
    } else {
        append_bytes(out, b",\"valid\":false}")
    }
}

/// A quota and its period.
pub(crate) fn cpu_max(alloc: Global, quota: Limit, period: u64) -> Result<Value, OutOfMemory>
    ensures { IfOk result (λ tree. view tree ≡ cpu_max_data quota period) }
{
    let mut map = Map::new(alloc);
    serde_json::put(&mut map, alloc, "period", period.json(alloc)?)?;
    serde_json::put(&mut map, alloc, "quota", quota.json(alloc)?)?;
    Ok(Value::Object(map))
}

/// Adds a quota and its period.
pub(crate) fn append_cpu_max(
    out: &mut Vec<u8>,
    quota: Limit,
    period: u64,
) -> Result<(), OutOfMemory>
    ensures { OnOk result (out.new.items ≡ out.old.items ++ compact_text (cpu_max_data quota period)) }
{
    append_labelled(out, b"{\"period\":", &period)?;
    append_labelled(out, b",\"quota\":", &quota)?;
    append_byte(out, b'}')
}
