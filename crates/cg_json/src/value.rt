//! The JSON trees of values.
ghost use Rattle.std.specs.Prelude.{◌≡◌};
ghost use Rattle.cg_json.specs.Value.{kind_word, value_data};

use crate::compact::{append_array, append_object};
use crate::cpuset::{append_cpu_max, append_partition, cpu_max, partition};
use crate::devices::{append_weights, weights};
use crate::json::{Json, array, object};
use crate::keyed::{append_node_stats, node_stats};
use crate::pressure::{append_pressure, pressure};
use crate::text::{append_texts, texts};
use cg_text::OutOfMemory;
use cg_value::Value;
use std::alloc::Global;

/// The word of the kind of files that hold such a value.
pub(crate) fn kind_word(value: &Value) -> &'static str
    ensures { result.now ≡ kind_word value.now }
{
    match value {
        Value::Number(_) => "number",
        Value::Signed(_) => "signed",
        Value::Limit(_) => "limit",
        Value::Mode(_) => "mode",
        Value::Class(_) => "class",
        Value::CpuMax { .. } => "cpu_max",
        Value::Clamp(_) => "clamp",
        Value::Numbers(_) => "numbers",
        Value::Words(_) => "words",
        Value::Flat(_) => "flat",
        Value::FlatLimits(_) => "flat_limits",
        Value::DeviceStats(_) => "device_stats",
        Value::DeviceLimits(_) => "device_limits",
        Value::DeviceWeights { .. } => "device_weights",
        Value::DeviceTargets(_) => "device_targets",
        Value::DeviceParams(_) => "device_params",
        Value::Set(_) => "set",
        Value::Partition { .. } => "partition",
        Value::Pressure { .. } => "pressure",
        Value::Nested(_) => "nested",
        Value::NodeStats { .. } => "node_stats",
        Value::Raw(_) => "raw",
    }
}

/// The JSON tree of a value.
impl Json for Value {
    ghost tree_of = { value_data };

    fn json(&self, alloc: Global) -> Result<serde_json::Value, OutOfMemory> {
        match self {
            Value::Number(number) => number.json(alloc),
            Value::Signed(number) => number.json(alloc),
            Value::Limit(limit) => limit.json(alloc),
            Value::Mode(mode) => mode.json(alloc),
            Value::Class(class) => class.json(alloc),
            Value::CpuMax { quota, period } => cpu_max(alloc, *quota, *period),
            Value::Clamp(clamp) => clamp.json(alloc),
            Value::Numbers(numbers) => array(alloc, numbers.as_slice()),
            Value::Words(words) => array(alloc, words.cells()),
            Value::Flat(flat) => object(alloc, flat.pairs()),
            Value::FlatLimits(pairs) => pairs.json(alloc),
            Value::DeviceStats(lines) => array(alloc, lines.as_slice()),
            Value::DeviceLimits(lines) => array(alloc, lines.as_slice()),
            Value::DeviceWeights { default, lines } => weights(alloc, *default, lines.as_slice()),
            Value::DeviceTargets(lines) => array(alloc, lines.as_slice()),
            Value::DeviceParams(lines) => array(alloc, lines.as_slice()),
            Value::Set(set) => array(alloc, set.ranges()),
            Value::Partition {
                role,
                valid,
                reason,
            } => partition(alloc, *role, *valid, reason),
            Value::Pressure { some, full } => pressure(alloc, *some, *full),
            Value::Nested(lines) => lines.json(alloc),
            Value::NodeStats { total, nodes } => node_stats(alloc, *total, nodes),
            Value::Raw(lines) => texts(alloc, lines),
        }
    }

    fn append_to(&self, out: &mut Vec<u8>) -> Result<(), OutOfMemory> {
        match self {
            Value::Number(number) => number.append_to(out),
            Value::Signed(number) => number.append_to(out),
            Value::Limit(limit) => limit.append_to(out),
            Value::Mode(mode) => mode.append_to(out),
            Value::Class(class) => class.append_to(out),
            Value::CpuMax { quota, period } => append_cpu_max(out, *quota, *period),
            Value::Clamp(clamp) => clamp.append_to(out),
            Value::Numbers(numbers) => append_array(out, numbers.as_slice()),
            Value::Words(words) => append_array(out, words.cells()),
            Value::Flat(flat) => append_object(out, flat.pairs()),
            Value::FlatLimits(pairs) => pairs.append_to(out),
            Value::DeviceStats(lines) => append_array(out, lines.as_slice()),
            Value::DeviceLimits(lines) => append_array(out, lines.as_slice()),
            Value::DeviceWeights { default, lines } => append_weights(
                out,
                *default,
                lines.as_slice(),
            ),
            Value::DeviceTargets(lines) => append_array(out, lines.as_slice()),
            Value::DeviceParams(lines) => append_array(out, lines.as_slice()),
            Value::Set(set) => append_array(out, set.ranges()),
            Value::Partition {
                role,
                valid,
                reason,
            } => append_partition(out, *role, *valid, reason),
            Value::Pressure { some, full } => append_pressure(out, *some, *full),
            Value::Nested(lines) => lines.append_to(out),
            Value::NodeStats { total, nodes } => append_node_stats(out, *total, nodes),
            Value::Raw(lines) => append_texts(out, lines),
        }
    }
}
