//! What is told of devices, line by line.
ghost use Rattle.std.specs.Prelude.{◌≡◌, ◌++◌, IfOk, OnOk};
ghost use Rattle.serde_json.specs.View.{view};
ghost use Rattle.serde_json.specs.Written.{compact_text};
ghost use Rattle.cg_json.specs.Json.{stat_data, limits_data, weight_data, target_data, params_data, weights_data};

use crate::compact::{append_array, append_byte, append_bytes, append_labelled};
use crate::json::{Json, array};
use cg_text::OutOfMemory;
use cg_value::{LimitLine, ParamLine, StatLine, TargetLine, WeightLine};
use serde_json::{Map, Value};
use std::alloc::Global;

/// The device and the object of its amounts. The pad isn't shown.
impl Json for StatLine {
    ghost tree_of = { stat_data };

    fn json(&self, alloc: Global) -> Result<Value, OutOfMemory> {
        let mut map = Map::new(alloc);
        serde_json::put(&mut map, alloc, "device", self.device.json(alloc)?)?;
        serde_json::put(&mut map, alloc, "stats", self.pairs.json(alloc)?)?;
        Ok(Value::Object(map))
    }

    fn append_to(&self, out: &mut Vec<u8>) -> Result<(), OutOfMemory> {
        append_labelled(out, b"{\"device\":", &self.device)?;
        append_labelled(out, b",\"stats\":", &self.pairs)?;
        append_byte(out, b'}')
    }
}

/// The device and its four limits.
impl Json for LimitLine {
    ghost tree_of = { limits_data };

    fn json(&self, alloc: Global) -> Result<Value, OutOfMemory> {
        let mut map = Map::new(alloc);
        serde_json::put(&mut map, alloc, "device", self.device.json(alloc)?)?;
        serde_json::put(&mut map, alloc, "rbps", self.rbps.json(alloc)?)?;
        serde_json::put(&mut map, alloc, "riops", self.riops.json(alloc)?)?;
        serde_json::put(&mut map, alloc, "wbps", self.wbps.json(alloc)?)?;
        serde_json::put(&mut map, alloc, "wiops", self.wiops.json(alloc)?)?;
        Ok(Value::Object(map))
    }

    fn append_to(&self, out: &mut Vec<u8>) -> Result<(), OutOfMemory> {
        append_labelled(out, b"{\"device\":", &self.device)?;
        append_labelled(out, b",\"rbps\":", &self.rbps)?;
        append_labelled(out, b",\"riops\":", &self.riops)?;
        append_labelled(out, b",\"wbps\":", &self.wbps)?;
        append_labelled(out, b",\"wiops\":", &self.wiops)?;
        append_byte(out, b'}')
    }
}

/// The device and its weight.
impl Json for WeightLine {
    ghost tree_of = { weight_data };

    fn json(&self, alloc: Global) -> Result<Value, OutOfMemory> {
        let mut map = Map::new(alloc);
        serde_json::put(&mut map, alloc, "device", self.device.json(alloc)?)?;
        serde_json::put(&mut map, alloc, "weight", self.weight.json(alloc)?)?;
        Ok(Value::Object(map))
    }

    fn append_to(&self, out: &mut Vec<u8>) -> Result<(), OutOfMemory> {
        append_labelled(out, b"{\"device\":", &self.device)?;
        append_labelled(out, b",\"weight\":", &self.weight)?;
        append_byte(out, b'}')
    }
}

/// The device and its target.
impl Json for TargetLine {
    ghost tree_of = { target_data };

    fn json(&self, alloc: Global) -> Result<Value, OutOfMemory> {
        let mut map = Map::new(alloc);
        serde_json::put(&mut map, alloc, "device", self.device.json(alloc)?)?;
        serde_json::put(&mut map, alloc, "target", self.target.json(alloc)?)?;
        Ok(Value::Object(map))
    }

    fn append_to(&self, out: &mut Vec<u8>) -> Result<(), OutOfMemory> {
        append_labelled(out, b"{\"device\":", &self.device)?;
        append_labelled(out, b",\"target\":", &self.target)?;
        append_byte(out, b'}')
    }
}

/// The device and the object of its parameters.
impl Json for ParamLine {
    ghost tree_of = { params_data };

    fn json(&self, alloc: Global) -> Result<Value, OutOfMemory> {
        let mut map = Map::new(alloc);
        serde_json::put(&mut map, alloc, "device", self.device.json(alloc)?)?;
        serde_json::put(&mut map, alloc, "params", self.params.json(alloc)?)?;
        Ok(Value::Object(map))
    }

    fn append_to(&self, out: &mut Vec<u8>) -> Result<(), OutOfMemory> {
        append_labelled(out, b"{\"device\":", &self.device)?;
        append_labelled(out, b",\"params\":", &self.params)?;
        append_byte(out, b'}')
    }
}

/// The default weight and those of the devices.
pub(crate) fn weights(
    alloc: Global,
    default: u64,
    lines: &[WeightLine],
) -> Result<Value, OutOfMemory>
    ensures { IfOk result (λ tree. view tree ≡ weights_data default lines.now) }
{
    let mut map = Map::new(alloc);
    serde_json::put(&mut map, alloc, "default", default.json(alloc)?)?;
    serde_json::put(&mut map, alloc, "devices", array(alloc, lines)?)?;
    Ok(Value::Object(map))
}

/// Adds the default weight and those of the devices.
pub(crate) fn append_weights(
    out: &mut Vec<u8>,
    default: u64,
    lines: &[WeightLine],
) -> Result<(), OutOfMemory>
    ensures { OnOk result (out.new.items ≡ out.old.items ++ compact_text (weights_data default lines.now)) }
{
    append_labelled(out, b"{\"default\":", &default)?;
    append_bytes(out, b",\"devices\":")?;
    append_array(out, lines)?;
    append_byte(out, b'}')
}
