//! Pressure stall information.
ghost use Rattle.std.specs.Prelude.{◌≡◌, ◌++◌, IfOk, OnOk};
ghost use Rattle.serde_json.specs.View.{view};
ghost use Rattle.serde_json.specs.Written.{compact_text};
ghost use Rattle.cg_json.specs.Json.{averages_data, pressure_data};

use crate::compact::{append_byte, append_labelled};
use crate::json::Json;
use cg_text::OutOfMemory;
use cg_value::Averages;
use serde_json::{Map, Value};
use std::alloc::Global;

/// The averages in hundredths, and the total.
impl Json for Averages {
    ghost tree_of = { averages_data };

    fn json(&self, alloc: Global) -> Result<Value, OutOfMemory> {
        let mut map = Map::new(alloc);
        serde_json::put(&mut map, alloc, "avg10", self.avg10.json(alloc)?)?;
        serde_json::put(&mut map, alloc, "avg300", self.avg300.json(alloc)?)?;
        serde_json::put(&mut map, alloc, "avg60", self.avg60.json(alloc)?)?;
        serde_json::put(&mut map, alloc, "total", self.total.json(alloc)?)?;
        Ok(Value::Object(map))
    }

    fn append_to(&self, out: &mut Vec<u8>) -> Result<(), OutOfMemory> {
        append_labelled(out, b"{\"avg10\":", &self.avg10)?;
        append_labelled(out, b",\"avg300\":", &self.avg300)?;
        append_labelled(out, b",\"avg60\":", &self.avg60)?;
        append_labelled(out, b",\"total\":", &self.total)?;
        append_byte(out, b'}')
    }
}

/// What some tasks and what all tasks lose, each where it is given.
pub(crate) fn pressure(
    alloc: Global,
    some: Option<Averages>,
    full: Option<Averages>,
) -> Result<Value, OutOfMemory>
    ensures { IfOk result (λ tree. view tree ≡ pressure_data some full) }
{
    let mut map = Map::new(alloc);
    serde_json::put(&mut map, alloc, "full", full.json(alloc)?)?;
    serde_json::put(&mut map, alloc, "some", some.json(alloc)?)?;
    Ok(Value::Object(map))
}

/// Adds what some tasks and what all tasks lose, each where it is given.
pub(crate) fn append_pressure(
    out: &mut Vec<u8>,
    some: Option<Averages>,
    full: Option<Averages>,
) -> Result<(), OutOfMemory>
    ensures { OnOk result (out.new.items ≡ out.old.items ++ compact_text (pressure_data some full)) }
{
    append_labelled(out, b"{\"full\":", &full)?;
    append_labelled(out, b",\"some\":", &some)?;
    append_byte(out, b'}')
}
