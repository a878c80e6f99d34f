//! Numbers, words and devices.
ghost use Rattle.std.specs.Prelude.{◌≡◌};
ghost use Rattle.serde_json.specs.Data.{string};
ghost use Rattle.cg_text.specs.Class.{class_text};
ghost use Rattle.cg_value.specs.ReadLine.{mode_text, role_text};
ghost use Rattle.cg_json.specs.Json.{number_data, signed_data, limit_data, hundredths_data, clamp_data, below_zero, amount_data, param_data, device_data, given_data};

use crate::compact::{append_byte, append_bytes, append_labelled};
use crate::json::Json;
use crate::text::{append_string, string};
use cg_text::{Amount, Clamp, Device, Hundredths, IoClass, Limit, OutOfMemory, ParamValue};
use cg_value::{GroupMode, Role};
use itoa::Buffer;
use serde_json::{Map, Value};
use std::alloc::Global;

impl Json for u8 {
    ghost tree_of = { number_data };

    fn json(&self, _alloc: Global) -> Result<Value, OutOfMemory> {
        Ok(Value::from(*self))
    }

    fn append_to(&self, out: &mut Vec<u8>) -> Result<(), OutOfMemory> {
        let mut digits = Buffer::new();
        append_bytes(out, digits.format(*self).as_bytes())
    }
}

impl Json for u32 {
    ghost tree_of = { number_data };

    fn json(&self, _alloc: Global) -> Result<Value, OutOfMemory> {
        Ok(Value::from(*self))
    }

    fn append_to(&self, out: &mut Vec<u8>) -> Result<(), OutOfMemory> {
        let mut digits = Buffer::new();
        append_bytes(out, digits.format(*self).as_bytes())
    }
}

impl Json for u64 {
    ghost tree_of = { number_data };

    fn json(&self, _alloc: Global) -> Result<Value, OutOfMemory> {
        Ok(Value::from(*self))
    }

    fn append_to(&self, out: &mut Vec<u8>) -> Result<(), OutOfMemory> {
        let mut digits = Buffer::new();
        append_bytes(out, digits.format(*self).as_bytes())
    }
}

impl Json for i64 {
    ghost tree_of = { signed_data };

    fn json(&self, _alloc: Global) -> Result<Value, OutOfMemory> {
        Ok(Value::from(*self))
    }

    fn append_to(&self, out: &mut Vec<u8>) -> Result<(), OutOfMemory> {
        let mut digits = Buffer::new();
        append_bytes(out, digits.format(*self).as_bytes())
    }
}

/// A limit: its number, or `"max"`.
impl Json for Limit {
    ghost tree_of = { limit_data };

    fn json(&self, alloc: Global) -> Result<Value, OutOfMemory> {
        match self {
            Limit::Max => string(alloc, "max"),
            Limit::At(number) => number.json(alloc),
        }
    }

    fn append_to(&self, out: &mut Vec<u8>) -> Result<(), OutOfMemory> {
        match self {
            Limit::Max => append_string(out, "max"),
            Limit::At(number) => number.append_to(out),
        }
    }
}

/// The number of hundredths.
impl Json for Hundredths {
    ghost tree_of = { hundredths_data };

    fn json(&self, alloc: Global) -> Result<Value, OutOfMemory> {
        self.count.json(alloc)
    }

    fn append_to(&self, out: &mut Vec<u8>) -> Result<(), OutOfMemory> {
        self.count.append_to(out)
    }
}

/// A clamp: its number of hundredths, or `"max"`.
impl Json for Clamp {
    ghost tree_of = { clamp_data };

    fn json(&self, alloc: Global) -> Result<Value, OutOfMemory> {
        match self {
            Clamp::Max => string(alloc, "max"),
            Clamp::At(percentage) => percentage.json(alloc),
        }
    }

    fn append_to(&self, out: &mut Vec<u8>) -> Result<(), OutOfMemory> {
        match self {
            Clamp::Max => append_string(out, "max"),
            Clamp::At(percentage) => percentage.append_to(out),
        }
    }
}

/// The number that is so much below 0, or the lowest where it is lower still.
fn below_zero(number: u64) -> i64
    ensures { result ≡ below_zero number }
{
    match i64::try_from(number) {
        Ok(number) => -number,
        Err(_) => i64::MIN,
    }
}

/// An amount: a number, an object with its hundredths, or `"max"`.
impl Json for Amount {
    ghost tree_of = { amount_data };

    fn json(&self, alloc: Global) -> Result<Value, OutOfMemory> {
        match self {
            Amount::Whole(number) => number.json(alloc),
            Amount::Decimal(hundredths) => {
                let mut map = Map::new(alloc);
                serde_json::put(&mut map, alloc, "hundredths", hundredths.json(alloc)?)?;
                Ok(Value::Object(map))
            }
            Amount::Max => string(alloc, "max"),
            Amount::Below(number) => below_zero(*number).json(alloc),
        }
    }

    fn append_to(&self, out: &mut Vec<u8>) -> Result<(), OutOfMemory> {
        match self {
            Amount::Whole(number) => number.append_to(out),
            Amount::Decimal(hundredths) => {
                append_labelled(out, b"{\"hundredths\":", hundredths)?;
                append_byte(out, b'}')
            }
            Amount::Max => append_string(out, "max"),
            Amount::Below(number) => below_zero(*number).append_to(out),
        }
    }
}

/// A parameter: a number, an object with its hundredths, or its name.
impl Json for ParamValue {
    ghost tree_of = { param_data };

    fn json(&self, alloc: Global) -> Result<Value, OutOfMemory> {
        match self {
            ParamValue::Whole(number) => number.json(alloc),
            ParamValue::Decimal(number) => Amount::Decimal(*number).json(alloc),
            ParamValue::Name(name) => name.json(alloc),
        }
    }

    fn append_to(&self, out: &mut Vec<u8>) -> Result<(), OutOfMemory> {
        match self {
            ParamValue::Whole(number) => number.append_to(out),
            ParamValue::Decimal(number) => Amount::Decimal(*number).append_to(out),
            ParamValue::Name(name) => name.append_to(out),
        }
    }
}

/// A device, as `"8:0"`.
impl Json for Device {
    ghost tree_of = { device_data };

    fn json(&self, alloc: Global) -> Result<Value, OutOfMemory> {
        Ok(Value::String(format!(in alloc; "{}:{}", self.major, self.minor)?))
    }

    fn append_to(&self, out: &mut Vec<u8>) -> Result<(), OutOfMemory> {
        let Device { major, minor } = *self;
        append_byte(out, b'"')?;
        major.append_to(out)?;
        append_byte(out, b':')?;
        minor.append_to(out)?;
        append_byte(out, b'"')
    }
}

impl Json for GroupMode {
    ghost tree_of = { λ mode. string (mode_text mode) };

    fn json(&self, alloc: Global) -> Result<Value, OutOfMemory> {
        match self {
            GroupMode::Domain => string(alloc, "domain"),
            GroupMode::DomainThreaded => string(alloc, "domain threaded"),
            GroupMode::DomainInvalid => string(alloc, "domain invalid"),
            GroupMode::Threaded => string(alloc, "threaded"),
        }
    }

    fn append_to(&self, out: &mut Vec<u8>) -> Result<(), OutOfMemory> {
        match self {
            GroupMode::Domain => append_string(out, "domain"),
            GroupMode::DomainThreaded => append_string(out, "domain threaded"),
            GroupMode::DomainInvalid => append_string(out, "domain invalid"),
            GroupMode::Threaded => append_string(out, "threaded"),
        }
    }
}

impl Json for IoClass {
    ghost tree_of = { λ class. string (class_text class) };

    fn json(&self, alloc: Global) -> Result<Value, OutOfMemory> {
        string(alloc, self.word())
    }

    fn append_to(&self, out: &mut Vec<u8>) -> Result<(), OutOfMemory> {
        append_string(out, self.word())
    }
}

impl Json for Role {
    ghost tree_of = { λ role. string (role_text role) };

    fn json(&self, alloc: Global) -> Result<Value, OutOfMemory> {
        match self {
            Role::Member => string(alloc, "member"),
            Role::Root => string(alloc, "root"),
            Role::Isolated => string(alloc, "isolated"),
        }
    }

    fn append_to(&self, out: &mut Vec<u8>) -> Result<(), OutOfMemory> {
        match self {
            Role::Member => append_string(out, "member"),
            Role::Root => append_string(out, "root"),
            Role::Isolated => append_string(out, "isolated"),
        }
    }
}

/// What is given, or `null`.
impl<T: Json> Json for Option<T> {
    ghost tree_of = { given_data T.tree_of };

    fn json(&self, alloc: Global) -> Result<Value, OutOfMemory> {
        match self {
            Some(value) => value.json(alloc),
            None => Ok(Value::Null),
        }
    }

    fn append_to(&self, out: &mut Vec<u8>) -> Result<(), OutOfMemory> {
        match self {
            Some(value) => value.append_to(out),
            None => append_bytes(out, b"null"),
        }
    }
}
