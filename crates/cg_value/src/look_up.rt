//! Look-ups in values.
ghost use Rattle.std.specs.Prelude.{◌≡◌};
ghost use Rattle.cg_value.specs.LookUp.{is_of, number_in, pair_amount, line_amount, amount_in, line_weight, weight_in};

use crate::value::{StatLine, StatPair, Value, WeightLine};
use cg_index::KeyedItems;
use cg_text::{Amount, Device};

/// The amount of the pair that has the sub-key.
fn pair_amount(pairs: &KeyedItems<StatPair>, key: &[u8]) -> Option<Amount>
    ensures { result ≡ pair_amount key.now pairs.now }
{
    let pair = pairs.get(pairs.find(key)?)?;
    Some(pair.amount)
}

/// Whether a line's device is this one.
fn is_of(own: Option<Device>, device: Device) -> bool
    ensures { result ≡ is_of own device }
{
    match own {
        Some(own) => own == device,
        None => false,
    }
}

/// The amount of the sub-key in the first line of the device that has it.
fn line_amount(lines: &[StatLine], device: Device, key: &[u8]) -> Option<Amount>
    ensures { result ≡ line_amount device key.now lines.now }
{
    for line in lines {
        if is_of(line.device, device) {
            if let Some(amount) = pair_amount(&line.pairs, key) {
                return Some(amount);
            }
        }
    }
    None
}

/// The weight of the first line of the device, else the default.
fn line_weight(lines: &[WeightLine], device: Device, default: u64) -> u64
    ensures { result ≡ line_weight device default lines.now }
{
    for line in lines {
        if is_of(line.device, device) {
            return line.weight;
        }
    }
    default
}

impl Value {
    /// The number of the key in a flat value. Another value has none. It takes no memory.
    pub fn number_of(&self, key: &[u8]) -> Option<u64>
        ensures { result ≡ number_in self.now key.now }
    {
        match self {
            Value::Flat(flat) => flat.get(key),
            _ => None,
        }
    }

    /// What the device did, from its first line that has the sub-key (cgroup-v2.rst, io.stat). No line of a device
    /// that is gone is looked at. A value of another kind has none. It takes no memory.
    pub fn amount_of(&self, device: Device, key: &[u8]) -> Option<Amount>
        ensures { result ≡ amount_in self.now device key.now }
    {
        match self {
            Value::DeviceStats(lines) => line_amount(lines.as_slice(), device, key),
            _ => None,
        }
    }

    /// The weight of the device: of its first line, else the default (cgroup-v2.rst, io.weight). No line of a device
    /// that is gone is looked at. A value of another kind has none. It takes no memory.
    pub fn weight_of(&self, device: Device) -> Option<u64>
        ensures { result ≡ weight_in self.now device }
    {
        match self {
            Value::DeviceWeights { default, lines } => {
                Some(line_weight(lines.as_slice(), device, *default))
            }
            _ => None,
        }
    }
}
