//! Copies of values.
ghost use Rattle.std.specs.Prelude.{◌≡◌, IfOk, map};
ghost use Rattle.cg_text.specs.Distinct.{AreDistinct};
ghost use Rattle.cg_index.specs.Cells.{item_of};

use crate::flat::Flat;
use crate::raw_lines::RawLines;
use crate::value::{
    FlatLimit, LimitLine, NestedLine, NestedPair, ParamLine, ParamPair, StatLine, StatPair,
    TargetLine, Value, WeightLine,
};
use cg_index::{Cell, HasKey, KeyedBuilder, KeyedItems};
use cg_text::{Items, Key, KeyFault, NumberSet, OutOfMemory, ParamValue};
use std::alloc::Global;

/// A value that can be copied where memory is left.
pub trait Copied: Drop {
    /// A copy. It shares nothing with the value.
    fn copy(&self, alloc: Global) -> Result<Self, OutOfMemory>
        ensures { IfOk result (λ copy. copy ≡ self.now) };
}

impl Copied for u8 {
    fn copy(&self, _alloc: Global) -> Result<u8, OutOfMemory> {
        Ok(*self)
    }
}

impl Copied for u64 {
    fn copy(&self, _alloc: Global) -> Result<u64, OutOfMemory> {
        Ok(*self)
    }
}

impl<T: Copied> Copied for Option<T> {
    fn copy(&self, alloc: Global) -> Result<Option<T>, OutOfMemory> {
        match self {
            Some(value) => Ok(Some(value.copy(alloc)?)),
            None => Ok(None),
        }
    }
}

impl<T: Copied> Copied for Items<T> {
    fn copy(&self, alloc: Global) -> Result<Items<T>, OutOfMemory> {
        let mut held = Vec::new(alloc);
        held.try_reserve_exact(self.as_slice().len())?;
        for item in self.as_slice() {
            held.push(item.copy(alloc)?)?;
        }
        Ok(Items::of(held))
    }
}

/// Copies of items whose keys are all different.
pub(crate) fn copy_all<T: Copied + HasKey>(
    alloc: Global,
    cells: &[Cell<T>],
) -> Result<KeyedBuilder<T>, OutOfMemory>
    requires { AreDistinct (map T.key_of (map item_of cells.now)) }
    ensures { IfOk result (λ copies. copies.items ≡ map item_of cells.now) }
{
    let mut copies = KeyedBuilder::new(alloc);
    for cell in cells {
        let copy = cell.item.copy(alloc)?;
        copies.reserve()?;
        copies.push(copy);
    }
    Ok(copies)
}

impl<T: Copied + HasKey> Copied for KeyedItems<T> {
    fn copy(&self, alloc: Global) -> Result<KeyedItems<T>, OutOfMemory> {
        Ok(copy_all(alloc, self.cells())?.finish())
    }
}

impl Copied for Key {
    fn copy(&self, alloc: Global) -> Result<Key, OutOfMemory> {
        match Key::new(alloc, self.bytes()) {
            Ok(key) => Ok(key),
            Err(KeyFault::OutOfMemory) => Err(OutOfMemory),
            Err(KeyFault::BadKey) => unreachable!(),
        }
    }
}

impl Copied for NumberSet {
    fn copy(&self, alloc: Global) -> Result<NumberSet, OutOfMemory> {
        NumberSet::copy(self, alloc)
    }
}

impl Copied for Flat {
    fn copy(&self, alloc: Global) -> Result<Flat, OutOfMemory> {
        Flat::copy(self, alloc)
    }
}

impl Copied for RawLines {
    fn copy(&self, alloc: Global) -> Result<RawLines, OutOfMemory> {
        RawLines::copy(self, alloc)
    }
}

impl Copied for FlatLimit {
    fn copy(&self, alloc: Global) -> Result<FlatLimit, OutOfMemory> {
        Ok(FlatLimit {
            key: self.key.copy(alloc)?,
            limit: self.limit,
        })
    }
}

impl Copied for StatPair {
    fn copy(&self, alloc: Global) -> Result<StatPair, OutOfMemory> {
        Ok(StatPair {
            key: self.key.copy(alloc)?,
            amount: self.amount,
        })
    }
}

impl Copied for StatLine {
    fn copy(&self, alloc: Global) -> Result<StatLine, OutOfMemory> {
        Ok(StatLine {
            device: self.device,
            pad: self.pad,
            pairs: self.pairs.copy(alloc)?,
        })
    }
}

impl Copied for LimitLine {
    fn copy(&self, _alloc: Global) -> Result<LimitLine, OutOfMemory> {
        Ok(*self)
    }
}

impl Copied for WeightLine {
    fn copy(&self, _alloc: Global) -> Result<WeightLine, OutOfMemory> {
        Ok(*self)
    }
}

impl Copied for TargetLine {
    fn copy(&self, _alloc: Global) -> Result<TargetLine, OutOfMemory> {
        Ok(*self)
    }
}

impl Copied for ParamValue {
    fn copy(&self, alloc: Global) -> Result<ParamValue, OutOfMemory> {
        Ok(match self {
            ParamValue::Whole(number) => ParamValue::Whole(*number),
            ParamValue::Decimal(number) => ParamValue::Decimal(*number),
            ParamValue::Name(name) => ParamValue::Name(name.copy(alloc)?),
        })
    }
}

impl Copied for ParamPair {
    fn copy(&self, alloc: Global) -> Result<ParamPair, OutOfMemory> {
        Ok(ParamPair {
            key: self.key.copy(alloc)?,
            value: self.value.copy(alloc)?,
        })
    }
}

impl Copied for ParamLine {
    fn copy(&self, alloc: Global) -> Result<ParamLine, OutOfMemory> {
        Ok(ParamLine {
            device: self.device,
            params: self.params.copy(alloc)?,
        })
    }
}

impl Copied for NestedPair {
    fn copy(&self, alloc: Global) -> Result<NestedPair, OutOfMemory> {
        Ok(NestedPair {
            key: self.key.copy(alloc)?,
            number: self.number,
        })
    }
}

impl Copied for NestedLine {
    fn copy(&self, alloc: Global) -> Result<NestedLine, OutOfMemory> {
        Ok(NestedLine {
            key: self.key.copy(alloc)?,
            pairs: self.pairs.copy(alloc)?,
        })
    }
}

impl Copied for Value {
    fn copy(&self, alloc: Global) -> Result<Value, OutOfMemory> {
        Ok(match self {
            Value::Number(number) => Value::Number(*number),
            Value::Signed(number) => Value::Signed(*number),
            Value::Limit(limit) => Value::Limit(*limit),
            Value::Mode(mode) => Value::Mode(*mode),
            Value::Class(class) => Value::Class(*class),
            Value::CpuMax { quota, period } => Value::CpuMax {
                quota: *quota,
                period: *period,
            },
            Value::Clamp(clamp) => Value::Clamp(*clamp),
            Value::Numbers(numbers) => Value::Numbers(numbers.copy(alloc)?),
            Value::Words(words) => Value::Words(words.copy(alloc)?),
            Value::Flat(flat) => Value::Flat(flat.copy(alloc)?),
            Value::FlatLimits(pairs) => Value::FlatLimits(pairs.copy(alloc)?),
            Value::DeviceStats(lines) => Value::DeviceStats(lines.copy(alloc)?),
            Value::DeviceLimits(lines) => Value::DeviceLimits(lines.copy(alloc)?),
            Value::DeviceWeights { default, lines } => Value::DeviceWeights {
                default: *default,
                lines: lines.copy(alloc)?,
            },
            Value::DeviceTargets(lines) => Value::DeviceTargets(lines.copy(alloc)?),
            Value::DeviceParams(lines) => Value::DeviceParams(lines.copy(alloc)?),
            Value::Set(set) => Value::Set(set.copy(alloc)?),
            Value::Partition {
                role,
                valid,
                reason,
            } => Value::Partition {
                role: *role,
                valid: *valid,
                reason: reason.copy(alloc)?,
            },
            Value::Pressure { some, full } => Value::Pressure {
                some: *some,
                full: *full,
            },
            Value::Nested(lines) => Value::Nested(lines.copy(alloc)?),
            Value::NodeStats { total, nodes } => Value::NodeStats {
                total: *total,
                nodes: nodes.copy(alloc)?,
            },
            Value::Raw(lines) => Value::Raw(lines.copy(alloc)?),
        })
    }
}
