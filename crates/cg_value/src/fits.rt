//! Whether values fit kinds.
ghost use Rattle.std.specs.Prelude.{◌↔◌, IsTrue};
ghost use Rattle.cg_text.specs.List.{IsStrictList};
ghost use Rattle.cg_text.specs.Word.{IsControllerWord};
ghost use Rattle.cg_value.specs.Files.{Fits};
ghost use Rattle.cg_value.specs.ReadLine.{ArePressureLines, AreWords, CanBeInvalid, IsNodeStats, IsPartition};
ghost use Rattle.cg_value.specs.SpelledLaws.{HasText, HasLines};

use crate::kind::{ReadForm, ReadKind};
use crate::spelled::{
    Spelled, are_keyed, are_limits, are_spelled, are_stats, are_targets, are_weights, are_within,
    is_between, is_raw, is_within,
};
use crate::value::{Averages, NestedPair, Role, Value};
use cg_index::KeyedItems;
use cg_text::{Items, Key, NumberSet};

/// Whether it is a controller's name, which begins with neither sign.
pub(crate) fn is_controller(word: &Key) -> bool
    ensures { IsTrue result ↔ IsControllerWord word.now }
{
    let first = word.bytes()[0];
    first != b'+' && first != b'-'
}

/// Whether they are names of controllers, all different.
fn are_words(words: &KeyedItems<Key>) -> bool
    ensures { IsTrue result ↔ HasLines (AreWords words.now) }
{
    words.cells().iter().all(|word| is_controller(&word.item))
}

/// Whether no number of the set is greater than `most`.
fn is_set_within(most: u32, set: &NumberSet) -> bool
    ensures { IsTrue result ↔ HasText (IsStrictList most set.now) }
{
    set.ranges().iter().all(|range| range.1 <= most)
}

/// Whether a partition of the role can be invalid.
fn can_be_invalid(role: Role) -> bool
    ensures { IsTrue result ↔ CanBeInvalid role }
{
    match role {
        Role::Member => false,
        Role::Root | Role::Isolated => true,
    }
}

/// Whether a partition can be so: one that is valid has no reason.
fn is_partition(role: Role, valid: bool, reason: &Option<Items<u8>>) -> bool
    ensures { IsTrue result ↔ HasText (IsPartition role valid reason.now) }
{
    match (valid, reason) {
        (true, None) => true,
        (true, Some(_)) => false,
        (false, None) => can_be_invalid(role),
        (false, Some(reason)) => can_be_invalid(role) && is_raw(reason.as_slice()),
    }
}

/// Whether one of them is there, and those that are there can be so.
fn are_pressure(some: &Option<Averages>, full: &Option<Averages>) -> bool
    ensures { IsTrue result ↔ HasLines (ArePressureLines some.now full.now) }
{
    match (some, full) {
        (None, None) => false,
        (Some(some), None) => some.is_spelled(),
        (None, Some(full)) => full.is_spelled(),
        (Some(some), Some(full)) => some.is_spelled() && full.is_spelled(),
    }
}

/// Whether some line spells a total and these pairs.
#[tactic(auto, using(crate::specs::SpelledLaws::node_stats_text))]
fn are_node_stats(total: u64, nodes: &KeyedItems<NestedPair>) -> bool
    ensures { IsTrue result ↔ HasText (IsNodeStats (total, nodes.now)) }
{
    total.is_spelled() && are_keyed(nodes)
}

impl Value {
    /// Whether a file of this kind can hold the value: it has the kind's variant, and some lines spell it. It takes no
    /// memory.
    #[tactic(auto, using(crate::specs::FitsLaws::fits_laws))]
    pub fn fits(&self, kind: ReadKind) -> bool
        ensures { IsTrue result ↔ Fits kind self.now }
    {
        match (kind.form(), self) {
            (ReadForm::Number { lo, hi }, Value::Number(number)) => is_within(lo, hi, *number),
            (ReadForm::Signed { lo, hi }, Value::Signed(number)) => is_between(lo, hi, *number),
            (ReadForm::Limit, Value::Limit(limit)) => limit.is_spelled(),
            (ReadForm::Mode, Value::Mode(_)) => true,
            (ReadForm::Class, Value::Class(_)) => true,
            (ReadForm::CpuMax, Value::CpuMax { quota, period }) => {
                quota.is_spelled() && period.is_spelled()
            }
            (ReadForm::Clamp, Value::Clamp(clamp)) => clamp.is_spelled(),
            (ReadForm::Numbers { lo, hi }, Value::Numbers(numbers)) => {
                are_within(lo, hi, numbers.as_slice())
            }
            (ReadForm::Words, Value::Words(words)) => are_words(words),
            (ReadForm::Flat, Value::Flat(flat)) => are_spelled(flat.pairs()),
            (ReadForm::FlatLimits, Value::FlatLimits(pairs)) => are_keyed(pairs),
            (ReadForm::DeviceStats { kernel }, Value::DeviceStats(lines)) => {
                are_stats(kernel, lines.as_slice())
            }
            (ReadForm::DeviceLimits { kernel }, Value::DeviceLimits(lines)) => {
                are_limits(kernel, lines.as_slice())
            }
            (ReadForm::DeviceWeights { most, kernel }, Value::DeviceWeights { default, lines }) => {
                is_within(1, most, *default) && are_weights(most, kernel, lines.as_slice())
            }
            (ReadForm::DeviceTargets { kernel }, Value::DeviceTargets(lines)) => {
                are_targets(kernel, lines.as_slice())
            }
            (ReadForm::DeviceParams, Value::DeviceParams(lines)) => are_spelled(lines.as_slice()),
            (ReadForm::Set { most }, Value::Set(set)) => is_set_within(most, set),
            (
                ReadForm::Partition,
                Value::Partition {
                    role,
                    valid,
                    reason,
                },
            ) => is_partition(*role, *valid, reason),
            (ReadForm::Pressure, Value::Pressure { some, full }) => are_pressure(some, full),
            (ReadForm::Nested, Value::Nested(lines)) => are_keyed(lines),
            (ReadForm::NodeStats, Value::NodeStats { total, nodes }) => {
                are_node_stats(*total, nodes)
            }
            (ReadForm::Raw, Value::Raw(lines)) => lines.can_stand(),
            _ => false,
        }
    }
}
