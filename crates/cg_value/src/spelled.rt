//! Which parts of values some text spells.
ghost use Rattle.std.specs.Prelude.{◌↔◌, ℕ, List, map, IsTrue, false};
ghost use Rattle.std.specs.List.{AllZip};
ghost use Rattle.cg_text.specs.Amount.{IsAmount};
ghost use Rattle.cg_text.specs.Clamp.{IsClamp};
ghost use Rattle.cg_text.specs.Decimal.{IsDecimal};
ghost use Rattle.cg_text.specs.Device.{IsDevice, IsDeviceName};
ghost use Rattle.cg_text.specs.Distinct.{AreDistinct};
ghost use Rattle.cg_text.specs.Hundredths.{IsHundredths};
ghost use Rattle.cg_text.specs.Limit.{IsLimit};
ghost use Rattle.cg_text.specs.Name.{IsNameValue};
ghost use Rattle.cg_text.specs.Param.{IsParam};
ghost use Rattle.cg_text.specs.Raw.{IsRawLine};
ghost use Rattle.cg_text.specs.Signed.{IsSigned};
ghost use Rattle.cg_text.specs.declared.hundredths.Spelling.TheVariants.{Read};
ghost use Rattle.cg_value.specs.Kind.{any_u64};
ghost use Rattle.cg_value.specs.Lines.{IsKey};
ghost use Rattle.cg_value.specs.ReadLine.{AreAverages, IsFlatLimit, IsFlatLine, IsParamLine, IsParamPair, IsLimitLine, IsNestedLine, IsNestedPair, IsStatLine, IsStatPair, IsTargetLine, IsWeightLine};
ghost use Rattle.cg_value.specs.SpelledLaws.{HasText, HasLines};
ghost use Rattle.cg_value.specs.Within.{IsWithin};

use crate::flat::FlatPair;
use crate::value::{
    Averages, FlatLimit, LimitLine, NestedLine, NestedPair, ParamLine, ParamPair, StatLine,
    StatPair, TargetLine, WeightLine,
};
use cg_index::{Cell, HasKey, KeyedItems};
use cg_text::{Amount, Clamp, Device, Hundredths, Key, Limit, ParamValue};

/// A part of a value, which some text may spell.
pub(crate) trait Spelled {
    ghost spells: { Self → List ℕ → Type 0 };

    /// Whether some text spells it.
    fn is_spelled(&self) -> bool
        ensures { IsTrue result ↔ HasText (spells self.now) };
}

/// Whether some text spells each.
pub(crate) fn are_spelled<T: Spelled>(parts: &[T]) -> bool
    ensures { IsTrue result ↔ HasLines (AllZip T.spells parts.now) }
{
    parts.iter().all(|part| part.is_spelled())
}

impl<T: Spelled> Spelled for Cell<T> {
    ghost spells = { λ cell. T.spells cell.item };

    fn is_spelled(&self) -> bool {
        self.item.is_spelled()
    }
}

/// Whether the number lies from `lo` to `hi`. Then some text spells it.
#[tactic(auto, using(crate::specs::SpelledLaws::decimal_text))]
pub(crate) fn is_within(lo: u64, hi: u64, number: u64) -> bool
    ensures range { IsTrue result ↔ IsWithin lo hi number }
    ensures text { IsTrue result ↔ HasText (IsDecimal lo hi number) }
{
    lo <= number && number <= hi
}

/// Whether each of the numbers lies in the range.
pub(crate) fn are_within(lo: u64, hi: u64, numbers: &[u64]) -> bool
    ensures { IsTrue result ↔ HasLines (AllZip (IsDecimal lo hi) numbers.now) }
{
    numbers.iter().all(|number| is_within(lo, hi, *number))
}

/// Whether the signed number lies in the range.
#[tactic(auto, using(crate::specs::SpelledLaws::signed_text))]
pub(crate) fn is_between(lo: i64, hi: i64, number: i64) -> bool
    ensures { IsTrue result ↔ HasText (IsSigned lo hi number) }
{
    lo <= number && number <= hi
}

/// Whether the number is of at most `most` hundredths.
#[tactic(auto, using(crate::specs::SpelledLaws::hundredths_text))]
fn is_at_most(most: u64, number: Hundredths) -> bool
    ensures { IsTrue result ↔ HasText (IsHundredths Read most number) }
{
    number.count <= most
}

/// Whether each of the numbers is of at most `most` hundredths.
fn are_at_most(most: u64, numbers: &[Hundredths]) -> bool
    ensures { IsTrue result ↔ HasLines (AllZip (IsHundredths Read most) numbers.now) }
{
    numbers.iter().all(|number| is_at_most(most, *number))
}

impl Spelled for u64 {
    ghost spells = { IsDecimal 0 any_u64 };

    // Every number of 64 bits has a text.
    fn is_spelled(&self) -> bool {
        is_within(0, u64::MAX, *self)
    }
}

impl Spelled for Limit {
    ghost spells = { IsLimit 0 any_u64 };

    #[tactic(auto, using(crate::specs::SpelledLaws::max_limit))]
    fn is_spelled(&self) -> bool {
        match self {
            Limit::Max => true,
            Limit::At(number) => number.is_spelled(),
        }
    }
}

impl Spelled for Clamp {
    ghost spells = { IsClamp Read };

    #[tactic(auto, using(crate::specs::SpelledLaws::max_clamp))]
    fn is_spelled(&self) -> bool {
        match self {
            Clamp::Max => true,
            Clamp::At(percentage) => is_at_most(10_000, *percentage),
        }
    }
}

/// Whether some text spells the amount. Where `signed`, it may be below 0.
#[tactic(auto, using(crate::specs::SpelledLaws::below_amount))]
fn is_amount(signed: bool, amount: &Amount) -> bool
    ensures { IsTrue result ↔ HasText (IsAmount signed amount.now) }
{
    match amount {
        Amount::Whole(number) => number.is_spelled(),
        Amount::Decimal(number) => is_at_most(99_999_999_999, *number),
        Amount::Max => true,
        Amount::Below(number) => signed && is_within(1, 2_147_483_648, *number),
    }
}

impl Spelled for Device {
    ghost spells = { IsDevice };

    #[tactic(auto, using(crate::specs::SpelledLaws::device_text))]
    fn is_spelled(&self) -> bool {
        is_within(0, 4095, u64::from(self.major)) && is_within(0, 1_048_575, u64::from(self.minor))
    }
}

/// Whether some text spells the device. Where `unknown`, it may be one that is gone.
fn is_device_name(unknown: bool, device: &Option<Device>) -> bool
    ensures { IsTrue result ↔ HasText (IsDeviceName unknown device.now) }
{
    match device {
        Some(device) => device.is_spelled(),
        None => unknown,
    }
}

impl Spelled for Key {
    ghost spells = { IsKey };

    // A key is a word, and so never empty.
    fn is_spelled(&self) -> bool {
        !self.bytes().is_empty()
    }
}

impl Spelled for FlatLimit {
    ghost spells = { IsFlatLimit };

    #[tactic(auto, using(crate::specs::SpelledLaws::flat_limit_text))]
    fn is_spelled(&self) -> bool {
        self.key.is_spelled() && self.limit.is_spelled()
    }
}

impl Spelled for FlatPair {
    ghost spells = { IsFlatLine };

    #[tactic(auto, using(crate::specs::SpelledLaws::flat_text))]
    fn is_spelled(&self) -> bool {
        self.key.is_spelled() && self.number.is_spelled()
    }
}

/// Whether some text spells the pair.
#[tactic(auto, using(crate::specs::SpelledLaws::stat_pair_text))]
fn is_stat_pair(kernel: bool, pair: &StatPair) -> bool
    ensures { IsTrue result ↔ HasText (IsStatPair kernel pair.now) }
{
    pair.key.is_spelled() && is_amount(kernel, &pair.amount)
}

/// Whether some text spells each of the pairs. No two have one key.
fn are_stat_pairs(kernel: bool, pairs: &KeyedItems<StatPair>) -> bool
    ensures { IsTrue result ↔ (HasLines (AllZip (IsStatPair kernel) pairs.now) ×
        AreDistinct (map (λ p. p.key) pairs.now)) }
{
    pairs
        .cells()
        .iter()
        .all(|cell| is_stat_pair(kernel, &cell.item))
}

/// Whether some text spells the line of a device.
fn is_stat(kernel: bool, line: &StatLine) -> bool
    ensures { IsTrue result ↔ HasText (IsStatLine kernel line.now) }
{
    is_device_name(kernel, &line.device) && are_stat_pairs(kernel, &line.pairs)
}

/// Whether some text spells each of the lines. Where `kernel`, a device may be gone, and an amount be below 0.
pub(crate) fn are_stats(kernel: bool, lines: &[StatLine]) -> bool
    ensures { IsTrue result ↔ HasLines (AllZip (IsStatLine kernel) lines.now) }
{
    lines.iter().all(|line| is_stat(kernel, line))
}

/// Whether some text spells the limits of a device.
fn is_limits(kernel: bool, line: &LimitLine) -> bool
    ensures { IsTrue result ↔ HasText (IsLimitLine kernel line.now) }
{
    is_device_name(kernel, &line.device)
        && are_spelled(&[line.rbps, line.wbps, line.riops, line.wiops])
}

/// Whether some text spells each of the lines. Where `kernel`, a device may be gone.
pub(crate) fn are_limits(kernel: bool, lines: &[LimitLine]) -> bool
    ensures { IsTrue result ↔ HasLines (AllZip (IsLimitLine kernel) lines.now) }
{
    lines.iter().all(|line| is_limits(kernel, line))
}

/// Whether some text spells the line of a device whose weight is at most `most`.
#[tactic(auto, using(crate::specs::SpelledLaws::weight_text))]
fn is_weight(most: u64, kernel: bool, line: &WeightLine) -> bool
    ensures { IsTrue result ↔ HasText (IsWeightLine most kernel line.now) }
{
    is_device_name(kernel, &line.device) && is_within(1, most, line.weight)
}

/// Whether some text spells each of the lines, whose weights are at most `most`. Where `kernel`, a device may be gone.
pub(crate) fn are_weights(most: u64, kernel: bool, lines: &[WeightLine]) -> bool
    ensures { IsTrue result ↔ HasLines (AllZip (IsWeightLine most kernel) lines.now) }
{
    lines.iter().all(|line| is_weight(most, kernel, line))
}

/// Whether some text spells the target latency of a device.
#[tactic(auto, using(crate::specs::SpelledLaws::target_text))]
fn is_target(kernel: bool, line: &TargetLine) -> bool
    ensures { IsTrue result ↔ HasText (IsTargetLine kernel line.now) }
{
    is_device_name(kernel, &line.device) && line.target.is_spelled()
}

/// Whether some text spells each of the lines. Where `kernel`, a device may be gone.
pub(crate) fn are_targets(kernel: bool, lines: &[TargetLine]) -> bool
    ensures { IsTrue result ↔ HasLines (AllZip (IsTargetLine kernel) lines.now) }
{
    lines.iter().all(|line| is_target(kernel, line))
}

/// Whether the word is a name value: its first byte is `a` to `z`.
fn is_name(word: &Key) -> bool
    ensures { IsTrue result ↔ IsNameValue word.now }
{
    let first = word.bytes()[0];
    b'a' <= first && first <= b'z'
}

impl Spelled for ParamValue {
    ghost spells = { IsParam };

    #[tactic(auto, using(crate::specs::SpelledLaws::name_text))]
    fn is_spelled(&self) -> bool {
        match self {
            ParamValue::Whole(number) => number.is_spelled(),
            ParamValue::Decimal(number) => is_at_most(99_999_999_999, *number),
            ParamValue::Name(name) => is_name(name),
        }
    }
}

impl Spelled for ParamPair {
    ghost spells = { IsParamPair };

    #[tactic(auto, using(crate::specs::SpelledLaws::param_pair_text))]
    fn is_spelled(&self) -> bool {
        self.key.is_spelled() && self.value.is_spelled()
    }
}

impl Spelled for ParamLine {
    ghost spells = { IsParamLine };

    #[tactic(auto, using(crate::specs::SpelledLaws::params_text))]
    fn is_spelled(&self) -> bool {
        is_device_name(true, &self.device) && self.params.len() > 0 && are_keyed(&self.params)
    }
}

impl Spelled for Averages {
    ghost spells = { AreAverages };

    #[tactic(auto, using(crate::specs::SpelledLaws::averages_text))]
    fn is_spelled(&self) -> bool {
        self.total.is_spelled() && are_at_most(99_999, &[self.avg10, self.avg60, self.avg300])
    }
}

impl Spelled for NestedPair {
    ghost spells = { IsNestedPair };

    #[tactic(auto, using(crate::specs::SpelledLaws::nested_pair_text))]
    fn is_spelled(&self) -> bool {
        self.key.is_spelled() && self.number.is_spelled()
    }
}

impl Spelled for NestedLine {
    ghost spells = { IsNestedLine };

    #[tactic(auto, using(crate::specs::SpelledLaws::nested_text))]
    fn is_spelled(&self) -> bool {
        self.key.is_spelled() && are_keyed(&self.pairs)
    }
}

/// Whether the bytes can stand in a line: there is no NUL among them, and no newline.
pub(crate) fn is_raw(bytes: &[u8]) -> bool
    ensures { IsTrue result ↔ IsRawLine bytes.now }
{
    bytes.iter().all(|byte| *byte != 0 && *byte != b'\n')
}

/// Whether some text spells each. No two have one key.
pub(crate) fn are_keyed<T: Spelled + HasKey>(items: &KeyedItems<T>) -> bool
    ensures { IsTrue result ↔ (HasLines (AllZip T.spells items.now) × AreDistinct (map T.key_of items.now)) }
{
    are_spelled(items.cells())
}
