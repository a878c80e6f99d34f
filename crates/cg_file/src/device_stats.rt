//! A file of devices and what they did (cgroup-v2.rst, io.stat).
ghost use Rattle.std.specs.Prelude.{◌≡◌};
ghost use Rattle.cg_text.specs.Token.{Spells};
ghost use Rattle.cg_value.specs.Files.{KindText};
ghost use Rattle.cg_value.specs.declared.kind.ReadForm.TheVariants.{DeviceStats as DeviceStatsForm};
ghost use Rattle.cg_value.specs.ReadLine.{IsStatLine};
ghost use Rattle.cg_file.specs.StatFileLaws.{AreStatPairs};

use crate::pad::PadText;
use cg_index::KeyedItems;
use cg_join::{
    AmountText, DeviceNameText, DistinctPairs, Lines, MakeToken, MapValue, Mapped, Pairing,
    Sequence, WordStart,
};
use cg_text::{Amount, Device, Items, Key, Pushed, Token};
use cg_value::{StatLine, StatPair, Value};
use std::alloc::Global;

/// Makes tokens of amounts, also of those below 0 where `kernel`.
#[derive(Clone, Copy)]
pub struct AmountStart {
    kernel: bool,
}

impl MakeToken<AmountText> for AmountStart {
    ghost use Rattle.cg_text.specs.Amount.{IsAmount};
    ghost use Rattle.cg_file.specs.StartableLaws.{amount_startable};

    ghost texts = { λ s text amount. IsAmount s.kernel amount text };

    fn start(&self) -> AmountText {
        AmountText::new(self.kernel)
    }

    ghost some_text = { λ s. (amount_startable s.kernel).some };

    ghost one_text = { λ s. (amount_startable s.kernel).one };

    ghost text_bytes = { λ s. (amount_startable s.kernel).bytes };
}

/// Makes a pair of a sub-key and its amount.
pub struct StatPairing;

impl Pairing<AmountText> for StatPairing {
    type Pair = StatPair;

    ghost use Rattle.std.specs.Prelude.{refl};

    ghost word_of = { λ p. p.key };

    ghost value_of = { λ p. p.amount };

    ghost paired = { λ word amount. record { key = word; amount = amount } };

    fn begin(word: Key) -> StatPair {
        StatPair {
            key: word,
            amount: Amount::Max,
        }
    }

    fn complete(pair: &mut StatPair, value: Amount) {
        pair.amount = value;
    }

    fn value(pair: &StatPair) -> &Amount {
        &pair.amount
    }

    ghost has_word = { λ _ _. refl };

    ghost has_value = { λ _ _. refl };

    ghost whole = { λ _. refl };

    ghost keyed = { refl };
}

type Pairs = DistinctPairs<AmountText, AmountStart, StatPairing>;

/// One or more pairs of a sub-key, an equals sign and an amount, with spaces between, no sub-key twice.
#[derive(Drop)]
pub struct StatPairs {
    pairs: Pairs,
}

impl StatPairs {
    /// A token of such pairs, also of amounts below 0 where `kernel`.
    pub(crate) fn new(alloc: Global, kernel: bool) -> StatPairs
        ensures spells { Spells ⟦<StatPairs as Token>⟧.means result (AreStatPairs kernel) }
        ensures size { ⟦<StatPairs as Token>⟧.size result ≡ 0 }
    {
        let words = WordStart::new(alloc, false);
        StatPairs {
            pairs: DistinctPairs::joined(alloc, words, AmountStart { kernel }, b' ', b'='),
        }
    }
}

impl Token for StatPairs {
    type Out = KeyedItems<StatPair>;

    ghost means = { λ s. ⟦<Pairs as Token>⟧.means s.pairs };

    ghost size = { λ s. ⟦<Pairs as Token>⟧.size s.pairs };

    ghost value_size = { ⟦<Pairs as Token>⟧.value_size };

    ghost ends = { λ s. ⟦<Pairs as Token>⟧.ends s.pairs };

    ghost grows = { ⟦<Pairs as Token>⟧.grows };

    ghost completes = { λ s. ⟦<Pairs as Token>⟧.completes s.pairs };

    ghost no_size = { λ e s. ⟦<Pairs as Token>⟧.no_size e s.pairs };

    ghost ends_is = { λ s. ⟦<Pairs as Token>⟧.ends_is s.pairs };

    ghost one_value = { λ s. ⟦<Pairs as Token>⟧.one_value s.pairs };

    ghost holds_bytes = { λ s. ⟦<Pairs as Token>⟧.holds_bytes s.pairs };

    fn push(&mut self, bytes: &[u8]) -> Pushed {
        self.pairs.push(bytes)
    }

    fn whole(&self, bytes: &[u8]) -> Option<(KeyedItems<StatPair>, usize)> {
        self.pairs.whole(bytes)
    }

    fn allows(&self, byte: u8) -> bool {
        self.pairs.allows(byte)
    }

    fn can_end(&self) -> bool {
        self.pairs.can_end()
    }

    fn held(&self) -> u64 {
        self.pairs.held()
    }

    fn take(self) -> KeyedItems<StatPair> {
        self.pairs.take()
    }

    fn held_in(value: &KeyedItems<StatPair>) -> u64 {
        Pairs::held_in(value)
    }
}

/// A device, its pad and its pairs, turned into a line's value.
#[derive(Clone, Copy)]
pub struct ToStatLine;

impl MapValue<Sequence<DeviceNameText, PadText<StatPairs>>> for ToStatLine {
    type To = StatLine;

    ghost use Rattle.cg_file.specs.StatFileLaws.{stat_line, stat_size, no_less};

    ghost mapped = { stat_line };

    ghost value_size = { stat_size };

    fn map_value(value: (Option<Device>, (bool, KeyedItems<StatPair>))) -> StatLine {
        let (device, (pad, pairs)) = value;
        StatLine { device, pad, pairs }
    }

    fn held_in(value: &StatLine) -> u64 {
        StatPairs::held_in(&value.pairs)
    }

    ghost adds_no_memory = { λ v. no_less (stat_size (stat_line v)) };
}

type LineParts = Mapped<Sequence<DeviceNameText, PadText<StatPairs>>, ToStatLine>;

/// A line of a device, at most one space of its own, and pairs of a sub-key and an amount with a space before each, no
/// sub-key twice. Also a device with no pairs is one.
#[derive(Drop)]
pub struct StatLineText {
    parts: LineParts,
}

impl StatLineText {
    /// A line of a device and its pairs. Where `kernel`, the device may be gone, and an amount be below 0.
    pub(crate) fn new(alloc: Global, kernel: bool) -> StatLineText
        ensures spells { Spells ⟦<StatLineText as Token>⟧.means result (λ text line. IsStatLine kernel line text) }
        ensures size { ⟦<StatLineText as Token>⟧.size result ≡ 0 }
    {
        let pairs = PadText::new(StatPairs::new(alloc, kernel), KeyedItems::new(alloc));
        StatLineText {
            parts: Mapped::new(Sequence::new(DeviceNameText::new(kernel), pairs)),
        }
    }
}

impl Token for StatLineText {
    type Out = StatLine;

    ghost use Rattle.cg_file.specs.StatFileLaws.{stat_size};

    ghost means = { λ s. ⟦<LineParts as Token>⟧.means s.parts };

    ghost size = { λ s. ⟦<LineParts as Token>⟧.size s.parts };

    ghost value_size = { stat_size };

    ghost ends = { λ s. ⟦<LineParts as Token>⟧.ends s.parts };

    ghost grows = { ⟦<LineParts as Token>⟧.grows };

    ghost completes = { λ s. ⟦<LineParts as Token>⟧.completes s.parts };

    ghost no_size = { λ e s. ⟦<LineParts as Token>⟧.no_size e s.parts };

    ghost ends_is = { λ s. ⟦<LineParts as Token>⟧.ends_is s.parts };

    ghost one_value = { λ s. ⟦<LineParts as Token>⟧.one_value s.parts };

    ghost holds_bytes = { λ s. ⟦<LineParts as Token>⟧.holds_bytes s.parts };

    fn push(&mut self, bytes: &[u8]) -> Pushed {
        self.parts.push(bytes)
    }

    fn whole(&self, bytes: &[u8]) -> Option<(StatLine, usize)> {
        self.parts.whole(bytes)
    }

    fn allows(&self, byte: u8) -> bool {
        self.parts.allows(byte)
    }

    fn can_end(&self) -> bool {
        self.parts.can_end()
    }

    fn held(&self) -> u64 {
        self.parts.held()
    }

    fn take(self) -> StatLine {
        self.parts.take()
    }

    fn held_in(value: &StatLine) -> u64 {
        StatPairs::held_in(&value.pairs)
    }
}

/// Makes tokens of such lines. Where `kernel`, a device may be gone, and an amount be below 0.
#[derive(Clone, Copy)]
pub struct StatStart {
    alloc: Global,
    kernel: bool,
}

impl MakeToken<StatLineText> for StatStart {
    ghost use Rattle.cg_file.specs.StatFileLaws.{stat_startable};

    ghost texts = { λ s text line. IsStatLine s.kernel line text };

    fn start(&self) -> StatLineText {
        StatLineText::new(self.alloc, self.kernel)
    }

    ghost some_text = { λ s. (stat_startable s.kernel).some };

    ghost one_text = { λ s. (stat_startable s.kernel).one };

    ghost text_bytes = { λ s. (stat_startable s.kernel).bytes };
}

/// A line, turned into the file's value.
#[derive(Clone, Copy)]
pub struct ToDeviceStats;

impl MapValue<Lines<StatLineText, StatStart>> for ToDeviceStats {
    type To = Value;

    ghost use Rattle.cg_join.specs.SettledLaws.{zero_least};
    ghost use Rattle.cg_file.specs.StatFileLaws.{stats_value};

    ghost mapped = { stats_value };

    ghost value_size = { λ _. 0 };

    fn map_value(value: Items<StatLine>) -> Value {
        Value::DeviceStats(value)
    }

    fn held_in(_value: &Value) -> u64 {
        0
    }

    ghost adds_no_memory = { λ v. zero_least _ };
}

type Text = Mapped<Lines<StatLineText, StatStart>, ToDeviceStats>;

/// The text of a file of any number of devices, each with any number of pairs of a sub-key and an amount.
#[derive(Drop)]
pub struct DeviceStatsFile {
    text: Text,
}

impl DeviceStatsFile {
    /// A token of such files. Where `kernel`, a device may be gone, and an amount be below 0.
    pub fn new(alloc: Global, kernel: bool) -> DeviceStatsFile
        ensures spells { Spells ⟦<DeviceStatsFile as Token>⟧.means result
            (λ text v. KindText (DeviceStatsForm kernel) v text) }
        ensures size { ⟦<DeviceStatsFile as Token>⟧.size result ≡ 0 }
    {
        DeviceStatsFile {
            text: Mapped::new(Lines::new(alloc, StatStart { alloc, kernel }, b'\n')),
        }
    }
}

impl Token for DeviceStatsFile {
    type Out = Value;

    ghost means = { λ s. ⟦<Text as Token>⟧.means s.text };

    ghost size = { λ s. ⟦<Text as Token>⟧.size s.text };

    ghost value_size = { λ _. 0 };

    ghost ends = { λ s. ⟦<Text as Token>⟧.ends s.text };

    ghost grows = { ⟦<Text as Token>⟧.grows };

    ghost completes = { λ s. ⟦<Text as Token>⟧.completes s.text };

    ghost no_size = { λ e s. ⟦<Text as Token>⟧.no_size e s.text };

    ghost ends_is = { λ s. ⟦<Text as Token>⟧.ends_is s.text };

    ghost one_value = { λ s. ⟦<Text as Token>⟧.one_value s.text };

    ghost holds_bytes = { λ s. ⟦<Text as Token>⟧.holds_bytes s.text };

    fn push(&mut self, bytes: &[u8]) -> Pushed {
        self.text.push(bytes)
    }

    fn allows(&self, byte: u8) -> bool {
        self.text.allows(byte)
    }

    fn can_end(&self) -> bool {
        self.text.can_end()
    }

    fn held(&self) -> u64 {
        self.text.held()
    }

    fn take(self) -> Value {
        self.text.take()
    }

    fn held_in(_value: &Value) -> u64 {
        0
    }
}
