//! A file of devices and their parameters (cgroup-v2.rst, io.cost.qos and io.cost.model).
ghost use Rattle.std.specs.Prelude.{◌≡◌};
ghost use Rattle.cg_text.specs.Token.{Spells};
ghost use Rattle.cg_value.specs.Files.{KindText};
ghost use Rattle.cg_value.specs.declared.kind.ReadForm.TheVariants.{DeviceParams as DeviceParamsForm};
ghost use Rattle.cg_value.specs.ReadLine.{IsParamLine};
ghost use Rattle.cg_file.specs.ParamFileLaws.{AreParamPairs};

use cg_index::KeyedItems;
use cg_join::{
    DeviceNameText, DistinctPairs, Lines, MakeToken, MapValue, Mapped, Pairing, ParamText,
    Sequence, Spaced, WordStart, spaced,
};
use cg_text::{Device, Items, Key, ParamValue, Pushed, Token};
use cg_value::{ParamLine, ParamPair, Value};
use std::alloc::Global;

/// Makes tokens of parameters.
#[derive(Clone, Copy)]
pub struct ValueStart {
    alloc: Global,
}

impl MakeToken<ParamText> for ValueStart {
    ghost use Rattle.cg_text.specs.Param.{IsParam};
    ghost use Rattle.cg_file.specs.StartableLaws.{param_startable};

    ghost texts = { λ _ text value. IsParam value text };

    fn start(&self) -> ParamText {
        ParamText::new(self.alloc)
    }

    ghost some_text = { λ _. param_startable.some };

    ghost one_text = { λ _. param_startable.one };

    ghost text_bytes = { λ _. param_startable.bytes };
}

/// Makes a pair of a word and its parameter.
pub struct ParamPairing;

impl Pairing<ParamText> for ParamPairing {
    type Pair = ParamPair;

    ghost use Rattle.std.specs.Prelude.{refl};

    ghost word_of = { λ p. p.key };

    ghost value_of = { λ p. p.value };

    ghost paired = { λ word value. record { key = word; value = value } };

    fn begin(word: Key) -> ParamPair {
        ParamPair {
            key: word,
            value: ParamValue::Whole(0),
        }
    }

    fn complete(pair: &mut ParamPair, value: ParamValue) {
        pair.value = value;
    }

    fn value(pair: &ParamPair) -> &ParamValue {
        &pair.value
    }

    ghost has_word = { λ _ _. refl };

    ghost has_value = { λ _ _. refl };

    ghost whole = { λ _. refl };

    ghost keyed = { refl };
}

type Pairs = DistinctPairs<ParamText, ValueStart, ParamPairing>;

/// One or more pairs of a word, an equals sign and a parameter, with spaces between, no word twice.
#[derive(Drop)]
pub struct ParamPairs {
    pairs: Pairs,
}

impl ParamPairs {
    /// A token of such pairs.
    pub(crate) fn new(alloc: Global) -> ParamPairs
        ensures spells { Spells ⟦<ParamPairs as Token>⟧.means result AreParamPairs }
        ensures size { ⟦<ParamPairs as Token>⟧.size result ≡ 0 }
    {
        let words = WordStart::new(alloc, false);
        ParamPairs {
            pairs: DistinctPairs::joined(alloc, words, ValueStart { alloc }, b' ', b'='),
        }
    }
}

impl Token for ParamPairs {
    type Out = KeyedItems<ParamPair>;

    ghost means = { λ s. ⟦<Pairs as Token>⟧.means s.pairs };

    ghost size = { λ s. ⟦<Pairs as Token>⟧.size s.pairs };

    ghost value_size = { ⟦<Pairs as Token>⟧.value_size };

    ghost ends = { λ s. ⟦<Pairs as Token>⟧.ends s.pairs };

    ghost grows = { ⟦<Pairs as Token>⟧.grows };

    ghost completes = { λ s. ⟦<Pairs as Token>⟧.completes s.pairs };

    ghost no_size = { λ e s. ⟦<Pairs as Token>⟧.no_size e s.pairs };

    ghost ends_is = { λ s. ⟦<Pairs as Token>⟧.ends_is s.pairs };

    ghost one_value = { λ s. ⟦<Pairs as Token>⟧.one_value s.pairs };

    ghost holds_bytes = { λ s. ⟦<Pairs as Token>⟧.holds_bytes s.pairs };

    fn push(&mut self, bytes: &[u8]) -> Pushed {
        self.pairs.push(bytes)
    }

    fn whole(&self, bytes: &[u8]) -> Option<(KeyedItems<ParamPair>, usize)> {
        self.pairs.whole(bytes)
    }

    fn allows(&self, byte: u8) -> bool {
        self.pairs.allows(byte)
    }

    fn can_end(&self) -> bool {
        self.pairs.can_end()
    }

    fn held(&self) -> u64 {
        self.pairs.held()
    }

    fn take(self) -> KeyedItems<ParamPair> {
        self.pairs.take()
    }

    fn held_in(value: &KeyedItems<ParamPair>) -> u64 {
        Pairs::held_in(value)
    }
}

/// A device and its parameters, turned into a line's value.
#[derive(Clone, Copy)]
pub struct ToParamLine;

impl MapValue<Sequence<DeviceNameText, Spaced<ParamPairs>>> for ToParamLine {
    type To = ParamLine;

    ghost use Rattle.cg_file.specs.ParamFileLaws.{param_line, params_size, no_less};

    ghost mapped = { param_line };

    ghost value_size = { params_size };

    fn map_value(value: (Option<Device>, ((), KeyedItems<ParamPair>))) -> ParamLine {
        let (device, (_, params)) = value;
        ParamLine { device, params }
    }

    fn held_in(value: &ParamLine) -> u64 {
        ParamPairs::held_in(&value.params)
    }

    ghost adds_no_memory = { λ v. no_less (params_size (param_line v)) };
}

type LineParts = Mapped<Sequence<DeviceNameText, Spaced<ParamPairs>>, ToParamLine>;

/// A line of a device, and one or more pairs of a word and a parameter with a space before each, no word
/// twice.
#[derive(Drop)]
pub struct ParamLineText {
    parts: LineParts,
}

impl ParamLineText {
    /// A line of a device and its parameters.
    pub(crate) fn new(alloc: Global) -> ParamLineText
        ensures spells { Spells ⟦<ParamLineText as Token>⟧.means result (λ text line. IsParamLine line text) }
        ensures size { ⟦<ParamLineText as Token>⟧.size result ≡ 0 }
    {
        let pairs = spaced(ParamPairs::new(alloc));
        ParamLineText {
            parts: Mapped::new(Sequence::new(DeviceNameText::new(true), pairs)),
        }
    }
}

impl Token for ParamLineText {
    type Out = ParamLine;

    ghost use Rattle.cg_file.specs.ParamFileLaws.{params_size};

    ghost means = { λ s. ⟦<LineParts as Token>⟧.means s.parts };

    ghost size = { λ s. ⟦<LineParts as Token>⟧.size s.parts };

    ghost value_size = { params_size };

    ghost ends = { λ s. ⟦<LineParts as Token>⟧.ends s.parts };

    ghost grows = { ⟦<LineParts as Token>⟧.grows };

    ghost completes = { λ s. ⟦<LineParts as Token>⟧.completes s.parts };

    ghost no_size = { λ e s. ⟦<LineParts as Token>⟧.no_size e s.parts };

    ghost ends_is = { λ s. ⟦<LineParts as Token>⟧.ends_is s.parts };

    ghost one_value = { λ s. ⟦<LineParts as Token>⟧.one_value s.parts };

    ghost holds_bytes = { λ s. ⟦<LineParts as Token>⟧.holds_bytes s.parts };

    fn push(&mut self, bytes: &[u8]) -> Pushed {
        self.parts.push(bytes)
    }

    fn whole(&self, bytes: &[u8]) -> Option<(ParamLine, usize)> {
        self.parts.whole(bytes)
    }

    fn allows(&self, byte: u8) -> bool {
        self.parts.allows(byte)
    }

    fn can_end(&self) -> bool {
        self.parts.can_end()
    }

    fn held(&self) -> u64 {
        self.parts.held()
    }

    fn take(self) -> ParamLine {
        self.parts.take()
    }

    fn held_in(value: &ParamLine) -> u64 {
        ParamPairs::held_in(&value.params)
    }
}

/// Makes tokens of such lines.
#[derive(Clone, Copy)]
pub struct ParamStart {
    alloc: Global,
}

impl MakeToken<ParamLineText> for ParamStart {
    ghost use Rattle.cg_file.specs.ParamFileLaws.{params_startable};

    ghost texts = { λ _ text line. IsParamLine line text };

    fn start(&self) -> ParamLineText {
        ParamLineText::new(self.alloc)
    }

    ghost some_text = { λ _. params_startable.some };

    ghost one_text = { λ _. params_startable.one };

    ghost text_bytes = { λ _. params_startable.bytes };
}

/// A line, turned into the file's value.
#[derive(Clone, Copy)]
pub struct ToDeviceParams;

impl MapValue<Lines<ParamLineText, ParamStart>> for ToDeviceParams {
    type To = Value;

    ghost use Rattle.cg_join.specs.SettledLaws.{zero_least};
    ghost use Rattle.cg_file.specs.ParamFileLaws.{device_params_value};

    ghost mapped = { device_params_value };

    ghost value_size = { λ _. 0 };

    fn map_value(value: Items<ParamLine>) -> Value {
        Value::DeviceParams(value)
    }

    fn held_in(_value: &Value) -> u64 {
        0
    }

    ghost adds_no_memory = { λ v. zero_least _ };
}

type Text = Mapped<Lines<ParamLineText, ParamStart>, ToDeviceParams>;

/// The text of a file of any number of devices, each with one or more pairs of a word and a parameter.
#[derive(Drop)]
pub struct DeviceParamsFile {
    text: Text,
}

impl DeviceParamsFile {
    /// A token of such files.
    pub fn new(alloc: Global) -> DeviceParamsFile
        ensures spells { Spells ⟦<DeviceParamsFile as Token>⟧.means result
            (λ text v. KindText DeviceParamsForm v text) }
        ensures size { ⟦<DeviceParamsFile as Token>⟧.size result ≡ 0 }
    {
        DeviceParamsFile {
            text: Mapped::new(Lines::new(alloc, ParamStart { alloc }, b'\n')),
        }
    }
}

impl Token for DeviceParamsFile {
    type Out = Value;

    ghost means = { λ s. ⟦<Text as Token>⟧.means s.text };

    ghost size = { λ s. ⟦<Text as Token>⟧.size s.text };

    ghost value_size = { λ _. 0 };

    ghost ends = { λ s. ⟦<Text as Token>⟧.ends s.text };

    ghost grows = { ⟦<Text as Token>⟧.grows };

    ghost completes = { λ s. ⟦<Text as Token>⟧.completes s.text };

    ghost no_size = { λ e s. ⟦<Text as Token>⟧.no_size e s.text };

    ghost ends_is = { λ s. ⟦<Text as Token>⟧.ends_is s.text };

    ghost one_value = { λ s. ⟦<Text as Token>⟧.one_value s.text };

    ghost holds_bytes = { λ s. ⟦<Text as Token>⟧.holds_bytes s.text };

    fn push(&mut self, bytes: &[u8]) -> Pushed {
        self.text.push(bytes)
    }

    fn allows(&self, byte: u8) -> bool {
        self.text.allows(byte)
    }

    fn can_end(&self) -> bool {
        self.text.can_end()
    }

    fn held(&self) -> u64 {
        self.text.held()
    }

    fn take(self) -> Value {
        self.text.take()
    }

    fn held_in(_value: &Value) -> u64 {
        0
    }
}
