//! A file of a default weight and of devices and their weights (cgroup-v2.rst, io.weight; bfq-iosched.rst).
ghost use Rattle.std.specs.Prelude.{◌≡◌, ◌≤◌};
ghost use Rattle.cg_text.specs.Token.{Spells};
ghost use Rattle.cg_value.specs.Files.{KindText};
ghost use Rattle.cg_value.specs.declared.kind.ReadForm.TheVariants.{DeviceWeights as DeviceWeightsForm};
ghost use Rattle.cg_value.specs.ReadLine.{IsWeightLine};

use cg_join::{
    DeviceNameText, LabelText, Lines, MakeToken, MapValue, Mapped, Sequence, Spaced, decimal_in,
    labelled, spaced,
};
use cg_text::{ByteText, DecimalText, Device, Items, Keyword, Pushed, Token};
use cg_value::{Value, WeightLine};
use std::alloc::Global;

/// A device and its weight, turned into a line's value.
#[derive(Clone, Copy)]
pub struct ToWeightLine;

impl MapValue<Sequence<DeviceNameText, Spaced<DecimalText>>> for ToWeightLine {
    type To = WeightLine;

    ghost use Rattle.cg_join.specs.SettledLaws.{zero_least};
    ghost use Rattle.cg_file.specs.DeviceLineLaws.{weight_line};

    ghost mapped = { weight_line };

    ghost value_size = { λ _. 0 };

    fn map_value(value: (Option<Device>, ((), u64))) -> WeightLine {
        WeightLine {
            device: value.0,
            weight: value.1.1,
        }
    }

    fn held_in(_value: &WeightLine) -> u64 {
        0
    }

    ghost adds_no_memory = { λ v. zero_least _ };
}

type LineParts = Mapped<Sequence<DeviceNameText, Spaced<DecimalText>>, ToWeightLine>;

/// A line of a device, a space and a weight.
#[derive(Drop)]
pub struct WeightLineText {
    parts: LineParts,
}

impl WeightLineText {
    /// A token of such lines, with weights from 1 to `most`. Where `kernel`, the device may be gone.
    pub(crate) fn new(most: u64, kernel: bool) -> WeightLineText
        requires { 1 ≤ most }
        ensures spells { Spells ⟦<WeightLineText as Token>⟧.means result
            (λ text line. IsWeightLine most kernel line text) }
        ensures size { ⟦<WeightLineText as Token>⟧.size result ≡ 0 }
    {
        let weight = spaced(decimal_in(1, most));
        WeightLineText {
            parts: Mapped::new(Sequence::new(DeviceNameText::new(kernel), weight)),
        }
    }
}

impl Token for WeightLineText {
    type Out = WeightLine;

    ghost means = { λ s. ⟦<LineParts as Token>⟧.means s.parts };

    ghost size = { λ s. ⟦<LineParts as Token>⟧.size s.parts };

    ghost value_size = { λ _. 0 };

    ghost ends = { λ s. ⟦<LineParts as Token>⟧.ends s.parts };

    ghost grows = { ⟦<LineParts as Token>⟧.grows };

    ghost completes = { λ s. ⟦<LineParts as Token>⟧.completes s.parts };

    ghost no_size = { λ e s. ⟦<LineParts as Token>⟧.no_size e s.parts };

    ghost ends_is = { λ s. ⟦<LineParts as Token>⟧.ends_is s.parts };

    ghost one_value = { λ s. ⟦<LineParts as Token>⟧.one_value s.parts };

    ghost holds_bytes = { λ s. ⟦<LineParts as Token>⟧.holds_bytes s.parts };

    fn push(&mut self, bytes: &[u8]) -> Pushed {
        self.parts.push(bytes)
    }

    fn whole(&self, bytes: &[u8]) -> Option<(WeightLine, usize)> {
        self.parts.whole(bytes)
    }

    fn allows(&self, byte: u8) -> bool {
        self.parts.allows(byte)
    }

    fn can_end(&self) -> bool {
        self.parts.can_end()
    }

    fn held(&self) -> u64 {
        self.parts.held()
    }

    fn take(self) -> WeightLine {
        self.parts.take()
    }

    fn held_in(_value: &WeightLine) -> u64 {
        0
    }
}

/// Makes tokens of such lines, with weights from 1 to `most`. Where `kernel`, a device may be gone.
#[derive(Clone, Copy)]
pub struct WeightStart {
    most: u64,
    kernel: bool,
    ghost range: { 1 ≤ most },
}

impl MakeToken<WeightLineText> for WeightStart {
    ghost use Rattle.cg_file.specs.DeviceLineLaws.{weight_startable};

    ghost texts = { λ s text line. IsWeightLine s.most s.kernel line text };

    fn start(&self) -> WeightLineText {
        WeightLineText::new(self.most, self.kernel)
    }

    ghost some_text = { λ s. (weight_startable s.most s.kernel s.range).some };

    ghost one_text = { λ s. (weight_startable s.most s.kernel s.range).one };

    ghost text_bytes = { λ s. (weight_startable s.most s.kernel s.range).bytes };
}

/// The default weight and a newline.
type DefaultLine = Sequence<LabelText<Spaced<DecimalText>>, ByteText>;

/// A line, turned into the file's value.
#[derive(Clone, Copy)]
pub struct ToDeviceWeights;

impl MapValue<Sequence<DefaultLine, Lines<WeightLineText, WeightStart>>> for ToDeviceWeights {
    type To = Value;

    ghost use Rattle.cg_join.specs.SettledLaws.{zero_least};
    ghost use Rattle.cg_file.specs.WeightFileLaws.{weights_value};

    ghost mapped = { weights_value };

    ghost value_size = { λ _. 0 };

    fn map_value(value: ((((), ((), u64)), ()), Items<WeightLine>)) -> Value {
        Value::DeviceWeights {
            default: value.0.0.1.1,
            lines: value.1,
        }
    }

    fn held_in(_value: &Value) -> u64 {
        0
    }

    ghost adds_no_memory = { λ v. zero_least _ };
}

type Text = Mapped<Sequence<DefaultLine, Lines<WeightLineText, WeightStart>>, ToDeviceWeights>;

/// The text of a file of a default weight, and of any number of devices and their weights.
#[derive(Drop)]
pub struct DeviceWeightsFile {
    text: Text,
}

impl DeviceWeightsFile {
    /// A token of such files, with weights from 1 to `most`. Where `kernel`, a device may be gone.
    pub fn new(alloc: Global, most: u64, kernel: bool) -> DeviceWeightsFile
        requires { 1 ≤ most }
        ensures spells { Spells ⟦<DeviceWeightsFile as Token>⟧.means result
            (λ text v. KindText (DeviceWeightsForm most kernel) v text) }
        ensures size { ⟦<DeviceWeightsFile as Token>⟧.size result ≡ 0 }
    {
        let default = spaced(decimal_in(1, most));
        let first = labelled(Keyword::Default, default);
        let line = Sequence::new(first, ByteText::new(b'\n'));
        let lines = Lines::new(alloc, WeightStart { most, kernel }, b'\n');
        DeviceWeightsFile {
            text: Mapped::new(Sequence::new(line, lines)),
        }
    }
}

impl Token for DeviceWeightsFile {
    type Out = Value;

    ghost means = { λ s. ⟦<Text as Token>⟧.means s.text };

    ghost size = { λ s. ⟦<Text as Token>⟧.size s.text };

    ghost value_size = { λ _. 0 };

    ghost ends = { λ s. ⟦<Text as Token>⟧.ends s.text };

    ghost grows = { ⟦<Text as Token>⟧.grows };

    ghost completes = { λ s. ⟦<Text as Token>⟧.completes s.text };

    ghost no_size = { λ e s. ⟦<Text as Token>⟧.no_size e s.text };

    ghost ends_is = { λ s. ⟦<Text as Token>⟧.ends_is s.text };

    ghost one_value = { λ s. ⟦<Text as Token>⟧.one_value s.text };

    ghost holds_bytes = { λ s. ⟦<Text as Token>⟧.holds_bytes s.text };

    fn push(&mut self, bytes: &[u8]) -> Pushed {
        self.text.push(bytes)
    }

    fn allows(&self, byte: u8) -> bool {
        self.text.allows(byte)
    }

    fn can_end(&self) -> bool {
        self.text.can_end()
    }

    fn held(&self) -> u64 {
        self.text.held()
    }

    fn take(self) -> Value {
        self.text.take()
    }

    fn held_in(_value: &Value) -> u64 {
        0
    }
}
