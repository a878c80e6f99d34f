//! A file of devices and their target latencies (cgroup-v2.rst, io.latency).
ghost use Rattle.std.specs.Prelude.{◌≡◌};
ghost use Rattle.cg_text.specs.Token.{Spells};
ghost use Rattle.cg_value.specs.Files.{KindText};
ghost use Rattle.cg_value.specs.declared.kind.ReadForm.TheVariants.{DeviceTargets as DeviceTargetsForm};
ghost use Rattle.cg_value.specs.ReadLine.{IsTargetLine};

use cg_join::{
    DeviceNameText, LabelText, Lines, MakeToken, MapValue, Mapped, Sequence, decimal_in, labelled,
};
use cg_text::{DecimalText, Device, Items, Keyword, Pushed, Token};
use cg_value::{TargetLine, Value};
use std::alloc::Global;

/// A device and its target, turned into a line's value.
#[derive(Clone, Copy)]
pub struct ToTargetLine;

impl MapValue<Sequence<DeviceNameText, LabelText<DecimalText>>> for ToTargetLine {
    type To = TargetLine;

    ghost use Rattle.cg_join.specs.SettledLaws.{zero_least};
    ghost use Rattle.cg_file.specs.DeviceLineLaws.{target_line};

    ghost mapped = { target_line };

    ghost value_size = { λ _. 0 };

    fn map_value(value: (Option<Device>, ((), u64))) -> TargetLine {
        TargetLine {
            device: value.0,
            target: value.1.1,
        }
    }

    fn held_in(_value: &TargetLine) -> u64 {
        0
    }

    ghost adds_no_memory = { λ v. zero_least _ };
}

type LineParts = Mapped<Sequence<DeviceNameText, LabelText<DecimalText>>, ToTargetLine>;

/// A line of a device, ` target=` and a number.
#[derive(Drop)]
pub struct TargetLineText {
    parts: LineParts,
}

impl TargetLineText {
    /// A token of such lines. Where `kernel`, the device may be gone.
    pub(crate) fn new(kernel: bool) -> TargetLineText
        ensures spells { Spells ⟦<TargetLineText as Token>⟧.means result (λ text line. IsTargetLine kernel line text) }
        ensures size { ⟦<TargetLineText as Token>⟧.size result ≡ 0 }
    {
        let target = labelled(Keyword::Target, decimal_in(0, u64::MAX));
        TargetLineText {
            parts: Mapped::new(Sequence::new(DeviceNameText::new(kernel), target)),
        }
    }
}

impl Token for TargetLineText {
    type Out = TargetLine;

    ghost means = { λ s. ⟦<LineParts as Token>⟧.means s.parts };

    ghost size = { λ s. ⟦<LineParts as Token>⟧.size s.parts };

    ghost value_size = { λ _. 0 };

    ghost ends = { λ s. ⟦<LineParts as Token>⟧.ends s.parts };

    ghost grows = { ⟦<LineParts as Token>⟧.grows };

    ghost completes = { λ s. ⟦<LineParts as Token>⟧.completes s.parts };

    ghost no_size = { λ e s. ⟦<LineParts as Token>⟧.no_size e s.parts };

    ghost ends_is = { λ s. ⟦<LineParts as Token>⟧.ends_is s.parts };

    ghost one_value = { λ s. ⟦<LineParts as Token>⟧.one_value s.parts };

    ghost holds_bytes = { λ s. ⟦<LineParts as Token>⟧.holds_bytes s.parts };

    fn push(&mut self, bytes: &[u8]) -> Pushed {
        self.parts.push(bytes)
    }

    fn whole(&self, bytes: &[u8]) -> Option<(TargetLine, usize)> {
        self.parts.whole(bytes)
    }

    fn allows(&self, byte: u8) -> bool {
        self.parts.allows(byte)
    }

    fn can_end(&self) -> bool {
        self.parts.can_end()
    }

    fn held(&self) -> u64 {
        self.parts.held()
    }

    fn take(self) -> TargetLine {
        self.parts.take()
    }

    fn held_in(_value: &TargetLine) -> u64 {
        0
    }
}

/// Makes tokens of such lines. Where `kernel`, a device may be gone.
#[derive(Clone, Copy)]
pub struct TargetStart {
    kernel: bool,
}

impl MakeToken<TargetLineText> for TargetStart {
    ghost use Rattle.cg_file.specs.DeviceLineLaws.{target_startable};

    ghost texts = { λ s text line. IsTargetLine s.kernel line text };

    fn start(&self) -> TargetLineText {
        TargetLineText::new(self.kernel)
    }

    ghost some_text = { λ s. (target_startable s.kernel).some };

    ghost one_text = { λ s. (target_startable s.kernel).one };

    ghost text_bytes = { λ s. (target_startable s.kernel).bytes };
}

/// A line, turned into the file's value.
#[derive(Clone, Copy)]
pub struct ToDeviceTargets;

impl MapValue<Lines<TargetLineText, TargetStart>> for ToDeviceTargets {
    type To = Value;

    ghost use Rattle.cg_join.specs.SettledLaws.{zero_least};
    ghost use Rattle.cg_file.specs.DeviceLineLaws.{targets_value};

    ghost mapped = { targets_value };

    ghost value_size = { λ _. 0 };

    fn map_value(value: Items<TargetLine>) -> Value {
        Value::DeviceTargets(value)
    }

    fn held_in(_value: &Value) -> u64 {
        0
    }

    ghost adds_no_memory = { λ v. zero_least _ };
}

type Text = Mapped<Lines<TargetLineText, TargetStart>, ToDeviceTargets>;

/// The text of a file of any number of devices and their targets.
#[derive(Drop)]
pub struct DeviceTargetsFile {
    text: Text,
}

impl DeviceTargetsFile {
    /// A token of such files. Where `kernel`, a device may be gone.
    pub fn new(alloc: Global, kernel: bool) -> DeviceTargetsFile
        ensures spells { Spells ⟦<DeviceTargetsFile as Token>⟧.means result
            (λ text v. KindText (DeviceTargetsForm kernel) v text) }
        ensures size { ⟦<DeviceTargetsFile as Token>⟧.size result ≡ 0 }
    {
        DeviceTargetsFile {
            text: Mapped::new(Lines::new(alloc, TargetStart { kernel }, b'\n')),
        }
    }
}

impl Token for DeviceTargetsFile {
    type Out = Value;

    ghost means = { λ s. ⟦<Text as Token>⟧.means s.text };

    ghost size = { λ s. ⟦<Text as Token>⟧.size s.text };

    ghost value_size = { λ _. 0 };

    ghost ends = { λ s. ⟦<Text as Token>⟧.ends s.text };

    ghost grows = { ⟦<Text as Token>⟧.grows };

    ghost completes = { λ s. ⟦<Text as Token>⟧.completes s.text };

    ghost no_size = { λ e s. ⟦<Text as Token>⟧.no_size e s.text };

    ghost ends_is = { λ s. ⟦<Text as Token>⟧.ends_is s.text };

    ghost one_value = { λ s. ⟦<Text as Token>⟧.one_value s.text };

    ghost holds_bytes = { λ s. ⟦<Text as Token>⟧.holds_bytes s.text };

    fn push(&mut self, bytes: &[u8]) -> Pushed {
        self.text.push(bytes)
    }

    fn allows(&self, byte: u8) -> bool {
        self.text.allows(byte)
    }

    fn can_end(&self) -> bool {
        self.text.can_end()
    }

    fn held(&self) -> u64 {
        self.text.held()
    }

    fn take(self) -> Value {
        self.text.take()
    }

    fn held_in(_value: &Value) -> u64 {
        0
    }
}
