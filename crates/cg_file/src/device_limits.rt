//! A file of devices and their limits (cgroup-v2.rst, io.max).
ghost use Rattle.std.specs.Prelude.{◌≡◌};
ghost use Rattle.cg_text.specs.Token.{Spells};
ghost use Rattle.cg_value.specs.Files.{KindText};
ghost use Rattle.cg_value.specs.declared.kind.ReadForm.TheVariants.{DeviceLimits as DeviceLimitsForm};
ghost use Rattle.cg_value.specs.ReadLine.{IsLimitLine};

use cg_join::{
    DeviceNameText, LabelText, LimitText, Lines, MakeToken, MapValue, Mapped, Sequence, labelled,
    limit_in,
};
use cg_text::{Device, Items, Keyword, Limit, Pushed, Token};
use cg_value::{LimitLine, Value};
use std::alloc::Global;

/// Four limits, each after its label.
type FourLimits = Sequence<
    LabelText<LimitText>,
    Sequence<LabelText<LimitText>, Sequence<LabelText<LimitText>, LabelText<LimitText>>>,
>;

/// The values of four limits, each after its label.
type FourLimitValues = (((), Limit), (((), Limit), (((), Limit), ((), Limit))));

/// A device and its limits, turned into a line's value.
#[derive(Clone, Copy)]
pub struct ToLimitLine;

impl MapValue<Sequence<DeviceNameText, FourLimits>> for ToLimitLine {
    type To = LimitLine;

    ghost use Rattle.cg_join.specs.SettledLaws.{zero_least};
    ghost use Rattle.cg_file.specs.DeviceLineLaws.{limit_line};

    ghost mapped = { limit_line };

    ghost value_size = { λ _. 0 };

    fn map_value(value: (Option<Device>, FourLimitValues)) -> LimitLine {
        let (device, ((_, rbps), ((_, wbps), ((_, riops), (_, wiops))))) = value;
        LimitLine {
            device,
            rbps,
            wbps,
            riops,
            wiops,
        }
    }

    fn held_in(_value: &LimitLine) -> u64 {
        0
    }

    ghost adds_no_memory = { λ v. zero_least _ };
}

type LineParts = Mapped<Sequence<DeviceNameText, FourLimits>, ToLimitLine>;

/// A line of a device, and ` rbps=`, ` wbps=`, ` riops=` and ` wiops=`, each with a limit.
#[derive(Drop)]
pub struct LimitLineText {
    parts: LineParts,
}

impl LimitLineText {
    /// A token of such lines. Where `kernel`, the device may be gone.
    pub(crate) fn new(kernel: bool) -> LimitLineText
        ensures spells { Spells ⟦<LimitLineText as Token>⟧.means result (λ text line. IsLimitLine kernel line text) }
        ensures size { ⟦<LimitLineText as Token>⟧.size result ≡ 0 }
    {
        let wiops = labelled(Keyword::Wiops, limit_in(0, u64::MAX));
        let riops = labelled(Keyword::Riops, limit_in(0, u64::MAX));
        let wbps = labelled(Keyword::Wbps, limit_in(0, u64::MAX));
        let rbps = labelled(Keyword::Rbps, limit_in(0, u64::MAX));
        let two = Sequence::new(riops, wiops);
        let three = Sequence::new(wbps, two);
        let four = Sequence::new(rbps, three);
        LimitLineText {
            parts: Mapped::new(Sequence::new(DeviceNameText::new(kernel), four)),
        }
    }
}

impl Token for LimitLineText {
    type Out = LimitLine;

    ghost means = { λ s. ⟦<LineParts as Token>⟧.means s.parts };

    ghost size = { λ s. ⟦<LineParts as Token>⟧.size s.parts };

    ghost value_size = { λ _. 0 };

    ghost ends = { λ s. ⟦<LineParts as Token>⟧.ends s.parts };

    ghost grows = { ⟦<LineParts as Token>⟧.grows };

    ghost completes = { λ s. ⟦<LineParts as Token>⟧.completes s.parts };

    ghost no_size = { λ e s. ⟦<LineParts as Token>⟧.no_size e s.parts };

    ghost ends_is = { λ s. ⟦<LineParts as Token>⟧.ends_is s.parts };

    ghost one_value = { λ s. ⟦<LineParts as Token>⟧.one_value s.parts };

    ghost holds_bytes = { λ s. ⟦<LineParts as Token>⟧.holds_bytes s.parts };

    fn push(&mut self, bytes: &[u8]) -> Pushed {
        self.parts.push(bytes)
    }

    fn whole(&self, bytes: &[u8]) -> Option<(LimitLine, usize)> {
        self.parts.whole(bytes)
    }

    fn allows(&self, byte: u8) -> bool {
        self.parts.allows(byte)
    }

    fn can_end(&self) -> bool {
        self.parts.can_end()
    }

    fn held(&self) -> u64 {
        self.parts.held()
    }

    fn take(self) -> LimitLine {
        self.parts.take()
    }

    fn held_in(_value: &LimitLine) -> u64 {
        0
    }
}

/// Makes tokens of such lines. Where `kernel`, a device may be gone.
#[derive(Clone, Copy)]
pub struct LimitStart {
    kernel: bool,
}

impl MakeToken<LimitLineText> for LimitStart {
    ghost use Rattle.cg_file.specs.DeviceLineLaws.{limits_startable};

    ghost texts = { λ s text line. IsLimitLine s.kernel line text };

    fn start(&self) -> LimitLineText {
        LimitLineText::new(self.kernel)
    }

    ghost some_text = { λ s. (limits_startable s.kernel).some };

    ghost one_text = { λ s. (limits_startable s.kernel).one };

    ghost text_bytes = { λ s. (limits_startable s.kernel).bytes };
}

/// A line, turned into the file's value.
#[derive(Clone, Copy)]
pub struct ToDeviceLimits;

impl MapValue<Lines<LimitLineText, LimitStart>> for ToDeviceLimits {
    type To = Value;

    ghost use Rattle.cg_join.specs.SettledLaws.{zero_least};
    ghost use Rattle.cg_file.specs.DeviceLineLaws.{limits_value};

    ghost mapped = { limits_value };

    ghost value_size = { λ _. 0 };

    fn map_value(value: Items<LimitLine>) -> Value {
        Value::DeviceLimits(value)
    }

    fn held_in(_value: &Value) -> u64 {
        0
    }

    ghost adds_no_memory = { λ v. zero_least _ };
}

type Text = Mapped<Lines<LimitLineText, LimitStart>, ToDeviceLimits>;

/// The text of a file of any number of devices and their limits.
#[derive(Drop)]
pub struct DeviceLimitsFile {
    text: Text,
}

impl DeviceLimitsFile {
    /// A token of such files. Where `kernel`, a device may be gone.
    pub fn new(alloc: Global, kernel: bool) -> DeviceLimitsFile
        ensures spells { Spells ⟦<DeviceLimitsFile as Token>⟧.means result
            (λ text v. KindText (DeviceLimitsForm kernel) v text) }
        ensures size { ⟦<DeviceLimitsFile as Token>⟧.size result ≡ 0 }
    {
        DeviceLimitsFile {
            text: Mapped::new(Lines::new(alloc, LimitStart { kernel }, b'\n')),
        }
    }
}

impl Token for DeviceLimitsFile {
    type Out = Value;

    ghost means = { λ s. ⟦<Text as Token>⟧.means s.text };

    ghost size = { λ s. ⟦<Text as Token>⟧.size s.text };

    ghost value_size = { λ _. 0 };

    ghost ends = { λ s. ⟦<Text as Token>⟧.ends s.text };

    ghost grows = { ⟦<Text as Token>⟧.grows };

    ghost completes = { λ s. ⟦<Text as Token>⟧.completes s.text };

    ghost no_size = { λ e s. ⟦<Text as Token>⟧.no_size e s.text };

    ghost ends_is = { λ s. ⟦<Text as Token>⟧.ends_is s.text };

    ghost one_value = { λ s. ⟦<Text as Token>⟧.one_value s.text };

    ghost holds_bytes = { λ s. ⟦<Text as Token>⟧.holds_bytes s.text };

    fn push(&mut self, bytes: &[u8]) -> Pushed {
        self.text.push(bytes)
    }

    fn allows(&self, byte: u8) -> bool {
        self.text.allows(byte)
    }

    fn can_end(&self) -> bool {
        self.text.can_end()
    }

    fn held(&self) -> u64 {
        self.text.held()
    }

    fn take(self) -> Value {
        self.text.take()
    }

    fn held_in(_value: &Value) -> u64 {
        0
    }
}
