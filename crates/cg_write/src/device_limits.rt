//! A write of some of the limits of a device (cgroup-v2.rst, io.max).
ghost use Rattle.std.specs.Prelude.{◌≡◌};
ghost use Rattle.cg_text.specs.Token.{Spells};
ghost use Rattle.cg_value.specs.Settings.{WriteText};
ghost use Rattle.cg_value.specs.declared.kind.WriteForm.TheVariants.{DeviceLimits as DeviceLimitsForm};
ghost use Rattle.cg_write.specs.Texts.{IsSpacedLimits};

use cg_join::{DeviceText, Line, MapValue, Sequence, Spaced, one_line, spaced};
use cg_text::{ByteText, Device, LimitPairs, LimitPairsText, Pushed, Token};
use cg_value::Setting;

type Parts = Sequence<DeviceText, Spaced<LimitPairsText>>;

/// A device, a space and one to four of its limits.
#[derive(Drop)]
pub struct DeviceLimitsText {
    parts: Parts,
}

impl DeviceLimitsText {
    /// A token of such texts.
    pub(crate) fn new() -> DeviceLimitsText
        ensures spells { Spells ⟦<DeviceLimitsText as Token>⟧.means result IsSpacedLimits }
        ensures size { ⟦<DeviceLimitsText as Token>⟧.size result ≡ 0 }
    {
        DeviceLimitsText {
            parts: Sequence::new(DeviceText::new(), spaced(LimitPairsText::new())),
        }
    }
}

impl Token for DeviceLimitsText {
    type Out = (Device, ((), LimitPairs));

    ghost means = { λ s. ⟦<Parts as Token>⟧.means s.parts };

    ghost size = { λ s. ⟦<Parts as Token>⟧.size s.parts };

    ghost value_size = { λ _. 0 };

    ghost ends = { λ s. ⟦<Parts as Token>⟧.ends s.parts };

    ghost grows = { ⟦<Parts as Token>⟧.grows };

    ghost completes = { λ s. ⟦<Parts as Token>⟧.completes s.parts };

    ghost no_size = { λ e s. ⟦<Parts as Token>⟧.no_size e s.parts };

    ghost ends_is = { λ s. ⟦<Parts as Token>⟧.ends_is s.parts };

    ghost one_value = { λ s. ⟦<Parts as Token>⟧.one_value s.parts };

    ghost holds_bytes = { λ s. ⟦<Parts as Token>⟧.holds_bytes s.parts };

    fn push(&mut self, bytes: &[u8]) -> Pushed {
        self.parts.push(bytes)
    }

    fn whole(&self, bytes: &[u8]) -> Option<((Device, ((), LimitPairs)), usize)> {
        self.parts.whole(bytes)
    }

    fn allows(&self, byte: u8) -> bool {
        self.parts.allows(byte)
    }

    fn can_end(&self) -> bool {
        self.parts.can_end()
    }

    fn held(&self) -> u64 {
        self.parts.held()
    }

    fn take(self) -> (Device, ((), LimitPairs)) {
        self.parts.take()
    }

    fn held_in(_value: &(Device, ((), LimitPairs))) -> u64 {
        0
    }
}

/// The line, turned into the setting.
#[derive(Clone, Copy)]
struct ToDeviceLimits;

impl MapValue<Sequence<DeviceLimitsText, ByteText>> for ToDeviceLimits {
    type To = Setting;

    ghost use Rattle.cg_write.specs.Mapped.{device_limits_setting};
    ghost use Rattle.std.proofs.Common.{arith};

    ghost mapped = { device_limits_setting };

    ghost value_size = { λ _. 0 };

    fn map_value(value: ((Device, ((), LimitPairs)), ())) -> Setting {
        let (device, (_, limits)) = value.0;
        Setting::DeviceLimits {
            device,
            rbps: limits.rbps,
            wbps: limits.wbps,
            riops: limits.riops,
            wiops: limits.wiops,
        }
    }

    fn held_in(_value: &Setting) -> u64 {
        0
    }

    ghost adds_no_memory = { λ v. Prim.omega arith };
}

type Text = Line<DeviceLimitsText, ToDeviceLimits>;

/// The text of a write of a device and one to four of its limits, in any order.
#[derive(Drop)]
pub struct DeviceLimitsWrite {
    text: Text,
}

impl DeviceLimitsWrite {
    /// The text of a write of a device and one to four of its limits, in any order (cgroup-v2.rst, io.max).
    pub fn new() -> DeviceLimitsWrite
        ensures spells { Spells ⟦<DeviceLimitsWrite as Token>⟧.means result
            (λ text s. WriteText DeviceLimitsForm s text) }
        ensures size { ⟦<DeviceLimitsWrite as Token>⟧.size result ≡ 0 }
    {
        DeviceLimitsWrite {
            text: one_line(DeviceLimitsText::new()),
        }
    }
}

impl Token for DeviceLimitsWrite {
    type Out = Setting;

    ghost means = { λ s. ⟦<Text as Token>⟧.means s.text };

    ghost size = { λ s. ⟦<Text as Token>⟧.size s.text };

    ghost value_size = { λ _. 0 };

    ghost ends = { λ s. ⟦<Text as Token>⟧.ends s.text };

    ghost grows = { ⟦<Text as Token>⟧.grows };

    ghost completes = { λ s. ⟦<Text as Token>⟧.completes s.text };

    ghost no_size = { λ e s. ⟦<Text as Token>⟧.no_size e s.text };

    ghost ends_is = { λ s. ⟦<Text as Token>⟧.ends_is s.text };

    ghost one_value = { λ s. ⟦<Text as Token>⟧.one_value s.text };

    ghost holds_bytes = { λ s. ⟦<Text as Token>⟧.holds_bytes s.text };

    fn push(&mut self, bytes: &[u8]) -> Pushed {
        self.text.push(bytes)
    }

    fn whole(&self, bytes: &[u8]) -> Option<(Setting, usize)> {
        self.text.whole(bytes)
    }

    fn allows(&self, byte: u8) -> bool {
        self.text.allows(byte)
    }

    fn can_end(&self) -> bool {
        self.text.can_end()
    }

    fn held(&self) -> u64 {
        self.text.held()
    }

    fn take(self) -> Setting {
        self.text.take()
    }

    fn held_in(_value: &Setting) -> u64 {
        0
    }
}
