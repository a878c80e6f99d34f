//! A write of the target latency of a device (cgroup-v2.rst, io.latency).
ghost use Rattle.std.specs.Prelude.{◌≡◌};
ghost use Rattle.cg_text.specs.Token.{Spells};
ghost use Rattle.cg_value.specs.Settings.{WriteText};
ghost use Rattle.cg_value.specs.declared.kind.WriteForm.TheVariants.{DeviceTarget as DeviceTargetForm};

use cg_join::{DeviceTarget, Line, MapValue, Sequence, device_target, one_line};
use cg_text::{ByteText, Device, Pushed, Token};
use cg_value::Setting;

/// The line, turned into the setting.
#[derive(Clone, Copy)]
struct ToDeviceTarget;

impl MapValue<Sequence<DeviceTarget, ByteText>> for ToDeviceTarget {
    type To = Setting;

    ghost use Rattle.cg_write.specs.Mapped.{device_target_setting};
    ghost use Rattle.std.proofs.Common.{arith};

    ghost mapped = { device_target_setting };

    ghost value_size = { λ _. 0 };

    fn map_value(value: ((Device, ((), u64)), ())) -> Setting {
        let (device, (_, target)) = value.0;
        Setting::DeviceTarget { device, target }
    }

    fn held_in(_value: &Setting) -> u64 {
        0
    }

    ghost adds_no_memory = { λ v. Prim.omega arith };
}

type Text = Line<DeviceTarget, ToDeviceTarget>;

/// The text of a write of a device and its target latency in microseconds.
#[derive(Drop)]
pub struct DeviceTargetWrite {
    text: Text,
}

impl DeviceTargetWrite {
    /// The text of a write of a device and its target latency in microseconds (cgroup-v2.rst, io.latency).
    pub fn new() -> DeviceTargetWrite
        ensures spells { Spells ⟦<DeviceTargetWrite as Token>⟧.means result
            (λ text s. WriteText DeviceTargetForm s text) }
        ensures size { ⟦<DeviceTargetWrite as Token>⟧.size result ≡ 0 }
    {
        DeviceTargetWrite {
            text: one_line(device_target()),
        }
    }
}

impl Token for DeviceTargetWrite {
    type Out = Setting;

    ghost means = { λ s. ⟦<Text as Token>⟧.means s.text };

    ghost size = { λ s. ⟦<Text as Token>⟧.size s.text };

    ghost value_size = { λ _. 0 };

    ghost ends = { λ s. ⟦<Text as Token>⟧.ends s.text };

    ghost grows = { ⟦<Text as Token>⟧.grows };

    ghost completes = { λ s. ⟦<Text as Token>⟧.completes s.text };

    ghost no_size = { λ e s. ⟦<Text as Token>⟧.no_size e s.text };

    ghost ends_is = { λ s. ⟦<Text as Token>⟧.ends_is s.text };

    ghost one_value = { λ s. ⟦<Text as Token>⟧.one_value s.text };

    ghost holds_bytes = { λ s. ⟦<Text as Token>⟧.holds_bytes s.text };

    fn push(&mut self, bytes: &[u8]) -> Pushed {
        self.text.push(bytes)
    }

    fn whole(&self, bytes: &[u8]) -> Option<(Setting, usize)> {
        self.text.whole(bytes)
    }

    fn allows(&self, byte: u8) -> bool {
        self.text.allows(byte)
    }

    fn can_end(&self) -> bool {
        self.text.can_end()
    }

    fn held(&self) -> u64 {
        self.text.held()
    }

    fn take(self) -> Setting {
        self.text.take()
    }

    fn held_in(_value: &Setting) -> u64 {
        0
    }
}
