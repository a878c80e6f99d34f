//! Block devices.
ghost use Rattle.std.specs.Prelude.{◌≡◌, ◌<◌, false, refl};
ghost use Rattle.cg_text.specs.Token.{Spells};
ghost use Rattle.cg_text.specs.Device.{IsDevice};
ghost use Rattle.cg_join.specs.DeviceState.{HasNarrow, numbers_of};

use crate::sequence::Sequence;
use cg_text::{ByteText, DecimalText, Device, Pushed, Token};

type Tail = Sequence<ByteText, DecimalText>;

type Parts = Sequence<DecimalText, Tail>;

/// A major number, a colon and a minor number.
#[derive(Drop)]
pub struct DeviceText {
    parts: Parts,
    ghost narrow: { HasNarrow (⟦<Parts as Token>⟧.means parts) },
}

impl DeviceText {
    /// A token of devices: a major number of at most 4095, and a minor number of at most 1048575.
    pub fn new() -> DeviceText
        ensures spells { Spells ⟦<DeviceText as Token>⟧.means result (λ rest v. IsDevice v rest) }
        ensures size { ⟦<DeviceText as Token>⟧.size result ≡ 0 }
    {
        let major = match DecimalText::new(0, 4095) {
            Some(major) => major,
            None => unreachable!(),
        };
        let minor = match DecimalText::new(0, 1048575) {
            Some(minor) => minor,
            None => unreachable!(),
        };
        DeviceText {
            parts: Sequence::new(major, Sequence::new(ByteText::new(b':'), minor)),
        }
    }
}

impl Token for DeviceText {
    type Out = Device;

    ghost use Rattle.cg_join.specs.DeviceLaws.{device_completes, device_ends, device_one};

    ghost means = { λ s rest device. ⟦<Parts as Token>⟧.means s.parts rest (numbers_of device) };

    ghost size = { λ _. 0 };

    ghost value_size = { λ _. 0 };

    ghost ends = { λ s. ⟦<Parts as Token>⟧.ends s.parts };

    ghost grows = { false };

    ghost completes = { λ s. device_completes (⟦<Parts as Token>⟧.means s.parts)
        (⟦<Parts as Token>⟧.completes s.parts) };

    ghost no_size = { λ _ _. refl };

    ghost ends_is = { λ s. device_ends (⟦<Parts as Token>⟧.means s.parts) (⟦<Parts as Token>⟧.ends_is s.parts) };

    ghost one_value = { λ s. device_one (⟦<Parts as Token>⟧.means s.parts) (⟦<Parts as Token>⟧.one_value s.parts) };

    ghost holds_bytes = { λ s rest v. ⟦<Parts as Token>⟧.holds_bytes s.parts rest (numbers_of v) };

    #[inline(always)]
    fn push(&mut self, bytes: &[u8]) -> Pushed {
        self.parts.push(bytes)
    }

    #[inline(always)]
    fn whole(&self, bytes: &[u8]) -> Option<(Device, usize)> {
        match self.parts.whole(bytes) {
            Some((numbers, count)) => {
                let device = Device {
                    major: numbers.0 as u32,
                    minor: numbers.1.1 as u32,
                };
                Some((device, count))
            }
            None => None,
        }
    }

    fn allows(&self, byte: u8) -> bool {
        self.parts.allows(byte)
    }

    fn can_end(&self) -> bool {
        self.parts.can_end()
    }

    fn held(&self) -> u64 {
        0
    }

    fn take(self) -> Device {
        let numbers = self.parts.take();
        Device {
            major: numbers.0 as u32,
            minor: numbers.1.1 as u32,
        }
    }

    fn held_in(_value: &Device) -> u64 {
        0
    }
}
