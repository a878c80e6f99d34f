//! Devices and what is said of them.
ghost use Rattle.std.specs.Prelude.{◌≡◌};
ghost use Rattle.cg_text.specs.Token.{Spells};
ghost use Rattle.cg_join.specs.Composites.{IsDeviceTarget};

use crate::bounded::decimal_in;
use crate::device::DeviceText;
use crate::label::{LabelText, labelled};
use crate::sequence::Sequence;
use cg_text::{DecimalText, Keyword, Token};

/// A device and its target latency.
pub type DeviceTarget = Sequence<DeviceText, LabelText<DecimalText>>;

/// A device, ` target=` and a number of microseconds (cgroup-v2.rst, `io.latency`).
pub fn device_target() -> DeviceTarget
    ensures spells { Spells ⟦<DeviceTarget as Token>⟧.means result IsDeviceTarget }
    ensures size { ⟦<DeviceTarget as Token>⟧.size result ≡ 0 }
{
    let device = DeviceText::new();
    let target = labelled(Keyword::Target, decimal_in(0, u64::MAX));
    Sequence::new(device, target)
}
