//! A write of the default weight, or of the weight of a device (cgroup-v2.rst, io.weight).
ghost use Rattle.std.specs.Prelude.{◌≡◌, ◌≤◌};
ghost use Rattle.cg_text.specs.Token.{Spells};
ghost use Rattle.cg_value.specs.Settings.{WriteText};
ghost use Rattle.cg_value.specs.declared.kind.WriteForm.TheVariants.{DeviceWeight as DeviceWeightForm};
ghost use Rattle.cg_write.specs.Texts.{IsAnyWeight, IsDeviceAndWeight};

use crate::chosen_weight::ChosenText;
use crate::default_weight::DefaultText;
use cg_join::{Choice, DeviceText, Either, Line, MapValue, Sequence, Spaced, one_line, spaced};
use cg_text::{ByteText, Device, Pushed, Token};
use cg_value::Setting;

/// A device, a space and its weight.
type DeviceWeightText = Sequence<DeviceText, Spaced<ChosenText>>;

/// A device, a space and its weight, from 1 to `most`, or `default`.
fn device_weight_text(most: u64) -> DeviceWeightText
    requires { 1 ≤ most }
    ensures spells { Spells ⟦<DeviceWeightText as Token>⟧.means result (IsDeviceAndWeight most) }
    ensures size { ⟦<DeviceWeightText as Token>⟧.size result ≡ 0 }
{
    Sequence::new(DeviceText::new(), spaced(ChosenText::new(most)))
}

type Parts = Choice<DefaultText, DeviceWeightText>;

/// The default weight, or a device and its weight.
#[derive(Drop)]
pub struct AnyWeightText {
    parts: Parts,
}

impl AnyWeightText {
    /// A token of such texts, with weights from 1 to `most`.
    pub(crate) fn new(most: u64) -> AnyWeightText
        requires { 1 ≤ most }
        ensures spells { Spells ⟦<AnyWeightText as Token>⟧.means result (IsAnyWeight most) }
        ensures size { ⟦<AnyWeightText as Token>⟧.size result ≡ 0 }
    {
        AnyWeightText {
            parts: Choice::new(DefaultText::new(most), device_weight_text(most)),
        }
    }
}

impl Token for AnyWeightText {
    type Out = Either<u64, (Device, ((), Option<u64>))>;

    ghost means = { λ s. ⟦<Parts as Token>⟧.means s.parts };

    ghost size = { λ s. ⟦<Parts as Token>⟧.size s.parts };

    ghost value_size = { λ _. 0 };

    ghost ends = { λ s. ⟦<Parts as Token>⟧.ends s.parts };

    ghost grows = { ⟦<Parts as Token>⟧.grows };

    ghost completes = { λ s. ⟦<Parts as Token>⟧.completes s.parts };

    ghost no_size = { λ e s. ⟦<Parts as Token>⟧.no_size e s.parts };

    ghost ends_is = { λ s. ⟦<Parts as Token>⟧.ends_is s.parts };

    ghost one_value = { λ s. ⟦<Parts as Token>⟧.one_value s.parts };

    ghost holds_bytes = { λ s. ⟦<Parts as Token>⟧.holds_bytes s.parts };

    fn push(&mut self, bytes: &[u8]) -> Pushed {
        self.parts.push(bytes)
    }

    fn whole(&self, bytes: &[u8]) -> Option<(Either<u64, (Device, ((), Option<u64>))>, usize)> {
        self.parts.whole(bytes)
    }

    fn allows(&self, byte: u8) -> bool {
        self.parts.allows(byte)
    }

    fn can_end(&self) -> bool {
        self.parts.can_end()
    }

    fn held(&self) -> u64 {
        self.parts.held()
    }

    fn take(self) -> Either<u64, (Device, ((), Option<u64>))> {
        self.parts.take()
    }

    fn held_in(_value: &Either<u64, (Device, ((), Option<u64>))>) -> u64 {
        0
    }
}

/// The line, turned into the setting.
#[derive(Clone, Copy)]
struct ToDeviceWeight;

impl MapValue<Sequence<AnyWeightText, ByteText>> for ToDeviceWeight {
    type To = Setting;

    ghost use Rattle.cg_write.specs.Mapped.{weight_setting};
    ghost use Rattle.std.proofs.Common.{arith};

    ghost mapped = { weight_setting };

    ghost value_size = { λ _. 0 };

    fn map_value(value: (Either<u64, (Device, ((), Option<u64>))>, ())) -> Setting {
        match value.0 {
            Either::Left(weight) => Setting::DefaultWeight(weight),
            Either::Right((device, (_, weight))) => Setting::DeviceWeight { device, weight },
        }
    }

    fn held_in(_value: &Setting) -> u64 {
        0
    }

    ghost adds_no_memory = { λ v. Prim.omega arith };
}

type Text = Line<AnyWeightText, ToDeviceWeight>;

/// The text of a write of the default weight, or of the weight of a device, which `default` takes away.
#[derive(Drop)]
pub struct DeviceWeightWrite {
    text: Text,
}

impl DeviceWeightWrite {
    /// The text of a write of the default weight, or of the weight of a device, which `default` takes away
    /// (cgroup-v2.rst, io.weight; bfq-iosched.rst). The weights are from 1 to `most`.
    pub fn new(most: u64) -> DeviceWeightWrite
        requires { 1 ≤ most }
        ensures spells { Spells ⟦<DeviceWeightWrite as Token>⟧.means result
            (λ text s. WriteText (DeviceWeightForm most) s text) }
        ensures size { ⟦<DeviceWeightWrite as Token>⟧.size result ≡ 0 }
    {
        DeviceWeightWrite {
            text: one_line(AnyWeightText::new(most)),
        }
    }
}

impl Token for DeviceWeightWrite {
    type Out = Setting;

    ghost means = { λ s. ⟦<Text as Token>⟧.means s.text };

    ghost size = { λ s. ⟦<Text as Token>⟧.size s.text };

    ghost value_size = { λ _. 0 };

    ghost ends = { λ s. ⟦<Text as Token>⟧.ends s.text };

    ghost grows = { ⟦<Text as Token>⟧.grows };

    ghost completes = { λ s. ⟦<Text as Token>⟧.completes s.text };

    ghost no_size = { λ e s. ⟦<Text as Token>⟧.no_size e s.text };

    ghost ends_is = { λ s. ⟦<Text as Token>⟧.ends_is s.text };

    ghost one_value = { λ s. ⟦<Text as Token>⟧.one_value s.text };

    ghost holds_bytes = { λ s. ⟦<Text as Token>⟧.holds_bytes s.text };

    fn push(&mut self, bytes: &[u8]) -> Pushed {
        self.text.push(bytes)
    }

    fn whole(&self, bytes: &[u8]) -> Option<(Setting, usize)> {
        self.text.whole(bytes)
    }

    fn allows(&self, byte: u8) -> bool {
        self.text.allows(byte)
    }

    fn can_end(&self) -> bool {
        self.text.can_end()
    }

    fn held(&self) -> u64 {
        self.text.held()
    }

    fn take(self) -> Setting {
        self.text.take()
    }

    fn held_in(_value: &Setting) -> u64 {
        0
    }
}
