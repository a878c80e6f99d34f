//! Block devices, and what stands for those that are gone.
ghost use Rattle.std.specs.Prelude.{◌≡◌, false, refl};
ghost use Rattle.cg_text.specs.Device.{IsDeviceName};
ghost use Rattle.cg_text.specs.Token.{Spells};

use crate::choice::Either;
use crate::device::DeviceText;
use crate::fork::Fork;
use crate::make_token::MakeToken;
use crate::mapped::{MapValue, Mapped};
use cg_text::{Device, Keyword, KeywordText, Pushed, Token};

/// Makes tokens of `(unknown)`.
#[derive(Clone, Copy, Drop)]
struct MakeGone;

impl MakeToken<KeywordText> for MakeGone {
    ghost use Rattle.cg_join.specs.DeviceNameLaws.{IsGone, gone_proper};

    ghost texts = { λ _. IsGone };

    fn start(&self) -> KeywordText {
        KeywordText::new(Keyword::Unknown)
    }

    ghost some_text = { λ _. gone_proper.some_text };

    ghost one_text = { λ _. gone_proper.one_text };

    ghost text_bytes = { λ _. gone_proper.text_bytes };
}

type AnyName = Fork<DeviceText, KeywordText, MakeGone>;

/// The device of a name, if it is known.
#[derive(Clone, Copy)]
struct ToDeviceName;

impl MapValue<AnyName> for ToDeviceName {
    type To = Option<Device>;

    ghost use Rattle.cg_join.specs.DeviceNameState.{device_named};

    ghost mapped = { device_named };

    ghost value_size = { λ _. 0 };

    #[inline(always)]
    fn map_value(value: Either<Device, ()>) -> Option<Device> {
        match value {
            Either::Left(device) => Some(device),
            Either::Right(_) => None,
        }
    }

    fn held_in(_value: &Option<Device>) -> u64 {
        0
    }

    ghost use Rattle.std.proofs.Common.{arith};

    ghost adds_no_memory = { λ v. Prim.omega arith };
}

type Parts = Mapped<AnyName, ToDeviceName>;

/// A device; also `(unknown)`, which has none, where that is allowed.
#[derive(Drop)]
pub struct DeviceNameText {
    parts: Parts,
}

impl DeviceNameText {
    /// A token of devices, and where `unknown` also of `(unknown)`, which stands for a device that is gone.
    pub fn new(unknown: bool) -> DeviceNameText
        ensures spells { Spells ⟦<DeviceNameText as Token>⟧.means result (λ text v. IsDeviceName unknown v text) }
        ensures size { ⟦<DeviceNameText as Token>⟧.size result ≡ 0 }
    {
        DeviceNameText {
            parts: Mapped::new(Fork::new(DeviceText::new(), MakeGone, b'(', unknown)),
        }
    }
}

impl Token for DeviceNameText {
    type Out = Option<Device>;

    ghost means = { λ s rest v. ⟦<Parts as Token>⟧.means s.parts rest v };

    ghost size = { λ _. 0 };

    ghost value_size = { λ _. 0 };

    ghost ends = { λ s. ⟦<Parts as Token>⟧.ends s.parts };

    ghost grows = { false };

    ghost completes = { λ s. ⟦<Parts as Token>⟧.completes s.parts };

    ghost no_size = { λ _ _. refl };

    ghost ends_is = { λ s. ⟦<Parts as Token>⟧.ends_is s.parts };

    ghost one_value = { λ s. ⟦<Parts as Token>⟧.one_value s.parts };

    ghost holds_bytes = { λ s. ⟦<Parts as Token>⟧.holds_bytes s.parts };

    #[inline(always)]
    fn push(&mut self, bytes: &[u8]) -> Pushed {
        self.parts.push(bytes)
    }

    #[inline(always)]
    fn whole(&self, bytes: &[u8]) -> Option<(Option<Device>, usize)> {
        self.parts.whole(bytes)
    }

    fn allows(&self, byte: u8) -> bool {
        self.parts.allows(byte)
    }

    fn can_end(&self) -> bool {
        self.parts.can_end()
    }

    fn held(&self) -> u64 {
        0
    }

    fn take(self) -> Option<Device> {
        self.parts.take()
    }

    fn held_in(_value: &Option<Device>) -> u64 {
        0
    }
}
