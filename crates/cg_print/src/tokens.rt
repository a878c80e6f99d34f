//! The canonical texts of tokens.
ghost use Rattle.std.specs.Prelude.{◌∷◌, decimal};
ghost use Rattle.std.specs.Fmt.{signed_decimal};
ghost use Rattle.cg_value.specs.Print.{print_limit, print_hundredths, print_clamp, print_amount, print_device, print_device_name, print_range, print_set, print_param};
ghost use Rattle.cg_text.specs.Class.{class_text};
ghost use Rattle.cg_value.specs.ReadLine.{mode_text, role_text, words_line};
ghost use Rattle.cg_value.specs.WriteLine.{sign_of, toggles_line};

use crate::canonical::{Canonical, append_bytes, append_joined};
use cg_index::KeyedItems;
use cg_text::{
    Amount, Clamp, Device, Hundredths, IoClass, Items, Key, Limit, NumberSet, OutOfMemory,
    ParamValue,
};
use cg_value::{GroupMode, Role, Toggle};
use itoa::Buffer;

impl Canonical for u64 {
    ghost printed = { decimal };

    fn append_to(&self, out: &mut Vec<u8>) -> Result<(), OutOfMemory> {
        let mut digits = Buffer::new();
        append_bytes(out, digits.format(*self).as_bytes())
    }
}

impl Canonical for u32 {
    ghost printed = { decimal };

    fn append_to(&self, out: &mut Vec<u8>) -> Result<(), OutOfMemory> {
        let mut digits = Buffer::new();
        append_bytes(out, digits.format(*self).as_bytes())
    }
}

impl Canonical for i64 {
    ghost printed = { signed_decimal };

    fn append_to(&self, out: &mut Vec<u8>) -> Result<(), OutOfMemory> {
        let mut digits = Buffer::new();
        append_bytes(out, digits.format(*self).as_bytes())
    }
}

impl Canonical for Limit {
    ghost printed = { print_limit };

    fn append_to(&self, out: &mut Vec<u8>) -> Result<(), OutOfMemory> {
        match self {
            Limit::Max => append_bytes(out, b"max"),
            Limit::At(number) => number.append_to(out),
        }
    }
}

impl Canonical for Hundredths {
    ghost printed = { print_hundredths };

    fn append_to(&self, out: &mut Vec<u8>) -> Result<(), OutOfMemory> {
        let tens = b'0' + (self.count / 10 % 10) as u8;
        let ones = b'0' + (self.count % 10) as u8;
        (self.count / 100).append_to(out)?;
        append_bytes(out, &[b'.', tens, ones])
    }
}

impl Canonical for Clamp {
    ghost printed = { print_clamp };

    fn append_to(&self, out: &mut Vec<u8>) -> Result<(), OutOfMemory> {
        match self {
            Clamp::Max => append_bytes(out, b"max"),
            Clamp::At(percentage) => percentage.append_to(out),
        }
    }
}

impl Canonical for Amount {
    ghost printed = { print_amount };

    fn append_to(&self, out: &mut Vec<u8>) -> Result<(), OutOfMemory> {
        match self {
            Amount::Whole(number) => number.append_to(out),
            Amount::Decimal(hundredths) => hundredths.append_to(out),
            Amount::Max => append_bytes(out, b"max"),
            Amount::Below(number) => {
                append_bytes(out, b"-")?;
                number.append_to(out)
            }
        }
    }
}

impl Canonical for Device {
    ghost printed = { print_device };

    fn append_to(&self, out: &mut Vec<u8>) -> Result<(), OutOfMemory> {
        self.major.append_to(out)?;
        append_bytes(out, b":")?;
        self.minor.append_to(out)
    }
}

/// A device, or `(unknown)` for one that is gone.
impl Canonical for Option<Device> {
    ghost printed = { print_device_name };

    fn append_to(&self, out: &mut Vec<u8>) -> Result<(), OutOfMemory> {
        match self {
            Some(device) => device.append_to(out),
            None => append_bytes(out, b"(unknown)"),
        }
    }
}

/// A parameter, as `75000`, `95.00` or `user`.
impl Canonical for ParamValue {
    ghost printed = { print_param };

    fn append_to(&self, out: &mut Vec<u8>) -> Result<(), OutOfMemory> {
        match self {
            ParamValue::Whole(number) => number.append_to(out),
            ParamValue::Decimal(hundredths) => hundredths.append_to(out),
            ParamValue::Name(name) => name.append_to(out),
        }
    }
}

/// A range, as `3` or `3-5`.
impl Canonical for (u32, u32) {
    ghost printed = { print_range };

    fn append_to(&self, out: &mut Vec<u8>) -> Result<(), OutOfMemory> {
        let (first, last) = self;
        first.append_to(out)?;
        if first == last {
            return Ok(());
        }
        append_bytes(out, b"-")?;
        last.append_to(out)
    }
}

/// A set: its maximal ranges in order, with commas between them.
impl Canonical for NumberSet {
    ghost printed = { print_set };

    fn append_to(&self, out: &mut Vec<u8>) -> Result<(), OutOfMemory> {
        append_joined(out, b',', self.ranges())
    }
}

impl Canonical for Key {
    ghost printed = { λ key. key };

    fn append_to(&self, out: &mut Vec<u8>) -> Result<(), OutOfMemory> {
        append_bytes(out, self.bytes())
    }
}

/// Words, with spaces between them.
impl Canonical for KeyedItems<Key> {
    ghost printed = { words_line };

    fn append_to(&self, out: &mut Vec<u8>) -> Result<(), OutOfMemory> {
        append_joined(out, b' ', self.cells())
    }
}

/// The bytes of a line.
impl Canonical for Items<u8> {
    ghost printed = { λ bytes. bytes };

    fn append_to(&self, out: &mut Vec<u8>) -> Result<(), OutOfMemory> {
        append_bytes(out, self.as_slice())
    }
}

impl Canonical for GroupMode {
    ghost printed = { mode_text };

    fn append_to(&self, out: &mut Vec<u8>) -> Result<(), OutOfMemory> {
        match self {
            GroupMode::Domain => append_bytes(out, b"domain"),
            GroupMode::DomainThreaded => append_bytes(out, b"domain threaded"),
            GroupMode::DomainInvalid => append_bytes(out, b"domain invalid"),
            GroupMode::Threaded => append_bytes(out, b"threaded"),
        }
    }
}

impl Canonical for IoClass {
    ghost printed = { class_text };

    fn append_to(&self, out: &mut Vec<u8>) -> Result<(), OutOfMemory> {
        append_bytes(out, self.word().as_bytes())
    }
}

impl Canonical for Role {
    ghost printed = { role_text };

    fn append_to(&self, out: &mut Vec<u8>) -> Result<(), OutOfMemory> {
        match self {
            Role::Member => append_bytes(out, b"member"),
            Role::Root => append_bytes(out, b"root"),
            Role::Isolated => append_bytes(out, b"isolated"),
        }
    }
}

/// A toggle, as `+cpu`.
impl Canonical for Toggle {
    ghost printed = { λ toggle. sign_of toggle.on ∷ toggle.name };

    fn append_to(&self, out: &mut Vec<u8>) -> Result<(), OutOfMemory> {
        append_bytes(out, if self.on { b"+" } else { b"-" })?;
        self.name.append_to(out)
    }
}

/// Toggles, with spaces between them.
impl Canonical for Items<Toggle> {
    ghost printed = { toggles_line };

    #[tactic(auto, using(crate::specs::JoinedLaws::toggles_is))]
    fn append_to(&self, out: &mut Vec<u8>) -> Result<(), OutOfMemory> {
        append_joined(out, b' ', self.as_slice())
    }
}
