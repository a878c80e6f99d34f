//! The values that tokens spell.
ghost use Rattle.std.specs.Prelude.{◌≡◌};
ghost use Rattle.cg_text.specs.Class.{class_text};

use crate::key::Key;

/// A limit: none, which is written `max`, or a number.
#[derive(Clone, Copy, Debug, PartialEq, Eq)]
pub enum Limit {
    Max,
    At(u64),
}

/// A number of hundredths: `12.34` is 1234.
#[derive(Clone, Copy, Debug, PartialEq, Eq)]
pub struct Hundredths {
    pub count: u64,
}

/// A utilization clamp: none, which is written `max`, or a percentage.
#[derive(Clone, Copy, Debug, PartialEq, Eq)]
pub enum Clamp {
    Max,
    At(Hundredths),
}

/// An amount of `io.stat`: a whole number, one with two decimals, `max`, or a number below 0, by how much it is below.
/// `100` and `100.00` are two values.
#[derive(Clone, Copy, Debug, PartialEq, Eq)]
pub enum Amount {
    Whole(u64),
    Decimal(Hundredths),
    Max,
    Below(u64),
}

/// A parameter of a device: a whole number, one with two decimals, or a name.
#[derive(Debug, Drop, PartialEq)]
pub enum ParamValue {
    Whole(u64),
    Decimal(Hundredths),
    Name(Key),
}

/// A block device, by its major and minor number.
#[derive(Clone, Copy, Debug, PartialEq, Eq)]
pub struct Device {
    pub major: u32,
    pub minor: u32,
}

/// What becomes of the priorities of a group's requests (cgroup-v2.rst, "IO Priority").
#[derive(Clone, Copy, Debug, PartialEq, Eq)]
pub enum IoClass {
    /// `no-change`: they stay.
    NoChange,
    /// `promote-to-rt`: those of another class than real time get that class.
    PromoteToRt,
    /// `restrict-to-be`: those of no class, or of real time, get the class of best effort.
    RestrictToBe,
    /// `idle`: they get the lowest class.
    Idle,
    /// `none-to-rt`: the old word for `promote-to-rt`.
    NoneToRt,
}

impl IoClass {
    /// Its word.
    pub fn word(self) -> &'static str
        ensures { result.now ≡ class_text self }
    {
        match self {
            IoClass::NoChange => "no-change",
            IoClass::PromoteToRt => "promote-to-rt",
            IoClass::RestrictToBe => "restrict-to-be",
            IoClass::Idle => "idle",
            IoClass::NoneToRt => "none-to-rt",
        }
    }
}
