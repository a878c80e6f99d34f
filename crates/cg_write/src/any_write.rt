//! The text of a write of any kind (cgroup-v2.rst, "Interface Files").
ghost use Rattle.std.specs.Prelude.{◌≡◌, ◌+◌, take, true, IfSome};
ghost use Rattle.cg_text.specs.Token.{Spells};
ghost use Rattle.cg_value.specs.Kind.{IsWriteForm};
ghost use Rattle.cg_value.specs.Settings.{WriteText};

use crate::clamp::{ClampWrite, clamp_write};
use crate::class::{ClassWrite, class_write};
use crate::controllers::ControllersWrite;
use crate::cpu_max::CpuMaxWrite;
use crate::device_limits::DeviceLimitsWrite;
use crate::device_target::DeviceTargetWrite;
use crate::device_weight::DeviceWeightWrite;
use crate::limit::{LimitWrite, limit_write};
use crate::mode::{ModeWrite, mode_write};
use crate::number::{NumberWrite, number_write};
use crate::raw::RawWrite;
use crate::reclaim::ReclaimWrite;
use crate::role::RoleWrite;
use crate::set::SetWrite;
use crate::signed::{SignedWrite, signed_write};
use crate::size_limit::SizeLimitWrite;
use crate::trigger::TriggerWrite;
use cg_text::{Pushed, Token, push_count};
use cg_value::{Setting, WriteForm, WriteKind};
use std::alloc::Global;

/// The text of a write of any kind, a variant for each.
pub enum AnyWrite {
    /// A number.
    Number(NumberWrite),
    /// A signed number.
    Signed(SignedWrite),
    /// `max`, or a number.
    Limit(LimitWrite),
    /// `max`, or a size in bytes.
    SizeLimit(SizeLimitWrite),
    /// A utilization clamp.
    Clamp(ClampWrite),
    /// The word `threaded`.
    Mode(ModeWrite),
    /// Controllers, each with `+` or `-` before it.
    Controllers(ControllersWrite),
    /// A quota, and perhaps a period.
    CpuMax(CpuMaxWrite),
    /// A size, and perhaps a swappiness.
    Reclaim(ReclaimWrite),
    /// A device and some of its limits.
    DeviceLimits(DeviceLimitsWrite),
    /// A default weight, or a device and its weight.
    DeviceWeight(DeviceWeightWrite),
    /// A device and its target latency.
    DeviceTarget(DeviceTargetWrite),
    /// A set of numbers.
    Set(SetWrite),
    /// The role of a partition.
    Role(RoleWrite),
    /// A class of requests.
    Class(ClassWrite),
    /// A pressure trigger.
    Trigger(TriggerWrite),
    /// A line of any bytes but NUL.
    Raw(RawWrite),
}

/// The call with the token of the kind.
macro_rules! with_text {
    ($self:expr, $text:ident => $call:expr) => {
        match $self {
            AnyWrite::Number($text) => $call,
            AnyWrite::Signed($text) => $call,
            AnyWrite::Limit($text) => $call,
            AnyWrite::SizeLimit($text) => $call,
            AnyWrite::Clamp($text) => $call,
            AnyWrite::Mode($text) => $call,
            AnyWrite::Controllers($text) => $call,
            AnyWrite::CpuMax($text) => $call,
            AnyWrite::Reclaim($text) => $call,
            AnyWrite::DeviceLimits($text) => $call,
            AnyWrite::DeviceWeight($text) => $call,
            AnyWrite::DeviceTarget($text) => $call,
            AnyWrite::Set($text) => $call,
            AnyWrite::Role($text) => $call,
            AnyWrite::Class($text) => $call,
            AnyWrite::Trigger($text) => $call,
            AnyWrite::Raw($text) => $call,
        }
    };
}

/// Drops the token of the kind. By hand, as a derived `drop` is proved anew in each crate above, with all that is below
/// it, and a written one here alone.
impl Drop for AnyWrite {
    fn drop(self) {
        with_text!(self, _text => {})
    }
}

/// The text of a write of one of the kinds.
fn text_of(alloc: Global, form: WriteForm) -> AnyWrite
    requires { IsWriteForm form }
    ensures spells { Spells ⟦<AnyWrite as Token>⟧.means result (λ text s. WriteText form s text) }
    ensures size { ⟦<AnyWrite as Token>⟧.size result ≡ 0 }
{
    match form {
        WriteForm::Number { lo, hi } => AnyWrite::Number(number_write(lo, hi)),
        WriteForm::Signed { lo, hi } => AnyWrite::Signed(signed_write(lo, hi)),
        WriteForm::Limit { lo, hi } => AnyWrite::Limit(limit_write(lo, hi)),
        WriteForm::SizeLimit => AnyWrite::SizeLimit(SizeLimitWrite::new()),
        WriteForm::Clamp => AnyWrite::Clamp(clamp_write()),
        WriteForm::Mode => AnyWrite::Mode(mode_write()),
        WriteForm::Controllers => AnyWrite::Controllers(ControllersWrite::new(alloc)),
        WriteForm::CpuMax => AnyWrite::CpuMax(CpuMaxWrite::new()),
        WriteForm::Reclaim { max } => AnyWrite::Reclaim(ReclaimWrite::new(max)),
        WriteForm::DeviceLimits => AnyWrite::DeviceLimits(DeviceLimitsWrite::new()),
        WriteForm::DeviceWeight { most } => AnyWrite::DeviceWeight(DeviceWeightWrite::new(most)),
        WriteForm::DeviceTarget => AnyWrite::DeviceTarget(DeviceTargetWrite::new()),
        WriteForm::Set { most } => AnyWrite::Set(SetWrite::new(alloc, most)),
        WriteForm::Role => AnyWrite::Role(RoleWrite::new()),
        WriteForm::Class => AnyWrite::Class(class_write()),
        WriteForm::Trigger => AnyWrite::Trigger(TriggerWrite::new()),
        WriteForm::Raw => AnyWrite::Raw(RawWrite::new(alloc)),
    }
}

/// The value of the token whose whole text the bytes are; none where they aren't one, or where memory is refused.
fn value_of<T: Token>(token: T, text: &[u8]) -> Option<T::Out>
    ensures { IfSome result (λ v. T.means token text.now v) }
{
    match token.whole(text) {
        Some((value, used)) if used == text.len() => return Some(value),
        _ => {}
    }
    let mut token = token;
    if push_count(&mut token, text) == text.len() && token.can_end() {
        Some(token.take())
    } else {
        None
    }
}

/// The setting of a write of one of the kinds whose whole text the bytes are, as far as it's found.
fn setting_of(alloc: Global, form: WriteForm, text: &[u8]) -> Option<Setting>
    requires { IsWriteForm form }
    ensures { IfSome result (λ s. WriteText form s text.now) }
{
    match form {
        WriteForm::Number { lo, hi } => value_of(number_write(lo, hi), text),
        WriteForm::Signed { lo, hi } => value_of(signed_write(lo, hi), text),
        WriteForm::Limit { lo, hi } => value_of(limit_write(lo, hi), text),
        WriteForm::SizeLimit => value_of(SizeLimitWrite::new(), text),
        WriteForm::Clamp => value_of(clamp_write(), text),
        WriteForm::Mode => value_of(mode_write(), text),
        WriteForm::Controllers => value_of(ControllersWrite::new(alloc), text),
        WriteForm::CpuMax => value_of(CpuMaxWrite::new(), text),
        WriteForm::Reclaim { max } => value_of(ReclaimWrite::new(max), text),
        WriteForm::DeviceLimits => value_of(DeviceLimitsWrite::new(), text),
        WriteForm::DeviceWeight { most } => value_of(DeviceWeightWrite::new(most), text),
        WriteForm::DeviceTarget => value_of(DeviceTargetWrite::new(), text),
        WriteForm::Set { most } => value_of(SetWrite::new(alloc, most), text),
        WriteForm::Role => value_of(RoleWrite::new(), text),
        WriteForm::Class => value_of(class_write(), text),
        WriteForm::Trigger => value_of(TriggerWrite::new(), text),
        WriteForm::Raw => value_of(RawWrite::new(alloc), text),
    }
}

impl AnyWrite {
    /// The text of a write of this kind, of which nothing was taken. It takes no memory.
    pub fn new(alloc: Global, kind: WriteKind) -> AnyWrite
        ensures spells { Spells ⟦<AnyWrite as Token>⟧.means result (λ text s. WriteText kind s text) }
        ensures size { ⟦<AnyWrite as Token>⟧.size result ≡ 0 }
        ensures form { IsWriteForm kind }
    {
        text_of(alloc, kind.form())
    }

    /// The setting of a write of this kind whose whole text the bytes are, its newline among them. None where they are
    /// no such text, or where memory is refused.
    pub fn read(alloc: Global, kind: WriteKind, text: &[u8]) -> Option<Setting>
        ensures { IfSome result (λ s. WriteText kind s text.now) }
    {
        setting_of(alloc, kind.form(), text)
    }
}

impl Token for AnyWrite {
    type Out = Setting;

    ghost use Rattle.cg_text.specs.WordLaws.{true_not_false};
    ghost use Rattle.cg_write.specs.AnyWrite.{write_ends, write_rests, write_size};
    ghost use Rattle.cg_write.specs.AnyWriteLaws.{write_completes, write_ends_is, write_holds_bytes, write_one_value};

    ghost means = { write_rests };

    ghost size = { write_size };

    ghost value_size = { λ _. 0 };

    ghost ends = { write_ends };

    ghost grows = { true };

    ghost completes = { write_completes };

    ghost no_size = { λ e s. absurd (true_not_false e) };

    ghost ends_is = { write_ends_is };

    ghost one_value = { write_one_value };

    ghost holds_bytes = { write_holds_bytes };

    fn push(&mut self, bytes: &[u8]) -> Pushed {
        with_text!(self, text => text.push(bytes))
    }

    fn allows(&self, byte: u8) -> bool {
        with_text!(self, text => text.allows(byte))
    }

    fn can_end(&self) -> bool {
        with_text!(self, text => text.can_end())
    }

    fn held(&self) -> u64 {
        with_text!(self, text => text.held())
    }

    fn take(self) -> Setting {
        with_text!(self, text => text.take())
    }

    fn held_in(_value: &Setting) -> u64 {
        0
    }
}
