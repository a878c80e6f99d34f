//! The text of a file of any kind.
ghost use Rattle.std.specs.Prelude.{◌≡◌, ◌<◌, true, take};
ghost use Rattle.cg_text.specs.Token.{Spells};
ghost use Rattle.cg_value.specs.Kind.{IsReadForm};
ghost use Rattle.cg_file.specs.Kinds.{TextsOf};

use crate::clamp::{ClampFile, clamp_file};
use crate::class::{ClassFile, class_file};
use crate::cpu_max::CpuMaxFile;
use crate::device_limits::DeviceLimitsFile;
use crate::device_params::DeviceParamsFile;
use crate::device_stats::DeviceStatsFile;
use crate::device_targets::DeviceTargetsFile;
use crate::device_weights::DeviceWeightsFile;
use crate::flat::FlatFile;
use crate::flat_limits::FlatLimitsFile;
use crate::limit::{LimitFile, limit_file};
use crate::mode::{ModeFile, mode_file};
use crate::nested::NestedFile;
use crate::node_stats::NodeStatsFile;
use crate::number::{NumberFile, number_file};
use crate::numbers::NumbersFile;
use crate::partition::PartitionFile;
use crate::pressure::PressureFile;
use crate::raw::RawFile;
use crate::set::SetFile;
use crate::signed::{SignedFile, signed_file};
use crate::words::WordsFile;
use cg_text::{Pushed, Token};
use cg_value::{ReadForm, ReadKind, Value};
use std::alloc::Global;

/// The text of a file of any kind, a variant for each.
pub enum AnyFile {
    Number(NumberFile),
    Signed(SignedFile),
    Limit(LimitFile),
    Mode(ModeFile),
    Class(ClassFile),
    CpuMax(CpuMaxFile),
    Clamp(ClampFile),
    Numbers(NumbersFile),
    Words(WordsFile),
    Flat(FlatFile),
    FlatLimits(FlatLimitsFile),
    DeviceStats(DeviceStatsFile),
    DeviceLimits(DeviceLimitsFile),
    DeviceWeights(DeviceWeightsFile),
    DeviceTargets(DeviceTargetsFile),
    DeviceParams(DeviceParamsFile),
    Set(SetFile),
    Partition(PartitionFile),
    Pressure(PressureFile),
    Nested(NestedFile),
    NodeStats(NodeStatsFile),
    Raw(RawFile),
}

/// The call with the token of the kind.
macro_rules! with_text {
    ($self:expr, $text:ident => $call:expr) => {
        match $self {
            AnyFile::Number($text) => $call,
            AnyFile::Signed($text) => $call,
            AnyFile::Limit($text) => $call,
            AnyFile::Mode($text) => $call,
            AnyFile::Class($text) => $call,
            AnyFile::CpuMax($text) => $call,
            AnyFile::Clamp($text) => $call,
            AnyFile::Numbers($text) => $call,
            AnyFile::Words($text) => $call,
            AnyFile::Flat($text) => $call,
            AnyFile::FlatLimits($text) => $call,
            AnyFile::DeviceStats($text) => $call,
            AnyFile::DeviceLimits($text) => $call,
            AnyFile::DeviceWeights($text) => $call,
            AnyFile::DeviceTargets($text) => $call,
            AnyFile::DeviceParams($text) => $call,
            AnyFile::Set($text) => $call,
            AnyFile::Partition($text) => $call,
            AnyFile::Pressure($text) => $call,
            AnyFile::Nested($text) => $call,
            AnyFile::NodeStats($text) => $call,
            AnyFile::Raw($text) => $call,
        }
    };
}

/// Drops the token of the kind. By hand, as a derived `drop` is proved anew in each crate above, with all that is below
/// it, and a written one here alone.
impl Drop for AnyFile {
    fn drop(self) {
        with_text!(self, _text => {})
    }
}

/// The text of a file of one of the kinds.
fn text_of(alloc: Global, form: ReadForm) -> AnyFile
    requires { IsReadForm form }
    ensures spells { Spells ⟦<AnyFile as Token>⟧.means result (TextsOf form) }
    ensures size { ⟦<AnyFile as Token>⟧.size result ≡ 0 }
{
    match form {
        ReadForm::Number { lo, hi } => AnyFile::Number(number_file(lo, hi)),
        ReadForm::Signed { lo, hi } => AnyFile::Signed(signed_file(lo, hi)),
        ReadForm::Limit => AnyFile::Limit(limit_file()),
        ReadForm::Mode => AnyFile::Mode(mode_file()),
        ReadForm::Class => AnyFile::Class(class_file()),
        ReadForm::CpuMax => AnyFile::CpuMax(CpuMaxFile::new()),
        ReadForm::Clamp => AnyFile::Clamp(clamp_file()),
        ReadForm::Numbers { lo, hi } => AnyFile::Numbers(NumbersFile::new(alloc, lo, hi)),
        ReadForm::Words => AnyFile::Words(WordsFile::new(alloc)),
        ReadForm::Flat => AnyFile::Flat(FlatFile::new(alloc)),
        ReadForm::FlatLimits => AnyFile::FlatLimits(FlatLimitsFile::new(alloc)),
        ReadForm::DeviceStats { kernel } => {
            AnyFile::DeviceStats(DeviceStatsFile::new(alloc, kernel))
        }
        ReadForm::DeviceLimits { kernel } => {
            AnyFile::DeviceLimits(DeviceLimitsFile::new(alloc, kernel))
        }
        ReadForm::DeviceWeights { most, kernel } => {
            AnyFile::DeviceWeights(DeviceWeightsFile::new(alloc, most, kernel))
        }
        ReadForm::DeviceTargets { kernel } => {
            AnyFile::DeviceTargets(DeviceTargetsFile::new(alloc, kernel))
        }
        ReadForm::DeviceParams => AnyFile::DeviceParams(DeviceParamsFile::new(alloc)),
        ReadForm::Set { most } => AnyFile::Set(SetFile::new(alloc, most)),
        ReadForm::Partition => AnyFile::Partition(PartitionFile::new(alloc)),
        ReadForm::Pressure => AnyFile::Pressure(PressureFile::new()),
        ReadForm::Nested => AnyFile::Nested(NestedFile::new(alloc)),
        ReadForm::NodeStats => AnyFile::NodeStats(NodeStatsFile::new(alloc)),
        ReadForm::Raw => AnyFile::Raw(RawFile::new(alloc)),
    }
}

impl AnyFile {
    /// The text of a file of this kind, of which nothing was taken. It takes no memory.
    #[inline(always)]
    pub fn new(alloc: Global, kind: ReadKind) -> AnyFile
        ensures spells { Spells ⟦<AnyFile as Token>⟧.means result (TextsOf kind) }
        ensures size { ⟦<AnyFile as Token>⟧.size result ≡ 0 }
        ensures form { IsReadForm kind }
    {
        text_of(alloc, kind.form())
    }
}

impl Token for AnyFile {
    type Out = Value;

    ghost use Rattle.cg_text.specs.WordLaws.{true_not_false};
    ghost use Rattle.cg_file.specs.AnyFile.{file_ends, file_rests, file_size};
    ghost use Rattle.cg_file.specs.AnyFileLaws.{file_completes, file_ends_is, file_holds_bytes, file_one_value};

    ghost means = { file_rests };

    ghost size = { file_size };

    ghost value_size = { λ _. 0 };

    ghost ends = { file_ends };

    ghost grows = { true };

    ghost completes = { file_completes };

    ghost no_size = { λ e s. absurd (true_not_false e) };

    ghost ends_is = { file_ends_is };

    ghost one_value = { file_one_value };

    ghost holds_bytes = { file_holds_bytes };

    fn push(&mut self, bytes: &[u8]) -> Pushed {
        with_text!(self, text => text.push(bytes))
    }

    fn allows(&self, byte: u8) -> bool {
        with_text!(self, text => text.allows(byte))
    }

    fn can_end(&self) -> bool {
        with_text!(self, text => text.can_end())
    }

    fn held(&self) -> u64 {
        with_text!(self, text => text.held())
    }

    fn take(self) -> Value {
        with_text!(self, text => text.take())
    }

    fn held_in(_value: &Value) -> u64 {
        0
    }
}
