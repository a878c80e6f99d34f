//! The kinds of files.
ghost use Rattle.std.specs.Prelude.{◌≡◌};
ghost use Rattle.cg_value.specs.Kind.{IsReadForm, IsWriteForm, read_word, write_word};

use std::marker::Model;

/// What a file holds when it is read, with its bounds (cgroup-v2.rst, "Interface Files").
#[derive(Clone, Copy, Debug, PartialEq, Eq)]
pub enum ReadForm {
    /// One decimal number from `lo` to `hi`.
    Number { lo: u64, hi: u64 },
    /// One signed decimal number from `lo` to `hi`.
    Signed { lo: i64, hi: i64 },
    /// One limit: `max` or a decimal number.
    Limit,
    /// The mode of a group.
    Mode,
    /// The class of the priorities of a group's requests.
    Class,
    /// A quota and a period of processor time, in microseconds.
    CpuMax,
    /// A utilization clamp: `max` or a percentage.
    Clamp,
    /// Any number of decimal numbers from `lo` to `hi`, one a line.
    Numbers { lo: u64, hi: u64 },
    /// Names of controllers on one line.
    Words,
    /// Flat keyed: a key and a number a line.
    Flat,
    /// Flat keyed: a key and a limit a line.
    FlatLimits,
    /// A device a line, with pairs of a sub-key and an amount. Where `kernel`, a device may be gone, and an amount be
    /// below 0.
    DeviceStats { kernel: bool },
    /// A device a line, with its four limits. Where `kernel`, a device may be gone.
    DeviceLimits { kernel: bool },
    /// A default weight, and then a device a line with its weight, each from 1 to `most`. Where `kernel`, a device
    /// may be gone.
    DeviceWeights { most: u64, kernel: bool },
    /// A device a line, with its target latency in microseconds. Where `kernel`, a device may be gone.
    DeviceTargets { kernel: bool },
    /// A device a line, which may be gone, with one or more pairs of a word and a parameter.
    DeviceParams,
    /// A set of numbers of at most `most`, as a list of ranges.
    Set { most: u32 },
    /// The role of a cpuset partition, and whether it is valid.
    Partition,
    /// Pressure stall information: averages of `some`, of `full`, or of both.
    Pressure,
    /// Nested keyed: a key a line, with pairs of a sub-key and a number.
    Nested,
    /// A total, and pairs of a word and a number.
    NodeStats,
    /// Lines of any bytes but NUL.
    Raw,
}

/// What one write of a file holds, with its bounds (cgroup-v2.rst, "Interface Files").
#[derive(Clone, Copy, Debug, PartialEq, Eq)]
pub enum WriteForm {
    /// A decimal number from `lo` to `hi`.
    Number { lo: u64, hi: u64 },
    /// A signed decimal number from `lo` to `hi`.
    Signed { lo: i64, hi: i64 },
    /// `max`, or a decimal number from `lo` to `hi`.
    Limit { lo: u64, hi: u64 },
    /// `max`, or a size in bytes, which may have a suffix.
    SizeLimit,
    /// A utilization clamp: `max` or a percentage.
    Clamp,
    /// The word `threaded`.
    Mode,
    /// The class of the priorities of a group's requests.
    Class,
    /// Names of controllers, each with `+` or `-` before it.
    Controllers,
    /// A quota, which a period may follow, in microseconds.
    CpuMax,
    /// A size in bytes, which a swappiness may follow: a number, or, where `max`, also `max`.
    Reclaim { max: bool },
    /// A device, with some of its four limits.
    DeviceLimits,
    /// A default weight, or a device with its weight or with `default`; a weight is from 1 to `most`.
    DeviceWeight { most: u64 },
    /// A device with its target latency in microseconds.
    DeviceTarget,
    /// A set of numbers of at most `most`, as a list of ranges in any order.
    Set { most: u32 },
    /// The role of a cpuset partition.
    Role,
    /// A pressure trigger: `some` or `full`, a stall and a window, in microseconds.
    Trigger,
    /// A line of any bytes but NUL.
    Raw,
}

/// The kind of a file that can be read. It is made by `read_kind` alone.
#[derive(Clone, Copy, Debug, PartialEq, Eq)]
pub struct ReadKind {
    form: ReadForm,
}

impl Model for ReadKind {
    ghost use Rattle.cg_value.specs.declared.kind.ReadForm.{ReadForm};

    ghost Value = { ReadForm };

    ghost use Rattle.cg_value.specs.Kind.{IsReadForm};

    ghost view = { λ k. k.form };

    ghost invariant = { λ k. IsReadForm k.form };

    ghost inverse = { λ form. record { form = form } };
}

impl ReadKind {
    /// The kind of this form.
    pub(crate) fn of(form: ReadForm) -> ReadKind
        requires { IsReadForm form }
        ensures { result ≡ form }
    {
        ReadKind { form }
    }

    /// The row of the kind: its variant, with its bounds. It takes no memory.
    pub fn form(self) -> ReadForm
        ensures form { result ≡ self }
        ensures bounds { IsReadForm self }
    {
        let ReadKind { form } = self;
        form
    }

    /// The word of the kind, as the list of kinds and the JSON lines show it. It takes no memory.
    pub fn name(self) -> &'static str
        ensures { result.now ≡ read_word self }
    {
        match self.form {
            ReadForm::Number { .. } => "number",
            ReadForm::Signed { .. } => "signed",
            ReadForm::Limit => "limit",
            ReadForm::Mode => "mode",
            ReadForm::Class => "class",
            ReadForm::CpuMax => "cpu_max",
            ReadForm::Clamp => "clamp",
            ReadForm::Numbers { .. } => "numbers",
            ReadForm::Words => "words",
            ReadForm::Flat => "flat",
            ReadForm::FlatLimits => "flat_limits",
            ReadForm::DeviceStats { .. } => "device_stats",
            ReadForm::DeviceLimits { .. } => "device_limits",
            ReadForm::DeviceWeights { .. } => "device_weights",
            ReadForm::DeviceTargets { .. } => "device_targets",
            ReadForm::DeviceParams => "device_params",
            ReadForm::Set { .. } => "set",
            ReadForm::Partition => "partition",
            ReadForm::Pressure => "pressure",
            ReadForm::Nested => "nested",
            ReadForm::NodeStats => "node_stats",
            ReadForm::Raw => "raw",
        }
    }
}

/// The kind of a file that can be written. It is made by `write_kind` alone.
#[derive(Clone, Copy, Debug, PartialEq, Eq)]
pub struct WriteKind {
    form: WriteForm,
}

impl Model for WriteKind {
    ghost use Rattle.cg_value.specs.declared.kind.WriteForm.{WriteForm};

    ghost Value = { WriteForm };

    ghost use Rattle.cg_value.specs.Kind.{IsWriteForm};

    ghost view = { λ k. k.form };

    ghost invariant = { λ k. IsWriteForm k.form };

    ghost inverse = { λ form. record { form = form } };
}

impl WriteKind {
    /// The kind of this form.
    pub(crate) fn of(form: WriteForm) -> WriteKind
        requires { IsWriteForm form }
        ensures { result ≡ form }
    {
        WriteKind { form }
    }

    /// The row of the kind: its variant, with its bounds. It takes no memory.
    pub fn form(self) -> WriteForm
        ensures form { result ≡ self }
        ensures bounds { IsWriteForm self }
    {
        let WriteKind { form } = self;
        form
    }

    /// The word of the kind, as the list of kinds shows it. It takes no memory.
    pub fn name(self) -> &'static str
        ensures { result.now ≡ write_word self }
    {
        match self.form {
            WriteForm::Number { .. } => "number",
            WriteForm::Signed { .. } => "signed",
            WriteForm::Limit { .. } => "limit",
            WriteForm::SizeLimit => "size_limit",
            WriteForm::Clamp => "clamp",
            WriteForm::Mode => "mode",
            WriteForm::Class => "class",
            WriteForm::Controllers => "controllers",
            WriteForm::CpuMax => "cpu_max",
            WriteForm::Reclaim { .. } => "reclaim",
            WriteForm::DeviceLimits => "device_limits",
            WriteForm::DeviceWeight { .. } => "device_weight",
            WriteForm::DeviceTarget => "device_target",
            WriteForm::Set { .. } => "set",
            WriteForm::Role => "role",
            WriteForm::Trigger => "trigger",
            WriteForm::Raw => "raw",
        }
    }
}
