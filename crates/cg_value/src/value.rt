//! The values of files.

use crate::flat::Flat;
use crate::raw_lines::RawLines;
use cg_index::{HasKey, KeyedItems};
use cg_text::{
    Amount, Clamp, Device, Hundredths, IoClass, Items, Key, Limit, NumberSet, ParamValue,
};

/// What a file holds.
#[derive(Debug, Drop, PartialEq)]
pub enum Value {
    /// One number.
    Number(u64),
    /// One number that may be below 0.
    Signed(i64),
    /// One limit.
    Limit(Limit),
    /// The mode of a group.
    Mode(GroupMode),
    /// The class of the priorities of a group's requests.
    Class(IoClass),
    /// How much processor time a group may use in each period, in microseconds.
    CpuMax {
        quota: Limit,
        period: u64,
    },
    /// A utilization clamp.
    Clamp(Clamp),
    /// Numbers in order, with their repeats.
    Numbers(Items<u64>),
    /// Names of controllers, all different.
    Words(KeyedItems<Key>),
    /// Pairs of a key and a number, the keys all different.
    Flat(Flat),
    /// Pairs of a key and a limit, the keys all different.
    FlatLimits(KeyedItems<FlatLimit>),
    /// What devices did, a line for each.
    DeviceStats(Items<StatLine>),
    /// The limits of devices.
    DeviceLimits(Items<LimitLine>),
    /// The weight of each device that has none of its own, and the weights of those that have.
    DeviceWeights {
        default: u64,
        lines: Items<WeightLine>,
    },
    /// The target latencies of devices.
    DeviceTargets(Items<TargetLine>),
    /// The parameters of devices, a line for each.
    DeviceParams(Items<ParamLine>),
    /// A set of numbers, as of processors or of memory nodes.
    Set(NumberSet),
    /// A cpuset partition: its role, whether it is valid, and why it is not.
    Partition {
        role: Role,
        valid: bool,
        reason: Option<Items<u8>>,
    },
    /// Pressure: what some tasks and what all tasks lose. At least one is there.
    Pressure {
        some: Option<Averages>,
        full: Option<Averages>,
    },
    /// Lines of a key with pairs of a sub-key and a number, the keys all different.
    Nested(KeyedItems<NestedLine>),
    /// How many bytes of huge pages are charged to the group, and on each memory node, the words of the nodes all
    /// different.
    NodeStats {
        total: u64,
        nodes: KeyedItems<NestedPair>,
    },
    /// Lines of bytes.
    Raw(RawLines),
}

/// The mode of a group (cgroup-v2.rst, cgroup.type).
#[derive(Clone, Copy, Debug, PartialEq, Eq)]
pub enum GroupMode {
    /// `domain`.
    Domain,
    /// `domain threaded`: the root of a threaded subtree.
    DomainThreaded,
    /// `domain invalid`.
    DomainInvalid,
    /// `threaded`.
    Threaded,
}

/// The role of a cpuset partition (cgroup-v2.rst, cpuset.cpus.partition).
#[derive(Clone, Copy, Debug, PartialEq, Eq)]
pub enum Role {
    Member,
    Root,
    Isolated,
}

/// A key with its limit, which is a line of a flat keyed file of limits (cgroup-v2.rst, misc.max and dmem.max).
#[derive(Debug, Drop, PartialEq)]
pub struct FlatLimit {
    pub key: Key,
    pub limit: Limit,
}

impl HasKey for FlatLimit {
    ghost key_of = { λ pair. pair.key };

    fn key(&self) -> &Key {
        &self.key
    }
}

/// A sub-key of a device with its amount.
#[derive(Debug, Drop, PartialEq)]
pub struct StatPair {
    pub key: Key,
    pub amount: Amount,
}

impl HasKey for StatPair {
    ghost key_of = { λ pair. pair.key };

    fn key(&self) -> &Key {
        &self.key
    }
}

/// What a device did (cgroup-v2.rst, io.stat). Where `pad` is true, a space of its own follows the device.
#[derive(Debug, Drop, PartialEq)]
pub struct StatLine {
    /// None for one that is gone, which only the kernel profile has.
    pub device: Option<Device>,
    pub pad: bool,
    pub pairs: KeyedItems<StatPair>,
}

/// The limits of a device, in bytes and operations a second (cgroup-v2.rst, io.max).
#[derive(Clone, Copy, Debug, Drop, PartialEq, Eq)]
pub struct LimitLine {
    /// None for one that is gone, which only the kernel profile has.
    pub device: Option<Device>,
    pub rbps: Limit,
    pub wbps: Limit,
    pub riops: Limit,
    pub wiops: Limit,
}

/// The weight of a device (cgroup-v2.rst, io.weight).
#[derive(Clone, Copy, Debug, Drop, PartialEq, Eq)]
pub struct WeightLine {
    /// None for one that is gone, which only the kernel profile has.
    pub device: Option<Device>,
    pub weight: u64,
}

/// The target latency of a device, in microseconds (cgroup-v2.rst, io.latency).
#[derive(Clone, Copy, Debug, Drop, PartialEq, Eq)]
pub struct TargetLine {
    /// None for one that is gone, which only the kernel profile has.
    pub device: Option<Device>,
    pub target: u64,
}

/// A word with its parameter.
#[derive(Debug, Drop, PartialEq)]
pub struct ParamPair {
    pub key: Key,
    pub value: ParamValue,
}

impl HasKey for ParamPair {
    ghost key_of = { λ pair. pair.key };

    fn key(&self) -> &Key {
        &self.key
    }
}

/// The parameters of a device, at least one (cgroup-v2.rst, io.cost.qos and io.cost.model). A device that is gone is
/// none.
#[derive(Debug, Drop, PartialEq)]
pub struct ParamLine {
    pub device: Option<Device>,
    pub params: KeyedItems<ParamPair>,
}

/// The shares of time lost over 10, 60 and 300 seconds, as percentages, and the total in microseconds (psi.rst).
#[derive(Clone, Copy, Debug, Drop, PartialEq, Eq)]
pub struct Averages {
    pub avg10: Hundredths,
    pub avg60: Hundredths,
    pub avg300: Hundredths,
    pub total: u64,
}

/// A sub-key with its number.
#[derive(Debug, Drop, PartialEq)]
pub struct NestedPair {
    pub key: Key,
    pub number: u64,
}

impl HasKey for NestedPair {
    ghost key_of = { λ pair. pair.key };

    fn key(&self) -> &Key {
        &self.key
    }
}

/// A key with its pairs, the sub-keys all different (cgroup-v2.rst, memory.numa_stat).
#[derive(Debug, Drop, PartialEq)]
pub struct NestedLine {
    pub key: Key,
    pub pairs: KeyedItems<NestedPair>,
}

impl HasKey for NestedLine {
    ghost key_of = { λ line. line.key };

    fn key(&self) -> &Key {
        &self.key
    }
}
