//! The settings of files: what one write holds.

use crate::value::Role;
use cg_text::{Clamp, Device, IoClass, Items, Key, Limit, NumberSet};

/// What one write of a file holds.
#[derive(Debug, Drop, PartialEq)]
pub enum Setting {
    /// One number.
    Number(u64),
    /// One number that may be below 0.
    Signed(i64),
    /// One limit. A size counts bytes.
    Limit(Limit),
    /// A utilization clamp.
    Clamp(Clamp),
    /// The group becomes threaded.
    Threaded,
    /// The class of the priorities of the group's requests.
    Class(IoClass),
    /// Controllers that are enabled and disabled for the groups below, in order; the last toggle of a name is
    /// effective.
    Controllers(Items<Toggle>),
    /// How much processor time a group may use in each period, in microseconds. Without a period the present one stays.
    CpuMax {
        quota: Limit,
        period: Option<u64>,
    },
    /// How many bytes are to be reclaimed, and how eagerly anonymous memory is swapped for it; `max` reclaims that
    /// memory alone.
    Reclaim {
        size: u64,
        swappiness: Option<Limit>,
    },
    /// Some of a device's limits, in bytes and operations a second. Those that aren't given stay.
    DeviceLimits {
        device: Device,
        rbps: Option<Limit>,
        wbps: Option<Limit>,
        riops: Option<Limit>,
        wiops: Option<Limit>,
    },
    /// The weight of each device that has none of its own.
    DefaultWeight(u64),
    /// A device's weight. None stands for the default one.
    DeviceWeight {
        device: Device,
        weight: Option<u64>,
    },
    /// A device's target latency, in microseconds.
    DeviceTarget {
        device: Device,
        target: u64,
    },
    /// A set of numbers, as of processors or of memory nodes.
    Set(NumberSet),
    /// The role of a cpuset partition.
    Role(Role),
    /// A pressure trigger: whether all tasks count or some, and a stall within a window, in microseconds.
    Trigger {
        full: bool,
        stall: u64,
        window: u64,
    },
    /// A line of bytes.
    Raw(Items<u8>),
}

/// Whether a controller is enabled or disabled for the groups below.
#[derive(Debug, Drop, PartialEq)]
pub struct Toggle {
    pub on: bool,
    pub name: Key,
}
