//! The file table.
ghost use Rattle.std.specs.Prelude.{◌≡◌, ◌<◌, ◌≤◌, ◌++◌, Some, None, true, IfOk, IfSome, OnErr, MatchOption, codes, length, option_map};
ghost use Rattle.cg_value.specs.Kind.{IsReadForm, IsWriteForm};
ghost use Rattle.cg_value.specs.RowName.{row_name};
ghost use Rattle.cg_value.specs.Table.{has_row, read_form_of, rows, write_form_of};
ghost use Rattle.cg_value.specs.TableRows.{forms_of, found_by, found_in, longest, read_before, read_in, row_at, row_told, rows_in, stand_once, write_in, IsTable};

use crate::kind::{ReadForm, ReadKind, WriteForm, WriteKind};
use crate::profile::Profile;
use crate::row_name::{behind_size, is_sized};
use thiserror::Error;

/// A file of this name can't be read.
#[derive(Clone, Copy, Debug, PartialEq, Eq, Error)]
#[error("not readable")]
pub struct NotReadable;

/// A file of this name can't be written.
#[derive(Clone, Copy, Debug, PartialEq, Eq, Error)]
#[error("not writable")]
pub struct NotWritable;

/// A row of the file table, as the kernel profile has it.
struct Row {
    name: &'static [u8],
    reads: Option<ReadForm>,
    writes: Option<WriteForm>,
}

impl Row {
    /// What it says.
    fn forms(&self) -> Forms
        ensures { result ≡ forms_of self.now }
    {
        Forms {
            reads: self.reads,
            writes: self.writes,
        }
    }
}

/// The names with what they hold, in the order of the kernel's document; those that only the kernel profile has come
/// last.
static ROWS: [Row; 86] = [
    Row {
        name: b"cgroup.type",
        reads: Some(ReadForm::Mode),
        writes: Some(WriteForm::Mode),
    },
    Row {
        name: b"cgroup.procs",
        reads: Some(ReadForm::Numbers {
            lo: 0,
            hi: 2147483647,
        }),
        writes: Some(WriteForm::Number {
            lo: 0,
            hi: 2147483647,
        }),
    },
    Row {
        name: b"cgroup.threads",
        reads: Some(ReadForm::Numbers {
            lo: 0,
            hi: 2147483647,
        }),
        writes: Some(WriteForm::Number {
            lo: 0,
            hi: 2147483647,
        }),
    },
    Row {
        name: b"cgroup.controllers",
        reads: Some(ReadForm::Words),
        writes: None,
    },
    Row {
        name: b"cgroup.subtree_control",
        reads: Some(ReadForm::Words),
        writes: Some(WriteForm::Controllers),
    },
    Row {
        name: b"cgroup.events",
        reads: Some(ReadForm::Flat),
        writes: None,
    },
    Row {
        name: b"cgroup.stat",
        reads: Some(ReadForm::Flat),
        writes: None,
    },
    Row {
        name: b"cgroup.max.descendants",
        reads: Some(ReadForm::Limit),
        writes: Some(WriteForm::Limit {
            lo: 0,
            hi: u64::MAX,
        }),
    },
    Row {
        name: b"cgroup.max.depth",
        reads: Some(ReadForm::Limit),
        writes: Some(WriteForm::Limit {
            lo: 0,
            hi: u64::MAX,
        }),
    },
    Row {
        name: b"cgroup.freeze",
        reads: Some(ReadForm::Number { lo: 0, hi: 1 }),
        writes: Some(WriteForm::Number { lo: 0, hi: 1 }),
    },
    Row {
        name: b"cgroup.pressure",
        reads: Some(ReadForm::Number { lo: 0, hi: 1 }),
        writes: Some(WriteForm::Number { lo: 0, hi: 1 }),
    },
    Row {
        name: b"cgroup.kill",
        reads: None,
        writes: Some(WriteForm::Number { lo: 1, hi: 1 }),
    },
    Row {
        name: b"cpu.stat",
        reads: Some(ReadForm::Flat),
        writes: None,
    },
    Row {
        name: b"cpu.weight",
        reads: Some(ReadForm::Number { lo: 0, hi: 10000 }),
        writes: Some(WriteForm::Number { lo: 1, hi: 10000 }),
    },
    Row {
        name: b"cpu.weight.nice",
        reads: Some(ReadForm::Signed { lo: -20, hi: 19 }),
        writes: Some(WriteForm::Signed { lo: -20, hi: 19 }),
    },
    Row {
        name: b"cpu.idle",
        reads: Some(ReadForm::Number { lo: 0, hi: 1 }),
        writes: Some(WriteForm::Number { lo: 0, hi: 1 }),
    },
    Row {
        name: b"cpu.max",
        reads: Some(ReadForm::CpuMax),
        writes: Some(WriteForm::CpuMax),
    },
    Row {
        name: b"cpu.max.burst",
        reads: Some(ReadForm::Number {
            lo: 0,
            hi: u64::MAX,
        }),
        writes: Some(WriteForm::Number {
            lo: 0,
            hi: u64::MAX,
        }),
    },
    Row {
        name: b"cpu.uclamp.min",
        reads: Some(ReadForm::Clamp),
        writes: Some(WriteForm::Clamp),
    },
    Row {
        name: b"cpu.uclamp.max",
        reads: Some(ReadForm::Clamp),
        writes: Some(WriteForm::Clamp),
    },
    Row {
        name: b"cpu.pressure",
        reads: Some(ReadForm::Pressure),
        writes: Some(WriteForm::Trigger),
    },
    Row {
        name: b"memory.current",
        reads: Some(ReadForm::Number {
            lo: 0,
            hi: u64::MAX,
        }),
        writes: None,
    },
    Row {
        name: b"memory.peak",
        reads: Some(ReadForm::Number {
            lo: 0,
            hi: u64::MAX,
        }),
        writes: None,
    },
    Row {
        name: b"memory.swap.current",
        reads: Some(ReadForm::Number {
            lo: 0,
            hi: u64::MAX,
        }),
        writes: None,
    },
    Row {
        name: b"memory.swap.peak",
        reads: Some(ReadForm::Number {
            lo: 0,
            hi: u64::MAX,
        }),
        writes: None,
    },
    Row {
        name: b"memory.zswap.current",
        reads: Some(ReadForm::Number {
            lo: 0,
            hi: u64::MAX,
        }),
        writes: None,
    },
    Row {
        name: b"memory.min",
        reads: Some(ReadForm::Limit),
        writes: Some(WriteForm::SizeLimit),
    },
    Row {
        name: b"memory.low",
        reads: Some(ReadForm::Limit),
        writes: Some(WriteForm::SizeLimit),
    },
    Row {
        name: b"memory.high",
        reads: Some(ReadForm::Limit),
        writes: Some(WriteForm::SizeLimit),
    },
    Row {
        name: b"memory.max",
        reads: Some(ReadForm::Limit),
        writes: Some(WriteForm::SizeLimit),
    },
    Row {
        name: b"memory.swap.high",
        reads: Some(ReadForm::Limit),
        writes: Some(WriteForm::SizeLimit),
    },
    Row {
        name: b"memory.swap.max",
        reads: Some(ReadForm::Limit),
        writes: Some(WriteForm::SizeLimit),
    },
    Row {
        name: b"memory.zswap.max",
        reads: Some(ReadForm::Limit),
        writes: Some(WriteForm::SizeLimit),
    },
    Row {
        name: b"memory.oom.group",
        reads: Some(ReadForm::Number { lo: 0, hi: 1 }),
        writes: Some(WriteForm::Number { lo: 0, hi: 1 }),
    },
    Row {
        name: b"memory.zswap.writeback",
        reads: Some(ReadForm::Number { lo: 0, hi: 1 }),
        writes: Some(WriteForm::Number { lo: 0, hi: 1 }),
    },
    Row {
        name: b"memory.stat",
        reads: Some(ReadForm::Flat),
        writes: None,
    },
    Row {
        name: b"memory.events",
        reads: Some(ReadForm::Flat),
        writes: None,
    },
    Row {
        name: b"memory.events.local",
        reads: Some(ReadForm::Flat),
        writes: None,
    },
    Row {
        name: b"memory.swap.events",
        reads: Some(ReadForm::Flat),
        writes: None,
    },
    Row {
        name: b"memory.reclaim",
        reads: None,
        writes: Some(WriteForm::Reclaim { max: true }),
    },
    Row {
        name: b"memory.numa_stat",
        reads: Some(ReadForm::Nested),
        writes: None,
    },
    Row {
        name: b"memory.pressure",
        reads: Some(ReadForm::Pressure),
        writes: Some(WriteForm::Trigger),
    },
    Row {
        name: b"io.stat",
        reads: Some(ReadForm::DeviceStats { kernel: true }),
        writes: None,
    },
    Row {
        name: b"io.max",
        reads: Some(ReadForm::DeviceLimits { kernel: true }),
        writes: Some(WriteForm::DeviceLimits),
    },
    Row {
        name: b"io.weight",
        reads: Some(ReadForm::DeviceWeights {
            most: 10000,
            kernel: true,
        }),
        writes: Some(WriteForm::DeviceWeight { most: 10000 }),
    },
    Row {
        name: b"io.latency",
        reads: Some(ReadForm::DeviceTargets { kernel: true }),
        writes: Some(WriteForm::DeviceTarget),
    },
    Row {
        name: b"io.pressure",
        reads: Some(ReadForm::Pressure),
        writes: Some(WriteForm::Trigger),
    },
    Row {
        name: b"irq.pressure",
        reads: Some(ReadForm::Pressure),
        writes: Some(WriteForm::Trigger),
    },
    Row {
        name: b"pids.max",
        reads: Some(ReadForm::Limit),
        writes: Some(WriteForm::Limit { lo: 0, hi: 4194304 }),
    },
    Row {
        name: b"pids.current",
        reads: Some(ReadForm::Number {
            lo: 0,
            hi: u64::MAX,
        }),
        writes: None,
    },
    Row {
        name: b"pids.peak",
        reads: Some(ReadForm::Number {
            lo: 0,
            hi: u64::MAX,
        }),
        writes: None,
    },
    Row {
        name: b"pids.events",
        reads: Some(ReadForm::Flat),
        writes: None,
    },
    Row {
        name: b"cpuset.cpus",
        reads: Some(ReadForm::Set { most: 1048575 }),
        writes: Some(WriteForm::Set { most: 1048575 }),
    },
    Row {
        name: b"cpuset.mems",
        reads: Some(ReadForm::Set { most: 1048575 }),
        writes: Some(WriteForm::Set { most: 1048575 }),
    },
    Row {
        name: b"cpuset.cpus.effective",
        reads: Some(ReadForm::Set { most: 1048575 }),
        writes: None,
    },
    Row {
        name: b"cpuset.mems.effective",
        reads: Some(ReadForm::Set { most: 1048575 }),
        writes: None,
    },
    Row {
        name: b"cpuset.cpus.exclusive",
        reads: Some(ReadForm::Set { most: 1048575 }),
        writes: Some(WriteForm::Set { most: 1048575 }),
    },
    Row {
        name: b"cpuset.cpus.exclusive.effective",
        reads: Some(ReadForm::Set { most: 1048575 }),
        writes: None,
    },
    Row {
        name: b"cpuset.cpus.isolated",
        reads: Some(ReadForm::Set { most: 1048575 }),
        writes: None,
    },
    Row {
        name: b"cpuset.cpus.partition",
        reads: Some(ReadForm::Partition),
        writes: Some(WriteForm::Role),
    },
    Row {
        name: b"cgroup.stat.local",
        reads: Some(ReadForm::Flat),
        writes: None,
    },
    Row {
        name: b"cpu.stat.local",
        reads: Some(ReadForm::Flat),
        writes: None,
    },
    Row {
        name: b"pids.events.local",
        reads: Some(ReadForm::Flat),
        writes: None,
    },
    Row {
        name: b"hugetlb.*.current",
        reads: Some(ReadForm::Number {
            lo: 0,
            hi: u64::MAX,
        }),
        writes: None,
    },
    Row {
        name: b"hugetlb.*.rsvd.current",
        reads: Some(ReadForm::Number {
            lo: 0,
            hi: u64::MAX,
        }),
        writes: None,
    },
    Row {
        name: b"hugetlb.*.max",
        reads: Some(ReadForm::Limit),
        writes: Some(WriteForm::SizeLimit),
    },
    Row {
        name: b"hugetlb.*.rsvd.max",
        reads: Some(ReadForm::Limit),
        writes: Some(WriteForm::SizeLimit),
    },
    Row {
        name: b"hugetlb.*.events",
        reads: Some(ReadForm::Flat),
        writes: None,
    },
    Row {
        name: b"hugetlb.*.events.local",
        reads: Some(ReadForm::Flat),
        writes: None,
    },
    Row {
        name: b"hugetlb.*.numa_stat",
        reads: Some(ReadForm::NodeStats),
        writes: None,
    },
    Row {
        name: b"misc.capacity",
        reads: Some(ReadForm::Flat),
        writes: None,
    },
    Row {
        name: b"misc.current",
        reads: Some(ReadForm::Flat),
        writes: None,
    },
    Row {
        name: b"misc.peak",
        reads: Some(ReadForm::Flat),
        writes: None,
    },
    Row {
        name: b"misc.events",
        reads: Some(ReadForm::Flat),
        writes: None,
    },
    Row {
        name: b"misc.events.local",
        reads: Some(ReadForm::Flat),
        writes: None,
    },
    Row {
        name: b"misc.max",
        reads: Some(ReadForm::FlatLimits),
        writes: Some(WriteForm::Raw),
    },
    Row {
        name: b"dmem.capacity",
        reads: Some(ReadForm::Flat),
        writes: None,
    },
    Row {
        name: b"dmem.current",
        reads: Some(ReadForm::Flat),
        writes: None,
    },
    Row {
        name: b"dmem.peak",
        reads: Some(ReadForm::Flat),
        writes: None,
    },
    Row {
        name: b"dmem.min",
        reads: Some(ReadForm::FlatLimits),
        writes: Some(WriteForm::Raw),
    },
    Row {
        name: b"dmem.low",
        reads: Some(ReadForm::FlatLimits),
        writes: Some(WriteForm::Raw),
    },
    Row {
        name: b"dmem.max",
        reads: Some(ReadForm::FlatLimits),
        writes: Some(WriteForm::Raw),
    },
    Row {
        name: b"io.bfq.weight",
        reads: Some(ReadForm::DeviceWeights {
            most: 1000,
            kernel: true,
        }),
        writes: Some(WriteForm::DeviceWeight { most: 1000 }),
    },
    Row {
        name: b"io.cost.qos",
        reads: Some(ReadForm::DeviceParams),
        writes: Some(WriteForm::Raw),
    },
    Row {
        name: b"io.cost.model",
        reads: Some(ReadForm::DeviceParams),
        writes: Some(WriteForm::Raw),
    },
    Row {
        name: b"io.prio.class",
        reads: Some(ReadForm::Class),
        writes: Some(WriteForm::Class),
    },
];

/// What a row says of its name.
#[derive(Clone, Copy)]
struct Forms {
    reads: Option<ReadForm>,
    writes: Option<WriteForm>,
}

/// What the first row of the name says, none where no row has it.
fn search_rows(rows: &[Row], name: &[u8]) -> Option<Forms>
    ensures { result ≡ found_in rows.now name.now }
{
    for row in rows {
        if row.name == name {
            return Some(row.forms());
        }
    }
    None
}

/// For each number that `guess` makes of names, the place of a row of such a name, or 255 where there is none.
static PLACES: [u8; 256] = [
    255, 20, 255, 255, 255, 255, 255, 44, 255, 255, 255, 0, 255, 84, 5, 57, 255, 255, 255, 255,
    255, 255, 255, 255, 255, 255, 62, 2, 255, 255, 255, 63, 255, 255, 255, 255, 255, 255, 12, 7,
    10, 255, 73, 45, 1, 255, 255, 255, 255, 255, 255, 255, 255, 255, 255, 255, 8, 255, 255, 4, 255,
    255, 78, 255, 255, 255, 16, 255, 36, 255, 255, 255, 255, 255, 255, 255, 255, 6, 255, 255, 69,
    33, 255, 255, 255, 72, 255, 80, 255, 255, 13, 255, 59, 255, 41, 255, 61, 255, 77, 68, 255, 255,
    255, 255, 39, 85, 255, 255, 66, 255, 81, 22, 255, 255, 28, 255, 255, 255, 56, 255, 255, 71,
    255, 255, 255, 255, 255, 255, 255, 255, 255, 35, 255, 38, 255, 51, 27, 76, 255, 255, 255, 54,
    255, 255, 255, 255, 255, 21, 255, 17, 255, 255, 255, 255, 255, 255, 255, 19, 255, 29, 70, 255,
    255, 255, 255, 255, 255, 255, 255, 255, 255, 255, 53, 255, 46, 255, 24, 255, 50, 30, 58, 14,
    255, 18, 255, 26, 255, 47, 34, 74, 255, 255, 255, 255, 255, 255, 40, 255, 52, 255, 255, 255,
    255, 255, 9, 255, 255, 255, 67, 255, 255, 42, 23, 255, 49, 37, 255, 255, 255, 255, 255, 11,
    255, 255, 31, 25, 48, 255, 255, 255, 255, 15, 255, 255, 255, 255, 255, 32, 255, 43, 3, 255,
    255, 255, 255, 255, 255, 255, 255, 255, 255, 255, 255, 255, 255, 255,
];

/// The place where the row of a name stands, if there is one: mostly. It needn't be right. Of the name it knows its
/// length, its first byte, and its end.
fn guess(len: usize, first: u8, end: &[u8]) -> usize {
    let count = end.len();
    if count < 4 {
        return 0;
    }
    let ends = end[count - 1] as usize + end[count - 4] as usize;
    let number = (len % 256) * 13 + first as usize * 31 + ends * 23;
    PLACES[number % 256] as usize
}

/// What the only row of the name says, none where no row has it: that which stands at the place that is guessed, or
/// else the one that is found by a search.
#[inline(always)]
fn find_row(rows: &[Row], name: &[u8]) -> Option<Forms>
    requires { stand_once rows.now ≡ true }
    ensures { result ≡ found_in rows.now name.now }
{
    if name.len() > 0 {
        let place = guess(name.len(), name[0], name);
        if place < rows.len() && rows[place].name == name {
            return Some(rows[place].forms());
        }
    }
    search_rows(rows, name)
}

/// What the first row of a name with a size in it says, none where no row has it: `rest` is behind the size.
fn search_sized(rows: &[Row], rest: &[u8]) -> Option<Forms>
    ensures { result ≡ found_in rows.now (codes "hugetlb.*" ++ rest.now) }
{
    for row in rows {
        if is_sized(row.name, rest) {
            return Some(row.forms());
        }
    }
    None
}

/// What the only row of a name with a size in it says, none where no row has it, as `find_row` finds it.
fn find_sized(rows: &[Row], rest: &[u8]) -> Option<Forms>
    requires { stand_once rows.now ≡ true }
    ensures { result ≡ found_in rows.now (codes "hugetlb.*" ++ rest.now) }
{
    let place = guess(rest.len() + 9, b'h', rest);
    if place < rows.len() && is_sized(rows[place].name, rest) {
        return Some(rows[place].forms());
    }
    search_sized(rows, rest)
}

/// The rows that the profile has of all.
fn rows_in(profile: Profile, rows: &[Row]) -> &[Row]
    requires { 60 ≤ length rows.now }
    ensures { result.now ≡ rows_in profile rows.now }
{
    match profile {
        Profile::One | Profile::Two => &rows[..60],
        Profile::Kernel => rows,
    }
}

/// What the row of the name says in the profile, none where it has no row.
#[inline(always)]
fn find(profile: Profile, rows: &[Row], name: &[u8]) -> Option<Forms>
    requires all { 60 ≤ length rows.now }
    requires once { stand_once rows.now ≡ true }
    ensures { result ≡ found_by (rows_in profile rows.now) (row_name name.now) }
{
    let rows = rows_in(profile, rows);
    match name.strip_prefix(b"hugetlb.") {
        Some(text) => match behind_size(text) {
            Some(rest) => find_sized(rows, rest),
            None => None,
        },
        None => find_row(rows, name),
    }
}

/// What stands in the second profile for a read form of the kernel profile.
fn read_before(form: ReadForm) -> ReadForm
    ensures { result ≡ read_before form }
{
    match form {
        ReadForm::DeviceStats { .. } => ReadForm::DeviceStats { kernel: false },
        ReadForm::DeviceLimits { .. } => ReadForm::DeviceLimits { kernel: false },
        ReadForm::DeviceWeights { most, .. } => ReadForm::DeviceWeights {
            most,
            kernel: false,
        },
        ReadForm::DeviceTargets { .. } => ReadForm::DeviceTargets { kernel: false },
        _ => form,
    }
}

/// What stands in the profile for a read form of the kernel profile.
fn read_form(profile: Profile, form: ReadForm) -> ReadForm
    ensures { result ≡ read_in profile form }
{
    match (profile, form) {
        (Profile::One, ReadForm::Set { .. }) => ReadForm::Set { most: 65535 },
        (Profile::One, ReadForm::Nested) => ReadForm::Raw,
        (Profile::Kernel, _) => form,
        _ => read_before(form),
    }
}

/// What stands in the profile for a write form of the kernel profile.
fn write_form(profile: Profile, form: WriteForm) -> WriteForm
    ensures { result ≡ write_in profile form }
{
    match (profile, form) {
        (Profile::One, WriteForm::Set { .. }) => WriteForm::Set { most: 65535 },
        (Profile::One | Profile::Two, WriteForm::Reclaim { .. }) => WriteForm::Reclaim {
            max: false,
        },
        _ => form,
    }
}

/// What a file of this name holds when it is read. It takes no memory.
pub fn read_kind(profile: Profile, name: &[u8]) -> Result<ReadKind, NotReadable>
    ensures readable { IfOk result (λ kind. read_form_of profile name.now ≡ Some kind) }
    ensures unreadable { OnErr result (read_form_of profile name.now ≡ None) }
{
    match find(profile, &ROWS, name) {
        Some(forms) => match forms.reads {
            Some(form) => Ok(ReadKind::of(read_form(profile, form))),
            None => Err(NotReadable),
        },
        None => Ok(ReadKind::of(ReadForm::Raw)),
    }
}

/// What one write of a file of this name holds. It takes no memory.
pub fn write_kind(profile: Profile, name: &[u8]) -> Result<WriteKind, NotWritable>
    ensures writable { IfOk result (λ kind. write_form_of profile name.now ≡ Some kind) }
    ensures unwritable { OnErr result (write_form_of profile name.now ≡ None) }
{
    match find(profile, &ROWS, name) {
        Some(forms) => match forms.writes {
            Some(form) => Ok(WriteKind::of(write_form(profile, form))),
            None => Err(NotWritable),
        },
        None => Ok(WriteKind::of(WriteForm::Raw)),
    }
}

/// Whether a file of this name has a row in the file table. It takes no memory.
pub fn has_row(profile: Profile, name: &[u8]) -> bool
    ensures { result ≡ has_row profile name.now }
{
    find(profile, &ROWS, name).is_some()
}

/// A row of the file table.
#[derive(Clone, Copy, Debug)]
pub struct TableRow {
    /// The name of files, in which `*` stands for the size of a huge page.
    pub name: &'static [u8],
    /// What they hold when they are read, none where they can't be.
    pub reads: Option<ReadKind>,
    /// What one write of them holds, none where they can't be written.
    pub writes: Option<WriteKind>,
}

/// The kind of a read form of the kernel profile in the profile.
fn kind_read(profile: Profile, form: Option<ReadForm>) -> Option<ReadKind>
    requires { IfSome (option_map (read_in profile) form) IsReadForm }
    ensures { result ≡ option_map (read_in profile) form }
{
    match form {
        Some(form) => Some(ReadKind::of(read_form(profile, form))),
        None => None,
    }
}

/// The kind of a write form of the kernel profile in the profile.
fn kind_written(profile: Profile, form: Option<WriteForm>) -> Option<WriteKind>
    requires { IfSome (option_map (write_in profile) form) IsWriteForm }
    ensures { result ≡ option_map (write_in profile) form }
{
    match form {
        Some(form) => Some(WriteKind::of(write_form(profile, form))),
        None => None,
    }
}

/// The row at this place of the profile, none after the last.
fn row_at(profile: Profile, table: &[Row], place: usize) -> Option<TableRow>
    requires { IsTable table.now }
    ensures { MatchOption result (length (rows profile) ≤ place) (λ row.
        (place < length (rows profile)) × (row_told row ≡ row_at profile place)) }
{
    let all = rows_in(profile, table);
    if place < all.len() {
        let row = &all[place];
        Some(TableRow {
            name: row.name,
            reads: kind_read(profile, row.reads),
            writes: kind_written(profile, row.writes),
        })
    } else {
        None
    }
}

/// The row at this place of the file table, none after the last. It takes no memory.
pub fn table_row(profile: Profile, place: usize) -> Option<TableRow>
    ensures row { MatchOption result (length (rows profile) ≤ place) (λ row.
        (place < length (rows profile)) × (row_told row ≡ row_at profile place)) }
    ensures short { IfSome result (λ row. length row.name.now ≤ longest (rows profile)) }
{
    row_at(profile, &ROWS, place)
}
