//! Snapshots and their entries, and entries that are written, with ample memory.
use cg_print::{CutSink, EntryWriteFault, write_entry};
use cg_snap::{Limits, SnapshotDecoder, Stop};
use cg_text::{Items, Limit};
use cg_value::{Entry, PlanItem, Profile, RawLines, Role, Setting, Value};
use std::alloc::{AllocError, Global};
use std::test::Fail;

/// A snapshot of two entries of other paths.
pub(crate) const TWO_FILES: &[u8] = b"cpu.max\0max 100000\ncpu.max.burst\00\n";

/// A snapshot but for its end: the file of `cpu.max` has one line.
pub(crate) const LINE_TOO_MANY: &[u8] = b"cpu.max\0max 100000\ncpu.max\0";

/// A snapshot of lines that are kept as they are, and of a partition with a reason.
pub(crate) const RAW_AND_REASON: &[u8] =
    b"x/hugetlb.2MB.max\0max\nx/cpuset.cpus.partition\0root invalid (a) b)\n";

/// A decoder of the first profile that consumed nothing.
pub(crate) fn decoder(alloc: Global) -> SnapshotDecoder {
    SnapshotDecoder::new(alloc, Profile::One, Limits::DEFAULT)
}

/// Whether there is a last entry.
pub(crate) fn ending(snapshot: SnapshotDecoder) -> Result<bool, Stop> {
    match snapshot.finish() {
        Ok(Some(_entry)) => Ok(true),
        Ok(None) => Ok(false),
        Err(stop) => Err(stop),
    }
}

/// The entry of the first profile that has this path and this value.
pub(crate) fn entry(alloc: Global, path: &[u8], value: Value) -> Result<Entry, Fail> {
    let path = path.to_vec(alloc)?;
    let entry = Entry::new(Profile::One, path, value)?;
    Ok(entry)
}

/// The entry that the end of the stream gives.
pub(crate) fn last_entry(snapshot: SnapshotDecoder) -> Option<Entry> {
    snapshot.finish().ok().flatten()
}

/// Whether there is an entry with this path and this value.
pub(crate) fn is_entry(found: &Option<Entry>, path: &[u8], value: &Value) -> bool {
    match found {
        Some(entry) => entry.path() == path && *entry.value() == *value,
        None => false,
    }
}

/// The processor time of a file that sets no bound.
pub(crate) const UNBOUNDED: Value = Value::CpuMax {
    quota: Limit::Max,
    period: 100000,
};

/// Whether these are entries of the same paths and values.
pub(crate) fn are_same(entries: &[Entry], wanted: &[Entry]) -> bool {
    let is_same = |pair: (&Entry, &Entry)| pair.0.path() == pair.1.path()
        && pair.0.value() == pair.1.value();
    entries.len() == wanted.len() && entries.iter().zip(wanted).all(is_same)
}

/// Lines that are kept as they are, each with its newline.
fn raw(alloc: Global, text: &[u8]) -> Result<Value, Fail> {
    let held = Vec::from_slice(alloc, text)?;
    let lines = RawLines::of(held).ok().ok_or("no whole lines")?;
    Ok(Value::Raw(lines))
}

/// A root of a partition that isn't valid, with this reason.
fn invalid_root(alloc: Global, reason: &[u8]) -> Result<Value, AllocError> {
    let held = Vec::from_slice(alloc, reason)?;
    Ok(Value::Partition {
        role: Role::Root,
        valid: false,
        reason: Some(Items::of(held)),
    })
}

/// The entries of `RAW_AND_REASON`.
pub(crate) fn raw_and_reason(alloc: Global) -> Result<Vec<Entry>, Fail> {
    let line = raw(alloc, b"max\n")?;
    let first = entry(alloc, b"x/hugetlb.2MB.max", line)?;
    let root = invalid_root(alloc, b"a) b")?;
    let second = entry(alloc, b"x/cpuset.cpus.partition", root)?;
    let entries = vec![in alloc; first, second]?;
    Ok(entries)
}

/// The entry of `cpu.idle` with 1.
pub(crate) fn idle(alloc: Global) -> Result<Entry, Fail> {
    entry(alloc, b"cpu.idle", Value::Number(1))
}

/// The item of the first profile that has this path and this setting.
pub(crate) fn item(alloc: Global, path: &[u8], setting: Setting) -> Result<PlanItem, Fail> {
    let path = path.to_vec(alloc)?;
    let item = PlanItem::new(Profile::One, path, setting)?;
    Ok(item)
}

/// The item of `memory.max` with 15 times 2 to the power of 60.
pub(crate) fn memory_bound(alloc: Global) -> Result<PlanItem, Fail> {
    item(
        alloc,
        b"memory.max",
        Setting::Limit(Limit::At(17293822569102704640)),
    )
}

#[test]
fn written_entries(rt: HostRuntime) -> Result<(), Fail> {
    let entry = idle(rt.alloc())?;
    let mut sink = CutSink::new(usize::MAX, 4096);
    let answer = write_entry(rt.alloc(), &entry, &mut sink);
    assert_eq!(rt; answer, Ok(()));
    assert!(rt; sink.bytes() == b"cpu.idle\01\n".as_slice());
    let mut cut = CutSink::new(5, 4096);
    let answer = write_entry(rt.alloc(), &entry, &mut cut);
    assert_eq!(rt; answer, Err(EntryWriteFault::Device { written: 5 }));
    assert!(rt; cut.bytes() == b"cpu.i".as_slice());
    Ok(())
}
