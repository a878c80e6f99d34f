//! What a container manager and a monitor do with the library, a function for each of its main calls. README shows
//! these functions; the gate runs them and compares what they print.
#![tactic(auto)]

use anyhow::Result;
use cg_line::{decode_file, decode_setting};
use cg_print::print_setting;
use cg_snap::{Event, Limits, SnapshotDecoder, decode_snapshot, encode_plan};
use cg_text::{Limit, OutOfMemory};
use cg_tree::findings;
use cg_value::{Entry, PlanItem, Profile, Setting};
use std::alloc::Global;

/// How many microseconds of processor time a group used, by the text of its `cpu.stat`.
fn processor_time(alloc: Global, text: &[u8]) -> Result<Option<u64>> {
    let value = decode_file(alloc, Profile::One, b"cpu.stat", text)?;
    Ok(value.number_of(b"usage_usec"))
}

/// What to write to `memory.max` for a line that a user gave: `512M` becomes `536870912`.
fn memory_line(alloc: Global, given: &[u8]) -> Result<Vec<u8>> {
    let setting = decode_setting(alloc, Profile::One, b"memory.max", given)?;
    Ok(print_setting(alloc, &setting)?)
}

/// How many processes of its group were killed for want of memory, if the entry tells.
fn killed_in(entry: &Entry) -> u64 {
    match entry.name() {
        b"memory.events.local" => entry.value().number_of(b"oom_kill").unwrap_or(0),
        _ => 0,
    }
}

/// The same of the entries that a piece of a snapshot closes.
fn killed_by_piece(decoder: &mut SnapshotDecoder, piece: &[u8]) -> Result<u64> {
    let mut killed: u64 = 0;
    let mut used = 0;
    while used < piece.len() {
        let pulled = decoder.next(&piece[used..]);
        used += pulled.used;
        match pulled.what {
            Event::NeedMore => {}
            Event::Given(entry) => killed = killed.saturating_add(killed_in(&entry)),
            Event::Stopped(stop) => return Err(stop.into()),
            Event::OutOfMemory => return Err(OutOfMemory.into()),
        }
    }
    Ok(killed)
}

/// How many processes of a hierarchy were killed for want of memory, by a snapshot that comes in pieces.
fn killed(alloc: Global, pieces: &[&[u8]]) -> Result<u64> {
    let mut decoder = SnapshotDecoder::new(alloc, Profile::One, Limits::DEFAULT);
    let mut killed: u64 = 0;
    for piece in pieces {
        killed = killed.saturating_add(killed_by_piece(&mut decoder, piece)?);
    }
    match decoder.finish()? {
        Some(entry) => Ok(killed.saturating_add(killed_in(&entry))),
        None => Ok(killed),
    }
}

/// The plan that limits a group's memory, in bytes, and its processor time in each tenth of a second, in microseconds.
fn plan(alloc: Global, group: &str, memory: u64, time: u64) -> Result<Vec<u8>> {
    let path = format!(in alloc; "{group}/memory.max")?.into_bytes();
    let memory = PlanItem::new(Profile::One, path, Setting::Limit(Limit::At(memory)))?;
    let path = format!(in alloc; "{group}/cpu.max")?.into_bytes();
    let quota = Setting::CpuMax {
        quota: Limit::At(time),
        period: Some(100000),
    };
    let processor = PlanItem::new(Profile::One, path, quota)?;
    let items = vec![in alloc; memory, processor]?;
    Ok(encode_plan(alloc, items.as_slice())?)
}

/// What a hierarchy breaks of the rules for delegation: a line for each, of the rule and the path of the file that
/// breaks it.
fn broken_rules(alloc: Global, snapshot: &[u8]) -> Result<Vec<u8>> {
    let entries = decode_snapshot(alloc, Profile::One, Limits::DEFAULT, snapshot)?;
    let mut lines = Vec::new(alloc);
    for finding in findings(alloc, entries.as_slice())? {
        if let Some(entry) = entries.get(finding.at) {
            lines.extend_from_slice(finding.rule.name().as_bytes())?;
            lines.push(b' ')?;
            lines.extend_from_slice(entry.path())?;
            lines.push(b'\n')?;
        }
    }
    Ok(lines)
}

/// A text with `|` in place of each NUL, or a line that says why there is none.
fn shown(alloc: Global, text: Result<Vec<u8>>) -> Result<String> {
    match text {
        Ok(text) => Ok(String::from_utf8(text)?.replace(alloc, "\0", "|")?),
        Err(error) => Ok(format!(in alloc; "{error}\n")?),
    }
}

fn main(rt: HostRuntime) -> Result<()> {
    let alloc = rt.alloc();
    let time = processor_time(alloc, b"usage_usec 1500\nuser_usec 1000\nsystem_usec 500\n")?;
    println!(rt; "{time:?}")?;
    for given in ["512M\n", "max\n", "16E\n"] {
        let line = shown(alloc, memory_line(alloc, given.as_bytes()))?;
        print!(rt; "{line}")?;
    }
    let pieces: [&[u8]; 3] = [
        b"a/memory.eve",
        b"nts.local\0oom 1\na/memory.events.local\0oom_ki",
        b"ll 2\nb/memory.events.local\0oom_kill 3\n",
    ];
    println!(rt; "{}", killed(alloc, &pieces)?)?;
    for time in [20000, 20] {
        let records = shown(alloc, plan(alloc, "web", 536870912, time))?;
        print!(rt; "{records}")?;
    }
    let snapshot = b"a/cgroup.controllers\0cpu\na/cgroup.subtree_control\0cpu io\n";
    let lines = shown(alloc, broken_rules(alloc, snapshot))?;
    print!(rt; "{lines}")?;
    Ok(())
}
