//! Plans, and what becomes of entries, with the heap starved: after each refusal one block is given back, and the call
//! is made again. Each answer is want of memory, or the answer with ample memory.
use crate::tests::snapshots::{idle, memory_bound};
use crate::tests::starved::{Blocks, hog, is_printed};
use cg_json::{line, view};
use cg_line::{UpgradeFault, upgrade};
use cg_snap::{
    EncodeFault, Event, Limits, PlanDecoder, PlanPulled, Progress, Stop, StreamFault, Why,
    decode_plan, decode_snapshot, encode_plan, encode_snapshot,
};
use cg_text::{Device, Items, Key, Limit, OutOfMemory};
use cg_tree::{Finding, Rule, findings};
use cg_value::{Entry, PlanItem, Profile, Setting, Toggle};
use std::alloc::{AllocError, Global};
use std::test::Fail;

/// A plan of one write, whose pairs come in another order than they are printed in.
const LIMIT_PAIRS: &[u8] = b"io.max\08:16 wiops=7 rbps=max\n";

/// A plan of one write, with a word that comes again.
const CONTROLLERS: &[u8] = b"cgroup.subtree_control\0+cpu -io +cpu\n";

/// The setting of `LIMIT_PAIRS`.
pub(crate) const PAIRS: Setting = Setting::DeviceLimits {
    device: Device {
        major: 8,
        minor: 16,
    },
    rbps: Some(Limit::Max),
    wbps: None,
    riops: None,
    wiops: Some(Limit::At(7)),
};

/// What a decoder tells of a piece, where it's called again with the rest of it after each refusal of memory, for which
/// a block is given back. With it comes how many bytes were consumed.
fn next_starved(plan: &mut PlanDecoder, held: &mut Blocks, piece: &[u8]) -> PlanPulled {
    let mut used: usize = 0;
    for _ in 0..5000 {
        if used > piece.len() {
            break;
        }
        let (_, rest) = piece.split_at(used);
        let pulled = plan.next(rest);
        used = used.saturating_add(pulled.used);
        match pulled.what {
            Event::OutOfMemory => {
                let _ = held.pop();
            }
            what => return Progress { used, what },
        }
    }
    Progress {
        used,
        what: Event::OutOfMemory,
    }
}

/// Whether a plan, in pieces of so many bytes, gives this setting or this stop, with no byte left but the one at fault.
fn gives(
    alloc: Global,
    held: &mut Blocks,
    text: &[u8],
    size: usize,
    wanted: Result<&Setting, Stop>,
) -> bool {
    let mut plan = PlanDecoder::new(alloc, Profile::One, Limits::DEFAULT);
    let mut consumed: usize = 0;
    for piece in text.chunks(size.max(1)) {
        let Progress { used, what } = next_starved(&mut plan, held, piece);
        consumed = consumed.saturating_add(used);
        if plan.offset() != consumed as u64 || plan.held() > plan.offset() {
            return false;
        }
        match (what, wanted) {
            (Event::NeedMore, _) => {}
            (Event::Given(item), Ok(setting)) => {
                return consumed == text.len()
                    && *item.setting() == *setting
                    && plan.finish() == Ok(());
            }
            (Event::Stopped(told), Err(stop)) => {
                return consumed.saturating_add(1) == text.len()
                    && told == stop
                    && plan.finish() == Err(stop);
            }
            _ => return false,
        }
    }
    false
}

/// The toggles of `cpu` on, `io` off, and `cpu` on again.
fn toggles(alloc: Global) -> Result<Setting, Fail> {
    let mut all = Items::new(alloc);
    for (on, word) in [(true, "cpu"), (false, "io"), (true, "cpu")] {
        let name = Key::new(alloc, word.as_bytes())?;
        all.push(Toggle { on, name })?;
    }
    Ok(Setting::Controllers(all))
}

/// Decoders of plans whose growth was refused go on as with ample memory, with which each is run before.
#[test]
fn starved_plans(rt: HostRuntime) -> Result<(), Fail> {
    let toggles = toggles(rt.alloc())?;
    let refused = Stop::Refused {
        at: 20,
        why: Why::Line,
    };
    let rows: [(&[u8], usize, Result<&Setting, Stop>); 3] = [
        (LIMIT_PAIRS, 4096, Ok(&PAIRS)),
        (b"io.max\08:16 rbps=1 rb", 4096, Err(refused)),
        (CONTROLLERS, 1, Ok(&toggles)),
    ];
    let mut none = Vec::new(rt.alloc());
    for (text, size, wanted) in rows {
        assert!(rt;
            gives(rt.alloc(), &mut none, text, size, wanted),
            "{text:?}"
        );
    }
    for (text, size, wanted) in rows {
        let mut held = hog(rt.alloc())?;
        let all = held.len();
        let is_right = gives(rt.alloc(), &mut held, text, size, wanted);
        let left = held.len();
        drop(held);
        assert!(rt; is_right && left < all, "{text:?}");
    }
    Ok(())
}

/// A call with what it is made on, and with what it is to answer where that isn't always the same.
#[derive(Drop)]
enum Call {
    DecodePlan,
    EncodePlan(Vec<PlanItem>),
    EncodeSnapshot(Vec<Entry>),
    Upgrade(Entry, Result<Entry, UpgradeFault>),
    Find(Vec<Entry>),
    View(Entry, serde_json::Value),
    Line(Entry),
}

/// Whether a plan's item is the bound of memory.
fn decodes_plan(alloc: Global) -> Option<bool> {
    let size = Setting::Limit(Limit::At(17293822569102704640));
    match decode_plan(alloc, Profile::One, Limits::DEFAULT, b"memory.max\015E\n") {
        Ok(items) => match items.as_slice() {
            [only] => Some(only.path() == b"memory.max".as_slice() && *only.setting() == size),
            _ => Some(false),
        },
        Err(StreamFault::OutOfMemory) => None,
        Err(StreamFault::Stopped(_stop)) => Some(false),
    }
}

/// Whether an entry is upgraded to this one, or refused so.
fn upgrades(alloc: Global, entry: &Entry, wanted: &Result<Entry, UpgradeFault>) -> Option<bool> {
    match (upgrade(alloc, entry), wanted) {
        (Err(UpgradeFault::OutOfMemory), _) => None,
        (Ok(upgraded), Ok(wanted)) => {
            Some(upgraded.path() == wanted.path() && upgraded.value() == wanted.value())
        }
        (Err(fault), Err(wanted)) => Some(fault == *wanted),
        _ => Some(false),
    }
}

/// What `DELEGATED` breaks: its last entry names `io`, which the group above doesn't, and which isn't threaded.
const BROKEN: [Finding; 2] = [
    Finding {
        rule: Rule::C2,
        at: 4,
        other: 1,
        word: 1,
    },
    Finding {
        rule: Rule::C3,
        at: 4,
        other: 3,
        word: 1,
    },
];

/// Whether the answer is right; none where memory was refused.
fn tried(alloc: Global, call: &Call) -> Option<bool> {
    match call {
        Call::DecodePlan => decodes_plan(alloc),
        Call::EncodePlan(items) => is_printed(
            encode_plan(alloc, items.as_slice()),
            b"memory.max\017293822569102704640\n",
        ),
        Call::EncodeSnapshot(entries) => match encode_snapshot(alloc, entries.as_slice()) {
            Ok(text) => Some(text.as_slice() == b"cpu.idle\01\n".as_slice()),
            Err(EncodeFault::OutOfMemory) => None,
            Err(EncodeFault::SamePath { at: _ }) => Some(false),
        },
        Call::Upgrade(entry, wanted) => upgrades(alloc, entry, wanted),
        Call::Find(entries) => match findings(alloc, entries.as_slice()) {
            Ok(found) => Some(found.as_slice() == BROKEN.as_slice()),
            Err(OutOfMemory) => None,
        },
        Call::View(entry, wanted) => match view(alloc, entry) {
            Ok(tree) => Some(tree == *wanted),
            Err(OutOfMemory) => None,
        },
        Call::Line(entry) => is_printed(line(alloc, entry), BOUND_LINE),
    }
}

/// A hierarchy that breaks two rules.
pub(crate) const DELEGATED: &[u8] = b"r/cgroup.controllers\0cpu io\nr/cgroup.subtree_control\0cpu\n\
    r/a/cgroup.type\0domain\nr/a/cgroup.procs\07\nr/a/cgroup.subtree_control\0cpu io\n";

/// The line of an entry that sets no bound.
pub(crate) const BOUND_LINE: &[u8] =
    b"{\"kind\":\"cpu_max\",\"path\":\"a/cpu.max\",\"value\":{\"period\":100000,\"quota\":\"max\"}}\n";

pub(crate) const BOUND: &[u8] = b"a/cpu.max\0max 100000\n";

const NODES: &[u8] = b"memory.numa_stat\0anon N0=1 N1=2\n";

const TWICE: &[u8] = b"memory.numa_stat\0anon\nmemory.numa_stat\0anon\n";

/// The entries of a snapshot.
fn entries_of(alloc: Global, profile: Profile, text: &[u8]) -> Result<Vec<Entry>, Fail> {
    let entries = decode_snapshot(alloc, profile, Limits::DEFAULT, text)?;
    Ok(entries)
}

/// The entry of a snapshot of one.
fn entry_of(alloc: Global, profile: Profile, text: &[u8]) -> Result<Entry, Fail> {
    let mut entries = entries_of(alloc, profile, text)?;
    let entry = entries.pop().ok_or("no entry")?;
    Ok(entry)
}

/// Adds the entries that are upgraded: one of nested lines, one of two lines of one key, and one that is copied.
fn add_upgrades(alloc: Global, calls: &mut Vec<Call>) -> Result<(), Fail> {
    let wanted = entry_of(alloc, Profile::Two, NODES)?;
    let entry = entry_of(alloc, Profile::One, NODES)?;
    calls.push(Call::Upgrade(entry, Ok(wanted)))?;
    let refused = UpgradeFault::Line { line: 1, at: 4 };
    let entry = entry_of(alloc, Profile::One, TWICE)?;
    calls.push(Call::Upgrade(entry, Err(refused)))?;
    let wanted = idle(alloc)?;
    let entry = idle(alloc)?;
    calls.push(Call::Upgrade(entry, Ok(wanted)))?;
    Ok(())
}

/// The other calls.
fn other_calls(alloc: Global) -> Result<Vec<Call>, Fail> {
    let mut calls = vec![in alloc; Call::DecodePlan]?;
    let item = memory_bound(alloc)?;
    let items = vec![in alloc; item]?;
    calls.push(Call::EncodePlan(items))?;
    let entry = idle(alloc)?;
    let entries = vec![in alloc; entry]?;
    calls.push(Call::EncodeSnapshot(entries))?;
    let entries = entries_of(alloc, Profile::One, DELEGATED)?;
    calls.push(Call::Find(entries))?;
    let tree = serde_json::Value::from_slice(alloc, BOUND_LINE)?;
    let entry = entry_of(alloc, Profile::One, BOUND)?;
    calls.push(Call::View(entry, tree))?;
    let entry = entry_of(alloc, Profile::One, BOUND)?;
    calls.push(Call::Line(entry))?;
    Ok(calls)
}

/// How often a call was refused until it was answered, and whether it was answered right.
fn refusals_of(alloc: Global, call: &Call) -> Result<(u64, bool), AllocError> {
    let mut held = hog(alloc)?;
    let mut refusals: u64 = 0;
    for _ in 0..5000 {
        if let Some(is_right) = tried(alloc, call) {
            return Ok((refusals, is_right));
        }
        refusals = refusals.saturating_add(1);
        let _ = held.pop();
    }
    Ok((refusals, false))
}

/// Each call is made once before the heap is ever starved.
#[test]
fn starved_calls(rt: HostRuntime) -> Result<(), Fail> {
    let mut calls = other_calls(rt.alloc())?;
    add_upgrades(rt.alloc(), &mut calls)?;
    for (place, call) in calls.iter().enumerate() {
        assert!(rt; tried(rt.alloc(), call) == Some(true), "{place}");
    }
    for (place, call) in calls.iter().enumerate() {
        let (refusals, is_right) = refusals_of(rt.alloc(), call)?;
        assert!(rt; is_right && refusals > 0, "{place} {refusals}");
    }
    Ok(())
}
