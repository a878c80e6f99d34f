//! Calls that may want memory, made with the heap starved: after each refusal one block is given back, and the call is
//! made again. Each answer is want of memory, or the answer with ample memory.
ghost use Rattle.std.specs.Prelude.{◌≤◌};

use crate::tests::snapshots::{
    LINE_TOO_MANY, RAW_AND_REASON, TWO_FILES, UNBOUNDED, are_same, decoder, ending, idle, is_entry,
    last_entry, memory_bound, raw_and_reason,
};
use crate::tests::starved_streams::{BOUND, BOUND_LINE, DELEGATED, PAIRS};
use cg_line::{FileFault, SettingFault, decode_file, decode_setting};
use cg_print::{
    CutSink, EntryWriteFault, append_entry, append_item, print_file, print_setting, write_entry,
};
use cg_program::parse_words;
use cg_run::{Command, CutSource, Outcome, run, status};
use cg_snap::{
    Event, Limits, Progress, Pulled, SnapshotDecoder, Stop, StreamFault, Why, decode_snapshot,
};
use cg_text::{Key, KeyFault, NumberSet, OutOfMemory};
use cg_value::{Entry, Flat, FlatRefused, PlanItem, Profile, Setting, Value};
use std::alloc::{AllocError, Global};
use std::test::Fail;

/// The blocks that keep the heap starved.
pub(crate) type Blocks = Vec<Vec<u8>>;

/// Takes blocks of this size as long as there are any.
fn take_blocks(alloc: Global, held: &mut Blocks, size: usize) -> Result<(), AllocError> {
    for _ in 0..20000 {
        match Vec::with_capacity(alloc, size) {
            Ok(block) => held.push(block)?,
            Err(_) => return Ok(()),
        }
    }
    Ok(())
}

/// Takes all memory that is to be had, in blocks of falling size: of halves, and at last of each size of which the heap
/// may keep a freed block that serves no other.
pub(crate) fn hog(alloc: Global) -> Result<Blocks, AllocError> {
    let mut held: Blocks = Vec::with_capacity(alloc, 400000)?;
    let mut size: usize = 17179869184;
    for _ in 0..100 {
        take_blocks(alloc, &mut held, size)?;
        if size < 32 {
            break;
        }
        size = if size > 1024 { size / 2 } else { size - 16 };
    }
    Ok(held)
}

/// Calls that are made whole again after a refusal.
#[derive(Clone, Copy, Debug)]
enum Call {
    DecodeFile,
    DecodeSetting,
    MakeKey,
    PrintFile,
    PrintSetting,
    WriteEntry,
    DecodeSnapshot,
    CopyEntry,
    CopySet,
    CopyFlat,
    ParseWords,
    Run(usize),
}

/// A command, by its word and the name of its file, with its input and what it writes.
#[derive(Clone, Copy)]
struct Run {
    word: &'static str,
    name: &'static [u8],
    input: &'static [u8],
    output: &'static [u8],
}

/// Runs that want memory.
const RUNS: [Run; 11] = [
    Run {
        word: "file",
        name: b"cpu.weight",
        input: b"10000\n",
        output: b"10000\n",
    },
    Run {
        word: "file",
        name: b"cpuset.cpus",
        input: b"65534,",
        output: b"cgfile: refused at 5: line\n",
    },
    Run {
        word: "file",
        name: b"cgroup.procs",
        input: b"7\n0\n7\n",
        output: b"7\n0\n7\n",
    },
    Run {
        word: "file",
        name: b"hugetlb.2MB.max",
        input: b"ab\nc\n",
        output: b"ab\nc\n",
    },
    Run {
        word: "setting",
        name: b"cpuset.cpus",
        input: b"9,3-5,4\n",
        output: b"3-5,9\n",
    },
    Run {
        word: "setting",
        name: b"hugetlb.2MB.max",
        input: b"ab\n",
        output: b"ab\n",
    },
    Run {
        word: "show",
        name: b"",
        input: TWO_FILES,
        output: b"cpu.max: max 100000\ncpu.max.burst: 0\n",
    },
    Run {
        word: "show",
        name: b"",
        input: LINE_TOO_MANY,
        output: b"cgfile: refused at 26: no more lines\n",
    },
    Run {
        word: "plan",
        name: b"",
        input: b"memory.max\015E\n",
        output: b"memory.max\017293822569102704640\n",
    },
    Run {
        word: "json",
        name: b"",
        input: BOUND,
        output: BOUND_LINE,
    },
    Run {
        word: "check",
        name: b"",
        input: DELEGATED,
        output: b"C2 r/a/cgroup.subtree_control io\nC3 r/a/cgroup.subtree_control io\n",
    },
];

/// What the calls are made on.
#[derive(Drop)]
struct Given {
    entry: Entry,
    entries: Vec<Entry>,
    set: NumberSet,
    flat: Flat,
    words: Vec<String>,
    /// Those of `RUNS`.
    commands: Vec<Command>,
}

/// Whether a file is refused at its byte 5.
fn decodes_file(alloc: Global) -> Option<bool> {
    match decode_file(alloc, Profile::One, b"cpuset.cpus", b"0-3,4\n") {
        Err(FileFault::OutOfMemory) => None,
        Err(fault) => Some(fault == FileFault::Refused { at: 5 }),
        Ok(_value) => Some(false),
    }
}

/// Whether a write of the set 3-5,9 is read.
fn decodes_setting(alloc: Global) -> Option<bool> {
    match decode_setting(alloc, Profile::One, b"cpuset.cpus", b"9,3-5,4\n") {
        Err(SettingFault::OutOfMemory) => None,
        Ok(Setting::Set(set)) => Some(set.ranges() == [(3, 5), (9, 9)].as_slice()),
        _ => Some(false),
    }
}

/// Whether a key is made that is too long to lie in itself.
fn makes_key(alloc: Global) -> Option<bool> {
    let long: &[u8] = b"a_key_that_has_its_vector";
    match Key::new(alloc, long) {
        Ok(key) => Some(key.bytes() == long),
        Err(KeyFault::OutOfMemory) => None,
        Err(KeyFault::BadKey) => Some(false),
    }
}

/// Whether this text is printed.
pub(crate) fn is_printed(printed: Result<Vec<u8>, OutOfMemory>, wanted: &[u8]) -> Option<bool> {
    match printed {
        Ok(text) => Some(text.as_slice() == wanted),
        Err(OutOfMemory) => None,
    }
}

/// Whether the records of an entry are written, and without memory nothing is.
fn writes_entry(alloc: Global, entry: &Entry) -> Option<bool> {
    let mut sink = CutSink::new(usize::MAX, 4096);
    match write_entry(alloc, entry, &mut sink) {
        Ok(()) => Some(sink.bytes() == b"cpu.idle\01\n".as_slice()),
        Err(EntryWriteFault::OutOfMemory) if sink.bytes().is_empty() => None,
        Err(_fault) => Some(false),
    }
}

/// Whether a snapshot has these entries.
fn decodes_snapshot(alloc: Global, wanted: &[Entry]) -> Option<bool> {
    match decode_snapshot(alloc, Profile::One, Limits::DEFAULT, RAW_AND_REASON) {
        Ok(entries) => Some(are_same(entries.as_slice(), wanted)),
        Err(StreamFault::OutOfMemory) => None,
        Err(StreamFault::Stopped(_stop)) => Some(false),
    }
}

/// Whether an entry is copied.
fn copies_entry(alloc: Global, entry: &Entry) -> Option<bool> {
    match entry.copy(alloc) {
        Ok(copy) => Some(copy.path() == entry.path() && copy.value() == entry.value()),
        Err(OutOfMemory) => None,
    }
}

/// Whether a set is copied.
fn copies_set(alloc: Global, set: &NumberSet) -> Option<bool> {
    match set.copy(alloc) {
        Ok(copy) => Some(copy == *set),
        Err(OutOfMemory) => None,
    }
}

/// Whether pairs are copied.
fn copies_flat(alloc: Global, flat: &Flat) -> Option<bool> {
    match flat.copy(alloc) {
        Ok(copy) => Some(copy == *flat),
        Err(OutOfMemory) => None,
    }
}

/// Whether this is the command `file cpu.max` in the first profile, with the limits that are meant where none is given.
fn is_file_cpu_max(profile: Profile, command: &Command, limits: Limits) -> bool {
    let is_named = match command {
        Command::File { name } => name.as_slice() == b"cpu.max".as_slice(),
        _ => false,
    };
    is_named && profile == Profile::One && limits == Limits::DEFAULT
}

/// Whether the words `file`, `cpu.max` are read. Without memory they may be refused otherwise, but never be another
/// command.
fn parses_words(alloc: Global, words: &[String]) -> Option<bool> {
    match parse_words(alloc, words) {
        Ok(parsed) => Some(is_file_cpu_max(parsed.0, &parsed.1, parsed.2)),
        Err(_) => None,
    }
}

/// The last line of a run for which no memory was left.
const WANT_OF_MEMORY: &[u8] = b"cgfile: out of memory\n";

/// Whether a run for which no memory was left wrote first lines of its output but not all, none where it writes all at
/// the end, and then its last line.
fn is_want_told(case: &Run, written: &[u8]) -> bool {
    let at = written.len().saturating_sub(WANT_OF_MEMORY.len());
    let (front, line) = written.split_at(at);
    let is_begun = match case.word {
        "file" | "setting" => front.is_empty(),
        _ => case.output.starts_with(front) && front != case.output,
    };
    is_begun && (front.is_empty() || front.ends_with(b"\n")) && line == WANT_OF_MEMORY
}

/// Whether a run of this command writes what it is to write, or that no memory was left.
fn runs(alloc: Global, command: &Command, case: &Run) -> Option<bool> {
    let mut source = CutSource::new(case.input, usize::MAX, 4096);
    let mut sink = CutSink::new(usize::MAX, 4096);
    let outcome = run(
        alloc,
        Profile::One,
        command,
        &mut source,
        &mut sink,
        Limits::DEFAULT,
    );
    if outcome != Outcome::OutOfMemory {
        return Some(sink.bytes() == case.output);
    }
    let is_told = is_want_told(case, sink.bytes()) && status(&outcome) == 4;
    if is_told { None } else { Some(false) }
}

/// Whether the answer is right; none where memory was refused.
fn tried(call: Call, alloc: Global, given: &Given) -> Option<bool> {
    match call {
        Call::DecodeFile => decodes_file(alloc),
        Call::DecodeSetting => decodes_setting(alloc),
        Call::MakeKey => makes_key(alloc),
        Call::PrintFile => is_printed(print_file(alloc, &Value::Number(10000)), b"10000\n"),
        Call::PrintSetting => is_printed(print_setting(alloc, &PAIRS), b"8:16 rbps=max wiops=7\n"),
        Call::WriteEntry => writes_entry(alloc, &given.entry),
        Call::DecodeSnapshot => decodes_snapshot(alloc, given.entries.as_slice()),
        Call::CopyEntry => copies_entry(alloc, &given.entry),
        Call::CopySet => copies_set(alloc, &given.set),
        Call::CopyFlat => copies_flat(alloc, &given.flat),
        Call::ParseWords => parses_words(alloc, given.words.as_slice()),
        Call::Run(place) => match (given.commands.as_slice().get(place), RUNS.get(place)) {
            (Some(command), Some(case)) => runs(alloc, command, case),
            _ => Some(false),
        },
    }
}

/// The set 3-5,9.
fn three_to_five_and_nine(alloc: Global) -> Result<NumberSet, OutOfMemory> {
    let mut set = NumberSet::new(alloc);
    set.insert_range(9, 9)?;
    set.insert_range(3, 5)?;
    Ok(set)
}

/// One pair, whose key is too long to lie in itself.
fn one_pair(alloc: Global) -> Result<Flat, Fail> {
    let mut flat = Flat::new(alloc);
    let key = Key::new(alloc, b"a_key_that_has_its_vector")?;
    flat.push(key, 1)?;
    Ok(flat)
}

/// The words of a command line.
fn two_words(alloc: Global) -> Result<Vec<String>, AllocError> {
    let first = String::from_str(alloc, "file")?;
    let second = String::from_str(alloc, "cpu.max")?;
    let words = vec![in alloc; first, second]?;
    Ok(words)
}

/// The command of this word, for the file of this name where it takes one.
fn command_of(alloc: Global, word: &str, name: &[u8]) -> Result<Command, AllocError> {
    let name = Vec::from_slice(alloc, name)?;
    Ok(match word {
        "file" => Command::File { name },
        "setting" => Command::Setting { name },
        "show" => Command::Show,
        "json" => Command::Json,
        "check" => Command::Check,
        _ => Command::Plan,
    })
}

/// The commands of `RUNS`.
fn commands(alloc: Global) -> Result<Vec<Command>, AllocError> {
    let mut commands = Vec::new(alloc);
    for case in &RUNS {
        let command = command_of(alloc, case.word, case.name)?;
        commands.push(command)?;
    }
    Ok(commands)
}

/// An entry, and two others.
fn entries_given(alloc: Global) -> Result<(Entry, Vec<Entry>), Fail> {
    let entries = raw_and_reason(alloc)?;
    let entry = idle(alloc)?;
    Ok((entry, entries))
}

/// What the calls are made on.
fn all_given(alloc: Global) -> Result<Given, Fail> {
    let words = two_words(alloc)?;
    let commands = commands(alloc)?;
    let set = three_to_five_and_nine(alloc)?;
    let flat = one_pair(alloc)?;
    let (entry, entries) = entries_given(alloc)?;
    Ok(Given {
        entry,
        entries,
        set,
        flat,
        words,
        commands,
    })
}

/// How often a call was refused until it was answered, and whether it was answered right.
fn refusals_of(call: Call, alloc: Global, given: &Given) -> Result<(u64, bool), AllocError> {
    let mut held = hog(alloc)?;
    let mut refusals: u64 = 0;
    for _ in 0..5000 {
        if let Some(is_right) = tried(call, alloc, given) {
            return Ok((refusals, is_right));
        }
        refusals = refusals.saturating_add(1);
        let _ = held.pop();
    }
    Ok((refusals, false))
}

/// Each call is made once before the heap is ever starved, so that the stack has grown to what it needs: later it
/// couldn't.
#[test]
fn whole_calls(rt: HostRuntime) -> Result<(), Fail> {
    let given = all_given(rt.alloc())?;
    let calls = [
        Call::DecodeFile,
        Call::DecodeSetting,
        Call::MakeKey,
        Call::PrintFile,
        Call::PrintSetting,
        Call::WriteEntry,
        Call::DecodeSnapshot,
        Call::CopyEntry,
        Call::CopySet,
        Call::CopyFlat,
        Call::ParseWords,
        Call::Run(0),
        Call::Run(1),
        Call::Run(2),
        Call::Run(3),
        Call::Run(4),
        Call::Run(5),
        Call::Run(6),
        Call::Run(7),
        Call::Run(8),
        Call::Run(9),
        Call::Run(10),
    ];
    for call in &calls {
        assert!(rt; tried(*call, rt.alloc(), &given) == Some(true), "{call:?}");
    }
    for call in calls {
        let (refusals, is_right) = refusals_of(call, rt.alloc(), &given)?;
        assert!(rt; is_right && refusals > 0, "{call:?} {refusals}");
    }
    Ok(())
}

/// Inserts a range once there is memory, of which a block is given back after each refusal. Answers how often memory
/// was refused, and whether the set was as before each time.
fn insert_starved(set: &mut NumberSet, held: &mut Blocks, first: u32, last: u32) -> (u64, bool)
    requires { first ≤ last }
{
    let mut refusals: u64 = 0;
    let before = set.len();
    for _ in 0..5000 {
        if set.insert_range(first, last).is_ok() {
            return (refusals, true);
        }
        if set.len() != before {
            return (refusals, false);
        }
        refusals = refusals.saturating_add(1);
        let _ = held.pop();
    }
    (refusals, false)
}

#[test]
fn ranges(rt: HostRuntime) -> Result<(), Fail> {
    let mut set = NumberSet::new(rt.alloc());
    let mut held = hog(rt.alloc())?;
    let (first, is_sound) = insert_starved(&mut set, &mut held, 8, 10);
    let (_, is_next_sound) = insert_starved(&mut set, &mut held, 0, 4);
    let (_, is_last_sound) = insert_starved(&mut set, &mut held, 6, 6);
    drop(held);
    assert!(rt; first > 0 && is_sound && is_next_sound && is_last_sound);
    assert!(rt; set.ranges() == [(0, 4), (6, 6), (8, 10)].as_slice());
    assert_eq!(rt; set.len(), 9);
    Ok(())
}

/// The key of a pair that wasn't added for want of memory.
fn key_back(pushed: Result<(), FlatRefused>) -> Option<Key> {
    match pushed {
        Err(FlatRefused::OutOfMemory(key)) => Some(key),
        _ => None,
    }
}

/// Pairs whose growth was refused are unchanged, the key is handed back, and goes in once there is memory.
#[test]
fn pairs(rt: HostRuntime) -> Result<(), Fail> {
    let mut flat = Flat::new(rt.alloc());
    let first = Key::new(rt.alloc(), b"anon")?;
    let mut next = Some(first);
    let mut held = hog(rt.alloc())?;
    let mut refusals: u64 = 0;
    for _ in 0..5000 {
        let Some(key) = next.take() else {
            break;
        };
        next = key_back(flat.push(key, 1));
        if next.is_some() {
            refusals = refusals.saturating_add(1);
            let _ = held.pop();
        }
    }
    drop(held);
    assert!(rt; refusals > 0);
    assert_eq!(rt; flat.get(b"anon"), Some(1));
    Ok(())
}

/// What is added to bytes.
#[derive(Drop)]
enum Added {
    Entry(Entry),
    Item(PlanItem),
}

/// Whether this is added.
fn is_added(out: &mut Vec<u8>, added: &Added) -> bool {
    match added {
        Added::Entry(entry) => append_entry(out, entry).is_ok(),
        Added::Item(item) => append_item(out, item).is_ok(),
    }
}

/// Adds this to `x` once there is memory, of which a block is given back after each refusal. Answers how often memory
/// was refused, and whether the bytes were as before each time.
fn add_starved(out: &mut Vec<u8>, held: &mut Blocks, added: &Added) -> (u64, bool) {
    let mut refusals: u64 = 0;
    for _ in 0..5000 {
        if is_added(out, added) {
            return (refusals, true);
        }
        if out.as_slice() != b"x".as_slice() {
            return (refusals, false);
        }
        refusals = refusals.saturating_add(1);
        let _ = held.pop();
    }
    (refusals, false)
}

/// Whether this is added to `x` with these bytes, also where memory was refused before.
fn adds(alloc: Global, added: &Added, wanted: &[u8]) -> Result<bool, AllocError> {
    let mut ample = b"x".to_vec(alloc)?;
    let is_first = is_added(&mut ample, added);
    let mut out = b"x".to_vec(alloc)?;
    let mut held = hog(alloc)?;
    let (refusals, is_kept) = add_starved(&mut out, &mut held, added);
    let is_right = ample.as_slice() == wanted && out.as_slice() == wanted;
    Ok(is_first && is_kept && is_right && refusals > 0)
}

#[test]
fn added_records(rt: HostRuntime) -> Result<(), Fail> {
    let entry = idle(rt.alloc())?;
    let is_so = adds(rt.alloc(), &Added::Entry(entry), b"xcpu.idle\01\n")?;
    assert!(rt; is_so);
    let item = memory_bound(rt.alloc())?;
    let wanted = b"xmemory.max\017293822569102704640\n";
    let is_so = adds(rt.alloc(), &Added::Item(item), wanted)?;
    assert!(rt; is_so);
    Ok(())
}

/// What a decoder tells of a piece from this place on, where it's called again with the rest of it after each refusal
/// of memory, for which a block is given back. With it comes the place up to which bytes were consumed.
fn next_starved(
    snapshot: &mut SnapshotDecoder,
    held: &mut Blocks,
    piece: &[u8],
    first: usize,
) -> Pulled {
    let mut used = first;
    for _ in 0..5000 {
        if used > piece.len() {
            break;
        }
        let (_, rest) = piece.split_at(used);
        let pulled = snapshot.next(rest);
        used = used.saturating_add(pulled.used);
        match pulled.what {
            Event::OutOfMemory => {
                let _ = held.pop();
            }
            what => return Progress { used, what },
        }
    }
    Progress {
        used,
        what: Event::OutOfMemory,
    }
}

/// Whether the two entries of a snapshot come where they do.
fn gives_two(alloc: Global, held: &mut Blocks) -> bool {
    let mut snapshot = decoder(alloc);
    let Progress { used, what } = next_starved(&mut snapshot, held, TWO_FILES, 0);
    let first = match what {
        Event::Given(entry) => Some(entry),
        _ => None,
    };
    let rest = next_starved(&mut snapshot, held, TWO_FILES, used);
    let is_all = rest.used == 35 && matches!(&rest.what, Event::NeedMore);
    let last = last_entry(snapshot);
    used == 33
        && is_all
        && is_entry(&first, b"cpu.max", &UNBOUNDED)
        && is_entry(&last, b"cpu.max.burst", &Value::Number(0))
}

/// Whether a snapshot stops where it does.
fn stops_at_line(alloc: Global, held: &mut Blocks) -> bool {
    let mut snapshot = decoder(alloc);
    let refused = Stop::Refused {
        at: 26,
        why: Why::NoMoreLines,
    };
    let pulled = next_starved(&mut snapshot, held, LINE_TOO_MANY, 0);
    let is_stopped = match pulled.what {
        Event::Stopped(stop) => stop == refused,
        _ => false,
    };
    let is_here = pulled.used == 26 && snapshot.offset() == 26;
    is_stopped && is_here && ending(snapshot) == Err(refused)
}

/// Whether the entry is the one that stands at this place.
fn is_at(entries: &[Entry], place: usize, entry: &Entry) -> bool {
    match entries.get(place) {
        Some(wanted) => entry.path() == wanted.path() && entry.value() == wanted.value(),
        None => false,
    }
}

/// How many entries came after one more piece, where the decoder goes on or gives the next one of these.
fn given_after(
    snapshot: &mut SnapshotDecoder,
    held: &mut Blocks,
    piece: &[u8],
    entries: &[Entry],
    place: usize,
) -> Option<usize> {
    match next_starved(snapshot, held, piece, 0).what {
        Event::NeedMore => Some(place),
        Event::Given(entry) => { is_at(entries, place, &entry).then_some(place.saturating_add(1)) }
        _ => None,
    }
}

/// Whether the end gives the last of these entries, which has this place.
fn ends_at(snapshot: SnapshotDecoder, entries: &[Entry], place: usize) -> bool {
    match last_entry(snapshot) {
        Some(last) => is_at(entries, place, &last) && entries.len() == place.saturating_add(1),
        None => false,
    }
}

/// Whether a snapshot in pieces of one byte gives these entries.
fn gives_by_bytes(alloc: Global, held: &mut Blocks, entries: &[Entry]) -> bool {
    let mut snapshot = decoder(alloc);
    let mut place: usize = 0;
    for piece in RAW_AND_REASON.chunks(1) {
        match given_after(&mut snapshot, held, piece, entries, place) {
            Some(next) => place = next,
            None => return false,
        }
    }
    ends_at(snapshot, entries, place)
}

#[test]
fn decoders_by_bytes(rt: HostRuntime) -> Result<(), Fail> {
    let entries = raw_and_reason(rt.alloc())?;
    let mut none = Vec::new(rt.alloc());
    let is_ample = gives_by_bytes(rt.alloc(), &mut none, entries.as_slice());
    assert!(rt; is_ample);
    let mut held = hog(rt.alloc())?;
    let all = held.len();
    let is_right = gives_by_bytes(rt.alloc(), &mut held, entries.as_slice());
    let left = held.len();
    drop(held);
    assert!(rt; is_right && left < all);
    Ok(())
}

/// Decoders whose growth was refused go on as with ample memory, with which each is run before.
#[test]
fn decoders(rt: HostRuntime) -> Result<(), Fail> {
    let mut none = Vec::new(rt.alloc());
    let is_first = gives_two(rt.alloc(), &mut none);
    let is_second = stops_at_line(rt.alloc(), &mut none);
    assert!(rt; is_first && is_second);
    let mut held = hog(rt.alloc())?;
    let all = held.len();
    let is_first = gives_two(rt.alloc(), &mut held);
    let left = held.len();
    drop(held);
    assert!(rt; is_first && left < all);
    let mut held = hog(rt.alloc())?;
    let all = held.len();
    let is_second = stops_at_line(rt.alloc(), &mut held);
    let left = held.len();
    drop(held);
    assert!(rt; is_second && left < all);
    Ok(())
}
