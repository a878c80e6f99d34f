//! Bytes and a word, given to readers and tokens with the heap starved: after each refusal one block is given back, and
//! the byte is given again.
use crate::tests::starved::hog;
use cg_line::{PushFault, SettingReader, ValueReader};
use cg_text::{Items, Pushed, StrictListText, Token, WordText};
use cg_value::{Profile, Setting, Value, read_kind, write_kind};
use std::alloc::{AllocError, Global};
use std::test::Fail;

/// What takes bytes.
trait Taking {
    /// Whether the byte is taken; none where memory was refused, and then nothing has changed.
    fn take(&mut self, byte: u8) -> Option<bool>;
}

/// Whether a pushed byte is taken.
fn is_taken(pushed: Result<(), PushFault>) -> Option<bool> {
    match pushed {
        Ok(()) => Some(true),
        Err(PushFault::Refused) => Some(false),
        Err(PushFault::OutOfMemory) => None,
    }
}

impl Taking for ValueReader {
    fn take(&mut self, byte: u8) -> Option<bool> {
        is_taken(self.push(byte))
    }
}

impl Taking for SettingReader {
    fn take(&mut self, byte: u8) -> Option<bool> {
        is_taken(self.push(byte))
    }
}

impl Taking for StrictListText {
    fn take(&mut self, byte: u8) -> Option<bool> {
        self.step(byte).ok()
    }
}

impl Taking for Items<u8> {
    fn take(&mut self, byte: u8) -> Option<bool> {
        self.push(byte).is_ok().then_some(true)
    }
}

/// Whether all bytes are taken, and memory was refused before.
fn takes_starved<T: Taking>(
    alloc: Global,
    taking: &mut T,
    bytes: &[u8],
) -> Result<bool, AllocError> {
    let mut held = hog(alloc)?;
    let mut refusals: u64 = 0;
    let mut at = 0;
    for _ in 0..5000 {
        if at >= bytes.len() {
            break;
        }
        match taking.take(bytes[at]) {
            Some(true) => at += 1,
            Some(false) => return Ok(false),
            None => {
                refusals = refusals.saturating_add(1);
                let _ = held.pop();
            }
        }
    }
    Ok(refusals > 0 && at == bytes.len())
}

/// Whether a file ends with a set of these ranges.
fn ends_with(reader: ValueReader, ranges: &[(u32, u32)]) -> bool {
    match reader.finish() {
        Ok(Value::Set(set)) => set.ranges() == ranges,
        _ => false,
    }
}

/// Whether a write ends with a set of these ranges.
fn is_written(reader: SettingReader, ranges: &[(u32, u32)]) -> bool {
    match reader.finish() {
        Ok(Setting::Set(set)) => set.ranges() == ranges,
        _ => false,
    }
}

#[test]
fn files(rt: HostRuntime) -> Result<(), Fail> {
    let kind = read_kind(Profile::One, b"cpuset.cpus")?;
    let mut reader = ValueReader::new(rt.alloc(), kind);
    let is_taken = takes_starved(rt.alloc(), &mut reader, b"0-3,5\n")?;
    assert!(rt; is_taken);
    assert!(rt; ends_with(reader, &[(0, 3), (5, 5)]));
    Ok(())
}

#[test]
fn writes(rt: HostRuntime) -> Result<(), Fail> {
    let kind = write_kind(Profile::One, b"cpuset.cpus")?;
    let mut reader = SettingReader::new(rt.alloc(), kind);
    let is_taken = takes_starved(rt.alloc(), &mut reader, b"9,3-5,4\n")?;
    assert!(rt; is_taken);
    assert!(rt; is_written(reader, &[(3, 5), (9, 9)]));
    Ok(())
}

#[test]
fn tokens(rt: HostRuntime) -> Result<(), Fail> {
    let mut token = StrictListText::new(rt.alloc(), 65535);
    let is_taken = takes_starved(rt.alloc(), &mut token, b"0-3,5")?;
    assert!(rt; is_taken);
    assert!(rt; token.can_end());
    Ok(())
}

/// Of a word, the bytes at hand are taken all at once; where there is no room for them, none of them is.
#[test]
fn words(rt: HostRuntime) -> Result<(), Fail> {
    let word = b"hierarchical_memory_limit.and_what_comes_behind_it";
    let mut token = WordText::new(rt.alloc(), false);
    let held = hog(rt.alloc())?;
    let starved = token.push(word);
    let is_begun = token.can_end();
    drop(held);
    assert!(rt; starved == Pushed::Starved(0) && !is_begun, "{starved:?}");
    assert!(rt; token.push(word) == Pushed::All && token.can_end());
    Ok(())
}

#[test]
fn items(rt: HostRuntime) -> Result<(), Fail> {
    let mut items = Items::new(rt.alloc());
    let is_taken = takes_starved(rt.alloc(), &mut items, b"abc")?;
    assert!(rt; is_taken);
    assert!(rt; items.as_slice() == b"abc".as_slice());
    Ok(())
}
