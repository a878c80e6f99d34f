//! Sets, keys, pairs and values that no command makes otherwise than from a text.
use cg_line::decode_file;
use cg_text::{Device, Key, KeyFault, NumberSet, OutOfMemory};
use cg_value::{Flat, FlatBuilder, FlatRefused, Profile, Value};
use std::alloc::Global;
use std::test::Fail;

#[test]
fn ranges_merge(rt: HostRuntime) -> Result<(), OutOfMemory> {
    let mut set = NumberSet::new(rt.alloc());
    set.insert_range(8, 10)?;
    set.insert_range(0, 4)?;
    set.insert_range(6, 6)?;
    assert!(rt; set.ranges() == [(0, 4), (6, 6), (8, 10)].as_slice());
    assert_eq!(rt; set.len(), 9);
    assert!(rt; set.contains(10) && !set.contains(5) && !set.contains(11));
    set.insert_range(5, 5)?;
    assert!(rt; set.ranges() == [(0, 6), (8, 10)].as_slice());
    assert_eq!(rt; set.len(), 10);
    let copy = set.copy(rt.alloc())?;
    assert!(rt; copy == set);
    Ok(())
}

/// Why bytes are no key, none where the key has them.
fn key_fault(alloc: Global, bytes: &[u8]) -> Option<KeyFault> {
    match Key::new(alloc, bytes) {
        Ok(key) => (key.bytes() != bytes).then_some(KeyFault::OutOfMemory),
        Err(fault) => Some(fault),
    }
}

#[test]
fn keys(rt: HostRuntime) -> Result<(), KeyFault> {
    let rows: [(&[u8], Option<KeyFault>); 7] = [
        (b"anon", None),
        (b"nr_dying", None),
        (b"!~", None),
        (b"", Some(KeyFault::BadKey)),
        (b"a=b", Some(KeyFault::BadKey)),
        (b"a b", Some(KeyFault::BadKey)),
        (b"a\x7f", Some(KeyFault::BadKey)),
    ];
    for (bytes, fault) in rows {
        assert_eq!(rt; key_fault(rt.alloc(), bytes), fault, "{bytes:?}");
    }
    let key = Key::new(rt.alloc(), b"usage")?;
    let same = Key::new(rt.alloc(), b"usage")?;
    let other = Key::new(rt.alloc(), b"user")?;
    assert!(rt; key == same && key != other);
    Ok(())
}

/// Whether the key is handed back, as one that is there.
fn is_repeated(pushed: Result<(), FlatRefused>, bytes: &[u8]) -> bool {
    match pushed {
        Err(FlatRefused::Repeated(key)) => key.bytes() == bytes,
        _ => false,
    }
}

#[test]
fn pairs_of_keys(rt: HostRuntime) -> Result<(), Fail> {
    let mut flat = Flat::new(rt.alloc());
    let key = Key::new(rt.alloc(), b"anon")?;
    let again = Key::new(rt.alloc(), b"anon")?;
    flat.push(key, 1)?;
    assert!(rt; is_repeated(flat.push(again, 2), b"anon"));
    assert_eq!(rt; flat.get(b"anon"), Some(1));
    assert_eq!(rt; flat.get(b"file"), None);
    assert_eq!(rt; flat.pairs().len(), 1);
    // A place and the key's four bytes.
    assert_eq!(rt; flat.held(), 5);
    Ok(())
}

/// As many pairs, of which the number is the key's place, neither in the order of the keys nor in the reverse order.
fn filled(alloc: Global, count: u32) -> Result<Flat, Fail> {
    let mut flat = FlatBuilder::new(alloc);
    for place in 0..count {
        let number = u64::from(place) * 3 % u64::from(count);
        let name = format!(in alloc; "key{number}")?;
        let key = Key::new(alloc, name.as_bytes())?;
        flat.reserve()?;
        flat.push(key, u64::from(place))?;
    }
    Ok(flat.finish())
}

/// Whether the key of each pair is found at its place, by at most so many comparisons.
fn finds_each(flat: &Flat, most: u64) -> bool {
    flat.pairs().iter().enumerate().all(|(place, cell)| {
        let pair = &cell.item;
        let found = flat.find(pair.key.bytes());
        found.place == Some(place)
            && found.compares <= most
            && flat.get(pair.key.bytes()) == Some(pair.number)
    })
}

#[test]
fn compares_are_few(rt: HostRuntime) -> Result<(), Fail> {
    for (count, most) in [(0, 0), (1, 1), (7, 3), (8, 4), (1000, 10)] {
        let flat = filled(rt.alloc(), count)?;
        let other = flat.find(b"other");
        assert_eq!(rt; other.place, None);
        assert!(rt;
            other.compares <= most && finds_each(&flat, most),
            "{count}"
        );
    }
    Ok(())
}

/// The value of a file of the first profile.
fn value_of(alloc: Global, name: &[u8], text: &[u8]) -> Result<Value, Fail> {
    let value = decode_file(alloc, Profile::One, name, text)?;
    Ok(value)
}

const DISK: Device = Device { major: 8, minor: 0 };

const OTHER: Device = Device {
    major: 8,
    minor: 16,
};

#[test]
fn weights_are_looked_up(rt: HostRuntime) -> Result<(), Fail> {
    let weights = value_of(rt.alloc(), b"io.weight", b"default 100\n8:16 200\n")?;
    assert_eq!(rt; weights.weight_of(OTHER), Some(200));
    assert_eq!(rt; weights.weight_of(DISK), Some(100));
    assert_eq!(rt; weights.amount_of(DISK, b"rbytes"), None);
    assert_eq!(rt; weights.number_of(b"rbytes"), None);
    assert_eq!(rt; weights.line_count(), 2);
    Ok(())
}
