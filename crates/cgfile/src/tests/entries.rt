//! Entries and items of plans: which are refused, and what the others give back.
use crate::tests::snapshots::{entry, item};
use cg_text::Items;
use cg_value::{Entry, EntryFault, ItemFault, PlanItem, Profile, Setting, Value};
use std::alloc::Global;
use std::test::Fail;

/// Why a path and its value are refused as an entry, where the path is handed back.
fn entry_refusal(alloc: Global, path: &str, value: Value) -> Result<Option<EntryFault>, Fail> {
    let given = path.as_bytes().to_vec(alloc)?;
    match Entry::new(Profile::One, given, value) {
        Ok(_entry) => Ok(None),
        Err(refused) => {
            let is_back = refused.path.as_slice() == path.as_bytes();
            Ok(is_back.then_some(refused.why))
        }
    }
}

#[test]
fn refused_entries(rt: HostRuntime) -> Result<(), Fail> {
    let rows = [
        ("a/", 1, EntryFault::BadPath),
        ("cgroup.kill", 1, EntryFault::NotReadable),
        ("cpu.weight", 10001, EntryFault::WrongKind),
    ];
    for (path, number, why) in rows {
        let fault = entry_refusal(rt.alloc(), path, Value::Number(number))?;
        assert_eq!(rt; fault, Some(why), "{path}");
    }
    let none = Value::Numbers(Items::new(rt.alloc()));
    let fault = entry_refusal(rt.alloc(), "cgroup.procs", none)?;
    assert_eq!(rt; fault, Some(EntryFault::NoLines));
    Ok(())
}

#[test]
fn entries(rt: HostRuntime) -> Result<(), Fail> {
    let entry = entry(rt.alloc(), b"a/cpu.idle", Value::Number(1))?;
    let copy = entry.copy(rt.alloc())?;
    assert!(rt; copy.path() == b"a/cpu.idle".as_slice());
    assert!(rt; copy.name() == b"cpu.idle".as_slice());
    assert!(rt; copy.value() == entry.value());
    Ok(())
}

/// Why a path and a number are refused as an item, where both are handed back.
fn item_refusal(alloc: Global, path: &str, number: u64) -> Result<Option<ItemFault>, Fail> {
    let given = path.as_bytes().to_vec(alloc)?;
    match PlanItem::new(Profile::One, given, Setting::Number(number)) {
        Ok(_item) => Ok(None),
        Err(refused) => {
            let is_path = refused.path.as_slice() == path.as_bytes();
            let is_back = is_path && refused.setting == Setting::Number(number);
            Ok(is_back.then_some(refused.why))
        }
    }
}

#[test]
fn refused_items(rt: HostRuntime) -> Result<(), Fail> {
    let rows = [
        ("a/", 1, ItemFault::BadPath),
        ("cpu.stat", 1, ItemFault::NotWritable),
        ("cpu.weight", 0, ItemFault::WrongKind),
    ];
    for (path, number, why) in rows {
        let fault = item_refusal(rt.alloc(), path, number)?;
        assert_eq!(rt; fault, Some(why), "{path}");
    }
    Ok(())
}

#[test]
fn plan_items(rt: HostRuntime) -> Result<(), Fail> {
    let item = item(rt.alloc(), b"a/cpu.weight", Setting::Number(1))?;
    assert!(rt; item.path() == b"a/cpu.weight".as_slice());
    assert!(rt; item.name() == b"cpu.weight".as_slice());
    assert!(rt; *item.setting() == Setting::Number(1));
    Ok(())
}
