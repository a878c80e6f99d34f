//! Calls on values, made from texts.
use crate::escape::bytes_of;
use crate::row::RowFault;
use crate::token::spelled;
use cg_join::DeviceText;
use cg_line::{FileFault, UpgradeFault, decode_file, upgrade, upgrade_to};
use cg_print::append_entry;
use cg_snap::{EncodeFault, Limits, decode_snapshot, encode_snapshot};
use cg_text::{Amount, Device};
use cg_value::{Entry, Profile};
use std::alloc::{AllocError, Global};
use std::fmt::Display;

/// Adds the entries of a snapshot of the first profile.
fn add_entries(alloc: Global, entries: &mut Vec<Entry>, field: &str) -> Result<(), RowFault> {
    let text = bytes_of(alloc, field)?;
    match decode_snapshot(alloc, Profile::One, Limits::DEFAULT, text.as_slice()) {
        Ok(mut more) => Ok(entries.append(&mut more)?),
        Err(_) => Err(RowFault::BadPlace),
    }
}

/// The entries of the snapshots of all fields.
fn entries_of(alloc: Global, fields: &[&str]) -> Result<Vec<Entry>, RowFault> {
    let mut entries = Vec::new(alloc);
    for field in fields {
        add_entries(alloc, &mut entries, field)?;
    }
    Ok(entries)
}

/// The text of a fault.
fn text_of<F: Display + Drop>(alloc: Global, fault: F) -> Result<Vec<u8>, AllocError> {
    Ok(format!(in alloc; "{fault}")?.into_bytes())
}

/// The entry as the profile reads it.
fn upgraded_to(alloc: Global, to: Profile, entry: &Entry) -> Result<Entry, UpgradeFault> {
    match to {
        Profile::Two => upgrade(alloc, entry),
        _ => upgrade_to(alloc, to, entry),
    }
}

/// Adds the records of the entry as the profile reads it.
fn add_upgraded(
    alloc: Global,
    records: &mut Vec<u8>,
    to: Profile,
    entry: &Entry,
) -> Result<(), UpgradeFault> {
    match upgraded_to(alloc, to, entry) {
        Ok(other) => append_entry(records, &other).or(Err(UpgradeFault::OutOfMemory)),
        Err(fault) => Err(fault),
    }
}

/// The records of the entries as the profile reads them, or why one of them has no such form.
fn upgraded(alloc: Global, to: Profile, entries: &[Entry]) -> Result<Vec<u8>, RowFault> {
    let mut records = Vec::new(alloc);
    for entry in entries {
        if let Err(fault) = add_upgraded(alloc, &mut records, to, entry) {
            return Ok(text_of(alloc, fault)?);
        }
    }
    Ok(records)
}

/// The snapshot of the entries, or why there is none.
fn encoded(alloc: Global, entries: &[Entry]) -> Result<Vec<u8>, RowFault> {
    match encode_snapshot(alloc, entries) {
        Ok(text) => Ok(text),
        Err(fault) => Ok(text_of(alloc, fault)?),
    }
}

/// Whether the entries of the snapshots are upgraded to the profile as the last field says.
pub(crate) fn upgrades(alloc: Global, to: Profile, fields: &[&str]) -> Result<bool, RowFault> {
    let [snapshots @ .., answer] = fields else {
        return Err(RowFault::Fields);
    };
    let entries = entries_of(alloc, snapshots)?;
    let text = upgraded(alloc, to, entries.as_slice())?;
    let wanted = bytes_of(alloc, answer)?;
    Ok(text.as_slice() == wanted.as_slice())
}

/// Whether the entries of the snapshots are encoded as the last field says.
pub(crate) fn encodes(alloc: Global, fields: &[&str]) -> Result<bool, RowFault> {
    let [snapshots @ .., answer] = fields else {
        return Err(RowFault::Fields);
    };
    let entries = entries_of(alloc, snapshots)?;
    let text = encoded(alloc, entries.as_slice())?;
    let wanted = bytes_of(alloc, answer)?;
    Ok(text.as_slice() == wanted.as_slice())
}

/// Whether a fault of this name is told so.
pub(crate) fn is_told(alloc: Global, fields: &[&str]) -> Result<bool, RowFault> {
    let [name, wanted] = fields else {
        return Err(RowFault::Fields);
    };
    let text = match *name {
        "upgrade_line" => text_of(alloc, UpgradeFault::Line { line: 3, at: 14 })?,
        "upgrade_memory" => text_of(alloc, UpgradeFault::OutOfMemory)?,
        "encode_path" => text_of(alloc, EncodeFault::SamePath { at: 2 })?,
        "encode_memory" => text_of(alloc, EncodeFault::OutOfMemory)?,
        _ => return Err(RowFault::BadWord),
    };
    Ok(text.as_slice() == wanted.as_bytes())
}

/// The amount of this device and this key that the text of `io.stat` has.
fn amount_in(
    alloc: Global,
    text: &[u8],
    device: Device,
    key: &str,
) -> Result<Option<Amount>, FileFault> {
    let value = decode_file(alloc, Profile::One, b"io.stat", text)?;
    Ok(value.amount_of(device, key.as_bytes()))
}

/// Whether the text of `io.stat` has this amount of a device and a key.
pub(crate) fn has_amount(alloc: Global, fields: &[&str]) -> Result<bool, RowFault> {
    let [text, device, key, wanted] = fields else {
        return Err(RowFault::Fields);
    };
    let text = bytes_of(alloc, text)?;
    let device = spelled(DeviceText::new(), device.as_bytes())?.ok_or(RowFault::BadWord)?;
    let Ok(amount) = amount_in(alloc, text.as_slice(), device, key) else {
        return Err(RowFault::BadPlace);
    };
    let said = format!(in alloc; "{amount:?}")?;
    Ok(said.as_str() == *wanted)
}
