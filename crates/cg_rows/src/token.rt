//! Texts of single tokens.
use crate::escape::bytes_of;
use crate::row::RowFault;
use cg_join::{AmountText, ClampText, DeviceNameText, DeviceText, LimitText, ParamText};
use cg_text::{
    DecimalText, FixedText, HundredthsText, LooseListText, NumberSet, OutOfMemory, ParamValue,
    SignedText, SizeText, Spelling, StrictListText, Token, WordText,
};
use std::alloc::Global;
use std::fmt::Debug;

/// How a row spells that a text has no value.
const NONE: &str = "none";

/// What a text spells, none where the token doesn't take all of it, or may not end there.
pub(crate) fn spelled<T: Token>(token: T, text: &[u8]) -> Result<Option<T::Out>, OutOfMemory> {
    let mut token = token;
    for byte in text {
        if !token.step(*byte)? {
            return Ok(None);
        }
    }
    if token.can_end() {
        Ok(Some(token.take()))
    } else {
        Ok(None)
    }
}

/// What a text spells, as a row spells it.
fn said<T: Token>(alloc: Global, token: T, text: &[u8]) -> Result<String, RowFault>
where
    T::Out: Debug,
{
    match spelled(token, text)? {
        Some(value) => Ok(format!(in alloc; "{value:?}")?),
        None => Ok(String::from_str(alloc, NONE)?),
    }
}

/// The same of a token with a range, which isn't empty.
fn said_within<T: Token>(alloc: Global, token: Option<T>, text: &[u8]) -> Result<String, RowFault>
where
    T::Out: Debug,
{
    match token {
        Some(token) => said(alloc, token, text),
        None => Err(RowFault::BadWord),
    }
}

/// A word, as a row spells it.
fn said_word(alloc: Global, controller: bool, text: &[u8]) -> Result<String, RowFault> {
    match spelled(WordText::new(alloc, controller), text)? {
        Some(key) => Ok(format!(in alloc; "{:?}", key.bytes())?),
        None => Ok(String::from_str(alloc, NONE)?),
    }
}

/// A parameter, as a row spells it.
fn said_param(alloc: Global, text: &[u8]) -> Result<String, RowFault> {
    match spelled(ParamText::new(alloc), text)? {
        Some(ParamValue::Name(name)) => Ok(format!(in alloc; "Name({:?})", name.bytes())?),
        Some(number) => Ok(format!(in alloc; "{number:?}")?),
        None => Ok(String::from_str(alloc, NONE)?),
    }
}

/// How many numbers a set has, and its ranges.
fn said_set(alloc: Global, set: Option<NumberSet>) -> Result<String, RowFault> {
    match set {
        Some(set) => Ok(format!(in alloc; "{} in {:?}", set.len(), set.ranges())?),
        None => Ok(String::from_str(alloc, NONE)?),
    }
}

/// What a text spells of a number, none of another token. The ranges are worked ones.
fn said_number(alloc: Global, name: &str, text: &[u8]) -> Option<Result<String, RowFault>> {
    Some(match name {
        "decimal" => said_within(alloc, DecimalText::new(1, 10000), text),
        "signed" => said_within(alloc, SignedText::new(-20, 19), text),
        "limit" => said_within(alloc, LimitText::new(1000, u64::MAX), text),
        "size" => said(alloc, SizeText::new(), text),
        "device" => said(alloc, DeviceText::new(), text),
        "device_name" => said(alloc, DeviceNameText::new(true), text),
        "known_device_name" => said(alloc, DeviceNameText::new(false), text),
        _ => return None,
    })
}

/// What a text spells of a number with a fraction, none of another token.
fn said_fraction(alloc: Global, name: &str, text: &[u8]) -> Option<Result<String, RowFault>> {
    Some(match name {
        "hundredths" => said(alloc, HundredthsText::new(Spelling::Read, 10000), text),
        "written_hundredths" => said(alloc, HundredthsText::new(Spelling::Written, 10000), text),
        "clamp" => said(alloc, ClampText::new(Spelling::Read), text),
        "written_clamp" => said(alloc, ClampText::new(Spelling::Written), text),
        "amount" => said(alloc, AmountText::new(false), text),
        "signed_amount" => said(alloc, AmountText::new(true), text),
        _ => return None,
    })
}

/// What a text spells of words and lists.
fn said_list(alloc: Global, name: &str, text: &[u8]) -> Result<String, RowFault> {
    match name {
        "word" => said_word(alloc, false, text),
        "controller" => said_word(alloc, true, text),
        "param" => said_param(alloc, text),
        "strict" => said_set(alloc, spelled(StrictListText::new(alloc, 65535), text)?),
        "wide_strict" => said_set(alloc, spelled(StrictListText::new(alloc, 1048575), text)?),
        "loose" => said_set(alloc, spelled(LooseListText::new(alloc, 65535), text)?),
        "fixed" => said(alloc, FixedText::new(b"threaded"), text),
        _ => Err(RowFault::BadWord),
    }
}

/// What a text spells of the token of this name.
fn said_by(alloc: Global, name: &str, text: &[u8]) -> Result<String, RowFault> {
    match said_number(alloc, name, text).or(said_fraction(alloc, name, text)) {
        Some(said) => said,
        None => said_list(alloc, name, text),
    }
}

/// Whether the text of a row spells what the row says, of the token that it names.
pub(crate) fn agrees(alloc: Global, fields: &[&str]) -> Result<bool, RowFault> {
    let [name, text, wanted] = fields else {
        return Err(RowFault::Fields);
    };
    let text = bytes_of(alloc, text)?;
    let said = said_by(alloc, name, text.as_slice())?;
    Ok(said.as_str() == *wanted)
}
