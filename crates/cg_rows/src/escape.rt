//! The bytes that a field of a row spells.
use crate::row::RowFault;
use std::alloc::Global;

/// Adds bytes that are spelled without `\`.
fn add_plain(bytes: &mut Vec<u8>, text: &str) -> Result<(), RowFault> {
    for byte in text.bytes() {
        let spelled = match byte {
            b'$' => b'\n',
            b'^' => 0,
            other => other,
        };
        bytes.push(spelled)?;
    }
    Ok(())
}

/// The byte of `xNN`, and what stands behind it.
fn coded(text: &str) -> Result<(u8, &str), RowFault> {
    let Some(digits) = text.strip_prefix('x') else {
        return Err(RowFault::BadByte);
    };
    let Some((code, rest)) = digits.split_at_checked(2) else {
        return Err(RowFault::BadByte);
    };
    match u8::from_str_radix(code, 16) {
        Ok(byte) => Ok((byte, rest)),
        Err(_) => Err(RowFault::BadByte),
    }
}

/// The bytes that a text spells.
pub(crate) fn bytes_of(alloc: Global, text: &str) -> Result<Vec<u8>, RowFault> {
    let mut bytes = Vec::new(alloc);
    let mut parts = text.split('\\');
    if let Some(front) = parts.next() {
        add_plain(&mut bytes, front)?;
    }
    for part in parts {
        let (byte, rest) = coded(part)?;
        bytes.push(byte)?;
        add_plain(&mut bytes, rest)?;
    }
    Ok(bytes)
}
