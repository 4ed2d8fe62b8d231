use crate::fault::RowFault;
use crate::names::Names;
use std::alloc::Global;

/// The bytes that a text says, part by part, parted by spaces: `"text"` is its own bytes, `cafe` are
/// the two bytes of these hex digits, `2:400` and `4:-1` are numbers of so many bytes with the high byte
/// first, and `@name` are the bytes of a name; `part*3` is the part three times.
pub fn bytes_of(alloc: Global, names: &Names, text: &str) -> Result<Vec<u8>, RowFault> {
    let mut bytes = Vec::new(alloc);
    let mut quoted = false;
    for part in text.split('"') {
        if quoted {
            bytes.extend_from_slice(part.as_bytes())?;
        } else {
            push_parts(alloc, names, &mut bytes, part)?;
        }
        quoted = !quoted;
    }
    if quoted {
        Ok(bytes)
    } else {
        Err(RowFault::Quote)
    }
}

/// Puts in the parts of a text without quotes.
fn push_parts(
    alloc: Global,
    names: &Names,
    bytes: &mut Vec<u8>,
    text: &str,
) -> Result<(), RowFault> {
    for part in text.split_whitespace() {
        push_part(alloc, names, bytes, part)?;
    }
    Ok(())
}

/// Puts in one part, as often as it says.
fn push_part(
    alloc: Global,
    names: &Names,
    bytes: &mut Vec<u8>,
    part: &str,
) -> Result<(), RowFault> {
    let (once, times) = repeated(part)?;
    if let Some(name) = once.strip_prefix('@') {
        return push_times(bytes, names.get(name)?, times);
    }
    if let Some((width, number)) = once.split_once(':') {
        return push_number(bytes, width, number);
    }
    let Ok(plain) = hex::decode(alloc, once) else {
        return Err(RowFault::Hex);
    };
    push_times(bytes, plain.as_slice(), times)
}

/// A part without its count, and its count.
fn repeated(part: &str) -> Result<(&str, u32), RowFault> {
    match part.split_once('*') {
        None => Ok((part, 1)),
        Some((once, count)) => match count.parse::<u32>() {
            Ok(times) => Ok((once, times)),
            Err(_) => Err(RowFault::Number),
        },
    }
}

/// Puts in the plain bytes so many times.
fn push_times(bytes: &mut Vec<u8>, plain: &[u8], times: u32) -> Result<(), RowFault> {
    for _ in 0..times {
        bytes.extend_from_slice(plain)?;
    }
    Ok(())
}

/// Puts in a number of this width, high byte first.
fn push_number(bytes: &mut Vec<u8>, width: &str, number: &str) -> Result<(), RowFault> {
    let Ok(number) = number.parse::<i64>() else {
        return Err(RowFault::Number);
    };
    match width {
        "1" => push_u8(bytes, number),
        "2" => push_u16(bytes, number),
        "4" => push_u32(bytes, number),
        _ => Err(RowFault::Number),
    }
}

/// Puts in a number of one byte.
fn push_u8(bytes: &mut Vec<u8>, number: i64) -> Result<(), RowFault> {
    match u8::try_from(number) {
        Ok(number) => {
            bytes.push(number)?;
            Ok(())
        }
        Err(_) => Err(RowFault::Number),
    }
}

/// Puts in a number of two bytes.
fn push_u16(bytes: &mut Vec<u8>, number: i64) -> Result<(), RowFault> {
    match u16::try_from(number) {
        Ok(number) => {
            bytes.extend_from_slice(&number.to_be_bytes())?;
            Ok(())
        }
        Err(_) => Err(RowFault::Number),
    }
}

/// Puts in a number of four bytes; it may have a sign.
fn push_u32(bytes: &mut Vec<u8>, number: i64) -> Result<(), RowFault> {
    if let Ok(number) = u32::try_from(number) {
        bytes.extend_from_slice(&number.to_be_bytes())?;
        return Ok(());
    }
    match i32::try_from(number) {
        Ok(number) => {
            bytes.extend_from_slice(&number.to_be_bytes())?;
            Ok(())
        }
        Err(_) => Err(RowFault::Number),
    }
}
