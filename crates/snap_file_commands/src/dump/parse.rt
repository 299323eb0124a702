//! Finds the contents of a text that may be a dump. Of another text it finds anything or nothing, so
//! [`read`](crate::dump::read) compares.
ghost use Rattle.std.specs.Prelude.{◌≡◌, ◌≤◌, All, IfOk, length};
ghost use Rattle.snap_history.specs.Limits.{IsNumber};
ghost use Rattle.snap_file_commands.specs.Document.{AreServable, IsKeepable};

use crate::dump::{Dump, DumpFault};
use base64::DecodeAllocError;
use base64::engine::general_purpose::STANDARD;
use bytes::Bytes;
use json::{Reader, Scratch, Token};
use snap_history::{LAST_NUMBER, MAX_COUNT, MAX_VALUE_LEN};
use snap_scan::SegmentValue;
use std::alloc::Global;

/// The contents of a dump, within the limits of a server. [`DumpFault::Foreign`] if the text has none.
pub(crate) fn parse(alloc: Global, text: &[u8]) -> Result<Dump, DumpFault>
    ensures { IfOk result (λ d. AreServable d.values.items) }
{
    let text = str::from_utf8(text).map_err(|_| DumpFault::Foreign)?;
    let mut scratch = Scratch::new(alloc);
    let mut reader = Reader::new(text, &mut scratch)?;
    let Some(Token::String(time)) = after_key(&mut reader, "time") else {
        return Err(DumpFault::Foreign);
    };
    let count = number_after(&mut reader, "count")?;
    let values = read_values(alloc, &mut reader, count)?;
    let time = String::from_str(alloc, time)?;
    Ok(Dump { time, values })
}

/// The number and value of each of `count` segments.
fn read_values(
    alloc: Global,
    reader: &mut Reader<'_>,
    count: u64,
) -> Result<Vec<SegmentValue>, DumpFault>
    ensures { IfOk result (λ values. AreServable values.items) }
{
    if count == 0 || count > u64::from(MAX_COUNT) {
        return Err(DumpFault::Foreign);
    }
    let mut values = Vec::new(alloc);
    for _index in 0..count {
        let value = read_value(alloc, reader)?;
        values.push(value).map_err(|_| DumpFault::NoMemory)?;
    }
    Ok(values)
}

/// The number and value of the next segment.
fn read_value(alloc: Global, reader: &mut Reader<'_>) -> Result<SegmentValue, DumpFault>
    ensures { IfOk result IsKeepable }
{
    let number = number_after(reader, "number")?;
    let value = read_bytes(alloc, reader)?;
    if number > LAST_NUMBER || value.len() > MAX_VALUE_LEN {
        return Err(DumpFault::Foreign);
    }
    let value = Bytes::from_vec(value).map_err(|_| DumpFault::NoMemory)?;
    Ok(SegmentValue { number, value })
}

/// The bytes of a value: its text, or base64.
fn read_bytes(alloc: Global, reader: &mut Reader<'_>) -> Result<Vec<u8>, DumpFault> {
    let (Some(Token::Key(form)), Some(Token::String(text))) = (reader.next(), reader.next()) else {
        return Err(DumpFault::Foreign);
    };
    match form {
        "text" => Ok(Vec::from_slice(alloc, text.as_bytes())?),
        "base64" => match STANDARD.decode(alloc, text.as_bytes()) {
            Ok(bytes) => Ok(bytes),
            Err(DecodeAllocError::OutOfMemory) => Err(DumpFault::NoMemory),
            Err(_) => Err(DumpFault::Foreign),
        },
        _ => Err(DumpFault::Foreign),
    }
}

/// The number after the next key of this name.
fn number_after(reader: &mut Reader<'_>, name: &str) -> Result<u64, DumpFault> {
    match after_key(reader, name) {
        Some(Token::Number(digits)) => digits.parse::<u64>().map_err(|_| DumpFault::Foreign),
        _ => Err(DumpFault::Foreign),
    }
}

/// The token after the next key of this name.
fn after_key<'a>(reader: &mut Reader<'a>, name: &str) -> Option<Token<'a>> {
    for _ in 0..u64::MAX {
        match reader.next()? {
            Token::Key(key) if key == name => return reader.next(),
            _ => {}
        }
    }
    None
}
