//! The text of the rows that changed.

use crate::print::{put_fence, put_segment, put_shown};
use crate::watch::exchange::Row;
use json::Writer;
use snap_order::{OutputFormat, put_bytes};
use std::alloc::{AllocError, Global};

/// The text of the changes between the rows that were shown and these: a line for each row whose segment wasn't shown
/// with that number and that fence, in order. It is a JSON object, or `segment I number K ..`, with the value as quoted
/// text if it is printable.
pub fn changes(
    alloc: Global,
    is_json: bool,
    shown: &[Row],
    rows: &[Row],
) -> Result<Vec<u8>, AllocError> {
    let mut text = Vec::new(alloc);
    for row in rows {
        let is_shown = shown.iter().any(|one| {
            one.segment == row.segment && one.number == row.number && one.is_fenced == row.is_fenced
        });
        if !is_shown {
            if is_json {
                let mut writer = Writer::new(text);
                put_object(alloc, &mut writer, row)?;
                text = writer.into_inner();
            } else {
                put_row(alloc, &mut text, row)?;
            }
            text.push(b'\n')?;
        }
    }
    Ok(text)
}

/// Appends a row as words.
fn put_row(alloc: Global, text: &mut Vec<u8>, row: &Row) -> Result<(), AllocError> {
    put_segment(text, row.segment, row.number)?;
    put_fence(text, row.is_fenced)?;
    put_shown(alloc, text, OutputFormat::Text, row.value.as_slice())
}

/// Writes a row as an object.
fn put_object(alloc: Global, writer: &mut Writer, row: &Row) -> Result<(), AllocError> {
    writer.begin_object()?;
    writer.key("segment")?;
    writer.u64(row.segment as u64)?;
    writer.key("number")?;
    writer.u64(row.number)?;
    writer.key("fenced")?;
    writer.boolean(row.is_fenced)?;
    put_bytes(alloc, writer, row.value.as_slice())?;
    writer.end_object()
}
