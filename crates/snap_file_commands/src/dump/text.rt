//! Writes dumps.
ghost use Rattle.std.specs.Prelude.{◌≡◌, ◌++◌, ◌∷◌, [], IfOk, OnOk};
ghost use Rattle.snap_order.specs.Each.{each_from};
ghost use Rattle.snap_file_commands.specs.Document.{Adds, dump_text, head_tokens, last_tokens, row};

use json::Writer;
use sha2::{Digest, Sha256};
use snap_order::append_value;
use snap_scan::SegmentValue;
use std::alloc::{AllocError, Global};

/// The version that is written.
const VERSION: u64 = 1;

/// The dump of these values, one for each segment in order. `time` says when they were current; it
/// may be any text, which is never parsed. Fails only if memory runs out.
pub fn document(alloc: Global, time: &str, values: &[SegmentValue]) -> Result<Vec<u8>, AllocError>
    ensures { IfOk result (λ text. text.items ≡ dump_text time.now values.now) }
{
    let mut writer = Writer::new(Vec::new(alloc));
    begin(&mut writer, time, values.len())?;
    let lines = with_values(alloc, writer.into_inner(), values)?;
    let digest = hex::encode(alloc, Sha256::digest(lines.as_slice()))?;
    let mut writer = Writer::new(lines);
    end(&mut writer, digest.as_str())?;
    let mut text = writer.into_inner();
    text.push(b'\n')?;
    Ok(text)
}

/// Writes the first line, without its line feed.
fn begin(writer: &mut Writer, time: &str, count: usize) -> Result<(), AllocError>
    requires { writer.old.tokens ≡ [] }
    ensures { OnOk result (Adds writer.old writer.new (head_tokens time.now count)) }
{
    writer.begin_object()?;
    writer.key("format")?;
    writer.string("snapd dump")?;
    writer.key("version")?;
    writer.u64(VERSION)?;
    writer.key("time")?;
    writer.string(time)?;
    writer.key("count")?;
    writer.u64(count as u64)?;
    writer.key("segments")?;
    writer.begin_array()?;
    Ok(())
}

/// Appends a line for each segment, and the line feed of the last one.
fn with_values(
    alloc: Global,
    mut text: Vec<u8>,
    values: &[SegmentValue],
) -> Result<Vec<u8>, AllocError>
    ensures { IfOk result (λ lines. lines.items ≡ text.items ++ (each_from row 0 values.now ++ 10 ∷ [])) }
{
    for (index, value) in values.iter().enumerate() {
        text = with_value(alloc, text, index, value)?;
    }
    text.push(b'\n')?;
    Ok(text)
}

/// Appends the line of a segment, without its line feed.
fn with_value(
    alloc: Global,
    mut text: Vec<u8>,
    index: usize,
    value: &SegmentValue,
) -> Result<Vec<u8>, AllocError>
    ensures { IfOk result (λ lines. lines.items ≡ text.items ++ row index value.now) }
{
    if index > 0 {
        text.push(b',')?;
    }
    text.push(b'\n')?;
    append_value(alloc, text, index, value.number, value.value.as_slice())
}

/// Writes the last line, which has the digest of the lines before it, without its line feed.
fn end(writer: &mut Writer, digest: &str) -> Result<(), AllocError>
    ensures { OnOk result (Adds writer.old writer.new (last_tokens digest.now)) }
{
    writer.end_array()?;
    writer.key("sha256")?;
    writer.string(digest)?;
    writer.end_object()
}
