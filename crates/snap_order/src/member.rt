//! The objects of single segments.
ghost use Rattle.std.specs.Prelude.{◌≡◌, ◌++◌, ◌∷◌, [], IfOk, OnOk};
ghost use Rattle.json.specs.{Print.print, Token.end_object};
ghost use Rattle.snap_order.specs.Documents.{bytes_tokens, entry_tokens, fence_tokens, head_tokens, status_tokens};

use base64::engine::general_purpose::STANDARD;
use json::Writer;
use snap_frame::SegmentStatus;
use std::alloc::{AllocError, Global};

/// Appends the object of one segment, as in [`scan_document`](crate::scan_document), without a line feed.
pub fn append_value(
    alloc: Global,
    text: Vec<u8>,
    index: usize,
    number: u64,
    value: &[u8],
) -> Result<Vec<u8>, AllocError>
    ensures { IfOk result (λ whole. whole.items ≡ text.items ++ print (entry_tokens index number value.now)) }
{
    let mut writer = Writer::new(text);
    put_value(alloc, &mut writer, index, number, value)?;
    Ok(writer.into_inner())
}

/// Writes one segment's number and value.
pub(crate) fn put_value(
    alloc: Global,
    writer: &mut Writer,
    index: usize,
    number: u64,
    value: &[u8],
) -> Result<(), AllocError>
    ensures tokens { OnOk result (writer.new.tokens ≡ writer.old.tokens ++ entry_tokens index number value.now) }
    ensures before { writer.new.before ≡ writer.old.before }
{
    put_head(writer, index, number)?;
    put_bytes(alloc, writer, value)?;
    writer.end_object()
}

/// Writes one segment's number, and whether it is fenced.
pub(crate) fn put_status(
    writer: &mut Writer,
    index: usize,
    status: &SegmentStatus,
) -> Result<(), AllocError>
    ensures tokens { OnOk result (writer.new.tokens ≡ writer.old.tokens ++ status_tokens index status.now) }
    ensures before { writer.new.before ≡ writer.old.before }
{
    put_head(writer, index, status.number)?;
    writer.key("fenced")?;
    writer.boolean(status.is_fenced)?;
    writer.end_object()
}

/// Writes one segment's index if it is fenced.
pub(crate) fn put_fence(
    writer: &mut Writer,
    index: usize,
    status: &SegmentStatus,
) -> Result<(), AllocError>
    ensures tokens { OnOk result (writer.new.tokens ≡ writer.old.tokens ++ fence_tokens index status.now) }
    ensures before { writer.new.before ≡ writer.old.before }
{
    if status.is_fenced {
        writer.u64(index as u64)
    } else {
        Ok(())
    }
}

/// Begins the object of one segment.
fn put_head(writer: &mut Writer, index: usize, number: u64) -> Result<(), AllocError>
    ensures tokens { OnOk result (writer.new.tokens ≡ writer.old.tokens ++ head_tokens index number) }
    ensures before { writer.new.before ≡ writer.old.before }
{
    writer.begin_object()?;
    writer.key("segment")?;
    writer.u64(index as u64)?;
    writer.key("number")?;
    writer.u64(number)
}

/// Writes bytes as a member: as `text` if they are UTF-8, and else as `base64`.
pub fn put_bytes(alloc: Global, writer: &mut Writer, bytes: &[u8]) -> Result<(), AllocError>
    ensures tokens { OnOk result (writer.new.tokens ≡ writer.old.tokens ++ bytes_tokens bytes.now) }
    ensures before { writer.new.before ≡ writer.old.before }
{
    match str::from_utf8(bytes) {
        Ok(text) => {
            writer.key("text")?;
            writer.string(text)
        }
        Err(_) => {
            let text = STANDARD.encode(alloc, bytes)?;
            writer.key("base64")?;
            writer.string(text.as_str())
        }
    }
}
