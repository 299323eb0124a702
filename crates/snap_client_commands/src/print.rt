//! The texts of the replies to reads.
ghost use Rattle.std.specs.Prelude.{◌≡◌, ◌++◌, IfOk, OnOk, codes, flat_map};
ghost use Rattle.std.specs.Fmt.InlineText.{inline_text};
ghost use Rattle.snap_order.specs.Hex.{hex_text};
ghost use Rattle.snap_order.specs.Each.{each_from};
ghost use Rattle.snap_order.specs.declared.order.OutputFormat.TheVariants.{Lines};
ghost use Rattle.snap_client_commands.specs.Ends.{IsRead};
ghost use Rattle.snap_client_commands.specs.Text.{Shows, fence_text, is_any_fenced, named_line};
ghost use Rattle.snap_client_commands.specs.Text.{segment_text, status_line, stored_line, value_line, value_text};

use bytes::Bytes;
use itoa::Buffer;
use snap_frame::{NamedValue, Reply, SegmentStatus, SegmentValue};
use snap_order::{
    CallRequest, OutputFormat, health_document, part_document, put_hex, quote, scan_document,
    status_document,
};
use std::alloc::{AllocError, Global};
use std::fmt::InlineText;

/// A line in a fixed buffer, for which memory can't run out. It has room for more than the longest: 15 bytes of
/// `snapd: refused `, two numbers of 20 digits at most, a name of 16 at most, two spaces and a line feed.
pub(crate) type LineText = InlineText<80>;

/// The line of a stored number.
pub(crate) fn stored_line(number: u64) -> LineText
    ensures { inline_text result ≡ stored_line number }
{
    LineText::new()
        .and_str("stored ", 7)
        .and_str(Buffer::new().format(number), 40)
        .and_str("\n", 1)
}

/// The text of the reply to a call's request, in this output format.
pub(crate) fn answer_of(
    alloc: Global,
    question: &CallRequest,
    layout: OutputFormat,
    reply: &Reply,
) -> Result<Vec<u8>, AllocError>
    requires { IsRead reply.now }
    ensures { IfOk result (λ text. Shows layout question.now reply.now text.items) }
{
    if let OutputFormat::Json = layout {
        return document_of(alloc, question, reply);
    }
    let mut out = Vec::new(alloc);
    match (question, reply) {
        (CallRequest::Health, Reply::Status(statuses)) => put_health(&mut out, statuses),
        (_, Reply::Snapshot(values)) => put_values(alloc, &mut out, layout, values),
        (_, Reply::Part(values)) => put_part(alloc, &mut out, layout, values),
        (_, Reply::Status(statuses)) => put_statuses(&mut out, statuses),
        (_, Reply::Stored(_) | Reply::Refused { .. }) => unreachable!(),
    }?;
    Ok(out)
}

/// The JSON document of the reply to a call's request.
fn document_of(alloc: Global, question: &CallRequest, reply: &Reply) -> Result<Vec<u8>, AllocError>
    requires { IsRead reply.now }
{
    match (question, reply) {
        (CallRequest::Health, Reply::Status(statuses)) => health_document(alloc, statuses),
        (_, Reply::Snapshot(values)) => scan_document(alloc, values),
        (_, Reply::Part(values)) => part_document(alloc, values),
        (_, Reply::Status(statuses)) => status_document(alloc, statuses),
        (_, Reply::Stored(_) | Reply::Refused { .. }) => unreachable!(),
    }
}

/// Whether one of the segments is fenced.
pub(crate) fn is_any_fenced(statuses: &[SegmentStatus]) -> bool
    ensures { result ≡ is_any_fenced statuses.now }
{
    statuses.iter().any(|status| status.is_fenced)
}

/// Appends a line for each segment's value.
fn put_values(
    alloc: Global,
    out: &mut Vec<u8>,
    layout: OutputFormat,
    values: &[SegmentValue],
) -> Result<(), AllocError>
    ensures { layout ≡ Lines → OnOk result (out.new.items ≡ out.old.items ++ each_from value_line 0 values.now) }
{
    for (index, value) in values.iter().enumerate() {
        put_value(alloc, out, layout, index, value.number, &value.value)?;
    }
    Ok(())
}

/// Appends a line for each value, under the index of the segment that it names.
fn put_part(
    alloc: Global,
    out: &mut Vec<u8>,
    layout: OutputFormat,
    values: &[NamedValue],
) -> Result<(), AllocError>
    ensures { layout ≡ Lines → OnOk result (out.new.items ≡ out.old.items ++ flat_map named_line values.now) }
{
    for value in values {
        let index = usize::from(value.segment);
        put_value(alloc, out, layout, index, value.number, &value.value)?;
    }
    Ok(())
}

/// Appends a line for each segment's status.
fn put_statuses(out: &mut Vec<u8>, statuses: &[SegmentStatus]) -> Result<(), AllocError>
    ensures { OnOk result (out.new.items ≡ out.old.items ++ each_from status_line 0 statuses.now) }
{
    for (index, status) in statuses.iter().enumerate() {
        put_status(out, index, status)?;
    }
    Ok(())
}

/// Appends the line of one segment's status.
fn put_status(out: &mut Vec<u8>, index: usize, status: &SegmentStatus) -> Result<(), AllocError>
    ensures { OnOk result (out.new.items ≡ out.old.items ++ status_line index status.now) }
{
    put_segment(out, index, status.number)?;
    put_fence(out, status.is_fenced)?;
    out.extend_from_slice(b"\n")
}

/// Appends a line for each segment that is fenced, or one that says that none is.
fn put_health(out: &mut Vec<u8>, statuses: &[SegmentStatus]) -> Result<(), AllocError> {
    if !is_any_fenced(statuses) {
        return out.extend_from_slice(b"healthy\n");
    }
    for (index, status) in statuses.iter().enumerate() {
        if status.is_fenced {
            let line = LineText::of(&format_args!("fenced {index}\n"));
            out.extend_from_slice(line.as_str().as_bytes())?;
        }
    }
    Ok(())
}

/// Appends the line of one segment's value.
fn put_value(
    alloc: Global,
    out: &mut Vec<u8>,
    layout: OutputFormat,
    index: usize,
    number: u64,
    value: &Bytes,
) -> Result<(), AllocError>
    ensures { layout ≡ Lines → OnOk result (out.new.items ≡ out.old.items ++ value_text index number value.now) }
{
    put_segment(out, index, number)?;
    put_shown(alloc, out, layout, value.as_slice())?;
    out.extend_from_slice(b"\n")
}

/// Appends a value: as quoted text if it is printable and the output format shows text, else in hexadecimal digits.
pub(crate) fn put_shown(
    alloc: Global,
    out: &mut Vec<u8>,
    layout: OutputFormat,
    value: &[u8],
) -> Result<(), AllocError>
    ensures { layout ≡ Lines → OnOk result (out.new.items ≡ out.old.items ++ (codes " value " ++ hex_text value.now)) }
{
    if let OutputFormat::Text = layout {
        if let Some(text) = quote(alloc, value)? {
            out.extend_from_slice(b" text ")?;
            return out.extend_from_slice(text.as_slice());
        }
    }
    out.extend_from_slice(b" value ")?;
    put_hex(out, value)
}

/// Appends whether a segment is fenced.
pub(crate) fn put_fence(out: &mut Vec<u8>, is_fenced: bool) -> Result<(), AllocError>
    ensures { OnOk result (out.new.items ≡ out.old.items ++ (codes " fenced " ++ fence_text is_fenced)) }
{
    if is_fenced {
        out.extend_from_slice(b" fenced 1")
    } else {
        out.extend_from_slice(b" fenced 0")
    }
}

/// Appends a segment's index and number.
pub(crate) fn put_segment(out: &mut Vec<u8>, index: usize, number: u64) -> Result<(), AllocError>
    ensures { OnOk result (out.new.items ≡ out.old.items ++ segment_text index number) }
{
    let mut digits = Buffer::new();
    out.extend_from_slice(b"segment ")?;
    out.extend_from_slice(digits.format(index).as_bytes())?;
    out.extend_from_slice(b" number ")?;
    out.extend_from_slice(digits.format(number).as_bytes())
}
