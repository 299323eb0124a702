//! The documents of values, statuses and health.
ghost use Rattle.std.specs.Prelude.{◌≡◌, ◌++◌, ◌∷◌, [], IfOk, flat_map};
ghost use Rattle.std.specs.List.{list_any};
ghost use Rattle.json.specs.Token.{end_array, end_object};
ghost use Rattle.snap_order.specs.Each.{each_from};
ghost use Rattle.snap_order.specs.Documents.{health_text, health_tokens, line_of, list_head, list_text, named_tokens};
ghost use Rattle.snap_order.specs.Documents.{status_tokens, value_tokens};

use crate::member::{put_fence, put_status, put_value};
use json::Writer;
use snap_frame::{NamedValue, SegmentStatus, SegmentValue};
use std::alloc::{AllocError, Global};

/// The document of a scan: the number and value of each segment, in order.
pub fn scan_document(alloc: Global, values: &[SegmentValue]) -> Result<Vec<u8>, AllocError>
    ensures { IfOk result (λ text. text.items ≡ list_text (each_from value_tokens 0 values.now)) }
{
    let mut writer = begin_list(alloc)?;
    for (index, value) in values.iter().enumerate() {
        put_value(
            alloc,
            &mut writer,
            index,
            value.number,
            value.value.as_slice(),
        )?;
    }
    end_list(writer)
}

/// The document of a scan of some segments: the number and value of each, in the order given.
pub fn part_document(alloc: Global, values: &[NamedValue]) -> Result<Vec<u8>, AllocError>
    ensures { IfOk result (λ text. text.items ≡ list_text (flat_map named_tokens values.now)) }
{
    let mut writer = begin_list(alloc)?;
    for value in values {
        let index = usize::from(value.segment);
        put_value(
            alloc,
            &mut writer,
            index,
            value.number,
            value.value.as_slice(),
        )?;
    }
    end_list(writer)
}

/// The document of a status: the number of each segment, in order, and whether it is fenced.
pub fn status_document(alloc: Global, statuses: &[SegmentStatus]) -> Result<Vec<u8>, AllocError>
    ensures { IfOk result (λ text. text.items ≡ list_text (each_from status_tokens 0 statuses.now)) }
{
    let mut writer = begin_list(alloc)?;
    for (index, status) in statuses.iter().enumerate() {
        put_status(&mut writer, index, status)?;
    }
    end_list(writer)
}

/// The document of a server's health: whether no segment is fenced, and if one is, which ones are.
pub fn health_document(alloc: Global, statuses: &[SegmentStatus]) -> Result<Vec<u8>, AllocError>
    ensures { IfOk result (λ text. text.items ≡ health_text statuses.now) }
{
    if !is_any_fenced(statuses) {
        let mut writer = begin_health(alloc, true)?;
        writer.end_object()?;
        return line_of(writer);
    }
    let mut writer = begin_health(alloc, false)?;
    writer.key("fenced")?;
    writer.begin_array()?;
    for (index, status) in statuses.iter().enumerate() {
        put_fence(&mut writer, index, status)?;
    }
    end_list(writer)
}

/// Whether one of the segments is fenced.
fn is_any_fenced(statuses: &[SegmentStatus]) -> bool
    ensures { result ≡ list_any (λ s. s.is_fenced) statuses.now }
{
    statuses.iter().any(|status| status.is_fenced)
}

/// Begins a document of a server's health.
fn begin_health(alloc: Global, is_healthy: bool) -> Result<Writer, AllocError>
    ensures tokens { IfOk result (λ writer. writer.tokens ≡ health_tokens is_healthy) }
    ensures before { IfOk result (λ writer. writer.before ≡ []) }
{
    let mut writer = Writer::new(Vec::new(alloc));
    writer.begin_object()?;
    writer.key("healthy")?;
    writer.boolean(is_healthy)?;
    Ok(writer)
}

/// Begins a document with a list of segments.
fn begin_list(alloc: Global) -> Result<Writer, AllocError>
    ensures tokens { IfOk result (λ writer. writer.tokens ≡ list_head) }
    ensures before { IfOk result (λ writer. writer.before ≡ []) }
{
    let mut writer = Writer::new(Vec::new(alloc));
    writer.begin_object()?;
    writer.key("segments")?;
    writer.begin_array()?;
    Ok(writer)
}

/// Ends the list and its document.
fn end_list(mut writer: Writer) -> Result<Vec<u8>, AllocError>
    ensures { IfOk result (λ text. text.items
        ≡ writer.before ++ line_of (writer.tokens ++ end_array ∷ end_object ∷ [])) }
{
    writer.end_array()?;
    writer.end_object()?;
    line_of(writer)
}

/// The text that was written, with a line feed.
pub fn line_of(writer: Writer) -> Result<Vec<u8>, AllocError>
    ensures { IfOk result (λ text. text.items ≡ writer.before ++ line_of writer.tokens) }
{
    let mut text = writer.into_inner();
    text.push(b'\n')?;
    Ok(text)
}
