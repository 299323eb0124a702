//! The document of what a check found in a file.
//!
//! No clause states this text: tests/test_check_json.py compares it byte by byte.

use crate::document::line_of;
use json::Writer;
use snap_slot::{Findings, Header, Slot, SlotFault};
use std::alloc::{AllocError, Global};

/// The document of a file: its header, and if that is open its slots and the number that a restart would recover.
pub fn findings_document(alloc: Global, findings: &Findings) -> Result<Vec<u8>, AllocError> {
    let mut writer = Writer::new(Vec::new(alloc));
    writer.begin_object()?;
    let header = match findings.header {
        Header::Open { .. } => "open",
        Header::Closed => "unformatted",
        Header::Wrong => "wrong",
    };
    put_text(&mut writer, "header", header)?;
    if let Header::Open { index, count } = findings.header {
        put_contents(&mut writer, index, count, findings)?;
    }
    writer.end_object()?;
    line_of(writer)
}

/// Writes a text as a member.
fn put_text(writer: &mut Writer, name: &str, text: &str) -> Result<(), AllocError> {
    writer.key(name)?;
    writer.string(text)
}

/// Writes a number as a member.
fn put_number(writer: &mut Writer, name: &str, number: u64) -> Result<(), AllocError> {
    writer.key(name)?;
    writer.u64(number)
}

/// Writes the segment's place, the slots, and the number that a restart would recover, or null.
fn put_contents(
    writer: &mut Writer,
    index: u8,
    count: u8,
    findings: &Findings,
) -> Result<(), AllocError> {
    put_number(writer, "index", u64::from(index))?;
    put_number(writer, "count", u64::from(count))?;
    writer.key("slots")?;
    writer.begin_array()?;
    put_slot(writer, 0, &findings.slots.0)?;
    put_slot(writer, 1, &findings.slots.1)?;
    put_slot(writer, 2, &findings.slots.2)?;
    writer.end_array()?;
    writer.key("answer")?;
    match &findings.answer {
        Some(found) => writer.u64(found.number),
        None => writer.null(),
    }
}

/// Writes one slot: its state, with its number and length or its flaw.
fn put_slot(writer: &mut Writer, index: u64, slot: &Slot) -> Result<(), AllocError> {
    writer.begin_object()?;
    put_number(writer, "slot", index)?;
    match slot {
        Slot::Closed => put_text(writer, "state", "closed"),
        Slot::Open { number, length } => put_open(writer, *number, u64::from(*length)),
        Slot::Bad(flaw) => put_bad(writer, flaw),
    }?;
    writer.end_object()
}

/// Writes the members of an open slot.
fn put_open(writer: &mut Writer, number: u64, length: u64) -> Result<(), AllocError> {
    put_text(writer, "state", "open")?;
    put_number(writer, "number", number)?;
    put_number(writer, "length", length)
}

/// Writes the members of a slot that holds no value, with its flaw.
fn put_bad(writer: &mut Writer, flaw: &SlotFault) -> Result<(), AllocError> {
    put_text(writer, "state", "bad")?;
    let flaw = match flaw {
        SlotFault::Gate => "gate",
        SlotFault::Length => "length",
        SlotFault::Zeros => "zeros",
        SlotFault::Number => "number",
    };
    put_text(writer, "flaw", flaw)
}
