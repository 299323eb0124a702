//! Frames of requests and replies, and what they say.
use bytes::Bytes;
use snap_disk::Refusal;
use snap_frame::{NamedValue, Reply, Request, SegmentSet, SegmentStatus, SegmentValue};
use std::alloc::{AllocError, Global};

/// The answer of a feed to a frame.
pub(crate) type Answer = Result<Option<Request>, Refusal>;

pub(crate) const SCAN: &[u8] = &[0, 0, 0, 1, 2];

pub(crate) const STORED: &[u8] = &[0, 0, 0, 9, 0x81, 0, 0, 0, 0, 0, 0, 0, 1];

/// Frames of updates, with their segments, numbers and values.
const UPDATES: [(&[u8], u8, u64, &[u8]); 4] = [
    (
        &[0, 0, 0, 0x0C, 1, 0, 0, 0, 0, 0, 0, 0, 0, 1, 0x68, 0x69],
        0,
        1,
        b"hi",
    ),
    (
        &[0, 0, 0, 0x0B, 1, 0, 0, 0, 0, 0, 0, 0, 0, 1, 0x68],
        0,
        1,
        b"h",
    ),
    (&[0, 0, 0, 0x0A, 1, 0, 0, 0, 0, 0, 0, 0, 0, 3], 0, 3, b""),
    (&[0, 0, 0, 0x0A, 1, 2, 0, 0, 0, 0, 0, 0, 0, 1], 2, 1, b""),
];

/// Frames of scans of some segments, with their sets: of segment 1, of segment 2, and of the first and the last one.
const PARTS: [(&[u8], u16); 3] = [
    (&[0, 0, 0, 3, 4, 0, 2], 2),
    (&[0, 0, 0, 3, 4, 0, 4], 4),
    (&[0, 0, 0, 3, 4, 0x80, 1], 0x8001),
];

/// Malformed frames: a status with a byte, one without a payload; scans of no segment, of half a set, and of more than
/// a set.
const MALFORMED: [&[u8]; 6] = [
    &[0, 0, 0, 2, 3, 0],
    &[0, 0, 0, 0],
    &[0, 0, 0, 3, 4, 0, 0],
    &[0, 0, 0, 1, 4],
    &[0, 0, 0, 2, 4, 2],
    &[0, 0, 0, 4, 4, 0, 2, 0],
];

/// Frames of refusals, with their numbers and details.
const REFUSALS: [(&[u8], Refusal, u64); 8] = [
    (
        &[0, 0, 0, 0x0A, 0xE0, 4, 0, 0, 0, 0, 0, 0, 0, 1],
        Refusal::Conflict,
        1,
    ),
    (
        &[0, 0, 0, 0x0A, 0xE0, 5, 0, 0, 0, 0, 0, 0, 0, 1],
        Refusal::OutOfStep,
        1,
    ),
    (
        &[0, 0, 0, 0x0A, 0xE0, 2, 0, 0, 0, 0, 0, 0, 0, 2],
        Refusal::NoSegment,
        2,
    ),
    (
        &[0, 0, 0, 0x0A, 0xE0, 3, 0, 0, 0, 0, 0, 0, 0x0F, 0xF1],
        Refusal::TooLong,
        4081,
    ),
    (
        &[0, 0, 0, 0x0A, 0xE0, 1, 0, 0, 0, 0, 0, 0, 0, 0],
        Refusal::Malformed,
        0,
    ),
    (
        &[0, 0, 0, 0x0A, 0xE0, 8, 0, 0, 0, 0, 0, 0, 0, 0],
        Refusal::NoMemory,
        0,
    ),
    (
        &[0, 0, 0, 0x0A, 0xE0, 17, 0, 0, 0, 0, 0, 0, 0, 0],
        Refusal::Worn,
        0,
    ),
    (
        &[0, 0, 0, 0x0A, 0xE0, 0x0F, 0, 0, 0, 0, 0, 1, 1, 0xD0],
        Refusal::TooLarge,
        66_000,
    ),
];

/// A snapshot of number 1 with `hi` and number 0.
const SNAPSHOT: &[u8] = &[
    0, 0, 0, 0x1C, 0x82, 2, 0, 0, 0, 0, 0, 0, 0, 1, 0, 0, 0, 2, 0x68, 0x69, 0, 0, 0, 0, 0, 0, 0, 0,
    0, 0, 0, 0,
];

/// A status of numbers 1 and 0.
const STATUS: &[u8] = &[
    0, 0, 0, 0x14, 0x83, 2, 0, 0, 0, 0, 0, 0, 0, 1, 0, 0, 0, 0, 0, 0, 0, 0, 0, 0,
];

/// A part of segment 1.
const PART: &[u8] = &[
    0, 0, 0, 0x0F, 0x84, 1, 1, 0, 0, 0, 0, 0, 0, 0, 0, 0, 0, 0, 0,
];

/// A part of the first and the last segment.
const ENDS: &[u8] = &[
    0, 0, 0, 0x1E, 0x84, 2, 0, 0, 0, 0, 0, 0, 0, 0, 1, 0, 0, 0, 2, 0x68, 0x69, 15, 0x7F, 0xFF,
    0xFF, 0xFF, 0xFF, 0xFF, 0xFF, 0xFF, 0, 0, 0, 0,
];

/// The answer to an update.
pub(crate) fn update(
    alloc: Global,
    segment: u8,
    number: u64,
    value: &[u8],
) -> Result<Answer, AllocError> {
    let value = Bytes::copy_from_slice(alloc, value)?;
    Ok(Ok(Some(Request::Update {
        segment,
        number,
        value,
    })))
}

/// The frames of requests, with their answers.
pub(crate) fn requests(alloc: Global) -> Result<Vec<(&'static [u8], Answer)>, AllocError> {
    let mut all = Vec::new(alloc);
    for (frame, segment, number, value) in UPDATES {
        all.push((frame, update(alloc, segment, number, value)?))?;
    }
    all.push((SCAN, Ok(Some(Request::Scan))))?;
    all.push(([0, 0, 0, 1, 3].as_slice(), Ok(Some(Request::Status))))?;
    for (frame, bits) in PARTS {
        all.push((frame, Ok(Some(Request::Part(SegmentSet { bits })))))?;
    }
    for frame in MALFORMED {
        all.push((frame, Err(Refusal::Malformed)))?;
    }
    Ok(all)
}

/// A part with these segments, numbers and values.
fn part(alloc: Global, entries: &[(u8, u64, &[u8])]) -> Result<Reply, AllocError> {
    let mut values = Vec::new(alloc);
    for (segment, number, value) in entries {
        values.push(NamedValue {
            segment: *segment,
            number: *number,
            value: Bytes::copy_from_slice(alloc, *value)?,
        })?;
    }
    Ok(Reply::Part(values))
}

/// The frames of replies, with what they say.
pub(crate) fn replies(alloc: Global) -> Result<Vec<(&'static [u8], Reply)>, AllocError> {
    let mut all = Vec::new(alloc);
    all.push((STORED, Reply::Stored(1)))?;
    for (frame, why, detail) in REFUSALS {
        all.push((frame, Reply::Refused { why, detail }))?;
    }
    let (mut values, mut statuses) = (Vec::new(alloc), Vec::new(alloc));
    for (number, value) in [(1, b"hi".as_slice()), (0, b"")] {
        let value = Bytes::copy_from_slice(alloc, value)?;
        values.push(SegmentValue { number, value })?;
        statuses.push(SegmentStatus {
            number,
            is_fenced: false,
        })?;
    }
    all.push((SNAPSHOT, Reply::Snapshot(values)))?;
    all.push((STATUS, Reply::Status(statuses)))?;
    all.push((PART, part(alloc, &[(1, 0, b"")])?))?;
    let ends = part(alloc, &[(0, 1, b"hi"), (15, (1 << 63) - 1, b"")])?;
    all.push((ENDS, ends))?;
    Ok(all)
}

/// The frames of these messages.
pub(crate) fn pieces_of<M: Drop>(
    alloc: Global,
    messages: &[(&'static [u8], M)],
) -> Result<Vec<&'static [u8]>, AllocError> {
    messages.iter().map(|it| it.0).collect(alloc)
}
