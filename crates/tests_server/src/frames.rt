//! Frames of requests, and of their replies by a server of two segments.
use std::alloc::{AllocError, Global};

/// A request and the reply to it.
pub(crate) type Pair<'a> = (&'a [u8], &'a [u8]);

/// An update of segment 0 to number 1 by `hi`.
pub(crate) const HI: &[u8] = &[0, 0, 0, 12, 1, 0, 0, 0, 0, 0, 0, 0, 0, 1, 0x68, 0x69];

pub(crate) const STORED_0: &[u8] = &[0, 0, 0, 9, 0x81, 0, 0, 0, 0, 0, 0, 0, 0];

pub(crate) const STORED_1: &[u8] = &[0, 0, 0, 9, 0x81, 0, 0, 0, 0, 0, 0, 0, 1];

/// An update of segment 0 to number 0, which every segment has already.
pub(crate) const REPEAT: &[u8] = &[0, 0, 0, 10, 1, 0, 0, 0, 0, 0, 0, 0, 0, 0];

pub(crate) const FAILED: &[u8] = &[0, 0, 0, 10, 0xE0, 13, 0, 0, 0, 0, 0, 0, 0, 0];

pub(crate) const FENCED: &[u8] = &[0, 0, 0, 10, 0xE0, 6, 0, 0, 0, 0, 0, 0, 0, 0];

pub(crate) const SCAN: &[u8] = &[0, 0, 0, 1, 2];

/// The snapshot of a new memory.
pub(crate) const EMPTY: &[u8] = &[
    0, 0, 0, 26, 0x82, 2, 0, 0, 0, 0, 0, 0, 0, 0, 0, 0, 0, 0, 0, 0, 0, 0, 0, 0, 0, 0, 0, 0, 0, 0,
];

/// The snapshot after the update.
pub(crate) const SNAPSHOT_HI: &[u8] = &[
    0, 0, 0, 28, 0x82, 2, 0, 0, 0, 0, 0, 0, 0, 1, 0, 0, 0, 2, 0x68, 0x69, 0, 0, 0, 0, 0, 0, 0, 0,
    0, 0, 0, 0,
];

/// A scan of the first two segments, and its reply after the update.
pub(crate) const BOTH: &[u8] = &[0, 0, 0, 3, 4, 0, 3];

pub(crate) const BOTH_HI: &[u8] = &[
    0, 0, 0, 30, 0x84, 2, 0, 0, 0, 0, 0, 0, 0, 0, 1, 0, 0, 0, 2, 0x68, 0x69, 1, 0, 0, 0, 0, 0, 0,
    0, 0, 0, 0, 0, 0,
];

pub(crate) const STATUS: &[u8] = &[0, 0, 0, 1, 3];

/// Another value of the same number.
pub(crate) const CONFLICT: Pair<'static> = (
    &[0, 0, 0, 11, 1, 0, 0, 0, 0, 0, 0, 0, 0, 1, 0x68],
    &[0, 0, 0, 10, 0xE0, 4, 0, 0, 0, 0, 0, 0, 0, 1],
);

/// Number 3 after number 1.
pub(crate) const OUT_OF_STEP: Pair<'static> = (
    &[0, 0, 0, 10, 1, 0, 0, 0, 0, 0, 0, 0, 0, 3],
    &[0, 0, 0, 10, 0xE0, 5, 0, 0, 0, 0, 0, 0, 0, 1],
);

/// The third of two segments.
pub(crate) const NO_SEGMENT: Pair<'static> = (
    &[0, 0, 0, 10, 1, 2, 0, 0, 0, 0, 0, 0, 0, 1],
    &[0, 0, 0, 10, 0xE0, 2, 0, 0, 0, 0, 0, 0, 0, 2],
);

/// A status after the update.
pub(crate) const STATUS_HI: Pair<'static> = (
    STATUS,
    &[
        0, 0, 0, 20, 0x83, 2, 0, 0, 0, 0, 0, 0, 0, 1, 0, 0, 0, 0, 0, 0, 0, 0, 0, 0,
    ],
);

/// The frames in a row.
pub(crate) fn joined(alloc: Global, frames: &[&[u8]]) -> Result<Vec<u8>, AllocError> {
    let mut all = Vec::new(alloc);
    for frame in frames {
        all.extend_from_slice(*frame)?;
    }
    Ok(all)
}

/// The requests in a row, and their replies.
pub(crate) fn halves(alloc: Global, talk: &[Pair<'_>]) -> Result<(Vec<u8>, Vec<u8>), AllocError> {
    let mut requests = Vec::new(alloc);
    let mut replies = Vec::new(alloc);
    for (request, reply) in talk {
        requests.extend_from_slice(*request)?;
        replies.extend_from_slice(*reply)?;
    }
    Ok((requests, replies))
}
