//! Streams that tests read and write, and bytes for them.
use snap_order::TestStream;
use std::alloc::{AllocError, Global};
use std::process::Abort;

/// The runtime of a test: it may end the process, and allocate.
pub(crate) trait Host: Abort + AllocGlobal {}

impl<R: Abort + AllocGlobal> Host for R {}

/// A stream that gives these bytes in pieces of at most `step`, and fails after `passes` bytes.
pub(crate) fn source(
    alloc: Global,
    bytes: &[u8],
    passes: usize,
    step: usize,
) -> Result<TestStream, AllocError> {
    Ok(TestStream {
        bytes: Vec::from_slice(alloc, bytes)?,
        passed: 0,
        passes,
        step,
    })
}

/// A stream that takes at most `room` bytes, three at once.
pub(crate) fn sink(alloc: Global, room: usize) -> TestStream {
    TestStream {
        bytes: Vec::new(alloc),
        passed: 0,
        passes: room,
        step: 3,
    }
}

/// The pieces, in a row.
pub(crate) fn joined(alloc: Global, pieces: &[&[u8]]) -> Result<Vec<u8>, AllocError> {
    let mut all = Vec::new(alloc);
    for piece in pieces {
        all.extend_from_slice(*piece)?;
    }
    Ok(all)
}
