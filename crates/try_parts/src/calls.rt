//! Calls of clients whose peer's replies are there already.
use bytes::Bytes;
use snap_client::{Client, ClientFault};
use snap_frame::{Reply, Request};
use std::alloc::{AllocError, Global};
use std::io::{self, Write};

/// A writer that takes all bytes and keeps none.
#[derive(Drop)]
struct Nowhere;

impl Write for Nowhere {
    fn write(&mut self, buf: &[u8]) -> io::Result<usize> {
        Ok(buf.len())
    }

    fn flush(&mut self) -> io::Result<()> {
        Ok(())
    }
}

/// The frames of a server's replies to an update, a status and a scan.
#[derive(Drop)]
struct Frames {
    stored: Vec<u8>,
    status: Vec<u8>,
    snapshot: Vec<u8>,
}

/// The payload after its length.
fn frame_of(alloc: Global, payload: &[u8]) -> Result<Vec<u8>, AllocError> {
    let mut frame = Vec::from_slice(alloc, &(payload.len() as u32).to_be_bytes())?;
    frame.extend_from_slice(payload)?;
    Ok(frame)
}

/// The replies of a server of `segments` segments, each at number 1 with this value.
fn replies(alloc: Global, segments: u8, value: &[u8]) -> Result<Frames, AllocError> {
    let mut status = Vec::from_slice(alloc, &[0x83, segments])?;
    let mut snapshot = Vec::from_slice(alloc, &[0x82, segments])?;
    for _ in 0..segments {
        status.extend_from_slice(&[0, 0, 0, 0, 0, 0, 0, 1, 0])?;
        snapshot.extend_from_slice(&[0, 0, 0, 0, 0, 0, 0, 1])?;
        snapshot.extend_from_slice(&(value.len() as u32).to_be_bytes())?;
        snapshot.extend_from_slice(value)?;
    }
    Ok(Frames {
        stored: frame_of(alloc, &[0x81, 0, 0, 0, 0, 0, 0, 0, 1])?,
        status: frame_of(alloc, &status)?,
        snapshot: frame_of(alloc, &snapshot)?,
    })
}

/// One request on a connection of its own.
fn call_once(alloc: Global, request: &Request, reply: &[u8]) -> Result<Reply, ClientFault> {
    Client::new(alloc, reply, Nowhere).call(request)
}

/// The three requests. The last answer, or the first fault.
fn call_each(alloc: Global, update: &Request, frames: &Frames) -> Result<Reply, ClientFault> {
    let _ = call_once(alloc, update, &frames.stored)?;
    let _ = call_once(alloc, &Request::Status, &frames.status)?;
    call_once(alloc, &Request::Scan, &frames.snapshot)
}

/// An update, a status and a scan of a server of `segments` segments with this value each, `rounds` times. Returns the
/// results of the last time.
pub(crate) fn call_rounds(
    alloc: Global,
    segments: u8,
    value: &[u8],
    rounds: u64,
) -> Result<Option<Result<Reply, ClientFault>>, AllocError> {
    let frames = replies(alloc, segments, value)?;
    let update = Request::Update {
        segment: 0,
        number: 1,
        value: Bytes::copy_from_slice(alloc, b"hi")?,
    };
    let mut last = None;
    for _ in 0..rounds {
        last = Some(call_each(alloc, &update, &frames));
    }
    Ok(last)
}
