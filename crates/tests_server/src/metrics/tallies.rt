//! Requests and their replies, as they are counted.
use crate::frames::{
    BOTH, BOTH_HI, CONFLICT, EMPTY, FENCED, HI, REPEAT, SCAN, SNAPSHOT_HI, STATUS, STATUS_HI,
    STORED_1,
};
use snap_frame::{Feed, Reply, ReplyFeed, Request, reply_frame_len, request_frame_len};
use snap_service::RequestCounts;
use std::alloc::Global;
use std::process::Abort;
use std::test::Fail;

/// The request of a frame.
fn request_of(alloc: Global, frame: &[u8]) -> Result<Request, Fail> {
    let mut feed = Feed::new(alloc);
    feed.push(frame)?;
    match feed.next()? {
        Some(message) => Ok(message),
        None => Err(Fail::from("no frame")),
    }
}

/// The reply of a frame.
fn reply_of(alloc: Global, frame: &[u8]) -> Result<Reply, Fail> {
    let mut feed = ReplyFeed::new(alloc);
    feed.push(frame)?;
    match feed.next()? {
        Some(message) => Ok(message),
        None => Err(Fail::from("no frame")),
    }
}

#[test]
fn lengths_are_those_of_the_frames(rt: HostRuntime) -> Result<(), Fail> {
    for frame in [HI, REPEAT, SCAN, STATUS, BOTH] {
        let request = request_of(rt.alloc(), frame)?;
        assert!(rt; request_frame_len(&request) == frame.len());
    }
    for frame in [STORED_1, EMPTY, SNAPSHOT_HI, STATUS_HI.1, BOTH_HI, FENCED] {
        let reply = reply_of(rt.alloc(), frame)?;
        assert!(rt; reply_frame_len(&reply) == frame.len());
    }
    Ok(())
}

#[test]
fn each_kind_is_counted(rt: HostRuntime) -> Result<(), Fail> {
    let mut tally = RequestCounts::new();
    for (request, reply, looks) in [
        (HI, STORED_1, 0),
        (CONFLICT.0, CONFLICT.1, 1),
        (HI, FENCED, 1),
        (SCAN, SNAPSHOT_HI, 4),
        (BOTH, BOTH_HI, 6),
        (STATUS, STATUS_HI.1, 0),
    ] {
        let request = request_of(rt.alloc(), request)?;
        let reply = reply_of(rt.alloc(), reply)?;
        tally.count(&request, &reply, looks);
    }
    let mut wanted = RequestCounts::new();
    wanted.updates = 3;
    wanted.scans = 1;
    wanted.parts = 1;
    wanted.statuses = 1;
    wanted.refusals[3] = 1;
    wanted.refusals[5] = 1;
    wanted.looks = 12;
    wanted.bytes_in = 16 + 15 + 16 + 5 + 7 + 5;
    wanted.bytes_out = 13 + 14 + 14 + 32 + 34 + 24;
    assert!(rt; tally == wanted);
    Ok(())
}

#[test]
fn merged_numbers_stay_at_the_largest(rt: HostRuntime) {
    let mut tally = RequestCounts::new();
    tally.scans = u64::MAX;
    tally.refusals[16] = 2;
    let mut other = RequestCounts::new();
    other.scans = 2;
    other.updates = 5;
    other.refusals[16] = u64::MAX - 1;
    tally.merge(&other);
    let mut wanted = RequestCounts::new();
    wanted.scans = u64::MAX;
    wanted.updates = 5;
    wanted.refusals[16] = u64::MAX;
    assert!(rt; tally == wanted);
}
