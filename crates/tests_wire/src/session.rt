//! Sessions whose input is cut, whose reads fail and whose writer is full, compared with a plain model.

mod peers;

use crate::streams::{joined, sink, source};
use peers::{Counter, Later, Peer};
use snap_order::TestStream;
use snap_session::{End, Polled, serve};
use std::alloc::Global;
use std::sync::Wait;
use std::test::Fail;

/// Frames of requests.
const REQUESTS: [&[u8]; 5] = [
    &[0, 0, 0, 12, 1, 7, 0, 0, 0, 0, 0, 0, 0, 1, 0x68, 0x69],
    &[0, 0, 0, 1, 2],
    &[0, 0, 0, 2, 3, 0],
    &[0, 0, 0, 0],
    &[0, 0, 0, 1, 3],
];

/// The replies of `Counter` to them in this order.
const REPLIES: [&[u8]; 5] = [
    &[0, 0, 0, 9, 0x81, 0, 0, 0, 0, 0, 0, 0, 7],
    &[0, 0, 0, 10, 0xE0, 2, 0, 0, 0, 0, 0, 0, 0, 2],
    &[0, 0, 0, 10, 0xE0, 1, 0, 0, 0, 0, 0, 0, 0, 0],
    &[0, 0, 0, 10, 0xE0, 1, 0, 0, 0, 0, 0, 0, 0, 0],
    &[0, 0, 0, 10, 0xE0, 2, 0, 0, 0, 0, 0, 0, 0, 3],
];

const TOO_LARGE: &[u8] = &[0, 1, 1, 0xD1];

const REFUSED_TOO_LARGE: &[u8] = &[0, 0, 0, 10, 0xE0, 15, 0, 0, 0, 0, 0, 1, 1, 0xD0];

/// How many requests end within the first `len` bytes of them all, and whether these end between frames.
fn frames_within(len: usize) -> (usize, bool) {
    let mut left = len;
    for (count, frame) in REQUESTS.iter().enumerate() {
        if left < frame.len() {
            return (count, left == 0);
        }
        left -= frame.len();
    }
    (REQUESTS.len(), true)
}

/// The bytes that a session writes, in pieces of three and `room` bytes at most, and how it ends.
fn run(rt: &impl Wait, alloc: Global, mut reader: TestStream, room: usize) -> (End, Vec<u8>) {
    let mut writer = sink(alloc, room);
    let mut service = Counter { answered: 0 };
    let end = serve(rt, alloc, &mut reader, &mut writer, &mut service);
    (end, writer.bytes)
}

#[test]
fn cut_input(rt: HostRuntime) -> Result<(), Fail> {
    let input = joined(rt.alloc(), &REQUESTS)?;
    for cut in 0..=input.len() {
        let (count, is_between) = frames_within(cut);
        let end = if is_between {
            End::Closed
        } else {
            End::Truncated
        };
        let replies = joined(rt.alloc(), &REPLIES[..count])?;
        for piece in [1, 7, 4096] {
            let reader = source(rt.alloc(), &input[..cut], usize::MAX, piece)?;
            let given = run(&rt, rt.alloc(), reader, usize::MAX);
            assert!(rt;
                given.0 == end && given.1 == replies,
                "cut at {cut} in pieces of {piece}"
            );
        }
    }
    Ok(())
}

#[test]
fn failed_output(rt: HostRuntime) -> Result<(), Fail> {
    let input = joined(rt.alloc(), &REQUESTS)?;
    let replies = joined(rt.alloc(), &REPLIES)?;
    for room in 0..replies.len() {
        let reader = source(rt.alloc(), &input, usize::MAX, 4096)?;
        let (end, written) = run(&rt, rt.alloc(), reader, room);
        let is = end == End::WriteFailed && written.as_slice() == &replies[..room];
        assert!(rt; is, "room {room}");
    }
    Ok(())
}

/// Each read gives one byte. What came before one that fails is answered.
#[test]
fn reader_fails_at_each_read(rt: HostRuntime) -> Result<(), Fail> {
    let input = joined(rt.alloc(), &REQUESTS)?;
    for read in 0..input.len() {
        let replies = joined(rt.alloc(), &REPLIES[..frames_within(read).0])?;
        let reader = source(rt.alloc(), &input, read, 1)?;
        let (end, written) = run(&rt, rt.alloc(), reader, usize::MAX);
        assert!(rt; end == End::ReadFailed && written == replies, "read {read}");
    }
    Ok(())
}

/// A length that is too large, after some frames and before all of them, ends the session.
#[test]
fn too_large_at_each_place(rt: HostRuntime) -> Result<(), Fail> {
    let all = joined(rt.alloc(), &REQUESTS)?;
    for place in 0..=REQUESTS.len() {
        let before = joined(rt.alloc(), &REQUESTS[..place])?;
        let bytes = joined(rt.alloc(), &[&before, TOO_LARGE, &all])?;
        let replies = joined(rt.alloc(), &REPLIES[..place])?;
        let replies = joined(rt.alloc(), &[&replies, REFUSED_TOO_LARGE])?;
        let reader = source(rt.alloc(), &bytes, usize::MAX, 4096)?;
        let (end, written) = run(&rt, rt.alloc(), reader, usize::MAX);
        assert!(rt; end == End::TooLarge && written == replies, "place {place}");
    }
    Ok(())
}

/// The replies to the requests, whose update was handed over under key 5, and whose outcome was 9.
const LATER: [&[u8]; 5] = [
    &[0, 0, 0, 10, 0xE0, 6, 0, 0, 0, 0, 0, 0, 0, 9],
    &[0, 0, 0, 10, 0xE0, 2, 0, 0, 0, 0, 0, 0, 0, 5],
    &[0, 0, 0, 10, 0xE0, 1, 0, 0, 0, 0, 0, 0, 0, 0],
    &[0, 0, 0, 10, 0xE0, 1, 0, 0, 0, 0, 0, 0, 0, 0],
    &[0, 0, 0, 10, 0xE0, 2, 0, 0, 0, 0, 0, 0, 0, 5],
];

/// No request after one that was handed over is answered before it.
#[test]
fn handed_over_and_finished_later(rt: HostRuntime) -> Result<(), Fail> {
    let input = joined(rt.alloc(), &REQUESTS)?;
    let mut peer = Peer::new(rt.alloc(), &input, 4096, false)?;
    assert!(rt; peer.turn(&mut Later, 5) == Polled::NeedsOutcome && peer.is_waiting());
    peer.finish(9);
    assert!(rt; peer.turn(&mut Later, 5) == Polled::Over(End::Closed));
    assert!(rt; peer.written() == joined(rt.alloc(), &LATER)?.as_slice());
    Ok(())
}

/// Two sessions on one service, by turns of 16 bytes: each peer gets the replies to its own requests. The request that
/// is whole first is answered first.
#[test]
fn two_sessions_by_turns(rt: HostRuntime) -> Result<(), Fail> {
    let mut first = Peer::new(rt.alloc(), REQUESTS[0], 1, false)?;
    let mut second = Peer::new(rt.alloc(), REQUESTS[1], 1, false)?;
    let mut service = Counter { answered: 0 };
    for end in [Polled::Again, Polled::Over(End::Closed)] {
        assert!(rt; first.turn(&mut service, 0) == end);
        assert!(rt; second.turn(&mut service, 1) == Polled::Over(End::Closed));
    }
    let refused = [0, 0, 0, 10, 0xE0, 2, 0, 0, 0, 0, 0, 0, 0, 1];
    assert!(rt; first.written() == REPLIES[0] && second.written() == refused.as_slice());
    Ok(())
}

/// Whether these are as many bytes as some of the replies' frames have, from the first one on.
fn ends_between_frames(written: &[u8]) -> bool {
    let mut len = 0;
    for reply in &REPLIES {
        if written.len() == len {
            return true;
        }
        len += reply.len();
    }
    written.len() == len
}

/// Run with each allocation refused in turn (`rt try --test --fail-alloc N`): a session that ends without memory has
/// written whole frames of the first replies, and nothing else.
#[test]
fn session_without_memory(rt: HostRuntime) {
    for piece in [1, 7, 4096] {
        let (Ok(input), Ok(replies)) = (joined(rt.alloc(), &REQUESTS), joined(rt.alloc(), &REPLIES))
        else {
            return;
        };
        let Ok(reader) = source(rt.alloc(), &input, usize::MAX, piece) else {
            return;
        };
        let (end, written) = run(&rt, rt.alloc(), reader, usize::MAX);
        let is_whole = match end {
            End::Closed => written.len() == replies.len(),
            End::NoMemory => ends_between_frames(&written),
            // The test's writer found no memory.
            end => end == End::WriteFailed,
        };
        assert!(rt;
            is_whole && replies.starts_with(&written),
            "pieces of {piece}"
        );
    }
}

/// A session whose peer makes it wait at every other step continues where it stopped.
#[test]
fn reader_and_writer_that_wait(rt: HostRuntime) -> Result<(), Fail> {
    let input = joined(rt.alloc(), &REQUESTS)?;
    let mut peer = Peer::new(rt.alloc(), &input, 7, true)?;
    let mut service = Counter { answered: 0 };
    let (mut has_needed_input, mut has_needed_room, mut last) = (false, false, Polled::Again);
    for _ in 0..1000 {
        last = peer.turn(&mut service, 0);
        match last {
            Polled::NeedsInput => has_needed_input = true,
            Polled::NeedsRoom => has_needed_room = true,
            _ => break,
        }
    }
    assert!(rt; last == Polled::Over(End::Closed) && has_needed_input && has_needed_room);
    assert!(rt; peer.written() == joined(rt.alloc(), &REPLIES)?.as_slice());
    Ok(())
}
