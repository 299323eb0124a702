//! The worked vectors of docs/FORMATS.md, "Frames and messages": cut everywhere, written again, and without memory.

mod longest;
mod messages;
mod random;

use crate::streams::{Host, joined};
use bytes::BytesMut;
use messages::{Answer, SCAN, STORED, pieces_of, replies, requests, update};
use snap_disk::Refusal;
use snap_frame::{
    Feed, FrameFault, Reply, ReplyFault, ReplyFeed, Request, write_reply, write_request,
};
use std::alloc::Global;
use std::test::Fail;

/// The feed answers so next.
pub(crate) fn comes(rt: &impl Host, feed: &mut Feed, answer: &Answer) {
    assert_eq!(rt; feed.next(), *answer);
}

/// The feed of replies answers so next.
fn reply_comes(rt: &impl Host, feed: &mut ReplyFeed, answer: &Result<Option<Reply>, ReplyFault>) {
    assert_eq!(rt; feed.next(), *answer);
}

/// A frame is answered with its last byte, and with none before.
#[test]
fn frames_in_any_pieces(rt: HostRuntime) -> Result<(), Fail> {
    let mut feed = Feed::new(rt.alloc());
    for (frame, answer) in &requests(rt.alloc())? {
        for byte in frame.iter() {
            comes(&rt, &mut feed, &Ok(None));
            feed.push(&[*byte])?;
            assert!(rt; !feed.is_between());
        }
        comes(&rt, &mut feed, answer);
        assert!(rt; feed.is_between());
    }
    Ok(())
}

/// A frame of a reply is read with its last byte, and not before.
#[test]
fn replies_in_any_pieces(rt: HostRuntime) -> Result<(), Fail> {
    let mut feed = ReplyFeed::new(rt.alloc());
    for (frame, reply) in &replies(rt.alloc())? {
        for byte in frame.iter() {
            reply_comes(&rt, &mut feed, &Ok(None));
            feed.push(&[*byte])?;
            assert!(rt; !feed.is_between());
        }
        let given = feed.next()?;
        assert!(rt;
            given.is_some_and(|it| it == *reply) && feed.is_between(),
            "{frame:?}"
        );
    }
    Ok(())
}

/// The stream of all requests, cut in two at each of its bytes.
#[test]
fn requests_cut_anywhere(rt: HostRuntime) -> Result<(), Fail> {
    let requests = requests(rt.alloc())?;
    let stream = joined(rt.alloc(), &pieces_of(rt.alloc(), &requests)?)?;
    for cut in 0..=stream.len() {
        let mut feed = Feed::new(rt.alloc());
        let mut left = requests.iter();
        for piece in [&stream[..cut], &stream[cut..]] {
            feed.push(piece)?;
            for _ in 0..requests.len() {
                match feed.next() {
                    Ok(None) => break,
                    given => assert!(rt; left.next().is_some_and(|it| it.1 == given), "{cut}"),
                }
            }
        }
        assert!(rt; left.next().is_none(), "cut at {cut}");
        comes(&rt, &mut feed, &Ok(None));
    }
    Ok(())
}

/// The stream of all replies, cut in two at each of its bytes.
#[test]
fn replies_cut_anywhere(rt: HostRuntime) -> Result<(), Fail> {
    let replies = replies(rt.alloc())?;
    let stream = joined(rt.alloc(), &pieces_of(rt.alloc(), &replies)?)?;
    for cut in 0..=stream.len() {
        let mut feed = ReplyFeed::new(rt.alloc());
        let mut left = replies.iter();
        for piece in [&stream[..cut], &stream[cut..]] {
            feed.push(piece)?;
            for _ in 0..replies.len() {
                match feed.next()? {
                    None => break,
                    Some(given) => assert!(rt;
                        left.next().is_some_and(|it| it.1 == given),
                        "{cut}"
                    ),
                }
            }
        }
        assert!(rt; left.next().is_none() && feed.is_between(), "cut at {cut}");
    }
    Ok(())
}

/// The reply of the frame is written as the same frame.
pub(crate) fn is_rewritten(rt: &impl Host, frame: &[u8]) -> Result<(), Fail> {
    let mut feed = ReplyFeed::new(rt.alloc());
    feed.push(frame)?;
    let mut out = BytesMut::new(rt.alloc());
    if let Some(reply) = feed.next()? {
        write_reply(&reply, &mut out)?;
    }
    assert_eq!(rt; out.as_slice(), frame);
    Ok(())
}

/// The request is written as its frame, after what the buffer has.
pub(crate) fn is_written(rt: &impl Host, request: &Request, frame: &[u8]) -> Result<(), Fail> {
    let mut out = BytesMut::new(rt.alloc());
    write_request(&Request::Scan, &mut out)?;
    write_request(request, &mut out)?;
    let wanted = joined(rt.alloc(), &[SCAN, frame])?;
    assert_eq!(rt; out.as_slice(), wanted.as_slice());
    Ok(())
}

#[test]
fn messages_are_written_as_their_frames(rt: HostRuntime) -> Result<(), Fail> {
    for (frame, answer) in &requests(rt.alloc())? {
        if let Ok(Some(request)) = answer {
            is_written(&rt, request, *frame)?;
        }
    }
    for (frame, _) in &replies(rt.alloc())? {
        is_rewritten(&rt, *frame)?;
    }
    Ok(())
}

/// An update whose value is too long for a segment is a request, whole with its last byte.
#[test]
fn long_value_in_any_pieces(rt: HostRuntime) -> Result<(), Fail> {
    let mut feed = Feed::new(rt.alloc());
    feed.push(&[0, 0, 0x0F, 0xFB, 1, 1, 0, 0, 0, 0, 0, 0, 0, 1])?;
    for _ in 0..4081 {
        comes(&rt, &mut feed, &Ok(None));
        feed.push(b"v")?;
    }
    comes(&rt, &mut feed, &update(rt.alloc(), 1, 1, &[b'v'; 4081])?);
    assert!(rt; feed.is_between());
    Ok(())
}

/// A refused length ends the feed, and a malformed frame ends nothing.
#[test]
fn too_large_and_malformed(rt: HostRuntime) -> Result<(), Fail> {
    let mut feed = Feed::new(rt.alloc());
    feed.push(&[0, 0, 0, 0, 0, 0, 0, 1, 2, 0, 1, 1, 0xD1, 0, 0, 0, 1, 2])?;
    comes(&rt, &mut feed, &Err(Refusal::Malformed));
    comes(&rt, &mut feed, &Ok(Some(Request::Scan)));
    for _ in 0..2 {
        comes(&rt, &mut feed, &Err(Refusal::TooLarge));
        assert!(rt; feed.push(SCAN) == Err(Refusal::TooLarge) && !feed.is_between());
    }
    let mut feed = ReplyFeed::new(rt.alloc());
    feed.push(&[0, 0, 0, 0])?;
    feed.push(STORED)?;
    feed.push(&[0, 1, 1, 0xD1])?;
    reply_comes(&rt, &mut feed, &Err(ReplyFault::BadReply));
    reply_comes(&rt, &mut feed, &Ok(Some(Reply::Stored(1))));
    for _ in 0..2 {
        reply_comes(
            &rt,
            &mut feed,
            &Err(ReplyFault::Failed(FrameFault::TooLarge)),
        );
        assert!(rt; feed.push(&[0]) == Err(FrameFault::TooLarge) && !feed.is_between());
    }
    Ok(())
}

/// The payload breaks the grammar of replies. That ends nothing.
pub(crate) fn is_bad_reply(rt: &impl Host, payload: &[u8]) -> Result<(), Fail> {
    let mut feed = ReplyFeed::new(rt.alloc());
    feed.push(&(payload.len() as u32).to_be_bytes())?;
    feed.push(payload)?;
    reply_comes(rt, &mut feed, &Err(ReplyFault::BadReply));
    assert!(rt; feed.is_between());
    Ok(())
}

/// Payloads that break the grammar of replies in one place each.
const BAD_REPLIES: [&[u8]; 30] = [
    &[],
    &[0x81],
    &[0x81, 0, 0, 0, 0, 0, 0, 0],
    &[0x81, 0, 0, 0, 0, 0, 0, 0, 1, 0],
    &[0x81, 0x80, 0, 0, 0, 0, 0, 0, 0],
    &[0x82],
    &[0x82, 0],
    &[0x82, 1, 0, 0, 0, 0, 0, 0, 0, 1, 0, 0, 0, 2, 0x68],
    &[0x82, 1, 0, 0, 0, 0, 0, 0, 0, 1, 0, 0, 0, 1, 0x68, 0x69],
    &[0x82, 2, 0, 0, 0, 0, 0, 0, 0, 1, 0, 0, 0, 1, 0x68],
    &[0x82, 1, 0, 0, 0, 0, 0, 0, 0, 1, 0, 0, 0x0F, 0xF1],
    &[0x83, 1, 0, 0, 0, 0, 0, 0, 0, 1, 2],
    &[0x83, 2, 0, 0, 0, 0, 0, 0, 0, 1, 1],
    &[0xE0, 0, 0, 0, 0, 0, 0, 0, 0, 0],
    &[0xE0, 4, 0, 0, 0, 0, 0, 0, 0],
    &[0x84, 0, 0, 0, 0, 0, 0, 0, 1],
    // A part: no count, no entry, too many of them.
    &[0x84],
    &[0x84, 0],
    &[0x84, 17],
    // Fewer entries than are counted, and more.
    &[0x84, 1],
    &[0x84, 2, 0, 0, 0, 0, 0, 0, 0, 0, 0, 0, 0, 0, 0],
    &[0x84, 1, 0, 0, 0, 0, 0, 0, 0, 0, 0, 0, 0, 0, 0, 1],
    // An entry without its segment.
    &[0x84, 1, 0, 0, 0, 0, 0, 0, 0, 1, 0, 0, 0, 0],
    // A value with a byte too few, and one too many.
    &[0x84, 1, 0, 0, 0, 0, 0, 0, 0, 0, 1, 0, 0, 0, 2, 0x68],
    &[0x84, 1, 0, 0, 0, 0, 0, 0, 0, 0, 1, 0, 0, 0, 1, 0x68, 0x69],
    // Segment 16, the number 2^63, a length of 4,081.
    &[0x84, 1, 16, 0, 0, 0, 0, 0, 0, 0, 0, 0, 0, 0, 0],
    &[0x84, 1, 0, 0x80, 0, 0, 0, 0, 0, 0, 0, 0, 0, 0, 0],
    &[0x84, 1, 0, 0, 0, 0, 0, 0, 0, 0, 0, 0, 0, 0x0F, 0xF1],
    // A segment twice, and a smaller one after a greater one.
    &[
        0x84, 2, 3, 0, 0, 0, 0, 0, 0, 0, 0, 0, 0, 0, 0, 3, 0, 0, 0, 0, 0, 0, 0, 0, 0, 0, 0, 0,
    ],
    &[
        0x84, 2, 3, 0, 0, 0, 0, 0, 0, 0, 0, 0, 0, 0, 0, 2, 0, 0, 0, 0, 0, 0, 0, 0, 0, 0, 0, 0,
    ],
];

#[test]
fn bad_replies(rt: HostRuntime) -> Result<(), Fail> {
    for payload in &BAD_REPLIES {
        is_bad_reply(&rt, *payload)?;
    }
    Ok(())
}

/// The frame is pushed, and again if there was no memory, which changed nothing. Whether the feed has it.
fn is_pushed(rt: &impl Host, feed: &mut Feed, frame: &[u8]) -> bool {
    if feed.push(frame) != Err(Refusal::NoMemory) {
        return true;
    }
    comes(rt, feed, &Ok(None));
    assert!(rt; feed.is_between());
    feed.push(frame).is_ok()
}

/// Run with each allocation refused in turn (`rt try --test --fail-alloc N`): a push without memory changes nothing and
/// may be made again, and a feed that couldn't take a frame off returns `NoMemory` from then on.
#[test]
fn requests_without_memory(rt: HostRuntime) {
    let Ok(requests) = requests(rt.alloc()) else {
        return;
    };
    let mut feed = Feed::new(rt.alloc());
    for (frame, answer) in &requests {
        if !is_pushed(&rt, &mut feed, *frame) {
            return;
        }
        let given = feed.next();
        if given == Err(Refusal::NoMemory) {
            comes(&rt, &mut feed, &given);
            assert!(rt; feed.push(*frame) == given.map(|_| ()) && !feed.is_between());
            return;
        }
        assert!(rt; given == *answer);
    }
    comes(&rt, &mut feed, &Ok(None));
}

/// The reply of the frame is read and written again, or there was no memory: a feed returns that from then on, and a
/// buffer stays as it was.
fn is_reply_of(rt: &impl Host, alloc: Global, frame: &[u8], reply: &Reply) {
    let mut feed = ReplyFeed::new(alloc);
    if feed.push(frame).is_err() {
        assert!(rt; feed.is_between());
        return;
    }
    let given = match feed.next() {
        Ok(Some(given)) => given,
        answer => {
            assert!(rt; answer == Err(ReplyFault::Failed(FrameFault::NoMemory)));
            return reply_comes(rt, &mut feed, &answer);
        }
    };
    assert!(rt; given == *reply);
    let mut out = BytesMut::new(alloc);
    match write_reply(&given, &mut out) {
        Ok(()) => assert_eq!(rt; out.as_slice(), frame),
        Err(why) => assert!(rt; why == Refusal::NoMemory && out.is_empty()),
    }
}

/// Run with each allocation refused in turn.
#[test]
fn replies_without_memory(rt: HostRuntime) {
    if let Ok(replies) = replies(rt.alloc()) {
        for (frame, reply) in &replies {
            is_reply_of(&rt, rt.alloc(), *frame, reply);
        }
    }
}
