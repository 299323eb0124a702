//! Clients whose input is cut, whose reads or writes fail, and which get no answer.
mod again;
mod words;

use crate::streams::{Host, joined, sink, source};
use bytes::Bytes;
use snap_client::{Client, ClientFault};
use snap_frame::{Reply, SegmentSet};
use snap_order::TestStream;
use std::alloc::{AllocError, Global};
use std::test::Fail;
use words::{Answer, WORDS, in_words};

/// Frames of an update, a scan, a status and a scan of segment 1, and those of their answers by a
/// server of two segments.
pub(crate) const TALK: [(&[u8], &[u8]); 4] = [
    (
        &[0, 0, 0, 12, 1, 0, 0, 0, 0, 0, 0, 0, 0, 1, 0x68, 0x69],
        &[0, 0, 0, 9, 0x81, 0, 0, 0, 0, 0, 0, 0, 1],
    ),
    (
        &[0, 0, 0, 1, 2],
        &[
            0, 0, 0, 28, 0x82, 2, 0, 0, 0, 0, 0, 0, 0, 1, 0, 0, 0, 2, 0x68, 0x69, 0, 0, 0, 0, 0, 0,
            0, 0, 0, 0, 0, 0,
        ],
    ),
    (
        &[0, 0, 0, 1, 3],
        &[
            0, 0, 0, 20, 0x83, 2, 0, 0, 0, 0, 0, 0, 0, 1, 0, 0, 0, 0, 0, 0, 0, 0, 0, 0,
        ],
    ),
    (
        &[0, 0, 0, 3, 4, 0, 2],
        &[0, 0, 0, 15, 0x84, 1, 1, 0, 0, 0, 0, 0, 0, 0, 0, 0, 0, 0, 0],
    ),
];

/// The refusal of a worn scanner.
pub(crate) const REFUSED: [u8; 14] = [0, 0, 0, 10, 0xE0, 17, 0, 0, 0, 0, 0, 0, 0, 0];

/// Makes the request of this row.
fn ask(client: &mut Client<TestStream, TestStream>, which: usize) -> Result<Reply, ClientFault> {
    match which {
        0 => client.update(0, 1, Bytes::from_static(b"hi")),
        1 => client.scan(),
        2 => client.status(),
        _ => client.scan_some(SegmentSet { bits: 2 }),
    }
}

/// A connection on which the request of a row is made twice.
#[derive(Clone, Copy)]
struct Case<'a> {
    which: usize,
    /// The bytes that the client reads, in pieces of at most `step`. The reader fails after `passes` bytes.
    replies: &'a [u8],
    passes: usize,
    step: usize,
    /// How many bytes the writer takes.
    room: usize,
}

/// The request of this row, with these bytes to read, where no call fails.
fn whole<'a>(which: usize, replies: &'a [u8]) -> Case<'a> {
    Case {
        which,
        replies,
        passes: usize::MAX,
        step: 4096,
        room: usize::MAX,
    }
}

/// The results of two calls, how many bytes were read, and how many of the request's were written: `None` if other
/// bytes were written.
type Given = (Answer, Answer, usize, Option<usize>);

/// Makes the request of the case twice on one connection.
fn talk(alloc: Global, case: &Case<'_>) -> Result<Given, AllocError> {
    let reader = source(alloc, case.replies, case.passes, case.step)?;
    let mut client = Client::new(alloc, reader, sink(alloc, case.room));
    let first = in_words(&ask(&mut client, case.which));
    let second = in_words(&ask(&mut client, case.which));
    let (reader, writer) = client.into_parts();
    let is_part = TALK[case.which].0.starts_with(&writer.bytes);
    let written = is_part.then_some(writer.bytes.len());
    Ok((first, second, reader.passed, written))
}

/// Both calls return this fault, with these numbers of bytes read and of the request's bytes written.
fn fails(
    rt: &impl Host,
    case: &Case<'_>,
    fault: ClientFault,
    read: usize,
    written: usize,
) -> Result<(), AllocError> {
    let wanted = (Err(fault), Err(fault), read, Some(written));
    assert_eq!(rt; talk(rt.alloc(), case)?, wanted, "request {}", case.which);
    Ok(())
}

#[test]
fn answers_in_any_pieces(rt: HostRuntime) -> Result<(), Fail> {
    for which in 0..4 {
        let (request, reply) = TALK[which];
        for step in [1, 7, 4096] {
            for cut in 0..reply.len() {
                let case = Case {
                    step,
                    ..whole(which, &reply[..cut])
                };
                fails(&rt, &case, ClientFault::Ended, cut, request.len())?;
            }
            let room = request.len();
            let case = Case {
                step,
                room,
                ..whole(which, reply)
            };
            let second = Err(ClientFault::WriteFailed);
            let wanted = (Ok(WORDS[which]), second, reply.len(), Some(room));
            assert_eq!(rt;
                talk(rt.alloc(), &case)?,
                wanted,
                "request {which}, pieces of {step}"
            );
        }
    }
    Ok(())
}

#[test]
fn failed_reads_and_writes(rt: HostRuntime) -> Result<(), Fail> {
    for which in 0..4 {
        let (request, reply) = TALK[which];
        for passes in 0..reply.len() {
            let step = 3;
            let case = Case {
                passes,
                step,
                ..whole(which, reply)
            };
            fails(&rt, &case, ClientFault::ReadFailed, passes, request.len())?;
        }
        for room in 0..request.len() {
            let case = Case {
                room,
                ..whole(which, reply)
            };
            fails(&rt, &case, ClientFault::WriteFailed, 0, room)?;
        }
    }
    Ok(())
}

/// Frames that answer no update.
const BAD_REPLIES: [&[u8]; 8] = [
    &[0, 0, 0, 0],
    &[0, 0, 0, 1, 0x81],
    &[0, 0, 0, 9, 0x81, 0x80, 0, 0, 0, 0, 0, 0, 0],
    &[0, 0, 0, 10, 0xE0, 18, 0, 0, 0, 0, 0, 0, 0, 0],
    &[0, 1, 1, 0xD1],
    &[0, 0, 0, 14, 0x82, 1, 0, 0, 0, 0, 0, 0, 0, 1, 0, 0, 0, 0],
    &[0, 0, 0, 11, 0x83, 1, 0, 0, 0, 0, 0, 0, 0, 1, 0],
    &[0, 0, 0, 15, 0x84, 1, 16, 0, 0, 0, 0, 0, 0, 0, 0, 0, 0, 0, 0],
];

#[test]
fn bad_replies(rt: HostRuntime) -> Result<(), Fail> {
    for bad in &BAD_REPLIES {
        let case = whole(0, *bad);
        let read = talk(rt.alloc(), &case)?.2;
        fails(&rt, &case, ClientFault::BadReply, read, TALK[0].0.len())?;
    }
    for asked in 0..4 {
        for answered in 0..4 {
            let (first, ..) = talk(rt.alloc(), &whole(asked, TALK[answered].1))?;
            assert!(rt;
                first.is_ok() == (asked == answered),
                "{answered} for {asked}"
            );
        }
    }
    Ok(())
}

/// A refusal answers any request, and another number than was sent is returned.
#[test]
fn refusals_and_other_numbers(rt: HostRuntime) -> Result<(), Fail> {
    for which in 0..4 {
        let (first, second, ..) = talk(rt.alloc(), &whole(which, &REFUSED))?;
        let is = first == Ok("worn") && second == Err(ClientFault::Ended);
        assert!(rt; is, "request {which}");
    }
    let other = [0, 0, 0, 9, 0x81, 0, 0, 0, 0, 0, 0, 0, 9];
    assert!(rt; talk(rt.alloc(), &whole(0, &other))?.0 == Ok("stored 9"));
    Ok(())
}

/// Bytes that were read with a reply are no answer to the next request.
#[test]
fn unasked_bytes(rt: HostRuntime) -> Result<(), Fail> {
    let (request, reply) = TALK[0];
    let twice = joined(rt.alloc(), &[reply, reply])?;
    let case = whole(0, &twice);
    let (first, second, _, written) = talk(rt.alloc(), &case)?;
    assert!(rt; first == Ok("stored 1") && second == Err(ClientFault::BadReply));
    assert!(rt; written == Some(request.len()));
    let step = reply.len();
    assert!(rt; talk(rt.alloc(), &Case { step, ..case })?.1 == Ok("stored 1"));
    Ok(())
}

/// Run with each allocation refused in turn (`rt try --test --fail-alloc N`): a client answers, or returns `NoMemory`.
#[test]
fn client_without_memory(rt: HostRuntime) -> Result<(), Fail> {
    for which in 0..4 {
        let case = Case {
            step: 7,
            ..whole(which, TALK[which].1)
        };
        if let Ok((first, second, ..)) = talk(rt.alloc(), &case) {
            let is_right = match first {
                Ok(words) => words == WORDS[which],
                Err(ClientFault::NoMemory) => second == Err(ClientFault::NoMemory),
                // The test's writer found no memory.
                Err(fault) => fault == ClientFault::WriteFailed,
            };
            assert!(rt; is_right, "request {which}");
        }
    }
    Ok(())
}
