//! One request on one connection after another.
use super::words::{Answer, in_words};
use super::{REFUSED, TALK};
use crate::streams::{sink, source};
use bytes::Bytes;
use snap_client::{ClientFault, call_again};
use snap_frame::Request;
use std::alloc::{AllocError, Global};
use std::test::Fail;

/// The result of the update in `tries` over these connections, of which `None` can't be made, and how many of them
/// weren't asked for.
fn update(
    alloc: Global,
    connections: &[Option<&[u8]>],
    tries: u8,
) -> Result<(Answer, usize), AllocError> {
    let mut links = Vec::new(alloc);
    for bytes in connections.iter().rev() {
        links.push(match bytes {
            Some(bytes) => {
                let reader = source(alloc, *bytes, usize::MAX, 4096)?;
                Some((reader, sink(alloc, usize::MAX)))
            }
            None => None,
        })?;
    }
    let request = Request::Update {
        segment: 0,
        number: 1,
        value: Bytes::from_static(b"hi"),
    };
    let mut connect = || match links.pop() {
        Some(link) => link,
        None => None,
    };
    let answer = call_again(alloc, &mut connect, &request, tries);
    Ok((in_words(&answer), links.len()))
}

/// The first connection can't be made, the second one ends once the update was stored, and the
/// third one answers its repeat. The last try's fault is the answer.
#[test]
fn third_try_succeeds(rt: HostRuntime) -> Result<(), Fail> {
    let stored = TALK[0].1;
    let connections = [None, Some(&stored[..0]), Some(stored), Some(stored)];
    for (tries, answer, left) in [
        (3, Ok("stored 1"), 1),
        (10, Ok("stored 1"), 1),
        (2, Err(ClientFault::Ended), 2),
        (1, Err(ClientFault::ConnectFailed), 3),
    ] {
        assert_eq!(rt; update(rt.alloc(), &connections, tries)?, (answer, left));
    }
    Ok(())
}

/// A refusal and a reply of another kind aren't tried again.
#[test]
fn ends_for_good(rt: HostRuntime) -> Result<(), Fail> {
    for (reply, answer) in [
        (REFUSED.as_slice(), Ok("worn")),
        (TALK[1].1, Err(ClientFault::BadReply)),
    ] {
        let connections = [Some(reply), Some(TALK[0].1)];
        assert_eq!(rt; update(rt.alloc(), &connections, 3)?, (answer, 1));
    }
    Ok(())
}
