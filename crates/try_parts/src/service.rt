//! Requests to a node over three files in memory, and calls of clients, for tests/test_service_allocations.py and
//! tests/test_client_allocations.py, which refuse each allocation in turn.
//!
//!     try_parts service-allocations update|scan|part|status ROUNDS
//!
//! updates each segment to number 1 with 40 bytes, makes the same request ROUNDS times, and prints its last reply. The
//! update is that of the first segment to number 2: the first round stores it, and the others repeat it. A part is a
//! scan of the first two segments.
//!
//!     try_parts service-allocations call ROUNDS
//!
//! calls for an update, a status and a scan ROUNDS times, each on a connection in memory of its own that has the reply
//! of such a server, and prints the last answer, or why there was none.
use crate::calls::call_rounds;
use crate::files::{new_memories, opened_all};
use bytes::Bytes;
use snap_devices::MemDisk;
use snap_frame::{Reply, Request, SegmentSet};
use snap_service::{Node, Shared};
use snap_session::Service;
use std::alloc::{AllocError, Global};
use std::io;
use std::marker::Brand;
use std::sync::Wait;

const FILES: u8 = 3;

/// The value of each segment.
const VALUE: [u8; 40] = [7; 40];

/// The update of this segment to this number.
fn update_of(alloc: Global, segment: u8, number: u64) -> Result<Request, AllocError> {
    Ok(Request::Update {
        segment,
        number,
        value: Bytes::copy_from_slice(alloc, &VALUE)?,
    })
}

/// A node over new files answers the request in each round. The last reply.
fn serve_rounds<R: Wait>(
    rt: &R,
    alloc: Global,
    request: &Request,
    rounds: u64,
) -> io::Result<Option<Reply>> {
    let store = opened_all(alloc, new_memories(alloc, FILES)?, 1)?;
    let (writers, mut scanners) = store.into_parts();
    let Some(scanner) = scanners.pop() else {
        return Err(io::Error::other("a scanner is missing"));
    };
    let Ok(shared) = Shared::<Brand, MemDisk>::new(alloc, writers) else {
        return Err(AllocError.into());
    };
    let mut node = Node::new(rt, alloc, &shared, scanner);
    for segment in 0..FILES {
        let _ = node.answer(&update_of(alloc, segment, 1)?, 0);
    }
    let mut last = None;
    for _ in 0..rounds {
        last = node.answer(request, 0);
    }
    Ok(last)
}

fn print_reply(rt: &HostRuntime, reply: Option<Reply>) -> io::Result<()> {
    match reply {
        None => println!(rt; "no reply"),
        Some(Reply::Stored(number)) => println!(rt; "stored {number}"),
        Some(Reply::Snapshot(values)) => println!(rt; "snapshot of {}", values.len()),
        Some(Reply::Part(values)) => println!(rt; "part of {}", values.len()),
        Some(Reply::Status(statuses)) => println!(rt; "status of {}", statuses.len()),
        Some(Reply::Refused { why, detail }) => println!(rt; "refused {} {detail}", why.name()),
    }
}

pub(crate) fn allocate<X: Wait>(host: &X, rt: &HostRuntime, words: &[&str]) -> io::Result<()> {
    let [work, rounds] = words else {
        return Err(io::Error::other("wanted: service-allocations WORK ROUNDS"));
    };
    let Ok(rounds) = rounds.parse::<u64>() else {
        return Err(io::Error::other("ROUNDS is a number"));
    };
    let request = match *work {
        "update" => update_of(rt.alloc(), 0, 2)?,
        "scan" => Request::Scan,
        "part" => Request::Part(SegmentSet { bits: 3 }),
        "status" => Request::Status,
        "call" => {
            return match call_rounds(rt.alloc(), FILES, &VALUE, rounds)? {
                None => print_reply(rt, None),
                Some(Ok(reply)) => print_reply(rt, Some(reply)),
                Some(Err(fault)) => println!(rt; "fault {fault:?}"),
            };
        }
        _ => return Err(io::Error::other("WORK is update, scan, part, status or call")),
    };
    print_reply(rt, serve_rounds(host, rt.alloc(), &request, rounds)?)
}
