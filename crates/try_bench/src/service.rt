//! Requests to a node over files in memory.
//!
//!     try_bench service update|scan|status SEGMENTS ROUNDS LENGTH
//!
//! updates each of SEGMENTS to number 1 with LENGTH bytes, makes the same request ROUNDS times, and prints its last
//! reply. The update is that of the first segment to number 2: the first round stores it, and the others repeat it.
//!
//!     try_bench service copy SEGMENTS ROUNDS LENGTH
//!
//! makes a plain copy of as many bytes ROUNDS times.
ghost use Rattle.std.specs.Prelude.{◌≡◌, ◌<◌, ◌≤◌, length, IfOk};
ghost use Rattle.snap_frame.specs.Messages.{IsAskable};
ghost use Rattle.snap_service.specs.Memory.{AreWriters, IsOf};

use crate::files::{new_memories, opened_all};
use bytes::Bytes;
use snap_devices::MemDisk;
use snap_frame::{Reply, Request};
use snap_memory::Scanner;
use snap_service::{Memory, Node, Shared};
use snap_session::Service;
use snap_writer::Writer;
use std::alloc::{AllocError, Global};
use std::io;
use std::marker::Brand;
use std::sync::Wait;

/// The request of a round.
#[derive(Clone, Copy)]
enum Work {
    Update,
    Scan,
    Status,
}

/// The repeated request, over how many segments of how many bytes each.
#[derive(Clone, Copy)]
struct Task {
    work: Work,
    segments: u8,
    rounds: u64,
    length: usize,
}

/// The update of this segment to this number.
fn update_of(alloc: Global, segment: u8, number: u64, length: usize) -> Result<Request, AllocError>
    ensures { IfOk result IsAskable }
{
    let value = vec![in alloc; 7u8; length]?;
    Ok(Request::Update {
        segment,
        number,
        value: Bytes::copy_from_slice(alloc, &value)?,
    })
}

/// The request of each round.
fn request_of(alloc: Global, task: Task) -> Result<Request, AllocError>
    ensures { IfOk result IsAskable }
{
    match task.work {
        Work::Update => update_of(alloc, 0, 2, task.length),
        Work::Scan => Ok(Request::Scan),
        Work::Status => Ok(Request::Status),
    }
}

/// All rounds, with a node of these writers and this scanner. The last reply.
fn serve_rounds<M: Memory, R: Wait>(
    rt: &R,
    alloc: Global,
    writers: Vec<Writer<MemDisk>>,
    scanner: Scanner,
    task: Task,
) -> Result<Option<Reply>, AllocError>
    requires writers { AreWriters M.table M.plan writers.items }
    requires scanner { IsOf M.table M.plan scanner }
{
    let Ok(shared) = Shared::<M, MemDisk>::new(alloc, writers) else {
        return Err(AllocError);
    };
    let mut node = Node::new(rt, alloc, &shared, scanner);
    for segment in 0..task.segments {
        let request = update_of(alloc, segment, 1, task.length)?;
        let _ = node.answer(&request, 0);
    }
    let request = request_of(alloc, task)?;
    let mut last = None;
    for _ in 0..task.rounds {
        last = node.answer(&request, 0);
    }
    Ok(last)
}

/// All rounds, with a node over new files. The last reply.
fn serve_files<R: Wait>(rt: &R, alloc: Global, task: Task) -> io::Result<Option<Reply>> {
    let devices = new_memories(alloc, task.segments)?;
    let store = opened_all(alloc, devices, 1)?;
    let (writers, mut scanners) = store.into_parts();
    let Some(scanner) = scanners.pop() else {
        return Err(io::Error::other("a scanner is missing"));
    };
    Ok(serve_rounds::<Brand, R>(rt, alloc, writers, scanner, task)?)
}

/// Copies `len` bytes `rounds` times. Returns a number made of the bytes, so that they are read.
fn copy(alloc: Global, len: usize, rounds: u64) -> Result<u8, AllocError> {
    let source = vec![in alloc; 7u8; len]?;
    let mut target = vec![in alloc; 0u8; len]?;
    let mut read = 0;
    for round in 0..rounds {
        if target.len() == source.len() {
            target.as_mut_slice().copy_from_slice(&source);
        }
        if let Some(byte) = target.get((round % 4_096) as usize) {
            read ^= *byte;
        }
    }
    Ok(read)
}

/// Prints the reply. A refusal isn't timed.
fn print_reply(rt: &HostRuntime, reply: Option<Reply>) -> io::Result<()> {
    match reply {
        None => println!(rt; "no reply"),
        Some(Reply::Stored(number)) => println!(rt; "stored {number}"),
        Some(Reply::Snapshot(values)) => {
            let count = values.len();
            println!(rt; "snapshot of {count}")
        }
        Some(Reply::Status(statuses)) => {
            let count = statuses.len();
            println!(rt; "status of {count}")
        }
        Some(_) => Err(io::Error::other("a request was refused")),
    }
}

pub(crate) fn measure_requests<X: Wait>(
    host: &X,
    rt: &HostRuntime,
    words: &[&str],
) -> io::Result<()> {
    let [name, segments, rounds, length] = words else {
        return Err(io::Error::other("wanted: WORK SEGMENTS ROUNDS LENGTH"));
    };
    let (Ok(segments), Ok(rounds), Ok(length)) = (
        segments.parse::<u8>(),
        rounds.parse::<u64>(),
        length.parse::<u16>(),
    ) else {
        return Err(io::Error::other("SEGMENTS, ROUNDS and LENGTH are numbers"));
    };
    let work = match *name {
        "update" => Work::Update,
        "scan" => Work::Scan,
        "status" => Work::Status,
        "copy" => {
            let len = usize::from(segments) * usize::from(length);
            let read = copy(rt.alloc(), len, rounds)?;
            return println!(rt; "copied {read}");
        }
        _ => return Err(io::Error::other("WORK is update, scan, status or copy")),
    };
    let task = Task {
        work,
        segments,
        rounds,
        length: usize::from(length),
    };
    print_reply(rt, serve_files(host, rt.alloc(), task)?)
}
