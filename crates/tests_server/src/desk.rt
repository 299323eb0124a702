//! Writers return to their storers when a worker ends, and a desk whose storers have ended refuses new updates.
use crate::frames::{EMPTY, FENCED, HI, Pair, REPEAT, SCAN, STORED_0, halves};
use crate::stores::{new_files, open};
use crossbeam_channel::{Sender, unbounded};
use snap_devices::MemDisk;
use snap_memory::Scanner;
use snap_service::{Desk, Memory, NoUpdateObserver, Outcome, Storer};
use snap_session::{Completion, Session, WaitingFor};
use snap_writer::Writer;
use std::alloc::{AllocError, Global};
use std::marker::Brand;
use std::process::Abort;
use std::rt::Clock;
use std::sync::Wait;
use std::test::Fail;
use std::thread::{Threads, for_each_mut, join};

/// The bytes that a peer was sent, and the numbers of the writers that came back.
type Seen = (Vec<u8>, Vec<u64>);

/// How many storers there are.
const STORERS: usize = 2;

/// Stores the jobs that come, and sends their outcomes to the worker, until no desk is left.
fn work_storer<R: Wait + Copy, M: Memory>(
    rt: &R,
    storer: &mut Storer<R, M, MemDisk>,
    worker: &Sender<Completion<Outcome<R, M, MemDisk>>>,
) {
    for _ in rt.forever() {
        let Some(outcome) = storer.next() else {
            return;
        };
        // If nobody takes the outcome, its writer returns.
        let _ = worker.send(rt, outcome);
    }
}

/// The bytes that a peer which sends these bytes is owed at once. Then the desk is dropped.
fn ask<R: Wait + Copy + Clock, M: Memory>(
    alloc: Global,
    mut desk: Desk<R, M, MemDisk, NoUpdateObserver>,
    bytes: &[u8],
) -> Result<Vec<u8>, AllocError> {
    let mut session = Session::new(alloc);
    session.take_in(bytes);
    for _ in 0..100u64 {
        if session.over().is_some() || session.answer(&mut desk, 0) != WaitingFor::Turn {
            break;
        }
    }
    session.owed().to_vec(alloc)
}

/// Asks a desk of this memory, whose storers work in threads of their own, or were dropped before. No outcome is taken.
fn run_memory<R: Threads + Wait + Clock + Sync + Send + Copy, M: Memory + Send>(
    rt: &R,
    alloc: Global,
    writers: Vec<Writer<MemDisk>>,
    scanner: Scanner,
    bytes: &[u8],
    has_storers: bool,
) -> Result<Seen, AllocError> {
    let (mut storers, mut windows) = (Vec::new(alloc), Vec::new(alloc));
    for writer in writers {
        let (storer, window) = Storer::<R, M, MemDisk>::new(*rt, alloc, writer)?;
        storers.push(storer)?;
        windows.push(window)?;
    }
    let desk: Desk<R, M, MemDisk, NoUpdateObserver> = Desk::new(
        *rt,
        alloc,
        0,
        windows,
        scanner,
        NoUpdateObserver,
    );
    if !has_storers {
        storers.clear();
    }
    let (to, inbox) = unbounded::<Completion<Outcome<R, M, MemDisk>>, _>(alloc)?;
    let all = storers.as_mut_slice();
    let ((), written) = join(
        rt,
        || for_each_mut(
            rt,
            all,
            STORERS,
            &|_, storer| { work_storer(rt, storer, &to) },
        ),
        || {
            let written = ask(alloc, desk, bytes);
            drop(inbox);
            written
        },
    );
    let mut numbers = Vec::new(alloc);
    for storer in storers {
        if let Some(writer) = storer.into_writer() {
            numbers.push(writer.number())?;
        }
    }
    Ok((written?, numbers))
}

/// Asks a desk over two new files.
fn run<R>(rt: &R, bytes: &[u8], has_storers: bool) -> Result<Seen, Fail>
where
    R: Abort + AllocGlobal + Threads + Wait + Clock + Sync + Send + Copy,
{
    let (writers, mut scanners) = open(rt, new_files(rt.alloc(), 2)?).into_parts();
    let Some(scanner) = scanners.pop() else {
        panic!(rt; "no scanner")
    };
    Ok(run_memory::<R, Brand>(rt, rt.alloc(), writers, scanner, bytes, has_storers)?)
}

#[test]
fn writer_goes_home_from_a_worker_that_left(rt: HostRuntime) -> Result<(), Fail> {
    let (written, numbers) = run(&rt, HI, true)?;
    assert!(rt; written.is_empty() && numbers.as_slice() == [1, 0].as_slice());
    Ok(())
}

/// Requests and their replies after the storers were dropped.
const ALONE: [Pair<'static>; 3] = [(HI, FENCED), (REPEAT, STORED_0), (SCAN, EMPTY)];

#[test]
fn store_that_is_gone_takes_no_update(rt: HostRuntime) -> Result<(), Fail> {
    let (asked, replies) = halves(rt.alloc(), &ALONE)?;
    let (written, numbers) = run(&rt, &asked, false)?;
    assert!(rt; written == replies && numbers.is_empty());
    Ok(())
}
