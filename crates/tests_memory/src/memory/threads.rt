//! Writers and scanners in threads of their own, and a plain check of all that they showed.
mod looks;
mod seen;

use crate::memory::some::Numbers;
use crate::memory::threads::looks::{Kind, Looking, scan_once};
use crate::memory::threads::seen::{Seen, are_ordered, is_sound};
use crate::memory::update;
use crate::seats::{open, value_of};
use snap_memory::{Scanner, Snapshot};
use snap_register::{Parts, WriteSeat};
use snap_scan::MAX_SEGMENTS;
use std::alloc::{AllocError, Global};
use std::process::Abort;
use std::sync::atomic::{AtomicU64, Ordering};
use std::test::Fail;
use std::thread::{Threads, for_each_mut, yield_now};

/// The size of a run: updates of each writer, and scans of each scanner. If there are all kinds of scanners, every
/// second one scans drawn sets.
#[derive(Clone, Copy)]
struct Size {
    segments: usize,
    scanners: usize,
    updates: u64,
    scans: usize,
    all_kinds: bool,
}

/// How many workers there are, and how many have arrived. For each segment, the number of the last update that began,
/// and of the last one that ended.
#[derive(Drop)]
struct Course {
    workers: u64,
    arrived: AtomicU64,
    begun: Vec<AtomicU64>,
    ended: Vec<AtomicU64>,
}

/// A writer or a scanner in a thread of its own, and what it did.
#[derive(Drop)]
enum Worker {
    Writer { seat: WriteSeat, is_done: bool },
    Scanner { looking: Looking, record: Vec<Seen> },
}

fn zeros(alloc: Global, count: usize) -> Result<Vec<AtomicU64>, AllocError> {
    let mut words = Vec::new(alloc);
    for _ in 0..count {
        words.push(AtomicU64::new(0))?;
    }
    Ok(words)
}

fn load_all(words: &Vec<AtomicU64>) -> Numbers {
    let mut numbers = [0; MAX_SEGMENTS];
    for (number, word) in numbers.iter_mut().zip(words.iter()) {
        *number = word.load(Ordering::SeqCst);
    }
    numbers
}

/// Shows all updates of the seat's segment. Whether each got its number.
fn write_all(writer: &mut WriteSeat, course: &Course, updates: u64) -> bool {
    let segment = writer.segment();
    let mut is_right = true;
    for number in 1..=updates {
        course.begun[segment].store(number, Ordering::SeqCst);
        is_right &= update(writer, &value_of(segment, number)) == number;
        course.ended[segment].store(number, Ordering::SeqCst);
        yield_now();
    }
    is_right
}

/// Waits for the others, but not for long: if no thread can be made, they run after this one.
fn wait_for_all(course: &Course) {
    course.arrived.fetch_add(1, Ordering::SeqCst);
    for _ in 0..10_000 {
        if course.arrived.load(Ordering::SeqCst) == course.workers {
            return;
        }
        yield_now();
    }
}

/// Makes one worker's updates, or its scans with their record, once all have arrived. It often yields, so that even few
/// processors mix the threads.
fn work(worker: &mut Worker, course: &Course, size: Size) {
    wait_for_all(course);
    match worker {
        Worker::Writer { seat, is_done } => *is_done = write_all(seat, course, size.updates),
        Worker::Scanner { looking, record } => {
            for round in 0..size.scans {
                if record.push(scan_once(looking, round, course)).is_err() {
                    return;
                }
                yield_now();
            }
        }
    }
}

/// Whether the worker did all of its work, and all that it saw is right and ordered with what each of these saw.
fn did_all(worker: &Worker, others: &[Worker], scans: usize) -> bool {
    let record = match worker {
        Worker::Writer { is_done, .. } => return *is_done,
        Worker::Scanner { record, .. } => record,
    };
    for other in others {
        if let Worker::Scanner { record: other, .. } = other {
            if !are_ordered(record, other) {
                return false;
            }
        }
    }
    is_sound(record, scans)
}

/// A worker at each of the seats.
fn workers_at(alloc: Global, parts: Parts, size: Size) -> Result<Vec<Worker>, AllocError> {
    let mut workers = Vec::new(alloc);
    for seat in parts.writers {
        workers.push(Worker::Writer {
            seat,
            is_done: false,
        })?;
    }
    for (place, seat) in parts.scanners.into_iter().enumerate() {
        let kind = if size.all_kinds && place % 2 == 0 {
            Kind::Drawn(place as u64)
        } else {
            Kind::All
        };
        workers.push(Worker::Scanner {
            looking: Looking {
                scanner: Scanner::new(seat),
                snapshot: Snapshot::new(alloc, size.segments)?,
                kind,
                alloc,
            },
            record: Vec::with_capacity(alloc, size.scans)?,
        })?;
    }
    Ok(workers)
}

/// Whether one scan more shows the last updates of its segments.
fn shows_last(looking: &mut Looking, course: &Course, updates: u64) -> bool {
    let last = scan_once(looking, 0, course);
    let mut segments = 0..MAX_SEGMENTS;
    last.right && segments.all(|i| !last.set.has(i) || last.numbers[i] == updates)
}

/// All work at once. Then their whole record is checked, and one more scan of each scanner.
fn judged_run<R: Abort + Threads + Sync>(
    rt: &R,
    alloc: Global,
    size: Size,
) -> Result<(), AllocError> {
    let threads = size.segments + size.scanners;
    let course = Course {
        workers: threads as u64,
        arrived: AtomicU64::new(0),
        begun: zeros(alloc, size.segments)?,
        ended: zeros(alloc, size.segments)?,
    };
    let parts = open(alloc, size.segments, size.scanners, 1_000_000)?;
    let mut workers = workers_at(alloc, parts, size)?;
    for_each_mut(
        rt,
        workers.as_mut_slice(),
        threads,
        &|_, worker| { work(worker, &course, size) },
    );
    for place in 0..workers.len() {
        assert!(rt; did_all(&workers[place], &workers[place..], size.scans));
    }
    for worker in &mut workers {
        if let Worker::Scanner { looking, .. } = worker {
            assert!(rt; shows_last(looking, &course, size.updates));
        }
    }
    Ok(())
}

/// Runs by numbers of segments, scanners, updates and scans. In the last one half of the scanners scan drawn sets.
#[test]
fn writers_and_scanners_in_threads(rt: HostRuntime) -> Result<(), Fail> {
    for (segments, scanners, updates, scans, all_kinds) in [
        (3, 2, 200, 300, false),
        (16, 16, 1_250, 250, false),
        (16, 16, 1_000, 200, true),
    ] {
        let size = Size {
            segments,
            scanners,
            updates,
            scans,
            all_kinds,
        };
        judged_run(&rt, rt.alloc(), size)?;
    }
    Ok(())
}
