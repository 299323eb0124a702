//! Looks, scans and updates of one memory, which `make bench` times against bench/baseline_memory.c.
//!
//!     try_bench memory look|scan|update SEGMENTS WRITERS ROUNDS LENGTH
//!
//! does ROUNDS looks at the first register, scans, or updates of the last segment, over values of LENGTH bytes, while
//! WRITERS of the other segments make updates in threads of their own, and prints how many rounds it did.
//!
//!     try_bench memory fill SEGMENTS 0 0 LENGTH
//!
//! opens a memory for the most scanners, prints `open`, waits for a line, uses the buffers, prints
//! `used` and waits for another line, so that the process can be measured before and after.
ghost use Rattle.std.specs.Prelude.{◌≡◌, ◌<◌, ◌≤◌};
ghost use Rattle.snap_history.specs.Limits.{IsShort};
ghost use Rattle.snap_history.specs.declared.limits.TheConstants.{MAX_COUNT, MAX_SCANNERS};

use snap_history::{LAST_NUMBER, MAX_SCANNERS, MAX_VALUE_LEN};
use snap_memory::{Scanner, Snapshot, prepare, show};
use snap_register::{Looker, Parts, ReadSeat, Registers, WriteSeat};
use snap_scan::{MAX_SEGMENTS, most_looks};
use std::alloc::{AllocError, Global};
use std::io;
use std::sync::atomic::{AtomicU64, Ordering};
use std::thread::{Threads, for_each_mut, join};

/// The operation of a round.
#[derive(Clone, Copy)]
enum Work {
    Look,
    Scan,
    Update,
}

/// The repeated operation, and the value of each update.
#[derive(Clone, Copy)]
struct Task<'a> {
    work: Work,
    rounds: u64,
    value: &'a [u8],
}

/// The seat that does the rounds, and the snapshot of a scan.
#[derive(Drop)]
struct Measured {
    writer: WriteSeat,
    scanner: Scanner,
    snapshot: Snapshot,
}

/// Registers of `segments` segments, each at number 0 with this value, with looks for any run.
fn open(alloc: Global, segments: usize, scanners: usize, value: &[u8]) -> Result<Parts, AllocError>
    requires segments { (0 < segments) × (segments ≤ MAX_COUNT) }
    requires scanners { scanners ≤ MAX_SCANNERS }
    requires value { IsShort value.now }
{
    let mut values = Vec::new(alloc);
    for _ in 0..segments {
        values.push((0, value.to_vec(alloc)?))?;
    }
    Registers::open(alloc, &values, scanners, 1 << 50)
}

/// An update, its scan and its publication. Whether the seat had looks and numbers for it.
#[tactic(auto, using(snap_writer::proofs::Shown::may_still))]
fn update(writer: &mut WriteSeat, value: &[u8]) -> bool {
    if value.len() > MAX_VALUE_LEN || writer.looks_left() < most_looks(writer.segments()) as u64 {
        return false;
    }
    let view = prepare(writer);
    if writer.number() >= LAST_NUMBER {
        return false;
    }
    writer.begin_store();
    writer.end_store();
    show(writer, value, view);
    true
}

/// A look at the register of segment `j`, and its value. Whether there is such a segment and a look left.
fn look(scanner: &mut Scanner, j: usize, room: &mut [u8; MAX_VALUE_LEN]) -> bool {
    if j >= scanner.segments() || scanner.looks_left() == 0 {
        return false;
    }
    scanner.read_one(j, room);
    true
}

/// A scan. Whether the snapshot fits and the scanner had the looks for it.
fn scan(scanner: &mut Scanner, snapshot: &mut Snapshot) -> bool {
    snapshot.len() == scanner.segments() && scanner.scan_into(snapshot).is_ok()
}

impl Measured {
    /// Does all rounds. Whether it could.
    fn repeat(&mut self, task: Task) -> bool {
        let mut room = [0; MAX_VALUE_LEN];
        for _ in 0..task.rounds {
            let done = match task.work {
                Work::Look => look(&mut self.scanner, 0, &mut room),
                Work::Scan => scan(&mut self.scanner, &mut self.snapshot),
                Work::Update => update(&mut self.writer, task.value),
            };
            if !done {
                return false;
            }
        }
        true
    }
}

/// Makes updates until `stop` is set.
fn write_on(writer: &mut WriteSeat, value: &[u8], stop: &AtomicU64) {
    for _ in 0..u64::MAX {
        if stop.load(Ordering::SeqCst) > 0 || !update(writer, value) {
            return;
        }
    }
}

/// Makes updates by all these writers, each in a thread of its own, until `stop` is set.
fn write_all<R: Threads + Sync>(rt: &R, writers: &mut [WriteSeat], value: &[u8], stop: &AtomicU64) {
    for_each_mut(
        rt,
        writers,
        MAX_SEGMENTS,
        &|_, writer| write_on(writer, value, stop),
    );
}

/// Does all rounds, and then stops the writers. Whether it could.
fn repeat_until_done(measured: &mut Measured, task: Task, stop: &AtomicU64) -> bool {
    let done = measured.repeat(task);
    stop.store(1, Ordering::SeqCst);
    done
}

/// Does all rounds, while the writers make updates.
fn repeat_beside<R: Threads + Sync>(
    rt: &R,
    measured: &mut Measured,
    writers: &mut [WriteSeat],
    task: Task,
) -> bool {
    let stop = AtomicU64::new(0);
    let ((), done) = join(
        rt,
        || write_all(rt, writers, task.value, &stop),
        || repeat_until_done(measured, task, &stop),
    );
    done
}

/// Opens a memory, and does the rounds in it. Whether it could.
fn run_task<R: Threads + Sync>(
    rt: &R,
    alloc: Global,
    segments: usize,
    writers: usize,
    task: Task,
) -> Result<bool, AllocError>
    requires segments { (0 < segments) × (segments ≤ MAX_COUNT) }
    requires value { IsShort task.value.now }
{
    let mut parts = open(alloc, segments, 1, task.value)?;
    let (Some(writer), Some(seat)) = (parts.writers.pop(), parts.scanners.pop()) else {
        return Ok(false);
    };
    if writers > parts.writers.len() {
        return Ok(false);
    }
    let mut measured = Measured {
        writer,
        scanner: Scanner::new(seat),
        snapshot: Snapshot::new(alloc, segments)?,
    };
    let beside = &mut parts.writers.as_mut_slice()[..writers];
    Ok(repeat_beside(rt, &mut measured, beside, task))
}

/// Shows updates until all buffers that can be in use at once are: each seat pins another one.
fn fill(writers: &mut [WriteSeat], scanners: &mut [Scanner], value: &[u8]) -> bool {
    let mut room = [0; MAX_VALUE_LEN];
    for j in 0..writers.len() {
        for k in 0..scanners.len() {
            if !update(&mut writers[j], value) || !look(&mut scanners[k], j, &mut room) {
                return false;
            }
        }
        for i in 0..writers.len() {
            if !update(&mut writers[j], value) || !update(&mut writers[i], value) {
                return false;
            }
        }
        if !update(&mut writers[j], value) || !update(&mut writers[j], value) {
            return false;
        }
    }
    true
}

/// Prints the word, and waits for a line.
fn pause<R: Input + Print>(rt: &R, alloc: Global, word: &str) -> io::Result<()> {
    println!(rt; "{word}")?;
    let mut line = String::new(alloc);
    rt.read_line(&mut line)?;
    Ok(())
}

/// Opens a memory for the most scanners, and uses its buffers.
fn fill_slowly<R: Input + Print>(
    rt: &R,
    alloc: Global,
    segments: usize,
    value: &[u8],
) -> io::Result<()>
    requires segments { (0 < segments) × (segments ≤ MAX_COUNT) }
    requires value { IsShort value.now }
{
    let Parts {
        mut writers,
        scanners: seats,
    } = open(alloc, segments, MAX_SCANNERS, value)?;
    let mut scanners = Vec::new(alloc);
    for seat in seats {
        scanners.push(Scanner::new(seat))?;
    }
    pause(rt, alloc, "open")?;
    if !fill(writers.as_mut_slice(), scanners.as_mut_slice(), value) {
        return Err(io::Error::other("a seat was refused"));
    }
    pause(rt, alloc, "used")
}

pub(crate) fn measure_memory<X: Threads + Sync>(
    host: &X,
    rt: &HostRuntime,
    words: &[&str],
) -> io::Result<()> {
    let [work, segments, writers, rounds, length] = words else {
        return Err(io::Error::other("wanted: memory WORK SEGMENTS WRITERS ROUNDS LENGTH"));
    };
    let (Ok(segments), Ok(writers), Ok(rounds), Ok(length)) = (
        segments.parse::<usize>(),
        writers.parse::<usize>(),
        rounds.parse::<u64>(),
        length.parse::<usize>(),
    ) else {
        return Err(io::Error::other("SEGMENTS, WRITERS, ROUNDS and LENGTH are numbers"));
    };
    if segments > MAX_SEGMENTS || writers >= segments || length > MAX_VALUE_LEN {
        return Err(io::Error::other("there are at most 16 segments, fewer writers, 4,080 bytes"));
    }
    let value = [7u8; MAX_VALUE_LEN];
    let value = &value[..length];
    let work = match *work {
        "look" => Work::Look,
        "scan" => Work::Scan,
        "update" => Work::Update,
        "fill" => return fill_slowly(rt, rt.alloc(), segments, value),
        _ => return Err(io::Error::other("WORK is look, scan, update or fill")),
    };
    let task = Task {
        work,
        rounds,
        value,
    };
    if !run_task(host, rt.alloc(), segments, writers, task)? {
        return Err(io::Error::other("a seat was refused"));
    }
    println!(rt; "{rounds}")
}
