//! Opens three files at once, makes updates, closes them, opens them again and scans, and prints the results, for
//! tests/test_restart_allocations.py, which refuses each allocation in turn.
//!
//!     try_parts restart-allocations made|opened|updated|closed|reopened|scanned
//!
//! ends after that step, so that the allocations of each step can be counted. After an opening that
//! is refused the machine crashes, and the files are opened again.
use crate::files::new_memories;
use snap_devices::MemDisk;
use snap_disk::Fill;
use snap_memory::Snapshot;
use snap_restart::{Store, open_all};
use std::io;

const FILES: u8 = 3;

/// How many updates are made of the first segment.
const UPDATES: u64 = 100;

/// The step after which the program ends.
#[derive(Clone, Copy, PartialEq, Eq)]
enum Step {
    Made,
    Opened,
    Updated,
    Closed,
    Reopened,
    Scanned,
}

fn step_of(word: &str) -> Option<Step> {
    match word {
        "made" => Some(Step::Made),
        "opened" => Some(Step::Opened),
        "updated" => Some(Step::Updated),
        "closed" => Some(Step::Closed),
        "reopened" => Some(Step::Reopened),
        "scanned" => Some(Step::Scanned),
        _ => None,
    }
}

/// Opens the files with one scanner. If that is refused, prints that, crashes the machine, and opens them again.
fn open(rt: &HostRuntime, devices: Vec<MemDisk>) -> io::Result<Store<MemDisk>> {
    let mut stopped = match open_all(rt.alloc(), devices, 1) {
        Ok((store, report)) => {
            print!(rt; "{report}")?;
            return Ok(store);
        }
        Err(stopped) => stopped,
    };
    let (why, segment) = (stopped.refusal.name(), stopped.segment);
    print!(rt; "{why} at segment {segment}, calls")?;
    print_calls(rt, &stopped.devices)?;
    for disk in &mut stopped.devices {
        disk.crash(&Fill::All(0xA5));
    }
    match open_all(rt.alloc(), stopped.devices, 1) {
        Ok((store, report)) => {
            print!(rt; "{report}")?;
            Ok(store)
        }
        Err(_) => Err(io::Error::other("a second opening was refused")),
    }
}

/// How many calls each device has taken.
fn print_calls(rt: &HostRuntime, devices: &Vec<MemDisk>) -> io::Result<()> {
    for disk in devices {
        print!(rt; " {}", disk.calls())?;
    }
    println!(rt)
}

/// All updates of the first segment. Whether each got its number, also when it was sent again.
fn update_all(store: &mut Store<MemDisk>) -> bool {
    let (writer, mut right) = (&mut store.writers[0], true);
    for number in 1..=UPDATES {
        let value = number.to_be_bytes();
        right &= writer.update(number, &value) == Ok(number);
        right &= writer.update(number, &value) == Ok(number);
    }
    right
}

/// One more update by the first writer, and a scan that has it.
fn scan(store: &mut Store<MemDisk>, out: &mut Snapshot) -> bool {
    let (writer, scanner) = (&mut store.writers[0], &mut store.scanners[0]);
    let next = writer.number() + 1;
    let stored = writer.update(next, b"hi") == Ok(next);
    writer.meet(scanner);
    let answered = scanner.scan_into(out).is_ok();
    stored && answered && out.number(0) == next && out.value(0) == b"hi".as_slice()
}

/// Everything up to that step.
fn run_to(rt: &HostRuntime, step: Step) -> io::Result<()> {
    let mut out = Snapshot::new(rt.alloc(), FILES as usize)?;
    let devices = new_memories(rt.alloc(), FILES)?;
    println!(rt; "made")?;
    if step == Step::Made {
        return Ok(());
    }
    let mut store = open(rt, devices)?;
    if step == Step::Opened {
        return Ok(());
    }
    println!(rt; "updated {}", update_all(&mut store))?;
    if step == Step::Updated {
        return Ok(());
    }
    let devices = store.close();
    print!(rt; "closed, calls")?;
    print_calls(rt, &devices)?;
    if step == Step::Closed {
        return Ok(());
    }
    let mut store = open(rt, devices)?;
    if step == Step::Reopened {
        return Ok(());
    }
    println!(rt; "scanned {}", scan(&mut store, &mut out))
}

pub(crate) fn allocate(rt: &HostRuntime, words: &[&str]) -> io::Result<()> {
    let [word] = words else {
        return Err(io::Error::other("wanted: restart-allocations STEP"));
    };
    match step_of(word) {
        Some(step) => run_to(rt, step),
        None => Err(io::Error::other("STEP is made, opened, updated, closed, reopened or scanned")),
    }
}
