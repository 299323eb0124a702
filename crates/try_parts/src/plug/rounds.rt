//! The rounds: two starts of a machine, each ended by a crash.
use crate::draw::Draw;
use crate::files::new_memories;
use crate::plug::device::Plugged;
use crate::plug::pull::Pull;
use crate::plug::recovery::{Opened, Past, judge, open};
use crate::plug::run::{devices_behind, devices_of, past_of, run};
use crate::plug::tally::Tally;
use crate::values::SEGMENTS;
use snap_devices::MemDisk;
use snap_disk::Fill;
use snap_slot::FILE_LEN;
use std::alloc::{AllocError, Global};
use std::io;
use std::thread::Threads;

/// How many calls the opening of all files makes: a sync and a read of each.
const OPENING: u64 = 2 * SEGMENTS as u64;

/// How many calls after the opening the plug is pulled at most: some four stores of each writer.
const CALLS: u64 = 80;

/// The state that is kept from start to start, beside the devices.
#[derive(Drop)]
struct Course {
    draw: Draw,
    past: Past,
    tally: Tally,
}

/// One of the `calls` after the first `passed` ones pulls the plug.
fn pull(draw: &mut Draw, passed: u64, calls: u64) -> Pull {
    Pull {
        call: passed + 1 + draw.below(calls),
        is_done: draw.below(2) == 1,
    }
}

/// The bytes that were there up to a place, and after it those of closed and of open gates and others.
fn torn(alloc: Global, draw: &mut Draw) -> Result<Fill, AllocError> {
    let from = draw.below(FILE_LEN);
    let mut bytes = Vec::new(alloc);
    for _ in from..FILE_LEN {
        let byte = match draw.below(3) {
            0 => 0x00,
            1 => 0xA5,
            _ => draw.below(256) as u8,
        };
        bytes.push(byte)?;
    }
    Ok(Fill::At(from, bytes))
}

/// The machine crashes. What each device is left with is drawn.
fn crash(alloc: Global, devices: &mut Vec<MemDisk>, course: &mut Course) -> Result<(), AllocError> {
    for disk in devices.iter_mut() {
        let fill = if course.draw.below(4) == 0 {
            torn(alloc, &mut course.draw)?
        } else {
            course.draw.fill()
        };
        course.tally.count_fill(&fill);
        disk.crash(&fill);
    }
    Ok(())
}

/// The devices in memory.
fn unplugged(alloc: Global, devices: Vec<Plugged>) -> Result<Vec<MemDisk>, AllocError> {
    let mut disks = Vec::new(alloc);
    for device in devices {
        disks.push(device.into_disk())?;
    }
    Ok(disks)
}

/// A start whose opening is interrupted, or that ends without any work.
fn start_idle(
    alloc: Global,
    devices: Vec<MemDisk>,
    course: &mut Course,
) -> io::Result<Vec<MemDisk>> {
    let pull = pull(&mut course.draw, 0, 2 * OPENING);
    match open(alloc, devices, pull)? {
        Opened::Whole(machine) => {
            let store = machine.store;
            judge(alloc, &store.writers, &mut course.past, &mut course.tally)?;
            Ok(devices_of(alloc, store.writers)?)
        }
        Opened::Cut(devices) => {
            course.tally.openings += 1;
            Ok(unplugged(alloc, devices)?)
        }
    }
}

/// A start with updates and scans.
fn start_work<X: Threads + Sync>(
    host: &X,
    alloc: Global,
    devices: Vec<MemDisk>,
    course: &mut Course,
) -> io::Result<Vec<MemDisk>> {
    let pull = pull(&mut course.draw, OPENING, CALLS);
    let Opened::Whole(machine) = open(alloc, devices, pull)? else {
        return Err(io::Error::other("an opening failed that nothing cut"));
    };
    judge(
        alloc,
        &machine.store.writers,
        &mut course.past,
        &mut course.tally,
    )?;
    let mut workers = run(host, alloc, machine, course.past.least)?;
    course.past = past_of(&mut workers)?;
    course.tally.count(&course.past.places);
    Ok(devices_behind(alloc, workers)?)
}

/// A start that isn't interrupted, and in which no thread works.
fn start_last(alloc: Global, devices: Vec<MemDisk>, course: &mut Course) -> io::Result<()> {
    let never = Pull {
        call: u64::MAX,
        is_done: false,
    };
    let Opened::Whole(machine) = open(alloc, devices, never)? else {
        return Err(io::Error::other("the last opening failed"));
    };
    judge(
        alloc,
        &machine.store.writers,
        &mut course.past,
        &mut course.tally,
    )
}

/// Runs the rounds one after another, on the same files. The files of the last round are checked too.
pub(crate) fn pull_often<X: Threads + Sync>(
    host: &X,
    alloc: Global,
    rounds: u64,
    seed: u64,
) -> io::Result<Tally> {
    let mut devices = new_memories(alloc, SEGMENTS as u8)?;
    let mut course = Course {
        draw: Draw { state: seed },
        past: Past::at([0; SEGMENTS]),
        tally: Tally::default(),
    };
    for _ in 0..rounds {
        devices = start_work(host, alloc, devices, &mut course)?;
        crash(alloc, &mut devices, &mut course)?;
        devices = start_idle(alloc, devices, &mut course)?;
        crash(alloc, &mut devices, &mut course)?;
    }
    start_last(alloc, devices, &mut course)?;
    Ok(course.tally)
}
