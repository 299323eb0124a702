//! Times updates beside bare stores, and openings of all files beside bare syncs and reads, in one process.
//!
//!     try_bench restart file FOLDER ROUNDS
//!     try_bench restart memory FOLDER ROUNDS
//!
//! makes two files in FOLDER, or two devices in memory, and in each round a store on one and an
//! update on the other, of 1,000 bytes. It prints the nanoseconds of both, a line a round.
//!
//!     try_bench restart open FOLDER ROUNDS
//!
//! makes the files of 16 segments in FOLDER, opens all of them for 16 scanners in each round, and then
//! syncs and reads each of them. It prints the nanoseconds of both, a line a round.
use crate::files::{formatted, new_memory, opened_all};
use snap_devices::FileDisk;
use snap_disk::Disk;
use snap_restart::Store;
use snap_segment::Segment;
use snap_slot::FILE_LEN;
use snap_writer::Writer;
use std::alloc::Global;
use std::io;
use std::time::Instant;

/// How many files are opened at once.
const FILES: u8 = 16;

const SCANNERS: usize = 16;

/// The value that is stored, over and over.
const VALUE: [u8; 1000] = [7; 1000];

pub(crate) fn measure_restarts(rt: &HostRuntime, words: &[&str]) -> io::Result<()> {
    let [work, folder, rounds] = words else {
        return Err(io::Error::other("wanted: restart WORK FOLDER ROUNDS"));
    };
    let Ok(rounds) = rounds.parse::<u64>() else {
        return Err(io::Error::other("ROUNDS is a number"));
    };
    match *work {
        "file" => update_files(rt, folder, rounds),
        "memory" => update_memories(rt, rounds),
        "open" => {
            let paths = paths_in(rt, folder, FILES)?;
            open_rounds(rt, new_files(rt, paths.as_slice())?, rounds)
        }
        _ => Err(io::Error::other("WORK is file, memory or open")),
    }
}

/// The paths of `count` files in the folder.
fn paths_in(rt: &HostRuntime, folder: &str, count: u8) -> io::Result<Vec<String>> {
    let mut paths = Vec::new(rt.alloc());
    for name in 0..count {
        paths.push(format!(in rt.alloc(); "{folder}/{name}")?)?;
    }
    Ok(paths)
}

/// The new file of a segment at this path.
fn new_file<'a>(
    rt: &'a HostRuntime,
    path: &'a str,
    index: u8,
    count: u8,
) -> io::Result<FileDisk<'a, HostRuntime>> {
    match FileDisk::create(rt, path) {
        Ok(disk) => formatted(disk, index, count),
        Err(_) => Err(io::Error::other("a file can't be made")),
    }
}

/// The new files of all segments.
fn new_files<'a>(
    rt: &'a HostRuntime,
    paths: &'a [String],
) -> io::Result<Vec<FileDisk<'a, HostRuntime>>> {
    let mut devices = Vec::new(rt.alloc());
    for (index, path) in (0..FILES).zip(paths) {
        devices.push(new_file(rt, path.as_str(), index, FILES)?)?;
    }
    Ok(devices)
}

/// Updates and stores on two files.
fn update_files(rt: &HostRuntime, folder: &str, rounds: u64) -> io::Result<()> {
    let paths = paths_in(rt, folder, 2)?;
    let [updated, stored] = paths.as_slice() else {
        return Err(io::Error::other("a path is missing"));
    };
    let updated = new_file(rt, updated.as_str(), 0, 1)?;
    let stored = new_file(rt, stored.as_str(), 0, 1)?;
    update_rounds(rt, updated, stored, rounds)
}

/// Updates and stores on two devices in memory.
fn update_memories(rt: &HostRuntime, rounds: u64) -> io::Result<()> {
    let updated = new_memory(rt.alloc(), 0, 1)?;
    let stored = new_memory(rt.alloc(), 0, 1)?;
    update_rounds(rt, updated, stored, rounds)
}

/// A store and an update in turn, each on a device of its own.
fn update_rounds<D: Disk + Drop>(
    rt: &HostRuntime,
    updated: D,
    stored: D,
    rounds: u64,
) -> io::Result<()> {
    let mut segment = segment_on(rt.alloc(), stored)?;
    let mut writer = writer_on(rt.alloc(), updated)?;
    for _ in 0..rounds {
        let store = time_store(rt, &mut segment)?;
        let update = time_update(rt, &mut writer)?;
        println!(rt; "{store} {update}")?;
    }
    Ok(())
}

/// The device as a segment by itself.
fn segment_on<D: Disk + Drop>(alloc: Global, device: D) -> io::Result<Segment<D>> {
    if device.failures() != 0 {
        return Err(io::Error::other("a device has failed"));
    }
    match Segment::open(alloc, device, 0, 1) {
        Ok(segment) => Ok(segment),
        Err(_) => Err(io::Error::other("an opening was refused")),
    }
}

/// The writer of the only file of a store.
fn writer_on<D: Disk + Drop>(alloc: Global, device: D) -> io::Result<Writer<D>> {
    let mut devices = Vec::new(alloc);
    devices.push(device)?;
    match opened_all(alloc, devices, 1)?.writers.pop() {
        Some(writer) => Ok(writer),
        None => Err(io::Error::other("a writer is missing")),
    }
}

/// The nanoseconds of a store.
fn time_store<D: Disk>(rt: &HostRuntime, segment: &mut Segment<D>) -> io::Result<u128> {
    let began = Instant::now(rt)?;
    let stored = segment.store(&VALUE);
    let took = began.elapsed(rt)?.as_nanos();
    if stored.is_err() {
        return Err(io::Error::other("a store was refused"));
    }
    Ok(took)
}

/// The nanoseconds of an update.
fn time_update<D: Disk>(rt: &HostRuntime, writer: &mut Writer<D>) -> io::Result<u128> {
    let next = writer.number().saturating_add(1);
    let began = Instant::now(rt)?;
    let stored = writer.update(next, &VALUE);
    let took = began.elapsed(rt)?.as_nanos();
    if stored.is_err() {
        return Err(io::Error::other("an update was refused"));
    }
    Ok(took)
}

/// An opening of all files, and then a sync and a read of each.
fn open_rounds<D: Disk + Drop>(rt: &HostRuntime, devices: Vec<D>, rounds: u64) -> io::Result<()> {
    let mut devices = devices;
    let mut room = vec![in rt.alloc(); 0u8; FILE_LEN as usize]?;
    for _ in 0..rounds {
        let began = Instant::now(rt)?;
        let store = opened_all(rt.alloc(), devices, SCANNERS)?;
        let open = began.elapsed(rt)?.as_nanos();
        devices = close(rt.alloc(), store)?;
        let began = Instant::now(rt)?;
        let done = read_all(&mut devices, &mut room);
        let bare = began.elapsed(rt)?.as_nanos();
        if !done {
            return Err(io::Error::other("a device has failed"));
        }
        println!(rt; "{open} {bare}")?;
    }
    Ok(())
}

/// The devices of the store.
fn close<D: Disk + Drop>(alloc: Global, store: Store<D>) -> io::Result<Vec<D>> {
    let mut devices = Vec::new(alloc);
    for writer in store.writers {
        devices.push(writer.into_segment().into_device())?;
    }
    Ok(devices)
}

/// Syncs and reads each device whole. Whether each of them could.
fn read_all<D: Disk>(devices: &mut Vec<D>, room: &mut [u8]) -> bool {
    for disk in devices.iter_mut() {
        if !read_whole(disk, room) {
            return false;
        }
    }
    true
}

fn read_whole<D: Disk>(disk: &mut D, room: &mut [u8]) -> bool {
    if disk.failures() != 0 || disk.sync().is_err() || disk.failures() != 0 {
        return false;
    }
    if room.len() as u64 > disk.len() {
        return false;
    }
    disk.read_at(0, room).is_ok()
}
