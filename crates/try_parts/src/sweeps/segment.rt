//! A format and stores that are stopped, and the file after the crash.
use crate::files::{as_io, new_memory};
use crate::sweeps::stop::{Garbage, Stop};
use snap_devices::{FaultPlan, MemDisk};
use snap_disk::{Disk, Refusal};
use snap_segment::{Segment, format};
use snap_slot::FILE_LEN;
use std::alloc::Global;
use std::io;
use std::string::String;

/// The result of a stopped format, and those after a crash with this garbage: of opening the file, and of a second
/// format.
pub(crate) fn format_cell(
    alloc: Global,
    stop: Stop,
    garbage: Garbage,
) -> io::Result<(String, String)> {
    let mut disk = MemDisk::zeroed(alloc, FILE_LEN as usize)?;
    disk.set_plan(stop.plan(alloc, 0)?);
    let answer = try_format(&mut disk);
    let calls = disk.calls();
    let (found, mut disk) = restarted(alloc, disk, garbage)?;
    let again = try_format(&mut disk);
    let answer = format!(in alloc; "{answer}, calls {calls}")?;
    Ok((answer, format!(in alloc; "{found}, {again}")?))
}

/// The result of a stopped store of this value, and that of opening the file after a crash with this garbage.
pub(crate) fn store_cell(
    alloc: Global,
    disk: MemDisk,
    stop: Stop,
    garbage: Garbage,
    value: &[u8],
) -> io::Result<(String, String)> {
    let (answer, disk) = run_store(alloc, disk, stop, value)?;
    let (found, _disk) = restarted(alloc, disk, garbage)?;
    Ok((answer, found))
}

/// The device after a crash with this garbage, without its plan, and what it is opened as.
pub(crate) fn restarted(
    alloc: Global,
    disk: MemDisk,
    garbage: Garbage,
) -> io::Result<(String, MemDisk)> {
    let mut disk = disk;
    disk.crash(&garbage.fill());
    disk.set_plan(FaultPlan::new(alloc));
    opened(alloc, disk)
}

fn run_store(
    alloc: Global,
    disk: MemDisk,
    stop: Stop,
    value: &[u8],
) -> io::Result<(String, MemDisk)> {
    let mut disk = disk;
    // An opening makes two calls.
    let made = disk.calls() + 2;
    disk.set_plan(stop.plan(alloc, made)?);
    let mut segment = open_segment(alloc, disk, 0, 1)?;
    let answer = store_words(alloc, &mut segment, value)?;
    let disk = segment.into_device();
    let calls = disk.calls() - made;
    Ok((format!(in alloc; "{answer}, calls {calls}")?, disk))
}

/// The result of a store, in words.
fn store_words(alloc: Global, segment: &mut Segment<MemDisk>, value: &[u8]) -> io::Result<String> {
    match segment.store(value) {
        Ok(number) => Ok(format!(in alloc; "stored {number}")?),
        Err(why) => refused_words(alloc, segment, why),
    }
}

/// The state after a store that was refused: the number and the value, the value that was begun, and the result of
/// another store.
fn refused_words(
    alloc: Global,
    segment: &mut Segment<MemDisk>,
    why: Refusal,
) -> io::Result<String> {
    let (number, held) = (segment.number(), name_of(segment.value()));
    let begun = match segment.begun() {
        Some(value) => name_of(value),
        None => "nothing",
    };
    let again = match segment.store(b"no") {
        Ok(_) => "stored",
        Err(why) => why.name(),
    };
    let why = why.name();
    Ok(format!(in alloc; "{why} at {number} {held}, {begun} begun, {again}")?)
}

/// The result of an opening, in words: a number, a value and the spare gate, or the refusal.
fn opened(alloc: Global, disk: MemDisk) -> io::Result<(String, MemDisk)> {
    match Segment::open(alloc, disk, 0, 1) {
        Ok(segment) => {
            let words = opened_words(alloc, &segment)?;
            Ok((words, segment.into_device()))
        }
        Err((Refusal::NoMemory, _)) => Err(as_io(Refusal::NoMemory)),
        Err((why, disk)) => Ok((format!(in alloc; "{}", why.name())?, disk)),
    }
}

fn opened_words(alloc: Global, segment: &Segment<MemDisk>) -> io::Result<String> {
    let (number, value) = (segment.number(), name_of(segment.value()));
    let spare = if segment.spare_open() {
        "open"
    } else {
        "closed"
    };
    Ok(format!(in alloc; "{number} {value} {spare}")?)
}

/// A file with number 1 and `hi`, after the empty value.
pub(crate) fn with_hi(alloc: Global) -> io::Result<MemDisk> {
    let mut segment = open_segment(alloc, new_memory(alloc, 0, 1)?, 0, 1)?;
    segment.store(b"hi").map_err(as_io)?;
    Ok(segment.into_device())
}

/// The result of a format, in words.
fn try_format(disk: &mut MemDisk) -> &'static str {
    match format(disk, 0, 1) {
        Ok(()) => "formatted",
        Err(why) => why.name(),
    }
}

/// An opening as segment `index` of `count`, where nothing may refuse it.
pub(crate) fn open_segment(
    alloc: Global,
    disk: MemDisk,
    index: u8,
    count: u8,
) -> io::Result<Segment<MemDisk>> {
    match Segment::open(alloc, disk, index, count) {
        Ok(segment) => Ok(segment),
        Err((why, _)) => Err(as_io(why)),
    }
}

/// The values of the sweep.
fn name_of(value: &[u8]) -> &'static str {
    match value {
        b"" => "empty",
        b"hi" => "hi",
        b"yo" => "yo",
        _ => "another",
    }
}
