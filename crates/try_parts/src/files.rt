//! New files, and openings of them all.
use snap_devices::MemDisk;
use snap_disk::Refusal;
use snap_restart::{Store, open_all};
use snap_segment::format;
use snap_slot::FILE_LEN;
use std::alloc::Global;
use std::io;
use std::io::ErrorKind;

/// The new file of segment `index` of `count`, in memory.
pub fn new_memory(alloc: Global, index: u8, count: u8) -> io::Result<MemDisk> {
    let mut disk = MemDisk::zeroed(alloc, FILE_LEN as usize)?;
    format(&mut disk, index, count).map_err(as_io)?;
    Ok(disk)
}

/// The new files of `count` segments, in memory.
pub fn new_memories(alloc: Global, count: u8) -> io::Result<Vec<MemDisk>> {
    let mut devices = Vec::new(alloc);
    for index in 0..count {
        devices.push(new_memory(alloc, index, count)?)?;
    }
    Ok(devices)
}

/// Opens all files for `scanners` scanners, where nothing may refuse it.
pub fn opened_all(
    alloc: Global,
    devices: Vec<MemDisk>,
    scanners: usize,
) -> io::Result<Store<MemDisk>> {
    match open_all(alloc, devices, scanners) {
        Ok((store, _)) => Ok(store),
        Err(_) => Err(io::Error::other("an opening was refused")),
    }
}

/// The refusal as an error of the program.
pub fn as_io(why: Refusal) -> io::Error {
    match why {
        Refusal::NoMemory => ErrorKind::OutOfMemory.into(),
        _ => ErrorKind::InvalidData.into(),
    }
}
