//! New files, and openings of them all.
ghost use Rattle.std.specs.Prelude.{◌≡◌, ◌<◌, ◌≤◌, length, IfOk};
ghost use Rattle.snap_restart.specs.Closed.{AreBack};

use snap_devices::MemDisk;
use snap_disk::Disk;
use snap_restart::{Store, open_all};
use snap_segment::format;
use snap_slot::FILE_LEN;
use std::alloc::Global;
use std::io;

/// The device as the new file of segment `index` of `count`.
pub fn formatted<D: Disk + Drop>(disk: D, index: u8, count: u8) -> io::Result<D> {
    let mut disk = disk;
    if index >= count || count > 16 || disk.failures() != 0 {
        return Err(io::Error::other("no such segment"));
    }
    match format(&mut disk, index, count) {
        Ok(()) => Ok(disk),
        Err(_) => Err(io::Error::other("a formatting was refused")),
    }
}

/// The new file of segment `index` of `count`, in memory.
pub fn new_memory(alloc: Global, index: u8, count: u8) -> io::Result<MemDisk> {
    formatted(MemDisk::zeroed(alloc, FILE_LEN as usize)?, index, count)
}

/// The new files of `count` segments, in memory.
pub fn new_memories(alloc: Global, count: u8) -> io::Result<Vec<MemDisk>> {
    let mut devices = Vec::new(alloc);
    for index in 0..count {
        devices.push(new_memory(alloc, index, count)?)?;
    }
    Ok(devices)
}

/// Opens all files for `scanners` scanners, where nothing may refuse it.
pub fn opened_all<D: Disk + Drop>(
    alloc: Global,
    devices: Vec<D>,
    scanners: usize,
) -> io::Result<Store<D>>
    requires scanners { (0 < scanners) × (scanners ≤ 16) }
    ensures back { IfOk result (λ s. AreBack s.writers.items s.scanners.items) }
{
    if devices.is_empty()
        || devices.len() > 16
        || !devices.iter().all(|d| d.failures() < u64::MAX)
    {
        return Err(io::Error::other("the devices aren't those of all files"));
    }
    match open_all(alloc, devices, scanners) {
        Ok((store, _)) => Ok(store),
        Err(_) => Err(io::Error::other("an opening was refused")),
    }
}
