//! Whole stores over devices in memory.
use snap_devices::{FaultPlan, MemDisk};
use snap_disk::{Disk, Fill};
use snap_restart::{Store, open_all};
use snap_segment::format;
use snap_slot::FILE_LEN;
use std::alloc::{AllocError, Global};
use std::process::Abort;
use std::test::Fail;

/// The new files of `count` segments.
pub(crate) fn new_files(alloc: Global, count: u8) -> Result<Vec<MemDisk>, Fail> {
    let mut devices = Vec::new(alloc);
    for index in 0..count {
        let mut disk = MemDisk::zeroed(alloc, FILE_LEN as usize)?;
        format(&mut disk, index, count)?;
        devices.push(disk)?;
    }
    Ok(devices)
}

/// A device whose first store after an opening fails at its last sync.
pub(crate) fn failing(alloc: Global, mut disk: MemDisk) -> Result<MemDisk, AllocError> {
    let mut plan = FaultPlan::new(alloc);
    // An opening makes two calls, and the last sync is a store's fourth.
    plan.fail_call(disk.calls() + 6, Fill::Keep)?;
    disk.set_plan(plan);
    Ok(disk)
}

/// The store over these devices.
pub(crate) fn open<D: Disk + Drop>(rt: &(impl Abort + AllocGlobal), devices: Vec<D>) -> Store<D> {
    match open_all(rt.alloc(), devices, 1) {
        Ok((store, _)) => store,
        Err(_) => panic!(rt; "not opened"),
    }
}
