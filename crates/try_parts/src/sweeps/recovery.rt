//! An opening of three files that is stopped, and what they are opened as after the crash.
use crate::files::{as_io, new_memory};
use crate::sweeps::segment::open_segment;
use crate::sweeps::stop::{Garbage, Stop};
use snap_devices::{FaultPlan, MemDisk};
use snap_disk::{Disk, Fill, Refusal};
use snap_restart::open_all;
use std::alloc::Global;
use std::io;
use std::string::String;

/// The result of the stopped opening, and that of another one after a crash with this garbage.
pub(crate) fn opening_cell(
    alloc: Global,
    stop: Stop,
    garbage: Garbage,
) -> io::Result<(String, String)> {
    let mut devices = three_files(alloc)?;
    plan_all(alloc, &mut devices, stop)?;
    let (answer, mut devices) = found(alloc, devices)?;
    crash_all(alloc, &mut devices, garbage);
    let (after, _) = found(alloc, devices)?;
    Ok((answer, after))
}

/// Three files: one with `hi`, one in which the last sync of a store of `hi` failed, and a new one.
fn three_files(alloc: Global) -> io::Result<Vec<MemDisk>> {
    let mut devices = Vec::new(alloc);
    devices.push(with_hi(alloc, 0, None)?)?;
    devices.push(with_hi(alloc, 1, Some(4))?)?;
    devices.push(new_memory(alloc, 2, 3)?)?;
    Ok(devices)
}

/// The file after a store of `hi`, in which this call after its first ones failed and changed nothing more.
fn with_hi(alloc: Global, index: u8, fails: Option<u64>) -> io::Result<MemDisk> {
    let mut disk = new_memory(alloc, index, 3)?;
    if let Some(call) = fails {
        let mut plan = FaultPlan::new(alloc);
        // An opening makes two calls.
        plan.fail_call(disk.calls() + 2 + call, Fill::Keep)?;
        disk.set_plan(plan);
    }
    let mut segment = open_segment(alloc, disk, index, 3)?;
    match segment.store(b"hi") {
        Ok(_) | Err(Refusal::DeviceFailed) => {}
        Err(why) => return Err(as_io(why)),
    }
    let mut disk = segment.into_device();
    disk.set_plan(FaultPlan::new(alloc));
    Ok(disk)
}

/// Plans the stop of the next opening, which makes two calls on each file in turn.
fn plan_all(alloc: Global, devices: &mut Vec<MemDisk>, stop: Stop) -> io::Result<()> {
    let mut before = 0;
    for disk in devices.iter_mut() {
        if let Some(stop) = stop.behind(before) {
            disk.set_plan(stop.plan(alloc, disk.calls())?);
        }
        before += 2;
    }
    Ok(())
}

/// The machine crashes, and no further call fails.
fn crash_all(alloc: Global, devices: &mut Vec<MemDisk>, garbage: Garbage) {
    for disk in devices.iter_mut() {
        disk.set_plan(FaultPlan::new(alloc));
        disk.crash(&garbage.fill());
    }
}

/// The result of opening all files, in words, and the devices.
pub(crate) fn found<D: Disk + Drop>(
    alloc: Global,
    devices: Vec<D>,
) -> io::Result<(String, Vec<D>)> {
    match open_all(alloc, devices, 1) {
        Ok((store, report)) => {
            let text = format!(in alloc; "{report}")?;
            Ok((one_line(alloc, text.as_str())?, store.close()))
        }
        Err(stopped) => {
            if stopped.refusal == Refusal::NoMemory {
                return Err(as_io(Refusal::NoMemory));
            }
            let (why, segment) = (stopped.refusal.name(), stopped.segment);
            let words = format!(in alloc; "{why} at segment {segment}")?;
            Ok((words, stopped.devices))
        }
    }
}

/// The lines of the text in one.
pub(crate) fn one_line(alloc: Global, text: &str) -> io::Result<String> {
    Ok(text.trim_end().replace(alloc, "\n", ", ")?)
}
