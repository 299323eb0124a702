//! Devices that have a segment file, and checks of calls on them.
use crate::checks::{Host, are, prints};
use snap_devices::{FaultPlan, MemDisk};
use snap_disk::{Disk, Fill, Refusal};
use snap_segment::{Segment, check, format};
use snap_slot::FILE_LEN;
use std::alloc::AllocError;
use std::test::Fail;

/// Bytes from a place on.
pub(crate) type Part = (usize, &'static [u8]);

pub(crate) const HEADER: Part = (0, b"SNAPSEG2\x00\x01");

pub(crate) const HEADER_GATE: Part = (4095, b"\xA5");

pub(crate) const GATE_0: Part = (4096, b"\xA5");

pub(crate) const GATE_1: Part = (12_288, b"\xA5");

pub(crate) const GATE_2: Part = (20_480, b"\xA5");

/// The body of number 1 with `hi` in slot 1.
pub(crate) const BODY_1: Part = (16_384, b"\0\0\0\0\0\0\0\x01\0\0\0\x02\0\0\0\0\x68\x69");

/// `len` bytes: these parts, and zeros.
fn filled(rt: &impl Host, len: usize, parts: &[Part]) -> Result<Vec<u8>, AllocError> {
    let mut bytes = vec![in rt.alloc(); 0u8; len]?;
    for (at, part) in parts {
        bytes[*at..*at + part.len()].copy_from_slice(*part);
    }
    Ok(bytes)
}

/// A device that has these bytes, all of them synced.
fn written(rt: &impl Host, bytes: &[u8]) -> Result<MemDisk, Fail> {
    let mut disk = MemDisk::zeroed(rt.alloc(), bytes.len())?;
    disk.write_at(0, bytes)?;
    disk.sync()?;
    Ok(disk)
}

/// A device of `len` bytes that has these parts, all of it synced.
pub(crate) fn device(rt: &impl Host, len: usize, parts: &[Part]) -> Result<MemDisk, Fail> {
    written(rt, &filled(rt, len, parts)?)
}

/// A device of zeros.
pub(crate) fn blank(rt: &impl Host) -> Result<MemDisk, AllocError> {
    MemDisk::zeroed(rt.alloc(), FILE_LEN as usize)
}

/// An unformatted device none of whose bytes is one of a new file.
pub(crate) fn littered(rt: &impl Host) -> Result<MemDisk, Fail> {
    written(rt, &vec![in rt.alloc(); 0x77u8; 28_672]?)
}

/// The new file of segment `index` of `count`.
pub(crate) fn new_file(rt: &impl Host, index: u8, count: u8) -> Result<MemDisk, Fail> {
    let mut disk = blank(rt)?;
    format(&mut disk, index, count)?;
    Ok(disk)
}

/// The new file of the only segment.
pub(crate) fn fresh(rt: &impl Host) -> Result<MemDisk, Fail> {
    new_file(rt, 0, 1)
}

pub(crate) fn opened(rt: &impl Host, disk: MemDisk) -> Result<Segment<MemDisk>, Refusal> {
    Segment::open(rt.alloc(), disk, 0, 1).map_err(|(why, _)| why)
}

/// This value is stored as this number. The device comes back.
pub(crate) fn stored(
    rt: &impl Host,
    disk: MemDisk,
    value: &[u8],
    number: u64,
) -> Result<MemDisk, Fail> {
    let mut segment = opened(rt, disk)?;
    assert!(rt; segment.store(value) == Ok(number));
    Ok(segment.into_device())
}

/// The opening of this device is refused so.
pub(crate) fn is_refused(rt: &impl Host, disk: MemDisk, why: Refusal) {
    assert!(rt; opened(rt, disk).is_err_and(|given| given == why));
}

/// A check prints this.
pub(crate) fn finds(rt: &impl Host, disk: &mut MemDisk, text: &str) -> Result<(), Fail> {
    prints(rt, &check(disk)?, text)?;
    Ok(())
}

/// `calls` were made of this device after the first `since`.
pub(crate) fn made(rt: &impl Host, disk: &MemDisk, since: u64, calls: u64) {
    assert_eq!(rt; disk.calls() - since, calls);
}

/// From now on the call after `passes` more fails.
pub(crate) fn plan_fault(
    rt: &impl Host,
    disk: &mut MemDisk,
    passes: u64,
) -> Result<(), AllocError> {
    let mut plan = FaultPlan::new(rt.alloc());
    plan.fail_call(disk.calls() + passes + 1, Fill::Keep)?;
    disk.set_plan(plan);
    Ok(())
}

/// The device fails from its call of this number on.
pub(crate) fn failing(rt: &impl Host, mut disk: MemDisk, call: u64, fill: Fill) -> MemDisk {
    let mut plan = FaultPlan::new(rt.alloc());
    plan.fail_after(call, fill);
    disk.set_plan(plan);
    disk
}

/// The device after a crash with this fill. It fails no more.
pub(crate) fn after_crash(rt: &impl Host, mut disk: MemDisk, fill: u8) -> MemDisk {
    disk.set_plan(FaultPlan::new(rt.alloc()));
    disk.crash(&Fill::All(fill));
    disk
}

/// The store of `value` stops after `passes` of its calls, and the machine crashes.
pub(crate) fn crashed(
    rt: &impl Host,
    disk: MemDisk,
    value: &[u8],
    passes: u64,
    fill: u8,
) -> Result<MemDisk, Fail> {
    // An opening makes two calls.
    let before = disk.calls() + 2;
    let mut segment = opened(rt, failing(rt, disk, before + passes, Fill::Keep))?;
    assert!(rt; segment.store(value) == Err(Refusal::DeviceFailed));
    let disk = segment.into_device();
    made(rt, &disk, before, passes + 1);
    Ok(after_crash(rt, disk, fill))
}

/// The device opens with this number and value. It comes back.
pub(crate) fn holds(
    rt: &impl Host,
    disk: MemDisk,
    number: u64,
    value: &[u8],
) -> Result<MemDisk, Fail> {
    let segment = opened(rt, disk)?;
    assert!(rt; segment.number() == number && segment.value() == value);
    assert!(rt; !segment.is_fenced() && segment.begun().is_none());
    Ok(segment.into_device())
}

/// The device has these parts, and zeros.
pub(crate) fn has_bytes(rt: &impl Host, disk: &MemDisk, parts: &[Part]) -> Result<(), Fail> {
    are(rt, disk.image().bytes(), &filled(rt, 28_672, parts)?);
    Ok(())
}
