//! Worked restarts: reports, refusals, faults, and clients that send again.
use crate::checks::Host;
use crate::devices::{new_file, plan_fault};
use snap_devices::MemDisk;
use snap_disk::{Fill, Refusal};
use snap_restart::{Report, Stopped, Store, open_all};
use std::alloc::Global;
use std::test::Fail;

mod held;

/// The new files of `count` segments.
fn fresh(rt: &impl Host, count: u8) -> Result<Vec<MemDisk>, Fail> {
    let mut devices = Vec::new(rt.alloc());
    for index in 0..count {
        devices.push(new_file(rt, index, count)?)?;
    }
    Ok(devices)
}

/// Opens them with one scanner.
fn opened(alloc: Global, devices: Vec<MemDisk>) -> Result<(Store<MemDisk>, Report), Refusal> {
    open_all(alloc, devices, 1).map_err(|stopped| stopped.refusal)
}

/// Opens them, which has to be refused so.
fn stopped(rt: &impl Host, devices: Vec<MemDisk>, why: Refusal) -> Stopped<MemDisk> {
    match open_all(rt.alloc(), devices, 1) {
        Err(stopped) if stopped.refusal == why => stopped,
        _ => panic!(rt; "not refused so"),
    }
}

fn crash_all(devices: &mut Vec<MemDisk>, fill: &Fill) {
    for disk in devices {
        disk.crash(fill);
    }
}

#[test]
fn report_of_two(rt: HostRuntime) -> Result<(), Fail> {
    let (mut store, _) = opened(rt.alloc(), fresh(&rt, 2)?)?;
    assert!(rt; store.writers[0].update(1, b"hi") == Ok(1));
    let (store, report) = opened(rt.alloc(), store.close())?;
    let text = report.to_string(rt.alloc())?;
    let wanted = "segment 0 number 1 length 2 spare open\n\
        segment 1 number 0 length 0 spare closed\nsegments 2\n";
    assert_eq!(rt; text.as_str(), wanted);
    assert!(rt; store.close().len() == 2);
    Ok(())
}

#[test]
fn restart_sync_fails(rt: HostRuntime) -> Result<(), Fail> {
    let mut devices = fresh(&rt, 2)?;
    plan_fault(&rt, &mut devices[1], 0)?;
    let mut stopped = stopped(&rt, devices, Refusal::DeviceFailed);
    assert!(rt; stopped.segment == 1);
    crash_all(&mut stopped.devices, &Fill::All(0xA5));
    let (store, report) = opened(rt.alloc(), stopped.devices)?;
    assert!(rt; report.segments.len() == 2 && store.writers.len() == 2);
    Ok(())
}

/// An update whose store failed at its last sync is sent again after a crash with this fill. How many calls all of that
/// took.
fn sent_again(rt: &impl Host, fill: Fill) -> Result<u64, Fail> {
    let mut devices = fresh(rt, 1)?;
    // An opening makes two calls, and the last sync is a store's fourth.
    plan_fault(rt, &mut devices[0], 5)?;
    let (mut store, _) = opened(rt.alloc(), devices)?;
    assert!(rt; store.writers[0].update(1, b"hi") == Err(Refusal::DeviceFailed));
    let mut devices = store.close();
    crash_all(&mut devices, &fill);
    let (mut store, _) = opened(rt.alloc(), devices)?;
    assert!(rt; store.writers.len() == 1);
    assert!(rt; store.writers[0].update(1, b"hi") == Ok(1));
    assert!(rt; store.writers[0].update(1, b"yo") == Err(Refusal::Conflict));
    Ok(store.close()[0].calls())
}

#[test]
fn the_client_sends_again(rt: HostRuntime) -> Result<(), Fail> {
    let kept = sent_again(&rt, Fill::All(0xA5))?;
    let lost = sent_again(&rt, Fill::All(0x00))?;
    assert!(rt; lost == kept + 4);
    Ok(())
}

#[test]
fn first_refusal_names_its_segment(rt: HostRuntime) -> Result<(), Fail> {
    let mut devices = fresh(&rt, 3)?;
    devices.swap(1, 2);
    let stopped = stopped(&rt, devices, Refusal::WrongFile);
    assert!(rt; stopped.segment == 1 && stopped.devices.len() == 3);
    Ok(())
}
