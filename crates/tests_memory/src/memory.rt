//! Scans and updates by hand, and in threads.
use crate::seats::{last_seat, last_writer, open};
use snap_disk::Refusal;
use snap_history::MAX_VALUE_LEN;
use snap_memory::{Scanner, Snapshot, prepare, show};
use snap_register::{Looker, Parts, WriteSeat};
use std::alloc::{AllocError, Global};
use std::process::Abort;
use std::test::Fail;

mod some;
mod staged;
mod threads;

/// An update: its scan, and its publication. Its number.
fn update(writer: &mut WriteSeat, value: &[u8]) -> u64 {
    let view = prepare(writer);
    writer.begin_store();
    writer.end_store();
    show(writer, value, view)
}

/// Whether a scan of one segment answers this number and value.
fn answers(scanner: &mut Scanner, out: &mut Snapshot, number: u64, value: &[u8]) -> bool {
    scanner.scan_into(out) == Ok(()) && out.number(0) == number && out.value(0) == value
}

/// One segment's writer, and one scanner.
fn open_two(
    rt: &impl Abort,
    alloc: Global,
    looks: u64,
) -> Result<(WriteSeat, Scanner), AllocError> {
    let Parts {
        mut writers,
        mut scanners,
    } = open(alloc, 1, 1, looks)?;
    let writer = last_writer(rt, &mut writers);
    Ok((writer, Scanner::new(last_seat(rt, &mut scanners))))
}

/// Seats of four looks each are worn after a scan and an update.
#[test]
fn worn_scanner_and_writer(rt: HostRuntime) -> Result<(), Fail> {
    let mut out = Snapshot::new(rt.alloc(), 1)?;
    let (mut writer, mut scanner) = open_two(&rt, rt.alloc(), 4)?;
    assert!(rt; answers(&mut scanner, &mut out, 0, &[]) && scanner.looks_left() == 2);
    assert!(rt; update(&mut writer, b"61") == 1);
    assert!(rt; scanner.scan_into(&mut out) == Err(Refusal::Worn));
    assert!(rt; scanner.looks_left() == 2 && writer.looks_left() == 2);
    assert!(rt; out.number(0) == 0 && out.value(0).is_empty());
    Ok(())
}

#[test]
fn five_thousand_updates(rt: HostRuntime) -> Result<(), Fail> {
    let mut out = Snapshot::new(rt.alloc(), 1)?;
    let (mut writer, mut scanner) = open_two(&rt, rt.alloc(), 20_000)?;
    for number in 1..5001u64 {
        let value = number.to_be_bytes();
        assert!(rt; update(&mut writer, &value) == number);
        assert!(rt; answers(&mut scanner, &mut out, number, &value));
    }
    assert!(rt; writer.looks_left() == 10_000 && scanner.looks_left() == 10_000);
    Ok(())
}

/// The writer of the last of `segments` segments, a scanner that may meet it, and another one.
fn open_three(
    rt: &impl Abort,
    alloc: Global,
    segments: usize,
) -> Result<(WriteSeat, Scanner, Scanner), AllocError> {
    let Parts {
        mut writers,
        mut scanners,
    } = open(alloc, segments, 2, 100)?;
    let writer = last_writer(rt, &mut writers);
    let met = Scanner::new(last_seat(rt, &mut scanners));
    Ok((writer, met, Scanner::new(last_seat(rt, &mut scanners))))
}

#[test]
fn met_and_unmet_scanners(rt: HostRuntime) -> Result<(), Fail> {
    let mut out = Snapshot::new(rt.alloc(), 1)?;
    let (mut writer, mut met, mut unmet) = open_three(&rt, rt.alloc(), 1)?;
    assert!(rt; update(&mut writer, b"hi") == 1);
    met.meet(&mut writer);
    assert!(rt; answers(&mut met, &mut out, 1, b"hi"));
    assert!(rt; answers(&mut unmet, &mut out, 1, b"hi"));
    Ok(())
}

#[test]
fn reads_one(rt: HostRuntime) -> Result<(), Fail> {
    let (mut writer, mut scanner) = open_two(&rt, rt.alloc(), 10)?;
    assert!(rt; update(&mut writer, &[7; 4080]) == 1);
    let mut room = [0; MAX_VALUE_LEN];
    assert!(rt; scanner.read_one(0, &mut room) == (1, 4080));
    assert!(rt; room == [7; 4080] && scanner.looks_left() == 9);
    Ok(())
}

/// Run with each allocation refused in turn (`rt try --test --fail-alloc N`): what was allocated before a refused one
/// is freed, and the next opening and the next snapshot have their memory.
#[test]
fn scans_after_a_refused_allocation(rt: HostRuntime) -> Result<(), Fail> {
    let (mut writer, mut scanner) = match open_two(&rt, rt.alloc(), 10) {
        Ok(seats) => seats,
        Err(AllocError) => open_two(&rt, rt.alloc(), 10)?,
    };
    assert!(rt; update(&mut writer, b"hi") == 1);
    let mut out = match Snapshot::new(rt.alloc(), 1) {
        Ok(out) => out,
        Err(AllocError) => Snapshot::new(rt.alloc(), 1)?,
    };
    assert!(rt; answers(&mut scanner, &mut out, 1, b"hi"));
    Ok(())
}
