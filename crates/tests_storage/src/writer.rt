//! Worked updates: answers in the order of the rules, faults, restarts and limits.
use crate::checks::Host;
use crate::devices::{fresh, plan_fault};
use snap_devices::{FaultPlan, MemDisk};
use snap_disk::{Disk, Fill, Refusal};
use snap_history::{LAST_NUMBER, MAX_VALUE_LEN};
use snap_memory::{Scanner, Snapshot};
use snap_register::{Parts, Registers};
use snap_segment::Segment;
use snap_slot::{BLOCK_LEN, CLOSED_GATE, OPEN_GATE, body_at, encode_body, gate_at, slot_of};
use snap_writer::Writer;
use std::test::Fail;

/// The file, opened, in registers of its own with `looks` for each seat.
fn seated(rt: &impl Host, disk: MemDisk, looks: u64) -> Result<(Writer<MemDisk>, Scanner), Fail> {
    let segment = Segment::open(rt.alloc(), disk, 0, 1).map_err(|(why, _)| why)?;
    let mut values = Vec::new(rt.alloc());
    values.push((segment.number(), segment.value().to_vec(rt.alloc())?))?;
    let Parts {
        mut writers,
        mut scanners,
    } = Registers::open(rt.alloc(), &values, 1, looks)?;
    let (Some(seat), Some(scanner)) = (writers.pop(), scanners.pop()) else {
        panic!(rt; "a seat is missing")
    };
    Ok((Writer::new(segment, seat), Scanner::new(scanner)))
}

/// An update's number and value, and its answer.
type Row<'a> = (u64, &'a [u8], Result<u64, Refusal>);

/// These updates are answered so, and leave the writer at this number.
fn answers(rt: &impl Host, writer: &mut Writer<MemDisk>, updates: &[Row<'_>], number: u64) {
    for (sent, value, answer) in updates {
        assert!(rt; writer.update(*sent, *value) == *answer, "number {sent}");
        assert!(rt; writer.number() == number, "number {sent}");
    }
}

/// The writer has this number and value, and `left` looks.
fn has(rt: &impl Host, writer: &Writer<MemDisk>, number: u64, value: &[u8], left: u64) {
    assert!(rt; writer.number() == number && writer.looks_left() == left);
    assert!(rt; writer.value() == value);
}

/// A scan that has met the writer shows this number and value.
fn shows(
    rt: &impl Host,
    writer: &mut Writer<MemDisk>,
    scanner: &mut Scanner,
    number: u64,
    value: &[u8],
) -> Result<(), Fail> {
    let mut out = Snapshot::new(rt.alloc(), 1)?;
    writer.meet(scanner);
    assert!(rt; scanner.scan_into(&mut out) == Ok(()));
    assert!(rt; out.number(0) == number && out.value(0) == value);
    Ok(())
}

/// The device of the writer, after this many calls and this many failures.
fn called(rt: &impl Host, writer: Writer<MemDisk>, calls: u64, failures: u64) -> MemDisk {
    let disk = writer.into_segment().into_device();
    assert!(rt; disk.calls() == calls && disk.failures() == failures);
    disk
}

/// A writer at number 0 whose update to 1 and `hi` failed at its fourth call, a sync.
fn faulted(rt: &impl Host) -> Result<(Writer<MemDisk>, Scanner), Fail> {
    let mut disk = fresh(rt)?;
    // An opening makes two calls.
    plan_fault(rt, &mut disk, 5)?;
    let (mut writer, scanner) = seated(rt, disk, 100)?;
    answers(
        rt,
        &mut writer,
        &[(1, b"hi", Err(Refusal::DeviceFailed))],
        0,
    );
    Ok((writer, scanner))
}

#[test]
fn stored_and_then_shown(rt: HostRuntime) -> Result<(), Fail> {
    let (mut writer, mut scanner) = seated(&rt, fresh(&rt)?, 100)?;
    has(&rt, &writer, 0, b"", 100);
    answers(&rt, &mut writer, &[(1, b"hi", Ok(1))], 1);
    has(&rt, &writer, 1, b"hi", 98);
    assert!(rt; !writer.is_fenced() && writer.begun().is_none());
    shows(&rt, &mut writer, &mut scanner, 1, b"hi")?;
    // A formatting makes seven calls, an opening two, and the update four.
    let mut disk = called(&rt, writer, 7 + 2 + 4, 0);
    disk.crash(&Fill::All(0xA5));
    let (writer, _) = seated(&rt, disk, 100)?;
    has(&rt, &writer, 1, b"hi", 100);
    Ok(())
}

#[test]
fn answers_in_the_order_of_the_rules(rt: HostRuntime) -> Result<(), Fail> {
    let more = [7; MAX_VALUE_LEN + 1];
    let longest = &more[1..];
    let (mut writer, _) = seated(&rt, fresh(&rt)?, 100)?;
    let updates: [Row<'_>; 9] = [
        (1, longest, Ok(1)),
        (1, &more, Err(Refusal::TooLong)),
        (2, &more, Err(Refusal::TooLong)),
        (9, &more, Err(Refusal::TooLong)),
        (1, longest, Ok(1)),
        (1, b"yo", Err(Refusal::Conflict)),
        (0, b"", Err(Refusal::OutOfStep)),
        (3, longest, Err(Refusal::OutOfStep)),
        (u64::MAX, b"", Err(Refusal::OutOfStep)),
    ];
    answers(&rt, &mut writer, &updates, 1);
    has(&rt, &writer, 1, longest, 98);
    answers(&rt, &mut writer, &[(2, b"yo", Ok(2))], 2);
    Ok(())
}

#[test]
fn fault_fences_the_segment(rt: HostRuntime) -> Result<(), Fail> {
    let (mut writer, mut scanner) = faulted(&rt)?;
    assert!(rt; writer.is_fenced() && writer.begun() == Some(b"hi".as_slice()));
    shows(&rt, &mut writer, &mut scanner, 0, b"")?;
    let updates: [Row<'_>; 4] = [
        (1, b"hi", Err(Refusal::Fenced)),
        (0, b"", Ok(0)),
        (0, b"hi", Err(Refusal::Conflict)),
        (5, b"hi", Err(Refusal::OutOfStep)),
    ];
    answers(&rt, &mut writer, &updates, 0);
    called(&rt, writer, 7 + 2 + 4, 1);
    Ok(())
}

/// After the faulted update the machine crashes, and the client sends the update again. The fill, the number that is
/// recovered, and how many calls the update then makes.
#[test]
fn the_client_sends_again(rt: HostRuntime) -> Result<(), Fail> {
    for (fill, recovered, calls) in [(0x00, 0, 4), (0xA5, 1, 0)] {
        let (writer, _) = faulted(&rt)?;
        let mut disk = called(&rt, writer, 7 + 2 + 4, 1);
        disk.set_plan(FaultPlan::new(rt.alloc()));
        disk.crash(&Fill::All(fill));
        let (mut writer, _) = seated(&rt, disk, 100)?;
        assert!(rt; writer.number() == recovered);
        let updates: [Row<'_>; 2] = [(1, b"hi", Ok(1)), (1, b"yo", Err(Refusal::Conflict))];
        answers(&rt, &mut writer, &updates, 1);
        called(&rt, writer, 13 + 2 + calls, 1);
    }
    Ok(())
}

/// A file that has the largest number alone, with the empty value.
fn at_the_end(rt: &impl Host) -> Result<MemDisk, Fail> {
    let mut disk = fresh(rt)?;
    let mut body = [0; BLOCK_LEN];
    encode_body(LAST_NUMBER, b"", &mut body);
    let slot = slot_of(LAST_NUMBER);
    disk.write_at(body_at(slot), &body)?;
    disk.write_at(gate_at(0), &[CLOSED_GATE])?;
    disk.write_at(gate_at(slot), &[OPEN_GATE])?;
    Ok(disk)
}

#[test]
fn largest_number(rt: HostRuntime) -> Result<(), Fail> {
    let last = 9_223_372_036_854_775_807;
    let (mut writer, _) = seated(&rt, at_the_end(&rt)?, 100)?;
    has(&rt, &writer, last, b"", 100);
    let updates: [Row<'_>; 3] = [
        (last + 1, b"x", Err(Refusal::Exhausted)),
        (1, b"x", Err(Refusal::OutOfStep)),
        (last, b"", Ok(last)),
    ];
    answers(&rt, &mut writer, &updates, last);
    called(&rt, writer, 7 + 3 + 2, 0);
    Ok(())
}

#[test]
fn worn_scanner_and_writer(rt: HostRuntime) -> Result<(), Fail> {
    let (mut writer, _) = seated(&rt, fresh(&rt)?, 4)?;
    let updates: [Row<'_>; 3] = [
        (1, b"hi", Ok(1)),
        (2, b"yo", Err(Refusal::Worn)),
        (1, b"hi", Ok(1)),
    ];
    answers(&rt, &mut writer, &updates, 1);
    has(&rt, &writer, 1, b"hi", 2);
    called(&rt, writer, 7 + 2 + 4, 0);
    Ok(())
}
