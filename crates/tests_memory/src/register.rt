//! Registers of one segment, by hand.
use crate::seats::{last_seat, last_writer};
use snap_history::MAX_VALUE_LEN;
use snap_register::{Looker, Parts, ReadSeat, Registers, View, WriteSeat};
use std::alloc::{AllocError, Global};
use std::process::Abort;
use std::test::Fail;
use std::thread::{Threads, join};

mod threads;

/// Shows a value, after a look. The number of the update.
fn write(writer: &mut WriteSeat, value: &[u8]) -> u64 {
    writer.look(0);
    writer.begin_store();
    writer.end_store();
    writer.publish(value, &View::Collected)
}

/// Shows the numbers from `first` on as values of eight bytes. The last update's number.
fn write_all(writer: &mut WriteSeat, first: u64, count: u64) -> u64 {
    let mut last = 0;
    for number in first..first + count {
        last = write(writer, &number.to_be_bytes());
    }
    last
}

/// The value of the last look.
fn looked<'a>(reader: &mut ReadSeat, room: &'a mut [u8; MAX_VALUE_LEN]) -> &'a [u8] {
    let length = reader.value(0, room);
    &room[..length]
}

/// The number in a value of eight bytes.
fn word_in(value: &[u8]) -> Option<u64> {
    match value {
        [a, b, c, d, e, f, g, h] => Some(u64::from_be_bytes([*a, *b, *c, *d, *e, *f, *g, *h])),
        _ => None,
    }
}

/// The number in the value of the last look. The empty value has number 0.
fn looked_word(reader: &mut ReadSeat) -> Option<u64> {
    let mut room = [0; MAX_VALUE_LEN];
    match looked(reader, &mut room) {
        [] => Some(0),
        value => word_in(value),
    }
}

/// Registers of one segment at number 0 with this value.
fn open(alloc: Global, value: &[u8], scanners: usize, looks: u64) -> Result<Parts, AllocError> {
    let mut values = Vec::new(alloc);
    values.push((0, value.to_vec(alloc)?))?;
    Registers::open(alloc, &values, scanners, looks)
}

/// The writer's seat and a scanner's.
fn two_of(rt: &impl Abort, parts: Parts) -> (WriteSeat, ReadSeat) {
    let Parts {
        mut writers,
        mut scanners,
    } = parts;
    (last_writer(rt, &mut writers), last_seat(rt, &mut scanners))
}

/// The writer's seat and those of two scanners.
fn open_three(
    rt: &impl Abort,
    alloc: Global,
) -> Result<(WriteSeat, ReadSeat, ReadSeat), AllocError> {
    let Parts {
        mut writers,
        mut scanners,
    } = open(alloc, &[], 2, 1000)?;
    let b = last_seat(rt, &mut scanners);
    let a = last_seat(rt, &mut scanners);
    Ok((last_writer(rt, &mut writers), a, b))
}

/// Both scanners keep what they looked at: an update comes before the second one's look, and a hundred after it.
#[test]
fn two_pins_and_a_hundred_updates(rt: HostRuntime) -> Result<(), Fail> {
    let (mut writer, mut a, mut b) = open_three(&rt, rt.alloc())?;
    assert!(rt; a.look(0) == 0 && write_all(&mut writer, 1, 1) == 1 && b.look(0) == 1);
    assert!(rt; write_all(&mut writer, 2, 100) == 101);
    assert!(rt; looked_word(&mut a) == Some(0) && looked_word(&mut b) == Some(1));
    assert!(rt; a.look(0) == 101);
    assert!(rt; looked_word(&mut a) == Some(101) && looked_word(&mut b) == Some(1));
    Ok(())
}

#[test]
fn five_thousand_updates(rt: HostRuntime) -> Result<(), Fail> {
    let (mut writer, mut scanner) = two_of(&rt, open(rt.alloc(), &[7], 1, 10_000)?);
    assert!(rt; write_all(&mut writer, 1, 5000) == 5000 && writer.looks_left() == 5000);
    assert!(rt; scanner.look(0) == 5000 && looked_word(&mut scanner) == Some(5000));
    assert!(rt; scanner.looks_left() == 9999);
    Ok(())
}

/// Whether the numbers of `count` looks never fell, and each value was the one of its number.
fn look_often(reader: &mut ReadSeat, count: u64) -> bool {
    let (mut last, mut is_right) = (0, true);
    for _ in 0..count {
        let number = reader.look(0);
        is_right &= looked_word(reader) == Some(number) && last <= number;
        last = number;
    }
    is_right
}

/// Whether a look shows this number and value.
fn shows(reader: &mut ReadSeat, number: u64, value: &[u8]) -> bool {
    reader.look(0) == number && looked(reader, &mut [0; MAX_VALUE_LEN]) == value
}

#[test]
fn values_of_each_length(rt: HostRuntime) -> Result<(), Fail> {
    let (mut writer, mut scanner) = two_of(&rt, open(rt.alloc(), &[9, 8, 7], 1, 100)?);
    assert!(rt; shows(&mut scanner, 0, &[9, 8, 7]));
    // The powers of 3, modulo 256.
    let (mut bytes, mut next) = ([0; MAX_VALUE_LEN], 1u8);
    for byte in bytes.iter_mut() {
        *byte = next;
        next = next.wrapping_mul(3);
    }
    for length in [0, 1, 7, 8, 9, 4079, 4080] {
        let number = write(&mut writer, &bytes[..length]);
        assert!(rt;
            shows(&mut scanner, number, &bytes[..length]),
            "length {length}"
        );
    }
    Ok(())
}

/// Runs them at once. Whether the last update has its number, and both scanners found what is right.
fn write_and_look<R: Threads + Sync>(
    rt: &R,
    writer: &mut WriteSeat,
    a: &mut ReadSeat,
    b: &mut ReadSeat,
) -> bool {
    let (last, right) = join(
        rt,
        || write_all(writer, 1, 200),
        || join(rt, || look_often(a, 500), || look_often(b, 500)),
    );
    last == 200 && right.0 && right.1
}

#[test]
fn a_writer_and_two_scanners_in_threads(rt: HostRuntime) -> Result<(), Fail> {
    let (mut writer, mut a, mut b) = open_three(&rt, rt.alloc())?;
    assert!(rt; write_and_look(&rt, &mut writer, &mut a, &mut b));
    Ok(())
}

/// Run with each allocation refused in turn (`rt try --test --fail-alloc N`): what was allocated before is freed, and
/// the next opening has all its seats, which work.
#[test]
fn opens_after_a_refused_allocation(rt: HostRuntime) -> Result<(), Fail> {
    let parts = match open(rt.alloc(), &[9, 8, 7], 2, 100) {
        Ok(parts) => parts,
        Err(AllocError) => open(rt.alloc(), &[9, 8, 7], 2, 100)?,
    };
    assert!(rt; parts.writers.len() == 1 && parts.scanners.len() == 2);
    let (mut writer, mut scanner) = two_of(&rt, parts);
    assert!(rt; shows(&mut scanner, 0, &[9, 8, 7]) && write_all(&mut writer, 1, 3) == 3);
    assert!(rt; scanner.look(0) == 3);
    assert!(rt; scanner.looks_left() == 98 && writer.looks_left() == 97);
    Ok(())
}
