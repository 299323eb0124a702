//! New registers, and seats that are taken out of them.
use snap_register::{Parts, ReadSeat, Registers, WriteSeat};
use std::alloc::{AllocError, Global};
use std::process::Abort;

/// Registers of `segments` segments, each at number 0 with the empty value.
pub(crate) fn open(
    alloc: Global,
    segments: usize,
    scanners: usize,
    looks: u64,
) -> Result<Parts, AllocError> {
    let mut values = Vec::new(alloc);
    for _ in 0..segments {
        values.push((0, Vec::new(alloc)))?;
    }
    Registers::open(alloc, &values, scanners, looks)
}

/// The last of these scanners' seats.
pub(crate) fn last_seat(rt: &impl Abort, scanners: &mut Vec<ReadSeat>) -> ReadSeat {
    match scanners.pop() {
        Some(seat) => seat,
        None => panic!(rt; "a seat is missing"),
    }
}

/// The last of these writers' seats.
pub(crate) fn last_writer(rt: &impl Abort, writers: &mut Vec<WriteSeat>) -> WriteSeat {
    match writers.pop() {
        Some(writer) => writer,
        None => panic!(rt; "a writer is missing"),
    }
}

/// The value of each number but 0, which has the empty one.
pub(crate) fn value_of(segment: usize, number: u64) -> [u8; 9] {
    let s = segment.to_le_bytes();
    let n = number.to_be_bytes();
    [s[0], n[0], n[1], n[2], n[3], n[4], n[5], n[6], n[7]]
}

/// Whether the value is the one of this number.
pub(crate) fn is_value_of(segment: usize, number: u64, value: &[u8]) -> bool {
    match number {
        0 => value.is_empty(),
        number => value == value_of(segment, number).as_slice(),
    }
}
