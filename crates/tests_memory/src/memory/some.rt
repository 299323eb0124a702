//! Scans of some segments, by hand.
mod kept;

use crate::memory::{open_three, update};
use crate::seats::{is_value_of, last_seat, open, value_of};
use snap_disk::Refusal;
use snap_memory::{Scanner, SegmentSet, SegmentValue, Snapshot};
use snap_register::{Parts, WriteSeat};
use snap_scan::MAX_SEGMENTS;
use std::alloc::{AllocError, Global};
use std::process::Abort;
use std::test::Fail;

/// A number for each segment; those of segments that aren't named are 0.
pub(crate) type Numbers = [u64; MAX_SEGMENTS];

/// The numbers of the named segments. `None` if the list hasn't an entry for each, in ascending order, with the value
/// of its number.
pub(crate) fn numbers_of(set: SegmentSet, values: &Vec<SegmentValue>) -> Option<Numbers> {
    let mut numbers = [0; MAX_SEGMENTS];
    let mut entries = values.iter();
    for segment in 0..MAX_SEGMENTS {
        if set.has(segment) {
            let entry = entries.next()?;
            if !is_value_of(segment, entry.number, entry.value.as_slice()) {
                return None;
            }
            numbers[segment] = entry.number;
        }
    }
    entries.next().is_none().then_some(numbers)
}

/// The writers of three segments, and a scanner with a snapshot for its scans.
#[derive(Drop)]
struct Three {
    writers: Vec<WriteSeat>,
    scanner: Scanner,
    out: Snapshot,
}

/// Seats of `looks` looks each.
fn open_all(rt: &impl Abort, alloc: Global, looks: u64) -> Result<Three, AllocError> {
    let Parts {
        writers,
        mut scanners,
    } = open(alloc, 3, 1, looks)?;
    Ok(Three {
        writers,
        scanner: Scanner::new(last_seat(rt, &mut scanners)),
        out: Snapshot::new(alloc, 3)?,
    })
}

/// An update of each named segment, which gets this number.
fn update_some(rt: &impl Abort, writers: &mut Vec<WriteSeat>, set: SegmentSet, number: u64) {
    for writer in writers {
        let segment = writer.segment();
        if set.has(segment) {
            assert!(rt; update(writer, &value_of(segment, number)) == number);
        }
    }
}

/// Whether the snapshot of three segments has these numbers with their values.
fn shows(out: &Snapshot, numbers: &Numbers) -> bool {
    out.len() == 3
        && (0..3).all(|i| out.number(i) == numbers[i] && is_value_of(i, numbers[i], out.value(i)))
}

/// Gives the named segments this number.
fn renumber(numbers: &mut Numbers, set: SegmentSet, number: u64) {
    for segment in 0..MAX_SEGMENTS {
        if set.has(segment) {
            numbers[segment] = number;
        }
    }
}

/// A scan of each set after an update of all segments takes two collects. It writes what it names over what the
/// snapshot has, or lists that and nothing else.
#[test]
fn each_set_is_scanned_and_nothing_else(rt: HostRuntime) -> Result<(), Fail> {
    let mut three = open_all(&rt, rt.alloc(), 1000)?;
    let mut written = [0; MAX_SEGMENTS];
    for bits in 1..8u16 {
        let (set, number) = (SegmentSet { bits }, u64::from(bits));
        update_some(&rt, &mut three.writers, SegmentSet::all(3), number);
        let left = three.scanner.looks_left();
        assert!(rt; three.scanner.scan_some(set, &mut three.out) == Ok(()));
        assert!(rt; three.scanner.looks_left() == left - 2 * set.len() as u64);
        renumber(&mut written, set, number);
        assert!(rt; shows(&three.out, &written), "set {bits:#b}");
        let values = three.scanner.scan(rt.alloc(), set)?;
        assert!(rt; three.scanner.looks_left() == left - 4 * set.len() as u64);
        let mut listed = [0; MAX_SEGMENTS];
        renumber(&mut listed, set, number);
        assert!(rt; numbers_of(set, &values) == Some(listed), "set {bits:#b}");
    }
    Ok(())
}

/// Both kinds of scan are refused, since too few looks are left, and take none.
fn is_worn(rt: &impl Abort, three: &mut Three, alloc: Global, set: SegmentSet) {
    let left = three.scanner.looks_left();
    assert!(rt; three.scanner.scan_some(set, &mut three.out) == Err(Refusal::Worn));
    let listed = three.scanner.scan(alloc, set);
    assert!(rt;
        listed.is_err_and(|why| why == Refusal::Worn) && three.scanner.looks_left() == left
    );
}

#[test]
fn worn_exactly_below_the_looks_of_a_set(rt: HostRuntime) -> Result<(), Fail> {
    let none = [0; MAX_SEGMENTS];
    for (bits, looks) in [(1, 3), (2, 3), (4, 3), (3, 8), (5, 8), (6, 8), (7, 15)] {
        let set = SegmentSet { bits };
        let mut worn = open_all(&rt, rt.alloc(), looks - 1)?;
        is_worn(&rt, &mut worn, rt.alloc(), set);
        assert!(rt; shows(&worn.out, &none));
        let mut a = open_all(&rt, rt.alloc(), looks)?;
        assert!(rt; a.scanner.scan_some(set, &mut a.out) == Ok(()));
        is_worn(&rt, &mut a, rt.alloc(), set);
        let mut b = open_all(&rt, rt.alloc(), looks)?;
        let values = b.scanner.scan(rt.alloc(), set)?;
        assert!(rt; numbers_of(set, &values) == Some(none));
        is_worn(&rt, &mut b, rt.alloc(), set);
    }
    Ok(())
}

/// A scanner that has too few looks for a scan of all may have enough for one of some.
#[test]
fn some_are_scanned_where_all_are_worn(rt: HostRuntime) -> Result<(), Fail> {
    let mut three = open_all(&rt, rt.alloc(), 14)?;
    assert!(rt; three.scanner.scan_into(&mut three.out) == Err(Refusal::Worn));
    let set = SegmentSet { bits: 5 };
    assert!(rt; three.scanner.scan_some(set, &mut three.out) == Ok(()));
    assert!(rt; three.scanner.looks_left() == 10);
    Ok(())
}

#[test]
fn met_and_unmet_scanners_of_some(rt: HostRuntime) -> Result<(), Fail> {
    let mut out = Snapshot::new(rt.alloc(), 3)?;
    let (mut writer, mut met, mut unmet) = open_three(&rt, rt.alloc(), 3)?;
    assert!(rt; update(&mut writer, &value_of(2, 1)) == 1);
    met.meet(&mut writer);
    let mut numbers = [0; MAX_SEGMENTS];
    numbers[2] = 1;
    assert!(rt; met.scan_some(SegmentSet { bits: 4 }, &mut out) == Ok(()));
    assert!(rt; shows(&out, &numbers));
    let set = SegmentSet { bits: 6 };
    let values = unmet.scan(rt.alloc(), set)?;
    assert!(rt; numbers_of(set, &values) == Some(numbers));
    Ok(())
}
