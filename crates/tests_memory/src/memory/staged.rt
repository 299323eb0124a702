//! Scans between whose looks updates are shown.
use crate::memory::update;
use crate::seats::{last_seat, last_writer, open};
use bytes::Bytes;
use snap_memory::{SegmentSet, prepare, scan, show};
use snap_register::{Looker, Parts, ReadSeat, SnapshotBuf, WriteSeat};
use std::alloc::{AllocError, Global};
use std::process::Abort;
use std::sync::atomic::{AtomicU64, Ordering};
use std::test::Fail;
use std::thread::{join, yield_now};

/// Whether the snapshot has this number and value.
fn has(snapshot: &SnapshotBuf, i: usize, number: u64, value: &[u8]) -> bool {
    snapshot.number(i) == number && snapshot.value(i) == value
}

/// An update of the segment to this one byte, which is shown before the look of this number, from 0, or before a value
/// is read after as many looks.
#[derive(Drop)]
struct Late {
    look: usize,
    segment: usize,
    byte: u8,
}

/// A scanner's seat, before whose looks updates are shown. It keeps the numbers of the looks.
#[derive(Drop)]
struct Staged<'a> {
    seat: ReadSeat,
    writers: Vec<WriteSeat>,
    updates: &'a [Late],
    /// Another thread shows an update before the second look.
    turn: Option<&'a AtomicU64>,
    numbers: Vec<u64>,
}

/// Waits for this turn, but not for ever.
fn wait_for(turn: &AtomicU64, wanted: u64) -> bool {
    for _ in 0..10_000_000 {
        if turn.load(Ordering::SeqCst) == wanted {
            return true;
        }
        yield_now();
    }
    false
}

impl Staged<'_> {
    fn show_all(&mut self) {
        let looks = self.numbers.len();
        for late in self.updates {
            if late.look == looks {
                update(&mut self.writers[late.segment], &[late.byte]);
            }
        }
        if let (1, Some(turn)) = (looks, self.turn) {
            turn.store(2, Ordering::SeqCst);
            wait_for(turn, 3);
        }
    }
}

impl Looker for Staged<'_> {
    ghost known = { λ s. s.seat };

    fn looks_left(&self) -> u64 {
        self.seat.looks_left()
    }

    fn segments(&self) -> usize {
        self.seat.segments()
    }

    fn has_looked(&self, j: usize) -> bool {
        self.seat.has_looked(j)
    }

    fn look(&mut self, j: usize) -> u64 {
        self.show_all();
        let number = self.seat.look(j);
        // There is room for the looks of a scan of two segments.
        let _ = self.numbers.push(number);
        number
    }

    fn value(&mut self, j: usize, out: &mut [u8]) -> usize {
        self.show_all();
        self.seat.value(j, out)
    }

    fn value_bytes(&mut self, alloc: Global, j: usize) -> Result<Bytes, AllocError> {
        self.show_all();
        self.seat.value_bytes(alloc, j)
    }

    fn view(&mut self, j: usize, set: SegmentSet, out: &mut SnapshotBuf) {
        self.seat.view(j, set, out);
    }
}

/// A scanner's seat that reads no value before another one has scanned.
#[derive(Drop)]
struct Patient<'a> {
    seat: ReadSeat,
    other: Staged<'a>,
    found: SnapshotBuf,
    is_right: bool,
}

impl Looker for Patient<'_> {
    ghost known = { λ s. s.seat };

    fn looks_left(&self) -> u64 {
        self.seat.looks_left()
    }

    fn segments(&self) -> usize {
        self.seat.segments()
    }

    fn has_looked(&self, j: usize) -> bool {
        self.seat.has_looked(j)
    }

    fn look(&mut self, j: usize) -> u64 {
        self.seat.look(j)
    }

    fn value(&mut self, j: usize, out: &mut [u8]) -> usize {
        self.is_right = tells(&mut self.other, &mut self.found, &[1, 1]);
        self.seat.value(j, out)
    }

    fn value_bytes(&mut self, alloc: Global, j: usize) -> Result<Bytes, AllocError> {
        self.seat.value_bytes(alloc, j)
    }

    fn view(&mut self, j: usize, set: SegmentSet, out: &mut SnapshotBuf) {
        self.seat.view(j, set, out);
    }
}

/// A scan: whether its looks had these numbers.
fn tells(staged: &mut Staged, out: &mut SnapshotBuf, wanted: &[u64]) -> bool {
    scan(staged, out);
    staged.numbers.as_slice() == wanted
}

/// A scanner's seat, before whose looks these updates are shown.
fn staged<'a>(
    alloc: Global,
    seat: ReadSeat,
    writers: Vec<WriteSeat>,
    updates: &'a [Late],
) -> Result<Staged<'a>, AllocError> {
    Ok(Staged {
        seat,
        writers,
        updates,
        turn: None,
        numbers: Vec::with_capacity(alloc, 8)?,
    })
}

/// A scan of two segments, before whose looks these updates are shown.
fn stage<'a>(
    rt: &impl Abort,
    alloc: Global,
    updates: &'a [Late],
) -> Result<Staged<'a>, AllocError> {
    let Parts {
        writers,
        mut scanners,
    } = open(alloc, 2, 1, 1000)?;
    staged(alloc, last_seat(rt, &mut scanners), writers, updates)
}

/// When updates of segment 0 to a, b and so on are shown, the numbers of the looks, and the number and value that the
/// scan answers of segment 0. Segment 1 stays empty.
const SCANS: [(&[usize], &[u64], u64, &[u8]); 2] = [
    // clean after a failed collect
    (&[2], &[0, 0, 1, 0, 1, 0], 1, b"a"),
    // a borrowed view
    (&[1, 3], &[0, 0, 1, 0, 2], 1, b"a"),
];

#[test]
fn clean_and_borrowed(rt: HostRuntime) -> Result<(), Fail> {
    for (looks, wanted, number, value) in &SCANS {
        let mut updates = Vec::new(rt.alloc());
        for (look, byte) in looks.iter().zip(b"ab".iter()) {
            let (look, byte) = (*look, *byte);
            updates.push(Late {
                look,
                segment: 0,
                byte,
            })?;
        }
        let mut out = SnapshotBuf::new(rt.alloc(), 2)?;
        let mut staged = stage(&rt, rt.alloc(), &updates)?;
        assert!(rt; tells(&mut staged, &mut out, *wanted), "{looks:?}");
        assert!(rt;
            has(&out, 0, *number, *value) && has(&out, 1, 0, &[]),
            "{looks:?}"
        );
    }
    Ok(())
}

/// Prepares an update, and shows it when its turn comes.
fn show_late(writer: &mut WriteSeat, turn: &AtomicU64) -> bool {
    let view = prepare(writer);
    turn.store(1, Ordering::SeqCst);
    let is_turn = wait_for(turn, 2);
    writer.begin_store();
    writer.end_store();
    show(writer, b"a", view);
    turn.store(3, Ordering::SeqCst);
    is_turn
}

#[test]
fn late_show_inside_a_scan(rt: HostRuntime) -> Result<(), Fail> {
    let turn = AtomicU64::new(0);
    let mut out = SnapshotBuf::new(rt.alloc(), 2)?;
    let mut staged = stage(&rt, rt.alloc(), &[])?;
    staged.turn = Some(&turn);
    let mut other = last_writer(&rt, &mut staged.writers);
    let mut late = last_writer(&rt, &mut staged.writers);
    let (shown, told) = join(
        &rt,
        || show_late(&mut late, &turn),
        || {
            wait_for(&turn, 1)
                && update(&mut other, b"b") == 1
                && tells(&mut staged, &mut out, &[0, 1, 1, 1, 1, 1])
        },
    );
    assert!(rt; shown && told);
    assert!(rt; has(&out, 0, 1, b"a") && has(&out, 1, 1, b"b"));
    Ok(())
}

/// Both scans read their values at the end: the first one after an update and the whole other scan, and the other one
/// after a hundred updates.
#[test]
fn two_pins_and_a_hundred_updates(rt: HostRuntime) -> Result<(), Fail> {
    let mut updates = Vec::new(rt.alloc());
    for byte in 1..102u8 {
        let look = if byte == 1 { 0 } else { 2 };
        updates.push(Late {
            look,
            segment: 0,
            byte,
        })?;
    }
    let Parts {
        writers,
        mut scanners,
    } = open(rt.alloc(), 1, 2, 1000)?;
    let seat = last_seat(&rt, &mut scanners);
    let other = last_seat(&rt, &mut scanners);
    let mut patient = Patient {
        seat,
        other: staged(rt.alloc(), other, writers, &updates)?,
        found: SnapshotBuf::new(rt.alloc(), 1)?,
        is_right: false,
    };
    let mut out = SnapshotBuf::new(rt.alloc(), 1)?;
    scan(&mut patient, &mut out);
    assert!(rt; patient.is_right && has(&patient.found, 0, 1, &[1]));
    assert!(rt; patient.other.writers[0].number() == 101);
    assert!(rt; has(&out, 0, 0, &[]));
    Ok(())
}
