//! Scans and other updates pass an update whose store is held at its first write.
use crate::checks::Host;
use crate::restart::fresh;
use snap_devices::Held;
use snap_memory::{Scanner, Snapshot};
use snap_restart::open_all;
use snap_writer::Writer;
use std::alloc::Global;
use std::sync::Arc;
use std::sync::atomic::{AtomicU64, Ordering};
use std::test::Fail;
use std::thread::{join, yield_now};

/// For how many turns of yielding a held write and its test wait at most.
const TURNS: u64 = 1_000_000;

/// Flags of a run, not 0 once it happened.
#[derive(Drop)]
struct Course {
    begun: AtomicU64,
    ended: AtomicU64,
    /// Releases the held write.
    released: Arc<AtomicU64, Global>,
}

/// Two new files. The first write of the first one is held until this flag is set.
fn held_files(rt: &impl Host, first: &Arc<AtomicU64, Global>) -> Result<Vec<Held>, Fail> {
    let set = Arc::new(rt.alloc(), AtomicU64::new(1))?;
    let mut devices = Vec::new(rt.alloc());
    for disk in fresh(rt, 2)? {
        let flag = Arc::try_clone(if devices.is_empty() { first } else { &set })?;
        devices.push(Held::new(disk, flag, TURNS))?;
    }
    Ok(devices)
}

/// The update that is held. Whether it was stored as number 1.
fn update_first(writer: &mut Writer<Held>, course: &Course) -> bool {
    course.begun.store(1, Ordering::SeqCst);
    let stored = writer.update(1, b"hi") == Ok(1);
    course.ended.store(1, Ordering::SeqCst);
    stored
}

/// Waits until the update has begun, and then for a while, so that it is held.
fn wait_for_it(course: &Course) {
    for _ in 0..TURNS {
        if course.begun.load(Ordering::SeqCst) != 0 {
            break;
        }
        yield_now();
    }
    for _ in 0..100u64 {
        yield_now();
    }
}

/// The numbers that a scan answers.
fn numbers(scanner: &mut Scanner, out: &mut Snapshot) -> Option<(u64, u64)> {
    scanner.scan_into(out).ok()?;
    Some((out.number(0), out.number(1)))
}

/// While the first update is held another one is stored, and a scan is answered. Whether both ended before the first
/// one.
fn pass(
    writer: &mut Writer<Held>,
    scanner: &mut Scanner,
    out: &mut Snapshot,
    course: &Course,
) -> bool {
    wait_for_it(course);
    let stored = writer.update(1, b"yo") == Ok(1);
    let shown = numbers(scanner, out);
    let held = course.begun.load(Ordering::SeqCst) == 1 && course.ended.load(Ordering::SeqCst) == 0;
    course.released.store(1, Ordering::SeqCst);
    stored && held && shown == Some((0, 1))
}

#[test]
fn scan_passes_a_held_update(rt: HostRuntime) -> Result<(), Fail> {
    let released = Arc::new(rt.alloc(), AtomicU64::new(0))?;
    let devices = held_files(&rt, &released)?;
    let (mut store, _) = open_all(rt.alloc(), devices, 1).map_err(|stopped| stopped.refusal)?;
    let [first, second] = store.writers.as_mut_slice() else {
        panic!(rt; "a writer is missing")
    };
    let scanner = &mut store.scanners[0];
    let mut out = Snapshot::new(rt.alloc(), 2)?;
    let course = Course {
        begun: AtomicU64::new(0),
        ended: AtomicU64::new(0),
        released,
    };
    let done = join(
        &rt,
        || update_first(first, &course),
        || pass(second, scanner, &mut out, &course),
    );
    assert!(rt; done == (true, true));
    assert!(rt; numbers(scanner, &mut out) == Some((1, 1)));
    Ok(())
}
