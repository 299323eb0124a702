//! Devices whose stores are timed, by a clock that advances by 20 microseconds with each reading.
use snap_devices::{FaultPlan, MemDisk};
use snap_disk::{Disk, Fill, Refusal};
use snap_service::{BOUNDS, HistogramSnapshot, SegmentMetrics, TimedDisk};
use std::alloc::{AllocError, Global};
use std::io;
use std::process::Abort;
use std::rt::Clock;
use std::sync::atomic::{AtomicU64, Ordering};
use std::test::Fail;
use std::time::Duration;

/// It advances by 20 microseconds with each reading, from 20 on. Readings after `passes` fail.
#[derive(Drop)]
struct Ticking {
    readings: AtomicU64,
    passes: u64,
}

impl Ticking {
    fn new(passes: u64) -> Ticking {
        Ticking {
            readings: AtomicU64::new(0),
            passes,
        }
    }
}

impl Clock for Ticking {
    fn monotonic(&self) -> io::Result<Duration> {
        let before = self.readings.fetch_add(1, Ordering::SeqCst);
        if before >= self.passes {
            return Err(io::ErrorKind::Other.into());
        }
        Ok(Duration::from_micros(before.saturating_add(1)).saturating_mul(20))
    }

    fn since_1970(&self) -> io::Result<Duration> {
        if self.passes == 0 {
            return Err(io::ErrorKind::Other.into());
        }
        Ok(Duration::from_millis(1_764_089_248_123))
    }
}

/// The calls of a store, in order.
#[derive(Clone, Copy)]
enum Call {
    Write,
    Sync,
    Read,
}

/// A store with the closing of a gate, and a read within.
const STORE: [Call; 6] = [
    Call::Write,
    Call::Write,
    Call::Sync,
    Call::Read,
    Call::Write,
    Call::Sync,
];

/// Makes one call of the device. Whether it succeeded.
fn succeeds(disk: &mut impl Disk, call: Call) -> bool {
    match call {
        Call::Write => disk.write_at(0, &[7]).is_ok(),
        Call::Sync => disk.sync().is_ok(),
        Call::Read => disk.read_at(0, &mut [0]).is_ok(),
    }
}

/// Makes these calls. How many of them failed.
fn count_failures(disk: &mut impl Disk, calls: &[Call]) -> usize {
    calls.iter().filter(|one| !succeeds(disk, **one)).count()
}

/// A device whose call of this number fails.
fn failing(alloc: Global, number: u64) -> Result<MemDisk, AllocError> {
    let mut disk = MemDisk::zeroed(alloc, 8)?;
    let mut plan = FaultPlan::new(alloc);
    plan.fail_call(number, Fill::Keep)?;
    disk.set_plan(plan);
    Ok(disk)
}

/// `count` times at this place, of `micros` microseconds in all.
fn times(place: usize, count: u64, micros: u64) -> HistogramSnapshot {
    let mut counts = [0; BOUNDS + 1];
    counts[place] = count;
    HistogramSnapshot {
        counts,
        total: micros * 1_000,
    }
}

#[test]
fn times_two_stores(rt: HostRuntime) -> Result<(), Fail> {
    let metrics = SegmentMetrics::default();
    let clock = Ticking::new(u64::MAX);
    let mut disk = TimedDisk::new(MemDisk::zeroed(rt.alloc(), 8)?, &clock, &metrics);
    assert!(rt; metrics.read().updated.is_none());
    assert!(rt; count_failures(&mut disk, &STORE) == 0 && count_failures(&mut disk, &STORE) == 0);
    let read = metrics.read();
    assert!(rt; read.first_waits == times(1, 2, 40));
    assert!(rt; read.second_waits == times(1, 2, 40));
    assert!(rt; read.stores == times(2, 2, 120));
    assert!(rt; read.updated == Some(1_764_089_248_123));
    assert!(rt; clock.readings.load(Ordering::SeqCst) == 8);
    assert!(rt; disk.into_disk().calls() == 12);
    Ok(())
}

/// The counts if the call of this number fails, and a whole store is made after it.
fn with_fault(alloc: Global, number: u64) -> Result<(u64, u64, u64), AllocError> {
    let metrics = SegmentMetrics::default();
    let clock = Ticking::new(u64::MAX);
    let mut disk = TimedDisk::new(failing(alloc, number)?, &clock, &metrics);
    for one in STORE {
        if !succeeds(&mut disk, one) {
            break;
        }
    }
    count_failures(&mut disk, &STORE);
    let read = metrics.read();
    Ok((
        read.first_waits.total / 20_000,
        read.second_waits.total / 20_000,
        read.stores.total / 60_000,
    ))
}

#[test]
fn broken_store_is_not_counted(rt: HostRuntime) -> Result<(), Fail> {
    for (number, first_waits) in [(1, 1), (3, 1), (5, 2), (6, 2)] {
        assert!(rt;
            with_fault(rt.alloc(), number)? == (first_waits, 1, 1),
            "call {number}"
        );
    }
    Ok(())
}

#[test]
fn failing_clock_counts_no_times(rt: HostRuntime) -> Result<(), Fail> {
    let metrics = SegmentMetrics::default();
    let clock = Ticking::new(0);
    let mut disk = TimedDisk::new(MemDisk::zeroed(rt.alloc(), 8)?, &clock, &metrics);
    assert!(rt; count_failures(&mut disk, &STORE) == 0);
    metrics.settle(Ok(1));
    let read = metrics.read();
    assert!(rt; read.stores == times(0, 0, 0) && read.updated.is_none() && read.repeats == 0);
    Ok(())
}

#[test]
fn clock_that_fails_within_a_store(rt: HostRuntime) -> Result<(), Fail> {
    let metrics = SegmentMetrics::default();
    let clock = Ticking::new(3);
    let mut disk = TimedDisk::new(MemDisk::zeroed(rt.alloc(), 8)?, &clock, &metrics);
    assert!(rt; count_failures(&mut disk, &STORE) == 0);
    let read = metrics.read();
    assert!(rt; read.first_waits == times(1, 1, 20));
    assert!(rt; read.second_waits == times(0, 0, 0) && read.stores == times(0, 0, 0));
    Ok(())
}

#[test]
fn update_without_a_store_is_a_repeat(rt: HostRuntime) -> Result<(), Fail> {
    let metrics = SegmentMetrics::default();
    let clock = Ticking::new(u64::MAX);
    let mut disk = TimedDisk::new(MemDisk::zeroed(rt.alloc(), 8)?, &clock, &metrics);
    assert!(rt; count_failures(&mut disk, &STORE) == 0);
    metrics.settle(Ok(1));
    assert!(rt; metrics.read().repeats == 0);
    metrics.settle(Ok(1));
    metrics.settle(Err(Refusal::Conflict));
    assert!(rt; metrics.read().repeats == 1);
    assert!(rt; count_failures(&mut disk, &STORE) == 0);
    metrics.settle(Ok(2));
    metrics.settle(Ok(2));
    assert!(rt; metrics.read().repeats == 2);
    Ok(())
}
