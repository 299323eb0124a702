//! Devices whose stores are timed.
ghost use Rattle.std.specs.Prelude.{◌≡◌, ◌≤◌, IfOk, length};

use crate::metrics::Metrics;
use crate::metrics::segment::{SegmentMetrics, milliseconds_of};
use snap_disk::{DeviceFault, Disk};
use std::alloc::{AllocError, Global};
use std::marker::Model;
use std::rt::Clock;
use std::time::Instant;

/// The progress of a store: it writes its value and syncs, then writes its gate and syncs. A time
/// is `None` if the clock couldn't be read.
#[derive(Clone, Copy)]
pub(crate) enum TimedStore {
    /// No store is in progress.
    Resting,
    /// The value is being written.
    Value {
        began: Option<Instant>,
    },
    /// The value was synced, and the gate is being written.
    Gate {
        began: Option<Instant>,
        synced: Option<Instant>,
    },
}

/// A device that times its stores, and otherwise behaves as the inner device.
///
/// A store writes and syncs twice. It begins with its first write and ends when its second sync succeeds: then it is
/// counted with its times, and the time of the segment's last update is set. Its first wait is the first sync; its
/// second wait is the write of one byte after it and the second sync. If a call fails the store is over and isn't
/// counted, and the next write begins a new one. Reads aren't counted. The clock is read four times per store; a span
/// isn't counted if its begin or its end couldn't be read.
#[derive(Drop)]
pub struct TimedDisk<'a, D: Disk + Drop, R: Clock + Copy> {
    disk: D,
    clock: R,
    metrics: &'a SegmentMetrics,
    stage: TimedStore,
}

impl<'a, D: Disk + Drop, R: Clock + Copy> Model for TimedDisk<'a, D, R> {
    ghost Value = { D };

    ghost view = { λ t. t.disk };
}

impl<'a, D: Disk + Drop, R: Clock + Copy> TimedDisk<'a, D, R> {
    /// Wraps `disk`, between two stores, and counts in `metrics`.
    pub fn new(disk: D, clock: R, metrics: &'a SegmentMetrics) -> TimedDisk<'a, D, R>
        ensures { result ≡ disk }
    {
        TimedDisk {
            disk,
            clock,
            metrics,
            stage: TimedStore::Resting,
        }
    }

    /// Returns the inner device, unchanged.
    pub fn into_disk(self) -> D
        ensures { result ≡ self.entry }
    {
        self.disk
    }
}

impl<D: Disk + Drop, R: Clock + Copy> Disk for TimedDisk<'_, D, R> {
    ghost device = { D.device };

    ghost failure_count = { D.failure_count };

    ghost is_honest = { D.is_honest };

    ghost clock = { D.clock };

    ghost might_have_left = { D.might_have_left };

    ghost counts_now = { D.counts_now };

    ghost only_now = { D.only_now };

    fn len(&self) -> u64 {
        self.disk.len()
    }

    fn failures(&self) -> u64 {
        self.disk.failures()
    }

    fn read_at(&mut self, at: u64, buf: &mut [u8]) -> Result<(), DeviceFault> {
        self.disk.read_at(at, buf)
    }

    fn write_at(&mut self, at: u64, bytes: &[u8]) -> Result<(), DeviceFault> {
        if let TimedStore::Resting = self.stage {
            let began = Instant::now(&self.clock).ok();
            self.stage = TimedStore::Value { began };
        }
        let written = self.disk.write_at(at, bytes);
        if written.is_err() {
            self.stage = TimedStore::Resting;
        }
        written
    }

    fn sync(&mut self) -> Result<(), DeviceFault> {
        let metrics = self.metrics;
        let from = match self.stage {
            TimedStore::Value { .. } => Instant::now(&self.clock).ok(),
            _ => None,
        };
        let synced = self.disk.sync();
        self.stage = match self.stage {
            // The first sync of a store makes its value durable, and the second one ends it.
            TimedStore::Value { began } if synced.is_ok() => {
                let synced = Instant::now(&self.clock).ok();
                metrics.first_waits.observe(from, synced);
                TimedStore::Gate { began, synced }
            }
            TimedStore::Gate {
                began,
                synced: first,
            } if synced.is_ok() => {
                let ended = Instant::now(&self.clock).ok();
                metrics.second_waits.observe(first, ended);
                metrics.stores.observe(began, ended);
                metrics.stored.add(1);
                if let Ok(since_1970) = self.clock.since_1970() {
                    metrics.updated.set(milliseconds_of(since_1970));
                }
                TimedStore::Resting
            }
            _ => TimedStore::Resting,
        };
        synced
    }
}

/// Wraps each device, in order of segment, so that the times of its stores are counted in its segment's metrics.
pub fn time_all<'f, D: Disk + Drop, R: Clock + Copy>(
    alloc: Global,
    devices: Vec<D>,
    clock: R,
    metrics: &'f Metrics,
) -> Result<Vec<TimedDisk<'f, D, R>>, AllocError>
    requires { length devices.items ≤ metrics.now.segments }
    ensures { IfOk result (λ timed. timed.items ≡ devices.items) }
{
    let mut timed = Vec::with_capacity(alloc, devices.len())?;
    'devices: for device in devices {
        let segment = metrics.segment(timed.len());
        timed.push_reserved(TimedDisk::new(device, clock, segment));
    }
    Ok(timed)
}
