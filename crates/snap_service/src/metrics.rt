//! Metrics of a running server: each worker counts for itself, each segment by who has its writer,
//! and any thread reads without a lock. Begin with [`Metrics`].
//!
//! A worker writes its [`WorkerMetrics`], by the [`CountingService`] around its desk. Who has a
//! segment's writer writes its [`SegmentMetrics`], by the [`TimedDisk`] of the segment's file.
//! Each number has one writer at a time, so no thread waits for another. [`Metrics::read`] takes a
//! [`MetricsSnapshot`]: each number as it was at some moment of the call.
ghost use Rattle.std.specs.Prelude.{◌≡◌, ◌<◌, IfOk, length};
ghost use Rattle.snap_service.specs.metrics.Places.{IsWithinAccepted};

mod counter;
mod counting_service;
mod histogram;
mod segment;
mod snapshot;
mod timed_disk;
mod worker;

pub use counter::Counter;
pub use counting_service::{CountingObserver, CountingService, FailureObserver, Looking};
pub use histogram::{Histogram, place_of};
pub use segment::{SegmentMetrics, milliseconds_of};
pub use snapshot::{
    BOUNDS, FIRST_BOUND, HistogramSnapshot, MetricsSnapshot, REFUSALS, SegmentSnapshot,
};
use std::alloc::{AllocError, Global};
use std::marker::Model;
use std::sync::atomic::{AtomicU64, Ordering};
pub use timed_disk::{TimedDisk, time_all};
pub use worker::{RequestCounts, WorkerMetrics};

/// The metrics of a server. Each worker writes its own part, who has a segment's writer that of the
/// segment, and any thread reads all of them at any time, without a lock.
///
/// Models the number of workers and the number of segments.
#[derive(Drop)]
pub struct Metrics {
    workers: Vec<WorkerMetrics>,
    segments: Vec<SegmentMetrics>,
    accepted: AtomicU64,
    ended: AtomicU64,
}

impl Model for Metrics {
    ghost use Rattle.std.specs.Prelude.{length};
    ghost use Rattle.snap_service.specs.metrics.Places.{Places};

    ghost Value = { Places };

    ghost view = { λ f. record { workers = length f.workers.items; segments = length f.segments.items } };
}

impl Metrics {
    /// Metrics for `workers` workers and `segments` segments, with nothing counted yet.
    pub fn new(alloc: Global, workers: usize, segments: usize) -> Result<Metrics, AllocError>
        ensures workers { IfOk result (λ f. f.workers ≡ workers) }
        ensures segments { IfOk result (λ f. f.segments ≡ segments) }
    {
        Ok(Metrics {
            workers: (0..workers)
                .map(|_| WorkerMetrics::default())
                .collect(alloc)?,
            segments: (0..segments)
                .map(|_| SegmentMetrics::default())
                .collect(alloc)?,
            accepted: AtomicU64::new(0),
            ended: AtomicU64::new(0),
        })
    }

    /// The number of workers.
    pub fn worker_count(&self) -> usize
        ensures { result ≡ self.now.workers }
    {
        self.workers.len()
    }

    /// The number of segments.
    pub fn segment_count(&self) -> usize
        ensures { result ≡ self.now.segments }
    {
        self.segments.len()
    }

    /// The metrics of one worker.
    pub fn worker(&self, worker: usize) -> &WorkerMetrics
        requires { worker < self.now.workers }
    {
        &self.workers[worker]
    }

    /// The metrics of one segment.
    pub fn segment(&self, segment: usize) -> &SegmentMetrics
        requires { segment < self.now.segments }
    {
        &self.segments[segment]
    }

    /// Counts an accepted connection. Any thread may call this.
    pub fn accept(&self) {
        self.accepted.fetch_add(1, Ordering::SeqCst);
    }

    /// Counts a close of an accepted connection. Any thread may call this.
    pub fn end(&self) {
        self.ended.fetch_add(1, Ordering::SeqCst);
    }

    /// Reads all metrics, each number as it was at some moment of this call. Neither the reader nor a writer waits.
    pub fn read(&self, alloc: Global) -> Result<MetricsSnapshot, AllocError>
        ensures segments { IfOk result (λ r. length r.segments.items ≡ self.now.segments) }
        ensures connections { IfOk result IsWithinAccepted }
    {
        let mut requests = RequestCounts::new();
        for worker in &self.workers {
            requests.merge(&worker.read());
        }
        let segments = self
            .segments
            .iter()
            .map(|segment| segment.read())
            .collect(alloc)?;
        // Read first, so that it is at most `accepted`.
        let ended = self.ended.load(Ordering::SeqCst);
        let accepted = self.accepted.load(Ordering::SeqCst);
        Ok(MetricsSnapshot {
            requests,
            segments,
            accepted,
            open: accepted.saturating_sub(ended),
        })
    }
}
