//! Snapshots: metrics that were read, as plain numbers.

use crate::metrics::worker::RequestCounts;

/// The number of a histogram's bounds. The first is [`FIRST_BOUND`], and each further one is twice the one before.
pub const BOUNDS: usize = 21;

/// The first bound, in microseconds.
pub const FIRST_BOUND: u64 = 16;

/// The largest number of a refusal. The numbers begin at 1.
pub const REFUSALS: usize = 17;

/// A histogram that was read.
#[derive(Clone, Copy, PartialEq, Eq)]
pub struct HistogramSnapshot {
    /// For each bound, the number of times up to it and above the bound before; last, the number of
    /// times above all bounds.
    pub counts: [u64; BOUNDS + 1],
    /// The sum of all times, in nanoseconds.
    pub total: u64,
}

/// The metrics of one segment, as they were read.
#[derive(Clone, Copy)]
pub struct SegmentSnapshot {
    /// Times of whole stores, from the first call of the device to the end of the last.
    pub stores: HistogramSnapshot,
    /// Times of the first sync of each store, which makes the value durable.
    pub first_waits: HistogramSnapshot,
    /// Times from the end of the first sync to the end of the second: the write of the gate's byte,
    /// and the second sync.
    pub second_waits: HistogramSnapshot,
    /// Updates that were acknowledged without a store, since the segment had the value already.
    pub repeats: u64,
    /// The time of the last store, in milliseconds since 1970; `None` if there was none since the start.
    pub updated: Option<u64>,
}

/// The metrics of a server since its start, as they were read.
#[derive(Drop)]
pub struct MetricsSnapshot {
    /// The sum of all workers' counts.
    pub requests: RequestCounts,
    /// The metrics of each segment, in order.
    pub segments: Vec<SegmentSnapshot>,
    /// Connections that were accepted.
    pub accepted: u64,
    /// Connections that are open.
    pub open: u64,
}
