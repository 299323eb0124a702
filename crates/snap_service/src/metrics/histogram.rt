//! Histograms of times.
ghost use Rattle.snap_service.specs.metrics.Bounds.{IsPlaceOf, bound_at};

use crate::metrics::counter::{Counter, read_each};
use crate::metrics::snapshot::{BOUNDS, FIRST_BOUND, HistogramSnapshot};
use std::time::Instant;

/// The bucket of a [`HistogramSnapshot`] that counts a time in nanoseconds: the first whose bound
/// isn't smaller than the time, or [`BOUNDS`] if each bound is.
pub fn place_of(nanoseconds: u64) -> usize
    ensures { IsPlaceOf nanoseconds result }
{
    let mut bound = FIRST_BOUND * 1_000;
    for place in 0..BOUNDS {
        if nanoseconds <= bound {
            return place;
        }
        bound *= 2;
    }
    BOUNDS
}

/// A histogram of times with one writer, as in [`Counter`], and any number of lock-free readers. It begins empty.
#[derive(Default, Drop)]
pub struct Histogram {
    counts: [Counter; BOUNDS + 1],
    total: Counter,
}

impl Histogram {
    /// Counts the time between two moments, if both could be read: 0 if the second is before the first.
    pub fn observe(&self, from: Option<Instant>, until: Option<Instant>) {
        if let (Some(from), Some(until)) = (from, until) {
            let took = until.duration_since(from);
            let nanoseconds = u64::try_from(took.as_nanos()).unwrap_or(u64::MAX);
            self.counts[place_of(nanoseconds)].add(1);
            self.total.add(nanoseconds);
        }
    }

    /// Reads all counts, each as it was at some moment of this call.
    pub fn read(&self) -> HistogramSnapshot {
        HistogramSnapshot {
            counts: read_each(&self.counts),
            total: self.total.get(),
        }
    }
}
