//! The metrics of one segment.
ghost use Rattle.std.specs.Prelude.{◌≡◌, ◌/◌, ◌-◌, ◌^◌, min};
ghost use Rattle.std.specs.Duration.{as_nanos};

use crate::metrics::counter::Counter;
use crate::metrics::histogram::Histogram;
use crate::metrics::snapshot::SegmentSnapshot;
use snap_disk::Refusal;
use std::time::Duration;

/// Converts a duration to milliseconds, at most 2^64 - 1.
pub fn milliseconds_of(time: Duration) -> u64
    ensures { result ≡ min (as_nanos time / 1_000_000) (2 ^ 64 - 1) }
{
    u64::try_from(time.as_millis()).unwrap_or(u64::MAX)
}

/// The metrics of one segment, with any number of lock-free readers. They begin without a store.
///
/// Only the thread that has the segment's writer writes them: by the
/// [`TimedDisk`](crate::TimedDisk) of its file, and by [`settle`](SegmentMetrics::settle).
#[derive(Default, Drop)]
pub struct SegmentMetrics {
    pub(crate) stores: Histogram,
    pub(crate) first_waits: Histogram,
    pub(crate) second_waits: Histogram,
    /// The number of stores that were made.
    pub(crate) stored: Counter,
    /// The number of stores that had been made at the last call of `settle`.
    settled: Counter,
    repeats: Counter,
    /// The end of the last store, in milliseconds since 1970; 0 if there is none.
    pub(crate) updated: Counter,
}

impl SegmentMetrics {
    /// Counts the result of an update. To be called once per update, after its store.
    ///
    /// The update was a repeat if it was acknowledged and the [`TimedDisk`](crate::TimedDisk) made
    /// no store since the call before.
    pub fn settle(&self, told: Result<u64, Refusal>) {
        let stored = self.stored.get();
        if told.is_ok() && self.settled.get() == stored {
            self.repeats.add(1);
        }
        self.settled.set(stored);
    }

    /// Reads all numbers, each as it was at some moment of this call.
    pub fn read(&self) -> SegmentSnapshot {
        SegmentSnapshot {
            stores: self.stores.read(),
            first_waits: self.first_waits.read(),
            second_waits: self.second_waits.read(),
            repeats: self.repeats.get(),
            updated: Some(self.updated.get()).filter(|milliseconds| *milliseconds != 0),
        }
    }
}
