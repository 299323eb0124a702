//! A reader of scans, in a thread of its own.
use crate::values::{Numbers, SEGMENTS, is_value_of};
use snap_memory::{Scanner, Snapshot};
use std::alloc::{AllocError, Global};
use std::sync::atomic::{AtomicU64, Ordering};
use std::thread::yield_now;

/// A scanner, and what it has shown.
#[derive(Drop)]
pub struct Watcher {
    pub scanner: Scanner,
    snapshot: Snapshot,
    /// The numbers of its last scan.
    pub shown: Numbers,
    /// Whether each scan was answered, no number fell, and each value was the one of its number.
    pub is_right: bool,
}

impl Watcher {
    /// A reader of this scanner's scans, after one that showed these numbers.
    pub fn new(alloc: Global, scanner: Scanner, shown: Numbers) -> Result<Watcher, AllocError> {
        Ok(Watcher {
            scanner,
            snapshot: Snapshot::new(alloc, SEGMENTS)?,
            shown,
            is_right: true,
        })
    }

    /// One scan.
    pub fn scan(&mut self) {
        self.is_right &= self.scanner.scan_into(&mut self.snapshot) == Ok(());
        for segment in 0..SEGMENTS {
            let number = self.snapshot.number(segment);
            let value = self.snapshot.value(segment);
            self.is_right &= self.shown[segment] <= number && is_value_of(segment, number, value);
            self.shown[segment] = number;
        }
    }
}

/// Waits for the others, but for no more than `turns` of yielding: if no thread can be made they come after this one.
pub fn wait_for_all(arrived: &AtomicU64, workers: u64, turns: u64) {
    arrived.fetch_add(1, Ordering::SeqCst);
    for _ in 0..turns {
        if arrived.load(Ordering::SeqCst) == workers {
            return;
        }
        yield_now();
    }
}
