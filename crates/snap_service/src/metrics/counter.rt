//! Counters with one writer.
use std::sync::atomic::{AtomicU64, Ordering};

/// A saturating 64-bit counter with one writer and any number of lock-free readers. It begins at 0.
///
/// Only one thread may write it: of two concurrent writes one can be lost. No contract says which number it holds.
#[derive(Default, Drop)]
pub struct Counter {
    number: AtomicU64,
}

impl Counter {
    /// Adds `more`, up to 2^64 - 1. Writes nothing if that is 0.
    pub fn add(&self, more: u64) {
        if more > 0 {
            let number = self.get().saturating_add(more);
            self.number.store(number, Ordering::SeqCst);
        }
    }

    /// Sets the counter to `number`.
    pub fn set(&self, number: u64) {
        self.number.store(number, Ordering::SeqCst);
    }

    /// Reads the counter, as it was at some moment of this call.
    pub fn get(&self) -> u64 {
        self.number.load(Ordering::SeqCst)
    }
}

/// Reads each counter, as it was at some moment of this call.
pub(crate) fn read_each<const N: usize>(counters: &[Counter; N]) -> [u64; N] {
    let mut numbers = [0; N];
    for (number, counter) in numbers.iter_mut().zip(counters) {
        *number = counter.get();
    }
    numbers
}
