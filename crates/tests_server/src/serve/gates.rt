//! A gate that holds a request until another one has been answered.

use snap_server::Gate;
use std::sync::atomic::{AtomicU64, Ordering};
use std::thread::yield_now;

/// How many turns of yielding a request is held at most: beside other work the second may be seconds late.
const TURNS: u64 = 50_000_000;

/// Holds the first request until the second one has been answered, or for all its turns.
#[derive(Drop)]
pub(crate) struct Holding {
    pub entered: AtomicU64,
    pub left: AtomicU64,
    /// How many requests were held for all turns.
    pub gave_up: AtomicU64,
}

impl Holding {
    pub(crate) fn new() -> Holding {
        Holding {
            entered: AtomicU64::new(0),
            left: AtomicU64::new(0),
            gave_up: AtomicU64::new(0),
        }
    }
}

impl Gate for Holding {
    fn enter(&self) {
        if self.entered.fetch_add(1, Ordering::SeqCst) > 0 {
            return;
        }
        for _ in 0..TURNS {
            if self.left.load(Ordering::SeqCst) > 0 {
                return;
            }
            yield_now();
        }
        self.gave_up.fetch_add(1, Ordering::SeqCst);
    }

    fn leave(&self) {
        self.left.fetch_add(1, Ordering::SeqCst);
    }
}
