//! A gate that counts.

use snap_server::Gate;
use std::sync::atomic::{AtomicU64, Ordering};

/// How many requests entered and left.
#[derive(Drop)]
pub(crate) struct Tally {
    entered: AtomicU64,
    left: AtomicU64,
}

impl Tally {
    pub(crate) fn new() -> Tally {
        Tally {
            entered: AtomicU64::new(0),
            left: AtomicU64::new(0),
        }
    }

    /// Both counts.
    pub(crate) fn counts(&self) -> (u64, u64) {
        let entered = self.entered.load(Ordering::SeqCst);
        let left = self.left.load(Ordering::SeqCst);
        (entered, left)
    }
}

impl Gate for Tally {
    fn enter(&self) {
        self.entered.fetch_add(1, Ordering::SeqCst);
    }

    fn leave(&self) {
        self.left.fetch_add(1, Ordering::SeqCst);
    }
}
