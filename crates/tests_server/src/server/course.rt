//! The steps of a request through the gate and the service.

use snap_server::Gate;
use std::sync::atomic::{AtomicU64, Ordering};

/// The last step of the only request under way.
#[derive(Clone, Copy)]
pub(crate) enum Stand {
    Outside,
    Entered,
    HandedOver,
    Answered,
}

impl Stand {
    fn number(self) -> u64 {
        match self {
            Stand::Outside => 0,
            Stand::Entered => 1,
            Stand::HandedOver => 2,
            Stand::Answered => 3,
        }
    }
}

/// The steps of all requests.
#[derive(Drop)]
pub(crate) struct Course {
    stand: AtomicU64,
    /// Steps that didn't begin where they had to.
    wrong: AtomicU64,
    left: AtomicU64,
}

impl Course {
    pub(crate) fn new() -> Course {
        Course {
            stand: AtomicU64::new(0),
            wrong: AtomicU64::new(0),
            left: AtomicU64::new(0),
        }
    }

    /// A request makes one step.
    pub(crate) fn step(&self, from: Stand, to: Stand) {
        if self.stand.swap(to.number(), Ordering::SeqCst) != from.number() {
            self.wrong.fetch_add(1, Ordering::SeqCst);
        }
    }

    /// How many requests have left the gate, and how many steps were wrong.
    pub(crate) fn passed(&self) -> (u64, u64) {
        let left = self.left.load(Ordering::SeqCst);
        (left, self.wrong.load(Ordering::SeqCst))
    }
}

impl Gate for Course {
    fn enter(&self) {
        self.step(Stand::Outside, Stand::Entered);
    }

    fn leave(&self) {
        self.step(Stand::Answered, Stand::Outside);
        self.left.fetch_add(1, Ordering::SeqCst);
    }
}
