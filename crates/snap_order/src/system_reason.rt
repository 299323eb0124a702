//! The system's reason for a fault of a device.
ghost use Rattle.std.specs.Prelude.{◌≡◌, ℕ, List, Option, None};
ghost use Rattle.snap_order.specs.Streams.{text_of};

use std::alloc::Global;

/// Knows the system's reason for the first call of a file's device that failed.
pub trait SystemReason {
    /// The texts that `text` may return.
    ghost may_give: { Self → Option (List ℕ) → Type 0 };

    /// The reason, as text of one line. `None` if none is known, or if memory runs out.
    fn text(&self, alloc: Global) -> Option<String>
        ensures { may_give self.now (text_of result) };
}

/// Knows no reason: for a device in memory, or one that made no call.
#[derive(Clone, Copy, PartialEq, Eq)]
pub struct NoReason;

impl SystemReason for NoReason {
    ghost may_give = { λ _ said. said ≡ None };

    fn text(&self, _alloc: Global) -> Option<String> {
        None
    }
}
