//! Polling before sleeping: one thread's decision, wait by wait.
ghost use Rattle.std.specs.Prelude.{◌≡◌, ◌+◌, ◌<◌, true, false};
ghost use Rattle.snap_session.specs.declared.spin.TheConstants.{WAITS_IN_A_REST};

use std::marker::Model;

/// The number of waits without polling after one that polled in vain.
pub const WAITS_IN_A_REST: u32 = 15;

/// Decides whether a thread polls before it sleeps, once per wait. Models how many of the next waits don't poll.
#[derive(Drop)]
pub struct Spin {
    resting: u32,
}

impl Model for Spin {
    ghost use Rattle.std.specs.Prelude.{ℕ};

    ghost Value = { ℕ };

    ghost view = { λ s. s.resting };
}

impl Spin {
    /// A `Spin` whose first [`WAITS_IN_A_REST`] waits don't poll, since a server without clients
    /// has nothing to poll for.
    pub fn new() -> Spin
        ensures { result ≡ WAITS_IN_A_REST }
    {
        Spin {
            resting: WAITS_IN_A_REST,
        }
    }

    /// Whether this wait polls before it sleeps.
    pub fn is_due(&mut self) -> bool
        ensures ready { self.old ≡ 0 → (result ≡ true) × (self.new ≡ 0) }
        ensures resting { 0 < self.old → (result ≡ false) × (self.new + 1 ≡ self.old) }
    {
        if self.resting == 0 {
            return true;
        }
        self.resting -= 1;
        false
    }

    /// Records that this wait polled in vain: the next ones don't poll.
    pub fn rest(&mut self)
        ensures { self.new ≡ WAITS_IN_A_REST }
    {
        self.resting = WAITS_IN_A_REST;
    }
}
