//! How a run is stopped, and what a crash leaves.
use snap_devices::FaultPlan;
use snap_disk::Fill;
use std::alloc::{AllocError, Global};

/// The fill of the touched places: the bytes that were there, or the byte of a closed or an open gate.
#[derive(Clone, Copy)]
pub enum Garbage {
    Keep,
    Closed,
    Open,
}

pub(crate) const GARBAGE: [Garbage; 3] = [Garbage::Keep, Garbage::Closed, Garbage::Open];

impl Garbage {
    pub(crate) fn fill(self) -> Fill {
        match self {
            Garbage::Keep => Fill::Keep,
            Garbage::Closed => Fill::All(0x00),
            Garbage::Open => Fill::All(0xA5),
        }
    }

    pub(crate) fn name(self) -> &'static str {
        match self {
            Garbage::Keep => "keep",
            Garbage::Closed => "00",
            Garbage::Open => "a5",
        }
    }
}

/// Which device call of a run fails first: the one after `passes`.
#[derive(Clone, Copy)]
pub struct Stop {
    pub passes: u64,
    /// The fill that this call leaves, if it alone fails. `None` if every later call fails too: the power fails.
    pub fault: Option<Garbage>,
}

impl Stop {
    /// The plan of a device that has made `made` calls before the run.
    pub(crate) fn plan(self, alloc: Global, made: u64) -> Result<FaultPlan, AllocError> {
        let mut plan = FaultPlan::new(alloc);
        let passes = made + self.passes;
        match self.fault {
            Some(garbage) => plan.fail_call(passes + 1, garbage.fill())?,
            None => plan.fail_after(passes, Fill::Keep),
        }
        Ok(plan)
    }

    /// The plan of another device of the run, which is called after the first `calls` calls: none if the stop comes
    /// earlier.
    pub(crate) fn behind(self, calls: u64) -> Option<Stop> {
        if self.fault.is_some() && self.passes < calls {
            return None;
        }
        Some(Stop {
            passes: self.passes.saturating_sub(calls),
            fault: self.fault,
        })
    }
}
