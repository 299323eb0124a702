//! Which calls of a device in memory are to fail.
ghost use Rattle.std.specs.Prelude.{◌≡◌, ◌==◌, find, ◌++◌, ◌∷◌, [], None, Some, OnOk, OnErr};
ghost use Rattle.std.specs.Option.{option_copied};

use snap_disk::Fill;
use std::alloc::{AllocError, Global};

/// A call that is to fail: its number, counted from 1, and the fill that the fault leaves. For a fuse it is the last
/// call that may pass.
#[derive(Drop)]
pub struct Fault {
    pub call: u64,
    pub fill: Fill,
}

/// Which calls of a [`crate::MemDisk`] fail, by their number from 1, and what each fault leaves.
#[derive(Drop)]
pub struct FaultPlan {
    faults: Vec<Fault>,
    fuse: Option<Fault>,
}

impl FaultPlan {
    ghost use Rattle.snap_devices.specs.FaultPlan.{planned_faults, planned_fuse, planned_fill};

    /// A plan by which no call fails.
    pub fn new(alloc: Global) -> FaultPlan
        ensures { (call : _) → planned_fill result call ≡ None }
    {
        FaultPlan {
            faults: Vec::new(alloc),
            fuse: None,
        }
    }

    /// Adds that the call of this number fails, unless an earlier entry or the fuse has it. Fails if memory runs out,
    /// and then the plan is unchanged.
    pub fn fail_call(&mut self, call: u64, fill: Fill) -> Result<(), AllocError>
        ensures ok { OnOk result (planned_faults self.new
            ≡ planned_faults self.old ++ record { call = call; fill = fill } ∷ []) }
        ensures err { OnErr result (planned_faults self.new ≡ planned_faults self.old) }
        ensures fuse { planned_fuse self.new ≡ planned_fuse self.old }
    {
        self.faults.push(Fault { call, fill })?;
        Ok(())
    }

    /// A plan by which the first `passes` calls may pass, and every later one fails.
    pub fn fail_after(&mut self, passes: u64, fill: Fill)
        ensures faults { planned_faults self.new ≡ planned_faults self.old }
        ensures fuse { planned_fuse self.new ≡ Some (record { call = passes; fill = fill }) }
    {
        self.fuse = Some(Fault { call: passes, fill });
    }

    /// The fill that the call of this number leaves, if it is planned to fail.
    pub fn fill_at(&self, call: u64) -> Option<&Fill>
        ensures { option_copied result ≡ planned_fill self.now call }
    {
        if let Some(fuse) = &self.fuse {
            if call > fuse.call {
                return Some(&fuse.fill);
            }
        }
        match fault_of(&self.faults, call) {
            Some(fault) => Some(&fault.fill),
            None => None,
        }
    }
}

/// The first fault of this call.
fn fault_of(faults: &[Fault], call: u64) -> Option<&Fault>
    ensures { option_copied result ≡ find (λ fault. fault.call == call) faults.now }
{
    faults.iter().find(|fault| fault.call == call)
}
