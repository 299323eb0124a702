//! Which call of each device fails, drawn from a seed.
use crate::draw::Draw;
use snap_devices::{FaultPlan, MemDisk};
use std::alloc::{AllocError, Global};

/// From the opening that comes next on, at most one call of the device fails: one of the 60 after
/// the two calls of the opening.
fn plan(alloc: Global, disk: &mut MemDisk, draw: &mut Draw) -> Result<(), AllocError> {
    let call = draw.below(60);
    let fill = draw.fill();
    let mut plan = FaultPlan::new(alloc);
    plan.fail_call(disk.calls() + 3 + call, fill)?;
    disk.set_plan(plan);
    Ok(())
}

/// From the next opening on, at most one call of each device fails.
pub(crate) fn plan_all(
    alloc: Global,
    devices: &mut Vec<MemDisk>,
    draw: &mut Draw,
) -> Result<(), AllocError> {
    for disk in devices.iter_mut() {
        plan(alloc, disk, draw)?;
    }
    Ok(())
}
