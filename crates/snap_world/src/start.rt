//! The actors of a new world, with their registers: nothing was shown, and all are idle.
ghost use Rattle.std.specs.Prelude.{◌≡◌, ℕ, ◌<◌, ◌≤◌, length, IfOk};
ghost use Rattle.snap_history.specs.declared.limits.TheConstants.{MAX_COUNT};
ghost use Rattle.snap_world.specs.inside.Fresh.{IsFreshRegister, IsFreshWriter, IsFreshScanner, Each};

use crate::collector::Collector;
use crate::register::Register;
use crate::scanner::{Asked, ScannerActor, ScannerPhase};
use crate::value::Value;
use crate::writer::{WriterActor, WriterPhase};
use snap_scan::Scan;
use std::alloc::{AllocError, Global};

/// A memory of empty values.
fn blank(alloc: Global, segments: usize) -> Result<Vec<Value>, AllocError>
    ensures { IfOk result (λ v. length v.items ≡ segments) }
{
    let mut values = Vec::new(alloc);
    for i in 0..segments {
        values.push(Value::new())?;
    }
    Ok(values)
}

/// A collector whose scan has not begun.
fn new_collector(alloc: Global, segments: usize) -> Result<Collector, AllocError>
    requires least { 0 < segments }
    requires most { segments ≤ MAX_COUNT }
    ensures { IfOk result (λ c. length c.memory.items ≡ segments) }
{
    Ok(Collector {
        scan: Scan::new(segments),
        memory: blank(alloc, segments)?,
    })
}

/// Makes the register of each segment.
pub fn new_registers(alloc: Global, segments: usize) -> Result<Vec<Register>, AllocError>
    ensures { IfOk result (λ v. (length v.items ≡ segments) × Each (IsFreshRegister segments) v.items) }
{
    let mut registers = Vec::new(alloc);
    for i in 0..segments {
        registers.push(Register {
            number: 0,
            value: Value::new(),
            view: blank(alloc, segments)?,
        })?;
    }
    Ok(registers)
}

/// Makes the writer of each segment.
pub fn new_writers(alloc: Global, segments: usize) -> Result<Vec<WriterActor>, AllocError>
    requires least { 0 < segments }
    requires most { segments ≤ MAX_COUNT }
    ensures { IfOk result (λ v. (length v.items ≡ segments) × Each (IsFreshWriter segments) v.items) }
{
    let mut writers = Vec::new(alloc);
    for i in 0..segments {
        writers.push(WriterActor {
            phase: WriterPhase::Idle,
            value: Value::new(),
            collector: new_collector(alloc, segments)?,
        })?;
    }
    Ok(writers)
}

/// Makes `count` scanners.
pub fn new_scanners(
    alloc: Global,
    segments: usize,
    count: usize,
) -> Result<Vec<ScannerActor>, AllocError>
    requires least { 0 < segments }
    requires most { segments ≤ MAX_COUNT }
    ensures { IfOk result (λ v. (length v.items ≡ count) × Each (IsFreshScanner segments) v.items) }
{
    let mut scanners = Vec::new(alloc);
    for i in 0..count {
        scanners.push(ScannerActor {
            phase: ScannerPhase::Idle,
            asked: Asked::All,
            collector: new_collector(alloc, segments)?,
        })?;
    }
    Ok(scanners)
}
