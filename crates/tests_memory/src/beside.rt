//! Equal lists of looks and updates, drawn from fixed seeds.
mod stage;

use crate::draw::Draw;
use crate::seats::{last_seat, open};
use snap_memory::scan;
use snap_register::SnapshotBuf;
use snap_world::{Event, Reply, World};
use stage::{Stage, value_of};
use std::alloc::{AllocError, Global};
use std::process::Abort;
use std::test::Fail;

/// How many scans each seed gives.
const SCANS: usize = 120;

/// The seats and the world at their start.
fn set_up(rt: &impl Abort, alloc: Global, seed: u64, segments: usize) -> Result<Stage, AllocError> {
    let mut parts = open(alloc, segments, 1, 1_000_000)?;
    let seat = last_seat(rt, &mut parts.scanners);
    let mut writers = Vec::new(alloc);
    for writer in parts.writers {
        writers.push(Some(writer))?;
    }
    Ok(Stage {
        alloc,
        seat,
        writers,
        world: World::new(alloc, segments, 1)?,
        draw: Draw { state: seed },
        busy: 0,
        agrees: true,
        borrows: 0,
    })
}

/// A scan by the seat and by the world. Whether they agree in each look and in the answer, and each value is the one of
/// its number.
fn agree(stage: &mut Stage, out: &mut SnapshotBuf) -> Result<bool, AllocError> {
    stage.expect(Event::Scan(0), Reply::ScanBegun);
    scan(stage, out);
    let mut memory = Vec::new(stage.alloc);
    for i in 0..out.len() {
        let value = value_of(stage.alloc, i, out.number(i))?;
        stage.agrees &= out.value(i) == value.as_slice();
        memory.push(value)?;
    }
    stage.expect(Event::Answer(0), Reply::Memory(memory));
    Ok(stage.agrees)
}

#[test]
fn seats_and_world_agree(rt: HostRuntime) -> Result<(), Fail> {
    let alloc = rt.alloc();
    for (seed, segments) in [(1, 1), (2, 2), (3, 3), (4, 4), (5, 4)] {
        let mut stage = set_up(&rt, alloc, seed, segments)?;
        let mut out = SnapshotBuf::new(alloc, segments)?;
        for k in 0..SCANS {
            stage.busy = k % 4;
            assert!(rt; agree(&mut stage, &mut out)?, "seed {seed}, scan {k}");
        }
        let borrows = stage.borrows;
        assert!(rt;
            borrows >= 12 && borrows <= 108,
            "seed {seed}: {borrows} borrows"
        );
    }
    Ok(())
}
