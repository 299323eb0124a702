//! A scanner, as a plain value.
ghost use Rattle.std.specs.Prelude.{◌≡◌, ℕ, ◌<◌, ◌≤◌, length, IfOk};
ghost use Rattle.snap_history.specs.declared.limits.TheConstants.{MAX_COUNT};
ghost use Rattle.snap_scan.specs.Sets.{IsAt};
ghost use Rattle.snap_world.specs.{Answers.set_of, inside.Steps.IsReplyOf};

use crate::collector::{Collector, bytes_of_all, entries_of};
use crate::event::Reply;
use snap_scan::SegmentSet;
use std::alloc::{AllocError, Global};

/// The state of a scanner's scan.
#[derive(Clone, Copy, Drop, PartialEq, Eq)]
pub enum ScannerPhase {
    /// It has no scan.
    Idle,
    /// Its scan has a look to make.
    Scanning,
    /// Its scan has an answer to give.
    Ready,
}

/// The segments that a scanner was asked for.
#[derive(Clone, Copy, Drop, PartialEq, Eq)]
pub enum Asked {
    /// All segments.
    All,
    /// These segments alone.
    Only(SegmentSet),
}

impl Asked {
    /// The set of segments to look at, if there are `segments` of them.
    pub fn set(self, segments: usize) -> SegmentSet
        requires most { segments ≤ MAX_COUNT }
        ensures { result.bits ≡ set_of segments self }
    {
        match self {
            Asked::All => SegmentSet::all(segments),
            Asked::Only(set) => set,
        }
    }
}

/// One scanner, with its scan and the segments that it was asked for.
#[derive(Drop)]
pub struct ScannerActor {
    pub phase: ScannerPhase,
    pub asked: Asked,
    pub collector: Collector,
}

impl ScannerActor {
    ghost use Rattle.snap_scan.specs.declared.set.SegmentSet.{SegmentSet};

    /// The reply: its memory, or the entries of the segments that it was asked for. Each segment of
    /// a set has to have a place in the memory.
    pub fn reply(&self, alloc: Global) -> Result<Reply, AllocError>
        requires within { (set : SegmentSet) → self.now.asked ≡ Asked.Only set
            → (place i : ℕ) → IsAt set.bits place i → i < length self.now.collector.memory.items }
        ensures { IfOk result (IsReplyOf self.now.asked self.now.collector.memory.items) }
    {
        let memory = &self.collector.memory;
        match self.asked {
            Asked::All => Ok(Reply::Memory(bytes_of_all(alloc, memory)?)),
            Asked::Only(set) => Ok(Reply::Part(entries_of(alloc, memory, set)?)),
        }
    }
}
