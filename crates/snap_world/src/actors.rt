//! Writers and scanners, and the registers between them: a node's memory.
#![tactic(auto, using(crate::proofs::Sizes::sizes))]

ghost use Rattle.std.specs.Prelude.{◌≡◌, ◌↔◌, ◌<◌, ◌≤◌, IfOk, IsTrue};
ghost use Rattle.snap_history.specs.{declared.limits.TheConstants.MAX_COUNT, Pairs.Pairs};
ghost use Rattle.snap_world.specs.{Phases.WriterIs, Phases.ScannerIs, Start.start_state, Start.start_phases};
ghost use Rattle.snap_world.specs.{inside.Stands.ActorsStand};
ghost use Rattle.snap_world.specs.{inside.Fresh.IsHalted, inside.Fresh.IsScannerHalted, inside.Steps.phases_of_actors};

mod scans;
mod updates;

use crate::register::Register;
use crate::scanner::{ScannerActor, ScannerPhase};
use crate::start::{new_registers, new_scanners, new_writers};
use crate::writer::{WriterActor, WriterPhase};
use std::alloc::{AllocError, Global};

/// The writer of each segment and the scanners, with the registers of all segments.
#[derive(Drop)]
pub struct Actors {
    pub segments: usize,
    pub registers: Vec<Register>,
    pub writers: Vec<WriterActor>,
    pub scanners: Vec<ScannerActor>,
}

impl Actors {
    /// New actors: nothing was shown, and all are idle.
    pub fn new(alloc: Global, segments: usize, scanners: usize) -> Result<Actors, AllocError>
        requires least { 0 < segments }
        requires most { segments ≤ MAX_COUNT }
        ensures segments { IfOk result (λ p. p.segments ≡ segments) }
        ensures phases { IfOk result (λ p. phases_of_actors p ≡ start_phases segments scanners) }
        ensures stands { IfOk result (λ p. ActorsStand p (start_state segments scanners)) }
    {
        Ok(Actors {
            segments,
            registers: new_registers(alloc, segments)?,
            writers: new_writers(alloc, segments)?,
            scanners: new_scanners(alloc, segments, scanners)?,
        })
    }

    /// Whether there is this writer, and it is in this phase.
    pub fn writer_is(&self, segment: usize, phase: WriterPhase) -> bool
        ensures { IsTrue result ↔ WriterIs (phases_of_actors self.now) segment phase }
    {
        self.writers
            .get(segment)
            .is_some_and(|writer| writer.phase == phase)
    }

    /// Whether there is this scanner, and it is in this phase.
    pub fn scanner_is(&self, scanner: usize, phase: ScannerPhase) -> bool
        ensures { IsTrue result ↔ ScannerIs (phases_of_actors self.now) scanner phase }
    {
        self.scanners
            .get(scanner)
            .is_some_and(|it| it.phase == phase)
    }

    /// Makes all actors idle: a crash ends their work.
    pub fn halt(&mut self)
        ensures segments { self.new.segments ≡ self.old.segments }
        ensures registers { self.new.registers ≡ self.old.registers }
        ensures writers { Pairs (λ i. IsHalted) self.old.writers.items self.new.writers.items }
        ensures scanners { Pairs (λ i. IsScannerHalted) self.old.scanners.items self.new.scanners.items }
    {
        'writers: for i in 0..self.writers.len() {
            self.writers[i].phase = WriterPhase::Idle;
        }
        'scanners: for i in 0..self.scanners.len() {
            self.scanners[i].phase = ScannerPhase::Idle;
        }
    }
}
