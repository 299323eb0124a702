//! The events of a scanner.
ghost use Rattle.std.specs.Prelude.{◌≡◌, IfOk, OnErr};
ghost use Rattle.snap_world.specs.inside.Steps.{phases_of_actors, asking};
ghost use Rattle.snap_world.specs.{Phases.ScannerIs, declared.event.Event.Event};
ghost use Rattle.snap_world.specs.{inside.Stands.Stand, inside.NodeSteps.IsActorsStep, declared.event.Actor.Actor};

use crate::actors::Actors;
use crate::event::Reply;
use crate::scanner::{Asked, ScannerPhase};
use snap_scan::Scan;
use std::alloc::{AllocError, Global};

impl Actors {
    /// Begins a scan of the segments that `asked` names: at least one, all of which have to exist.
    pub fn ask(&mut self, at: usize, asked: Asked) -> Reply
        requires stands { Stand self.old }
        ensures step { IsActorsStep self.old (asking at asked) result self.new }
    {
        let set = asked.set(self.segments);
        if set.is_empty() || !set.is_among(self.segments) {
            return Reply::NotNow;
        }
        if !self.scanner_is(at, ScannerPhase::Idle) {
            return Reply::NotNow;
        }
        let scanner = &mut self.scanners[at];
        scanner.asked = asked;
        scanner.collector.scan = Scan::of(set);
        scanner.phase = ScannerPhase::Scanning;
        Reply::ScanBegun
    }

    /// Takes one look of a scan.
    pub fn look_scanner(&mut self, at: usize) -> Reply
        requires stands { Stand self.old }
        ensures step { IsActorsStep self.old (Event.Look (Actor.Scanner at)) result self.new }
    {
        if !self.scanner_is(at, ScannerPhase::Scanning) {
            return Reply::NotNow;
        }
        let scanner = &mut self.scanners[at];
        let number = scanner.collector.look(&self.registers);
        if scanner.collector.is_done() {
            scanner.phase = ScannerPhase::Ready;
        }
        Reply::Number(number)
    }

    /// Gives the answer of a scan. If memory runs out the scanner keeps the answer.
    pub fn answer(&mut self, alloc: Global, at: usize) -> Result<Reply, AllocError>
        requires stands { Stand self.old }
        ensures step { IfOk result (λ reply. IsActorsStep self.old (Event.Answer at) reply self.new) }
        ensures memory { OnErr result (ScannerIs (phases_of_actors self.old) at ScannerPhase.Ready) }
        ensures err { OnErr result (self.new ≡ self.old) }
    {
        if !self.scanner_is(at, ScannerPhase::Ready) {
            return Ok(Reply::NotNow);
        }
        let reply = self.scanners[at].reply(alloc)?;
        self.scanners[at].phase = ScannerPhase::Idle;
        Ok(reply)
    }
}
