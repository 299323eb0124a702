//! A node: its actors, the devices of its segments, and the effect of one event on them.
ghost use Rattle.std.specs.Prelude.{◌≡◌, ◌<◌, ◌≤◌, IfOk, OnErr};
ghost use Rattle.snap_history.specs.declared.limits.TheConstants.{MAX_COUNT};
ghost use Rattle.snap_world.specs.Start.{start_state, start_world_phases, AreFormatted};
ghost use Rattle.snap_world.specs.inside.NodeSteps.{IsNodeStep, phases_of_node, devices_of_node};
ghost use Rattle.snap_world.specs.{NodePhases.NeedsMemory, inside.NodeStands.NodeStands, inside.NodeStands.NodeStand};

mod restarts;
mod stores;

use crate::actors::Actors;
use crate::drive::{Drive, new_drives};
use crate::event::{Actor, Event, Reply};
use crate::scanner::Asked;
use std::alloc::{AllocError, Global};

/// A device call by which a restart opens a segment: first the sync, then the read of its file.
#[derive(Clone, Copy, Drop, PartialEq, Eq)]
pub enum OpeningCall {
    Sync,
    Read,
}

/// The state of a node between a crash and the end of its restart.
#[derive(Clone, Copy, Drop, PartialEq, Eq)]
pub enum NodePhase {
    /// Its writers and scanners can act.
    Up,
    /// It has crashed.
    Down,
    /// It restarts: the segments before this one are opened, and this call of it comes next.
    Restarting { segment: usize, call: OpeningCall },
    /// It restarts, all segments are opened, and what was found may be served.
    Ready,
}

/// The actors in memory, and the device of each segment.
#[derive(Drop)]
pub struct WorldNode {
    pub phase: NodePhase,
    pub actors: Actors,
    pub drives: Vec<Drive>,
}

impl WorldNode {
    /// A node with formatted devices and idle actors.
    pub fn new(alloc: Global, segments: usize, scanners: usize) -> Result<WorldNode, AllocError>
        requires least { 0 < segments }
        requires most { segments ≤ MAX_COUNT }
        ensures segments { IfOk result (λ w. w.actors.segments ≡ segments) }
        ensures phases { IfOk result (λ w. phases_of_node w ≡ start_world_phases segments scanners) }
        ensures devices { IfOk result (λ w. AreFormatted segments (devices_of_node w)) }
        ensures stands { IfOk result (λ w. NodeStands w (start_state segments scanners)) }
    {
        Ok(WorldNode {
            phase: NodePhase::Up,
            actors: Actors::new(alloc, segments, scanners)?,
            drives: new_drives(alloc, segments)?,
        })
    }

    /// Does one event. Writers and scanners act only while the node is up.
    #[tactic(auto, using(crate::proofs::Events::node_acts))]
    pub fn step(&mut self, alloc: Global, event: &Event) -> Result<Reply, AllocError>
        requires stands { NodeStand self.old }
        ensures step { IfOk result (λ reply. IsNodeStep self.old event.now reply self.new) }
        ensures memory { OnErr result (NeedsMemory (phases_of_node self.old) event.now) }
        ensures err { OnErr result (self.new ≡ self.old) }
    {
        match (event, self.phase) {
            (Event::Call(segment), _) => Ok(self.call(*segment)),
            (Event::Fail(segment, fill), _) => Ok(self.fail(*segment, fill)),
            (Event::Crash(fills), _) => Ok(self.crash(fills)),
            (Event::Restart, _) => Ok(self.restart()),
            (Event::RestartCall, _) => Ok(self.restart_call()),
            (Event::RestartFail(fill), _) => Ok(self.restart_fail(fill)),
            (Event::Serve, _) => self.serve(alloc),
            (Event::Begin(segment, value), NodePhase::Up) => Ok(self.actors.begin(*segment, value)),
            (Event::Look(Actor::Writer(at)), NodePhase::Up) => Ok(self.actors.look_writer(*at)),
            (Event::Look(Actor::Scanner(at)), NodePhase::Up) => Ok(self.actors.look_scanner(*at)),
            (Event::Show(segment), NodePhase::Up) => Ok(self.actors.show(*segment)),
            (Event::Acknowledge(segment), NodePhase::Up) => Ok(self.actors.acknowledge(*segment)),
            (Event::Scan(scanner), NodePhase::Up) => Ok(self.actors.ask(*scanner, Asked::All)),
            (Event::Pick(at, set), NodePhase::Up) => Ok(self.actors.ask(*at, Asked::Only(*set))),
            (Event::Answer(scanner), NodePhase::Up) => self.actors.answer(alloc, *scanner),
            _ => Ok(Reply::NotNow),
        }
    }
}
