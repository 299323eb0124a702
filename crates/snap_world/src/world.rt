//! A world, which always represents some state of the abstract machine.
#![tactic(auto, using(crate::proofs::Runs::run_facts))]

ghost use Rattle.std.specs.Prelude.{◌≡◌, ℕ, ◌<◌, ◌≤◌, List, [], ◌∷◌, length, take, IfOk, IfErr, OnErr};
ghost use Rattle.snap_history.specs.declared.limits.TheConstants.{MAX_COUNT, MAX_SCANNERS};
ghost use Rattle.snap_history.specs.History.{IsBeginning};
ghost use Rattle.snap_world.specs.NodePhases.{TellsWhether, PhasesMove, NeedsMemory, StopsAt};
ghost use Rattle.snap_world.specs.Start.{start_state, start_world_phases, AreFormatted};
ghost use Rattle.snap_world.specs.{Machine.State, inside.NodeStands.NodeStands, declared.event.Reply.Reply};

use crate::event::{Event, Reply};
use crate::node::WorldNode;
use std::alloc::{AllocError, Global};

/// Memory ran out. The world is as it was after the first `done` events.
#[derive(Clone, Copy, Debug, Drop, PartialEq, Eq)]
pub struct Stopped {
    /// How many events were done.
    pub done: usize,
}

/// Registers, devices, writers and scanners, on which events are done one after the other.
///
/// Its only conditions are those of [`World::new`]: any list of events may be done on any world. It stores no history;
/// `StandsFor world state` says which states of the abstract machine it represents, and every world represents some.
#[derive(Drop)]
pub struct World {
    alloc: Global,
    node: WorldNode,
    ghost stands: { ∥ ((x : State) × NodeStands node x) ∥₁ },
}

impl World {
    ghost use Rattle.snap_world.specs.Crashes.{AnyCrash, CrashInsideAnyWrite, AnyFault};
    ghost use Rattle.snap_world.specs.Surface.{StandsFor, IsRun, segments_of, phases_of, devices_of};

    /// A world of this many segments and scanners, 1 to 16 each: every segment has number 0 and the empty value, its
    /// device is formatted, and all actors are idle. The world keeps the allocator, and takes the memory of all its
    /// calls here, except for the replies of `Answer`, `Serve` and `run`.
    ///
    /// If memory runs out the result is the `AllocError`, and nothing is kept.
    pub fn new(alloc: Global, segments: usize, scanners: usize) -> Result<World, AllocError>
        requires least { 0 < segments }
        requires most { segments ≤ MAX_COUNT }
        requires scanners_least { 0 < scanners }
        requires scanners_most { scanners ≤ MAX_SCANNERS }
        ensures segments { IfOk result (λ w. segments_of w ≡ segments) }
        ensures phases { IfOk result (λ w. phases_of w ≡ start_world_phases segments scanners) }
        ensures devices { IfOk result (λ w. AreFormatted segments (devices_of w)) }
        ensures stands { IfOk result (λ w. StandsFor w (start_state segments scanners)) }
    {
        let node = WorldNode::new(alloc, segments, scanners)?;
        Ok(World { alloc, node })
    }

    /// Does one event: a run of that event alone. The reply is [`Reply::NotNow`] exactly if the
    /// event may not come, and the world is then unchanged.
    ///
    /// Only `Answer` and `Serve` take memory. If that runs out the result is the `AllocError`, and
    /// the world is unchanged.
    pub fn step(&mut self, event: &Event) -> Result<Reply, AllocError>
        ensures run { IfOk result (λ reply. IsRun self.old (event.now ∷ []) (reply ∷ []) self.new) }
        ensures enabled { IfOk result (λ reply. (x : State) → StandsFor self.old x
            → TellsWhether x (phases_of self.old) event.now reply) }
        ensures phases { IfOk result (λ reply. (x : State) → StandsFor self.old x
            → PhasesMove (segments_of self.old) x (phases_of self.old) event.now reply (phases_of self.new)) }
        ensures unchanged { IfOk result (λ reply. reply ≡ Reply.NotNow → self.new ≡ self.old) }
        ensures memory { OnErr result (NeedsMemory (phases_of self.old) event.now) }
        ensures err { OnErr result (self.new ≡ self.old) }
    {
        self.node.step(self.alloc, event)
    }

    /// Does the events, one after the other, and returns the reply to each.
    ///
    /// This is the theorem of the world. From each state of the abstract machine that the world represented, the events
    /// with their replies are a run of that machine, with the phases and the devices that the world had and has, to a
    /// state that the world represents now. So over any list of events, with device faults and crashes at any step or
    /// inside any write, each restart serves the memory after all updates visible by then, followed by at most one
    /// begun update of each writer; each scan answers the memory as it was at one moment between its beginning and its
    /// last look; and `NotNow` comes exactly if an event may not come.
    ///
    /// At any step means with any bytes: whatever the disk model lets a crash leave of the devices that the world has
    /// after the events, the event `Crash` with some fills leaves (`any_crash`), and whatever it lets a failed write or
    /// a failed sync leave, some fill leaves (`any_fault`). Inside any write is covered by the moment right after it:
    /// whatever a crash inside a write may leave of the devices, the event `Crash` with some fills leaves after that
    /// write (`crash_inside_any_write`).
    ///
    /// The memory of the list of replies is taken before the first event. If memory runs out, there or at
    /// an `Answer` or a `Serve`, the result is [`Stopped`], and all this holds of the events already done.
    pub fn run(&mut self, events: &[Event]) -> Result<Vec<Reply>, Stopped>
        ensures run { IfOk result (λ replies. IsRun self.old events.now replies.items self.new) }
        ensures stopped { IfErr result (λ stopped. (stopped.done ≤ length events.now) × ((replies : List Reply)
            × IsRun self.old (take stopped.done events.now) replies self.new)) }
        ensures memory { IfErr result (λ stopped. StopsAt (phases_of self.new) events.now stopped.done) }

        // However it ends, the history was only appended to: an update that was visible once is in every later history.
        ensures grows { (x : State) → StandsFor self.old x
            → (y : State) × StandsFor self.new y × IsBeginning x.history y.history }

        // The events leave out no bytes that the disk model allows.
        ensures any_crash { AnyCrash (devices_of self.new) }
        ensures crash_inside_any_write { CrashInsideAnyWrite (devices_of self.new) }
        ensures any_fault { AnyFault (devices_of self.new) }
    {
        let mut replies = Vec::new(self.alloc);
        if replies.reserve(events.len()).is_err() {
            return Err(Stopped { done: 0 });
        }
        for i in 0..events.len() {
            match self.step(&events[i]) {
                Ok(reply) => replies.push_reserved(reply),
                Err(_) => return Err(Stopped { done: i }),
            }
        }
        Ok(replies)
    }
}
