//! Crashes and restarts.
#![tactic(auto, using(crate::proofs::Serves::restart_facts))]

ghost use Rattle.std.specs.Prelude.{◌≡◌, ◌<◌, length, IfOk, OnErr};
ghost use Rattle.snap_disk.specs.declared.fill.Fill.{Fill};
ghost use Rattle.snap_world.specs.{NodePhases.after_opening_call, declared.event.Event.Event};
ghost use Rattle.snap_world.specs.inside.{NodeStands.NodeStand, NodeSteps.IsNodeStep};
ghost use Rattle.snap_world.specs.inside.Recovery.{AllReadable, AreRecovered};

use crate::drive::{Drive, crash_all, found_values, resume_all};
use crate::event::{Kind, Reply};
use crate::node::{NodePhase, OpeningCall, WorldNode};
use crate::register::Register;
use snap_disk::Fill;
use std::alloc::{AllocError, Global};

impl WorldNode {
    /// Crashes each device with its fill, of which there has to be one for each. All actors are idle then.
    pub fn crash(&mut self, fills: &Vec<Fill>) -> Reply
        requires stands { NodeStand self.old }
        ensures step { IsNodeStep self.old (Event.Crash fills.now) result self.new }
    {
        if fills.len() != self.drives.len() {
            return Reply::NotNow;
        }
        crash_all(&mut self.drives, fills);
        self.actors.halt();
        self.phase = NodePhase::Down;
        Reply::Crashed
    }

    /// Begins a restart.
    pub fn restart(&mut self) -> Reply
        requires stands { NodeStand self.old }
        ensures step { IsNodeStep self.old Event.Restart result self.new }
    {
        match self.phase {
            NodePhase::Down => {
                self.phase = NodePhase::Restarting {
                    segment: 0,
                    call: OpeningCall::Sync,
                };
                Reply::Restarting
            }
            _ => Reply::NotNow,
        }
    }

    /// Makes the next call of a restart, which succeeds: for each segment a sync, and then the read of its file.
    pub fn restart_call(&mut self) -> Reply
        requires stands { NodeStand self.old }
        ensures step { IsNodeStep self.old Event.RestartCall result self.new }
    {
        match self.phase {
            NodePhase::Restarting { segment, call } => match call {
                OpeningCall::Sync => {
                    self.drives[segment].image.settle();
                    self.phase = NodePhase::Restarting {
                        segment,
                        call: OpeningCall::Read,
                    };
                    Reply::Called(Kind::Sync)
                }
                OpeningCall::Read => {
                    let count = self.drives.len();
                    self.drives[segment].read(segment as u8, count as u8);
                    self.phase = after_read(count, segment);
                    Reply::Called(Kind::Read)
                }
            },
            _ => Reply::NotNow,
        }
    }

    /// Makes the next call of a restart, which fails: the node is down again.
    pub fn restart_fail(&mut self, fill: &Fill) -> Reply
        requires stands { NodeStand self.old }
        ensures step { IsNodeStep self.old (Event.RestartFail fill.now) result self.new }
    {
        match self.phase {
            NodePhase::Restarting { segment, call } => {
                self.phase = NodePhase::Down;
                match call {
                    OpeningCall::Sync => {
                        self.drives[segment].image.settle_failed(fill);
                        Reply::DeviceFailed
                    }
                    OpeningCall::Read => Reply::DeviceFailed,
                }
            }
            _ => Reply::NotNow,
        }
    }

    /// Ends the restart: what it found is served. If memory runs out nothing has changed.
    pub fn serve(&mut self, alloc: Global) -> Result<Reply, AllocError>
        requires stands { NodeStand self.old }
        ensures step { IfOk result (λ reply. IsNodeStep self.old Event.Serve reply self.new) }
        ensures memory { OnErr result (self.old.phase ≡ NodePhase.Ready) }
        ensures err { OnErr result (self.new ≡ self.old) }
    {
        match self.phase {
            NodePhase::Ready => {
                let values = found_values(alloc, &self.drives)?;
                recover_all(&mut self.actors.registers, &self.drives);
                resume_all(&mut self.drives);
                self.phase = NodePhase::Up;
                Ok(Reply::Memory(values))
            }
            _ => Ok(Reply::NotNow),
        }
    }
}

/// The phase after the file of this segment was read.
fn after_read(segments: usize, segment: usize) -> NodePhase
    requires { segment < segments }
    ensures { result ≡ after_opening_call segments segment OpeningCall.Read }
{
    if segment + 1 < segments {
        NodePhase::Restarting {
            segment: segment + 1,
            call: OpeningCall::Sync,
        }
    } else {
        NodePhase::Ready
    }
}

/// Puts into each register what the last restart found for its segment.
fn recover_all(registers: &mut Vec<Register>, drives: &Vec<Drive>)
    requires size { length registers.old.items ≡ length drives.now.items }
    requires readable { ∥ AllReadable drives.now.items ∥₁ }
    ensures { AreRecovered drives.now.items registers.old.items registers.new.items }
{
    for i in 0..registers.len() {
        let register = &mut registers[i];
        register.number = drives[i].found.number;
        register.value.set(drives[i].found_value());
    }
}
