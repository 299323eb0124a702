//! The device calls of a store.
#![tactic(auto, using(crate::proofs::Stored::store_facts))]

ghost use Rattle.std.specs.Prelude.{IsTrue, ◌↔◌};
ghost use Rattle.snap_disk.specs.declared.fill.Fill.{Fill};
ghost use Rattle.snap_world.specs.{inside.NodeStands.NodeStand, declared.event.Event.Event};
ghost use Rattle.snap_world.specs.inside.NodeSteps.{IsNodeStep, MayStore};

use crate::event::Reply;
use crate::node::{NodePhase, WorldNode};
use crate::writer::WriterPhase;
use snap_disk::Fill;
use snap_persist::{NextCall, Persist};
use snap_slot::slot_of;

impl WorldNode {
    /// Makes a device call of a store, which succeeds. After the last one the update is stored, and
    /// the next store finds its spare gate open.
    pub fn call(&mut self, segment: usize) -> Reply
        requires stands { NodeStand self.old }
        ensures step { IsNodeStep self.old (Event.Call segment) result self.new }
    {
        if !self.may_store(segment) {
            return Reply::NotNow;
        }
        let number = self.actors.registers[segment].number + 1;
        let drive = &mut self.drives[segment];
        let kind = drive.call(number, self.actors.writers[segment].value.as_slice());
        let NextCall::Done = drive.persist.next() else {
            return Reply::Called(kind);
        };
        drive.persist = Persist::begin(true, slot_of(number + 1));
        self.actors.end_store(segment);
        Reply::Called(kind)
    }

    /// Makes a device call of a store, which fails: the segment is fenced.
    pub fn fail(&mut self, segment: usize, fill: &Fill) -> Reply
        requires stands { NodeStand self.old }
        ensures step { IsNodeStep self.old (Event.Fail segment fill.now) result self.new }
    {
        if !self.may_store(segment) {
            return Reply::NotNow;
        }
        self.drives[segment].fail(fill);
        self.actors.fence(segment);
        Reply::DeviceFailed
    }

    /// Whether the store of this segment has a device call to make.
    fn may_store(&self, segment: usize) -> bool
        ensures { IsTrue result ↔ MayStore self.now segment }
    {
        self.phase == NodePhase::Up && self.actors.writer_is(segment, WriterPhase::Storing)
    }
}
