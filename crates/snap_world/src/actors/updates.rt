//! The events of a writer.
ghost use Rattle.std.specs.Prelude.{◌≡◌, ◌<◌, ℕ, true, List, slice_get};
ghost use Rattle.snap_world.specs.Machine.{State, WriterState, Begun, with_writer};
ghost use Rattle.snap_world.specs.{Phases.WriterIs, Phases.writer_to, inside.Stands.Stand, inside.Stands.ActorsStand};
ghost use Rattle.snap_world.specs.{inside.Steps.phases_of_actors, inside.NodeSteps.IsActorsStep};
ghost use Rattle.snap_world.specs.{declared.event.Actor.Actor, declared.event.Event.Event};

use crate::actors::Actors;
use crate::collector::copy_all;
use crate::event::Reply;
use crate::writer::WriterPhase;
use snap_history::{LAST_NUMBER, MAX_VALUE_LEN};
use snap_scan::Scan;

impl Actors {
    /// Begins an update.
    pub fn begin(&mut self, segment: usize, value: &Vec<u8>) -> Reply
        requires stands { Stand self.old }
        ensures step { IsActorsStep self.old (Event.Begin segment value.now) result self.new }
    {
        if !self.writer_is(segment, WriterPhase::Idle) || value.len() > MAX_VALUE_LEN {
            return Reply::NotNow;
        }
        if self.registers[segment].number >= LAST_NUMBER {
            return Reply::NotNow;
        }
        let writer = &mut self.writers[segment];
        writer.value.set(value);
        writer.collector.scan = Scan::new(self.segments);
        writer.phase = WriterPhase::Scanning;
        Reply::Begun
    }

    /// Takes one look of an update's embedded scan. Once that has its answer, the store is next.
    pub fn look_writer(&mut self, segment: usize) -> Reply
        requires stands { Stand self.old }
        ensures step { IsActorsStep self.old (Event.Look (Actor.Writer segment)) result self.new }
    {
        if !self.writer_is(segment, WriterPhase::Scanning) {
            return Reply::NotNow;
        }
        let writer = &mut self.writers[segment];
        let number = writer.collector.look(&self.registers);
        if writer.collector.is_done() {
            writer.phase = WriterPhase::Storing;
        }
        Reply::Number(number)
    }

    /// Publishes an update: the next number, its value, and the answer of the embedded scan.
    pub fn show(&mut self, segment: usize) -> Reply
        requires stands { Stand self.old }
        ensures step { IsActorsStep self.old (Event.Show segment) result self.new }
    {
        if !self.writer_is(segment, WriterPhase::Stored) {
            return Reply::NotNow;
        }
        let register = &mut self.registers[segment];
        let writer = &mut self.writers[segment];
        register.number += 1;
        register.value.set(writer.value.as_slice());
        copy_all(&mut register.view, &writer.collector.memory);
        writer.phase = WriterPhase::Shown;
        Reply::Shown
    }

    /// Acknowledges an update.
    pub fn acknowledge(&mut self, segment: usize) -> Reply
        requires stands { Stand self.old }
        ensures step { IsActorsStep self.old (Event.Acknowledge segment) result self.new }
    {
        if !self.writer_is(segment, WriterPhase::Shown) {
            return Reply::NotNow;
        }
        self.writers[segment].phase = WriterPhase::Idle;
        Reply::Stored(self.registers[segment].number)
    }

    /// Notes that the last device call of a writer's store has succeeded.
    pub fn end_store(&mut self, segment: usize)
        requires stands { Stand self.old }
        requires within { segment < self.old.segments }
        ensures segments { self.new.segments ≡ self.old.segments }
        ensures registers { self.new.registers ≡ self.old.registers }
        ensures stands { (x : State) → ActorsStand self.old x
            → WriterIs (phases_of_actors self.old) segment WriterPhase.Storing → ActorsStand self.new x }
        ensures phases { phases_of_actors self.new ≡ writer_to (phases_of_actors self.old) segment WriterPhase.Stored }
    {
        self.writers[segment].phase = WriterPhase::Stored;
    }

    /// Notes that a device call of a writer's store has failed.
    pub fn fence(&mut self, segment: usize)
        requires stands { Stand self.old }
        requires within { segment < self.old.segments }
        ensures segments { self.new.segments ≡ self.old.segments }
        ensures stands { (x : State) → ActorsStand self.old x
            → (s : WriterState) (v : List ℕ) → slice_get x.writers segment ≡ Some s → s.pending ≡ Begun v
            → ActorsStand self.new (with_writer x segment (record s { fenced = true })) }
        ensures phases { phases_of_actors self.new ≡ writer_to (phases_of_actors self.old) segment WriterPhase.Fenced }
    {
        self.writers[segment].phase = WriterPhase::Fenced;
    }
}
