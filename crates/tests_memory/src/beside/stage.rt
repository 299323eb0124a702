//! A scanner's seat, before each of whose looks updates are drawn, and a world that does the same.
use crate::draw::Draw;
use bytes::Bytes;
use snap_memory::{SegmentSet, prepare, show};
use snap_register::{Looker, ReadSeat, SnapshotBuf, View, WriteSeat};
use snap_world::{Actor, Event, Reply, World};
use std::alloc::{AllocError, Global};

/// The value of an update: two to eight bytes that no other update has. That of number 0 is empty.
pub(crate) fn value_of(alloc: Global, segment: usize, number: u64) -> Result<Vec<u8>, AllocError> {
    let word = (number * 16 + segment as u64).to_le_bytes();
    let length = if number == 0 {
        0
    } else {
        2 + number as usize % 7
    };
    word[..length].to_vec(alloc)
}

/// A scanner's seat, the writers' seats, and the world. What the seats do the world does as well.
#[derive(Drop)]
pub(crate) struct Stage {
    pub(crate) alloc: Global,
    pub(crate) seat: ReadSeat,
    /// None while the segment's update is under way.
    pub(crate) writers: Vec<Option<WriteSeat>>,
    pub(crate) world: World,
    pub(crate) draw: Draw,
    /// The most updates that begin before each look.
    pub(crate) busy: usize,
    /// Whether the world has replied all that the seats answered.
    pub(crate) agrees: bool,
    /// How many scans were answered by a view.
    pub(crate) borrows: usize,
}

impl Stage {
    /// Runs an event in the world, which has to give this reply.
    pub(crate) fn expect(&mut self, event: Event, reply: Reply) {
        match self.world.step(&event) {
            Ok(given) if given == reply => {}
            _ => self.agrees = false,
        }
    }

    /// Runs events of this kind for as long as the world accepts them, and counts them.
    fn count(&mut self, event: Event) -> u64 {
        for count in 0..1000 {
            match self.world.step(&event) {
                Ok(Reply::NotNow) => return count,
                Ok(Reply::Number(_) | Reply::Called(_)) => {}
                _ => break,
            }
        }
        self.agrees = false;
        0
    }

    /// The scan inside an update, and in the world its store as well.
    fn begin(&mut self, writer: &mut WriteSeat) -> Option<View> {
        let (before, segment) = (writer.looks_left(), writer.segment());
        let value = value_of(self.alloc, segment, writer.number() + 1).ok()?;
        let view = prepare(writer);
        self.expect(Event::Begin(segment, value), Reply::Begun);
        if self.count(Event::Look(Actor::Writer(segment))) != before - writer.looks_left() {
            self.agrees = false;
        }
        self.count(Event::Call(segment));
        Some(view)
    }

    /// The publication of an update.
    fn publish(&mut self, writer: &mut WriteSeat, view: View) {
        let segment = writer.segment();
        let Ok(value) = value_of(self.alloc, segment, writer.number() + 1) else {
            self.agrees = false;
            return;
        };
        writer.begin_store();
        writer.end_store();
        let number = show(writer, &value, view);
        self.expect(Event::Show(segment), Reply::Shown);
        self.expect(Event::Acknowledge(segment), Reply::Stored(number));
    }

    /// An update of a drawn segment, with nothing between its scan and its publication, unless one is under way.
    fn update_at_once(&mut self) {
        let segment = self.draw.below(self.writers.len());
        if let Some(mut writer) = self.writers[segment].take() {
            match self.begin(&mut writer) {
                Some(view) => self.publish(&mut writer, view),
                None => self.agrees = false,
            }
            self.writers[segment] = Some(writer);
        }
    }

    /// An update of a drawn segment, with up to two others between its scan and its publication.
    fn update(&mut self) {
        let segment = self.draw.below(self.writers.len());
        if let Some(mut writer) = self.writers[segment].take() {
            match self.begin(&mut writer) {
                Some(view) => {
                    for _ in 0..self.draw.below(3) {
                        self.update_at_once();
                    }
                    self.publish(&mut writer, view);
                }
                None => self.agrees = false,
            }
            self.writers[segment] = Some(writer);
        }
    }
}

impl Looker for Stage {
    ghost known = { λ s. s.seat };

    fn looks_left(&self) -> u64 {
        self.seat.looks_left()
    }

    fn segments(&self) -> usize {
        self.seat.segments()
    }

    fn has_looked(&self, j: usize) -> bool {
        self.seat.has_looked(j)
    }

    fn look(&mut self, j: usize) -> u64 {
        for _ in 0..self.draw.below(self.busy + 1) {
            self.update();
        }
        let number = self.seat.look(j);
        self.expect(Event::Look(Actor::Scanner(0)), Reply::Number(number));
        number
    }

    fn value(&mut self, j: usize, out: &mut [u8]) -> usize {
        self.seat.value(j, out)
    }

    fn value_bytes(&mut self, alloc: Global, j: usize) -> Result<Bytes, AllocError> {
        self.seat.value_bytes(alloc, j)
    }

    fn view(&mut self, j: usize, set: SegmentSet, out: &mut SnapshotBuf) {
        self.borrows += 1;
        self.seat.view(j, set, out);
    }
}
