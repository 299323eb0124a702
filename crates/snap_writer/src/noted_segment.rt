//! A segment that is stored only while its writer's seat says so.
ghost use Rattle.std.specs.Prelude.{◌≡◌, ◌+◌, None};
ghost use Rattle.snap_history.specs.Limits.{IsNumber, IsShort};
ghost use Rattle.snap_writer.specs.Update.{HasStored};

use snap_disk::{Disk, Refusal};
use snap_register::{UpdatePhase, WriteSeat};
use snap_segment::Segment;
use std::marker::Model;

/// The segment of a writer. To store it takes the seat that says in the registers that a store was begun. So of a file
/// that an instant finds half written the registers say so.
#[derive(Drop)]
pub(crate) struct NotedSegment<D: Disk> {
    segment: Segment<D>,
}

impl<D: Disk> Model for NotedSegment<D> {
    ghost use Rattle.snap_segment.specs.Segment.{SegmentState};

    ghost Value = { SegmentState D };

    ghost view = { λ s. s.segment };
}

impl<D: Disk> NotedSegment<D> {
    pub(crate) fn new(segment: Segment<D>) -> NotedSegment<D>
        ensures { result ≡ segment }
    {
        NotedSegment { segment }
    }

    pub(crate) fn as_ref(&self) -> &Segment<D>
        ensures { result.now ≡ self.now }
    {
        &self.segment
    }

    pub(crate) fn into_inner(self) -> Segment<D>
        ensures { result ≡ self }
    {
        self.segment
    }

    /// [`Segment::store`], which only the device can refuse.
    pub(crate) fn store(&mut self, seat: &WriteSeat, value: &[u8]) -> Result<u64, Refusal>
        requires noted { seat.now.phase ≡ UpdatePhase.Storing }
        requires size { IsShort value.now }
        requires next { IsNumber (self.old.number + 1) }
        requires unfenced { self.old.begun ≡ None }
        ensures stored { HasStored D.Disk self.old self.new value.now result }
    {
        self.segment.store(value)
    }
}
