//! Where a segment's writer lies while nobody uses it.
ghost use Rattle.std.specs.Prelude.{◌≡◌, IfSome};
ghost use Rattle.snap_memory.specs.Seat.{own_of};

use crate::heap_writer::HeapWriter;
use crate::memory::Memory;
use crossbeam_channel::{Receiver, Sender, bounded};
use snap_disk::Disk;
use std::alloc::{AllocError, Global};
use std::sync::Wait;

/// The place of a segment's writer, which its storer and the desks share: whoever takes the writer is the only one that
/// has it, until it is put back.
#[derive(Drop)]
pub(crate) struct WriterSlot<M: Memory, D: Disk + Drop> {
    pub(crate) home: Sender<HeapWriter<M, D>>,
    here: Receiver<HeapWriter<M, D>>,
}

impl<M: Memory, D: Disk + Drop> WriterSlot<M, D> {
    /// A slot with this writer.
    pub(crate) fn new<R: Wait>(
        rt: &R,
        alloc: Global,
        writer: HeapWriter<M, D>,
    ) -> Result<WriterSlot<M, D>, AllocError> {
        let (home, here) = bounded(alloc, 1)?;
        home.send(rt, writer).map_err(|_| AllocError)?;
        Ok(WriterSlot { home, here })
    }

    /// Takes the writer, and waits for it while another has it. `None` if it won't be put back, or is of another
    /// segment.
    pub(crate) fn take<R: Wait>(&self, rt: &R, segment: usize) -> Option<HeapWriter<M, D>>
        ensures { IfSome result (λ w. own_of w.seat ≡ segment) }
    {
        let lent = self.here.recv(rt).ok()?;
        (lent.segment == segment).then_some(lent)
    }

    /// Takes the writer as [`WriterSlot::take`] does; also `None` if another has it.
    pub(crate) fn try_take<R: Wait>(&self, rt: &R, segment: usize) -> Option<HeapWriter<M, D>>
        ensures { IfSome result (λ w. own_of w.seat ≡ segment) }
    {
        let lent = self.here.try_recv(rt).ok()?;
        (lent.segment == segment).then_some(lent)
    }
}

impl<M: Memory, D: Disk + Drop> Clone for WriterSlot<M, D> {
    fn clone(&self) -> Result<WriterSlot<M, D>, AllocError> {
        Ok(WriterSlot {
            home: self.home.clone()?,
            here: self.here.clone()?,
        })
    }
}
