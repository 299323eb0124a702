//! Writers in allocations of their own, and their published status.
ghost use Rattle.std.specs.Prelude.{◌≡◌, ◌+◌, ◌*◌, IfOk, false, true};
ghost use Rattle.snap_frame.specs.{Limits.IsShort, Messages.IsStatus};
ghost use Rattle.snap_memory.specs.Seat.{own_of};
ghost use Rattle.snap_service.specs.Updated.{IsUpdated, RepliesTold};
ghost use Rattle.snap_service.specs.{Asked.StoresAsked, Memory.IsOf, Settled.IsTellable};
ghost use Rattle.snap_service.specs.Storer.{IsWordOf};

use crate::memory::Memory;
use crate::settlement::reply_told;
use snap_disk::{Disk, Refusal};
use snap_frame::{Reply, SegmentStatus};
use snap_memory::Scanner;
use snap_writer::Writer;
use std::alloc::{AllocError, Global};
use std::marker::{Model, PhantomData};
use std::sync::Arc;
use std::sync::atomic::{AtomicU64, Ordering};

/// A writer's number and whether it is fenced in one word, so that another thread reads both from one moment: twice the
/// number, plus one if a store has failed.
fn word_of<D: Disk>(writer: &Writer<D>) -> u64
    ensures { IsWordOf writer.now result }
{
    let (number, is_fenced) = writer.status();
    let twice = number * 2;
    if is_fenced { twice + 1 } else { twice }
}

/// Reads a status from such a word.
pub(crate) fn status_in(word: u64) -> SegmentStatus
    ensures fenced { result.is_fenced ≡ true → word ≡ result.number * 2 + 1 }
    ensures open { result.is_fenced ≡ false → word ≡ result.number * 2 }
    ensures limits { IsStatus result }
{
    SegmentStatus {
        number: word / 2,
        is_fenced: word % 2 == 1,
    }
}

/// A writer of the memory `M` in a heap allocation: lending and returning it moves two pointers
/// instead of hundreds of bytes.
///
/// What it has stored was there at the opening, or was asked for.
#[derive(Drop)]
pub struct HeapWriter<M: Memory, D: Disk + Drop> {
    writer: Box<Writer<D>>,
    /// The segment that it writes.
    pub(crate) segment: usize,
    /// Its published status in one word, as [`status_in`] reads it.
    pub(crate) standing: Arc<AtomicU64, Global>,
    of: PhantomData<M>,
}

impl<M: Memory, D: Disk + Drop> Model for HeapWriter<M, D> {
    ghost use Rattle.std.specs.Prelude.{◌≡◌};
    ghost use Rattle.snap_memory.specs.Seat.{own_of};
    ghost use Rattle.snap_service.specs.{Asked.StoresAsked, Memory.IsOf, Writer.WriterState};

    ghost Value = { WriterState D };

    ghost view = { λ w. w.writer.value };

    ghost invariant = { λ w. IsOf M.table M.plan w.writer.value.seat × StoresAsked M.asked w.writer.value
        × (own_of w.writer.value.seat ≡ w.segment) };
}

impl<M: Memory, D: Disk + Drop> HeapWriter<M, D> {
    /// Moves `writer`, which belongs to the memory `M`, to the heap, and publishes its status. If memory runs out, the
    /// writer is dropped.
    pub fn new(alloc: Global, writer: Writer<D>) -> Result<HeapWriter<M, D>, AllocError>
        requires memory { IsOf M.table M.plan writer.seat }
        requires asked { StoresAsked M.asked writer }
        ensures { IfOk result (λ made. made ≡ writer) }
    {
        let standing = Arc::new(alloc, AtomicU64::new(word_of(&writer)))?;
        let segment = writer.segment();
        let writer = Box::new(alloc, writer).map_err(|_| AllocError)?;
        Ok(HeapWriter {
            writer,
            segment,
            standing,
            of: PhantomData,
        })
    }

    /// Moves the writer out of the heap.
    pub fn into_inner(self) -> Writer<D>
        ensures writer { result ≡ self }
        ensures memory { IsOf M.table M.plan result.seat }
        ensures asked { StoresAsked M.asked result }
    {
        Box::into_inner(self.writer)
    }

    /// Borrows the writer.
    pub fn as_ref(&self) -> &Writer<D>
        ensures writer { result.now ≡ self.now }
        ensures memory { IsOf M.table M.plan self.now.seat }
    {
        self.writer.as_ref()
    }

    /// Updates the segment by this writer, as [`Writer::update`] does, and publishes its status.
    pub fn update(&mut self, number: u64, value: &[u8]) -> Result<u64, Refusal>
        requires size { IsShort value.now }
        requires asked { M.asked (own_of self.old.seat) number value.now }
        ensures updated { IsUpdated D.Disk self.old self.new number value.now result }
        ensures tellable { IsTellable self.new number value.now result }
    {
        let told = self.writer.as_mut().update(number, value);
        let word = word_of(self.writer.as_ref());
        self.standing.store(word, Ordering::SeqCst);
        told
    }

    /// Makes the reply from the writer's result, as [`reply_told`](crate::settlement::reply_told) does.
    pub fn reply_told(&mut self, told: Result<u64, Refusal>, scanner: &mut Scanner) -> Reply
        requires memory { IsOf M.table M.plan scanner.old }
        ensures { RepliesTold told self.old self.new scanner.old scanner.new result }
    {
        reply_told(told, self.writer.as_mut(), scanner)
    }
}
