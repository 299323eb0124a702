//! Writers on loan, and the outcomes of updates.
ghost use Rattle.std.specs.Prelude.{◌≡◌, ℕ, List, true, false};
ghost use Rattle.snap_frame.specs.{Limits.IsShort, Messages.IsInLimits};
ghost use Rattle.snap_memory.specs.Seat.{Meets, own_of};
ghost use Rattle.snap_service.specs.Settled.{IsSettledAt, IsTellable, reply_of};
ghost use Rattle.snap_service.specs.{Writer.number_of, Memory.IsOf, Updated.IsUpdated};
ghost use Rattle.snap_service.specs.Came.{Came};

use crate::heap_writer::HeapWriter;
use crate::job::Job;
use crate::memory::Memory;
use crossbeam_channel::Sender;
use snap_disk::{Disk, Refusal};
use snap_frame::Reply;
use snap_memory::Scanner;
use std::marker::Model;
use std::sync::Wait;

/// A writer on loan from its storer, which waits for it. Dropping the lease returns the writer.
pub struct WriterLease<R: Wait + Copy, M: Memory, D: Disk + Drop> {
    pub rt: R,
    pub home: Sender<HeapWriter<M, D>>,
    pub writer: HeapWriter<M, D>,
}

impl<R: Wait + Copy, M: Memory, D: Disk + Drop> Drop for WriterLease<R, M, D> {
    fn drop(self) {
        let WriterLease { rt, home, writer } = self;
        let _ = home.send(&rt, writer);
    }
}

/// The outcome of an update, together with its writer, which is idle until the outcome is dropped.
#[derive(Drop)]
pub struct Outcome<R: Wait + Copy, M: Memory, D: Disk + Drop> {
    job: Job<M>,
    told: Result<u64, Refusal>,
    lease: WriterLease<R, M, D>,
}

impl<R: Wait + Copy, M: Memory, D: Disk + Drop> Model for Outcome<R, M, D> {
    ghost use Rattle.snap_service.specs.Came.{Came};
    ghost use Rattle.snap_service.specs.Settled.{IsTellable};

    ghost Value = { Came D };

    ghost view = { λ o. record { job = o.job; writer = o.lease.writer; told = o.told } };

    ghost invariant = { λ o. IsTellable o.lease.writer o.job.number o.job.value o.told };
}

/// Does one update, and returns its outcome with the writer on loan.
pub fn store_one<R: Wait + Copy, M: Memory, D: Disk + Drop>(
    rt: R,
    home: Sender<HeapWriter<M, D>>,
    mut writer: HeapWriter<M, D>,
    job: Job<M>,
) -> Outcome<R, M, D>
    requires own { own_of writer.seat ≡ job.segment }
    ensures job { result.job ≡ job }
    ensures updated { IsUpdated D.Disk writer result.writer job.number job.value result.told }
{
    let told = writer.update(job.number(), job.value());
    let lease = WriterLease { rt, home, writer };
    Outcome { job, told, lease }
}

impl<R: Wait + Copy, M: Memory, D: Disk + Drop> Outcome<R, M, D> {
    /// The writer's result: the segment's number, or the refusal of the update.
    pub fn told(&self) -> Result<u64, Refusal>
        ensures { result ≡ self.now.told }
    {
        self.told
    }

    /// The number of the update.
    pub fn number(&self) -> u64
        ensures { result ≡ self.now.job.number }
    {
        self.job.number()
    }

    /// Whether this is the outcome of exactly this update: its segment, number and value.
    pub fn is_of(&self, segment: usize, number: u64, value: &[u8]) -> bool
        ensures yes { result ≡ true → (own_of self.now.writer.seat ≡ segment)
            × (self.now.job.number ≡ number) × (self.now.job.value ≡ value.now) }
        ensures no { result ≡ false → own_of self.now.writer.seat ≡ segment
            → self.now.job.number ≡ number → self.now.job.value ≡ value.now → ⊥ }
        ensures short { result ≡ true → IsShort value.now }
        ensures memory { IsOf M.table M.plan self.now.writer.seat }
    {
        if self.lease.writer.as_ref().segment() != segment || self.job.number() != number {
            return false;
        }
        self.job.value() == value
    }

    /// Makes the reply from the writer's result, and returns the writer to its storer.
    ///
    /// The scanner meets the writer, so that the reply fits what the scanner has seen. No look is taken.
    pub fn tell(mut self, scanner: &mut Scanner) -> Reply
        requires memory { IsOf M.table M.plan scanner.old }
        ensures told { result ≡ reply_of (number_of self.writer) self.told }
        ensures settled { (i k : ℕ) (v : List ℕ) → own_of self.writer.seat ≡ i → self.job.number ≡ k
            → self.job.value ≡ v → IsSettledAt scanner.new i k v result }
        ensures limits { IsInLimits result }
        ensures scanner { Meets scanner.old scanner.new }
    {
        self.lease.writer.reply_told(self.told, scanner)
    }
}
