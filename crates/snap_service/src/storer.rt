//! The storer: the thread that stores for one segment.
ghost use Rattle.std.specs.Prelude.{◌≡◌, IfOk, IfSome, IfNone, false, true};
ghost use Rattle.snap_memory.specs.Seat.{own_of};
ghost use Rattle.snap_service.specs.{Asked.StoresAsked, Counted.next_count, Memory.IsOf};
ghost use Rattle.snap_service.specs.Storer.{IsNew, IsIdle, IsWaiting, StoresOne};

use crate::heap_writer::HeapWriter;
use crate::job::Job;
use crate::memory::Memory;
use crate::outbox::StorerHandle;
use crate::writer_lease::{Outcome, store_one};
use crate::writer_slot::WriterSlot;
use crossbeam_channel::{Receiver, TryRecvError, unbounded};
use snap_disk::Disk;
use snap_session::{Completion, Spin};
use snap_writer::Writer;
use std::alloc::{AllocError, Global};
use std::marker::Model;
use std::sync::{Arc, Wait};
use std::thread;

/// Polls without sleeping before a storer blocks: about 125 us.
const SPINS: u32 = 500;

/// A storer, which stores for one segment what no desk stores itself: shares its writer with the desks, and owns the
/// queue of their updates, with at most one received update that wasn't taken yet.
///
/// Models its segment, and how many updates arrived and how many were taken, both modulo 2^64: these are equal, or
/// one update waits. So a contract can say that no update is dropped.
#[derive(Drop)]
pub struct Storer<R: Wait + Copy, M: Memory, D: Disk + Drop> {
    rt: R,
    segment: usize,
    jobs: Receiver<Job<M>>,
    spin: Spin,
    /// The update that has arrived and wasn't taken yet.
    next: Option<Job<M>>,
    came: u64,
    taken: u64,
    writers: WriterSlot<M, D>,
}

impl<R: Wait + Copy, M: Memory, D: Disk + Drop> Model for Storer<R, M, D> {
    ghost use Rattle.std.specs.Prelude.{◌≡◌, is_some, IfSome};
    ghost use Rattle.snap_service.specs.Storer.{Queued, came_by};

    ghost Value = { Queued };

    ghost view = { λ t. record { segment = t.segment; came = t.came; taken = t.taken } };

    ghost invariant = { λ t. (t.came ≡ came_by t.taken (is_some t.next))
        × IfSome t.next (λ job. job.segment ≡ t.segment) };
}

impl<R: Wait + Copy, M: Memory, D: Disk + Drop> Storer<R, M, D> {
    /// A storer with `writer`, which belongs to the memory `M`, and a handle to both, which is of the
    /// writer's segment. No update has arrived yet.
    pub fn new(
        rt: R,
        alloc: Global,
        writer: Writer<D>,
    ) -> Result<(Storer<R, M, D>, StorerHandle<M, D>), AllocError>
        requires memory { IsOf M.table M.plan writer.seat }
        requires asked { StoresAsked M.asked writer }
        ensures handle { IfOk result (λ made. made.1 ≡ own_of writer.seat) }
        ensures storer { IfOk result (λ made. IsNew (own_of writer.seat) made.0) }
    {
        let segment = writer.segment();
        let writer = HeapWriter::new(alloc, writer)?;
        let standing = Arc::try_clone(&writer.standing)?;
        let (sender, jobs) = unbounded(alloc)?;
        let writers = WriterSlot::new(&rt, alloc, writer)?;
        let handle = StorerHandle {
            segment,
            jobs: sender,
            standing,
            writers: writers.clone()?,
        };
        let storer = Storer {
            rt,
            segment,
            jobs,
            spin: Spin::new(),
            next: None,
            came: 0,
            taken: 0,
            writers,
        };
        Ok((storer, handle))
    }

    /// Receives an update: polls for a while if that pays, then sleeps. `None` if none will arrive, since all handles
    /// are dropped.
    fn receive(&mut self) -> Option<Job<M>>
        ensures { self.new ≡ self.old }
    {
        if self.spin.is_due() {
            for _ in 0..SPINS {
                match self.jobs.try_recv(&self.rt) {
                    Ok(job) => return Some(job),
                    Err(TryRecvError::Disconnected) => return None,
                    Err(TryRecvError::Empty) => thread::yield_now(),
                }
            }
            self.spin.rest();
        }
        self.jobs.recv(&self.rt).ok()
    }

    /// Waits until there is an update to take; `false` if there is none and all handles are dropped, or if one is of
    /// another segment: the handles send none.
    fn wait(&mut self) -> bool
        ensures one { result ≡ true → IsWaiting self.new }
        ensures rest { self.new ≡ record self.old { came = self.new.came } }
        ensures none { result ≡ false → self.new ≡ self.old }
    {
        if self.next.is_some() {
            return true;
        }
        let Some(job) = self.receive() else {
            return false;
        };
        if job.segment() != self.segment {
            return false;
        }
        self.next = Some(job);
        self.came = self.came.wrapping_add(1);
        true
    }

    /// Takes the waiting update.
    fn take(&mut self) -> Job<M>
        requires { IsWaiting self.old }
        ensures its { result.segment ≡ self.old.segment }
        ensures taken { self.new ≡ record self.old { taken = next_count self.old.taken } }
    {
        let Some(job) = self.next.take() else {
            unreachable!();
        };
        self.taken = self.taken.wrapping_add(1);
        job
    }

    /// Waits for an update and for the writer, does the update, and lends the writer with the outcome.
    ///
    /// `None` if all handles are dropped and no update is left; if the writer won't be put back; or
    /// if memory to lend it runs out. Then nothing was done, and an update that has arrived still waits.
    pub fn next(&mut self) -> Option<Completion<Outcome<R, M, D>>>
        ensures worker { IfSome result (λ t. t.worker ≡ t.outcome.job.worker) }
        ensures key { IfSome result (λ t. t.key ≡ t.outcome.job.key) }
        ensures stored { IfSome result (λ t. StoresOne D.Disk self.old t.outcome self.new) }
        ensures none { IfNone result (IsIdle self.old self.new) }
    {
        if !self.wait() {
            return None;
        }
        let home = self.writers.home.clone().ok()?;
        let writer = self.writers.take(&self.rt, self.segment)?;
        let job = self.take();
        let (worker, key) = job.receiver();
        let outcome = store_one(self.rt, home, writer, job);
        Some(Completion {
            worker,
            key,
            outcome,
        })
    }

    /// Returns the writer, once nobody has it; `None` if it won't be put back.
    pub fn into_writer(self) -> Option<Writer<D>>
        ensures own { IfSome result (λ w. own_of w.seat ≡ self.segment) }
        ensures memory { IfSome result (λ w. IsOf M.table M.plan w.seat) }
        ensures asked { IfSome result (λ w. StoresAsked M.asked w) }
    {
        Some(self.writers.take(&self.rt, self.segment)?.into_inner())
    }
}
