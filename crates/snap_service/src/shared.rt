//! The writers that all nodes share, each under a lock of its own.
ghost use Rattle.std.specs.Prelude.{◌≡◌, ◌<◌, length, All, IfOk, IfErr};
ghost use Rattle.snap_history.specs.Limits.{IsShort};
ghost use Rattle.snap_memory.specs.Rule.{segments};
ghost use Rattle.snap_frame.specs.Messages.{IsInLimits, IsStatus};
ghost use Rattle.snap_service.specs.Memory.{IsOf, AreWriters};
ghost use Rattle.snap_service.specs.{Answers.AnswersUpdate, Counted.CountsOne, Counted.LooksOnce, Counted.next_count};

use crate::locked_writer::{LockToken, LockedWriter};
use crate::memory::Memory;
use snap_disk::Disk;
use snap_frame::{Reply, SegmentStatus};
use snap_writer::Writer;
use std::alloc::{AllocError, Global};
use std::sync::{Mutex, Wait};

/// A writer under its lock, which is held for one update or one status. Taking it counts the call, so that a contract
/// can say that none was taken.
#[derive(Drop)]
pub(crate) struct WriterLock<M: Memory, D: Disk + Drop> {
    held: Mutex<LockedWriter<M, D>>,
}

impl<M: Memory, D: Disk + Drop> WriterLock<M, D> {
    /// Puts a writer under a lock.
    pub(crate) fn of(writer: LockedWriter<M, D>) -> WriterLock<M, D> {
        WriterLock {
            held: Mutex::new(writer),
        }
    }

    /// Reads the segment's number, and whether it is fenced, under the lock.
    pub(crate) fn status<R: Wait>(&self, rt: &R, token: &mut LockToken) -> SegmentStatus
        ensures limits { IsStatus result }
        ensures counts { token.new ≡ record token.old { locks = next_count token.old.locks } }
    {
        token.count_lock();
        self.held.lock(rt).status()
    }

    /// Updates this segment under the lock, as [`LockedWriter::update`] does.
    pub(crate) fn update<R: Wait>(
        &self,
        rt: &R,
        token: &mut LockToken,
        segment: usize,
        number: u64,
        value: &[u8],
    ) -> Reply
        requires memory { IsOf M.table M.plan token.old.scanner }
        requires segment { segment < segments token.old.scanner.plan }
        requires size { IsShort value.now }
        ensures answer { AnswersUpdate token.old.scanner segment number value.now result token.new.scanner }
        ensures looks { LooksOnce token.old.scanner token.new.scanner }
        ensures limits { IsInLimits result }
        ensures locks { token.new.locks ≡ next_count token.old.locks }
        ensures updates { token.new.updates ≡ next_count token.old.updates }
    {
        token.count_lock();
        self.held.lock(rt).update(token, segment, number, value)
    }
}

/// The writers of all segments of the memory `M`, in order, each under a lock of its own.
#[derive(Drop)]
pub struct Shared<M: Memory, D: Disk + Drop> {
    writers: Vec<WriterLock<M, D>>,
    ghost all: { length writers.items ≡ segments M.plan },
}

impl<M: Memory, D: Disk + Drop> Shared<M, D> {
    /// Puts the writer of each segment under a lock. If memory runs out, the error returns the writers, unchanged.
    pub fn new(alloc: Global, writers: Vec<Writer<D>>) -> Result<Shared<M, D>, Vec<Writer<D>>>
        requires { AreWriters M.table M.plan writers.items }
        ensures { IfErr result (λ back. back.items ≡ writers.items) }
    {
        let Ok(mut locks) = Vec::with_capacity(alloc, writers.len()) else {
            return Err(writers);
        };
        'writers: for writer in writers {
            let segment = locks.len();
            match locks.push(WriterLock::of(LockedWriter::new(writer, segment))) {
                Ok(()) => {}
                Err(_) => unreachable!(),
            }
        }
        Ok(Shared { writers: locks })
    }

    /// Updates this segment by its writer, under its lock.
    pub(crate) fn update<R: Wait>(
        &self,
        rt: &R,
        token: &mut LockToken,
        segment: usize,
        number: u64,
        value: &[u8],
    ) -> Reply
        requires memory { IsOf M.table M.plan token.old.scanner }
        requires segment { segment < segments M.plan }
        requires size { IsShort value.now }
        ensures answer { AnswersUpdate token.old.scanner segment number value.now result token.new.scanner }
        ensures limits { IsInLimits result }
        ensures counts { CountsOne token.old token.new }
    {
        self.writers[segment].update(rt, token, segment, number, value)
    }

    /// Reads the number and the fence of each segment, each under its lock.
    pub(crate) fn list_statuses<R: Wait>(
        &self,
        rt: &R,
        alloc: Global,
        token: &mut LockToken,
    ) -> Result<Vec<SegmentStatus>, AllocError>
        ensures count { IfOk result (λ s. length s.items ≡ segments M.plan) }
        ensures limits { IfOk result (λ s. All IsStatus s.items) }
        ensures scanner { token.new.scanner ≡ token.old.scanner }
        ensures updates { token.new.updates ≡ token.old.updates }
    {
        let mut statuses = Vec::new(alloc);
        for lock in &self.writers {
            statuses.push(lock.status(rt, token))?;
        }
        Ok(statuses)
    }
}
