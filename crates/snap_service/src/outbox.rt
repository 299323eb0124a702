//! The outbox: a worker's side of the writers and of the channels to the storers.
ghost use Rattle.std.specs.Prelude.{◌≡◌, ◌<◌, length, IfOk, IfSome, IfNone};
ghost use Rattle.snap_frame.specs.{Limits.IsShort, Messages.IsInLimits};
ghost use Rattle.snap_memory.specs.Seat.{Meets};
ghost use Rattle.snap_service.specs.{Memory.IsOf, Settled.IsSettledAt};
ghost use Rattle.snap_service.specs.{Handover.HasHanded, Job.job_of};

use crate::job::{Job, Requested};
use crate::memory::Memory;
use crate::writer_slot::WriterSlot;
use bytes::Bytes;
use crossbeam_channel::{SendError, Sender};
use snap_disk::{Disk, Refusal};
use snap_frame::Reply;
use snap_memory::Scanner;
use std::alloc::{AllocError, Global};
use std::marker::{Model, PhantomData};
use std::rt::Clock;
use std::sync::atomic::AtomicU64;
use std::sync::{Arc, Wait};
use std::thread;
use std::time::Duration;

/// The pause before a send is tried again after memory ran out, in milliseconds.
const REST: u64 = 5;

/// The number of tries to send an update if memory runs out: a tenth of a second in all. A worker
/// that waited longer couldn't close connections meanwhile, which may be what frees memory.
const TRIES: u32 = 20;

/// Proof that the job `J` was sent. Only [`StorerHandle::send`] makes it, from the job that it sends.
#[derive(Drop)]
pub(crate) struct Sent<J: Requested> {
    of: PhantomData<J>,
}

/// A handle to one segment's writer and its storer: takes the writer, sends the storer jobs, and reads the last
/// published status.
///
/// Models the segment's index. The storer runs until every handle is dropped.
#[derive(Drop)]
pub struct StorerHandle<M: Memory, D: Disk + Drop> {
    pub(crate) segment: usize,
    pub(crate) jobs: Sender<Job<M>>,
    /// The writer's published status in one word, as [`status_in`](crate::heap_writer::status_in) reads it.
    pub(crate) standing: Arc<AtomicU64, Global>,
    pub(crate) writers: WriterSlot<M, D>,
}

impl<M: Memory, D: Disk + Drop> Model for StorerHandle<M, D> {
    ghost use Rattle.std.specs.Prelude.{ℕ};

    ghost Value = { ℕ };

    ghost view = { λ w. w.segment };
}

impl<M: Memory, D: Disk + Drop> StorerHandle<M, D> {
    /// Sends `job`, an update of `segment`, to the storer. After the error that memory ran out it wasn't sent; nor if
    /// the result is `None`: the handle is another segment's, or the storer has ended.
    fn send<R: Wait, J: Requested>(
        &self,
        rt: &R,
        segment: usize,
        job: Job<M>,
    ) -> Result<Option<Sent<J>>, AllocError>
        requires { job ≡ J.job }
        ensures { IfOk result (λ sent. IfSome sent (λ _. self.now ≡ segment)) }
    {
        if self.segment != segment {
            return Ok(None);
        }
        match self.jobs.send(rt, job) {
            Ok(()) => Ok(Some(Sent { of: PhantomData })),
            Err(SendError::OutOfMemory(_)) => Err(AllocError),
            Err(SendError::Disconnected(_)) => Ok(None),
        }
    }
}

/// Lends the word of the status that was published last.
impl<M: Memory, D: Disk + Drop> AsRef<AtomicU64> for StorerHandle<M, D> {
    fn as_ref(&self) -> &AtomicU64 {
        self.standing.as_ref()
    }
}

impl<M: Memory, D: Disk + Drop> Clone for StorerHandle<M, D> {
    ghost use Rattle.std.specs.Prelude.{◌≡◌};

    ghost is_clone = { λ handle copy. copy ≡ handle };

    fn clone(&self) -> Result<StorerHandle<M, D>, AllocError> {
        Ok(StorerHandle {
            segment: self.segment,
            jobs: self.jobs.clone()?,
            standing: Arc::try_clone(&self.standing)?,
            writers: self.writers.clone()?,
        })
    }
}

/// Is notified of the result of each update, on the thread that stored it: while this is so, no other thread stores for
/// the segment.
pub trait UpdateObserver {
    /// Called when an update to `number` got this result: the segment's number if it has the value, or a refusal. After
    /// [`DeviceFailed`](Refusal::DeviceFailed) the segment takes no further update until a restart.
    fn told(&self, segment: usize, number: u64, told: Result<u64, Refusal>);
}

/// Ignores all notifications.
#[derive(Clone, Copy, Drop)]
pub struct NoUpdateObserver;

impl UpdateObserver for NoUpdateObserver {
    fn told(&self, _segment: usize, _number: u64, _told: Result<u64, Refusal>) {}
}

/// Stores a worker's updates, or sends them to the storers, by one handle for each segment.
///
/// Models the worker, the handles' segments, and the number of updates that were sent, modulo 2^64.
#[derive(Drop)]
pub(crate) struct Outbox<R: Wait + Copy, M: Memory, D: Disk + Drop> {
    pub(crate) rt: R,
    pub(crate) worker: usize,
    pub(crate) handles: Vec<StorerHandle<M, D>>,
    pub(crate) sent: u64,
}

impl<R: Wait + Copy, M: Memory, D: Disk + Drop> Model for Outbox<R, M, D> {
    ghost use Rattle.snap_service.specs.Handover.{Handing};

    ghost Value = { Handing };

    ghost view = { λ o. record { worker = o.worker; handles = o.handles.items; sent = o.sent } };
}

impl<R: Wait + Copy + Clock, M: Memory, D: Disk + Drop> Outbox<R, M, D> {
    /// Stores an update on this thread, publishes the writer's status, puts the writer back, and replies. `None` if
    /// another has the writer; then nothing was done.
    ///
    /// The scanner meets the writer, so that the reply fits what the scanner has seen. No look is taken.
    pub(crate) fn store<H: UpdateObserver>(
        &self,
        scanner: &mut Scanner,
        watch: &H,
        segment: usize,
        number: u64,
        value: &[u8],
    ) -> Option<Reply>
        requires memory { IsOf M.table M.plan scanner.old }
        requires asked { M.asked segment number value.now }
        requires segment { segment < length self.now.handles }
        requires size { IsShort value.now }
        ensures settled { IfSome result (λ r. IsSettledAt scanner.new segment number value.now r) }
        ensures limits { IfSome result (λ r. IsInLimits r) }
        ensures scanner { IfSome result (λ _. Meets scanner.old scanner.new) }
        ensures later { IfNone result (scanner.new ≡ scanner.old) }
    {
        let handle = &self.handles[segment];
        let mut writer = handle.writers.try_take(&self.rt, segment)?;
        let told = writer.update(number, value);
        watch.told(segment, number, told);
        let reply = writer.reply_told(told, scanner);
        let _ = handle.writers.home.send(&self.rt, writer);
        Some(reply)
    }

    /// Sends an update to its storer, once. `None` if the storer has ended, or if memory runs out
    /// for a tenth of a second; then nothing was sent.
    pub(crate) fn hand_over<J: Requested>(
        &mut self,
        segment: usize,
        number: u64,
        value: &Bytes,
        key: usize,
    ) -> Option<Sent<J>>
        requires job { J.job ≡ job_of self.old.worker key segment number value.now }
        requires asked { M.asked segment number value.now }
        requires segment { segment < length self.old.handles }
        requires size { IsShort value.now }
        ensures handed { IfSome result (λ _. HasHanded self.old segment self.new) }
        ensures unsent { IfNone result (self.new ≡ self.old) }
    {
        for _ in 0..TRIES {
            let handed = match Job::new(self.worker, key, segment, number, value) {
                Ok(job) => self.handles[segment].send(&self.rt, segment, job),
                Err(AllocError) => Err(AllocError),
            };
            match handed {
                Ok(Some(handed)) => {
                    self.sent = self.sent.wrapping_add(1);
                    return Some(handed);
                }
                Ok(None) => return None,
                Err(AllocError) => thread::sleep(&self.rt, Duration::from_millis(REST)),
            }
        }
        None
    }
}
