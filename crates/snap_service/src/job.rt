//! Jobs: updates that are sent to a storer.
ghost use Rattle.std.specs.Prelude.{◌≡◌, IfOk};
ghost use Rattle.snap_frame.specs.Limits.{IsShort};
ghost use Rattle.snap_service.specs.Job.{JobState, job_of, no_job};

use crate::memory::Memory;
use bytes::Bytes;
use std::alloc::AllocError;
use std::marker::{Brand, Model, PhantomData};

/// An update that the memory `M` was asked for, and the receiver of its outcome: the desk's worker, and the key of its
/// request. The value shares the bytes of the request, so none of them is copied.
///
/// A job out of a channel is known by its type alone, so the type says that it was asked for.
#[derive(Drop)]
pub struct Job<M: Memory> {
    worker: usize,
    key: usize,
    segment: usize,
    number: u64,
    value: Bytes,
    of: PhantomData<M>,
}

impl<M: Memory> Model for Job<M> {
    ghost use Rattle.snap_frame.specs.Limits.{IsShort};
    ghost use Rattle.snap_service.specs.Job.{JobState};

    ghost Value = { JobState };

    ghost view = { λ j. record {
      worker = j.worker;
      key = j.key;
      segment = j.segment;
      number = j.number;
      value = j.value;
    } };

    ghost invariant = { λ j. IsShort j.value × M.asked j.segment j.number j.value };
}

impl<M: Memory> Job<M> {
    /// A job for the request under `key` of this worker, which asks for this update.
    pub fn new(
        worker: usize,
        key: usize,
        segment: usize,
        number: u64,
        value: &Bytes,
    ) -> Result<Job<M>, AllocError>
        requires size { IsShort value.now }
        requires asked { M.asked segment number value.now }
        ensures { IfOk result (λ job. job ≡ job_of worker key segment number value.now) }
    {
        Ok(Job {
            worker,
            key,
            segment,
            number,
            value: value.clone()?,
            of: PhantomData,
        })
    }

    /// The worker and the key of the request.
    pub fn receiver(&self) -> (usize, usize)
        ensures { result ≡ (self.now.worker, self.now.key) }
    {
        (self.worker, self.key)
    }

    /// The segment that is updated.
    pub fn segment(&self) -> usize
        ensures { result ≡ self.now.segment }
    {
        self.segment
    }

    /// The number of the update.
    pub fn number(&self) -> u64
        ensures { result ≡ self.now.number }
    {
        self.number
    }

    /// The value of the update.
    pub fn value(&self) -> &[u8]
        ensures value { result.now ≡ self.now.value }
        ensures short { IsShort result.now }
        ensures asked { M.asked self.now.segment self.now.number self.now.value }
    {
        self.value.as_slice()
    }
}

/// A type that names one job, for proofs. It has no values: the proof of a call with `Brand` says which job it is.
pub(crate) trait Requested {
    ghost job: { JobState };
}

impl Requested for Brand {
    ghost job = { no_job };
}
