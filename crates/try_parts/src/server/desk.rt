//! A service whose updates are handed over to two stores that store nothing.

use crossbeam_channel::{Receiver, Sender};
use snap_disk::Refusal;
use snap_frame::{Reply, Request};
use snap_session::{Background, Completion, Service};
use std::alloc::{AllocError, Global};
use std::rt::Clock;
use std::sync::Wait;
use std::thread;
use std::time::Duration;

/// An update that was handed over.
#[derive(Drop)]
pub(crate) struct Job {
    pub(crate) worker: usize,
    pub(crate) key: usize,
    pub(crate) number: u64,
}

/// Waits for a while with each update, and returns its number.
#[derive(Drop)]
pub(crate) struct Store<'a, R: Wait + Clock> {
    pub(crate) rt: &'a R,
    pub(crate) jobs: Receiver<Job>,
    pub(crate) delay: Duration,
}

impl<R: Wait + Clock> Background for Store<'_, R> {
    type Outcome = u64;

    fn next_done(&mut self) -> Option<Completion<u64>> {
        let Ok(job) = self.jobs.recv(self.rt) else {
            return None;
        };
        if !self.delay.is_zero() {
            thread::sleep(self.rt, self.delay);
        }
        Some(Completion {
            worker: job.worker,
            key: job.key,
            outcome: job.number,
        })
    }
}

/// Hands the updates of segments 0 and 1 over and answers them by their number. Answers those of other segments by a
/// refusal, and every other request at once by 0.
#[derive(Drop)]
pub(crate) struct Desk<'a, R: Wait> {
    pub(crate) rt: &'a R,
    pub(crate) worker: usize,
    pub(crate) first: Sender<Job>,
    pub(crate) second: Sender<Job>,
}

impl<R: Wait> Service for Desk<'_, R> {
    type Outcome = u64;

    ghost gives = { λ old request reply new. Unit {0} };

    ghost hands_over = { Unit {0} };

    fn answer(&mut self, request: &Request, key: usize) -> Option<Reply> {
        let Request::Update {
            segment,
            number,
            ..
        } = request
        else {
            return Some(Reply::Stored(0));
        };
        let store = match segment {
            0 => &self.first,
            1 => &self.second,
            _ => return Some(Reply::Refused {
                why: Refusal::NoSegment,
                detail: 2,
            }),
        };
        let job = Job {
            worker: self.worker,
            key,
            number: *number,
        };
        if store.send(self.rt, job).is_ok() {
            return None;
        }
        Some(Reply::Refused {
            why: Refusal::NoMemory,
            detail: 0,
        })
    }

    fn finish(&mut self, _request: &Request, outcome: u64) -> Reply {
        if outcome < 9_223_372_036_854_775_808 {
            Reply::Stored(outcome)
        } else {
            Reply::Refused {
                why: Refusal::Exhausted,
                detail: outcome,
            }
        }
    }
}

/// `workers` desks, and their two stores, which wait for `delay` with each update.
pub(crate) fn open<'a, R: Wait + Clock>(
    rt: &'a R,
    alloc: Global,
    workers: usize,
    delay: Duration,
) -> Result<(Vec<Desk<'a, R>>, Vec<Store<'a, R>>), AllocError> {
    let (first, first_jobs) = crossbeam_channel::unbounded(alloc)?;
    let (second, second_jobs) = crossbeam_channel::unbounded(alloc)?;
    let mut stores = Vec::new(alloc);
    for jobs in [first_jobs, second_jobs] {
        stores.push(Store { rt, jobs, delay })?;
    }
    let mut desks = Vec::new(alloc);
    for worker in 0..workers {
        let (first, second) = (first.clone()?, second.clone()?);
        desks.push(Desk {
            rt,
            worker,
            first,
            second,
        })?;
    }
    Ok((desks, stores))
}
