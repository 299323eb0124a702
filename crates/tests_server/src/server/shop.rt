//! A service whose updates are handed over to a store that stores nothing.

use super::course::{Course, Stand};
use crossbeam_channel::{Receiver, Sender};
use snap_disk::Refusal;
use snap_frame::{Reply, Request};
use snap_session::{Background, Completion, Service};
use std::sync::Wait;

/// An update that was handed over.
#[derive(Drop)]
pub(crate) struct Job {
    worker: usize,
    key: usize,
    number: u64,
}

/// Completes every update at once with its number.
#[derive(Drop)]
pub(crate) struct Store<'a, R: Wait> {
    pub(crate) rt: &'a R,
    pub(crate) jobs: Receiver<Job>,
}

impl<R: Wait> Background for Store<'_, R> {
    type Outcome = u64;

    fn next_done(&mut self) -> Option<Completion<u64>> {
        let Ok(job) = self.jobs.recv(self.rt) else {
            return None;
        };
        Some(Completion {
            worker: job.worker,
            key: job.key,
            outcome: job.number,
        })
    }
}

/// Hands updates over and answers them by their number, and all others at once by 0.
#[derive(Drop)]
pub(crate) struct Shop<'a, R: Wait> {
    pub(crate) rt: &'a R,
    pub(crate) worker: usize,
    pub(crate) to: Sender<Job>,
    pub(crate) course: &'a Course,
}

impl<R: Wait> Service for Shop<'_, R> {
    type Outcome = u64;

    ghost gives = { λ old request reply new. Unit {0} };

    ghost hands_over = { Unit {0} };

    fn answer(&mut self, request: &Request, key: usize) -> Option<Reply> {
        let Request::Update { number, .. } = request else {
            self.course.step(Stand::Entered, Stand::Answered);
            return Some(Reply::Stored(0));
        };
        self.course.step(Stand::Entered, Stand::HandedOver);
        let job = Job {
            worker: self.worker,
            key,
            number: *number,
        };
        if self.to.send(self.rt, job).is_ok() {
            return None;
        }
        Some(Reply::Refused {
            why: Refusal::NoMemory,
            detail: 0,
        })
    }

    fn finish(&mut self, _request: &Request, outcome: u64) -> Reply {
        self.course.step(Stand::HandedOver, Stand::Answered);
        if outcome < 9_223_372_036_854_775_808 {
            Reply::Stored(outcome)
        } else {
            Reply::Refused {
                why: Refusal::Exhausted,
                detail: outcome,
            }
        }
    }
}
