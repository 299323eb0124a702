//! A service that counts its answers, and an observer that counts updates.
ghost use Rattle.std.specs.Prelude.{◌≡◌, ◌-◌, ℕ, IfSome, IfNone};
ghost use Rattle.snap_frame.specs.Messages.{IsAskable, IsInLimits};
ghost use Rattle.snap_session.specs.Asked.{WasAsked};
ghost use Rattle.snap_service.specs.metrics.{Tallies.nothing, Tallies.counted, Answered.looks_for};

use crate::metrics::Metrics;
use crate::metrics::worker::{RequestCounts, WorkerMetrics};
use crate::outbox::UpdateObserver;
use snap_disk::Refusal;
use snap_frame::{Reply, Request};
use snap_session::Service;
use std::marker::Model;

/// A service with a limited number of looks at registers.
pub trait Looking {
    /// The number of looks that it may still take.
    ghost looks: { Self → ℕ };

    /// Returns the number of looks that it may still take.
    fn looks_left(&self) -> u64
        ensures { result ≡ looks self.now };
}

/// A service that counts its answers and publishes the counts. Its replies are those of the inner service.
///
/// Models the inner service and the counts. Each request is counted once, as it is answered, with its reply, and a scan
/// with its looks; one that was handed over, as it is finished. No number falls.
#[derive(Drop)]
pub struct CountingService<'a, S: Drop> {
    service: S,
    tally: RequestCounts,
    metrics: &'a WorkerMetrics,
}

impl<'a, S: Drop> Model for CountingService<'a, S> {
    ghost use Rattle.snap_service.specs.metrics.Answered.{CountedState};

    ghost Value = { CountedState S };

    ghost view = { λ c. record { service = c.service; tally = c.tally } };
}

impl<'a, S: Drop> CountingService<'a, S> {
    /// Wraps `service`, with no request answered yet. The counts are published in `metrics`, which nothing else writes.
    pub fn new(service: S, metrics: &'a WorkerMetrics) -> CountingService<'a, S>
        ensures { result ≡ record { service = service; tally = nothing } }
    {
        CountingService {
            service,
            tally: RequestCounts::new(),
            metrics,
        }
    }
}

impl<S: Service + Looking + Drop> CountingService<'_, S> {
    /// The number of looks that are left, if this request is a scan, whose looks are counted; else 0.
    fn looks_for(&self, request: &Request) -> u64
        ensures { result ≡ looks_for request.now (S.looks self.now.service) }
    {
        match request {
            Request::Scan | Request::Part(_) => self.service.looks_left(),
            Request::Update { .. } | Request::Status => 0,
        }
    }

    /// Counts a request that the service answered. `looks_before` is what [`CountingService::looks_for`] gave before.
    fn count(&mut self, request: &Request, reply: &Reply, looks_before: u64)
        requires limits { IsInLimits reply.now }
        ensures service { self.new.service ≡ self.old.service }
        ensures tally { self.new.tally ≡ counted self.old.tally request.now reply.now
            (looks_before - looks_for request.now (S.looks self.old.service)) }
    {
        let looks = looks_before.saturating_sub(self.looks_for(request));
        let before = self.tally;
        self.tally.count(request, reply, looks);
        self.metrics.follow(&before, &self.tally);
    }
}

impl<S: Service + Looking + Drop> Service for CountingService<'_, S> {
    ghost use Rattle.snap_service.specs.metrics.Answered.{HasAnswered};

    type Outcome = S::Outcome;

    ghost asked = { S.asked };

    ghost memory = { S.memory };

    ghost gives = { λ old q r new. S.gives old.service q r new.service };

    ghost hands_over = { S.hands_over };

    ghost hands_over_under = { S.hands_over_under };

    ghost tells = { S.tells };

    fn answer(&mut self, request: &Request, key: usize) -> Option<Reply>
        requires askable { IsAskable request.now }
        requires asked { WasAsked S.asked request.now }
        ensures gives { IfSome result (λ r. S.gives self.old.service request.now r self.new.service) }
        ensures limits { IfSome result (λ r. IsInLimits r) }
        ensures later { IfNone result (self.new ≡ self.old) }
        ensures may { IfNone result S.hands_over }
        ensures under { IfNone result (S.hands_over_under key) }
        ensures counts { IfSome result (λ r. HasAnswered S.looks S.gives self.old request.now r self.new) }
    {
        let looks = self.looks_for(request);
        let reply = self.service.answer(request, key)?;
        self.count(request, &reply, looks);
        Some(reply)
    }

    fn finish(&mut self, request: &Request, outcome: S::Outcome) -> Reply
        requires askable { IsAskable request.now }
        ensures gives { S.gives self.old.service request.now result self.new.service }
        ensures limits { IsInLimits result }
        ensures tells { S.tells outcome request.now result }
        ensures counts { HasAnswered S.looks S.gives self.old request.now result self.new }
    {
        let looks = self.looks_for(request);
        let reply = self.service.finish(request, outcome);
        self.count(request, &reply, looks);
        reply
    }

    fn let_wait(&self, may_wait: bool) {
        self.service.let_wait(may_wait);
    }

    fn refused(&self, why: Refusal) {
        self.metrics.refuse(why);
    }
}

/// Is notified of each update whose store failed, on the thread that stored it.
pub trait FailureObserver {
    /// Called when the store of an update to `number` failed: the segment takes no further update until a restart.
    fn store_failed(&self, segment: usize, number: u64);
}

/// Counts each update in its segment's metrics, and notifies `failures` of those whose store failed.
#[derive(Clone, Copy, Drop)]
pub struct CountingObserver<'a, H: Copy + Drop> {
    pub metrics: &'a Metrics,
    pub failures: H,
}

impl<H: FailureObserver + Copy + Drop> UpdateObserver for CountingObserver<'_, H> {
    fn told(&self, segment: usize, number: u64, told: Result<u64, Refusal>) {
        let metrics = self.metrics;
        if let Some(metrics) = metrics.segments.get(segment) {
            metrics.settle(told);
        }
        if told == Err(Refusal::DeviceFailed) {
            self.failures.store_failed(segment, number);
        }
    }
}
