//! Services, which answer requests at once or later.
ghost use Rattle.std.specs.Prelude.{◌≡◌, ℕ, List, IfSome, IfNone};
ghost use Rattle.snap_frame.specs.Messages.{IsAskable, IsInLimits};
ghost use Rattle.snap_frame.specs.declared.{request.Request.Request, reply.Reply.Reply};
ghost use Rattle.snap_session.specs.Asked.{WasAsked};

use snap_disk::Refusal;
use snap_frame::{Reply, Request};

/// Answers requests, one at a time. It may hand a request over to a background thread, and answer
/// it once its outcome has arrived.
pub trait Service {
    /// The outcome of a request that was handed over.
    type Outcome;

    /// Which updates were asked for: a segment, a number and a value. Nothing else makes such a fact, so a service that
    /// hands on no update without it stores nothing that nobody asked for.
    ghost asked: { ℕ → ℕ → List ℕ → Type 0 } = { λ _ _ _. Unit {0} };

    /// The number of the memory from which it answers.
    ghost memory: { ℕ } = { 0 };

    /// The replies that it may give: in the old state the request may get this reply and leave the new state.
    ghost gives: { Self → Request → Reply → Self → Type 0 };

    /// Whether it may hand a request over.
    ghost hands_over: { Type 0 };

    /// The keys with which it may hand a request over.
    ghost hands_over_under: { ℕ → Type 0 } = { λ _. Unit {0} };

    /// Whether a reply fits the outcome of the request that was handed over.
    ghost tells: { Self.Outcome → Request → Reply → Type 0 } = { λ _ _ _. Unit {0} };

    /// Answers a request, or returns `None` if it was handed over. Then the service is unchanged,
    /// and [`finish`](Service::finish) answers the request once its outcome has arrived.
    ///
    /// `key` is the connection's key. A scan of some segments names at least one.
    fn answer(&mut self, request: &Request, key: usize) -> Option<Reply>
        requires askable { IsAskable request.now }
        requires asked { WasAsked Self.asked request.now }
        ensures gives { IfSome result (λ r. Self.gives self.old request.now r self.new) }
        ensures limits { IfSome result (λ r. IsInLimits r) }
        ensures later { IfNone result (self.new ≡ self.old) }
        ensures may { IfNone result Self.hands_over }
        ensures under { IfNone result (Self.hands_over_under key) };

    /// Answers a request that was handed over, by its outcome. A scan of some segments names at least one.
    fn finish(&mut self, request: &Request, outcome: Self::Outcome) -> Reply
        requires askable { IsAskable request.now }
        ensures gives { Self.gives self.old request.now result self.new }
        ensures limits { IsInLimits result }
        ensures tells { Self.tells outcome request.now result };

    /// Called before a round of turns, if it has changed: whether a request may take long, since nobody else waits for
    /// this service. None may at first.
    fn let_wait(&self, _may_wait: bool) {}

    /// Called when a session refused a frame without the service: it was no request, or too large.
    fn refused(&self, _why: Refusal) {}
}
