//! A hook that is called around each request.
ghost use Rattle.snap_server.specs.SharedService.{InnerLaw};

use snap_disk::Refusal;
use snap_frame::{Reply, Request};
use snap_session::Service;

/// A hook that a worker calls before and after each request, on the worker's thread.
pub trait Gate {
    /// Called before a request is answered. No lock is held.
    fn enter(&self);

    /// Called after a request was answered. Not called for a request that was handed over and whose
    /// outcome never arrives.
    fn leave(&self);
}

/// A hook that does nothing.
#[derive(Drop)]
pub struct NoGate;

impl Gate for NoGate {
    fn enter(&self) {}

    fn leave(&self) {}
}

/// A service with a hook around each request. Its replies are those of the inner service.
#[derive(Drop)]
pub struct Gated<'a, S: Drop, G> {
    pub service: S,
    pub gate: &'a G,
}

impl<S: Service + Drop, G: Gate> Service for Gated<'_, S, G> {
    type Outcome = S::Outcome;

    ghost asked = { S.asked };

    ghost memory = { S.memory };

    ghost gives = { λ old q r new. S.gives old.service q r new.service };

    ghost hands_over = { S.hands_over };

    ghost hands_over_under = { S.hands_over_under };

    ghost tells = { S.tells };

    fn answer(&mut self, request: &Request, key: usize) -> Option<Reply> {
        self.gate.enter();
        let reply = self.service.answer(request, key);
        if reply.is_some() {
            self.gate.leave();
        }
        reply
    }

    fn finish(&mut self, request: &Request, outcome: S::Outcome) -> Reply {
        let reply = self.service.finish(request, outcome);
        self.gate.leave();
        reply
    }

    fn let_wait(&self, may_wait: bool) {
        self.service.let_wait(may_wait);
    }

    fn refused(&self, why: Refusal) {
        self.service.refused(why);
    }
}

/// Each connection of a worker is a session on the service that was given to [`run`](crate::run): the hook around it
/// changes no answer.
pub fn gate_laws<S: Service + Drop, G: Gate>()
    ensures { InnerLaw (λ gated. gated.service) ⟦<Gated<'static, S, G> as Service>⟧.gives S.gives }
{}
