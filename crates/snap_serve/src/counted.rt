//! A listener that counts its connections.

use snap_server::{AcceptFault, Accepted, Listen};
use snap_service::Metrics;
use std::marker::Model;

/// A listener that counts the connections that it accepts, and otherwise behaves as the inner listener.
#[derive(Drop)]
pub(crate) struct CountedListener<'a, L: Drop> {
    listener: L,
    metrics: &'a Metrics,
}

impl<'a, L: Drop> Model for CountedListener<'a, L> {
    ghost Value = { L };

    ghost view = { λ c. c.listener };
}

impl<'a, L: Drop> CountedListener<'a, L> {
    ghost use Rattle.std.specs.Prelude.{◌≡◌};

    /// Wraps `listener`, and counts in `metrics`.
    pub(crate) fn new(listener: L, metrics: &'a Metrics) -> CountedListener<'a, L>
        ensures { result ≡ listener }
    {
        CountedListener { listener, metrics }
    }
}

impl<L: Listen + Drop> Listen for CountedListener<'_, L> {
    ghost accepts = { L.accepts };

    ghost may_serve = { L.may_serve };

    ghost refuses = { L.refuses };

    fn accept(&mut self) -> Result<Accepted, AcceptFault> {
        let accepted = self.listener.accept();
        if accepted.is_ok() {
            self.metrics.accept();
        }
        accepted
    }

    fn close(&self) {
        self.listener.close();
    }
}
