//! The observers of a running server.

use snap_server::RunFault;
use snap_service::{CountingObserver, NoUpdateObserver};
use snap_session::Service;
use std::rt::Clock;
use std::sync::Wait;

/// Observes a running server, on a thread and with a scanner of its own, so it blocks no worker.
pub trait Observer {
    /// Observes the server until it is stopped. `service` answers at once and stores nothing.
    fn look<X: Wait + Clock, S: Service + Drop>(&self, rt: &X, service: S);

    /// Stops the observer: a running `look` returns soon, and a later one returns at once.
    fn stop(&self);
}

/// The observer of a server without one.
#[derive(Drop)]
pub struct NoObserver;

impl Observer for NoObserver {
    fn look<X: Wait + Clock, S: Service + Drop>(&self, _rt: &X, _service: S) {}

    fn stop(&self) {}
}

/// Is notified of a server's start and end, on the server's own thread.
pub trait ServerObserver {
    /// Called when connections begin to be accepted. `listening` has the lines with the addresses,
    /// as they were printed.
    fn begun(&self, listening: &str);

    /// Called when the server has ended: after this number of served connections, or early for this
    /// reason. [`begun`](ServerObserver::begun) may not have been called before.
    fn ended(&self, served: Result<u64, &RunFault>);
}

impl ServerObserver for NoUpdateObserver {
    fn begun(&self, _listening: &str) {}

    fn ended(&self, _served: Result<u64, &RunFault>) {}
}

impl<H: ServerObserver + Copy + Drop> ServerObserver for CountingObserver<'_, H> {
    fn begun(&self, listening: &str) {
        self.failures.begun(listening);
    }

    fn ended(&self, served: Result<u64, &RunFault>) {
        self.failures.ended(served);
    }
}
