//! Background work on the requests that a service hands over.

/// The completion of a request that was handed over.
#[derive(Drop)]
pub struct Completion<O: Drop> {
    /// The index of the worker whose service handed it over.
    pub worker: usize,
    /// The key with which the request was handed over.
    pub key: usize,
    /// The outcome of the work.
    pub outcome: O,
}

/// Works on the requests that services hand over, in a thread of its own.
pub trait Background {
    /// The outcome of one request.
    type Outcome: Drop;

    /// Waits for a request and works on it. `None` if no more will arrive, since the services that
    /// handed requests over were dropped.
    fn next_done(&mut self) -> Option<Completion<Self::Outcome>>;
}
