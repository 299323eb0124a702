//! Events of a running server, and why it stopped.

use crate::connection::Closed;
use std::io;
use thiserror::Error;

/// An event for the operator's log.
#[derive(Clone, Copy, Drop)]
pub enum ServerEvent {
    /// A connection was closed.
    Ended(Closed),
    /// No further connection is accepted for now: the limit is reached, or the system has no
    /// descriptor or memory for a socket. `open` connections are open, and clients wait.
    Full { open: usize },
    /// Connections are accepted again.
    Room,
    /// The listener has failed so often that no more connections are accepted.
    Deaf,
}

/// Why [`run`](crate::run) stopped serving. `Display` gives the message for the operator.
#[derive(Clone, Copy, Debug, PartialEq, Eq, Error)]
pub enum ServerFault {
    /// The listener failed 16 times in a row.
    #[error("16 connections in a row couldn't be accepted")]
    AcceptFailed,
    /// A worker's wait for events failed.
    #[error("the system refused to watch the connections of a worker")]
    PollFailed,
    /// The system refused a worker its event queue or its waker.
    #[error("the system refused to watch the connections of a worker")]
    NoPoll,
    /// The system refused a thread.
    #[error("the system refused a thread: allow more of them, or give --scanners a smaller number")]
    NoThread,
    /// Memory ran out.
    #[error("no memory for the server")]
    NoMemory,
}

/// Why [`run`](crate::run) ended early.
#[derive(Drop)]
pub enum RunFault {
    /// The server couldn't start, or stopped serving.
    Server(ServerFault),
    /// The announcement failed, for this reason, and no connection was accepted.
    Announcement(io::Error),
}
