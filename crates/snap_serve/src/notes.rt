//! A server's events, as lines of the log.

use log::{Log, debug, info, warn};
use snap_server::{CloseReason, Closed, ServerEvent};
use snap_session::End;

/// Logs an event of a server. Events by which connections can't be accepted are warnings. The close
/// of a connection is logged for debugging, except if memory ran out, which is a warning.
pub fn log_note<L: Log>(log: &L, note: &ServerEvent) {
    match *note {
        ServerEvent::Ended(Closed { peer, how }) => {
            let text = text_of(how);
            if how == CloseReason::Session(End::NoMemory) {
                warn!(log; target: "connection", "{peer} {text}");
            } else {
                debug!(log; target: "connection", "{peer} {text}");
            }
        }
        ServerEvent::Full { open } => warn!(log; target: "accept",
            "{open} connections are open, and there is no room for more: callers wait"
        ),
        ServerEvent::Room =>
            info!(log; target: "accept", "there is room again: connections are taken"),
        ServerEvent::Deaf => warn!(log; target: "accept",
            "the listener fails: no more connections are taken, and the server stops"
        ),
    }
}

/// The text for the reason of a close.
fn text_of(how: CloseReason) -> &'static str {
    match how {
        CloseReason::Session(End::Closed) => "closed",
        CloseReason::Session(End::Truncated) => "ended inside a request",
        CloseReason::Session(End::TooLarge) => "sent a frame above the limit",
        CloseReason::Session(End::ReadFailed) => "lost while it was read",
        CloseReason::Session(End::WriteFailed) => "lost while it was written",
        CloseReason::Session(End::NoMemory) => "closed for want of memory",
        CloseReason::Lost => "lost while an update was under way",
        CloseReason::Silent => "let go of: it said nothing for too long",
        CloseReason::Stopped => "let go of: the server stops",
    }
}
