//! Listeners with their addresses, and the connections that they accept.
ghost use Rattle.std.specs.Prelude.{◌≡◌, ℕ, IfErr, List, Result, Some};
ghost use Rattle.snap_server.specs.Endpoints.{endpoint_text, peer_text};
ghost use Rattle.snap_server.specs.declared.listen.{Accepted.Accepted, AcceptFault.AcceptFault, Endpoint.Endpoint};

use crate::stream::Stream;
use std::net::SocketAddr;
use std::{fmt, io};

/// The address of a listener. `Display` gives the text that clients connect to.
#[derive(Drop)]
pub enum Endpoint {
    /// A TCP address with its port.
    Tcp(SocketAddr),
    /// The path of a Unix socket, as it was given.
    Unix(String),
}

impl fmt::Display for Endpoint {
    ghost output = { λ endpoint. Some (endpoint_text endpoint) };

    fn fmt<W: fmt::Write>(&self, f: &mut fmt::Formatter<W>) -> fmt::Result {
        match self {
            Endpoint::Tcp(address) => write!(f, "{address}"),
            Endpoint::Unix(path) => write!(f, "unix:{path}"),
        }
    }
}

/// The address of a connection's peer.
#[derive(Clone, Copy, Drop)]
pub enum Peer {
    /// The address of a TCP peer.
    Tcp(SocketAddr),
    /// A process on this machine, connected by a Unix socket. It has no address.
    Unix,
}

impl fmt::Display for Peer {
    ghost output = { λ peer. Some (peer_text peer) };

    fn fmt<W: fmt::Write>(&self, f: &mut fmt::Formatter<W>) -> fmt::Result {
        match self {
            Peer::Tcp(address) => write!(f, "{address}"),
            Peer::Unix => f.write_str("unix"),
        }
    }
}

/// A connection that was accepted: its socket and its peer.
#[derive(Drop)]
pub struct Accepted {
    /// The socket. A read or write that would block returns `WouldBlock`.
    pub stream: Stream,
    /// The peer's address.
    pub peer: Peer,
}

/// Why no connection was accepted.
#[derive(Clone, Copy, Drop)]
pub enum AcceptFault {
    /// The system has no descriptor, or no memory, for one more socket. The client waits in the
    /// system's queue; the listener itself works.
    NoRoom,
    /// One client closed before it was accepted.
    Gone,
    /// The listener has failed.
    Failed,
}

/// Accepts connections, one after another.
pub trait Listen {
    /// The possible results of [`accept`](Listen::accept), with the listener after it.
    ghost accepts: { Self → Result Accepted AcceptFault → Self → Type 0 } = { λ _ _ _. Unit {0} };

    /// Whether its connections may be answered from the memory with this number. Code over any listener can't say so
    /// of a memory by itself.
    ghost may_serve: { ℕ → Type 0 } = { λ _. Unit {0} };

    /// Whether [`accept`](Listen::accept) may fail.
    ghost refuses: { Self → Type 0 };

    /// Waits for the next connection. After an error it may be called again.
    fn accept(&mut self) -> Result<Accepted, AcceptFault>
        ensures accepts { accepts self.old result self.new }
        ensures refuses { IfErr result (λ why. why ≡ AcceptFault.Failed → Self.refuses self.old) }

        // A call doesn't turn a listener that never fails into one that may.
        ensures same { Self.refuses self.new → Self.refuses self.old };

    /// Closes the listener: clients that connect later are refused at once.
    fn close(&self);
}

/// The addresses at which a listener accepts connections.
pub trait LocalAddress {
    /// The listener has these addresses, in order.
    ghost is_at: { Self → List Endpoint → Type 0 };

    /// Returns the addresses at which it accepts connections, in order.
    fn endpoints(&self) -> &[Endpoint]
        ensures told { is_at self.now result.now };
}

/// The system's errors if it has no descriptor or no memory for a socket: Linux's ENFILE, EMFILE, ENOMEM and ENOBUFS.
const NO_ROOM: [i32; 4] = [23, 24, 12, 105];

/// The system's errors that concern one client alone: a filter that refuses it, a signal, and
/// faults of its network. Linux's EPERM, EINTR, ENONET, EPROTO, ENOPROTOOPT, EOPNOTSUPP, ENETDOWN,
/// ENETUNREACH, ECONNABORTED, EHOSTDOWN and EHOSTUNREACH.
const GONE: [i32; 11] = [1, 4, 64, 71, 92, 95, 100, 101, 103, 112, 113];

/// Maps an error of the system's accept to the fault that the listener returns.
pub(crate) fn why_not(error: &io::Error) -> AcceptFault {
    match error.raw_os_error() {
        Some(code) if NO_ROOM.contains(&code) => AcceptFault::NoRoom,
        Some(code) if GONE.contains(&code) => AcceptFault::Gone,
        _ => AcceptFault::Failed,
    }
}
