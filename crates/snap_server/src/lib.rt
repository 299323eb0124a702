//! The server's connections: accepts them, and serves any number of them on a few threads. Begin
//! with [`run`] (server.rt).
//!
//! [`run`] accepts connections on the calling thread and delivers them in turn to its *workers*, one thread for each
//! service. A worker (worker.rt) owns its service, its connections and one read buffer. It sleeps until the system
//! reports some of its connections, and polls the session of each of these (a *turn*); an idle connection costs no
//! thread and no buffer. Requests that a service hands over, such as updates that wait for a disk, are done by a
//! [`Background`](snap_session::Background) in a thread of its own.
#![tactic(auto)]

mod acceptor;
mod connection;
mod dispatcher;
mod fault;
mod gate;
mod input;
mod listen;
mod listeners;
mod mailbox;
mod server;
mod sessions;
mod stream;
mod tcp;
mod threads;
mod unix;
mod worker;

pub use connection::{CloseReason, Closed};
pub use fault::{RunFault, ServerEvent, ServerFault};
pub use gate::{Gate, NoGate, gate_laws};
pub use listen::{AcceptFault, Accepted, Endpoint, Listen, LocalAddress, Peer};
pub use listeners::Listeners;
pub use server::{Announce, Limits, NoAnnouncement, run};
pub use stream::Stream;
pub use tcp::Tcp;
pub use unix::{BindFault, UnixSocket};
