//! Why a client returns no reply.
ghost use Rattle.std.specs.Prelude.{◌↔◌, IsTrue};
ghost use Rattle.snap_client.specs.Again.{MayPass};

use thiserror::Error;

/// Why a client returns no reply. `Display` gives the message for the user.
///
/// After [`ReadFailed`](ClientFault::ReadFailed), [`Ended`](ClientFault::Ended),
/// [`BadReply`](ClientFault::BadReply) and [`NoMemory`](ClientFault::NoMemory) the server may have
/// done the request. An update may be sent again under its number: it is stored once.
#[derive(Clone, Copy, Debug, PartialEq, Eq, Error)]
pub enum ClientFault {
    /// No connection was made, so nothing was sent. Only [`call_again`](crate::call_again) and
    /// [`call_while`](crate::call_while) return it.
    #[error("no connection to the server could be made")]
    ConnectFailed,
    /// A read failed before a whole reply had arrived.
    #[error("reading the reply failed: whether the request was done isn't known")]
    ReadFailed,
    /// A write failed, or took no byte: the request wasn't sent whole, so it wasn't done.
    #[error("the request couldn't be sent whole")]
    WriteFailed,
    /// The connection ended before a whole reply had arrived.
    #[error("the connection ended before the reply: whether the request was done isn't known")]
    Ended,
    /// The bytes that arrived aren't an answer to the request.
    #[error("what came isn't an answer to the request: is a snapd at the other end?")]
    BadReply,
    /// Memory ran out.
    #[error("no memory for the request or its reply")]
    NoMemory,
}

impl ClientFault {
    /// Whether the request may succeed on another connection: not after
    /// [`BadReply`](ClientFault::BadReply) and [`NoMemory`](ClientFault::NoMemory).
    pub fn may_pass(self) -> bool
        ensures { IsTrue result ↔ MayPass self }
    {
        !matches!(self, ClientFault::BadReply | ClientFault::NoMemory)
    }
}
