//! A TCP listener.
ghost use Rattle.libc.specs.Net.{SockOption};

use crate::listen::{AcceptFault, Accepted, Listen, Peer, why_not};
use crate::stream::Stream;
use libc::net::{
    self, IPPROTO_TCP, SO_KEEPALIVE, SOL_SOCKET, TCP_KEEPCNT, TCP_KEEPIDLE, TCP_KEEPINTVL,
};
use mio::net::TcpStream;
use std::io::{self, ErrorKind};
use std::net::{Net, SocketAddr, TcpListener};
use std::os::fd::{AsRawFd, RawFd};

/// Accepts TCP connections. Small writes aren't delayed (`TCP_NODELAY`), and keepalive finds a lost
/// peer within two minutes of silence.
#[derive(Drop)]
pub struct Tcp {
    pub(crate) listener: TcpListener,
}

impl Tcp {
    /// Listens at an address, with the longest queue of connections that the system allows. An error is the system's.
    ///
    /// At port 0 the system picks a port, which [`address`](Tcp::address) returns.
    pub fn bind(net: &impl Net, address: SocketAddr) -> io::Result<Tcp> {
        let listener = TcpListener::from(mio::net::TcpListener::bind(net, address)?);
        listener.set_nonblocking(false)?;
        ask_silent_peers(&listener);
        Ok(Tcp { listener })
    }

    /// The address at which it listens, as the system returns it.
    pub fn address(&self) -> io::Result<SocketAddr> {
        self.listener.local_addr()
    }

    /// Accepts the next connection; `None` if the listener doesn't block and no connection waits.
    pub(crate) fn take(&self) -> Result<Option<Accepted>, AcceptFault> {
        let (stream, peer) = match self.listener.accept() {
            Ok(accepted) => accepted,
            Err(error) if error.kind() == ErrorKind::WouldBlock => return Ok(None),
            Err(error) => return Err(why_not(&error)),
        };
        // These calls fail if the client has closed.
        if stream.set_nodelay(true).is_err() || stream.set_nonblocking(true).is_err() {
            return Err(AcceptFault::Gone);
        }
        let stream = Stream::Tcp(TcpStream::from_std(stream));
        let peer = Peer::Tcp(peer);
        Ok(Some(Accepted { stream, peer }))
    }

    /// Closes the listener to further connections. Its descriptor stays open.
    pub fn close(&self) {
        net::shutdown(self.listener.as_raw_fd(), net::SHUT_RDWR);
    }
}

impl Listen for &Tcp {
    /// The system may fail at any time.
    ghost refuses = { λ _. Unit {0} };

    fn accept(&mut self) -> Result<Accepted, AcceptFault> {
        self.take()?.ok_or(AcceptFault::Gone)
    }

    fn close(&self) {
        Tcp::close(*self);
    }
}

/// TCP keepalive: the seconds of silence before the first probe, the seconds between two probes,
/// and the number of unanswered probes after which the connection is lost.
const SILENCE: u8 = 60;

const QUESTION_REST: u8 = 10;

const QUESTIONS: u8 = 6;

/// Turns TCP keepalive on for the listener; its connections inherit it. If the system refuses it, a
/// lost peer is found at the next write.
fn ask_silent_peers(listener: &TcpListener) {
    let listener = listener.as_raw_fd();
    set_option(listener, SOL_SOCKET, SO_KEEPALIVE, 1);
    set_option(listener, IPPROTO_TCP, TCP_KEEPIDLE, SILENCE);
    set_option(listener, IPPROTO_TCP, TCP_KEEPINTVL, QUESTION_REST);
    set_option(listener, IPPROTO_TCP, TCP_KEEPCNT, QUESTIONS);
}

/// Sets a socket's option, whose value is the four bytes of an `int`.
fn set_option(socket: RawFd, level: i32, name: i32, number: u8)
    requires { SockOption level name }
{
    let mut value = [0; 16];
    value[..4].copy_from_slice(&u32::from(number).to_ne_bytes());
    unsafe { net::setsockopt(socket, level, name, &value, 4) };
}
