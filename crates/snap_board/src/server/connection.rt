//! One connection of an HTTP server.
ghost use Rattle.std.specs.Prelude.{◌≡◌, ◌+◌, ◌≤◌, ◌↔◌, true};
ghost use Rattle.snap_board.specs.Answered.{Answered};

use http_server::{Config, Connection, Service};
use http1::Limits;
use mio::net::TcpStream;
use mio::{Interest, Registry, Token};
use std::alloc::Global;
use std::hash::RandomState;
use std::io::{self, ErrorKind, Read};
use std::net::Shutdown;
use std::time::Instant;

/// The most steps that a connection takes in a row, so that one peer can't starve the others.
const STEPS: u32 = 32;

/// The limit of a request's head in bytes, and of each part of it that has a limit of its own.
const MAX_HEAD: usize = 8 * 1024;

/// The least space that a read gets, in bytes.
const READ_SIZE: usize = 1024;

/// The limits of a connection, in bytes.
const LIMITS: Config = Config {
    limits: Limits {
        max_head_len: MAX_HEAD,
        max_extensions_len: MAX_HEAD,
        max_trailers_len: MAX_HEAD,
    },
    // No path takes a body.
    max_body_len: 1024,
    // With more pending output no request is read.
    max_pending: 1024,
    read_size: READ_SIZE,
};

/// The most bytes that are read and dropped after the last response, if the peer still sends.
const MAX_DRAINED: usize = 64 * 1024;

/// Registers a socket, so that the system reports under `token` when it is readable or writable.
pub(crate) fn register(
    registry: &Registry,
    stream: &mut TcpStream,
    token: Token,
) -> io::Result<()> {
    registry.register(stream, token, Interest::READABLE | Interest::WRITABLE)
}

/// A connection: a non-blocking socket, with the bytes that were read and those to be written.
#[derive(Drop)]
pub(crate) struct HttpConnection {
    stream: TcpStream,
    connection: Connection,
    /// The time of its last progress.
    pub(crate) moved: Instant,
    /// Whether the writing side is closed. Bytes that still arrive are read and dropped: a close
    /// with unread bytes would discard what the peer hasn't read yet.
    leaves: bool,
    drained: usize,
}

impl HttpConnection {
    /// A connection that was just accepted.
    pub(crate) fn new(
        alloc: Global,
        keys: RandomState,
        stream: TcpStream,
        now: Instant,
    ) -> HttpConnection {
        HttpConnection {
            stream,
            connection: Connection::new(alloc, keys, LIMITS),
            moved: now,
            leaves: false,
            drained: 0,
        }
    }

    /// Reads, answers and writes as far as its socket allows, [`STEPS`] steps at most. Returns whether the connection
    /// stays open. If there may be more to do, the system reports again that the socket is readable or writable.
    pub(crate) fn go_on<S: Service>(
        &mut self,
        registry: &Registry,
        token: Token,
        service: &mut S,
        now: Instant,
    ) -> bool
        ensures { Answered S.answers service.old service.new }
    {
        'steps: for _ in 0..STEPS {
            match self.step(service) {
                Ok(true) => {}
                Ok(false) => return false,
                Err(error) => match error.kind() {
                    ErrorKind::WouldBlock => return true,
                    ErrorKind::Interrupted => {}
                    _ => return false,
                },
            }
            // Reads after the last response are no progress.
            if !self.leaves {
                self.moved = now;
            }
        }
        let events = Interest::READABLE | Interest::WRITABLE;
        registry.reregister(&mut self.stream, token, events).is_ok()
    }

    /// Takes one step: answers what has arrived, and then reads or writes once. Returns whether there may be more to
    /// do; if not, the connection has ended.
    fn step<S: Service>(&mut self, service: &mut S) -> io::Result<bool>
        ensures { Answered S.answers service.old service.new }
    {
        if self.leaves {
            // The bytes after the last response are dropped, until the peer has closed too.
            let count = self.stream.read(&mut [0u8; READ_SIZE])?;
            return Ok(count > 0 && self.may_drain(count));
        }
        self.connection.advance(service);
        if self.connection.wants_write() {
            return Ok(self.connection.write_to(&mut self.stream)? > 0);
        }
        if self.connection.is_done() {
            // All is written, and the peer reads the end of the stream. If this fails the peer has closed, and the
            // next read finds that.
            self.leaves = true;
            let _ = self.stream.shutdown(Shutdown::Write);
            return Ok(true);
        }
        self.connection.read_from(&mut self.stream)?;
        Ok(true)
    }

    /// Counts bytes that were dropped. Returns whether more may be.
    fn may_drain(&mut self, count: usize) -> bool
        ensures { (result ≡ true) ↔ (self.old.drained + count ≤ MAX_DRAINED) }
    {
        self.drained = self.drained.saturating_add(count);
        self.drained <= MAX_DRAINED
    }
}
