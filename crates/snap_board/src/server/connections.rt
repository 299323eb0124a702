//! The table of a server's connections.
ghost use Rattle.std.specs.Prelude.{◌≤◌};
ghost use Rattle.slab.specs.Slab.{slab_len};
ghost use Rattle.snap_board.specs.{Answered.Answered, declared.server.connections.TheConstants.MAX_CONNECTIONS};

use super::connection::{HttpConnection, register};
use http_server::Service;
use mio::net::TcpStream;
use mio::{Registry, Token};
use slab::Slab;
use std::alloc::Global;
use std::hash::RandomState;
use std::time::{Duration, Instant};

/// The most open connections. A further one replaces the one whose last progress was longest ago.
pub const MAX_CONNECTIONS: usize = 64;

/// The time without progress after which a connection is closed, in seconds.
const MAX_REST: u64 = 10;

/// A table of connections. Their keys are the tokens of their events.
#[derive(Drop)]
pub(crate) struct Connections {
    alloc: Global,
    keys: RandomState,
    connections: Slab<HttpConnection>,
    ghost few: { slab_len connections ≤ MAX_CONNECTIONS },
}

impl Connections {
    /// An empty table. Peers choose the names of headers, so these are hashed with secret keys.
    pub(crate) fn new(alloc: Global, keys: RandomState) -> Connections {
        Connections {
            alloc,
            keys,
            connections: Slab::new(alloc),
        }
    }

    /// Adds a connection. If the table is full, it replaces the one whose last progress was longest ago. If memory for
    /// it runs out, or the system can't register it, it is closed; the others aren't affected.
    pub(crate) fn welcome(&mut self, registry: &Registry, mut stream: TcpStream, now: Instant) {
        if self.connections.len() >= MAX_CONNECTIONS {
            self.drop_slowest();
        }
        if self.connections.len() >= MAX_CONNECTIONS || self.connections.reserve(1).is_err() {
            return;
        }
        let key = self.connections.vacant_key();
        if register(registry, &mut stream, Token(key)).is_ok() {
            let connection = HttpConnection::new(self.alloc, self.keys, stream, now);
            self.connections.insert_reserved(connection);
        }
    }

    /// Closes the connection whose last progress was longest ago.
    fn drop_slowest(&mut self) {
        let slowest = self.connections.iter().min_by_key(|entry| entry.1.moved);
        if let Some((key, _)) = slowest {
            self.close(key);
        }
    }

    /// Closes a connection, if there is one.
    fn close(&mut self, key: usize) {
        drop(self.connections.try_remove(key));
    }

    /// Lets a connection take its steps, and drops it if it has ended.
    pub(crate) fn go_on<S: Service>(
        &mut self,
        registry: &Registry,
        key: usize,
        service: &mut S,
        now: Instant,
    )
        ensures { Answered S.answers service.old service.new }
    {
        let Some(connection) = self.connections.get_mut(key) else {
            return;
        };
        if !connection.go_on(registry, Token(key), service, now) {
            self.close(key);
        }
    }

    /// Closes the connections without progress for [`MAX_REST`] seconds.
    pub(crate) fn let_slow_go(&mut self, now: Instant) {
        let most = Duration::from_secs(MAX_REST);
        for key in 0..self.connections.capacity() {
            let moved = self.connections.get(key).map(|it| it.moved);
            if moved.is_some_and(|moved| now.duration_since(moved) >= most) {
                self.close(key);
            }
        }
    }
}
