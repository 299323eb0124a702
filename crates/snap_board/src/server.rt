//! The HTTP server of `--http`: a TCP listener and at most [`MAX_CONNECTIONS`] connections, served on one thread by an
//! [`http_server::Service`].
//!
//! The crate `http_server` reads requests and encodes responses; this module moves the bytes, and closes connections
//! without progress. A peer that sends nothing, reads nothing or sends no HTTP is closed within seconds, and blocks no
//! other peer.
ghost use Rattle.snap_board.specs.Answered.{Answered};

mod connection;
mod connections;

use crate::history::Sampler;
use connections::Connections;
pub use connections::MAX_CONNECTIONS;
use http_server::Service;
use mio::net::TcpListener;
use mio::{Events, Interest, Poll, Token, Waker};
use std::alloc::Global;
use std::hash::RandomState;
use std::io::{self, ErrorKind};
use std::net::Net;
use std::random::RandomSource;
use std::rt::Clock;
use std::sync::atomic::{AtomicBool, Ordering};
use std::sync::{Arc, Wait};
use std::time::{Duration, Instant};

/// The tokens of the waker and of the listener. A connection's token is its key.
const WAKER: Token = Token(usize::MAX);

const LISTENER: Token = Token(usize::MAX - 1);

/// The most events of one wait.
const MAX_EVENTS: usize = 64;

/// The most connections that are accepted between two waits.
const MAX_ACCEPTS: u32 = 16;

/// The pause after a failed accept, in milliseconds.
const ACCEPT_REST: u64 = 100;

/// The seconds between two samples, and so the longest wait. Idle connections are closed as often.
const SAMPLE_REST: u64 = 1;

/// Wakes the thread of a server, which then reads `is_set`.
#[derive(Drop)]
struct StopSignal {
    waker: Waker,
    is_set: AtomicBool,
}

/// A handle that stops a server.
#[derive(Drop)]
pub struct StopHandle {
    signal: Arc<StopSignal, Global>,
}

impl StopHandle {
    /// Makes [`serve`](HttpServer::serve) return once it has served the connections that are
    /// ready. It may be called from any thread, and more than once.
    pub fn stop(&self) {
        self.signal.is_set.store(true, Ordering::SeqCst);
        // If the wake fails the server stops at the next event.
        let _ = self.signal.waker.wake();
    }
}

/// An HTTP server at one address.
#[derive(Drop)]
pub struct HttpServer {
    poll: Poll,
    /// The events of the last wait. Allocated at the start, so that a wait allocates nothing.
    events: Events,
    listener: TcpListener,
    /// How long the next accept may have to wait. `None` if no connection waits for one: the system reports waiting
    /// connections only once, so the server accepts until none is left.
    accept_rest: Option<Duration>,
    connections: Connections,
    /// A wake is lost once its waker is dropped, so the server keeps it alive too.
    stopping: Arc<StopSignal, Global>,
    /// The time of the last wait.
    time: Instant,
    /// The time of the last sample.
    sampled: Instant,
}

impl HttpServer {
    /// Makes a server at this non-blocking listener, and the handle that stops it. Its lists are
    /// allocated here. An error is the system's, or that memory ran out.
    pub fn new(
        rt: &(impl Net + RandomSource + Clock),
        alloc: Global,
        mut listener: TcpListener,
    ) -> io::Result<(HttpServer, StopHandle)> {
        let keys = RandomState::new(rt)?;
        let now = Instant::now(rt)?;
        let poll = Poll::new(rt)?;
        poll.registry()
            .register(&mut listener, LISTENER, Interest::READABLE)?;
        let waker = Waker::new(poll.registry(), WAKER)?;
        let is_set = AtomicBool::new(false);
        let stopping = Arc::new(alloc, StopSignal { waker, is_set })?;
        let signal = Arc::try_clone(&stopping)?;
        let events = Events::with_capacity(alloc, MAX_EVENTS)?;
        let server = HttpServer {
            poll,
            events,
            listener,
            accept_rest: Some(Duration::ZERO),
            connections: Connections::new(alloc, keys),
            stopping,
            time: now,
            sampled: now,
        };
        Ok((server, StopHandle { signal }))
    }

    /// Answers requests by this service until it is stopped; then it returns `Ok`, and pending
    /// output is lost. It takes a sample about once a second.
    ///
    /// Fails only if the system's wait for events fails, never because of a peer or because memory ran out.
    pub fn serve<X: Wait + Clock, S: Service>(
        &mut self,
        rt: &X,
        service: &mut S,
        sampler: Option<Sampler<'_>>,
    ) -> io::Result<()>
        ensures { Answered S.answers service.old service.new }
    {
        for _ in rt.forever() {
            if self.stopping.is_set.load(Ordering::SeqCst) {
                return Ok(());
            }
            self.wait()?;
            // If the clock can't be read, no time has passed.
            self.time = Instant::now(rt).unwrap_or(self.time);
            if self.time.duration_since(self.sampled) >= Duration::from_secs(SAMPLE_REST) {
                self.sampled = self.time;
                if let Some(sampler) = sampler {
                    sampler.sample(self.time);
                }
            }
            self.take_events(service);
            self.accept_waiting();
            self.connections.let_slow_go(self.time);
        }
        unreachable!()
    }

    /// Waits for events, at most until the next accept or the next sample.
    fn wait(&mut self) -> io::Result<()> {
        let rest = Duration::from_secs(SAMPLE_REST).saturating_sub(
            self.time.duration_since(self.sampled),
        );
        let most = self.accept_rest.unwrap_or(rest);
        self.poll.poll(&mut self.events, Some(most))
    }

    /// Lets each connection with an event take its steps.
    fn take_events<S: Service>(&mut self, service: &mut S)
        ensures { Answered S.answers service.old service.new }
    {
        for event in &self.events {
            match event.token() {
                WAKER => {}
                LISTENER => self.accept_rest = Some(Duration::ZERO),
                Token(key) => self
                    .connections
                    .go_on(self.poll.registry(), key, service, self.time),
            }
        }
    }

    /// Accepts the waiting connections, [`MAX_ACCEPTS`] at most. After a failed accept the next one is tried later, and
    /// the other connections aren't affected.
    fn accept_waiting(&mut self) {
        for _ in 0..MAX_ACCEPTS {
            if self.accept_rest.is_none() {
                return;
            }
            match self.listener.accept() {
                Ok((stream, _)) => {
                    self.connections
                        .welcome(self.poll.registry(), stream, self.time);
                }
                Err(error) => {
                    self.accept_rest = match error.kind() {
                        ErrorKind::WouldBlock => None,
                        // The client has closed, or a signal arrived.
                        ErrorKind::ConnectionAborted | ErrorKind::Interrupted => Some(
                            Duration::ZERO,
                        ),
                        _ => Some(Duration::from_millis(ACCEPT_REST)),
                    };
                    return;
                }
            }
        }
    }
}
