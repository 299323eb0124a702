//! Several listeners in one.
ghost use Rattle.std.specs.Prelude.{◌≡◌, List};

use crate::listen::{AcceptFault, Accepted, Endpoint, Listen, LocalAddress, why_not};
use crate::tcp::Tcp;
use crate::unix::{BindFault, UnixSocket};
use mio::unix::SourceFd;
use mio::{Events, Interest, Poll, Token};
use std::alloc::Global;
use std::fs::File;
use std::io;
use std::net::Net;
use std::os::fd::{AsRawFd, RawFd};
use std::rt::{Clock, Files};

/// The most events of one wait.
const MAX_EVENTS: usize = 16;

/// One of the listeners, over TCP or a Unix socket.
#[derive(Drop)]
enum Opened<'a, R: Files<File = File> + Clock> {
    Tcp(Tcp),
    Unix(UnixSocket<'a, R>),
}

impl<R: Files<File = File> + Clock> Opened<'_, R> {
    /// Accepts the next connection; `None` if the listener doesn't block and no connection waits.
    fn take(&self) -> Result<Option<Accepted>, AcceptFault> {
        match self {
            Opened::Tcp(tcp) => tcp.take(),
            Opened::Unix(socket) => socket.take(),
        }
    }

    /// Makes the listener non-blocking.
    fn stop_waiting(&self) -> io::Result<()> {
        match self {
            Opened::Tcp(tcp) => tcp.listener.set_nonblocking(true),
            Opened::Unix(socket) => socket.listener.set_nonblocking(true),
        }
    }

    /// The listener's descriptor.
    fn descriptor(&self) -> RawFd {
        match self {
            Opened::Tcp(tcp) => tcp.listener.as_raw_fd(),
            Opened::Unix(socket) => socket.listener.as_raw_fd(),
        }
    }

    /// Closes the listener: clients that connect later are refused at once.
    fn close(&self) {
        match self {
            Opened::Tcp(tcp) => tcp.close(),
            Opened::Unix(socket) => socket.close(),
        }
    }
}

/// Accepts from several listeners in turn, so a busy one can't starve the others.
#[derive(Drop)]
pub struct Listeners<'a, R: Files<File = File> + Clock> {
    poll: Poll,
    events: Events,
    opened: Vec<Opened<'a, R>>,
    endpoints: Vec<Endpoint>,
    /// The index of the next listener in turn, or one past the last.
    next: usize,
}

impl<'a, R: Files<File = File> + Clock> Listeners<'a, R> {
    /// An empty set of listeners. Fails if the system refuses its event queue, or if memory runs out.
    pub fn new(net: &impl Net, alloc: Global) -> Result<Listeners<'a, R>, BindFault> {
        let poll = Poll::new(net)?;
        let Ok(events) = Events::with_capacity(alloc, MAX_EVENTS) else {
            return Err(BindFault::NoMemory);
        };
        Ok(Listeners {
            poll,
            events,
            opened: Vec::new(alloc),
            endpoints: Vec::new(alloc),
            next: 0,
        })
    }

    /// Adds a TCP listener. After a fault the set is unusable.
    pub fn add_tcp(&mut self, tcp: Tcp) -> Result<(), BindFault> {
        let endpoint = Endpoint::Tcp(tcp.address()?);
        self.add(Opened::Tcp(tcp), endpoint)
    }

    /// Adds a Unix socket. After a fault the set is unusable.
    pub fn add_unix(&mut self, socket: UnixSocket<'a, R>) -> Result<(), BindFault> {
        match socket.path.clone() {
            Ok(path) => self.add(Opened::Unix(socket), Endpoint::Unix(path)),
            Err(_) => Err(BindFault::NoMemory),
        }
    }

    fn add(&mut self, opened: Opened<'a, R>, endpoint: Endpoint) -> Result<(), BindFault> {
        self.watch(&opened)?;
        let is_kept = self.opened.push(opened).is_ok();
        if self.endpoints.push(endpoint).is_ok() & is_kept {
            return Ok(());
        }
        Err(BindFault::NoMemory)
    }

    /// Registers the listener, so that the system reports its waiting connections. If it isn't the only one, neither it
    /// nor the first one waits for a connection any more.
    fn watch(&self, opened: &Opened<'a, R>) -> io::Result<()> {
        // A single listener blocks in its own system call.
        if let Some(first) = self.opened.first() {
            first.stop_waiting().and(opened.stop_waiting())?;
        }
        let descriptor = opened.descriptor();
        let mut source = SourceFd(&descriptor);
        let token = Token(self.opened.len());
        self.poll
            .registry()
            .register(&mut source, token, Interest::READABLE)
    }

    /// Accepts a connection from the first listener in turn at which one waits; `None` if none waits.
    fn take_in_turn(&mut self) -> Result<Option<Accepted>, AcceptFault> {
        for _ in 0..self.opened.len() {
            if self.next >= self.opened.len() {
                self.next = 0;
            }
            let Some(opened) = self.opened.get(self.next) else {
                return Ok(None);
            };
            self.next += 1;
            let taken = opened.take();
            if !matches!(taken, Ok(None)) {
                return taken;
            }
        }
        Ok(None)
    }
}

impl<R: Files<File = File> + Clock> Listen for Listeners<'_, R> {
    /// The system may fail at any time.
    ghost refuses = { λ _. Unit {0} };

    /// The system reports a waiting connection only once, so all listeners are tried before it waits.
    fn accept(&mut self) -> Result<Accepted, AcceptFault> {
        if let Some(arrival) = self.take_in_turn()? {
            return Ok(arrival);
        }
        if let Err(error) = self.poll.poll(&mut self.events, None) {
            return Err(why_not(&error));
        }
        self.take_in_turn()?.ok_or(AcceptFault::Gone)
    }

    /// Closes all listeners to further connections. Their descriptors stay open.
    fn close(&self) {
        for opened in &self.opened {
            opened.close();
        }
    }
}

impl<R: Files<File = File> + Clock> LocalAddress for Listeners<'_, R> {
    /// A premise: a socket is bound at the address that the system returns (`getsockname`), or at
    /// the path that it was given. The kit has no contract for that.
    ghost is_at = { λ listeners endpoints. endpoints ≡ listeners.endpoints.items };

    fn endpoints(&self) -> &[Endpoint] {
        self.endpoints.as_slice()
    }
}
