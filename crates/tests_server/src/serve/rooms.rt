//! Servers over segments in memory.
use snap_disk::Disk;
use snap_order::{Level, NoReason, ServeOptions, Status};
use snap_serve::{Bind, Environment, ListenFault, NoObserver, NoUpdateObserver, host};
use snap_server::{
    AcceptFault, Accepted, BindFault, Endpoint, Gate, Listen, LocalAddress, ServerEvent, Tcp,
};
use snap_service::Metrics;
use std::alloc::{AllocError, Global};
use std::io::{self, Write};
use std::net::{Net, SocketAddr};
use std::rt::Clock;
use std::sync::Wait;
use std::thread::Threads;

/// A listener that was bound before.
#[derive(Drop)]
pub(crate) struct Ready<'a> {
    tcp: &'a Tcp,
    address: SocketAddr,
}

/// The connections of another listener, which is at these places.
#[derive(Drop)]
pub(crate) struct Shared<'a> {
    tcp: &'a Tcp,
    endpoints: Vec<Endpoint>,
}

impl<'a> Ready<'a> {
    pub(crate) fn new(tcp: &'a Tcp, address: SocketAddr) -> Ready<'a> {
        Ready { tcp, address }
    }

    /// Closes the listener, and with it the connections that nobody accepted.
    pub(crate) fn close(&self) {
        self.tcp.close();
    }
}

impl Listen for Shared<'_> {
    ghost refuses = { λ _. Unit {0} };

    fn accept(&mut self) -> Result<Accepted, AcceptFault> {
        Listen::accept(&mut self.tcp)
    }

    fn close(&self) {
        self.tcp.close();
    }
}

impl LocalAddress for Shared<'_> {
    ghost is_at = { λ shared endpoints. endpoints ≡ shared.endpoints.items };

    fn endpoints(&self) -> &[Endpoint] {
        self.endpoints.as_slice()
    }
}

impl<'a> Bind for Ready<'a> {
    type Listener = Shared<'a>;

    fn bind(&self, alloc: Global, _addresses: &Vec<&str>) -> Result<Shared<'a>, ListenFault> {
        match vec![in alloc; Endpoint::Tcp(self.address)] {
            Ok(endpoints) => Ok(Shared {
                tcp: self.tcp,
                endpoints,
            }),
            Err(_) => Err(ListenFault {
                place: 0,
                why: BindFault::NoMemory,
            }),
        }
    }
}

/// How a server ended, and what it printed.
#[derive(Drop)]
pub(crate) struct Seen {
    pub status: Status,
    pub out: Barred,
    pub errors: Vec<u8>,
}

/// Keeps what is written, with a bar at each flush.
#[derive(Drop)]
pub(crate) struct Barred {
    pub bytes: Vec<u8>,
}

impl Write for Barred {
    fn write(&mut self, bytes: &[u8]) -> io::Result<usize> {
        self.bytes.extend_from_slice(bytes)?;
        Ok(bytes.len())
    }

    fn flush(&mut self) -> io::Result<()> {
        self.bytes.push(b'|')?;
        Ok(())
    }
}

/// A server over these devices, 4 at most, with so many scanners, which ends after `connections`.
pub(crate) fn host_printing<'x, X, D, B, G>(
    rt: &X,
    alloc: Global,
    devices: Vec<D>,
    bind: &'x B,
    scanners: u8,
    connections: u64,
    gate: &'x G,
) -> Result<Seen, AllocError>
where
    X: Threads + Wait + Clock + Net + Sync + Send + Copy,
    D: Disk + Send + Drop,
    B: Bind,
    B::Listener: Drop,
    G: Gate + Sync,
{
    let mut seen = Seen {
        status: Status::Failed,
        out: Barred {
            bytes: Vec::new(alloc),
        },
        errors: Vec::new(alloc),
    };
    let mut files = vec![in alloc; "first", "second", "third", "fourth"]?;
    files.truncate(devices.len());
    let order = ServeOptions {
        addresses: vec![in alloc; "loopback"]?,
        socket_mode: 0o600,
        files,
        scanners,
        connections: Some(connections),
        clients: None,
        idle: None,
        http: None,
        log: Level::Info,
    };
    let metrics = Metrics::new(alloc, usize::from(order.scanners), order.files.len())?;
    let nobody: Option<NoObserver> = None;
    let observer = nobody.as_ref();
    let note = |_note: &ServerEvent| {};
    let environment = Environment {
        bind,
        gate,
        note: &note,
        watch: NoUpdateObserver,
        metrics: &metrics,
        observer,
        causes: &[NoReason, NoReason, NoReason, NoReason],
        clients: 1_000,
        idle: None,
    };
    let ended = host(
        rt,
        alloc,
        &order,
        devices,
        environment,
        &mut seen.out,
        &mut seen.errors,
    );
    seen.status = ended.status;
    Ok(seen)
}
