//! A server from opening its files to its exit.
ghost use Rattle.std.specs.Prelude.{◌≡◌, ◌+◌, ◌-◌, ◌^◌, ◌<◌, ◌≤◌, length, min, All, IfOk, IfErr, map, string_bytes};
ghost use Rattle.std.specs.Prelude.{if◌then◌else◌};
ghost use Rattle.snap_order.specs.Order.{IsServable};
ghost use Rattle.snap_history.specs.declared.limits.TheConstants.{MAX_SCANNERS};
ghost use Rattle.snap_restart.specs.Closed.{AreBack};
ghost use Rattle.snap_service.specs.Asked.{AreAsOpened};
ghost use Rattle.snap_serve.specs.Scanners.{HasMetrics, MayServe, MayServeOpened};
ghost use Rattle.snap_serve.specs.Serve.{EndsServing, IsLengthAt, IsNamed, ListenFails};
ghost use Rattle.snap_serve.specs.Serve.{TellsItsEnd, addresses_of, failure_of, site_at, unbound_failure};

use crate::bind::{Bind, ListenFault};
use crate::fault::HostFault;
use crate::observer::{Observer, ServerObserver};
use crate::report::{Announcement, lines_of, print_report, print_served};
use crate::stores::serve_memory;
use snap_disk::Disk;
use snap_history::MAX_SCANNERS;
use snap_order::{Exit, ServeOptions, Status, SystemReason};
use snap_restart::{Report, Store, open_all};
use snap_server::{BindFault, Gate, Limits, LocalAddress, RunFault, ServerEvent, ServerFault};
use snap_service::{Metrics, UpdateObserver};
use std::alloc::Global;
use std::io::Write;
use std::marker::Brand;
use std::net::Net;
use std::rt::Clock;
use std::sync::Wait;
use std::thread::Threads;
use std::time::Duration;

/// The pause after the first fault of the listener, in milliseconds. With the longer pauses after
/// further faults, accepting ends after three minutes.
const FAULT_REST: u64 = 20;

/// The runtime of a server, which may block, starts threads, opens sockets and reads the clock. Any that can do this is
/// one.
pub trait Runtime: Threads + Wait + Clock + Net + Sync + Send + Copy {}

impl<X: Threads + Wait + Clock + Net + Sync + Send + Copy> Runtime for X {}

/// The environment of a server: all that it gets from its caller.
#[derive(Drop)]
pub struct Environment<'a, B, G, N, H: Drop, C, O> {
    /// Binds the addresses.
    pub bind: &'a B,
    /// Called before and after each request.
    pub gate: &'a G,
    /// Called for each event: a connection was closed, or accepting is limited, possible again, or over.
    pub note: &'a N,
    /// Called at the start, at the end, and for each update.
    pub watch: H,
    /// The server's metrics, with a part for each worker.
    pub metrics: &'a Metrics,
    /// The observer, if there is one. It takes one more scanner.
    pub observer: Option<&'a O>,
    /// The system's message for each segment's device, after a failed call.
    pub causes: &'a [C],
    /// The number of connections that may be open at once.
    pub clients: usize,
    /// The idle timeout of a connection; `None` for no limit.
    pub idle: Option<Duration>,
}

/// Serves the segments of `order`, with one device for each of its files, in order, and returns the program's exit.
///
/// All files are opened first. Then the report of the opening is printed, and the addresses are bound. Once all threads
/// are running, `listening ADDRESS` is printed for each address of the listener. Then as many connections are served as
/// `order` says, or without end; after them the line `served K` is printed. Each of the three texts is flushed. Nothing
/// is served before the report and `listening` are printed.
///
/// If the server ends early, `errors` gets the reason as one line that begins with `snapd: `; after
/// a refused file, a second line names the file and says what to do.
pub fn host<X, D, B, G, N, H, C, O, W, E>(
    rt: &X,
    alloc: Global,
    order: &ServeOptions<'_>,
    devices: Vec<D>,
    environment: Environment<'_, B, G, N, H, C, O>,
    writer: &mut W,
    errors: &mut E,
) -> Exit
where
    X: Runtime,
    D: Disk + Send + Drop,
    B: Bind,
    B::Listener: Drop,
    G: Gate + Sync,
    N: Fn(&ServerEvent) + Sync,
    H: ServerObserver + UpdateObserver + Copy + Send + Drop,
    C: SystemReason,
    O: Observer + Sync,
    W: Write,
    E: Write,
    requires order { IsServable order.now }
    requires devices { length devices.items ≡ length order.now.files.items }
    requires headroom { All (λ d. D.failure_count d < 2 ^ 64 - 1) devices.items }
    requires memory { MayServeOpened D.Disk B.Listener.Listen.may_serve devices.items }
    requires metrics { order.now.scanners ≤ environment.metrics.now.workers }
    requires note { N.IsAlwaysCallable environment.note.now }

    // The status, `errors` and the writer agree on one result, which is possible with these devices and this site.
    ensures ends { TellsItsEnd D.Disk devices.items
        (site_at B.Bind B.Listener.LocalAddress B.Listener.Listen environment.entry.bind.now
        (addresses_of order.now)) order.now result (E.contents errors.old) (E.contents errors.new)
        (W.contents writer.old) (W.contents writer.new) }
{
    let causes = environment.causes;
    let seats = seats_of(order, environment.observer.is_some());
    match open_all(alloc, devices, seats) {
        Ok((store, report)) => {
            match serve_opened(rt, alloc, order, store, &report, environment, writer) {
                Ok(_) => Exit {
                    status: Status::Done,
                    is_told: true,
                },
                Err(failure) => failure.report(alloc, order, causes, errors),
            }
        }
        Err(stopped) => {
            let len = length_at(&stopped.devices, stopped.segment);
            let (segment, why) = (stopped.segment, stopped.refusal);
            HostFault::Refused { segment, why, len }.report(alloc, order, causes, errors)
        }
    }
}

/// The number of scanners: one for each worker, and one for the observer. If that is too many,
/// there is one worker less.
fn seats_of(order: &ServeOptions<'_>, is_seen: bool) -> usize
    requires { IsServable order.now }
    ensures some { 0 < result }
    ensures most { result ≤ MAX_SCANNERS }
    ensures workers { result ≡ (if is_seen then min (order.now.scanners + 1) MAX_SCANNERS else order.now.scanners) }
{
    let workers = usize::from(order.scanners);
    if is_seen {
        MAX_SCANNERS.min(workers + 1)
    } else {
        workers
    }
}

/// The length of this segment's device in bytes, or 0 if there is none.
fn length_at<D: Disk>(devices: &Vec<D>, segment: usize) -> u64
    ensures { IsLengthAt D.Disk devices.now.items segment result }
{
    match devices.get(segment) {
        Some(device) => device.len(),
        None => 0,
    }
}

/// Prints the report, listens and serves. Returns the number of connections served.
fn serve_opened<X, D, B, G, N, H, C, O, W>(
    rt: &X,
    alloc: Global,
    order: &ServeOptions<'_>,
    store: Store<D>,
    report: &Report,
    environment: Environment<'_, B, G, N, H, C, O>,
    writer: &mut W,
) -> Result<u64, HostFault>
where
    X: Runtime,
    D: Disk + Send + Drop,
    B: Bind,
    B::Listener: Drop,
    G: Gate + Sync,
    N: Fn(&ServerEvent) + Sync,
    H: ServerObserver + UpdateObserver + Copy + Send + Drop,
    C: SystemReason,
    O: Observer + Sync,
    W: Write,
    requires back { AreBack store.writers.items store.scanners.items }
    requires opened { AreAsOpened store.writers.items }
    requires memory { MayServe B.Listener.Listen.may_serve store.scanners.items }
    requires metrics { HasMetrics environment.observer (length store.scanners.items) environment.metrics.now.workers }
    requires note { N.IsAlwaysCallable environment.note.now }
    ensures ends { EndsServing (site_at B.Bind B.Listener.LocalAddress B.Listener.Listen environment.entry.bind.now
        (addresses_of order.now)) order.now.connections report.now
        (W.contents writer.old) (W.contents writer.new) result }
{
    match print_report(alloc, report, writer) {
        Ok(()) => {}
        Err(failure) => return Err(failure),
    }
    let (listener, lines) = match listen(alloc, &order.addresses, environment.bind) {
        Ok(listening) => listening,
        Err(failure) => return Err(failure),
    };
    let limits = Limits {
        connections: order.connections,
        clients: environment.clients,
        fault_rest: Duration::from_millis(FAULT_REST),
        idle: environment.idle,
    };
    let (writers, scanners) = store.into_parts();
    let watch = environment.watch;
    let ended = serve_memory::<Brand, _, _, _, _, _, _, _, _, _>(
        rt,
        alloc,
        writers,
        scanners,
        listener,
        limits,
        environment.gate,
        environment.note,
        watch,
        environment.metrics,
        environment.observer,
        &Announcement { lines, watch },
        writer,
    );
    match ended {
        Ok(served) => {
            watch.ended(Ok(served));
            match print_served(alloc, served, writer) {
                Ok(()) => Ok(served),
                Err(failure) => Err(failure),
            }
        }
        Err(fault) => {
            watch.ended(Err(&fault));
            Err(failure_of(fault))
        }
    }
}

/// Maps a fault of the server to the program's fault.
fn failure_of(fault: RunFault) -> HostFault
    ensures { result ≡ failure_of fault }
{
    match fault {
        RunFault::Announcement(error) => HostFault::Output(error),
        RunFault::Server(ServerFault::NoMemory) => HostFault::NoMemory,
        RunFault::Server(fault) => HostFault::Server(fault),
    }
}

/// Maps an address that wasn't bound to the program's fault.
fn unbound_failure(unbound: ListenFault) -> HostFault
    ensures { result ≡ unbound_failure unbound }
{
    match unbound.why {
        BindFault::NoMemory => HostFault::NoMemory,
        _ => HostFault::Address(unbound),
    }
}

/// Binds the addresses, and makes the lines with the real addresses of the listener.
fn listen<B: Bind>(
    alloc: Global,
    addresses: &Vec<&str>,
    bind: &B,
) -> Result<(B::Listener, String), HostFault>
where
    B::Listener: Drop,
    ensures bound { IfOk result (λ made. IsNamed (site_at B.Bind B.Listener.LocalAddress B.Listener.Listen bind.now
        (map (λ a. a.now) addresses.now.items)) made.0 (string_bytes made.1)) }
    ensures failed { IfErr result (ListenFails (site_at B.Bind B.Listener.LocalAddress B.Listener.Listen bind.now
        (map (λ a. a.now) addresses.now.items))) }
{
    let listener = bind.bind(alloc, addresses).map_err(unbound_failure)?;
    let lines = lines_of(alloc, listener.endpoints()).map_err(|_| HostFault::NoMemory)?;
    Ok((listener, lines))
}
