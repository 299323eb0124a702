//! The command `serve`: a server on the system's files and sockets.
ghost use Rattle.std.specs.Prelude.{◌≡◌, ◌≤◌, length, All, IfOk};
ghost use Rattle.std.specs.Thread.{IsSync};
ghost use Rattle.snap_devices.specs.FileDisk.{IsUncalled};
ghost use Rattle.snap_order.specs.Order.{IsServable};

use crate::http_view::{HttpPlace, HttpView, open_http};
use crate::server_log::{ServerLog, Spaced};
use crate::surroundings::{Process, millis_since_1970, most_descriptors};
use log::{LevelFilter, warn};
use snap_args::is_everywhere;
use snap_board::MAX_CONNECTIONS;
use snap_devices::{FileDisk, FileFault, Lock};
use snap_file_commands::system::{
    FirstFault, fail_at_file, fail_twice, files_in_order, first_faults, open_telling,
};
use snap_log::{Destination, Lines, write_lines};
use snap_order::{Exit, ServeOptions, Status, fail, or_stop, say, stop_without_memory};
use snap_serve::{CountingObserver, Environment, Network, Runtime, host, log_note};
use snap_server::{NoGate, ServerEvent, ServerFault};
use snap_service::{Metrics, time_all};
use std::alloc::{AllocError, Global};
use std::rt::Clock;
use std::sync::Wait;
use std::thread;
use std::time::{Duration, Instant};

/// Opens the order's files as devices, in order, each with an exclusive lock. `told` gets for each
/// file the reason why a call on it fails. Prints the reason if one can't be opened.
fn take_files<'f>(
    rt: &'f HostRuntime,
    files: &'f Vec<&str>,
    told: &'f Vec<FirstFault>,
) -> Result<Vec<FileDisk<'f, HostRuntime>>, Status>
    ensures count { IfOk result (λ devices. length devices.items ≡ length files.now.items) }
    ensures uncalled { IfOk result (λ devices. All IsUncalled devices.items) }
{
    let mut devices = or_stop(rt, Vec::with_capacity(rt.alloc(), files.len()))?;
    'files: for file in files {
        match open_telling(rt, *file, Lock::Exclusive, told.get(devices.len())) {
            Ok(disk) => devices.push_reserved(disk),
            Err(fault) => {
                let twin = twin_of(files, &devices, &fault);
                drop(devices);
                return Err(match twin {
                    Some(first) => fail_twice(rt, first, *file),
                    None => fail_at_file(rt, *file, &fault),
                });
            }
        }
    }
    Ok(devices)
}

/// The path of the opened file with which a further one is in use: both paths name one file.
fn twin_of<'a>(
    files: &[&'a str],
    devices: &[FileDisk<'_, HostRuntime>],
    fault: &FileFault,
) -> Option<&'a str> {
    if let FileFault::InUse(id) = fault {
        for (first, device) in files.iter().zip(devices) {
            if device.id() == *id {
                return Some(*first);
            }
        }
    }
    None
}

/// The filter of a level.
fn filter_of(level: snap_order::Level) -> LevelFilter {
    match level {
        snap_order::Level::Error => LevelFilter::Error,
        snap_order::Level::Warn => LevelFilter::Warn,
        snap_order::Level::Info => LevelFilter::Info,
        snap_order::Level::Debug => LevelFilter::Debug,
    }
}

/// Opens the order's files, and serves them. A thread of its own writes the log to standard error,
/// and another one answers HTTP if the order has an address for it. `folder` is that of the files,
/// if the arguments name one. Prints the reason if it can't start.
pub fn serve<'x, X: Runtime>(
    rt: &X,
    system: &'x HostRuntime,
    order: &'x ServeOptions<'x>,
    folder: Option<&'x str>,
) -> Result<Status, Status>
    requires { IsServable order.now }
{
    let place = open_http(system, order)?;
    let told = or_stop(system, first_faults(system.alloc(), order.files.len()))?;
    let devices = take_files(system, &order.files, &told)?;
    match serve_counted(rt, system, order, folder, devices, &told, place.as_ref()) {
        Ok(ended) => Ok(ended.status),
        Err(ServerFault::NoMemory) => Err(stop_without_memory(system)),
        Err(fault) => Err(fail(system, &fault)),
    }
}

/// After a refusal, prints the order of the server's files by their headers, if they were given in another one. Prints
/// nothing if a header can't be read, or if they aren't the segments of one server: the refusal said so.
pub fn say_right_order(rt: &HostRuntime, serving: &ServeOptions<'_>) {
    let Ok(files) = texts_of(rt.alloc(), &serving.files) else {
        return;
    };
    let Ok(names) = files_in_order(rt, "", &files) else {
        return;
    };
    if names
        .iter()
        .zip(&serving.files)
        .any(|(name, file)| name != file)
    {
        let names = Spaced(&names);
        let line = format_args!("each file names its segment, and this is their order: {names}");
        say(rt, &line);
    }
}

/// Serves these devices with metrics. It fails before it does anything, if memory runs out for the
/// log or the metrics, or if no thread can be started.
fn serve_counted<'x, X: Runtime>(
    rt: &X,
    system: &'x HostRuntime,
    order: &'x ServeOptions<'x>,
    folder: Option<&'x str>,
    devices: Vec<FileDisk<'_, HostRuntime>>,
    told: &Vec<FirstFault>,
    place: Option<&'x HttpPlace>,
) -> Result<Exit, ServerFault>
    requires order { IsServable order.now }
    requires devices { length devices.items ≡ length order.now.files.items }
    requires uncalled { All IsUncalled devices.items }
{
    let scanners = usize::from(order.scanners);
    let Ok(metrics) = Metrics::new(system.alloc(), scanners, order.files.len()) else {
        return Err(ServerFault::NoMemory);
    };
    let Ok(addresses) = texts_of(system.alloc(), &order.addresses) else {
        return Err(ServerFault::NoMemory);
    };
    let process = Process {
        rt: system,
        metrics: &metrics,
        began: Instant::now(system).ok(),
        started: millis_since_1970(system),
        most_clients: most_clients(order),
        addresses: &addresses,
        folder,
        files: &order.files,
    };
    serve_logged(rt, order, devices, told, &process, place)
}

/// These texts as strings.
fn texts_of(alloc: Global, words: &[&str]) -> Result<Vec<String>, AllocError> {
    let mut texts = Vec::with_capacity(alloc, words.len())?;
    for word in words {
        texts.push(String::from_str(alloc, *word)?)?;
    }
    Ok(texts)
}

/// Serves these devices while a thread writes the lines of the log.
fn serve_logged<'x, X: Runtime>(
    rt: &X,
    order: &'x ServeOptions<'x>,
    devices: Vec<FileDisk<'_, HostRuntime>>,
    told: &Vec<FirstFault>,
    process: &'x Process<'x>,
    place: Option<&'x HttpPlace>,
) -> Result<Exit, ServerFault>
    requires order { IsServable order.now }
    requires devices { length devices.items ≡ length order.now.files.items }
    requires uncalled { All IsUncalled devices.items }
    requires workers { order.now.scanners ≤ process.now.metrics.now.workers }
    requires segments { length devices.items ≤ process.now.metrics.now.segments }
{
    let system = process.rt;
    let destination = Destination::of_standard_error(system, system.alloc());
    let Ok((log, waiting)) = Lines::new(rt, system.alloc(), filter_of(order.log), destination)
    else {
        return Err(ServerFault::NoMemory);
    };
    thread::scope(
        thread::scope_env(),
        rt,
        |scope| -> Result<Exit, ServerFault>
            requires { IsSync X.row × IsServable order.now × (length devices.items ≡ length order.now.files.items)
                × All IsUncalled devices.items × (order.now.scanners ≤ process.now.metrics.now.workers)
                × (length devices.items ≤ process.now.metrics.now.segments) }
        {
            let mut errors = system.stderr();
            let writing = move ||
                requires { IsSync X.row }
            {
                write_lines(rt, &waiting, &mut errors);
            };
            if scope.spawn(writing).is_err() {
                return Err(ServerFault::NoThread);
            }
            let ended = host_logged(rt, order, devices, told, &log, process, place);
            // The writing thread ends once every sender is dropped.
            drop(log);
            ended
        },
    )
}

/// How many descriptors a server needs beside its files, its further listeners, two for each worker, and its
/// connections: the standard streams, the first listener, its poll, and what is open for a moment.
const OTHERS: u64 = 16;

/// How many more it needs for HTTP: the connections, the listener, its poll, and what stops it.
const OF_HTTP: u64 = MAX_CONNECTIONS as u64 + 4;

/// The limit of open connections: as many as the process may open, less the descriptors that it needs itself, and at
/// most what the order says. So there is a descriptor for every connection that is accepted.
fn most_clients(order: &ServeOptions<'_>) -> usize {
    let asked = order.clients.map_or(usize::MAX, |clients| clients as usize);
    let Some(limit) = most_descriptors() else {
        return asked;
    };
    let needed = OTHERS
        .saturating_add(order.files.len() as u64)
        .saturating_add((order.addresses.len() as u64).saturating_sub(1))
        .saturating_add(u64::from(order.scanners).saturating_mul(2))
        .saturating_add(if order.http.is_some() { OF_HTTP } else { 0 });
    let left = limit.saturating_sub(needed).max(1);
    usize::try_from(left).unwrap_or(usize::MAX).min(asked)
}

/// Warns of addresses that accept connections from all networks.
fn warn_of_everywhere<X: Wait + Clock>(log: &Lines<'_, X>, order: &ServeOptions<'_>) {
    'addresses: for address in &order.addresses {
        warn_of(log, "accept", *address, "read and update");
    }
    if let Some(address) = order.http {
        warn_of(log, "http", address, "read");
    }
}

/// Warns of what everybody may do to each segment, if the address accepts connections from all networks.
fn warn_of<X: Wait + Clock>(log: &Lines<'_, X>, target: &str, address: &str, right: &str) {
    if is_everywhere(address) {
        warn!(log; target: target, "{address}: whoever reaches this machine may {right} each segment");
    }
}

/// Serves these devices with their stores timed, with the warnings and the HTTP thread, and logs and
/// counts the server's events. Fails, before it does anything, only if memory runs out.
#[tactic(auto, using(crate::proofs::Uncalled::headroom))]
fn host_logged<'x, X: Runtime>(
    rt: &X,
    order: &'x ServeOptions<'x>,
    devices: Vec<FileDisk<'_, HostRuntime>>,
    told: &'x Vec<FirstFault>,
    log: &'x Lines<'x, X>,
    process: &'x Process<'x>,
    place: Option<&'x HttpPlace>,
) -> Result<Exit, ServerFault>
    requires order { IsServable order.now }
    requires devices { length devices.items ≡ length order.now.files.items }
    requires uncalled { All IsUncalled devices.items }
    requires workers { order.now.scanners ≤ process.now.metrics.now.workers }
    requires segments { length devices.items ≤ process.now.metrics.now.segments }
{
    let (system, metrics) = (process.rt, process.metrics);
    let Ok(devices) = time_all(system.alloc(), devices, *system, metrics) else {
        return Err(ServerFault::NoMemory);
    };
    warn_of_everywhere(log, order);
    let view = place.map(|place| HttpView {
        log,
        process,
        place,
    });
    let note = |told: &ServerEvent| {
        if let ServerEvent::Ended(_) = told {
            metrics.end();
        }
        log_note(log, told)
    };
    let idle = order
        .idle
        .map(|seconds| Duration::from_secs(u64::from(seconds)));
    let environment = Environment {
        bind: &Network::new(system, u32::from(order.socket_mode)),
        gate: &NoGate,
        note: &note,
        watch: CountingObserver {
            metrics,
            failures: ServerLog { log, process, told },
        },
        metrics,
        observer: view.as_ref(),
        causes: told,
        clients: most_clients(order),
        idle,
    };
    let (mut writer, mut errors) = (system.stdout(), system.stderr());
    Ok(host(
        rt,
        system.alloc(),
        order,
        devices,
        environment,
        &mut writer,
        &mut errors,
    ))
}
