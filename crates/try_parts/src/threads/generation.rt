//! One run between an opening of all files and the crash that ends it.
use crate::draw::Draw;
use crate::threads::worker::{Client, scan_all, update_all};
use crate::values::{Numbers, SEGMENTS, is_value_of};
use crate::watcher::Watcher;
use snap_devices::MemDisk;
use snap_restart::Store;
use snap_writer::Writer;
use std::alloc::{AllocError, Global};
use std::sync::atomic::AtomicU64;
use std::thread::{Threads, for_each_mut, join};
use std::{io, mem};

pub(crate) const SCANNERS: usize = 2;

/// How many threads work at once.
const WORKERS: u64 = (SEGMENTS + SCANNERS) as u64;

/// The numbers that the clients and the readers of scans know when the machine crashes.
#[derive(Clone, Copy)]
pub struct Outcome {
    /// The last number of each segment whose update was answered, which the last scans showed.
    pub stored: Numbers,
    /// The greatest number that may be there after the crash: one more where an update was begun.
    pub most: Numbers,
}

/// The machine crashes. What each device is left with is drawn.
pub(crate) fn crash_all(devices: &mut Vec<MemDisk>, draw: &mut Draw) {
    for disk in devices.iter_mut() {
        let fill = draw.fill();
        disk.crash(&fill);
    }
}

/// Whether the number and the value are right for what was known before the crash: nothing that was
/// answered or shown is lost, and nothing is there that wasn't begun.
fn is_recovered(writer: &Writer<MemDisk>, last: &Outcome) -> bool {
    let (segment, number) = (writer.segment(), writer.number());
    last.stored[segment] <= number
        && number <= last.most[segment]
        && is_value_of(segment, number, writer.value())
}

/// All clients and watchers, taken out of their store.
#[derive(Drop)]
pub struct Workers {
    /// In the order of their segments.
    pub clients: Vec<Client>,
    pub watchers: Vec<Watcher>,
}

/// Takes the writers and the scanners out of the store, and puts a client or a watcher at each.
pub(crate) fn take_out(
    alloc: Global,
    store: &mut Store<MemDisk>,
    last: &Outcome,
) -> io::Result<Workers> {
    let mut clients = Vec::new(alloc);
    for writer in mem::replace(&mut store.writers, Vec::new(alloc)) {
        if !is_recovered(&writer, last) {
            return Err(io::Error::other("a crash left what it could not leave"));
        }
        clients.push(Client::new(writer))?;
    }
    let mut watchers = Vec::new(alloc);
    for scanner in mem::replace(&mut store.scanners, Vec::new(alloc)) {
        watchers.push(Watcher::new(alloc, scanner, last.stored)?)?;
    }
    Ok(Workers { clients, watchers })
}

/// All clients make their updates, each in a thread of its own.
fn update_at_once<R: Threads + Sync>(rt: &R, clients: &mut [Client], arrived: &AtomicU64) {
    for_each_mut(
        rt,
        clients,
        SEGMENTS,
        &|_, client| update_all(client, arrived, WORKERS),
    );
}

/// All watchers make their scans, each in a thread of its own.
fn scan_at_once<R: Threads + Sync>(rt: &R, watchers: &mut [Watcher], arrived: &AtomicU64) {
    for_each_mut(
        rt,
        watchers,
        SCANNERS,
        &|_, watcher| scan_all(watcher, arrived, WORKERS),
    );
}

/// All work at once.
pub(crate) fn work_all<R: Threads + Sync>(rt: &R, workers: &mut Workers) {
    let arrived = AtomicU64::new(0);
    let clients = workers.clients.as_mut_slice();
    let watchers = workers.watchers.as_mut_slice();
    join(
        rt,
        || update_at_once(rt, clients, &arrived),
        || scan_at_once(rt, watchers, &arrived),
    );
}

/// The numbers that the files start with, or end with.
pub(crate) fn stored_by(clients: &Vec<Client>) -> Numbers {
    let mut stored = [0; SEGMENTS];
    for client in clients {
        stored[client.writer.segment()] = client.stored;
    }
    stored
}

/// The outcome of a run, where each answer was right, and one scan more by each watcher has all that was stored.
pub(crate) fn outcome_of(workers: &mut Workers) -> io::Result<Outcome> {
    let stored = stored_by(&workers.clients);
    let (mut most, mut is_right) = (stored, true);
    for client in &workers.clients {
        is_right &= client.is_right;
        most[client.writer.segment()] += client.has_begun as u64;
    }
    for watcher in workers.watchers.iter_mut() {
        watcher.scan();
        is_right &= watcher.is_right && watcher.shown == stored;
    }
    if !is_right {
        return Err(io::Error::other("an answer was wrong"));
    }
    Ok(Outcome { stored, most })
}

/// Puts all writers and scanners back into their store, and closes it. The devices, in order.
pub(crate) fn close(
    mut store: Store<MemDisk>,
    workers: Workers,
) -> Result<Vec<MemDisk>, AllocError> {
    for client in workers.clients {
        store.writers.push(client.writer)?;
    }
    for watcher in workers.watchers {
        store.scanners.push(watcher.scanner)?;
    }
    Ok(store.close())
}
