//! Updates and scans at once, until the plug is pulled, and what their readers know then.
use crate::plug::device::Plugged;
use crate::plug::recovery::{Machine, Past, SCANNERS};
use crate::plug::worker::{Client, Place, Worker, work};
use crate::values::{Numbers, SEGMENTS};
use crate::watcher::Watcher;
use snap_devices::MemDisk;
use snap_writer::Writer;
use std::alloc::{AllocError, Global};
use std::io;
use std::sync::atomic::AtomicU64;
use std::thread::{Threads, for_each_mut};

/// Runs the machine, whose files have these numbers, until its plug is pulled.
pub(crate) fn run<R: Threads + Sync>(
    rt: &R,
    alloc: Global,
    machine: Machine,
    numbers: Numbers,
) -> io::Result<Vec<Worker>> {
    let Machine {
        store,
        plug,
        client_plugs,
    } = machine;
    let mut workers = Vec::new(alloc);
    for (writer, plug) in store.writers.into_iter().zip(client_plugs) {
        workers.push(Worker::Client(Client::new(writer, plug)))?;
    }
    for scanner in store.scanners {
        workers.push(Worker::Watcher(Watcher::new(alloc, scanner, numbers)?))?;
    }
    let arrived = AtomicU64::new(0);
    let count = SEGMENTS + SCANNERS;
    for_each_mut(
        rt,
        workers.as_mut_slice(),
        count,
        &|_, worker| work(worker, &plug, &arrived, count as u64),
    );
    Ok(workers)
}

/// The numbers that the clients received, and one more of each whose store was begun.
fn told_by(workers: &Vec<Worker>) -> io::Result<Past> {
    let mut past = Past::at([0; SEGMENTS]);
    for worker in workers {
        if let Worker::Client(client) = worker {
            if !client.is_right {
                return Err(io::Error::other("an update was answered wrongly"));
            }
            let is_begun = client.place == Place::InStore;
            let segment = client.writer.segment();
            past.least[segment] = client.told;
            past.most[segment] = client.told + is_begun as u64;
            past.places[segment] = client.place;
        }
    }
    Ok(past)
}

/// Values that a scan has shown stay. One more scan, after all updates, has all that was acknowledged.
fn show_to(watcher: &mut Watcher, past: &mut Past) -> io::Result<()> {
    watcher.scan();
    if !watcher.is_right {
        return Err(io::Error::other("a scan was wrong"));
    }
    for segment in 0..SEGMENTS {
        if watcher.shown[segment] < past.least[segment] {
            return Err(io::Error::other("a scan lacks an update that was answered"));
        }
        past.least[segment] = watcher.shown[segment];
    }
    Ok(())
}

/// The numbers that may come back once the machine has crashed.
pub(crate) fn past_of(workers: &mut Vec<Worker>) -> io::Result<Past> {
    let mut past = told_by(workers)?;
    for worker in workers.iter_mut() {
        if let Worker::Watcher(watcher) = worker {
            show_to(watcher, &mut past)?;
        }
    }
    Ok(past)
}

/// The device of a writer, in memory.
fn disk_of(writer: Writer<Plugged>) -> MemDisk {
    writer.into_segment().into_device().into_disk()
}

/// The devices of writers, in order.
pub(crate) fn devices_of(
    alloc: Global,
    writers: Vec<Writer<Plugged>>,
) -> Result<Vec<MemDisk>, AllocError> {
    let mut devices = Vec::new(alloc);
    for writer in writers {
        devices.push(disk_of(writer))?;
    }
    Ok(devices)
}

/// The devices of clients, in order.
pub(crate) fn devices_behind(
    alloc: Global,
    workers: Vec<Worker>,
) -> Result<Vec<MemDisk>, AllocError> {
    let mut devices = Vec::new(alloc);
    for worker in workers {
        if let Worker::Client(client) = worker {
            devices.push(disk_of(client.writer))?;
        }
    }
    Ok(devices)
}
