//! The clients and the scanners until the plug is pulled, each in a thread of its own.
use crate::plug::device::Plugged;
use crate::plug::pull::Plug;
use crate::values::value_of;
use crate::watcher::{Watcher, wait_for_all};
use snap_disk::Refusal;
use snap_writer::Writer;
use std::sync::atomic::AtomicU64;
use std::thread::yield_now;

/// More updates than a client makes, and more scans than a scanner makes, until the plug is pulled.
const MANY: u64 = 100_000;

/// How long a worker waits for the others before it begins, in turns of yielding.
const TURNS: u64 = 100;

/// Where a writer was when the plug was pulled.
#[derive(Clone, Copy, PartialEq, Eq)]
pub enum Place {
    /// No call was done of a store after the last one whose update was answered.
    AtRest,
    /// Some call of a store was done, and the update failed.
    InStore,
    /// The store had ended, and the client had no answer yet. It came afterwards.
    BeforeAnswer,
}

/// A writer, and what its client received.
#[derive(Drop)]
pub struct Client {
    pub writer: Writer<Plugged>,
    /// The plug of the writer's device.
    pub plug: Plug,
    /// The number of the last update that was answered.
    pub told: u64,
    /// Where the writer was when the plug was pulled.
    pub place: Place,
    /// Whether each answer was one that may come.
    pub is_right: bool,
}

/// A client or a reader, in a thread of its own.
#[derive(Drop)]
pub enum Worker {
    Client(Client),
    Watcher(Watcher),
}

impl Client {
    /// A client of this writer, which is at rest.
    pub fn new(writer: Writer<Plugged>, plug: Plug) -> Client {
        Client {
            told: writer.number(),
            writer,
            plug,
            place: Place::AtRest,
            is_right: true,
        }
    }

    /// The next update. Whether it was answered before the plug was pulled.
    fn send(&mut self) -> bool {
        let next = self.told + 1;
        let done = self.plug.done();
        let value = value_of(self.writer.segment(), next);
        match self.writer.update(next, &value) {
            Ok(stored) => {
                self.is_right &= stored == next;
                self.told = next;
                if self.plug.is_pulled() {
                    self.place = Place::BeforeAnswer;
                    return false;
                }
                true
            }
            Err(why) => {
                self.is_right &= why == Refusal::DeviceFailed && self.plug.is_pulled();
                if self.plug.done() != done {
                    self.place = Place::InStore;
                }
                false
            }
        }
    }

    /// Updates until the plug is pulled.
    fn work(&mut self) {
        for _ in 0..MANY {
            if !self.send() {
                return;
            }
            yield_now();
        }
    }
}

/// Scans until the plug is pulled.
fn watch(watcher: &mut Watcher, plug: &Plug) {
    for _ in 0..MANY {
        watcher.scan();
        if plug.is_pulled() {
            return;
        }
        yield_now();
    }
}

/// Does all that is one worker's, once all of them are there.
pub(crate) fn work(worker: &mut Worker, plug: &Plug, arrived: &AtomicU64, workers: u64) {
    wait_for_all(arrived, workers, TURNS);
    match worker {
        Worker::Client(client) => client.work(),
        Worker::Watcher(watcher) => watch(watcher, plug),
    }
}
