//! The writers and the scanners, each in a thread of its own, with their results.
use crate::values::value_of;
use crate::watcher::{Watcher, wait_for_all};
use snap_devices::MemDisk;
use snap_disk::Refusal;
use snap_writer::Writer;
use std::sync::atomic::AtomicU64;
use std::thread::yield_now;

/// How many updates a writer makes, if none fails.
const UPDATES: u64 = 10;

/// How many scans a scanner makes.
const SCANS: u64 = 20;

/// How long a worker waits for the others before it begins, in turns of yielding.
const TURNS: u64 = 10_000;

/// A writer, and what was acknowledged to its client.
#[derive(Drop)]
pub struct Client {
    pub writer: Writer<MemDisk>,
    /// The number of the last update that was answered.
    pub stored: u64,
    /// Whether the next one was begun and refused.
    pub has_begun: bool,
    /// Whether each answer was the one that had to come.
    pub is_right: bool,
}

impl Client {
    /// The client of this writer, to which nothing was answered yet.
    pub fn new(writer: Writer<MemDisk>) -> Client {
        Client {
            stored: writer.number(),
            writer,
            has_begun: false,
            is_right: true,
        }
    }

    /// Sends the last update again, which is answered as before, and then the next one. Whether it was stored.
    fn send(&mut self) -> bool {
        let segment = self.writer.segment();
        let number = self.writer.number();
        if number > 0 {
            let again = self.writer.update(number, &value_of(segment, number));
            self.is_right &= again == Ok(number);
        }
        let next = number + 1;
        match self.writer.update(next, &value_of(segment, next)) {
            Ok(stored) => {
                self.is_right &= stored == next;
                self.stored = next;
                true
            }
            Err(why) => {
                self.has_begun = true;
                self.is_right &= why == Refusal::DeviceFailed && self.writer.is_fenced();
                false
            }
        }
    }

    /// Makes its updates. One that fails is the last, and is refused from then on.
    fn work(&mut self) {
        for _ in 0..UPDATES {
            if !self.send() {
                let segment = self.writer.segment();
                let next = self.writer.number() + 1;
                let again = self.writer.update(next, &value_of(segment, next));
                self.is_right &= again == Err(Refusal::Fenced);
                return;
            }
            yield_now();
        }
    }
}

/// Makes all updates of one client, once all workers are there.
pub(crate) fn update_all(client: &mut Client, arrived: &AtomicU64, workers: u64) {
    wait_for_all(arrived, workers, TURNS);
    client.work();
}

/// Makes all scans of one watcher, once all workers are there.
pub(crate) fn scan_all(watcher: &mut Watcher, arrived: &AtomicU64, workers: u64) {
    wait_for_all(arrived, workers, TURNS);
    for _ in 0..SCANS {
        watcher.scan();
        yield_now();
    }
}
