//! The clients of a server that loses power, each in a thread of its own.
use super::device::Plug;
use super::{Numbers, SEGMENTS};
use bytes::Bytes;
use snap_client::Client;
use snap_disk::Refusal;
use snap_frame::{Reply, SegmentValue};
use std::io;
use std::net::{SocketAddr, TcpStream};
use std::sync::atomic::{AtomicU64, Ordering};

/// More requests than a client makes until the plug is pulled.
const MANY: u64 = 100_000;

type Connection = Client<TcpStream, TcpStream>;

/// Where a writer was when the plug was pulled.
#[derive(Clone, Copy, PartialEq, Eq)]
pub(crate) enum Place {
    /// No call was done of a store after the last one whose update was answered.
    AtRest,
    /// Some call of a store was done, and the update was refused.
    InStore,
    /// The store had ended, and the answer came afterwards.
    BeforeAnswer,
}

/// A client that updates its segment, or that scans.
#[derive(Drop)]
pub(crate) struct Part<'a> {
    pub plug: &'a Plug,
    /// How many calls of its segment's file were done; `None` if it scans.
    pub done: Option<&'a AtomicU64>,
    pub segment: usize,
    /// The numbers that each segment may have at first, and later those that it has seen last.
    pub least: Numbers,
    pub most: Numbers,
    pub place: Place,
    /// Whether each answer was one that may come.
    pub is_right: bool,
}

/// The value of each number but 0, which has the empty one.
fn value_of(segment: usize, number: u64) -> [u8; 9] {
    let n = number.to_be_bytes();
    [
        segment as u8,
        n[0],
        n[1],
        n[2],
        n[3],
        n[4],
        n[5],
        n[6],
        n[7],
    ]
}

fn is_value_of(segment: usize, number: u64, value: &[u8]) -> bool {
    if number == 0 {
        return value.is_empty();
    }
    value == value_of(segment, number).as_slice()
}

fn connect(rt: &HostRuntime, address: SocketAddr) -> io::Result<Connection> {
    let stream = TcpStream::connect(rt, address)?;
    stream.set_nodelay(true)?;
    Ok(Client::new(rt.alloc(), stream.try_clone()?, stream))
}

impl Part<'_> {
    /// Asks until the plug is pulled.
    pub(crate) fn work(&mut self, rt: &HostRuntime, address: SocketAddr) {
        let Ok(mut client) = connect(rt, address) else {
            self.is_right = false;
            return;
        };
        match self.done {
            Some(done) => self.update_often(rt, &mut client, done),
            None => self.scan_often(&mut client),
        }
    }

    /// Updates from the number that the server has, which may be one of two.
    fn update_often(&mut self, rt: &HostRuntime, client: &mut Connection, done: &AtomicU64) {
        let segment = self.segment;
        let Ok(Reply::Status(statuses)) = client.status() else {
            self.is_right = false;
            return;
        };
        let number = statuses[segment].number;
        self.is_right &= self.least[segment] <= number && number <= self.most[segment];
        self.least[segment] = number;
        for _ in 0..MANY {
            if !self.update(rt, client, done) {
                return;
            }
        }
    }

    /// The next update. Whether it was answered before the plug was pulled.
    fn update(&mut self, rt: &HostRuntime, client: &mut Connection, done: &AtomicU64) -> bool {
        let segment = self.segment;
        let next = self.least[segment] + 1;
        let before = done.load(Ordering::SeqCst);
        let Ok(value) = Bytes::copy_from_slice(rt.alloc(), &value_of(segment, next)) else {
            self.is_right = false;
            return false;
        };
        match client.update(segment as u8, next, value) {
            Ok(Reply::Stored(stored)) => {
                self.is_right &= stored == next;
                self.least[segment] = next;
                if self.plug.is_pulled() {
                    self.place = Place::BeforeAnswer;
                }
                !self.plug.is_pulled()
            }
            Ok(Reply::Refused { why, .. }) => {
                self.is_right &= why == Refusal::DeviceFailed && self.plug.is_pulled();
                if done.load(Ordering::SeqCst) != before {
                    self.place = Place::InStore;
                }
                false
            }
            _ => {
                self.is_right = false;
                false
            }
        }
    }

    /// Scans, each of which has the values of its numbers, and none that is lower than one before.
    fn scan_often(&mut self, client: &mut Connection) {
        for _ in 0..MANY {
            let is_last = self.plug.is_pulled();
            match client.scan() {
                Ok(Reply::Snapshot(values)) => self.see(&values),
                _ => self.is_right = false,
            }
            if is_last || !self.is_right {
                return;
            }
        }
    }

    fn see(&mut self, values: &[SegmentValue]) {
        self.is_right &= values.len() == SEGMENTS;
        for (segment, found) in values.iter().enumerate() {
            let value = found.value.as_slice();
            self.is_right &= self.least[segment] <= found.number
                && is_value_of(segment, found.number, value);
            self.least[segment] = found.number;
        }
    }
}
