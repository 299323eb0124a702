//! Turns whose reader or writer would block, fails, ends or is interrupted, and how often a request is handed over.

ghost use Rattle.std.specs.Prelude.{◌≡◌, IfOk};
ghost use Rattle.snap_frame.specs.Messages.{IsInLimits};

use super::{End, Polled, proceed};
use crate::service::Service;
use crate::session::Session;
use snap_disk::Refusal;
use snap_frame::{Reply, Request};
use std::alloc::Global;
use std::cell::Cell;
use std::io::{self, ErrorKind, Read, Write};

/// The result of a call of a stream once all its bytes have passed.
#[derive(Clone, Copy, Debug, Drop)]
enum Then {
    Ends,
    Fails(ErrorKind),
}

impl Then {
    fn answer(self) -> io::Result<usize>
        ensures { IfOk result (λ n. n ≡ 0) }
    {
        match self {
            Then::Ends => Ok(0),
            Then::Fails(kind) => Err(io::Error::from(kind)),
        }
    }
}

/// A reader of these bytes, `step` at a time.
#[derive(Drop)]
struct Source<'a> {
    bytes: &'a [u8],
    step: usize,
    passed: usize,
    then: Then,
    reads: u32,
}

impl<'a> Source<'a> {
    fn new(bytes: &'a [u8], step: usize, then: Then) -> Source<'a> {
        Source {
            bytes,
            step,
            passed: 0,
            then,
            reads: 0,
        }
    }
}

impl Read for Source<'_> {
    fn read(&mut self, buf: &mut [u8]) -> io::Result<usize> {
        self.reads = self.reads.wrapping_add(1);
        let bytes = self.bytes;
        if bytes.len() <= self.passed {
            return self.then.answer();
        }
        let left = &bytes[self.passed..];
        let n = left.len().min(self.step).min(buf.len());
        buf[..n].copy_from_slice(&left[..n]);
        self.passed = self.passed.saturating_add(n);
        Ok(n)
    }
}

/// A writer that takes `room` bytes.
#[derive(Drop)]
struct Sink {
    room: usize,
    then: Then,
    written: usize,
}

impl Sink {
    fn new(room: usize, then: Then) -> Sink {
        Sink {
            room,
            then,
            written: 0,
        }
    }
}

impl Write for Sink {
    fn write(&mut self, buf: &[u8]) -> io::Result<usize> {
        let n = buf.len().min(self.room);
        if n == 0 {
            return self.then.answer();
        }
        self.room = self.room.saturating_sub(n);
        self.written = self.written.saturating_add(n);
        Ok(n)
    }

    fn flush(&mut self) -> io::Result<()> {
        Ok(())
    }
}

/// A service that hands every update over and counts it, and answers every other request at once.
#[derive(Drop)]
struct Clerk<'a> {
    handed: &'a Cell<u32>,
}

impl Service for Clerk<'_> {
    type Outcome = u64;

    ghost gives = { λ old request reply new. Unit {0} };

    ghost hands_over = { Unit {0} };

    fn answer(&mut self, request: &Request, _key: usize) -> Option<Reply> {
        let Request::Update { .. } = request else {
            return Some(refused(0));
        };
        self.handed.set(self.handed.get().wrapping_add(1));
        None
    }

    fn finish(&mut self, _request: &Request, outcome: u64) -> Reply {
        refused(outcome)
    }
}

/// A reply whose frame has 14 bytes.
fn refused(detail: u64) -> Reply
    ensures { IsInLimits result }
{
    Reply::Refused {
        why: Refusal::NoSegment,
        detail,
    }
}

/// A session between a source and a sink.
#[derive(Drop)]
struct Peer<'a> {
    session: Session,
    source: Source<'a>,
    sink: Sink,
}

impl<'a> Peer<'a> {
    fn new(alloc: Global, source: Source<'a>, sink: Sink) -> Peer<'a> {
        Peer {
            session: Session::new(alloc),
            source,
            sink,
        }
    }

    fn turn(&mut self, clerk: &mut Clerk<'_>) -> Polled {
        let mut piece = [0; 64];
        proceed(
            &mut self.session,
            &mut self.source,
            &mut self.sink,
            clerk,
            0,
            &mut piece,
        )
    }

    fn finish(&mut self, clerk: &mut Clerk<'_>) {
        if self.session.over().is_none() {
            self.session.finish(clerk, 9);
        }
    }
}

/// A whole scan, and one that is followed by the beginning of another.
const WHOLE: &[u8] = &[0, 0, 0, 1, 2];

const CUT: &[u8] = &[0, 0, 0, 1, 2, 0, 0];

/// The result of a turn over a whole frame, and over one with a truncated frame after it, by the
/// result of the next read.
const READS: [(Then, Polled, Polled); 4] = [
    (
        Then::Ends,
        Polled::Over(End::Closed),
        Polled::Over(End::Truncated),
    ),
    (
        Then::Fails(ErrorKind::WouldBlock),
        Polled::NeedsInput,
        Polled::NeedsInput,
    ),
    (
        Then::Fails(ErrorKind::Interrupted),
        Polled::Over(End::ReadFailed),
        Polled::Over(End::ReadFailed),
    ),
    (
        Then::Fails(ErrorKind::Other),
        Polled::Over(End::ReadFailed),
        Polled::Over(End::ReadFailed),
    ),
];

/// Takes the first turn over these bytes and a reader that then returns `then`. Returns its result,
/// and how many bytes of replies were written.
fn turn_over(alloc: Global, bytes: &[u8], then: Then) -> (Polled, usize) {
    let handed = Cell::new(0);
    let mut clerk = Clerk { handed: &handed };
    let source = Source::new(bytes, 64, then);
    let mut peer = Peer::new(alloc, source, Sink::new(usize::MAX, Then::Ends));
    let turn = peer.turn(&mut clerk);
    (turn, peer.sink.written)
}

/// Only `WouldBlock` means to wait, and every whole frame is answered before.
#[test]
fn a_read_that_gives_nothing(rt: HostRuntime) {
    for (then, whole, cut) in READS {
        assert!(rt;
            turn_over(rt.alloc(), WHOLE, then) == (whole, 14),
            "{then:?}"
        );
        assert!(rt;
            turn_over(rt.alloc(), CUT, then) == (cut, 14),
            "cut, {then:?}"
        );
    }
}

/// The result of a turn with more pending output than the writer takes, by the result of the next write.
const WRITES: [(Then, Polled); 4] = [
    (Then::Ends, Polled::Over(End::WriteFailed)),
    (Then::Fails(ErrorKind::WouldBlock), Polled::NeedsRoom),
    (
        Then::Fails(ErrorKind::Interrupted),
        Polled::Over(End::WriteFailed),
    ),
    (
        Then::Fails(ErrorKind::Other),
        Polled::Over(End::WriteFailed),
    ),
];

/// Takes two turns over a writer with this room that then returns `then`. Returns their results,
/// how many bytes were written, and how many reads there were. There is always more to read.
fn turns_short_of_room(alloc: Global, room: usize, then: Then) -> (Polled, Polled, usize, u32) {
    let handed = Cell::new(0);
    let mut clerk = Clerk { handed: &handed };
    let source = Source::new(CUT, 5, Then::Fails(ErrorKind::WouldBlock));
    let mut peer = Peer::new(alloc, source, Sink::new(room, then));
    let first = peer.turn(&mut clerk);
    let second = peer.turn(&mut clerk);
    (first, second, peer.sink.written, peer.source.reads)
}

/// Only `WouldBlock` means to wait, and nothing is read while output is pending.
#[test]
fn a_write_that_takes_nothing(rt: HostRuntime) {
    for (then, turn) in WRITES {
        for room in [0, 5] {
            let is = turns_short_of_room(rt.alloc(), room, then) == (turn, turn, room, 1);
            assert!(rt; is, "room {room}, {then:?}");
        }
    }
}

/// A scan, and two updates.
const UPDATES: &[u8] = &[
    0, 0, 0, 1, 2, 0, 0, 0, 11, 1, 7, 0, 0, 0, 0, 0, 0, 0, 1, 0x68, 0, 0, 0, 11, 1, 7, 0, 0, 0, 0,
    0, 0, 0, 2, 0x69,
];

/// Takes two turns, of which the second begins where the first ended. Returns their results, and
/// how many requests had been handed over before the first one, after it, and after the second.
fn two_turns(peer: &mut Peer<'_>, clerk: &mut Clerk<'_>) -> (Polled, Polled, u32, u32, u32) {
    let before = clerk.handed.get();
    let first = peer.turn(clerk);
    let between = clerk.handed.get();
    let second = peer.turn(clerk);
    (first, second, before, between, clerk.handed.get())
}

/// Each update is handed over once, however often its session gets a turn before its outcome, and
/// no other request is handed over.
#[test]
fn handed_over_once(rt: HostRuntime) {
    let handed = Cell::new(0);
    let mut clerk = Clerk { handed: &handed };
    let source = Source::new(UPDATES, 64, Then::Fails(ErrorKind::WouldBlock));
    let mut peer = Peer::new(rt.alloc(), source, Sink::new(usize::MAX, Then::Ends));
    for update in [0, 1] {
        let wants = (
            Polled::NeedsOutcome,
            Polled::NeedsOutcome,
            update,
            update + 1,
            update + 1,
        );
        assert!(rt;
            two_turns(&mut peer, &mut clerk) == wants,
            "update {update}"
        );
        peer.finish(&mut clerk);
    }
    let wants = (Polled::NeedsInput, Polled::NeedsInput, 2, 2, 2);
    assert!(rt; two_turns(&mut peer, &mut clerk) == wants && peer.sink.written == 42);
}
