//! The acceptor: accepts connections while fewer than the limit are open.
ghost use Rattle.std.specs.Prelude.{◌≡◌, ◌⊎◌, IfErr, IfNone, IfOk, IfSome, Ok, Err};
ghost use Rattle.snap_server.specs.Deals.{AsksInVain, Gives};

use crate::fault::ServerEvent;
use crate::listen::{AcceptFault, Accepted, Listen};
use std::rt::Clock;
use std::sync::Wait;
use std::sync::atomic::{AtomicUsize, Ordering};
use std::thread;
use std::time::Duration;

/// The pauses after consecutive faults of a listener, as multiples of the first pause: ten thousand
/// in all, so that a passing fault doesn't end the server.
const FAULT_RESTS: [u32; 16] = [
    1, 2, 4, 8, 16, 32, 64, 128, 256, 512, 1_024, 1_600, 1_600, 1_600, 1_600, 1_600,
];

/// The pause before accepting is tried again, in milliseconds, if the limit is reached or the
/// system has no descriptor or memory for a socket.
const ROOM_REST: u64 = 10;

/// The divisor for [`Room`](ServerEvent::Room): it is reported once one in `PART` of the
/// connections that were open at [`Full`](ServerEvent::Full) has closed, or if more are open than
/// then. So connections that open and close one by one at the limit don't fill the log.
const PART: usize = 8;

/// Limits the number of open connections. A connection counts from its accept to its close.
#[derive(Drop)]
pub struct ConnectionLimit {
    most: usize,
    open: AtomicUsize,
}

impl ConnectionLimit {
    /// A limit of `most` connections, with none open.
    pub fn new(most: usize) -> ConnectionLimit {
        ConnectionLimit {
            most,
            open: AtomicUsize::new(0),
        }
    }

    /// The number of open connections.
    fn open(&self) -> usize {
        self.open.load(Ordering::SeqCst)
    }

    /// Counts a connection that was closed.
    pub fn leave(&self) {
        self.open.fetch_sub(1, Ordering::SeqCst);
    }
}

/// Accepts connections from a listener while fewer than the limit are open.
#[derive(Drop)]
pub struct Acceptor<'a> {
    limit: &'a ConnectionLimit,
    /// The pause after the first of several consecutive faults of a listener.
    fault_rest: Duration,
    /// The number of connections that were open when [`Full`](ServerEvent::Full) was reported;
    /// `None` if [`Room`](ServerEvent::Room) was reported since.
    full_at: Option<usize>,
}

impl<'a> Acceptor<'a> {
    /// An acceptor that counts connections in `limit`, and pauses for `fault_rest` after the first fault of a listener.
    pub fn new(limit: &'a ConnectionLimit, fault_rest: Duration) -> Acceptor<'a> {
        Acceptor {
            limit,
            fault_rest,
            full_at: None,
        }
    }

    /// Accepts the next connection. `None` after 16 consecutive faults of the listener, with a
    /// pause after each that grows.
    ///
    /// Reaching the limit is no fault: clients wait in the system's queue, and are accepted once a
    /// connection has closed.
    pub fn next<X: Wait + Clock, L: Listen, N: Fn(&ServerEvent)>(
        &mut self,
        rt: &X,
        listener: &mut L,
        note: &N,
    ) -> Option<Accepted>
        requires { N.IsAlwaysCallable note.now }
        ensures came { IfSome result (λ a. Gives L.accepts listener.old a listener.new) }
        ensures deaf { IfNone result (L.refuses listener.old) }
        ensures same { L.refuses listener.new → L.refuses listener.old }
    {
        for rest in &FAULT_RESTS {
            if let Some(arrival) = self.wait_for_one(rt, listener, note) {
                return Some(arrival);
            }
            thread::sleep(rt, self.fault_rest.saturating_mul(*rest));
        }
        note(&ServerEvent::Deaf);
        None
    }

    /// Accepts the next connection, waiting while the limit is reached or the system has no
    /// descriptor or memory for a socket. `None` if the listener has failed.
    fn wait_for_one<X: Wait + Clock, L: Listen, N: Fn(&ServerEvent)>(
        &mut self,
        rt: &X,
        listener: &mut L,
        note: &N,
    ) -> Option<Accepted>
        requires { N.IsAlwaysCallable note.now }
        ensures came { IfSome result (λ a. Gives L.accepts listener.old a listener.new) }
        ensures vain { IfNone result (AsksInVain L.accepts listener.old listener.new) }
        ensures deaf { IfNone result (L.refuses listener.old) }
        ensures same { L.refuses listener.new → L.refuses listener.old }
    {
        for _ in rt.forever() {
            match self.try_one(listener) {
                Ok(arrival) => {
                    self.limit.open.fetch_add(1, Ordering::SeqCst);
                    self.note_room(note);
                    return Some(arrival);
                }
                Err(AcceptFault::Gone) => {}
                Err(AcceptFault::NoRoom) => {
                    self.note_full(note);
                    thread::sleep(rt, Duration::from_millis(ROOM_REST));
                }
                Err(AcceptFault::Failed) => return None,
            }
        }
        unreachable!()
    }

    /// Accepts one connection from the listener, if fewer than the limit are open.
    fn try_one<L: Listen>(&self, listener: &mut L) -> Result<Accepted, AcceptFault>
        ensures came { IfOk result (λ a. L.accepts listener.old (Ok a) listener.new) }
        ensures vain { IfErr result (λ why. (listener.new ≡ listener.old)
            ⊎ L.accepts listener.old (Err why) listener.new) }
        ensures deaf { IfErr result (λ why. why ≡ AcceptFault.Failed → L.refuses listener.old) }
        ensures same { L.refuses listener.new → L.refuses listener.old }
    {
        if self.limit.open() >= self.limit.most {
            return Err(AcceptFault::NoRoom);
        }
        listener.accept()
    }

    /// Reports [`Full`](ServerEvent::Full), unless that was reported.
    fn note_full<N: Fn(&ServerEvent)>(&mut self, note: &N)
        requires { N.IsAlwaysCallable note.now }
    {
        if self.full_at.is_none() {
            let open = self.limit.open();
            self.full_at = Some(open);
            note(&ServerEvent::Full { open });
        }
    }

    /// Reports [`Room`](ServerEvent::Room), if [`Full`](ServerEvent::Full) was reported and there
    /// is room again. The connection just accepted is counted as open.
    fn note_room<N: Fn(&ServerEvent)>(&mut self, note: &N)
        requires { N.IsAlwaysCallable note.now }
    {
        if let Some(full) = self.full_at {
            let open = self.limit.open();
            if open > full || open <= full - full / PART {
                self.full_at = None;
                note(&ServerEvent::Room);
            }
        }
    }
}
