//! A worker's mailbox, by which other threads send it connections and messages.
ghost use Rattle.std.specs.Prelude.{◌≡◌, IfOk, IfErr, true};
ghost use Rattle.snap_server.specs.declared.listen.Accepted.{Accepted};

use crate::listen::Accepted;
use crossbeam_channel::{Receiver, SendError, Sender, unbounded};
use mio::Waker;
use std::alloc::{AllocError, Global};
use std::rt::Clock;
use std::sync::atomic::{AtomicBool, Ordering};
use std::sync::{Arc, Wait};
use std::thread;
use std::time::Duration;

/// The pause before a send is tried again after memory ran out, in milliseconds.
const REST: u64 = 5;

/// A message to a worker, other than a connection.
#[derive(Drop)]
pub enum Message<O: Drop> {
    /// The outcome of the request that the connection `key` handed over.
    Done { key: usize, outcome: O },
    /// No more connections will arrive.
    Close,
    /// No more connections will arrive, and each existing one is closed between two requests.
    Stop,
}

/// Delivers connections and messages to a worker.
pub trait Deliver {
    /// The outcome of a request that the worker's service handed over.
    type Outcome: Drop;

    /// The connection was delivered to the worker.
    ghost takes: { Self → Accepted → Type 0 };

    /// The worker was busy with a request of its only connection.
    ghost is_busy: { Self → Type 0 };

    /// The worker had no connection.
    ghost was_idle: { Self → Type 0 };

    /// Whether the worker has no connection, as far as it has said yet.
    fn is_idle(&self) -> bool
        ensures { result ≡ true → was_idle self.now };

    /// Delivers a connection and wakes the worker; `Ok(false)` if it has ended. If it is busy, the connection is
    /// returned.
    fn deliver<X: Wait + Clock>(&self, rt: &X, arrival: Accepted) -> Result<bool, Accepted>
        ensures taken { IfOk result (λ is_taken. is_taken ≡ true → takes self.now arrival) }
        ensures busy { IfErr result (λ back. (back ≡ arrival) × is_busy self.now) };

    /// Sends a message and wakes the worker; `false` if it has ended.
    fn post<X: Wait + Clock>(&self, rt: &X, message: Message<Self::Outcome>) -> bool;
}

/// The sending side of a worker's mailbox.
///
/// Connections and messages have separate channels, so that no outcome waits for connections to be
/// taken. A wake is lost once its waker is dropped, so a sender outlives its worker.
///
/// A wake is a system call, and a worker that is awake needs none, since it polls its mailbox. A
/// worker sets `sleeps` and then polls the mailbox once more; a sender sends first and then reads
/// `sleeps`. In any order, one of the two sees what the other did.
#[derive(Drop)]
pub struct MailboxSender<O: Drop> {
    arrivals: Sender<Accepted>,
    messages: Sender<Message<O>>,
    waker: Waker,
    state: Arc<WorkerState, Global>,
    /// Whether its worker is the last one, which is never busy.
    is_last: bool,
    /// The index of its worker. Only clauses read it.
    place: usize,
}

/// The receiving side of a worker's mailbox.
#[derive(Drop)]
pub struct Mailbox<O: Drop> {
    pub arrivals: Receiver<Accepted>,
    pub messages: Receiver<Message<O>>,
    state: Arc<WorkerState, Global>,
    /// The index of its worker. Only clauses read it.
    place: usize,
}

/// What both sides of a mailbox know of its worker.
#[derive(Drop)]
struct WorkerState {
    /// Whether the worker sleeps, or is about to.
    sleeps: AtomicBool,
    /// Whether the worker is busy with its only connection, or gets another one just now. Whoever changes it from
    /// `false` changes it back. That of the last worker is always `true`.
    busy: AtomicBool,
    /// Whether the worker has no connection, and none was delivered since it said so.
    idle: AtomicBool,
}

impl<O: Drop> MailboxSender<O> {
    /// Makes both sides of a mailbox, for the worker at index `place`, and whether that is the last one.
    pub fn new(
        alloc: Global,
        waker: Waker,
        place: usize,
        is_last: bool,
    ) -> Result<(MailboxSender<O>, Mailbox<O>), AllocError>
        ensures sender { IfOk result (λ made. made.0.place ≡ place) }
        ensures mailbox { IfOk result (λ made. made.1.place ≡ place) }
    {
        let (arrivals, arrived) = unbounded(alloc)?;
        let (messages, came) = unbounded(alloc)?;
        let state = WorkerState {
            sleeps: AtomicBool::new(false),
            busy: AtomicBool::new(is_last),
            idle: AtomicBool::new(true),
        };
        let state = Arc::new(alloc, state)?;
        let mailbox = Mailbox {
            arrivals: arrived,
            messages: came,
            state: Arc::try_clone(&state)?,
            place,
        };
        let sender = MailboxSender {
            arrivals,
            messages,
            waker,
            state,
            is_last,
            place,
        };
        Ok((sender, mailbox))
    }

    /// Sends `what`, and wakes the worker if it sleeps. `false` if the receiver was dropped, or the
    /// system refused the wake.
    ///
    /// If memory runs out it pauses and tries again, so that nothing is lost: a request whose
    /// outcome were dropped would never be answered.
    fn send<X: Wait + Clock, T: Drop>(&self, rt: &X, to: &Sender<T>, what: T) -> bool {
        let mut what = what;
        for _ in rt.forever() {
            what = match to.send(rt, what) {
                Ok(()) => return !self.state.sleeps.load(Ordering::SeqCst)
                    || self.waker.wake().is_ok(),
                Err(SendError::Disconnected(_)) => return false,
                Err(SendError::OutOfMemory(back)) => back,
            };
            thread::sleep(rt, Duration::from_millis(REST));
        }
        unreachable!()
    }
}

impl<O: Drop> Mailbox<O> {
    /// Whether it holds a connection or a message.
    pub fn has_some(&self) -> bool {
        !self.messages.is_empty() || self.has_arrivals()
    }

    /// Whether it holds a connection.
    pub fn has_arrivals(&self) -> bool {
        !self.arrivals.is_empty()
    }

    /// Marks the worker as busy with its only connection, so that no other one is delivered to it; `false` if one is
    /// delivered, or the worker is the last one.
    pub fn try_be_busy(&self) -> bool {
        if self.state.busy.swap(true, Ordering::SeqCst) {
            return false;
        }
        let is_alone = !self.has_arrivals();
        self.be_free(!is_alone);
        is_alone
    }

    /// Marks the worker as busy no more, if it was.
    pub fn be_free(&self, was_busy: bool) {
        if was_busy {
            self.state.busy.store(false, Ordering::SeqCst);
        }
    }

    /// Marks the worker as one without a connection.
    pub fn be_idle(&self) {
        self.state.idle.store(true, Ordering::SeqCst);
    }

    /// Marks the worker as about to sleep, then checks the mailbox. If the mailbox isn't empty the
    /// worker may not sleep, and is marked as awake.
    pub fn may_sleep(&self) -> bool {
        self.state.sleeps.store(true, Ordering::SeqCst);
        if self.has_some() {
            self.is_awake();
            return false;
        }
        true
    }

    /// Marks the worker as awake.
    pub fn is_awake(&self) {
        self.state.sleeps.store(false, Ordering::SeqCst);
    }
}

impl<O: Drop> Deliver for MailboxSender<O> {
    type Outcome = O;

    // Nothing is known of what passes through a channel.
    ghost takes = { λ _ _. Unit {0} };

    ghost is_busy = { λ _. Unit {0} };

    ghost was_idle = { λ _. Unit {0} };

    fn is_idle(&self) -> bool {
        self.state.idle.load(Ordering::SeqCst)
    }

    fn deliver<X: Wait + Clock>(&self, rt: &X, arrival: Accepted) -> Result<bool, Accepted> {
        self.state.idle.store(false, Ordering::SeqCst);
        if self.state.busy.swap(true, Ordering::SeqCst) && !self.is_last {
            return Err(arrival);
        }
        let is_sent = self.send(rt, &self.arrivals, arrival);
        self.state.busy.store(self.is_last, Ordering::SeqCst);
        Ok(is_sent)
    }

    fn post<X: Wait + Clock>(&self, rt: &X, message: Message<O>) -> bool {
        self.send(rt, &self.messages, message)
    }
}
