//! A worker: one thread that serves many connections.
ghost use Rattle.std.specs.Prelude.{◌≡◌, ◌⊎◌, ◌++◌, ◌∷◌, ℕ, List, [], Some, IfOk, IfErr, true};
ghost use Rattle.slab.specs.Slab.{get, slab_len};
ghost use Rattle.snap_session.specs.{Asked.AllAsked, Talk.Moves};
ghost use Rattle.snap_server.specs.Turns.{HadTurn, HadItsTurn};
ghost use Rattle.snap_server.specs.{TurnList.KeepsOthers, declared.connection.TheConstants.PIECE};

use crate::acceptor::ConnectionLimit;
use crate::connection::{CloseReason, Closed, Connection, IdleCheck, IdleTimeout, PIECE};
use crate::fault::{ServerEvent, ServerFault};
use crate::mailbox::{Mailbox, MailboxSender, Message};
use crate::sessions::Sessions;
use crate::threads::Work;
use mio::{Events, Poll, Token, Waker};
use snap_session::{End, Service, Spin};
use std::alloc::Global;
use std::net::Net;
use std::rt::Clock;
use std::sync::Wait;
use std::time::{Duration, Instant};
use std::{io, thread};

/// The token of the waker. A connection's token is its key.
const MAILBOX: Token = Token(usize::MAX);

/// The most events of one wait.
const MAX_EVENTS: usize = 256;

/// Polls without sleeping before a worker blocks: about 80 us, twice as long as it takes to wake a thread.
const SPINS: u32 = 200;

/// A thread that serves many connections, and all that it owns.
#[derive(Drop)]
pub struct Worker<'a, S: Service + Drop>
where
    S::Outcome: Drop,
{
    alloc: Global,
    limit: &'a ConnectionLimit,
    poll: Poll,
    /// The events of the last wait. Allocated at the start, so that a serving worker allocates no memory for itself.
    events: Events,
    mailbox: Mailbox<S::Outcome>,
    sessions: Sessions<S>,
    is_open: bool,
    /// Whether its service may wait, since nobody else waits for it.
    may_wait: bool,
    spin: Spin,
    /// The idle timeout of its connections; `None` for no limit.
    timeout: Option<IdleTimeout>,
    /// The time of its last idle check.
    looked: Option<Instant>,
}

/// Maps an I/O error of the event queue to the fault that the server reports.
fn fault_of(error: io::Error) -> ServerFault
    ensures { (result ≡ ServerFault.NoPoll) ⊎ (result ≡ ServerFault.NoMemory) }
{
    match error.kind() {
        io::ErrorKind::OutOfMemory => ServerFault::NoMemory,
        _ => ServerFault::NoPoll,
    }
}

/// Lists the connections that are ready, and checks those whose socket has an error.
fn list_ready<S: Service + Drop, N: Fn(&ServerEvent)>(
    sessions: &mut Sessions<S>,
    events: &Events,
    limit: &ConnectionLimit,
    note: &N,
)
    requires { N.IsAlwaysCallable note.now }
    ensures service { sessions.new.service ≡ sessions.old.service }
{
    for event in events {
        match event.token() {
            MAILBOX => {}
            Token(key) => {
                if event.is_error() {
                    look_at(sessions, key, &IdleCheck::Lost, limit, note);
                }
                if let Some(connection) = sessions.connections.get(key) {
                    connection.input.note(event.is_read_closed());
                }
                sessions.list(key);
            }
        }
    }
}

/// Checks a connection that isn't being polled, and removes it if it is closed.
fn look_at<S: Service + Drop, N: Fn(&ServerEvent)>(
    sessions: &mut Sessions<S>,
    key: usize,
    why: &IdleCheck,
    limit: &ConnectionLimit,
    note: &N,
)
    requires { N.IsAlwaysCallable note.now }
    ensures service { sessions.new.service ≡ sessions.old.service }
{
    if let Some(ended) = sessions.look(key, why) {
        let_go(sessions, key, ended, limit, note);
    }
}

/// Reports a closed connection to the log, and removes it.
fn let_go<S: Service + Drop, N: Fn(&ServerEvent)>(
    sessions: &mut Sessions<S>,
    key: usize,
    ended: Closed,
    limit: &ConnectionLimit,
    note: &N,
)
    requires { N.IsAlwaysCallable note.now }
    ensures service { sessions.new.service ≡ sessions.old.service }
    ensures same { (c : Connection) → get sessions.new.connections key ≡ Some c
        → get sessions.old.connections key ≡ Some c }
    ensures others { KeepsOthers key sessions.old.connections sessions.new.connections }
    ensures order { sessions.new.listed.items ≡ sessions.old.listed.items }
{
    limit.leave();
    note(&ServerEvent::Ended(ended));
    sessions.let_go(key);
}

impl<'a, S: Service + Drop> Worker<'a, S>
where
    S::Outcome: Drop,
{
    /// Makes a worker without connections, for index `place`, and the sender to its mailbox. The last worker is never
    /// busy, so that there is one for each connection that arrives. `idle` is the idle timeout of its connections;
    /// `None` for no limit. Each that is closed leaves `limit`.
    pub fn new(
        net: &impl Net,
        alloc: Global,
        service: S,
        place: usize,
        is_last: bool,
        idle: Option<Duration>,
        limit: &'a ConnectionLimit,
    ) -> Result<(Worker<'a, S>, MailboxSender<S::Outcome>), ServerFault>
        ensures service { IfOk result (λ made. made.0.sessions.service ≡ service) }
        ensures mailbox { IfOk result (λ made. made.0.mailbox.place ≡ place) }
        ensures sender { IfOk result (λ made. made.1.place ≡ place) }
        ensures faults { IfErr result (λ fault. (fault ≡ ServerFault.NoPoll) ⊎ (fault ≡ ServerFault.NoMemory)) }
    {
        let poll = Poll::new(net).map_err(fault_of)?;
        let waker = Waker::new(poll.registry(), MAILBOX).map_err(fault_of)?;
        let Ok(events) = Events::with_capacity(alloc, MAX_EVENTS) else {
            return Err(ServerFault::NoMemory);
        };
        let Ok((sender, mailbox)) = MailboxSender::new(alloc, waker, place, is_last) else {
            return Err(ServerFault::NoMemory);
        };
        let worker = Worker {
            alloc,
            limit,
            poll,
            events,
            mailbox,
            sessions: Sessions::new(alloc, service),
            is_open: true,
            may_wait: false,
            spin: Spin::new(),
            timeout: idle.map(IdleTimeout::of),
            looked: None,
        };
        Ok((worker, sender))
    }

    /// Takes one message out of the mailbox, if it holds one. Only one, so that the listed
    /// connections don't wait for the replies of all outcomes that arrived at once.
    fn read_messages<X: Wait>(&mut self, rt: &X)
        ensures moves { Moves S.gives self.old.sessions.service self.new.sessions.service }
    {
        match self.mailbox.messages.try_recv(rt) {
            Ok(Message::Done { key, outcome }) => self.sessions.tell(key, outcome),
            Ok(Message::Close) => self.is_open = false,
            Ok(Message::Stop) => {
                self.timeout = Some(IdleTimeout::last());
                self.is_open = false;
            }
            Err(_) => {}
        }
    }

    /// Takes one connection out of the mailbox, if it holds one. If memory runs out, that connection is closed, and the
    /// others aren't affected.
    fn take_arrival<X: Wait, N: Fn(&ServerEvent)>(&mut self, rt: &X, note: &N)
        requires { N.IsAlwaysCallable note.now }
        ensures service { self.new.sessions.service ≡ self.old.sessions.service }
    {
        let Ok(arrival) = self.mailbox.arrivals.try_recv(rt) else {
            return;
        };
        let peer = arrival.peer;
        let registry = self.poll.registry();
        if !self.sessions.adopt(self.alloc, registry, arrival) {
            self.limit.leave();
            let how = CloseReason::Session(End::NoMemory);
            note(&ServerEvent::Ended(Closed { peer, how }));
        }
    }

    /// Polls the first connection of the list. If it has more to do, it is appended to the list again.
    fn serve_next<N: Fn(&ServerEvent)>(&mut self, piece: &mut [u8; PIECE], note: &N)
        requires note { N.IsAlwaysCallable note.now }
        requires asked { AllAsked S.asked }
        ensures turn { (key : ℕ) → (rest : List ℕ) → self.old.sessions.listed.items ≡ key ∷ rest
            → HadTurn S.gives PIECE key self.old.sessions.service self.new.sessions.service
            self.old.sessions.connections self.new.sessions.connections }
        ensures order { (key : ℕ) → (rest : List ℕ) → self.old.sessions.listed.items ≡ key ∷ rest
            → (self.new.sessions.listed.items ≡ rest) ⊎ (self.new.sessions.listed.items ≡ rest ++ key ∷ []) }
        ensures nobody { self.old.sessions.listed.items ≡ []
            → self.new.sessions.connections ≡ self.old.sessions.connections }
        ensures moves { Moves S.gives self.old.sessions.service self.new.sessions.service }
    {
        let Some(key) = self.sessions.next() else {
            return;
        };
        if let Some(ended) = self.sessions.turn(key, piece) {
            let_go(&mut self.sessions, key, ended, self.limit, note);
        }
    }

    /// Runs one round: polls each connection of the list once, in order. A connection that has more
    /// to do is then after all others.
    fn serve_listed<N: Fn(&ServerEvent)>(&mut self, piece: &mut [u8; PIECE], note: &N)
        requires note { N.IsAlwaysCallable note.now }
        requires asked { AllAsked S.asked }
        ensures turns { (key : ℕ) → (c : Connection) → (d : Connection) → get self.old.sessions.connections key ≡ Some c
            → get self.new.sessions.connections key ≡ Some d → HadItsTurn S.gives PIECE c.stage
            self.old.sessions.service self.new.sessions.service c d }
        ensures moves { Moves S.gives self.old.sessions.service self.new.sessions.service }
    {
        'round: for _ in 0..self.sessions.listed.len() {
            self.serve_next(piece, note);
        }
    }

    /// Waits at most `most` until something is ready, without end if `None`; `false` if the system's wait fails.
    fn wait_for(&mut self, most: Option<Duration>) -> bool
        ensures { self.new.sessions ≡ self.old.sessions }
    {
        self.poll.poll(&mut self.events, most).is_ok()
    }

    /// Waits without sleeping until something is ready or arrives in the mailbox, `None` if nothing does; or until the
    /// system's wait fails, `false`.
    fn spin_until_ready(&mut self) -> Option<bool>
        ensures { self.new.sessions ≡ self.old.sessions }
    {
        for _ in 0..SPINS {
            let has_waited = self.wait_for(Some(Duration::ZERO));
            if !has_waited || !self.events.is_empty() || self.mailbox.has_some() {
                return Some(has_waited);
            }
            thread::yield_now();
        }
        None
    }

    /// Sleeps until something is ready, the worker is woken, or an idle check is due; `false` if the system's wait
    /// fails. It doesn't sleep if the mailbox isn't empty.
    fn sleep(&mut self) -> bool
        ensures { self.new.sessions ≡ self.old.sessions }
    {
        if !self.mailbox.may_sleep() {
            return self.wait_for(Some(Duration::ZERO));
        }
        let slept = self.wait_for(self.timeout.map(|timeout| timeout.rest));
        self.mailbox.is_awake();
        slept
    }

    /// Waits until something is ready, or an idle check is due; `false` if the system's wait fails. It doesn't wait
    /// while connections are listed, or the mailbox isn't empty.
    fn wait(&mut self) -> bool
        ensures { self.new.sessions ≡ self.old.sessions }
    {
        if self.mailbox.has_some() || self.sessions.listed.len() != 0 {
            return self.wait_for(Some(Duration::ZERO));
        }
        if self.spin.is_due() {
            if let Some(has_waited) = self.spin_until_ready() {
                return has_waited;
            }
            self.spin.rest();
        }
        self.sleep()
    }

    /// Checks all connections for silence, if an idle check is due.
    fn look_around<X: Clock, N: Fn(&ServerEvent)>(&mut self, rt: &X, note: &N)
        requires { N.IsAlwaysCallable note.now }
        ensures service { self.new.sessions.service ≡ self.old.sessions.service }
    {
        let Some(timeout) = self.timeout else {
            return;
        };
        let Ok(now) = Instant::now(rt) else {
            return;
        };
        if let Some(looked) = self.looked {
            if now.duration_since(looked) < timeout.rest {
                return;
            }
        }
        self.looked = Some(now);
        let why = IdleCheck::Silence(timeout);
        for key in 0..self.sessions.connections.capacity() {
            look_at(&mut self.sessions, key, &why, self.limit, note);
        }
    }
}

impl<S: Service + Drop> Work for Worker<'_, S>
where
    S::Outcome: Drop,
{
    ghost use Rattle.snap_session.specs.Asked.{AllAsked};
    ghost use Rattle.snap_server.specs.Work.{HasServed};

    ghost needs = { AllAsked S.asked };

    ghost serves = { λ worker. (last : _) × HasServed S.gives worker last };

    /// It fails only if the system's wait for events fails, never because memory runs out.
    fn work<X: Wait + Clock, N: Fn(&ServerEvent)>(&mut self, rt: &X, note: &N) -> bool {
        let mut piece = [0u8; PIECE];
        for _ in rt.forever() {
            if self.sessions.connections.is_empty() && !self.mailbox.has_arrivals() {
                // All connections were sent before the mailbox was closed.
                if !self.is_open {
                    return true;
                }
                self.mailbox.be_idle();
            }
            if !self.wait() {
                return false;
            }
            list_ready(&mut self.sessions, &self.events, self.limit, note);
            self.read_messages(rt);
            self.take_arrival(rt, note);
            self.look_around(rt, note);
            let is_busy = self.sessions.connections.len() == 1 && self.mailbox.try_be_busy();
            let has_changed = self.may_wait != is_busy;
            self.may_wait = is_busy;
            if has_changed {
                self.sessions.service.let_wait(is_busy);
            }
            self.serve_listed(&mut piece, note);
            self.mailbox.be_free(is_busy);
        }
        unreachable!()
    }
}
