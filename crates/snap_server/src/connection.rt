//! One connection of a worker: its socket, its session and its state.
ghost use Rattle.std.specs.Prelude.{◌≡◌, ◌↔◌, ◌≤◌, None, OnSome, IfSome, IsSome, length, true, false};
ghost use Rattle.snap_session.specs.Talk.{HoldsFrameAnd, start, most_owed};
ghost use Rattle.snap_session.specs.{Asked.AllAsked, Turns.StandsAt, Turns.TakesRounds};
ghost use Rattle.snap_server.specs.{Scene.scene, declared.connection.TheConstants.PIECE};

use crate::input::{Input, InputReader};
use crate::listen::{Accepted, Peer};
use crate::stream::Stream;
use snap_session::{End, Polled, Service, Session, proceed};
use std::alloc::Global;
use std::time::Duration;

/// The size of a worker's read buffer, in bytes: the most bytes of one read.
pub const PIECE: usize = 4096;

/// Why a connection was closed.
#[derive(Clone, Copy, Debug, PartialEq, Eq, Drop)]
pub enum CloseReason {
    /// Its session ended, for this reason.
    Session(End),
    /// The system reported an error of its socket while a request was being worked on.
    Lost,
    /// The socket was idle for the idle timeout, and no request was being worked on.
    Silent,
    /// The server is stopping, and no request had begun.
    Stopped,
}

/// A connection that was closed, and why.
#[derive(Clone, Copy, Drop)]
pub struct Closed {
    /// The peer of the connection.
    pub peer: Peer,
    /// The reason for the close.
    pub how: CloseReason,
}

/// The state of a connection between two polls.
#[derive(Drop)]
pub enum ConnectionState {
    /// It waits for an event of its socket, or for the outcome of a request.
    Idle,
    /// It is on the worker's list of connections to poll.
    Listed,
    /// It is closed, and isn't polled again.
    Over,
}

/// The number of idle checks within one idle timeout. A silent connection is closed at the next
/// check after it, so at most a quarter of the timeout late.
const LOOKS: u32 = 4;

/// The time between two idle checks while the server stops, in milliseconds.
///
/// A connection is closed when [`LAST_LOOKS`] of them in a row find it silent within a request: after five seconds.
const LAST_REST: u64 = 100;

const LAST_LOOKS: u32 = 50;

/// When a silent connection is closed. A worker checks all its connections every `rest`.
#[derive(Clone, Copy, Drop)]
pub struct IdleTimeout {
    /// The time between two idle checks.
    pub rest: Duration,
    /// The number of consecutive checks that may find a connection silent.
    looks: u32,
    /// Whether the server is stopping: then a connection is closed at the next check, unless it has begun a request.
    stops: bool,
}

impl IdleTimeout {
    /// The timeout of a server that is serving, by its idle timeout.
    pub fn of(idle: Duration) -> IdleTimeout {
        IdleTimeout {
            rest: idle / LOOKS,
            looks: LOOKS,
            stops: false,
        }
    }

    /// The timeout of a server that is stopping: a connection may finish the request that it has
    /// begun, as long as its bytes keep arriving.
    pub fn last() -> IdleTimeout {
        IdleTimeout {
            rest: Duration::from_millis(LAST_REST),
            looks: LAST_LOOKS,
            stops: true,
        }
    }
}

/// Why a worker checks a connection that it isn't polling.
#[derive(Drop)]
pub enum IdleCheck {
    /// The system reported an error of its socket.
    Lost,
    /// An idle check is due.
    Silence(IdleTimeout),
}

/// A non-blocking socket and its session.
///
/// Holds at most one frame and one piece of [`PIECE`] bytes of the peer's input: bytes are read no
/// faster than the peer takes its replies.
#[derive(Drop)]
pub struct Connection {
    pub socket: Stream,
    pub input: Input,
    peer: Peer,
    pub session: Session,
    stage: ConnectionState,
    /// The number of consecutive idle checks that found it silent.
    looks: u32,
    ghost held: { HoldsFrameAnd PIECE session },
}

impl Connection {
    ghost use Rattle.snap_server.specs.{SharedService.IsTurn, TurnList.enlisted, ConnectionStates.MayEnd};

    /// A new connection, from which nothing was read yet.
    pub fn new(alloc: Global, arrival: Accepted) -> Connection
        ensures session { result.session ≡ start }
        ensures peer { result.peer ≡ arrival.peer }
        ensures stage { result.stage ≡ ConnectionState.Idle }
    {
        let Accepted { stream, peer } = arrival;
        Connection {
            socket: stream,
            input: Input::new(),
            peer,
            session: Session::new(alloc),
            stage: ConnectionState::Idle,
            looks: 0,
        }
    }

    /// Marks it as listed, unless it is listed or closed. If `true`, the caller has to append it to the list.
    pub fn enlist(&mut self) -> bool
        ensures idle { result ≡ true ↔ self.old.stage ≡ ConnectionState.Idle }
        ensures listed { self.new ≡ record self.old { stage = enlisted self.old.stage } }
    {
        if let ConnectionState::Idle = self.stage {
            self.stage = ConnectionState::Listed;
            return true;
        }
        false
    }

    /// Marks it as idle, when the caller has taken it off the list.
    pub fn delist(&mut self)
        ensures { self.new ≡ record self.old { stage = ConnectionState.Idle } }
    {
        self.stage = ConnectionState::Idle;
    }

    /// Polls its session once: reads, answers and writes as far as the socket allows.
    ///
    /// Of the bytes on the socket the contract says only that some were read and some written.
    pub fn go_on<S: Service>(
        &mut self,
        service: &mut S,
        key: usize,
        piece: &mut [u8; PIECE],
    ) -> Polled
        requires { AllAsked S.asked }
        ensures goes { IsTurn S.gives service.old service.new self.old.session self.new.session }
        ensures stands { StandsAt result self.new.session None }
        ensures bounded { length self.old.session.owed ≤ most_owed → length self.new.session.owed ≤ most_owed }
        ensures under { self.old.session.asked ≡ None → OnSome self.new.session.asked (S.hands_over_under key) }
        ensures rounds { TakesRounds S.gives PIECE result
            (scene service.old self.old.session) (scene service.new self.new.session) }
        ensures peer { self.new.peer ≡ self.old.peer }
        ensures stage { self.new.stage ≡ self.old.stage }
    {
        self.looks = 0;
        let mut reader = InputReader {
            stream: &self.socket,
            input: &self.input,
        };
        let mut writer = &self.socket;
        proceed(
            &mut self.session,
            &mut reader,
            &mut writer,
            service,
            key,
            piece,
        )
    }

    /// Answers the request that was handed over, by its outcome, and no later request. `false` if
    /// the connection is closed.
    pub fn take_outcome<S: Service>(&mut self, service: &mut S, outcome: S::Outcome) -> bool
    where
        S::Outcome: Drop,
        ensures goes { IsTurn S.gives service.old service.new self.old.session self.new.session }
        ensures answered { self.old.session.over ≡ None → self.new.session.asked ≡ None }
        ensures held { self.new.session.held ≡ self.old.session.held }
        ensures nobody { self.old.session.asked ≡ None → self.new.session ≡ self.old.session }
        ensures peer { self.new.peer ≡ self.old.peer }
        ensures stage { self.new.stage ≡ self.old.stage }
        ensures ended { result ≡ false ↔ self.old.stage ≡ ConnectionState.Over }
    {
        if self.session.over().is_none() {
            self.session.finish(service, outcome);
        }
        !self.is_over()
    }

    /// Checks the connection between two polls, and returns the reason if it has to be closed.
    ///
    /// It isn't closed while it is listed, nor while it waits for an outcome, unless its peer is lost.
    pub fn look(&mut self, why: &IdleCheck) -> Option<CloseReason>
        ensures may { IfSome result (λ how. MayEnd how self.new.session) }
        ensures idle { IsSome result → self.new.stage ≡ ConnectionState.Idle }
        ensures session { self.new.session ≡ self.old.session }
        ensures peer { self.new.peer ≡ self.old.peer }
        ensures stage { self.new.stage ≡ self.old.stage }
    {
        let ConnectionState::Idle = self.stage else {
            return None;
        };
        let timeout = match why {
            IdleCheck::Lost if self.session.is_free() => return None,
            IdleCheck::Lost => return Some(CloseReason::Lost),
            IdleCheck::Silence(_) if !self.session.is_free() => return None,
            IdleCheck::Silence(timeout) => timeout,
        };
        if timeout.stops && self.session.is_between() && self.session.owed().is_empty() {
            return Some(CloseReason::Stopped);
        }
        if self.looks >= timeout.looks {
            return Some(CloseReason::Silent);
        }
        self.looks += 1;
        None
    }

    /// Closes the connection and its descriptor, also if an outcome is still to arrive for it.
    ///
    /// The socket's writing side is shut down first, so that the peer reads all that was written
    /// before the end of the stream.
    pub fn end(&mut self, how: CloseReason) -> Closed
        requires { MayEnd how self.old.session }
        ensures over { self.new ≡ record self.old { stage = ConnectionState.Over; socket = self.new.socket } }
        ensures peer { result.peer ≡ self.old.peer }
        ensures how { result.how ≡ how }
    {
        self.stage = ConnectionState::Over;
        self.socket.close();
        Closed {
            peer: self.peer,
            how,
        }
    }

    /// Whether it is closed, so that it isn't polled again.
    pub fn is_over(&self) -> bool
        ensures { result ≡ true ↔ self.now.stage ≡ ConnectionState.Over }
    {
        matches!(self.stage, ConnectionState::Over)
    }
}
