//! The connections of a worker, whose sessions share its service.
ghost use Rattle.std.specs.Prelude.{◌≡◌, ◌≢◌, ◌⊎◌, ◌≤◌, ◌+◌, ◌++◌, ℕ, length, IfSome, IfNone, IsSome, OnSome};
ghost use Rattle.std.specs.Prelude.{Some, None, true, false, option_to_list, []};
ghost use Rattle.std.specs.{VecDeque.deque_capacity, List.Contains};
ghost use Rattle.slab.specs.Slab.{get, slab_len, SameValues};
ghost use Rattle.snap_session.specs.Asked.{AllAsked};
ghost use Rattle.snap_session.specs.Talk.{Talk, Moves, start};
ghost use Rattle.snap_server.specs.SharedService.{AreSessions, IsTurn};
ghost use Rattle.snap_server.specs.TurnList.{Lists, enlisted, listed_behind, again_behind, KeepsOthers};
ghost use Rattle.snap_server.specs.ConnectionStates.{Waits, HasEnded};
ghost use Rattle.snap_server.specs.{Scene.scene, Turns.HadRounds, declared.connection.TheConstants.PIECE};

use crate::connection::{CloseReason, Closed, Connection, ConnectionState, IdleCheck, PIECE};
use crate::listen::Accepted;
use mio::{Interest, Registry, Token};
use slab::Slab;
use snap_session::{Polled, Service};
use std::alloc::Global;
use std::collections::VecDeque;

/// A service, the connections whose sessions share it, and the list of those to poll. To poll a
/// connection is to give its session one turn ([`proceed`](snap_session::proceed)).
///
/// Each connection is one session on the service from its start to now, with other connections'
/// requests answered between its own.
#[derive(Drop)]
pub struct Sessions<S: Service + Drop> {
    pub service: S,
    pub connections: Slab<Connection>,
    /// The keys of the connections to poll, each once. It has capacity for all connections.
    pub listed: VecDeque<usize>,
    ghost are: { ∥ AreSessions S.gives service connections ∥₁ },
    ghost lists: { ∥ Lists listed.items connections ∥₁ },
    ghost room: { slab_len connections ≤ deque_capacity listed },
}

impl<S: Service + Drop> Sessions<S> {
    /// Wraps `service`, with no connection yet.
    pub fn new(alloc: Global, service: S) -> Sessions<S>
        ensures service { result.service ≡ service }
        ensures none { slab_len result.connections ≡ 0 }
    {
        Sessions {
            service,
            connections: Slab::new(alloc),
            listed: VecDeque::new(alloc),
        }
    }

    /// Adds a connection, and registers it under its key. `false` if memory runs out or the system
    /// refuses it: then the connection is closed, and the others aren't affected.
    pub fn adopt(&mut self, alloc: Global, registry: &Registry, mut arrival: Accepted) -> bool
        ensures service { self.new.service ≡ self.old.service }
        ensures kept { (key : ℕ) → (c : Connection) → get self.old.connections key ≡ Some c
            → get self.new.connections key ≡ Some c }
        ensures refused { result ≡ false → SameValues self.old.connections self.new.connections }
        ensures taken { result ≡ true → slab_len self.new.connections ≡ slab_len self.old.connections + 1 }
        ensures order { self.new.listed.items ≡ self.old.listed.items }
    {
        let count = self.connections.len().saturating_add(1);
        if self.listed.reserve(count).is_err() || self.connections.reserve(1).is_err() {
            return false;
        }
        let token = Token(self.connections.vacant_key());
        let interest = Interest::READABLE | Interest::WRITABLE;
        if arrival.stream.register(registry, token, interest).is_err() {
            return false;
        }
        let connection = Connection::new(alloc, arrival);
        self.connections.insert_reserved(connection);
        true
    }

    /// Appends a connection to the list, unless it is listed or closed.
    pub fn list(&mut self, key: usize)
        ensures service { self.new.service ≡ self.old.service }
        ensures listed { (c : Connection) → get self.old.connections key ≡ Some c
            → get self.new.connections key ≡ Some (record c { stage = enlisted c.stage }) }
        ensures behind { (c : Connection) → get self.old.connections key ≡ Some c
            → self.new.listed.items ≡ listed_behind c.stage key self.old.listed.items }
        ensures nobody { get self.old.connections key ≡ None → self.new.connections ≡ self.old.connections }
        ensures unlisted { get self.old.connections key ≡ None → self.new.listed.items ≡ self.old.listed.items }
        ensures others { KeepsOthers key self.old.connections self.new.connections }
        ensures count { slab_len self.new.connections ≡ slab_len self.old.connections }
    {
        let Some(connection) = self.connections.get_mut(key) else {
            return;
        };
        if connection.enlist() {
            self.listed.push_back_reserved(key);
        }
    }

    /// Takes the first key off the list, if there is one.
    pub fn next(&mut self) -> Option<usize>
        ensures service { self.new.service ≡ self.old.service }
        ensures first { self.old.listed.items ≡ option_to_list result ++ self.new.listed.items }
        ensures idle { IfSome result (λ key. (c : Connection)
            → get self.new.connections key ≡ Some c → c.stage ≡ ConnectionState.Idle) }
        ensures sessions { IfSome result (λ key. (c : Connection) → get self.old.connections key ≡ Some c
            → get self.new.connections key ≡ Some (record c { stage = ConnectionState.Idle })) }
        ensures others { IfSome result (λ key. KeepsOthers key self.old.connections self.new.connections) }
        ensures nobody { IfNone result (self.old.listed.items ≡ []) }
        ensures none { IfNone result (self.new.connections ≡ self.old.connections) }
    {
        let key = self.listed.pop_front()?;
        if let Some(connection) = self.connections.get_mut(key) {
            connection.delist();
        }
        Some(key)
    }

    /// Polls a connection once, and returns its close if it is closed. If it may have more to do at
    /// once, it is appended to the list again.
    pub fn turn(&mut self, key: usize, piece: &mut [u8; PIECE]) -> Option<Closed>
        requires idle { (c : Connection) → get self.old.connections key ≡ Some c → c.stage ≡ ConnectionState.Idle }
        requires asked { AllAsked S.asked }
        ensures ended { IfSome result (λ ended. (c : Connection)
            × (get self.new.connections key ≡ Some c) × HasEnded c ended) }
        ensures waits { IfNone result ((c : Connection) → get self.new.connections key ≡ Some c
            → (c.stage ≡ ConnectionState.Listed) ⊎ Waits c.session) }
        ensures turn { (c : Connection) → (d : Connection)
            → get self.old.connections key ≡ Some c → get self.new.connections key ≡ Some d
            → IsTurn S.gives self.old.service self.new.service c.session d.session }
        ensures under { (c : Connection) → (d : Connection)
            → get self.old.connections key ≡ Some c → get self.new.connections key ≡ Some d
            → c.session.asked ≡ None → OnSome d.session.asked (S.hands_over_under key) }
        ensures rounds { (c : Connection) → (d : Connection)
            → get self.old.connections key ≡ Some c → get self.new.connections key ≡ Some d
            → HadRounds S.gives PIECE d.stage (scene self.old.service c.session) (scene self.new.service d.session) }
        ensures behind { (d : Connection) → get self.new.connections key ≡ Some d
            → self.new.listed.items ≡ again_behind d.stage key self.old.listed.items }
        ensures kept { (c : Connection) → get self.old.connections key ≡ Some c
            → IsSome (get self.new.connections key) }
        ensures moves { Moves S.gives self.old.service self.new.service }
        ensures nobody { get self.old.connections key ≡ None → self.new.service ≡ self.old.service }
        ensures unlisted { get self.old.connections key ≡ None → self.new.listed.items ≡ self.old.listed.items }
        ensures others { KeepsOthers key self.old.connections self.new.connections }
        ensures count { slab_len self.new.connections ≡ slab_len self.old.connections }
    {
        let connection = self.connections.get_mut(key)?;
        match connection.go_on(&mut self.service, key, piece) {
            Polled::Again => {
                self.list(key);
                None
            }
            Polled::NeedsInput | Polled::NeedsRoom | Polled::NeedsOutcome => None,
            Polled::Over(end) => Some(connection.end(CloseReason::Session(end))),
        }
    }

    /// Checks a connection between two polls, and returns its close if it is closed.
    pub fn look(&mut self, key: usize, why: &IdleCheck) -> Option<Closed>
        ensures service { self.new.service ≡ self.old.service }
        ensures ended { IfSome result (λ ended. (c : Connection)
            × (get self.new.connections key ≡ Some c) × HasEnded c ended) }
        ensures session { (c : Connection) → (d : Connection)
            → get self.old.connections key ≡ Some c → get self.new.connections key ≡ Some d → d.session ≡ c.session }
        ensures stays { IfNone result ((c : Connection) → (d : Connection)
            → get self.old.connections key ≡ Some c → get self.new.connections key ≡ Some d → d.stage ≡ c.stage) }
        ensures order { self.new.listed.items ≡ self.old.listed.items }
        ensures others { KeepsOthers key self.old.connections self.new.connections }
        ensures count { slab_len self.new.connections ≡ slab_len self.old.connections }
    {
        let connection = self.connections.get_mut(key)?;
        let how = connection.look(why)?;
        Some(connection.end(how))
    }

    /// Removes a closed connection, unless an outcome is still to arrive for it.
    pub fn let_go(&mut self, key: usize)
        ensures service { self.new.service ≡ self.old.service }
        ensures gone { (c : Connection) → get self.old.connections key ≡ Some c
            → c.stage ≡ ConnectionState.Over → c.session.asked ≡ None → get self.new.connections key ≡ None }
        ensures kept { (c : Connection) → get self.old.connections key ≡ Some c
            → (c.stage ≢ ConnectionState.Over) ⊎ (c.session.asked ≢ None) → get self.new.connections key ≡ Some c }
        ensures same { (c : Connection) → get self.new.connections key ≡ Some c
            → get self.old.connections key ≡ Some c }
        ensures order { self.new.listed.items ≡ self.old.listed.items }
        ensures others { KeepsOthers key self.old.connections self.new.connections }
    {
        let Some(connection) = self.connections.get(key) else {
            return;
        };
        if connection.is_over() && connection.session.is_free() {
            self.connections.try_remove(key);
        }
    }

    /// Answers a connection's request by its outcome, and lists the connection. A closed connection is removed.
    pub fn tell(&mut self, key: usize, outcome: S::Outcome)
    where
        S::Outcome: Drop,
        ensures answered { (c : Connection) → (d : Connection)
            → get self.old.connections key ≡ Some c → get self.new.connections key ≡ Some d
            → c.session.over ≡ None → d.session.asked ≡ None }
        ensures turn { (c : Connection) → (d : Connection)
            → get self.old.connections key ≡ Some c → get self.new.connections key ≡ Some d
            → IsTurn S.gives self.old.service self.new.service c.session d.session }
        ensures last { (c : Connection) → get self.old.connections key ≡ Some c
            → (talk : Talk) × IsTurn S.gives self.old.service self.new.service c.session talk }
        ensures moves { Moves S.gives self.old.service self.new.service }
        ensures nobody { get self.old.connections key ≡ None → self.new.service ≡ self.old.service }
        ensures held { (c : Connection) → (d : Connection)
            → get self.old.connections key ≡ Some c → get self.new.connections key ≡ Some d
            → d.session.held ≡ c.session.held }
        ensures listed { (d : Connection) → get self.new.connections key ≡ Some d → d.stage ≡ ConnectionState.Listed }
        ensures behind { (c : Connection) → get self.old.connections key ≡ Some c
            → self.new.listed.items ≡ listed_behind c.stage key self.old.listed.items }
        ensures unlisted { get self.old.connections key ≡ None → self.new.listed.items ≡ self.old.listed.items }
        ensures gone { (c : Connection) → get self.old.connections key ≡ Some c
            → c.stage ≡ ConnectionState.Over → get self.new.connections key ≡ None }
        ensures kept { (c : Connection) → get self.old.connections key ≡ Some c
            → c.stage ≢ ConnectionState.Over → IsSome (get self.new.connections key) }
        ensures others { KeepsOthers key self.old.connections self.new.connections }
    {
        let Some(connection) = self.connections.get_mut(key) else {
            return;
        };
        if connection.take_outcome(&mut self.service, outcome) {
            self.list(key);
            return;
        }
        self.connections.try_remove(key);
    }
}
