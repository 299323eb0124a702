//! The dispatcher: delivers accepted connections to the workers.
ghost use Rattle.std.specs.Prelude.{◌≡◌, ◌⊎◌, ◌+◌, ◌-◌, ℕ, IfOk, IfErr, IfSome, OnOk, IsOk, Some, true, length};
ghost use Rattle.std.specs.Prelude.{slice_get};
ghost use Rattle.snap_server.specs.declared.listen.Accepted.{Accepted};
ghost use Rattle.snap_server.specs.Deals.{Deals, Gives, IsDelivered, turn_of};

use crate::acceptor::Acceptor;
use crate::fault::{ServerEvent, ServerFault};
use crate::listen::{Accepted, Listen};
use crate::mailbox::Deliver;
use std::rt::Clock;
use std::sync::Wait;

/// Delivers accepted connections to workers without one, so that each has a worker of its own as long as there are
/// enough; then to all in turn, and those of a busy worker to the last one.
#[derive(Drop)]
pub struct Dispatcher<'a, H: Deliver> {
    acceptor: Acceptor<'a>,
    senders: &'a [H],
    /// The index of the next worker, or one past the last.
    next: usize,
}

impl<'a, H: Deliver> Dispatcher<'a, H> {
    /// A dispatcher that takes connections from `acceptor`, and delivers the first to the first sender.
    pub fn new(acceptor: Acceptor<'a>, senders: &'a [H]) -> Dispatcher<'a, H>
        ensures senders { result.senders ≡ senders.entry }
        ensures first { result.next ≡ 0 }
    {
        Dispatcher {
            acceptor,
            senders,
            next: 0,
        }
    }

    /// Delivers a connection to a worker without one, or to this worker, or to the last if this one is busy; `false` if
    /// the worker has ended.
    fn deliver<X: Wait + Clock>(&self, rt: &X, sender: &H, arrival: Accepted) -> bool
        ensures { result ≡ true → IsDelivered H.takes H.is_busy H.was_idle self.now.senders.now sender.now arrival }
    {
        let mut left = arrival;
        if let Some(idle) = self.first_idle() {
            left = match idle.deliver(rt, left) {
                Ok(is_taken) => return is_taken,
                Err(back) => back,
            };
        }
        match sender.deliver(rt, left) {
            Ok(is_taken) => is_taken,
            Err(back) => self.deal_to_last(rt, back),
        }
    }

    /// The first worker that has no connection, if there is one.
    fn first_idle(&self) -> Option<&H>
        ensures { IfSome result (λ idle. (i : ℕ) × (slice_get self.now.senders.now i ≡ Some idle.now)
            × H.was_idle idle.now) }
    {
        for at in 0..self.senders.len() {
            let sender = &self.senders[at];
            if sender.is_idle() {
                return Some(sender);
            }
        }
        None
    }

    /// Delivers a connection to the last worker, which is never busy; `false` if it has ended.
    fn deal_to_last<X: Wait + Clock>(&self, rt: &X, arrival: Accepted) -> bool
        ensures { result ≡ true → (last : H) × (slice_get self.now.senders.now
            (length self.now.senders.now - 1) ≡ Some last) × H.takes last arrival }
    {
        match self.senders.last() {
            Some(last) => last.deliver(rt, arrival).unwrap_or(false),
            None => false,
        }
    }

    /// Accepts one connection, and delivers it to a worker without one, or to the next worker, or to the last if that
    /// one is busy.
    fn accept_one<X: Wait + Clock, L: Listen, N: Fn(&ServerEvent)>(
        &mut self,
        rt: &X,
        listener: &mut L,
        note: &N,
    ) -> Result<(), ServerFault>
        requires { N.IsAlwaysCallable note.now }
        ensures in_turn { OnOk result (self.new.next ≡ turn_of self.old.next (length self.old.senders.now) + 1) }
        ensures handed { OnOk result ((arrival : Accepted) × (sender : H)
            × Gives L.accepts listener.old arrival listener.new
            × (slice_get self.old.senders.now (turn_of self.old.next (length self.old.senders.now))
            ≡ Some sender) × IsDelivered H.takes H.is_busy H.was_idle self.old.senders.now sender arrival) }
        ensures senders { self.new.senders.now ≡ self.old.senders.now }
        ensures same { L.refuses listener.new → L.refuses listener.old }
        ensures faults { IfErr result (λ fault. (fault ≡ ServerFault.AcceptFailed) ⊎ (fault ≡ ServerFault.PollFailed)) }
        ensures deaf { IfErr result (λ fault. fault ≡ ServerFault.AcceptFailed → L.refuses listener.old) }
    {
        let Some(arrival) = self.acceptor.next(rt, listener, note) else {
            return Err(ServerFault::AcceptFailed);
        };
        if self.next >= self.senders.len() {
            self.next = 0;
        }
        let Some(sender) = self.senders.get(self.next) else {
            return Err(ServerFault::PollFailed);
        };
        self.next += 1;
        if !self.deliver(rt, sender, arrival) {
            return Err(ServerFault::PollFailed);
        }
        Ok(())
    }

    /// Accepts `connections` connections and delivers them to the workers in turn; without end if `None`.
    ///
    /// Fails after 16 consecutive faults of the listener, or if a worker has ended.
    pub fn accept_all<X: Wait + Clock, L: Listen, N: Fn(&ServerEvent)>(
        &mut self,
        rt: &X,
        listener: &mut L,
        connections: Option<u64>,
        note: &N,
    ) -> Result<u64, ServerFault>
        requires first { self.old.next ≡ 0 }
        requires note { N.IsAlwaysCallable note.now }
        ensures asked { IfOk result (λ k. connections ≡ Some k) }
        ensures deals { IfOk result (λ k.
            Deals L.accepts H.takes H.is_busy H.was_idle self.old.senders.now k listener.old listener.new) }
        ensures none { connections ≡ Some 0 → IsOk result }
        ensures faults { IfErr result (λ fault. (fault ≡ ServerFault.AcceptFailed) ⊎ (fault ≡ ServerFault.PollFailed)) }
        ensures deaf { IfErr result (λ fault. fault ≡ ServerFault.AcceptFailed → L.refuses listener.old) }
    {
        if let Some(most) = connections {
            for _ in 0..most {
                self.accept_one(rt, listener, note)?;
            }
            return Ok(most);
        }
        for _ in rt.forever() {
            self.accept_one(rt, listener, note)?;
        }
        unreachable!()
    }
}
