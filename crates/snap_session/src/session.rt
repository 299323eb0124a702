//! The session: one connection's conversation as a value over memory, without input or output. Its caller gives it the
//! bytes that arrived, has it answer, and removes the bytes that were written, in any order (`specs/Talk.antt`).
ghost use Rattle.std.specs.Prelude.{◌≡◌, ◌≤◌, ◌<◌, ◌+◌, ◌↔◌, IsTrue, [], length, drop, Some, None, true, false};
ghost use Rattle.snap_frame.specs.Stream.{IsPartial};
ghost use Rattle.snap_frame.specs.Messages.{max_payload, payload, says, IsAskable, IsInLimits};
ghost use Rattle.snap_session.specs.Talk.{Talk, Goes, GoesBy, Stays, HasTaken, Owes, start, longest_frame, most_owed};
ghost use Rattle.snap_session.specs.Talk.{most_answers};
ghost use Rattle.snap_session.specs.{Waits.WaitsFor, Asked.AreAsked, Hears.Hears};

use crate::service::Service;
use bytes::BytesMut;
use snap_disk::Refusal;
use snap_frame::{Feed, FrameFault, MAX_PAYLOAD, Reply, Request, write_reply};
use std::alloc::Global;
use std::marker::Model;

/// The bytes of pending output from which on no request is answered: a peer that doesn't read its
/// replies costs at most this much memory and one more reply.
pub const MAX_OWED: usize = 65_536;

/// The most requests that one call answers, so that one peer can't starve the others.
const MAX_ANSWERS: u32 = 64;

/// The first frame of the bytes held.
#[derive(Drop)]
enum Heard {
    Nothing,
    Asked(Request),
    Malformed,
    TooLarge,
    NoMemory,
}

/// The event that a session needs next.
#[derive(Clone, Copy, PartialEq, Eq, Drop)]
pub enum WaitingFor {
    /// More bytes: no whole frame is held.
    Bytes,
    /// Another call: there may be more to answer.
    Turn,
    /// The outcome of the request that was handed over.
    Outcome,
}

/// One connection's state: the bytes that arrived and aren't answered, and the pending output.
///
/// It is over once a length above the limit arrived or memory ran out. From then on nothing is
/// taken in or answered; the pending output may still be written.
#[derive(Drop)]
pub struct Session {
    feed: Feed,
    /// The request that was handed over and isn't answered.
    asked: Option<Request>,
    owed: BytesMut,
    over: Option<FrameFault>,
}

impl Model for Session {
    ghost use Rattle.std.specs.Prelude.{◌≡◌, ◌≤◌, None, length};
    ghost use Rattle.std.specs.Option.{ForSome};
    ghost use Rattle.snap_frame.specs.Messages.{max_payload, payload, IsAskable};
    ghost use Rattle.snap_frame.specs.Stream.{IsBytes};
    ghost use Rattle.snap_session.specs.Talk.{Talk};

    ghost Value = { Talk };

    ghost view = { λ s. record {
      asked = s.asked;
      held = s.feed.bytes;
      owed = s.owed.items;
      over = s.over;
    } };

    ghost invariant = { λ s. (s.over ≡ None → s.feed.failure ≡ None)
        × ForSome s.asked (λ q. (length (payload q) ≤ max_payload) × IsAskable q)
        × (s.over ≡ None → IsBytes s.feed.bytes) };
}

impl Session {
    /// A session to which nothing has arrived. It allocates nothing before the first bytes.
    pub fn new(alloc: Global) -> Session
        ensures { result ≡ start }
    {
        Session {
            feed: Feed::new(alloc),
            asked: None,
            owed: BytesMut::new(alloc),
            over: None,
        }
    }

    /// The pending output: the bytes that are to be written next, in order.
    pub fn owed(&self) -> &[u8]
        ensures { result.now ≡ self.now.owed }
    {
        self.owed.as_slice()
    }

    /// Why it takes no more bytes, or `None` while it does.
    pub fn over(&self) -> Option<FrameFault>
        ensures { result ≡ self.now.over }
    {
        self.over
    }

    /// Whether it is between two frames: it isn't over, and no byte of an unfinished frame is held.
    pub fn is_between(&self) -> bool
        ensures { IsTrue result ↔ ((self.now.over ≡ None) × (self.now.held ≡ [])) }
    {
        self.over.is_none() && self.feed.is_between()
    }

    /// Removes the first `n` bytes of the pending output, which were written. There are at least `n`.
    pub fn sent(&mut self, n: usize)
        requires { n ≤ length self.old.owed }
        ensures { self.new ≡ record self.old { owed = drop n self.old.owed } }
    {
        self.owed.advance(n);
    }

    /// Takes in the next bytes of the stream. If memory runs out the session is over. Not to be
    /// called on a session that is over.
    pub fn take_in(&mut self, piece: &[u8])
        requires { self.old.over ≡ None }
        ensures { HasTaken self.old piece.now self.new }
    {
        if self.feed.push(piece).is_err() {
            self.over = Some(FrameFault::NoMemory);
        }
    }

    /// Appends the frame of a reply to the pending output; `false` if memory ran out, and then the session is over.
    fn owe(&mut self, reply: &Reply) -> bool
        requires { IsInLimits reply.now }
        ensures owes { Owes self.old (says reply.now) self.new result }
        ensures bounded { length self.new.owed ≤ length self.old.owed + longest_frame }
    {
        if write_reply(reply, &mut self.owed).is_err() {
            self.over = Some(FrameFault::NoMemory);
            return false;
        }
        true
    }

    /// Removes the first whole frame from the bytes held, and decodes it.
    fn hear(&mut self) -> Heard
        requires { self.old.over ≡ None }
        ensures { Hears self.old result self.new }
    {
        match self.feed.next() {
            Ok(None) => Heard::Nothing,
            Ok(Some(request)) => Heard::Asked(request),
            Err(Refusal::Malformed) => Heard::Malformed,
            Err(Refusal::TooLarge) => {
                self.over = Some(FrameFault::TooLarge);
                Heard::TooLarge
            }
            Err(_) => {
                self.over = Some(FrameFault::NoMemory);
                Heard::NoMemory
            }
        }
    }

    /// Whether no request is handed over.
    pub fn is_free(&self) -> bool
        ensures free { result ≡ true → self.now.asked ≡ None }
        ensures asked { result ≡ false → self.now.asked ≡ None → ⊥ }
    {
        self.asked.is_none()
    }

    /// Stores a request that was handed over.
    fn keep(&mut self, request: Request)
        requires fits { length (payload request) ≤ max_payload }
        requires askable { IsAskable request }
        ensures { self.new ≡ record self.old { asked = Some request } }
    {
        self.asked = Some(request);
    }

    /// Answers the first whole frame.
    fn answer_one<S: Service>(&mut self, service: &mut S, key: usize) -> WaitingFor
        requires going { self.old.over ≡ None }
        requires free { self.old.asked ≡ None }
        requires asked { AreAsked S.asked self.old.held }
        ensures asked { self.new.over ≡ None → AreAsked S.asked self.new.held }
        ensures goes { GoesBy 1 Stays S.gives service.old service.new self.old [] [] self.new }
        ensures wants { WaitsFor (S.hands_over × S.hands_over_under key) result self.new }
        ensures bounded { length self.new.owed ≤ length self.old.owed + longest_frame }
        ensures held { self.new.over ≡ None → length self.new.held ≤ length self.old.held }
    {
        match self.hear() {
            Heard::Nothing => return WaitingFor::Bytes,
            Heard::Asked(request) => match service.answer(&request, key) {
                Some(reply) => {
                    self.owe(&reply);
                }
                None => {
                    self.keep(request);
                    return WaitingFor::Outcome;
                }
            },
            Heard::Malformed => {
                service.refused(Refusal::Malformed);
                self.owe(&Reply::Refused {
                    why: Refusal::Malformed,
                    detail: 0,
                });
            }
            Heard::TooLarge => {
                service.refused(Refusal::TooLarge);
                self.owe(&Reply::Refused {
                    why: Refusal::TooLarge,
                    detail: MAX_PAYLOAD as u64,
                });
            }
            Heard::NoMemory => {}
        }
        WaitingFor::Turn
    }

    /// Answers the whole frames that are held, in order, until none is left, one is handed over,
    /// [`MAX_OWED`] bytes of output are pending, or [`MAX_ANSWERS`] are answered.
    ///
    /// A frame that is no request is refused as malformed. A length above the limit is refused, and the session is
    /// over. Requests are handed over with the connection's `key`. Not to be called on a session that is over.
    pub fn answer<S: Service>(&mut self, service: &mut S, key: usize) -> WaitingFor
        requires going { self.old.over ≡ None }
        requires asked { AreAsked S.asked self.old.held }
        ensures goes { Goes Stays S.gives service.old service.new self.old [] [] self.new }
        ensures few { GoesBy most_answers Stays S.gives service.old service.new self.old [] [] self.new }
        ensures wants { WaitsFor (self.old.asked ≡ None → S.hands_over × S.hands_over_under key) result self.new }
        ensures bounded { length self.old.owed ≤ most_owed → length self.new.owed ≤ most_owed }
        ensures held { self.new.over ≡ None → length self.new.held ≤ length self.old.held }
    {
        if self.asked.is_some() {
            return WaitingFor::Outcome;
        }
        for _ in 0..MAX_ANSWERS {
            if self.over().is_some() || self.owed().len() >= MAX_OWED {
                return WaitingFor::Turn;
            }
            match self.answer_one(service, key) {
                WaitingFor::Turn => {}
                other => return other,
            }
        }
        WaitingFor::Turn
    }

    /// Answers the request that was handed over. If there is none, the outcome is dropped and
    /// nothing changes. Not to be called on a session that is over.
    pub fn finish<S: Service>(&mut self, service: &mut S, outcome: S::Outcome)
    where
        S::Outcome: Drop,
        requires { self.old.over ≡ None }
        ensures goes { Goes Stays S.gives service.old service.new self.old [] [] self.new }
        ensures free { self.new.asked ≡ None }
        ensures held { self.new.held ≡ self.old.held }
        ensures nobody { self.old.asked ≡ None → self.new ≡ self.old }
    {
        if let Some(request) = self.asked.take() {
            let reply = service.finish(&request, outcome);
            self.owe(&reply);
        }
    }
}
