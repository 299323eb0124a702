//! The node: a service over writers under locks.
ghost use Rattle.std.specs.Prelude.{◌≡◌};
ghost use Rattle.snap_frame.specs.Messages.{IsInLimits, IsAskable};
ghost use Rattle.snap_service.specs.Memory.{IsOf};
ghost use Rattle.snap_service.specs.Counted.{Counts, CountsNothing, CountsUpdate};
ghost use Rattle.snap_service.specs.Answers.{Answers, AnswersUpdate, AnswersScan, AnswersStatus};

use crate::locked_writer::LockToken;
use crate::memory::Memory;
use crate::settlement::refuse_place;
use crate::shared::Shared;
use snap_disk::{Disk, Refusal};
use snap_frame::{Reply, Request};
use snap_memory::Scanner;
use snap_session::Service;
use std::alloc::{AllocError, Global};
use std::marker::Model;
use std::sync::Wait;

/// A [`Service`] with a scanner of its own, over writers that all nodes share. It answers every request at once.
///
/// An update locks its own segment, once, and is done once. A status locks one segment after the
/// other and changes no writer. A scan takes no lock and changes no writer.
#[derive(Drop)]
pub struct Node<'a, R: Wait, M: Memory, D: Disk + Drop> {
    rt: &'a R,
    alloc: Global,
    shared: &'a Shared<M, D>,
    token: LockToken,
}

impl<'a, R: Wait, M: Memory, D: Disk + Drop> Model for Node<'a, R, M, D> {
    ghost use Rattle.snap_service.specs.{Counted.NodeState, Memory.IsOf};

    ghost Value = { NodeState };

    ghost view = { λ n. n.token };

    ghost invariant = { λ n. IsOf M.table M.plan n.token.scanner };
}

impl<'a, R: Wait, M: Memory, D: Disk + Drop> Node<'a, R, M, D> {
    /// A node with this scanner, which belongs to the writers' memory.
    pub fn new(
        rt: &'a R,
        alloc: Global,
        shared: &'a Shared<M, D>,
        scanner: Scanner,
    ) -> Node<'a, R, M, D>
        requires memory { IsOf M.table M.plan scanner }
        ensures { result ≡ record { scanner = scanner; locks = 0; updates = 0 } }
    {
        Node {
            rt,
            alloc,
            shared,
            token: LockToken::of(scanner),
        }
    }

    /// Answers an update. Its segment and its length are checked before any lock is taken.
    fn update(&mut self, segment: usize, number: u64, value: &[u8]) -> Reply
        ensures answer { AnswersUpdate self.old.scanner segment number value.now result self.new.scanner }
        ensures limits { IsInLimits result }
        ensures counts { CountsUpdate self.old segment value.now self.new }
    {
        if let Some(reply) = refuse_place(self.token.scanner().segments(), segment, value) {
            return reply;
        }
        let shared = self.shared;
        shared.update(self.rt, &mut self.token, segment, number, value)
    }

    /// Answers a status: each segment as it was while its lock was held. No writer changes.
    fn status(&mut self) -> Reply
        ensures answer { AnswersStatus self.old.scanner result self.new.scanner }
        ensures limits { IsInLimits result }
        ensures counts { self.new.updates ≡ self.old.updates }
    {
        // Called for its clause on the scanner (docs/DECISIONS.md, 180).
        let _segments = self.token.scanner().segments();
        let shared = self.shared;
        match shared.list_statuses(self.rt, self.alloc, &mut self.token) {
            Ok(statuses) => Reply::Status(statuses),
            Err(AllocError) => Reply::Refused {
                why: Refusal::NoMemory,
                detail: 0,
            },
        }
    }

    /// Answers a scan.
    fn scan(&mut self) -> Reply
        ensures answer { AnswersScan self.old.scanner result self.new.scanner }
        ensures limits { IsInLimits result }
        ensures counts { CountsNothing self.old self.new }
    {
        self.token.scan(self.alloc)
    }

    /// Answers any request.
    fn reply(&mut self, request: &Request) -> Reply
        requires askable { IsAskable request.now }
        ensures answer { Answers self.old.scanner request.now result self.new.scanner }
        ensures limits { IsInLimits result }
        ensures counts { Counts self.old request.now self.new }
    {
        match request {
            Request::Update {
                segment,
                number,
                value,
            } => self.update(usize::from(*segment), *number, value.as_slice()),
            Request::Scan => self.scan(),
            Request::Status => self.status(),
            Request::Part(set) => self.token.part(self.alloc, *set),
        }
    }

    /// Returns the scanner, unchanged. A store can be closed once all its scanners were returned.
    pub fn into_scanner(self) -> Scanner
        ensures scanner { result ≡ self.entry.scanner }
        ensures memory { IsOf M.table M.plan result }
    {
        self.token.into_scanner()
    }
}

impl<'a, R: Wait, M: Memory, D: Disk + Drop> Service for Node<'a, R, M, D> {
    ghost use Rattle.snap_service.specs.{Answers.Answers, Counted.Counts};

    type Outcome = ();

    ghost gives = { λ old request reply new. Answers old.scanner request reply new.scanner × Counts old request new };

    ghost hands_over = { ⊥ };

    fn answer(&mut self, request: &Request, _key: usize) -> Option<Reply> {
        Some(self.reply(request))
    }

    fn finish(&mut self, request: &Request, _outcome: ()) -> Reply {
        self.reply(request)
    }
}
