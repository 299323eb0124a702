//! Writers under locks, and the token that taking a lock and changing a writer need.
ghost use Rattle.std.specs.Prelude.{◌≡◌, ◌≢◌, ◌<◌, ◌↔◌, IsTrue, IsSome};
ghost use Rattle.snap_history.specs.Limits.{IsShort};
ghost use Rattle.snap_memory.specs.{Rule.segments, Seat.own_of};
ghost use Rattle.snap_frame.specs.Messages.{IsInLimits, IsStatus};
ghost use Rattle.snap_writer.specs.Writer.{number_of};
ghost use Rattle.snap_service.specs.Answers.{AnswersUpdate, AnswersScan, AnswersPart};
ghost use Rattle.snap_service.specs.Counted.{next_count, CountsNothing, LooksOnce};
ghost use Rattle.snap_service.specs.{Memory.IsOf, Updated.IsUpdatedAndTold};

use crate::memory::Memory;
use crate::reads::{answer_part, answer_scan};
use crate::settlement::{answer_by_look, settle};
use snap_disk::Disk;
use snap_frame::{Reply, SegmentSet, SegmentStatus};
use snap_memory::Scanner;
use snap_writer::Writer;
use std::alloc::Global;
use std::marker::{Model, PhantomData};

/// The right to take the writers' locks: a node's scanner, with counts of the locks that the node
/// took and of the updates that it did, both modulo 2^64.
///
/// It is made from a scanner alone, so a node has exactly one.
#[derive(Drop)]
pub(crate) struct LockToken {
    scanner: Scanner,
    locks: u64,
    updates: u64,
}

impl Model for LockToken {
    ghost use Rattle.snap_service.specs.Counted.{NodeState};

    ghost Value = { NodeState };

    ghost view = { λ p. record { scanner = p.scanner; locks = p.locks; updates = p.updates } };
}

impl LockToken {
    /// A token with this scanner, and both counts at 0.
    pub(crate) fn of(scanner: Scanner) -> LockToken
        ensures { result ≡ record { scanner = scanner; locks = 0; updates = 0 } }
    {
        LockToken {
            scanner,
            locks: 0,
            updates: 0,
        }
    }

    /// Borrows the scanner.
    pub(crate) fn scanner(&self) -> &Scanner
        ensures { result.now ≡ self.now.scanner }
    {
        &self.scanner
    }

    /// Returns the scanner, unchanged.
    pub(crate) fn into_scanner(self) -> Scanner
        ensures { result ≡ self.scanner }
    {
        self.scanner
    }

    /// Answers a scan, as [`answer_scan`](crate::answer_scan) does.
    pub(crate) fn scan(&mut self, alloc: Global) -> Reply
        ensures answer { AnswersScan self.old.scanner result self.new.scanner }
        ensures limits { IsInLimits result }
        ensures table { self.new.scanner.table ≡ self.old.scanner.table }
        ensures plan { self.new.scanner.plan ≡ self.old.scanner.plan }
        ensures counts { CountsNothing self.old self.new }
    {
        answer_scan(alloc, &mut self.scanner)
    }

    /// Answers a scan of some segments, as [`answer_part`](crate::answer_part) does.
    pub(crate) fn part(&mut self, alloc: Global, set: SegmentSet) -> Reply
        requires some { 0 < set.bits }
        ensures answer { AnswersPart self.old.scanner set.bits result self.new.scanner }
        ensures limits { IsInLimits result }
        ensures table { self.new.scanner.table ≡ self.old.scanner.table }
        ensures plan { self.new.scanner.plan ≡ self.old.scanner.plan }
        ensures counts { CountsNothing self.old self.new }
    {
        answer_part(alloc, &mut self.scanner, set)
    }

    /// Counts one lock.
    pub(crate) fn count_lock(&mut self)
        ensures { self.new ≡ record self.old { locks = next_count self.old.locks } }
    {
        self.locks = self.locks.wrapping_add(1);
    }

    /// Counts one update.
    fn count_update(&mut self)
        ensures { self.new ≡ record self.old { updates = next_count self.old.updates } }
    {
        self.updates = self.updates.wrapping_add(1);
    }
}

/// The writer of a segment of the memory `M`, under its lock.
#[derive(Drop)]
pub(crate) struct LockedWriter<M: Memory, D: Disk> {
    writer: Writer<D>,
    segment: usize,
    of: PhantomData<M>,
}

impl<M: Memory, D: Disk> Model for LockedWriter<M, D> {
    ghost use Rattle.std.specs.Prelude.{◌≡◌};
    ghost use Rattle.snap_memory.specs.Seat.{own_of};
    ghost use Rattle.snap_writer.specs.Writer.{WriterState};
    ghost use Rattle.snap_service.specs.Memory.{IsOf};

    ghost Value = { WriterState D };

    ghost view = { λ h. h.writer };

    ghost invariant = { λ h. IsOf M.table M.plan h.writer.seat × (own_of h.writer.seat ≡ h.segment) };
}

impl<M: Memory, D: Disk> LockedWriter<M, D> {
    /// Wraps `writer`, which belongs to the memory `M` and writes `segment`, to be put under a lock.
    pub(crate) fn new(writer: Writer<D>, segment: usize) -> LockedWriter<M, D>
        requires memory { IsOf M.table M.plan writer.seat }
        requires own { own_of writer.seat ≡ segment }
        ensures { result ≡ writer }
    {
        LockedWriter {
            writer,
            segment,
            of: PhantomData,
        }
    }

    /// Reads the writer's number, and whether it is fenced. The writer doesn't change.
    pub(crate) fn status(&self) -> SegmentStatus
        ensures number { result.number ≡ number_of self.now }
        ensures fence { IsTrue result.is_fenced ↔ IsSome self.now.segment.begun }
        ensures limits { IsStatus result }
    {
        let (number, is_fenced) = self.writer.status();
        SegmentStatus { number, is_fenced }
    }

    /// Updates `segment` by the writer, and replies with its result; by one look, if the writer is of another segment.
    pub(crate) fn update(
        &mut self,
        token: &mut LockToken,
        segment: usize,
        number: u64,
        value: &[u8],
    ) -> Reply
        requires memory { IsOf M.table M.plan token.old.scanner }
        requires segment { segment < segments token.old.scanner.plan }
        requires size { IsShort value.now }
        ensures answer { AnswersUpdate token.old.scanner segment number value.now result token.new.scanner }
        ensures looks { LooksOnce token.old.scanner token.new.scanner }
        ensures limits { IsInLimits result }
        ensures own { own_of self.old.seat ≡ segment
            → IsUpdatedAndTold D.Disk self.old self.new number value.now result }
        ensures other { own_of self.old.seat ≢ segment → self.new ≡ self.old }
        ensures locks { token.new.locks ≡ token.old.locks }
        ensures counts { token.new.updates ≡ next_count token.old.updates }
    {
        token.count_update();
        if self.segment != segment {
            return answer_by_look(&mut token.scanner, segment, number, value);
        }
        settle(&mut self.writer, &mut token.scanner, segment, number, value)
    }
}
