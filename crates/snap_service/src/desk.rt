//! The desk: a worker's service.
ghost use Rattle.std.specs.Prelude.{◌≡◌, ◌⊎◌, ℕ, ◌+◌, IfSome, IfNone, length, false};
ghost use Rattle.snap_memory.specs.Rule.{segments};
ghost use Rattle.snap_frame.specs.Messages.{IsInLimits};
ghost use Rattle.snap_service.specs.Answers.{Answers, AnswersUpdate};
ghost use Rattle.snap_service.specs.{Memory.IsOf, Counted.LooksOnce};
ghost use Rattle.snap_service.specs.{Handover.HasHanded, Job.job_of, Tells.TellsUpdate};

use crate::job::Requested;
use crate::memory::Memory;
use crate::metrics::Looking;
use crate::outbox::{Outbox, Sent, StorerHandle, UpdateObserver};
use crate::reads::answer_unstored;
use crate::settlement::{answer_by_look, refuse_place};
use crate::writer_lease::Outcome;
use bytes::Bytes;
use snap_disk::Disk;
use snap_frame::{Reply, Request};
use snap_memory::Scanner;
use snap_session::Service;
use std::alloc::Global;
use std::marker::{Brand, Model};
use std::rt::Clock;
use std::sync::Wait;
use std::sync::atomic::{AtomicBool, Ordering};

/// A worker's [`Service`]: answers scans and statuses itself. It stores an update itself if nobody else waits for the
/// desk or has the segment's writer, and else sends it to the segment's storer.
///
/// Models what its scanner knows. No connection waits for the store of another one. A scan takes no lock. If memory for
/// a job runs out, sending the update is tried again for up to a tenth of a second. `watch` is notified of the updates
/// that the desk stores.
#[derive(Drop)]
pub struct Desk<R: Wait + Copy, M: Memory, D: Disk + Drop, H: Drop> {
    alloc: Global,
    outbox: Outbox<R, M, D>,
    scanner: Scanner,
    watch: H,
    /// Whether it may store itself, since no other connection waits for it.
    may_store: AtomicBool,
}

impl<R: Wait + Copy, M: Memory, D: Disk + Drop, H: Drop> Model for Desk<R, M, D, H> {
    ghost use Rattle.std.specs.Prelude.{◌≡◌, length};
    ghost use Rattle.snap_memory.specs.{Rule.segments, Seat.Known};
    ghost use Rattle.snap_service.specs.Memory.{IsOf};

    ghost Value = { Known };

    ghost view = { λ d. d.scanner };

    ghost invariant = { λ d. IsOf M.table M.plan d.scanner × (length d.outbox.handles ≡ segments d.scanner.plan) };
}

/// Replies to an update by its outcome.
///
/// The outcome's writer is idle meanwhile, and returns to its storer afterwards. If the outcome belongs to another
/// update, it isn't used: the reply then refuses the place of the update, or comes from one look.
pub fn answer_outcome<R: Wait + Copy, M: Memory, D: Disk + Drop>(
    scanner: &mut Scanner,
    segment: usize,
    number: u64,
    value: &[u8],
    outcome: Outcome<R, M, D>,
) -> Reply
    requires memory { IsOf M.table M.plan scanner.old }
    ensures answer { AnswersUpdate scanner.old segment number value.now result scanner.new }
    ensures looks { LooksOnce scanner.old scanner.new }
    ensures limits { IsInLimits result }
    ensures told { TellsUpdate outcome segment number value.now result }
{
    let is_its = outcome.is_of(segment, number, value);
    let count = scanner.segments();
    let is_there = segment < count;
    if is_its && is_there {
        return outcome.tell(scanner);
    }
    match refuse_place(count, segment, value) {
        Some(reply) => reply,
        None => answer_by_look(scanner, segment, number, value),
    }
}

/// Stores an update, if it may and nobody else has the writer, and replies. Else sends it to its storer, once, and
/// returns `None`. If it can't be sent, the reply refuses the place of the update or comes from one look.
fn ask<R: Wait + Copy + Clock, M: Memory, D: Disk + Drop, H: UpdateObserver, J: Requested>(
    outbox: &mut Outbox<R, M, D>,
    scanner: &mut Scanner,
    watch: &H,
    may_store: bool,
    segment: usize,
    number: u64,
    value: &Bytes,
    key: usize,
) -> Option<Reply>
    requires memory { IsOf M.table M.plan scanner.old }
    requires handles { length outbox.old.handles ≡ segments scanner.old.plan }
    requires job { J.job ≡ job_of outbox.old.worker key segment number value.now }
    requires asked { M.asked segment number value.now }
    ensures answer { IfSome result (λ r. AnswersUpdate scanner.old segment number value.now r scanner.new) }
    ensures looks { LooksOnce scanner.old scanner.new }
    ensures limits { IfSome result (λ r. IsInLimits r) }
    ensures later { IfNone result (scanner.new ≡ scanner.old) }
    ensures over { IfNone result (HasHanded outbox.old segment outbox.new) }
    ensures not_over { IfSome result (λ _. outbox.new ≡ outbox.old) }
    // Where it may not store, the reply needs no store: it is a refusal of the place, or comes from one look.
    ensures shared { may_store ≡ false → IfSome result (λ _.
        (scanner.new ≡ scanner.old) ⊎ (scanner.new.left + 1 ≡ scanner.old.left)) }
{
    if let Some(reply) = refuse_place(outbox.handles.len(), segment, value.as_slice()) {
        return Some(reply);
    }
    if may_store {
        if let Some(reply) = outbox.store(scanner, watch, segment, number, value.as_slice()) {
            return Some(reply);
        }
    }
    let handed: Option<Sent<J>> = outbox.hand_over(segment, number, value, key);
    if handed.is_some() {
        return None;
    }
    Some(answer_by_look(scanner, segment, number, value.as_slice()))
}

impl<R: Wait + Copy + Clock, M: Memory, D: Disk + Drop, H: UpdateObserver + Drop> Desk<R, M, D, H> {
    /// A desk for the worker at index `worker`, with a handle for each segment. It stores nothing itself until
    /// [`let_wait`](Service::let_wait) lets it.
    pub fn new(
        rt: R,
        alloc: Global,
        worker: usize,
        handles: Vec<StorerHandle<M, D>>,
        scanner: Scanner,
        watch: H,
    ) -> Desk<R, M, D, H>
        requires memory { IsOf M.table M.plan scanner }
        requires handles { length handles.items ≡ segments M.plan }
        ensures { result ≡ scanner }
    {
        let outbox = Outbox {
            rt,
            worker,
            handles,
            sent: 0,
        };
        Desk {
            alloc,
            outbox,
            scanner,
            watch,
            may_store: AtomicBool::new(false),
        }
    }
}

impl<R: Wait + Copy + Clock, M: Memory, D: Disk + Drop, H: UpdateObserver + Drop> Service
    for Desk<R, M, D, H> {
    ghost use Rattle.snap_service.specs.{Answers.Answers, Counted.TakesFewLooks, Memory.number_of};
    ghost use Rattle.snap_service.specs.Tells.{Tells};

    type Outcome = Outcome<R, M, D>;

    ghost asked = { M.asked };

    ghost memory = { number_of M.table };

    ghost gives = { λ old request reply new. Answers old request reply new × TakesFewLooks old request new };

    ghost hands_over = { Unit {0} };

    ghost tells = { λ outcome request reply. Tells outcome request reply };

    fn answer(&mut self, request: &Request, key: usize) -> Option<Reply> {
        match request {
            Request::Update {
                segment,
                number,
                value,
            } => ask::<R, M, D, H, Brand>(
                &mut self.outbox,
                &mut self.scanner,
                &self.watch,
                self.may_store.load(Ordering::Relaxed),
                usize::from(*segment),
                *number,
                value,
                key,
            ),
            _ => Some(answer_unstored(
                self.alloc,
                &mut self.scanner,
                &self.outbox.handles,
                request,
            )),
        }
    }

    fn let_wait(&self, may_wait: bool) {
        self.may_store.store(may_wait, Ordering::Relaxed);
    }

    fn finish(&mut self, request: &Request, outcome: Outcome<R, M, D>) -> Reply {
        match request {
            Request::Update {
                segment,
                number,
                value,
            } => answer_outcome(
                &mut self.scanner,
                usize::from(*segment),
                *number,
                value.as_slice(),
                outcome,
            ),
            _ => answer_unstored(self.alloc, &mut self.scanner, &self.outbox.handles, request),
        }
    }
}

impl<R: Wait + Copy + Clock, M: Memory, D: Disk + Drop, H: UpdateObserver + Drop> Looking
    for Desk<R, M, D, H> {
    /// The number of looks that its scanner may still take.
    ghost looks = { λ d. d.left };

    fn looks_left(&self) -> u64 {
        self.scanner.looks_left()
    }
}
