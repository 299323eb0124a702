//! Answers that need no store: scans, parts, statuses, and an update's by a look.
ghost use Rattle.std.specs.Prelude.{◌≡◌, ◌<◌, ◌≤◌, length, map, All, IfOk};
ghost use Rattle.snap_history.specs.Limits.{IsShort};
ghost use Rattle.snap_memory.specs.{Rule.segments, Sets.named, Sets.size, Values.pair_of};
ghost use Rattle.snap_frame.specs.Messages.{IsAskable, IsInLimits, IsStatus};
ghost use Rattle.snap_service.specs.Answers.{Answers, AnswersScan, AnswersPart, segment_of, named_pair};
ghost use Rattle.snap_service.specs.Counted.{TakesFewLooks};

use crate::heap_writer::status_in;
use crate::settlement::{answer_by_look, refuse_place};
use snap_disk::Refusal;
use snap_frame::{NamedValue, Reply, Request, SegmentSet, SegmentStatus, SegmentValue};
use snap_history::MAX_COUNT;
use snap_memory::Scanner;
use std::alloc::{AllocError, Global};
use std::sync::atomic::{AtomicU64, Ordering};

/// Answers a scan: the number and the value of each segment, all from one moment, with all updates
/// that were in the history at the scan's first look.
///
/// It is wait-free, and reads only values that have changed. Refused with detail 0: as `Worn` if fewer looks are left
/// than a scan might take, and then nothing changes; as `NoMemory` if memory runs out for a value or the list.
pub fn answer_scan(alloc: Global, scanner: &mut Scanner) -> Reply
    ensures answer { AnswersScan scanner.old result scanner.new }
    ensures limits { IsInLimits result }
    ensures table { scanner.new.table ≡ scanner.old.table }
    ensures plan { scanner.new.plan ≡ scanner.old.plan }
{
    let all = SegmentSet::all(scanner.segments());
    match scanner.scan(alloc, all) {
        Ok(values) => Reply::Snapshot(values),
        Err(why) => Reply::Refused { why, detail: 0 },
    }
}

/// Answers a scan of some segments, at least one: the number and the value of each named segment,
/// in ascending order, as [`answer_scan`] answers all of them.
///
/// Refused as `NoSegment`, with the number of segments, if a named one doesn't exist; then nothing changes. Otherwise
/// refused as [`answer_scan`] is, by the looks that a scan of the named segments might take.
pub fn answer_part(alloc: Global, scanner: &mut Scanner, set: SegmentSet) -> Reply
    requires some { 0 < set.bits }
    ensures answer { AnswersPart scanner.old set.bits result scanner.new }
    ensures limits { IsInLimits result }
    ensures table { scanner.new.table ≡ scanner.old.table }
    ensures plan { scanner.new.plan ≡ scanner.old.plan }
{
    let segments = scanner.segments();
    if !set.is_among(segments) {
        return Reply::Refused {
            why: Refusal::NoSegment,
            detail: segments as u64,
        };
    }
    let listed = match scanner.scan(alloc, set) {
        Ok(values) => name_values(alloc, set, &values),
        Err(why) => return Reply::Refused { why, detail: 0 },
    };
    match listed {
        Ok(values) => Reply::Part(values),
        Err(AllocError) => Reply::Refused {
            why: Refusal::NoMemory,
            detail: 0,
        },
    }
}

/// Pairs the values of the named segments, which are in ascending order, with their segments.
fn name_values(
    alloc: Global,
    set: SegmentSet,
    values: &Vec<SegmentValue>,
) -> Result<Vec<NamedValue>, AllocError>
    requires each { length values.now.items ≡ size set.bits }
    ensures segments { IfOk result (λ list. map segment_of list.items ≡ named set.bits) }
    ensures values { IfOk result (λ list. map named_pair list.items ≡ map pair_of values.now.items) }
{
    let mut list = Vec::with_capacity(alloc, values.len())?;
    for segment in 0..MAX_COUNT {
        if set.has(usize::from(segment)) {
            let entry = &values[list.len()];
            list.push(NamedValue {
                segment,
                number: entry.number,
                value: entry.value.clone()?,
            })?;
        }
    }
    Ok(list)
}

/// Reads the last published status of each segment, without a look and without a lock.
fn list_statuses<T: AsRef<AtomicU64>>(
    alloc: Global,
    standings: &[T],
) -> Result<Vec<SegmentStatus>, AllocError>
    ensures count { IfOk result (λ s. length s.items ≡ length standings.now) }
    ensures limits { IfOk result (λ s. All IsStatus s.items) }
{
    let mut statuses = Vec::new(alloc);
    for standing in standings {
        statuses.push(status_in(standing.as_ref().load(Ordering::SeqCst)))?;
    }
    Ok(statuses)
}

/// Answers a request without a store: an update by refusing its place or from one look, a status by the words in which
/// each segment's was published last.
pub(crate) fn answer_unstored<T: AsRef<AtomicU64>>(
    alloc: Global,
    scanner: &mut Scanner,
    standings: &[T],
    request: &Request,
) -> Reply
    requires standings { length standings.now ≡ segments scanner.old.plan }
    requires askable { IsAskable request.now }
    ensures answer { Answers scanner.old request.now result scanner.new }
    ensures looks { TakesFewLooks scanner.old request.now scanner.new }
    ensures limits { IsInLimits result }
    ensures table { scanner.new.table ≡ scanner.old.table }
    ensures plan { scanner.new.plan ≡ scanner.old.plan }
{
    match request {
        Request::Update {
            segment,
            number,
            value,
        } => {
            let (segment, value) = (usize::from(*segment), value.as_slice());
            match refuse_place(scanner.segments(), segment, value) {
                Some(reply) => reply,
                None => answer_by_look(scanner, segment, *number, value),
            }
        }
        Request::Scan => answer_scan(alloc, scanner),
        Request::Part(set) => answer_part(alloc, scanner, *set),
        Request::Status => {
            let _at_most_16 = scanner.segments();
            match list_statuses(alloc, standings) {
                Ok(statuses) => Reply::Status(statuses),
                Err(AllocError) => Reply::Refused {
                    why: Refusal::NoMemory,
                    detail: 0,
                },
            }
        }
    }
}
