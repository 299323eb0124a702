//! Settling an update, by its writer or by one look, and the reply to it.
ghost use Rattle.std.specs.Prelude.{◌≡◌, ℕ, ◌+◌, ◌<◌, IfSome, IfNone};
ghost use Rattle.snap_disk.specs.declared.refusal.Refusal.{Refusal};
ghost use Rattle.snap_history.specs.Limits.{IsNumber, IsShort};
ghost use Rattle.snap_memory.specs.Rule.{segments};
ghost use Rattle.snap_memory.specs.Seat.{AreTogether, Known, Meets, own_of};
ghost use Rattle.snap_frame.specs.{declared.reply.Reply.Reply, Messages.IsInLimits};
ghost use Rattle.snap_writer.specs.Update.{IsSameSeat};
ghost use Rattle.snap_service.specs.Settled.{IsSettled, IsSettledAt, IsReplyByLook};
ghost use Rattle.snap_service.specs.Updated.{IsUpdatedAndTold, RepliesTold};
ghost use Rattle.snap_service.specs.{Answers.AnswersUpdate, Counted.IsMisplaced};

use snap_disk::{Disk, Refusal};
use snap_frame::Reply;
use snap_history::{LAST_NUMBER, MAX_VALUE_LEN};
use snap_memory::Scanner;
use snap_writer::Writer;

/// Makes the reply from the writer's result, which the scanner has seen once it meets the writer. No look is taken.
pub fn reply_told<D: Disk>(
    told: Result<u64, Refusal>,
    writer: &mut Writer<D>,
    scanner: &mut Scanner,
) -> Reply
    requires together { AreTogether scanner.old writer.old.seat }
    ensures { RepliesTold told writer.old writer.new scanner.old scanner.new result }
{
    writer.meet(scanner);
    match told {
        Ok(number) => Reply::Stored(number),
        Err(why) => Reply::Refused {
            why,
            detail: writer.number(),
        },
    }
}

/// Updates the segment by its writer, and replies with the result.
///
/// The refusals are those of [`Writer::update`] except 3, with the segment's number as detail. The scanner meets the
/// writer after the update. So the reply is the writer's result, whatever the scanner had seen before, and the
/// scanner's next scan has the update. No look is taken.
pub fn settle<D: Disk>(
    writer: &mut Writer<D>,
    scanner: &mut Scanner,
    segment: usize,
    number: u64,
    value: &[u8],
) -> Reply
    requires together { AreTogether scanner.old writer.old.seat }
    requires own { own_of writer.old.seat ≡ segment }
    requires size { IsShort value.now }
    ensures told { IsUpdatedAndTold D.Disk writer.old writer.new number value.now result }
    ensures settled { IsSettledAt scanner.new segment number value.now result }
    ensures limits { IsInLimits result }
    ensures scanner { Meets scanner.old scanner.new }
    ensures seat { IsSameSeat writer.old.seat writer.new.seat }
{
    let told = writer.update(number, value);
    reply_told(told, writer, scanner)
}

/// Refuses an update whose segment isn't one of `count` (2, with their number), or whose value is too long (3, with its
/// length), in this order. `None` if both are valid.
pub fn refuse_place(count: usize, segment: usize, value: &[u8]) -> Option<Reply>
    ensures refused { IfSome result (λ r. (a : Known) (number : ℕ) → segments a.plan ≡ count
        → AnswersUpdate a segment number value.now r a) }
    ensures misplaced { IfSome result (λ _. IsMisplaced count segment value.now) }
    ensures fine { IfNone result ((segment < count) × IsShort value.now) }
    ensures limits { IfSome result (λ r. IsInLimits r) }
{
    if segment >= count {
        return Some(Reply::Refused {
            why: Refusal::NoSegment,
            detail: count as u64,
        });
    }
    if value.len() > MAX_VALUE_LEN {
        return Some(Reply::Refused {
            why: Refusal::TooLong,
            detail: value.len() as u64,
        });
    }
    None
}

/// Answers an update without its writer, by one look at its segment. Nothing is stored.
///
/// The reply is `Stored` if the segment has that number and value. Otherwise it is a refusal with
/// the segment's number as detail: `Conflict` if the segment has that number and another value;
/// `Fenced` for the next number, or `Exhausted` after the largest one; `OutOfStep` for any other
/// number. If no look is left it is `Worn`, with detail 0, and the scanner doesn't change.
pub fn answer_by_look(scanner: &mut Scanner, segment: usize, number: u64, value: &[u8]) -> Reply
    requires segment { segment < segments scanner.old.plan }
    requires size { IsShort value.now }
    ensures answer { AnswersUpdate scanner.old segment number value.now result scanner.new }
    ensures worn { scanner.old.left ≡ 0 → result ≡ Reply.Refused Refusal.Worn 0 }
    ensures unchanged { scanner.old.left ≡ 0 → scanner.new ≡ scanner.old }
    ensures one_look { 0 < scanner.old.left → scanner.new.left + 1 ≡ scanner.old.left }
    ensures looked { 0 < scanner.old.left → IsReplyByLook scanner.new segment number value.now result }
    ensures limits { IsInLimits result }
{
    if scanner.looks_left() == 0 {
        return Reply::Refused {
            why: Refusal::Worn,
            detail: 0,
        };
    }
    let mut held = [0; MAX_VALUE_LEN];
    let (current, size) = scanner.read_one(segment, &mut held);
    // Called for its clause on the scanner (docs/DECISIONS.md, 180).
    let _segments = scanner.segments();
    reply_found(number, value, current, &held[..size])
}

/// The reply to an update without a store, by the segment's number and value.
fn reply_found(number: u64, value: &[u8], current: u64, held: &[u8]) -> Reply
    requires { IsNumber current }
    ensures settled { IsSettled current held.now number value.now result }
    ensures fenced { IsNumber number → number ≡ current + 1 → result ≡ Reply.Refused Refusal.Fenced current }
    ensures limits { IsInLimits result }
{
    if number == current && value == held {
        return Reply::Stored(number);
    }
    let why = if number == current {
        Refusal::Conflict
    } else if number != current + 1 {
        Refusal::OutOfStep
    } else if current == LAST_NUMBER {
        Refusal::Exhausted
    } else {
        Refusal::Fenced
    };
    Reply::Refused {
        why,
        detail: current,
    }
}
