//! The commands on one file, over any device, reader and writer.
//!
//! Each command returns how it ended, and its device. `specs/Commands.antt` says what each end means for
//! the device's bytes and for what was read and printed, `specs/Effects.antt` which ends leave the device
//! as it was. What is printed for people, all but a value and `stored K`, is tested.
ghost use Rattle.std.specs.Prelude.{◌≡◌, ◌≢◌, ◌⊎◌, ◌<◌, ◌≤◌, ◌-◌, ◌^◌, [], length};
ghost use Rattle.snap_disk.specs.Device.{Device};
ghost use Rattle.snap_slot.specs.{declared.layout.TheConstants.FILE_LEN, Layout.IsFileOf, States.IsEither};
ghost use Rattle.snap_history.specs.{declared.limits.TheConstants.MAX_COUNT, Limits.IsShort};
ghost use Rattle.snap_segment.specs.Creation.{IsFresh};
ghost use Rattle.snap_file_commands.specs.Commands.{CountsEnd, EndsCheck, EndsMaking, EndsOrder, EndsPut};
ghost use Rattle.snap_file_commands.specs.Commands.{EndsStore, OrderLeaves, PutLeaves};
ghost use Rattle.snap_file_commands.specs.Effects.{AnyCrashLeaves, LeavesNoMore, MakingKeeps, OrderKeeps, PutKeeps};
ghost use Rattle.snap_file_commands.specs.Effects.{StoreKeeps};
ghost use Rattle.snap_order.specs.Order.{IsFileWithinLimits};

use crate::CommandFault;
use crate::slot_value::print_slot;
use snap_disk::{Disk, Refusal};
use snap_history::MAX_VALUE_LEN;
use snap_order::{FileOrder, Status, findings_document, read_up_to, write_whole};
use snap_segment::{Segment, check, format};
use std::alloc::Global;
use std::io::{Read, Write};

/// Runs the command of the order on its device, and returns the device with how the command ended. Its output goes to
/// `writer`.
///
/// A `put` reads its value first, and refuses one that is too long before it calls the device. Then come the refusals
/// of the device as the segment meets them, and last a writer that fails: so a `put` whose line can't be written has
/// stored its value.
pub fn act<D: Disk, R: Read, W: Write>(
    alloc: Global,
    order: &FileOrder<'_>,
    mut disk: D,
    reader: &mut R,
    writer: &mut W,
) -> (D, Result<Status, CommandFault>)
    requires limits { IsFileWithinLimits order.now }
    requires headroom { D.failure_count disk < 2 ^ 64 - 1 }
    ensures honest { D.is_honest result.0 → D.is_honest disk }

    // The device failed once if the end says so, and otherwise didn't.
    ensures count { CountsEnd result.1 (D.failure_count disk) (D.failure_count result.0) }

    // The end says what the file held and holds, and what was read and printed.
    ensures ends { EndsOrder order.now (D.is_honest result.0) (R.remaining reader.old)
        (D.device disk) (D.device result.0) (W.contents writer.old) (W.contents writer.new) result.1 }

    // A refusal leaves what was there.
    ensures keeps { OrderKeeps order.now (result.0 ≡ disk) (LeavesNoMore D.Disk disk result.0) result.1 }

    // A device of another length is left untouched.
    ensures wrong_length { length (D.device disk).bytes ≢ FILE_LEN → result.0 ≡ disk }

    // A crash at any time leaves what the order may leave.
    ensures any_time { AnyCrashLeaves D.Disk disk result.0
        (OrderLeaves order.now (R.remaining reader.old) (D.device disk)) }
{
    match *order {
        FileOrder::Format { index, count, .. } => {
            let end = format_file(alloc, &mut disk, index, count, writer);
            (disk, end)
        }
        FileOrder::Put { index, count, .. } => put(alloc, disk, index, count, reader, writer),
        FileOrder::Get { index, count, .. } => match Segment::open(alloc, disk, index, count) {
            Ok(segment) => {
                let end = match write_whole(writer, segment.value()) {
                    Ok(()) => Ok(Status::Done),
                    Err(error) => Err(CommandFault::Output(error)),
                };
                (segment.into_device(), end)
            }
            Err((why, disk)) => (disk, Err(CommandFault::Refused(why))),
        },
        FileOrder::Check { is_json, .. } => {
            let end = check_file(alloc, &mut disk, is_json, writer);
            (disk, end)
        }
        FileOrder::Slot { file, slot } => {
            let end = print_slot(alloc, file, slot, &mut disk, writer);
            (disk, end)
        }
    }
}

/// Formats the device, and prints that.
#[tactic(auto, unfolding(snap_slot::specs::Layout::fresh_file))]
pub(crate) fn format_file<D: Disk, W: Write>(
    alloc: Global,
    disk: &mut D,
    index: u8,
    count: u8,
    writer: &mut W,
) -> Result<Status, CommandFault>
    requires below { index < count }
    requires few { count ≤ MAX_COUNT }
    requires headroom { D.failure_count disk.old < 2 ^ 64 - 1 }
    ensures honest { D.is_honest disk.new → D.is_honest disk.old }
    ensures count { CountsEnd result (D.failure_count disk.old) (D.failure_count disk.new) }
    ensures ends { EndsMaking (D.is_honest disk.new) index count 0 [] (D.device disk.old) (D.device disk.new) result }
    ensures keeps { MakingKeeps (disk.new ≡ disk.old) (LeavesNoMore D.Disk disk.old disk.new) result }
    ensures wrong_length { length (D.device disk.old).bytes ≢ FILE_LEN → disk.new ≡ disk.old }
    ensures any_time { AnyCrashLeaves D.Disk disk.old disk.new (IsFresh index count (D.device disk.old)) }
{
    // The line is made first, so that the file stays as it is if memory runs out.
    let line = format!(in alloc; "formatted {index} of {count}\n")?;
    format(disk, index, count)?;
    write_whole(writer, line.as_bytes()).map_err(CommandFault::Output)?;
    Ok(Status::Done)
}

/// Stores what the reader has.
fn put<D: Disk, R: Read, W: Write>(
    alloc: Global,
    disk: D,
    index: u8,
    count: u8,
    reader: &mut R,
    writer: &mut W,
) -> (D, Result<Status, CommandFault>)
    requires below { index < count }
    requires few { count ≤ MAX_COUNT }
    requires headroom { D.failure_count disk < 2 ^ 64 - 1 }
    ensures honest { D.is_honest result.0 → D.is_honest disk }
    ensures count { CountsEnd result.1 (D.failure_count disk) (D.failure_count result.0) }
    ensures ends { EndsPut (D.is_honest result.0) index count (R.remaining reader.old)
        (D.device disk) (D.device result.0) (W.contents writer.old) (W.contents writer.new) result.1 }
    ensures keeps { PutKeeps (result.0 ≡ disk) (LeavesNoMore D.Disk disk result.0) result.1 }
    ensures wrong_length { length (D.device disk).bytes ≢ FILE_LEN → result.0 ≡ disk }
    ensures any_time { AnyCrashLeaves D.Disk disk result.0
        (PutLeaves index count (R.remaining reader.old) (D.device disk)) }
{
    // One byte more than a value may have shows that the input is too long.
    let mut input = [0u8; MAX_VALUE_LEN + 1];
    let len = match read_up_to(reader, &mut input) {
        Ok(len) => len,
        Err(error) => return (disk, Err(CommandFault::Input(error))),
    };
    if len > MAX_VALUE_LEN {
        return (disk, Err(CommandFault::Refused(Refusal::TooLong)));
    }
    let mut segment = match Segment::open(alloc, disk, index, count) {
        Ok(segment) => segment,
        Err((why, disk)) => return (disk, Err(CommandFault::Refused(why))),
    };
    let end = store(alloc, &mut segment, &input[..len], writer);
    (segment.into_device(), end)
}

/// Stores the value in the open segment, and then prints its number.
fn store<D: Disk, W: Write>(
    alloc: Global,
    segment: &mut Segment<D>,
    value: &[u8],
    writer: &mut W,
) -> Result<Status, CommandFault>
    requires unfenced { segment.old.begun ≡ None }
    requires fits { IsShort value.now }
    ensures honest { D.is_honest segment.new.device → D.is_honest segment.old.device }
    ensures count { CountsEnd result (D.failure_count segment.old.device) (D.failure_count segment.new.device) }

    // The end is true of each file that held what the segment holds.
    ensures ends { (file : Device) → (D.is_honest segment.old.device → IsFileOf segment.old.index
        segment.old.count segment.old.number segment.old.value file.bytes)
        → EndsStore (D.is_honest segment.new.device) segment.old.index segment.old.count value.now
        file (D.device segment.new.device) (W.contents writer.old) (W.contents writer.new) result }
    ensures keeps { StoreKeeps (segment.new ≡ segment.old) result }

    // It changes nothing, or a crash leaves the value from before it or the new one.
    ensures any_time { (segment.new ≡ segment.old) ⊎ AnyCrashLeaves D.Disk segment.old.device segment.new.device
        (IsEither segment.old.index segment.old.count segment.old.number segment.old.value value.now) }
{
    // The line is made first, so that the file stays as it is if memory runs out.
    let number = segment.number() + 1;
    let line = format!(in alloc; "stored {number}\n")?;
    segment.store(value)?;
    match write_whole(writer, line.as_bytes()) {
        Ok(()) => Ok(Status::Done),
        Err(error) => Err(CommandFault::Unsaid { number, error }),
    }
}

/// Prints the findings. If they have no answer, the status says so.
fn check_file<D: Disk, W: Write>(
    alloc: Global,
    disk: &mut D,
    is_json: bool,
    writer: &mut W,
) -> Result<Status, CommandFault>
    requires headroom { D.failure_count disk.old < 2 ^ 64 - 1 }
    ensures honest { D.is_honest disk.new → D.is_honest disk.old }
    ensures count { CountsEnd result (D.failure_count disk.old) (D.failure_count disk.new) }
    ensures ends { EndsCheck (D.is_honest disk.new) (D.device disk.old) result }
    ensures wrong_length { length (D.device disk.old).bytes ≢ FILE_LEN → disk.new ≡ disk.old }
    ensures any_time { LeavesNoMore D.Disk disk.old disk.new }
{
    let findings = check(disk)?;
    let made = if is_json {
        findings_document(alloc, &findings)
    } else {
        findings.to_string(alloc).map(String::into_bytes)
    };
    let text = made?;
    let status = if findings.answer.is_some() {
        Status::Done
    } else {
        Status::Refused
    };
    write_whole(writer, &text).map_err(CommandFault::Output)?;
    Ok(status)
}
