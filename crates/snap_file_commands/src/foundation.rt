//! Makes the file of one segment of a folder, or leaves it if it is whole: what `init` does with each of its files.
//!
//! So `init` can be run again, also after a crash. The command `format` takes any file without an open header. `init`
//! doesn't touch a file that has lost its header and still has a value, since nobody checks each file of a folder
//! before `init` is run again.
ghost use Rattle.std.specs.Prelude.{◌≡◌, ◌≢◌, ◌-◌, ◌^◌, ◌<◌, ◌≤◌, ◌↔◌, length, IsTrue};
ghost use Rattle.snap_disk.specs.Device.{IsUnchanged};
ghost use Rattle.snap_slot.specs.declared.layout.TheConstants.{FILE_LEN};
ghost use Rattle.snap_history.specs.declared.limits.TheConstants.{MAX_COUNT};
ghost use Rattle.snap_segment.specs.{Calls.Counts, Creation.IsFresh};
ghost use Rattle.snap_file_commands.specs.Commands.{CountsEnd};
ghost use Rattle.snap_file_commands.specs.Effects.{AnyCrashLeaves, LeavesNoMore, StoreKeeps};
ghost use Rattle.snap_file_commands.specs.Foundation.{EndsFounding, EndsKeeping, IsBlank, IsEmptySlot};
ghost use Rattle.snap_file_commands.specs.Foundation.{SaysBlank, refusal_of_formatted};

use crate::CommandFault;
use crate::commands::format_file;
use snap_disk::{Disk, Refusal};
use snap_order::{Status, write_whole};
use snap_segment::{Header, Segment, Slot, check};
use std::alloc::Global;
use std::io::Write;

/// Makes the device the file of segment `index` of `count`, or keeps it with its number and value if it is that file
/// already. Prints `formatted I of N`, or `kept I of N number K`.
///
/// A file is made only if its header's gate is closed and no slot has a value, but that of a fresh file:
/// one that was never formatted, or of which a format was cut off. Refused as `WrongFile` if the device has
/// another length than a segment file, with no device call; `AlreadyFormatted` if the header's gate is open
/// and the file is not that of this segment, whole; `Unformatted` if that gate is closed, and a slot has a
/// value; `DeviceFailed` if a device call failed; `NoMemory` if memory ran out.
pub fn found<D: Disk, W: Write>(
    alloc: Global,
    mut disk: D,
    index: u8,
    count: u8,
    writer: &mut W,
) -> (D, Result<Status, CommandFault>)
    requires below { index < count }
    requires few { count ≤ MAX_COUNT }
    requires headroom { D.failure_count disk < 2 ^ 64 - 1 }
    ensures honest { D.is_honest result.0 → D.is_honest disk }
    ensures count { CountsEnd result.1 (D.failure_count disk) (D.failure_count result.0) }

    // The end says what the file was and is.
    ensures ends { EndsFounding (D.is_honest result.0) index count (D.device disk) (D.device result.0) result.1 }

    // A refusal leaves what was there, unless the device failed; a device of another length is untouched.
    ensures keeps { StoreKeeps (LeavesNoMore D.Disk disk result.0) result.1 }
    ensures wrong_length { length (D.device disk).bytes ≢ FILE_LEN → result.0 ≡ disk }

    // A crash at any time leaves what was there, an unformatted file or the whole new one; and of a file
    // that has a header or a value, only what was there.
    ensures any_time { AnyCrashLeaves D.Disk disk result.0 (IsFresh index count (D.device disk)) }
    ensures spared { (IsBlank (D.device disk).bytes → ⊥) → LeavesNoMore D.Disk disk result.0 }
{
    match is_blank(&mut disk) {
        Ok(true) => {
            let end = format_file(alloc, &mut disk, index, count, writer);
            (disk, end)
        }
        Ok(false) => keep(alloc, disk, index, count, writer),
        Err(why) => (disk, Err(CommandFault::Refused(why))),
    }
}

/// Whether a format was cut off on the device, or never begun. If not, its header's gate is open. Refused
/// as `Unformatted` if that is closed and a slot has a value.
fn is_blank<D: Disk>(disk: &mut D) -> Result<bool, Refusal>
    requires { D.failure_count disk.old < 2 ^ 64 - 1 }
    ensures counts { Counts D.Disk result 1 disk.old disk.new }
    ensures says { D.is_honest disk.new → SaysBlank (D.device disk.old).bytes result }
    ensures unchanged { D.is_honest disk.new → IsUnchanged (D.device disk.old) (D.device disk.new) }
    ensures any_time { LeavesNoMore D.Disk disk.old disk.new }
    ensures wrong_length { length (D.device disk.old).bytes ≢ FILE_LEN
        → (result ≡ Err Refusal.WrongFile) × (disk.new ≡ disk.old) }
{
    let findings = check(disk)?;
    let (first, second, third) = findings.slots;
    let is_empty = is_empty_slot(first) && is_empty_slot(second) && is_empty_slot(third);
    match findings.header {
        Header::Closed if is_empty => Ok(true),
        Header::Closed => Err(Refusal::Unformatted),
        Header::Open { .. } | Header::Wrong => Ok(false),
    }
}

/// Whether the slot has no value, or that of a fresh file. A crash during a format may leave it bad.
fn is_empty_slot(slot: Slot) -> bool
    ensures { IsTrue result ↔ IsEmptySlot slot }
{
    match slot {
        Slot::Closed | Slot::Bad(_) => true,
        Slot::Open { number, length } => number == 0 && length == 0,
    }
}

/// Leaves a formatted file as it is, if it is that of the segment, whole, and prints that.
fn keep<D: Disk, W: Write>(
    alloc: Global,
    disk: D,
    index: u8,
    count: u8,
    writer: &mut W,
) -> (D, Result<Status, CommandFault>)
    requires below { index < count }
    requires few { count ≤ MAX_COUNT }
    requires headroom { D.failure_count disk < 2 ^ 64 - 1 }
    ensures honest { D.is_honest result.0 → D.is_honest disk }
    ensures count { CountsEnd result.1 (D.failure_count disk) (D.failure_count result.0) }
    ensures ends { EndsKeeping (D.is_honest result.0) index count (D.device disk) (D.device result.0) result.1 }
    ensures any_time { LeavesNoMore D.Disk disk result.0 }
{
    let segment = match Segment::open(alloc, disk, index, count) {
        Ok(segment) => segment,
        Err((why, disk)) => return (disk, Err(CommandFault::Refused(of_formatted(why)))),
    };
    let number = segment.number();
    let Ok(line) = format!(in alloc; "kept {index} of {count} number {number}\n") else {
        let failure = CommandFault::Refused(Refusal::NoMemory);
        return (segment.into_device(), Err(failure));
    };
    match write_whole(writer, line.as_bytes()) {
        Ok(()) => (segment.into_device(), Ok(Status::Done)),
        Err(error) => (segment.into_device(), Err(CommandFault::Output(error))),
    }
}

/// Why a formatted file is neither kept nor made, by why it can't be opened.
fn of_formatted(why: Refusal) -> Refusal
    ensures { result ≡ refusal_of_formatted why }
{
    match why {
        Refusal::NoMemory | Refusal::DeviceFailed => why,
        _ => Refusal::AlreadyFormatted,
    }
}
