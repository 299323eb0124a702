//! Makes the file of one segment of a dump: what `load` does with each of its files.
ghost use Rattle.std.specs.Prelude.{◌≡◌, ◌≢◌, ◌-◌, ◌^◌, ◌<◌, ◌≤◌, length};
ghost use Rattle.snap_slot.specs.{declared.layout.TheConstants.FILE_LEN, Layout.IsFormatted};
ghost use Rattle.snap_history.specs.{declared.limits.TheConstants.MAX_COUNT, Limits.IsNumber, Limits.IsShort};
ghost use Rattle.snap_segment.specs.Creation.{IsMadeOrLeft};
ghost use Rattle.snap_file_commands.specs.Commands.{CountsEnd, EndsMaking};
ghost use Rattle.snap_file_commands.specs.Effects.{AnyCrashLeaves, LeavesNoMore, MakingKeeps};

use crate::CommandFault;
use snap_disk::Disk;
use snap_order::{Status, write_whole};
use snap_segment::create;
use std::alloc::Global;
use std::io::Write;

/// A file to make: the segment's place, number and value.
#[derive(Clone, Copy)]
pub struct LoadedFile<'v> {
    /// Which segment it is: below `count`.
    pub index: u8,
    /// How many segments there are: 1 to 16.
    pub count: u8,
    /// At most [`LAST_NUMBER`](snap_history::LAST_NUMBER).
    pub number: u64,
    /// At most [`MAX_VALUE_LEN`](snap_history::MAX_VALUE_LEN) bytes.
    pub value: &'v [u8],
}

/// Makes the device this file, and prints `loaded I of N number K`.
///
/// Refused as `WrongFile` if the device has another length than a segment file, with no device call;
/// `AlreadyFormatted` if the header's gate is open, and nothing is written; `DeviceFailed` if a device
/// call failed; `NoMemory` if memory ran out, with no device call.
pub fn load<D: Disk, W: Write>(
    alloc: Global,
    of: &LoadedFile<'_>,
    disk: &mut D,
    writer: &mut W,
) -> Result<Status, CommandFault>
    requires below { of.now.index < of.now.count }
    requires few { of.now.count ≤ MAX_COUNT }
    requires number { IsNumber of.now.number }
    requires fits { IsShort of.now.value.now }
    requires headroom { D.failure_count disk.old < 2 ^ 64 - 1 }
    ensures honest { D.is_honest disk.new → D.is_honest disk.old }
    ensures count { CountsEnd result (D.failure_count disk.old) (D.failure_count disk.new) }
    ensures ends { EndsMaking (D.is_honest disk.new) of.now.index of.now.count of.now.number
        of.now.value.now (D.device disk.old) (D.device disk.new) result }
    ensures keeps { MakingKeeps (disk.new ≡ disk.old) (LeavesNoMore D.Disk disk.old disk.new) result }
    ensures wrong_length { length (D.device disk.old).bytes ≢ FILE_LEN → disk.new ≡ disk.old }

    // A crash at any time leaves what was there, an unformatted file or the whole new one; and of a file
    // that is formatted, only what was there.
    ensures any_time { AnyCrashLeaves D.Disk disk.old disk.new (IsMadeOrLeft of.now.index
        of.now.count of.now.number of.now.value.now (D.device disk.old)) }
    ensures spared { IsFormatted (D.device disk.old).bytes → LeavesNoMore D.Disk disk.old disk.new }
{
    let (index, count, number) = (of.index, of.count, of.number);
    // The line is made first, so that the file stays as it is if memory runs out.
    let line = format!(in alloc; "loaded {index} of {count} number {number}\n")?;
    create(disk, index, count, number, of.value)?;
    write_whole(writer, line.as_bytes()).map_err(CommandFault::Output)?;
    Ok(Status::Done)
}
