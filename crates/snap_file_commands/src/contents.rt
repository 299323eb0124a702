//! Reads the number and value of one segment's file: what `dump` does with each file of a folder.
ghost use Rattle.std.specs.Prelude.{◌≡◌, ◌≢◌, ◌-◌, ◌^◌, ◌<◌, ◌≤◌, length, IfOk};
ghost use Rattle.snap_slot.specs.declared.layout.TheConstants.{FILE_LEN};
ghost use Rattle.snap_history.specs.{declared.limits.TheConstants.MAX_COUNT, Limits.IsNumber, Limits.IsShort};
ghost use Rattle.snap_file_commands.specs.{Effects.LeavesNoMore, Contents.Reads};

use bytes::Bytes;
use snap_disk::{Disk, Refusal};
use snap_scan::SegmentValue;
use snap_segment::Segment;
use std::alloc::Global;

/// The number and value that the device holds as the file of segment `index` of `count`, or why it can't
/// be opened. Nothing is written.
pub fn held_value<D: Disk>(
    alloc: Global,
    index: u8,
    count: u8,
    disk: D,
) -> (D, Result<SegmentValue, Refusal>)
    requires below { index < count }
    requires few { count ≤ MAX_COUNT }
    requires headroom { D.failure_count disk < 2 ^ 64 - 1 }
    ensures honest { D.is_honest result.0 → D.is_honest disk }
    ensures reads { Reads (D.is_honest result.0) index count (D.device disk) result.1 }

    // A segment can have it.
    ensures number { IfOk result.1 (λ v. IsNumber v.number) }
    ensures fits { IfOk result.1 (λ v. IsShort v.value) }

    // A device of another length is left untouched, and a crash leaves only what one before could.
    ensures wrong_length { length (D.device disk).bytes ≢ FILE_LEN → result.0 ≡ disk }
    ensures any_time { LeavesNoMore D.Disk disk result.0 }
{
    let segment = match Segment::open(alloc, disk, index, count) {
        Ok(segment) => segment,
        Err((why, disk)) => return (disk, Err(why)),
    };
    let number = segment.number();
    match Bytes::copy_from_slice(alloc, segment.value()) {
        Ok(value) => (segment.into_device(), Ok(SegmentValue { number, value })),
        Err(_) => (segment.into_device(), Err(Refusal::NoMemory)),
    }
}
