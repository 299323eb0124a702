//! The two halves of an update: the scan whose result it carries, and its publication.
ghost use Rattle.std.specs.Prelude.{◌≡◌, ℕ, ◌+◌, ◌^◌, ◌<◌, ◌≤◌, length};
ghost use Rattle.snap_history.specs.Limits.{IsNumber, IsShort};
ghost use Rattle.snap_register.specs.Seat.{Grows, IsBelow, MayPublish, Shows, number_in, own_of};
ghost use Rattle.snap_memory.specs.Scans.{IsScan, CanScan, TakesLooks, all_of};

use crate::looks::gather;
use snap_register::{Looker, UpdatePhase, View, WriteSeat};
use snap_scan::{MAX_SEGMENTS, SegmentSet};

/// The scan inside an update: returns where the memory is that the update is to carry. That memory
/// has all that was in the history at the first look of this call. The seat may publish one update
/// with it, as long as it makes no further look. Looks are used up: enough for a scan have to be left
/// ([`most_looks`](snap_scan::most_looks)).
pub fn prepare(seat: &mut WriteSeat) -> View
    requires left { CanScan seat.old }
    ensures seen { Grows seat.old seat.new }
    ensures below { IsBelow seat.new }
    ensures scan { IsScan (all_of seat.old) seat.old seat.new result }
    ensures view { MayPublish seat.new result }
    ensures left { TakesLooks seat.old seat.new }
{
    let mut numbers = [0; MAX_SEGMENTS];
    gather(seat, SegmentSet::all(seat.segments()), &mut numbers)
}

/// Publishes an update of the seat's segment to `value`, with the view that [`prepare`] gave, and
/// returns its number. The update is the last that the seat has seen. The seat was told that its store has ended.
pub fn show(seat: &mut WriteSeat, value: &[u8], view: View) -> u64
    requires size { IsShort value.now }
    requires next { IsNumber (number_in seat.old seat.old.seen (own_of seat.old) + 1) }
    requires view { MayPublish seat.old view }
    requires stored { seat.old.phase ≡ UpdatePhase.Stored }
    ensures shown { Shows seat.old seat.new value.now }
    ensures below { IsBelow seat.new }
    ensures number { result ≡ number_in seat.new seat.new.seen (own_of seat.new) }
{
    seat.publish(value, &view)
}
