//! The looks of one scan, by either kind of seat, and the values found.
ghost use Rattle.std.specs.Prelude.{◌≡◌, ℕ, ◌<◌, length, slice_index, Some};
ghost use Rattle.snap_register.specs.Rule.{segments};
ghost use Rattle.snap_register.specs.Seat.{Grows, IsBelow, looked};
ghost use Rattle.snap_scan.specs.Sets.{Names, size};
ghost use Rattle.snap_memory.specs.Scans.{IsScan, IsSnapshot, HasPart, KeepsOthers, IsSetOf, HasLooks, CanScan};
ghost use Rattle.snap_memory.specs.Scans.{AreLooked, TakesLooks, TakesLooksOf};

use snap_register::{Looker, SnapshotBuf, View};
use snap_scan::{MAX_SEGMENTS, Next, Scan, SegmentSet};

/// Takes looks of the segments in `set` until their numbers decide the scan. Returns where its
/// values are, and in `numbers` what each segment's last look found.
pub(crate) fn gather<L: Looker>(
    seat: &mut L,
    set: SegmentSet,
    numbers: &mut [u64; MAX_SEGMENTS],
) -> View
    requires set { IsSetOf (L.known seat.old) set.bits }
    requires left { HasLooks (size set.bits) (L.known seat.old) }
    ensures seen { Grows (L.known seat.old) (L.known seat.new) }
    ensures below { IsBelow (L.known seat.new) }
    ensures scan { IsScan set.bits (L.known seat.old) (L.known seat.new) result }
    ensures left { TakesLooksOf (size set.bits) (L.known seat.old) (L.known seat.new) }
    ensures numbers { result ≡ View.Collected → (i : ℕ) → i < segments (L.known seat.new).plan
        → Names set.bits i → looked (L.known seat.new) i ≡ Some (slice_index numbers.new i) }
{
    let mut scan = Scan::of(set);
    'looks: loop {
        match scan.next() {
            Next::Look(segment) => {
                let number = seat.look(segment);
                numbers[segment] = number;
                scan.told(segment, number);
            }
            Next::Clean => return View::Collected,
            Next::Borrow(segment) => return View::Borrowed(segment),
        }
    }
}

/// Fills `out` with the memory of one moment, by the looks of any kind of seat, also of one that wraps a seat of the
/// registers. [`Scanner::scan_into`](crate::Scanner::scan_into) is this scan by a scanner's own seat. The memory has
/// all updates that were in the history at the first look of this call. Looks are used up: enough for a scan have to be
/// left ([`most_looks`](snap_scan::most_looks)).
pub fn scan<L: Looker>(seat: &mut L, out: &mut SnapshotBuf)
    requires left { CanScan (L.known seat.old) }
    requires room { length out.old ≡ segments (L.known seat.old).plan }
    ensures seen { Grows (L.known seat.old) (L.known seat.new) }
    ensures below { IsBelow (L.known seat.new) }
    ensures snapshot { IsSnapshot (L.known seat.old) (L.known seat.new) out.new }
    ensures left { TakesLooks (L.known seat.old) (L.known seat.new) }
{
    scan_some(seat, SegmentSet::all(seat.segments()), out);
}

/// Writes into `out` the number and value of each segment in `set`, all of one moment, by the looks
/// of any kind of seat, as [`scan`] does for all segments.
pub(crate) fn scan_some<L: Looker>(seat: &mut L, set: SegmentSet, out: &mut SnapshotBuf)
    requires set { IsSetOf (L.known seat.old) set.bits }
    requires left { HasLooks (size set.bits) (L.known seat.old) }
    requires room { length out.old ≡ segments (L.known seat.old).plan }
    ensures seen { Grows (L.known seat.old) (L.known seat.new) }
    ensures below { IsBelow (L.known seat.new) }
    ensures part { HasPart set.bits (L.known seat.old) (L.known seat.new) out.new }
    ensures others { KeepsOthers set.bits out.old out.new }
    ensures left { TakesLooksOf (size set.bits) (L.known seat.old) (L.known seat.new) }
{
    let mut numbers = [0; MAX_SEGMENTS];
    match gather(seat, set, &mut numbers) {
        View::Collected => read_named(seat, set, &numbers, out),
        View::Borrowed(segment) => seat.view(segment, set, out),
    }
}

/// Writes into `out` the values of the last looks, one at each named segment, with their `numbers`.
fn read_named<L: Looker>(
    seat: &mut L,
    set: SegmentSet,
    numbers: &[u64; MAX_SEGMENTS],
    out: &mut SnapshotBuf,
)
    requires room { length out.old ≡ segments (L.known seat.old).plan }
    requires looked { (i : ℕ) → i < segments (L.known seat.old).plan → Names set.bits i
        → looked (L.known seat.old) i ≡ Some (slice_index numbers.now i) }
    ensures values { AreLooked set.bits (L.known seat.old) out.new }
    ensures others { KeepsOthers set.bits out.old out.new }
    ensures same { L.known seat.new ≡ L.known seat.old }
{
    for i in 0..seat.segments() {
        if set.has(i) {
            out.read(seat, i, numbers[i]);
        }
    }
}
