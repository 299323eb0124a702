//! The cache of a scanner: a value whose number hasn't changed isn't read again.
ghost use Rattle.std.specs.Prelude.{◌≡◌, ℕ, ◌<◌, ◌^◌, length, map, Some, All, IfOk};
ghost use Rattle.snap_history.specs.Limits.{IsShort};
ghost use Rattle.snap_register.specs.Rule.{segments};
ghost use Rattle.snap_register.specs.Seat.{Grows, IsBelow, Known};
ghost use Rattle.snap_scan.specs.Sets.{named, size};
ghost use Rattle.snap_scan.specs.{Values.pair_of, declared.segment_value.SegmentValue.SegmentValue};
ghost use Rattle.snap_memory.specs.Scans.{IsPart, IsSetOf, HasLooks, TakesLooksOf};
ghost use Rattle.snap_memory.specs.ScanCaches.{number_of, HasPlace, IsFoundAt, IsFound, IsKeptOf, AreKept};
ghost use Rattle.snap_memory.specs.ScanCaches.{IsEntry, AreEntries};

use crate::looks::gather;
use bytes::Bytes;
use snap_register::{Looker, SnapshotBuf, View};
use snap_scan::{MAX_SEGMENTS, SegmentSet, SegmentValue};
use std::alloc::{AllocError, Global};

/// A scanner's cache.
#[derive(Drop)]
pub(crate) enum ScanCache {
    /// Nothing was cached yet, and no memory was allocated.
    Absent,
    /// For each segment the number and value that this scanner read last, if it did.
    Kept(Vec<Option<SegmentValue>>),
}

/// An empty cache for `segments` segments.
pub(crate) fn empty_cache(
    alloc: Global,
    segments: usize,
) -> Result<Vec<Option<SegmentValue>>, AllocError>
    ensures size { IfOk result (λ r. length r.items ≡ segments) }
    ensures none { IfOk result (λ r. (seat : Known) → AreKept seat r.items) }
{
    let mut cache = Vec::with_capacity(alloc, segments)?;
    for i in 0..segments {
        cache.push(None)?;
    }
    Ok(cache)
}

/// The numbers and values of the segments in `set`, in ascending order, all of one moment. If
/// memory runs out, looks may have been used up.
pub(crate) fn scan_kept<L: Looker>(
    alloc: Global,
    seat: &mut L,
    set: SegmentSet,
    cache: &mut Vec<Option<SegmentValue>>,
) -> Result<Vec<SegmentValue>, AllocError>
    requires set { IsSetOf (L.known seat.old) set.bits }
    requires left { HasLooks (size set.bits) (L.known seat.old) }
    requires cache { length cache.old.items ≡ segments (L.known seat.old).plan }
    requires kept { AreKept (L.known seat.old) cache.old.items }
    ensures seen { Grows (L.known seat.old) (L.known seat.new) }
    ensures below { IsBelow (L.known seat.new) }
    ensures part { IfOk result (λ values. IsPart set.bits (L.known seat.old) (L.known seat.new)
        (map pair_of values.items)) }
    ensures short { IfOk result (λ values. All (λ v. IsShort v.value) values.items) }
    ensures left { TakesLooksOf (size set.bits) (L.known seat.old) (L.known seat.new) }
    ensures cache { length cache.new.items ≡ length cache.old.items }
    ensures kept { AreKept (L.known seat.new) cache.new.items }
{
    let mut numbers = [0; MAX_SEGMENTS];
    match gather(seat, set, &mut numbers) {
        View::Collected => list(alloc, seat, set, ScanSource::Looked(&numbers), cache),
        View::Borrowed(segment) => {
            let mut view = SnapshotBuf::new(alloc, seat.segments())?;
            seat.view(segment, set, &mut view);
            list(alloc, seat, set, ScanSource::Viewed(&view), cache)
        }
    }
}

/// Where a scan found its answer.
#[derive(Clone, Copy)]
pub(crate) enum ScanSource<'a> {
    /// In the records of the last looks, which found these numbers.
    Looked(&'a [u64; MAX_SEGMENTS]),
    /// In the view of one record, which has these entries.
    Viewed(&'a SnapshotBuf),
}

impl<'a> ScanSource<'a> {
    ghost use Rattle.snap_memory.specs.ScanCaches.{number_of, HasPlace, IsFoundAt, IsAnswerable};

    /// The number found for segment `i`.
    fn number(self, i: usize) -> u64
        requires place { HasPlace self i }
        ensures { result ≡ number_of self.entry i }
    {
        match self {
            ScanSource::Looked(numbers) => numbers[i],
            ScanSource::Viewed(view) => view.number(i),
        }
    }

    /// Reads the value found for segment `i` into new memory.
    fn read<L: Looker>(self, alloc: Global, seat: &mut L, i: usize) -> Result<Bytes, AllocError>
        requires segment { i < segments (L.known seat.old).plan }
        requires place { HasPlace self i }
        requires found { IsFoundAt (L.known seat.old) self i }
        ensures value { IfOk result (λ v. IsAnswerable (L.known seat.old) i (number_of self.entry i, v)) }
        ensures same { L.known seat.new ≡ L.known seat.old }
    {
        match self {
            ScanSource::Looked(_) => seat.value_bytes(alloc, i),
            ScanSource::Viewed(view) => Bytes::copy_from_slice(alloc, view.value(i)),
        }
    }
}

/// The entry found for segment `i`: from the cache if that has the number, else read and then cached.
fn take_entry<L: Looker>(
    alloc: Global,
    seat: &mut L,
    i: usize,
    found: ScanSource,
    kept: &mut Option<SegmentValue>,
) -> Result<SegmentValue, AllocError>
    requires segment { i < segments (L.known seat.old).plan }
    requires found { HasPlace found i × IsFoundAt (L.known seat.old) found i }
    requires kept { IsKeptOf (L.known seat.old) i kept.old }
    ensures entry { IfOk result (λ e. IsEntry (L.known seat.old) found.entry i (pair_of e)) }
    ensures kept { IsKeptOf (L.known seat.old) i kept.new }
    ensures same { L.known seat.new ≡ L.known seat.old }
{
    let number = found.number(i);
    match kept {
        Some(entry) if entry.number == number => Ok(SegmentValue {
            number,
            value: entry.value.clone()?,
        }),
        _ => {
            let value = found.read(alloc, seat, i)?;
            *kept = Some(SegmentValue {
                number,
                value: value.clone()?,
            });
            Ok(SegmentValue { number, value })
        }
    }
}

/// The entries found for the segments in `set`: from the cache if it has the number, else read and then cached.
fn list<L: Looker>(
    alloc: Global,
    seat: &mut L,
    set: SegmentSet,
    found: ScanSource,
    cache: &mut Vec<Option<SegmentValue>>,
) -> Result<Vec<SegmentValue>, AllocError>
    requires set { set.bits < 2 ^ segments (L.known seat.old).plan }
    requires found { IsFound set.bits (L.known seat.old) found }
    requires cache { length cache.old.items ≡ segments (L.known seat.old).plan }
    requires kept { AreKept (L.known seat.old) cache.old.items }
    ensures entries { IfOk result (λ values. AreEntries (named set.bits) (L.known seat.old) found.entry
        (map pair_of values.items)) }
    ensures short { IfOk result (λ values. All (λ v. IsShort v.value) values.items) }
    ensures cache { length cache.new.items ≡ length cache.old.items }
    ensures kept { AreKept (L.known seat.old) cache.new.items }
    ensures same { L.known seat.new ≡ L.known seat.old }
{
    let mut values = Vec::with_capacity(alloc, cache.len())?;
    for i in 0..MAX_SEGMENTS {
        if set.has(i) {
            let entry = take_entry(alloc, seat, i, found, &mut cache[i])?;
            values.push(entry)?;
        }
    }
    Ok(values)
}
