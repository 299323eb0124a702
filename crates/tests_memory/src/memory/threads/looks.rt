//! A scanner in a thread of its own.
use crate::memory::some::{Numbers, numbers_of};
use crate::memory::threads::seen::{Seen, numbers_in};
use crate::memory::threads::{Course, load_all};
use snap_memory::{Scanner, SegmentSet, Snapshot};
use snap_scan::MAX_SEGMENTS;
use std::alloc::Global;

/// The segments that a scanner scans.
#[derive(Clone, Copy)]
pub(crate) enum Kind {
    /// All segments.
    All,
    /// A drawn set each time, and in turn into a snapshot and in memory of its own.
    Drawn(u64),
}

/// A scanner, the snapshot of its scans, and what it scans.
#[derive(Drop)]
pub(crate) struct Looking {
    pub(crate) scanner: Scanner,
    pub(crate) snapshot: Snapshot,
    pub(crate) kind: Kind,
    pub(crate) alloc: Global,
}

/// The set of this scan: drawn, and not empty.
fn drawn_set(seed: u64, round: usize, all: SegmentSet) -> SegmentSet {
    let mixed = seed
        .wrapping_mul(1000)
        .wrapping_add(round as u64)
        .wrapping_add(1)
        .wrapping_mul(0x9E37_79B9_7F4A_7C15);
    let bits = (mixed >> 48) as u16 & all.bits;
    if bits == 0 { all } else { SegmentSet { bits } }
}

/// A scan of these segments: their numbers, if each value is the one of its number.
fn scan_set(looking: &mut Looking, round: usize, set: SegmentSet) -> Option<Numbers> {
    match looking.kind {
        Kind::All => looking.scanner.scan_into(&mut looking.snapshot).ok()?,
        Kind::Drawn(_) if round % 2 == 0 => {
            let values = looking.scanner.scan(looking.alloc, set).ok()?;
            return numbers_of(set, &values);
        }
        Kind::Drawn(_) => looking.scanner.scan_some(set, &mut looking.snapshot).ok()?,
    }
    numbers_in(set, &looking.snapshot)
}

/// A scan, with all that had ended before it and begun after it.
pub(crate) fn scan_once(looking: &mut Looking, round: usize, course: &Course) -> Seen {
    let all = SegmentSet::all(looking.scanner.segments());
    let set = match looking.kind {
        Kind::All => all,
        Kind::Drawn(seed) => drawn_set(seed, round, all),
    };
    let ended = load_all(&course.ended);
    let answered = scan_set(looking, round, set);
    let begun = load_all(&course.begun);
    Seen {
        set,
        ended,
        numbers: answered.unwrap_or([0; MAX_SEGMENTS]),
        begun,
        right: answered.is_some(),
    }
}
