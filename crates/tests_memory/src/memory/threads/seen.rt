//! The record of scans in their threads, and a plain check of it.
use crate::memory::some::Numbers;
use crate::seats::is_value_of;
use snap_memory::{SegmentSet, Snapshot};
use snap_scan::MAX_SEGMENTS;

/// A scan: of which segments, what had ended before it, the numbers that it answered, and what had begun after it.
#[derive(Drop)]
pub(crate) struct Seen {
    pub(crate) set: SegmentSet,
    pub(crate) ended: Numbers,
    pub(crate) numbers: Numbers,
    pub(crate) begun: Numbers,
    /// Whether it was answered, and each value was the one of its number.
    pub(crate) right: bool,
}

/// The numbers of the named segments, where each value is the one of its number.
pub(crate) fn numbers_in(set: SegmentSet, snapshot: &Snapshot) -> Option<Numbers> {
    let mut numbers = [0; MAX_SEGMENTS];
    for segment in 0..snapshot.len().min(MAX_SEGMENTS) {
        if set.has(segment) {
            let number = snapshot.number(segment);
            if !is_value_of(segment, number, snapshot.value(segment)) {
                return None;
            }
            numbers[segment] = number;
        }
    }
    Some(numbers)
}

/// Whether none of these segments has a greater number in `a` than in `b`.
fn is_below(set: SegmentSet, a: &Numbers, b: &Numbers) -> bool {
    (0..MAX_SEGMENTS).all(|i| a[i] <= b[i] || !set.has(i))
}

/// Whether each scan is right: of its segments it has all that ended before it began, and nothing
/// that began after it ended.
fn are_right(record: &Vec<Seen>) -> bool {
    let is_right = |seen: &Seen| {
        seen.right
            && is_below(seen.set, &seen.ended, &seen.numbers)
            && is_below(seen.set, &seen.numbers, &seen.begun)
    };
    record.iter().all(is_right)
}

/// Whether no number of a segment fell in a scanner's record.
fn are_rising(record: &Vec<Seen>) -> bool {
    let mut last = [0; MAX_SEGMENTS];
    for seen in record {
        if !is_below(seen.set, &last, &seen.numbers) {
            return false;
        }
        for segment in 0..MAX_SEGMENTS {
            if seen.set.has(segment) {
                last[segment] = seen.numbers[segment];
            }
        }
    }
    true
}

/// Whether of any two scans one shows no more than the other, of the segments that both name.
pub(crate) fn are_ordered(record: &Vec<Seen>, other: &Vec<Seen>) -> bool {
    for a in record {
        for b in other {
            let both = SegmentSet {
                bits: a.set.bits & b.set.bits,
            };
            if !is_below(both, &a.numbers, &b.numbers) && !is_below(both, &b.numbers, &a.numbers) {
                return false;
            }
        }
    }
    true
}

/// Whether a scanner made `scans` scans, each of them is right, and no number fell.
pub(crate) fn is_sound(record: &Vec<Seen>, scans: usize) -> bool {
    record.len() == scans && are_right(record) && are_rising(record)
}
