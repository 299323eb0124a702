//! Whole scans, of all segments and of some, as the numbers of their looks.
use snap_scan::{MAX_SEGMENTS, Next, Scan, SegmentSet, most_looks};
use std::process::Abort;

/// The answer of a scan of these segments after these numbers, each at the segment whose turn it is. It has no answer
/// before the last of them.
fn answer_to(rt: &impl Abort, set: SegmentSet, numbers: &[u64]) -> Next {
    let mut scan = Scan::of(set);
    for number in numbers {
        let Next::Look(segment) = scan.next() else {
            panic!(rt; "an answer before all of {numbers:?}");
        };
        scan.told(segment, *number);
    }
    assert!(rt; scan.looks() == numbers.len());
    scan.next()
}

/// Whether a collect has just ended, and shows the numbers of the one before.
fn is_clean(segments: usize, numbers: &[u64]) -> bool {
    let looks = numbers.len();
    looks % segments == 0
        && looks >= 2 * segments
        && &numbers[looks - 2 * segments..looks - segments] == &numbers[looks - segments..]
}

/// The segment at this place of the set.
fn segment_at(set: SegmentSet, place: usize) -> usize {
    let mut before = 0;
    for segment in 0..MAX_SEGMENTS {
        if set.has(segment) {
            if before == place {
                return segment;
            }
            before += 1;
        }
    }
    MAX_SEGMENTS
}

/// The next step after these numbers in a scan of this set of `segments` segments, by the rule on the whole list.
fn expected_after(set: SegmentSet, segments: usize, numbers: &[u64]) -> Next {
    let last = numbers.len() - 1;
    let place = last % segments;
    if numbers[last] - numbers[place] >= 2 {
        return Next::Borrow(segment_at(set, place));
    }
    if is_clean(segments, numbers) {
        return Next::Clean;
    }
    Next::Look(segment_at(set, numbers.len() % segments))
}

const GREATEST: u64 = 3;

const LONGEST: usize = 15;

/// How long the list is that comes after this one in their order: its last number that may still
/// rise has risen. It is empty after the last list.
fn rise(numbers: &mut [u64; LONGEST], looks: usize) -> usize {
    for gone in 0..looks {
        let last = looks - gone - 1;
        if numbers[last] < GREATEST {
            numbers[last] += 1;
            return last + 1;
        }
    }
    0
}

/// How many lists there were, and the looks of the longest that decides an answer.
#[derive(Debug, Drop, PartialEq)]
struct Walk {
    lists: usize,
    most: usize,
}

/// Asks a scan of this set of `segments` segments and the rule after every list of numbers up to the
/// greatest, in which none falls and that decides nothing before its end.
fn ask_all(rt: &impl Abort, set: SegmentSet, segments: usize) -> Walk {
    let mut numbers = [0; LONGEST];
    let mut looks = 1;
    let mut most = 0;
    for lists in 0..1_000_000 {
        if looks == 0 {
            return Walk { lists, most };
        }
        let next = expected_after(set, segments, &numbers[..looks]);
        assert_eq!(rt; answer_to(rt, set, &numbers[..looks]), next);
        match next {
            Next::Look(_) => {
                numbers[looks] = if looks < segments {
                    0
                } else {
                    numbers[looks - segments]
                };
                looks += 1;
            }
            _ => {
                most = most.max(looks);
                looks = rise(&mut numbers, looks);
            }
        }
    }
    panic!(rt; "there are more lists")
}

/// The sets of all of one, two and three segments.
const ONE: SegmentSet = SegmentSet { bits: 1 };

const TWO: SegmentSet = SegmentSet { bits: 3 };

const THREE: SegmentSet = SegmentSet { bits: 7 };

/// Numbers of a scan of all of these segments, and what comes next.
const SCANS: [(SegmentSet, &[u64], Next); 10] = [
    (ONE, &[0, 0], Next::Clean),
    // clean after six looks, also if an update is shown late
    (TWO, &[0, 0, 1, 0, 1, 0], Next::Clean),
    (TWO, &[0, 1, 1, 1, 1, 1], Next::Clean),
    (TWO, &[0, 0, 1, 0, 2], Next::Borrow(0)),
    // Each collect but the last shows one more number risen by one, until all have: n(n + 2) looks.
    (ONE, &[0, 1], Next::Look(0)),
    (ONE, &[0, 1, 1], Next::Clean),
    (TWO, &[0, 0, 1, 0, 1, 1, 1], Next::Look(1)),
    (TWO, &[0, 0, 1, 0, 1, 1, 1, 1], Next::Clean),
    (
        THREE,
        &[0, 0, 0, 1, 0, 0, 1, 1, 0, 1, 1, 1, 1, 1],
        Next::Look(2),
    ),
    (
        THREE,
        &[0, 0, 0, 1, 0, 0, 1, 1, 0, 1, 1, 1, 1, 1, 1],
        Next::Clean,
    ),
];

#[test]
fn worked_scans(rt: HostRuntime) {
    for (set, numbers, want) in &SCANS {
        assert_eq!(rt; answer_to(&rt, *set, *numbers), *want, "{numbers:?}");
    }
}

#[test]
fn bound_of_each_size(rt: HostRuntime) {
    for (segments, looks) in [(1, 3), (2, 8), (3, 15), (MAX_SEGMENTS, 288)] {
        assert_eq!(rt; most_looks(segments), looks);
    }
}

/// Numbers that start anywhere up to 3 and reach 3 at most, none of them falling. A program in another language counted
/// the lists. The numbers of a set decide what those of all of as many segments do.
#[test]
fn all_short_lists(rt: HostRuntime) {
    for (bits, lists, most) in [
        (0x0001, 20, 3),
        (0x0003, 364, 8),
        (0x0007, 7260, 15),
        (0x0004, 20, 3),
        (0x8000, 20, 3),
        (0x0005, 364, 8),
        (0x8001, 364, 8),
        (0x0402, 364, 8),
        (0x8102, 7260, 15),
    ] {
        let set = SegmentSet { bits };
        assert_eq!(rt;
            ask_all(&rt, set, set.len()),
            Walk { lists, most },
            "set {bits:#x}"
        );
    }
}

/// Segments 1 and 3: looks and borrows name segments, and not places.
#[test]
fn some_are_named_by_their_segments(rt: HostRuntime) {
    let set = SegmentSet { bits: 0x000A };
    assert!(rt; answer_to(&rt, set, &[]) == Next::Look(1));
    assert!(rt; answer_to(&rt, set, &[4]) == Next::Look(3));
    assert!(rt; answer_to(&rt, set, &[4, 9, 4, 9]) == Next::Clean);
    assert!(rt; answer_to(&rt, set, &[4, 9, 5, 9, 6]) == Next::Borrow(1));
    assert!(rt; answer_to(&rt, set, &[4, 9, 4, 11]) == Next::Borrow(3));
}

#[test]
fn sets(rt: HostRuntime) {
    for (segments, bits) in [(0, 0), (1, 1), (3, 7), (15, 0x7FFF), (16, 0xFFFF)] {
        let set = SegmentSet::all(segments);
        assert!(rt; set.bits == bits && set.len() == segments);
        assert!(rt; set.is_empty() == (segments == 0) && set.is_among(segments));
    }
    let set = SegmentSet { bits: 0x8005 };
    assert!(rt; set.len() == 3 && set.has(0) && set.has(2) && set.has(15));
    assert!(rt; !set.has(1) && !set.has(14) && set.is_among(16) && !set.is_among(15));
}
