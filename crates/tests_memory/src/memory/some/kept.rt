//! The cache of a scanner: values of the segments that it listed.
use crate::memory::some::{numbers_of, open_all, renumber, update_some};
use snap_disk::Refusal;
use snap_memory::SegmentSet;
use snap_scan::MAX_SEGMENTS;
use std::alloc::AllocError;
use std::test::Fail;

/// A value that was read is cached, and shared with the answers. If it were read again, it would be another allocation,
/// which no earlier answer shares.
#[test]
fn reads_what_has_changed_alone(rt: HostRuntime) -> Result<(), Fail> {
    let mut three = open_all(&rt, rt.alloc(), 1000)?;
    let (all, some) = (SegmentSet::all(3), SegmentSet { bits: 5 });
    update_some(&rt, &mut three.writers, all, 1);
    let before = three.scanner.scan(rt.alloc(), all)?;
    let is_alone = |at: usize| before[at].value.is_unique();
    assert!(rt; !is_alone(0) && !is_alone(1) && !is_alone(2));
    update_some(&rt, &mut three.writers, SegmentSet { bits: 1 }, 2);
    let after = three.scanner.scan(rt.alloc(), some)?;
    let mut numbers = [0; MAX_SEGMENTS];
    numbers[0] = 2;
    numbers[2] = 1;
    assert!(rt; numbers_of(some, &after) == Some(numbers));
    // The scanner has dropped the old value, and keeps the new one and those that didn't change.
    assert!(rt; is_alone(0) && !is_alone(1) && !after[0].value.is_unique());
    drop(three);
    assert!(rt; is_alone(1) && after[0].value.is_unique());
    assert!(rt; !is_alone(2) && !after[1].value.is_unique());
    Ok(())
}

/// Run with each allocation refused in turn (`rt try --test --fail-alloc N`): what was allocated before is freed, the
/// refusal is `NoMemory`, and the next scan is right, also if some of its values were kept.
#[test]
fn lists_after_a_refused_allocation(rt: HostRuntime) -> Result<(), Fail> {
    let mut three = match open_all(&rt, rt.alloc(), 1000) {
        Ok(seats) => seats,
        Err(AllocError) => open_all(&rt, rt.alloc(), 1000)?,
    };
    let mut numbers = [0; MAX_SEGMENTS];
    for number in 1..4u64 {
        let changed = SegmentSet { bits: 5 };
        update_some(&rt, &mut three.writers, changed, number);
        renumber(&mut numbers, changed, number);
        let mut some = numbers;
        some[0] = 0;
        for (set, numbers) in [
            (SegmentSet::all(3), numbers),
            (SegmentSet { bits: 6 }, some),
        ] {
            let values = match three.scanner.scan(rt.alloc(), set) {
                Err(Refusal::NoMemory) => three.scanner.scan(rt.alloc(), set)?,
                answer => answer?,
            };
            assert!(rt; numbers_of(set, &values) == Some(numbers));
        }
    }
    Ok(())
}
