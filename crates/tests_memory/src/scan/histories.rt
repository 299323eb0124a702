//! The plain program on an example worked out by hand.
use snap_history::{Update, memory_after};
use std::test::Fail;

/// Updates of the segments 0, 2 and 0, and of one that isn't there.
#[test]
fn last_value_of_each_segment(rt: HostRuntime) -> Result<(), Fail> {
    let mut updates = Vec::new(rt.alloc());
    for (segment, text) in [(0, "a"), (2, "c"), (0, "b"), (5, "x")] {
        updates.push(Update::new(segment, text.as_bytes().to_vec(rt.alloc())?))?;
    }
    let memory = memory_after(rt.alloc(), 3, &updates)?;
    assert!(rt; memory.len() == 3);
    for (value, text) in memory.iter().zip(["b", "", "c"]) {
        assert_eq!(rt; value.as_slice(), text.as_bytes());
    }
    Ok(())
}
