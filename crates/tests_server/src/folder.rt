//! Files and names that no real folder has, or that `snapd` refuses before they reach this code.
use snap_file_commands::{FolderFault, SegmentPlace, is_further, is_segment_name, order_files};
use std::test::Fail;

/// A file whose header is wrong is reported before its place.
#[test]
fn a_place_that_is_none_is_a_fault(rt: HostRuntime) {
    for (index, count) in [(2, 2), (0, 0), (3, 17), (255, 255)] {
        let places = [
            SegmentPlace { index: 0, count: 2 },
            SegmentPlace { index, count },
        ];
        let ordered = order_files(rt.alloc(), &places);
        assert!(rt;
            matches!(ordered, Err(FolderFault::NoPlace { file: 1 })),
            "{index}"
        );
    }
}

/// No file has an empty name, and no folder is of no segment.
#[test]
fn names_that_no_file_has(rt: HostRuntime) -> Result<(), Fail> {
    assert!(rt; !is_segment_name(""));
    assert!(rt; is_further(rt.alloc(), "segment-00.seg", 0)?);
    Ok(())
}
