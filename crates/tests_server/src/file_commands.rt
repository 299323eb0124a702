//! Errors of a command whose writer fails: `snapd` ends by the status alone.
use snap_devices::MemDisk;
use snap_disk::Disk;
use snap_file_commands::{act, finish};
use snap_order::{FileOrder, NoReason, Status, TestStream};
use snap_slot::FILE_LEN;
use std::process::Abort;
use std::test::Fail;

const UNFORMATTED: &str = "\
snapd: refused 11 Unformatted
snapd: F: it was never formatted, or its header is gone: keep a copy first, \
then snapd format F --index 0 --count 1
";

/// A writer of errors that fails leaves the status as it is, and is reported.
#[test]
fn errors_that_cannot_be_written(rt: HostRuntime) -> Result<(), Fail> {
    let whole = UNFORMATTED.len();
    for passes in [0, 9, 29, 30, 31, whole - 1, whole] {
        ends_so(&rt, passes)?;
    }
    Ok(())
}

/// Standard error takes `passes` bytes, two at once, and then fails.
fn ends_so(rt: &(impl Abort + AllocGlobal), passes: usize) -> Result<(), Fail> {
    let disk = MemDisk::zeroed(rt.alloc(), FILE_LEN as usize)?;
    let order = FileOrder::Get {
        file: "F",
        index: 0,
        count: 1,
    };
    let (mut reader, mut output): (&[u8], Vec<u8>) = (b"", Vec::new(rt.alloc()));
    let mut errors = TestStream {
        bytes: Vec::new(rt.alloc()),
        passed: 0,
        passes,
        step: 2,
    };
    let (disk, end) = act(rt.alloc(), &order, disk, &mut reader, &mut output);
    let ended = finish(rt.alloc(), &order, disk.len(), end, &NoReason, &mut errors);
    assert!(rt; ended.status == Status::Refused && output.is_empty());
    assert!(rt; ended.is_told == (passes == UNFORMATTED.len()));
    assert_eq!(rt; errors.bytes.as_slice(), &UNFORMATTED.as_bytes()[..passes]);
    Ok(())
}
