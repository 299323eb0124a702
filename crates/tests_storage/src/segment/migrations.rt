//! Files of the old format that are migrated to new ones.
use crate::checks::Host;
use crate::devices::{
    BODY_1, GATE_0, GATE_1, HEADER, HEADER_GATE, after_crash, blank, device, failing, finds, fresh,
    has_bytes, holds, littered, made,
};
use snap_devices::MemDisk;
use snap_disk::{Disk, Fill, Refusal};
use snap_segment::{OLD_FILE_LEN, Which, migrate};
use std::test::Fail;

/// A file of the old format with number 0, the empty value, and number 1, `hi`, both open.
fn old_file(rt: &impl Host) -> Result<MemDisk, Fail> {
    let header = (0, b"SNAPSEG1\x00\x01".as_slice());
    device(
        rt,
        OLD_FILE_LEN as usize,
        &[header, HEADER_GATE, GATE_0, GATE_1, BODY_1],
    )
}

/// The new file isn't overwritten.
const AGAIN: Result<u64, (Which, Refusal)> = Err((Which::New, Refusal::AlreadyFormatted));

#[test]
fn migrates(rt: HostRuntime) -> Result<(), Fail> {
    let mut old = old_file(&rt)?;
    let calls = old.calls();
    let mut new = blank(&rt)?;
    assert!(rt; migrate(&mut old, &mut new, 0, 1) == Ok(1));
    made(&rt, &old, calls, 2);
    made(&rt, &new, 0, 7);
    let want = "header index 0 count 1\nslot 0 closed\nslot 1 open number 1 length 2\n\
        slot 2 closed\nanswer number 1\n";
    finds(&rt, &mut new, want)?;
    // Both are as they were after the second one.
    assert!(rt; migrate(&mut old, &mut new, 0, 1) == AGAIN);
    holds(&rt, new, 1, b"hi")?;
    Ok(())
}

#[test]
fn migration_leaves_no_old_byte_of_the_new_file(rt: HostRuntime) -> Result<(), Fail> {
    let mut new = littered(&rt)?;
    assert!(rt; migrate(&mut old_file(&rt)?, &mut new, 0, 1) == Ok(1));
    has_bytes(&rt, &new, &[HEADER, HEADER_GATE, GATE_1, BODY_1])
}

#[test]
fn migration_of_another_file(rt: HostRuntime) -> Result<(), Fail> {
    let mut old = old_file(&rt)?;
    let calls = old.calls();
    let mut other = MemDisk::zeroed(rt.alloc(), OLD_FILE_LEN as usize)?;
    let wrong = Refusal::WrongFile;
    // A file of the present format is no old file.
    assert!(rt; migrate(&mut fresh(&rt)?, &mut other, 0, 1) == Err((Which::Old, wrong)));
    assert!(rt; migrate(&mut old, &mut other, 0, 1) == Err((Which::New, wrong)));
    made(&rt, &old, calls, 0);
    made(&rt, &other, 0, 0);
    let mut new = blank(&rt)?;
    assert!(rt; migrate(&mut old, &mut new, 0, 2) == Err((Which::Old, wrong)));
    let why = (Which::Old, Refusal::Unformatted);
    assert!(rt; migrate(&mut other, &mut new, 0, 1) == Err(why));
    made(&rt, &new, 0, 0);
    Ok(())
}

/// A crash after the write that opens the header's gate.
#[test]
fn crash_in_migration(rt: HostRuntime) -> Result<(), Fail> {
    for (fill, again) in [(0x00, Ok(1)), (0xA5, AGAIN)] {
        let mut new = failing(&rt, blank(&rt)?, 6, Fill::Keep);
        let mut old = old_file(&rt)?;
        let failed = Err((Which::New, Refusal::DeviceFailed));
        assert!(rt; migrate(&mut old, &mut new, 0, 1) == failed);
        let mut new = after_crash(&rt, new, fill);
        assert!(rt; migrate(&mut old, &mut new, 0, 1) == again);
        holds(&rt, new, 1, b"hi")?;
    }
    Ok(())
}
