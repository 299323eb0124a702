//! Refusals, and devices in memory: texts, and a success of each call.
use crate::checks::{are, prints};
use snap_devices::{FaultPlan, MemDisk};
use snap_disk::{Disk, Fill, Image, Refusal};
use std::test::Fail;

/// Each refusal with its code and its text.
const REFUSALS: [(Refusal, u8, &str); 17] = [
    (Refusal::Malformed, 1, "1 Malformed"),
    (Refusal::NoSegment, 2, "2 NoSegment"),
    (Refusal::TooLong, 3, "3 TooLong"),
    (Refusal::Conflict, 4, "4 Conflict"),
    (Refusal::OutOfStep, 5, "5 OutOfStep"),
    (Refusal::Fenced, 6, "6 Fenced"),
    (Refusal::Full, 7, "7 Full"),
    (Refusal::NoMemory, 8, "8 NoMemory"),
    (Refusal::Exhausted, 9, "9 Exhausted"),
    (Refusal::Damaged, 10, "10 Damaged"),
    (Refusal::Unformatted, 11, "11 Unformatted"),
    (Refusal::AlreadyFormatted, 12, "12 AlreadyFormatted"),
    (Refusal::DeviceFailed, 13, "13 DeviceFailed"),
    (Refusal::WrongFile, 14, "14 WrongFile"),
    (Refusal::TooLarge, 15, "15 TooLarge"),
    (Refusal::NotNow, 16, "16 NotNow"),
    (Refusal::Worn, 17, "17 Worn"),
];

#[test]
fn refusal_codes_and_names(rt: HostRuntime) -> Result<(), Fail> {
    for (refusal, code, text) in &REFUSALS {
        assert!(rt;
            refusal.code() == *code && Refusal::of_code(*code) == Some(*refusal),
            "{code}"
        );
        prints(&rt, refusal, text)?;
    }
    for code in [0, 18, 255] {
        assert!(rt; Refusal::of_code(code).is_none(), "at {code}");
    }
    Ok(())
}

/// Five bytes 1 after this fill.
fn filled(fill: &Fill) -> [u8; 5] {
    let mut bytes = [1; 5];
    for place in 0..5 {
        bytes[place] = fill.byte_at(place as u64, 1);
    }
    bytes
}

#[test]
fn filled_places(rt: HostRuntime) -> Result<(), Fail> {
    assert!(rt; filled(&Fill::Keep) == [1, 1, 1, 1, 1]);
    assert!(rt; filled(&Fill::All(0xA5)) == [0xA5; 5]);
    let at = Fill::At(2, [7, 8].to_vec(rt.alloc())?);
    assert!(rt; filled(&at) == [1, 1, 7, 8, 1]);
    Ok(())
}

#[test]
fn image_by_the_table(rt: HostRuntime) -> Result<(), Fail> {
    let mut image = Image::new(rt.alloc(), 4)?;
    image.put(1, &[1, 2]);
    are(&rt, image.bytes(), &[0, 1, 2, 0]);
    // A crash fills the open places.
    image.crash(&Fill::All(9));
    are(&rt, image.bytes(), &[0, 9, 9, 0]);
    image.settle();
    image.crash(&Fill::All(8));
    are(&rt, image.bytes(), &[0, 9, 9, 0]);
    image.put_failed(0, 2, &Fill::All(7));
    are(&rt, image.bytes(), &[7, 7, 9, 0]);
    let two = Fill::At(1, [6, 6].to_vec(rt.alloc())?);
    image.settle_failed(&two);
    are(&rt, image.bytes(), &[7, 6, 9, 0]);
    image.crash(&Fill::All(5));
    are(&rt, image.bytes(), &[5, 5, 9, 0]);
    Ok(())
}

/// A call of a device of two bytes.
enum Call {
    Write(u64, u8),
    Sync,
    Read,
}

/// Calls under a plan that fails calls 1 and 3, and each one after 4: whether each succeeds, how many have failed then,
/// and what the device has.
const CALLS: [(Call, bool, u64, [u8; 2]); 6] = [
    (Call::Write(1, 1), false, 1, [0, 5]),
    (Call::Read, true, 1, [0, 5]),
    (Call::Sync, false, 2, [0, 5]),
    (Call::Write(0, 2), true, 2, [2, 5]),
    (Call::Sync, false, 3, [7, 7]),
    (Call::Read, false, 4, [7, 7]),
];

#[test]
fn faults_by_the_call_number(rt: HostRuntime) -> Result<(), Fail> {
    let mut plan = FaultPlan::new(rt.alloc());
    plan.fail_call(1, Fill::All(5))?;
    plan.fail_call(3, Fill::Keep)?;
    // The first plan of a call counts.
    plan.fail_call(3, Fill::All(6))?;
    plan.fail_after(4, Fill::All(7));
    let mut disk = MemDisk::zeroed(rt.alloc(), 2)?;
    disk.set_plan(plan);
    for (call, succeeds, failures, bytes) in &CALLS {
        let mut buf = *bytes;
        let answer = match call {
            Call::Write(at, byte) => disk.write_at(*at, &[*byte]),
            Call::Sync => disk.sync(),
            Call::Read => disk.read_at(0, &mut buf),
        };
        assert!(rt; answer.is_ok() == *succeeds && disk.failures() == *failures);
        are(&rt, disk.image().bytes(), bytes);
        assert!(rt; !*succeeds || buf == *bytes);
    }

    // The next plan counts on from the calls made so far.
    assert!(rt; disk.calls() == 6);
    disk.set_plan(FaultPlan::new(rt.alloc()));
    assert!(rt; disk.sync().is_ok() && disk.failures() == 4);
    disk.crash(&Fill::All(9));
    assert!(rt; disk.calls() == 7 && disk.failures() == 4);
    are(&rt, disk.image().bytes(), &[7, 7]);
    Ok(())
}
