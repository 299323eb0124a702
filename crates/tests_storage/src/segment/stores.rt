//! Worked examples of formats, stores and crashes, and the bytes of a file.
use crate::checks::Host;
use crate::devices::{
    BODY_1, GATE_0, GATE_1, HEADER, HEADER_GATE, Part, after_crash, blank, crashed, device,
    failing, finds, fresh, has_bytes, holds, littered, made, opened, plan_fault, stored,
};
use snap_devices::MemDisk;
use snap_disk::{Disk, Fill, Refusal};
use snap_segment::{Segment, format};
use std::test::Fail;

#[test]
fn formats_once(rt: HostRuntime) -> Result<(), Fail> {
    let disk = fresh(&rt)?;
    made(&rt, &disk, 0, 7);
    let mut disk = holds(&rt, disk, 0, b"")?;
    let calls = disk.calls();
    assert!(rt; format(&mut disk, 0, 1) == Err(Refusal::AlreadyFormatted));
    // A sync and a read.
    made(&rt, &disk, calls, 2);
    // No place is open: a crash changes nothing.
    disk.crash(&Fill::All(9));
    holds(&rt, disk, 0, b"")?;
    Ok(())
}

/// A format of a formatted file that fails after some calls, and a crash then, change nothing.
#[test]
fn format_keeps_a_formatted_file(rt: HostRuntime) -> Result<(), Fail> {
    for (passes, why) in [
        (0, Refusal::DeviceFailed),
        (1, Refusal::DeviceFailed),
        (2, Refusal::AlreadyFormatted),
    ] {
        let disk = stored(&rt, fresh(&rt)?, b"hi", 1)?;
        let call = disk.calls() + passes;
        let mut disk = failing(&rt, disk, call, Fill::All(0x00));
        assert!(rt; format(&mut disk, 0, 1) == Err(why));
        holds(&rt, after_crash(&rt, disk, 0x00), 1, b"hi")?;
    }
    Ok(())
}

#[test]
fn bytes_of_a_file(rt: HostRuntime) -> Result<(), Fail> {
    let mut disk = blank(&rt)?;
    format(&mut disk, 1, 2)?;
    let header: Part = (0, b"\x53\x4E\x41\x50\x53\x45\x47\x32\x01\x02");
    has_bytes(&rt, &disk, &[header, HEADER_GATE, GATE_0])?;
    let mut segment = Segment::open(rt.alloc(), disk, 1, 2).map_err(|(why, _)| why)?;
    assert!(rt; segment.store(b"hi") == Ok(1));
    let parts = [header, HEADER_GATE, GATE_0, GATE_1, BODY_1];
    has_bytes(&rt, &segment.into_device(), &parts)?;
    // A format leaves no old byte.
    let mut disk = littered(&rt)?;
    assert!(rt; format(&mut disk, 0, 1).is_ok());
    has_bytes(&rt, &disk, &[HEADER, HEADER_GATE, GATE_0])
}

#[test]
fn longest_value_and_one_more(rt: HostRuntime) -> Result<(), Fail> {
    let (longest, more) = ([7u8; 4080], [7u8; 4081]);
    let disk = stored(&rt, fresh(&rt)?, &longest, 1)?;
    let calls = disk.calls();
    let mut segment = opened(&rt, disk)?;
    assert!(rt; segment.store(&more) == Err(Refusal::TooLong));
    let disk = segment.into_device();
    // The opening's calls.
    made(&rt, &disk, calls, 2);
    let disk = holds(&rt, disk, 1, &longest)?;
    let disk = is_of_another(&rt, disk, 1, 2);
    let _disk = is_of_another(&rt, disk, 0, 2);
    Ok(())
}

/// The file isn't the one of segment `index` of `count`. The device comes back.
fn is_of_another(rt: &impl Host, disk: MemDisk, index: u8, count: u8) -> MemDisk {
    let (why, disk) = match Segment::open(rt.alloc(), disk, index, count) {
        Ok(segment) => (None, segment.into_device()),
        Err((why, disk)) => (Some(why), disk),
    };
    assert!(rt; why == Some(Refusal::WrongFile));
    disk
}

#[test]
fn four_calls_after_a_torn_body(rt: HostRuntime) -> Result<(), Fail> {
    let disk = crashed(&rt, fresh(&rt)?, b"hi", 1, 0xA5)?;
    let disk = holds(&rt, disk, 0, b"")?;
    let disk = crashed(&rt, disk, b"hi", 1, 0xA5)?;
    let disk = holds(&rt, disk, 0, b"")?;
    let calls = disk.calls();
    let mut segment = opened(&rt, disk)?;
    assert!(rt; !segment.spare_open());
    assert!(rt; segment.store(b"hi") == Ok(1) && segment.spare_open());
    made(&rt, &segment.into_device(), calls, 2 + 4);
    Ok(())
}

/// The first store makes four calls, and the next one five: it closes the spare slot first.
#[test]
fn five_calls(rt: HostRuntime) -> Result<(), Fail> {
    let disk = stored(&rt, fresh(&rt)?, b"hi", 1)?;
    made(&rt, &disk, 0, 7 + 2 + 4);
    let disk = stored(&rt, disk, b"yo", 2)?;
    made(&rt, &disk, 7 + 2 + 4, 2 + 5);
    Ok(())
}

/// Crashes in the first store, of `hi`, and in the second one, of `yo`: after how many of its calls, the fill, and what
/// the file has then: its number, its value, and whether its spare gate is open.
const CRASHES: [(bool, u64, u8, u64, &[u8], bool); 8] = [
    (false, 3, 0xA5, 1, b"hi", true),
    (false, 3, 0x00, 0, b"", false),
    (true, 1, 0xA5, 1, b"hi", true),
    (true, 1, 0x00, 1, b"hi", false),
    (true, 2, 0xA5, 1, b"hi", true),
    (true, 2, 0x00, 1, b"hi", false),
    (true, 4, 0xA5, 2, b"yo", true),
    (true, 4, 0x00, 1, b"hi", false),
];

#[test]
fn crashes_in_a_store(rt: HostRuntime) -> Result<(), Fail> {
    for (is_second, passes, fill, number, value, spare_open) in &CRASHES {
        let disk = if *is_second {
            let disk = stored(&rt, fresh(&rt)?, b"hi", 1)?;
            crashed(&rt, disk, b"yo", *passes, *fill)?
        } else {
            crashed(&rt, fresh(&rt)?, b"hi", *passes, *fill)?
        };
        let disk = holds(&rt, disk, *number, *value)?;
        let is_open = opened(&rt, disk)?.spare_open();
        assert!(rt;
            is_open == *spare_open,
            "{is_second} {passes} {fill}: {is_open}"
        );
    }
    Ok(())
}

/// The last sync of the first store fails.
#[test]
fn fault_fences_the_segment(rt: HostRuntime) -> Result<(), Fail> {
    let mut disk = fresh(&rt)?;
    // An opening makes two calls.
    plan_fault(&rt, &mut disk, 2 + 3)?;
    let mut segment = opened(&rt, disk)?;
    assert!(rt; segment.store(b"hi") == Err(Refusal::DeviceFailed));
    for (value, why) in [
        (b"hi".as_slice(), Refusal::Fenced),
        (b"", Refusal::Fenced),
        (&[7; 4081], Refusal::TooLong),
    ] {
        assert!(rt; segment.store(value) == Err(why));
        assert!(rt; segment.number() == 0 && segment.value().is_empty() && segment.is_fenced());
        assert!(rt; segment.begun() == Some(b"hi".as_slice()));
    }
    let disk = segment.into_device();
    made(&rt, &disk, 7 + 2, 4);
    assert!(rt; disk.failures() == 1);
    holds(&rt, disk, 1, b"hi")?;
    Ok(())
}

#[test]
fn findings_of_three_slots(rt: HostRuntime) -> Result<(), Fail> {
    let mut disk = stored(&rt, fresh(&rt)?, b"hi", 1)?;
    let calls = disk.calls();
    let want = "header index 0 count 1\nslot 0 open number 0 length 0\n\
        slot 1 open number 1 length 2\nslot 2 closed\nanswer number 1\n";
    finds(&rt, &mut disk, want)?;
    made(&rt, &disk, calls, 1);
    Ok(())
}

#[test]
fn largest_number(rt: HostRuntime) -> Result<(), Fail> {
    // 2^63 - 1 is in slot 1.
    let last: Part = (16_384, b"\x7F\xFF\xFF\xFF\xFF\xFF\xFF\xFF");
    let parts = [HEADER, HEADER_GATE, GATE_1, last];
    let disk = device(&rt, 28_672, &parts)?;
    let calls = disk.calls();
    let mut segment = opened(&rt, disk)?;
    assert!(rt; segment.number() == 9_223_372_036_854_775_807);
    assert!(rt; segment.store(b"x") == Err(Refusal::Exhausted) && !segment.is_fenced());
    let disk = segment.into_device();
    // The opening's calls.
    made(&rt, &disk, calls, 2);
    has_bytes(&rt, &disk, &parts)
}
