//! Streams that move two bytes a call.
use crate::checks::are;
use snap_order::{TestStream, complain, read_up_to, write_whole};
use std::test::Fail;

/// A stream that moves two bytes a call, and never fails.
fn slow(bytes: Vec<u8>) -> TestStream {
    TestStream {
        bytes,
        passed: 0,
        passes: 1_000_000,
        step: 2,
    }
}

#[test]
fn slow_streams_pass_all(rt: HostRuntime) -> Result<(), Fail> {
    let mut writer = slow(Vec::new(rt.alloc()));
    write_whole(&mut writer, b"seven..")?;
    are(&rt, &writer.bytes, b"seven..");
    assert!(rt; complain(rt.alloc(), &mut writer, &"why"));
    are(&rt, &writer.bytes, b"seven..snapd: why\n");
    let mut reader = slow(Vec::from_slice(rt.alloc(), b"seven..")?);
    let mut buffer = [0; 5];
    for want in [b"seven".as_slice(), b"..", b""] {
        let count = read_up_to(&mut reader, &mut buffer)?;
        are(&rt, &buffer[..count], want);
    }
    Ok(())
}
