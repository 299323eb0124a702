//! Sessions with a node over new files.
use crate::frames::{
    BOTH, BOTH_HI, CONFLICT, FAILED, FENCED, HI, NO_SEGMENT, OUT_OF_STEP, Pair, REPEAT, SCAN,
    SNAPSHOT_HI, STATUS, STATUS_HI, STORED_0, STORED_1, halves,
};
use crate::stores::{failing, new_files, open};
use snap_devices::MemDisk;
use snap_memory::Scanner;
use snap_order::TestStream;
use snap_restart::Store;
use snap_service::{Memory, Node, Shared};
use snap_session::{End, serve};
use snap_writer::Writer;
use std::alloc::{AllocError, Global};
use std::marker::Brand;
use std::mem;
use std::process::Abort;
use std::sync::Wait;
use std::test::Fail;

/// A stream that never fails.
fn stream(bytes: Vec<u8>) -> TestStream {
    TestStream {
        bytes,
        passed: 0,
        passes: usize::MAX,
        step: usize::MAX,
    }
}

/// A session that has ended, and the scanner of its node, which came back.
#[derive(Drop)]
struct Served {
    end: End,
    written: Vec<u8>,
    looks_left: u64,
}

/// A session over these bytes with a node of these writers and this scanner.
fn serve_bytes<M: Memory, R: Wait>(
    rt: &R,
    alloc: Global,
    writers: Vec<Writer<MemDisk>>,
    scanner: Scanner,
    input: &[u8],
) -> Result<Served, AllocError> {
    let Ok(shared) = Shared::<M, MemDisk>::new(alloc, writers) else {
        return Err(AllocError);
    };
    let mut node = Node::new(rt, alloc, &shared, scanner);
    let mut reader = stream(Vec::from_slice(alloc, input)?);
    let mut writer = stream(Vec::new(alloc));
    let end = serve(rt, alloc, &mut reader, &mut writer, &mut node);
    Ok(Served {
        end,
        written: writer.bytes,
        looks_left: node.into_scanner().looks_left(),
    })
}

/// A session over these bytes with a node of this store.
fn serve_store<R: Wait>(
    rt: &R,
    alloc: Global,
    mut store: Store<MemDisk>,
    input: &[u8],
) -> Result<Served, AllocError> {
    let writers = mem::replace(&mut store.writers, Vec::new(alloc));
    match store.scanners.pop() {
        Some(scanner) => serve_bytes::<Brand, R>(rt, alloc, writers, scanner, input),
        None => Err(AllocError),
    }
}

/// A session over these bytes with a node over these files.
fn serve_files(
    rt: &(impl Abort + AllocGlobal + Wait),
    devices: Vec<MemDisk>,
    input: &[u8],
) -> Result<Served, Fail> {
    let store = open(rt, devices);
    Ok(serve_store(rt, rt.alloc(), store, input)?)
}

/// Whether a node over these files answers the requests by the replies, and ends so.
fn is_talk(
    rt: &(impl Abort + AllocGlobal + Wait),
    devices: Vec<MemDisk>,
    talk: &[Pair<'_>],
    end: End,
) -> Result<bool, Fail> {
    let (input, wanted) = halves(rt.alloc(), talk)?;
    let served = serve_files(rt, devices, &input)?;
    Ok(served.end == end && served.written == wanted)
}

/// An update of segment 1 to number 1 with this many bytes.
fn long_update(alloc: Global, len: u16) -> Result<Vec<u8>, AllocError> {
    let mut frame = Vec::from_slice(alloc, &(u32::from(len) + 10).to_be_bytes())?;
    frame.extend_from_slice(&[1, 1, 0, 0, 0, 0, 0, 0, 0, 1])?;
    for _ in 0..len {
        frame.push(7)?;
    }
    Ok(frame)
}

const MALFORMED: &[u8] = &[0, 0, 0, 10, 0xE0, 1, 0, 0, 0, 0, 0, 0, 0, 0];

// A node that refuses each new update as `Worn`, or each scan as `NoMemory`, and does nothing meets every clause of
// `Answers`: there may be no looks and no memory left. Only the next test shows that no node gives up so, and only
// tests/test_service_allocations.py shows that it asks for memory only if it has to.

#[test]
fn vectors_in_order(rt: HostRuntime) -> Result<(), Fail> {
    let long = long_update(rt.alloc(), 4081)?;
    let talk: [Pair<'_>; 11] = [
        (HI, STORED_1),
        (HI, STORED_1),
        CONFLICT,
        OUT_OF_STEP,
        NO_SEGMENT,
        (
            long.as_slice(),
            &[0, 0, 0, 10, 0xE0, 3, 0, 0, 0, 0, 0, 0, 0x0F, 0xF1],
        ),
        (SCAN, SNAPSHOT_HI),
        STATUS_HI,
        (&[0, 0, 0, 2, 3, 0], MALFORMED),
        (&[0, 0, 0, 0], MALFORMED),
        (
            &[0, 1, 1, 0xD1],
            &[0, 0, 0, 10, 0xE0, 15, 0, 0, 0, 0, 0, 1, 1, 0xD0],
        ),
    ];
    assert!(rt; is_talk(&rt, new_files(rt.alloc(), 2)?, &talk, End::TooLarge)?);
    Ok(())
}

/// A scan of segment 1.
const PART: &[u8] = &[0, 0, 0, 3, 4, 0, 2];

/// The scanner returns from its node. If nothing changes, a scan takes two looks a segment.
#[test]
fn scans_take_two_looks_a_segment(rt: HostRuntime) -> Result<(), Fail> {
    for (request, looks) in [(SCAN, 4), (PART, 2)] {
        let served = serve_files(&rt, new_files(rt.alloc(), 2)?, request)?;
        assert!(rt; served.looks_left == (1 << 50) - looks);
    }
    Ok(())
}

// Scans of some segments, of both, of one that isn't there, and of none.
#[test]
fn partial_frames(rt: HostRuntime) -> Result<(), Fail> {
    let talk: [Pair<'_>; 5] = [
        (HI, STORED_1),
        (BOTH, BOTH_HI),
        (
            PART,
            &[0, 0, 0, 15, 0x84, 1, 1, 0, 0, 0, 0, 0, 0, 0, 0, 0, 0, 0, 0],
        ),
        (
            &[0, 0, 0, 3, 4, 0, 4],
            &[0, 0, 0, 10, 0xE0, 2, 0, 0, 0, 0, 0, 0, 0, 2],
        ),
        (&[0, 0, 0, 3, 4, 0, 0], MALFORMED),
    ];
    assert!(rt; is_talk(&rt, new_files(rt.alloc(), 2)?, &talk, End::Closed)?);
    Ok(())
}

/// Requests and their replies while the only segment's first store fails, and after it.
const FAULT: [Pair<'static>; 6] = [
    (HI, FAILED),
    (
        SCAN,
        &[0, 0, 0, 14, 0x82, 1, 0, 0, 0, 0, 0, 0, 0, 0, 0, 0, 0, 0],
    ),
    (HI, FENCED),
    (REPEAT, STORED_0),
    (
        &[0, 0, 0, 12, 1, 0, 0, 0, 0, 0, 0, 0, 0, 5, 0x68, 0x69],
        &[0, 0, 0, 10, 0xE0, 5, 0, 0, 0, 0, 0, 0, 0, 0],
    ),
    (STATUS, &[0, 0, 0, 11, 0x83, 1, 0, 0, 0, 0, 0, 0, 0, 0, 1]),
];

#[test]
fn fault_fences_the_segment(rt: HostRuntime) -> Result<(), Fail> {
    let mut devices = Vec::new(rt.alloc());
    for disk in new_files(rt.alloc(), 1)? {
        devices.push(failing(rt.alloc(), disk)?)?;
    }
    assert!(rt; is_talk(&rt, devices, &FAULT, End::Closed)?);
    Ok(())
}
