//! The longest messages, read and written whole.
use super::messages::update;
use super::{comes, is_bad_reply, is_rewritten, is_written};
use crate::streams::joined;
use snap_frame::{Feed, MAX_PAYLOAD, MAX_UPDATE_VALUE};
use std::alloc::{AllocError, Global};
use std::test::Fail;

#[test]
fn longest_update_both_ways(rt: HostRuntime) -> Result<(), Fail> {
    let head = [
        0, 1, 1, 0xD0, 1, 15, 0xFF, 0xFF, 0xFF, 0xFF, 0xFF, 0xFF, 0xFF, 0xFF,
    ];
    let mut frame = head.to_vec(rt.alloc())?;
    frame.resize(4 + MAX_PAYLOAD, b'v')?;
    let mut feed = Feed::new(rt.alloc());
    feed.push(&frame)?;
    let answer = update(rt.alloc(), 15, u64::MAX, &[b'v'; MAX_UPDATE_VALUE])?;
    comes(&rt, &mut feed, &answer);
    if let Ok(Some(request)) = answer {
        is_written(&rt, &request, &frame)?;
    }
    Ok(())
}

/// A payload of this head and 16 values of this length with the largest number. A part names the segment of each.
fn payload_of(alloc: Global, kind: u8, value_len: u16) -> Result<Vec<u8>, AllocError> {
    let mut payload = Vec::from_slice(alloc, &[kind, 16])?;
    for segment in 0..16u8 {
        if kind == 0x84 {
            payload.push(segment)?;
        }
        payload.extend_from_slice(&[0x7F, 0xFF, 0xFF, 0xFF, 0xFF, 0xFF, 0xFF, 0xFF, 0, 0])?;
        payload.extend_from_slice(&value_len.to_be_bytes())?;
        payload.extend_from_slice(&[b'v'; 4081][..usize::from(value_len)])?;
    }
    Ok(payload)
}

/// One byte more in each value is too long.
#[test]
fn longest_replies_both_ways(rt: HostRuntime) -> Result<(), Fail> {
    for (kind, len, head) in [
        (0x82, 65_474, [0, 0, 0xFF, 0xC2]),
        (0x84, 65_490, [0, 0, 0xFF, 0xD2]),
    ] {
        let payload = payload_of(rt.alloc(), kind, 4080)?;
        assert!(rt; payload.len() == len);
        is_rewritten(&rt, &joined(rt.alloc(), &[&head, &payload])?)?;
        is_bad_reply(&rt, &payload_of(rt.alloc(), kind, 4081)?)?;
    }
    Ok(())
}
