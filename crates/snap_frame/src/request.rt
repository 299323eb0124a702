//! Requests and their payloads.
ghost use Rattle.std.specs.Prelude.{◌≡◌, ◌<◌, ◌≤◌, ℕ, ◌++◌, ◌∷◌, List, length, drop, slice_index, IsOk, OnOk, OnErr};
ghost use Rattle.std.specs.Prelude.{IfOk, IfErr, IfSome, IfNone};
ghost use Rattle.std.specs.Int.{w16, w64, to_be_bytes};
ghost use Rattle.snap_frame.specs.Messages.{max_payload, Asks, IsAskable, Malformed, payload, frame};

use crate::frame::{HEAD_LEN, MAX_PAYLOAD, start_frame};
use crate::numbers::{first_u16, first_u64};
use bytes::{Bytes, BytesMut};
use snap_disk::Refusal;
use snap_scan::SegmentSet;
use std::alloc::AllocError;

/// A client's request to the server (docs/FORMATS.md, "Frames and messages").
#[derive(Debug, PartialEq, Eq, Drop)]
pub enum Request {
    /// Store a value as this number of a segment. A value that is too long for a segment is a
    /// request too: the service refuses it.
    Update {
        segment: u8,
        number: u64,
        /// A slice of the bytes that were received: they aren't copied.
        value: Bytes,
    },
    /// The numbers and values of all segments at one moment.
    Scan,
    /// The numbers and fences of all segments, one after the other.
    Status,
    /// The numbers and values of these segments at one moment. It names at least one.
    Part(SegmentSet),
}

const UPDATE: u8 = 1;

const SCAN: u8 = 2;

const STATUS: u8 = 3;

const PART: u8 = 4;

/// The bytes of an update's payload before its value: its kind, the segment and the number.
const UPDATE_HEAD_LEN: usize = 10;

/// The bytes of the payload of a scan of some segments: its kind and the set.
const PART_LEN: usize = 3;

/// The most bytes of a value that fits into an update's frame.
pub const MAX_UPDATE_VALUE: usize = MAX_PAYLOAD - UPDATE_HEAD_LEN;

/// Reads the segment and the number at the start of an update's payload.
fn update_head(payload: &[u8]) -> (u8, u64)
    requires long { 10 ≤ length payload.now }
    requires update { slice_index payload.now 0 ≡ 1 }
    ensures { payload.now ≡ 1 ∷ result.0 ∷ (to_be_bytes w64 result.1 ++ drop 10 payload.now) }
{
    (payload[1], first_u64(&payload[2..]))
}

/// Reads the payload of a scan of some segments, or returns `None` if it names none.
fn read_part(payload: &[u8]) -> Option<Request>
    requires long { length payload.now ≡ 3 }
    requires part { slice_index payload.now 0 ≡ 4 }
    ensures request { IfSome result (Asks payload.now) }
    ensures malformed { IfNone result (Malformed payload.now) }
{
    let set = SegmentSet {
        bits: first_u16(&payload[1..]),
    };
    if set.is_empty() {
        return None;
    }
    Some(Request::Part(set))
}

/// Reads a payload, or returns `None` if it is no request's.
pub(crate) fn read_request(mut payload: BytesMut) -> Result<Option<Request>, AllocError>
    ensures request { IfOk result (λ r. IfSome r (Asks payload.items)) }
    ensures malformed { IfOk result (λ r. IfNone r (Malformed payload.items)) }
{
    let bytes = payload.as_slice();
    match bytes.len() {
        0 => Ok(None),
        1 if bytes[0] == SCAN => Ok(Some(Request::Scan)),
        1 if bytes[0] == STATUS => Ok(Some(Request::Status)),
        PART_LEN if bytes[0] == PART => Ok(read_part(bytes)),
        len if len >= UPDATE_HEAD_LEN && bytes[0] == UPDATE => {
            let (segment, number) = update_head(bytes);
            payload.advance(UPDATE_HEAD_LEN);
            let Ok(value) = payload.freeze() else {
                return Err(AllocError);
            };
            Ok(Some(Request::Update {
                segment,
                number,
                value,
            }))
        }
        _ => Ok(None),
    }
}

/// Appends the frame of a request to the buffer.
///
/// The payload has at most [`MAX_PAYLOAD`] bytes, so an update's value at most [`MAX_UPDATE_VALUE`], and a scan of some
/// segments names at least one. The only error is [`Refusal::NoMemory`], and then the buffer's bytes are unchanged.
/// There is none if the buffer has room for the frame.
pub fn write_request(request: &Request, out: &mut BytesMut) -> Result<(), Refusal>
    requires fits { length (payload request.now) ≤ max_payload }
    requires askable { IsAskable request.now }
    ensures ok { OnOk result (out.new.items ≡ out.old.items ++ frame (payload request.now)) }
    ensures err { OnErr result (out.new.items ≡ out.old.items) }
    ensures room { length (frame (payload request.now)) ≤ out.old.spare → IsOk result }
    ensures memory { IfErr result (λ why. why ≡ Refusal.NoMemory) }
{
    match request {
        Request::Update {
            segment,
            number,
            value,
        } => {
            start_frame(UPDATE_HEAD_LEN + value.len(), out)?;
            out.extend_reserved(&[UPDATE, *segment]);
            out.extend_reserved(&number.to_be_bytes());
            out.extend_reserved(value.as_slice());
        }
        Request::Scan => {
            start_frame(1, out)?;
            out.extend_reserved(&[SCAN]);
        }
        Request::Status => {
            start_frame(1, out)?;
            out.extend_reserved(&[STATUS]);
        }
        Request::Part(set) => {
            start_frame(PART_LEN, out)?;
            out.extend_reserved(&[PART]);
            out.extend_reserved(&set.bits.to_be_bytes());
        }
    }
    Ok(())
}

/// The length of a request's frame in bytes.
pub fn request_frame_len(request: &Request) -> usize
    ensures { result ≡ length (frame (payload request.now)) }
{
    let payload_len = match request {
        Request::Update { value, .. } => UPDATE_HEAD_LEN + value.len(),
        Request::Scan | Request::Status => 1,
        Request::Part(_) => PART_LEN,
    };
    HEAD_LEN + payload_len
}
