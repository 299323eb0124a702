//! Replies and their payloads.
ghost use Rattle.std.specs.Prelude.{◌≡◌, ◌≤◌, ◌<◌, ◌^◌, ℕ, List, ◌++◌, length, IsOk, OnOk, OnErr};
ghost use Rattle.std.specs.Prelude.{IfOk, IfErr, IfSome, IfNone};
ghost use Rattle.std.specs.Int.{w64, to_be_bytes};
ghost use Rattle.snap_frame.specs.Messages.{max_payload, frame, says, Says, SaysNothing, IsInLimits};

use crate::entries::SegmentStatus;
use crate::frame::{HEAD_LEN, start_frame};
use crate::list::{LIST_HEAD_LEN, append_list, entries_len, read_list};
use crate::named::{NamedValue, read_named};
use crate::numbers::first_u64;
use bytes::BytesMut;
use snap_disk::Refusal;
use snap_history::LAST_NUMBER;
use snap_scan::SegmentValue;
use std::alloc::AllocError;

/// The server's answer to a request (docs/FORMATS.md, "Frames and messages").
#[derive(Debug, PartialEq, Eq, Drop)]
pub enum Reply {
    /// The segment has this number, with the value of the update. At most [`LAST_NUMBER`].
    Stored(u64),
    /// All segments at one moment, in order, 1 to [`MAX_COUNT`](snap_history::MAX_COUNT) of them.
    Snapshot(Vec<SegmentValue>),
    /// All segments in order, each as it was when the server read it, 1 to [`MAX_COUNT`](snap_history::MAX_COUNT).
    Status(Vec<SegmentStatus>),
    /// The segments that were asked for at one moment, in ascending order, 1 to [`MAX_COUNT`](snap_history::MAX_COUNT).
    Part(Vec<NamedValue>),
    /// Refused for this reason. `detail` is a number that depends on the reason, such as the segment's number.
    Refused { why: Refusal, detail: u64 },
}

const STORED: u8 = 0x81;

const SNAPSHOT: u8 = 0x82;

const STATUS: u8 = 0x83;

const PART: u8 = 0x84;

const REFUSED: u8 = 0xE0;

/// The bytes of the payload of `Stored`.
const STORED_LEN: usize = 9;

/// The bytes of the payload of `Refused`.
const REFUSED_LEN: usize = 10;

/// Reads a payload, or returns `None` if it is no reply's.
pub(crate) fn read_reply(payload: BytesMut) -> Result<Option<Reply>, AllocError>
    ensures reply { IfOk result (λ r. IfSome r (Says payload.items)) }
    ensures nothing { IfOk result (λ r. IfNone r (SaysNothing payload.items)) }
{
    let bytes = payload.as_slice();
    match bytes.first() {
        Some(&STORED) if bytes.len() == STORED_LEN => {
            let number = first_u64(&bytes[1..]);
            Ok((number <= LAST_NUMBER).then_some(Reply::Stored(number)))
        }
        Some(&REFUSED) if bytes.len() == REFUSED_LEN => {
            let detail = first_u64(&bytes[2..]);
            Ok(Refusal::of_code(bytes[1]).map(|why| Reply::Refused { why, detail }))
        }
        Some(&SNAPSHOT) => Ok(read_list(payload)?.map(Reply::Snapshot)),
        Some(&STATUS) => Ok(read_list(payload)?.map(Reply::Status)),
        Some(&PART) => Ok(read_named(payload)?.map(Reply::Part)),
        _ => Ok(None),
    }
}

/// Appends the frame of a reply to the buffer.
///
/// Its numbers, lengths and counts are within the limits of replies, so its payload fits a frame.
/// The only error is [`Refusal::NoMemory`], and then the buffer's bytes are unchanged. There is
/// none if the buffer has room for the frame.
#[tactic(auto, using(crate::proofs::Lengths::says_fits))]
pub fn write_reply(reply: &Reply, out: &mut BytesMut) -> Result<(), Refusal>
    requires { IsInLimits reply.now }
    ensures fits { length (says reply.now) ≤ max_payload }
    ensures ok { OnOk result (out.new.items ≡ out.old.items ++ frame (says reply.now)) }
    ensures err { OnErr result (out.new.items ≡ out.old.items) }
    ensures room { length (frame (says reply.now)) ≤ out.old.spare → IsOk result }
    ensures memory { IfErr result (λ why. why ≡ Refusal.NoMemory) }
{
    match reply {
        Reply::Stored(number) => {
            start_frame(STORED_LEN, out)?;
            out.extend_reserved(&[STORED]);
            out.extend_reserved(&number.to_be_bytes());
        }
        Reply::Snapshot(values) => append_list(SNAPSHOT, values, out)?,
        Reply::Status(statuses) => append_list(STATUS, statuses, out)?,
        Reply::Part(values) => append_list(PART, values, out)?,
        Reply::Refused { why, detail } => {
            start_frame(REFUSED_LEN, out)?;
            out.extend_reserved(&[REFUSED, why.code()]);
            out.extend_reserved(&detail.to_be_bytes());
        }
    }
    Ok(())
}

/// The length of a reply's frame in bytes.
pub fn reply_frame_len(reply: &Reply) -> usize
    requires { IsInLimits reply.now }
    ensures { result ≡ length (frame (says reply.now)) }
{
    let payload_len = match reply {
        Reply::Stored(_) => STORED_LEN,
        Reply::Snapshot(values) => LIST_HEAD_LEN + entries_len(values),
        Reply::Status(statuses) => LIST_HEAD_LEN + entries_len(statuses),
        Reply::Part(values) => LIST_HEAD_LEN + entries_len(values),
        Reply::Refused { .. } => REFUSED_LEN,
    };
    HEAD_LEN + payload_len
}
