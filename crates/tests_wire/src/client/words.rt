//! The results of calls in these tests, as words.

use snap_client::ClientFault;
use snap_disk::Refusal;
use snap_frame::{NamedValue, Reply, SegmentStatus, SegmentValue};

/// The result of a call: the words of its reply, or its fault.
pub(super) type Answer = Result<&'static str, ClientFault>;

/// The words of the replies of [`TALK`](super::TALK).
pub(super) const WORDS: [&str; 4] = ["stored 1", "snapshot", "status", "part"];

/// The snapshot and the status of [`TALK`](super::TALK) have these numbers, and the snapshot these values.
const SEGMENTS: [(u64, &[u8]); 2] = [(1, b"hi"), (0, b"")];

/// Whether this is the snapshot of the talk.
fn is_snapshot(values: &[SegmentValue]) -> bool {
    let mut pairs = values.iter().zip(SEGMENTS.iter());
    values.len() == 2
        && pairs.all(|(it, want)| it.number == want.0 && it.value.as_slice() == want.1)
}

/// Whether this is the status of the talk.
fn is_status(statuses: &[SegmentStatus]) -> bool {
    let mut pairs = statuses.iter().zip(SEGMENTS.iter());
    statuses.len() == 2 && pairs.all(|(it, want)| it.number == want.0 && !it.is_fenced)
}

/// Whether this is the scan of segment 1 of the talk.
fn is_part(values: &[NamedValue]) -> bool {
    matches!(values, [it] if it.segment == 1 && it.number == 0 && it.value.is_empty())
}

/// The answer in words.
pub(super) fn in_words(answer: &Result<Reply, ClientFault>) -> Answer {
    let refused = Reply::Refused {
        why: Refusal::Worn,
        detail: 0,
    };
    match answer {
        Ok(Reply::Stored(1)) => Ok(WORDS[0]),
        Ok(Reply::Stored(9)) => Ok("stored 9"),
        Ok(Reply::Snapshot(values)) if is_snapshot(values) => Ok(WORDS[1]),
        Ok(Reply::Status(statuses)) if is_status(statuses) => Ok(WORDS[2]),
        Ok(Reply::Part(values)) if is_part(values) => Ok(WORDS[3]),
        Ok(reply) if *reply == refused => Ok("worn"),
        Ok(_) => Ok("another reply"),
        Err(fault) => Err(*fault),
    }
}
