//! One segment in the answer of a scan.
use bytes::Bytes;

/// A segment's number and value.
#[derive(Debug, PartialEq, Eq, Drop)]
pub struct SegmentValue {
    /// At most [`LAST_NUMBER`](snap_history::LAST_NUMBER).
    pub number: u64,
    /// At most [`MAX_VALUE_LEN`](snap_history::MAX_VALUE_LEN) bytes.
    pub value: Bytes,
}
