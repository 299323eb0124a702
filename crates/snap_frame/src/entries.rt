//! The entries of a snapshot and of a status: one for each segment, in order of segment.
ghost use Rattle.std.specs.Prelude.{◌≡◌, ◌+◌, ◌<◌, ◌≤◌, ◌^◌, ℕ, List, ◌++◌, length, drop};
ghost use Rattle.std.specs.Int.{w32, w64, to_be_bytes};

use crate::list::ListEntry;
use crate::numbers::{first_u32, first_u64};
use bytes::{Bytes, BytesMut};
use snap_history::{LAST_NUMBER, MAX_VALUE_LEN};
use snap_scan::SegmentValue;
use std::alloc::AllocError;

/// A segment's number, and whether it takes no new update until the next restart.
#[derive(Clone, Copy, Debug, PartialEq, Eq, Drop)]
pub struct SegmentStatus {
    /// At most [`LAST_NUMBER`].
    pub number: u64,
    pub is_fenced: bool,
}

/// The bytes of a value's entry before the value: its number and its length.
pub(crate) const VALUE_HEAD_LEN: usize = 12;

/// The bytes of a status's entry: the number and the fence.
const STATUS_LEN: usize = 9;

/// Reads the number and the length at the start of a value's entry.
fn value_head(bytes: &[u8]) -> (u64, u32)
    requires { 12 ≤ length bytes.now }
    ensures { bytes.now ≡ to_be_bytes w64 result.0 ++ (to_be_bytes w32 result.1 ++ drop 12 bytes.now) }
{
    (first_u64(bytes), first_u32(&bytes[8..]))
}

impl ListEntry for SegmentValue {
    ghost use Rattle.snap_frame.specs.Messages.{value_bytes, IsValue};

    ghost bytes = { value_bytes };

    ghost may_stand = { IsValue };

    fn take_first(rest: &mut Bytes) -> Result<Option<SegmentValue>, AllocError> {
        if rest.len() < VALUE_HEAD_LEN {
            return Ok(None);
        }
        let (number, value_len) = value_head(rest.as_slice());
        if number > LAST_NUMBER || value_len as usize > MAX_VALUE_LEN {
            return Ok(None);
        }
        rest.advance(VALUE_HEAD_LEN);
        if rest.len() < value_len as usize {
            return Ok(None);
        }
        let value = rest.split_to(value_len as usize)?;
        Ok(Some(SegmentValue { number, value }))
    }

    fn len(&self) -> usize {
        VALUE_HEAD_LEN + self.value.len()
    }

    fn put(&self, out: &mut BytesMut) {
        put_value(self.number, &self.value, out);
    }
}

/// Writes a value's number, its length and its bytes. The buffer has room for them.
pub(crate) fn put_value(number: u64, value: &Bytes, out: &mut BytesMut)
    requires fits { length value.now < 2 ^ 32 }
    requires room { 12 + length value.now ≤ out.old.spare }
    ensures items { out.new.items ≡ out.old.items
        ++ (to_be_bytes w64 number ++ (to_be_bytes w32 (length value.now) ++ value.now)) }
    ensures room { out.new.spare + (12 + length value.now) ≡ out.old.spare }
{
    out.extend_reserved(&number.to_be_bytes());
    out.extend_reserved(&(value.len() as u32).to_be_bytes());
    out.extend_reserved(value.as_slice());
}

impl ListEntry for SegmentStatus {
    ghost use Rattle.snap_frame.specs.Messages.{status_bytes, IsStatus};

    ghost bytes = { status_bytes };

    ghost may_stand = { IsStatus };

    fn take_first(rest: &mut Bytes) -> Result<Option<SegmentStatus>, AllocError> {
        if rest.len() < STATUS_LEN {
            return Ok(None);
        }
        let bytes = rest.as_slice();
        let (number, fence) = (first_u64(bytes), bytes[8]);
        if number > LAST_NUMBER || fence > 1 {
            return Ok(None);
        }
        rest.advance(STATUS_LEN);
        Ok(Some(SegmentStatus {
            number,
            is_fenced: fence == 1,
        }))
    }

    fn len(&self) -> usize {
        STATUS_LEN
    }

    fn put(&self, out: &mut BytesMut) {
        out.extend_reserved(&self.number.to_be_bytes());
        out.extend_reserved(&[u8::from(self.is_fenced)]);
    }
}
