//! The entries of a scan of some segments: each names its segment, in ascending order.
ghost use Rattle.std.specs.Prelude.{◌≡◌, ◌↔◌, ℕ, List, ◌∷◌, length, flat_map, slice_index};
ghost use Rattle.std.specs.Prelude.{IfOk, IfSome, IfNone, IsTrue};
ghost use Rattle.snap_frame.specs.Messages.{named_bytes, IsNamedValue, Ascend, AreEntries};

use crate::entries::{VALUE_HEAD_LEN, put_value};
use crate::list::{ListEntry, read_list};
use bytes::{Bytes, BytesMut};
use snap_history::MAX_COUNT;
use snap_scan::SegmentValue;
use std::alloc::AllocError;

/// A segment with its number and value.
#[derive(Debug, PartialEq, Eq, Drop)]
pub struct NamedValue {
    /// Below [`MAX_COUNT`].
    pub segment: u8,
    /// At most [`LAST_NUMBER`](snap_history::LAST_NUMBER).
    pub number: u64,
    /// At most [`MAX_VALUE_LEN`](snap_history::MAX_VALUE_LEN) bytes.
    pub value: Bytes,
}

/// The bytes of an entry before its value: the segment, and the head of a snapshot's entry.
const NAMED_HEAD_LEN: usize = 1 + VALUE_HEAD_LEN;

impl ListEntry for NamedValue {
    ghost use Rattle.snap_frame.specs.Messages.{named_bytes, IsNamedValue};

    ghost bytes = { named_bytes };

    ghost may_stand = { IsNamedValue };

    fn take_first(rest: &mut Bytes) -> Result<Option<NamedValue>, AllocError> {
        let Some(&segment) = rest.as_slice().first() else {
            return Ok(None);
        };
        if segment >= MAX_COUNT {
            return Ok(None);
        }
        rest.advance(1);
        let Some(entry) = SegmentValue::take_first(rest)? else {
            return Ok(None);
        };
        Ok(Some(NamedValue {
            segment,
            number: entry.number,
            value: entry.value,
        }))
    }

    fn len(&self) -> usize {
        NAMED_HEAD_LEN + self.value.len()
    }

    fn put(&self, out: &mut BytesMut) {
        out.extend_reserved(&[self.segment]);
        put_value(self.number, &self.value, out);
    }
}

/// Whether each entry's segment is above that of the one before it.
fn ascend(values: &[NamedValue]) -> bool
    ensures { IsTrue result ↔ Ascend values.now }
{
    for i in 1..values.len() {
        if values[i].segment <= values[i - 1].segment {
            return false;
        }
    }
    true
}

/// Reads the entries of the payload of a scan of some segments, or returns `None` if it isn't a
/// list of them, or they don't ascend.
#[tactic(auto, using(crate::proofs::Behind::named_apart))]
pub(crate) fn read_named(payload: BytesMut) -> Result<Option<Vec<NamedValue>>, AllocError>
    ensures some { IfOk result (λ o. IfSome o (λ vs. AreEntries IsNamedValue vs.items × Ascend vs.items × (payload.items
        ≡ slice_index payload.items 0 ∷ length vs.items ∷ flat_map named_bytes vs.items))) }
    ensures none { IfOk result (λ o. IfNone o ((kind : ℕ) → (vs : List NamedValue)
        → AreEntries IsNamedValue vs → Ascend vs → payload.items ≡ kind ∷ length vs ∷ flat_map named_bytes vs → ⊥)) }
{
    let Some(values) = read_list(payload)? else {
        return Ok(None);
    };
    if !ascend(&values) {
        return Ok(None);
    }
    Ok(Some(values))
}
