//! Finds the value that a file of the old format holds.
ghost use Rattle.std.specs.Prelude.{◌≡◌, ◌+◌, ◌<◌, ◌≤◌, ℕ, List, length, IfOk, IfErr, MatchOption};
ghost use Rattle.snap_slot.specs.declared.old_layout.TheConstants.{OLD_FILE_LEN, OLD_SLOT_COUNT};
ghost use Rattle.snap_slot.specs.OldFound.{IsOldHeaderOf, IsOldSlotOf, IsOldHeld, IsOldFound, IsNoOldOpening};
ghost use Rattle.snap_slot.specs.{limits.TheConstants.MAX_VALUE_LEN, Findings.IsOfBytes, Old.OldHolds};

use crate::bytes::range;
use crate::header::{Header, read_header};
use crate::layout::{BLOCK_LEN, VALUE_AT, body_at, gate_at};
use crate::old_layout::{OLD_FILE_LEN, OLD_MARK, OLD_SLOT_COUNT, old_slot_of};
use crate::slot::{Slot, read_slot};
use snap_disk::Refusal;

/// The newest number of an old file, with the length of its value.
#[derive(Clone, Copy, PartialEq, Eq)]
pub struct OldFound {
    /// At most [`LAST_NUMBER`](snap_history::LAST_NUMBER). It is in the slot [`old_slot_of`] it.
    pub number: u64,
    /// The length of its value in bytes, at most [`MAX_VALUE_LEN`](snap_history::MAX_VALUE_LEN).
    pub length: u16,
}

impl OldFound {
    ghost use Rattle.snap_slot.specs.{Findings.value_in, Old.old_slot_of};

    /// The value, read from the bytes of the file in which it was found.
    #[tactic(auto, unfolding(snap_disk::specs::Device::part))]
    pub fn value<'a>(&self, file: &'a [u8]) -> &'a [u8]
        requires size { length file.now ≡ OLD_FILE_LEN }
        requires limit { self.now.length ≤ MAX_VALUE_LEN }
        ensures value { result.now ≡ value_in file.now (old_slot_of self.now.number) self.now.length }
        ensures length { length result.now ≡ self.now.length }
    {
        let body = range(file, body_at(old_slot_of(self.number)) as usize, BLOCK_LEN);
        range(body, VALUE_AT, self.length as usize)
    }
}

/// Finds the newest number in the bytes of an old file that should be that of segment `index` of `count`.
///
/// Errors, in this order: `Unformatted` if the header's gate is closed; `WrongFile` if the header
/// is that of another segment or breaks the format; `Damaged` if a slot is bad, none is open, or
/// both are with numbers that don't differ by one.
pub fn recover_old(file: &[u8], index: u8, count: u8) -> Result<OldFound, Refusal>
    requires { length file.now ≡ OLD_FILE_LEN }
    ensures found { IfOk result (IsOldFound index count file.now) }
    ensures refused { IfErr result (λ why. IsNoOldOpening index count file.now why × IsOfBytes why) }
{
    match old_header(file) {
        Header::Closed => Err(Refusal::Unformatted),
        Header::Open { index: i, count: n } if i == index && n == count => {
            newest_old(old_slot(file, 0), old_slot(file, 1)).ok_or(Refusal::Damaged)
        }
        _ => Err(Refusal::WrongFile),
    }
}

/// Reads the header of a file.
fn old_header(file: &[u8]) -> Header
    requires { length file.now ≡ OLD_FILE_LEN }
    ensures { IsOldHeaderOf file.now result }
{
    read_header(&OLD_MARK, range(file, 0, BLOCK_LEN))
}

/// Reads slot `index` of a file.
fn old_slot(file: &[u8], index: u8) -> Slot
    requires size { length file.now ≡ OLD_FILE_LEN }
    requires slot { index < OLD_SLOT_COUNT }
    ensures { IsOldSlotOf file.now index result }
{
    let gate = range(file, gate_at(index.into()) as usize, BLOCK_LEN);
    let body = range(file, body_at(index.into()) as usize, BLOCK_LEN);
    read_slot(OLD_SLOT_COUNT, index, gate, body)
}

/// The newest number of two slots: that of the only open one, or the greater of two numbers that differ by one.
fn newest_old(first: Slot, second: Slot) -> Option<OldFound>
    ensures { (b : List ℕ) → IsOldSlotOf b 0 first → IsOldSlotOf b 1 second
        → MatchOption result ((k : ℕ) (v : List ℕ) → OldHolds b k v → ⊥) (IsOldHeld b) }
{
    match (first, second) {
        (Slot::Open { number, length }, Slot::Closed)
        | (Slot::Closed, Slot::Open { number, length }) => Some(OldFound { number, length }),
        (
            Slot::Open {
                number: a,
                length: a_length,
            },
            Slot::Open {
                number: b,
                length: b_length,
            },
        ) if a.abs_diff(b) == 1 => {
            let (number, length) = if a > b { (a, a_length) } else { (b, b_length) };
            Some(OldFound { number, length })
        }
        _ => None,
    }
}
