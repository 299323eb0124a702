//! The record of an update, drafted word by word in a free buffer; a block that the buffer holds already stays.
ghost use Rattle.std.specs.Prelude.{◌≡◌, ℕ, ◌+◌, ◌-◌, ◌*◌, ◌<◌, ◌≤◌, ◌++◌, ◌∷◌, length, take, [], IsTrue};
ghost use Rattle.snap_history.specs.Limits.{IsShort};
ghost use Rattle.snap_register.specs.declared.words.TheConstants.{BLOCK_WORDS};
ghost use Rattle.snap_register.specs.Rule.{segments, width, old_record, old_words, WasAt};
ghost use Rattle.snap_register.specs.Words.{IsWhole, IsBlock, AreBlocks, bytes_at, piece, size_at, words_for};
ghost use Rattle.snap_register.specs.Held.{held, taken, CanTake};
ghost use Rattle.snap_register.specs.Steps.{view_of, draft_of, Owns, IsFree, HasPin, IsNext};
ghost use Rattle.snap_register.specs.Steps.{IsOld, IsOf, IsAligned, HasDrafted, HasCopied};
ghost use mathlib.Core.List.{IsPrefix};

use crate::access::Access;
use crate::setup::Retain;
use crate::view::View;
use crate::words::{block_size, copy_words, draft_word, tail_word, word_of};

impl Access {
    /// Stores the block of this number and value at the start of the free buffer; `is_filled` if that has held a
    /// record of this seat before. Returns where the draft ends.
    pub(crate) fn draft_value(
        &mut self,
        i: usize,
        b: usize,
        number: u64,
        value: &[u8],
        is_filled: bool,
    ) -> DraftEnd
        requires own { Owns (view_of self.old) i }
        requires buffer { IsFree (view_of self.old) b }
        requires empty { (draft_of self.old ≡ []) × IsShort value.now }
        requires filled { IsTrue is_filled → 0 < old_record (view_of self.old) }
        ensures same { HasDrafted self.old self.new (draft_of self.new) }
        ensures block { IsBlock (draft_of self.new) 0 number value.now }
        ensures size { (result.at ≡ length (draft_of self.new))
            × (result.at ≡ size_at (draft_of self.new) 0) × (result.at ≤ BLOCK_WORDS) }
        ensures aligned { IsTrue result.is_aligned → IsAligned (view_of self.new) 0 }
    {
        let first = self.cell(i, b, 0);
        self.draft(first, number);
        let old_length = self.draft(first + 1, value.len() as u64);
        let whole = value.len() / 8;
        for q in 0..whole {
            let from = 8 * q;
            self.draft(first + 2 + q, word_of(&value[from..from + 8]));
        }
        self.draft_tail(i, b, value, whole);
        let is_aligned = is_filled && old_length == value.len() as u64;
        let at = block_size(value.len());
        DraftEnd { at, is_aligned }
    }

    // Stores the bytes after the value's whole words, if there are any, as one more word.
    fn draft_tail(&mut self, i: usize, b: usize, value: &[u8], whole: usize)
        requires own { Owns (view_of self.old) i }
        requires buffer { IsFree (view_of self.old) b }
        requires place { (length (draft_of self.old) ≡ 2 + whole)
            × (8 * whole ≤ length value.now) × (length value.now < 8 * whole + 8) × IsShort value.now }
        requires bytes { bytes_at (draft_of self.old) 2 whole ≡ take (8 * whole) value.now }
        ensures same { HasDrafted self.old self.new (draft_of self.new) }
        ensures prefix { IsPrefix (draft_of self.old) (draft_of self.new) }
        ensures size { length (draft_of self.new) ≡ 2 + words_for (length value.now) }
        ensures bytes { take (length value.now) (bytes_at (draft_of self.new) 2
            (words_for (length value.now))) ≡ value.now }
    {
        let from = 8 * whole;
        if from < value.len() {
            let place = self.cell(i, b, 2 + whole);
            self.draft(place, tail_word(&value[from..value.len()]));
        }
    }

    /// Appends the memory that the update carries to the draft.
    pub(crate) fn copy_view(&mut self, i: usize, b: usize, end: DraftEnd, view: &View)
        requires own { Owns (view_of self.old) i }
        requires buffer { IsFree (view_of self.old) b }
        requires pinned { CanTake (view_of self.old) view.now }
        requires place { (end.at ≡ length (draft_of self.old)) × (end.at ≤ BLOCK_WORDS) }
        requires aligned { IsTrue end.is_aligned → IsAligned (view_of self.old) 0 }
        ensures same { HasDrafted self.old self.new (draft_of self.new) }
        ensures prefix { IsPrefix (draft_of self.old) (draft_of self.new) }
        ensures blocks { AreBlocks (draft_of self.new) end.at
            (segments (view_of self.old).plan) (taken (view_of self.old) view.now) }
    {
        let mut to = end;
        match *view {
            View::Collected => {
                for k in 0..self.segments {
                    to = self.copy_block(i, b, to, k, 0);
                }
            }
            View::Borrowed(j) => {
                let mut from = self.size_at(j, 0);
                for _ in 0..self.segments {
                    let next = self.copy_block(i, b, to, j, from);
                    from += next.at - to.at;
                    to = next;
                }
            }
        }
    }

    // Appends the block at place `from` of the pinned record of `j` to the draft. Returns where the draft then ends.
    //
    // A segment's number has one value. So where the free buffer has a block of the same number and length, at the end
    // of the draft, it has this block, and it stays.
    fn copy_block(&mut self, i: usize, b: usize, end: DraftEnd, j: usize, from: usize) -> DraftEnd
        requires own { Owns (view_of self.old) i }
        requires buffer { IsFree (view_of self.old) b }
        requires pinned { HasPin (view_of self.old) j }
        requires block { IsWhole (held (view_of self.old) j) from }
        requires place { (end.at ≡ length (draft_of self.old))
            × (end.at + BLOCK_WORDS ≤ width (view_of self.old).plan) }
        requires segment { (k : ℕ) × (k < segments (view_of self.old).plan)
            × (IsTrue end.is_aligned → IsAligned (view_of self.old) k)
            × IsOf (view_of self.old).plan (view_of self.old).seen k (held (view_of self.old) j) from }
        ensures copied { HasCopied self.old self.new j from (result.at - end.at) }
        ensures size { (result.at ≡ end.at + size_at (held (view_of self.old) j) from)
            × (result.at ≤ end.at + BLOCK_WORDS) }
        ensures aligned { (k : ℕ) → k < segments (view_of self.old).plan
            → (IsTrue end.is_aligned → IsAligned (view_of self.old) k)
            → IsTrue result.is_aligned → IsAligned (view_of self.new) (k + 1) }
    {
        let number = self.read(j, from);
        let length = self.read(j, from + 1);
        let target = self.cell(i, b, end.at);
        let old_number = self.draft(target, number);
        let old_length = self.draft(target + 1, length);
        let count = block_size(length as usize);
        let is_aligned = end.is_aligned && old_length == length;
        if is_aligned && old_number == number {
            self.keep(target + count - 1);
        } else if count > 2 {
            self.copy_rest(target + 2, j, from + 2, count - 2);
        }
        DraftEnd {
            at: end.at + count,
            is_aligned,
        }
    }

    // Appends `count` words of the pinned record of `j`, from place `from` on, to the draft, which ends at `target`.
    fn copy_rest(&mut self, target: usize, j: usize, from: usize, count: usize)
        requires pinned { HasPin (view_of self.old) j }
        requires words { (0 < count) × (from + count ≤ length (held (view_of self.old) j)) }
        requires place { IsNext (view_of self.old) target
            × (length (draft_of self.old) + count ≤ width (view_of self.old).plan) }
        ensures same { HasDrafted self.old self.new
            (draft_of self.old ++ piece (held (view_of self.old) j) from count) }
    {
        let source = self.place(j, from);
        copy_words(&self.table, &mut self.seat, source, target, count);
    }

    // Takes the free buffer's old words into the draft as they are, up to the one at this place.
    fn keep(&mut self, place: usize)
        requires place { (q : ℕ) × IsOld (view_of self.old) q place }
        ensures same { (q : ℕ) → IsOld (view_of self.old) q place → HasDrafted self.old self.new (draft_of self.old
            ++ piece (old_words (view_of self.old)) (length (draft_of self.old)) (q + 1 - length (draft_of self.old))) }
    {
        self.table.shared.load::<Retain>(&mut self.seat, place);
    }

    // Makes x the next word of the free buffer, which is at this place. Returns what it was before.
    fn draft(&mut self, place: usize, x: u64) -> u64
        requires place { IsNext (view_of self.old) place }
        ensures drafted { HasDrafted self.old self.new (draft_of self.old ++ x ∷ []) }
        ensures old { WasAt (view_of self.old) (length (draft_of self.old)) result }
    {
        draft_word(&self.table, &mut self.seat, place, x)
    }
}

/// Where a draft ends.
#[derive(Clone, Copy)]
pub(crate) struct DraftEnd {
    /// How many words it has.
    pub(crate) at: usize,
    /// Whether the next block of the record that the buffer held before begins there too.
    pub(crate) is_aligned: bool,
}
