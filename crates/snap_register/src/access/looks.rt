//! Looks: a seat returns its old pin, pins the current buffer, and reads what it pins.
ghost use Rattle.std.specs.Prelude.{◌≡◌, ℕ, ◌+◌, ◌^◌, ◌<◌, ◌≤◌, length, slice_index, ◌*◌, ◌++◌, ◌∷◌, [], slice_set};
ghost use Rattle.std.specs.Prelude.{take, slice_get, IfOk, IsTrue, IsFalse, MatchBool};
ghost use Rattle.snap_history.specs.{Limits.IsShort, declared.limits.TheConstants.MAX_VALUE_LEN};
ghost use Rattle.snap_scan.specs.Sets.{Names};
ghost use Rattle.snap_register.specs.declared.words.TheConstants.{BLOCK_WORDS};
ghost use Rattle.snap_register.specs.Rule.{segments, Learns, IsLegal};
ghost use Rattle.snap_register.specs.Words.{IsWhole, length_at, size_at, value_at, words_for};
ghost use Rattle.snap_register.specs.Held.{held, IsPinned, HasLookedFrom};
ghost use Rattle.snap_register.specs.Seat.{Grows, IsBelow, number_in, Looks, HasLooked, IsValue, HasFoundUpdate};
ghost use Rattle.snap_register.specs.Seat.{IsView};
ghost use Rattle.snap_register.specs.Steps.{view_of, known_of, HasPin, LiesAt, IsSame};

use crate::access::{Access, PIN_RANGE};
use crate::setup::{GiveBack, Pin, Revisit};
use crate::snapshot::{NumberedValue, SnapshotBuf};
use crate::words::{block_size, copy_value, load_word};
use bytes::Bytes;
use snap_scan::SegmentSet;
use std::alloc::{AllocError, Global};

impl Access {
    /// A look: pins the current record of `j`, unless it is pinned, and returns its number.
    pub(crate) fn look(&mut self, j: usize) -> u64
        requires { (j < segments (view_of self.old).plan) × (0 < self.old.left) }
        ensures seen { Grows (known_of self.old) (known_of self.new) }
        ensures below { IsBelow (known_of self.new) }
        ensures number { result ≡ number_in (known_of self.new) (known_of self.new).seen j }
        ensures looked { Looks (known_of self.old) (known_of self.new) j result }
        ensures look_records { (known_of self.new).look_records
            ≡ (known_of self.old).look_records ++ (known_of self.new).seen ∷ [] }
        ensures left { self.new.left + 1 ≡ self.old.left }
        ensures same { (self.new.seat.table_id ≡ self.old.seat.table_id)
            × (self.new.seat.id ≡ self.old.seat.id) × (self.new.seat.me.1 ≡ self.old.seat.me.1) }
        ensures view { HasLookedFrom (view_of self.old) (view_of self.new) }
        ensures learns { Learns (view_of self.old) (view_of self.new) }
    {
        if !self.revisit(j) {
            self.give_back(j);
            self.pin(j);
        }
        self.read(j, 0)
    }

    // Looks at `j`, if the buffer that the seat pins there is still the current one. Threads take turns for additions,
    // and not for a load.
    fn revisit(&mut self, j: usize) -> bool
        requires { (j < segments (view_of self.old).plan) × (0 < self.old.left) }
        ensures learns { IsTrue result → Learns (view_of self.old) (view_of self.new) }
        ensures looks { IsTrue result → IsPinned (view_of self.old) (view_of self.new) j }
        ensures left { IsTrue result → self.new.left + 1 ≡ self.old.left }
        ensures view { IsTrue result → HasLookedFrom (view_of self.old) (view_of self.new) }
        ensures same { (self.new.seat.table_id ≡ self.old.seat.table_id)
            × (self.new.seat.id ≡ self.old.seat.id) × (self.new.seat.me.1 ≡ self.old.seat.me.1) }
        ensures moved { IsFalse result → IsSame self.old self.new }
    {
        let found = self.table.shared.load::<Revisit>(&mut self.seat, j);
        let is_pinned = self.pins[j] == found / PIN_RANGE + 1;
        if is_pinned {
            self.left -= 1;
        }
        is_pinned
    }

    // Returns the pin on `j`, if there is one.
    fn give_back(&mut self, j: usize)
        requires { j < segments (view_of self.old).plan }
        ensures { (self.new.left ≡ self.old.left)
            × (self.new.seat.table_id ≡ self.old.seat.table_id)
            × (self.new.seat.id ≡ self.old.seat.id)
            × (self.new.seat.me ≡ (
              record (view_of self.old) { pins = slice_set (view_of self.old).pins j 0 },
              self.old.seat.me.1,
            )) }
    {
        if self.pins[j] > 0 {
            let b = (self.pins[j] - 1) as usize;
            let at = self.given(j, b);
            self.table
                .shared
                .fetch_add::<GiveBack>(&mut self.seat, at, 1);
            self.pins[j] = 0;
        }
    }

    // Pins the current buffer of j.
    fn pin(&mut self, j: usize)
        requires { (j < segments (view_of self.old).plan)
            × (slice_index (view_of self.old).pins j ≡ 0) × (0 < self.old.left) }
        ensures learns { Learns (view_of self.old) (view_of self.new) }
        ensures looks { IsPinned (view_of self.old) (view_of self.new) j }
        ensures left { self.new.left + 1 ≡ self.old.left }
        ensures same { (self.new.seat.table_id ≡ self.old.seat.table_id)
            × (self.new.seat.id ≡ self.old.seat.id) × (self.new.seat.me.1 ≡ self.old.seat.me.1) }
        ensures view { HasLookedFrom (view_of self.old) (view_of self.new) }
    {
        let found = self.table.shared.fetch_add::<Pin>(&mut self.seat, j, 1);
        self.pins[j] = found / PIN_RANGE + 1;
        self.left -= 1;
    }

    /// The place of word `q` of the pinned record of `j`. The record's next words follow there.
    pub(crate) fn place(&self, j: usize, q: usize) -> usize
        requires pinned { HasPin (view_of self.now) j }
        requires word { q < length (held (view_of self.now) j) }
        ensures place { LiesAt (view_of self.now) j q result }
        ensures fits { result + length (held (view_of self.now) j) < 2 ^ 64 + q }
    {
        let _words = self.words;
        let b = (self.pins[j] - 1) as usize;
        self.cell(j, b, q)
    }

    /// Loads word `q` of the pinned record of `j`.
    pub(crate) fn read(&mut self, j: usize, q: usize) -> u64
        requires pinned { HasPin (view_of self.old) j }
        requires place { q < length (held (view_of self.old) j) }
        ensures word { result ≡ slice_index (held (view_of self.old) j) q }
        ensures legal { IsLegal (view_of self.old).plan (view_of self.old).seen }
        ensures same { IsSame self.old self.new }
    {
        let place = self.place(j, q);
        load_word(&self.table, &mut self.seat, place)
    }

    /// How many words the block at this place of the pinned record of `j` takes.
    pub(crate) fn size_at(&mut self, j: usize, at: usize) -> usize
        requires pinned { HasPin (view_of self.old) j }
        requires block { IsWhole (held (view_of self.old) j) at }
        ensures size { (result ≡ size_at (held (view_of self.old) j) at) × (result ≤ BLOCK_WORDS) }
        ensures legal { IsLegal (view_of self.old).plan (view_of self.old).seen }
        ensures same { IsSame self.old self.new }
    {
        let length = self.read(j, at + 1) as usize;
        block_size(length)
    }

    /// Copies the value of the pinned record of `j` to the front of `out`. Returns its length.
    pub(crate) fn value(&mut self, j: usize, out: &mut [u8]) -> usize
        requires segment { j < segments (view_of self.old).plan }
        requires looked { HasLooked (known_of self.old) j }
        requires room { MAX_VALUE_LEN ≤ length out.old }
        ensures value { IsValue (known_of self.old) j (take result out.new) }
        ensures size { result ≤ MAX_VALUE_LEN }
        ensures same { IsSame self.old self.new }
    {
        self.read_value(j, 0, out)
    }

    // Copies the value of the block at place `at` of the pinned record of `j`. Returns its length.
    fn read_value(&mut self, j: usize, at: usize, out: &mut [u8]) -> usize
        requires pinned { HasPin (view_of self.old) j }
        requires block { IsWhole (held (view_of self.old) j) at }
        requires room { 8 * words_for (length_at (held (view_of self.old) j) at) ≤ length out.old }
        ensures value { take result out.new ≡ value_at (held (view_of self.old) j) at }
        ensures size { (result ≡ slice_index (held (view_of self.old) j) (at + 1)) × (result ≤ MAX_VALUE_LEN) }
        ensures room { length out.new ≡ length out.old }
        ensures same { IsSame self.old self.new }
    {
        let place = self.place(j, at);
        let length = self.read(j, at + 1) as usize;
        copy_value(&self.table, &mut self.seat, place, (length + 7) / 8, out);
        length
    }

    /// The value of the pinned record of `j`, in new memory.
    pub(crate) fn value_bytes(&mut self, alloc: Global, j: usize) -> Result<Bytes, AllocError>
        requires segment { j < segments (view_of self.old).plan }
        requires looked { HasLooked (known_of self.old) j }
        ensures value { IfOk result (λ v. IsValue (known_of self.old) j v) }
        ensures size { IfOk result (λ v. IsShort v) }
        ensures same { IsSame self.old self.new }
    {
        let words = (self.read(j, 1) as usize + 7) / 8;
        let mut value = Vec::new(alloc);
        value.resize(8 * words, 0)?;
        let length = self.read_value(j, 0, &mut value);
        value.truncate(length);
        Ok(Bytes::from_vec(value)?)
    }

    /// Copies the named segments' part of the view in the pinned record of `j`, an update's, to `out`.
    pub(crate) fn view(&mut self, j: usize, set: SegmentSet, out: &mut SnapshotBuf)
        requires segment { j < segments (view_of self.old).plan }
        requires updated { HasFoundUpdate (known_of self.old) j }
        requires room { length out.old ≡ segments (view_of self.old).plan }
        ensures view { IsView (known_of self.old) j set.bits out.new }
        ensures others { (i : ℕ) → (Names set.bits i → ⊥) → slice_get out.new i ≡ slice_get out.old i }
        ensures same { IsSame self.old self.new }
    {
        let mut at = self.size_at(j, 0);
        for k in 0..self.segments {
            at += self.read_named(j, at, set.has(k), &mut out.segments[k]);
        }
    }

    // Reads the number and the value of the block at this place if `is_named`. Returns how many words it takes.
    fn read_named(&mut self, j: usize, at: usize, is_named: bool, out: &mut NumberedValue) -> usize
        requires pinned { HasPin (view_of self.old) j }
        requires block { IsWhole (held (view_of self.old) j) at }
        ensures block { MatchBool is_named (out.new ≡ (
          slice_index (held (view_of self.old) j) at,
          value_at (held (view_of self.old) j) at,
        )) (out.new ≡ out.old) }
        ensures size { result ≡ size_at (held (view_of self.old) j) at }
        ensures same { IsSame self.old self.new }
    {
        if !is_named {
            return self.size_at(j, at);
        }
        out.number = self.read(j, at);
        out.length = self.read_value(j, at, &mut out.bytes);
        block_size(out.length)
    }
}
