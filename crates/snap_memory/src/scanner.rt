//! A scanner.
ghost use Rattle.std.specs.Prelude.{◌≡◌, ℕ, ◌+◌, ◌<◌, ◌≤◌, [], ◌∷◌, ◌++◌, length, map, take, OnOk, OnErr, IfOk};
ghost use Rattle.std.specs.Prelude.{IfErr, IsTrue, ◌↔◌, All};
ghost use Rattle.snap_history.specs.Limits.{IsShort};
ghost use Rattle.snap_history.specs.declared.limits.TheConstants.{MAX_COUNT, MAX_VALUE_LEN};
ghost use Rattle.snap_register.specs.Rule.{segments};
ghost use Rattle.snap_register.specs.Seat.{Grows, Meets, IsBelow, AreTogether, number_in, value_in};
ghost use Rattle.snap_scan.specs.{Looks.most_looks, Sets.size, Values.pair_of};
ghost use Rattle.snap_memory.specs.Scans.{IsSnapshot, IsPart, HasPart, KeepsOthers, IsSetOf, HasLooks, CanScan};
ghost use Rattle.snap_memory.specs.Scans.{TakesLooks, TakesLooksOf, MayRefuse};
ghost use Rattle.snap_disk.specs.declared.refusal.Refusal.{Refusal};

use crate::looks::scan_some;
use crate::scan_cache::{ScanCache, empty_cache, scan_kept};
use crate::snapshot::Snapshot;
use snap_disk::Refusal;
use snap_history::MAX_VALUE_LEN;
use snap_register::{Looker, ReadSeat, WriteSeat};
use snap_scan::{SegmentSet, SegmentValue, most_looks};
use std::alloc::{AllocError, Global};
use std::marker::Model;
use std::mem;

/// A scanner on a seat of its own. It is wait-free. Only [`Scanner::scan`] may allocate.
#[derive(Drop)]
pub struct Scanner {
    seat: ReadSeat,
    cache: ScanCache,
}

impl Model for Scanner {
    ghost use Rattle.snap_register.specs.Seat.{Known};
    ghost use Rattle.snap_memory.specs.ScanCaches.{Fits};

    ghost Value = { Known };

    ghost view = { λ s. s.seat };

    ghost invariant = { λ s. Fits s.seat s.cache };
}

impl Scanner {
    /// A scanner on this seat, without a cache.
    pub fn new(seat: ReadSeat) -> Scanner
        ensures { result ≡ seat }
    {
        Scanner {
            seat,
            cache: ScanCache::Absent,
        }
    }

    /// How many segments there are, 1 to 16.
    pub fn segments(&self) -> usize
        ensures count { result ≡ segments self.now.plan }
        ensures some { (0 < result) × (result ≤ MAX_COUNT) }
    {
        self.seat.segments()
    }

    /// How many looks it has left.
    pub fn looks_left(&self) -> u64
        ensures { result ≡ self.now.left }
    {
        self.seat.looks_left()
    }

    /// Fills `out` with the number and the value of each segment, all of one moment. This is the memory after a list of
    /// updates that begins with all that the scanner had seen before this call and with all that was in the history at
    /// the first look of this call, and that is a beginning of all that the scanner has seen afterwards. Uses up looks.
    ///
    /// Returns `Worn`, and changes nothing, if fewer looks are left than a scan might take ([`most_looks`]).
    pub fn scan_into(&mut self, out: &mut Snapshot) -> Result<(), Refusal>
        requires room { length out.old ≡ segments self.old.plan }
        ensures enough { OnOk result (CanScan self.old) }
        ensures worn { IfErr result (λ why. (why ≡ Refusal.Worn)
            × (self.old.left < most_looks (segments self.old.plan))) }
        ensures snapshot { OnOk result (IsSnapshot self.old self.new out.new) }
        ensures seen { OnOk result (Grows self.old self.new) }
        ensures below { OnOk result (IsBelow self.new) }
        ensures left { OnOk result (TakesLooks self.old self.new) }
        ensures kept { OnErr result (out.new ≡ out.old) }
        ensures unchanged { OnErr result (self.new ≡ self.old) }
    {
        self.scan_some(SegmentSet::all(self.segments()), out)
    }

    /// Writes into `out` the number and the value of each segment in `set`, all of one moment, as
    /// [`Scanner::scan_into`] does for all segments. The other entries of `out` stay.
    ///
    /// `set` names at least one segment, and only existing ones. Returns `Worn`, and changes nothing, if fewer looks
    /// are left than such a scan might take ([`most_looks`]).
    pub fn scan_some(&mut self, set: SegmentSet, out: &mut Snapshot) -> Result<(), Refusal>
        requires set { IsSetOf self.old set.bits }
        requires room { length out.old ≡ segments self.old.plan }
        ensures enough { OnOk result (HasLooks (size set.bits) self.old) }
        ensures worn { IfErr result (λ why. (why ≡ Refusal.Worn) × (self.old.left < most_looks (size set.bits))) }
        ensures part { OnOk result (HasPart set.bits self.old self.new out.new) }
        ensures others { KeepsOthers set.bits out.old out.new }
        ensures seen { OnOk result (Grows self.old self.new) }
        ensures below { OnOk result (IsBelow self.new) }
        ensures left { OnOk result (TakesLooksOf (size set.bits) self.old self.new) }
        ensures kept { OnErr result (out.new ≡ out.old) }
        ensures unchanged { OnErr result (self.new ≡ self.old) }
    {
        if self.looks_left() < most_looks(set.len()) as u64 {
            return Err(Refusal::Worn);
        }
        scan_some(&mut self.seat, set, &mut out.buf);
        Ok(())
    }

    /// The number and the value of each segment in `set`, in ascending order, all of one moment, as
    /// [`Scanner::scan_some`] gives them, in memory of their own. Values are cached and shared with the answer, so a
    /// segment whose number hasn't changed isn't read again: a number has one value. The looks are always new, so the
    /// answer has all that was in the history at the first look of this call.
    ///
    /// `set` and the error `Worn` are as there. `NoMemory` if memory runs out, before the first look or after the last.
    pub fn scan(&mut self, alloc: Global, set: SegmentSet) -> Result<Vec<SegmentValue>, Refusal>
        requires set { IsSetOf self.old set.bits }
        ensures enough { OnOk result (HasLooks (size set.bits) self.old) }
        ensures refused { IfErr result (λ why. MayRefuse (size set.bits) self.old why self.new) }
        ensures part { IfOk result (λ values. IsPart set.bits self.old self.new (map pair_of values.items)) }
        ensures short { IfOk result (λ values. All (λ v. IsShort v.value) values.items) }
        ensures seen { OnOk result (Grows self.old self.new) }
        ensures below { OnOk result (IsBelow self.new) }
        ensures left { OnOk result (TakesLooksOf (size set.bits) self.old self.new) }
    {
        if self.looks_left() < most_looks(set.len()) as u64 {
            return Err(Refusal::Worn);
        }
        let mut cache = match mem::replace(&mut self.cache, ScanCache::Absent) {
            ScanCache::Kept(cache) => cache,
            ScanCache::Absent => match empty_cache(alloc, self.seat.segments()) {
                Ok(cache) => cache,
                Err(AllocError) => return Err(Refusal::NoMemory),
            },
        };
        let values = scan_kept(alloc, &mut self.seat, set, &mut cache);
        self.cache = ScanCache::Kept(cache);
        values.map_err(|_| Refusal::NoMemory)
    }

    /// One look: returns the number of segment `j` and the length of its value, which is at the front of `value`.
    pub fn read_one(&mut self, j: usize, value: &mut [u8; MAX_VALUE_LEN]) -> (u64, usize)
        requires segment { j < segments self.old.plan }
        requires left { 0 < self.old.left }
        ensures seen { Grows self.old self.new }
        ensures below { IsBelow self.new }
        ensures number { result.0 ≡ number_in self.new self.new.seen j }
        ensures value { take result.1 value.new ≡ value_in self.new self.new.seen j }
        ensures size { result.1 ≤ MAX_VALUE_LEN }
        ensures look_records { self.new.look_records ≡ self.old.look_records ++ self.new.seen ∷ [] }
        ensures left { self.new.left + 1 ≡ self.old.left }
    {
        let number = self.seat.look(j);
        let length = self.seat.value(j, value);
        (number, length)
    }

    /// Joins what the scanner and the writer have seen. Afterwards both have seen all that either
    /// had, and all that was in the history at one moment of this call. So the scanner's next scan
    /// has all that the writer has shown. It isn't a look.
    pub fn meet(&mut self, writer: &mut WriteSeat)
        requires together { AreTogether self.old writer.old }
        ensures scanner { Meets self.old self.new }
        ensures writer { Meets writer.old writer.new }
        ensures met { self.new.seen ≡ writer.new.seen }
        ensures below { IsBelow self.new }
    {
        self.seat.meet(writer);
    }
}
