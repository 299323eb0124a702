//! The two kinds of seat, and their common trait.
ghost use Rattle.std.specs.Prelude.{◌≡◌, ℕ, ◌+◌, ◌<◌, ◌≤◌, ◌++◌, ◌∷◌, length, take, [], IsTrue, IfOk, ◌↔◌, slice_get};
ghost use Rattle.snap_history.specs.Limits.{IsNumber, IsShort};
ghost use Rattle.snap_history.specs.declared.limits.TheConstants.{MAX_COUNT, MAX_VALUE_LEN};
ghost use Rattle.snap_scan.specs.{Looks.most_looks, Sets.Names};
ghost use Rattle.snap_register.specs.Seat.{Known, own_of, number_in, IsBelow, AreTogether, Grows, Meets, Looks};
ghost use Rattle.snap_register.specs.Seat.{HasLooked, HasFoundUpdate, IsValue, IsView, MayPublish, Shows};
ghost use Rattle.snap_register.specs.Steps.{view_of, known_of, pool_of, Owns};
ghost use Rattle.snap_register.specs.{History.start_at, Rule.segments, Setup.IsPool, Setup.first_pool};

use crate::access::Access;
use crate::plan::{MAX_BUFFERS, UpdatePhase};
use crate::snapshot::SnapshotBuf;
use crate::view::View;
use bytes::Bytes;
use snap_scan::{SegmentSet, most_looks};
use std::alloc::{AllocError, Global};
use std::marker::Model;

/// The operations of both kinds of seat. A seat has a list of the updates that it has seen. The
/// lists of all seats of one opening are beginnings of one history.
pub trait Looker {
    // The seat's knowledge of the registers.
    ghost known: { Self → Known };

    /// How many looks it has left. Each look takes one, and nothing else does.
    fn looks_left(&self) -> u64
        ensures left { result ≡ (known self.now).left };

    /// How many segments there are.
    fn segments(&self) -> usize
        ensures count { result ≡ segments (known self.now).plan }
        ensures some { (0 < result) × (result ≤ MAX_COUNT) };

    /// Whether the seat has looked at segment `j`.
    fn has_looked(&self, j: usize) -> bool
        requires segment { j < segments (known self.now).plan }
        ensures looked { IsTrue result ↔ HasLooked (known self.now) j };

    /// Looks at segment `j`, without waiting: the seat sees all updates in the history at this moment. Returns the
    /// number of `j` among them. The record found can't change before the seat's next look there. The look is appended
    /// to the list of what the seat had seen at each of its looks.
    fn look(&mut self, j: usize) -> u64
        requires segment { j < segments (known self.old).plan }
        requires left { 0 < (known self.old).left }
        ensures seen { Grows (known self.old) (known self.new) }
        ensures below { IsBelow (known self.new) }
        ensures number { result ≡ number_in (known self.new) (known self.new).seen j }
        ensures looked { Looks (known self.old) (known self.new) j result }
        ensures look_records { (known self.new).look_records
            ≡ (known self.old).look_records ++ (known self.new).seen ∷ [] }
        ensures left { (known self.new).left + 1 ≡ (known self.old).left };

    /// Copies the value of `j` that the last look found to the front of `out`. Returns its length.
    fn value(&mut self, j: usize, out: &mut [u8]) -> usize
        requires segment { j < segments (known self.old).plan }
        requires looked { HasLooked (known self.old) j }
        requires room { MAX_VALUE_LEN ≤ length out.old }
        ensures value { IsValue (known self.old) j (take result out.new) }
        ensures size { result ≤ MAX_VALUE_LEN }
        ensures same { known self.new ≡ known self.old };

    /// The value of `j` that the last look found, in new memory.
    fn value_bytes(&mut self, alloc: Global, j: usize) -> Result<Bytes, AllocError>
        requires segment { j < segments (known self.old).plan }
        requires looked { HasLooked (known self.old) j }
        ensures value { IfOk result (λ v. IsValue (known self.old) j v) }
        ensures size { IfOk result (λ v. IsShort v) }
        ensures same { known self.new ≡ known self.old };

    /// Writes into `out`, for each segment in `set`, the entry of the view found by the last look
    /// at `j`: the memory that the scan inside that update found. Other entries of `out` stay.
    fn view(&mut self, j: usize, set: SegmentSet, out: &mut SnapshotBuf)
        requires segment { j < segments (known self.old).plan }
        requires updated { HasFoundUpdate (known self.old) j }
        requires room { length out.old ≡ segments (known self.old).plan }
        ensures view { IsView (known self.old) j set.bits out.new }
        ensures others { (i : ℕ) → (Names set.bits i → ⊥) → slice_get out.new i ≡ slice_get out.old i }
        ensures same { known self.new ≡ known self.old };
}

/// A seat that only looks.
#[derive(Drop)]
pub struct ReadSeat {
    access: Access,
}

impl Model for ReadSeat {
    ghost use Rattle.std.specs.Prelude.{◌≡◌, []};
    ghost use Rattle.snap_register.specs.{Seat.Known, Steps.view_of, Steps.known_of};

    ghost Value = { Known };

    ghost view = { λ s. known_of s.access };

    ghost invariant = { λ s. ((view_of s.access).low ≡ 0) × ((view_of s.access).high ≡ 0) };
}

impl Looker for ReadSeat {
    ghost known = { λ s. s };

    fn looks_left(&self) -> u64 {
        self.access.left
    }

    fn segments(&self) -> usize {
        self.access.segments
    }

    fn has_looked(&self, j: usize) -> bool {
        self.access.has_looked(j)
    }

    fn look(&mut self, j: usize) -> u64 {
        self.access.look(j)
    }

    fn value(&mut self, j: usize, out: &mut [u8]) -> usize {
        self.access.value(j, out)
    }

    fn value_bytes(&mut self, alloc: Global, j: usize) -> Result<Bytes, AllocError> {
        self.access.value_bytes(alloc, j)
    }

    fn view(&mut self, j: usize, set: SegmentSet, out: &mut SnapshotBuf) {
        self.access.view(j, set, out);
    }
}

impl ReadSeat {
    pub(crate) fn of(access: Access) -> ReadSeat
        requires { ((view_of access).low ≡ 0) × ((view_of access).high ≡ 0) }
        ensures { result ≡ known_of access }
    {
        ReadSeat { access }
    }

    /// Joins what both seats have seen. Afterwards both have seen all that either had, and all that was in the history
    /// at one moment of this call. It isn't a look, and both seats keep their looks.
    pub fn meet(&mut self, writer: &mut WriteSeat)
        requires together { AreTogether self.old writer.old }
        ensures scanner { Meets self.old self.new }
        ensures writer { Meets writer.old writer.new }
        ensures met { self.new.seen ≡ writer.new.seen }
        ensures below { IsBelow self.new }
    {
        self.access.meet(&mut writer.access);
    }
}

/// The seat of a segment's only writer.
#[derive(Drop)]
pub struct WriteSeat {
    access: Access,
    segment: usize,
    number: u64,
    /// The current buffer.
    current: usize,
    /// How many pins were counted for each buffer.
    counted: [u64; MAX_BUFFERS],
    /// The number of the record that the seat put into each buffer; 0 if none.
    filled: [u64; MAX_BUFFERS],
}

impl Model for WriteSeat {
    ghost use Rattle.snap_register.specs.{Setup.IsPool, Seat.Known, Steps.known_of};

    ghost Value = { Known };

    ghost view = { λ s. known_of s.access };

    ghost invariant = { λ s. IsPool s.segment s.number s.current s.counted s.filled s.access.seat.me };
}

impl Looker for WriteSeat {
    ghost known = { λ s. s };

    fn looks_left(&self) -> u64 {
        self.access.left
    }

    fn segments(&self) -> usize
        ensures count { result ≡ segments self.now.plan }
        ensures some { (0 < result) × (result ≤ MAX_COUNT) }
        ensures alone { self.now.high ≡ self.now.low + 1 }
    {
        self.access.segments
    }

    fn has_looked(&self, j: usize) -> bool {
        self.access.has_looked(j)
    }

    fn look(&mut self, j: usize) -> u64 {
        self.access.look(j)
    }

    fn value(&mut self, j: usize, out: &mut [u8]) -> usize {
        self.access.value(j, out)
    }

    fn value_bytes(&mut self, alloc: Global, j: usize) -> Result<Bytes, AllocError> {
        self.access.value_bytes(alloc, j)
    }

    fn view(&mut self, j: usize, set: SegmentSet, out: &mut SnapshotBuf) {
        self.access.view(j, set, out);
    }
}

impl WriteSeat {
    pub(crate) fn of(access: Access, segment: usize, number: u64) -> WriteSeat
        requires role { Owns (view_of access) segment }
        requires number { (number ≡ (start_at (view_of access).plan segment).number) × ((view_of access).seen ≡ []) }
        requires pool { pool_of access ≡ first_pool (view_of access).plan }
        ensures { result ≡ known_of access }
    {
        WriteSeat {
            access,
            segment,
            number,
            current: 0,
            counted: [0; MAX_BUFFERS],
            filled: [0; MAX_BUFFERS],
        }
    }

    /// The one segment that it writes.
    pub fn segment(&self) -> usize
        ensures own { result ≡ own_of self.now }
        ensures inside { result < segments self.now.plan }
        ensures alone { self.now.high ≡ self.now.low + 1 }
    {
        self.segment
    }

    /// The number of its segment.
    pub fn number(&self) -> u64
        ensures number { result ≡ number_in self.now self.now.seen (own_of self.now) }
    {
        self.number
    }

    /// Whether enough looks are left for any scan of all segments ([`most_looks`]).
    pub fn can_scan(&self) -> bool
        ensures { IsTrue result ↔ (most_looks (segments self.now.plan) ≤ self.now.left) }
    {
        self.access.left >= most_looks(self.access.segments) as u64
    }

    /// Notes in the registers that a store of the next update begins: until [`end_store`](WriteSeat::end_store) a crash
    /// may leave that update in the writer's file, or what was shown last.
    pub fn begin_store(&mut self)
        ensures begun { self.new ≡ record self.old { phase = UpdatePhase.Storing } }
    {
        self.access.begin_store(self.segment);
    }

    /// Notes in the registers that the writer's file has the next update.
    pub fn end_store(&mut self)
        requires storing { self.old.phase ≡ UpdatePhase.Storing }
        ensures stored { self.new ≡ record self.old { phase = UpdatePhase.Stored } }
    {
        self.access.end_store(self.segment);
    }

    /// Shows an update of the seat's segment to `value`, with this view, and returns its number. The update is in the
    /// history from one moment of this call on. There always is a free buffer, so it never waits and never fails.
    pub fn publish(&mut self, value: &[u8], view: &View) -> u64
        requires size { IsShort value.now }
        requires next { IsNumber (number_in self.old self.old.seen (own_of self.old) + 1) }
        requires view { MayPublish self.old view.now }
        requires stored { self.old.phase ≡ UpdatePhase.Stored }
        ensures shown { Shows self.old self.new value.now }
        ensures below { IsBelow self.new }
        ensures number { result ≡ number_in self.new self.new.seen (own_of self.new) }
    {
        let (i, current, next) = (self.segment, self.current, self.number + 1);
        let b = self.access.find_free(i, current, &self.counted);
        let is_filled = self.filled[b] > 0;
        let end = self.access.draft_value(i, b, next, value, is_filled);
        self.access.copy_view(i, b, end, view);
        self.counted[current] += self.access.swap(i, current, b);
        self.current = b;
        self.filled[b] = next;
        self.number = next;
        next
    }
}
