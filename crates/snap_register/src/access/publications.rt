//! Publications: a writer finds a free buffer, fills it, and makes it the current one.
ghost use Rattle.std.specs.Prelude.{◌-◌, ◌≡◌, ℕ, ◌+◌, ◌<◌, ◌≤◌, slice_index, [], IsTrue, IsFalse};
ghost use Rattle.snap_register.specs.declared.plan.UpdatePhase.TheVariants.{Storing, Stored};
ghost use Rattle.snap_history.specs.Limits.{IsNumber};
ghost use Rattle.snap_register.specs.Rule.{segments, seats, buffers, next_other, Publishes, Follows};
ghost use Rattle.snap_register.specs.Steps.{view_of, pool_of, draft_of, Owns, IsFree, IsSameSeat, HasPool};
ghost use Rattle.snap_register.specs.{History.entry, History.number, Rule.IsLegal};

use crate::access::{Access, PIN_RANGE};
use crate::plan::MAX_BUFFERS;
use crate::setup::{BeginStore, Check, EndStore, Publish};

impl Access {
    /// Notes that a store of the next update of segment `i` begins.
    pub(crate) fn begin_store(&mut self, i: usize)
        requires { i < segments (view_of self.old).plan }
        ensures phase { self.new.seat.me ≡ (record (view_of self.old) { phase = Storing }, self.old.seat.me.1) }
        ensures same { IsSameSeat self.old self.new }
    {
        self.table.shared.load::<BeginStore>(&mut self.seat, i);
    }

    /// Notes that this store has ended.
    pub(crate) fn end_store(&mut self, i: usize)
        requires { i < segments (view_of self.old).plan }
        ensures phase { self.new.seat.me ≡ (record (view_of self.old) { phase = Stored }, self.old.seat.me.1) }
        ensures same { IsSameSeat self.old self.new }
    {
        self.table.shared.load::<EndStore>(&mut self.seat, i);
    }

    /// Finds a free buffer of the seat's own register `i`: one that isn't current, and whose pins were all given back.
    /// There always is one, so the loop ends by its `return`.
    pub(crate) fn find_free(
        &mut self,
        i: usize,
        current: usize,
        counted: &[u64; MAX_BUFFERS],
    ) -> usize
        requires own { Owns (view_of self.old) i }
        requires current { (current ≡ (pool_of self.old).current) × (current < buffers (view_of self.old).plan)
            × ((pool_of self.old).found_pinned ≡ 0) × (draft_of self.old ≡ []) }
        requires counted { (b : ℕ) → b < buffers (view_of self.old).plan
            → slice_index counted.now b ≡ slice_index (pool_of self.old).counted b }
        ensures free { (result < buffers (view_of self.old).plan)
            × HasPool self.old self.new (record (pool_of self.old) {
              found_pinned = (pool_of self.new).found_pinned;
              free_buffer = result;
              draft = [];
            }) }
        ensures same { IsSameSeat self.old self.new }
    {
        let others = self.buffers() - 1;
        for k in 0..others {
            let b = if k < current { k } else { k + 1 };
            if self.check(i, b, counted[b]) {
                return b;
            }
        }
        unreachable!()
    }

    // Whether buffer `b`, the next that isn't current, is free, if `counted` pins were taken on it.
    fn check(&mut self, i: usize, b: usize, counted: u64) -> bool
        requires own { Owns (view_of self.old) i }
        requires buffer { (b ≡ next_other (pool_of self.old)) × (b < buffers (view_of self.old).plan)
            × (draft_of self.old ≡ []) }
        requires counted { counted ≡ slice_index (pool_of self.old).counted b }
        ensures free { IsTrue result → HasPool self.old self.new
            (record (pool_of self.old) { free_buffer = b; draft = [] }) }
        ensures held { IsFalse result → HasPool self.old self.new
            (record (pool_of self.old) { found_pinned = (pool_of self.old).found_pinned + 1 })
            × ((pool_of self.old).found_pinned + 1 ≤ seats (view_of self.old).plan) }
        ensures same { IsSameSeat self.old self.new }
    {
        let at = self.given(i, b);
        let found = self.table.shared.load::<Check>(&mut self.seat, at);
        found == counted
    }

    /// Makes the filled free buffer `b` the current one. Returns how many pins the old current word had counted.
    pub(crate) fn swap(&mut self, i: usize, current: usize, b: usize) -> u64
        requires own { Owns (view_of self.old) i }
        requires buffer { IsFree (view_of self.old) b }
        requires current { (current ≡ (pool_of self.old).current) × (current < buffers (view_of self.old).plan) }
        requires next { IsNumber (number (view_of self.old).plan (view_of self.old).seen i + 1) }
        requires view { IsLegal (view_of self.old).plan (view_of self.old).seen
            → Follows (view_of self.old).plan (view_of self.old).seen (entry i (draft_of self.old)) }
        ensures shown { Publishes (view_of self.old) (view_of self.new) i result }
        ensures same { IsSameSeat self.old self.new × (self.new.seat.me.1 ≡ self.old.seat.me.1) }
    {
        let found = self
            .table
            .shared
            .swap::<Publish>(&mut self.seat, i, b as u64 * PIN_RANGE);
        found - current as u64 * PIN_RANGE
    }
}
