//! Meetings: two seats share what they have seen.
ghost use Rattle.std.specs.Prelude.{◌≡◌, ℕ, ◌<◌};
ghost use Rattle.snap_register.specs.Steps.{view_of};
ghost use Rattle.snap_register.specs.{History.only, Rule.Has, Rule.IsBelow};
ghost use mathlib.Core.List.{IsPrefix};

use crate::access::Access;
use crate::setup::{CatchUp, JoinAnswer, JoinMessage, SplitMessenger};

impl Access {
    /// Joins what both seats have seen: afterwards this seat, which writes nothing, has seen what
    /// the other has, all that either had seen. It isn't a look.
    pub(crate) fn meet(&mut self, other: &mut Access)
        requires { (other.old.seat.table_id ≡ self.old.seat.table_id)
            × ((view_of other.old).plan ≡ (view_of self.old).plan)
            × ((view_of self.old).low ≡ 0) × ((view_of self.old).high ≡ 0) }
        ensures me { (self.new.seat.table_id ≡ self.old.seat.table_id)
            × (self.new.seat.me ≡ (
              record (view_of self.old) { seen = (view_of other.new).seen },
              self.old.seat.me.1,
            ))
            × (self.new.left ≡ self.old.left) }
        ensures received { IsPrefix (view_of self.old).seen (view_of other.new).seen }
        ensures other { (other.new.seat.table_id ≡ other.old.seat.table_id)
            × (other.new.seat.me ≡ (
              record (view_of other.old) { seen = (view_of other.new).seen },
              other.old.seat.me.1,
            ))
            × (other.new.left ≡ other.old.left) }
        ensures seen { IsPrefix (view_of other.old).seen (view_of other.new).seen }
        ensures own { (i : ℕ) → Has (view_of other.old) i
            → only i (view_of other.new).seen ≡ only i (view_of other.old).seen }
        ensures below { IsBelow (view_of other.new).plan (view_of other.new).seen }
    {
        let messenger = self
            .table
            .shared
            .split_seat::<SplitMessenger>(&mut self.seat);
        other
            .table
            .shared
            .join_seat::<JoinMessage>(&mut other.seat, messenger);
        other.table.shared.load::<CatchUp>(&mut other.seat, 0);
        let answer = other
            .table
            .shared
            .split_seat::<SplitMessenger>(&mut other.seat);
        self.table
            .shared
            .join_seat::<JoinAnswer>(&mut self.seat, answer);
    }
}
