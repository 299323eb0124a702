//! One scan, from its start to its answer.
ghost use Rattle.std.specs.Prelude.{◌≡◌, ℕ, ◌-◌, ◌^◌, ◌<◌, ◌≤◌, List, [], ◌∷◌, ◌++◌, length, take};
ghost use Rattle.std.specs.Borrow.{ftrue};
ghost use Rattle.snap_scan.specs.{Looks.IsNoFall, Sets.named, Sets.size, Sets.IsAt, Course.IsNext};

use crate::limits::MAX_SEGMENTS;
use crate::machine::Machine;
use crate::next::Next;
use crate::set::SegmentSet;
use std::marker::Model;

/// A scan of some segments: look at the segment that [`Scan::next`] returns, pass its number to [`Scan::told`], and
/// repeat until `next` is `Clean` or `Borrow`. It allocates nothing.
///
/// Its contracts see the set of its segments, the list of all numbers in order, and the next step.
/// If the set names m segments, look t is at the segment at place t mod m of the set.
#[derive(Drop)]
pub struct Scan {
    set: SegmentSet,
    segments: Segments,
    machine: Machine,
    numbers: NumberList,
}

impl Model for Scan {
    ghost use Rattle.snap_scan.specs.Course.{Course};

    ghost Value = { Course };

    ghost use Rattle.snap_scan.specs.Stands.{StandsFor, IsOf, next_at};

    ghost view = { λ s. record {
      set = s.set.bits;
      told = s.numbers.list;
      next = next_at s.set.bits s.machine.next;
    } };

    ghost invariant = { λ s. StandsFor s.machine s.numbers.list × IsOf s.segments s.machine s.set };
}

impl Scan {
    /// A scan of the segments in `set`, at least one, before any look. Its first look is at the lowest.
    pub fn of(set: SegmentSet) -> Scan
        requires some { 0 < set.bits }
        ensures set { result.set ≡ set.bits }
        ensures told { result.told ≡ [] }
        ensures next { IsNext result.set result.told result.next }
    {
        let segments = Segments::of(set);
        Scan {
            set,
            machine: Machine::new(segments.count),
            segments,
            numbers: NumberList::none(),
        }
    }

    /// A scan of segments 0 to `segments` - 1, before any look. `segments` is 1 to [`MAX_SEGMENTS`].
    pub fn new(segments: usize) -> Scan
        requires least { 0 < segments }
        requires most { segments ≤ MAX_SEGMENTS }
        ensures set { result.set ≡ 2 ^ segments - 1 }
        ensures told { result.told ≡ [] }
        ensures next { IsNext result.set result.told result.next }
    {
        Scan::of(SegmentSet::all(segments))
    }

    /// The next step: an answer exactly if the numbers so far decide one, else the next look. There
    /// are at most [`most_looks`](crate::most_looks) looks.
    pub fn next(&self) -> Next
        ensures same { result ≡ self.now.next }
        ensures decides { IsNext self.now.set self.now.told result }
    {
        match self.machine.next {
            Next::Look(place) => Next::Look(self.segments.list[place]),
            Next::Clean => Next::Clean,
            Next::Borrow(place) => Next::Borrow(self.segments.list[place]),
        }
    }

    /// How many looks the scan has recorded.
    pub fn looks(&self) -> usize
        ensures { result ≡ length self.now.told }
    {
        self.machine.looks
    }

    /// Records the number that a look found for `segment`, whose turn it is. No number may fall.
    pub fn told(&mut self, segment: usize, number: u64)
        requires turn { self.old.next ≡ Next.Look segment }
        requires rising { (p : ℕ) → IsAt self.old.set p segment → IsNoFall (size self.old.set) self.old.told p number }
        ensures set { self.new.set ≡ self.old.set }
        ensures told { self.new.told ≡ self.old.told ++ number ∷ [] }
        ensures next { IsNext self.new.set self.new.told self.new.next }
    {
        let _segment = segment;
        let Next::Look(place) = self.machine.next else {
            unreachable!()
        };
        self.machine.told(place, number);
        self.numbers = self.numbers.then(&number);
    }
}

/// The segments of a set, by their places in it.
#[derive(Drop)]
pub struct Segments {
    pub(crate) count: usize,
    pub(crate) list: [usize; MAX_SEGMENTS],
}

impl Segments {
    /// The segments of `set`.
    pub(crate) fn of(set: SegmentSet) -> Segments
        ensures list { take result.count result.list ≡ named set.bits }
        ensures count { result.count ≡ size set.bits }
    {
        let mut count = 0;
        let mut list = [0; MAX_SEGMENTS];
        for segment in 0..MAX_SEGMENTS {
            if set.has(segment) {
                list[count] = segment;
                count += 1;
            }
        }
        Segments { count, list }
    }
}

/// The numbers found so far, in order. The list exists in proofs alone, and takes no memory.
#[derive(Drop)]
pub struct NumberList {
    pub ghost list: { List ℕ },
}

impl Model for NumberList {
    ghost also_owns = { λ _. ftrue };
}

impl NumberList {
    /// An empty list.
    pub(crate) fn none() -> NumberList
        ensures { result.list ≡ [] }
    {
        NumberList {}
    }

    /// This list with one number more.
    pub(crate) fn then(&self, _number: &u64) -> NumberList
        ensures { result.list ≡ self.now.list ++ _number.now ∷ [] }
    {
        NumberList {}
    }
}
