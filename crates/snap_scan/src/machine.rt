//! The state machine of a scan: it keeps the numbers of the first and of the latest looks.
ghost use Rattle.std.specs.Prelude.{◌≡◌, ℕ, ◌+◌, ◌^◌, ◌<◌, ◌≤◌, ◌↔◌, ◌==◌, ◌||◌, List, [], ◌∷◌, ◌++◌, length, not};
ghost use Rattle.std.specs.Prelude.{slice_index, slice_set, nat_lt, IsTrue, false, if◌then◌else◌};
ghost use Rattle.snap_scan.specs.Looks.{most_looks};

use crate::limits::MAX_SEGMENTS;
use crate::next::Next;

/// The most looks that a scan of `segments` segments makes: n(n + 2).
pub const fn most_looks(segments: usize) -> usize
    requires { segments ≤ MAX_SEGMENTS }
    ensures { result ≡ most_looks segments }
{
    segments * (segments + 2)
}

/// The state machine of a scan. It allocates nothing, and each number takes constant time.
#[derive(Drop)]
pub struct Machine {
    segments: usize,
    /// How many numbers it has got.
    pub(crate) looks: usize,
    /// The next step.
    pub(crate) next: Next,
    /// Whether the current collect has found another number than the one before. The first collect
    /// has none before it, and counts as changed.
    changed: bool,
    /// The number that each segment's first look found.
    first: [u64; MAX_SEGMENTS],
    /// The number that each segment's latest look found.
    latest: [u64; MAX_SEGMENTS],
}

impl Machine {
    ghost use Rattle.snap_scan.specs.Stands.{StandsFor, MayTell};

    /// A machine without any numbers.
    pub(crate) fn new(segments: usize) -> Machine
        requires least { 0 < segments }
        requires most { segments ≤ MAX_SEGMENTS }
        ensures size { result.segments ≡ segments }
        ensures first { result.next ≡ Next.Look 0 }
        ensures stands { StandsFor result [] }
    {
        Machine {
            segments,
            looks: 0,
            next: Next::Look(0),
            changed: true,
            first: [0; MAX_SEGMENTS],
            latest: [0; MAX_SEGMENTS],
        }
    }

    /// Records the number that a look found for `segment`, whose turn it was.
    pub(crate) fn told(&mut self, segment: usize, number: u64)
        requires turn { self.old.next ≡ Next.Look segment }
        requires stands { MayTell self.old segment number }
        ensures size { self.new.segments ≡ self.old.segments }
        ensures told { (told : List ℕ) → StandsFor self.old told → StandsFor self.new (told ++ number ∷ []) }
    {
        if self.has_moved_twice(segment, number) {
            self.looks += 1;
            self.next = Next::Borrow(segment);
            return;
        }
        self.keep(segment, number);
        if segment + 1 < self.segments {
            self.next = Next::Look(segment + 1);
        } else if self.changed {
            self.changed = false;
            self.next = Next::Look(0);
        } else {
            self.next = Next::Clean;
        }
    }

    /// Whether `number` is at least two above that of the segment's first look, in a later collect.
    fn has_moved_twice(&self, segment: usize, number: u64) -> bool
        requires { segment < length self.now.first }
        ensures { IsTrue result ↔ ((self.now.segments ≤ self.now.looks)
            × (slice_index self.now.first segment + 2 ≤ number)) }
    {
        self.looks >= self.segments && number.saturating_sub(self.first[segment]) >= 2
    }

    /// Stores a number that isn't a borrow.
    fn keep(&mut self, segment: usize, number: u64)
        requires place { segment < MAX_SEGMENTS }
        requires headroom { self.old.looks + 1 < 2 ^ 64 }
        ensures { self.new ≡ record self.old {
          looks = self.old.looks + 1;
          changed = self.old.changed || not (slice_index self.old.latest segment == number);
          first = (if nat_lt self.old.looks self.old.segments
              then slice_set self.old.first segment number else self.old.first);
          latest = slice_set self.old.latest segment number;
        } }
    {
        if self.looks < self.segments {
            self.first[segment] = number;
        }
        if self.latest[segment] != number {
            self.changed = true;
        }
        self.latest[segment] = number;
        self.looks += 1;
    }
}
