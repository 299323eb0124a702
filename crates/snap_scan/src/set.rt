//! The set of segments that a scan reads.
ghost use Rattle.std.specs.Prelude.{◌≡◌, ◌-◌, ◌^◌, ◌<◌, ◌≤◌, ◌↔◌, IsTrue};
ghost use Rattle.snap_history.specs.declared.limits.TheConstants.{MAX_COUNT};
ghost use Rattle.snap_scan.specs.Sets.{Names, size};

use crate::scan::Segments;

/// A set of segments 0 to 15: bit i is set if the set names segment i.
#[derive(Clone, Copy, Debug, PartialEq, Eq, Drop)]
pub struct SegmentSet {
    pub bits: u16,
}

impl SegmentSet {
    /// Segments 0 to `segments` - 1, at most [`MAX_SEGMENTS`](crate::MAX_SEGMENTS) of them.
    pub fn all(segments: usize) -> SegmentSet
        requires most { segments ≤ MAX_COUNT }
        ensures all { result.bits ≡ 2 ^ segments - 1 }
    {
        SegmentSet {
            bits: ((1u32 << segments) - 1) as u16,
        }
    }

    /// Whether the set names `segment`, which is below [`MAX_SEGMENTS`](crate::MAX_SEGMENTS).
    pub fn has(self, segment: usize) -> bool
        requires segment { segment < MAX_COUNT }
        ensures names { IsTrue result ↔ Names self.bits segment }
    {
        self.bits >> segment & 1 == 1
    }

    /// Whether the set names no segment.
    pub fn is_empty(self) -> bool
        ensures none { IsTrue result ↔ (self.bits ≡ 0) }
    {
        self.bits == 0
    }

    /// Whether all named segments are below `segments`, which is at most [`MAX_SEGMENTS`](crate::MAX_SEGMENTS).
    pub fn is_among(self, segments: usize) -> bool
        requires most { segments ≤ MAX_COUNT }
        ensures below { IsTrue result ↔ (self.bits < 2 ^ segments) }
    {
        u32::from(self.bits) < 1u32 << segments
    }

    /// How many segments the set names.
    pub fn len(self) -> usize
        ensures size { result ≡ size self.bits }
    {
        Segments::of(self).count
    }
}
