//! The limits of a scan.
use snap_history::MAX_COUNT;

/// The most segments that a scan reads.
pub const MAX_SEGMENTS: usize = MAX_COUNT as usize;
