//! The types in the rule of the pins: the table's plan, updates, and what each seat knows.

use snap_history::MAX_SCANNERS;
use snap_scan::MAX_SEGMENTS;

/// The most buffers of a register: one for each seat's pin, the current one, and a free one.
pub(crate) const MAX_BUFFERS: usize = MAX_SEGMENTS + MAX_SCANNERS + 2;

/// A segment at the start: its number, and the words of its number, length and value.
#[derive(Drop)]
pub struct Opening {
    pub number: u64,
    pub words: Vec<u64>,
}

// All following types exist for proofs; no value of them is ever made.
/// The number of a segment at the start, and the first words of its first record.
pub struct Start {
    pub number: u64,
    pub words: [u64; 0],
}

/// An update: its segment, and the words of its record.
pub struct Entry {
    pub segment: u64,
    pub words: [u64; 0],
}

/// The updates that a seat had seen at one of its looks.
pub struct LookRecord {
    pub seen: [Entry; 0],
}

/// The sizes of a table and its start. A clause reads an array as a list, of any length.
pub struct Plan {
    pub scanners: u64,
    /// How many looks each seat has at the start.
    pub looks: u64,
    /// How many words the longest block takes: a number, a length and a value.
    pub block_words: u64,
    pub start: [Start; 0],
}

/// A writer's knowledge of its register's buffers.
pub struct BufferPool {
    /// The current buffer.
    pub current: u64,
    /// How many of the other buffers, in order, it has found pinned.
    pub found_pinned: u64,
    /// The buffer that it has found free; the number of buffers if none.
    pub free_buffer: u64,
    /// The pins counted for each buffer.
    pub counted: [u64; 0],
    /// The words drafted in the free buffer, from its first.
    pub draft: [u64; 0],
    /// For each buffer which of the seat's updates its record is of, counted from 1; 0 where that isn't known.
    pub records: [u64; 0],
}

/// How far a writer's file is ahead of what its seat has shown.
pub enum UpdatePhase {
    /// The file has what was shown last.
    Shown,
    /// A store of the next update was begun: it is in progress, or has failed.
    Storing,
    /// The file has the next update, which isn't shown yet.
    Stored,
}

/// A seat's knowledge.
pub struct SeatView {
    pub plan: Plan,
    /// Whether this view was joined to another's.
    pub spent: bool,
    pub seen: [Entry; 0],
    /// The updates seen by the seat whose view was joined to this one; until the next look.
    pub received: [Entry; 0],
    /// The seat writes the segments from `low` on and below `high`.
    pub low: u64,
    pub high: u64,
    /// Of its segments below this one it has seen all updates; of the others it has received them.
    pub seen_end: u64,
    /// The pool is that of its segments below this one.
    pub pool_end: u64,
    pub pool: BufferPool,
    /// How many pins it may have on a register.
    pub pin_quota: u64,
    /// How many looks it has left.
    pub left: u64,
    /// For each register the index of the pinned buffer, plus 1; or 0.
    pub pins: [u64; 0],
    /// For each register which record the pinned buffer holds.
    pub records: [u64; 0],
    /// The updates it had seen at each of its looks, in order.
    pub look_records: [LookRecord; 0],
    pub phase: UpdatePhase,
}
