//! A seat with its table, and the places of the table's words. The folder has its operations:
//! looks, drafts of updates, publications, and meetings.
ghost use Rattle.std.specs.Prelude.{◌≡◌, ◌<◌, IsTrue, ◌↔◌};
ghost use Rattle.snap_register.specs.Rule.{segments, buffers, width, given, cell};
ghost use Rattle.snap_register.specs.Setup.{IsSized, IsSeated};

mod draft;
mod looks;
mod meetings;
mod publications;

use crate::setup::{TableSeat, WordTable};
use snap_scan::MAX_SEGMENTS;
use std::alloc::Global;
use std::sync::Arc;

/// The factor of the buffer's index in a current word; its pins are added.
pub(crate) const PIN_RANGE: u64 = 1 << 56;

/// A seat, its table, and the table's sizes.
#[derive(Drop)]
pub(crate) struct Access {
    pub(crate) table: Arc<WordTable, Global>,
    pub(crate) seat: TableSeat,
    pub(crate) segments: usize,
    pub(crate) scanners: usize,
    pub(crate) block_words: usize,
    pub(crate) words: usize,
    /// For each register the index of the pinned buffer, plus 1; or 0.
    pub(crate) pins: [u64; MAX_SEGMENTS],
    pub(crate) left: u64,
    ghost own: { seat.table_id ≡ table.value.shared.table_id },
    ghost sized: { IsSized segments scanners block_words words seat.me.0.plan },
    ghost seated: { IsSeated seat.table_id.words pins left seat.me },
}

impl Access {
    ghost use Rattle.snap_register.specs.{Seat.HasLooked, Steps.view_of, Steps.known_of};

    /// Whether the seat has looked at `j`; that buffer is still pinned.
    pub(crate) fn has_looked(&self, j: usize) -> bool
        requires { j < segments (view_of self.now).plan }
        ensures { IsTrue result ↔ HasLooked (known_of self.now) j }
    {
        self.pins[j] > 0
    }

    /// How many buffers a register has.
    pub(crate) fn buffers(&self) -> usize
        ensures { result ≡ buffers (view_of self.now).plan }
    {
        self.segments + self.scanners + 2
    }

    /// How many words a buffer has.
    pub(crate) fn width(&self) -> usize
        ensures { result ≡ width (view_of self.now).plan }
    {
        (self.segments + 1) * self.block_words
    }

    /// The place of the given-back count of buffer `b` of register `i`.
    pub(crate) fn given(&self, i: usize, b: usize) -> usize
        requires { (i < segments (view_of self.now).plan) × (b < buffers (view_of self.now).plan) }
        ensures { (result ≡ given (view_of self.now).plan i b) × (result < self.now.seat.table_id.words) }
    {
        let _words = self.words;
        let buffers = self.buffers();
        self.segments + (i * buffers + b)
    }

    /// The place of word `q` of buffer `b` of register `i`.
    pub(crate) fn cell(&self, i: usize, b: usize, q: usize) -> usize
        requires { (i < segments (view_of self.now).plan) × (b < buffers (view_of self.now).plan)
            × (q < width (view_of self.now).plan) }
        ensures { (result ≡ cell (view_of self.now).plan i b q) × (result < self.now.seat.table_id.words) }
    {
        let _words = self.words;
        let buffers = self.buffers();
        let width = self.width();
        self.segments + (self.segments * buffers + ((i * buffers + b) * width + q))
    }
}
