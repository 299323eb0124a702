//! The age and rate of each segment, from the numbers that a watch has seen.

use crate::watch::exchange::Row;
use std::alloc::{AllocError, Global};

/// The least time over which a rate is taken, once that much has passed, in milliseconds.
const SPAN: u64 = 5_000;

/// A number that was seen, and when, in milliseconds since the watch began.
#[derive(Clone, Copy)]
struct SeenNumber {
    at: u64,
    number: u64,
}

/// The history of one segment's number, as far as its age and rate need it.
#[derive(Clone, Copy)]
pub struct Track {
    segment: usize,
    /// When the number was last seen to change. `None` if it never was.
    changed: Option<u64>,
    last: SeenNumber,
    /// Takes the place of `begin` once it is [`SPAN`] old.
    middle: SeenNumber,
    /// The beginning of the time over which the rate is taken.
    begin: SeenNumber,
}

impl Track {
    /// The track of a segment that was seen for the first time.
    fn new(row: &Row, at: u64) -> Track {
        let seen = SeenNumber {
            at,
            number: row.number,
        };
        Track {
            segment: row.segment,
            changed: None,
            last: seen,
            middle: seen,
            begin: seen,
        }
    }

    /// The track after the segment was seen again. A number less than the last one means another
    /// server, and so a new rate.
    fn after(&self, row: &Row, at: u64) -> Track {
        let mut next = Track::new(row, at);
        next.changed = if row.number == self.last.number {
            self.changed
        } else {
            Some(at)
        };
        if row.number < self.last.number {
            return next;
        }
        if at.saturating_sub(self.middle.at) < SPAN {
            next.middle = self.middle;
            next.begin = self.begin;
        } else {
            next.begin = self.middle;
        }
        next
    }

    /// How many seconds ago the number was seen to change. `None` if it never was.
    pub(crate) fn age(&self, now: u64) -> Option<u64> {
        Some(now.saturating_sub(self.changed?) / 1_000)
    }

    /// The recent rate of updates, in tenths of an update a second. `None` if no time has passed.
    pub(crate) fn rate(&self) -> Option<u64> {
        let time = self.last.at.saturating_sub(self.begin.at);
        if time == 0 {
            return None;
        }
        let count = self.last.number.saturating_sub(self.begin.number);
        Some(count.saturating_mul(10_000).saturating_add(time / 2) / time)
    }
}

/// The tracks after these rows were seen, one for each row in the same order. `at` is the time in
/// milliseconds since the watch began.
pub fn followed(
    alloc: Global,
    tracks: &[Track],
    rows: &[Row],
    at: u64,
) -> Result<Vec<Track>, AllocError> {
    let mut next = Vec::new(alloc);
    for row in rows {
        let track = match tracks.iter().find(|it| it.segment == row.segment) {
            Some(track) => track.after(row, at),
            None => Track::new(row, at),
        };
        next.push(track)?;
    }
    Ok(next)
}
