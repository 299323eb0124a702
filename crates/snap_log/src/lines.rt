//! The sink that all threads log to.
ghost use Rattle.std.specs.Prelude.{◌≡◌, Some, [], IfOk};
ghost use Rattle.log.specs.Level.{allows};

use crate::Destination;
use crate::line::line_of;
use crate::stamp::{beginning, stamp};
use crossbeam_channel::{Receiver, Sender, unbounded};
use log::kv::Source;
use log::span::Spans;
use log::{LevelFilter, Log, Metadata, Record};
use std::alloc::{AllocError, Global};
use std::fmt::Display;
use std::rt::Clock;
use std::sync::atomic::{AtomicU64, Ordering};
use std::sync::{Arc, Wait};

/// The most lines that wait to be written. Threads that send at the same moment may exceed it by one each.
const MAX_WAITING: usize = 4_096;

/// A line on its way to the writing thread.
#[derive(Drop)]
pub(crate) struct QueuedLine {
    /// The whole line, with its line feed.
    pub(crate) text: String,
    /// How many lines had been lost before this one was sent.
    pub(crate) lost: u64,
}

/// Takes the records of a program up to a level, and sends a line for each to the writing thread.
/// Threads share it by reference.
#[derive(Drop)]
pub struct Lines<'a, R: Wait + Clock> {
    rt: &'a R,
    alloc: Global,
    level: LevelFilter,
    destination: Destination,
    to: Sender<QueuedLine>,
    lost: Arc<AtomicU64, Global>,
}

/// The lines to be written, for [`write_lines`](crate::write_lines).
#[derive(Drop)]
pub struct Waiting {
    pub(crate) alloc: Global,
    pub(crate) destination: Destination,
    pub(crate) lines: Receiver<QueuedLine>,
    pub(crate) lost: Arc<AtomicU64, Global>,
}

impl<'a, R: Wait + Clock> Lines<'a, R> {
    ghost use Rattle.snap_log.specs.Lines.{lines_level};

    /// A log of the records up to a level, and the receiving side of its lines. Fails only if memory runs out.
    pub fn new(
        rt: &'a R,
        alloc: Global,
        level: LevelFilter,
        destination: Destination,
    ) -> Result<(Lines<'a, R>, Waiting), AllocError>
        ensures { IfOk result (λ both. lines_level both.0 ≡ level) }
    {
        let (to, lines) = unbounded(alloc)?;
        let lost = Arc::new(alloc, AtomicU64::new(0))?;
        let waiting = Waiting {
            alloc,
            destination,
            lines,
            lost: Arc::try_clone(&lost)?,
        };
        let log = Lines {
            rt,
            alloc,
            level,
            destination,
            to,
            lost,
        };
        Ok((log, waiting))
    }

    /// How many lines were lost so far.
    pub fn lost(&self) -> u64 {
        self.lost.load(Ordering::SeqCst)
    }

    /// Sends the line of a record. Returns whether it was sent.
    fn hand_over<D: Display, K: Source, S: Spans>(&self, record: &Record<'_, D, K, S>) -> bool {
        if self.to.len() >= MAX_WAITING {
            return false;
        }
        let Ok(text) = self.line(record) else {
            return false;
        };
        let lost = self.lost();
        self.to.send(self.rt, QueuedLine { text, lost }).is_ok()
    }

    /// The line of a record.
    fn line<D: Display, K: Source, S: Spans>(
        &self,
        record: &Record<'_, D, K, S>,
    ) -> Result<String, AllocError> {
        let stamp = stamp(self.rt, self.destination);
        let text = format!(in self.alloc; "{}", record.args())?;
        line_of(
            self.alloc,
            beginning(self.destination, record.level(), stamp.as_str()),
            record.level(),
            record.target(),
            text.as_str(),
        )
    }
}

/// A record above the level costs a comparison. The line of a logged record is lost, and counted,
/// if 4,096 lines wait, if memory runs out, or if the writing thread has ended.
impl<'a, R: Wait + Clock> Log for Lines<'a, R> {
    ghost use Rattle.snap_log.specs.Lines.{lines_level};

    ghost enables = { λ lines level _. Some (allows (lines_level lines) level) };

    ghost target_of = { λ _. Some [] };

    fn enabled(&self, metadata: &Metadata<'_>) -> bool {
        self.level.allows(metadata.level())
    }

    fn log<D: Display, K: Source, S: Spans>(&self, record: &Record<'_, D, K, S>) {
        if self.level.allows(record.level()) && !self.hand_over(record) {
            self.lost.fetch_add(1, Ordering::SeqCst);
        }
    }

    fn flush(&self) {}

    fn target(&self) -> &str {
        ""
    }
}
