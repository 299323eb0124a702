//! The writing thread.
use crate::line::line_of;
use crate::lines::Waiting;
use crate::stamp::{beginning, stamp};
use log::Level;
use snap_order::write_whole;
use std::alloc::{AllocError, Global};
use std::io::Write;
use std::rt::Clock;
use std::sync::Wait;
use std::sync::atomic::Ordering;

/// The state of the writing thread.
#[derive(Drop)]
struct WritingState {
    /// How many lost lines have been reported.
    told: u64,
    /// Whether the last line may have been written in part, without its line feed.
    is_torn: bool,
}

/// Writes the lines. It returns once every sender has been dropped and no line waits.
///
/// If lines were lost, a line says how many, before the next one that wasn't, or at once if none waits:
/// `WARN log: lines lost: 12`. It is written at every level of the log; if memory runs out for it, it is written later.
/// A line that can't be written whole is lost too, and the next one begins on a line of its own.
pub fn write_lines<R: Wait + Clock, E: Write>(rt: &R, waiting: &Waiting, errors: &mut E) {
    let mut progress = WritingState {
        told: 0,
        is_torn: false,
    };
    for _ in rt.forever() {
        let Ok(line) = waiting.lines.recv(rt) else {
            break;
        };
        tell_lost(rt, waiting, line.lost, &mut progress, errors);
        if !write_line(errors, &mut progress.is_torn, line.text.as_str()) {
            waiting.lost.fetch_add(1, Ordering::SeqCst);
        }
        if waiting.lines.is_empty() {
            let lost = waiting.lost.load(Ordering::SeqCst);
            tell_lost(rt, waiting, lost, &mut progress, errors);
        }
    }
    let lost = waiting.lost.load(Ordering::SeqCst);
    tell_lost(rt, waiting, lost, &mut progress, errors);
}

/// Writes how many lines were lost since the last such report, if any. `lost` is the total.
fn tell_lost<R: Clock, E: Write>(
    rt: &R,
    waiting: &Waiting,
    lost: u64,
    progress: &mut WritingState,
    errors: &mut E,
) {
    if lost <= progress.told {
        return;
    }
    let stamp = stamp(rt, waiting.destination);
    let Ok(line) = lost_line(
        waiting.alloc,
        beginning(waiting.destination, Level::Warn, stamp.as_str()),
        lost - progress.told,
    ) else {
        return;
    };
    if write_line(errors, &mut progress.is_torn, line.as_str()) {
        progress.told = lost;
    }
}

/// The line that reports `lost` lost lines.
fn lost_line(alloc: Global, stamp: &str, lost: u64) -> Result<String, AllocError> {
    let text = format!(in alloc; "lines lost: {lost}")?;
    line_of(alloc, stamp, Level::Warn, "log", text.as_str())
}

/// Writes a line, after a line feed if the last one was torn. Returns whether it was written whole.
pub(crate) fn write_line<E: Write>(errors: &mut E, is_torn: &mut bool, line: &str) -> bool {
    if *is_torn && write_whole(errors, b"\n").is_err() {
        return false;
    }
    *is_torn = write_whole(errors, line.as_bytes()).is_err();
    !*is_torn
}
