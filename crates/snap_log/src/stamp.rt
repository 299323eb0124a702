//! The beginning of a line: the time, or the journal's priority.
use crate::Destination;
use jiff::Timestamp;
use log::Level;
use std::fmt::InlineText;
use std::rt::Clock;

/// The size of the buffer for a time and a space.
const ROOM: usize = 32;

/// The current time and a space, such as `2026-11-25T16:47:28.123Z `. Empty if the clock can't be
/// read, and for the journal, for which the clock isn't read.
pub(crate) fn stamp<R: Clock>(rt: &R, destination: Destination) -> InlineText<ROOM> {
    if destination == Destination::Journal {
        return InlineText::new();
    }
    match Timestamp::now(rt) {
        Ok(now) => stamp_of(now),
        Err(_) => InlineText::new(),
    }
}

/// The beginning of a line: for the journal the priority of its level, as a number of syslog's, else this time.
pub(crate) fn beginning<'a>(destination: Destination, level: Level, time: &'a str) -> &'a str {
    match (destination, level) {
        (Destination::Other, _) => time,
        (Destination::Journal, Level::Error) => "<3>",
        (Destination::Journal, Level::Warn) => "<4>",
        (Destination::Journal, Level::Info) => "<6>",
        (Destination::Journal, Level::Debug | Level::Trace) => "<7>",
    }
}

/// A time in RFC 3339 format, in UTC and cut to milliseconds, and a space.
pub(crate) fn stamp_of(now: Timestamp) -> InlineText<ROOM> {
    InlineText::of(format_args!("{now:.3} "))
}
