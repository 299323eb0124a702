//! The log of a server: a line for each event, written to standard error by one thread.
//!
//! [`Lines`] takes the records of all threads, by the macros of the crate `log`. It makes one line of each and sends it
//! to the one thread that writes, in [`write_lines`]. So no thread that serves waits for standard error, and no two
//! lines mix. Logging a record never fails: if its line can't be sent it is lost, and a later line says how many were.
//!
//! ```text
//! let destination = Destination::of_standard_error(rt, alloc);
//! let (lines, waiting) = Lines::new(rt, alloc, LevelFilter::Info, destination)?;
//! scope.spawn(move || write_lines(rt, &waiting, &mut errors));
//! warn!(lines; target: "accept", "{open} connections are open");
//! ```
//!
//! writes `2026-11-25T16:47:28.123Z WARN accept: 97 connections are open`, or to the journal of systemd
//! `<4>WARN accept: 97 connections are open`. A `&Lines` logs too, and code that needn't know the sink
//! takes a `log: &L` under `L: Log`.
#![tactic(auto)]

mod destination;
mod line;
mod lines;
mod output;
mod stamp;
#[cfg(test)]
mod tests;

pub use destination::Destination;
pub use lines::{Lines, Waiting};
pub use output::write_lines;
