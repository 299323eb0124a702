//! The board of `snapd watch`: polls a running server and prints each change of a segment.
//!
//! [`look`] polls a server over any connection: it asks for the numbers and fences of its segments, and for their
//! values only if a number has changed. [`changes`] is the text of the rows that differ from those shown before. In a
//! terminal [`drawing`] draws all rows, with the age and rate of each ([`followed`]). The caller decides when to poll
//! and where to print. What is requested and printed (docs/FORMATS.md) only tests check, but that the set of segments
//! is the one of the words is proved.

mod exchange;
mod print;
mod terminal;
mod track;

pub use exchange::{Row, WatchFault, look, set_of};
pub use print::changes;
pub use terminal::{Panel, drawing};
pub use track::{Track, followed};
