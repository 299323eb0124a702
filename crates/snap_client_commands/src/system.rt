//! The commands of a client on the system's sockets, clock and streams: [`call`], [`watch`], and [`fetch`] for a dump.

mod call_command;
mod remedy;
mod time_limit;
mod tries;
mod watch_command;

pub use call_command::{call, fetch};
pub use watch_command::watch;
