//! The commands that ask a running server: `call`, `watch`, and the part of `dump` that fetches a server's values; over
//! any connections, reader and writers, and, in [`system`], over the system's sockets.
//!
//! [`ask`] is the command `call`: it sends a request and prints the reply. `specs/Ends.antt` says how it ends after
//! each answer, `specs/Puts.antt` which requests a put sends, and `specs/Text.antt` has the lines of a reply
//! (docs/FORMATS.md). [`watch`] polls a server for the command `watch`, and has the text of each change. [`fetch`]
//! returns all values of a server, for a dump (`specs/Fetch.antt`).
#![tactic(auto)]

mod call;
mod print;
mod put;
pub mod system;
pub mod watch;

pub use call::{ask, fetch};
