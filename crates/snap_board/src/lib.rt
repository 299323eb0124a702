//! Answers HTTP requests about a server, for browsers and monitoring. Begin with [`Board`] (board.rt), an
//! [`http_server::Service`] whose answers are values, and with [`HttpServer`] (server.rt), which serves it over TCP.
//!
//! A board asks a [`snap_session::Service`] for scans and statuses, which change no segment, and its [`FactSource`] for
//! the server's metrics, their history of three minutes, and the process's resources. It has no socket and doesn't
//! block. page.rt has the paths; docs/FORMATS.md, "HTTP", has the status and the content of each.
#![tactic(auto)]

mod board;
mod document;
mod facts;
mod figures;
mod history;
mod home;
mod metric;
mod metrics;
mod page;
mod reply;
mod script;
mod server;
mod style;

pub use board::Board;
pub use facts::{FactSource, ServerFacts, Usage};
pub use history::{History, Sampler};
pub use page::Page;
pub use server::{HttpServer, MAX_CONNECTIONS, StopHandle};
