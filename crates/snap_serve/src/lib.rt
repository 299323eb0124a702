//! Runs a server: opens its files, prints what was found, listens, and serves. Begin with [`host`] (server.rt).
//!
//! Each worker is a desk with a scanner of its own, and each segment has a storer thread. An observer, such as the HTTP
//! server, has a scanner and a thread too. The caller supplies an [`Environment`]: the binding of addresses, the
//! callbacks for requests, events and updates, the metrics, the observer, and the limits.
#![tactic(auto)]

mod bind;
mod counted;
mod fault;
mod notes;
mod observer;
mod report;
mod server;
mod stores;

pub use bind::{Bind, ListenFault, Network};
pub use fault::{HostFault, system_advice};
pub use notes::log_note;
pub use observer::{NoObserver, Observer, ServerObserver};
pub use server::{Environment, Runtime, host};
pub use snap_service::{CountingObserver, FailureObserver, NoUpdateObserver};
