//! The client's half of a connection: sends requests and reads their replies.
//!
//! After a fault a [`Client`] has failed for good: the caller connects again and sends the same request, which is safe,
//! since an update that was stored is acknowledged again. [`call_again`] does so up to ten times, and [`call_while`]
//! as long as it gets connections.
//!
//! Contracts use the definitions of `specs/Calls.antt` (one call) and `specs/Again.antt` (calls on
//! one connection after another).
#![tactic(auto)]

mod again;
mod client;
mod exchange;
mod fault;

pub use again::{MAX_TRIES, call_again, call_while};
pub use client::Client;
pub use fault::ClientFault;
