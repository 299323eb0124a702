//! Laws: a crash of all devices keeps all that clients received.
//!
//! A service replies from what its scanner has seen: each update that it acknowledges and each value of a scan is among
//! the updates that the scanner has seen. So a crash that keeps all that anybody had seen keeps all that any client
//! received. The module `clients` proves this step by step: from a reply to the bytes of a session, from these to the
//! results of a client's calls, then to a crash, and to any number of crashes and starts. The module `crashes` shows
//! that the premises of these laws can be met: they follow from the contracts of real calls, those of commands that run
//! between two starts included.
#![tactic(auto)]

mod clients;
mod crashes;

pub use clients::{
    client_laws, hear, heard_laws, plug_laws, reply_laws, session_laws, worker_laws,
};
pub use crashes::{
    goes_on, init_between, load_between, migrate_between, moment_laws, open_and_give_back,
    open_and_go_on, open_and_store, open_twice, open_two, put_between, reopen, store_between,
    two_at_once, worked,
};
