//! Opens all files of a memory together, with a report of what was found, and closes them together. Nothing is served
//! that wasn't recovered from every file and synced.
//!
//! [`open_all`] returns a [`Store`]: one writer for each file, and the scanners. Its contract, [`life_laws`],
//! [`crash_laws`] and [`restart_laws`] say what a crash of all devices leaves while threads update and scan. They speak
//! of lives. The life of a writer is the list of its steps, each on its device alone or on its seat alone: it sees more
//! updates, it stores a value, and it shows what is stored. A crash finds each writer and each scanner at some place in
//! its life. Only one thing ties the places of two threads together: nobody has seen an update that its writer hasn't
//! shown. The registers guarantee this at each moment, and it is enough to recover one memory.
#![tactic(auto)]

mod files;
mod laws;
mod report;
mod shutdown;
mod store;

pub use files::Stopped;
pub use laws::{crash_laws, life_laws, restart_laws};
pub use report::{Recovered, Report};
pub use store::{LOOKS, Store, open_all};
