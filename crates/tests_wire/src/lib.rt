//! The tests of frames, sessions and clients: `snap_frame`, `snap_session` and `snap_client`.
#![tactic(auto)]

#[cfg(test)]
mod client;
#[cfg(test)]
mod frame;
#[cfg(test)]
mod session;
#[cfg(test)]
mod streams;
