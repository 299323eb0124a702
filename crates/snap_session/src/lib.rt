//! The server's half of one connection: takes in the bytes that were read, has a [`Service`] answer the requests, and
//! keeps the replies as pending output. A [`Session`] is a value over memory; [`proceed`] and [`serve`] run one.
//!
//! One relation, `Goes` of `specs/Talk.antt`, says what a session does: the bytes that arrived are cut into frames, a
//! service answers these in order, and the replies' frames are the pending output (`owed`). It holds for reads of any
//! size, any number of turns, and requests that are answered later. With `Moves` in place of `Stays` it holds for each
//! of several sessions on one service, between whose answers others are answered.
#![tactic(auto)]

mod background;
mod laws;
mod service;
mod session;
mod spin;
mod turns;

pub use background::{Background, Completion};
pub use laws::wrapper_laws;
pub use service::Service;
pub use session::{MAX_OWED, Session, WaitingFor};
pub use spin::{Spin, WAITS_IN_A_REST};
pub use turns::{End, Polled, proceed, serve};
