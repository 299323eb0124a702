//! Durable updates of one segment: its only writer stores a value in its file first, and shows it
//! in the registers second.
//!
//! [`Writer::update`] does both. specs/Judge.antt defines its result, and specs/Update.antt what it does. A caller that
//! doesn't know whether its last update arrived sends the same number and value again: they are stored exactly once.
#![tactic(auto)]

mod judgement;
mod laws;
mod noted_segment;
mod writer;

pub use judgement::Judgement;
pub use laws::judge_laws;
pub use writer::Writer;
