//! The core of the snapshot server as one machine over any list of events: it looks, stores, shows,
//! answers, crashes and restarts step by step.
//!
//! A [`World`] has a register, a device and a writer for each segment, and scanners. An event is one step of one of
//! them: one look at one register, one publication, one device call, which succeeds or fails, or a beginning or end
//! that is local to one actor; or it is a crash of all devices, or a step of the restart after it. The stores run the
//! machine of `snap_persist`, on devices of `snap_disk`, and a restart reads them by `snap_slot`.
//!
//! The world promises durable linearizability (Izraelevitz et al. 2016) of the single-writer atomic
//! snapshot (Afek et al. 1993): each scan answers the memory, or the segments of it that it was asked
//! for, as it was at one moment between its beginning and its last look; and each restart answers the
//! memory after all updates visible by then, followed by at most one begun update of each writer.
//!
//! The world stores no history. Its contracts speak of an abstract machine that keeps one (specs/Machine.antt), of the
//! phases that each event needs and leaves (specs/NodePhases.antt), of how each event changes the devices
//! (specs/Devices.antt), and of the states of that machine that a world represents (specs/inside/NodeStands.antt).
#![tactic(auto)]

mod actors;
mod collector;
mod drive;
mod event;
mod node;
mod register;
mod scanner;
mod start;
mod value;
mod world;
mod writer;

pub use event::{Actor, Event, Kind, PartEntry, Reply};
pub use node::{NodePhase, OpeningCall};
pub use scanner::ScannerPhase;
pub use snap_persist::Write;
pub use snap_scan::SegmentSet;
pub use world::{Stopped, World};
pub use writer::WriterPhase;
