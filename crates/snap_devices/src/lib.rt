//! The devices: a file of the operating system, and for tests one in memory whose calls fail by a plan, one whose first
//! write waits for a flag, and one whose bytes are random.
//!
//! The model of a device is in `snap_disk`. [`MemDisk`] and [`Held`] are proved to be honest: they do what the model
//! says. [`Noise`] returns random bytes and keeps nothing, so it is never honest. That a real file, [`FileDisk`], is
//! honest is a premise that no code can test.
#![tactic(auto)]

mod contents;
mod fault_plan;
mod file;
mod ghost_log;
mod held;
mod memory;
mod noise;
mod opened_path;

pub use fault_plan::FaultPlan;
pub use file::{CallFault, FileDisk, FileFault, FileOf, Lock, Stories, Untold, sync_folder_of};
pub(crate) use ghost_log::GhostLog;
pub use held::Held;
pub use memory::MemDisk;
pub use noise::Noise;
pub use opened_path::FileId;
