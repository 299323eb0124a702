//! The writer of a segment, as a plain value.
use crate::collector::Collector;
use crate::value::Value;

/// The state of a writer's update.
#[derive(Clone, Copy, Drop, PartialEq, Eq)]
pub enum WriterPhase {
    /// It has no update.
    Idle,
    /// The scan that is embedded in its update has a look to make.
    Scanning,
    /// Its store has a device call to make.
    Storing,
    /// Its update is stored, and may be published.
    Stored,
    /// Its update is visible, and not acknowledged yet.
    Shown,
    /// A call of its store has failed: it takes no update until the next restart.
    Fenced,
}

/// The writer of one segment, with the value of its update and the embedded scan.
#[derive(Drop)]
pub struct WriterActor {
    pub phase: WriterPhase,
    pub value: Value,
    pub collector: Collector,
}
