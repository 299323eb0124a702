//! The events of a world, and its replies.
use snap_disk::Fill;
use snap_persist::Write;
use snap_scan::SegmentSet;

/// The actor that takes a look.
#[derive(Clone, Copy, Drop, PartialEq, Eq)]
pub enum Actor {
    /// The writer of this segment, in the scan that is embedded in its update.
    Writer(usize),
    /// This scanner.
    Scanner(usize),
}

/// A device call.
#[derive(Clone, Copy, Debug, Drop, PartialEq, Eq)]
pub enum Kind {
    /// This write of a store.
    Write(Write),
    /// A sync.
    Sync,
    /// The read of the whole file, when it is opened.
    Read,
}

/// One step of a world. Segments and scanners are counted from 0. Each variant names the world's
/// reply if the event may come; else the reply is [`Reply::NotNow`].
#[derive(Drop, PartialEq, Eq)]
pub enum Event {
    /// The writer of this segment, which is idle, begins an update by these bytes, at most 4,080:
    /// `Begun`. Its number has to be below 2^63 - 1.
    Begin(usize, Vec<u8>),
    /// The actor's scan looks at the register whose turn it is: `Number`, that register's number.
    Look(Actor),
    /// The next device call of this segment's store succeeds: `Called`, with its kind. After the
    /// last one the update is stored.
    Call(usize),
    /// The next device call of this segment's store fails, and the touched places get this fill:
    /// `DeviceFailed`. The segment takes no update until the next restart has served.
    Fail(usize, Fill),
    /// The writer of this segment, whose update is stored, publishes it: `Shown`.
    Show(usize),
    /// The writer of this segment, whose update is shown, is idle again: `Stored`, with its number.
    Acknowledge(usize),
    /// This scanner, which is idle, begins a scan: `ScanBegun`.
    Scan(usize),
    /// This scanner, which is idle, begins a scan of these segments alone: `ScanBegun`. The set has
    /// to name at least one segment, and only existing ones.
    Pick(usize, SegmentSet),
    /// This scanner, whose scan has its answer, gives it and is idle again: `Memory`, or `Part` if
    /// `Pick` began the scan.
    Answer(usize),
    /// Each device crashes, and its open places get its fill, of which there is one for each
    /// segment: `Crashed`. It may come at any time. All actors are idle then, and the node is down.
    Crash(Vec<Fill>),
    /// A restart of the node, which is down, begins: `Restarting`.
    Restart,
    /// The next device call of the restart succeeds: `Called`. For each segment they are a sync and
    /// the read of its file.
    RestartCall,
    /// The next device call of the restart fails, and the node is down again: `DeviceFailed`. At a
    /// sync the open places get this fill; a failed read changes nothing.
    RestartFail(Fill),
    /// The restart, whose device calls are all made, ends: `Memory`, the recovered one. The node is
    /// up, and all actors are idle.
    Serve,
}

/// A segment and its value, as a scan of some segments answers them.
#[derive(Debug, Drop, PartialEq, Eq)]
pub struct PartEntry {
    pub segment: usize,
    pub value: Vec<u8>,
}

/// A world's reply to an event.
#[derive(Debug, Drop, PartialEq, Eq)]
pub enum Reply {
    /// The update has begun.
    Begun,
    /// The number of the register at which the actor looked.
    Number(u64),
    /// The device call of this kind was made.
    Called(Kind),
    /// The device call failed.
    DeviceFailed,
    /// The update is visible.
    Shown,
    /// The update's number.
    Stored(u64),
    /// The scan has begun.
    ScanBegun,
    /// The value of each segment, in order.
    Memory(Vec<Vec<u8>>),
    /// Each segment of the scan's set with its value, in ascending order.
    Part(Vec<PartEntry>),
    /// The devices crashed.
    Crashed,
    /// The restart has begun.
    Restarting,
    /// The event may not come now, and nothing has changed.
    NotNow,
}
