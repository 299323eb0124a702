//! The facts about a server that a board shows, and their source.

use crate::history::History;
use snap_frame::SegmentStatus;
use snap_service::{MetricsSnapshot, SegmentSnapshot};
use std::alloc::{AllocError, Global};
use std::path::Path;

/// Supplies the facts about a server, other than its segments' values and statuses.
pub trait FactSource {
    /// Reads the facts, which have these statuses beside them. The error is that memory ran out.
    fn facts<'a>(
        &'a self,
        alloc: Global,
        statuses: &'a [SegmentStatus],
    ) -> Result<ServerFacts<'a>, AllocError>;

    /// The time in milliseconds since 1970; `None` if no clock can be read.
    fn now_millis(&self) -> Option<u64>;

    /// The process's other resources, and its limits.
    fn usage(&self) -> Usage;

    /// The history of the last three minutes.
    fn history(&self) -> &History;
}

/// The facts about a server at one moment, apart from the segments' values. `None` if one isn't known.
#[derive(Drop)]
pub struct ServerFacts<'a> {
    /// The metrics.
    pub reading: MetricsSnapshot,
    /// The number and the fence of each segment, in order.
    pub statuses: &'a [SegmentStatus],
    /// The version of the program, as `1.2.3`.
    pub version: &'a str,
    /// The addresses at which the server listens, as clients are given them.
    pub addresses: &'a [String],
    /// The path of each segment's file, in order of segment, as it was given.
    pub files: &'a [&'a str],
    /// The time since the server's start, in milliseconds.
    pub uptime: Option<u64>,
    /// The time in milliseconds since 1970.
    pub time: Option<u64>,
    /// The process's resident memory in bytes.
    pub resident: Option<u64>,
}

impl ServerFacts<'_> {
    /// The milliseconds since a segment's last update; 0 if that is in the future, since the clock
    /// was set back. `None` if either time isn't known.
    pub(crate) fn age(&self, segment: &SegmentSnapshot) -> Option<u64> {
        Some(self.time?.saturating_sub(segment.updated?))
    }
}

/// The name of a segment: its file's name without the extension. `None` if the path has no file name.
pub(crate) fn name_of(file: &str) -> Option<&str> {
    Path::new(file).file_stem()
}

/// The resources of a process, and the server's limits. `None` if one isn't known.
#[derive(Clone, Copy)]
pub struct Usage {
    /// The start of the process, in milliseconds since 1970.
    pub started: Option<u64>,
    /// The processor time that it has used, in nanoseconds.
    pub processors: Option<u64>,
    /// Its virtual memory, in bytes.
    pub addresses: Option<u64>,
    /// The number of open descriptors.
    pub descriptors: Option<u64>,
    /// The limit of open descriptors.
    pub most_descriptors: Option<u64>,
    /// The limit of clients' open connections.
    pub most_clients: u64,
    /// The number of lines of the log that were lost.
    pub lost_lines: u64,
}
