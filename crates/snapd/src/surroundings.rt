//! The facts of a server's process that the page and the metrics show, as the system reports them: memory, descriptors,
//! processor time and clocks.

use snap_args::VERSION;
use snap_board::{FactSource, History, ServerFacts, Usage};
use snap_file_commands::system::limit_of;
use snap_frame::SegmentStatus;
use snap_log::Lines;
use snap_service::{Metrics, milliseconds_of};
use std::alloc::{AllocError, Global};
use std::rt::Clock;
use std::sync::Wait;
use std::time::{Duration, Instant};
use std::{fs, io};

/// The memory of this process, as Linux reports it: numbers of pages, of which the first is its
/// address space and the second is resident.
const MEMORY: &str = "/proc/self/statm";

/// The status of this process, and the key of the signals that it ignores: a bit for each, in hexadecimal digits.
const STATUS: &str = "/proc/self/status";

const IGNORED: &str = "SigIgn:";

/// The bit of SIGINT, which is signal 2.
const INTERRUPT: u64 = 1 << 1;

/// The open descriptors of this process.
const DESCRIPTORS: &str = "/proc/self/fd";

/// The size of a page in bytes.
const PAGE: u64 = 4_096;

/// A server in this process, with its metrics.
#[derive(Clone, Copy, Drop)]
pub struct Process<'a> {
    pub rt: &'a HostRuntime,
    pub metrics: &'a Metrics,
    /// When it started, by the steady clock, and in milliseconds since 1970; each `None` if the clock can't be read.
    pub began: Option<Instant>,
    pub started: Option<u64>,
    /// The limit of open connections.
    pub most_clients: usize,
    /// The addresses at which it listens, as in its arguments.
    pub addresses: &'a Vec<String>,
    /// The folder that it serves, if its arguments name one.
    pub folder: Option<&'a str>,
    /// The path of each segment's file, as in its arguments.
    pub files: &'a Vec<&'a str>,
}

/// Whether this process ignores SIGINT, as far as the system says. It inherits that: a script has
/// what it starts with `&` ignore it.
pub fn ignores_interrupts(rt: &HostRuntime) -> bool {
    ignored_signals(rt).is_some_and(|signals| signals & INTERRUPT != 0)
}

/// The signals that this process ignores, a bit for each.
fn ignored_signals(rt: &HostRuntime) -> Option<u64> {
    let status = fs::read_to_string(rt, STATUS).ok()?;
    let (_, behind) = status.split_once(IGNORED)?;
    u64::from_str_radix(behind.split_whitespace().next()?, 16).ok()
}

impl Process<'_> {
    /// The time since its start; `None` if no clock can be read.
    fn uptime(&self) -> Option<Duration> {
        self.began?.elapsed(self.rt).ok()
    }

    /// The number at this place in the memory report, in bytes.
    fn memory_at(&self, place: usize) -> Option<u64> {
        let numbers = fs::read_to_string(self.rt, MEMORY).ok()?;
        let pages: u64 = numbers.split_whitespace().nth(place)?.parse().ok()?;
        pages.checked_mul(PAGE)
    }

    /// The number of open descriptors, without the one that reads the folder.
    fn descriptors(&self) -> io::Result<u64> {
        let mut count: u64 = 0;
        for entry in fs::read_dir(self.rt, DESCRIPTORS)? {
            entry?;
            count = count.saturating_add(1);
        }
        Ok(count.saturating_sub(1))
    }
}

/// The time in milliseconds since 1970. `None` if the clock can't be read.
pub fn millis_since_1970<R: Clock>(rt: &R) -> Option<u64> {
    u64::try_from(rt.since_1970().ok()?.as_millis()).ok()
}

/// The processor time of this process, in nanoseconds.
fn processor_time() -> Option<u64> {
    let mut time = libc::types::timespec {
        tv_sec: 0,
        tv_nsec: 0,
    };
    if libc::clock_gettime(libc::CLOCK_PROCESS_CPUTIME_ID, &mut time) != 0 {
        return None;
    }
    let seconds = u64::try_from(time.tv_sec).ok()?;
    let rest = u64::try_from(time.tv_nsec).ok()?;
    seconds.checked_mul(1_000_000_000)?.checked_add(rest)
}

/// The most descriptors that this process may have open.
pub fn most_descriptors() -> Option<u64> {
    limit_of(libc::RLIMIT_NOFILE)
}

/// A server in this process, as the HTTP thread shows it: with its log, and the samples of the last three minutes.
#[derive_where(Clone, Copy)]
#[derive(Drop)]
pub struct Seen<'a, 'h, X: Wait + Clock> {
    pub process: &'a Process<'a>,
    pub log: &'a Lines<'a, X>,
    pub history: &'h History,
}

impl<X: Wait + Clock> FactSource for Seen<'_, '_, X> {
    fn facts<'a>(
        &'a self,
        alloc: Global,
        statuses: &'a [SegmentStatus],
    ) -> Result<ServerFacts<'a>, AllocError> {
        let process = self.process;
        Ok(ServerFacts {
            reading: process.metrics.read(alloc)?,
            statuses,
            version: VERSION,
            addresses: process.addresses.as_slice(),
            files: process.files.as_slice(),
            uptime: process.uptime().map(|time| milliseconds_of(time)),
            time: self.now_millis(),
            resident: process.memory_at(1),
        })
    }

    fn now_millis(&self) -> Option<u64> {
        millis_since_1970(self.process.rt)
    }

    fn usage(&self) -> Usage {
        Usage {
            started: self.process.started,
            processors: processor_time(),
            addresses: self.process.memory_at(0),
            descriptors: self.process.descriptors().ok(),
            most_descriptors: most_descriptors(),
            most_clients: self.process.most_clients as u64,
            lost_lines: self.log.lost(),
        }
    }

    fn history(&self) -> &History {
        self.history
    }
}
