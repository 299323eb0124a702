//! Connections whose reads and writes end at a time limit.
ghost use Rattle.std.specs.Io.{ReadsAtMost, WritesAtMost};

use std::cell::Cell;
use std::io::{self, ErrorKind, Read, Write};
use std::net::TcpStream;
use std::time::{Duration, Instant};

/// The time at which a call ends.
#[derive(Clone, Copy, Drop)]
pub struct TimeLimit<'a> {
    pub clock: &'a HostRuntime,
    /// `None` without a limit.
    pub end: Option<Instant>,
    /// Set once something has waited until then.
    pub is_over: &'a Cell<bool>,
}

impl<'a> TimeLimit<'a> {
    /// Limits the reads and writes of a connection, and records its failures in `course`.
    pub fn on(self, stream: TcpStream, course: &'a Course) -> LimitedStream<'a> {
        LimitedStream {
            stream,
            limit: self,
            course,
        }
    }

    /// The remaining time, which is never zero. `None` without a limit. An error if the time is over.
    pub fn left(&self) -> io::Result<Option<Duration>> {
        let Some(end) = self.end else {
            return Ok(None);
        };
        let left = end.saturating_duration_since(Instant::now(self.clock)?);
        if left.is_zero() {
            self.is_over.set(true);
            return Err(io::Error::from(ErrorKind::TimedOut));
        }
        Ok(Some(left))
    }
}

/// The state of a call's connections.
#[derive(Drop)]
pub struct Course {
    /// Whether something has waited until the call's `--timeout` was over.
    pub is_over: Cell<bool>,
    /// Whether it has tried to connect until its `--wait` was over.
    pub has_waited: Cell<bool>,
    /// Whether the last connection couldn't be made, failed or ended.
    pub has_failed: Cell<bool>,
    /// The system's reason for that, if it gave one.
    pub reason: Cell<Option<io::Error>>,
}

impl Course {
    /// A call without a connection yet.
    pub fn new() -> Course {
        Course {
            is_over: Cell::new(false),
            has_waited: Cell::new(false),
            has_failed: Cell::new(false),
            reason: Cell::new(None),
        }
    }

    /// Records that a connection couldn't be made, or failed, for this reason.
    pub fn fail(&self, error: io::Error) {
        self.has_failed.set(true);
        // A time that is over by our own limit is no reason of the system.
        if error.kind() != ErrorKind::TimedOut || error.raw_os_error().is_some() {
            self.reason.set(Some(error));
        }
    }

    /// Records the result of a read or a write. No bytes: the connection has ended.
    fn take_note(&self, moved: &io::Result<usize>) {
        match moved {
            Ok(0) => self.has_failed.set(true),
            Ok(_) => {}
            Err(error) => self.fail(*error),
        }
    }
}

/// A connection whose reads and writes end at the time limit.
#[derive(Drop)]
pub struct LimitedStream<'a> {
    stream: TcpStream,
    limit: TimeLimit<'a>,
    course: &'a Course,
}

impl LimitedStream<'_> {
    /// Reads, again after a signal, until the time is over.
    fn read_in_time(&mut self, buf: &mut [u8]) -> io::Result<usize>
        ensures { ReadsAtMost result buf.new }
    {
        for _ in 0..u64::MAX {
            if let Some(left) = self.limit.left()? {
                self.stream.set_read_timeout(Some(left))?;
            }
            match self.stream.read(buf) {
                Err(error) if is_early(error) => {}
                read => return read,
            }
        }
        Err(io::Error::from(ErrorKind::Interrupted))
    }

    /// Writes, again after a signal, until the time is over.
    fn write_in_time(&mut self, buf: &[u8]) -> io::Result<usize>
        ensures { WritesAtMost result buf.now }
    {
        for _ in 0..u64::MAX {
            if let Some(left) = self.limit.left()? {
                self.stream.set_write_timeout(Some(left))?;
            }
            match self.stream.write(buf) {
                Err(error) if is_early(error) => {}
                written => return written,
            }
        }
        Err(io::Error::from(ErrorKind::Interrupted))
    }
}

/// Whether a call has to be made again: a signal came, or the system's timeout ran out, and our own clock decides
/// whether the time is over.
fn is_early(error: io::Error) -> bool {
    matches!(error.kind(), ErrorKind::Interrupted | ErrorKind::WouldBlock)
}

impl Read for LimitedStream<'_> {
    fn read(&mut self, buf: &mut [u8]) -> io::Result<usize> {
        let read = self.read_in_time(buf);
        self.course.take_note(&read);
        read
    }
}

impl Write for LimitedStream<'_> {
    fn write(&mut self, buf: &[u8]) -> io::Result<usize> {
        let written = self.write_in_time(buf);
        self.course.take_note(&written);
        written
    }

    fn flush(&mut self) -> io::Result<()> {
        self.stream.flush()
    }
}
