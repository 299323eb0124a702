//! The tries of a call: when each begins, how long it may take, and why they failed.

use super::call_command::link_within;
use super::remedy::remedy_of;
use super::time_limit::{Course, LimitedStream, TimeLimit};
use snap_order::{Status, say_of};
use std::time::{Duration, Instant};
use std::{io, thread};

/// The pause after a request's first failed try, in milliseconds. Each further one is twice as long, as in the clients.
const FIRST_REST: u64 = 100;

/// The longest pause of a call that waits, in milliseconds: so soon it finds a server that is back.
const LONGEST_REST: u64 = 1_000;

/// Makes the connections for a call's requests, with pauses.
#[derive(Drop)]
pub struct Tries<'a> {
    rt: &'a HostRuntime,
    address: &'a str,
    /// `--wait`: for how many seconds each request is tried. `None` if the number of tries is limited instead.
    wait: Option<u32>,
    /// `--timeout`: how many seconds the call may take in all, from its first connection on. `None` without a limit.
    timeout: Option<u32>,
    course: &'a Course,
    /// When the first try of the call began, and the first one of this request.
    began: Option<Instant>,
    asked: Option<Instant>,
    /// The next pause.
    rest: Duration,
}

impl<'a> Tries<'a> {
    /// The tries of a call to this address, of which none has begun.
    pub fn new(
        rt: &'a HostRuntime,
        address: &'a str,
        wait: Option<u32>,
        timeout: Option<u32>,
        course: &'a Course,
    ) -> Tries<'a> {
        Tries {
            rt,
            address,
            wait,
            timeout,
            course,
            began: None,
            asked: None,
            rest: Duration::from_millis(FIRST_REST),
        }
    }

    /// The next connection as a reader and a writer, after a pause if the last one failed. `None` if it can't be made;
    /// for a call that waits, if none can be made before the time is over.
    pub fn next(&mut self) -> Option<(LimitedStream<'a>, LimitedStream<'a>)> {
        let now = Instant::now(self.rt).ok()?;
        let began = self.began.unwrap_or(now);
        self.began = Some(began);
        if !self.course.has_failed.get() {
            self.asked = Some(now);
            self.rest = Duration::from_millis(FIRST_REST);
        }
        let whole = TimeLimit {
            clock: self.rt,
            end: end_of(began, self.timeout),
            is_over: &self.course.is_over,
        };
        let limit = self.time_to_connect(whole, self.asked.unwrap_or(now));
        for _ in 0..u64::MAX {
            self.pause(&limit).ok()?;
            match self.connection(whole, &limit) {
                Ok(made) => return Some(made),
                Err(error) => self.course.fail(error),
            }
            if self.wait.is_none() {
                // Only sets the flag if the time is over.
                let _ = limit.left();
                return None;
            }
        }
        None
    }

    /// The time limit for connecting of a request that was first tried then, in a call with this limit.
    fn time_to_connect(&self, whole: TimeLimit<'a>, asked: Instant) -> TimeLimit<'a> {
        match (end_of(asked, self.wait), whole.end) {
            (None, _) => whole,
            (Some(end), Some(most)) if most <= end => whole,
            (end, _) => TimeLimit {
                end,
                is_over: &self.course.has_waited,
                ..whole
            },
        }
    }

    /// Pauses if the last connection failed, for at most half of the remaining time, but at least a millisecond. An
    /// error if no time is left.
    fn pause(&mut self, limit: &TimeLimit<'_>) -> io::Result<()> {
        let left = limit.left()?;
        if !self.course.has_failed.get() {
            return Ok(());
        }
        let rest = match left {
            Some(left) => self.rest.min((left / 2).max(Duration::from_millis(1))),
            None => self.rest,
        };
        thread::sleep(self.rt, rest);
        self.rest = self.rest.saturating_mul(2);
        if self.wait.is_some() {
            self.rest = self.rest.min(Duration::from_millis(LONGEST_REST));
        }
        limit.left()?;
        Ok(())
    }

    /// Connects within this time, and returns a reader and a writer for a call with the limit `whole`.
    fn connection(
        &self,
        whole: TimeLimit<'a>,
        limit: &TimeLimit<'_>,
    ) -> io::Result<(LimitedStream<'a>, LimitedStream<'a>)> {
        let writer = link_within(self.rt, self.address, limit)?;
        let reader = writer.try_clone()?;
        self.course.has_failed.set(false);
        self.course.reason.set(None);
        Ok((whole.on(reader, self.course), whole.on(writer, self.course)))
    }

    /// If this is the status of a call that failed, prints the system's reason for the failure of its last connection,
    /// if there is one, and whether its time was over.
    pub fn say_why(&self, status: Status) {
        if status != Status::Failed {
            return;
        }
        let (rt, address, course) = (self.rt, self.address, self.course);
        if let Some(reason) = course.reason.get() {
            match remedy_of(address, &reason) {
                Some(remedy) => say_of(rt, address, &format_args!("{reason}: {remedy}")),
                None => say_of(rt, address, &reason),
            }
        }
        let (seconds, option) = match (course.is_over.get(), course.has_waited.get()) {
            (true, _) => (self.timeout, "--timeout"),
            (_, true) => (self.wait, "--wait"),
            _ => return,
        };
        let seconds = seconds.unwrap_or(0);
        let why = format_args!("there was no answer within {seconds} s ({option})");
        say_of(rt, address, &why);
    }
}

/// The time this many seconds after `began`. `None` if there is no such time, or no number of seconds.
fn end_of(began: Instant, seconds: Option<u32>) -> Option<Instant> {
    began.checked_add(Duration::from_secs(u64::from(seconds?)))
}
