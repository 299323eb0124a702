//! Servers that are announced.

use super::course::Course;
use super::{limits, shops};
use snap_server::{AcceptFault, Accepted, Announce, Listen, NoGate, RunFault, ServerEvent, run};
use std::io;
use std::net::Net;
use std::rt::Clock;
use std::sync::Wait;
use std::sync::atomic::{AtomicU64, Ordering};
use std::thread::Threads;

/// Accepts no connection, and counts how often it is asked for one.
#[derive(Drop)]
struct Asked {
    calls: AtomicU64,
    closed: AtomicU64,
}

impl Listen for &Asked {
    ghost refuses = { λ _. Unit {0} };

    fn accept(&mut self) -> Result<Accepted, AcceptFault> {
        self.calls.fetch_add(1, Ordering::SeqCst);
        Err(AcceptFault::Failed)
    }

    fn close(&self) {
        self.closed.fetch_add(1, Ordering::SeqCst);
    }
}

/// How often a server was announced, and how often its listener had been asked by then.
#[derive(Clone, Copy, Debug, PartialEq, Eq)]
struct Said {
    times: u64,
    asked: u64,
}

/// Records how often the listener was asked, or fails.
#[derive(Drop)]
struct Telling<'a> {
    listener: &'a Asked,
    can_tell: bool,
}

impl Announce<Said> for Telling<'_> {
    ghost announces = { λ _ _ _. Unit {0} };

    ghost fails = { λ _ _ _. Unit {0} };

    fn announce(&self, to: &mut Said) -> io::Result<()> {
        *to = Said {
            times: to.times + 1,
            asked: self.listener.calls.load(Ordering::SeqCst),
        };
        if self.can_tell {
            return Ok(());
        }
        Err(io::ErrorKind::BrokenPipe.into())
    }
}

/// How a server with such an announcement ended, what was announced, how often its listener was asked for a connection,
/// and how often it was closed.
fn announced<R: Threads + Wait + Clock + Net + AllocGlobal + Sync>(
    rt: &R,
    can_tell: bool,
) -> Option<(Result<u64, RunFault>, Said, u64, u64)> {
    let listener = Asked {
        calls: AtomicU64::new(0),
        closed: AtomicU64::new(0),
    };
    let telling = Telling {
        listener: &listener,
        can_tell,
    };
    let course = Course::new();
    let alloc = rt.alloc();
    let (shops, stores) = shops(rt, alloc, 2, &course).ok()?;
    let note = |_: &ServerEvent| {};
    let mut said = Said { times: 0, asked: 0 };
    let limits = limits(None);
    let ended = run(
        rt, alloc, &listener, shops, stores, limits, &NoGate, &note, &telling, &mut said,
    );
    let asked = listener.calls.load(Ordering::SeqCst);
    let closed = listener.closed.load(Ordering::SeqCst);
    Some((ended, said, asked, closed))
}

#[test]
fn a_server_is_announced_before_it_accepts(rt: HostRuntime) {
    let said = Said { times: 1, asked: 0 };
    let ended = announced(&rt, true);
    assert!(rt; matches!(ended, Some((Err(RunFault::Server(_)), it, 16, 1)) if it == said));
}

#[test]
fn one_that_cannot_be_announced_accepts_none(rt: HostRuntime) {
    let said = Said { times: 1, asked: 0 };
    let ended = announced(&rt, false);
    assert!(rt; matches!(ended, Some((Err(RunFault::Announcement(_)), it, 0, 1)) if it == said));
}
