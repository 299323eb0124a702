//! Gates that requests pass: one after the other, and two at once.

use super::course::Course;
use super::{listen, send, serve_behind};
use crate::frames::{HI, SCAN, STORED_0, STORED_1, joined};
use snap_server::Gate;
use std::io::Read;
use std::sync::atomic::{AtomicU64, Ordering};
use std::test::Fail;
use std::thread::yield_now;

/// How many turns of yielding a request waits at the gate, at most: beside other work the second may be seconds late.
const TURNS: u64 = 50_000_000;

/// Holds each request until a second one has entered, or for all its turns.
#[derive(Drop)]
struct Meeting {
    entered: AtomicU64,
    met: AtomicU64,
}

impl Gate for Meeting {
    fn enter(&self) {
        self.entered.fetch_add(1, Ordering::SeqCst);
        for _ in 0..TURNS {
            if self.entered.load(Ordering::SeqCst) >= 2 {
                self.met.fetch_add(1, Ordering::SeqCst);
                return;
            }
            yield_now();
        }
    }

    fn leave(&self) {}
}

#[test]
fn answers_in_order_inside_the_gate(rt: HostRuntime) -> Result<(), Fail> {
    let (tcp, address) = listen(&rt)?;
    let mut stream = send(&rt, address, &joined(rt.alloc(), &[SCAN, HI, SCAN])?)?;
    let course = Course::new();
    assert!(rt; serve_behind(&rt, &tcp, 1, 1, &course, &course) == Ok(1));
    assert!(rt; course.passed() == (3, 0));
    let mut replies = Vec::new(rt.alloc());
    stream.read_to_end(&mut replies)?;
    assert!(rt; replies == joined(rt.alloc(), &[STORED_0, STORED_1, STORED_0])?);
    Ok(())
}

#[test]
fn two_workers_answer_at_once(rt: HostRuntime) -> Result<(), Fail> {
    let (tcp, address) = listen(&rt)?;
    let first = send(&rt, address, SCAN)?;
    let second = send(&rt, address, SCAN)?;
    let meeting = Meeting {
        entered: AtomicU64::new(0),
        met: AtomicU64::new(0),
    };
    assert!(rt; serve_behind(&rt, &tcp, 2, 2, &Course::new(), &meeting) == Ok(2));
    assert!(rt; meeting.met.load(Ordering::SeqCst) == 2);
    drop(first);
    drop(second);
    Ok(())
}
