//! Runs four writers over failing devices and two scanners in threads, crashes the machine, and opens all files again,
//! 200 times. It checks the recovered files: every update that was answered is there, at most the begun one more, and
//! no scan had shown more than the crash left. Before each crash all writers and scanners are put back into their
//! store, and it is closed.
//!
//! Which calls fail, and what a fault and a crash leave, is drawn from a fixed seed, so the numbers are the same in
//! every run, whatever the threads do. tests/oracle/restart_threads.py works them out from the disk model.
mod draw;
mod generation;
mod worker;

use crate::draw::Draw;
use crate::files::{new_memories, opened_all};
use crate::values::SEGMENTS;
use draw::plan_all;
use generation::{Outcome, SCANNERS, close, crash_all, outcome_of, stored_by, take_out, work_all};
use std::io;
use std::thread::Threads;

const GENERATIONS: u64 = 200;

pub(crate) fn crash_often<X: Threads + Sync>(host: &X, rt: &HostRuntime) -> io::Result<()> {
    let mut draw = Draw { state: 20_261_123 };
    let mut devices = new_memories(rt.alloc(), SEGMENTS as u8)?;
    let mut last = Outcome {
        stored: [0; SEGMENTS],
        most: [0; SEGMENTS],
    };
    for generation in 1..=GENERATIONS {
        plan_all(rt.alloc(), &mut devices, &mut draw)?;
        let mut store = opened_all(rt.alloc(), devices, SCANNERS)?;
        let mut workers = take_out(rt.alloc(), &mut store, &last)?;
        let [a, b, c, d] = stored_by(&workers.clients);
        print!(rt; "generation {generation} starts at {a} {b} {c} {d}, ")?;
        work_all(host, &mut workers);
        last = outcome_of(&mut workers)?;
        devices = close(store, workers)?;
        let [a, b, c, d] = last.stored;
        println!(rt; "stored up to {a} {b} {c} {d}")?;
        crash_all(&mut devices, &mut draw);
    }
    Ok(())
}
