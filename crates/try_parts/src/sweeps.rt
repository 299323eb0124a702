//! Makes each device call of a run fail in turn, or be the last before the power fails, crashes the
//! machine after it, and prints what the files are then opened as.
//!
//!     try_parts segment-sweep
//!
//! does so with a format, with stores and with a migration. What it must print is worked out from the disk model and
//! the file's format by tests/oracle/segment_sweep.py, which knows nothing of this code.
//!
//!     try_parts restart-sweep
//!
//! does so with an opening of three files, of which the second was left by a store whose last sync
//! failed, so that each fill matters. Then it prints the answers for devices that give random bytes.
//! What it must print is worked out from the disk model by tests/oracle/restart_sweep.py.
mod migration;
mod noise;
mod recovery;
mod segment;
mod stop;
mod subject;

use noise::noise_row;
use std::io;
use stop::{GARBAGE, Garbage, Stop};
use subject::Subject;

/// The seeds of random bytes. By some of them the header's gate is open.
const SEEDS: [u64; 8] = [1, 2, 3, 4, 19, 291, 399, u64::MAX];

pub(crate) fn sweep_segment(rt: &HostRuntime) -> io::Result<()> {
    for subject in [
        Subject::Format,
        Subject::StoreClosed,
        Subject::StoreOpen,
        Subject::Migration,
    ] {
        sweep(rt, subject)?;
    }
    Ok(())
}

pub(crate) fn sweep_restart(rt: &HostRuntime) -> io::Result<()> {
    sweep(rt, Subject::Opening)?;
    println!(rt; "random bytes: open, open all of 3, check, format, migrate from them")?;
    for seed in SEEDS {
        let words = noise_row(rt.alloc(), seed)?;
        println!(rt; "seed {seed}: {words}")?;
    }
    Ok(())
}

/// A row for each stop of the run.
fn sweep(rt: &HostRuntime, subject: Subject) -> io::Result<()> {
    println!(rt; "{}", subject.title())?;
    for passes in 0..subject.calls() {
        for garbage in GARBAGE {
            let fault = Some(garbage);
            row(rt, subject, Stop { passes, fault })?;
        }
    }
    for passes in 0..=subject.calls() {
        let fault = None;
        row(rt, subject, Stop { passes, fault })?;
    }
    Ok(())
}

/// One line: how the run was stopped, what it answered, and what is found after a crash with each garbage.
fn row(rt: &HostRuntime, subject: Subject, stop: Stop) -> io::Result<()> {
    print_stop(rt, stop, subject.first_call())?;
    let (answer, found) = subject.cell(rt.alloc(), stop, Garbage::Keep)?;
    print!(rt; ": {answer}; {found}")?;
    for garbage in [Garbage::Closed, Garbage::Open] {
        let (_, found) = subject.cell(rt.alloc(), stop, garbage)?;
        print!(rt; " | {found}")?;
    }
    println!(rt)
}

/// How the run was stopped. Its first call has this number.
fn print_stop(rt: &HostRuntime, stop: Stop, first: u64) -> io::Result<()> {
    match stop.fault {
        None => print!(rt; "stop behind {}", stop.passes),
        Some(garbage) => {
            let (call, name) = (stop.passes + first, garbage.name());
            print!(rt; "call {call} fails {name}")
        }
    }
}
