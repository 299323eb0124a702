//! Runs what `make bench` times: its first word says what it does. It is proved, so that no checks are timed.
//!
//!     try_bench store FILE COUNT
//!     try_bench world SEGMENTS ROUNDS LENGTH
//!     try_bench memory WORK SEGMENTS WRITERS ROUNDS LENGTH
//!     try_bench restart WORK FOLDER ROUNDS
//!     try_bench service WORK SEGMENTS ROUNDS LENGTH
//!
//! The head of each module describes its words.
//!
//!     try_bench all
//!
//! runs each of them in turn for a few rounds, and prints a heading `== WORDS` before each.
#![tactic(auto)]

mod files;
mod memory;
mod restart;
mod service;
mod store;
mod world;

use std::sync::Wait;
use std::thread::Threads;
use std::{env, io};

/// The words of each run of `all`.
const RUNS: [&str; 5] = [
    "store F 100",
    "world 2 3 8",
    "memory scan 3 2 50 8",
    "restart memory . 0",
    "service scan 3 2 8",
];

/// Runs what the first word names, with the other words. `host` is the runtime again, for what may start threads and
/// wait.
fn run<X: Threads + Wait + Sync>(host: &X, rt: &HostRuntime, words: &[&str]) -> io::Result<()> {
    match words {
        ["store", words @ ..] => store::measure_stores(rt, words),
        ["world", words @ ..] => world::measure_events(rt, words),
        ["memory", words @ ..] => memory::measure_memory(host, rt, words),
        ["restart", words @ ..] => restart::measure_restarts(rt, words),
        ["service", words @ ..] => service::measure_requests(host, rt, words),
        _ => Err(io::Error::other(
            "the first word is store, world, memory, restart, service or all",
        )),
    }
}

/// Each run of `all`, after its heading.
fn run_all<X: Threads + Wait + Sync>(host: &X, rt: &HostRuntime) -> io::Result<()> {
    for line in RUNS {
        println!(rt; "== {line}")?;
        let words: Vec<&str> = line.split(' ').collect(rt.alloc())?;
        run(host, rt, words.as_slice())?;
    }
    Ok(())
}

fn main(rt: HostRuntime) -> io::Result<()> {
    let words: Vec<String> = env::args(&rt)?.collect(rt.alloc())?;
    let words: Vec<&str> = words
        .iter()
        .skip(1)
        .map(|word| word.as_str())
        .collect(rt.alloc())?;
    match words.as_slice() {
        ["all"] => run_all(&rt, &rt),
        words => run(&rt, &rt, words),
    }
}
