//! Runs parts of the server by themselves, for tests: its first word says what it does.
//!
//!     try_parts segment-sweep
//!     try_parts restart-sweep
//!     try_parts restart-threads
//!     try_parts restart-allocations STEP
//!     try_parts service-allocations WORK ROUNDS
//!     try_parts plug ROUNDS SEED
//!     try_parts server WORKERS MICROS [CONNECTIONS]
//!
//! The head of each module describes its words.
#![tactic(auto)]

mod allocations;
mod calls;
mod draw;
mod files;
mod plug;
mod server;
mod service;
mod sweeps;
mod threads;
mod values;
mod watcher;

use std::net::Net;
use std::rt::Clock;
use std::sync::Wait;
use std::thread::Threads;
use std::{env, io};

/// Runs the part that the first word names, with the other words. `host` is the runtime again, for parts that may start
/// threads, wait and connect.
fn run<X: Threads + Wait + Clock + Net + Sync>(
    host: &X,
    rt: &HostRuntime,
    words: &[&str],
) -> io::Result<()> {
    match words {
        ["segment-sweep"] => sweeps::sweep_segment(rt),
        ["restart-sweep"] => sweeps::sweep_restart(rt),
        ["restart-threads"] => threads::crash_often(host, rt),
        ["restart-allocations", words @ ..] => allocations::allocate(rt, words),
        ["service-allocations", words @ ..] => service::allocate(host, rt, words),
        ["plug", words @ ..] => plug::pull_plug(host, rt, words),
        ["server", words @ ..] => server::serve(host, rt, words),
        _ => Err(io::Error::other("the first word is none of those that src/main.rt has")),
    }
}

fn main(rt: HostRuntime) -> io::Result<()> {
    let words: Vec<String> = env::args(&rt)?.collect(rt.alloc())?;
    let words: Vec<&str> = words
        .iter()
        .skip(1)
        .map(|word| word.as_str())
        .collect(rt.alloc())?;
    run(&rt, &rt, words.as_slice())
}
