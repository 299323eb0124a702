//! The server's loop over loopback without files, for tests/test_server_loop.py.
//!
//!     try_parts server WORKERS MICROS [CONNECTIONS]
//!
//! Each store rests MICROS microseconds over an update. On standard error it prints `listening ADDRESS`. Once all
//! connections have ended it prints how each of them did, in the order in which they ended, then how many requests
//! entered the gate and left it, and what `run` answered.
mod desk;
mod tally;

use crossbeam_channel::{Receiver, Sender};
use desk::open;
use snap_server::{CloseReason, Closed, Limits, NoAnnouncement, RunFault, ServerEvent, Tcp, run};
use std::alloc::Global;
use std::io;
use std::net::{Ipv4Addr, Net, SocketAddr};
use std::rt::Clock;
use std::sync::Wait;
use std::thread::Threads;
use std::time::Duration;
use tally::Tally;

/// The options in the words of the command. A word that is missing, or is no number, counts as not given.
#[derive(Clone, Copy)]
struct Plan {
    workers: usize,
    delay: Duration,
    connections: Option<u64>,
}

fn number(words: &[&str], place: usize) -> Option<u64> {
    words.get(place).and_then(|word| word.parse().ok())
}

fn plan_of(words: &[&str]) -> Plan {
    Plan {
        workers: number(words, 0).unwrap_or(2) as usize,
        delay: Duration::from_micros(number(words, 1).unwrap_or(0)),
        connections: number(words, 2),
    }
}

pub(crate) fn serve<X>(host: &X, rt: &HostRuntime, words: &[&str]) -> io::Result<()>
where
    X: Threads + Wait + Clock + Net + Sync,
{
    let tcp = Tcp::bind(rt, SocketAddr::from((Ipv4Addr::LOCALHOST, 0)))?;
    let address = tcp.address()?;
    eprintln!(rt; "listening {address}")?;
    serve_at(host, rt, &tcp, plan_of(words))
}

/// Serves as planned, and prints how each connection did and what was counted.
fn serve_at<X>(host: &X, rt: &HostRuntime, tcp: &Tcp, plan: Plan) -> io::Result<()>
where
    X: Threads + Wait + Clock + Net + Sync,
{
    let (to, notes) = crossbeam_channel::unbounded(rt.alloc())?;
    let tally = Tally::new();
    let served = run_desks(host, rt.alloc(), tcp, plan, &tally, &to)?;
    print_ends(host, rt, &notes)?;
    let (entered, left) = tally.counts();
    println!(rt; "entered {entered}, left {left}")?;
    match served {
        Ok(k) => println!(rt; "served {k}"),
        Err(RunFault::Server(fault)) => println!(rt; "{fault}"),
        Err(RunFault::Announcement(error)) => println!(rt; "{error}"),
    }
}

/// Serves with desks and stores as planned, and sends how each connection ended.
fn run_desks<X>(
    host: &X,
    alloc: Global,
    tcp: &Tcp,
    plan: Plan,
    tally: &Tally,
    to: &Sender<Closed>,
) -> io::Result<Result<u64, RunFault>>
where
    X: Threads + Wait + Clock + Net + Sync,
{
    let (desks, stores) = open(host, alloc, plan.workers, plan.delay)?;
    let note = |note: &ServerEvent| {
        if let ServerEvent::Ended(ended) = note {
            let _ = to.send(host, *ended);
        }
    };
    let limits = Limits {
        connections: plan.connections,
        clients: usize::MAX,
        fault_rest: Duration::ZERO,
        idle: None,
    };
    let said = &NoAnnouncement;
    Ok(run(
        host,
        alloc,
        tcp,
        desks,
        stores,
        limits,
        tally,
        &note,
        said,
        &mut (),
    ))
}

/// Prints how each connection ended.
fn print_ends<X: Wait>(host: &X, rt: &HostRuntime, notes: &Receiver<Closed>) -> io::Result<()> {
    for _ in host.forever() {
        let Ok(ended) = notes.try_recv(host) else {
            break;
        };
        match ended.how {
            CloseReason::Session(end) => println!(rt; "{} {end:?}", ended.peer)?,
            how => println!(rt; "{} {how:?}", ended.peer)?,
        }
    }
    Ok(())
}
