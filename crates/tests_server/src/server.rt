//! Servers over loopback, with both ends in one process.

mod announcements;
mod course;
mod gates;
mod shop;

use course::Course;
use shop::{Shop, Store};
use snap_server::{Gate, Limits, NoAnnouncement, RunFault, ServerEvent, ServerFault, Tcp, run};
use std::alloc::{AllocError, Global};
use std::io;
use std::io::{Read, Write};
use std::net::{Ipv4Addr, Net, Shutdown, SocketAddr, TcpStream};
use std::rt::Clock;
use std::sync::Wait;
use std::thread::Threads;
use std::time::Duration;

/// `workers` services, and the store that gets their updates.
fn shops<'a, R: Wait>(
    rt: &'a R,
    alloc: Global,
    workers: usize,
    course: &'a Course,
) -> Result<(Vec<Shop<'a, R>>, Vec<Store<'a, R>>), AllocError> {
    let (to, jobs) = crossbeam_channel::unbounded(alloc)?;
    let mut stores = Vec::new(alloc);
    stores.push(Store { rt, jobs })?;
    let mut shops = Vec::new(alloc);
    for worker in 0..workers {
        let to = to.clone()?;
        shops.push(Shop {
            rt,
            worker,
            to,
            course,
        })?;
    }
    Ok((shops, stores))
}

/// `connections` in all, up to 1,000 at once, and no rest after a fault.
fn limits(connections: Option<u64>) -> Limits {
    Limits {
        connections,
        clients: 1_000,
        fault_rest: Duration::ZERO,
        idle: None,
    }
}

/// Serves `connections` connections with `workers` workers and one store, with a gate around each request.
fn serve_behind<R: Threads + Wait + Clock + Net + AllocGlobal + Sync, G: Gate + Sync>(
    rt: &R,
    tcp: &Tcp,
    workers: usize,
    connections: u64,
    course: &Course,
    gate: &G,
) -> Result<u64, ServerFault> {
    let alloc = rt.alloc();
    let Ok((shops, stores)) = shops(rt, alloc, workers, course) else {
        return Err(ServerFault::NoMemory);
    };
    let (limits, note) = (limits(Some(connections)), |_: &ServerEvent| {});
    let said = &NoAnnouncement;
    match run(
        rt,
        alloc,
        tcp,
        shops,
        stores,
        limits,
        gate,
        &note,
        said,
        &mut (),
    ) {
        Ok(served) => Ok(served),
        Err(RunFault::Server(fault)) => Err(fault),
        Err(RunFault::Announcement(_)) => unreachable!(),
    }
}

/// A listener at a port that the system picks, and its address.
pub(crate) fn listen(rt: &HostRuntime) -> io::Result<(Tcp, SocketAddr)> {
    let tcp = Tcp::bind(rt, SocketAddr::from((Ipv4Addr::LOCALHOST, 0)))?;
    let address = tcp.address()?;
    Ok((tcp, address))
}

pub(crate) fn connect(rt: &HostRuntime, address: SocketAddr) -> io::Result<TcpStream> {
    TcpStream::connect(rt, address)
}

/// A connection that has sent these bytes, and will send no more.
fn send(rt: &HostRuntime, address: SocketAddr, bytes: &[u8]) -> io::Result<TcpStream> {
    let mut stream = connect(rt, address)?;
    stream.write_all(bytes)?;
    stream.shutdown(Shutdown::Write)?;
    Ok(stream)
}

/// Whether these bytes come next.
pub(crate) fn gets(mut stream: &TcpStream, wanted: &[u8]) -> io::Result<bool> {
    let mut bytes = [0u8; 64];
    let len = wanted.len();
    stream.read_exact(&mut bytes[..len])?;
    Ok(&bytes[..len] == wanted)
}
