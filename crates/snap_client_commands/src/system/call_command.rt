//! Calls a server over TCP or a Unix socket.
ghost use Rattle.snap_order.specs.Order.{IsCallable, IsDumpable};

use super::time_limit::{Course, TimeLimit};
use super::tries::Tries;
use crate::call;
use snap_frame::SegmentValue;
use snap_order::{CallOptions, DumpOptions, Status, say_of, socket_path};
use std::io::{self, ErrorKind};
use std::net::{Net, TcpStream, ToSocketAddrs};
use std::os::fd::OwnedFd;
use std::os::unix::net::UnixStream;
use std::thread;
use std::time::Duration;

/// Runs the command `call`, and returns the exit status. An address that the system doesn't take fails before any
/// connection is made. If the call failed, this also prints the system's reason, and whether the time was over.
pub fn call(rt: &HostRuntime, order: &CallOptions<'_>) -> Status
    requires { IsCallable order.now }
{
    if !is_worth_a_try(rt, order.address, order.wait.is_some()) {
        return Status::Failed;
    }
    let course = Course::new();
    let mut tries = Tries::new(rt, order.address, order.wait, order.timeout, &course);
    let mut connect = || tries.next();
    let ended = call::ask(
        rt.alloc(),
        order,
        &mut connect,
        &mut rt.stdin(),
        &mut rt.stdout(),
        &mut rt.stderr(),
    );
    tries.say_why(ended.status);
    ended.status
}

/// The values of the server at this address, by one scan. An error is the exit status, as of a call with these options.
pub fn fetch(
    rt: &HostRuntime,
    address: &str,
    order: &DumpOptions<'_>,
) -> Result<Vec<SegmentValue>, Status>
    requires { IsDumpable order.now }
{
    if !is_worth_a_try(rt, address, order.wait.is_some()) {
        return Err(Status::Failed);
    }
    let course = Course::new();
    let mut tries = Tries::new(rt, address, order.wait, order.timeout, &course);
    let mut connect = || tries.next();
    let most = match order.wait {
        Some(_) => None,
        None => Some(order.tries),
    };
    match call::fetch(rt.alloc(), address, most, &mut connect, &mut rt.stderr()) {
        Ok(values) => Ok(values),
        Err(ended) => {
            tries.say_why(ended.status);
            Err(ended.status)
        }
    }
}

/// Whether to connect to the address: the system takes it, or may take it later and the call waits. Prints the reason
/// if not.
pub fn is_worth_a_try(rt: &HostRuntime, address: &str, is_waiting: bool) -> bool {
    // A Unix socket's address needs no look-up.
    if socket_path(address).is_some() {
        return true;
    }
    match address.to_socket_addrs(rt) {
        Err(error) if !is_waiting || error.kind() == ErrorKind::InvalidInput => {
            say_of(rt, address, &error);
            false
        }
        _ => true,
    }
}

/// Connects before the time is over, by TCP or to a Unix socket. What is written over TCP is sent without delay.
pub fn link_within(
    rt: &HostRuntime,
    address: &str,
    limit: &TimeLimit<'_>,
) -> io::Result<TcpStream> {
    if let Some(path) = socket_path(address) {
        let stream = connect_unix_within(rt, path, limit)?;
        return Ok(TcpStream::from(OwnedFd::from(stream)));
    }
    let stream = connect_within(rt, address, limit)?;
    stream.set_nodelay(true)?;
    Ok(stream)
}

/// The pause before another try if a server's queue is full, in milliseconds.
const QUEUE_REST: u64 = 10;

/// Connects to the Unix socket at this path before the time is over. While the queue is full the system waits, or this
/// function if there is a limit.
fn connect_unix_within(
    rt: &HostRuntime,
    path: &str,
    limit: &TimeLimit<'_>,
) -> io::Result<UnixStream> {
    if limit.left()?.is_none() {
        return UnixStream::connect(rt, path);
    }
    for _ in 0..u64::MAX {
        match mio::net::UnixStream::connect(rt, path) {
            Ok(stream) => {
                let stream = UnixStream::from(stream);
                stream.set_nonblocking(false)?;
                return Ok(stream);
            }
            Err(error) if error.kind() == ErrorKind::WouldBlock => {}
            Err(error) => return Err(error),
        }
        thread::sleep(rt, Duration::from_millis(QUEUE_REST));
        limit.left()?;
    }
    Err(io::Error::from(ErrorKind::TimedOut))
}

/// Connects to the first of the name's addresses that accepts before the time is over. Each remaining address gets an
/// equal share of the remaining time, which is never zero.
fn connect_within(rt: &HostRuntime, address: &str, limit: &TimeLimit<'_>) -> io::Result<TcpStream> {
    let mut last = io::Error::from(ErrorKind::AddrNotAvailable);
    let found = address.to_socket_addrs(rt)?;
    let mut untried = u32::try_from(found.len()).unwrap_or(1);
    for place in found {
        let made = match limit.left()? {
            Some(left) => {
                let share = left / untried.max(1);
                TcpStream::connect_timeout(rt, &place, share.max(Duration::from_millis(1)))
            }
            None => rt.connect(place),
        };
        match made {
            Ok(stream) => return Ok(stream),
            Err(error) => last = error,
        }
        untried = untried.saturating_sub(1);
    }
    Err(last)
}
