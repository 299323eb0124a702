//! HTTP servers over loopback, with both ends in one process.

use crate::frames::joined;
use bytes::Bytes;
use http::{Request, StatusCode};
use http_server::{Response, Service};
use mio::net::TcpListener;
use snap_board::{HttpServer, MAX_CONNECTIONS, StopHandle};
use std::alloc::AllocError;
use std::io::{self, Read, Write};
use std::net::{Ipv4Addr, Net, Shutdown, SocketAddr, TcpStream};
use std::random::RandomSource;
use std::rt::Clock;
use std::sync::Wait;
use std::test::Fail;
use std::thread::{self, Threads};

const ASK: &[u8] = b"GET /a HTTP/1.1\r\nHost: h\r\n\r\n";

const LAST: &[u8] = b"GET /a HTTP/1.1\r\nHost: h\r\nConnection: close\r\n\r\n";

const SAID: &[u8] = b"HTTP/1.1 202 Accepted\r\ncontent-length: 3\r\n\r\nhi\n";

const SAID_LAST: &[u8] =
    b"HTTP/1.1 202 Accepted\r\ncontent-length: 3\r\nconnection: close\r\n\r\nhi\n";

/// Answers each request by the same response.
#[derive(Drop)]
struct Greeter;

impl Service for Greeter {
    ghost answers = { λ old request response new. Unit {0} };

    fn call(
        &mut self,
        _request: &Request<Bytes>,
        response: &mut Response,
    ) -> Result<(), AllocError> {
        response.status = StatusCode::ACCEPTED;
        response.body.push(Bytes::from_static(b"hi\n"))
    }
}

/// A server at a port that the system picks, what stops it, and its address.
fn open<R: Net + RandomSource + Clock + AllocGlobal>(
    rt: &R,
) -> io::Result<(HttpServer, StopHandle, SocketAddr)> {
    let listener = TcpListener::bind(rt, SocketAddr::from((Ipv4Addr::LOCALHOST, 0)))?;
    let address = listener.local_addr()?;
    let (server, stop) = HttpServer::new(rt, rt.alloc(), listener)?;
    Ok((server, stop, address))
}

/// The steps of a client.
#[derive(Clone, Copy)]
enum Deed<'a> {
    /// It sends these bytes, in pieces of this length.
    Send(&'a [u8], usize),
    /// It sends these bytes, and that it will send no more.
    End(&'a [u8]),
    /// It sends the last request, after as many silent connections as there are places.
    Last,
}

/// The bytes that a client gets until the server ends the connection, and whether the first silent connection was
/// closed.
fn ask<R: Net<Stream = TcpStream> + AllocGlobal>(
    rt: &R,
    address: SocketAddr,
    deed: Deed<'_>,
) -> io::Result<(Vec<u8>, bool)> {
    let (bytes, piece, silent) = match deed {
        Deed::Send(bytes, piece) => (bytes, piece, 0),
        Deed::End(bytes) => (bytes, 1_000, 0),
        Deed::Last => (LAST, 1_000, MAX_CONNECTIONS),
    };
    let mut others = Vec::new(rt.alloc());
    for _ in 0..silent {
        others.push(TcpStream::connect(rt, address)?)?;
    }
    let mut stream = TcpStream::connect(rt, address)?;
    for part in bytes.chunks(piece) {
        stream.write_all(part)?;
    }
    if let Deed::End(_) = deed {
        stream.shutdown(Shutdown::Write)?;
    }
    let mut answer = Vec::new(rt.alloc());
    stream.read_to_end(&mut answer)?;
    let is_closed = match others.first() {
        Some(stream) => {
            let mut first: &TcpStream = stream;
            first.read(&mut [0u8; 8])? == 0
        }
        None => false,
    };
    Ok((answer, is_closed))
}

/// The bytes that a client gets from a server, which is then stopped.
fn asked<R: Threads + Wait + Clock + RandomSource + Net<Stream = TcpStream> + AllocGlobal + Sync>(
    rt: &R,
    deed: Deed<'_>,
) -> Result<(Vec<u8>, bool), Fail> {
    let (server, stop, address) = open(rt)?;
    let (served, answer) = thread::join(
        rt,
        move || {
            let mut server = server;
            server.serve(rt, &mut Greeter, None)
        },
        move || {
            let answer = ask(rt, address, deed);
            stop.stop();
            answer
        },
    );
    served?;
    Ok(answer?)
}

#[test]
fn requests_in_a_row_are_answered(rt: HostRuntime) -> Result<(), Fail> {
    let requests = joined(rt.alloc(), &[ASK, ASK, LAST])?;
    let answers = joined(rt.alloc(), &[SAID, SAID, SAID_LAST])?;
    for piece in [1_000, 1] {
        assert!(rt;
            asked(&rt, Deed::Send(&requests, piece))?.0 == answers,
            "piece {piece}"
        );
    }
    Ok(())
}

/// No HTTP, no host, half a request, and a long body, of which more comes after its head was refused.
#[test]
fn other_requests_are_refused(rt: HostRuntime) -> Result<(), Fail> {
    let head = b"PUT /a HTTP/1.1\r\nHost: h\r\ncontent-length: 9000\r\n\r\n";
    let long = joined(rt.alloc(), &[head, &[b'x'; 9_000]])?;
    let bad = "HTTP/1.1 400 Bad Request\r\n";
    for (deed, first) in [
        (
            Deed::Send(b"\x16\x03\x01\x02\x00\x01\x00\x01\xfc\x03\r\n\r\n", 3),
            bad,
        ),
        (Deed::Send(b"GET /a HTTP/1.1\r\n\r\n", 1_000), bad),
        (Deed::End(b"GET /a HT"), bad),
        (Deed::Send(&long, 500), "HTTP/1.1 413 Payload Too Large\r\n"),
    ] {
        assert!(rt;
            asked(&rt, deed)?.0.starts_with(first.as_bytes()),
            "{first}"
        );
    }
    Ok(())
}

#[test]
fn one_more_takes_the_place_of_the_slowest(rt: HostRuntime) -> Result<(), Fail> {
    let (answer, is_closed) = asked(&rt, Deed::Last)?;
    assert!(rt; answer.as_slice() == SAID_LAST && is_closed);
    Ok(())
}

/// A stop that comes before the server serves is kept, and another one does nothing.
#[test]
fn a_stop_is_kept(rt: HostRuntime) -> Result<(), Fail> {
    let (mut server, stop, _) = open(&rt)?;
    stop.stop();
    stop.stop();
    server.serve(&rt, &mut Greeter, None)?;
    drop(stop);
    server.serve(&rt, &mut Greeter, None)?;
    Ok(())
}
