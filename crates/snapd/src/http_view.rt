//! The HTTP listener of a server, and its thread.

use crate::surroundings::{Process, Seen};
use log::{info, warn};
use mio::net::TcpListener;
use snap_board::{Board, History, HttpServer, Sampler, StopHandle};
use snap_log::Lines;
use snap_order::{
    MAX_SCANNERS, ServeOptions, Status, fail_of, say, say_of, socket_path, stop_without_memory,
};
use snap_serve::{Observer, system_advice};
use snap_session::Service;
use std::io::{self, ErrorKind};
use std::net::{SocketAddr, ToSocketAddrs};
use std::rt::Clock;
use std::sync::{Mutex, Wait};

/// The listener for browsers and monitors, and the HTTP server that answers them once it has a service.
#[derive(Drop)]
pub struct HttpPlace {
    /// The address, with the port that the system gave.
    pub address: SocketAddr,
    /// Taken by the HTTP thread.
    pub server: Mutex<Option<HttpServer>>,
    pub stop: StopHandle,
}

/// Binds the order's address for HTTP, if it has one; from then on the system accepts connections
/// there. Prints the reason if that fails.
pub fn open_http(rt: &HostRuntime, order: &ServeOptions<'_>) -> Result<Option<HttpPlace>, Status> {
    let Some(address) = order.http else {
        return Ok(None);
    };
    check_address(rt, order, address)?;
    match open_at(rt, address) {
        Ok(place) => Ok(Some(place)),
        Err(error) if error.kind() == ErrorKind::OutOfMemory => Err(stop_without_memory(rt)),
        Err(error) => {
            let advice = system_advice(address, &error);
            let why = format_args!("can't listen there for HTTP: {error}: {advice}");
            Err(fail_of(rt, address, &why))
        }
    }
}

/// Checks that there is a scanner left for HTTP, and that its address is a port of its own. With
/// port 0 the system gives each another port. Prints a message if not.
fn check_address(rt: &HostRuntime, order: &ServeOptions<'_>, address: &str) -> Result<(), Status> {
    if usize::from(order.scanners) >= MAX_SCANNERS {
        let most = MAX_SCANNERS - 1;
        let line = format_args!(
            "--http takes a scanner of its own: give --scanners {most} or fewer"
        );
        say(rt, &line);
        return Err(Status::Misused);
    }
    if socket_path(address).is_some() {
        let why = "HTTP is answered at HOST:PORT: give for example 127.0.0.1:7080";
        return Err(fail_of(rt, address, &why));
    }
    if !address.ends_with(":0") && order.addresses.contains(&address) {
        let why = "clients and HTTP can't have one address: give --http another port";
        say_of(rt, address, &why);
        return Err(Status::Misused);
    }
    Ok(())
}

/// Binds this address. A name is looked up, and its addresses are tried in order. The error is that of the last one.
fn open_at(rt: &HostRuntime, address: &str) -> io::Result<HttpPlace> {
    let mut why = io::Error::from(ErrorKind::InvalidInput);
    for candidate in address.to_socket_addrs(rt)? {
        match TcpListener::bind(rt, candidate) {
            Ok(listener) => return place_of(rt, listener),
            Err(error) => why = error,
        }
    }
    Err(why)
}

/// The HTTP server of this listener.
fn place_of(rt: &HostRuntime, listener: TcpListener) -> io::Result<HttpPlace> {
    let address = listener.local_addr()?;
    let (server, stop) = HttpServer::new(rt, rt.alloc(), listener)?;
    Ok(HttpPlace {
        address,
        server: Mutex::new(Some(server)),
        stop,
    })
}

/// Answers browsers and monitors, on a thread of its own.
#[derive(Drop)]
pub struct HttpView<'a, X: Wait + Clock> {
    pub log: &'a Lines<'a, X>,
    pub process: &'a Process<'a>,
    pub place: &'a HttpPlace,
}

impl<X: Wait + Clock> Observer for HttpView<'_, X> {
    /// Answers with this service until the server ends, and takes a sample of the metrics about once a second.
    fn look<Y: Wait + Clock, S: Service + Drop>(&self, rt: &Y, service: S) {
        let Some(mut server) = self.place.server.lock(rt).take() else {
            return;
        };
        let address = self.place.address;
        info!(self.log; target: "http", "browsers and monitors are answered at http://{address}/");
        let alloc = self.process.rt.alloc();
        let history = History::new(alloc);
        let seen = Seen {
            process: self.process,
            log: self.log,
            history: &history,
        };
        let mut board = Board::new(alloc, service, seen);
        let sampler = Sampler {
            alloc,
            metrics: self.process.metrics,
            began: self.process.began,
            history: &history,
        };
        if let Err(error) = server.serve(rt, &mut board, Some(sampler)) {
            warn!(self.log; target: "http", "no browser and no monitor is answered any more: {error}");
        }
    }

    fn stop(&self) {
        self.place.stop.stop();
    }
}
