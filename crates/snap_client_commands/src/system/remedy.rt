//! Advice if the system can't connect to a server.

use snap_order::socket_path;
use std::io::{self, ErrorKind};

/// Linux's ENFILE and EMFILE: no descriptors are left.
const NO_DESCRIPTOR: [i32; 2] = [23, 24];

/// Linux's ENOBUFS: no memory for a connection.
const NO_BUFFERS: i32 = 105;

/// Linux's EPROTOTYPE: a socket of another kind is bound there.
const WRONG_KIND: i32 = 91;

/// The advice for this reason of the system. `None` if the connection was made and then failed.
pub fn remedy_of(address: &str, reason: &io::Error) -> Option<&'static str> {
    Some(match (reason.raw_os_error(), reason.kind()) {
        (Some(code), _) if NO_DESCRIPTOR.contains(&code) =>
            "raise the limit of open files (ulimit -n, or fs.file-max)",
        (Some(NO_BUFFERS), _) | (_, ErrorKind::OutOfMemory) =>
            "the system has no memory for a connection: free some",
        (Some(WRONG_KIND), _) => "the socket is another program's: check the path",
        (_, ErrorKind::ConnectionReset | ErrorKind::ConnectionAborted | ErrorKind::BrokenPipe) =>
            return None,
        (_, kind) if socket_path(address).is_some() => remedy_of_socket(kind),
        (_, kind) => remedy_of_port(kind),
    })
}

/// The advice for a Unix socket.
fn remedy_of_socket(kind: ErrorKind) -> &'static str {
    match kind {
        ErrorKind::NotFound =>
            "there is no socket: start snapd serve there, or wait for it with --wait",
        ErrorKind::ConnectionRefused =>
            "nobody serves at that path: start snapd serve there, or wait for it with --wait",
        ErrorKind::PermissionDenied =>
            "this user may not use the socket, or not look into its folder: call as the one that \
serves, or give that one's group the right by snapd serve --socket-mode 0660",
        _ => "check the path",
    }
}

/// The advice for a port.
fn remedy_of_port(kind: ErrorKind) -> &'static str {
    match kind {
        ErrorKind::ConnectionRefused =>
            "nobody listens there: start snapd serve there, or wait for it with --wait",
        ErrorKind::PermissionDenied => "a firewall or a policy of this machine forbids it",
        ErrorKind::TimedOut =>
            "nothing answers there: check the address, and the firewalls on the way",
        ErrorKind::HostUnreachable | ErrorKind::NetworkUnreachable | ErrorKind::NetworkDown =>
            "check the address, and the network on the way",
        ErrorKind::AddrNotAvailable => "this machine has no address or no port left to call from",
        _ => "check the address",
    }
}
