//! Checks the text of an address before anything is opened: what it lacks, and whether it lets everybody in.

use snap_order::socket_path;
use std::net::{IpAddr, Ipv6Addr, SocketAddr};
use thiserror::Error;

/// The longest path of a Unix socket, in bytes.
const MAX_SOCKET_PATH: usize = 107;

/// The part that an address lacks. The message also says what to give.
#[derive(Clone, Copy, Debug, Error)]
pub enum AddressFault {
    #[error("an address is HOST:PORT or unix:PATH, and the host is missing: give for example 127.0.0.1:7070")]
    Host,
    #[error("an address is HOST:PORT or unix:PATH, and the port is missing: give for example 127.0.0.1:7070")]
    Port,
    #[error("an address is HOST:PORT or unix:PATH, and both are missing: give for example 127.0.0.1:7070")]
    Both,
    #[error("an address of a Unix socket is unix:PATH, and the path is missing: give for example unix:snapd.sock")]
    Path,
    #[error("the path of a Unix socket has at most {max} bytes, and this one has {len}: give a shorter one, from the \
        folder where it is used", max = MAX_SOCKET_PATH)]
    ShortPath { len: usize },
}

/// The part that the address lacks: a host, a port or a path. `None` if it has all; the system decides whether they are
/// valid.
pub fn lack_of(address: &str) -> Option<AddressFault> {
    if let Some(path) = socket_path(address) {
        return match path.len() {
            0 => Some(AddressFault::Path),
            len if len > MAX_SOCKET_PATH => Some(AddressFault::ShortPath { len }),
            _ => None,
        };
    }
    if !address.is_empty() && address.bytes().all(|byte| byte.is_ascii_digit()) {
        return Some(AddressFault::Host);
    }
    if address.starts_with('[') && address.ends_with(']') {
        return Some(AddressFault::Port);
    }
    let (host, port) = address.rsplit_once(':').unwrap_or((address, ""));
    match (host.is_empty(), port.is_empty()) {
        (true, true) => Some(AddressFault::Both),
        (true, false) => Some(AddressFault::Host),
        (false, true) => Some(AddressFault::Port),
        (false, false) if is_bare(address, host) => Some(AddressFault::Port),
        (false, false) => None,
    }
}

/// Whether the whole address is an IPv6 address, without a port. If its part before the last colon
/// is one too, the system decides, which takes the rest for a port.
fn is_bare(address: &str, host: &str) -> bool {
    address.parse::<Ipv6Addr>().is_ok() && host.parse::<Ipv6Addr>().is_err()
}

/// Whether a server at this address accepts connections from all networks of the machine: the host
/// is `0.0.0.0`, in any form that the system reads, or `::`.
pub fn is_everywhere(address: &str) -> bool {
    if socket_path(address).is_some() {
        return false;
    }
    if let Ok(address) = address.parse::<SocketAddr>() {
        return address.ip().to_canonical().is_unspecified();
    }
    let Some((host, _)) = address.rsplit_once(':') else {
        return false;
    };
    match host.parse::<IpAddr>() {
        Ok(ip) => ip.to_canonical().is_unspecified(),
        Err(_) => host.split('.').all(is_zero),
    }
}

/// Whether this part of an address is zero, as the system reads it: `0`, `00` or `0x0`.
fn is_zero(number: &str) -> bool {
    let digits = number.strip_prefix("0x").unwrap_or(number);
    !digits.is_empty() && digits.bytes().all(|byte| byte == b'0')
}
