//! One request on one connection after another.
ghost use Rattle.std.specs.Prelude.{◌≤◌, length};
ghost use Rattle.snap_frame.specs.Messages.{max_payload, payload, IsAskable};
ghost use Rattle.snap_client.specs.declared.again.TheConstants.{MAX_TRIES};
ghost use Rattle.snap_client.specs.Again.{Tries, TriesUpTo, TriesWhile};

use crate::client::Client;
use crate::fault::ClientFault;
use snap_frame::{Reply, Request};
use std::alloc::Global;
use std::io::{Read, Write};

/// The most connections that [`call_again`] makes for one request.
pub const MAX_TRIES: u8 = 10;

/// Sends the request once, on a connection of its own.
fn try_once<R: Read + Drop, W: Write + Drop, F: FnMut() -> Option<(R, W)>>(
    alloc: Global,
    connect: &mut F,
    request: &Request,
) -> Result<Reply, ClientFault>
    requires fits { length (payload request.now) ≤ max_payload }
    requires askable { IsAskable request.now }
    requires callable { F.IsAlwaysCallable connect.old }
    ensures { Tries F.step R.remaining W.contents request.now connect.old result connect.new }
{
    let Some((reader, writer)) = connect() else {
        return Err(ClientFault::ConnectFailed);
    };
    let mut client = Client::new(alloc, reader, writer);
    client.call(request)
}

/// Sends a request on a connection of its own, and again on a new one as long as there are tries
/// left and the fault is one that may pass ([`ClientFault::may_pass`]).
///
/// `connect` returns a reader and a writer, or `None` if it can't connect. It is called at most `tries` times, 1 to
/// [`MAX_TRIES`]; each connection is dropped before the next one is made. The last one's answer is the answer.
pub fn call_again<R: Read + Drop, W: Write + Drop, F: FnMut() -> Option<(R, W)>>(
    alloc: Global,
    connect: &mut F,
    request: &Request,
    tries: u8,
) -> Result<Reply, ClientFault>
    requires fits { length (payload request.now) ≤ max_payload }
    requires askable { IsAskable request.now }
    requires some { 1 ≤ tries }
    requires few { tries ≤ MAX_TRIES }
    requires callable { F.IsAlwaysCallable connect.old }
    ensures { TriesUpTo tries F.step R.remaining W.contents request.now connect.old result connect.new }
{
    let mut left = tries;
    while left > 1 {
        match try_once(alloc, connect, request) {
            Ok(reply) => return Ok(reply),
            Err(fault) if fault.may_pass() => left -= 1,
            Err(fault) => return Err(fault),
        }
    }
    try_once(alloc, connect, request)
}

/// Sends a request as [`call_again`] does, on as many connections as `connect` returns: it continues
/// after each fault that may pass, until `connect` returns `None`, after which it may be called once
/// more. The answer is the last connection's, or [`ClientFault::ConnectFailed`] if there was none.
pub fn call_while<R: Read + Drop, W: Write + Drop, F: FnMut() -> Option<(R, W)>>(
    alloc: Global,
    connect: &mut F,
    request: &Request,
) -> Result<Reply, ClientFault>
    requires fits { length (payload request.now) ≤ max_payload }
    requires askable { IsAskable request.now }
    requires callable { F.IsAlwaysCallable connect.old }
    ensures { TriesWhile F.step R.remaining W.contents request.now connect.old result connect.new }
{
    let mut fault = match try_once(alloc, connect, request) {
        Ok(reply) => return Ok(reply),
        Err(fault) => fault,
    };
    let mut left = u64::MAX;
    while left > 0 {
        if !fault.may_pass() {
            return Err(fault);
        }
        match try_once(alloc, connect, request) {
            Ok(reply) => return Ok(reply),
            Err(ClientFault::ConnectFailed) => return Err(fault),
            Err(next) => fault = next,
        }
        left -= 1;
    }
    Err(fault)
}
