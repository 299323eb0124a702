//! The two halves of an exchange: writing a whole frame, and reading a reply.
ghost use Rattle.std.specs.Prelude.{◌≡◌, ◌≤◌, ◌↔◌, IsTrue, length, Option, None, OnOk};
ghost use Rattle.snap_client.specs.Calls.{Answers, Reaches, client_of, talking};
ghost use Rattle.snap_client.specs.{declared.fault.ClientFault.ClientFault, Exchange.Sends, Exchange.Hears};
ghost use Rattle.snap_frame.specs.Messages.{max_payload, payload, IsAskable};
ghost use Rattle.snap_frame.specs.Stream.{empty, IsBytes};

use crate::fault::ClientFault;
use bytes::BytesMut;
use snap_frame::{FrameFault, Reply, ReplyFault, ReplyFeed, Request, write_request};
use std::io::{Read, Write};

/// The most bytes of one read. The buffer is on the stack, so a short reply takes no heap for it.
const PIECE_LEN: usize = 16_384;

/// Writes all bytes, in as few calls as the writer takes; `false` at the first call that fails or takes no byte.
fn send<W: Write>(writer: &mut W, bytes: &[u8]) -> bool
    ensures { Sends (W.contents writer.old) (W.contents writer.new) bytes.now result }
{
    let mut at = 0;
    while at < bytes.len() {
        match writer.write(&bytes[at..]) {
            Ok(0) => return false,
            Ok(n) => at += n,
            Err(_) => return false,
        }
    }
    true
}

/// Shows that no byte is above 255.
fn all_bytes(bytes: &[u8]) -> usize
    ensures { IsBytes bytes.now }
{
    bytes.len()
}

/// Reads until a whole reply has arrived.
fn hear<R: Read>(reader: &mut R, feed: &mut ReplyFeed) -> Result<Reply, ClientFault>
    requires { feed.old ≡ empty }
    ensures { Hears (R.remaining reader.old) (R.remaining reader.new) result feed.new }
{
    let mut piece = [0u8; PIECE_LEN];
    loop {
        let n = match reader.read(&mut piece) {
            Ok(0) => return Err(ClientFault::Ended),
            Ok(n) => n,
            Err(_) => return Err(ClientFault::ReadFailed),
        };
        let came = &piece[..n];
        let _ = all_bytes(came);
        match feed.push(came) {
            Ok(()) => {}
            Err(_) => return Err(ClientFault::NoMemory),
        }
        match feed.next() {
            Ok(Some(reply)) => return Ok(reply),
            Ok(None) => {}
            Err(ReplyFault::BadReply) => return Err(ClientFault::BadReply),
            Err(ReplyFault::Failed(FrameFault::TooLarge)) => return Err(ClientFault::BadReply),
            Err(ReplyFault::Failed(FrameFault::NoMemory)) => return Err(ClientFault::NoMemory),
        }
    }
}

/// Whether a reply of this kind answers the request: a refusal answers any.
fn answers(request: &Request, reply: &Reply) -> bool
    ensures { IsTrue result ↔ Answers request.now reply.now }
{
    match (request, reply) {
        (_, Reply::Refused { .. }) => true,
        (Request::Update { .. }, Reply::Stored(_)) => true,
        (Request::Scan, Reply::Snapshot(_)) => true,
        (Request::Status, Reply::Status(_)) => true,
        (Request::Part(_), Reply::Part(_)) => true,
        _ => false,
    }
}

/// One request and its answer, on a connection without a fault. `frame` is the buffer for the request's frame.
pub(crate) fn exchange<R: Read, W: Write>(
    reader: &mut R,
    writer: &mut W,
    feed: &mut ReplyFeed,
    frame: &mut BytesMut,
    request: &Request,
) -> Result<Reply, ClientFault>
    requires fits { length (payload request.now) ≤ max_payload }
    requires askable { IsAskable request.now }
    requires going { feed.old.failure ≡ None }
    // It holds for whichever fault the client keeps then.
    ensures reaches { (fault : Option ClientFault) → Reaches R.remaining W.contents request.now
        (talking reader.old writer.old feed.old.bytes) result (client_of reader.new writer.new feed.new.bytes fault) }
    ensures going { OnOk result (feed.new.failure ≡ None) }
{
    if !feed.is_between() {
        return Err(ClientFault::BadReply);
    }
    frame.clear();
    if write_request(request, frame).is_err() {
        return Err(ClientFault::NoMemory);
    }
    if !send(writer, frame.as_slice()) {
        return Err(ClientFault::WriteFailed);
    }
    match hear(reader, feed) {
        Ok(reply) => {
            if !answers(request, &reply) {
                return Err(ClientFault::BadReply);
            }
            Ok(reply)
        }
        Err(fault) => Err(fault),
    }
}
