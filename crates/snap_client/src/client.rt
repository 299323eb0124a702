//! One connection to a server, request by request.
ghost use Rattle.std.specs.Prelude.{◌≡◌, ◌<◌, ◌≤◌, length};
ghost use Rattle.snap_frame.specs.declared.request.Request.TheVariants as requests;
ghost use Rattle.snap_frame.specs.declared.request.TheConstants.{MAX_UPDATE_VALUE};
ghost use Rattle.snap_frame.specs.Messages.{max_payload, payload, IsAskable};
ghost use Rattle.snap_client.specs.Calls.{Calls, fresh};

use crate::exchange::exchange;
use crate::fault::ClientFault;
use bytes::{Bytes, BytesMut};
use snap_frame::{Reply, ReplyFeed, Request, SegmentSet};
use std::alloc::Global;
use std::io::{Read, Write};
use std::marker::Model;

/// One connection to a server, over any reader and writer.
///
/// A call writes its request's frame, then reads until a whole reply has arrived, so it blocks as
/// long as its reader and its writer do. The writer has to pass on what it takes: it isn't flushed.
///
/// After a fault the client has failed: every later call returns the same fault, and neither reads nor writes. If more
/// bytes arrive than the replies have, the next call fails as [`ClientFault::BadReply`] before anything is sent; so no
/// reply is ever taken from bytes that arrived before its request was sent.
#[derive(Drop)]
pub struct Client<R: Read, W: Write> {
    reader: R,
    writer: W,
    feed: ReplyFeed,
    /// The buffer of a request's frame, which every call reuses.
    frame: BytesMut,
    fault: Option<ClientFault>,
}

impl<R: Read, W: Write> Model for Client<R, W> {
    ghost use Rattle.std.specs.Prelude.{◌≡◌, None};
    ghost use Rattle.snap_client.specs.Calls.{ClientState};

    ghost Value = { ClientState R W };

    ghost view = { λ c. record {
      reader = c.reader;
      writer = c.writer;
      held = c.feed.bytes;
      fault = c.fault;
    } };

    ghost invariant = { λ c. c.fault ≡ None → c.feed.failure ≡ None };
}

impl<R: Read, W: Write> Client<R, W> {
    /// A client of this connection. It takes no memory before the first call.
    pub fn new(alloc: Global, reader: R, writer: W) -> Client<R, W>
        ensures { result ≡ fresh reader writer }
    {
        Client {
            reader,
            writer,
            feed: ReplyFeed::new(alloc),
            frame: BytesMut::new(alloc),
            fault: None,
        }
    }

    /// Why it has failed, or `None` if it hasn't.
    pub fn fault(&self) -> Option<ClientFault>
        ensures { result ≡ self.now.fault }
    {
        self.fault
    }

    /// The reader and the writer, as the last call left them.
    pub fn into_parts(self) -> (R, W)
        ensures { result ≡ (self.reader, self.writer) }
    {
        (self.reader, self.writer)
    }

    /// Stores `value` as this number of a segment: [`Reply::Stored`] with the segment's number, which the caller has to
    /// compare, or [`Reply::Refused`]. It has at most [`MAX_UPDATE_VALUE`](snap_frame::MAX_UPDATE_VALUE) bytes.
    pub fn update(&mut self, segment: u8, number: u64, value: Bytes) -> Result<Reply, ClientFault>
        requires { length value ≤ MAX_UPDATE_VALUE }
        ensures { Calls R.remaining W.contents (requests.Update segment number value) self.old result self.new }
    {
        self.call(&Request::Update {
            segment,
            number,
            value,
        })
    }

    /// Reads all segments at one moment: [`Reply::Snapshot`], or [`Reply::Refused`].
    pub fn scan(&mut self) -> Result<Reply, ClientFault>
        ensures { Calls R.remaining W.contents requests.Scan self.old result self.new }
    {
        self.call(&Request::Scan)
    }

    /// Reads these segments, at least one, at one moment: [`Reply::Part`], whose segments the caller has to compare, or
    /// [`Reply::Refused`].
    pub fn scan_some(&mut self, set: SegmentSet) -> Result<Reply, ClientFault>
        requires { 0 < set.bits }
        ensures { Calls R.remaining W.contents (requests.Part set) self.old result self.new }
    {
        self.call(&Request::Part(set))
    }

    /// Reads the numbers and fences of all segments: [`Reply::Status`], or [`Reply::Refused`].
    pub fn status(&mut self) -> Result<Reply, ClientFault>
        ensures { Calls R.remaining W.contents requests.Status self.old result self.new }
    {
        self.call(&Request::Status)
    }

    /// Sends a request and returns its answer. Its payload fits a frame, and a scan of some
    /// segments names at least one.
    pub fn call(&mut self, request: &Request) -> Result<Reply, ClientFault>
        requires fits { length (payload request.now) ≤ max_payload }
        requires askable { IsAskable request.now }
        ensures { Calls R.remaining W.contents request.now self.old result self.new }
    {
        if let Some(fault) = self.fault {
            return Err(fault);
        }
        match exchange(
            &mut self.reader,
            &mut self.writer,
            &mut self.feed,
            &mut self.frame,
            request,
        ) {
            Ok(reply) => Ok(reply),
            Err(fault) => {
                self.fault = Some(fault);
                Err(fault)
            }
        }
    }
}
