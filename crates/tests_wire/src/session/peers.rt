//! Services with plain answers, and peers that may make their sessions wait.

use crate::streams::{sink, source};
use snap_disk::Refusal;
use snap_frame::{Reply, Request};
use snap_session::{Polled, Service, Session, proceed};
use snap_order::TestStream;
use std::alloc::{AllocError, Global};
use std::io;
use std::io::{Read, Write};

/// Answers an update by its segment, and every other request by how many were answered.
#[derive(Drop)]
pub(crate) struct Counter {
    pub answered: u64,
}

impl Service for Counter {
    type Outcome = u64;

    ghost gives = { λ old request reply new. Unit {0} };

    ghost hands_over = { ⊥ };

    fn answer(&mut self, request: &Request, _key: usize) -> Option<Reply> {
        self.answered = self.answered + 1;
        Some(match request {
            Request::Update { segment, .. } => Reply::Stored(u64::from(*segment)),
            _ => Reply::Refused {
                why: Refusal::NoSegment,
                detail: self.answered,
            },
        })
    }

    fn finish(&mut self, _request: &Request, outcome: u64) -> Reply {
        Reply::Refused {
            why: Refusal::Fenced,
            detail: outcome,
        }
    }
}

/// Hands every update over.
#[derive(Drop)]
pub(crate) struct Later;

impl Service for Later {
    type Outcome = u64;

    ghost gives = { λ old request reply new. Unit {0} };

    ghost hands_over = { Unit {0} };

    fn answer(&mut self, request: &Request, key: usize) -> Option<Reply> {
        match request {
            Request::Update { .. } => None,
            _ => Some(Reply::Refused {
                why: Refusal::NoSegment,
                detail: key as u64,
            }),
        }
    }

    fn finish(&mut self, _request: &Request, outcome: u64) -> Reply {
        Reply::Refused {
            why: Refusal::Fenced,
            detail: outcome,
        }
    }
}

/// A stream that may say at every other read or write that it would wait.
#[derive(Drop)]
struct Waiting {
    inner: TestStream,
    may_wait: bool,
    waits: bool,
}

impl Waiting {
    fn new(inner: TestStream, may_wait: bool) -> Waiting {
        Waiting {
            inner,
            may_wait,
            waits: false,
        }
    }

    /// Whether it is to wait this time.
    fn has_to_wait(&mut self) -> bool {
        self.waits = self.may_wait && !self.waits;
        self.waits
    }
}

impl Read for Waiting {
    fn read(&mut self, buf: &mut [u8]) -> io::Result<usize> {
        if self.has_to_wait() {
            return Err(io::Error::from(io::ErrorKind::WouldBlock));
        }
        self.inner.read(buf)
    }
}

impl Write for Waiting {
    fn write(&mut self, buf: &[u8]) -> io::Result<usize> {
        if self.has_to_wait() {
            return Err(io::Error::from(io::ErrorKind::WouldBlock));
        }
        self.inner.write(buf)
    }

    fn flush(&mut self) -> io::Result<()> {
        Ok(())
    }
}

/// A session, what its peer sends, and what it was sent.
#[derive(Drop)]
pub(crate) struct Peer {
    session: Session,
    reader: Waiting,
    writer: Waiting,
}

impl Peer {
    /// A peer that sends these bytes in such pieces, and may make its session wait at every other step.
    pub(crate) fn new(
        alloc: Global,
        bytes: &[u8],
        piece: usize,
        may_wait: bool,
    ) -> Result<Peer, AllocError> {
        let reader = source(alloc, bytes, usize::MAX, piece)?;
        Ok(Peer {
            session: Session::new(alloc),
            reader: Waiting::new(reader, may_wait),
            writer: Waiting::new(sink(alloc, usize::MAX), may_wait),
        })
    }

    /// A turn of its session.
    pub(crate) fn turn<S: Service>(&mut self, service: &mut S, key: usize) -> Polled {
        let mut piece = [0; 4096];
        proceed(
            &mut self.session,
            &mut self.reader,
            &mut self.writer,
            service,
            key,
            &mut piece,
        )
    }

    /// Whether a request was handed over and nothing was written.
    pub(crate) fn is_waiting(&self) -> bool {
        !self.session.is_free() && self.written().is_empty()
    }

    /// The request that was handed over is finished with this outcome.
    pub(crate) fn finish(&mut self, outcome: u64) {
        if self.session.over().is_none() {
            self.session.finish(&mut Later, outcome);
        }
    }

    /// The bytes that the peer was sent.
    pub(crate) fn written(&self) -> &[u8] {
        self.writer.inner.bytes.as_slice()
    }
}
