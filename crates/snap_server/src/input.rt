//! What is known of a socket's input, so that none is read in vain.

use crate::stream::Stream;
use std::cell::Cell;
use std::io::{self, ErrorKind, Read};

/// Whether a socket may have bytes that weren't read.
///
/// A read that doesn't fill its buffer has left none, and the system tells of bytes that arrive later. Of the input's
/// end it tells once, so from then on each read asks the socket.
#[derive(Drop)]
pub struct Input {
    is_dry: Cell<bool>,
    has_ended: Cell<bool>,
}

impl Input {
    /// The input of a new connection: it may have bytes.
    pub fn new() -> Input {
        Input {
            is_dry: Cell::new(false),
            has_ended: Cell::new(false),
        }
    }

    /// Notes an event of the socket: there may be bytes, and the peer sends no more if the input `has_ended`.
    pub fn note(&self, has_ended: bool) {
        self.is_dry.set(false);
        if has_ended {
            self.has_ended.set(true);
        }
    }
}

/// Reads a socket while its input isn't dry. Else it returns `WouldBlock`, as the socket would, without a call.
#[derive(Drop)]
pub struct InputReader<'a> {
    pub stream: &'a Stream,
    pub input: &'a Input,
}

impl Read for InputReader<'_> {
    fn read(&mut self, buf: &mut [u8]) -> io::Result<usize> {
        if self.input.is_dry.get() {
            return Err(io::Error::from(ErrorKind::WouldBlock));
        }
        let mut stream = self.stream;
        let read = stream.read(buf)?;
        if read < buf.len() && !self.input.has_ended.get() {
            self.input.is_dry.set(true);
        }
        Ok(read)
    }
}
