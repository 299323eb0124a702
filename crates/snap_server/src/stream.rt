//! Streams: sockets over TCP and Unix sockets in one type.

use mio::net::{TcpStream, UnixStream};
use mio::{Interest, Registry, Token};
use std::io::{self, ErrorKind, Read, Write};
use std::net::Shutdown;

/// A socket whose reads and writes return `WouldBlock` instead of blocking. Once it is closed, they fail.
#[derive(Drop)]
pub enum Stream {
    Tcp(TcpStream),
    Unix(UnixStream),
    Closed,
}

impl Stream {
    /// Registers the socket, so that the system reports its events under `token`.
    pub(crate) fn register(
        &mut self,
        registry: &Registry,
        token: Token,
        interest: Interest,
    ) -> io::Result<()> {
        match self {
            Stream::Tcp(stream) => registry.register(stream, token, interest),
            Stream::Unix(stream) => registry.register(stream, token, interest),
            Stream::Closed => Err(io::Error::from(ErrorKind::NotConnected)),
        }
    }

    /// Shuts the writing side down, so that the peer reads all that was written, and closes the descriptor.
    pub(crate) fn close(&mut self) {
        let _ = match self {
            Stream::Tcp(stream) => stream.shutdown(Shutdown::Write),
            Stream::Unix(stream) => stream.shutdown(Shutdown::Write),
            Stream::Closed => Ok(()),
        };
        *self = Stream::Closed;
    }
}

impl Read for &Stream {
    fn read(&mut self, buf: &mut [u8]) -> io::Result<usize> {
        let stream: &Stream = *self;
        match stream {
            Stream::Tcp(stream) => {
                let mut stream: &TcpStream = stream;
                stream.read(buf)
            }
            Stream::Unix(stream) => {
                let mut stream: &UnixStream = stream;
                stream.read(buf)
            }
            Stream::Closed => Err(io::Error::from(ErrorKind::NotConnected)),
        }
    }
}

impl Write for &Stream {
    fn write(&mut self, buf: &[u8]) -> io::Result<usize> {
        let stream: &Stream = *self;
        match stream {
            Stream::Tcp(stream) => {
                let mut stream: &TcpStream = stream;
                stream.write(buf)
            }
            Stream::Unix(stream) => {
                let mut stream: &UnixStream = stream;
                stream.write(buf)
            }
            Stream::Closed => Err(io::Error::from(ErrorKind::NotConnected)),
        }
    }

    fn flush(&mut self) -> io::Result<()> {
        Ok(())
    }
}
