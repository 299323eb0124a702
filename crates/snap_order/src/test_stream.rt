//! A stream for tests.
use std::io::{self, Read, Write};

/// A reader and writer in memory that moves few bytes a call and fails at a chosen place.
#[derive(Drop)]
pub struct TestStream {
    /// The bytes to read, or those that were written.
    pub bytes: Vec<u8>,
    /// How many bytes have been moved.
    pub passed: usize,
    /// How many bytes may be moved. The next call after them fails.
    pub passes: usize,
    /// The most bytes that a call moves.
    pub step: usize,
}

impl TestStream {
    /// How many bytes the next call moves, of those available. An error if none may be moved any more.
    fn next(&self, there: usize) -> io::Result<usize> {
        let left = self.passes.saturating_sub(self.passed);
        let n = there.min(self.step).min(left);
        if n == 0 && there > 0 {
            return Err(io::Error::other("the test's fault"));
        }
        Ok(n)
    }
}

impl Read for TestStream {
    fn read(&mut self, buf: &mut [u8]) -> io::Result<usize> {
        let left = &self.bytes[self.passed.min(self.bytes.len())..];
        let there = left.len().min(buf.len());
        let n = self.next(there)?.min(there);
        buf[..n].copy_from_slice(&left[..n]);
        self.passed = self.passed.saturating_add(n);
        Ok(n)
    }
}

impl Write for TestStream {
    fn write(&mut self, buf: &[u8]) -> io::Result<usize> {
        let n = self.next(buf.len())?.min(buf.len());
        self.bytes.extend_from_slice(&buf[..n])?;
        self.passed = self.passed.saturating_add(n);
        Ok(n)
    }

    fn flush(&mut self) -> io::Result<()> {
        Ok(())
    }
}
