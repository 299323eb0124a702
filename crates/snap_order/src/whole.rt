//! Reads and writes that continue until all is done.
ghost use Rattle.std.specs.Prelude.{◌≡◌, ◌<◌, ◌≤◌, OnOk, OnErr, IfOk, length, take};
ghost use Rattle.std.specs.Io.KnownBytes.{Appends, Consumes, IsAtEnd};
ghost use Rattle.snap_order.specs.Streams.{AppendsBeginning, AppendsLess};

use std::io::{self, ErrorKind, Read, Write};

/// Writes all the bytes, in as few calls as the writer takes. It ends at the first call that fails
/// or takes no byte; then a beginning of the bytes was written, and not all.
///
/// A call that a signal interrupts counts as failed: these programs set no signal handler, so none is interrupted.
pub fn write_whole<W: Write>(writer: &mut W, bytes: &[u8]) -> io::Result<()>
    ensures whole { OnOk result (Appends (W.contents writer.old) (W.contents writer.new) bytes.now) }
    ensures beginning { AppendsBeginning (W.contents writer.old) (W.contents writer.new) bytes.now }
    ensures cut { OnErr result (AppendsLess (W.contents writer.old) (W.contents writer.new) bytes.now) }
{
    let mut at = 0;
    while at < bytes.len() {
        match writer.write(&bytes[at..]) {
            Ok(0) => return Err(io::Error::from(ErrorKind::WriteZero)),
            Ok(n) => at += n,
            Err(error) => return Err(error),
        }
    }
    Ok(())
}

/// Reads until the end or until the buffer is full, and returns the number of bytes read.
pub fn read_up_to<R: Read>(reader: &mut R, buffer: &mut [u8]) -> io::Result<usize>
    ensures fits { IfOk result (λ len. len ≤ length buffer.new) }
    ensures came { IfOk result (λ len.
        Consumes (R.remaining reader.old) (R.remaining reader.new) (take len buffer.new)) }
    ensures ended { IfOk result (λ len. len < length buffer.new → IsAtEnd (R.remaining reader.new)) }
{
    let mut len = 0;
    while len < buffer.len() {
        match reader.read(&mut buffer[len..]) {
            Ok(0) => return Ok(len),
            Ok(n) => len += n,
            Err(error) => return Err(error),
        }
    }
    Ok(len)
}
