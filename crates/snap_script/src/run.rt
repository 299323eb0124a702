//! A script, run while it is read.
ghost use Rattle.std.specs.Prelude.{◌<◌, length};
ghost use Rattle.snap_script.specs.Script.{Runs};

use crate::fault::LineFault;
use crate::line_buffer::LineBuffer;
use std::alloc::Global;
use std::io::{self, Read, Write};
use std::sync::Wait;
use thiserror::Error;

/// The longest line in bytes, without the LF that ends it.
pub const MAX_LINE: usize = 1_048_576;

/// The most bytes of one read.
const PIECE: usize = 65_536;

/// How a script ended. Its text follows `snapd: ` on standard error, except for [`ScriptEnd::Done`].
///
/// A line's number counts all lines of the input from 1, empty ones too, and stops at `u64::MAX`.
#[derive(Debug, Drop, Error)]
pub enum ScriptEnd {
    /// Every line was done, and the reader has no more bytes.
    #[error("every line was done")]
    Done,
    /// A line can't be read. Those before it were done.
    #[error("line {number}: {fault}")]
    BadLine { number: u64, fault: LineFault },
    /// A line has more than [`MAX_LINE`] bytes. Those before it were done.
    #[error("line {number}: a line has at most 1048576 bytes")]
    TooLong { number: u64 },
    /// Memory ran out in a line, or before the first one. The lines before were done.
    #[error("refused 8 NoMemory")]
    NoMemory,
    /// The reader failed. The lines whose ends were read before were done.
    #[error("standard input: {0}")]
    ReadFailed(io::Error),
    /// The writer failed. What was written is a beginning of the text.
    #[error("standard output: {0}")]
    WriteFailed(io::Error),
}

/// Runs a script on a new world while it is read, and writes a line for each of its lines: what each event answered.
///
/// Each line ends with LF, which the last one may lack, and has words separated by single spaces.
/// Empty lines are skipped. The first other line is `world N S`, and every later one is an event;
/// docs/FORMATS.md has their forms, and those of what is written. What is written are replies that a
/// new world may give to all these events, in the order of the lines.
///
/// Each line is done, and its text is written and flushed, before the next one. So a client that writes the script can
/// wait for the reply to a line. An error of the reader or of the writer ends the script with no retry.
///
/// It takes memory for one read, for the longest line, and for the values of one event and one reply.
/// It returns only once the reader has no more bytes or something fails.
pub fn script<X: Wait, R: Read, W: Write>(
    rt: &X,
    alloc: Global,
    reader: &mut R,
    writer: &mut W,
) -> ScriptEnd
    ensures { Runs (R.remaining reader.old) (R.remaining reader.new)
        (W.contents writer.old) (W.contents writer.new) result }
{
    let Ok(mut piece) = vec![in alloc; 0u8; PIECE] else {
        return ScriptEnd::NoMemory;
    };
    run_pieces(rt, alloc, reader, writer, &mut piece)
}

/// Runs a script. `piece` is where a read puts its bytes.
fn run_pieces<X: Wait, R: Read, W: Write>(
    rt: &X,
    alloc: Global,
    reader: &mut R,
    writer: &mut W,
    piece: &mut [u8],
) -> ScriptEnd
    requires { 0 < length piece.old }
    ensures { Runs (R.remaining reader.old) (R.remaining reader.new)
        (W.contents writer.old) (W.contents writer.new) result }
{
    let mut lines = LineBuffer::new(alloc);
    for _ in rt.forever() {
        let len = match reader.read(piece) {
            Ok(0) => return lines.finish(writer),
            Ok(len) => len,
            Err(error) => return ScriptEnd::ReadFailed(error),
        };
        match lines.take(&piece[..len], writer) {
            Ok(()) => {}
            Err(end) => return end,
        }
    }
    unreachable!()
}
