//! The command `script`, over any reader and writers.
ghost use Rattle.std.specs.Prelude.{◌≡◌};
ghost use Rattle.snap_script.specs.Script.{Runs, status_of};

use crate::{ScriptEnd, script};
use snap_order::{Exit, Refusal, Status, complain, complain_of_refusal};
use std::alloc::Global;
use std::io::{Read, Write};
use std::sync::Wait;

impl ScriptEnd {
    /// Prints on `errors` why the script ended early, as a line that begins `snapd: `, and returns the
    /// program's exit. If memory ran out, this takes none.
    pub fn report<E: Write>(&self, alloc: Global, errors: &mut E) -> Exit
        ensures { result.status ≡ status_of self.now }
    {
        let status = match self {
            ScriptEnd::Done => Status::Done,
            ScriptEnd::BadLine { .. } | ScriptEnd::TooLong { .. } => Status::Misused,
            ScriptEnd::NoMemory => Status::Refused,
            ScriptEnd::ReadFailed(_) | ScriptEnd::WriteFailed(_) => Status::Failed,
        };
        let is_told = match self {
            ScriptEnd::Done => true,
            ScriptEnd::NoMemory => complain_of_refusal(errors, Refusal::NoMemory),
            _ => complain(alloc, errors, self),
        };
        Exit { status, is_told }
    }
}

/// Runs the script that `reader` has, by [`script`], and returns the program's exit. Its output goes to
/// `writer`. Why it ended early goes to `errors`, as one line that begins `snapd: `.
pub fn play<X: Wait, R: Read, W: Write, E: Write>(
    rt: &X,
    alloc: Global,
    reader: &mut R,
    writer: &mut W,
    errors: &mut E,
) -> Exit
    ensures { (end : ScriptEnd) × (result.status ≡ status_of end)
        × Runs (R.remaining reader.old) (R.remaining reader.new) (W.contents writer.old) (W.contents writer.new) end }
{
    script(rt, alloc, reader, writer).report(alloc, errors)
}
