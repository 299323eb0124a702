//! The next line of a script, whose bytes arrive one after the other.
ghost use Rattle.std.specs.Prelude.{◌≡◌, ◌∷◌, ◌++◌, ℕ, List, [], Option, OnOk, IfErr};
ghost use Rattle.std.specs.Io.KnownBytes.{Appends, IsAtEnd};
ghost use Rattle.snap_order.specs.Streams.{AppendsBeginning};
ghost use Rattle.snap_script.specs.LineBuffer.{HasDone, HasTaken, Halts};
ghost use Rattle.snap_script.specs.Script.{Ends, IsLine};

use crate::interpreter::{Interpreter, InterpreterFault};
use crate::run::{MAX_LINE, ScriptEnd};
use snap_order::write_whole;
use std::alloc::Global;
use std::io::{self, Write};

/// Buffers the next line of a script until its end arrives, and then does it.
#[derive(Drop)]
pub(crate) struct LineBuffer {
    pub(crate) interpreter: Interpreter,
    /// How many lines have ended, empty ones too. It stops at `u64::MAX`.
    pub(crate) number: u64,
    /// The bytes of the next line that have arrived.
    pub(crate) line: Vec<u8>,
}

impl LineBuffer {
    /// A buffer to which nothing has arrived.
    pub(crate) fn new(alloc: Global) -> LineBuffer
        ensures { (old : Option (List ℕ)) → HasTaken [] old old result }
    {
        LineBuffer {
            interpreter: Interpreter::new(alloc),
            number: 0,
            line: Vec::new(alloc),
        }
    }

    /// Takes the next bytes, and runs each line that ends in them.
    pub(crate) fn take<W: Write>(&mut self, piece: &[u8], writer: &mut W) -> Result<(), ScriptEnd>
        ensures ok { OnOk result ((taken : List ℕ) (old : Option (List ℕ))
            → HasTaken taken old (W.contents writer.old) self.old
            → HasTaken (taken ++ piece.now) old (W.contents writer.new) self.new) }
        ensures err { IfErr result (λ end. (taken : List ℕ) (left old : Option (List ℕ))
            → HasTaken taken old (W.contents writer.old) self.old
            → Ends (taken ++ piece.now) left old (W.contents writer.new) end) }
    {
        for byte in piece {
            match self.take_byte(*byte, writer) {
                Ok(()) => {}
                Err(end) => return Err(end),
            }
        }
        Ok(())
    }

    /// Takes the next byte, and runs the line if the byte ends it.
    fn take_byte<W: Write>(&mut self, byte: u8, writer: &mut W) -> Result<(), ScriptEnd>
        ensures ok { OnOk result ((taken : List ℕ) (old : Option (List ℕ))
            → HasTaken taken old (W.contents writer.old) self.old
            → HasTaken (taken ++ byte ∷ []) old (W.contents writer.new) self.new) }
        ensures err { IfErr result (λ end. (taken rest : List ℕ) (left old : Option (List ℕ))
            → HasTaken taken old (W.contents writer.old) self.old
            → Ends (taken ++ byte ∷ rest) left old (W.contents writer.new) end) }
    {
        if byte == b'\n' {
            return self.do_line(writer);
        }
        if self.line.len() >= MAX_LINE {
            let number = self.number.saturating_add(1);
            return Err(ScriptEnd::TooLong { number });
        }
        match self.line.push(byte) {
            Ok(()) => Ok(()),
            Err(_) => Err(ScriptEnd::NoMemory),
        }
    }

    /// Does the buffered line, and empties the buffer. An empty line is only counted.
    fn do_line<W: Write>(&mut self, writer: &mut W) -> Result<(), ScriptEnd>
        ensures empty { OnOk result (self.new.line.items ≡ []) }
        ensures ok { OnOk result ((done : List (List ℕ)) (old : Option (List ℕ)) → IsLine self.old.line.items
            → HasDone done old (W.contents writer.old) self.old.interpreter.world
            → HasDone (done ++ self.old.line.items ∷ []) old (W.contents writer.new) self.new.interpreter.world) }
        ensures err { IfErr result (λ end. (done : List (List ℕ)) (old : Option (List ℕ)) → IsLine self.old.line.items
            → HasDone done old (W.contents writer.old) self.old.interpreter.world
            → Halts done self.old.line.items old (W.contents writer.new) end) }
    {
        self.number = self.number.saturating_add(1);
        let number = self.number;
        if self.line.is_empty() {
            return Ok(());
        }
        match self.interpreter.line(&self.line) {
            Ok(()) => {}
            Err(InterpreterFault::Fault(fault)) => return Err(ScriptEnd::BadLine { number, fault }),
            Err(InterpreterFault::NoMemory) => return Err(ScriptEnd::NoMemory),
        }
        self.line.clear();
        match write_flushed(writer, &self.interpreter.text) {
            Ok(()) => Ok(()),
            Err(error) => Err(ScriptEnd::WriteFailed(error)),
        }
    }

    /// Does the last line, which no LF ends: the reader has no more bytes.
    pub(crate) fn finish<W: Write>(&mut self, writer: &mut W) -> ScriptEnd
        ensures { (taken : List ℕ) (left old : Option (List ℕ)) → IsAtEnd left
            → HasTaken taken old (W.contents writer.old) self.old → Ends taken left old (W.contents writer.new) result }
    {
        match self.do_line(writer) {
            Ok(()) => ScriptEnd::Done,
            Err(end) => end,
        }
    }
}

/// Writes these bytes, by one call if the writer takes them whole, and flushes the writer.
fn write_flushed<W: Write>(writer: &mut W, bytes: &[u8]) -> io::Result<()>
    ensures whole { OnOk result (Appends (W.contents writer.old) (W.contents writer.new) bytes.now) }
    ensures beginning { AppendsBeginning (W.contents writer.old) (W.contents writer.new) bytes.now }
{
    write_whole(writer, bytes)?;
    writer.flush()
}
