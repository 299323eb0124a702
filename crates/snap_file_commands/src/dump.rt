//! Dumps: all values of a server or its files at one moment, as a JSON document with a checksum.
//!
//! [`document`] writes a dump. [`read`] accepts exactly what `document` writes, to the byte, so it refuses a document
//! that was cut off or changed in one byte. `specs/Document.antt` has its text. No file and no server is used here.
ghost use Rattle.std.specs.Prelude.{◌≡◌, IfOk, string_bytes};
ghost use Rattle.snap_file_commands.specs.Document.{AreServable, dump_text};

mod fault;
mod parse;
mod text;

pub use fault::DumpFault;
use fault::fault_of;
use snap_scan::SegmentValue;
use std::alloc::Global;
pub use text::document;

/// The most bytes that a reader of dumps has to take. The longest dump, of 16 values of 4,080
/// bytes, has less than half of it.
pub const MAX_DUMP_LEN: usize = 1 << 20;

/// The contents of a dump.
#[derive(Drop)]
pub struct Dump {
    /// When its values were current, as its writer stated.
    pub time: String,
    /// The number and value of each segment, in order: 1 to 16.
    pub values: Vec<SegmentValue>,
}

/// Parses a dump. It accepts a text only if [`document`] writes each of its bytes so, and its
/// values are within the limits of a server.
///
/// The fault of any other text is [`DumpFault::NoDump`] or [`DumpFault::OtherVersion`] by its
/// beginning, else [`DumpFault::CutOff`] by its end, else [`DumpFault::Changed`] by its digest, and
/// else [`DumpFault::Foreign`]. [`DumpFault::NoMemory`] says nothing of the text.
pub fn read(alloc: Global, text: &[u8]) -> Result<Dump, DumpFault>
    // The text is exactly that of the dump, and a server can have its values.
    ensures is { IfOk result (λ d. text.now ≡ dump_text (string_bytes d.time) d.values.items) }
    ensures servable { IfOk result (λ d. AreServable d.values.items) }
{
    let dump = match parse::parse(alloc, text) {
        Ok(dump) => dump,
        Err(DumpFault::NoMemory) => return Err(DumpFault::NoMemory),
        Err(_) => return Err(fault_of(text)),
    };
    let written = document(alloc, dump.time.as_str(), &dump.values)?;
    if written.as_slice() == text {
        Ok(dump)
    } else {
        Err(fault_of(text))
    }
}
