//! Reasons why a text isn't a dump.

use sha2::{Digest, Sha256};
use std::alloc::AllocError;
use thiserror::Error;

/// The reason why a text isn't a valid dump. Its message says what to do.
#[derive(Clone, Copy, Debug, Error)]
pub enum DumpFault {
    /// It doesn't begin like a dump.
    #[error("it is no dump: give what snapd dump printed")]
    NoDump,
    /// It begins like a dump of another version.
    #[error("it is a dump of another version: load it with the snapd that made it, or a later one")]
    OtherVersion,
    /// It doesn't end with the digest's line.
    #[error("it was cut off, or has more behind its end: take another copy, or dump again")]
    CutOff,
    /// The digest isn't that of the preceding lines.
    #[error("it was changed, since its checksum is that of another text: take another copy, or dump again")]
    Changed,
    /// The digest is right, but `snapd` would write the contents differently.
    #[error("its checksum is right, but snapd didn't write it: a number, a value or its form is another")]
    Foreign,
    /// It is longer than any dump.
    #[error("it is longer than any dump: give what snapd dump printed")]
    TooLong,
    /// Memory ran out.
    #[error("out of memory")]
    NoMemory,
}

impl From<AllocError> for DumpFault {
    ghost use Rattle.std.specs.Prelude.{◌≡◌};
    ghost use Rattle.snap_file_commands.specs.declared.dump.fault.DumpFault.TheVariants.{NoMemory};

    ghost from_gives = { λ _ fault. fault ≡ NoMemory };

    fn from(_error: AllocError) -> DumpFault {
        DumpFault::NoMemory
    }
}

/// What a dump of any version begins with, and the version after it.
const BEGINNING: &[u8] = b"{\"format\":\"snapd dump\",\"version\":";

const VERSION: &[u8] = b"1,";

/// The last line before and after the digest.
const BEFORE: &[u8] = b"],\"sha256\":\"";

const BEHIND: &[u8] = b"\"}\n";

/// The digits of a digest.
const DIGITS: usize = 64;

/// The length of the last line in bytes.
const LAST_LINE: usize = BEFORE.len() + DIGITS + BEHIND.len();

/// The reason why a text couldn't be read as a dump.
pub(crate) fn fault_of(text: &[u8]) -> DumpFault {
    if BEGINNING.starts_with(text) {
        return DumpFault::CutOff;
    }
    match text.strip_prefix(BEGINNING) {
        None => DumpFault::NoDump,
        Some(behind) if VERSION.starts_with(behind) => DumpFault::CutOff,
        Some(behind) if !behind.starts_with(VERSION) => DumpFault::OtherVersion,
        Some(_) => match parts(text) {
            None => DumpFault::CutOff,
            Some((lines, digits)) if is_digest(lines, digits) => DumpFault::Foreign,
            Some(_) => DumpFault::Changed,
        },
    }
}

/// The lines before the last one, and the digits in the last one. `None` if that doesn't have its form.
fn parts(text: &[u8]) -> Option<(&[u8], &[u8])> {
    let (lines, last) = text.split_at(text.len().checked_sub(LAST_LINE)?);
    Some((lines, last.strip_prefix(BEFORE)?.strip_suffix(BEHIND)?))
}

/// Whether these digits are the digest of the lines.
fn is_digest(lines: &[u8], digits: &[u8]) -> bool {
    let mut wanted = [0; DIGITS];
    let digest = Sha256::digest(lines);
    hex::encode_to_slice(digest, &mut wanted).is_ok() && digits == wanted.as_slice()
}
