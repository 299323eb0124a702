//! Where standard error leads: to the journal of systemd or elsewhere.
use std::alloc::{AllocError, Global};
use std::fs;
use std::os::unix::fs::MetadataExt;
use std::rt::{Env, Files};

/// Where the log's lines go, which decides how they begin.
#[derive(Clone, Copy, Debug, PartialEq, Eq)]
pub enum Destination {
    /// The journal of systemd. It records the time itself, so a line begins with its priority, such
    /// as `<4>`, which the journal removes.
    Journal,
    /// A terminal, a file or a pipe: a line begins with the time.
    Other,
}

/// The variable in which systemd names the stream that it connected to the journal.
const JOURNAL_STREAM: &str = "JOURNAL_STREAM";

/// The longest value of the variable in bytes: two numbers of up to 20 digits, and a colon.
const LONGEST: usize = 41;

/// Standard error as a path, which works for a socket too.
const STANDARD_ERROR: &str = "/proc/self/fd/2";

impl Destination {
    /// Finds out where standard error goes. It is the journal if the variable `JOURNAL_STREAM` names this very stream:
    /// a program may inherit the variable although its standard error goes elsewhere.
    ///
    /// If that can't be found out, without `/proc` or without memory, it is [`Destination::Other`].
    pub fn of_standard_error<R: Env + Files>(rt: &R, alloc: Global) -> Destination {
        let mut named = [0u8; LONGEST];
        let Ok(len) = rt.var(JOURNAL_STREAM, &mut named) else {
            return Destination::Other;
        };
        let Ok(metadata) = fs::metadata(rt, STANDARD_ERROR) else {
            return Destination::Other;
        };
        match is_named(alloc, &named[..len], metadata.dev(), metadata.ino()) {
            Ok(true) => Destination::Journal,
            _ => Destination::Other,
        }
    }
}

/// Whether `named`, the variable's value, is `DEVICE:INODE` with these numbers.
pub(crate) fn is_named(
    alloc: Global,
    named: &[u8],
    device: u64,
    inode: u64,
) -> Result<bool, AllocError> {
    let stream = format!(in alloc; "{device}:{inode}")?;
    Ok(named == stream.as_bytes())
}
