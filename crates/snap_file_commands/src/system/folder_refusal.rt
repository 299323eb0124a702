//! The reasons why a folder's files can't be used, with their messages.

use snap_devices::FileFault;
use std::alloc::{AllocError, Global};

/// The reason why a folder's files can't be used. Its message names a file or the folder, and says what to do; it is
/// made with the fault, since a `Display` of all messages takes longer to prove.
#[derive(Drop)]
pub enum FolderReadFault<'f> {
    /// The file at this path couldn't be opened.
    Path { file: &'f str, fault: FileFault },
    /// A file has no header, or is empty.
    Unformatted(String),
    /// Any other.
    Other(String),
    /// Memory ran out.
    NoMemory,
}

impl From<AllocError> for FolderReadFault<'_> {
    fn from(_error: AllocError) -> Self {
        FolderReadFault::NoMemory
    }
}

/// The fault with this message.
pub fn other<'f>(message: Result<String, AllocError>) -> FolderReadFault<'f> {
    match message {
        Ok(message) => FolderReadFault::Other(message),
        Err(_) => FolderReadFault::NoMemory,
    }
}

/// A file has no header, or is empty. The slots of one that isn't empty may still hold values.
pub fn unformatted<'f>(
    alloc: Global,
    folder: &str,
    file: &str,
    is_empty: bool,
) -> FolderReadFault<'f> {
    let first = if is_empty {
        ""
    } else {
        "keep a copy first, then "
    };
    let message = format!(in alloc;
        "{file}: it was never formatted, or its header is gone: {first}go on with the init or format that was cut \
            off, or move it out of {folder}"
    );
    match message {
        Ok(message) => FolderReadFault::Unformatted(message),
        Err(_) => FolderReadFault::NoMemory,
    }
}

/// The message of a file that has another length, or another header.
pub fn no_segment(alloc: Global, folder: &str, file: &str) -> Result<String, AllocError> {
    format!(in alloc;
        "{file}: it is no segment file: bring a copy back if it was one, else move it out of {folder}, or give it a \
            name that doesn't end in .seg"
    )
}
