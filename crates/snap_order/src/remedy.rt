//! Advice about a file that was refused, which is printed after the file's name. A format destroys
//! what the file holds: so the advice to run one begins with `keep a copy first`, unless it is empty.

use std::alloc::{AllocError, Global};

/// The command that formats a file for segment `index` of `count`.
pub fn format_command(
    alloc: Global,
    file: &str,
    index: u64,
    count: u64,
) -> Result<String, AllocError> {
    format!(in alloc; "snapd format {file} --index {index} --count {count}")
}

/// Advice for a file of 0 bytes, which can be formatted without loss. `command` formats it.
pub fn empty_remedy(alloc: Global, command: &str) -> Result<String, AllocError> {
    format!(in alloc; "it has no byte: a format that was cut off: go on with {command}")
}

/// Advice for a file whose header's gate is closed: its slots may still hold values.
pub fn unformatted_remedy(alloc: Global, command: &str) -> Result<String, AllocError> {
    format!(in alloc;
        "it was never formatted, or its header is gone: keep a copy first, then {command}"
    )
}

/// Advice for a file that has the length of the old format.
pub fn old_format_remedy(alloc: Global, file: &str) -> Result<String, AllocError> {
    format!(in alloc;
        "it has the length of the old format: carry it over with snapd migrate {file} NEW --index I --count N"
    )
}
