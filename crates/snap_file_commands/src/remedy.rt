//! The line after that of a refusal: which file it was, the system's reason or what is wrong with the file, and what to
//! do. Advice that a server prints too is in `snap_order`.

use snap_disk::Refusal;
use snap_history::MAX_VALUE_LEN;
use snap_order::{
    FileOrder, MigrateOptions, OneLine, SystemReason, empty_remedy, format_command,
    old_format_remedy, unformatted_remedy,
};
use snap_segment::{OLD_FILE_LEN, Which};
use snap_slot::FILE_LEN;
use std::alloc::{AllocError, Global};

/// The line after that of a refusal of the order's file, which has `len` bytes. It is empty if the
/// refusal isn't of the file. `None` means that memory ran out.
pub(crate) fn line_behind<C: SystemReason>(
    alloc: Global,
    order: &FileOrder<'_>,
    len: u64,
    why: Refusal,
    cause: &C,
) -> Option<String> {
    let file = order.file();
    let text = match why {
        Refusal::DeviceFailed => of_failed(alloc, cause),
        Refusal::WrongFile => of_wrong(alloc, order, len),
        // Its slots may still hold a value, which a format erases.
        Refusal::Unformatted => {
            unformatted_remedy(alloc, words_of_format(alloc, order).ok()?.as_str())
        }
        Refusal::Damaged => {
            format!(in alloc; "its slots give no answer: see snapd check {file}")
        }
        Refusal::AlreadyFormatted => of_formatted(alloc, file),
        Refusal::TooLong => {
            format!(in alloc; "a value has at most {MAX_VALUE_LEN} bytes: nothing was stored")
        }
        _ => return Some(String::new(alloc)),
    };
    let text = text.ok()?;
    let (file, text) = (OneLine(file), OneLine(text.as_str()));
    format!(in alloc; "snapd: {file}: {text}\n").ok()
}

/// The line after that of a refusal of one of a migration's files. `None` means that memory ran out.
pub(crate) fn line_of_migration<C: SystemReason>(
    alloc: Global,
    order: &MigrateOptions<'_>,
    which: Which,
    why: Refusal,
    cause: &C,
) -> Option<String> {
    let (file, role) = match which {
        Which::Old => (order.old, "old"),
        Which::New => (order.new, "new"),
    };
    let (index, count) = (order.index, order.count);
    let text = match (which, why) {
        (_, Refusal::DeviceFailed) => of_failed(alloc, cause),
        // No command can make the old file again.
        (Which::Old, Refusal::Damaged) => {
            format!(in alloc; "its slots give no answer: look for a backup")
        }
        (Which::Old, Refusal::Unformatted) => format!(in alloc;
            "it was never formatted, or its header is gone: look for a backup"
        ),
        (Which::Old, _) => format!(in alloc;
            "it isn't the file of segment {index} of {count} with the {OLD_FILE_LEN} bytes of the old format"
        ),
        (Which::New, Refusal::AlreadyFormatted) => of_formatted(alloc, file),
        (Which::New, _) => format!(in alloc;
            "it is neither empty nor of the {FILE_LEN} bytes of a segment file: give another path"
        ),
    };
    let text = text.ok()?;
    let (file, text) = (OneLine(file), OneLine(text.as_str()));
    format!(in alloc; "snapd: {file}: refused as the {role} file: {text}\n").ok()
}

/// The advice about a device that failed, after the system's reason, if that is known.
fn of_failed<C: SystemReason>(alloc: Global, cause: &C) -> Result<String, AllocError> {
    let said = cause.text(alloc);
    let said = said.as_deref().unwrap_or("a call of its device failed");
    format!(in alloc; "{said}: look after its disk, and try again")
}

/// For a file that isn't the order's, by its length.
fn of_wrong(alloc: Global, order: &FileOrder<'_>, len: u64) -> Result<String, AllocError> {
    match (len, *order) {
        // It has no byte, and so nothing to lose.
        (0, _) => empty_remedy(alloc, words_of_format(alloc, order)?.as_str()),
        (OLD_FILE_LEN, _) => old_format_remedy(alloc, order.file()),
        (FILE_LEN, FileOrder::Put { file, index, count } | FileOrder::Get { file, index, count }) =>
            {
                format!(in alloc;
                    "it isn't the file of segment {index} of {count}: see snapd check {file}"
                )
            }
        _ => format!(in alloc; "it has {len} bytes, and a segment file has {FILE_LEN}"),
    }
}

/// For a file that is a segment's already.
fn of_formatted(alloc: Global, file: &str) -> Result<String, AllocError> {
    format!(in alloc; "it is formatted already: see snapd check {file}")
}

/// The command that formats the order's file, with letters for a place that the order doesn't name.
pub fn words_of_format(alloc: Global, order: &FileOrder<'_>) -> Result<String, AllocError> {
    match *order {
        FileOrder::Format { file, index, count }
        | FileOrder::Put { file, index, count }
        | FileOrder::Get { file, index, count } => {
            format_command(alloc, file, index.into(), count.into())
        }
        FileOrder::Check { file, .. } | FileOrder::Slot { file, .. } => {
            format!(in alloc; "snapd format {file} --index I --count N")
        }
    }
}
