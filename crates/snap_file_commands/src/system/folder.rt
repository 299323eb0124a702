//! Folders with the files of all segments: `init` makes them, and `serve --dir` opens them.
//!
//! Only the header of a file says which segment it is, so the files may have any names that end in `.seg`.
//! `snap_file_commands` judges the headers; this module reads them.
ghost use Rattle.std.specs.Prelude.{◌≡◌, ◌<◌, ◌≤◌, All, IfOk, length};
ghost use Rattle.snap_file_commands.specs.SegmentOrder.{IsFaultOf};
ghost use Rattle.snap_order.specs.Limits.{MAX_COUNT};

use super::complaint::fail_at_folder;
use super::files::{FirstFault, open_telling};
use super::folder_refusal::{FolderReadFault, no_segment, other, unformatted};
use crate::{FolderFault, SegmentPlace, file_name, is_segment_name, order_files};
use snap_devices::{Lock, sync_folder_of};
use snap_disk::{Disk, Refusal};
use snap_order::{OLD_FILE_LEN, Status, SystemReason};
use snap_segment::{Findings, Header, check};
use std::alloc::{AllocError, Global};
use std::fs;
use std::io::{self, ErrorKind};
use std::path::Path;

/// Makes the folder at this path, if nothing is there yet, and syncs its name, if the system allows that. Prints the
/// reason if that fails.
pub fn make_folder(rt: &HostRuntime, folder: &str) -> Result<(), Status> {
    let made = match fs::create_dir(rt, folder) {
        Err(reason) if reason.kind() != ErrorKind::AlreadyExists => Err(reason),
        _ => sync_folder_of(rt, folder),
    };
    made.map_err(|reason| fail_at_folder(rt, folder, reason))
}

/// The paths of the folder's files whose names end in `.seg`, in order of name. Names that aren't UTF-8 are skipped.
/// Prints the reason if they can't be listed.
pub fn segment_files(rt: &HostRuntime, folder: &str) -> Result<Vec<String>, Status> {
    listed(rt, folder).map_err(|reason| fail_at_folder(rt, folder, reason))
}

/// [`segment_files`] without the message.
fn listed(rt: &HostRuntime, folder: &str) -> io::Result<Vec<String>> {
    let mut files = Vec::new(rt.alloc());
    for entry in fs::read_dir(rt, folder)? {
        match entry {
            Ok(entry) if is_segment_name(entry.file_name()) => {
                let path = Path::new(folder).join(rt.alloc(), entry.file_name())?;
                files.push(path.into_string())?;
            }
            Err(reason) if reason.kind() != ErrorKind::InvalidFilename => return Err(reason),
            _ => {}
        }
    }
    files.sort()?;
    Ok(files)
}

/// The path of the file that this segment gets in the folder.
pub fn segment_path(alloc: Global, folder: &str, index: u8) -> Result<String, AllocError>
    requires { index < MAX_COUNT }
{
    let name = file_name(alloc, index)?;
    Ok(Path::new(folder).join(alloc, name.as_str())?.into_string())
}

/// The segment among `count` whose file has this name, by the names that [`segment_path`] gives.
pub fn index_of_name(alloc: Global, name: &str, count: u8) -> Result<Option<u8>, AllocError>
    requires { count ≤ MAX_COUNT }
{
    for index in 0..count {
        if file_name(alloc, index)?.as_str() == name {
            return Ok(Some(index));
        }
    }
    Ok(None)
}

/// The folder's files in order of segment, by their headers. Nothing is written.
pub fn files_in_order<'f>(
    rt: &HostRuntime,
    folder: &'f str,
    files: &'f [String],
) -> Result<Vec<&'f str>, FolderReadFault<'f>>
    ensures some { IfOk result (λ paths. 0 < length paths.items) }
    ensures few { IfOk result (λ paths. length paths.items ≤ MAX_COUNT) }
{
    let mut places = Vec::with_capacity(rt.alloc(), files.len())?;
    for file in files {
        let (place, _) = contents_of(rt, folder, file.as_str())?;
        places.push(place).map_err(|_| AllocError)?;
    }
    order_of(rt.alloc(), folder, files, &places)
}

/// The folder's files in order of segment, by these places from their headers.
pub fn order_of<'f>(
    alloc: Global,
    folder: &'f str,
    files: &'f [String],
    places: &[SegmentPlace],
) -> Result<Vec<&'f str>, FolderReadFault<'f>>
    ensures some { IfOk result (λ paths. 0 < length paths.items) }
    ensures few { IfOk result (λ paths. length paths.items ≤ MAX_COUNT) }
{
    match order_files(alloc, places) {
        Ok(order) => {
            let paths = order.iter().map(|at| path_at(folder, files, *at));
            Ok(paths.collect(alloc)?)
        }
        Err(fault) => Err(trouble_of(alloc, folder, files, places, fault)),
    }
}

/// The place in the header of the file at this path, and the number that a restart would recover, if there is one.
/// Others may read the file at the same time.
pub fn contents_of<'f>(
    rt: &HostRuntime,
    folder: &'f str,
    file: &'f str,
) -> Result<(SegmentPlace, Option<u64>), FolderReadFault<'f>> {
    let findings = findings_of(rt, folder, file)?;
    match findings.header {
        Header::Open { index, count } => {
            let number = findings.answer.map(|found| found.number);
            Ok((SegmentPlace { index, count }, number))
        }
        Header::Closed => Err(unformatted(rt.alloc(), folder, file, false)),
        Header::Wrong => Err(other(no_segment(rt.alloc(), folder, file))),
    }
}

/// Checks the file at this path, if it has a segment file's length. Others may read it at the same time.
pub fn findings_of<'f>(
    rt: &HostRuntime,
    folder: &'f str,
    file: &'f str,
) -> Result<Findings, FolderReadFault<'f>> {
    let (alloc, told) = (rt.alloc(), FirstFault::new());
    let mut disk = match open_telling(rt, file, Lock::Shared, Some(&told)) {
        Ok(disk) => disk,
        Err(fault) => return Err(FolderReadFault::Path { file, fault }),
    };
    match check(&mut disk) {
        Ok(findings) => Ok(findings),
        Err(why) => Err(other(match (why, disk.len()) {
            (Refusal::DeviceFailed, _) => match told.text(alloc) {
                Some(reason) => {
                    format!(in alloc; "{file}: {reason}: look after its disk, and start again")
                }
                None => Err(AllocError),
            },
            (_, 0) => return Err(unformatted(alloc, folder, file, true)),
            (_, OLD_FILE_LEN) => format!(in alloc;
                "{file}: it has the length of the old format: carry it over with snapd migrate {file} NEW --index I \
                    --count N, and move it out of {folder}"
            ),
            _ => no_segment(alloc, folder, file),
        })),
    }
}

/// The fault of the files, if their headers have these places.
fn trouble_of<'f>(
    alloc: Global,
    folder: &str,
    files: &[String],
    places: &[SegmentPlace],
    fault: FolderFault,
) -> FolderReadFault<'f>
    requires { IsFaultOf places.now fault }
{
    let message = match fault {
        FolderFault::Empty => format!(in alloc;
            "{folder}: it has no segment file: make them with snapd init {folder} --count N"
        ),
        FolderFault::NoPlace { file } => no_segment(alloc, folder, path_at(folder, files, file)),
        FolderFault::OtherCount { file: at } => {
            let (first, first_count) = (path_at(folder, files, 0), place_at(places, 0).count);
            let (file, count) = (path_at(folder, files, at), place_at(places, at).count);
            format!(in alloc;
                "{file}: it is of {count} segments, and {first} of {first_count}: move the one that doesn't belong \
                    here out of {folder}"
            )
        }
        FolderFault::Twice { first, second } => {
            let SegmentPlace { index, count } = place_at(places, second);
            let first = path_at(folder, files, first);
            let file = path_at(folder, files, second);
            format!(in alloc;
                "{file}: it is segment {index} of {count}, as {first} is: move one of them out of {folder}"
            )
        }
        FolderFault::Missing { index, count } => match segment_path(alloc, folder, index) {
            Ok(file) => format!(in alloc;
                "{folder}: segment {index} of {count} is missing: bring its file back, or make a new and empty one \
                    with snapd format {file} --index {index} --count {count}"
            ),
            Err(failure) => Err(failure),
        },
        FolderFault::NoMemory => Err(AllocError),
    };
    other(message)
}

/// The path of one of the folder's files.
pub fn path_at<'f>(folder: &'f str, files: &'f [String], at: usize) -> &'f str {
    files.get(at).map_or(folder, |file| file.as_str())
}

/// The place of one of the files.
fn place_at(places: &[SegmentPlace], at: usize) -> SegmentPlace {
    let none = SegmentPlace { index: 0, count: 0 };
    places.get(at).copied().unwrap_or(none)
}
