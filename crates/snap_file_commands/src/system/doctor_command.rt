//! The command `doctor`: reports on the files of a folder and on their file system.
ghost use Rattle.std.specs.Prelude.{◌≡◌, IfOk};

use super::complaint::stop;
use super::file_system::{file_system_of, is_taken, keeps_locks, remedy_of, try_as_server};
use super::files::FirstFault;
use super::folder::{contents_of, order_of, path_at, segment_files};
use super::folder_refusal::FolderReadFault;
use super::store_times::{STORED_LEN, STORES, measure};
use crate::{CommandFault, SegmentPlace};
use snap_devices::FileFault;
use snap_order::{DoctorOptions, OneLine, Status, SystemReason, stop_without_memory};
use std::fmt::Display;
use std::io::{self, ErrorKind};

/// Checks the folder's files and its file system, and prints a line for each. The status is
/// [`Status::Refused`] if something has to be repaired before the folder can be served.
pub fn examine(rt: &HostRuntime, order: &DoctorOptions<'_>) -> Result<Status, Status> {
    let files = segment_files(rt, order.folder)?;
    match report(rt, order, &files) {
        Ok(true) => Ok(Status::Done),
        Ok(false) => Ok(Status::Refused),
        Err(reason) if reason.kind() == ErrorKind::OutOfMemory => Err(stop_without_memory(rt)),
        Err(reason) => Err(stop(rt, &CommandFault::Output(reason))),
    }
}

/// Prints the whole report. Returns whether the folder can be served.
fn report(rt: &HostRuntime, order: &DoctorOptions<'_>, files: &[String]) -> io::Result<bool> {
    let are_whole = report_files(rt, order.folder, files)?;
    let are_kept = report_file_system(rt, order.folder, files)?;
    let are_stored = !order.is_measured || report_stores(rt, order.folder)?;
    Ok(are_whole & are_kept & are_stored)
}

/// Reports on each file, and whether they are all the segments of one server. It waits for the
/// first file that another process has locked, and for no further one.
fn report_files(rt: &HostRuntime, folder: &str, files: &[String]) -> io::Result<bool> {
    let mut places = Vec::with_capacity(rt.alloc(), files.len())?;
    let (mut are_whole, mut are_free) = (true, true);
    for file in files {
        match report_file(rt, folder, file.as_str(), are_free)? {
            FileState::Whole(place) => places.push(place)?,
            FileState::Ill => are_whole = false,
            FileState::InUse => are_free = false,
        }
    }
    // What is wrong with single files comes first. If all are whole and none is in use, each has its place.
    if !are_whole || places.len() != files.len() {
        return Ok(are_whole);
    }
    match order_of(rt.alloc(), folder, files, &places) {
        Ok(_order) => {
            let line = format_args!(
                "no segment is missing: serve it with snapd serve ADDR --dir {folder}"
            );
            tell(rt, folder, &line, true)
        }
        Err(trouble) => report_trouble(rt, &trouble, false),
    }
}

/// The result of a file's check.
#[derive(Clone, Copy)]
enum FileState {
    /// It is the file of this segment, and has a value.
    Whole(SegmentPlace),
    /// Something is wrong with it.
    Ill,
    /// Another process has locked it.
    InUse,
}

/// Reports on a file. Only if `is_awaited`, it waits for another process that has locked it.
fn report_file(
    rt: &HostRuntime,
    folder: &str,
    file: &str,
    is_awaited: bool,
) -> io::Result<FileState> {
    if is_awaited || !is_taken(rt, file) {
        match contents_of(rt, folder, file) {
            Ok((place, number)) => return report_segment(rt, file, place, number),
            Err(
                FolderReadFault::Path {
                    fault: FileFault::InUse(_),
                    ..
                },
            ) => {}
            Err(trouble) => return report_trouble(rt, &trouble, FileState::Ill),
        }
    }
    let why = "a server or another command has it: ask it, as by snapd call ADDR status";
    tell(rt, file, &why, FileState::InUse)
}

/// Reports on a segment's file: its place and number, and whether a server started by this user could use it.
fn report_segment(
    rt: &HostRuntime,
    file: &str,
    place: SegmentPlace,
    number: Option<u64>,
) -> io::Result<FileState> {
    let SegmentPlace { index, count } = place;
    let Some(number) = number else {
        let why = format_args!(
            "segment {index} of {count}, but its slots give no answer: see snapd check {file}, and bring a copy back, \
                or save what a slot holds by snapd check {file} --slot S --value"
        );
        return tell(rt, file, &why, FileState::Ill);
    };
    let line = format_args!("segment {index} of {count} number {number}");
    let whole = tell(rt, file, &line, FileState::Whole(place))?;
    let Err(reason) = try_as_server(rt, file) else {
        return Ok(whole);
    };
    let why = format_args!("you can't serve it: {reason}");
    report_remedy(rt, file, &why, Some(&reason), FileState::Ill)
}

/// Prints this of the file or folder with this name, and returns the value.
fn tell<T: Display, V: Copy>(rt: &HostRuntime, name: &str, what: &T, value: V) -> io::Result<V>
    ensures { IfOk result (λ it. it ≡ value) }
{
    let line = format!(in rt.alloc(); "{name}: {what}")?;
    rt.println(&OneLine(line.as_str()))?;
    Ok(value)
}

/// Prints this of the file or folder at this path, with advice if the system gave this reason and there is any, and
/// returns the value.
fn report_remedy<T: Display, V: Copy>(
    rt: &HostRuntime,
    path: &str,
    what: &T,
    reason: Option<&io::Error>,
    value: V,
) -> io::Result<V> {
    tell(rt, path, what, ())?;
    if let Some(reason) = reason {
        if let Some(remedy) = remedy_of(rt, path, reason, None) {
            rt.println(&OneLine(remedy.as_str()))?;
        }
    }
    Ok(value)
}

/// Reports what is wrong with a file or the folder, and returns the value.
fn report_trouble<V: Copy>(
    rt: &HostRuntime,
    trouble: &FolderReadFault<'_>,
    value: V,
) -> io::Result<V> {
    match trouble {
        FolderReadFault::Path { file, fault } => {
            let reason = match fault {
                FileFault::System(reason) => Some(reason),
                _ => None,
            };
            report_remedy(rt, file, fault, reason, value)
        }
        FolderReadFault::Unformatted(why) | FolderReadFault::Other(why) => {
            rt.println(&OneLine(why.as_str()))?;
            Ok(value)
        }
        FolderReadFault::NoMemory => Err(io::Error::from(ErrorKind::OutOfMemory)),
    }
}

/// Reports the type of the folder's file system, and whether locks work there. They are tried on a
/// segment's file, if there is one, since some file systems don't lock folders.
fn report_file_system(rt: &HostRuntime, folder: &str, files: &[String]) -> io::Result<bool> {
    let kind = file_system_of(rt, folder);
    let kind = kind.as_deref().unwrap_or("unknown");
    let tried = path_at(folder, files, 0);
    let (are_kept, locks) = match keeps_locks(rt, tried) {
        Ok(true) => (true, "and keeps locks"),
        Ok(false) => (
            false,
            "whose locks keep nobody out: two servers could have one file, so serve from another",
        ),
        Err(reason) => {
            let why = format_args!(
                "its file system is {kind}, and {tried} can't be locked: {reason}"
            );
            return tell(rt, folder, &why, false);
        }
    };
    let line = format_args!("its file system is {kind}, {locks}");
    tell(rt, folder, &line, are_kept)
}

/// A store of fewer microseconds can't have waited for a disk: it syncs twice.
const SHORTEST: u128 = 40;

/// Reports how long a store takes in the folder, and whether it can have waited for a disk.
fn report_stores(rt: &HostRuntime, folder: &str) -> io::Result<bool> {
    let told = FirstFault::new();
    let (median, late) = match measure(rt, folder, &told) {
        Ok(Some(times)) => times,
        Ok(None) => {
            let said = told.text(rt.alloc());
            let said = said.as_deref().unwrap_or("a call of its device failed");
            let why = format_args!("nothing could be stored: {said}");
            return tell(rt, folder, &why, false);
        }
        Err(reason) => {
            let why = format_args!("nothing could be stored: {reason}");
            return report_remedy(rt, folder, &why, Some(&reason), false);
        }
    };
    let (median, late) = (median.as_micros(), late.as_micros());
    let line = format_args!(
        "a store takes {median} us (p50), {late} us (p99): {STORES} stores of {STORED_LEN} bytes"
    );
    tell(rt, folder, &line, ())?;
    if median < SHORTEST {
        let why =
            "no disk was waited for in that time: it is memory, or a disk that answers before it keeps, and \
            a power cut may take what was acknowledged";
        tell(rt, folder, &why, ())?;
    }
    Ok(true)
}
