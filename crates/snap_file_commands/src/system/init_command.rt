//! The command `init`: makes the files of a folder, one after the other.
ghost use Rattle.std.specs.Prelude.{◌<◌, ◌≤◌};
ghost use Rattle.snap_order.specs.{Limits.MAX_COUNT, Order.IsOneTo};

use super::complaint::fail_in;
use super::files::{FirstFault, take_file};
use super::folder::{
    files_in_order, findings_of, index_of_name, make_folder, path_at, segment_files, segment_path,
};
use super::folder_refusal::{FolderReadFault, other};
use crate::{finish, found, is_further, sign_of_loss};
use snap_devices::FileFault;
use snap_disk::Disk;
use snap_order::{FileOrder, InitOptions, Status, or_stop, refuse, stop_without_memory};
use snap_segment::{Findings, Header, Slot};
use std::alloc::{AllocError, Global};
use std::path::Path;

/// Makes the folder, and in it the file of each segment in order. Whole files are left as they are. It stops at the
/// first file that can be neither made nor left, with its status. It makes none if a file has the name of a segment
/// `count` or above, has another count or is in use; nor if a file was lost, except with `--missing-empty`. At the end
/// it refuses a file of the folder that is none of theirs, as a server does.
pub fn init(rt: &HostRuntime, order: &InitOptions<'_>) -> Result<Status, Status>
    requires { IsOneTo MAX_COUNT order.now.count }
{
    let folder = order.folder;
    make_folder(rt, folder)?;
    let files = segment_files(rt, folder)?;
    let (kept, numbers) = match survey_of(rt, folder, order.count, &files) {
        Ok(survey) => survey,
        Err(trouble) => return Err(fail_in(rt, &trouble)),
    };
    match message_of_loss(rt.alloc(), order, &files, &kept, &numbers) {
        Ok(None) => {
            found_all(rt, order, &kept)?;
            let files = segment_files(rt, folder)?;
            if files.len() > usize::from(order.count) {
                if let Err(trouble) = files_in_order(rt, folder, &files) {
                    return Err(fail_in(rt, &trouble));
                }
            }
            Ok(Status::Done)
        }
        Ok(Some(why)) => Err(refuse(rt, &why)),
        Err(_) => Err(stop_without_memory(rt)),
    }
}

/// Checks all files of the folder. Returns the file of each segment in order, if it has one, and the greatest number in
/// each file of the folder.
fn survey_of<'f>(
    rt: &HostRuntime,
    folder: &'f str,
    count: u8,
    files: &'f [String],
) -> Result<(Vec<Option<&'f str>>, Vec<u64>), FolderReadFault<'f>>
    requires { count ≤ MAX_COUNT }
{
    check_names(rt.alloc(), folder, count, files)?;
    let mut kept: Vec<Option<&'f str>> = vec![in rt.alloc(); None; usize::from(count)]?;
    let mut numbers = Vec::with_capacity(rt.alloc(), files.len())?;
    for file in files {
        let number = look_at(rt, folder, count, file.as_str(), &mut kept)?;
        numbers.push(number).map_err(|_| AllocError)?;
    }
    Ok((kept, numbers))
}

/// Checks that no file has the name of a segment `count` or above.
fn check_names<'f>(
    alloc: Global,
    folder: &str,
    count: u8,
    files: &[String],
) -> Result<(), FolderReadFault<'f>>
    requires { count ≤ MAX_COUNT }
{
    for file in files {
        let name = Path::new(file.as_str()).file_name().unwrap_or("");
        if is_further(alloc, name, count)? {
            return Err(other(format!(in alloc;
                "{file}: it is none of {count} segments: give the count that {folder} was made with, or move it out \
                    of there"
            )));
        }
    }
    Ok(())
}

/// Which files are missing, and which one shows that they were lost. `None` if none was, or a lost one is to be made.
fn message_of_loss(
    alloc: Global,
    order: &InitOptions<'_>,
    files: &[String],
    kept: &[Option<&str>],
    numbers: &[u64],
) -> Result<Option<String>, AllocError>
    requires { order.now.count ≤ MAX_COUNT }
{
    let (folder, count) = (order.folder, order.count);
    let mut lacking = String::new(alloc);
    for index in 0..count {
        if file_in(kept, index).is_none() {
            let comma = if lacking.is_empty() { "" } else { ", " };
            let path = segment_path(alloc, folder, index)?;
            write!(lacking, "{comma}{path}")?;
        }
    }
    // Only whether a file is missing matters.
    let at = match sign_of_loss(usize::from(!lacking.is_empty()), numbers) {
        Some(at) if !order.is_missing_empty => at,
        _ => return Ok(None),
    };
    let (sign, number) = (path_at(folder, files, at), numbers[at]);
    Ok(Some(format!(in alloc;
        "{lacking}: missing or never formatted, though {sign} holds number {number}: restore what is missing from a \
            backup, or make it new and empty with snapd init {folder} --count {count} --missing-empty"
    )?))
}

/// The file of this segment, if it has one.
fn file_in<'f>(kept: &[Option<&'f str>], index: u8) -> Option<&'f str> {
    *kept.get(usize::from(index))?
}

/// Checks the file at this path, and keeps it for its segment: of two files of one segment the one with the segment's
/// name. Returns the greatest number in it.
fn look_at<'f>(
    rt: &HostRuntime,
    folder: &'f str,
    count: u8,
    file: &'f str,
    kept: &mut [Option<&'f str>],
) -> Result<u64, FolderReadFault<'f>>
    requires { count ≤ MAX_COUNT }
{
    let name = Path::new(file).file_name().unwrap_or("");
    let named = index_of_name(rt.alloc(), name, count)?;
    let mut number = 0;
    let index = match findings_of(rt, folder, file) {
        Ok(findings) => {
            number = greatest_number(&findings);
            // By its name, or by its header if it hasn't the name of a segment.
            match findings.header {
                Header::Open { count: found, .. } if found != count => {
                    return Err(other(format!(in rt.alloc();
                        "{file}: it is of {found} segments, and --count is {count}: give --count {found}, or move it \
                            out of there; a folder of more is made of a dump, by snapd load"
                    )));
                }
                Header::Open { index, .. } if named.is_none() => Some(index),
                // It was never formatted, so it is made.
                Header::Closed if number == 0 => None,
                _ => named,
            }
        }
        Err(trouble) => match trouble {
            FolderReadFault::Unformatted(_) => None,
            FolderReadFault::Path {
                fault: FileFault::InUse(_),
                ..
            }
            | FolderReadFault::NoMemory => return Err(trouble),
            // Any other fault is reported later, in its turn.
            _ => named,
        },
    };
    if let Some(index) = index {
        let at = usize::from(index);
        if at < kept.len() && (named.is_some() || kept[at].is_none()) {
            kept[at] = Some(file);
        }
    }
    Ok(number)
}

/// The greatest number in a slot, or 0 if no slot has one.
fn greatest_number(findings: &Findings) -> u64 {
    let (first, second, third) = findings.slots;
    let mut greatest = 0;
    for slot in [first, second, third] {
        if let Slot::Open { number, .. } = slot {
            greatest = greatest.max(number);
        }
    }
    greatest
}

/// Makes the files of the segments in order, or leaves those that are kept.
fn found_all(rt: &HostRuntime, order: &InitOptions<'_>, kept: &[Option<&str>]) -> Result<(), Status>
    requires { order.now.count ≤ MAX_COUNT }
{
    for index in 0..order.count {
        match file_in(kept, index) {
            Some(file) => found_at(rt, file, index, order.count)?,
            None => {
                let file = or_stop(rt, segment_path(rt.alloc(), order.folder, index))?;
                found_at(rt, file.as_str(), index, order.count)?;
            }
        }
    }
    Ok(())
}

/// Makes the file of a segment, or leaves it if it is whole, and prints which.
fn found_at<'a>(rt: &'a HostRuntime, file: &'a str, index: u8, count: u8) -> Result<(), Status>
    requires below { index < count }
    requires few { count ≤ MAX_COUNT }
{
    let told = FirstFault::new();
    let order = FileOrder::Format { file, index, count };
    let disk = take_file(rt, &order, file, &told)?;
    let len = disk.len();
    let (_disk, end) = found(rt.alloc(), disk, index, count, &mut rt.stdout());
    match finish(rt.alloc(), &order, len, end, &told, &mut rt.stderr()).status {
        Status::Done => Ok(()),
        status => Err(status),
    }
}
