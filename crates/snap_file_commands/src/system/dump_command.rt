//! The command `dump`: the values of a folder, and the document of values from wherever they are.
ghost use Rattle.std.specs.Prelude.{◌≡◌, ◌<◌, ◌≤◌, ◌-◌, ◌^◌, length};
ghost use Rattle.snap_order.specs.Limits.{MAX_COUNT};

use super::complaint::{fail_at, fail_in, print_whole};
use super::files::{FirstFault, first_faults, open_telling};
use super::folder::{files_in_order, segment_files};
use super::folder_refusal::FolderReadFault;
use crate::dump::{DumpFault, document, read};
use crate::{CommandFault, finish, held_value};
use snap_devices::{FileDisk, FileFault, Lock};
use snap_disk::Disk;
use snap_frame::SegmentValue;
use snap_order::{FileOrder, Status, fail_of, or_stop, stop_without_memory};

/// Prints the dump of these values at this time, or nothing if it fails. It is read back, so that a copy that no load
/// would accept is noticed when it is made, not when it is needed.
pub fn print_dump(rt: &HostRuntime, time: &str, values: &[SegmentValue]) -> Result<Status, Status> {
    let text = or_stop(rt, document(rt.alloc(), time, values))?;
    match read(rt.alloc(), text.as_slice()) {
        Ok(_) => print_whole(rt, text.as_slice())?,
        Err(DumpFault::NoMemory) => return Err(stop_without_memory(rt)),
        Err(fault) => return Err(fail_of(rt, "the dump can't be read back", &fault)),
    }
    Ok(Status::Done)
}

/// The values of a folder's files. All files stay locked until the last one is read, so the values are of one moment.
pub fn folder_values(rt: &HostRuntime, folder: &str) -> Result<Vec<SegmentValue>, Status> {
    let files = segment_files(rt, folder)?;
    match files_in_order(rt, folder, &files) {
        Ok(files) => {
            let told = or_stop(rt, first_faults(rt.alloc(), files.len()))?;
            read_files(rt, &files, &told)
        }
        Err(FolderReadFault::Path { file, fault }) => Err(fail_at_locked(rt, file, &fault)),
        Err(trouble) => Err(fail_in(rt, &trouble)),
    }
}

/// The values of these files, in order of segment. `told` gets why a call on one fails.
fn read_files<'f>(
    rt: &'f HostRuntime,
    files: &[&'f str],
    told: &'f Vec<FirstFault>,
) -> Result<Vec<SegmentValue>, Status>
    requires files { length files.now ≤ MAX_COUNT }
    requires told { length told.now.items ≡ length files.now }
{
    let count = files.len() as u8;
    let (mut locked, mut values) = (Vec::new(rt.alloc()), Vec::new(rt.alloc()));
    for index in 0..count {
        let at = usize::from(index);
        let (disk, value) = read_file(rt, files[at], index, count, &told[at])?;
        let are_kept = locked.push(disk).is_ok() & values.push(value).is_ok();
        if !are_kept {
            return Err(stop_without_memory(rt));
        }
    }
    Ok(values)
}

/// The locked file with its value.
fn read_file<'f>(
    rt: &'f HostRuntime,
    file: &'f str,
    index: u8,
    count: u8,
    told: &'f FirstFault,
) -> Result<(FileDisk<'f, HostRuntime>, SegmentValue), Status>
    requires below { index < count }
    requires few { count ≤ MAX_COUNT }
{
    match open_telling(rt, file, Lock::Shared, Some(told)) {
        Ok(disk) => value_of(rt, disk, file, index, count, told),
        Err(fault) => Err(fail_at_locked(rt, file, &fault)),
    }
}

/// The device with its value. It is that of the file at this path.
fn value_of<D: Disk + Drop>(
    rt: &HostRuntime,
    disk: D,
    file: &str,
    index: u8,
    count: u8,
    told: &FirstFault,
) -> Result<(D, SegmentValue), Status>
    requires below { index < count }
    requires few { count ≤ MAX_COUNT }
    requires headroom { D.failure_count disk < 2 ^ 64 - 1 }
{
    let len = disk.len();
    match held_value(rt.alloc(), index, count, disk) {
        (disk, Ok(value)) => Ok((disk, value)),
        (_, Err(why)) => {
            let order = FileOrder::Get { file, index, count };
            let end = Err(CommandFault::Refused(why));
            Err(finish(rt.alloc(), &order, len, end, told, &mut rt.stderr()).status)
        }
    }
}

/// Prints why the file at this path couldn't be opened. If it is in use, advises to ask the server for a dump.
fn fail_at_locked(rt: &HostRuntime, file: &str, fault: &FileFault) -> Status {
    if let FileFault::InUse(_) = fault {
        let line = format_args!("{fault}: where that is a server, ask it: snapd dump ADDR");
        return fail_of(rt, file, &line);
    }
    fail_at(rt, file, fault)
}
