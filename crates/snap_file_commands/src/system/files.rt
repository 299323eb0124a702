//! Opens the files of an order.
ghost use Rattle.std.specs.Prelude.{◌≡◌, length, IfOk};
ghost use Rattle.snap_devices.specs.FileDisk.{IsUncalled};

use super::complaint::{fail_at, fail_twice, fail_without};
use super::file_system::limit_of;
use crate::{CommandFault, MigrationFault, finish, words_of_format};
use snap_devices::{CallFault, FileDisk, FileFault, Lock};
use snap_disk::{Disk, Refusal};
use snap_order::{FileOrder, MigrateOptions, Status, SystemReason};
use snap_segment::{OLD_FILE_LEN, Which};
use snap_slot::FILE_LEN;
use std::alloc::{AllocError, Global};
use std::sync::OnceLock;
use std::{fs, io};

/// The reason why a call on an open file failed first. The file's device sets it; it outlives the device.
#[derive(Drop)]
pub struct FirstFault(pub OnceLock<CallFault>);

impl FirstFault {
    /// No call has failed yet.
    pub fn new() -> FirstFault {
        FirstFault(OnceLock::new())
    }
}

impl SystemReason for FirstFault {
    // No contract says what another thread or the system put there.
    ghost may_give = { λ _ _. Unit {0} };

    fn text(&self, alloc: Global) -> Option<String> {
        self.0.get()?.to_string(alloc).ok()
    }
}

/// An empty reason for each of `count` files.
pub fn first_faults(alloc: Global, count: usize) -> Result<Vec<FirstFault>, AllocError>
    ensures { IfOk result (λ told. length told.items ≡ count) }
{
    let mut told = Vec::with_capacity(alloc, count)?;
    for _ in 0..count {
        told.push(FirstFault::new())?;
    }
    Ok(told)
}

/// Opens the order's file as a device. `format` makes the file if it doesn't exist. A command that writes gets an
/// exclusive lock. `file` is the order's path, and `told` gets the reason why a call on the file fails. Prints the
/// reason if it can't be opened.
pub fn take_file<'a>(
    rt: &'a HostRuntime,
    order: &FileOrder<'_>,
    file: &'a str,
    told: &'a FirstFault,
) -> Result<FileDisk<'a, HostRuntime>, Status>
    ensures { IfOk result IsUncalled }
{
    let lock = match *order {
        FileOrder::Format { .. } => None,
        _ if writes(order) => Some(Lock::Exclusive),
        _ => Some(Lock::Shared),
    };
    match open_as(rt, file, lock, Some(told)) {
        Ok(disk) => Ok(disk),
        Err(FileFault::WrongFile { len }) => {
            let end = Err(CommandFault::Refused(Refusal::WrongFile));
            Err(finish(rt.alloc(), order, len, end, told, &mut rt.stderr()).status)
        }
        Err(fault) => {
            let command = words_of_format(rt.alloc(), order);
            Err(fail_without(rt, file, &fault, command.ok()))
        }
    }
}

/// Opens the file at this path as a device, with this lock. `told` gets the reason why a call on it fails.
pub fn open_telling<'a>(
    rt: &'a HostRuntime,
    file: &'a str,
    lock: Lock,
    told: Option<&'a FirstFault>,
) -> Result<FileDisk<'a, HostRuntime>, FileFault>
    ensures { IfOk result IsUncalled }
{
    open_as(rt, file, Some(lock), told)
}

/// Opens the file with this lock, or makes it if there is none. A pipe, a socket or a device is a `System` fault. Each
/// function with a call of `FileDisk` costs seconds.
pub fn open_as<'a>(
    rt: &'a HostRuntime,
    file: &'a str,
    lock: Option<Lock>,
    told: Option<&'a FirstFault>,
) -> Result<FileDisk<'a, HostRuntime>, FileFault>
    ensures { IfOk result IsUncalled }
{
    if fs::metadata(rt, file).is_ok_and(|found| !found.is_file() && !found.is_dir()) {
        let why = "it is a pipe, a socket or a device: give the path of a regular file";
        return Err(FileFault::System(io::Error::other(why)));
    }
    let opened = match lock {
        Some(lock) => FileDisk::open(rt, file, lock),
        None => FileDisk::create(rt, file),
    };
    match told {
        Some(told) => Ok(opened?.telling(&told.0)),
        None => opened,
    }
}

/// Whether the order writes its file.
pub fn writes(order: &FileOrder<'_>) -> bool {
    matches!(order, FileOrder::Format { .. } | FileOrder::Put { .. })
}

/// Opens the files of a migration as devices: first the old one, which others may still read, and then the new one,
/// which is made if it doesn't exist. `told_old` and `told_new` get the reason why a call on each fails. Prints the
/// reason if one can't be opened; if both have a wrong length, that of the old one.
pub fn take_pair<'a>(
    rt: &'a HostRuntime,
    order: &MigrateOptions<'_>,
    old_path: &'a str,
    new_path: &'a str,
    told_old: &'a FirstFault,
    told_new: &'a FirstFault,
) -> Result<(FileDisk<'a, HostRuntime>, FileDisk<'a, HostRuntime>), Status>
    ensures { IfOk result (λ pair. IsUncalled pair.0 × IsUncalled pair.1) }
{
    let old = match open_as(rt, old_path, Some(Lock::Shared), Some(told_old)) {
        Ok(old) => old,
        Err(fault) => return Err(fail_at(rt, old_path, &fault)),
    };
    let fault = match open_as(rt, new_path, None, Some(told_new)) {
        Ok(new) => return Ok((old, new)),
        Err(fault) => fault,
    };
    let (len, id) = (old.len(), old.id());
    drop(old);
    let which = match fault {
        FileFault::WrongFile { .. } if len != OLD_FILE_LEN => Which::Old,
        FileFault::WrongFile { .. } => Which::New,
        FileFault::InUse(other) if other == id => return Err(fail_twice(rt, old_path, new_path)),
        _ => return Err(fail_at(rt, new_path, &fault)),
    };
    let why = Refusal::WrongFile;
    let refused = MigrationFault::OfFile { which, why };
    let ended = refused.report(rt.alloc(), order, (told_old, told_new), &mut rt.stderr());
    Err(ended.status)
}

/// Linux's RLIMIT_FSIZE: the limit on the length of files that a process writes.
const FILE_LENGTHS: i32 = 1;

/// The most bytes of a file that this process may write, if that is less than a segment file has.
/// Beyond it the system would kill the server with all its segments.
pub fn too_short_files() -> Option<u64> {
    let limit = limit_of(FILE_LENGTHS)?;
    (limit < FILE_LEN).then_some(limit)
}
