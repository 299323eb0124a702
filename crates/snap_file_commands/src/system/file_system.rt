//! The type of a folder's file system, whether its locks work, what denies this user a path, and the process's limits.

use std::fs::{self, File, Metadata, TryLockError};
use std::io::{self, ErrorKind};
use std::os::unix::fs::MetadataExt;
use std::path::Path;

/// The permission bits of a mode, with set-user-ID, set-group-ID and sticky.
pub const MODE: u32 = 0o7777;

/// The type of the file system that has this path, such as `ext4`. `None` if the system doesn't say.
pub fn file_system_of(rt: &HostRuntime, path: &str) -> Option<String> {
    let device = fs::metadata(rt, path).ok()?.dev();
    let mounts = fs::read_to_string(rt, "/proc/self/mountinfo").ok()?;
    let major = (device >> 8 & 0xFFF) | (device >> 32 & !0xFFF);
    let minor = (device & 0xFF) | (device >> 12 & !0xFF);
    let name = format!(in rt.alloc(); "{major}:{minor}").ok()?;
    let kind = kind_in(mounts.as_str(), name.as_str())?;
    String::from_str(rt.alloc(), kind).ok()
}

/// The type in the last of the mounts' lines that has this device, since a later mount covers an earlier one.
fn kind_in<'m>(mounts: &'m str, device: &str) -> Option<&'m str> {
    let mut found = None;
    for line in mounts.lines() {
        if line.split(' ').nth(2) == Some(device) {
            if let Some((_, behind)) = line.split_once(" - ") {
                found = behind.split(' ').next();
            }
        }
    }
    found
}

/// Whether one lock of this file or folder excludes another. Nothing is written, and the lock of another process stays.
pub fn keeps_locks(rt: &HostRuntime, path: &str) -> io::Result<bool> {
    let first = opened(rt, path)?;
    let second = opened(rt, path)?;
    Ok(!has_locked(&first)? || !has_locked(&second)?)
}

/// Opens the file at this path as a server would, for writing, tries its lock, and closes it. Nothing is written.
pub fn try_as_server(rt: &HostRuntime, path: &str) -> io::Result<()> {
    let file = File::options().read(true).write(true).open(rt, path)?;
    has_locked(&file)?;
    Ok(())
}

/// Whether another process has an exclusive lock of the file at this path right now.
pub fn is_taken(rt: &HostRuntime, path: &str) -> bool {
    match opened(rt, path) {
        Ok(file) => matches!(file.try_lock_shared(), Err(TryLockError::WouldBlock)),
        Err(_) => false,
    }
}

/// Opens the file for writing if that is allowed, since some file systems want that for an exclusive lock. Only files
/// and folders are opened for reading: that would block on a pipe until a writer came.
fn opened(rt: &HostRuntime, path: &str) -> io::Result<File> {
    let found = fs::metadata(rt, path)?;
    match File::options().read(true).write(true).open(rt, path) {
        Err(_) if found.is_file() || found.is_dir() => File::open(rt, path),
        opened => opened,
    }
}

/// Locks the file or folder. Returns `false` if it is locked already.
pub fn has_locked(file: &File) -> io::Result<bool> {
    match file.try_lock() {
        Ok(()) => Ok(true),
        Err(TryLockError::WouldBlock) => Ok(false),
        Err(TryLockError::Error(reason)) => Err(reason),
    }
}

/// What denies this user the path, for this reason of the system, with advice: a text that begins with the path at
/// fault. `command` is what makes a path that doesn't exist. `None` if there is no advice, or if memory runs out.
pub fn remedy_of(
    rt: &HostRuntime,
    path: &str,
    reason: &io::Error,
    command: Option<String>,
) -> Option<String> {
    match reason.kind() {
        ErrorKind::PermissionDenied => remedy_of_denial(rt, path),
        ErrorKind::ReadOnlyFilesystem => format!(in rt.alloc();
            "{path}: its file system is mounted read-only: mount it to be written, or give a path on another one"
        ).ok(),
        ErrorKind::NotFound => remedy_of_want(rt, path, command),
        _ => None,
    }
}

/// The owner and mode of the path that this user may not use, with advice.
fn remedy_of_denial(rt: &HostRuntime, path: &str) -> Option<String> {
    let (place, found) = nearest(rt, path)?;
    let (owner, mode, user) = (found.uid(), found.mode() & MODE, libc::geteuid());
    let remedy = if user == owner || user == 0 {
        "give yourself the right by chmod, or look by lsattr and ls -Z for what else denies it"
    } else {
        "run it as its owner, or let this user in by chmod or chown"
    };
    format!(in rt.alloc();
        "{place}: user {owner} owns it, its mode is {mode:04o}, and you are user {user}: {remedy}"
    ).ok()
}

/// The path, or the nearest folder above it whose metadata this user can read.
fn nearest<'p>(rt: &HostRuntime, path: &'p str) -> Option<(&'p str, Metadata)> {
    for place in Path::new(path).ancestors() {
        // The last ancestor of a relative path is the working directory.
        let place = place.as_str();
        let place = if place.is_empty() { "." } else { place };
        if let Ok(found) = fs::metadata(rt, place) {
            return Some((place, found));
        }
    }
    None
}

/// The missing part of a path that doesn't exist, with advice. `None` for the root and the empty path.
fn remedy_of_want(rt: &HostRuntime, path: &str, command: Option<String>) -> Option<String> {
    let folder = Path::new(path).parent()?.as_str();
    let folder = if folder.is_empty() { "." } else { folder };
    if fs::symlink_metadata(rt, path).is_ok() {
        return format!(in rt.alloc();
            "{path}: it is a link to what isn't there: make that, or give another path"
        ).ok();
    }
    if fs::metadata(rt, folder).is_err() {
        return format!(in rt.alloc();
            "{folder}: there is no such folder: make it by mkdir -p, or give another path"
        ).ok();
    }
    let command = command?;
    format!(in rt.alloc(); "{path}: it isn't there: make it by {command}").ok()
}

/// The limit of this process on a resource, by its number at `getrlimit`.
pub fn limit_of(resource: i32) -> Option<u64> {
    let mut limit = libc::types::rlimit {
        rlim_cur: 0,
        rlim_max: 0,
    };
    (libc::getrlimit(resource, &mut limit) == 0).then_some(limit.rlim_cur)
}
