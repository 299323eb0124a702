//! The folder in which `load` makes its files, before it is renamed.

use super::complaint::{fail_at, fail_at_folder};
use super::file_system::{MODE, has_locked};
use super::folder::{index_of_name, make_folder};
use crate::MAX_COUNT;
use snap_devices::{FileFault, sync_folder_of};
use snap_order::{Status, fail_of, or_stop, refuse, refuse_of, stop_without_memory};
use std::fs::{self, DirEntry, File};
use std::io::{self, ErrorKind};
use std::os::unix::fs::{MetadataExt, fchown};
use std::path::Path;

/// A folder in the making. Its lock excludes every other load while this value exists.
#[derive(Drop)]
pub struct LoadingFolder {
    /// The path that it will get.
    folder: String,
    /// The path until then.
    pub path: String,
    /// Its lock.
    _lock: File,
}

impl LoadingFolder {
    /// Makes the folder beside the wanted one, with the owner, group and mode of an empty one that is there. Takes over
    /// that of an interrupted load, and removes its files; if one of them isn't a load's, none is removed. If the
    /// wanted folder isn't empty, nothing is changed. Prints the reason if it fails.
    pub fn take(rt: &HostRuntime, wanted: &str) -> Result<LoadingFolder, Status> {
        let place = Path::new(wanted);
        let Some(name) = place.file_name() else {
            let why = "it has no name of its own: give the path that the new folder is to have";
            return Err(refuse_of(rt, wanted, &why));
        };
        // Without a `/` or a `/.` after its name.
        let folder = or_stop(rt, place.with_file_name(rt.alloc(), name))?.into_string();
        check_free(rt, folder.as_str())?;
        let path = or_stop(rt, format!(in rt.alloc(); "{folder}.loading"))?;
        let _lock = make_for(rt, folder.as_str(), path.as_str())?;
        Ok(LoadingFolder {
            folder,
            path,
            _lock,
        })
    }

    /// Renames the folder to its final path, and syncs the name.
    pub fn put_in_place(&self, rt: &HostRuntime) -> Result<(), Status> {
        let (folder, path) = (self.folder.as_str(), self.path.as_str());
        if let Err(reason) = fs::rename(rt, path, folder) {
            let why = format_args!("{reason}: all files are made, in {path}");
            return Err(fail_of(rt, folder, &why));
        }
        if let Err(reason) = sync_folder_of(rt, folder) {
            let why = format_args!(
                "{reason}: it is there whole, but a power cut may take its name: look after its disk, and load the \
                    dump elsewhere"
            );
            return Err(fail_of(rt, folder, &why));
        }
        Ok(())
    }
}

/// Makes the folder at this path, which is to replace the wanted one. Returns its lock.
fn make_for(rt: &HostRuntime, wanted: &str, path: &str) -> Result<File, Status> {
    make_folder(rt, path)?;
    let lock = lock_folder(rt, path)?;
    // Another load may have finished before this one got the lock.
    let prepared = check_free(rt, wanted)
        .and_then(|()| clear(rt, path))
        .and_then(|()| carry_over(rt, wanted, &lock));
    if prepared.is_err() {
        // Removes the folder again if it is empty, as a new one is.
        let _ = fs::remove_dir(rt, path);
    }
    prepared?;
    Ok(lock)
}

/// Gives the new folder the owner, group and mode of the empty one that it replaces, before it has a file that others
/// could read. Does nothing if that doesn't exist. Prints a message if they can't be given.
fn carry_over(rt: &HostRuntime, wanted: &str, loading: &File) -> Result<(), Status> {
    let found = match fs::metadata(rt, wanted) {
        Ok(found) => found,
        Err(reason) if reason.kind() == ErrorKind::NotFound => return Ok(()),
        Err(reason) => return Err(fail_at_folder(rt, wanted, reason)),
    };
    let (owner, group, mode) = (found.uid(), found.gid(), found.mode());
    // The result is checked instead: a file system may lack owners or modes, and the system may drop a bit.
    let _ = fchown(loading, Some(owner), Some(group));
    let _ = loading.set_permissions(found.permissions());
    match loading.metadata() {
        Ok(given) if given.uid() == owner && given.gid() == group && given.mode() == mode => Ok(()),
        Ok(_) => {
            let mode = mode & MODE;
            let why = format_args!(
                "user {owner}, group {group} and mode {mode:04o} can't be given to the folder that takes its place: \
                    load as that user or as root, or give the path of a folder that isn't there yet"
            );
            Err(refuse_of(rt, wanted, &why))
        }
        Err(reason) => Err(fail_at_folder(rt, wanted, reason)),
    }
}

/// Checks that the folder is missing or empty. Prints a message if it isn't.
fn check_free(rt: &HostRuntime, folder: &str) -> Result<(), Status> {
    match fs::read_dir(rt, folder) {
        Ok(mut names) => match names.next() {
            None => Ok(()),
            Some(_) => {
                let why = "it is not empty: give the path of a folder that isn't there yet";
                Err(refuse_of(rt, folder, &why))
            }
        },
        Err(reason) if reason.kind() == ErrorKind::NotFound => Ok(()),
        Err(reason) => Err(fail_at_folder(rt, folder, reason)),
    }
}

/// Locks the folder at this path. Prints the reason if that fails.
fn lock_folder(rt: &HostRuntime, path: &str) -> Result<File, Status> {
    match try_lock_folder(rt, path) {
        Ok(Some(lock)) => Ok(lock),
        Err(reason) if reason.kind() != ErrorKind::NotFound => {
            Err(fail_at(rt, path, &FileFault::System(reason)))
        }
        _ => {
            let why = "another load is at work there: wait for it, or give another folder";
            Err(refuse_of(rt, path, &why))
        }
    }
}

/// Locks the folder at this path. `None`, or a fault of the kind `NotFound`, if another process has locked or renamed
/// it.
fn try_lock_folder(rt: &HostRuntime, path: &str) -> io::Result<Option<File>> {
    let folder = File::open(rt, path)?;
    if !has_locked(&folder)? {
        return Ok(None);
    }
    let (opened, named) = (folder.metadata()?, fs::metadata(rt, path)?);
    let is_same = opened.dev() == named.dev() && opened.ino() == named.ino();
    Ok(is_same.then_some(folder))
}

/// Removes the files of an interrupted load. If anything else is there, prints that and removes nothing.
fn clear(rt: &HostRuntime, loading: &str) -> Result<(), Status> {
    for path in left_paths(rt, loading)? {
        if let Err(reason) = fs::remove_file(rt, path.as_str()) {
            return Err(fail_at(rt, path.as_str(), &FileFault::System(reason)));
        }
    }
    Ok(())
}

/// The paths of what is in the folder. Prints a message if anything there isn't a load's.
fn left_paths(rt: &HostRuntime, loading: &str) -> Result<Vec<String>, Status> {
    let entries = fs::read_dir(rt, loading).map_err(|reason| fail_at_folder(rt, loading, reason))?;
    let mut paths = Vec::new(rt.alloc());
    for entry in entries {
        if paths.push(own_path(rt, loading, entry)?).is_err() {
            return Err(stop_without_memory(rt));
        }
    }
    Ok(paths)
}

/// The path of this entry of the folder, if it has a name that a load gives. Prints a message if it hasn't.
fn own_path(
    rt: &HostRuntime,
    loading: &str,
    entry: io::Result<DirEntry>,
) -> Result<String, Status> {
    let entry = match entry {
        Ok(entry) => entry,
        Err(reason) if reason.kind() == ErrorKind::InvalidFilename => {
            let why = "it has a file whose name is no text: move it out of there";
            return Err(refuse_of(rt, loading, &why));
        }
        Err(reason) => return Err(fail_at_folder(rt, loading, reason)),
    };
    let name = entry.file_name();
    match or_stop(rt, index_of_name(rt.alloc(), name, MAX_COUNT))? {
        Some(_) => Ok(or_stop(rt, Path::new(loading).join(rt.alloc(), name))?.into_string()),
        None => Err(refuse(
            rt,
            &format_args!("{loading}/{name}: it is not what a load leaves: move it out of there"),
        )),
    }
}
