//! Messages on standard error about files and folders that can't be used.

use super::file_system::remedy_of;
use super::folder_refusal::FolderReadFault;
use crate::CommandFault;
use snap_devices::FileFault;
use snap_order::{Status, fail_of, refuse, say, say_of, stop_without_memory, write_whole};
use std::io::{self, ErrorKind};

/// Prints why the file at this path couldn't be opened, with advice if there is any.
pub fn fail_at(rt: &HostRuntime, file: &str, fault: &FileFault) -> Status {
    fail_without(rt, file, fault, None)
}

/// [`fail_at`] for a path that this command makes, if it doesn't exist.
pub fn fail_without(
    rt: &HostRuntime,
    path: &str,
    fault: &FileFault,
    command: Option<String>,
) -> Status {
    say_of(rt, path, fault);
    if let FileFault::System(reason) = fault {
        if let Some(remedy) = remedy_of(rt, path, reason, command) {
            say(rt, &remedy);
        }
    }
    Status::Failed
}

/// [`fail_at`] for a server's file, with advice for one that is a folder.
pub fn fail_at_file(rt: &HostRuntime, file: &str, fault: &FileFault) -> Status {
    let command = format!(in rt.alloc(); "snapd format {file} --index I --count N");
    let status = fail_without(rt, file, fault, command.ok());
    if let FileFault::System(reason) = fault {
        if reason.kind() == ErrorKind::IsADirectory {
            let why = format_args!("it is a folder: give it as --dir {file}");
            say_of(rt, file, &why);
        }
    }
    status
}

/// Prints that two paths of one command name one file.
pub fn fail_twice(rt: &HostRuntime, first: &str, second: &str) -> Status {
    let why = format_args!("it is the same file as {first}: each file is named once");
    fail_of(rt, second, &why)
}

/// Prints why the files of a folder can't be used. The status is [`Status::Refused`] if that is the fault of the files.
pub fn fail_in(rt: &HostRuntime, trouble: &FolderReadFault<'_>) -> Status {
    match trouble {
        FolderReadFault::Path { file, fault } => fail_at(rt, file, fault),
        FolderReadFault::Unformatted(why) | FolderReadFault::Other(why) => refuse(rt, why),
        FolderReadFault::NoMemory => stop_without_memory(rt),
    }
}

/// Prints why the folder at this path couldn't be made or listed.
pub fn fail_at_folder(rt: &HostRuntime, folder: &str, reason: io::Error) -> Status {
    if reason.kind() == ErrorKind::OutOfMemory {
        return stop_without_memory(rt);
    }
    let command = format!(in rt.alloc(); "snapd init {folder} --count N");
    fail_without(rt, folder, &FileFault::System(reason), command.ok())
}

/// Prints why the program stops.
pub fn stop(rt: &HostRuntime, failure: &CommandFault) -> Status {
    failure.report(rt.alloc(), &mut rt.stderr()).status
}

/// Writes these bytes to standard output. Prints the reason if that fails.
pub fn print_whole(rt: &HostRuntime, bytes: &[u8]) -> Result<(), Status> {
    write_whole(&mut rt.stdout(), bytes).map_err(|error| stop(rt, &CommandFault::Output(error)))
}
