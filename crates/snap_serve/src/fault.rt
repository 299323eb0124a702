//! Why a server ended early, and what is printed then.
ghost use Rattle.std.specs.Prelude.{◌≡◌, IfSome, string_bytes};
ghost use Rattle.snap_serve.specs.Serve.{IsRemedy, SaysFailure, status_of};
ghost use Rattle.snap_order.specs.Streams.{file_line};

use crate::bind::ListenFault;
use snap_disk::Refusal;
use snap_order::{
    Exit, OLD_FILE_LEN, OneLine, ServeOptions, Status, SystemReason, complain, complain_of_refusal,
    complain_twice, empty_remedy, format_command, old_format_remedy, socket_path,
    unformatted_remedy,
};
use snap_server::{BindFault, ServerFault};
use std::alloc::{AllocError, Global};
use std::io::{self, ErrorKind, Write};

/// Why a server ended early.
#[derive(Drop)]
pub enum HostFault {
    /// The file of this segment, with `len` bytes, was refused, or memory ran out when it was opened.
    Refused {
        segment: usize,
        why: Refusal,
        len: u64,
    },
    /// Memory ran out.
    NoMemory,
    /// An address couldn't be bound.
    Address(ListenFault),
    /// Writing the printed lines failed.
    Output(io::Error),
    /// A thread couldn't be started, or connections could no longer be accepted or polled.
    Server(ServerFault),
}

impl HostFault {
    /// Prints on standard error why the server ended, as one line that begins with `snapd: `. After a refused file, a
    /// second line names the file and says what to do. `causes` has the system's message for each segment's device.
    pub fn report<C: SystemReason, E: Write>(
        &self,
        alloc: Global,
        order: &ServeOptions<'_>,
        causes: &[C],
        errors: &mut E,
    ) -> Exit
        ensures status { result.status ≡ status_of self.now }
        ensures says { SaysFailure (λ file. file.now) order.now.files.items self.now
            result.is_told (E.contents errors.old) (E.contents errors.new) }
    {
        match self {
            HostFault::Refused { segment, why, len } => {
                let more = remedy_line(alloc, &order.files, causes, *segment, *why, *len);
                Exit {
                    status: Status::Refused,
                    is_told: complain_twice(errors, *why, more),
                }
            }
            HostFault::NoMemory => Exit {
                status: Status::Refused,
                is_told: complain_of_refusal(errors, Refusal::NoMemory),
            },
            HostFault::Address(ListenFault { place, why }) => {
                let address = address_at(order, *place);
                let (address, advice) = (OneLine(address), advice_on(address, why));
                let text = format_args!("{address}: can't listen there: {why}: {advice}");
                failed(complain(alloc, errors, &text))
            }
            HostFault::Output(error) => {
                let text = format_args!("standard output: {error}");
                failed(complain(alloc, errors, &text))
            }
            HostFault::Server(fault) => {
                let address = OneLine(address_at(order, 0));
                let text = format_args!("{address}: {fault}");
                failed(complain(alloc, errors, &text))
            }
        }
    }
}

/// The address at this index of the command line.
fn address_at<'a>(order: &ServeOptions<'a>, place: usize) -> &'a str {
    order.addresses.get(place).map_or("", |address| *address)
}

/// The advice after an address that couldn't be bound.
fn advice_on(address: &str, why: &BindFault) -> &'static str {
    match why {
        BindFault::System(reason) => system_advice(address, reason),
        BindFault::Taken => "end it, or give another path",
        BindFault::Foreign => {
            "give another path, or have its owner end what listens there and remove it"
        }
        BindFault::NoSocket => "move it away, or give another path",
        BindFault::Locked => "give a path in a folder of this server's own",
        BindFault::Masked => "start it under umask 0, or give a path in a folder of its own",
        BindFault::NoMemory => "give this process more memory",
    }
}

/// Linux's ENFILE and EMFILE: no descriptors are left.
const NO_DESCRIPTOR: [i32; 2] = [23, 24];

/// The advice after an address that couldn't be bound for this reason of the system.
pub fn system_advice(address: &str, reason: &io::Error) -> &'static str {
    let code = reason.raw_os_error();
    match reason.kind() {
        _ if code.is_some_and(|code| NO_DESCRIPTOR.contains(&code)) => {
            "raise the limit of open files (ulimit -n, or fs.file-max)"
        }
        _ if socket_path(address).is_some() => {
            "give a path in a folder where this user may make files"
        }
        ErrorKind::PermissionDenied => "give a port from 1024 on, or let this user listen below it",
        ErrorKind::InvalidInput => "give HOST:PORT with a port from 0 to 65535",
        _ => "give an address of this machine whose port is free",
    }
}

/// The exit of a server whose stream or socket failed.
fn failed(is_told: bool) -> Exit
    ensures status { result.status ≡ Status.Failed }
    ensures told { result.is_told ≡ is_told }
{
    Exit {
        status: Status::Failed,
        is_told,
    }
}

/// Makes the line after a file's refusal, or `None` if memory for it runs out. It is empty if the
/// refusal itself is `NoMemory`. `len` is the file's length in bytes.
fn remedy_line<C: SystemReason>(
    alloc: Global,
    files: &Vec<&str>,
    causes: &[C],
    segment: usize,
    why: Refusal,
    len: u64,
) -> Option<String>
    ensures { IfSome result (λ more. IsRemedy (λ file. file.now) files.now.items segment why (string_bytes more)) }
{
    let Some(file) = files.get(segment) else {
        return Some(String::new(alloc));
    };
    match why {
        Refusal::NoMemory => Some(String::new(alloc)),
        _ => match remedy_of(alloc, *file, segment, files.len(), causes, why, len) {
            Ok(remedy) => line_of(alloc, *file, &remedy),
            Err(_) => None,
        },
    }
}

/// Makes a line that begins with the name of a file.
fn line_of(alloc: Global, file: &str, text: &String) -> Option<String>
    ensures { IfSome result (λ line. string_bytes line ≡ file_line file.now (string_bytes text.now)) }
{
    format!(in alloc; "snapd: {file}: {text}\n").ok()
}

/// The advice after a file's refusal. `len` is the file's length in bytes.
fn remedy_of<C: SystemReason>(
    alloc: Global,
    file: &str,
    segment: usize,
    count: usize,
    causes: &[C],
    why: Refusal,
    len: u64,
) -> Result<String, AllocError> {
    match (why, len) {
        // A `format` that was interrupted leaves an empty file.
        (Refusal::WrongFile, 0) => {
            let command = format_command(alloc, file, segment as u64, count as u64)?;
            empty_remedy(alloc, command.as_str())
        }
        (Refusal::WrongFile, OLD_FILE_LEN) => old_format_remedy(alloc, file),
        (Refusal::WrongFile, _) => format!(in alloc;
            "it isn't the file of segment {segment} of {count}: see snapd check {file}"
        ),
        (Refusal::Unformatted, _) => {
            let command = format_command(alloc, file, segment as u64, count as u64)?;
            unformatted_remedy(alloc, command.as_str())
        }
        (Refusal::DeviceFailed, _) => match cause_of(alloc, causes, segment) {
            Some(cause) => format!(in alloc; "{cause}: look after its disk, and start again"),
            None => format!(in alloc;
                "a call of its device failed: look after its disk, and start again"
            ),
        },
        _ => format!(in alloc; "it doesn't hold a segment's number: see snapd check {file}"),
    }
}

/// The system's message for this segment's device.
fn cause_of<C: SystemReason>(alloc: Global, causes: &[C], segment: usize) -> Option<String> {
    causes.get(segment)?.text(alloc)
}
