//! The program `snapd`: runs the commands on the system's files, sockets, threads and streams.
//!
//! `snap_args` parses the arguments. The commands themselves are in `snap_file_commands` (files and folders),
//! `snap_serve` (a server), `snap_client_commands` (a client) and `snap_script` (scripts). Those of a server and of
//! scripts are over any listener, reader and writer: this crate connects them to the system. A server's log goes to
//! standard error (`snap_log`).
#![tactic(auto)]

ghost use Rattle.std.specs.Prelude.{◌≡◌, ◌<◌, ◌≤◌, length};
ghost use Rattle.snap_order.specs.Limits.{MAX_COUNT};
ghost use Rattle.snap_order.specs.Order.{IsFileWithinLimits, IsPlace, IsServable, IsWithinLimits, KeepsLimits};
ghost use Rattle.snap_order.specs.Order.{IsDumpable};

mod http_view;
mod serve_command;
mod server_log;
mod surroundings;

use jiff::Timestamp;
use serve_command::{say_right_order, serve};
use snap_args::{WordFault, lack_of, order};
use snap_client_commands::system::{call, fetch, watch};
use snap_disk::Disk;
use snap_file_commands::system::{
    FirstFault, examine, fail_in, files_in_order, folder_values, init, load, print_dump,
    segment_files, stop, take_file, take_pair, too_short_files, writes,
};
use snap_file_commands::{CommandFault, act, act_pair, finish};
use snap_order::{
    DumpOptions, DumpSource, FileOrder, MigrateOptions, Order, ServeOptions, Status, complain,
    fail, fail_of, stop_without_memory,
};
use snap_script::play;
use snap_serve::Runtime;
use snap_slot::FILE_LEN;
use std::env;
use std::fmt::InlineText;
use std::io::{BufWriter, ErrorKind};
use std::os::fd::AsFd;
use std::process::ExitCode;
use std::sync::Wait;

fn main(rt: HostRuntime) -> ExitCode {
    let status = match words_of(&rt) {
        Ok(words) => obey(&rt, &rt, &words),
        Err(fault) => explain(&rt, &fault),
    };
    ExitCode::from(status.code())
}

/// Does what these arguments order. `threads` is the runtime again, as for [`do_order`].
fn obey<X: Runtime>(threads: &X, rt: &HostRuntime, words: &[String]) -> Status {
    match order(rt.alloc(), words) {
        Ok(order) => do_order(threads, rt, order).unwrap_or_else(|status| status),
        Err(fault) => explain(rt, &fault),
    }
}

/// The program's arguments, of which the first is its name.
fn words_of(rt: &HostRuntime) -> Result<Vec<String>, WordFault> {
    match env::args(rt) {
        Ok(words) => Ok(words.collect(rt.alloc())?),
        Err(error) if error.kind() == ErrorKind::OutOfMemory => Err(WordFault::Memory),
        Err(_) => Err(WordFault::NotText),
    }
}

/// Runs the command of the order, if the system has what it needs, and returns the exit status; as an error, if it
/// ended early. `threads` is the runtime again, for commands that may block, start threads and open sockets.
fn do_order<X: Runtime>(threads: &X, rt: &HostRuntime, order: Order<'_>) -> Result<Status, Status>
    requires { IsWithinLimits order }
{
    check_system(rt, &order)?;
    match order {
        Order::File(order) => run(rt, &order),
        Order::Migrate(order) => run_migration(rt, &order),
        Order::Init(order) => init(rt, &order),
        Order::Doctor(order) => examine(rt, &order),
        Order::Serve(order) => run_server(threads, rt, &order),
        Order::ServeFolder { folder, serving } => run_folder_server(threads, rt, folder, serving),
        Order::Call(order) => Ok(call(rt, &order)),
        Order::Watch(order) => watch(threads, rt, &order),
        Order::Dump(order) => dump(rt, &order),
        Order::Load(order) => load(rt, &order),
        Order::Script => Ok(play_script(threads, rt)),
    }
}

/// Checks what a command needs of the system before it opens a file. Prints a message if something is missing.
fn check_system(rt: &HostRuntime, order: &Order<'_>) -> Result<(), Status> {
    match order {
        Order::Script => return Ok(()),
        Order::Serve(serving) | Order::ServeFolder { serving, .. } => {
            return check_serving(rt, serving);
        }
        _ => check_streams(rt)?,
    }
    match order {
        Order::Call(order) => check_address(rt, order.address),
        Order::Watch(order) => check_address(rt, order.address),
        Order::Dump(order) => match order.holder {
            DumpSource::Server { address } => check_address(rt, address),
            DumpSource::Folder { .. } => Ok(()),
        },
        _ if is_writing(order) => check_limit(rt),
        _ => Ok(()),
    }
}

/// Whether a command on files writes them.
fn is_writing(order: &Order<'_>) -> bool {
    match order {
        Order::File(order) => writes(order),
        Order::Doctor(order) => order.is_measured,
        _ => true,
    }
}

/// Prints the help that was asked for, or what is wrong with the arguments.
fn explain(rt: &HostRuntime, fault: &WordFault) -> Status {
    let Ok(text) = fault.to_string(rt.alloc()) else {
        return stop_without_memory(rt);
    };
    // Some messages end in a line feed of their own, and that of the version in blanks.
    let text = text.trim_end();
    match fault {
        WordFault::Help(_) => match rt.println(&text) {
            Ok(()) => Status::Done,
            Err(error) => stop(rt, &CommandFault::Output(error)),
        },
        WordFault::Memory => stop_without_memory(rt),
        _ => {
            let _ = complain(rt.alloc(), &mut rt.stderr(), &text);
            Status::Misused
        }
    }
}

/// Runs a command on one file.
fn run<'a>(rt: &'a HostRuntime, order: &FileOrder<'a>) -> Result<Status, Status>
    requires { IsFileWithinLimits order.now }
{
    let told = FirstFault::new();
    let disk = take_file(rt, order, order.file(), &told)?;
    let len = disk.len();
    let (mut reader, mut writer) = (rt.stdin(), rt.stdout());
    let (_disk, end) = act(rt.alloc(), order, disk, &mut reader, &mut writer);
    Ok(finish(rt.alloc(), order, len, end, &told, &mut rt.stderr()).status)
}

/// Runs the command `migrate`.
fn run_migration<'a>(rt: &'a HostRuntime, order: &MigrateOptions<'a>) -> Result<Status, Status>
    requires { IsPlace order.now.index order.now.count }
{
    let (told_old, told_new) = (FirstFault::new(), FirstFault::new());
    let (old_path, new_path) = (order.old, order.new);
    let (old, new) = take_pair(rt, order, old_path, new_path, &told_old, &told_new)?;
    let (_old, _new, end) = act_pair(rt.alloc(), order, old, new, &mut rt.stdout());
    end.map_err(|failure| {
        let causes = (&told_old, &told_new);
        failure
            .report(rt.alloc(), order, causes, &mut rt.stderr())
            .status
    })
}

/// Prints a dump, or nothing if it fails. It has every update that was acknowledged before its time, since that is
/// taken before the values are requested.
fn dump(rt: &HostRuntime, order: &DumpOptions<'_>) -> Result<Status, Status>
    requires { IsDumpable order.now }
{
    let now = Timestamp::now(rt).map_err(|error| fail_of(rt, "the clock", &error))?;
    // In RFC 3339 format, in UTC and cut to seconds.
    let time = InlineText::<32>::of(format_args!("{now:.0}"));
    let values = match order.holder {
        DumpSource::Server { address } => fetch(rt, address, order)?,
        DumpSource::Folder { folder } => folder_values(rt, folder)?,
    };
    print_dump(rt, time.as_str(), &values)
}

/// Serves the order's files. `threads` is the runtime again, for what may block, start threads and open sockets.
fn run_server<X: Runtime>(
    threads: &X,
    rt: &HostRuntime,
    order: &ServeOptions<'_>,
) -> Result<Status, Status>
    requires { IsServable order.now }
{
    let ended = serve(threads, rt, order, None);
    if ended == Ok(Status::Refused) {
        say_right_order(rt, order);
    }
    ended
}

/// Serves the files of a folder, in order of segment. `serving` has none yet.
fn run_folder_server<X: Runtime>(
    threads: &X,
    rt: &HostRuntime,
    folder: &str,
    serving: ServeOptions<'_>,
) -> Result<Status, Status>
    requires { KeepsLimits serving }
{
    let files = segment_files(rt, folder)?;
    match files_in_order(rt, folder, &files) {
        Ok(files) => serve(threads, rt, &with_files(serving, files), Some(folder)),
        Err(trouble) => Err(fail_in(rt, &trouble)),
    }
}

/// The order with these files, and otherwise unchanged.
fn with_files<'a>(serving: ServeOptions<'a>, files: Vec<&'a str>) -> ServeOptions<'a>
    requires limits { KeepsLimits serving }
    requires some { 0 < length files.items }
    requires few { length files.items ≤ MAX_COUNT }
    ensures servable { IsServable result }
    ensures same { result ≡ record serving.entry { files = files.entry } }
{
    ServeOptions { files, ..serving }
}

/// Checks what a server needs of the system before it opens a file. Prints a message if something is missing.
fn check_serving(rt: &HostRuntime, order: &ServeOptions<'_>) -> Result<(), Status> {
    let http = order
        .http
        .map_or(Ok(()), |address| check_address(rt, address));
    check_streams(rt)?;
    'addresses: for address in &order.addresses {
        check_address(rt, *address)?;
    }
    http?;
    check_limit(rt)
}

/// Checks that standard input, output and error are all open. Prints which one isn't.
///
/// An opened file gets the lowest free descriptor. If one of the three were closed, a segment file
/// would get its number, and the program's output would be written into the segment.
fn check_streams(rt: &HostRuntime) -> Result<(), Status> {
    check_open(rt, "standard input", &rt.stdin())?;
    check_open(rt, "standard output", &rt.stdout())?;
    check_open(rt, "standard error", &rt.stderr())
}

/// Checks that the stream is open: a closed descriptor can't be duplicated. Prints the reason if it isn't.
fn check_open<F: AsFd>(rt: &HostRuntime, name: &str, stream: &F) -> Result<(), Status> {
    match stream.as_fd().try_clone_to_owned() {
        Ok(_copy) => Ok(()),
        Err(reason) => Err(fail_of(rt, name, &reason)),
    }
}

/// Checks that the process may write files as long as a segment's. Prints the limit if it may not.
fn check_limit(rt: &HostRuntime) -> Result<(), Status> {
    let Some(most) = too_short_files() else {
        return Ok(());
    };
    let line = format_args!(
        "files may have {most} bytes here, and a segment file has {FILE_LEN}: raise the limit (ulimit -f)"
    );
    Err(fail(rt, &line))
}

/// Checks that the address has a host and a port, or a path. Prints what is missing.
fn check_address(rt: &HostRuntime, address: &str) -> Result<(), Status> {
    match lack_of(address) {
        None => Ok(()),
        Some(lack) => Err(fail_of(rt, address, &lack)),
    }
}

/// Runs the script on standard input, which need not end. `waiting` is the runtime again, for what
/// may block. The output is buffered, so that each line is one write, and flushed before each read.
fn play_script<X: Wait>(waiting: &X, rt: &HostRuntime) -> Status {
    let Ok(mut writer) = BufWriter::new(rt.alloc(), rt.stdout()) else {
        return stop_without_memory(rt);
    };
    let (mut reader, mut errors) = (rt.stdin(), rt.stderr());
    play(waiting, rt.alloc(), &mut reader, &mut writer, &mut errors).status
}
