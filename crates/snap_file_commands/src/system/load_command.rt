//! The command `load`: makes a folder of the values of a dump.
//!
//! The files are made in a folder beside it, which is renamed once all of them are synced: so it exists whole or not
//! at all.
ghost use Rattle.std.specs.Prelude.{◌≡◌, ◌<◌, ◌≤◌, All, IfOk, length};
ghost use Rattle.snap_frame.specs.Limits.{IsNumber, IsShort};
ghost use Rattle.snap_order.specs.{Limits.MAX_COUNT, Order.IsLoadable, Order.IsOneTo};
ghost use Rattle.snap_file_commands.specs.Document.{AreServable, IsKeepable};

use super::complaint::{fail_at, print_whole};
use super::files::{FirstFault, take_file};
use super::folder::segment_path;
use super::loading_folder::LoadingFolder;
use crate::dump::{Dump, DumpFault, MAX_DUMP_LEN, read};
use crate::{LoadedFile, finish};
use snap_devices::FileFault;
use snap_disk::Disk;
use snap_frame::SegmentValue;
use snap_order::{
    FileOrder, LoadOptions, OneLine, Status, or_stop, read_up_to, refuse_of, stop_without_memory,
};
use std::fs::File;
use std::io::Read;

/// Reads the dump, and then makes the folder. An invalid dump is refused before anything is made.
pub fn load(rt: &HostRuntime, order: &LoadOptions<'_>) -> Result<Status, Status>
    requires { IsLoadable order.now }
{
    let path = order.dump;
    let dump = read_dump(rt, path)?;
    let found = dump.values.len() as u8;
    let count = order.count.unwrap_or(found);
    if count < found {
        let why = format_args!(
            "it has {found} segments, and --count is {count}: give {found} or more"
        );
        return Err(refuse_of(rt, path, &why));
    }
    make_folder(rt, order.folder, count, &dump.values)?;
    Ok(Status::Done)
}

/// Reads the dump in the file at this path, or on standard input.
fn read_dump(rt: &HostRuntime, path: &str) -> Result<Dump, Status>
    ensures { IfOk result (λ dump. AreServable dump.values.items) }
{
    if path == "-" {
        return read_from(rt, "standard input", &mut rt.stdin());
    }
    match File::open(rt, path) {
        Ok(mut file) => read_from(rt, path, &mut file),
        Err(reason) => Err(fail_at(rt, path, &FileFault::System(reason))),
    }
}

/// Reads the dump of this reader. `name` is for the messages.
fn read_from<R: Read>(rt: &HostRuntime, name: &str, reader: &mut R) -> Result<Dump, Status>
    ensures { IfOk result (λ dump. AreServable dump.values.items) }
{
    // One byte more than a dump may have shows that it is too long.
    let mut text = or_stop(rt, vec![in rt.alloc(); 0u8; MAX_DUMP_LEN + 1])?;
    let len = match read_up_to(reader, &mut text) {
        Ok(len) => len,
        Err(reason) => return Err(fail_at(rt, name, &FileFault::System(reason))),
    };
    if len > MAX_DUMP_LEN {
        return Err(refuse_of(rt, name, &DumpFault::TooLong));
    }
    match read(rt.alloc(), &text[..len]) {
        Ok(dump) => Ok(dump),
        Err(DumpFault::NoMemory) => Err(stop_without_memory(rt)),
        Err(fault) => Err(refuse_of(rt, name, &fault)),
    }
}

/// Makes the folder with `count` segments, the first of which have these values.
fn make_folder(
    rt: &HostRuntime,
    folder: &str,
    count: u8,
    values: &[SegmentValue],
) -> Result<(), Status>
    requires count { IsOneTo MAX_COUNT count }
    requires values { All IsKeepable values.now }
{
    let loading = LoadingFolder::take(rt, folder)?;
    for index in 0..count {
        let file = or_stop(rt, segment_path(rt.alloc(), loading.path.as_str(), index))?;
        make_file(rt, file.as_str(), index, count, values)?;
    }
    // The line is made first, so that if memory runs out the folder isn't renamed.
    let shown = OneLine(folder);
    let line = or_stop(rt, format!(in rt.alloc(); "ready {shown}\n"))?;
    loading.put_in_place(rt)?;
    print_whole(rt, line.as_bytes())
}

/// Makes the file of a segment, with its value if there is one.
fn make_file<'a>(
    rt: &'a HostRuntime,
    file: &'a str,
    index: u8,
    count: u8,
    values: &[SegmentValue],
) -> Result<(), Status>
    requires below { index < count }
    requires few { count ≤ MAX_COUNT }
    requires values { All IsKeepable values.now }
{
    let told = FirstFault::new();
    let order = FileOrder::Format { file, index, count };
    let mut disk = take_file(rt, &order, file, &told)?;
    let (number, value) = value_at(values, index);
    let of = LoadedFile {
        index,
        count,
        number,
        value,
    };
    let end = crate::load(rt.alloc(), &of, &mut disk, &mut rt.stdout());
    let len = disk.len();
    match finish(rt.alloc(), &order, len, end, &told, &mut rt.stderr()).status {
        Status::Done => Ok(()),
        status => Err(status),
    }
}

/// The number and value of this segment, or number 0 and the empty value after the last one.
fn value_at(values: &[SegmentValue], index: u8) -> (u64, &[u8])
    requires { All IsKeepable values.now }
    ensures number { IsNumber result.0 }
    ensures fits { IsShort result.1.now }
{
    match values.get(usize::from(index)) {
        Some(value) => (value.number, value.value.as_slice()),
        None => (0, &[]),
    }
}
