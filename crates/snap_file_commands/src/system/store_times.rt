//! Measures how long a store takes in a folder.
ghost use Rattle.std.specs.Prelude.{◌<◌, ◌-◌, ◌^◌};

use super::files::{FirstFault, open_as};
use snap_disk::Disk;
use snap_segment::{Segment, format};
use snap_slot::FILE_LEN;
use std::fs::{self, File};
use std::io::{self, ErrorKind};
use std::os::unix::fs::MetadataExt;
use std::time::{Duration, Instant};

/// How many values are stored.
pub const STORES: usize = 200;

/// The length of each value in bytes.
pub const STORED_LEN: usize = 1_000;

/// How many names there are for the temporary file, and so how many measurements can run at once.
const NAMES: u8 = 100;

/// Stores [`STORES`] values of [`STORED_LEN`] bytes in a temporary file in the folder, and returns the median and the
/// 99th percentile of the times, or `None` if a call on the file failed: `told` gets why. The file is removed however
/// this ends, or by a later measurement if the process is killed.
pub fn measure(
    rt: &HostRuntime,
    folder: &str,
    told: &FirstFault,
) -> io::Result<Option<(Duration, Duration)>> {
    let own = own_path(rt, folder)?;
    let path = own.as_str();
    let disk = match open_as(rt, path, None, Some(told)) {
        Ok(disk) => disk,
        Err(fault) => {
            let _ = fs::remove_file(rt, path);
            // Advice about the folder wouldn't help: the file was made.
            return Err(io::Error::other(fault.to_string(rt.alloc())?.as_str()));
        }
    };
    let (_locked, taken) = store_all(rt, disk);
    // The lock is held until the name is removed, so that no other process takes the file for a left one.
    fs::remove_file(rt, path)?;
    taken
}

/// The path of a new and empty file in the folder that only this process uses. Fails if all names are taken.
fn own_path(rt: &HostRuntime, folder: &str) -> io::Result<String> {
    for number in 0..NAMES {
        // No segment's file: the name doesn't end in `.seg`.
        let path = format!(in rt.alloc(); "{folder}/doctor-{number}.tmp")?;
        remove_left(rt, path.as_str());
        match File::create_new(rt, path.as_str()) {
            Ok(_) => return Ok(path),
            Err(reason) if reason.kind() == ErrorKind::AlreadyExists => {}
            Err(reason) => return Err(reason),
        }
    }
    let why = "all names from doctor-0.tmp on are taken: remove what is left of them";
    Err(io::Error::other(why))
}

/// Removes the file at this path if its process ended before it could: then it has a segment file's length, which it
/// gets under its lock, and nobody has that lock.
fn remove_left(rt: &HostRuntime, path: &str) {
    let Ok(left) = File::options().read(true).write(true).open(rt, path) else {
        return;
    };
    if left.try_lock().is_err() {
        return;
    }
    // If it still has this name, nobody else removes it while it is locked.
    if let (Ok(found), Ok(named)) = (left.metadata(), fs::metadata(rt, path)) {
        let is_named = found.dev() == named.dev() && found.ino() == named.ino();
        if is_named && found.len() == FILE_LEN {
            let _ = fs::remove_file(rt, path);
        }
    }
}

/// Formats the file, and stores the values in it. Returns the file, which is still locked, with the times.
fn store_all<D: Disk>(
    rt: &HostRuntime,
    mut disk: D,
) -> (D, io::Result<Option<(Duration, Duration)>>)
    requires { D.failure_count disk < 2 ^ 64 - 1 }
{
    if format(&mut disk, 0, 1).is_err() {
        return (disk, Ok(None));
    }
    match Segment::open(rt.alloc(), disk, 0, 1) {
        Ok(mut segment) => {
            let taken = time_stores(rt, &mut segment);
            (segment.into_device(), taken)
        }
        Err((_, disk)) => (disk, Ok(None)),
    }
}

/// Stores the values, and returns the median and the 99th percentile of the times.
fn time_stores<D: Disk>(
    rt: &HostRuntime,
    segment: &mut Segment<D>,
) -> io::Result<Option<(Duration, Duration)>> {
    let mut times = [Duration::ZERO; STORES];
    for taken in &mut times {
        let began = Instant::now(rt)?;
        if segment.store(&[b'v'; STORED_LEN]).is_err() {
            return Ok(None);
        }
        *taken = began.elapsed(rt)?;
    }
    times.sort_unstable();
    Ok(Some((times[STORES / 2], times[STORES * 99 / 100])))
}
