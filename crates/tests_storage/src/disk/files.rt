//! Real files: a success of each call, locks, the folder of a new file, and files that others change.
use crate::checks::{Host, are, prints};
use snap_devices::{CallFault, FileDisk, FileFault, Lock};
use snap_disk::{DeviceFault, Disk};
use snap_slot::FILE_LEN;
use std::alloc::{AllocError, Allocator};
use std::fs::{self, OpenOptions};
use std::os::unix::fs::FileExt;
use std::rt::{Clock, Files};
use std::sync::OnceLock;
use std::test::Fail;
use std::time::Duration;
use std::{env, io, process};

/// A path in the temporary folder for this run alone.
fn temporary(rt: &HostRuntime, name: &str) -> Result<String, Fail> {
    let folder = env::temp_dir(rt)?;
    let process = process::id(rt.process());
    Ok(format!(in rt.alloc(); "{}/snap-disk-{process}-{name}", folder.as_str())?)
}

/// The file, open to be written, after it got this length.
fn cut(rt: &HostRuntime, path: &str, len: u64) -> io::Result<fs::File> {
    let file = OpenOptions::new().write(true).open(rt, path)?;
    file.set_len(len)?;
    Ok(file)
}

/// The file is refused, for this reason.
fn is_refused<R>(
    rt: &impl Host,
    opened: Result<FileDisk<'_, R>, FileFault>,
    why: &str,
) -> Result<(), AllocError> {
    let Err(fault) = opened else {
        panic!(rt; "opened")
    };
    prints(rt, &fault, why)
}

/// The three bytes from there on.
fn gives(rt: &impl Host, disk: &mut FileDisk<'_, HostRuntime>, at: u64, want: [u8; 3]) {
    let mut buf = [1; 3];
    assert!(rt; disk.read_at(at, &mut buf).is_ok());
    are(rt, &buf, &want);
}

#[test]
fn a_real_file(rt: HostRuntime) -> Result<(), Fail> {
    let path = temporary(&rt, "real")?;
    let text = path.as_str();
    let missing = FileDisk::open(&rt, text, Lock::Shared).is_err();
    assert!(rt; missing, "it isn't there");
    let mut disk = FileDisk::create(&rt, text)?;
    disk.write_at(4095, &[0xA5])?;
    disk.write_at(FILE_LEN - 2, b"hi")?;
    assert!(rt; disk.len() == FILE_LEN && disk.failures() == 0);
    disk.sync()?;
    drop(disk);

    // It is opened as it is.
    let mut disk = FileDisk::create(&rt, text)?;
    gives(&rt, &mut disk, FILE_LEN - 3, [0, b'h', b'i']);
    gives(&rt, &mut disk, 4094, [0, 0xA5, 0]);
    // It ends within the range of a read.
    cut(&rt, text, FILE_LEN - 1)?;
    let mut buf = [1; 3];
    assert!(rt; disk.read_at(FILE_LEN - 3, &mut buf) == Err(DeviceFault));
    assert!(rt; disk.len() == FILE_LEN && disk.failures() == 1);
    drop(disk);
    // Another length is no segment file's, and is not changed.
    let why = "it has 28671 bytes, and a segment file has 28672";
    is_refused(&rt, FileDisk::create(&rt, text), why)?;
    let len = FileDisk::open(&rt, text, Lock::Exclusive)?.len();
    assert!(rt; len == FILE_LEN - 1);
    fs::remove_file(&rt, text)?;
    Ok(())
}

const IN_USE: &str = "it is in use by another snapd";

/// No writer gets the file.
fn keeps_writers_out(rt: &impl Host, host: &HostRuntime, path: &str) -> Result<(), AllocError> {
    is_refused(rt, FileDisk::create(host, path), IN_USE)?;
    is_refused(rt, FileDisk::open(host, path, Lock::Exclusive), IN_USE)
}

#[test]
fn one_writer_or_readers(rt: HostRuntime) -> Result<(), Fail> {
    let path = temporary(&rt, "locked")?;
    let text = path.as_str();
    let writer = FileDisk::create(&rt, text)?;
    keeps_writers_out(&rt, &rt, text)?;
    is_refused(&rt, FileDisk::open(&rt, text, Lock::Shared), IN_USE)?;
    // The lock ends with the device. Readers keep out writers alone.
    drop(writer);
    let one = FileDisk::open(&rt, text, Lock::Shared)?;
    let other = FileDisk::open(&rt, text, Lock::Shared)?;
    keeps_writers_out(&rt, &rt, text)?;
    drop(one);
    drop(other);
    // The length of a file in use is not read.
    let reader = cut(&rt, text, 1)?;
    reader.lock_shared()?;
    is_refused(&rt, FileDisk::create(&rt, text), IN_USE)?;
    fs::remove_file(&rt, text)?;
    Ok(())
}

/// A system with one file, which is at every path but its folder's. The folder can't be opened.
#[derive(Drop)]
struct FolderFault<'a> {
    host: &'a HostRuntime,
    file: &'a str,
    folder: &'a str,
    error: i32,
}

impl Files for FolderFault<'_> {
    type File = fs::File;

    type Dir = <HostRuntime as Files>::Dir;

    fn open_file(&self, how: &OpenOptions, path: &str) -> io::Result<fs::File> {
        if path == self.folder {
            return Err(io::Error::from_raw_os_error(self.error));
        }
        self.host.open_file(how, self.file)
    }

    fn open_dir(&self, path: &str) -> io::Result<Self::Dir> {
        self.host.open_dir(path)
    }

    fn metadata(&self, path: &str) -> io::Result<fs::Metadata> {
        Files::metadata(self.host, path)
    }

    fn symlink_metadata(&self, path: &str) -> io::Result<fs::Metadata> {
        Files::symlink_metadata(self.host, path)
    }

    fn copy(&self, from: &str, to: &str) -> io::Result<u64> {
        self.host.copy(from, to)
    }

    fn rename(&self, from: &str, to: &str) -> io::Result<()> {
        self.host.rename(from, to)
    }

    fn remove_file(&self, path: &str) -> io::Result<()> {
        self.host.remove_file(path)
    }

    fn create_dir(&self, path: &str) -> io::Result<()> {
        self.host.create_dir(path)
    }

    fn remove_dir(&self, path: &str) -> io::Result<()> {
        self.host.remove_dir(path)
    }

    fn remove_dir_all<B: Allocator>(&self, alloc: B, path: &str) -> io::Result<()> {
        self.host.remove_dir_all(alloc, path)
    }
}

impl Clock for FolderFault<'_> {
    fn monotonic(&self) -> io::Result<Duration> {
        self.host.monotonic()
    }

    fn since_1970(&self) -> io::Result<Duration> {
        self.host.since_1970()
    }
}

/// Each path with its folder.
const FOLDERS: [(&str, &str); 4] = [
    ("F", "."),
    ("a/F", "a"),
    ("/F", "/"),
    ("../a/b/F", "../a/b"),
];

/// The file can't be made at this path if its folder fails, and stays without a byte.
fn is_not_made(
    rt: &impl Host,
    host: &HostRuntime,
    file: &str,
    path: &str,
    folder: &str,
) -> Result<(), Fail> {
    let failing = FolderFault {
        host,
        file,
        folder,
        error: 5,
    };
    let answer = FileDisk::create(&failing, path);
    is_refused(rt, answer, "Input/output error (os error 5)")?;
    let len = FileDisk::open(host, file, Lock::Shared)?.len();
    assert!(rt; len == 0);
    Ok(())
}

/// The file is made, or opened as it is, though its folder fails so.
fn is_made(rt: &impl Host, host: &HostRuntime, file: &str, error: i32) -> Result<(), Fail> {
    let folder = "a";
    let failing = FolderFault {
        host,
        file,
        folder,
        error,
    };
    let len = FileDisk::create(&failing, "a/F")?.len();
    assert!(rt; len == FILE_LEN, "at error {error}");
    Ok(())
}

#[test]
fn the_folder_of_a_new_file(rt: HostRuntime) -> Result<(), Fail> {
    let path = temporary(&rt, "folder")?;
    let file = path.as_str();
    for (path, folder) in &FOLDERS {
        // The file stays without a byte, so the next try syncs the folder again.
        is_not_made(&rt, &rt, file, path, folder)?;
        is_not_made(&rt, &rt, file, path, folder)?;
    }
    // A file that has its length was synced before.
    FileDisk::create(&rt, file)?;
    is_made(&rt, &rt, file, 5)?;
    // A folder that the system can't sync is no fault: no permission, invalid, not supported.
    for error in [1, 13, 22, 38, 95] {
        fs::remove_file(&rt, file)?;
        is_made(&rt, &rt, file, error)?;
    }
    fs::remove_file(&rt, file)?;
    Ok(())
}

/// It can't be synced.
fn is_unsynced(rt: &impl Host, disk: &mut FileDisk<'_, HostRuntime>) {
    let failures = disk.failures();
    assert!(rt; disk.sync() == Err(DeviceFault) && disk.failures() == failures + 1);
}

/// Why the first call that failed did.
fn says(rt: &impl Host, fault: &OnceLock<CallFault>, why: &str) -> Result<(), AllocError> {
    match fault.get() {
        Some(fault) => prints(rt, fault, why),
        None => panic!(rt; "no call has failed"),
    }
}

const MOVED: &str = "sync: its path doesn't name it any more: it was moved, removed or replaced";

#[test]
fn a_file_that_is_moved(rt: HostRuntime) -> Result<(), Fail> {
    let (path, away) = (temporary(&rt, "named")?, temporary(&rt, "away")?);
    let fault = OnceLock::new();
    let mut disk = FileDisk::create(&rt, path.as_str())?.telling(&fault);
    // Every other sync checks the name: the first, and so the third.
    disk.sync()?;
    disk.sync()?;
    assert!(rt; fault.get().is_none());
    rt.rename(path.as_str(), away.as_str())?;
    is_unsynced(&rt, &mut disk);
    says(&rt, &fault, MOVED)?;
    // Another one in its place is no better.
    OpenOptions::new()
        .write(true)
        .create(true)
        .open(&rt, path.as_str())?;
    is_unsynced(&rt, &mut disk);
    rt.rename(away.as_str(), path.as_str())?;
    // It is back.
    disk.sync()?;
    disk.sync()?;
    fs::remove_file(&rt, path.as_str())?;
    is_unsynced(&rt, &mut disk);
    Ok(())
}

/// It can't be written, and isn't.
fn is_unwritten(rt: &impl Host, disk: &mut FileDisk<'_, HostRuntime>) {
    let failures = disk.failures();
    assert!(rt; disk.write_at(7, b"w") == Err(DeviceFault) && disk.failures() == failures + 1);
    gives(rt, disk, 6, [0, 0, 0]);
}

const OVERWRITTEN: &str =
    "write: another program wrote it or cut it, and it is left so: never copy onto a file in use: snapd load makes a \
        new folder of a dump";

/// The places of two gates.
const GATE: u64 = 20_480;

const OTHER_GATE: u64 = 4_096;

#[test]
fn a_file_that_is_overwritten(rt: HostRuntime) -> Result<(), Fail> {
    let path = temporary(&rt, "overwritten")?;
    let fault = OnceLock::new();
    let mut disk = FileDisk::create(&rt, path.as_str())?.telling(&fault);
    // Of a file that wasn't read whole nothing is known.
    let file = OpenOptions::new().write(true).open(&rt, path.as_str())?;
    file.write_all_at(b"n", GATE)?;
    disk.write_at(0, b"a")?;
    disk.read_at(0, &mut [0; FILE_LEN as usize])?;
    // A write is refused while a gate is another one, and while there is one more byte.
    file.write_all_at(b"o", GATE)?;
    is_unwritten(&rt, &mut disk);
    file.write_all_at(b"n", GATE)?;
    file.set_len(FILE_LEN + 1)?;
    is_unwritten(&rt, &mut disk);
    file.set_len(FILE_LEN)?;
    says(&rt, &fault, OVERWRITTEN)?;
    // It is back. The next comparison comes after two syncs.
    disk.write_at(OTHER_GATE, b"b")?;
    disk.sync()?;
    file.write_all_at(b"o", GATE)?;
    disk.write_at(OTHER_GATE, b"c")?;
    disk.sync()?;
    is_unwritten(&rt, &mut disk);
    file.write_all_at(b"n", GATE)?;
    disk.write_at(OTHER_GATE, b"d")?;
    disk.sync()?;
    // After a write of anything else than a gate or a body nothing is known.
    disk.write_at(1, b"e")?;
    disk.sync()?;
    file.write_all_at(b"o", GATE)?;
    disk.write_at(2, b"f")?;
    fs::remove_file(&rt, path.as_str())?;
    Ok(())
}

/// Faults after the first one may be its consequences.
#[test]
fn the_first_fault_is_told(rt: HostRuntime) -> Result<(), Fail> {
    let path = temporary(&rt, "first-fault")?;
    let fault = OnceLock::new();
    let mut disk = FileDisk::create(&rt, path.as_str())?.telling(&fault);
    cut(&rt, path.as_str(), 0)?;
    let mut buf = [0; 1];
    assert!(rt; disk.read_at(0, &mut buf) == Err(DeviceFault));
    says(&rt, &fault, CUT)?;
    fs::remove_file(&rt, path.as_str())?;
    is_unsynced(&rt, &mut disk);
    says(&rt, &fault, CUT)?;
    Ok(())
}

const CUT: &str = "read: failed to fill whole buffer";

#[test]
fn a_file_with_two_names(rt: HostRuntime) -> Result<(), Fail> {
    let (path, other) = (temporary(&rt, "first")?, temporary(&rt, "second")?);
    let disk = FileDisk::create(&rt, path.as_str())?;
    rt.hard_link(path.as_str(), other.as_str())?;
    let Err(FileFault::InUse(id)) = FileDisk::create(&rt, other.as_str()) else {
        panic!(rt; "opened twice")
    };
    assert!(rt; id == disk.id());
    fs::remove_file(&rt, path.as_str())?;
    fs::remove_file(&rt, other.as_str())?;
    Ok(())
}

#[test]
fn a_reader_only_reads(rt: HostRuntime) -> Result<(), Fail> {
    let path = temporary(&rt, "read")?;
    FileDisk::create(&rt, path.as_str())?;
    let fault = OnceLock::new();
    let mut disk = FileDisk::open(&rt, path.as_str(), Lock::Shared)?.telling(&fault);
    disk.sync()?;
    assert!(rt; disk.write_at(0, b"x") == Err(DeviceFault));
    says(&rt, &fault, "write: Bad file descriptor (os error 9)")?;
    fs::remove_file(&rt, path.as_str())?;
    Ok(())
}

#[test]
fn faults_of_the_system(rt: HostRuntime) -> Result<(), Fail> {
    let missing = FileDisk::create(&rt, "/nowhere/file");
    is_refused(&rt, missing, "No such file or directory (os error 2)")?;
    let folder = FileDisk::open(&rt, "/", Lock::Shared).is_err();
    assert!(rt; folder, "a folder");
    // This device can't be synced.
    let mut null = FileDisk::open(&rt, "/dev/null", Lock::Shared)?;
    assert!(rt; null.sync() == Err(DeviceFault));
    assert!(rt; null.len() == 0 && null.failures() == 1);
    prints(&rt, &DeviceFault, "the device failed")?;
    Ok(())
}
