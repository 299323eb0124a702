//! A file of the operating system as a device.
ghost use Rattle.std.specs.Prelude.{◌≡◌, ◌≢◌, ℕ, List, length, IfOk, IfErr};
ghost use Rattle.snap_devices.specs.CallLog.{IsHonestLog, LeftSince, counts_now, only_now};
ghost use Rattle.snap_devices.specs.{FileDisk.IsUncalled, FileDisk.file_device, FileDisk.file_path, FileDisk.story_of};
ghost use Rattle.snap_devices.specs.Story.{Story, untold};

use crate::GhostLog;
use crate::contents::Contents;
use crate::opened_path::{FileId, OpenedPath, folder_of, id_of};
use snap_disk::{DeviceFault, Disk};
use snap_slot::FILE_LEN;
use std::fs::{self, OpenOptions, TryLockError};
use std::io::{self, ErrorKind};
use std::marker::PhantomData;
use std::os::unix::fs::FileExt;
use std::rt::{Clock, Files};
use std::sync::OnceLock;
use std::thread;
use std::time::Duration;
use thiserror::Error;

/// How many times a lock that another process has is tried again, and the pause before each try: a second in all. On a
/// network's file system a lock outlives its process for some milliseconds.
const LOCK_RESTS: u32 = 50;

const LOCK_REST_MILLIS: u64 = 20;

/// How a device shares its file with other processes that take a lock too, and whether it may write it.
#[derive(Clone, Copy, PartialEq, Eq)]
pub enum Lock {
    /// No other process has a lock: for a command that writes the file.
    Exclusive,
    /// No other process has an exclusive lock: for a command that only reads the file, and may only read it.
    Shared,
}

/// Why a file could not be taken as a device. Nothing of it was changed, save that
/// [`FileOf::create`] may have made it, without a byte.
#[derive(Debug, Drop, Error)]
pub enum FileFault {
    /// The system's own reason.
    #[error("{0}")]
    System(io::Error),
    /// Another process has a lock on this file that keeps this one out, and kept it for a second.
    #[error("it is in use by another snapd")]
    InUse(FileId),
    /// Its length is neither 0 nor that of a segment file.
    #[error("it has {len} bytes, and a segment file has {want}", want = FILE_LEN)]
    WrongFile { len: u64 },
}

impl From<io::Error> for FileFault {
    ghost use Rattle.snap_devices.specs.declared.file.FileFault.TheVariants.{System};

    ghost from_gives = { λ reason fault. fault ≡ System reason };

    fn from(reason: io::Error) -> FileFault {
        FileFault::System(reason)
    }
}

/// Why a call of an open file failed, and which.
#[derive(Debug, Drop, Error)]
pub enum CallFault {
    /// The system's own reason, and the call: `read`, `write` or `sync`.
    #[error("{call}: {reason}")]
    System {
        call: &'static str,
        reason: io::Error,
    },
    /// The path that it was opened by names another file now, or none: a write would be lost with the old
    /// file. Only a sync returns this.
    #[error("sync: its path doesn't name it any more: it was moved, removed or replaced")]
    Moved,
    /// The file's length, its header or its newest slot isn't what this device left in it: another program wrote or
    /// truncated the file in spite of the lock. The file is left as it is. Only a write returns this.
    #[error("write: another program wrote it or cut it, and it is left so: never copy onto a file in use: snapd load \
        makes a new folder of a dump")]
    Overwritten,
}

/// One call of a device, with its answer. Its bytes exist in proofs alone.
#[derive(Drop)]
pub enum Call {
    /// A read that gave these bytes.
    Gave { at: u64, bytes: GhostLog<u8> },
    /// A read that failed.
    ReadFailed,
    /// A write of these bytes that succeeded.
    Wrote { at: u64, bytes: GhostLog<u8> },
    /// A write of `count` bytes that failed.
    WriteFailed { at: u64, count: u64 },
    /// A sync that succeeded.
    Synced,
    /// A sync that failed.
    SyncFailed,
}

/// For each file, by the path that it was opened by: its bytes when it was opened and after each call, and which of its
/// places were open at first. A proof about a file holds for all stories, so for the true one.
pub trait Stories {
    ghost story: { List ℕ → Story };
}

/// The stories of the files that a program opens. No proof can know them.
#[derive(Clone, Copy)]
pub struct Untold;

impl Stories for Untold {
    ghost story = { untold };
}

/// An open and locked file, with its length when it was opened.
///
/// The lock is the system's own, on the whole file (`flock`). It excludes only programs that lock the file
/// too, and ends with the device, or with the process, however that ends.
///
/// Each method makes the system's call that it is named for, and then notes it. A sync also checks
/// whether the path still names the file, unless the sync before it did, and fails if it doesn't: so each
/// store checks it, which syncs twice. Once the whole file was read, the first write compares its length,
/// its header and the gate, number and length of each slot with what was read. After every second sync the
/// next write compares the length, the header, the slot whose gate was opened last and the gate of the next
/// one: so each store does, before it writes anything. If they differ, the write fails and isn't made.
///
/// It is honest if every noted call did what the model of [`Disk`] says, also after a sync that failed, and nobody else
/// writes the file. No contract says which places are open at first: they are those that were written and not synced
/// before, by a process that ended or before a crash. A sync that succeeds closes them. So proofs hold whichever places
/// are open, except where a premise says that no more are open than a crash left.
///
/// The reason why a call failed is dropped, unless [`FileOf::telling`] names a place for it.
#[derive(Drop)]
pub struct FileOf<'p, R, S: Stories> {
    rt: &'p R,
    file: fs::File,
    opened_path: OpenedPath<'p>,
    contents: Contents,
    len: u64,
    failures: u64,
    /// Gets why the first call that fails did.
    told: Option<&'p OnceLock<CallFault>>,
    /// The newest first.
    calls: GhostLog<Call>,
    of: PhantomData<S>,
}

/// A file of the system, of whose story nothing is known.
pub type FileDisk<'p, R> = FileOf<'p, R, Untold>;

impl<'p, R: Files<File = fs::File> + Clock, S: Stories> FileOf<'p, R, S> {
    /// The file at this path, of any length, which is not changed. A lock that keeps this one out
    /// for a second is `InUse`, and any other fault is the system's own, on a file system without
    /// locks too: without its lock a file isn't safe to use.
    ///
    /// With a shared lock a file is opened for reading alone. So it may be on a read-only file system, or belong to a
    /// user who lets others only read it: the system locks and syncs such a file as any other, and a write of it fails.
    /// Anything that isn't a file is opened for writing too: a folder refuses that, and a pipe would block a reader
    /// until a writer comes.
    ///
    /// The lock comes before the length, which the holder of an exclusive one may yet change.
    pub fn open(rt: &'p R, path: &'p str, lock: Lock) -> Result<FileOf<'p, R, S>, FileFault>
        ensures uncalled { IfOk result IsUncalled }
        ensures path { IfOk result (λ disk. file_path disk ≡ path.now) }
        ensures any_length { IfErr result (λ fault. (len : ℕ) → fault ≢ FileFault.WrongFile len) }
    {
        let writes = lock == Lock::Exclusive || !fs::metadata(rt, path)?.is_file();
        let file = OpenOptions::new().read(true).write(writes).open(rt, path)?;
        take_lock(rt, &file, lock)?;
        let found = file.metadata()?;
        Ok(FileOf::of(rt, path, file, id_of(&found), found.len()))
    }

    /// The file at this path, for a new segment, with an exclusive lock: one that isn't there or has no byte gets
    /// [`FILE_LEN`] zero bytes, and one of that length is taken as it is. Any other length is `WrongFile`, and the file
    /// is not changed. The other faults are those of [`FileOf::open`].
    ///
    /// A new file's name lasts: the folder is synced before the file gets its bytes. If that fails, or the process is
    /// stopped before it, the file stays without a byte, and the next `create` syncs the folder again. Of two processes
    /// that make the file at once one gets the lock and does this, and the other is refused. If the file is reached
    /// through a symbolic link, the link's folder is synced.
    pub fn create(rt: &'p R, path: &'p str) -> Result<FileOf<'p, R, S>, FileFault>
        ensures uncalled { IfOk result IsUncalled }
        ensures path { IfOk result (λ disk. file_path disk ≡ path.now) }
        ensures size { IfOk result (λ disk. length (file_device S.story disk).bytes ≡ FILE_LEN) }
        ensures wrong_file { IfErr result (λ fault. (len : ℕ) → fault ≡ FileFault.WrongFile len
            → (len ≢ 0) × (len ≢ FILE_LEN)) }
    {
        let file = OpenOptions::new()
            .read(true)
            .write(true)
            .create(true)
            .open(rt, path)?;
        take_lock(rt, &file, Lock::Exclusive)?;
        let found = file.metadata()?;
        let len = found.len();
        if len == 0 {
            sync_folder_of(rt, path)?;
            file.set_len(FILE_LEN)?;
        } else if len != FILE_LEN {
            return Err(FileFault::WrongFile { len });
        }
        Ok(FileOf::of(rt, path, file, id_of(&found), FILE_LEN))
    }

    /// The system's identity of the file.
    pub fn id(&self) -> FileId {
        self.opened_path.id
    }

    /// Has this device put into `to` why a call of it failed: the first failed call, since later ones may be its
    /// consequence. If `to` has a fault already, it keeps that.
    pub fn telling(mut self, to: &'p OnceLock<CallFault>) -> FileOf<'p, R, S>
        ensures uncalled { IsUncalled self.entry → IsUncalled result }
        ensures path { file_path result ≡ file_path self.entry }
        ensures size { length (file_device S.story result).bytes ≡ length (file_device S.story self.entry).bytes }
    {
        self.told = Some(to);
        self
    }

    /// A device on which no call was made.
    #[tactic(auto, using(crate::proofs::Logged::length_fit))]
    fn of(rt: &'p R, path: &'p str, file: fs::File, id: FileId, len: u64) -> FileOf<'p, R, S>
        ensures uncalled { IsUncalled result }
        ensures path { file_path result ≡ path.now }
        ensures size { length (file_device S.story result).bytes ≡ len }
    {
        FileOf {
            rt,
            file,
            opened_path: OpenedPath::new(path, id),
            contents: Contents::default(),
            len,
            failures: 0,
            told: None,
            calls: GhostLog::new(),
            of: PhantomData,
        }
    }
}

/// Puts the reason of a failed call into `told`, if there is such a place and it is empty.
fn tell(told: Option<&OnceLock<CallFault>>, fault: CallFault) {
    if let Some(told) = told {
        let _ = told.try_set(fault);
    }
}

/// Takes this lock of the file, for which it waits a second at most.
fn take_lock<R: Clock>(rt: &R, file: &fs::File, lock: Lock) -> Result<(), FileFault>
    ensures { IfErr result (λ fault. (len : ℕ) → fault ≢ FileFault.WrongFile len) }
{
    for rests in 0..=LOCK_RESTS {
        if rests > 0 {
            thread::sleep(rt, Duration::from_millis(LOCK_REST_MILLIS));
        }
        let taken = match lock {
            Lock::Exclusive => file.try_lock(),
            Lock::Shared => file.try_lock_shared(),
        };
        match taken {
            Ok(()) => return Ok(()),
            Err(TryLockError::WouldBlock) => {}
            Err(TryLockError::Error(reason)) => return Err(FileFault::System(reason)),
        }
    }
    Err(FileFault::InUse(id_of(&file.metadata()?)))
}

/// Syncs the folder of this path, so that its names last, if the system allows that: a folder that may be written but
/// not read can't be opened, and some file systems sync no folder.
pub fn sync_folder_of<R: Files<File = fs::File>>(rt: &R, path: &str) -> io::Result<()> {
    let Err(reason) = fs::File::open(rt, folder_of(path)).and_then(|folder| folder.sync_all())
    else {
        return Ok(());
    };
    match reason.kind() {
        ErrorKind::PermissionDenied
        | ErrorKind::InvalidInput
        | ErrorKind::Unsupported
        | ErrorKind::ReadOnlyFilesystem => Ok(()),
        _ => Err(reason),
    }
}

#[tactic(auto, using(crate::proofs::Logged::noted))]
impl<R: Files<File = fs::File> + Clock, S: Stories> Disk for FileOf<'_, R, S> {
    ghost device = { file_device S.story };

    ghost failure_count = { λ f. f.failures };

    ghost is_honest = { λ f. IsHonestLog f.len (story_of S.story f) f.calls.items };

    ghost clock = { λ f. length f.calls.items };

    ghost might_have_left = { λ f t b. LeftSince f.len (story_of S.story f) f.calls.items t b };

    ghost counts_now = { λ f t b h le now. counts_now f.len (story_of S.story f) f.calls.items t b le now };

    ghost only_now = { λ f b h left. only_now f.len (story_of S.story f) f.calls.items b left };

    fn len(&self) -> u64 {
        self.len
    }

    fn failures(&self) -> u64 {
        self.failures
    }

    fn read_at(&mut self, at: u64, buf: &mut [u8]) -> Result<(), DeviceFault> {
        if let Err(reason) = self.file.read_exact_at(buf, at) {
            self.calls = self.calls.and(&[Call::ReadFailed]);
            let call = "read";
            tell(self.told, CallFault::System { call, reason });
            self.failures += 1;
            return Err(DeviceFault);
        }
        self.contents.note_read(at, buf);
        let bytes = GhostLog::new().and(buf);
        self.calls = self.calls.and(&[Call::Gave { at, bytes }]);
        Ok(())
    }

    fn write_at(&mut self, at: u64, bytes: &[u8]) -> Result<(), DeviceFault> {
        if let Err(fault) = self.contents.write(&mut self.file, at, bytes) {
            let count = bytes.len() as u64;
            self.calls = self.calls.and(&[Call::WriteFailed { at, count }]);
            tell(self.told, fault);
            self.failures += 1;
            return Err(DeviceFault);
        }
        let bytes = GhostLog::new().and(bytes);
        self.calls = self.calls.and(&[Call::Wrote { at, bytes }]);
        Ok(())
    }

    fn sync(&mut self) -> Result<(), DeviceFault> {
        let held = self.opened_path.sync(self.rt, &self.file);
        self.contents.note_sync(matches!(held, Ok(true)));
        let fault = match held {
            Ok(true) => {
                self.calls = self.calls.and(&[Call::Synced]);
                return Ok(());
            }
            Ok(false) => CallFault::Moved,
            Err(reason) => CallFault::System {
                call: "sync",
                reason,
            },
        };
        self.calls = self.calls.and(&[Call::SyncFailed]);
        tell(self.told, fault);
        self.failures += 1;
        Err(DeviceFault)
    }
}
