//! Whether a path still names an open file.
//!
//! A read of the file's own times costs its next write: from version 6.13 on, Linux gives a write that follows such a
//! read a finer time than the clock's last tick, so its inode changes and has to be stored with it. So the folder's
//! times are read, which change whenever a name in it is made, removed or moved. The file itself is checked only if
//! they can't decide, and once a second.

ghost use Rattle.std.specs.Prelude.{◌≡◌};

use std::fs;
use std::io::{self, ErrorKind};
use std::os::unix::fs::MetadataExt;
use std::path::Path;
use std::rt::{Clock, Files};
use std::time::Instant;

/// How long a check of the name is valid while its folder is unchanged, in seconds. If a file system doesn't report a
/// change of the folder, or another folder was mounted over it, a moved file is found this much later.
const CHECK_COUNTS: u64 = 1;

/// How long a folder has to have had its time before each later change gives it another one, in
/// seconds. Some file systems count in steps of two.
const STEP: u64 = 3;

/// Which file of the system it is, whatever names it has: the number of the device that it is on,
/// and its own number there.
pub type FileId = (u64, u64);

pub(crate) fn id_of(found: &fs::Metadata) -> FileId {
    (found.dev(), found.ino())
}

/// The path of the folder that this path's file is in.
pub(crate) fn folder_of(path: &str) -> &str {
    match Path::new(path).parent() {
        Some(folder) if !folder.as_str().is_empty() => folder.as_str(),
        _ => ".",
    }
}

/// A folder, read at this time.
#[derive(Clone, Copy)]
struct FolderReading {
    /// Its identity, and the second and nanosecond when its names changed last.
    state: (FileId, i64, i64),
    at: Instant,
    /// When it was first seen in this state.
    since: Instant,
}

/// The path by which a file was opened.
#[derive(Drop)]
pub struct OpenedPath<'p> {
    path: &'p str,
    folder: &'p str,
    /// The file that was opened by it.
    pub id: FileId,
    /// The folder at the last check that found the file under its own name, and not under that of a link to it.
    last: Option<FolderReading>,
    /// Whether the name was checked after the last sync, and still named the file.
    is_fresh: bool,
}

impl<'p> OpenedPath<'p> {
    /// The path of a file that was just opened.
    pub fn new(path: &'p str, id: FileId) -> OpenedPath<'p>
        ensures { result.path.now ≡ path.now }
    {
        OpenedPath {
            path,
            folder: folder_of(path),
            id,
            last: None,
            is_fresh: false,
        }
    }

    /// Syncs that file, and returns whether the path still names it. Of two syncs in a row at least one checks that,
    /// so each store does, which syncs twice. An error is the system's own.
    pub fn sync<R: Files<File = fs::File> + Clock>(
        &mut self,
        rt: &R,
        file: &fs::File,
    ) -> io::Result<bool>
        ensures path { self.new.path ≡ self.old.path }
    {
        file.sync_data()?;
        if self.is_fresh {
            self.is_fresh = false;
            return Ok(true);
        }
        self.is_fresh = self.holds(rt)?;
        Ok(self.is_fresh)
    }

    /// Whether it names that file now.
    fn holds<R: Files<File = fs::File> + Clock>(&mut self, rt: &R) -> io::Result<bool>
        ensures path { self.new.path ≡ self.old.path }
    {
        // Before the file, so that a change between the two isn't taken for one before them.
        let mut reading = match (fs::metadata(rt, self.folder), Instant::now(rt)) {
            (Ok(found), Ok(at)) => Some(FolderReading {
                state: (id_of(&found), found.ctime(), found.ctime_nsec()),
                at,
                since: at,
            }),
            _ => None,
        };
        if let (Some(last), Some(now)) = (self.last.take(), &mut reading) {
            if last.state == now.state {
                now.since = last.since;
                let known = last.at.duration_since(last.since).as_secs();
                if known >= STEP && now.at.duration_since(last.at).as_secs() < CHECK_COUNTS {
                    self.last = Some(last);
                    return Ok(true);
                }
            }
        }
        if let Ok(own) = fs::symlink_metadata(rt, self.path) {
            if id_of(&own) == self.id {
                self.last = reading;
                return Ok(true);
            }
        }
        match fs::metadata(rt, self.path) {
            Ok(named) => Ok(id_of(&named) == self.id),
            Err(reason) if reason.kind() == ErrorKind::NotFound => Ok(false),
            Err(reason) => Err(reason),
        }
    }
}
