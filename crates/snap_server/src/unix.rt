//! A listener on a Unix socket, and the socket's file.
ghost use Rattle.std.specs.Prelude.{◌≤◌};

use crate::listen::{AcceptFault, Accepted, Peer, why_not};
use crate::stream::Stream;
use libc::net;
use mio::net::UnixStream;
use std::alloc::Global;
use std::fs::{self, File, Metadata, OpenOptions, Permissions, TryLockError};
use std::io::{self, ErrorKind};
use std::net::Net;
use std::os::fd::{AsFd, AsRawFd, OwnedFd};
use std::os::unix::fs::{FileTypeExt, MetadataExt, PermissionsExt};
use std::os::unix::net::{SocketAddr, UnixListener};
use std::rt::{Clock, Files};
use std::thread;
use std::time::Duration;
use thiserror::Error;

/// The longest path of a Unix socket, in bytes.
const MAX_SOCKET_PATH: usize = 107;

/// How often a lock on the folder is tried again while another process holds it, and the pause
/// before each try: a second in all.
const LOCK_RESTS: u32 = 50;

const LOCK_REST_MILLIS: u64 = 20;

/// The length of the listener's queue: -1 is the longest that the system allows.
const BACKLOG: i32 = -1;

/// An upper bound of that length.
const MAX_QUEUE: u32 = 1 << 20;

/// Why no socket was bound at an address. The files there are unchanged, except that the file of a
/// socket without a process may have been removed.
#[derive(Debug, Drop, Error)]
pub enum BindFault {
    /// The system refused it, for this reason.
    #[error("{0}")]
    System(io::Error),
    /// Another process has a socket at this path.
    #[error("another process listens there")]
    Taken,
    /// This user may not connect to the socket at this path, or not remove it, so it isn't known
    /// whether a process has it.
    #[error("a socket of another user is there")]
    Foreign,
    /// The file at the path is no socket.
    #[error("it is there, and no socket")]
    NoSocket,
    /// Another process held a lock on the path's folder for a second.
    #[error("another process has locked its folder")]
    Locked,
    /// The process's umask removed bits of the mode, and they can't be restored safely, since other
    /// users may put a link in the file's place.
    #[error("this process's umask takes bits of its mode, and others may change its folder")]
    Masked,
    /// Memory ran out.
    #[error("out of memory")]
    NoMemory,
}

impl From<io::Error> for BindFault {
    ghost use Rattle.std.specs.Prelude.{◌≡◌};
    ghost use Rattle.snap_server.specs.declared.unix.BindFault.TheVariants.{System};

    ghost from_gives = { λ reason fault. fault ≡ System reason };

    fn from(reason: io::Error) -> BindFault {
        BindFault::System(reason)
    }
}

/// A listening socket at a path. Dropping it removes its file, if the path still names that file.
pub struct UnixSocket<'a, R: Files<File = File> + Clock> {
    rt: &'a R,
    /// The path, as it was given.
    pub(crate) path: String,
    pub(crate) listener: UnixListener,
    /// The socket's file: its device and its inode.
    device: u64,
    inode: u64,
}

impl<'a, R: Files<File = File> + Clock> UnixSocket<'a, R> {
    /// Listens at `path`, with a socket file of this mode: exactly those who may write the file may
    /// connect, at any time. The file of a socket without a process is replaced.
    ///
    /// The path's folder is locked meanwhile. So if two servers find such a file, one replaces it,
    /// and the other then finds it [`Taken`](BindFault::Taken).
    pub fn bind(
        rt: &'a R,
        alloc: Global,
        path: &str,
        mode: u32,
    ) -> Result<UnixSocket<'a, R>, BindFault>
    where
        R: Net,
    {
        let address = SocketAddr::from_pathname(path)?;
        let folder = lock_folder(rt, path)?;
        make_way(rt, path)?;
        let own_path = String::from_str(alloc, path).map_err(|_| BindFault::NoMemory)?;
        let socket = bind_file(rt, &address, mode)?;
        let found = fs::symlink_metadata(rt, path)?;
        let bound = UnixSocket {
            rt,
            path: own_path,
            listener: UnixListener::from(socket),
            device: found.dev(),
            inode: found.ino(),
        };
        if found.mode() & MODE_BITS != mode {
            give_back(rt, &folder, path, mode)?;
        }
        if net::listen(bound.listener.as_raw_fd(), BACKLOG) != 0 {
            return Err(BindFault::System(last_error()));
        }
        drop(folder);
        Ok(bound)
    }

    /// Accepts the next connection; `None` if the listener doesn't block and no connection waits.
    pub(crate) fn take(&self) -> Result<Option<Accepted>, AcceptFault> {
        let (stream, _) = match self.listener.accept() {
            Ok(accepted) => accepted,
            Err(error) if error.kind() == ErrorKind::WouldBlock => return Ok(None),
            Err(error) => return Err(why_not(&error)),
        };
        if stream.set_nonblocking(true).is_err() {
            return Err(AcceptFault::Gone);
        }
        let stream = Stream::Unix(UnixStream::from_std(stream));
        let peer = Peer::Unix;
        Ok(Some(Accepted { stream, peer }))
    }

    /// Closes the listener to further connections, and removes its file.
    pub(crate) fn close(&self) {
        net::shutdown(self.listener.as_raw_fd(), net::SHUT_RDWR);
        self.remove();
        self.refuse_waiting();
    }

    /// Closes the connections that wait in its queue, as the system itself does at a TCP port.
    fn refuse_waiting(&self) {
        if self.listener.set_nonblocking(true).is_err() {
            return;
        }
        for _ in 0..MAX_QUEUE {
            if !matches!(self.take(), Ok(Some(_))) {
                return;
            }
        }
    }

    /// Removes its file, if its path still names that file.
    ///
    /// While its descriptor is open, no other server takes the file for one without a process, and
    /// no other file gets its inode number.
    fn remove(&self) {
        if let Ok(found) = fs::symlink_metadata(self.rt, &self.path) {
            if found.dev() == self.device && found.ino() == self.inode {
                let _ = fs::remove_file(self.rt, &self.path);
            }
        }
    }
}

impl<R: Files<File = File> + Clock> Drop for UnixSocket<'_, R> {
    fn drop(self) {
        self.remove();
        let UnixSocket {
            rt: _,
            path: _,
            listener: _,
            device: _,
            inode: _,
        } = self;
    }
}

/// The folder of a path.
fn folder_of(path: &str) -> &str {
    match path.rsplit_once('/') {
        None => ".",
        Some(("", _)) => "/",
        Some((folder, _)) => folder,
    }
}

/// Opens the folder of a path with an exclusive lock, which is released when the file is dropped.
fn lock_folder<R: Files<File = File> + Clock>(rt: &R, path: &str) -> Result<File, BindFault> {
    let folder = OpenOptions::new().read(true).open(rt, folder_of(path))?;
    for _ in 0..LOCK_RESTS {
        match folder.try_lock() {
            Ok(()) => return Ok(folder),
            Err(TryLockError::WouldBlock) => {}
            Err(TryLockError::Error(reason)) => return Err(BindFault::System(reason)),
        }
        thread::sleep(rt, Duration::from_millis(LOCK_REST_MILLIS));
    }
    Err(BindFault::Locked)
}

/// Binds a new socket at this address. Its file is created with this mode, less the process's umask, so it never has
/// another bit. It would if the mode were set afterwards.
fn bind_file<R: Net + Files>(
    rt: &R,
    address: &SocketAddr,
    mode: u32,
) -> Result<OwnedFd, BindFault> {
    let socket = rt.unix_socket()?;
    if libc::fchmod(socket.as_raw_fd(), mode) != 0 {
        return Err(BindFault::System(last_error()));
    }
    rt.bind_unix(socket.as_fd(), address)?;
    Ok(socket)
}

/// The permission bits of a mode.
const MODE_BITS: u32 = 0o777;

/// The bits by which others than a folder's owner may change it.
const OTHERS_WRITE: u32 = 0o022;

/// The sticky bit of a folder: only the folder's owner and a file's owner may remove the file.
const STICKY: u32 = 0o1000;

/// Restores the bits that the umask removed from the mode of the file at `path`. A path follows
/// links, so that is done only if no other user may put a link there.
fn give_back<R: Files<File = File>>(
    rt: &R,
    folder: &File,
    path: &str,
    mode: u32,
) -> Result<(), BindFault> {
    let around = folder.metadata()?;
    let is_own = around.uid() == 0 || around.uid() == libc::geteuid();
    let is_kept = around.mode() & OTHERS_WRITE == 0 || around.mode() & STICKY != 0;
    if !is_own || !is_kept {
        return Err(BindFault::Masked);
    }
    fs::set_permissions(rt, path, Permissions::from_mode(mode))?;
    Ok(())
}

/// Removes the file of a socket without a process. Any other file is kept.
fn make_way<R: Files>(rt: &R, path: &str) -> Result<(), BindFault> {
    let found = match fs::symlink_metadata(rt, path) {
        Ok(found) => found,
        Err(error) if error.kind() == ErrorKind::NotFound => return Ok(()),
        Err(error) => return Err(BindFault::System(error)),
    };
    if !found.file_type().is_socket() {
        return Err(BindFault::NoSocket);
    }
    if has_owner(path)? {
        return Err(BindFault::Taken);
    }
    match fs::remove_file(rt, path) {
        Err(error) if error.kind() == ErrorKind::PermissionDenied => Err(BindFault::Foreign),
        Err(error) if error.kind() != ErrorKind::NotFound => Err(BindFault::System(error)),
        _ => Ok(()),
    }
}

/// Linux's EPROTOTYPE: a socket of another kind is bound there.
const WRONG_KIND: i32 = 91;

/// Whether a process has the socket at this path.
///
/// It tries to connect a datagram socket, which the system refuses for a stream socket. So the
/// socket's owner never gets a connection of it.
fn has_owner(path: &str) -> Result<bool, BindFault> {
    let mut address = [0u8; net::_SS_SIZE];
    let len = write_address(path, &mut address);
    let kind = net::SOCK_DGRAM | net::SOCK_CLOEXEC;
    let socket = unsafe { net::socket(net::AF_UNIX, kind, 0) };
    if socket < 0 {
        return Err(BindFault::System(last_error()));
    }
    let connected = unsafe { net::connect(socket, &address, len) };
    let error = last_error();
    libc::close(socket);
    if connected == 0 {
        return Ok(true);
    }
    match error.raw_os_error() {
        Some(WRONG_KIND) => Ok(true),
        // ENOENT: it was removed just now, together with its server.
        Some(libc::ECONNREFUSED | libc::ENOENT) => Ok(false),
        Some(libc::EACCES) => Err(BindFault::Foreign),
        _ => Err(BindFault::System(error)),
    }
}

/// The offset of the path in the address of a Unix socket, after the family.
const PATH_AT: usize = 2;

/// Writes the address of a Unix socket as the system reads it, and returns its length. A path that
/// is too long is truncated.
fn write_address(path: &str, address: &mut [u8; net::_SS_SIZE]) -> u32
    ensures { result ≤ 128 }
{
    let path = path.as_bytes();
    let len = path.len().min(MAX_SOCKET_PATH);
    address[..PATH_AT].copy_from_slice(&(net::AF_UNIX as u16).to_ne_bytes());
    address[PATH_AT..PATH_AT + len].copy_from_slice(&path[..len]);
    (PATH_AT + len + 1) as u32
}

/// The error of the last system call.
fn last_error() -> io::Error {
    io::Error::from_raw_os_error(os::errno())
}
