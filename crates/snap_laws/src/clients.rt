//! Replies that a client received are in the memory that a crash leaves.

ghost use Rattle.std.specs.Prelude.{IfOk};
ghost use Rattle.snap_laws.specs.Laws.{StoredLaw, ScannedLaw, ScannedPartLaw, RepliedLaw, SessionLaw, ClientLaw};
ghost use Rattle.snap_laws.specs.Laws.{PlugLaw};
ghost use Rattle.snap_laws.specs.Heard.{HeardLaw, HearsFrom, FirstHeard, bytes_of, socket};
ghost use Rattle.snap_laws.specs.{Told.IsSendable, Worker.OfScannerLaw, Worker.WorkerLaw, Ever.EverLaw};

use snap_client::{Client, ClientFault};
use snap_disk::Disk;
use snap_frame::{Reply, Request};
use snap_service::{CountingService, Desk, Memory, UpdateObserver};
use snap_session::Service;
use std::alloc::Global;
use std::io::{Read, Write};
use std::rt::Clock;
use std::sync::Wait;

/// An update that was replied `stored`, and the memory in the reply to a scan of all or some
/// segments, are in each history that begins with what the service's scanner had seen when it
/// replied. And the memory has all that the scanner had seen at the scan's first look.
pub fn reply_laws()
    ensures stored { StoredLaw }
    ensures scanned { ScannedLaw }
    ensures part { ScannedPartLaw }
    ensures replied { RepliedLaw }
{}

/// All replies that a session has owed its peer since its start are in each history that begins with what the service
/// has seen by now, also if the service answered other requests in between.
pub fn session_laws()
    ensures { SessionLaw }
{}

/// The replies of a server's worker are too. Its service is a desk in a `CountingService`, and each session on it is a
/// session of the desk's scanner. `snap_server` says that a worker's connections are such sessions, also with the gate
/// around the service (`gate_laws`).
pub fn worker_laws<R: Wait + Copy + Clock, M: Memory, D: Disk + Drop, H: UpdateObserver + Drop>()
    ensures session { OfScannerLaw ⟦<CountingService<'static, Desk<R, M, D, H>> as Service>⟧.gives
        (λ counted. counted.service) }
    ensures told { WorkerLaw ⟦<CountingService<'static, Desk<R, M, D, H>> as Service>⟧.gives
        (λ counted. counted.service) }
{}

/// The results of a client's calls are in such a history too, if its connection to the session delivers the bytes as
/// they were written.
pub fn client_laws<R: Read, W: Write>()
    ensures { ClientLaw R.remaining W.contents }
{}

/// At any moment of the registers of an opening, a crash of all devices leaves the memory after the
/// whole history since the first start, and some begun updates. That history has all that was
/// replied before: what any session of this opening had replied by then, what any client over an
/// honest connection to such a session had returned to its caller, and all earlier replies.
///
/// Over any number of crashes and starts the files keep the memory after one history. It has all that a session replied
/// or a client returned in any opening before its crash, and each update that a `put` stored in between, except of a
/// segment whose file was made anew.
pub fn plug_laws<D: Disk, R: Read, W: Write>()
    ensures plug { PlugLaw D.Disk R.remaining W.contents }
    ensures ever { EverLaw D.Disk R.remaining W.contents }
{}

/// The premises of these laws can be met: whatever a service replies, a client may have returned to
/// its caller over an honest connection, also over sockets, whose bytes no contract knows. In
/// particular one may have heard that a file's first update is stored.
pub fn heard_laws()
    ensures heard { HeardLaw bytes_of bytes_of }
    ensures sockets { HeardLaw socket socket }
    ensures first { FirstHeard }
{}

/// [`heard_laws`] at a real call: what a client returns came over an honest connection, if its
/// reader gave it a beginning of what a session gave out when it got exactly this request.
pub fn hear<R: Read + Drop, W: Write + Drop>(
    alloc: Global,
    reader: R,
    writer: W,
    request: &Request,
) -> Result<Reply, ClientFault>
    requires sendable { IsSendable request.now }
    ensures { IfOk result (HearsFrom R.remaining W.contents reader request.now) }
{
    let mut client = Client::new(alloc, reader, writer);
    client.call(request)
}
