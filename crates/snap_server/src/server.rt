//! The threads of a server.
ghost use Rattle.std.specs.Prelude.{◌≡◌, ◌⊎◌, [], All, IfOk, IfErr, OnErr, OnOk, Some, map, true, vec_len};
ghost use Rattle.std.specs.{List.range_with_len, Thread.IsSync, Thread.IsSend};
ghost use Rattle.snap_session.specs.Asked.{AllAsked};
ghost use Rattle.snap_server.specs.Announced.{Announced, HasRun, end_of};
ghost use Rattle.snap_server.specs.Deals.{Deals, GivesSoMany};

use crate::acceptor::{Acceptor, ConnectionLimit};
use crate::dispatcher::Dispatcher;
use crate::fault::{RunFault, ServerEvent, ServerFault};
use crate::gate::{Gate, Gated};
use crate::listen::Listen;
use crate::mailbox::{Deliver, MailboxSender, Message};
use crate::threads::{Work, have_served, start_backgrounds, start_workers};
use crate::worker::Worker;
use snap_session::{Background, Service};
use std::alloc::Global;
use std::io;
use std::net::Net;
use std::rt::Clock;
use std::sync::Wait;
use std::thread::{self, Threads};
use std::time::Duration;

/// The limits of a server.
#[derive(Clone, Copy)]
pub struct Limits {
    /// The number of connections that it serves in all; `None` for no limit.
    pub connections: Option<u64>,
    /// The number of connections that may be open at once.
    pub clients: usize,
    /// The pause after the first fault of the listener, before the next try. It grows with each
    /// consecutive fault, to ten thousand times this in all.
    pub fault_rest: Duration,
    /// The idle timeout: how long a connection may be silent with no request being worked on;
    /// `None` for no limit. A silent connection is closed at most a quarter of this time late.
    pub idle: Option<Duration>,
}

/// Announces to `T` that a server is ready, for example by printing its address.
pub trait Announce<T> {
    /// The effects of an announcement that succeeded, on `to`.
    ghost announces: { Self → T → T → Type 0 };

    /// The effects of an announcement that failed, on `to`.
    ghost fails: { Self → T → T → Type 0 };

    /// Announces the server to `to`. After an error no connection is accepted.
    fn announce(&self, to: &mut T) -> io::Result<()>
        ensures said { OnOk result (Self.announces self.now to.old to.new) }
        ensures failed { OnErr result (Self.fails self.now to.old to.new) };
}

/// An announcement that does nothing.
#[derive(Clone, Copy, Drop)]
pub struct NoAnnouncement;

impl<T> Announce<T> for NoAnnouncement {
    ghost announces = { λ _ old new. old ≡ new };

    ghost fails = { λ _ _ _. ⊥ };

    fn announce(&self, _to: &mut T) -> io::Result<()> {
        Ok(())
    }
}

/// Tells the workers that no more connections will arrive. They serve their connections until these
/// end, or close them if the server has failed.
fn close_all<X: Wait + Clock, H: Deliver>(rt: &X, senders: &[H], has_served: bool) {
    for sender in senders {
        let message = if has_served {
            Message::Close
        } else {
            Message::Stop
        };
        sender.post(rt, message);
    }
}

/// Makes a worker for each service, wrapped with the hook `gate`, and their senders in the same order, numbered by
/// index.
fn open_workers<'a, X: Net, S: Service + Drop, G: Gate>(
    net: &X,
    alloc: Global,
    services: Vec<S>,
    gate: &'a G,
    idle: Option<Duration>,
    limit: &'a ConnectionLimit,
) -> Result<
    (
        Vec<Worker<'a, Gated<'a, S, G>>>,
        Vec<MailboxSender<S::Outcome>>,
    ),
    ServerFault,
>
where
    S::Outcome: Drop,
    ensures workers { IfOk result (λ made. map (λ worker. worker.sessions.service.service) made.0.items
        ≡ services.items) }
    ensures places { IfOk result (λ made. map (λ worker. worker.mailbox.place) made.0.items
        ≡ range_with_len 0 (vec_len services)) }
    ensures theirs { IfOk result (λ made. map (λ sender. sender.place) made.1.items
        ≡ range_with_len 0 (vec_len services)) }
    ensures faults { IfErr result (λ fault. (fault ≡ ServerFault.NoPoll) ⊎ (fault ≡ ServerFault.NoMemory)) }
{
    let count = services.len();
    let room: Result<_, _> = Vec::with_capacity(alloc, count);
    let more: Result<_, _> = Vec::with_capacity(alloc, count);
    let (Ok(mut workers), Ok(mut senders)) = (room, more) else {
        return Err(ServerFault::NoMemory);
    };
    'services: for service in services {
        let place = workers.len();
        let is_last = place + 1 == count;
        let service = Gated { service, gate };
        let (worker, sender) = Worker::new(net, alloc, service, place, is_last, idle, limit)?;
        workers.push_reserved(worker);
        senders.push_reserved(sender);
    }
    Ok((workers, senders))
}

/// Announces the server, which has all its threads, then accepts `connections` connections and
/// delivers them to the workers; without end if `None`.
fn accept_announced<X, L, H, N, T, A>(
    rt: &X,
    listener: &mut L,
    mut dispatcher: Dispatcher<'_, H>,
    is_whole: bool,
    connections: Option<u64>,
    note: &N,
    announce: &A,
    to: &mut T,
) -> Result<u64, RunFault>
where
    X: Wait + Clock,
    L: Listen,
    H: Deliver,
    N: Fn(&ServerEvent),
    A: Announce<T>,
    requires first { dispatcher.next ≡ 0 }
    requires note { N.IsAlwaysCallable note.now }
    ensures whole { OnOk result (is_whole ≡ true) }
    ensures asked { IfOk result (λ k. connections ≡ Some k) }
    ensures deals { IfOk result (λ k. Deals L.accepts H.takes H.is_busy H.was_idle dispatcher.entry.senders.now k
        listener.old listener.new) }
    ensures deaf { IfErr result (λ why. why ≡ RunFault.Server ServerFault.AcceptFailed → L.refuses listener.old) }
    ensures announced { Announced (A.announces announce.now) (A.fails announce.now) to.old result to.new }
{
    if !is_whole {
        return Err(RunFault::Server(ServerFault::NoThread));
    }
    announce.announce(to).map_err(RunFault::Announcement)?;
    let accepted = dispatcher.accept_all(rt, listener, connections, note);
    accepted.map_err(RunFault::Server)
}

/// Runs the threads of all workers and backgrounds. Once all are running it announces the server,
/// and accepts on the calling thread.
///
/// It succeeds only if each worker has served all its connections, and each connection was
/// delivered to a sender that had none, or to the one whose turn it was, or for a busy one to the last.
fn run_threads<X, L, K, H, B, N, T, A>(
    rt: &X,
    alloc: Global,
    listener: L,
    workers: Vec<K>,
    senders: &[H],
    backgrounds: Vec<B>,
    limits: Limits,
    limit: &ConnectionLimit,
    note: &N,
    announce: &A,
    to: &mut T,
) -> Result<u64, RunFault>
where
    X: Threads + Wait + Clock + Sync,
    L: Listen + Drop,
    K: Work + Send + Drop,
    H: Deliver + Sync,
    H::Outcome: Send + Drop,
    B: Background<Outcome = H::Outcome> + Send + Drop,
    N: Fn(&ServerEvent) + Sync,
    A: Announce<T>,
    requires note { N.IsAlwaysCallable note.now }
    requires needs { K.needs }
    ensures { HasRun limits.connections (Deals L.accepts H.takes H.is_busy H.was_idle senders.now)
        (All K.serves workers.items) (L.refuses listener) (A.announces announce.now) (A.fails announce.now)
        listener to.old result to.new }
{
    let Ok(threads) = Vec::with_capacity(alloc, workers.len()) else {
        return Err(RunFault::Server(ServerFault::NoMemory));
    };
    let (ended, _to) = thread::scope(
        thread::scope_env(),
        rt,
        move |scope| -> (Result<u64, RunFault>, &mut T)
            requires { IsSync X.row × IsSync N.row × IsSync H.row × IsSend K.row
                × N.IsAlwaysCallable note.now × K.needs × (threads.items ≡ []) }
            ensures run { HasRun limits.connections (Deals L.accepts H.takes H.is_busy H.was_idle senders.entry.now)
                (All K.serves workers.items) (L.refuses listener) (A.announces announce.entry.now)
                (A.fails announce.entry.now) listener to.entry.now result.0 result.1.now }
            ensures same { result.1.ghost_name ≡ to.entry.ghost_name }
        {
            let mut threads = threads;
            let is_told = start_backgrounds(scope, rt, senders, backgrounds);
            let is_worked = start_workers(scope, rt, note, workers, &mut threads);
            let mut listener = listener;
            let dispatcher = Dispatcher::new(Acceptor::new(limit, limits.fault_rest), senders);
            let (is_whole, asked) = (is_told && is_worked, limits.connections);
            let accepted = accept_announced(
                rt,
                &mut listener,
                dispatcher,
                is_whole,
                asked,
                note,
                announce,
                to,
            );
            // Clients that connect later are refused at once.
            listener.close();
            close_all(rt, senders, accepted.is_ok());
            // `to` is returned, since nothing is known of what a moved closure changed.
            (end_of(accepted, !have_served(rt, threads)), to)
        },
    );
    ended
}

/// Serves the listener's connections until as many as the limits allow were accepted and closed,
/// and returns their number. A connection is delivered to a worker that has none; else to the workers, one for each
/// service, in turn; those of a worker that is busy with its only connection to the last one.
///
/// While the limit of open connections is reached, clients wait in the listener's queue.
///
/// The server is announced to `to` once it has its threads, their event queues and their memory, and before it accepts.
/// If the announcement fails, `run` returns and has accepted no connection. Each background works in a thread of its
/// own, and has ended once the services are dropped. The gate's `enter` is called before a request is answered, and its
/// `leave` after. `note` gets each [`ServerEvent`](crate::ServerEvent): the close of a connection on its worker's
/// thread, and the others on the calling thread.
///
/// The listener is closed once no more connections are accepted. After a fault the open connections
/// are closed: each between two requests, or after five seconds of silence within one.
///
/// - [`NoMemory`](ServerFault::NoMemory): memory for `run` itself ran out. If it runs out for a
///   connection, that connection is closed, and `run` goes on.
/// - [`NoPoll`](ServerFault::NoPoll), [`NoThread`](ServerFault::NoThread): the system refused a
///   worker its event queue or its thread. No connection was accepted.
/// - [`AcceptFailed`](ServerFault::AcceptFailed): 16 consecutive faults of the listener. A lack of
///   descriptors or of memory for a socket doesn't count.
/// - [`PollFailed`](ServerFault::PollFailed): a worker's wait for events failed. Its connections
///   are closed without an event, and accepting ends with the next connection that is delivered to
///   it.
pub fn run<X, L, S, B, G, N, T, A>(
    rt: &X,
    alloc: Global,
    listener: L,
    services: Vec<S>,
    backgrounds: Vec<B>,
    limits: Limits,
    gate: &G,
    note: &N,
    announce: &A,
    to: &mut T,
) -> Result<u64, RunFault>
where
    X: Threads + Wait + Clock + Net + Sync,
    L: Listen + Drop,
    S: Service + Send + Drop,
    S::Outcome: Send + Drop,
    B: Background<Outcome = S::Outcome> + Send + Drop,
    G: Gate + Sync,
    N: Fn(&ServerEvent) + Sync,
    A: Announce<T>,
    requires note { N.IsAlwaysCallable note.now }
    requires requests { AllAsked S.asked }
    requires memory { L.may_serve S.memory }
    ensures asked { IfOk result (λ k. limits.connections ≡ Some k) }
    ensures accepted { IfOk result (λ k. (left : L) × GivesSoMany L.accepts k listener left) }
    ensures deaf { IfErr result (λ why. why ≡ RunFault.Server ServerFault.AcceptFailed → L.refuses listener) }
    ensures announced { Announced (A.announces announce.now) (A.fails announce.now) to.old result to.new }
{
    let limit = ConnectionLimit::new(limits.clients);
    let (workers, senders) = match open_workers(rt, alloc, services, gate, limits.idle, &limit) {
        Ok(opened) => opened,
        Err(fault) => return Err(RunFault::Server(fault)),
    };
    run_threads(
        rt,
        alloc,
        listener,
        workers,
        senders.as_slice(),
        backgrounds,
        limits,
        &limit,
        note,
        announce,
        to,
    )
}

/// The result of a server whose threads have ended: `PollFailed` if one of them failed, unless the
/// server wasn't announced.
fn end_of(served: Result<u64, RunFault>, has_failed: bool) -> Result<u64, RunFault>
    ensures { result ≡ end_of served has_failed }
{
    match served {
        Ok(_) | Err(RunFault::Server(ServerFault::AcceptFailed | ServerFault::PollFailed))
            if has_failed => { Err(RunFault::Server(ServerFault::PollFailed)) }
        _ => served,
    }
}
