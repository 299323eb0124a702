//! The storer threads, the workers' desks, and the observer's thread.
ghost use Rattle.std.specs.Prelude.{◌≡◌, ◌≤◌, length, IfOk};
ghost use Rattle.std.specs.Thread.{IsSync, IsSend};
ghost use Rattle.snap_memory.specs.Rule.{segments};
ghost use Rattle.snap_service.specs.Asked.{AreAsOpened};
ghost use Rattle.snap_service.specs.Memory.{AreWriters, number_of};
ghost use Rattle.snap_session.specs.Asked.{AllAsked};
ghost use Rattle.snap_serve.specs.Handles.{AreHandles};
ghost use Rattle.snap_serve.specs.Scanners.{AreScanners, HasMetrics};
ghost use Rattle.snap_server.specs.{Announced.HasRun, Deals.GivesSoMany};

use crate::counted::CountedListener;
use crate::observer::Observer;
use crate::server::Runtime;
use snap_disk::Disk;
use snap_memory::Scanner;
use snap_server::{Announce, Gate, Limits, Listen, RunFault, ServerEvent, ServerFault, run};
use snap_service::{
    CountingService, Desk, Memory, Metrics, Outcome, ReadOnlyService, Storer, StorerHandle,
    UpdateObserver,
};
use snap_session::{Background, Completion, Service};
use snap_writer::Writer;
use std::alloc::{AllocError, Global};
use std::net::Net;
use std::rt::Clock;
use std::sync::Wait;
use std::thread::{self, Threads};

/// A segment's storer, run by a thread of the server.
#[derive(Drop)]
struct Storing<R: Wait + Copy, M: Memory, D: Disk + Drop, H: Drop> {
    store: Storer<R, M, D>,
    segment: usize,
    watch: H,
}

impl<R: Wait + Copy, M: Memory, D: Disk + Drop, H: UpdateObserver + Drop> Background
    for Storing<R, M, D, H> {
    type Outcome = Outcome<R, M, D>;

    fn next_done(&mut self) -> Option<Completion<Outcome<R, M, D>>> {
        let done = self.store.next()?;
        let outcome = &done.outcome;
        self.watch
            .told(self.segment, outcome.number(), outcome.told());
        Some(done)
    }
}

/// Makes a storer for each writer of the memory, and their handles in the order of their segments.
fn open_stores<R: Wait + Copy, M: Memory, D: Disk + Drop, H: UpdateObserver + Copy + Drop>(
    rt: R,
    alloc: Global,
    writers: Vec<Writer<D>>,
    watch: H,
) -> Result<(Vec<Storing<R, M, D, H>>, Vec<StorerHandle<M, D>>), AllocError>
    requires writers { AreWriters M.table M.plan writers.items }
    requires opened { AreAsOpened writers.items }
    ensures stores { IfOk result (λ r. length r.0.items ≡ length writers.items) }
    ensures handles { IfOk result (λ r. AreHandles (segments M.plan) r.1.items) }
{
    let mut stores = Vec::new(alloc);
    let mut handles = Vec::new(alloc);
    'writers: for writer in writers {
        let segment = writer.segment();
        let (store, handle) = Storer::new(rt, alloc, writer)?;
        stores.push(Storing {
            store,
            segment,
            watch,
        })?;
        handles.push(handle)?;
    }
    Ok((stores, handles))
}

/// A worker's service: a desk whose answers are counted in the worker's metrics.
type WorkerService<'f, R, M, D, H> = CountingService<'f, Desk<R, M, D, H>>;

/// Makes a worker's service for each scanner.
fn open_desks<'f, R, M, D, H>(
    rt: R,
    alloc: Global,
    handles: &Vec<StorerHandle<M, D>>,
    scanners: Vec<Scanner>,
    watch: H,
    metrics: &'f Metrics,
) -> Result<Vec<WorkerService<'f, R, M, D, H>>, AllocError>
where
    R: Wait + Copy + Clock,
    M: Memory,
    D: Disk + Drop,
    H: UpdateObserver + Copy + Drop,
    requires handles { AreHandles (segments M.plan) handles.now.items }
    requires scanners { AreScanners M.table M.plan scanners.items }
    requires metrics { length scanners.items ≤ metrics.now.workers }
    ensures { IfOk result (λ desks. length desks.items ≡ length scanners.items) }
{
    let mut desks = Vec::with_capacity(alloc, scanners.len())?;
    'scanners: for scanner in scanners {
        let worker = desks.len();
        let desk = Desk::new(rt, alloc, worker, handles.clone()?, scanner, watch);
        desks.push(CountingService::new(desk, metrics.worker(worker)))?;
    }
    Ok(desks)
}

/// What the server's threads run: a service for each worker, a storer for each segment, and the observer's service.
type ServingParts<'f, R, M, D, H, O> = (
    Vec<WorkerService<'f, R, M, D, H>>,
    Vec<Storing<R, M, D, H>>,
    Option<(ReadOnlyService<M>, &'f O)>,
);

/// Makes what the threads run. If there is an observer, it gets the last scanner.
fn open_parts<'f, R, M, D, H, O>(
    rt: R,
    alloc: Global,
    writers: Vec<Writer<D>>,
    mut scanners: Vec<Scanner>,
    watch: H,
    metrics: &'f Metrics,
    observer: Option<&'f O>,
) -> Result<ServingParts<'f, R, M, D, H, O>, AllocError>
where
    R: Wait + Copy + Clock,
    M: Memory,
    D: Disk + Drop,
    H: UpdateObserver + Copy + Drop,
    requires writers { AreWriters M.table M.plan writers.items }
    requires opened { AreAsOpened writers.items }
    requires scanners { AreScanners M.table M.plan scanners.items }
    requires metrics { HasMetrics observer (length scanners.items) metrics.now.workers }
{
    let (stores, handles) = open_stores(rt, alloc, writers, watch)?;
    let seen = match observer {
        Some(observer) => match scanners.pop() {
            Some(scanner) => Some((ReadOnlyService::new(alloc, &handles, scanner)?, observer)),
            None => None,
        },
        None => None,
    };
    let services = open_desks(rt, alloc, &handles, scanners, watch, metrics)?;
    Ok((services, stores, seen))
}

/// Serves the memory of these writers and scanners, as [`run`] does: with a worker for each scanner, and a storer
/// thread for each writer. If there is an observer, it gets the last scanner.
pub(crate) fn serve_memory<M, X, D, L, G, N, H, O, A, T>(
    rt: &X,
    alloc: Global,
    writers: Vec<Writer<D>>,
    scanners: Vec<Scanner>,
    listener: L,
    limits: Limits,
    gate: &G,
    note: &N,
    watch: H,
    metrics: &Metrics,
    observer: Option<&O>,
    announce: &A,
    to: &mut T,
) -> Result<u64, RunFault>
where
    M: Memory + Send,
    X: Runtime,
    D: Disk + Send + Drop,
    L: Listen + Drop,
    G: Gate + Sync,
    N: Fn(&ServerEvent) + Sync,
    H: UpdateObserver + Copy + Send + Drop,
    O: Observer + Sync,
    A: Announce<T>,
    requires writers { AreWriters M.table M.plan writers.items }
    requires opened { AreAsOpened writers.items }
    requires scanners { AreScanners M.table M.plan scanners.items }
    requires requests { AllAsked M.asked }
    requires memory { L.may_serve (number_of M.table) }
    requires metrics { HasMetrics observer (length scanners.items) metrics.now.workers }
    requires note { N.IsAlwaysCallable note.now }
    ensures { HasRun limits.connections (GivesSoMany L.accepts) (Unit {0}) (L.refuses listener)
        (A.announces announce.now) (A.fails announce.now) listener to.old result to.new }
{
    let listener = CountedListener::new(listener, metrics);
    let made: Result<ServingParts<'_, X, M, D, H, O>, AllocError> = open_parts(
        *rt, alloc, writers, scanners, watch, metrics, observer,
    );
    let Ok((services, stores, seen)) = made else {
        return Err(RunFault::Server(ServerFault::NoMemory));
    };
    run_observed(
        rt, alloc, listener, services, stores, seen, limits, gate, note, announce, to,
    )
}

/// Serves as [`run`] does. If there is an observer, a thread of its own runs it, and ends once the server has ended.
fn run_observed<X, L, S, B, M, O, G, N, T, A>(
    rt: &X,
    alloc: Global,
    listener: L,
    services: Vec<S>,
    storers: Vec<B>,
    seen: Option<(ReadOnlyService<M>, &O)>,
    limits: Limits,
    gate: &G,
    note: &N,
    announce: &A,
    to: &mut T,
) -> Result<u64, RunFault>
where
    X: Threads + Wait + Clock + Net + Sync,
    L: Listen + Drop,
    S: Service + Send + Drop,
    S::Outcome: Send + Drop,
    B: Background<Outcome = S::Outcome> + Send + Drop,
    M: Memory + Send,
    O: Observer + Sync,
    G: Gate + Sync,
    N: Fn(&ServerEvent) + Sync,
    A: Announce<T>,
    requires note { N.IsAlwaysCallable note.now }
    requires requests { AllAsked S.asked }
    requires memory { L.may_serve S.memory }
    ensures { HasRun limits.connections (GivesSoMany L.accepts) (Unit {0}) (L.refuses listener)
        (A.announces announce.now) (A.fails announce.now) listener to.old result to.new }
{
    let Some((service, observer)) = seen else {
        return run(
            rt, alloc, listener, services, storers, limits, gate, note, announce, to,
        );
    };
    let (ended, _to) = thread::scope(
        thread::scope_env(),
        rt,
        move |scope| -> (Result<u64, RunFault>, &mut T)
            requires { IsSync X.row × IsSync O.row × IsSync N.row × IsSync G.row × IsSend S.row
                × IsSend S.Outcome.row × IsSend B.row × IsSend M.row
                × N.IsAlwaysCallable note.now × AllAsked S.asked × L.may_serve S.memory }
            ensures run { HasRun limits.connections (GivesSoMany L.accepts) (Unit {0}) (L.refuses listener)
                (A.announces announce.entry.now) (A.fails announce.entry.now)
                listener to.entry.now result.0 result.1.now }
            ensures same { result.1.ghost_name ≡ to.entry.ghost_name }
        {
            let looking = move ||
                requires { IsSync X.row × IsSync O.row × IsSend M.row }
            {
                observer.look(rt, service);
            };
            if scope.spawn(looking).is_err() {
                return (Err(RunFault::Server(ServerFault::NoThread)), to);
            }
            let ended = run(
                rt, alloc, listener, services, storers, limits, gate, note, announce, to,
            );
            observer.stop();
            (ended, to)
        },
    );
    ended
}
