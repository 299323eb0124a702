//! The service for read-only clients.
ghost use Rattle.std.specs.Prelude.{◌≡◌, IfOk, length};
ghost use Rattle.snap_memory.specs.Rule.{segments};
ghost use Rattle.snap_service.specs.Memory.{IsOf};

use crate::memory::Memory;
use crate::outbox::StorerHandle;
use crate::reads::answer_unstored;
use snap_disk::Disk;
use snap_frame::{Reply, Request};
use snap_memory::Scanner;
use snap_session::Service;
use std::alloc::{AllocError, Global};
use std::marker::{Model, PhantomData};
use std::sync::Arc;
use std::sync::atomic::AtomicU64;

/// A [`Service`] for read-only clients beside the workers (HTTP, metrics): it answers scans and
/// statuses and never stores.
///
/// Models what its scanner knows. It answers an update from one look. Storers don't wait for it:
/// they end once all desks are dropped.
#[derive(Drop)]
pub struct ReadOnlyService<M: Memory> {
    alloc: Global,
    scanner: Scanner,
    /// The published status of each segment in one word, as [`status_in`] reads it.
    standings: Vec<Arc<AtomicU64, Global>>,
    of: PhantomData<M>,
}

impl<M: Memory> Model for ReadOnlyService<M> {
    ghost use Rattle.std.specs.Prelude.{◌≡◌, length};
    ghost use Rattle.snap_memory.specs.{Rule.segments, Seat.Known};
    ghost use Rattle.snap_service.specs.Memory.{IsOf};

    ghost Value = { Known };

    ghost view = { λ l. l.scanner };

    ghost invariant = { λ l. IsOf M.table M.plan l.scanner × (length l.standings.items ≡ segments l.scanner.plan) };
}

impl<M: Memory> ReadOnlyService<M> {
    /// A service of this scanner's memory, with each segment's handle. It keeps none, so no storer waits for it.
    pub fn new<D: Disk + Drop>(
        alloc: Global,
        handles: &[StorerHandle<M, D>],
        scanner: Scanner,
    ) -> Result<ReadOnlyService<M>, AllocError>
        requires memory { IsOf M.table M.plan scanner }
        requires handles { length handles.now ≡ segments M.plan }
        ensures { IfOk result (λ service. service ≡ scanner) }
    {
        let mut standings = Vec::with_capacity(alloc, handles.len())?;
        for handle in handles {
            standings.push(Arc::try_clone(&handle.standing)?)?;
        }
        Ok(ReadOnlyService {
            alloc,
            scanner,
            standings,
            of: PhantomData,
        })
    }
}

impl<M: Memory> Service for ReadOnlyService<M> {
    ghost use Rattle.snap_service.specs.{Answers.Answers, Counted.TakesFewLooks};

    type Outcome = ();

    ghost gives = { λ old request reply new. Answers old request reply new × TakesFewLooks old request new };

    ghost hands_over = { ⊥ };

    fn answer(&mut self, request: &Request, _key: usize) -> Option<Reply> {
        Some(self.finish(request, ()))
    }

    fn finish(&mut self, request: &Request, _outcome: ()) -> Reply {
        answer_unstored(self.alloc, &mut self.scanner, &self.standings, request)
    }
}
