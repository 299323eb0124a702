//! The threads of workers and backgrounds, and the result of each worker.
ghost use Rattle.std.specs.Prelude.{◌≡◌, [], All, map, true};
ghost use Rattle.std.specs.Thread.{IsSend, IsSync};

use crate::fault::ServerEvent;
use crate::mailbox::{Deliver, Message};
use snap_session::{Background, Completion};
use std::rt::Clock;
use std::snapshot::Snapshot;
use std::sync::Wait;
use std::thread::{Promise, PromisedHandle, Scope, Threads};

/// Work that is done in a thread of its own.
pub trait Work {
    /// What has to be so that it can work.
    ghost needs: { Type 0 };

    /// All connections that were delivered to it have been served.
    ghost serves: { Self → Type 0 };

    /// Works until no more connections will arrive and none is left; `false` if it failed.
    fn work<X: Wait + Clock, N: Fn(&ServerEvent)>(&mut self, rt: &X, note: &N) -> bool
        requires note { N.IsAlwaysCallable note.now }
        requires needs { needs }
        ensures { result ≡ true → serves self.old };
}

/// A promise that a thread returns `true` only if its worker has served.
#[derive(Drop)]
pub struct Serving<K> {
    worker: Snapshot<K>,
}

impl<K: Work> Promise<bool> for Serving<K> {
    ghost kept_by = { λ promise has_served. has_served ≡ true → K.serves promise.worker.value };
}

/// Starts a thread for each background; `false` if the system refuses one.
pub fn start_backgrounds<'s, E, X, B, H>(
    scope: &Scope<'s, E>,
    rt: &'s X,
    senders: &'s [H],
    backgrounds: Vec<B>,
) -> bool
where
    X: Wait + Clock + Sync,
    B: Background<Outcome = H::Outcome> + Send + Drop + 's,
    H: Deliver + Sync,
    H::Outcome: Send + Drop,
{
    let mut is_whole = true;
    'backgrounds: for background in backgrounds {
        let told = move ||
            requires { IsSync X.row × IsSync H.row × IsSend B.row }
        {
            tell_all(rt, background, senders);
        };
        is_whole &= scope.spawn(told).is_ok();
    }
    is_whole
}

/// Sends each outcome of a background to its worker, until no more will arrive.
fn tell_all<X: Wait + Clock, B: Background + Drop, H: Deliver<Outcome = B::Outcome>>(
    rt: &X,
    mut background: B,
    senders: &[H],
) {
    for _ in rt.forever() {
        let Some(done) = background.next_done() else {
            return;
        };
        let Completion {
            worker,
            key,
            outcome,
        } = done;
        if let Some(sender) = senders.get(worker) {
            sender.post(rt, Message::Done { key, outcome });
        }
    }
}

/// Starts a thread for each worker; `false` if the system refuses one.
pub fn start_workers<'s, E, X, K, N>(
    scope: &Scope<'s, E>,
    rt: &'s X,
    note: &'s N,
    workers: Vec<K>,
    threads: &mut Vec<PromisedHandle<bool, Serving<K>>>,
) -> bool
where
    X: Wait + Clock + Sync,
    K: Work + Send + Drop + 's,
    N: Fn(&ServerEvent) + Sync,
    requires none { threads.old.items ≡ [] }
    requires note { N.IsAlwaysCallable note.now }
    requires needs { K.needs }
    ensures { result ≡ true → map (λ thread. thread.promise.worker.value) threads.new.items ≡ workers.items }
{
    'workers: for worker in workers {
        let promise = Serving {
            worker: Snapshot::of(&worker),
        };
        let work = move || -> bool
            requires { IsSync X.row × IsSync N.row × IsSend K.row × N.IsAlwaysCallable note.now × K.needs }
            ensures { result ≡ true → K.serves worker }
        {
            let mut worker = worker;
            worker.work(rt, note)
        };
        let Ok(thread) = scope.spawn_with(promise, work) else {
            return false;
        };
        if threads.push(thread).is_err() {
            return false;
        }
    }
    true
}

/// Waits for all workers' threads; `true` if each has served.
pub fn have_served<X: Threads, K: Work>(
    rt: &X,
    threads: Vec<PromisedHandle<bool, Serving<K>>>,
) -> bool
    ensures { result ≡ true → All K.serves (map (λ thread. thread.promise.worker.value) threads.items) }
{
    let mut all = true;
    'threads: for thread in threads {
        all &= thread.join(rt);
    }
    all
}
