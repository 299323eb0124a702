//! The plug of a machine, and which call of its devices pulls it.
use std::alloc::{AllocError, Global};
use std::sync::Arc;
use std::sync::atomic::{AtomicU64, Ordering};
use std::thread::yield_now;

/// The call that pulls the plug, by its number among those of all devices, from 1.
#[derive(Clone, Copy)]
pub struct Pull {
    pub call: u64,
    /// Whether that call still does its work. Nobody learns that it did.
    pub is_done: bool,
}

/// The outcome of a call.
pub enum Fate {
    /// It is done, and answered.
    Answered,
    /// It is done, and then the plug is pulled.
    Unanswered,
    /// The plug was pulled before it was done.
    Lost,
}

/// The plug, as a device has it and its client.
#[derive(Drop)]
pub struct Plug {
    /// How many calls all devices were asked for.
    asked: Arc<AtomicU64, Global>,
    /// How many of them this device has done.
    done: Arc<AtomicU64, Global>,
    pull: Pull,
}

impl Plug {
    /// The plug of a machine that starts, where no device has it yet.
    pub fn new(alloc: Global, pull: Pull) -> Result<Plug, AllocError> {
        Ok(Plug {
            asked: Arc::new(alloc, AtomicU64::new(0))?,
            done: Arc::new(alloc, AtomicU64::new(0))?,
            pull,
        })
    }

    /// The plug for one more device.
    pub fn for_device(&self, alloc: Global) -> Result<Plug, AllocError> {
        Ok(Plug {
            asked: Arc::try_clone(&self.asked)?,
            done: Arc::new(alloc, AtomicU64::new(0))?,
            pull: self.pull,
        })
    }

    /// The plug of this device for another thread.
    pub fn copied(&self) -> Result<Plug, AllocError> {
        Ok(Plug {
            asked: Arc::try_clone(&self.asked)?,
            done: Arc::try_clone(&self.done)?,
            pull: self.pull,
        })
    }

    /// The outcome of the next call. Some calls yield to other threads before they are done, so that the plug is pulled
    /// in the midst of them also on one processor.
    pub fn next(&self) -> Fate {
        let call = self.asked.fetch_add(1, Ordering::SeqCst) + 1;
        if call > self.pull.call || call == self.pull.call && !self.pull.is_done {
            return Fate::Lost;
        }
        self.done.fetch_add(1, Ordering::SeqCst);
        if call == self.pull.call {
            return Fate::Unanswered;
        }
        if call % 3 == 0 {
            yield_now();
        }
        Fate::Answered
    }

    /// Whether it was pulled.
    pub fn is_pulled(&self) -> bool {
        self.asked.load(Ordering::SeqCst) >= self.pull.call
    }

    /// How many calls this device has done.
    pub fn done(&self) -> u64 {
        self.done.load(Ordering::SeqCst)
    }
}
