//! Files in memory that have power until a plug is pulled.
ghost use Rattle.std.specs.Prelude.{◌≡◌, ◌≤◌, ⊤};
ghost use Rattle.snap_devices.specs.MemDisk.{memory_device, memory_clock, memory_left, memory_past};

use crossbeam_channel::Sender;
use snap_devices::MemDisk;
use snap_disk::{DeviceFault, Disk};
use std::sync::Wait;
use std::sync::atomic::{AtomicU64, Ordering};

/// The plug of all files of a machine.
#[derive(Drop)]
pub(crate) struct Plug {
    /// How many calls the files were asked for.
    asked: AtomicU64,
    /// The call that pulls it, from 1.
    call: u64,
    /// Whether that call still does its work, of which nobody learns.
    is_done: bool,
}

impl Plug {
    pub(crate) fn new(call: u64, is_done: bool) -> Plug {
        Plug {
            asked: AtomicU64::new(0),
            call,
            is_done,
        }
    }

    /// Whether the next call does its work, and whether it is answered.
    fn next(&self) -> (bool, bool) {
        let call = self.asked.fetch_add(1, Ordering::SeqCst) + 1;
        let is_answered = call < self.call;
        (
            is_answered || call == self.call && self.is_done,
            is_answered,
        )
    }

    pub(crate) fn is_pulled(&self) -> bool {
        self.asked.load(Ordering::SeqCst) >= self.call
    }
}

/// A file of a server. It goes home when the server drops it.
pub(crate) struct Plugged<'a, R: Wait + Copy> {
    pub rt: R,
    pub disk: MemDisk,
    pub plug: &'a Plug,
    /// How many calls it has done.
    pub done: &'a AtomicU64,
    pub failures: u64,
    /// Where it goes, under its segment.
    pub home: Sender<(usize, MemDisk)>,
    pub segment: usize,
}

impl<R: Wait + Copy> Drop for Plugged<'_, R> {
    fn drop(self) {
        let Plugged {
            rt,
            disk,
            plug: _,
            done: _,
            failures: _,
            home,
            segment,
        } = self;
        let _ = home.send(&rt, (segment, disk));
    }
}

impl<R: Wait + Copy> Plugged<'_, R> {
    /// Does a call, if there is power, and counts it as failed until it is answered.
    fn call(
        &mut self,
        work: impl FnOnce(&mut MemDisk) -> Result<(), DeviceFault>,
    ) -> Result<(), DeviceFault> {
        self.failures += 1;
        let (does, is_answered) = self.plug.next();
        if does {
            self.done.fetch_add(1, Ordering::SeqCst);
            work(&mut self.disk)?;
        }
        if !is_answered {
            return Err(DeviceFault);
        }
        self.failures -= 1;
        Ok(())
    }
}

impl<R: Wait + Copy> Disk for Plugged<'_, R> {
    ghost use Rattle.snap_devices.specs.Past.{only_left_now};
    ghost use Rattle.std.proofs.Common.{inl};

    ghost device = { λ d. memory_device d.disk };

    ghost failure_count = { λ d. d.failures };

    ghost is_honest = { λ d. ⊤ };

    ghost clock = { λ d. memory_clock d.disk };

    ghost might_have_left = { λ d. memory_left d.disk };

    ghost counts_now = { λ m t b h le now. inl (le, now) };

    ghost only_now = { λ m b h left. only_left_now (memory_device m.disk) (memory_past m.disk) b left };

    fn len(&self) -> u64 {
        self.disk.len()
    }

    fn failures(&self) -> u64 {
        self.failures
    }

    fn read_at(&mut self, at: u64, buf: &mut [u8]) -> Result<(), DeviceFault> {
        self.call(|disk| disk.read_at(at, buf))
    }

    fn write_at(&mut self, at: u64, bytes: &[u8]) -> Result<(), DeviceFault> {
        self.call(|disk| disk.write_at(at, bytes))
    }

    fn sync(&mut self) -> Result<(), DeviceFault> {
        self.call(|disk| disk.sync())
    }
}
