//! A device that has power until the plug is pulled.
ghost use Rattle.snap_devices.specs.MemDisk.{memory_device, memory_clock, memory_left, memory_past};

use crate::plug::pull::{Fate, Plug};
use snap_devices::MemDisk;
use snap_disk::{DeviceFault, Disk};

/// A [`MemDisk`] with a plug. From the call on that pulls it each call fails and changes nothing
/// more: a write doesn't even open its range.
#[derive(Drop)]
pub struct Plugged {
    disk: MemDisk,
    plug: Plug,
    failures: u64,
}

impl Plugged {
    /// This device, at this end of the plug.
    pub fn new(disk: MemDisk, plug: Plug) -> Plugged {
        Plugged {
            disk,
            plug,
            failures: 0,
        }
    }

    /// The device in memory, to crash it.
    pub fn into_disk(self) -> MemDisk {
        self.disk
    }

    /// Does a call, if there is power, and counts it as failed until it is answered.
    fn call(
        &mut self,
        work: impl FnOnce(&mut MemDisk) -> Result<(), DeviceFault>,
    ) -> Result<(), DeviceFault> {
        self.failures += 1;
        match self.plug.next() {
            Fate::Answered => {
                work(&mut self.disk)?;
                self.failures -= 1;
                return Ok(());
            }
            Fate::Unanswered => work(&mut self.disk)?,
            Fate::Lost => {}
        }
        Err(DeviceFault)
    }
}

impl Disk for Plugged {
    ghost use Rattle.snap_devices.specs.Past.{only_left_now};
    ghost use Rattle.std.proofs.Common.{inl};

    ghost device = { λ d. memory_device d.disk };

    ghost failure_count = { λ d. d.failures };

    ghost is_honest = { λ d. Unit {0} };

    ghost clock = { λ d. memory_clock d.disk };

    ghost might_have_left = { λ d. memory_left d.disk };

    ghost counts_now = { λ m t b h le now. inl (le, now) };

    ghost only_now = { λ m b h left. only_left_now (memory_device m.disk) (memory_past m.disk) b left };

    fn len(&self) -> u64 {
        self.disk.len()
    }

    fn failures(&self) -> u64 {
        self.failures
    }

    fn read_at(&mut self, at: u64, buf: &mut [u8]) -> Result<(), DeviceFault> {
        self.call(|disk| disk.read_at(at, buf))
    }

    fn write_at(&mut self, at: u64, bytes: &[u8]) -> Result<(), DeviceFault> {
        self.call(|disk| disk.write_at(at, bytes))
    }

    fn sync(&mut self) -> Result<(), DeviceFault> {
        self.call(|disk| disk.sync())
    }
}
