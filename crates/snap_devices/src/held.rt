//! A device whose first write waits for a flag, for tests of what a blocked store delays.
ghost use Rattle.std.specs.Prelude.{◌≡◌, ◌+◌, ◌-◌, ◌^◌, ◌<◌, ◌≤◌, ◌↔◌, length, None, Some, IsErr, IsSome, OnOk};
ghost use Rattle.snap_devices.specs.{Held.IsWait, declared.held.Waited.Waited};

use crate::MemDisk;
use snap_disk::{DeviceFault, Disk};
use std::alloc::Global;
use std::sync::Arc;
use std::sync::atomic::{AtomicU64, Ordering};
use std::thread::yield_now;

/// How the first write of a [`Held`] waited.
#[derive(Clone, Copy, PartialEq, Eq)]
pub struct Waited {
    /// For how many turns of yielding.
    pub turns: u64,
    /// The flag as it was last read; 0 if it never was.
    pub flag: u64,
}

/// A [`MemDisk`] whose first write waits until a flag isn't 0, for at most a given number of turns
/// of yielding, and then continues. In all else it is the `MemDisk`.
#[derive(Drop)]
pub struct Held {
    disk: MemDisk,
    flag: Arc<AtomicU64, Global>,
    turns: u64,
    /// None before the first write.
    waited: Option<Waited>,
}

impl Held {
    ghost use Rattle.snap_devices.specs.Held.{held_disk, held_turns, held_waited};

    /// Holds the first write of this device, to which no write was made yet, until the flag is set.
    pub fn new(disk: MemDisk, flag: Arc<AtomicU64, Global>, turns: u64) -> Held
        ensures disk { held_disk result ≡ disk }
        ensures turns { held_turns result ≡ turns }
        ensures waited { held_waited result ≡ None }
    {
        Held {
            disk,
            flag,
            turns,
            waited: None,
        }
    }

    /// The device in memory, to crash it and to plan faults.
    pub fn into_disk(self) -> MemDisk
        ensures { result ≡ held_disk self }
    {
        self.disk
    }
}

// Yields until the flag isn't 0, for at most `turns` turns.
fn wait_for(flag: &AtomicU64, turns: u64) -> Waited
    ensures { IsWait turns result }
{
    for turn in 0..turns {
        let seen = flag.load(Ordering::SeqCst);
        if seen != 0 {
            return Waited {
                turns: turn,
                flag: seen,
            };
        }
        yield_now();
    }
    Waited { turns, flag: 0 }
}

impl Disk for Held {
    ghost use Rattle.snap_disk.specs.Device.{part, CountsFailure, Elapses, IsTouched};
    ghost use Rattle.snap_devices.specs.Held.{held_disk, held_turns, held_waited};
    ghost use Rattle.snap_devices.specs.MemDisk.{memory_device, memory_failures, memory_calls, memory_clock};
    ghost use Rattle.snap_devices.specs.MemDisk.{memory_left, memory_plan, next_call, next_fill};
    ghost use Rattle.snap_devices.specs.Past.{only_left_now};
    ghost use Rattle.std.proofs.Common.{inl};

    ghost device = { λ h. memory_device h.disk };

    ghost failure_count = { λ h. memory_failures h.disk };

    ghost is_honest = { λ _. Unit {0} };

    ghost clock = { λ h. memory_clock h.disk };

    ghost might_have_left = { λ h. memory_left h.disk };

    ghost counts_now = { λ m t b h le now. inl (le, now) };

    ghost only_now = { λ m b h left. only_left_now (memory_device m.disk) m.disk.past.items b left };

    fn len(&self) -> u64 {
        self.disk.len()
    }

    fn failures(&self) -> u64 {
        self.disk.failures()
    }

    fn read_at(&mut self, at: u64, buf: &mut [u8]) -> Result<(), DeviceFault> {
        self.disk.read_at(at, buf)
    }

    /// The first write waits. A write fails exactly if the device's plan says so.
    fn write_at(&mut self, at: u64, bytes: &[u8]) -> Result<(), DeviceFault>
        requires within { at + length bytes.now ≤ length (memory_device (held_disk self.old)).bytes }
        requires headroom { memory_failures (held_disk self.old) < 2 ^ 64 - 1 }
        ensures turns { held_turns self.new ≡ held_turns self.old }
        ensures waits { held_waited self.old ≡ None → (waited : Waited)
            × (held_waited self.new ≡ Some waited) × IsWait (held_turns self.old) waited }
        ensures waits_once { IsSome (held_waited self.old) → held_waited self.new ≡ held_waited self.old }
        ensures fails { IsErr result ↔ IsSome (next_fill (held_disk self.old)) }
        ensures count { CountsFailure result (memory_failures (held_disk self.old))
            (memory_failures (held_disk self.new)) }
        ensures size { length (memory_device (held_disk self.new)).bytes
            ≡ length (memory_device (held_disk self.old)).bytes }
        ensures clock { memory_clock (held_disk self.new) ≡ memory_clock (held_disk self.old) + 1 }
        ensures time { Elapses (memory_clock (held_disk self.old))
            (memory_clock (held_disk self.new)) (memory_left (held_disk self.old))
            (memory_left (held_disk self.new)) (memory_device (held_disk self.new)) }
        ensures left { IsTouched at (length bytes.now)
            (memory_device (held_disk self.old)) (memory_device (held_disk self.new)) }
        ensures stands { OnOk result
            (part at (length bytes.now) (memory_device (held_disk self.new)).bytes ≡ bytes.now) }
    {
        if self.waited.is_none() {
            self.waited = Some(wait_for(&self.flag, self.turns));
        }
        self.disk.write_at(at, bytes)
    }

    fn sync(&mut self) -> Result<(), DeviceFault> {
        self.disk.sync()
    }
}
