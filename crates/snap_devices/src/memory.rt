//! A device in memory, with planned faults: the device of the tests.
ghost use Rattle.std.specs.Prelude.{◌≡◌, ◌+◌, ◌-◌, ◌^◌, ◌<◌, ◌≤◌, ◌∷◌, ◌↔◌, replicate, length};
ghost use Rattle.std.specs.Prelude.{IfOk, OnOk, OnErr, IsErr, IsSome, IfSome, None};
ghost use Rattle.std.proofs.Common.{inl};
ghost use Rattle.snap_devices.specs.Past.{LeftFrom, only_left_now};

use crate::GhostLog;
use crate::fault_plan::FaultPlan;
use snap_disk::{DeviceFault, Disk, Fill, Image};
use std::alloc::{AllocError, Global};
use std::slice;

/// An [`Image`] as a device whose calls fail by a plan, and only by it. It is honest, its past
/// included. It counts its calls from 1, up to the greatest number that the count can hold.
#[derive(Drop)]
pub struct MemDisk {
    image: Image,
    plan: FaultPlan,
    calls: u64,
    failures: u64,
    past: GhostLog<Image>,
}

impl MemDisk {
    ghost use Rattle.snap_disk.specs.Device.{Device, IsSettled, MayLeave};
    ghost use Rattle.snap_disk.specs.{Fill.IsFilled, Image.image_device};
    ghost use Rattle.snap_devices.specs.MemDisk.{memory_device, memory_plan, memory_calls, memory_failures};
    ghost use Rattle.snap_devices.specs.MemDisk.{memory_image, memory_past};
    ghost use Rattle.snap_devices.specs.{FaultPlan.planned_fill, declared.memory.MemDisk.MemDisk};

    /// A device of this image, none of whose calls fails.
    pub fn new(alloc: Global, image: Image) -> MemDisk
        ensures device { memory_device result ≡ image_device image }
        ensures plan { (call : _) → planned_fill (memory_plan result) call ≡ None }
        ensures calls { memory_calls result ≡ 0 }
        ensures failures { memory_failures result ≡ 0 }
        ensures always_honest { (disk : MemDisk) → ⟦<MemDisk as Disk>⟧.is_honest disk }
    {
        MemDisk {
            image,
            plan: FaultPlan::new(alloc),
            calls: 0,
            failures: 0,
            past: GhostLog::new(),
        }
    }

    /// A device of `len` zero bytes with no open place. Fails if memory runs out.
    pub fn zeroed(alloc: Global, len: usize) -> Result<MemDisk, AllocError>
        ensures bytes { IfOk result (λ disk. (memory_device disk).bytes ≡ replicate len 0) }
        ensures settled { IfOk result (λ disk. IsSettled (memory_device disk)) }
        ensures plan { IfOk result (λ disk. (call : _) → planned_fill (memory_plan disk) call ≡ None) }
        ensures calls { IfOk result (λ disk. memory_calls disk ≡ 0) }
        ensures failures { IfOk result (λ disk. memory_failures disk ≡ 0) }
    {
        let image = Image::new(alloc, len)?;
        Ok(MemDisk::new(alloc, image))
    }

    /// From now on its calls fail by this plan, which continues counting from the calls made so far.
    pub fn set_plan(&mut self, plan: FaultPlan)
        ensures plan { memory_plan self.new ≡ plan }
        ensures device { memory_device self.new ≡ memory_device self.old }
        ensures calls { memory_calls self.new ≡ memory_calls self.old }
        ensures failures { memory_failures self.new ≡ memory_failures self.old }
        ensures past { memory_past self.new ≡ memory_past self.old }
    {
        self.plan = plan;
    }

    /// How many calls were made, those that failed included.
    pub fn calls(&self) -> u64
        ensures { result ≡ memory_calls self.now }
    {
        self.calls
    }

    /// The bytes and open places that it has now.
    pub fn image(&self) -> &Image
        ensures { image_device result.now ≡ memory_device self.now }
    {
        &self.image
    }

    /// The machine crashes: the open places are filled, and stay open.
    pub fn crash(&mut self, fill: &Fill)
        ensures left { MayLeave (memory_device self.old) (memory_device self.new).bytes }
        ensures filled { IsFilled fill.now (memory_device self.old).is_open
            (memory_device self.old).bytes (memory_device self.new).bytes }
        ensures places { (memory_device self.new).is_open ≡ (memory_device self.old).is_open }
        ensures plan { memory_plan self.new ≡ memory_plan self.old }
        ensures calls { memory_calls self.new ≡ memory_calls self.old }
        ensures failures { memory_failures self.new ≡ memory_failures self.old }
        ensures past { memory_past self.new ≡ memory_image self.old ∷ memory_past self.old }
    {
        self.past = self.past.and(slice::from_ref(&self.image));
        self.image.crash(fill);
    }
}

#[tactic(auto, using(crate::proofs::Remembered::elapses_then))]
impl Disk for MemDisk {
    ghost use Rattle.snap_disk.specs.Device.{in_range, part, CountsFailure, Elapses, IsUnchanged, IsTouched, IsSynced};
    ghost use Rattle.snap_disk.specs.Device.{IsUnsynced};
    ghost use Rattle.snap_disk.specs.Fill.{IsFilled};
    ghost use Rattle.snap_devices.specs.MemDisk.{memory_device, memory_plan, memory_calls, memory_failures};
    ghost use Rattle.snap_devices.specs.MemDisk.{memory_clock, memory_left, next_call, next_fill};

    ghost device = { memory_device };

    ghost failure_count = { memory_failures };

    ghost is_honest = { λ _. Unit {0} };

    ghost clock = { memory_clock };

    ghost might_have_left = { memory_left };

    ghost counts_now = { λ m t b h le now. inl (le, now) };

    ghost only_now = { λ m b h left. only_left_now (memory_device m) m.past.items b left };

    fn len(&self) -> u64 {
        self.image.bytes().len() as u64
    }

    fn failures(&self) -> u64 {
        self.failures
    }

    /// It is counted, and fails exactly where that is planned.
    #[tactic(auto, unfolding(snap_disk::specs::Device::part))]
    fn read_at(&mut self, at: u64, buf: &mut [u8]) -> Result<(), DeviceFault>
        requires within { at + length buf.old ≤ length (memory_device self.old).bytes }
        requires headroom { memory_failures self.old < 2 ^ 64 - 1 }
        ensures calls { memory_calls self.new ≡ next_call self.old }
        ensures plan { memory_plan self.new ≡ memory_plan self.old }
        ensures fails { IsErr result ↔ IsSome (next_fill self.old) }
        ensures count { CountsFailure result (memory_failures self.old) (memory_failures self.new) }
        ensures size { length (memory_device self.new).bytes ≡ length (memory_device self.old).bytes }
        ensures clock { memory_clock self.new ≡ memory_clock self.old + 1 }
        ensures time { Elapses (memory_clock self.old) (memory_clock self.new)
            (memory_left self.old) (memory_left self.new) (memory_device self.new) }
        ensures left { IsUnchanged (memory_device self.old) (memory_device self.new) }
        ensures given { OnOk result (buf.new ≡ part at (length buf.old) (memory_device self.old).bytes) }
    {
        self.calls = self.calls.saturating_add(1);
        self.past = self.past.and(slice::from_ref(&self.image));
        if self.plan.fill_at(self.calls).is_some() {
            self.failures += 1;
            return Err(DeviceFault);
        }
        let start = at as usize;
        buf.copy_from_slice(&self.image.bytes()[start..start + buf.len()]);
        Ok(())
    }

    /// It is counted, and fails exactly where that is planned, with that fill.
    fn write_at(&mut self, at: u64, bytes: &[u8]) -> Result<(), DeviceFault>
        requires within { at + length bytes.now ≤ length (memory_device self.old).bytes }
        requires headroom { memory_failures self.old < 2 ^ 64 - 1 }
        ensures calls { memory_calls self.new ≡ next_call self.old }
        ensures plan { memory_plan self.new ≡ memory_plan self.old }
        ensures fails { IsErr result ↔ IsSome (next_fill self.old) }
        ensures filled { IfSome (next_fill self.old) (λ fill. IsFilled fill (in_range at (length bytes.now))
            (memory_device self.old).bytes (memory_device self.new).bytes) }
        ensures count { CountsFailure result (memory_failures self.old) (memory_failures self.new) }
        ensures size { length (memory_device self.new).bytes ≡ length (memory_device self.old).bytes }
        ensures clock { memory_clock self.new ≡ memory_clock self.old + 1 }
        ensures time { Elapses (memory_clock self.old) (memory_clock self.new)
            (memory_left self.old) (memory_left self.new) (memory_device self.new) }
        ensures left { IsTouched at (length bytes.now) (memory_device self.old) (memory_device self.new) }
        ensures stands { OnOk result (part at (length bytes.now) (memory_device self.new).bytes ≡ bytes.now) }
    {
        self.calls = self.calls.saturating_add(1);
        self.past = self.past.and(slice::from_ref(&self.image));
        match self.plan.fill_at(self.calls) {
            Some(fill) => {
                self.image.put_failed(at as usize, bytes.len(), fill);
                self.failures += 1;
                Err(DeviceFault)
            }
            None => {
                self.image.put(at as usize, bytes);
                Ok(())
            }
        }
    }

    /// It is counted, and fails exactly where that is planned, with that fill.
    fn sync(&mut self) -> Result<(), DeviceFault>
        requires { memory_failures self.old < 2 ^ 64 - 1 }
        ensures calls { memory_calls self.new ≡ next_call self.old }
        ensures plan { memory_plan self.new ≡ memory_plan self.old }
        ensures fails { IsErr result ↔ IsSome (next_fill self.old) }
        ensures filled { IfSome (next_fill self.old) (λ fill. IsFilled fill (memory_device self.old).is_open
            (memory_device self.old).bytes (memory_device self.new).bytes) }
        ensures count { CountsFailure result (memory_failures self.old) (memory_failures self.new) }
        ensures size { length (memory_device self.new).bytes ≡ length (memory_device self.old).bytes }
        ensures clock { memory_clock self.new ≡ memory_clock self.old + 1 }
        ensures time { Elapses (memory_clock self.old) (memory_clock self.new)
            (memory_left self.old) (memory_left self.new) (memory_device self.new) }
        ensures synced { OnOk result (IsSynced (memory_device self.old) (memory_device self.new)) }
        ensures unsynced { OnErr result (IsUnsynced (memory_device self.old) (memory_device self.new)) }
    {
        self.calls = self.calls.saturating_add(1);
        self.past = self.past.and(slice::from_ref(&self.image));
        match self.plan.fill_at(self.calls) {
            Some(fill) => {
                self.image.settle_failed(fill);
                self.failures += 1;
                Err(DeviceFault)
            }
            None => {
                self.image.settle();
                Ok(())
            }
        }
    }
}
