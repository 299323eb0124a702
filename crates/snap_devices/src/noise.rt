//! A device of random bytes, for tests of what a call does on any bytes.
ghost use Rattle.std.specs.Prelude.{◌≡◌, ℕ, ◌+◌, ◌%◌, ◌^◌, ◌<◌, ◌≤◌, length, slice_index, Ok};
ghost use Rattle.snap_devices.specs.Noise.{noise_byte};

use crate::GhostLog;
use snap_disk::{DeviceFault, Disk};

/// A device of fixed length whose reads return bytes drawn from a seed, other ones each time. Writes to it are lost. No
/// call of it fails, and it isn't honest: a disk of which nothing is known.
#[derive(Drop)]
pub struct Noise {
    len: u64,
    drawn: u64,
    calls: GhostLog<u64>,
}

impl Noise {
    ghost use Rattle.snap_devices.specs.Noise.{noise_drawn, noise_len};

    /// A device of `len` bytes.
    pub fn new(len: u64, seed: u64) -> Noise
        ensures len { noise_len result ≡ len }
        ensures seed { noise_drawn result ≡ seed }
    {
        Noise {
            len,
            drawn: seed,
            calls: GhostLog::new(),
        }
    }
}

/// The byte that is drawn at this place of the sequence: a middle byte of a square.
fn draw(place: u64) -> u8
    ensures { result ≡ noise_byte place }
{
    let root = place
        .wrapping_mul(0x5851_F42D_4C95_7F2D)
        .wrapping_add(0x1405_7B7E_F767_814F);
    (root.wrapping_mul(root) >> 32 & 0xFF) as u8
}

impl Disk for Noise {
    ghost use Rattle.snap_disk.specs.Device.{CountsFailure, MayLeave};
    ghost use Rattle.snap_devices.specs.Noise.{noise_device, noise_drawn, noise_byte, noise_clock};

    ghost device = { noise_device };

    ghost failure_count = { λ _. 0 };

    ghost is_honest = { λ _. ⊥ };

    ghost clock = { noise_clock };

    ghost might_have_left = { λ n t b. MayLeave (noise_device n) b };

    ghost counts_now = { λ n t b h le now. now };

    ghost only_now = { λ n b h left. left };

    fn len(&self) -> u64 {
        self.len
    }

    fn failures(&self) -> u64 {
        0
    }

    /// It gives the next bytes of the sequence.
    fn read_at(&mut self, at: u64, buf: &mut [u8]) -> Result<(), DeviceFault>
        requires within { at + length buf.old ≤ length (noise_device self.old).bytes }
        ensures never_fails { result ≡ Ok tt }
        ensures count { CountsFailure result 0 0 }
        ensures size { length (noise_device self.new).bytes ≡ length (noise_device self.old).bytes }
        ensures clock { noise_clock self.new ≡ noise_clock self.old + 1 }
        ensures drawn { (i : ℕ) → i < length buf.old
            → slice_index buf.new i ≡ noise_byte ((noise_drawn self.old + i) % 2 ^ 64) }
        ensures next { noise_drawn self.new ≡ (noise_drawn self.old + length buf.old) % 2 ^ 64 }
    {
        for k in 0..buf.len() {
            buf[k] = draw(self.drawn.wrapping_add(k as u64));
        }
        self.drawn = self.drawn.wrapping_add(buf.len() as u64);
        self.calls = self.calls.and(&[at]);
        Ok(())
    }

    fn write_at(&mut self, at: u64, _bytes: &[u8]) -> Result<(), DeviceFault> {
        self.calls = self.calls.and(&[at]);
        Ok(())
    }

    fn sync(&mut self) -> Result<(), DeviceFault> {
        self.calls = self.calls.and(&[0]);
        Ok(())
    }
}
