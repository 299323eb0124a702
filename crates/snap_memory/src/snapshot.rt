//! The answer of a scan, in memory that is allocated once and filled again and again.
ghost use Rattle.std.specs.Prelude.{◌≡◌, ℕ, ◌<◌, List, [], length, slice_get, Some, IfOk, replicate};
ghost use Rattle.snap_history.specs.Limits.{IsShort};

use snap_register::SnapshotBuf;
use std::alloc::{AllocError, Global};
use std::marker::Model;

/// The number and the value of each segment, as a scan found them.
#[derive(Drop)]
pub struct Snapshot {
    pub(crate) buf: SnapshotBuf,
}

impl Model for Snapshot {
    ghost use Rattle.std.specs.Prelude.{ℕ, List};

    ghost Value = { List (ℕ × List ℕ) };

    ghost view = { λ s. s.buf };
}

impl Snapshot {
    /// Room for `n` segments, 4,096 bytes each. At first each has number 0 and the empty value.
    pub fn new(alloc: Global, n: usize) -> Result<Snapshot, AllocError>
        ensures size { IfOk result (λ s. length s ≡ n) }
        ensures values { IfOk result (λ s. s ≡ replicate n (0, [])) }
    {
        Ok(Snapshot {
            buf: SnapshotBuf::new(alloc, n)?,
        })
    }

    /// How many segments it has room for.
    pub fn len(&self) -> usize
        ensures { result ≡ length self.now }
    {
        self.buf.len()
    }

    /// The number of segment `i`.
    pub fn number(&self, i: usize) -> u64
        requires { i < length self.now }
        ensures { (x : ℕ × List ℕ) → slice_get self.now i ≡ Some x → result ≡ x.0 }
    {
        self.buf.number(i)
    }

    /// The value of segment `i`.
    pub fn value(&self, i: usize) -> &[u8]
        requires { i < length self.now }
        ensures value { (x : ℕ × List ℕ) → slice_get self.now i ≡ Some x → result.now ≡ x.1 }
        ensures size { IsShort result.now }
    {
        self.buf.value(i)
    }
}
