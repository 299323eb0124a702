//! Memory for the numbers and values of all segments, allocated once and filled again and again.
ghost use Rattle.std.specs.Prelude.{◌≡◌, ◌≢◌, ℕ, ◌<◌, List, [], length, slice_get, Some, IfOk, replicate};
ghost use Rattle.snap_history.specs.Limits.{IsShort};
ghost use Rattle.snap_register.specs.{Rule.segments, Seat.looked, Seat.IsValue};

use crate::seats::Looker;
use snap_history::MAX_VALUE_LEN;
use std::alloc::{AllocError, Global};
use std::marker::Model;

/// A number and a value.
#[derive(Drop)]
pub(crate) struct NumberedValue {
    pub(crate) number: u64,
    pub(crate) length: usize,
    pub(crate) bytes: [u8; MAX_VALUE_LEN],
}

impl Model for NumberedValue {
    ghost use Rattle.std.specs.Prelude.{◌≤◌, ℕ, List, take};
    ghost use Rattle.snap_history.specs.declared.limits.TheConstants.{MAX_VALUE_LEN};

    ghost Value = { ℕ × List ℕ };

    ghost view = { λ h. (h.number, take h.length h.bytes) };

    ghost invariant = { λ h. h.length ≤ MAX_VALUE_LEN };
}

impl NumberedValue {
    fn value(&self) -> &[u8]
        ensures value { result.now ≡ self.now.1 }
        ensures size { IsShort result.now }
    {
        &self.bytes[..self.length]
    }

    fn number(&self) -> u64
        ensures { result ≡ self.now.0 }
    {
        self.number
    }

    // Takes this number, and the value that the seat's last look found for segment `j`.
    fn read<L: Looker>(&mut self, seat: &mut L, j: usize, number: u64)
        requires segment { j < segments (L.known seat.old).plan }
        requires looked { looked (L.known seat.old) j ≡ Some number }
        ensures number { self.new.0 ≡ number }
        ensures value { IsValue (L.known seat.old) j self.new.1 }
        ensures same { L.known seat.new ≡ L.known seat.old }
    {
        self.number = number;
        self.length = seat.value(j, &mut self.bytes);
    }
}

/// Room for the number and the value of each segment.
#[derive(Drop)]
pub struct SnapshotBuf {
    pub(crate) segments: Vec<NumberedValue>,
}

impl Model for SnapshotBuf {
    ghost use Rattle.std.specs.Prelude.{ℕ, List};

    ghost Value = { List (ℕ × List ℕ) };

    ghost view = { λ s. s.segments.items };
}

impl SnapshotBuf {
    /// Room for `n` segments, each at number 0 with the empty value. Takes 4,096 bytes per segment.
    pub fn new(alloc: Global, n: usize) -> Result<SnapshotBuf, AllocError>
        ensures size { IfOk result (λ s. length s ≡ n) }
        ensures values { IfOk result (λ s. s ≡ replicate n (0, [])) }
    {
        let mut segments = Vec::new(alloc);
        for _ in 0..n {
            segments.push(NumberedValue {
                number: 0,
                length: 0,
                bytes: [0; MAX_VALUE_LEN],
            })?;
        }
        Ok(SnapshotBuf { segments })
    }

    /// How many segments it has room for.
    pub fn len(&self) -> usize
        ensures { result ≡ length self.now }
    {
        self.segments.len()
    }

    /// The number of segment `i`.
    pub fn number(&self, i: usize) -> u64
        requires { i < length self.now }
        ensures { (x : ℕ × List ℕ) → slice_get self.now i ≡ Some x → result ≡ x.0 }
    {
        self.segments[i].number()
    }

    /// The value of segment `i`.
    pub fn value(&self, i: usize) -> &[u8]
        requires { i < length self.now }
        ensures value { (x : ℕ × List ℕ) → slice_get self.now i ≡ Some x → result.now ≡ x.1 }
        ensures size { IsShort result.now }
    {
        self.segments[i].value()
    }

    /// Copies the value of segment `j` that the seat's last look there found, under `number`.
    pub fn read<L: Looker>(&mut self, seat: &mut L, j: usize, number: u64)
        requires inside { j < length self.old }
        requires segment { j < segments (L.known seat.old).plan }
        requires looked { looked (L.known seat.old) j ≡ Some number }
        ensures size { length self.new ≡ length self.old }
        ensures here { (x : ℕ × List ℕ) × (slice_get self.new j ≡ Some x)
            × (x.0 ≡ number) × IsValue (L.known seat.old) j x.1 }
        ensures others { (i : ℕ) → i ≢ j → slice_get self.new i ≡ slice_get self.old i }
        ensures same { L.known seat.new ≡ L.known seat.old }
    {
        self.segments[j].read(seat, j, number);
    }
}
