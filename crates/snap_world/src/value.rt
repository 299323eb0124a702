//! A value in a buffer of fixed size, so that copying one takes no memory.
ghost use Rattle.std.specs.Prelude.{◌≡◌, []};
ghost use Rattle.snap_history.specs.Limits.{IsShort};

use snap_history::MAX_VALUE_LEN;
use std::marker::Model;

/// A value: a list of at most 4,080 bytes.
#[derive(Drop)]
pub struct Value {
    bytes: [u8; MAX_VALUE_LEN],
    len: usize,
}

impl Model for Value {
    ghost use Rattle.std.specs.Prelude.{ℕ, ◌≤◌, List, take};
    ghost use Rattle.snap_history.specs.declared.limits.TheConstants.{MAX_VALUE_LEN};

    ghost Value = { List ℕ };

    ghost view = { λ v. take v.len v.bytes };

    ghost invariant = { λ v. v.len ≤ MAX_VALUE_LEN };
}

impl Value {
    /// The empty value.
    pub fn new() -> Value
        ensures { result ≡ [] }
    {
        Value {
            bytes: [0; MAX_VALUE_LEN],
            len: 0,
        }
    }

    /// Sets the value to these bytes.
    pub fn set(&mut self, bytes: &[u8])
        requires { IsShort bytes.now }
        ensures { self.new ≡ bytes.now }
    {
        self.bytes[..bytes.len()].copy_from_slice(bytes);
        self.len = bytes.len();
    }

    /// The bytes.
    pub fn as_slice(&self) -> &[u8]
        ensures bytes { result.now ≡ self.now }
        ensures short { IsShort result.now }
    {
        &self.bytes[..self.len]
    }
}
