//! Big-endian numbers at the front of bytes.
ghost use Rattle.std.specs.Prelude.{◌≡◌, ◌≤◌, ◌++◌, length, drop};
ghost use Rattle.std.specs.Int.{w16, w32, w64, to_be_bytes};

use byteorder::{BigEndian, ByteOrder};

pub(crate) fn first_u64(bytes: &[u8]) -> u64
    requires { 8 ≤ length bytes.now }
    ensures { bytes.now ≡ to_be_bytes w64 result ++ drop 8 bytes.now }
{
    BigEndian::read_u64(bytes)
}

pub(crate) fn first_u32(bytes: &[u8]) -> u32
    requires { 4 ≤ length bytes.now }
    ensures { bytes.now ≡ to_be_bytes w32 result ++ drop 4 bytes.now }
{
    BigEndian::read_u32(bytes)
}

pub(crate) fn first_u16(bytes: &[u8]) -> u16
    requires { 2 ≤ length bytes.now }
    ensures { bytes.now ≡ to_be_bytes w16 result ++ drop 2 bytes.now }
{
    BigEndian::read_u16(bytes)
}
