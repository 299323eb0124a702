//! The limits of a memory, its values and their numbers.

/// The largest number of segments.
pub const MAX_COUNT: u8 = 16;

/// The largest number of scanners.
pub const MAX_SCANNERS: usize = 16;

/// The length of the longest value in bytes.
pub const MAX_VALUE_LEN: usize = 4080;

/// The largest number of a value, the last below 2^63.
pub const LAST_NUMBER: u64 = (1 << 63) - 1;
