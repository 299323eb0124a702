//! The numbers of segments, and the value of each.

/// How many segments there are.
pub const SEGMENTS: usize = 4;

/// A number for each segment.
pub type Numbers = [u64; SEGMENTS];

/// Whether this is the value of this number of the segment. That of 0 is empty.
pub fn is_value_of(segment: usize, number: u64, value: &[u8]) -> bool {
    if number == 0 {
        return value.is_empty();
    }
    value == value_of(segment, number).as_slice()
}

/// The value of each number but 0.
pub fn value_of(segment: usize, number: u64) -> [u8; 9] {
    let s = segment.to_le_bytes();
    let n = number.to_be_bytes();
    [s[0], n[0], n[1], n[2], n[3], n[4], n[5], n[6], n[7]]
}
