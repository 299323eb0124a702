//! The next step of a scan.

/// The next step of a scan. Segments are counted from 0.
#[derive(Clone, Copy, Debug, Drop, PartialEq, Eq)]
pub enum Next {
    /// Look at this segment, and call [`Scan::told`](crate::Scan::told) with its number.
    Look(usize),
    /// The answer is the values of the last collect, which found the same numbers as the one before.
    Clean,
    /// The answer is the view in this segment's register, whose number has risen by two.
    Borrow(usize),
}
