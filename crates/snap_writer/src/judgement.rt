//! The rules that decide an update.

/// The rule that decides an update: the first that applies, in this order.
#[derive(Clone, Copy, Drop, PartialEq, Eq)]
pub enum Judgement {
    /// The value is longer than a segment can hold.
    TooLong,
    /// The number and value are those shown last.
    Stored,
    /// The number was shown last, with another value.
    Conflict,
    /// The number is neither the last one shown nor the next.
    OutOfStep,
    /// There is no next number.
    Exhausted,
    /// A store has failed, so a crash may leave either of two values.
    Fenced,
    /// Too few looks are left for the scan inside an update.
    Worn,
    /// None of these: the update is scanned, stored and shown.
    Go,
}
