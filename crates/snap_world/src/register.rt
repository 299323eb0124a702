//! The register of a segment, which its writer alone changes.
use crate::value::Value;

/// The last update that a segment's writer has shown: the value, how many updates it has shown, and
/// the answer of the scan that was embedded in the last of them.
///
/// A restart sets the number and the value, and leaves the view from before the crash: it is never
/// used, since no scan borrows from a segment before it has shown two more updates.
#[derive(Drop)]
pub struct Register {
    pub number: u64,
    pub value: Value,
    pub view: Vec<Value>,
}
