/// Where the view of an update is: the memory found by the scan inside it.
/// [`WriteSeat::publish`](crate::WriteSeat::publish) copies it out of the buffers that the seat
/// pins; it isn't copied before.
#[derive(Clone, Copy, PartialEq, Eq)]
pub enum View {
    /// In the records of the last looks, one at each segment: the scan was clean.
    Collected,
    /// In the record that the last look found for this segment, as its view: the scan borrowed it.
    Borrowed(usize),
}
