//! Scans of the registers that threads share, and updates that carry the result of a scan (Afek et
//! al. 1993). All are wait-free.
//!
//! A scan reads one register after the other, as the machine of `snap_scan` says, until the numbers determine one
//! moment. Then it reads the values from the buffers that its seat still pins: those of the last looks if the scan is
//! clean, or the view of one register if it borrows. The answer is the memory after a list of updates. This list begins
//! with all that the seat had seen before, and with all that was in the history at the first look of the call; and it
//! is a beginning of all that the seat has seen afterwards (specs/Scans.antt).
//!
//! A scan of some segments reads these alone and returns their part of that memory; of a view it takes their entries.
//! The scan inside an update is always one of all segments, so that any scan may borrow it.
//!
//! [`Scanner::scan`] caches what it reads: the last number and value of each segment, shared with its answers. A number
//! has one value, so a value whose number hasn't changed isn't read again. Looks are never cached: each scan makes its
//! own, so it has all that was in the history at its first look.
#![tactic(auto)]

mod looks;
mod scan_cache;
mod scanner;
mod snapshot;
mod update;

pub use looks::scan;
pub use scanner::Scanner;
pub use snap_register::View;
pub use snap_scan::{SegmentSet, SegmentValue};
pub use snapshot::Snapshot;
pub use update::{prepare, show};
