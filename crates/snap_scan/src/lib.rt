//! The rule by which a scan of single-writer registers ends, the double collect (Afek et al. 1993),
//! as a state machine that gets the numbers found and says what to do next.
//!
//! A *collect* is one look per segment, in order. Each but the first is compared with the one before it; the two are a
//! *double collect*. If both show the same numbers, the scan is *clean*: the values of the later one are the memory at
//! the moment between them. If not, one more collect follows. If a segment's number has risen by two since the scan's
//! first look there, its last update began after the scan did. That update carries the result of a scan of its own, its
//! view, which may then be *borrowed*. To count from the first look is this project's own rule; the paper counts moves.
//!
//! A comparison fails only if a number has risen since the collect before. Without a borrow each number is at most one
//! above that of the first look, so for n segments at most n comparisons fail. So a scan ends within one collect, n
//! more that fail, and one that does not: [`most_looks`], n(n + 2). Some scans need them all.
//!
//! A scan may read only the segments that a [`SegmentSet`] names. With m of them it reads these
//! alone, in ascending order, by the same rules with m for n. All other segments may change freely.
//! The machine counts places in the set, and [`Scan`] maps a place to its segment.
//!
//! This crate alone has the rule. specs/Looks.antt defines what a list of numbers decides, and specs/Course.antt what
//! callers see of a scan. A scan keeps only its first and its latest looks; the whole list exists in proofs alone.
//!
//! Why the answer is the memory of one moment is a law, [`collect_laws`]: between two collects with equal numbers there
//! is a moment at which each segment had these numbers, and the moment of a borrowed view is within the scan.
//! specs/Collects.antt and specs/Laws.antt are about numbers and entries at moments, not about registers, so they serve
//! both for one history in a list and for registers that threads share.
#![tactic(auto)]

mod laws;
mod limits;
mod machine;
mod next;
mod scan;
mod segment_value;
mod set;

pub use laws::collect_laws;
pub use limits::MAX_SEGMENTS;
pub use machine::most_looks;
pub use next::Next;
pub use scan::Scan;
pub use segment_value::SegmentValue;
pub use set::SegmentSet;
