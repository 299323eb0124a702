//! Answers requests on the shared memory: updates by the segments' writers, scans and statuses. Begin with the relation
//! `Answers` (specs/Answers.antt), with `Desk` (desk.rt), a worker's service, and with `Storer` (storer.rt), the thread
//! that stores for it.
//!
//! `Answers` says how a service may answer, by what its scanner has seen before and after. The reply to an update is
//! its writer's result ([`settle`]); a scan is the memory at one moment that the scanner sees ([`answer_scan`]). Desks
//! and nodes keep it alike; only the path of an update differs.
//!
//! [`Desk`] is the service of `snapd`. For a worker with one connection it stores itself; else it sends each update to
//! its segment's storer thread ([`Storer`]), and answers it once the outcome has arrived. The storer lends its writer
//! with the outcome ([`Outcome`]), and the desk's scanner meets the writer before the next update of the segment, so
//! the reply fits what the scanner has seen. Dropping the outcome puts the writer back, whether it was used or not.
//!
//! [`Node`] is a service whose writers are under locks, one for each segment. It is for a server inside another
//! program, as in tests and benchmarks.
//!
//! What a server counts of all this is in [`Metrics`] (metrics.rt).
#![tactic(auto)]

mod desk;
mod heap_writer;
mod job;
mod locked_writer;
mod memory;
mod metrics;
mod node;
mod outbox;
mod read_only_service;
mod reads;
mod settlement;
mod shared;
mod storer;
mod writer_lease;
mod writer_slot;

pub use desk::{Desk, answer_outcome};
pub use heap_writer::HeapWriter;
pub use job::Job;
pub use memory::Memory;
pub use metrics::{
    BOUNDS, Counter, CountingObserver, CountingService, FIRST_BOUND, FailureObserver, Histogram,
    HistogramSnapshot, Looking, Metrics, MetricsSnapshot, REFUSALS, RequestCounts, SegmentMetrics,
    SegmentSnapshot, TimedDisk, WorkerMetrics, milliseconds_of, place_of, time_all,
};
pub use node::Node;
pub use outbox::{NoUpdateObserver, StorerHandle, UpdateObserver};
pub use read_only_service::ReadOnlyService;
pub use reads::{answer_part, answer_scan};
pub use settlement::{answer_by_look, refuse_place, settle};
pub use shared::Shared;
pub use storer::Storer;
pub use writer_lease::{Outcome, WriterLease, store_one};
