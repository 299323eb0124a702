//! The history of the last three minutes.

use crate::document::Document;
use snap_service::{BOUNDS, Metrics, MetricsSnapshot};
use std::alloc::{AllocError, Global};
use std::sync::atomic::{AtomicU64, Ordering};
use std::time::{Duration, Instant};

/// The number of samples that are kept: one for each second of three minutes, and the one before them.
const SAMPLES: u64 = 181;

/// The counts from the server's start up to one moment.
#[derive(Default, Drop)]
struct Sample {
    /// The time since the server's start, in milliseconds.
    uptime: AtomicU64,
    scans: AtomicU64,
    /// The histogram of the stores of all segments, as in a [`HistogramSnapshot`](snap_service::HistogramSnapshot).
    stores: [AtomicU64; BOUNDS + 1],
}

/// Samples of a server's metrics in the last three minutes, about one a second. One thread takes
/// them, and any thread reads them without a lock.
#[derive(Drop)]
pub struct History {
    samples: Vec<Sample>,
    /// The number of samples that were taken since the start.
    taken: AtomicU64,
}

/// What fills a history: a server's metrics, and the time of its start, `None` if the clock couldn't be read.
#[derive(Clone, Copy)]
pub struct Sampler<'a> {
    pub alloc: Global,
    pub metrics: &'a Metrics,
    pub began: Option<Instant>,
    pub history: &'a History,
}

impl Sampler<'_> {
    /// Takes a sample of the metrics at `now`, or none if memory runs out or the time of the start isn't known.
    pub(crate) fn sample(&self, now: Instant) {
        if let (Some(began), Ok(reading)) = (self.began, self.metrics.read(self.alloc)) {
            self.history.take(&reading, now.duration_since(began));
        }
    }
}

impl History {
    /// An empty history. If memory for the samples runs out, no sample is ever kept.
    pub fn new(alloc: Global) -> History {
        let samples = (0..SAMPLES).map(|_| Sample::default()).collect(alloc);
        History {
            samples: samples.unwrap_or(Vec::new(alloc)),
            taken: AtomicU64::default(),
        }
    }

    /// Takes a sample at `uptime`, the time since the server's start. It replaces the oldest one if there are 181.
    pub fn take(&self, reading: &MetricsSnapshot, uptime: Duration) {
        let taken = self.taken.load(Ordering::SeqCst);
        let Some(sample) = self.samples.get((taken % SAMPLES) as usize) else {
            return;
        };
        let requests = &reading.requests;
        let scans = requests.scans.saturating_add(requests.parts);
        let milliseconds = u64::try_from(uptime.as_millis()).unwrap_or(u64::MAX);
        sample.uptime.store(milliseconds, Ordering::SeqCst);
        sample.scans.store(scans, Ordering::SeqCst);
        for (place, count) in sample.stores.iter().enumerate() {
            let mut sum = 0u64;
            for segment in &reading.segments {
                sum = sum.saturating_add(segment.stores.counts[place]);
            }
            count.store(sum, Ordering::SeqCst);
        }
        self.taken.store(taken.saturating_add(1), Ordering::SeqCst);
    }

    /// Makes a JSON document of the samples, on one line, the oldest first.
    pub fn document(&self, alloc: Global) -> Result<Vec<u8>, AllocError> {
        let mut document = Document::new(alloc);
        document.begin_object();
        document.begin_list("samples");
        let taken = self.taken.load(Ordering::SeqCst);
        for number in taken.saturating_sub(SAMPLES)..taken {
            if let Some(sample) = self.samples.get((number % SAMPLES) as usize) {
                put_sample(&mut document, sample);
            }
        }
        document.end_list();
        document.end_object();
        document.line()
    }
}

fn put_sample(document: &mut Document, sample: &Sample) {
    document.begin_object();
    document.put_number(
        "uptime_milliseconds",
        Some(sample.uptime.load(Ordering::SeqCst)),
    );
    document.put_number("scans", Some(sample.scans.load(Ordering::SeqCst)));
    document.begin_list("store_counts");
    for count in &sample.stores {
        document.number(count.load(Ordering::SeqCst));
    }
    document.end_list();
    document.end_object();
}
