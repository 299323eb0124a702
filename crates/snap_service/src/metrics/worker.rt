//! The metrics of one worker: the requests that it answered, and the counters by which others read them.
ghost use Rattle.std.specs.Prelude.{◌≡◌, ◌-◌};
ghost use Rattle.snap_disk.specs.Refusal.{code_of};
ghost use Rattle.snap_service.specs.metrics.Numbers.{raised_at, raised_each};
ghost use Rattle.snap_frame.specs.Messages.{IsInLimits};

use crate::metrics::counter::{Counter, read_each};
use crate::metrics::snapshot::REFUSALS;
use snap_disk::Refusal;
use snap_frame::{Reply, Request, reply_frame_len, request_frame_len};

/// Counts of the requests that one worker, or all workers together, answered. Each number stops at 2^64 - 1.
#[derive(Clone, Copy, PartialEq, Eq)]
pub struct RequestCounts {
    /// Updates that were answered, with a number or with a refusal.
    pub updates: u64,
    /// Scans of all segments.
    pub scans: u64,
    /// Scans of some segments.
    pub parts: u64,
    /// Status requests.
    pub statuses: u64,
    /// Refused requests, by the number of the refusal: number 1 is at index 0.
    ///
    /// A worker's published counts include the frames that its sessions refused without the
    /// service: those that are no request or are too large.
    pub refusals: [u64; REFUSALS],
    /// Looks at registers that scans took, of all segments or of some.
    pub looks: u64,
    /// The bytes of the frames of all requests that were answered.
    pub bytes_in: u64,
    /// The bytes of the frames of all replies.
    pub bytes_out: u64,
}

/// Adds each of `others` to the number at its index.
fn merge_numbers(numbers: &mut [u64; REFUSALS], others: &[u64; REFUSALS])
    ensures { numbers.new ≡ raised_each numbers.old others.now }
{
    for place in 0..REFUSALS {
        numbers[place] = numbers[place].saturating_add(others[place]);
    }
}

impl RequestCounts {
    ghost use Rattle.snap_service.specs.metrics.Tallies.{nothing, counted, together};

    /// Counts with each number at 0.
    pub fn new() -> RequestCounts
        ensures { result ≡ nothing }
    {
        RequestCounts {
            updates: 0,
            scans: 0,
            parts: 0,
            statuses: 0,
            refusals: [0; REFUSALS],
            looks: 0,
            bytes_in: 0,
            bytes_out: 0,
        }
    }

    /// Counts an answered request: its kind, its refusal if it was refused, its looks, and the
    /// bytes of both frames. No other number changes.
    ///
    /// The reply's numbers, lengths and counts are within the limits of replies.
    pub fn count(&mut self, request: &Request, reply: &Reply, looks: u64)
        requires limits { IsInLimits reply.now }
        ensures { self.new ≡ counted self.old request.now reply.now looks }
    {
        match request {
            Request::Update { .. } => self.updates = self.updates.saturating_add(1),
            Request::Scan => self.scans = self.scans.saturating_add(1),
            Request::Status => self.statuses = self.statuses.saturating_add(1),
            Request::Part(_) => self.parts = self.parts.saturating_add(1),
        }
        if let Reply::Refused { why, .. } = reply {
            let place = usize::from(why.code()) - 1;
            self.refusals[place] = self.refusals[place].saturating_add(1);
        }
        self.looks = self.looks.saturating_add(looks);
        self.bytes_in = self
            .bytes_in
            .saturating_add(request_frame_len(request) as u64);
        self.bytes_out = self.bytes_out.saturating_add(reply_frame_len(reply) as u64);
    }

    /// Adds `other` to these counts.
    pub fn merge(&mut self, other: &RequestCounts)
        ensures { self.new ≡ together self.old other.now }
    {
        self.updates = self.updates.saturating_add(other.updates);
        self.scans = self.scans.saturating_add(other.scans);
        self.parts = self.parts.saturating_add(other.parts);
        self.statuses = self.statuses.saturating_add(other.statuses);
        merge_numbers(&mut self.refusals, &other.refusals);
        self.looks = self.looks.saturating_add(other.looks);
        self.bytes_in = self.bytes_in.saturating_add(other.bytes_in);
        self.bytes_out = self.bytes_out.saturating_add(other.bytes_out);
    }
}

/// Padding that fills a line of a processor's cache, which has 64 bytes.
#[derive(Clone, Copy, Default)]
struct CacheLine {
    _words: [u64; 8],
}

/// The metrics of one worker, which only that worker writes and any thread reads without a lock. Each begins at 0.
#[derive(Default, Drop)]
pub struct WorkerMetrics {
    updates: Counter,
    scans: Counter,
    parts: Counter,
    statuses: Counter,
    refusals: [Counter; REFUSALS],
    looks: Counter,
    bytes_in: Counter,
    bytes_out: Counter,
    // Keeps the counts of two neighbouring workers out of one cache line.
    _gap: CacheLine,
}

impl WorkerMetrics {
    /// Publishes the counts `now`; `before` are those that were published last. Writes only the numbers that differ.
    pub fn follow(&self, before: &RequestCounts, now: &RequestCounts) {
        self.updates.add(now.updates.saturating_sub(before.updates));
        self.scans.add(now.scans.saturating_sub(before.scans));
        self.parts.add(now.parts.saturating_sub(before.parts));
        self.statuses
            .add(now.statuses.saturating_sub(before.statuses));
        for (place, refusals) in self.refusals.iter().enumerate() {
            refusals.add(now.refusals[place].saturating_sub(before.refusals[place]));
        }
        self.looks.add(now.looks.saturating_sub(before.looks));
        self.bytes_in
            .add(now.bytes_in.saturating_sub(before.bytes_in));
        self.bytes_out
            .add(now.bytes_out.saturating_sub(before.bytes_out));
    }

    /// Counts a frame that a session refused without the service.
    pub fn refuse(&self, why: Refusal) {
        self.refusals[usize::from(why.code()) - 1].add(1);
    }

    /// Reads the published counts, with the frames that sessions refused, each number as it was at
    /// some moment of this call.
    pub fn read(&self) -> RequestCounts {
        RequestCounts {
            updates: self.updates.get(),
            scans: self.scans.get(),
            parts: self.parts.get(),
            statuses: self.statuses.get(),
            refusals: read_each(&self.refusals),
            looks: self.looks.get(),
            bytes_in: self.bytes_in.get(),
            bytes_out: self.bytes_out.get(),
        }
    }
}
