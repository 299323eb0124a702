//! The replies and facts that a board shows in the tests.
use snap_board::{FactSource, History, ServerFacts, Usage};
use snap_disk::Refusal;
use snap_frame::{Reply, ReplyFeed, Request, SegmentStatus};
use snap_service::{BOUNDS, HistogramSnapshot, MetricsSnapshot, RequestCounts, SegmentSnapshot};
use snap_session::Service;
use std::alloc::{AllocError, Global};
use std::time::Duration;

/// A scan of two segments: number 5 with `hi`, and number 2^63 - 1 with a byte that is no text.
pub(crate) const SCAN: &[u8] = b"\x00\x00\x00\x1d\x82\x02\
    \x00\x00\x00\x00\x00\x00\x00\x05\x00\x00\x00\x02hi\
    \x7f\xff\xff\xff\xff\xff\xff\xff\x00\x00\x00\x01\xff";

/// A status of two segments, at numbers 5 and 7.
pub(crate) const STATUS: &[u8] = b"\x00\x00\x00\x14\x83\x02\
    \x00\x00\x00\x00\x00\x00\x00\x05\x00\
    \x00\x00\x00\x00\x00\x00\x00\x07\x00";

/// A status of two segments, of which the second is fenced.
pub(crate) const FENCED: &[u8] = b"\x00\x00\x00\x14\x83\x02\
    \x00\x00\x00\x00\x00\x00\x00\x05\x00\
    \x00\x00\x00\x00\x00\x00\x00\x07\x01";

/// A status of two fenced segments.
pub(crate) const ALL_FENCED: &[u8] = b"\x00\x00\x00\x14\x83\x02\
    \x00\x00\x00\x00\x00\x00\x00\x05\x01\
    \x00\x00\x00\x00\x00\x00\x00\x07\x01";

/// A refusal because there is no memory.
pub(crate) const REFUSED: &[u8] = b"\x00\x00\x00\x0a\xe0\x08\x00\x00\x00\x00\x00\x00\x00\x00";

/// No reply.
pub(crate) const NOTHING: &[u8] = b"";

/// Gives the replies of these frames.
#[derive(Drop)]
pub(crate) struct Teller {
    pub alloc: Global,
    pub scan: &'static [u8],
    pub status: &'static [u8],
}

/// The reply whose frame this is.
fn reply_of(alloc: Global, frame: &[u8]) -> Option<Reply> {
    let mut feed = ReplyFeed::new(alloc);
    feed.push(frame).ok()?;
    feed.next().ok()?
}

impl Service for Teller {
    type Outcome = ();

    ghost gives = { λ old request reply new. Unit {0} };

    ghost hands_over = { Unit {0} };

    fn answer(&mut self, request: &Request, _key: usize) -> Option<Reply> {
        match request {
            Request::Scan => reply_of(self.alloc, self.scan),
            Request::Status => reply_of(self.alloc, self.status),
            _ => None,
        }
    }

    fn finish(&mut self, _request: &Request, _outcome: ()) -> Reply {
        Reply::Refused {
            why: Refusal::NotNow,
            detail: 0,
        }
    }
}

/// The facts of the server in the tests.
#[derive(Drop)]
pub(crate) struct Around {
    addresses: Vec<String>,
    files: Vec<&'static str>,
    history: History,
}

impl Around {
    pub(crate) fn new(alloc: Global) -> Result<Around, AllocError> {
        let mut addresses = Vec::new(alloc);
        addresses.push(String::from_str(alloc, "127.0.0.1:7")?)?;
        let mut files = Vec::new(alloc);
        files.push("a/b\"c.seg")?;
        let around = Around {
            addresses,
            files,
            history: History::new(alloc),
        };
        around
            .history
            .take(&reading(alloc)?, Duration::from_millis(1_001));
        Ok(around)
    }
}

/// Nothing took any time.
const NEVER: HistogramSnapshot = HistogramSnapshot {
    counts: [0; BOUNDS + 1],
    total: 0,
};

/// So long in all, in nanoseconds: once within the first bound, twice within the second, and three times longer than
/// all.
fn six(total: u64) -> HistogramSnapshot {
    let mut counts = [0; BOUNDS + 1];
    counts[0] = 1;
    counts[1] = 2;
    counts[BOUNDS] = 3;
    HistogramSnapshot { counts, total }
}

/// Refusal k came 99 + k times, but for the fifth, which never came.
fn tally() -> RequestCounts {
    RequestCounts {
        updates: 1,
        scans: 2,
        parts: 3,
        statuses: 4,
        refusals: [
            100, 101, 102, 103, 0, 105, 106, 107, 108, 109, 110, 111, 112, 113, 114, 115, 116,
        ],
        looks: 5,
        bytes_in: 6,
        bytes_out: 7,
    }
}

impl FactSource for Around {
    fn facts<'a>(
        &'a self,
        alloc: Global,
        statuses: &'a [SegmentStatus],
    ) -> Result<ServerFacts<'a>, AllocError> {
        Ok(ServerFacts {
            reading: reading(alloc)?,
            statuses,
            version: "1.2\"3\\",
            addresses: self.addresses.as_slice(),
            files: self.files.as_slice(),
            uptime: Some(61_002),
            time: self.now_millis(),
            resident: Some(4_096),
        })
    }

    fn now_millis(&self) -> Option<u64> {
        Some(2_500)
    }

    fn usage(&self) -> Usage {
        Usage {
            started: Some(1_002),
            processors: Some(1_000_000_003),
            addresses: None,
            descriptors: Some(5),
            most_descriptors: Some(6),
            most_clients: 7,
            lost_lines: 8,
        }
    }

    fn history(&self) -> &History {
        &self.history
    }
}

/// Metrics of which no two are the same.
pub(crate) fn reading(alloc: Global) -> Result<MetricsSnapshot, AllocError> {
    let mut segments = Vec::new(alloc);
    segments.push(SegmentSnapshot {
        stores: six(3_000_000_004),
        first_waits: six(9),
        second_waits: six(10),
        repeats: 8,
        updated: Some(1_000),
    })?;
    segments.push(SegmentSnapshot {
        stores: NEVER,
        first_waits: NEVER,
        second_waits: NEVER,
        repeats: 0,
        updated: None,
    })?;
    Ok(MetricsSnapshot {
        requests: tally(),
        segments,
        accepted: 40,
        open: 41,
    })
}
