//! One poll of a server: the segments that are watched, and the rows that it returns.
ghost use Rattle.std.specs.Prelude.{◌≡◌, ◌↔◌, ◌<◌, ℕ, All, Contains, IfSome, IsNone, []};
ghost use Rattle.snap_frame.specs.Sets.{Names};

use bytes::Bytes;
use snap_client::{Client, ClientFault};
use snap_frame::{Reply, SegmentSet, SegmentStatus};
use snap_order::Refusal;
use std::alloc::{AllocError, Global};
use std::io::{Read, Write};

/// One segment on a board.
#[derive(Drop)]
pub struct Row {
    /// The segment's index.
    pub segment: usize,
    /// The segment's number.
    pub number: u64,
    /// Whether the segment is fenced: it takes no new update until the server's next start.
    pub is_fenced: bool,
    /// The value of that number.
    pub value: Bytes,
}

/// The set of these segments, each less than 16. `None` if there are none, which means all segments of the server.
pub fn set_of(segments: &[u8]) -> Option<SegmentSet>
    requires below { All (λ s. s < 16) segments.now }
    ensures none { IsNone result ↔ (segments.now ≡ []) }
    ensures some { IfSome result (λ set. 0 < set.bits) }
    ensures names { IfSome result (λ set. (k : ℕ) → (Names set.bits k ↔ Contains segments.now k)) }
{
    if segments.is_empty() {
        return None;
    }
    let mut bits = 0u16;
    for segment in segments {
        bits |= 1u16 << *segment;
    }
    Some(SegmentSet { bits })
}

/// The reason why a poll returned no rows.
#[derive(Clone, Copy)]
pub enum WatchFault {
    /// The server refused a request.
    Refused { why: Refusal, detail: u64 },
    /// The server gave no valid answer, and the connection can't be used again; or memory ran out.
    Lost(ClientFault),
}

impl WatchFault {
    /// Why there are no rows in this reply.
    fn of(reply: Reply) -> WatchFault {
        match reply {
            Reply::Refused { why, detail } => WatchFault::Refused { why, detail },
            _ => WatchFault::Lost(ClientFault::BadReply),
        }
    }
}

impl From<ClientFault> for WatchFault {
    fn from(fault: ClientFault) -> WatchFault {
        WatchFault::Lost(fault)
    }
}

impl From<AllocError> for WatchFault {
    fn from(_error: AllocError) -> WatchFault {
        WatchFault::Lost(ClientFault::NoMemory)
    }
}

/// Polls a server on its connection, and returns the rows of the watched segments in order: of all
/// segments if `watched` is `None`. `shown` are the rows that the last poll returned, or none.
///
/// It asks for the numbers and fences, and for the values only if some number differs from the one in `shown`. Then all
/// numbers and values are of one moment, and the fences are of the moment before. After [`WatchFault::Lost`] the client
/// can't be used again, except if memory ran out after its answer.
pub fn look<R: Read, W: Write>(
    alloc: Global,
    client: &mut Client<R, W>,
    watched: Option<SegmentSet>,
    shown: &[Row],
) -> Result<Vec<Row>, WatchFault>
    requires { IfSome watched (λ set. 0 < set.bits) }
{
    let statuses = match client.status()? {
        Reply::Status(statuses) => statuses,
        reply => return Err(WatchFault::of(reply)),
    };
    let mut rows = Vec::new(alloc);
    if is_settled(watched, shown, &statuses) {
        for row in shown {
            put_row(&mut rows, &statuses, row.segment, row.number, &row.value)?;
        }
        return Ok(rows);
    }
    let reply = match watched {
        Some(set) => client.scan_some(set)?,
        None => client.scan()?,
    };
    match reply {
        Reply::Snapshot(values) => {
            for (segment, value) in values.iter().enumerate() {
                put_row(&mut rows, &statuses, segment, value.number, &value.value)?;
            }
        }
        Reply::Part(values) => {
            for value in &values {
                let segment = usize::from(value.segment);
                put_row(&mut rows, &statuses, segment, value.number, &value.value)?;
            }
        }
        reply => return Err(WatchFault::of(reply)),
    }
    Ok(rows)
}

/// Whether no number has changed: every watched segment has a row, with the number in `statuses`.
fn is_settled(watched: Option<SegmentSet>, shown: &[Row], statuses: &[SegmentStatus]) -> bool {
    let count = watched.map_or(statuses.len(), |set| set.len());
    shown.len() == count
        && shown.iter().all(|row| match statuses.get(row.segment) {
            Some(status) => status.number == row.number,
            None => false,
        })
}

/// Appends the row of a segment, with its fence in `statuses`.
fn put_row(
    rows: &mut Vec<Row>,
    statuses: &[SegmentStatus],
    segment: usize,
    number: u64,
    value: &Bytes,
) -> Result<(), AllocError> {
    let is_fenced = statuses.get(segment).is_some_and(|status| status.is_fenced);
    rows.push(Row {
        segment,
        number,
        is_fenced,
        value: value.clone()?,
    })?;
    Ok(())
}
