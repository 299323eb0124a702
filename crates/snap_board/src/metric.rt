//! The metrics for Prometheus, and the lines of one in its text format.

use std::alloc::{AllocError, Global};
use std::fmt::{self, Display};

/// Each metric: its name, its kind and a line of help.
const METRICS: &str = "\
snapd_info gauge The version of the program.
snapd_uptime_seconds gauge How long the server has run.
snapd_resident_memory_bytes gauge Memory of the machine that the process takes.
snapd_connections_total counter Connections that were accepted.
snapd_connections_open gauge Connections that are open.
snapd_requests_total counter Requests that were answered, also with a refusal.
snapd_refusals_total counter Requests that were refused.
snapd_scan_looks_total counter Looks at registers that scans took.
snapd_received_bytes_total counter Bytes of the frames of requests.
snapd_sent_bytes_total counter Bytes of the frames of replies.
snapd_updates_total counter Updates that were stored.
snapd_repeats_total counter Updates that the segment held already.
snapd_store_seconds histogram How long stores took.
snapd_value_wait_seconds histogram How long stores waited for the device, for the value.
snapd_gate_wait_seconds histogram How long stores waited for the device, for the gate.
snapd_segment_age_seconds gauge Time since the last update that was stored since the start.
snapd_segment_number gauge The number that the segment holds.
snapd_segment_fenced gauge Whether the segment takes no update until a restart.
snapd_build_info gauge The version of the program, always 1.
snapd_connections_max gauge Connections that may be open.
snapd_log_lost_lines_total counter Lines of the log that were lost.
process_start_time_seconds gauge When the process was started, since 1970.
process_cpu_seconds_total counter Time of processors that the process took.
process_resident_memory_bytes gauge Memory of the machine that the process takes.
process_virtual_memory_bytes gauge Addresses of memory that the process has.
process_open_fds gauge Descriptors that are open.
process_max_fds gauge Descriptors that may be open.
snapd_segment_info gauge The name of the segment, which is its file's, always 1.
";

/// A text of metrics. If memory for a line runs out, there is no text in the end.
#[derive(Drop)]
pub(crate) struct MetricsText {
    text: String,
    /// Whether memory was enough so far.
    is_whole: bool,
}

impl MetricsText {
    pub(crate) fn new(alloc: Global) -> MetricsText {
        MetricsText {
            text: String::new(alloc),
            is_whole: true,
        }
    }

    /// Appends a line.
    pub(crate) fn put<T: Display>(&mut self, line: &T) {
        self.is_whole &= writeln!(self.text, "{line}").is_ok();
    }

    /// Appends the head of a metric: the two lines before its samples.
    pub(crate) fn put_head(&mut self, name: &str) {
        for metric in METRICS.lines() {
            if let Some((own, words)) = metric.split_once(' ') {
                if own == name {
                    let (kind, help) = words.split_once(' ').unwrap_or(("", ""));
                    return self.put(&format_args!("# HELP {name} {help}\n# TYPE {name} {kind}"));
                }
            }
        }
    }

    /// Appends a number of the whole server that is known, with its head.
    pub(crate) fn put_single(&mut self, name: &str, count: Option<u64>, unit: Unit) {
        if let Some(count) = count {
            self.put_head(name);
            self.put(&format_args!("{name} {}", Amount(count, unit)));
        }
    }

    /// The text. The error is that memory ran out.
    pub(crate) fn whole(self) -> Result<String, AllocError> {
        let MetricsText { text, is_whole } = self;
        if is_whole { Ok(text) } else { Err(AllocError) }
    }
}

/// The unit of a number: one, or a fraction of a second.
#[derive(Clone, Copy)]
pub(crate) enum Unit {
    Whole,
    Millisecond,
    Microsecond,
    Nanosecond,
}

/// A number of units.
#[derive(Clone, Copy)]
pub(crate) struct Amount(pub u64, pub Unit);

/// Prints the number in ones or in seconds, as a decimal fraction such as `0.000016`.
impl fmt::Display for Amount {
    fn fmt<W: fmt::Write>(&self, f: &mut fmt::Formatter<W>) -> fmt::Result {
        let Amount(count, unit) = *self;
        let (part, digits) = match unit {
            Unit::Whole => return write!(f, "{count}"),
            Unit::Millisecond => (1_000, 3),
            Unit::Microsecond => (1_000_000, 6),
            Unit::Nanosecond => (1_000_000_000, 9),
        };
        write!(f, "{}.{:0digits$}", count / part, count % part)
    }
}

/// A text as it is written in a label: with a backslash before each backslash and quote, and with `\n` for a line feed.
#[derive(Clone, Copy)]
pub(crate) struct Escaped<'a>(pub &'a str);

impl fmt::Display for Escaped<'_> {
    fn fmt<W: fmt::Write>(&self, f: &mut fmt::Formatter<W>) -> fmt::Result {
        for c in self.0.chars() {
            match c {
                '\n' => write!(f, "\\n"),
                '\\' | '"' => write!(f, "\\{c}"),
                _ => write!(f, "{c}"),
            }?;
        }
        Ok(())
    }
}
