//! The metrics as text for Prometheus.
//!
//! No clause states this text: tests_server and tests/test_http.py compare it byte by byte.
ghost use Rattle.std.specs.Prelude.{◌<◌};
ghost use Rattle.snap_service.specs.declared.metrics.snapshot.TheConstants.{BOUNDS};

use crate::facts::{ServerFacts, Usage, name_of};
use crate::metric::Unit::{Microsecond, Millisecond, Nanosecond, Whole};
use crate::metric::{Amount, Escaped, MetricsText};
use snap_disk::Refusal;
use snap_service::{BOUNDS, FIRST_BOUND, HistogramSnapshot, RequestCounts, SegmentSnapshot};
use std::alloc::{AllocError, Global};

/// Makes a text of all metrics, in version 0.0.4 of the text format of Prometheus. Facts that
/// aren't known have no line.
pub(crate) fn metrics_text(
    alloc: Global,
    facts: &ServerFacts,
    usage: &Usage,
) -> Result<String, AllocError> {
    let mut out = MetricsText::new(alloc);
    let reading = &facts.reading;
    put_version(&mut out, "snapd_info", facts.version);
    out.put_single("snapd_uptime_seconds", facts.uptime, Millisecond);
    out.put_single("snapd_resident_memory_bytes", facts.resident, Whole);
    out.put_single("snapd_connections_total", Some(reading.accepted), Whole);
    out.put_single("snapd_connections_open", Some(reading.open), Whole);
    put_requests(&mut out, &reading.requests);
    put_segments(&mut out, facts);
    put_process(&mut out, facts, usage);
    put_names(&mut out, facts.files);
    out.whole()
}

fn put_version(out: &mut MetricsText, name: &str, version: &str) {
    out.put_head(name);
    out.put(&format_args!("{name}{{version=\"{}\"}} 1", Escaped(version)));
}

/// Appends the counts of requests; of refusals also those that are 0.
fn put_requests(out: &mut MetricsText, counts: &RequestCounts) {
    out.put_head("snapd_requests_total");
    for (kind, count) in kinds(counts) {
        out.put(&format_args!("snapd_requests_total{{kind=\"{kind}\"}} {count}"));
    }
    out.put_head("snapd_refusals_total");
    for (place, count) in counts.refusals.iter().enumerate() {
        if let Some(why) = refusal_at(place) {
            let (number, name) = (why.code(), why.name());
            out.put(&format_args!(
                "snapd_refusals_total{{number=\"{number}\",name=\"{name}\"}} {count}"
            ));
        }
    }
    out.put_single("snapd_scan_looks_total", Some(counts.looks), Whole);
    out.put_single("snapd_received_bytes_total", Some(counts.bytes_in), Whole);
    out.put_single("snapd_sent_bytes_total", Some(counts.bytes_out), Whole);
}

/// The number of requests of each kind.
pub(crate) fn kinds(counts: &RequestCounts) -> [(&'static str, u64); 4] {
    [
        ("update", counts.updates),
        ("scan", counts.scans),
        ("part", counts.parts),
        ("status", counts.statuses),
    ]
}

/// The refusal that is counted at this index.
pub(crate) fn refusal_at(place: usize) -> Option<Refusal> {
    let code = u8::try_from(place).ok()?.checked_add(1)?;
    Refusal::of_code(code)
}

fn put_segments(out: &mut MetricsText, facts: &ServerFacts) {
    put_each(out, "snapd_updates_total", facts);
    put_each(out, "snapd_repeats_total", facts);
    let segments = &facts.reading.segments;
    put_times(out, "snapd_store_seconds", segments);
    put_times(out, "snapd_value_wait_seconds", segments);
    put_times(out, "snapd_gate_wait_seconds", segments);
    put_each(out, "snapd_segment_age_seconds", facts);
    put_each(out, "snapd_segment_number", facts);
    put_each(out, "snapd_segment_fenced", facts);
}

/// Appends this number of each segment.
fn put_each(out: &mut MetricsText, name: &str, facts: &ServerFacts) {
    out.put_head(name);
    for segment in 0..facts.reading.segments.len().max(facts.statuses.len()) {
        if let Some(amount) = number(name, facts, segment) {
            out.put(&format_args!("{name}{{segment=\"{segment}\"}} {amount}"));
        }
    }
}

/// This number of one segment, if it is known.
fn number(name: &str, facts: &ServerFacts, segment: usize) -> Option<Amount> {
    if let Some(reading) = facts.reading.segments.get(segment) {
        match name {
            "snapd_updates_total" => return Some(Amount(all(&reading.stores), Whole)),
            "snapd_repeats_total" => return Some(Amount(reading.repeats, Whole)),
            "snapd_segment_age_seconds" => return Some(Amount(facts.age(reading)?, Millisecond)),
            _ => {}
        }
    }
    let status = facts.statuses.get(segment)?;
    match name {
        "snapd_segment_number" => Some(Amount(status.number, Whole)),
        "snapd_segment_fenced" => Some(Amount(u64::from(status.is_fenced), Whole)),
        _ => None,
    }
}

/// The number of times in a histogram.
pub(crate) fn all(times: &HistogramSnapshot) -> u64 {
    let counts = times.counts.iter();
    counts.fold(0, |sum: u64, count| sum.saturating_add(*count))
}

/// The bound of a bucket, in microseconds.
pub(crate) fn bound(place: usize) -> u64
    requires { place < BOUNDS }
{
    FIRST_BOUND << place
}

/// Appends this histogram of each segment.
fn put_times(out: &mut MetricsText, name: &str, segments: &[SegmentSnapshot]) {
    out.put_head(name);
    for (index, segment) in segments.iter().enumerate() {
        let times = match name {
            "snapd_store_seconds" => &segment.stores,
            "snapd_value_wait_seconds" => &segment.first_waits,
            _ => &segment.second_waits,
        };
        put_histogram(out, name, index, times);
    }
}

/// Appends for each bound the number of times up to it, then their sum and their number.
fn put_histogram(out: &mut MetricsText, name: &str, segment: usize, times: &HistogramSnapshot) {
    let mut within: u64 = 0;
    for place in 0..BOUNDS {
        within = within.saturating_add(times.counts[place]);
        let bound = Amount(bound(place), Microsecond);
        out.put(&format_args!("{name}_bucket{{segment=\"{segment}\",le=\"{bound}\"}} {within}"));
    }
    let (count, total) = (all(times), Amount(times.total, Nanosecond));
    out.put(&format_args!("{name}_bucket{{segment=\"{segment}\",le=\"+Inf\"}} {count}"));
    out.put(&format_args!("{name}_sum{{segment=\"{segment}\"}} {total}"));
    out.put(&format_args!("{name}_count{{segment=\"{segment}\"}} {count}"));
}

fn put_process(out: &mut MetricsText, facts: &ServerFacts, usage: &Usage) {
    put_version(out, "snapd_build_info", facts.version);
    out.put_single("snapd_connections_max", Some(usage.most_clients), Whole);
    out.put_single("snapd_log_lost_lines_total", Some(usage.lost_lines), Whole);
    out.put_single("process_start_time_seconds", usage.started, Millisecond);
    out.put_single("process_cpu_seconds_total", usage.processors, Nanosecond);
    out.put_single("process_resident_memory_bytes", facts.resident, Whole);
    out.put_single("process_virtual_memory_bytes", usage.addresses, Whole);
    out.put_single("process_open_fds", usage.descriptors, Whole);
    out.put_single("process_max_fds", usage.most_descriptors, Whole);
}

fn put_names(out: &mut MetricsText, files: &[&str]) {
    out.put_head("snapd_segment_info");
    for (segment, file) in files.iter().enumerate() {
        let name = Escaped(name_of(*file).unwrap_or(""));
        out.put(&format_args!("snapd_segment_info{{segment=\"{segment}\",name=\"{name}\"}} 1"));
    }
}
