//! The metrics as a JSON document, for programs and for the page.
//!
//! No clause states this text: tests_server and tests/test_http.py compare it byte by byte.

use crate::document::Document;
use crate::facts::{ServerFacts, name_of};
use crate::metrics::{all, bound, kinds, refusal_at};
use snap_service::{BOUNDS, HistogramSnapshot, RequestCounts, SegmentSnapshot};
use std::alloc::{AllocError, Global};

/// Makes one JSON document, on one line, of all metrics and facts. Facts that aren't known are `null`.
///
/// A histogram has, for each bound, the number of times up to it and above the bound before; last,
/// the number of times above all bounds.
pub(crate) fn figures_document(alloc: Global, facts: &ServerFacts) -> Result<Vec<u8>, AllocError> {
    let mut out = Document::new(alloc);
    out.begin_object();
    put_server(&mut out, facts);
    put_requests(&mut out, &facts.reading.requests);
    out.begin_list("bounds_microseconds");
    for place in 0..BOUNDS {
        out.number(bound(place));
    }
    out.end_list();
    out.begin_list("segments");
    for (index, segment) in facts.reading.segments.iter().enumerate() {
        put_segment(&mut out, facts, index, segment);
    }
    out.end_list();
    out.end_object();
    out.line()
}

fn put_server(out: &mut Document, facts: &ServerFacts) {
    out.put_text("version", Some(facts.version));
    out.put_number("uptime_milliseconds", facts.uptime);
    out.put_number("now_milliseconds", facts.time);
    out.put_number("resident_bytes", facts.resident);
    out.begin_list("addresses");
    for address in facts.addresses {
        out.text(address.as_str());
    }
    out.end_list();
    let reading = &facts.reading;
    out.key("connections");
    out.begin_object();
    out.put_number("total", Some(reading.accepted));
    out.put_number("open", Some(reading.open));
    out.end_object();
}

fn put_requests(out: &mut Document, counts: &RequestCounts) {
    out.key("requests");
    out.begin_object();
    for (kind, count) in kinds(counts) {
        out.put_number(kind, Some(count));
    }
    out.end_object();
    out.put_number("scan_looks", Some(counts.looks));
    out.put_number("received_bytes", Some(counts.bytes_in));
    out.put_number("sent_bytes", Some(counts.bytes_out));
    out.begin_list("refusals");
    for (place, count) in counts.refusals.iter().enumerate() {
        if let Some(why) = refusal_at(place) {
            out.begin_object();
            out.put_number("number", Some(u64::from(why.code())));
            out.put_text("name", Some(why.name()));
            out.put_number("count", Some(*count));
            out.end_object();
        }
    }
    out.end_list();
}

fn put_segment(out: &mut Document, facts: &ServerFacts, index: usize, segment: &SegmentSnapshot) {
    let file = facts.files.get(index).copied();
    out.begin_object();
    out.put_number("segment", Some(index as u64));
    out.put_text("file", file);
    out.put_text("name", file.and_then(name_of));
    if let Some(status) = facts.statuses.get(index) {
        out.put_number("number", Some(status.number));
        out.put_boolean("fenced", status.is_fenced);
    }
    out.put_number("updates", Some(all(&segment.stores)));
    out.put_number("repeats", Some(segment.repeats));
    out.put_number("age_milliseconds", facts.age(segment));
    put_times(out, "store", &segment.stores);
    put_times(out, "value_wait", &segment.first_waits);
    put_times(out, "gate_wait", &segment.second_waits);
    out.end_object();
}

fn put_times(out: &mut Document, name: &str, times: &HistogramSnapshot) {
    out.key(name);
    out.begin_object();
    out.begin_list("counts");
    for count in &times.counts {
        out.number(*count);
    }
    out.end_list();
    out.put_number("total_nanoseconds", Some(times.total));
    out.end_object();
}
