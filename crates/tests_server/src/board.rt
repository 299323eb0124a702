//! The answers of a board, as whole conversations.

mod told;

use http_server::{Config, Connection, serve};
use json::{Scratch, is_valid};
use snap_board::{Board, FactSource, History};
use std::alloc::AllocError;
use std::hash::RandomState;
use std::io;
use std::process::Abort;
use std::test::Fail;
use std::time::Duration;
use told::{ALL_FENCED, Around, FENCED, NOTHING, REFUSED, SCAN, STATUS, Teller, reading};

/// The bytes that a board answers to these requests on one connection, over a service with these replies.
fn conversation(
    rt: &HostRuntime,
    scan: &'static [u8],
    status: &'static [u8],
    requests: &[u8],
) -> io::Result<Vec<u8>> {
    let alloc = rt.alloc();
    let service = Teller {
        alloc,
        scan,
        status,
    };
    let mut board = Board::new(alloc, service, Around::new(alloc)?);
    let mut connection = Connection::new(alloc, RandomState::new(rt)?, Config::default());
    let mut reader = requests;
    let mut writer = Vec::new(alloc);
    serve(&mut connection, &mut board, &mut reader, &mut writer)?;
    Ok(writer)
}

/// The first line and the content of the response to a `GET` of this path; nothing if there is no response.
fn get(
    rt: &HostRuntime,
    scan: &'static [u8],
    status: &'static [u8],
    path: &str,
) -> io::Result<(Vec<u8>, Vec<u8>)> {
    let request = format!(in rt.alloc(); "GET {path} HTTP/1.1\r\nHost: h\r\n\r\n")?;
    let text = conversation(rt, scan, status, request.as_bytes())?;
    let (line, head) = (place_of(&text, b"\r\n"), place_of(&text, b"\r\n\r\n"));
    let (Some(line), Some(head)) = (line, head) else {
        return Ok((Vec::new(rt.alloc()), Vec::new(rt.alloc())));
    };
    let content = text[head + 4..].to_vec(rt.alloc())?;
    Ok((text[..line].to_vec(rt.alloc())?, content))
}

/// The offset of the first of these in the text.
fn place_of(text: &[u8], part: &[u8]) -> Option<usize> {
    for at in 0..text.len() {
        if text[at..].starts_with(part) {
            return Some(at);
        }
    }
    None
}

/// The text has each of these parts.
fn has_all(rt: &impl Abort, text: &[u8], parts: &[&str]) {
    for part in parts {
        assert!(rt; place_of(text, part.as_bytes()).is_some(), "{part}");
    }
}

const OK: &str = "HTTP/1.1 200 OK";

const UNAVAILABLE: &str = "HTTP/1.1 503 Service Unavailable";

/// The replies of the service to a scan and to a status, a path, and the response's first line and content.
const ANSWERS: [(&[u8], &[u8], &str, &str, &str); 14] = [
    (SCAN, STATUS, "/health", OK, "{\"healthy\":true}\n"),
    (
        SCAN,
        FENCED,
        "/health?now=1",
        UNAVAILABLE,
        "{\"healthy\":false,\"fenced\":[1]}\n",
    ),
    (SCAN, STATUS, "/livez", OK, "ok\n"),
    (SCAN, NOTHING, "/livez", OK, "ok\n"),
    (SCAN, STATUS, "/readyz", OK, "ok\n"),
    (SCAN, FENCED, "/readyz", OK, "ok\n"),
    (
        SCAN,
        ALL_FENCED,
        "/readyz",
        UNAVAILABLE,
        "each segment is fenced\n",
    ),
    (SCAN, NOTHING, "/readyz", UNAVAILABLE, "no answer\n"),
    (
        SCAN,
        STATUS,
        "/scan",
        OK,
        "{\"segments\":[{\"segment\":0,\"number\":5,\"text\":\"hi\"},\
        {\"segment\":1,\"number\":9223372036854775807,\"base64\":\"/w==\"}]}\n",
    ),
    (
        SCAN,
        FENCED,
        "/status",
        OK,
        "{\"segments\":[{\"segment\":0,\"number\":5,\"fenced\":false},\
        {\"segment\":1,\"number\":7,\"fenced\":true}]}\n",
    ),
    (REFUSED, REFUSED, "/scan", UNAVAILABLE, "8 NoMemory\n"),
    (REFUSED, REFUSED, "/metrics", UNAVAILABLE, "8 NoMemory\n"),
    (NOTHING, NOTHING, "/stats", UNAVAILABLE, "no answer\n"),
    (
        SCAN,
        NOTHING,
        "/history",
        OK,
        "{\"samples\":[{\"uptime_milliseconds\":1001,\"scans\":5,\
        \"store_counts\":[1,2,0,0,0,0,0,0,0,0,0,0,0,0,0,0,0,0,0,0,0,3]}]}\n",
    ),
];

#[test]
fn answers_to_each_path(rt: HostRuntime) -> Result<(), Fail> {
    for (scan, status, path, first, content) in &ANSWERS {
        let given = get(&rt, *scan, *status, *path)?;
        assert_eq!(rt; given.0.as_slice(), first.as_bytes(), "{path}");
        assert_eq!(rt; given.1.as_slice(), content.as_bytes(), "{path}");
    }
    let (first, content) = get(&rt, SCAN, STATUS, "/metrics/")?;
    assert!(rt; first.as_slice() == b"HTTP/1.1 404 Not Found".as_slice());
    assert!(rt; content.starts_with(b"Nothing is here. There is: / /metrics "));
    Ok(())
}

#[test]
fn a_whole_response_to_the_byte(rt: HostRuntime) -> Result<(), Fail> {
    let request = b"HEAD /health HTTP/1.1\r\nHost: h\r\n\r\n";
    let text = conversation(&rt, SCAN, STATUS, request)?;
    let want: &[u8] = b"HTTP/1.1 200 OK\r\ndate: Thu, 01 Jan 1970 00:00:02 GMT\r\n\
        content-type: application/json\r\n\
        cache-control: no-store\r\nx-content-type-options: nosniff\r\n\
        cross-origin-resource-policy: same-origin\r\ncontent-length: 17\r\n\r\n";
    assert!(rt; text.as_slice() == want);
    let request = b"POST /scan HTTP/1.1\r\nHost: h\r\ncontent-length: 2\r\n\r\nhi";
    let text = conversation(&rt, SCAN, STATUS, request)?;
    assert!(rt; text.starts_with(b"HTTP/1.1 405 Method Not Allowed\r\n"));
    let parts = [
        "\r\nallow: GET, HEAD\r\n",
        "\r\n\r\nOnly GET and HEAD are answered.\n",
    ];
    has_all(&rt, &text, &parts);
    Ok(())
}

/// The metrics before the histograms.
const METRICS: &str = "\
    # HELP snapd_info The version of the program.\n\
    # TYPE snapd_info gauge\n\
    snapd_info{version=\"1.2\\\"3\\\\\"} 1\n\
    # HELP snapd_uptime_seconds How long the server has run.\n\
    # TYPE snapd_uptime_seconds gauge\n\
    snapd_uptime_seconds 61.002\n\
    # HELP snapd_resident_memory_bytes Memory of the machine that the process takes.\n\
    # TYPE snapd_resident_memory_bytes gauge\n\
    snapd_resident_memory_bytes 4096\n\
    # HELP snapd_connections_total Connections that were accepted.\n\
    # TYPE snapd_connections_total counter\n\
    snapd_connections_total 40\n\
    # HELP snapd_connections_open Connections that are open.\n\
    # TYPE snapd_connections_open gauge\n\
    snapd_connections_open 41\n\
    # HELP snapd_requests_total Requests that were answered, also with a refusal.\n\
    # TYPE snapd_requests_total counter\n\
    snapd_requests_total{kind=\"update\"} 1\n\
    snapd_requests_total{kind=\"scan\"} 2\n\
    snapd_requests_total{kind=\"part\"} 3\n\
    snapd_requests_total{kind=\"status\"} 4\n\
    # HELP snapd_refusals_total Requests that were refused.\n\
    # TYPE snapd_refusals_total counter\n\
    snapd_refusals_total{number=\"1\",name=\"Malformed\"} 100\n\
    snapd_refusals_total{number=\"2\",name=\"NoSegment\"} 101\n\
    snapd_refusals_total{number=\"3\",name=\"TooLong\"} 102\n\
    snapd_refusals_total{number=\"4\",name=\"Conflict\"} 103\n\
    snapd_refusals_total{number=\"5\",name=\"OutOfStep\"} 0\n\
    snapd_refusals_total{number=\"6\",name=\"Fenced\"} 105\n\
    snapd_refusals_total{number=\"7\",name=\"Full\"} 106\n\
    snapd_refusals_total{number=\"8\",name=\"NoMemory\"} 107\n\
    snapd_refusals_total{number=\"9\",name=\"Exhausted\"} 108\n\
    snapd_refusals_total{number=\"10\",name=\"Damaged\"} 109\n\
    snapd_refusals_total{number=\"11\",name=\"Unformatted\"} 110\n\
    snapd_refusals_total{number=\"12\",name=\"AlreadyFormatted\"} 111\n\
    snapd_refusals_total{number=\"13\",name=\"DeviceFailed\"} 112\n\
    snapd_refusals_total{number=\"14\",name=\"WrongFile\"} 113\n\
    snapd_refusals_total{number=\"15\",name=\"TooLarge\"} 114\n\
    snapd_refusals_total{number=\"16\",name=\"NotNow\"} 115\n\
    snapd_refusals_total{number=\"17\",name=\"Worn\"} 116\n\
    # HELP snapd_scan_looks_total Looks at registers that scans took.\n\
    # TYPE snapd_scan_looks_total counter\n\
    snapd_scan_looks_total 5\n\
    # HELP snapd_received_bytes_total Bytes of the frames of requests.\n\
    # TYPE snapd_received_bytes_total counter\n\
    snapd_received_bytes_total 6\n\
    # HELP snapd_sent_bytes_total Bytes of the frames of replies.\n\
    # TYPE snapd_sent_bytes_total counter\n\
    snapd_sent_bytes_total 7\n\
    # HELP snapd_updates_total Updates that were stored.\n\
    # TYPE snapd_updates_total counter\n\
    snapd_updates_total{segment=\"0\"} 6\n\
    snapd_updates_total{segment=\"1\"} 0\n\
    # HELP snapd_repeats_total Updates that the segment held already.\n\
    # TYPE snapd_repeats_total counter\n\
    snapd_repeats_total{segment=\"0\"} 8\n\
    snapd_repeats_total{segment=\"1\"} 0\n";

/// Each histogram's name, its help, and its sum for segment 0.
const HISTOGRAMS: [(&str, &str, &str); 3] = [
    (
        "snapd_store_seconds",
        "How long stores took.",
        "3.000000004",
    ),
    (
        "snapd_value_wait_seconds",
        "How long stores waited for the device, for the value.",
        "0.000000009",
    ),
    (
        "snapd_gate_wait_seconds",
        "How long stores waited for the device, for the gate.",
        "0.000000010",
    ),
];

/// The bounds of each histogram.
const LE: &str =
    "0.000016 0.000032 0.000064 0.000128 0.000256 0.000512 0.001024 0.002048 0.004096 0.008192 \
    0.016384 0.032768 0.065536 0.131072 0.262144 0.524288 1.048576 2.097152 4.194304 8.388608 16.777216 +Inf";

/// The metrics after the histograms.
const LATER_METRICS: &str = "\
    # HELP snapd_segment_age_seconds Time since the last update that was stored since the start.\n\
    # TYPE snapd_segment_age_seconds gauge\n\
    snapd_segment_age_seconds{segment=\"0\"} 1.500\n\
    # HELP snapd_segment_number The number that the segment holds.\n\
    # TYPE snapd_segment_number gauge\n\
    snapd_segment_number{segment=\"0\"} 5\n\
    snapd_segment_number{segment=\"1\"} 7\n\
    # HELP snapd_segment_fenced Whether the segment takes no update until a restart.\n\
    # TYPE snapd_segment_fenced gauge\n\
    snapd_segment_fenced{segment=\"0\"} 0\n\
    snapd_segment_fenced{segment=\"1\"} 1\n\
    # HELP snapd_build_info The version of the program, always 1.\n\
    # TYPE snapd_build_info gauge\n\
    snapd_build_info{version=\"1.2\\\"3\\\\\"} 1\n\
    # HELP snapd_connections_max Connections that may be open.\n\
    # TYPE snapd_connections_max gauge\n\
    snapd_connections_max 7\n\
    # HELP snapd_log_lost_lines_total Lines of the log that were lost.\n\
    # TYPE snapd_log_lost_lines_total counter\n\
    snapd_log_lost_lines_total 8\n\
    # HELP process_start_time_seconds When the process was started, since 1970.\n\
    # TYPE process_start_time_seconds gauge\n\
    process_start_time_seconds 1.002\n\
    # HELP process_cpu_seconds_total Time of processors that the process took.\n\
    # TYPE process_cpu_seconds_total counter\n\
    process_cpu_seconds_total 1.000000003\n\
    # HELP process_resident_memory_bytes Memory of the machine that the process takes.\n\
    # TYPE process_resident_memory_bytes gauge\n\
    process_resident_memory_bytes 4096\n\
    # HELP process_open_fds Descriptors that are open.\n\
    # TYPE process_open_fds gauge\n\
    process_open_fds 5\n\
    # HELP process_max_fds Descriptors that may be open.\n\
    # TYPE process_max_fds gauge\n\
    process_max_fds 6\n\
    # HELP snapd_segment_info The name of the segment, which is its file's, always 1.\n\
    # TYPE snapd_segment_info gauge\n\
    snapd_segment_info{segment=\"0\",name=\"b\\\"c\"} 1\n";

/// A segment's lines of a histogram: how many times lie within the first bound, within each other one, and in all.
fn put_lines(
    out: &mut String,
    name: &str,
    segment: u8,
    counts: [u64; 3],
    sum: &str,
) -> Result<(), AllocError> {
    let [first, others, all] = counts;
    for (place, le) in LE.split(' ').enumerate() {
        let count = match place {
            0 => first,
            21 => all,
            _ => others,
        };
        writeln!(
            out,
            "{name}_bucket{{segment=\"{segment}\",le=\"{le}\"}} {count}"
        )?;
    }
    writeln!(out, "{name}_sum{{segment=\"{segment}\"}} {sum}")?;
    writeln!(out, "{name}_count{{segment=\"{segment}\"}} {all}")
}

/// The content is this text.
fn is_text(rt: &impl Abort, content: &[u8], wanted: &str) {
    match str::from_utf8(content) {
        Ok(text) => assert_eq!(rt; text, wanted),
        Err(_) => panic!(rt; "no text"),
    }
}

/// No clause states this text.
#[test]
fn metrics_are_these_lines(rt: HostRuntime) -> Result<(), Fail> {
    let mut wanted = String::from_str(rt.alloc(), METRICS)?;
    for (name, help, sum) in HISTOGRAMS {
        writeln!(wanted, "# HELP {name} {help}\n# TYPE {name} histogram")?;
        put_lines(&mut wanted, name, 0, [1, 3, 6], sum)?;
        put_lines(&mut wanted, name, 1, [0, 0, 0], "0.000000000")?;
    }
    wanted.push_str(LATER_METRICS)?;
    is_text(&rt, &get(&rt, SCAN, FENCED, "/metrics")?.1, wanted.as_str());
    Ok(())
}

#[test]
fn the_history_keeps_three_minutes(rt: HostRuntime) -> Result<(), Fail> {
    let alloc = rt.alloc();
    let reading = reading(alloc)?;
    let history = History::new(alloc);
    assert!(rt; history.document(alloc)?.as_slice() == b"{\"samples\":[]}\n".as_slice());
    for number in 1..400 {
        history.take(&reading, Duration::from_secs(number));
    }
    let text = history.document(alloc)?;
    assert!(rt; text.starts_with(b"{\"samples\":[{\"uptime_milliseconds\":219000,"));
    let samples = text.iter().filter(|byte| **byte == b'{').count() - 1;
    assert!(rt; samples == 181);
    for number in 219..400u64 {
        let sample = format!(in alloc; "{{\"uptime_milliseconds\":{number}000,")?;
        assert!(rt; place_of(&text, sample.as_bytes()).is_some());
    }
    Ok(())
}

/// The stats, which no clause states either.
const STATS: &str = "\
    {\"version\":\"1.2\\\"3\\\\\",\"uptime_milliseconds\":61002,\"now_milliseconds\":2500,\
    \"resident_bytes\":4096,\"addresses\":[\"127.0.0.1:7\"],\"connections\":{\"total\":40,\"open\":41},\
    \"requests\":{\"update\":1,\"scan\":2,\"part\":3,\"status\":4},\"scan_looks\":5,\"received_bytes\":6,\
    \"sent_bytes\":7,\"refusals\":[{\"number\":1,\"name\":\"Malformed\",\"count\":100},{\"number\":2,\
    \"name\":\"NoSegment\",\"count\":101},{\"number\":3,\"name\":\"TooLong\",\"count\":102},{\"number\":4,\
    \"name\":\"Conflict\",\"count\":103},{\"number\":5,\"name\":\"OutOfStep\",\"count\":0},{\"number\":6,\
    \"name\":\"Fenced\",\"count\":105},{\"number\":7,\"name\":\"Full\",\"count\":106},{\"number\":8,\
    \"name\":\"NoMemory\",\"count\":107},{\"number\":9,\"name\":\"Exhausted\",\"count\":108},{\"number\":10,\
    \"name\":\"Damaged\",\"count\":109},{\"number\":11,\"name\":\"Unformatted\",\"count\":110},{\"number\":12,\
    \"name\":\"AlreadyFormatted\",\"count\":111},{\"number\":13,\"name\":\"DeviceFailed\",\"count\":112},\
    {\"number\":14,\"name\":\"WrongFile\",\"count\":113},{\"number\":15,\"name\":\"TooLarge\",\"count\":114},\
    {\"number\":16,\"name\":\"NotNow\",\"count\":115},{\"number\":17,\"name\":\"Worn\",\"count\":116}],\
    \"bounds_microseconds\":[16,32,64,128,256,512,1024,2048,4096,8192,16384,32768,65536,131072,262144,524288,\
    1048576,2097152,4194304,8388608,16777216],\"segments\":[{\"segment\":0,\"file\":\"a/b\\\"c.seg\",\
    \"name\":\"b\\\"c\",\"number\":5,\"fenced\":false,\"updates\":6,\"repeats\":8,\"age_milliseconds\":1500,\
    \"store\":{\"counts\":[1,2,0,0,0,0,0,0,0,0,0,0,0,0,0,0,0,0,0,0,0,3],\"total_nanoseconds\":3000000004},\
    \"value_wait\":{\"counts\":[1,2,0,0,0,0,0,0,0,0,0,0,0,0,0,0,0,0,0,0,0,3],\"total_nanoseconds\":9},\
    \"gate_wait\":{\"counts\":[1,2,0,0,0,0,0,0,0,0,0,0,0,0,0,0,0,0,0,0,0,3],\"total_nanoseconds\":10}},\
    {\"segment\":1,\"file\":null,\"name\":null,\"number\":7,\"fenced\":true,\"updates\":0,\"repeats\":0,\
    \"age_milliseconds\":null,\"store\":{\"counts\":[0,0,0,0,0,0,0,0,0,0,0,0,0,0,0,0,0,0,0,0,0,0],\
    \"total_nanoseconds\":0},\"value_wait\":{\"counts\":[0,0,0,0,0,0,0,0,0,0,0,0,0,0,0,0,0,0,0,0,0,0],\
    \"total_nanoseconds\":0},\"gate_wait\":{\"counts\":[0,0,0,0,0,0,0,0,0,0,0,0,0,0,0,0,0,0,0,0,0,0],\
    \"total_nanoseconds\":0}}]}\n";

#[test]
fn stats_are_this_document(rt: HostRuntime) -> Result<(), Fail> {
    assert!(rt; is_valid(STATS, &mut Scratch::new(rt.alloc()))?);
    is_text(&rt, &get(&rt, SCAN, FENCED, "/stats")?.1, STATS);
    Ok(())
}

/// The page, its style and its script load nothing from elsewhere.
#[test]
fn the_page_loads_its_own_alone(rt: HostRuntime) -> Result<(), Fail> {
    let page = conversation(&rt, SCAN, STATUS, b"GET / HTTP/1.1\r\nHost: h\r\n\r\n")?;
    let parts = [
        "\r\ncontent-type: text/html; charset=utf-8\r\n",
        "\r\ncontent-security-policy: default-src 'none'; style-src 'self'; script-src 'self'; ",
        "<script src=\"/board.js\" defer>",
    ];
    has_all(&rt, &page, &parts);
    assert!(rt; place_of(&page, b"//").is_none());
    for (path, part) in [("/board.css", "url("), ("/board.js", "innerHTML")] {
        let (first, text) = get(&rt, SCAN, STATUS, path)?;
        assert!(rt; first.as_slice() == OK.as_bytes(), "{path}");
        assert!(rt; place_of(&text, part.as_bytes()).is_none(), "{path}");
    }
    Ok(())
}

/// Run with each allocation refused in turn (`rt try --test --fail-alloc N`): the response is whole, or 503 with that
/// reason or without content, or there is none.
#[test]
fn without_memory_a_response_is_503_or_none(rt: HostRuntime) -> Result<(), Fail> {
    for path in ["/scan", "/metrics", "/stats", "/history", "/health", "/"] {
        if let Ok((first, content)) = get(&rt, SCAN, STATUS, path) {
            let is_whole = first.as_slice() == OK.as_bytes() && content.ends_with(b"\n");
            let is_refused = first.as_slice() == UNAVAILABLE.as_bytes()
                && (content.is_empty() || content.as_slice() == b"no answer\n".as_slice());
            assert!(rt; is_whole || is_refused || first.is_empty());
        }
    }
    Ok(())
}
