//! Tests of whole logs, and of their parts.
use crate::destination::is_named;
use crate::line::line_of;
use crate::output::write_line;
use crate::stamp::stamp_of;
use crate::{Destination, Lines, write_lines};
use jiff::Timestamp;
use log::{Level, LevelFilter, debug, error, info, warn};
use snap_order::TestStream;
use std::test::Fail;

/// A standard error that takes at most `passes` bytes.
fn stream(rt: &HostRuntime, passes: usize) -> TestStream {
    TestStream {
        bytes: Vec::new(rt.alloc()),
        passed: 0,
        passes,
        step: 7,
    }
}

#[test]
fn lines_come_in_order(rt: HostRuntime) -> Result<(), Fail> {
    let (lines, waiting) = Lines::new(&rt, rt.alloc(), LevelFilter::Info, Destination::Journal)?;
    warn!(lines; target: "accept", "{} connections are open", 97);
    info!(lines; target: "accept", "there is room again");
    drop(lines);
    let mut errors = stream(&rt, usize::MAX);
    write_lines(&rt, &waiting, &mut errors);
    assert_eq!(rt;
        errors.bytes.as_slice(),
        b"<4>WARN accept: 97 connections are open\n<6>INFO accept: there is room again\n".as_slice()
    );
    Ok(())
}

#[test]
fn a_level_has_those_above_it(rt: HostRuntime) -> Result<(), Fail> {
    for (level, text) in [
        (LevelFilter::Off, ""),
        (LevelFilter::Error, "<3>ERROR t: a\n"),
        (LevelFilter::Warn, "<3>ERROR t: a\n<4>WARN t: b\n"),
        (
            LevelFilter::Info,
            "<3>ERROR t: a\n<4>WARN t: b\n<6>INFO t: c\n",
        ),
        (
            LevelFilter::Debug,
            "<3>ERROR t: a\n<4>WARN t: b\n<6>INFO t: c\n<7>DEBUG t: d\n",
        ),
    ] {
        let (lines, waiting) = Lines::new(&rt, rt.alloc(), level, Destination::Journal)?;
        error!(lines; target: "t", "a");
        warn!(lines; target: "t", "b");
        info!(lines; target: "t", "c");
        debug!(lines; target: "t", "d");
        drop(lines);
        let mut errors = stream(&rt, usize::MAX);
        write_lines(&rt, &waiting, &mut errors);
        assert_eq!(rt; errors.bytes.as_slice(), text.as_bytes());
    }
    Ok(())
}

#[test]
fn a_line_begins_with_the_time(rt: HostRuntime) -> Result<(), Fail> {
    let (lines, waiting) = Lines::new(&rt, rt.alloc(), LevelFilter::Warn, Destination::Other)?;
    warn!(lines; target: "t", "b");
    drop(lines);
    let mut errors = stream(&rt, usize::MAX);
    write_lines(&rt, &waiting, &mut errors);
    let line = errors.bytes.as_slice();
    assert_eq!(rt; line.len(), 25 + 10);
    assert_eq!(rt; &line[23..], b"Z WARN t: b\n".as_slice());
    Ok(())
}

#[test]
fn what_does_not_fit_is_counted(rt: HostRuntime) -> Result<(), Fail> {
    let (lines, waiting) = Lines::new(&rt, rt.alloc(), LevelFilter::Warn, Destination::Journal)?;
    for _ in 0..4_100 {
        warn!(lines; target: "t", "b");
    }
    drop(lines);
    let mut errors = stream(&rt, usize::MAX);
    write_lines(&rt, &waiting, &mut errors);
    let written = errors.bytes.as_slice();
    let last = b"<4>WARN log: lines lost: 4\n";
    assert!(rt; written.ends_with(last));
    assert_eq!(rt; written.len(), 4_096 * 13 + last.len());
    Ok(())
}

#[test]
fn what_cannot_be_written_ends_nothing(rt: HostRuntime) -> Result<(), Fail> {
    let (lines, waiting) = Lines::new(&rt, rt.alloc(), LevelFilter::Warn, Destination::Journal)?;
    warn!(lines; target: "t", "b");
    warn!(lines; target: "t", "b");
    drop(lines);
    let mut errors = stream(&rt, 16);
    write_lines(&rt, &waiting, &mut errors);
    assert_eq!(rt; errors.bytes.as_slice(), b"<4>WARN t: b\n<4>".as_slice());
    Ok(())
}

#[test]
fn a_line_after_a_torn_one_is_its_own(rt: HostRuntime) -> Result<(), Fail> {
    let (mut errors, mut is_torn) = (stream(&rt, 3), false);
    for (passes, is_whole) in [
        (3, false),
        (3, false),
        (usize::MAX, true),
        (usize::MAX, true),
    ] {
        errors.passes = passes;
        assert_eq!(rt; write_line(&mut errors, &mut is_torn, "torn\n"), is_whole);
    }
    assert_eq!(rt; errors.bytes.as_slice(), b"tor\ntorn\ntorn\n".as_slice());
    Ok(())
}

#[test]
fn nobody_has_to_write(rt: HostRuntime) -> Result<(), Fail> {
    let (lines, waiting) = Lines::new(&rt, rt.alloc(), LevelFilter::Warn, Destination::Journal)?;
    drop(waiting);
    warn!(lines; target: "t", "b");
    Ok(())
}

#[test]
fn names_a_stream(rt: HostRuntime) -> Result<(), Fail> {
    assert!(rt; is_named(rt.alloc(), b"9:4711", 9, 4711)?);
    assert!(rt; is_named(rt.alloc(), b"0:18446744073709551615", 0, u64::MAX)?);
    for other in [
        b"9:471".as_slice(),
        b"9:47110",
        b"8:4711",
        b"9:",
        b":4711",
        b"",
        b"9 4711",
        b"4711:9",
    ] {
        assert!(rt; !is_named(rt.alloc(), other, 9, 4711)?, "{other:?}");
    }
    Ok(())
}

#[test]
fn is_no_journal_here(rt: HostRuntime) {
    assert_eq!(rt;
        Destination::of_standard_error(&rt, rt.alloc()),
        Destination::Other
    );
}

#[test]
fn shows_a_text_on_one_line(rt: HostRuntime) -> Result<(), Fail> {
    for (text, line) in [
        ("", "WARN accept: \n"),
        ("full: 97 open", "WARN accept: full: 97 open\n"),
        ("a\nERROR b: c\r\n", "WARN accept: a\\nERROR b: c\\r\\n\n"),
        (
            "\t\u{1b}[31m\0\u{7f}",
            "WARN accept: \\t\\u{1b}[31m\\u{0}\\u{7f}\n",
        ),
        (
            "é\u{85}\u{2028}→ \\n",
            "WARN accept: é\\u{85}\\u{2028}→ \\n\n",
        ),
    ] {
        let shown = line_of(rt.alloc(), "", Level::Warn, "accept", text)?;
        assert_eq!(rt; shown.as_str(), line);
    }
    let shown = line_of(rt.alloc(), "now ", Level::Error, "a\nb", "c")?;
    assert_eq!(rt; shown.as_str(), "now ERROR a\\nb: c\n");
    Ok(())
}

#[test]
fn shows_milliseconds(rt: HostRuntime) -> Result<(), Fail> {
    for (nanoseconds, text) in [
        (0, "1970-01-01T00:00:00.000Z "),
        (1_764_089_248_123_999_999, "2025-11-25T16:47:28.123Z "),
        (951_782_400_000_000_000, "2000-02-29T00:00:00.000Z "),
    ] {
        let stamp = stamp_of(Timestamp::from_nanosecond(nanoseconds)?);
        assert_eq!(rt; stamp.as_str(), text);
    }
    Ok(())
}
