//! Counters and histograms, and all metrics of a server.
use snap_service::{
    BOUNDS, Counter, FIRST_BOUND, Histogram, Metrics, REFUSALS, RequestCounts, place_of,
};
use std::process::Abort;
use std::test::Fail;
use std::thread;
use std::time::{Duration, Instant};

#[test]
fn counter_stays_at_the_largest(rt: HostRuntime) {
    let counter = Counter::default();
    assert!(rt; counter.get() == 0);
    counter.add(3);
    counter.add(4);
    assert!(rt; counter.get() == 7);
    counter.set(u64::MAX - 1);
    counter.add(5);
    assert!(rt; counter.get() == u64::MAX);
}

#[test]
fn bounds_double_from_16_microseconds(rt: HostRuntime) {
    assert!(rt; FIRST_BOUND == 16 && BOUNDS == 21);
    for (nanoseconds, place) in [
        (0, 0),
        (16_000, 0),
        (16_001, 1),
        (32_000, 1),
        (32_001, 2),
        (1_024_000, 6),
        (16_777_216_000, 20),
        (16_777_216_001, 21),
        (u64::MAX, 21),
    ] {
        assert!(rt; place_of(nanoseconds) == place, "{nanoseconds}");
    }
}

#[test]
fn nanoseconds_stay_at_the_largest(rt: HostRuntime) {
    let from = Instant::now(&rt).ok();
    for (time, nanoseconds) in [
        (Duration::from_millis(1_500), 1_500_000_000),
        (
            Duration::from_secs(18_446_744_073),
            18_446_744_073_000_000_000,
        ),
        (Duration::from_secs(18_446_744_074), u64::MAX),
    ] {
        let histogram = Histogram::default();
        histogram.observe(from, from.and_then(|from| from.checked_add(time)));
        assert!(rt; histogram.read().total == nanoseconds);
    }
}

#[test]
fn histogram_sorts_times(rt: HostRuntime) {
    let histogram = Histogram::default();
    let from = Instant::now(&rt).ok();
    for micros in [16, 17, 20, 40, 20_000_000] {
        let until = from.and_then(|from| from.checked_add(Duration::from_micros(micros)));
        histogram.observe(from, until);
    }
    histogram.observe(None, from);
    let times = histogram.read();
    let mut counts = [0; BOUNDS + 1];
    counts[0] = 1;
    counts[1] = 2;
    counts[2] = 1;
    counts[BOUNDS] = 1;
    assert!(rt; times.counts == counts);
    assert!(rt; times.total == 20_000_093_000);
}

/// Counts of updates, and of refusals of the last number.
fn tally_of(updates: u64, refused: u64) -> RequestCounts {
    let mut tally = RequestCounts::new();
    tally.updates = updates;
    tally.refusals[REFUSALS - 1] = refused;
    tally
}

#[test]
fn all_workers_are_read_together(rt: HostRuntime) -> Result<(), Fail> {
    let metrics = Metrics::new(rt.alloc(), 2, 1)?;
    assert!(rt; metrics.worker_count() == 2 && metrics.segment_count() == 1);
    metrics
        .worker(0)
        .follow(&RequestCounts::new(), &tally_of(3, 1));
    metrics.worker(0).follow(&tally_of(3, 1), &tally_of(4, 1));
    metrics
        .worker(1)
        .follow(&RequestCounts::new(), &tally_of(6, 5));
    metrics.accept();
    metrics.accept();
    metrics.end();
    let reading = metrics.read(rt.alloc())?;
    assert!(rt; reading.requests == tally_of(10, 6));
    assert!(rt; reading.segments.len() == 1 && reading.accepted == 2 && reading.open == 1);
    Ok(())
}

#[test]
fn segments_are_read_in_order(rt: HostRuntime) -> Result<(), Fail> {
    let metrics = Metrics::new(rt.alloc(), 0, 3)?;
    assert!(rt; metrics.segment_count() == 3);
    metrics.segment(1).settle(Ok(0));
    let reading = metrics.read(rt.alloc())?;
    let repeats = |segment: usize| reading.segments.get(segment).map(|read| read.repeats);
    assert!(rt; repeats(0) == Some(0) && repeats(1) == Some(1) && repeats(2) == Some(0));
    Ok(())
}

#[test]
fn only_what_a_number_has_grown_by_is_counted(rt: HostRuntime) -> Result<(), Fail> {
    let metrics = Metrics::new(rt.alloc(), 1, 0)?;
    assert!(rt; metrics.worker_count() == 1);
    metrics.worker(0).follow(&tally_of(3, 2), &tally_of(3, 9));
    assert!(rt; metrics.worker(0).read() == tally_of(0, 7));
    Ok(())
}

/// Counts updates up to this one.
fn count_to(metrics: &Metrics, last: u64) {
    for updates in 0..last {
        metrics
            .worker(0)
            .follow(&tally_of(updates, 0), &tally_of(updates + 1, 0));
    }
}

/// Reads the updates while they are counted. Whether they could be read and never fell.
fn reads<R: AllocGlobal>(rt: &R, metrics: &Metrics, last: u64) -> bool {
    let mut before = 0;
    for _ in 0..last {
        match metrics.read(rt.alloc()) {
            Ok(reading) if reading.requests.updates >= before => before = reading.requests.updates,
            _ => return false,
        }
    }
    true
}

#[test]
fn one_thread_reads_what_another_counts(rt: HostRuntime) -> Result<(), Fail> {
    let metrics = Metrics::new(rt.alloc(), 1, 1)?;
    let ((), is_right) = thread::join(
        &rt,
        || count_to(&metrics, 2_000),
        || reads(&rt, &metrics, 2_000),
    );
    assert!(rt; is_right && metrics.read(rt.alloc())?.requests.updates == 2_000);
    Ok(())
}
