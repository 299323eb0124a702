//! The tests of `snap_scan` and `snap_history`.
mod histories;
mod scans;
