//! The tests of `snap_disk` and of streams (`snap_order`).
mod disks;
mod files;
mod streams;
