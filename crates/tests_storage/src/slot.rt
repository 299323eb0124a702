//! The tests of `snap_slot` and `snap_persist`.
mod slots;
mod stores;
