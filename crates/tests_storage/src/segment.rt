//! The tests of `snap_segment`.
mod damage;
mod migrations;
mod stores;
