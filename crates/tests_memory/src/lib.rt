//! The tests of scans and updates: the rule of a scan (`snap_scan`, `snap_history`), registers (`snap_register`), scans
//! and updates by hand and by threads (`snap_memory`), and the same machines without threads (`snap_world`).
#![tactic(auto)]

#[cfg(test)]
mod beside;
#[cfg(test)]
mod draw;
#[cfg(test)]
mod memory;
#[cfg(test)]
mod register;
#[cfg(test)]
mod scan;
#[cfg(test)]
mod seats;
#[cfg(test)]
mod world;
