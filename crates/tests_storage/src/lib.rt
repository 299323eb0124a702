//! The tests of files and of what they keep: devices and streams (`snap_disk`, `snap_devices`, `snap_order`), the
//! format of a slot and the calls of a store (`snap_slot`, `snap_persist`), segments (`snap_segment`), writers
//! (`snap_writer`) and a server's files (`snap_restart`).
#![tactic(auto)]

#[cfg(test)]
mod checks;
#[cfg(test)]
mod devices;
#[cfg(test)]
mod disk;
#[cfg(test)]
mod restart;
#[cfg(test)]
mod segment;
#[cfg(test)]
mod slot;
#[cfg(test)]
mod writer;
