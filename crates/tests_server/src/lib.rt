//! The tests of a server: requests, storers and metrics (`snap_service`), connections (`snap_server`, `snap_session`),
//! HTTP (`snap_board`), and what of `snap_args`, `snap_file_commands` and `snap_serve` no command shows. What the
//! program prints is compared to the byte by the end-to-end tests, `tests/`.
#![tactic(auto)]

#[cfg(test)]
mod board;
#[cfg(test)]
mod desk;
#[cfg(test)]
mod file_commands;
#[cfg(test)]
mod folder;
#[cfg(test)]
mod frames;
#[cfg(test)]
mod metrics;
#[cfg(test)]
mod plug;
#[cfg(test)]
mod serve;
#[cfg(test)]
mod server;
#[cfg(test)]
mod service;
#[cfg(test)]
mod site;
#[cfg(test)]
mod spin;
#[cfg(test)]
mod stores;
#[cfg(test)]
mod words;
