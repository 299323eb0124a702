//! Logs a server's start, its end and failed stores.

use crate::surroundings::{Process, ignores_interrupts};
use log::{error, info};
use snap_args::VERSION;
use snap_file_commands::system::FirstFault;
use snap_log::Lines;
use snap_serve::{FailureObserver, ServerObserver};
use snap_server::{RunFault, ServerFault};
use std::fmt::{self, Display};
use std::rt::Clock;
use std::slice;
use std::sync::Wait;

/// Logs how a server starts and ends, and each update whose store failed.
#[derive_where(Clone, Copy)]
#[derive(Drop)]
pub struct ServerLog<'a, X: Wait + Clock> {
    pub log: &'a Lines<'a, X>,
    pub process: &'a Process<'a>,
    /// The reason why a call on each file first failed.
    pub told: &'a Vec<FirstFault>,
}

impl<X: Wait + Clock> ServerLog<'_, X> {
    /// Logs that the store of an update failed, for this reason.
    fn log_unstored<T: Display>(&self, file: &str, segment: usize, number: u64, why: &T) {
        error!(self.log; target: "store",
            "{file}: segment {segment}: update {number} failed: a restart shows whether it is stored, and the segment \
                is fenced until then: save what is served before that, by snapd dump ADDR: {why}"
        );
    }
}

impl<X: Wait + Clock> ServerObserver for ServerLog<'_, X> {
    fn begun(&self, listening: &str) {
        let process = self.process;
        let (number, count) = (libc::getpid(), process.files.len());
        let files = match &process.folder {
            Some(folder) => slice::from_ref(folder),
            None => process.files.as_slice(),
        };
        let (files, places) = (Spaced(files), Places(listening));
        info!(self.log; target: "server",
            "snapd {VERSION} serves {files} as process {number}: segments {count}, at {places}"
        );
        if ignores_interrupts(process.rt) {
            info!(self.log; target: "server",
                "SIGINT is ignored, as a script has it for what it starts with &: end it with kill {number}"
            );
        }
    }

    /// If the server never started, the reason is printed elsewhere.
    fn ended(&self, served: Result<u64, &RunFault>) {
        match served {
            Ok(count) => info!(self.log; target: "server", "it ends: served {count}"),
            Err(RunFault::Server(fault @ (ServerFault::AcceptFailed | ServerFault::PollFailed))) =>
                {
                    error!(self.log; target: "server", "it ends: {fault}");
                }
            Err(_) => {}
        }
    }
}

impl<X: Wait + Clock> FailureObserver for ServerLog<'_, X> {
    fn store_failed(&self, segment: usize, number: u64) {
        let (Some(file), Some(first)) = (self.process.files.get(segment), self.told.get(segment))
        else {
            return;
        };
        match first.0.get() {
            Some(fault) => self.log_unstored(file, segment, number, fault),
            None => self.log_unstored(file, segment, number, &"a call of its device failed"),
        }
    }
}

/// Shows paths with a space between them.
#[derive(Clone, Copy)]
pub struct Spaced<'a>(pub &'a [&'a str]);

impl Display for Spaced<'_> {
    fn fmt<W: fmt::Write>(&self, f: &mut fmt::Formatter<W>) -> fmt::Result {
        for (place, path) in self.0.iter().enumerate() {
            let between = if place == 0 { "" } else { " " };
            write!(f, "{between}{path}")?;
        }
        Ok(())
    }
}

/// Shows the addresses in these lines, `listening ADDRESS` each.
#[derive(Clone, Copy)]
struct Places<'a>(&'a str);

impl Display for Places<'_> {
    fn fmt<W: fmt::Write>(&self, f: &mut fmt::Formatter<W>) -> fmt::Result {
        for (place, line) in self.0.lines().enumerate() {
            let between = if place == 0 { "" } else { " " };
            let address = line.strip_prefix("listening ").unwrap_or(line);
            write!(f, "{between}{address}")?;
        }
        Ok(())
    }
}
