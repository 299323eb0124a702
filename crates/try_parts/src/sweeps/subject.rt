//! The runs that are stopped.
use crate::files::new_memory;
use crate::sweeps::migration::migration_cell;
use crate::sweeps::recovery::opening_cell;
use crate::sweeps::segment::{format_cell, store_cell, with_hi};
use crate::sweeps::stop::{Garbage, Stop};
use std::alloc::Global;
use std::io;
use std::string::String;

/// A run until a device call fails.
#[derive(Clone, Copy)]
pub enum Subject {
    /// `format` on a device of zeros.
    Format,
    /// The store of `hi` on a fresh file, whose spare gate is closed.
    StoreClosed,
    /// The store of `yo` after `hi`, with the spare gate open.
    StoreOpen,
    /// `migrate` of an old file with `hi` to a device of zeros.
    Migration,
    /// `open_all` of three files, with two calls on each of them in turn.
    Opening,
}

impl Subject {
    pub(crate) fn title(self) -> &'static str {
        match self {
            Subject::Format => {
                "format on zeros; then a crash with keep | 00 | a5, an opening, and a second format"
            }
            Subject::StoreClosed => {
                "store of hi, the spare gate closed; then a crash with keep | 00 | a5 and an opening"
            }
            Subject::StoreOpen => {
                "store of yo, the spare gate open; then a crash with keep | 00 | a5 and an opening"
            }
            Subject::Migration => {
                "migration of number 1 and hi to a file of zeros; then a crash with keep | 00 | a5 \
                of both, an opening of the new file, and a second migration"
            }
            Subject::Opening => {
                "opening of 3 files; then a crash with keep | 00 | a5, and an opening"
            }
        }
    }

    /// How many device calls a whole run makes.
    pub(crate) fn calls(self) -> u64 {
        match self {
            Subject::Format => 7,
            Subject::StoreClosed => 4,
            Subject::StoreOpen => 5,
            Subject::Migration => 9,
            Subject::Opening => 6,
        }
    }

    /// The number of the first of them.
    pub(crate) fn first_call(self) -> u64 {
        match self {
            Subject::Opening => 0,
            _ => 1,
        }
    }

    /// Runs until the stop, and crashes with this garbage. Answers what the run answered and what
    /// is found after the restart, in words.
    pub(crate) fn cell(
        self,
        alloc: Global,
        stop: Stop,
        garbage: Garbage,
    ) -> io::Result<(String, String)> {
        match self {
            Subject::Format => format_cell(alloc, stop, garbage),
            Subject::StoreClosed => store_cell(
                alloc,
                new_memory(alloc, 0, 1)?,
                stop,
                garbage,
                b"hi",
            ),
            Subject::StoreOpen => store_cell(alloc, with_hi(alloc)?, stop, garbage, b"yo"),
            Subject::Migration => migration_cell(alloc, stop, garbage),
            Subject::Opening => opening_cell(alloc, stop, garbage),
        }
    }
}
