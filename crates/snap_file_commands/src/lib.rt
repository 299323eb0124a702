//! The commands on files: over any device, reader and writer, and, in [`system`], on the system's files and folders;
//! dumps; the order and names of a folder's files.
//!
//! [`act`] runs a command on one file (`specs/Commands.antt`): `format`, `put`, `get` or `check`. [`found`] makes one
//! file for `init`, or keeps it if it is whole (`specs/Foundation.antt`). [`act_pair`] is `migrate`: it converts a file
//! of the old format to a new file (`specs/Migration.antt`). [`held_value`] reads one file for `dump`
//! (`specs/Contents.antt`), and [`load`] makes one file of a dump; [`dump`] writes and reads its text.
//! `specs/Effects.antt` says which ends leave a device as it was. [`finish`] prints on standard error why a command
//! ended early, and returns its status.
//!
//! [`order_files`] sorts a folder's files by their headers, whatever their names, or returns what is wrong with them
//! (`specs/SegmentOrder.antt`). [`sign_of_loss`] finds whether missing files of a folder were lost. [`file_name`] is
//! the name that `init` gives to a segment's file; [`is_segment_name`] and [`is_further`] judge other names
//! (`specs/SegmentName.antt`).
#![tactic(auto)]

mod commands;
mod contents;
pub mod dump;
mod fault;
mod foundation;
mod loads;
mod loss;
mod migration;
mod remedy;
mod segment_name;
mod segment_order;
mod slot_value;
pub mod system;

pub use commands::act;
pub use contents::held_value;
pub use fault::{CommandFault, finish};
pub use foundation::found;
pub use loads::{LoadedFile, load};
pub use loss::sign_of_loss;
pub use migration::{MigrationFault, act_pair};
pub use remedy::words_of_format;
pub use segment_name::{file_name, is_further, is_segment_name};
pub use segment_order::{FolderFault, SegmentPlace, order_files};
pub use snap_history::MAX_COUNT;
