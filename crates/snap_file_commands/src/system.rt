//! The commands on the system's files and folders: what they open, lock and make, and what they print as they end.
//!
//! [`init`], [`load`] and [`examine`] (`doctor`) are whole commands. [`take_file`] and [`take_pair`] open the files of
//! the others, [`segment_files`] and [`files_in_order`] find those of a folder, and [`open_telling`] opens one of them.
//! The functions of complaint.rt print why a command ends at a file or folder, and return its status.

mod complaint;
mod doctor_command;
mod dump_command;
mod file_system;
mod files;
mod folder;
mod folder_refusal;
mod init_command;
mod load_command;
mod loading_folder;
mod store_times;

pub use complaint::{fail_at_file, fail_in, fail_twice, stop};
pub use doctor_command::examine;
pub use dump_command::{folder_values, print_dump};
pub use file_system::limit_of;
pub use files::{
    FirstFault, first_faults, open_telling, take_file, take_pair, too_short_files, writes,
};
pub use folder::{files_in_order, segment_files};
pub use folder_refusal::FolderReadFault;
pub use init_command::init;
pub use load_command::load;
