//! What the commands of `snapd` share: the parsed command line, exit statuses, the messages with which a command ends,
//! the advice about a file that was refused, whole reads and writes, and values as hexadecimal text, as quoted text and
//! in JSON documents (docs/FORMATS.md, "JSON").
//!
//! Each document is one object on one line. A value is written as text if its bytes are UTF-8, and else in base64; the
//! name of its member says which. `specs/Documents.antt` has the tokens of each document but a file's.
//!
//! It hands on the types that an order uses, the requests to a server and the limits of all layers.
#![tactic(auto)]

mod complaint;
mod document;
mod findings;
mod hex_text;
mod member;
mod message;
mod order;
mod quotation;
mod remedy;
mod status;
mod system_reason;
mod test_stream;
mod whole;

pub use complaint::{complain, complain_of_refusal, complain_twice};
pub use document::{health_document, line_of, part_document, scan_document, status_document};
pub use findings::findings_document;
pub use hex_text::{put_hex, read_hex};
pub use member::{append_value, put_bytes};
pub use message::{
    OneLine, fail, fail_of, or_stop, refuse, refuse_of, say, say_of, stop_without_memory,
};
pub use order::{
    CallOptions, CallRequest, DoctorOptions, DumpOptions, DumpSource, FileOrder, InitOptions,
    Level, LoadOptions, MAX_ADDRESSES, MAX_CLIENTS, MAX_EVERY, MAX_IDLE, MAX_TIMEOUT, MODE_BITS,
    MigrateOptions, Order, OutputFormat, PutOptions, ServeOptions, Source, WatchOptions,
    socket_path,
};
pub use quotation::quote;
pub use remedy::{empty_remedy, format_command, old_format_remedy, unformatted_remedy};
pub use snap_client::MAX_TRIES;
pub use snap_disk::Refusal;
pub use snap_frame::{MAX_UPDATE_VALUE, Request, SegmentSet};
pub use snap_history::{MAX_COUNT, MAX_SCANNERS, MAX_VALUE_LEN};
pub use snap_slot::{OLD_FILE_LEN, SLOT_COUNT};
pub use status::{Exit, Status};
pub use system_reason::{NoReason, SystemReason};
pub use test_stream::TestStream;
pub use whole::{read_up_to, write_whole};
