//! The wire format, which nothing above this crate knows: reads requests and replies from the bytes of a stream, in
//! pieces of any size, and writes them (docs/FORMATS.md, "Frames and messages").
//!
//! Contracts use the definitions of `specs/Messages.antt` (payloads and frames) and
//! `specs/Stream.antt` (the first frame of the bytes that are held).
#![tactic(auto)]

mod entries;
mod feed;
mod frame;
mod frame_buffer;
mod list;
mod named;
mod numbers;
mod reply;
mod reply_feed;
mod request;

pub use entries::SegmentStatus;
pub use feed::Feed;
pub use frame::MAX_PAYLOAD;
pub use frame_buffer::FrameFault;
pub use named::NamedValue;
pub use reply::{Reply, reply_frame_len, write_reply};
pub use reply_feed::{ReplyFault, ReplyFeed};
pub use request::{MAX_UPDATE_VALUE, Request, request_frame_len, write_request};
pub use snap_scan::{SegmentSet, SegmentValue};
