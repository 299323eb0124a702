//! Replies out of a stream that arrives in pieces: the client's half.
ghost use Rattle.std.specs.Prelude.{◌≡◌, ◌++◌, ◌↔◌, ◌⊎◌, ℕ, IsTrue, List, Some, None, Ok, Err, OnOk, OnErr, IfSome};
ghost use Rattle.std.specs.Prelude.{IfErr};
ghost use Rattle.snap_frame.specs.Messages.{SaysNothing};
ghost use Rattle.snap_frame.specs.Stream.{Held, empty, IsNextReply, HasFrame, HasLongLength, IsPartial};

use crate::frame_buffer::{FrameBuffer, FrameFault};
use crate::reply::{Reply, read_reply};
use std::alloc::{AllocError, Global};
use std::marker::Model;

/// Why no reply was returned.
#[derive(Clone, Copy, Debug, PartialEq, Eq, Drop)]
pub enum ReplyFault {
    /// A frame's payload is no reply.
    BadReply,
    /// The feed has failed, and returns this from then on.
    Failed(FrameFault),
}

/// Takes the pieces of a stream as they arrive, and returns the replies of its frames.
///
/// It holds the bytes that arrived and weren't taken off. Once it has failed every call returns the same fault.
#[derive(Drop)]
pub struct ReplyFeed {
    frames: FrameBuffer,
}

impl Model for ReplyFeed {
    ghost use Rattle.snap_frame.specs.Stream.{Held};

    ghost Value = { Held };

    ghost view = { λ f. f.frames };
}

impl ReplyFeed {
    /// An empty feed. It takes no memory before the first piece.
    pub fn new(alloc: Global) -> ReplyFeed
        ensures { result ≡ empty }
    {
        ReplyFeed {
            frames: FrameBuffer::new(alloc),
        }
    }

    /// As [`Feed::push`](crate::Feed::push). A feed that has failed returns its failure.
    pub fn push(&mut self, piece: &[u8]) -> Result<(), FrameFault>
        ensures ok { OnOk result ((self.old.failure ≡ None)
            × (self.new ≡ record { bytes = self.old.bytes ++ piece.now; failure = None })) }
        ensures err { OnErr result (self.new ≡ self.old) }
        ensures memory { self.old.failure ≡ None → IfErr result (λ f. f ≡ FrameFault.NoMemory) }
        ensures failed { IfSome self.old.failure (λ f. result ≡ Err f) }
    {
        self.frames.push(piece)
    }

    /// As [`Feed::next`](crate::Feed::next). `BadReply` if the payload is no reply: the feed can continue.
    pub fn next(&mut self) -> Result<Option<Reply>, ReplyFault>
        ensures failed { IfSome self.old.failure (λ f. (result ≡ Err (ReplyFault.Failed f)) × (self.new ≡ self.old)) }
        ensures next { self.old.failure ≡ None → IsNextReply self.old.bytes result self.new }
        ensures none { self.old.failure ≡ None → (result ≡ Ok None ↔ IsPartial self.old.bytes) }
        ensures too_large { self.old.failure ≡ None
            → (result ≡ Err (ReplyFault.Failed FrameFault.TooLarge) ↔ HasLongLength self.old.bytes) }
        ensures bad { (x rest : List ℕ) → self.old.failure ≡ None → HasFrame self.old.bytes x rest → SaysNothing x
            → (result ≡ Err ReplyFault.BadReply) ⊎ (result ≡ Err (ReplyFault.Failed FrameFault.NoMemory)) }
    {
        match self.frames.next() {
            Ok(None) => Ok(None),
            Ok(Some(payload)) => match read_reply(payload) {
                Ok(Some(reply)) => Ok(Some(reply)),
                Ok(None) => Err(ReplyFault::BadReply),
                Err(AllocError) => {
                    self.frames.fail();
                    Err(ReplyFault::Failed(FrameFault::NoMemory))
                }
            },
            Err(failure) => Err(ReplyFault::Failed(failure)),
        }
    }

    /// Whether it hasn't failed and no byte of an unfinished frame is held.
    pub fn is_between(&self) -> bool
        ensures { IsTrue result ↔ (self.now ≡ empty) }
    {
        self.frames.is_between()
    }
}
