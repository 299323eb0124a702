//! Requests out of a stream that arrives in pieces.
ghost use Rattle.std.specs.Prelude.{◌≡◌, ◌++◌, ◌↔◌, ◌⊎◌, ℕ, IsTrue, List, Some, None, Ok, Err, OnOk, OnErr, IfSome};
ghost use Rattle.std.specs.Prelude.{IfErr};
ghost use Rattle.snap_frame.specs.Messages.{Malformed};
ghost use Rattle.snap_frame.specs.Stream.{Held, empty, IsNextRequest, refusal_of, HasFrame, HasLongLength, IsPartial};
ghost use Rattle.snap_frame.specs.Stream.{NoFrameBeginsAnother};

use crate::frame_buffer::{FrameBuffer, FrameFault};
use crate::request::{Request, read_request};
use snap_disk::Refusal;
use std::alloc::{AllocError, Global};
use std::marker::Model;

/// Takes the pieces of a stream as they arrive, and returns the requests of its frames.
///
/// It holds the bytes that arrived and weren't taken off: whole frames, and the beginning of one.
/// Once it has failed every call returns the same refusal.
#[derive(Drop)]
pub struct Feed {
    frames: FrameBuffer,
}

impl Model for Feed {
    ghost use Rattle.snap_frame.specs.Stream.{Held};

    ghost Value = { Held };

    ghost view = { λ f. f.frames };
}

impl Feed {
    /// An empty feed. It takes no memory before the first piece.
    pub fn new(alloc: Global) -> Feed
        ensures { result ≡ empty }
    {
        Feed {
            frames: FrameBuffer::new(alloc),
        }
    }

    /// Appends a piece of the stream to what is held.
    ///
    /// `NoMemory` if memory runs out: nothing changes, and the piece may be pushed again. A feed
    /// that has failed returns its `NoMemory` or `TooLarge`.
    pub fn push(&mut self, piece: &[u8]) -> Result<(), Refusal>
        ensures ok { OnOk result ((self.old.failure ≡ None)
            × (self.new ≡ record { bytes = self.old.bytes ++ piece.now; failure = None })) }
        ensures err { OnErr result (self.new ≡ self.old) }
        ensures memory { self.old.failure ≡ None → IfErr result (λ why. why ≡ Refusal.NoMemory) }
        ensures failed { IfSome self.old.failure (λ f. result ≡ Err (refusal_of f)) }
    {
        self.frames.push(piece).map_err(refusal)
    }

    /// Takes the first whole frame off and returns its request, or `None` if more bytes are needed.
    ///
    /// - `Malformed` if its payload is no request: the frame is taken off, and the feed can continue.
    /// - `TooLarge` if a length above [`MAX_PAYLOAD`](crate::MAX_PAYLOAD) comes first: the feed has failed.
    /// - `NoMemory` if memory runs out: the feed has failed.
    pub fn next(&mut self) -> Result<Option<Request>, Refusal>
        // A feed that has failed says so again.
        ensures failed { IfSome self.old.failure (λ f. (result ≡ Err (refusal_of f)) × (self.new ≡ self.old)) }
        // The result, and what is left.
        ensures next { self.old.failure ≡ None → IsNextRequest self.old.bytes result self.new }
        // None exactly if the bytes begin with neither a whole frame nor a length above the limit.
        ensures none { self.old.failure ≡ None → (result ≡ Ok None ↔ IsPartial self.old.bytes) }
        // `TooLarge` exactly if they begin with such a length.
        ensures too_large { self.old.failure ≡ None → (result ≡ Err Refusal.TooLarge ↔ HasLongLength self.old.bytes) }
        // A malformed frame is refused as one, unless memory runs out.
        ensures malformed { (x rest : List ℕ) → self.old.failure ≡ None → HasFrame self.old.bytes x rest → Malformed x
            → (result ≡ Err Refusal.Malformed) ⊎ (result ≡ Err Refusal.NoMemory) }
        // So the bytes begin with at most one frame.
        ensures first { NoFrameBeginsAnother }
    {
        match self.frames.next() {
            Ok(None) => Ok(None),
            Ok(Some(payload)) => match read_request(payload) {
                Ok(Some(request)) => Ok(Some(request)),
                Ok(None) => Err(Refusal::Malformed),
                Err(AllocError) => {
                    self.frames.fail();
                    Err(Refusal::NoMemory)
                }
            },
            Err(failure) => Err(refusal(failure)),
        }
    }

    /// Whether it hasn't failed and no byte of an unfinished frame is held: the stream may end here.
    pub fn is_between(&self) -> bool
        ensures { IsTrue result ↔ (self.now ≡ empty) }
    {
        self.frames.is_between()
    }
}

/// The refusal of a failure.
fn refusal(failure: FrameFault) -> Refusal
    ensures { result ≡ refusal_of failure }
{
    match failure {
        FrameFault::NoMemory => Refusal::NoMemory,
        FrameFault::TooLarge => Refusal::TooLarge,
    }
}
