//! Frames cut out of a stream that arrives in pieces.
ghost use Rattle.std.specs.Prelude.{◌≡◌, ◌≤◌, ◌<◌, ℕ, ◌++◌, ◌↔◌, IsTrue, List, [], get_or, length, Some, None, Ok, Err};
ghost use Rattle.std.specs.Prelude.{OnOk, OnErr, IfOk, IfSome, IfErr, IfNone};
ghost use Rattle.snap_frame.specs.Stream.{Held, empty, TakesOff, Found, IsBytes, Ready, pending};

use crate::frame::MAX_PAYLOAD;
use bytes::BytesMut;
use std::alloc::Global;
use std::io;
use std::marker::Model;
use tokio_util::codec::{Decoder, LengthDelimitedCodec};

/// Why a feed takes no more bytes.
#[derive(Clone, Copy, Debug, PartialEq, Eq, Drop)]
pub enum FrameFault {
    /// Memory ran out while a frame was taken off.
    NoMemory,
    /// A length above [`MAX_PAYLOAD`] came first.
    TooLarge,
}

/// The bytes of a stream that arrived and weren't taken off.
#[derive(Drop)]
pub(crate) struct FrameBuffer {
    codec: LengthDelimitedCodec,
    bytes: BytesMut,
    failure: Option<FrameFault>,
}

impl Model for FrameBuffer {
    ghost use Rattle.std.specs.Prelude.{◌≡◌, None};
    ghost use Rattle.snap_frame.specs.Stream.{Held, pending, Ready};

    ghost Value = { Held };

    ghost view = { λ f. record { bytes = pending f.codec f.bytes.items; failure = f.failure } };

    ghost invariant = { λ f. f.failure ≡ None → Ready f.codec };
}

impl FrameBuffer {
    /// An empty buffer. It takes no memory.
    pub fn new(alloc: Global) -> FrameBuffer
        ensures { result ≡ empty }
    {
        FrameBuffer {
            codec: LengthDelimitedCodec::builder()
                .max_frame_length(MAX_PAYLOAD)
                .new_codec(),
            bytes: BytesMut::new(alloc),
            failure: None,
        }
    }

    /// Appends a piece to what is held. If memory runs out nothing changes.
    pub fn push(&mut self, piece: &[u8]) -> Result<(), FrameFault>
        ensures ok { OnOk result ((self.old.failure ≡ None)
            × (self.new ≡ record { bytes = self.old.bytes ++ piece.now; failure = None })) }
        ensures err { OnErr result (self.new ≡ self.old) }
        ensures memory { self.old.failure ≡ None → IfErr result (λ f. f ≡ FrameFault.NoMemory) }
        ensures failed { IfSome self.old.failure (λ f. result ≡ Err f) }
    {
        if let Some(failure) = self.failure {
            return Err(failure);
        }
        match self.bytes.extend_from_slice(piece) {
            Ok(()) => Ok(()),
            Err(_) => Err(FrameFault::NoMemory),
        }
    }

    /// Takes the first whole frame off, and returns its payload.
    pub fn next(&mut self) -> Result<Option<BytesMut>, FrameFault>
        ensures failed { IfSome self.old.failure (λ f. (result ≡ Err f) × (self.new ≡ self.old)) }
        ensures next { self.old.failure ≡ None → TakesOff self.old.bytes result self.new }
    {
        if let Some(failure) = self.failure {
            return Err(failure);
        }
        match next_payload(&mut self.codec, &mut self.bytes) {
            Ok(payload) => Ok(payload),
            Err(failure) => {
                self.failure = Some(failure);
                Err(failure)
            }
        }
    }

    /// From now on every call returns `NoMemory`.
    pub fn fail(&mut self)
        ensures { self.new.failure ≡ Some FrameFault.NoMemory }
    {
        self.failure = Some(FrameFault::NoMemory);
    }

    /// Whether it hasn't failed and no byte is held.
    pub fn is_between(&self) -> bool
        ensures { IsTrue result ↔ (self.now ≡ empty) }
    {
        self.failure.is_none()
            && self.bytes.is_empty()
            && is_at_head(self.codec, *self.bytes.allocator())
    }
}

/// Shows that no byte is above 255.
fn all_bytes(bytes: &BytesMut) -> usize
    ensures { IsBytes bytes.now.items }
{
    let all = bytes.as_slice();
    all.len()
}

/// The payload of the first frame.
fn next_payload(
    codec: &mut LengthDelimitedCodec,
    bytes: &mut BytesMut,
) -> Result<Option<BytesMut>, FrameFault>
    requires { Ready codec.old }
    ensures found { Found (pending codec.old bytes.old.items) result (pending codec.new bytes.new.items) }
    ensures ready { OnOk result (Ready codec.new) }
{
    let _ = all_bytes(bytes);
    let decoded = codec.decode(bytes);
    let _ = all_bytes(bytes);
    match decoded {
        Ok(payload) => Ok(payload),
        Err(error) => match error.kind() {
            io::ErrorKind::OutOfMemory => Err(FrameFault::NoMemory),
            _ => Err(FrameFault::TooLarge),
        },
    }
}

/// Whether the codec waits for a head: only there an input may end.
fn is_at_head(mut codec: LengthDelimitedCodec, alloc: Global) -> bool
    requires { Ready codec }
    ensures { IsTrue result ↔ (pending codec [] ≡ []) }
{
    let mut nothing = BytesMut::new(alloc);
    match codec.decode_eof(&mut nothing) {
        Ok(None) => true,
        Ok(Some(_)) => false,
        Err(_) => false,
    }
}
