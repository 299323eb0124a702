//! The head of a frame.
ghost use Rattle.std.specs.Prelude.{◌≡◌, ◌≤◌, ◌+◌, ◌<◌, ◌++◌, length, IsOk, IfErr, OnOk, OnErr};
ghost use Rattle.std.specs.Int.{w32, to_be_bytes};
ghost use Rattle.snap_frame.specs.Messages.{max_payload};

use bytes::BytesMut;
use snap_disk::Refusal;

/// The most bytes of a frame's payload.
pub const MAX_PAYLOAD: usize = 66_000;

/// The bytes of a payload's length before it.
pub(crate) const HEAD_LEN: usize = 4;

/// Appends the length of a payload to the buffer, and reserves room for the payload, so that no later step can fail. If
/// memory runs out, which is the only error, the buffer's bytes are unchanged. None is asked for if there is room.
pub(crate) fn start_frame(payload_len: usize, out: &mut BytesMut) -> Result<(), Refusal>
    requires { payload_len ≤ max_payload }
    ensures head { OnOk result (out.new.items ≡ out.old.items ++ to_be_bytes w32 payload_len) }
    ensures room { OnOk result (payload_len ≤ out.new.spare) }
    ensures err { OnErr result (out.new.items ≡ out.old.items) }
    ensures fits { 4 + payload_len ≤ out.old.spare → IsOk result }
    ensures memory { IfErr result (λ why. why ≡ Refusal.NoMemory) }
{
    if out.reserve(HEAD_LEN + payload_len).is_err() {
        return Err(Refusal::NoMemory);
    }
    out.extend_reserved(&(payload_len as u32).to_be_bytes());
    Ok(())
}
