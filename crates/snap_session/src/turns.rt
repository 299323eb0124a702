//! Turns: runs a session over any reader and writer, a limited number of rounds at a time.
ghost use Rattle.std.specs.Prelude.{◌≡◌, ◌<◌, ◌≤◌, ◌↔◌, length, [], None, OnSome};
ghost use Rattle.snap_session.specs.Asked.{AllAsked};
ghost use Rattle.snap_session.specs.Talk.{Stays, most_owed, HoldsFrameAnd};
ghost use Rattle.snap_session.specs.Turns.{Turns, Sends, StandsAt, Serves, TakesRounds};

use crate::service::Service;
use crate::session::{Session, WaitingFor};
use snap_frame::FrameFault;
use std::alloc::Global;
use std::io;
use std::io::{Read, Write};
use std::sync::Wait;

#[cfg(test)]
mod tests;

/// The most rounds of one turn, so that one peer can't starve the others.
const MAX_ROUNDS: u32 = 16;

/// Why a connection ended.
#[derive(Clone, Copy, Debug, PartialEq, Eq, Drop)]
pub enum End {
    /// The input ended between two frames.
    Closed,
    /// The input ended inside a frame.
    Truncated,
    /// A length above the limit arrived; its refusal was the last reply.
    TooLarge,
    /// A read failed.
    ReadFailed,
    /// A write failed, or took no byte.
    WriteFailed,
    /// Memory ran out.
    NoMemory,
}

/// The result of a turn: what the session waits for, or its end.
#[derive(Clone, Copy, PartialEq, Eq, Drop)]
pub enum Polled {
    /// Nothing: there may be more to do at once.
    Again,
    /// Input: all that arrived is answered and written.
    NeedsInput,
    /// The writer, which takes no more bytes for now.
    NeedsRoom,
    /// The outcome of a request that was handed over.
    NeedsOutcome,
    /// The connection has ended.
    Over(End),
}

/// The result of writing the pending output.
enum SendOutcome {
    All,
    Blocked,
    Failed,
}

/// Writes the pending output, as far as the writer takes it.
fn send_owed<W: Write>(session: &mut Session, writer: &mut W) -> SendOutcome
    ensures sends { Sends session.old session.new (W.contents writer.old) (W.contents writer.new) }
    ensures all { result ≡ SendOutcome.All ↔ session.new.owed ≡ [] }
{
    while !session.owed().is_empty() {
        match writer.write(session.owed()) {
            Ok(0) => return SendOutcome::Failed,
            Ok(n) => session.sent(n),
            Err(error) if error.kind() == io::ErrorKind::WouldBlock => return SendOutcome::Blocked,
            Err(_) => return SendOutcome::Failed,
        }
    }
    SendOutcome::All
}

/// Takes one turn of at most 16 rounds. Each round writes the pending output, answers the frames
/// held and reads once, in this order. The turn ends earlier if one of them would block.
///
/// A reader or writer reports by `WouldBlock` that it would block. Every other error ends the connection without a
/// retry, and so does a write that takes no byte. Nothing is read while output is pending, and nothing is answered
/// while [`MAX_OWED`](crate::MAX_OWED) bytes of it or more are. `piece` is the read buffer and isn't empty.
pub fn proceed<R: Read, W: Write, S: Service>(
    session: &mut Session,
    reader: &mut R,
    writer: &mut W,
    service: &mut S,
    key: usize,
    piece: &mut [u8],
) -> Polled
    requires room { 0 < length piece.old }
    requires asked { AllAsked S.asked }
    ensures goes { Turns Stays S.gives service.old service.new session.old
        (R.remaining reader.old) (R.remaining reader.new) (W.contents writer.old) (W.contents writer.new) session.new }
    ensures stands { StandsAt result session.new (R.remaining reader.new) }
    ensures bounded { length session.old.owed ≤ most_owed → length session.new.owed ≤ most_owed }
    ensures free { (S.hands_over → ⊥) → session.old.asked ≡ None → session.new.asked ≡ None }
    ensures outcome { (S.hands_over → ⊥) → session.old.asked ≡ None → result ≡ Polled.NeedsOutcome → ⊥ }
    ensures under { session.old.asked ≡ None → OnSome session.new.asked (S.hands_over_under key) }

    // A peer's bytes are read no faster than it takes its replies.
    ensures held { HoldsFrameAnd (length piece.old) session.old → HoldsFrameAnd (length piece.old) session.new }
    ensures rounds { TakesRounds S.gives (length piece.old) result
        (record {
          service = service.old;
          talk = session.old;
          left = R.remaining reader.old;
          written = W.contents writer.old;
        })
        (record {
          service = service.new;
          talk = session.new;
          left = R.remaining reader.new;
          written = W.contents writer.new;
        }) }
{
    for _ in 0..MAX_ROUNDS {
        match send_owed(session, writer) {
            SendOutcome::All => {}
            SendOutcome::Blocked => return Polled::NeedsRoom,
            SendOutcome::Failed => return Polled::Over(End::WriteFailed),
        }
        match session.over() {
            None => {}
            Some(FrameFault::TooLarge) => return Polled::Over(End::TooLarge),
            Some(FrameFault::NoMemory) => return Polled::Over(End::NoMemory),
        }
        match session.answer(service, key) {
            WaitingFor::Bytes => {}
            WaitingFor::Turn => continue,
            WaitingFor::Outcome if session.owed().is_empty() => return Polled::NeedsOutcome,
            WaitingFor::Outcome => continue,
        }
        if !session.owed().is_empty() {
            continue;
        }
        match reader.read(piece) {
            Ok(0) if session.is_between() => return Polled::Over(End::Closed),
            Ok(0) => return Polled::Over(End::Truncated),
            Ok(n) => session.take_in(&piece[..n]),
            Err(error) if error.kind() == io::ErrorKind::WouldBlock => return Polled::NeedsInput,
            Err(_) => return Polled::Over(End::ReadFailed),
        }
    }
    Polled::Again
}

/// Answers all that is read, in order, until the input ends or something fails. It reads at most 4,096 bytes at a time.
///
/// By its end it has written the frames of the replies that the service gave to the requests that were read:
///
/// - [`End::Closed`], [`End::Truncated`], [`End::ReadFailed`]: all of them;
/// - [`End::TooLarge`]: all of them, followed by the refusal of that length;
/// - [`End::NoMemory`]: whole frames, of all requests that were answered except perhaps the last
///   one, and no refusal after them;
/// - [`End::WriteFailed`]: a beginning of these bytes, and not all of them.
///
/// The service hands no request over. A `WouldBlock` is an error here.
pub fn serve<X: Wait, R: Read, W: Write, S: Service>(
    rt: &X,
    alloc: Global,
    reader: &mut R,
    writer: &mut W,
    service: &mut S,
) -> End
    requires alone { S.hands_over → ⊥ }
    requires asked { AllAsked S.asked }
    ensures { Serves S.gives service.old service.new (R.remaining reader.old) (R.remaining reader.new)
        (W.contents writer.old) (W.contents writer.new) result }
{
    let mut session = Session::new(alloc);
    let mut piece = [0u8; 4096];
    for _ in rt.forever() {
        match proceed(&mut session, reader, writer, service, 0, &mut piece) {
            Polled::Again => {}
            Polled::NeedsInput => return End::ReadFailed,
            Polled::NeedsRoom => return End::WriteFailed,
            Polled::NeedsOutcome => unreachable!(),
            Polled::Over(end) => return end,
        }
    }
    unreachable!()
}
