//! Puts: gets the value, asks for the current number, and sends the update.
ghost use Rattle.std.specs.Prelude.{◌≡◌, ◌+◌, ◌^◌, ◌<◌, ◌≤◌, IfErr, IfOk, length};
ghost use Rattle.snap_frame.specs.Messages.{IsInLimits};
ghost use Rattle.snap_order.specs.Limits.{MAX_UPDATE_VALUE};
ghost use Rattle.snap_order.specs.Order.{FitsUpdate, IsCallable, IsWithin};
ghost use Rattle.snap_order.specs.declared.order.OutputFormat.TheVariants.{Lines};
ghost use Rattle.snap_order.specs.declared.order.CallRequest.TheVariants as question;
ghost use Rattle.snap_order.specs.declared.order.Source.TheVariants as sources;
ghost use Rattle.snap_order.specs.request.Request.TheVariants.{Update};
ghost use Rattle.snap_client_commands.specs.Ends.{Asks, tries_of};
ghost use Rattle.snap_client_commands.specs.Puts.{EndsLacking, GoesOn, HasValue, MayLack, Puts, ReadsInput};
ghost use Rattle.snap_client_commands.specs.Puts.{TellsNumber};
ghost use Rattle.snap_client_commands.specs.declared.put.NoValue.TheVariants.{NoMemory};

use crate::call::{answer_from, answer_to, end, fail, refuse, refuse_here, tries_of};
use bytes::Bytes;
use snap_client::ClientFault;
use snap_frame::{Reply, SegmentStatus};
use snap_order::{
    CallOptions, CallRequest, Exit, MAX_VALUE_LEN, OutputFormat, PutOptions, Refusal, Request,
    Source, read_up_to,
};
use std::alloc::Global;
use std::io::{self, Read, Write};

/// Why there is no value to put.
#[derive(Drop)]
enum NoValue {
    /// Standard input has more bytes than a value may have.
    TooLong,
    /// Standard input failed.
    Failed(io::Error),
    /// Memory ran out.
    NoMemory,
}

/// Stores the value after the number of the order, or after the current one, which it asks the
/// server for. It gets the value first, and makes no connection without one.
pub(crate) fn store<
    R: Read + Drop,
    C: Write + Drop,
    F: FnMut() -> Option<(R, C)>,
    I: Read,
    W: Write,
    E: Write,
>(
    alloc: Global,
    order: &CallOptions<'_>,
    put: &PutOptions,
    connect: &mut F,
    input: &mut I,
    writer: &mut W,
    errors: &mut E,
) -> Exit
    requires limits { IsCallable order.now }
    requires within { IsWithin (question.Put put.now) }
    requires callable { F.IsAlwaysCallable connect.old }
    ensures puts { Puts (tries_of order.now) F.step R.remaining C.contents put.now
        (I.remaining input.old) connect.old result connect.new (W.contents writer.old) (W.contents writer.new) }
    ensures unread { (ReadsInput (question.Put put.now) → ⊥) → input.new ≡ input.old }
{
    let value = match value_of(alloc, &put.value, input) {
        Ok(value) => value,
        Err(lack) => return say_lack(alloc, lack, errors),
    };
    let segment = put.segment;
    match put.after {
        Some(number) => update(
            alloc, order, segment, number, value, connect, writer, errors,
        ),
        None => {
            let told = answer_to(alloc, &Request::Status, tries_of(order), connect);
            go_on(alloc, order, segment, value, told, connect, writer, errors)
        }
    }
}

/// The value of a put: standard input, or the argument.
fn value_of<I: Read>(alloc: Global, source: &Source, input: &mut I) -> Result<Bytes, NoValue>
    requires within { FitsUpdate source.now }
    ensures value { IfOk result (HasValue source.now (I.remaining input.old)) }
    ensures fits { IfOk result (λ v. length v ≤ MAX_UPDATE_VALUE) }
    ensures lack { IfErr result (MayLack source.now (I.remaining input.old)) }
    ensures unread { (source.now ≡ sources.Input → ⊥) → input.new ≡ input.old }
{
    match source {
        Source::Input => {
            // One byte more than a value may have shows that the input is too long.
            let mut bytes = [0u8; MAX_VALUE_LEN + 1];
            let len = read_up_to(input, &mut bytes).map_err(NoValue::Failed)?;
            if len > MAX_VALUE_LEN {
                return Err(NoValue::TooLong);
            }
            copy_of(alloc, &bytes[..len])
        }
        Source::Words(bytes) => copy_of(alloc, bytes.as_slice()),
    }
}

/// These bytes as a value.
fn copy_of(alloc: Global, bytes: &[u8]) -> Result<Bytes, NoValue>
    ensures value { IfOk result (λ v. v ≡ bytes.now) }
    ensures lack { IfErr result (λ lack. lack ≡ NoMemory) }
{
    Bytes::copy_from_slice(alloc, bytes).map_err(|_| NoValue::NoMemory)
}

/// Complains that there is no value, and says why.
fn say_lack<E: Write>(alloc: Global, lack: NoValue, errors: &mut E) -> Exit
    ensures { EndsLacking lack result }
{
    match lack {
        NoValue::TooLong => refuse_here(Refusal::TooLong, errors),
        NoValue::NoMemory => refuse_here(Refusal::NoMemory, errors),
        NoValue::Failed(error) => fail(alloc, &format_args!("standard input: {error}"), errors),
    }
}

/// Stores the value after the segment's number in the answer. If the server has no such segment, or
/// gave no status, the call ends with that.
fn go_on<R: Read + Drop, C: Write + Drop, F: FnMut() -> Option<(R, C)>, W: Write, E: Write>(
    alloc: Global,
    order: &CallOptions<'_>,
    segment: u8,
    value: Bytes,
    told: Result<Reply, ClientFault>,
    connect: &mut F,
    writer: &mut W,
    errors: &mut E,
) -> Exit
    requires limits { IsCallable order.now }
    requires told { IfOk told IsInLimits }
    requires fits { length value ≤ MAX_UPDATE_VALUE }
    requires callable { F.IsAlwaysCallable connect.old }
    ensures { GoesOn (tries_of order.now) F.step R.remaining C.contents segment value told
        connect.old result connect.new (W.contents writer.old) (W.contents writer.new) }
{
    match told {
        Ok(Reply::Status(statuses)) => match number_of(&statuses, segment) {
            Ok(number) => update(
                alloc, order, segment, number, value, connect, writer, errors,
            ),
            Err(count) => refuse(Refusal::NoSegment, count, errors),
        },
        told => {
            let question = CallRequest::Request(Request::Status);
            let layout = OutputFormat::Lines;
            end(alloc, order, &question, layout, told, writer, errors)
        }
    }
}

/// The number of this segment. If there is no such segment, the error is how many there are.
fn number_of(statuses: &[SegmentStatus], segment: u8) -> Result<u64, u64>
    ensures number { IfOk result (TellsNumber statuses.now segment) }
    ensures none { IfErr result (λ count. length statuses.now ≤ segment) }
    ensures count { IfErr result (λ count. length statuses.now ≡ count) }
{
    match statuses.get(usize::from(segment)) {
        Some(status) => Ok(status.number),
        None => Err(statuses.len() as u64),
    }
}

/// Sends an update with the next number after this one.
fn update<R: Read + Drop, C: Write + Drop, F: FnMut() -> Option<(R, C)>, W: Write, E: Write>(
    alloc: Global,
    order: &CallOptions<'_>,
    segment: u8,
    number: u64,
    value: Bytes,
    connect: &mut F,
    writer: &mut W,
    errors: &mut E,
) -> Exit
    requires limits { IsCallable order.now }
    requires next { number + 1 < 2 ^ 64 }
    requires fits { length value ≤ MAX_UPDATE_VALUE }
    requires callable { F.IsAlwaysCallable connect.old }
    ensures { Asks Lines (tries_of order.now) F.step R.remaining C.contents
        (question.Request (Update segment (number + 1) value)) connect.old result connect.new
        (W.contents writer.old) (W.contents writer.new) }
{
    let question = CallRequest::Request(Request::Update {
        segment,
        number: number + 1,
        value,
    });
    match answer_from(alloc, &question, tries_of(order), connect) {
        Err(fault) if fault.may_pass() => {
            let address = order.address;
            let text = format_args!(
                "{address}: {fault}: send it again with --after {number}, since an update is stored once"
            );
            fail(alloc, &text, errors)
        }
        answer => {
            let layout = OutputFormat::Lines;
            end(alloc, order, &question, layout, answer, writer, errors)
        }
    }
}
