//! Sends the request of a call and prints the reply, and fetches the values of a server for a dump.
ghost use Rattle.std.specs.Prelude.{◌≡◌, ◌≤◌, ℕ, List, IfSome, MatchOption, length};
ghost use Rattle.snap_client.specs.Again.{TriesIn};
ghost use Rattle.snap_frame.specs.Messages.{IsAskable, max_payload, payload};
ghost use Rattle.snap_order.specs.Limits.{MAX_TRIES};
ghost use Rattle.snap_order.specs.Order.{IsCallable, IsWithin, request_of};
ghost use Rattle.snap_client_commands.specs.Ends.{EndsAsked, EndsRead, HasFailed, IsOnlyValue, IsRead, IsRefused};
ghost use Rattle.snap_client_commands.specs.Ends.{PrintsInPlace, answer_status, tries_of};
ghost use Rattle.snap_client_commands.specs.{Fetch.Fetches, Puts.Does, Puts.ReadsInput};

use crate::print::{LineText, answer_of, is_any_fenced, stored_line};
use crate::put::store;
use snap_client::{ClientFault, call_again, call_while};
use snap_frame::{NamedValue, Reply, SegmentValue};
use snap_order::{
    CallOptions, CallRequest, Exit, OneLine, OutputFormat, Refusal, Request, SegmentSet, Status,
    complain, complain_of_refusal, write_whole,
};
use std::alloc::Global;
use std::fmt::Display;
use std::io::{Read, Write};

/// Does what the order says: sends its requests to a server, prints the reply on `writer`, and returns the exit status.
/// The status of a health call with a fenced segment is [`Status::Refused`]. `connect` returns a reader and a writer,
/// or `None` if no connection can be made. For each request it is called once, and again if the same request may be
/// answered on another connection: up to the order's number of tries. If the order waits there is no such limit:
/// `connect` itself has to pause, and to end the wait by `None`.
///
/// A put of standard input first reads `input` to its end, and makes no connection if that fails or
/// has too many bytes for a value. Then it sends two requests: one for the current number, and an
/// update with the next one. If the order has a number, it sends the update alone.
///
/// If the server refuses, or memory runs out, `errors` gets a complaint, nothing is printed, and
/// the status is [`Status::Refused`]. The outcome of an update is printed without memory, so after
/// a reply memory can run out only for the values and fences of a read. If a connection, `writer`
/// or `input` fails, `errors` gets a complaint and the status is [`Status::Failed`]; `writer` may
/// have got a beginning of the text. A complaint is one line.
pub fn ask<
    R: Read + Drop,
    C: Write + Drop,
    F: FnMut() -> Option<(R, C)>,
    I: Read,
    W: Write,
    E: Write,
>(
    alloc: Global,
    order: &CallOptions<'_>,
    connect: &mut F,
    input: &mut I,
    writer: &mut W,
    errors: &mut E,
) -> Exit
    requires limits { IsCallable order.now }
    requires callable { F.IsAlwaysCallable connect.old }

    // Each request was sent on at most that many connections, and the last answer decides the end.
    ensures does { Does order.now.layout (tries_of order.now) F.step R.remaining C.contents
        order.now.question (I.remaining input.old) connect.old result connect.new
        (W.contents writer.old) (W.contents writer.new) }
    ensures unread { (ReadsInput order.now.question → ⊥) → input.new ≡ input.old }
{
    match &order.question {
        CallRequest::Put(put) => store(alloc, order, put, connect, input, writer, errors),
        question => {
            let answer = answer_from(alloc, question, tries_of(order), connect);
            end(alloc, order, question, order.layout, answer, writer, errors)
        }
    }
}

/// The number and value of each segment of a server, in order, at one moment: by one scan. An error says how the
/// program ends: the server refused or gave no answer, and `errors` got the complaint, as from [`ask`].
/// `connect` returns a reader and a writer, or `None` if no connection can be made. It is called once at least and
/// `tries` times at most. If `tries` is `None` there is no such limit, and `connect` ends the wait by `None`.
pub fn fetch<R: Read + Drop, C: Write + Drop, F: FnMut() -> Option<(R, C)>, E: Write>(
    alloc: Global,
    address: &str,
    tries: Option<u8>,
    connect: &mut F,
    errors: &mut E,
) -> Result<Vec<SegmentValue>, Exit>
    requires some { IfSome tries (λ n. 1 ≤ n) }
    requires few { IfSome tries (λ n. n ≤ MAX_TRIES) }
    requires callable { F.IsAlwaysCallable connect.old }

    // One scan was sent on at most that many connections, and these are the values of its answer.
    ensures { Fetches tries F.step R.remaining C.contents connect.old result connect.new }
{
    match answer_to(alloc, &Request::Scan, tries, connect) {
        Ok(Reply::Snapshot(values)) => Ok(values),
        Ok(Reply::Refused { why, detail }) => Err(refuse(why, detail, errors)),
        Ok(_) => Err(give_up(alloc, address, ClientFault::BadReply, errors)),
        Err(ClientFault::NoMemory) => Err(refuse_here(Refusal::NoMemory, errors)),
        Err(fault) => Err(give_up(alloc, address, fault, errors)),
    }
}

/// The most connections for each request of the order. `None` if it waits, and `connect` decides.
#[tactic(auto, unfolding(crate::specs::Ends::tries_of))]
pub(crate) fn tries_of(order: &CallOptions<'_>) -> Option<u8>
    requires limits { IsCallable order.now }
    ensures value { result ≡ tries_of order.now }
    ensures some { IfSome result (λ n. 1 ≤ n) }
    ensures few { IfSome result (λ n. n ≤ MAX_TRIES) }
{
    match order.wait {
        Some(_) => None,
        None => Some(order.tries),
    }
}

/// The answer to this request, over at most `tries` connections, or over as many as `connect` makes.
pub(crate) fn answer_to<R: Read + Drop, C: Write + Drop, F: FnMut() -> Option<(R, C)>>(
    alloc: Global,
    request: &Request,
    tries: Option<u8>,
    connect: &mut F,
) -> Result<Reply, ClientFault>
    requires fits { length (payload request.now) ≤ max_payload }
    requires askable { IsAskable request.now }
    requires some { IfSome tries (λ n. 1 ≤ n) }
    requires few { IfSome tries (λ n. n ≤ MAX_TRIES) }
    requires callable { F.IsAlwaysCallable connect.old }
    ensures { TriesIn tries F.step R.remaining C.contents request.now connect.old result connect.new }
{
    match tries {
        Some(tries) => call_again(alloc, connect, request, tries),
        None => call_while(alloc, connect, request),
    }
}

/// The server's answer to a call's request. A health call and a put ask for the status.
pub(crate) fn answer_from<R: Read + Drop, C: Write + Drop, F: FnMut() -> Option<(R, C)>>(
    alloc: Global,
    question: &CallRequest,
    tries: Option<u8>,
    connect: &mut F,
) -> Result<Reply, ClientFault>
    requires fits { length (payload (request_of question.now)) ≤ max_payload }
    requires askable { IsAskable (request_of question.now) }
    requires within { IsWithin question.now }
    requires some { IfSome tries (λ n. 1 ≤ n) }
    requires few { IfSome tries (λ n. n ≤ MAX_TRIES) }
    requires callable { F.IsAlwaysCallable connect.old }
    ensures { TriesIn tries F.step R.remaining C.contents (request_of question.now) connect.old result connect.new }
{
    match question {
        CallRequest::Request(request) => answer_to(alloc, request, tries, connect),
        CallRequest::Get { segment } => {
            let bits = 1u16 << *segment;
            answer_to(alloc, &Request::Part(SegmentSet { bits }), tries, connect)
        }
        CallRequest::Health => answer_to(alloc, &Request::Status, tries, connect),
        CallRequest::Put(_) => answer_to(alloc, &Request::Status, tries, connect),
    }
}

/// Ends a call with the answer to its request.
pub(crate) fn end<W: Write, E: Write>(
    alloc: Global,
    order: &CallOptions<'_>,
    question: &CallRequest,
    layout: OutputFormat,
    answer: Result<Reply, ClientFault>,
    writer: &mut W,
    errors: &mut E,
) -> Exit
    ensures { EndsAsked layout question.now answer result (W.contents writer.old) (W.contents writer.new) }
{
    match answer {
        Ok(Reply::Refused { why, detail }) => refuse(why, detail, errors),
        Ok(Reply::Stored(number)) => {
            let line = stored_line(number);
            let before = format_args!("stored {number}, but ");
            let text = line.as_str().as_bytes();
            print_whole(alloc, Status::Done, text, &before, writer, errors)
        }
        Ok(reply) => print_read(alloc, order, question, layout, &reply, writer, errors),
        Err(ClientFault::NoMemory) => refuse_here(Refusal::NoMemory, errors),
        Err(fault) => give_up(alloc, order.address, fault, errors),
    }
}

/// Prints the reply to a read. Of a get it prints the value alone.
#[tactic(auto, unfolding(crate::specs::Ends::Prints))]
fn print_read<W: Write, E: Write>(
    alloc: Global,
    order: &CallOptions<'_>,
    question: &CallRequest,
    layout: OutputFormat,
    reply: &Reply,
    writer: &mut W,
    errors: &mut E,
) -> Exit
    requires { IsRead reply.now }
    ensures { EndsRead layout question.now reply.now result (W.contents writer.old) (W.contents writer.new) }
{
    match (question, reply) {
        (CallRequest::Get { segment }, Reply::Part(values)) => match only_value(*segment, values) {
            Some(value) => print_whole(alloc, Status::Done, value, &"", writer, errors),
            None => give_up(alloc, order.address, ClientFault::BadReply, errors),
        },
        _ => {
            let Ok(text) = answer_of(alloc, question, layout, reply) else {
                return refuse_here(Refusal::NoMemory, errors);
            };
            let status = status_of(question, reply);
            print_whole(alloc, status, text.as_slice(), &"", writer, errors)
        }
    }
}

/// The value of this segment. `None` unless it is the only value.
fn only_value<'a>(segment: u8, values: &'a [NamedValue]) -> Option<&'a [u8]>
    ensures { MatchOption result ((x : List ℕ) → IsOnlyValue segment values.now x → ⊥)
        (λ x. IsOnlyValue segment values.now x.now) }
{
    if values.len() != 1 || values[0].segment != segment {
        return None;
    }
    Some(values[0].value.as_slice())
}

/// The status of a call whose answer was printed.
fn status_of(question: &CallRequest, reply: &Reply) -> Status
    ensures { result ≡ answer_status question.now reply.now }
{
    match (question, reply) {
        (CallRequest::Health, Reply::Status(statuses)) if is_any_fenced(statuses) => {
            Status::Refused
        }
        _ => Status::Done,
    }
}

/// Prints the text, which takes no memory, and ends with this status. If `writer` fails, the complaint begins with
/// `before`.
fn print_whole<T: Display, W: Write, E: Write>(
    alloc: Global,
    status: Status,
    text: &[u8],
    before: &T,
    writer: &mut W,
    errors: &mut E,
) -> Exit
    ensures { PrintsInPlace status text.now result (W.contents writer.old) (W.contents writer.new) }
{
    match write_whole(writer, text) {
        Ok(()) => Exit {
            status,
            is_told: true,
        },
        Err(error) => fail(
            alloc,
            &format_args!("{before}standard output: {error}"),
            errors,
        ),
    }
}

/// Complains that the server refused the request, with the refusal's detail. It takes no memory.
pub(crate) fn refuse<E: Write>(why: Refusal, detail: u64, errors: &mut E) -> Exit
    ensures { IsRefused result }
{
    let (code, name) = (why.code(), why.name());
    let line = LineText::of(&format_args!("snapd: refused {code} {name} {detail}\n"));
    Exit {
        status: Status::Refused,
        is_told: write_whole(errors, line.as_str().as_bytes()).is_ok(),
    }
}

/// Complains of a refusal of this program: the server wasn't asked, or memory ran out. It takes no memory.
pub(crate) fn refuse_here<E: Write>(why: Refusal, errors: &mut E) -> Exit
    ensures { IsRefused result }
{
    Exit {
        status: Status::Refused,
        is_told: complain_of_refusal(errors, why),
    }
}

/// Complains that there is no answer, with advice.
pub(crate) fn give_up<E: Write>(
    alloc: Global,
    address: &str,
    fault: ClientFault,
    errors: &mut E,
) -> Exit
    ensures { HasFailed result }
{
    let remedy = remedy_of(fault);
    let address = OneLine(address);
    fail(alloc, &format_args!("{address}: {fault}{remedy}"), errors)
}

/// Complains that something failed.
pub(crate) fn fail<T: Display, E: Write>(alloc: Global, text: &T, errors: &mut E) -> Exit
    ensures { HasFailed result }
{
    Exit {
        status: Status::Failed,
        is_told: complain(alloc, errors, text),
    }
}

/// The advice after a fault. If no connection could be made, the caller that makes them gives it.
fn remedy_of(fault: ClientFault) -> &'static str {
    match fault {
        ClientFault::ConnectFailed => "",
        ClientFault::BadReply => ": check the address",
        _ => ": send it again, since an update is stored once",
    }
}
