//! The arguments that make up a request.
ghost use Rattle.std.specs.Prelude.{◌≢◌, ◌≤◌, ◌∷◌, [], None, codes, length, map};
ghost use Rattle.clap.specs.Words.{Text};
ghost use Rattle.snap_order.specs.Messages.{IsAskable, max_payload, payload};
ghost use Rattle.snap_order.specs.Order.{FitsUpdate, IsWithin};
ghost use Rattle.snap_order.specs.declared.order.CallRequest.{CallRequest};
ghost use Rattle.snap_order.specs.declared.order.CallRequest.TheVariants as question;
ghost use Rattle.snap_args.specs.Requests.{IsPartOf, IsPutOf, IsQuestionOf, IsSourceOf, IsUpdateOf};
ghost use Rattle.snap_args.specs.Requests.{KeepsLimits};
ghost use Rattle.snap_args.specs.Words.{Reads, word_of, words_of};

use crate::WordFault;
use crate::numbers::{LAST_SEGMENT, large_number_of, mask_of, number_in};
use crate::words::is;
use bytes::Bytes;
use clap::ArgMatches;
use snap_order::{
    CallRequest, MAX_UPDATE_VALUE, PutOptions, Request, SegmentSet, Source, read_hex,
};
use std::alloc::Global;

/// Parses the request of a call, within the limits.
pub(crate) fn question_of(alloc: Global, matches: &ArgMatches<'_>) -> Result<CallRequest, WordFault>
    ensures { Reads result (λ q. KeepsLimits q × IsQuestionOf (words_of matches.now (codes "request"))
        (word_of matches.now (codes "value")) (word_of matches.now (codes "after")) q) }
{
    let words = matches.get_strs("request").unwrap_or(&[]);
    if words.len() == 2 && is(words[0], "put") {
        return Ok(CallRequest::Put(put(alloc, words[1], matches)?));
    }
    match (matches.get_str("value"), matches.get_str("after")) {
        (None, None) => plain_question(alloc, words),
        _ => Err(WordFault::Rule("--value and --after are for `put I` alone")),
    }
}

/// Parses these arguments as a request other than a put, without its options.
fn plain_question(alloc: Global, words: &[&str]) -> Result<CallRequest, WordFault>
    requires other { (i : Text) → map (λ w. w.now) words.now ≢ codes "put" ∷ i ∷ [] }
    ensures { Reads result (λ q. KeepsLimits q × IsQuestionOf (map (λ w. w.now) words.now) None None q) }
{
    match words {
        ["scan"] => Ok(CallRequest::Request(Request::Scan)),
        ["status"] => Ok(CallRequest::Request(Request::Status)),
        ["health"] => Ok(CallRequest::Health),
        ["part", mask] => Ok(CallRequest::Request(part(mask)?)),
        ["get", segment] => {
            let rule = "the segment to get is not a number from 0 to 15";
            let segment = number_in(segment, LAST_SEGMENT, rule)? as u8;
            Ok(CallRequest::Get { segment })
        }
        ["update", segment, number, value] => {
            let update = update(alloc, segment, number, value)?;
            Ok(CallRequest::Request(update))
        }
        _ => Err(WordFault::Rule(form_rule(words))),
    }
}

/// The rule that arguments break if they have the form of no request.
fn form_rule(words: &[&str]) -> &'static str {
    if matches!(words.first().copied(), Some("put" | "get")) {
        return "a put is `put I`, of standard input or with --value, and a get is `get I`";
    }
    "the request is not `put I`, `get I`, `update I NUMBER HEX`, `scan`, `part MASK`, `status` or `health`"
}

/// Parses a put of this segment, with its options.
fn put(alloc: Global, segment: &str, matches: &ArgMatches<'_>) -> Result<PutOptions, WordFault>
    ensures { Reads result (λ p. IsWithin (question.Put p) × IsPutOf segment.now
        (word_of matches.now (codes "value")) (word_of matches.now (codes "after")) p) }
{
    let rule = "the segment to put is not a number from 0 to 255";
    let segment = number_in(segment, 255, rule)? as u8;
    let rule = "the number after which it is stored is not from 0 to 18446744073709551614";
    let after = large_number_of(matches, "after", u64::MAX - 1, rule)?;
    let value = source_of(alloc, matches)?;
    Ok(PutOptions {
        segment,
        value,
        after,
    })
}

/// The source of a put's value.
fn source_of(alloc: Global, matches: &ArgMatches<'_>) -> Result<Source, WordFault>
    ensures { Reads result (λ s. FitsUpdate s × IsSourceOf (word_of matches.now (codes "value")) s) }
{
    let Some(text) = matches.get_str("value") else {
        return Ok(Source::Input);
    };
    if text.len() > MAX_UPDATE_VALUE {
        return Err(WordFault::TooLong(text.len()));
    }
    let bytes = Bytes::copy_from_slice(alloc, text.as_bytes())?;
    Ok(Source::Words(bytes))
}

/// Parses the scan of the segments in this mask.
fn part(mask: &str) -> Result<Request, WordFault>
    ensures { Reads result (λ r. IsAskable r × IsPartOf mask.now r) }
{
    let Some(bits) = mask_of(mask) else {
        return Err(WordFault::Rule("the part's mask is not four hexadecimal digits"));
    };
    if bits == 0 {
        return Err(WordFault::Rule("the part's mask names no segment"));
    }
    Ok(Request::Part(SegmentSet { bits }))
}

/// Parses an update.
fn update(alloc: Global, segment: &str, number: &str, value: &str) -> Result<Request, WordFault>
    ensures { Reads result (λ r. (length (payload r) ≤ max_payload) × IsUpdateOf segment.now number.now value.now r) }
{
    let rule = "the update's segment is not a number from 0 to 255";
    let segment = number_in(segment, 255, rule)? as u8;
    let rule = "the update's number is not a number from 0 to 18446744073709551615";
    let number = number_in(number, u64::MAX, rule)?;
    let rule = "the update's value is not `-` or two hexadecimal digits for each byte";
    let bytes = match read_hex(alloc, value.as_bytes())? {
        Some(bytes) => bytes,
        None => return Err(WordFault::Rule(rule)),
    };
    if bytes.len() > MAX_UPDATE_VALUE {
        return Err(WordFault::TooLong(bytes.len()));
    }
    let Ok(value) = Bytes::from_vec(bytes) else {
        return Err(WordFault::Memory);
    };
    Ok(Request::Update {
        segment,
        number,
        value,
    })
}
