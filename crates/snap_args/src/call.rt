//! The arguments of `call`.
ghost use Rattle.std.specs.Prelude.{codes};
ghost use Rattle.snap_order.specs.Order.{IsCallable};
ghost use Rattle.snap_args.specs.Words.{Reads, word_of, words_of};
ghost use Rattle.snap_args.specs.{Numbers.IsLayoutOf, Orders.IsCallOf};

use crate::WordFault;
use crate::numbers::{limit_of, number_to};
use crate::request::question_of;
use crate::words::{is_given, text_of};
use clap::ArgMatches;
use snap_order::{CallOptions, MAX_TIMEOUT, MAX_TRIES, OutputFormat};
use std::alloc::Global;

/// Parses the arguments of `call`.
pub(crate) fn calling<'a>(
    alloc: Global,
    matches: &ArgMatches<'a>,
) -> Result<CallOptions<'a>, WordFault>
    ensures { Reads result (λ c. IsCallable c × IsCallOf (word_of matches.now) (words_of matches.now) c) }
{
    let call = CallOptions {
        address: text_of(matches, "address")?,
        tries: number_to(matches, "tries", "number of tries", usize::from(MAX_TRIES))?,
        wait: limit_of(matches, "wait", "seconds of --wait", MAX_TIMEOUT)?,
        timeout: limit_of(matches, "timeout", "seconds of --timeout", MAX_TIMEOUT)?,
        layout: layout_of(matches)?,
        question: question_of(alloc, matches)?,
    };
    if call.layout != OutputFormat::Lines && !call.question.lists_segments() {
        drop(call);
        return Err(WordFault::Rule("--text and --json are for scan, part, status and health"));
    }
    Ok(call)
}

/// The output format of the reply.
fn layout_of(matches: &ArgMatches<'_>) -> Result<OutputFormat, WordFault>
    ensures { Reads result (IsLayoutOf (word_of matches.now (codes "text")) (word_of matches.now (codes "json"))) }
{
    match (is_given(matches, "text"), is_given(matches, "json")) {
        (false, false) => Ok(OutputFormat::Lines),
        (true, false) => Ok(OutputFormat::Text),
        (false, true) => Ok(OutputFormat::Json),
        (true, true) => Err(WordFault::Rule(
            "--text and --json are given, and an answer is printed in one way",
        )),
    }
}
