//! The arguments of `watch`.
ghost use Rattle.std.specs.Prelude.{◌<◌, All, map};
ghost use Rattle.snap_order.specs.{Limits.MAX_COUNT, Order.IsWatchable};
ghost use Rattle.snap_args.specs.Words.{Reads, word_of, words_of};
ghost use Rattle.snap_args.specs.{Numbers.AreSegmentsOf, Orders.IsWatchOf};

use crate::WordFault;
use crate::numbers::{LAST_SEGMENT, limit_of, number_in};
use crate::words::{is_given, text_of};
use clap::ArgMatches;
use snap_order::{MAX_EVERY, WatchOptions};
use std::alloc::Global;

/// Parses the arguments of `watch`.
pub(crate) fn watching<'a>(
    alloc: Global,
    matches: &ArgMatches<'a>,
) -> Result<WatchOptions<'a>, WordFault>
    ensures { Reads result (λ w. IsWatchable w × IsWatchOf (word_of matches.now) (words_of matches.now) w) }
{
    Ok(WatchOptions {
        address: text_of(matches, "address")?,
        segments: segments_of(alloc, matches.get_strs("segments").unwrap_or(&[]))?,
        every: limit_of(matches, "every", "milliseconds of --every", MAX_EVERY)?,
        is_json: is_given(matches, "json"),
    })
}

/// Parses the segments to show, in order.
fn segments_of(alloc: Global, words: &[&str]) -> Result<Vec<u8>, WordFault>
    ensures { Reads result (λ all. All (λ s. s < MAX_COUNT) all.items
        × AreSegmentsOf (map (λ w. w.now) words.now) all.items) }
{
    let rule = "a segment to show is not a number from 0 to 15";
    let mut segments = Vec::new(alloc);
    for word in words {
        let segment = number_in(*word, LAST_SEGMENT, rule)?;
        segments.push(segment as u8).or(Err(WordFault::Memory))?;
    }
    Ok(segments)
}
