//! The numbers among the arguments of a command, within their limits.
ghost use Rattle.std.specs.Prelude.{◌≢◌, ◌^◌, ◌<◌, ◌≤◌, ℕ, IfSome, MatchResult, Some, codes};
ghost use Rattle.snap_order.specs.{Limits.MAX_COUNT, Order.IsOneTo, Order.IsPlace};
ghost use Rattle.snap_args.specs.Numbers.{IsLargeNumberOf, IsMask, IsModeOf, IsNumberOf, IsPlaceOf};
ghost use Rattle.snap_args.specs.Words.{Finds, Reads, word_of};
ghost use Rattle.snap_args.specs.declared.fault.WordFault.TheVariants.{Memory};

use crate::WordFault;
use crate::words::text_of;
use clap::ArgMatches;
use snap_order::{MAX_COUNT, MODE_BITS};

/// The highest index of a segment.
pub(crate) const LAST_SEGMENT: u64 = MAX_COUNT as u64 - 1;

/// The place of a file's segment, within the limits.
pub(crate) fn place(matches: &ArgMatches<'_>) -> Result<(u8, u8), WordFault>
    ensures { MatchResult result (λ place. IsPlace place.0 place.1 × IsPlaceOf (word_of matches.now) place.0 place.1)
        (λ why. why ≢ Memory → (i n : ℕ) → IsPlace i n × IsPlaceOf (word_of matches.now) i n → ⊥) }
{
    let index = number_of(matches, "index")?;
    let count = count_of(matches)?;
    if index >= count {
        return Err(WordFault::Index { index, count });
    }
    Ok((index, count))
}

/// The number of segments, 1 to 16.
pub(crate) fn count_of(matches: &ArgMatches<'_>) -> Result<u8, WordFault>
    ensures { Reads result (λ n. IsOneTo MAX_COUNT n × IsNumberOf (word_of matches.now (codes "count")) n) }
{
    number_to(matches, "count", "count", usize::from(MAX_COUNT))
}

/// The number given for `what`, 1 to `most`. A fault calls it `called`.
pub(crate) fn number_to(
    matches: &ArgMatches<'_>,
    what: &'static str,
    called: &'static str,
    most: usize,
) -> Result<u8, WordFault>
    requires small { most < 2 ^ 8 }
    ensures { Reads result (λ n. IsOneTo most n × IsNumberOf (word_of matches.now what.now) n) }
{
    let number = number_of(matches, what)?;
    let value = usize::from(number);
    if value == 0 || value > most {
        return Err(WordFault::Outside {
            what: called,
            number: value,
            most,
        });
    }
    Ok(number)
}

/// The number given for `what`, from 0 to 255.
fn number_of(matches: &ArgMatches<'_>, what: &'static str) -> Result<u8, WordFault>
    ensures { Reads result (λ n. (n < 2 ^ 8) × IsNumberOf (word_of matches.now what.now) n) }
{
    let word = text_of(matches, what)?;
    word.parse::<u8>().or(Err(WordFault::Number(what)))
}

/// The number of an option, at most `most`, if it was given. Else it breaks this rule.
pub(crate) fn large_number_of(
    matches: &ArgMatches<'_>,
    what: &'static str,
    most: u64,
    rule: &'static str,
) -> Result<Option<u64>, WordFault>
    ensures { Reads result (λ k. IfSome k (λ n. n ≤ most) × IsLargeNumberOf (word_of matches.now what.now) k) }
{
    let Some(word) = matches.get_str(what) else {
        return Ok(None);
    };
    match word.parse::<u64>() {
        Ok(number) if number <= most => Ok(Some(number)),
        _ => Err(WordFault::Rule(rule)),
    }
}

/// The number that the text is, at most `most`. Else it breaks this rule.
pub(crate) fn number_in(word: &str, most: u64, rule: &'static str) -> Result<u64, WordFault>
    ensures { Reads result (λ n. (n ≤ most) × IsNumberOf (Some word.now) n) }
{
    match word.parse::<u64>() {
        Ok(number) if number <= most => Ok(number),
        _ => Err(WordFault::Rule(rule)),
    }
}

/// The number of an option, 1 to `most`, if it was given. A fault calls it `called`.
pub(crate) fn limit_of(
    matches: &ArgMatches<'_>,
    what: &'static str,
    called: &'static str,
    most: u32,
) -> Result<Option<u32>, WordFault>
    ensures { Reads result (λ limit. IfSome limit (IsOneTo most)
        × IsLargeNumberOf (word_of matches.now what.now) limit) }
{
    let Some(word) = matches.get_str(what) else {
        return Ok(None);
    };
    match word.parse::<u32>() {
        Ok(number) if 1 <= number && number <= most => Ok(Some(number)),
        _ => Err(WordFault::OptionOutside { what: called, most }),
    }
}

/// The mode of the file of a socket.
pub(crate) fn mode_of(matches: &ArgMatches<'_>) -> Result<u16, WordFault>
    ensures { Reads result (λ mode. (mode ≤ MODE_BITS) × IsModeOf (word_of matches.now (codes "socket-mode")) mode) }
{
    match u16::from_str_radix(text_of(matches, "socket-mode")?, 8) {
        Ok(mode) if mode <= MODE_BITS => Ok(mode),
        _ => Err(WordFault::Rule("the socket's mode is not an octal number from 0 to 777")),
    }
}

/// The number of digits of a mask.
const MASK_LEN: usize = 4;

/// The number that the text is, if it is exactly four hexadecimal digits, of either case.
pub(crate) fn mask_of(word: &str) -> Option<u16>
    ensures { Finds result (IsMask word.now) }
{
    if word.len() != MASK_LEN || word.starts_with('+') {
        return None;
    }
    match u16::from_str_radix(word, 16) {
        Ok(bits) => Some(bits),
        Err(_) => None,
    }
}
