//! The arguments of `dump` and `load`.
ghost use Rattle.std.specs.Prelude.{◌≡◌, ◌↔◌, IfSome, IsTrue, Some, codes};
ghost use Rattle.snap_order.specs.Limits.{MAX_COUNT};
ghost use Rattle.snap_order.specs.Order.{IsDumpable, IsLoadable, IsOneTo};
ghost use Rattle.snap_args.specs.Dumps.{IsAddressWord, IsHolderOf, are_digits, ends_in_port, is_port};
ghost use Rattle.snap_args.specs.{Numbers.IsLargeNumberOf, Orders.IsDumpOf, Orders.IsLoadOf, Words.Reads};
ghost use Rattle.snap_args.specs.Words.{word_of};

use crate::WordFault;
use crate::numbers::{count_of, limit_of, number_to};
use crate::words::text_of;
use clap::ArgMatches;
use snap_order::{DumpOptions, DumpSource, LoadOptions, MAX_TIMEOUT, MAX_TRIES};

/// Parses the arguments of `dump`.
pub(crate) fn dumping<'a>(matches: &ArgMatches<'a>) -> Result<DumpOptions<'a>, WordFault>
    ensures { Reads result (λ d. IsDumpable d × IsDumpOf (word_of matches.now) d) }
{
    Ok(DumpOptions {
        holder: holder_of(text_of(matches, "holder")?),
        tries: number_to(matches, "tries", "number of tries", usize::from(MAX_TRIES))?,
        wait: limit_of(matches, "wait", "seconds of --wait", MAX_TIMEOUT)?,
        timeout: limit_of(matches, "timeout", "seconds of --timeout", MAX_TIMEOUT)?,
    })
}

/// The server or folder that this argument names.
fn holder_of<'a>(word: &'a str) -> DumpSource<'a>
    ensures { IsHolderOf (Some word.now) result }
{
    if is_address_word(word) {
        DumpSource::Server { address: word }
    } else {
        DumpSource::Folder { folder: word }
    }
}

/// Whether the argument is a server's address rather than a folder's path: it begins with `unix:`, or it has no slash
/// and ends in a colon and a port. So a folder whose name looks like an address has to be given as `./NAME`.
fn is_address_word(word: &str) -> bool
    ensures { IsTrue result ↔ IsAddressWord word.now }
{
    let bytes = word.as_bytes();
    bytes.starts_with(b"unix:") || (!bytes.contains(&b'/') && ends_in_port(bytes))
}

/// Whether it ends in a colon and a port.
fn ends_in_port(word: &[u8]) -> bool
    ensures { result ≡ ends_in_port word.now }
{
    for (at, &byte) in word.iter().enumerate() {
        if byte == b':' && is_port(&word[at + 1..]) {
            return true;
        }
    }
    false
}

/// Whether there are only digits, and at least one.
fn is_port(bytes: &[u8]) -> bool
    ensures { result ≡ is_port bytes.now }
{
    !bytes.is_empty() && are_digits(bytes)
}

/// Whether there are only digits.
fn are_digits(bytes: &[u8]) -> bool
    ensures { result ≡ are_digits bytes.now }
{
    for byte in bytes {
        if !byte.is_ascii_digit() {
            return false;
        }
    }
    true
}

/// Parses the arguments of `load`.
pub(crate) fn loading<'a>(matches: &ArgMatches<'a>) -> Result<LoadOptions<'a>, WordFault>
    ensures { Reads result (λ l. IsLoadable l × IsLoadOf (word_of matches.now) l) }
{
    Ok(LoadOptions {
        folder: text_of(matches, "folder")?,
        dump: text_of(matches, "dump")?,
        count: free_count_of(matches)?,
    })
}

/// The number of segments, if it was given.
fn free_count_of(matches: &ArgMatches<'_>) -> Result<Option<u8>, WordFault>
    ensures { Reads result (λ count. IfSome count (IsOneTo MAX_COUNT)
        × IsLargeNumberOf (word_of matches.now (codes "count")) count) }
{
    let Some(_word) = matches.get_str("count") else {
        return Ok(None);
    };
    Ok(Some(count_of(matches)?))
}
