//! The arguments of `serve`.
ghost use Rattle.std.specs.Prelude.{◌≡◌, IfOk, codes, length, map};
ghost use Rattle.snap_order.specs.Order.{IsOneTo, IsWithinLimits, KeepsLimits};
ghost use Rattle.snap_args.specs.Words.{Reads, word_of, words_of};
ghost use Rattle.snap_args.specs.{Numbers.IsLevelOf, Orders.AreAddressesOf, Orders.IsServerOf, Orders.IsServiceOf};

use crate::WordFault;
use crate::numbers::{large_number_of, limit_of, mode_of, number_to};
use crate::words::text_of;
use clap::ArgMatches;
use snap_order::{
    Level, MAX_ADDRESSES, MAX_CLIENTS, MAX_COUNT, MAX_IDLE, MAX_SCANNERS, Order, ServeOptions,
};
use std::alloc::Global;

/// Parses the arguments of `serve`: a server with files, which are in order of segment, or with a folder.
pub(crate) fn serving<'a>(alloc: Global, matches: &ArgMatches<'a>) -> Result<Order<'a>, WordFault>
    ensures { Reads result (λ order. IsWithinLimits order
        × IsServerOf (word_of matches.now) (words_of matches.now) order) }
{
    let files = matches.get_strs("files").unwrap_or(&[]);
    let most = usize::from(MAX_COUNT);
    match (matches.get_str("dir"), files.len()) {
        (Some(folder), 0) => {
            let serving = service_of(alloc, matches, Vec::new(alloc))?;
            Ok(Order::ServeFolder { folder, serving })
        }
        (Some(_), _) => Err(WordFault::Rule("FILEs and --dir are given, and a server has either")),
        (None, 0) => Err(WordFault::Rule("no FILE and no --dir is given")),
        (None, number) if number > most => Err(WordFault::Outside {
            what: "number of files",
            number,
            most,
        }),
        (None, _) => {
            let files = Vec::from_slice(alloc, files)?;
            Ok(Order::Serve(service_of(alloc, matches, files)?))
        }
    }
}

/// Parses the other arguments of a server, for these files.
fn service_of<'a>(
    alloc: Global,
    matches: &ArgMatches<'a>,
    files: Vec<&'a str>,
) -> Result<ServeOptions<'a>, WordFault>
    ensures files { IfOk result (λ s. s.files.items ≡ files.entry.items) }
    ensures read { Reads result (λ s. KeepsLimits s × IsServiceOf (word_of matches.now) (words_of matches.now) s) }
{
    let rule = "the number of connections is not from 0 to 18446744073709551615";
    Ok(ServeOptions {
        files,
        addresses: addresses_of(alloc, matches)?,
        socket_mode: mode_of(matches)?,
        scanners: number_to(matches, "scanners", "number of scanners", MAX_SCANNERS)?,
        connections: large_number_of(matches, "connections", u64::MAX, rule)?,
        clients: limit_of(
            matches,
            "clients-max",
            "clients of --clients-max",
            MAX_CLIENTS,
        )?,
        idle: limit_of(matches, "idle", "seconds of --idle", MAX_IDLE)?,
        log: level_of(matches)?,
        http: matches.get_str("http"),
    })
}

/// The addresses at which a server listens, in order.
fn addresses_of<'a>(alloc: Global, matches: &ArgMatches<'a>) -> Result<Vec<&'a str>, WordFault>
    ensures { Reads result (λ all. IsOneTo MAX_ADDRESSES (length all.items)
        × AreAddressesOf (word_of matches.now (codes "address"))
        (words_of matches.now (codes "listen")) (map (λ a. a.now) all.items)) }
{
    let address = text_of(matches, "address")?;
    let further = matches.get_strs("listen").unwrap_or(&[]);
    if further.len() >= MAX_ADDRESSES {
        return Err(WordFault::Outside {
            what: "number of addresses",
            number: further.len().saturating_add(1),
            most: MAX_ADDRESSES,
        });
    }
    let mut all = Vec::from_slice(alloc, &[address])?;
    all.extend_from_slice(further)?;
    Ok(all)
}

/// The level of a server's log.
fn level_of(matches: &ArgMatches<'_>) -> Result<Level, WordFault>
    ensures { Reads result (IsLevelOf (word_of matches.now (codes "log"))) }
{
    match text_of(matches, "log")? {
        "error" => Ok(Level::Error),
        "warn" => Ok(Level::Warn),
        "info" => Ok(Level::Info),
        "debug" => Ok(Level::Debug),
        _ => Err(WordFault::Rule("--log is not `error`, `warn`, `info` or `debug`")),
    }
}
