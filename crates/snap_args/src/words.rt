//! Parses the arguments of the program.
ghost use Rattle.std.specs.Prelude.{◌≡◌, ◌≢◌, [], ◌↔◌, IfErr, IfOk, IsTrue, Some, map};
ghost use Rattle.clap.specs.Words.{fault_of};
ghost use Rattle.snap_order.specs.Limits.{MAX_COUNT};
ghost use Rattle.snap_order.specs.Order.{IsFileWithinLimits, IsOneTo, IsPlace, IsWithinLimits};
ghost use Rattle.snap_args.specs.Grammar.{grammar_of};
ghost use Rattle.snap_args.specs.Orders.{IsAskedBy, IsCheckOf, IsFileAskedBy, IsFoundingOf};
ghost use Rattle.snap_args.specs.Orders.{IsMigrationOf, IsParseFault, IsTold, Means};
ghost use Rattle.snap_args.specs.{Numbers.IsGiven, Words.Reads, Words.word_of, Words.words_of};

use crate::WordFault;
use crate::call::calling;
use crate::dump::{dumping, loading};
use crate::grammar::grammar;
use crate::numbers::{count_of, number_in, place};
use crate::serve::serving;
use crate::watch::watching;
use clap::ArgMatches;
use clap::error::ErrorKind;
use snap_order::{DoctorOptions, FileOrder, InitOptions, MigrateOptions, Order, SLOT_COUNT};
use std::alloc::Global;
use std::convert::AsStr;

/// The fault of arguments without a command.
const NO_COMMAND: WordFault = WordFault::Rule("no command is given");

/// Parses the arguments of the program, of which the first is its name.
///
/// The order is exactly what the arguments mean, with all numbers within their limits. Where there
/// is a fault, they mean none, or memory ran out. Of arguments that don't match the grammar, `Help`
/// is for those that ask for help or the version, and `Words` for all others.
pub fn order<'a, S: AsStr>(alloc: Global, words: &'a [S]) -> Result<Order<'a>, WordFault>
    ensures limits { IfOk result IsWithinLimits }
    ensures read { Reads result (Means (map S.text words.entry.now)) }
    ensures told { fault_of grammar_of (map S.text words.entry.now) ≢ []
        → IfErr result (IsTold (map S.text words.entry.now)) }
{
    let Ok(commands) = grammar(alloc) else {
        return Err(WordFault::Memory);
    };
    let matches = match commands.try_get_matches_from(words) {
        Ok(matches) => matches,
        Err(error) => return Err(fault_of(error)),
    };
    let Some((command, matches)) = matches.subcommand() else {
        return Err(NO_COMMAND);
    };
    order_of(alloc, command, matches)
}

/// Parses the arguments of this command.
fn order_of<'a>(
    alloc: Global,
    command: &str,
    matches: &ArgMatches<'a>,
) -> Result<Order<'a>, WordFault>
    ensures { Reads result (λ order. IsWithinLimits order
        × IsAskedBy command.now (word_of matches.now) (words_of matches.now) order) }
{
    match command {
        "script" => Ok(Order::Script),
        "serve" => serving(alloc, matches),
        "call" => Ok(Order::Call(calling(alloc, matches)?)),
        "migrate" => Ok(Order::Migrate(migration(matches)?)),
        "init" => Ok(Order::Init(founding(matches)?)),
        "doctor" => Ok(Order::Doctor(DoctorOptions {
            folder: text_of(matches, "folder")?,
            is_measured: is_given(matches, "measure"),
        })),
        "dump" => Ok(Order::Dump(dumping(matches)?)),
        "load" => Ok(Order::Load(loading(matches)?)),
        "watch" => Ok(Order::Watch(watching(alloc, matches)?)),
        _ => Ok(Order::File(file_order(command, matches)?)),
    }
}

/// Parses the arguments of `format`, `put`, `get` or `check`.
fn file_order<'a>(command: &str, matches: &ArgMatches<'a>) -> Result<FileOrder<'a>, WordFault>
    ensures { Reads result (λ order. IsFileWithinLimits order × IsFileAskedBy command.now (word_of matches.now) order) }
{
    if is(command, "check") {
        return checking(matches);
    }
    let file = text_of(matches, "file")?;
    let (index, count) = place(matches)?;
    let order = match command {
        "format" => FileOrder::Format { file, index, count },
        "put" => FileOrder::Put { file, index, count },
        "get" => FileOrder::Get { file, index, count },
        _ => return Err(NO_COMMAND),
    };
    Ok(order)
}

/// Parses the arguments of `check`.
fn checking<'a>(matches: &ArgMatches<'a>) -> Result<FileOrder<'a>, WordFault>
    ensures { Reads result (λ order. IsFileWithinLimits order × IsCheckOf (word_of matches.now) order) }
{
    let file = text_of(matches, "file")?;
    let is_json = is_given(matches, "json");
    let is_value = is_given(matches, "value");
    match (matches.get_str("slot"), is_value, is_json) {
        (None, false, _) => Ok(FileOrder::Check { file, is_json }),
        (Some(word), true, false) => {
            let rule = "the slot is not a number from 0 to 2";
            let slot = number_in(word, SLOT_COUNT - 1, rule)? as u8;
            Ok(FileOrder::Slot { file, slot })
        }
        _ => Err(WordFault::Rule("--slot S and --value are given together, and without --json")),
    }
}

/// Whether the text is this name.
pub(crate) fn is(text: &str, name: &'static str) -> bool
    ensures { IsTrue result ↔ (text.now ≡ name.now) }
{
    text == name
}

/// The text of the argument of this name. Fails if it isn't given.
pub(crate) fn text_of<'a>(
    matches: &ArgMatches<'a>,
    what: &'static str,
) -> Result<&'a str, WordFault>
    ensures { Reads result (λ text. word_of matches.now what.now ≡ Some text.now) }
{
    matches.get_str(what).ok_or(WordFault::Missing(what))
}

/// Whether the flag was given.
pub(crate) fn is_given(matches: &ArgMatches<'_>, name: &'static str) -> bool
    ensures { IsTrue result ↔ IsGiven (word_of matches.now name.now) }
{
    matches!(matches.get_str(name), Some("true"))
}

/// Parses the arguments of `init`.
fn founding<'a>(matches: &ArgMatches<'a>) -> Result<InitOptions<'a>, WordFault>
    ensures { Reads result (λ f. IsOneTo MAX_COUNT f.count × IsFoundingOf (word_of matches.now) f) }
{
    Ok(InitOptions {
        folder: text_of(matches, "folder")?,
        count: count_of(matches)?,
        is_missing_empty: is_given(matches, "missing-empty"),
    })
}

/// Parses the arguments of `migrate`.
fn migration<'a>(matches: &ArgMatches<'a>) -> Result<MigrateOptions<'a>, WordFault>
    ensures { Reads result (λ m. IsPlace m.index m.count × IsMigrationOf (word_of matches.now) m) }
{
    let old = text_of(matches, "old")?;
    let new = text_of(matches, "new")?;
    let (index, count) = place(matches)?;
    Ok(MigrateOptions {
        old,
        new,
        index,
        count,
    })
}

/// The fault for an error of the parser.
fn fault_of(error: clap::Error) -> WordFault
    ensures fault { IsParseFault error result }
{
    match error.kind() {
        ErrorKind::OutOfMemory => WordFault::Memory,
        ErrorKind::DisplayHelp | ErrorKind::DisplayVersion => WordFault::Help(error),
        _ => WordFault::Words(error),
    }
}
