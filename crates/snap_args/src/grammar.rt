//! The commands and their arguments as the parser takes them, with a table of arguments for each command.
ghost use Rattle.std.specs.Prelude.{◌≡◌, IfOk, codes, false};
ghost use Rattle.clap.specs.Words.{App, app_of, new_app, rule_of, with_subcommand};
ghost use Rattle.snap_args.specs.Grammar.{called, checked, dumped, examined, filed, founded, grammar_of, loaded};
ghost use Rattle.snap_args.specs.Grammar.{paired, placed, program_of, served, watched};
ghost use Rattle.snap_args.specs.Tables.{app_with, command_with, rule_in, shown_rule};

use crate::help::{
    CALL_HELP, CHECK_HELP, DOCTOR_HELP, DUMP_HELP, FORMAT_HELP, GET_HELP, INIT_HELP, LOAD_HELP,
    MIGRATE_HELP, PROGRAM_HELP, PUT_HELP, SCRIPT_HELP, SERVE_HELP, WATCH_HELP,
};
use ArgumentKind::{
    Choice, Flag, FreeNumber, LargeNumber, Many, Needed, NeededMany, Number, Text, Texts,
};
use clap::{Arg, ArgAction, Command, value_parser};
use std::alloc::{AllocError, Global};

/// The version of the program.
pub const VERSION: &str = "0.2.0";

/// The text of `--version`. Its second line has 100 bytes, which verification/quick.py overwrites in the built program:
/// with the source that it was built from, and whether it was proved.
const VERSION_AND_BUILD: &str = "0.2.0
it isn't known how this was built                                                                   ";

/// An argument of a command.
struct Word<'a> {
    name: &'a str,
    /// The name of its value in the help.
    shown: &'a str,
    kind: ArgumentKind<'a>,
    help: &'a str,
}

/// The kind of an argument.
enum ArgumentKind<'a> {
    /// A required positional argument, such as a file's path.
    Needed,
    /// A positional argument that is given once or more.
    NeededMany,
    /// A positional argument that may be given any number of times, or not at all.
    Many,
    /// An option without a value.
    Flag,
    /// An optional option with a text.
    Text,
    /// An optional option with a text, which may be repeated.
    Texts,
    /// An option with a text, and its default.
    Choice(&'a str),
    /// An option with a number from 0 to 255, and its default.
    Number(&'a str),
    /// An optional option with a number from 0 to 255.
    FreeNumber,
    /// An optional option with a number of 64 bits.
    LargeNumber,
}

/// A table of arguments. A row has the argument's name, the name of its value, its kind, and its help.
macro_rules! words {
    ($($name:literal $shown:literal $kind:expr, $help:expr;)*) => {
        [$(Word { name: $name, shown: $shown, kind: $kind, help: $help }),*]
    };
}

const FILE_HELP: &str = "The path of the segment's file";

const INDEX_HELP: &str = "The segment's index, below N";

const COUNT_HELP: &str = "How many segments there are, 1 to 16";

const ADDRESS_HELP: &str = "Where the server listens: HOST:PORT, as 127.0.0.1:7070, or unix:PATH";

const TRIES_HELP: &str = "The most connections that are made, 1 to 10";

const WAIT_HELP: &str = "Try again for this many seconds if there is no answer, 1 to 86400";

const TIMEOUT_HELP: &str = "End if there is no answer for this many seconds, 1 to 86400";

/// The arguments of a command on a segment's file: the file, and the segment's place.
static PLACE_WORDS: [Word<'static>; 3] = words! {
    "file" "FILE" Needed, FILE_HELP;
    "index" "I" Number("0"), INDEX_HELP;
    "count" "N" Number("1"), COUNT_HELP;
};

static CHECK_WORDS: [Word<'static>; 4] = words! {
    "file" "FILE" Needed, FILE_HELP;
    "json" "" Flag, "Print it as JSON, on one line";
    "slot" "S" Text, "The slot whose value is printed, 0 to 2";
    "value" "" Flag, "Print the value in slot S, and nothing else";
};

static MIGRATE_WORDS: [Word<'static>; 4] = words! {
    "old" "OLD" Needed, "The path of the file of the old format";
    "new" "NEW" Needed, "The path of the new file";
    "index" "I" Number("0"), INDEX_HELP;
    "count" "N" Number("1"), COUNT_HELP;
};

static INIT_WORDS: [Word<'static>; 3] = words! {
    "folder" "DIR" Needed, "The path of the folder, which is made where it isn't there";
    "count" "N" Number("1"), "How many segments there are to be, 1 to 16";
    "missing-empty" "" Flag, "Make a missing file, empty, where another one holds a value";
};

static DOCTOR_WORDS: [Word<'static>; 2] = words! {
    "folder" "DIR" Needed, "The path of the folder";
    "measure" "" Flag, "Store values in a file of its own there, and say how long that takes";
};

static SERVE_WORDS: [Word<'static>; 11] = words! {
    "address" "ADDR" Needed, ADDRESS_HELP;
    "files" "FILE" Many, "The files, in order of segment: 1 to 16";
    "dir" "DIR" Text, "The folder of the files, in place of these";
    "listen" "ADDR" Texts, "One more address to listen at; again and again for further ones, 16 in all";
    "socket-mode" "MODE" Choice("0600"), "The mode of the file of a unix:PATH: users who may write it may connect";
    "http" "ADDR" Text, "Where to serve browsers and monitors, by HTTP: HOST:PORT; else nowhere";
    "scanners" "S" Number("4"), "How many requests are answered at the same moment, 1 to 16";
    "connections" "K" LargeNumber, "End after this many connections";
    "clients-max" "N" LargeNumber, "The most connections that are open at once, 1 to 1000000";
    "idle" "SECONDS" LargeNumber, "Close a connection that was silent for this many seconds, 1 to 31536000";
    "log" "LEVEL" Choice("info"), "The lowest level of a line on standard error: error, warn, info or debug";
};

static CALL_WORDS: [Word<'static>; 9] = words! {
    "address" "ADDR" Needed, ADDRESS_HELP;
    "request" "WORD" NeededMany, "The request: put I, get I, update I NUMBER HEX, scan, part MASK, status or health";
    "tries" "T" Number("1"), TRIES_HELP;
    "wait" "SECONDS" LargeNumber, WAIT_HELP;
    "timeout" "SECONDS" LargeNumber, TIMEOUT_HELP;
    "value" "TEXT" Text, "The value of a put, in place of standard input; --value=TEXT where it begins with -";
    "after" "K" LargeNumber, "Store number K + 1, without asking for the segment's number";
    "text" "" Flag, "Print each value as text, if it is printable";
    "json" "" Flag, "Print the answer as JSON, on one line";
};

static WATCH_WORDS: [Word<'static>; 4] = words! {
    "address" "ADDR" Needed, ADDRESS_HELP;
    "segments" "SEGMENT" Many, "The segments to show, 0 to 15; all where none is given";
    "every" "MILLISECONDS" LargeNumber, "Milliseconds between two polls, 1 to 86400000; else 1000";
    "json" "" Flag, "Print each change as a JSON object, on one line";
};

static DUMP_WORDS: [Word<'static>; 4] = words! {
    "holder" "ADDR|DIR" Needed, "Where the server listens, or the folder of the files";
    "tries" "T" Number("1"), TRIES_HELP;
    "wait" "SECONDS" LargeNumber, WAIT_HELP;
    "timeout" "SECONDS" LargeNumber, TIMEOUT_HELP;
};

static LOAD_WORDS: [Word<'static>; 3] = words! {
    "folder" "DIR" Needed, "The path of the folder, which isn't there or is empty";
    "dump" "DUMP" Needed, "The path of the dump, or `-` for standard input";
    "count" "M" FreeNumber,
        "How many segments there are to be, 1 to 16, and at least as many as the dump has";
};

/// The program with all its commands and their arguments.
pub(crate) fn grammar<'a>(alloc: Global) -> Result<Command<'a>, AllocError>
    ensures { IfOk result (λ command. app_of command ≡ grammar_of) }
{
    let all = Ok(program(alloc));
    let about = "Make and format the file of one segment";
    let all = with_command(alloc, all, "format", about, FORMAT_HELP, &PLACE_WORDS);
    let about = "Store standard input as the segment's next value";
    let all = with_command(alloc, all, "put", about, PUT_HELP, &PLACE_WORDS);
    let about = "Print the segment's value, and nothing else";
    let all = with_command(alloc, all, "get", about, GET_HELP, &PLACE_WORDS);
    let about = "Show what a file holds, slot by slot, and change nothing";
    let all = with_command(alloc, all, "check", about, CHECK_HELP, &CHECK_WORDS);
    let about = "Carry a file of the old format over to a new file, and leave the old one as it is";
    let all = with_command(alloc, all, "migrate", about, MIGRATE_HELP, &MIGRATE_WORDS);
    let about = "Make a folder with the file of each segment, and go on where that was cut off";
    let all = with_command(alloc, all, "init", about, INIT_HELP, &INIT_WORDS);
    let about = "Say how the files of a folder and its disk are, and what helps";
    let all = with_command(alloc, all, "doctor", about, DOCTOR_HELP, &DOCTOR_WORDS);
    let about = "Serve segments to clients, safe from crashes";
    let all = with_command(alloc, all, "serve", about, SERVE_HELP, &SERVE_WORDS);
    let about = "Ask a server, and print its reply";
    let all = with_command(alloc, all, "call", about, CALL_HELP, &CALL_WORDS);
    let about = "Show what a server holds, and each change of it";
    let all = with_command(alloc, all, "watch", about, WATCH_HELP, &WATCH_WORDS);
    let about = "Print all that a server or a folder of files holds, as one document";
    let all = with_command(alloc, all, "dump", about, DUMP_HELP, &DUMP_WORDS);
    let about = "Make a folder with the file of each segment of a dump";
    let all = with_command(alloc, all, "load", about, LOAD_HELP, &LOAD_WORDS);
    let about = "Run a script of writers and scanners, and print what each step answers";
    with_command(alloc, all, "script", about, SCRIPT_HELP, &[])
}

/// The program without commands.
fn program<'a>(alloc: Global) -> Command<'a>
    ensures { app_of result ≡ program_of }
{
    Command::new(alloc, "snapd")
        .about("Keep one value of up to 4,080 bytes in a file, safe from crashes")
        .after_help(PROGRAM_HELP)
        .version(VERSION_AND_BUILD)
        .propagate_version(true)
        .subcommand_required(true)
}

/// Adds a command with this name, these texts and arguments. Fails if memory runs out, or if `program` has failed.
fn with_command<'a>(
    alloc: Global,
    program: Result<Command<'a>, AllocError>,
    name: &'a str,
    about: &'a str,
    more: &'a str,
    words: &[Word<'a>],
) -> Result<Command<'a>, AllocError>
    ensures { (app wanted : App) → IfOk program.entry (λ all. app_of all ≡ app)
        → command_with name.entry.now words.entry.now ≡ wanted
        → IfOk result (λ all. app_of all ≡ with_subcommand app wanted.top) }
{
    let mut command = Command::new(alloc, name).about(about).after_help(more);
    for word in words {
        let Ok(next) = command.arg(arg_of(alloc, word)) else {
            drop(program);
            return Err(AllocError);
        };
        command = next;
    }
    program?.subcommand(command)
}

/// The parser's form of an argument.
fn arg_of<'a>(alloc: Global, word: &Word<'a>) -> Arg<'a>
    ensures { (rule_of result ≡ rule_in word.now) × (result.global ≡ false) }
{
    let arg = shown(alloc, word);
    match word.kind {
        Needed => arg.required(true).action(ArgAction::Set),
        NeededMany => arg.required(true).action(ArgAction::Append),
        Many | Texts => arg.action(ArgAction::Append),
        Flag => arg.action(ArgAction::SetTrue),
        Text => arg,
        Choice(default) => arg.default_value(default),
        Number(default) => arg.default_value(default).value_parser(value_parser!(u8)),
        FreeNumber => arg.value_parser(value_parser!(u8)),
        LargeNumber => arg.value_parser(value_parser!(u64)),
    }
}

/// An argument as the help shows it: by position or as an option, with its value.
fn shown<'a>(alloc: Global, word: &Word<'a>) -> Arg<'a>
    ensures { (rule_of result ≡ shown_rule word.now.kind word.now.name.now) × (result.global ≡ false) }
{
    let arg = Arg::new(alloc, word.name).help(word.help);
    match word.kind {
        Needed | NeededMany | Many => arg.value_name(word.shown),
        Flag => arg.long(word.name),
        _ => arg.long(word.name).value_name(word.shown),
    }
}
