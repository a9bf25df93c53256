//! The command line of the program, for the parser of words.

ghost use Rattle.std.specs.Prelude.{◌≡◌, false, IfOk, map, codes};
ghost use Rattle.std.specs.List.{list_any};
ghost use Rattle.std.specs.Str.{bytes_eq};
ghost use Rattle.clap.specs.Words.{app_of, rule_of};
ghost use Rattle.node_settings.specs.Commands.{rule_for, run_rules, send_rules, keys_rules, journal_rules, rule_for_flag, send_flags, journal_flags, positional, with_rules, run_app, send_app, keys_app, journal_app, top_app, node_app, is_run_option};

use clap::{Arg, ArgAction, Command};
use std::alloc::{AllocError, Global};

/// The version of the program, which `--version` prints.
pub const VERSION: &str = "0.1.0";

/// An option that takes a word.
#[derive(Clone, Copy)]
struct WordOption {
    name: &'static str,
    is_required: bool,
    /// What stands for the word in the help.
    value: &'static str,
    help: &'static str,
}

impl WordOption {
    /// The option as the parser of words takes it.
    fn arg<'a>(self, alloc: Global) -> Arg<'a>
        ensures rule { rule_of result ≡ rule_for self }
        ensures local { result.global ≡ false }
    {
        Arg::new(alloc, self.name)
            .long(self.name)
            .value_name(self.value)
            .help(self.help)
            .required(self.is_required)
    }
}

/// An option that takes no word.
#[derive(Clone, Copy)]
struct Flag {
    name: &'static str,
    help: &'static str,
}

impl Flag {
    /// The flag as the parser of words takes it.
    fn arg<'a>(self, alloc: Global) -> Arg<'a>
        ensures rule { rule_of result ≡ rule_for_flag self }
        ensures local { result.global ≡ false }
    {
        Arg::new(alloc, self.name)
            .long(self.name)
            .action(ArgAction::SetTrue)
            .help(self.help)
    }
}

static RUN: [WordOption; 17] = [
    WordOption {
        name: "id",
        is_required: true,
        value: "I",
        help: "The number of this validator, from 0 on",
    },
    WordOption {
        name: "powers",
        is_required: true,
        value: "P,P,..",
        help: "The power of each validator, 2 to 128 of them",
    },
    WordOption {
        name: "keys",
        is_required: true,
        value: "FILE",
        help: "The key file of this validator",
    },
    WordOption {
        name: "journal",
        is_required: true,
        value: "FILE",
        help: "The journal of this validator",
    },
    WordOption {
        name: "peers",
        is_required: true,
        value: "ADDR,ADDR,..",
        help: "The address of each validator, this one too",
    },
    WordOption {
        name: "start",
        is_required: true,
        value: "MS",
        help: "How long a timeout of round 0 lasts, at most a day",
    },
    WordOption {
        name: "delta",
        is_required: true,
        value: "MS",
        help: "How much longer one of each further round lasts, at most a day",
    },
    WordOption {
        name: "idle",
        is_required: false,
        value: "MS",
        help: "How long a proposal of no transactions waits, at most --start; else half of it",
    },
    WordOption {
        name: "rest",
        is_required: false,
        value: "MS",
        help: "How long a height is held open with nothing waiting, at most a day; else 0",
    },
    WordOption {
        name: "links",
        is_required: false,
        value: "KEEPING",
        help: "How links are kept: open or guarded; else open",
    },
    WordOption {
        name: "redial",
        is_required: false,
        value: "MS",
        help: "With guarded links: when an address is dialed again, at most a day; else 1000",
    },
    WordOption {
        name: "from",
        is_required: false,
        value: "POSITION",
        help: "Print the delivered list from this position on; else all of it",
    },
    WordOption {
        name: "stop",
        is_required: false,
        value: "K",
        help: "End after K delivered items",
    },
    WordOption {
        name: "log",
        is_required: false,
        value: "LEVEL",
        help: "What is logged: off, error, warn, info, debug or trace; else info",
    },
    WordOption {
        name: "status",
        is_required: false,
        value: "ADDR",
        help: "Tell who connects to this address how far the validator is",
    },
    WordOption {
        name: "metrics",
        is_required: false,
        value: "ADDR",
        help: "Answer requests for metrics and health by HTTP at this address",
    },
    WordOption {
        name: "config",
        is_required: false,
        value: "FILE",
        help: "Take what isn't given here from this file, which has a line OPTION = VALUE for each",
    },
];

static SEND: [WordOption; 8] = [
    WordOption {
        name: "id",
        is_required: true,
        value: "C",
        help: "The number of the client, from 0 to 1023",
    },
    WordOption {
        name: "validators",
        is_required: true,
        value: "N",
        help: "How many validators there are, 2 to 128",
    },
    WordOption {
        name: "keys",
        is_required: true,
        value: "FILE",
        help: "The key file of the client",
    },
    WordOption {
        name: "to",
        is_required: true,
        value: "ADDR,ADDR,..",
        help: "The address of each validator that it is sent to",
    },
    WordOption {
        name: "number",
        is_required: true,
        value: "M",
        help: "The place among the session's transactions, from 1 on; of a file's first one",
    },
    WordOption {
        name: "session",
        is_required: false,
        value: "S",
        help: "The session, which a close ends, at most 4294967295; else the client's first, 0",
    },
    WordOption {
        name: "data",
        is_required: false,
        value: "HEX",
        help: "Send these bytes, at most 1024 of them",
    },
    WordOption {
        name: "file",
        is_required: false,
        value: "FILE",
        help: "Send a transaction for each line of the file: HEX, - for no bytes, or close",
    },
];

static SEND_FLAGS: [Flag; 1] = [Flag {
    name: "close",
    help: "Send the session's last transaction",
}];

static KEYS: [WordOption; 3] = [
    WordOption {
        name: "validators",
        is_required: true,
        value: "N",
        help: "How many validators there are, 2 to 128",
    },
    WordOption {
        name: "clients",
        is_required: true,
        value: "C",
        help: "How many clients there are, 0 to 1024",
    },
    WordOption {
        name: "out",
        is_required: true,
        value: "DIR",
        help: "The folder that the key files are written into; it is made where it isn't there",
    },
];

static JOURNAL: [WordOption; 1] = [WordOption {
    name: "height",
    is_required: false,
    value: "H",
    help: "Of this height alone",
}];

static JOURNAL_FLAGS: [Flag; 3] = [
    Flag {
        name: "follow",
        help: "Go on as the journal grows",
    },
    Flag {
        name: "json",
        help: "Print each record as a JSON object",
    },
    Flag {
        name: "list",
        help: "Print the delivered items, as run does",
    },
];

/// The options of `run`.
#[tactic(auto, unfolding(crate::specs::Commands::run_rules))]
fn run_options() -> &'static [WordOption]
    ensures { map rule_for result.now ≡ run_rules }
{
    RUN.as_slice()
}

/// The options of `send`.
#[tactic(auto, unfolding(crate::specs::Commands::send_rules))]
fn send_options() -> &'static [WordOption]
    ensures { map rule_for result.now ≡ send_rules }
{
    SEND.as_slice()
}

/// The options of `keys`.
#[tactic(auto, unfolding(crate::specs::Commands::keys_rules))]
fn keys_options() -> &'static [WordOption]
    ensures { map rule_for result.now ≡ keys_rules }
{
    KEYS.as_slice()
}

/// The options of `journal`.
#[tactic(auto, unfolding(crate::specs::Commands::journal_rules))]
fn journal_options() -> &'static [WordOption]
    ensures { map rule_for result.now ≡ journal_rules }
{
    JOURNAL.as_slice()
}

/// The flags of `send`.
#[tactic(auto, unfolding(crate::specs::Commands::send_flags))]
fn send_flags() -> &'static [Flag]
    ensures { map rule_for_flag result.now ≡ send_flags }
{
    SEND_FLAGS.as_slice()
}

/// The flags of `journal`.
#[tactic(auto, unfolding(crate::specs::Commands::journal_flags))]
fn journal_flags() -> &'static [Flag]
    ensures { map rule_for_flag result.now ≡ journal_flags }
{
    JOURNAL_FLAGS.as_slice()
}

/// Returns whether an option of `run` has this name.
pub fn is_run_option(name: &str) -> bool
    ensures { result ≡ is_run_option name.now }
{
    is_among(run_options(), name)
}

/// Returns whether an option has this name.
fn is_among(options: &[WordOption], name: &str) -> bool
    ensures { result ≡ list_any (λ option. bytes_eq option.name.now name.now) options.now }
{
    options.iter().any(|option| option.name == name)
}

/// The command with these options added in turn.
fn with_options<'a>(
    alloc: Global,
    mut command: Command<'a>,
    options: &[WordOption],
) -> Result<Command<'a>, AllocError>
    ensures { IfOk result (λ made. app_of made ≡ with_rules (app_of command.entry) (map rule_for options.now)) }
{
    for option in options {
        command = command.arg(option.arg(alloc))?;
    }
    Ok(command)
}

/// The command with these flags added in turn.
fn with_flags<'a>(
    alloc: Global,
    mut command: Command<'a>,
    flags: &[Flag],
) -> Result<Command<'a>, AllocError>
    ensures { IfOk result (λ made. app_of made ≡ with_rules (app_of command.entry) (map rule_for_flag flags.now)) }
{
    for flag in flags {
        command = command.arg(flag.arg(alloc))?;
    }
    Ok(command)
}

fn run_command<'a>(alloc: Global) -> Result<Command<'a>, AllocError>
    ensures { IfOk result (λ made. app_of made ≡ run_app) }
{
    let command = Command::new(alloc, "run").about("Runs one validator");
    with_options(alloc, command, run_options())
}

fn send_command<'a>(alloc: Global) -> Result<Command<'a>, AllocError>
    ensures { IfOk result (λ made. app_of made ≡ send_app) }
{
    let command = Command::new(alloc, "send").about("Sends transactions of a client");
    let command = with_options(alloc, command, send_options())?;
    with_flags(alloc, command, send_flags())
}

fn keys_command<'a>(alloc: Global) -> Result<Command<'a>, AllocError>
    ensures { IfOk result (λ made. app_of made ≡ keys_app) }
{
    let command = Command::new(alloc, "keys").about("Makes the key file of every party");
    with_options(alloc, command, keys_options())
}

/// The argument of `journal` that is its file's name.
fn journal_file<'a>(alloc: Global) -> Arg<'a>
    ensures rule { rule_of result ≡ positional (codes "file") }
    ensures local { result.global ≡ false }
{
    Arg::new(alloc, "file")
        .value_name("FILE")
        .help("The journal, which may be in use")
        .required(true)
}

fn journal_command<'a>(alloc: Global) -> Result<Command<'a>, AllocError>
    ensures { IfOk result (λ made. app_of made ≡ journal_app) }
{
    let command = Command::new(alloc, "journal").about("Prints what a validator's journal holds");
    let command = command.arg(journal_file(alloc))?;
    let command = with_options(alloc, command, journal_options())?;
    with_flags(alloc, command, journal_flags())
}

/// The command of the program itself.
fn top_command<'a>(alloc: Global) -> Command<'a>
    ensures { app_of result ≡ top_app }
{
    Command::new(alloc, "tmnode")
        .about(
            "Runs a validator of an atomic broadcast, sends it transactions, makes the key files, or reads a journal",
        )
        .version(VERSION)
        .disable_help_subcommand(true)
}

/// The whole command line.
pub fn node_command<'a>(alloc: Global) -> Result<Command<'a>, AllocError>
    ensures { IfOk result (λ made. app_of made ≡ node_app) }
{
    let run = run_command(alloc)?;
    let send = send_command(alloc)?;
    let keys = keys_command(alloc)?;
    let journal = journal_command(alloc)?;
    top_command(alloc)
        .subcommand(run)?
        .subcommand(send)?
        .subcommand(keys)?
        .subcommand(journal)
}
