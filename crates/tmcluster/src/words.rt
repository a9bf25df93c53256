//! The words of the command line.

use clap::error::ErrorKind;
use clap::{Arg, ArgAction, ArgMatches, Command, Error};
use cluster_checks::{Asked, Troubles};
use peer_core::Keeping;
use std::alloc::{AllocError, AllocFailed, Global};
use std::convert::AsStr;

/// The most virtual minutes or hours of a run: of minutes a year.
const MOST_MINUTES: u64 = 525_600;

/// The most clients of a run.
const MOST_CLIENTS: u16 = 1_000;

/// The longest time for which a height is held open, in milliseconds: a day.
const MOST_REST: u64 = 86_400_000;

/// An option that takes a word.
#[derive(Clone, Copy)]
struct WordOption {
    name: &'static str,
    /// What represents the word in the help.
    value: &'static str,
    help: &'static str,
}

/// An option that takes no word.
#[derive(Clone, Copy)]
struct Flag {
    name: &'static str,
    help: &'static str,
}

static FLAGS: [Flag; 2] = [
    Flag {
        name: "trace",
        help: "Print each event",
    },
    Flag {
        name: "shrink",
        help: "Run again without each kind of faults in turn, and print those without which it doesn't fail",
    },
];

static OPTIONS: [WordOption; 12] = [
    WordOption {
        name: "seed",
        value: "N",
        help: "The seed, which determines all that isn't given; else 0",
    },
    WordOption {
        name: "validators",
        value: "N",
        help: "How many validators there are, 2 to 128",
    },
    WordOption {
        name: "powers",
        value: "P,P,..",
        help: "The power of each validator",
    },
    WordOption {
        name: "liars",
        value: "K",
        help: "How many validators are Byzantine, as far as they have less than a third of the power",
    },
    WordOption {
        name: "clients",
        value: "C",
        help: "How many correct clients there are, at most 1000",
    },
    WordOption {
        name: "hours",
        value: "H",
        help: "How many virtual hours the run takes",
    },
    WordOption {
        name: "minutes",
        value: "M",
        help: "How many virtual minutes the run takes; at least 10",
    },
    WordOption {
        name: "calm",
        value: "M",
        help: "After how many virtual minutes faults cease, and the run goes on for two and a half at least; else after three quarters of it",
    },
    WordOption {
        name: "faults",
        value: "WORDS",
        help: "Which come: cuts, halfopen, partitions, stops, disks, drift, liars, strangers, clients, with commas; all of these, none; poison",
    },
    WordOption {
        name: "links",
        value: "open|guarded",
        help: "How validators keep their links",
    },
    WordOption {
        name: "rest",
        value: "MS",
        help: "How long a height is held open with nothing waiting, in milliseconds",
    },
    WordOption {
        name: "until",
        value: "EVENT",
        help: "End after so many events",
    },
];

/// Why the words are those of no run.
#[derive(Clone, Copy, Debug, PartialEq, Eq, thiserror::Error)]
pub enum WordsFault {
    /// A word is unknown, or no number or outside its limits where it has to be one.
    #[error("usage: tmcluster --seed N [..]; --help says more")]
    Usage,
    /// No memory is left.
    #[error("out of memory")]
    OutOfMemory,
}

impl From<AllocError> for WordsFault {
    fn from(_e: AllocError) -> WordsFault {
        WordsFault::OutOfMemory
    }
}

impl<T: Drop> From<AllocFailed<T>> for WordsFault {
    fn from(_e: AllocFailed<T>) -> WordsFault {
        WordsFault::OutOfMemory
    }
}

/// A run that is wanted, and how it is told.
#[derive(Drop)]
pub struct Wanted {
    pub asked: Asked,
    /// After how many events it ends, if not by itself.
    pub until: Option<u64>,
    /// Whether each event is printed.
    pub traces: bool,
    /// Whether a shorter list of faults is looked for.
    pub shrinks: bool,
}

/// What a command line asks for.
#[derive(Drop)]
pub enum Invocation {
    /// A run.
    Run(Wanted),
    /// The page of help.
    Page(Error),
}

/// Reads the words of a command line, of which the first is the program's name.
pub fn read_words<W: AsStr>(alloc: Global, words: &[W]) -> Result<Invocation, WordsFault> {
    match command(alloc)?.try_get_matches_from(words) {
        Ok(found) => Ok(Invocation::Run(read_run(alloc, &found)?)),
        Err(error) => match error.kind() {
            ErrorKind::DisplayHelp => Ok(Invocation::Page(error)),
            ErrorKind::OutOfMemory => Err(WordsFault::OutOfMemory),
            _ => Err(WordsFault::Usage),
        },
    }
}

/// The command with these options added in turn.
fn with_options<'a>(
    alloc: Global,
    mut command: Command<'a>,
    options: &[WordOption],
) -> Result<Command<'a>, AllocError> {
    for option in options {
        let arg = Arg::new(alloc, option.name)
            .long(option.name)
            .value_name(option.value)
            .help(option.help);
        command = command.arg(arg)?;
    }
    Ok(command)
}

/// The command with these flags added in turn.
fn with_flags<'a>(
    alloc: Global,
    mut command: Command<'a>,
    flags: &[Flag],
) -> Result<Command<'a>, AllocError> {
    for flag in flags {
        let arg = Arg::new(alloc, flag.name)
            .long(flag.name)
            .help(flag.help)
            .action(ArgAction::SetTrue);
        command = command.arg(arg)?;
    }
    Ok(command)
}

/// The command line, for the parser of words.
fn command<'a>(alloc: Global) -> Result<Command<'a>, AllocError> {
    let command = Command::new(alloc, "tmcluster").about(
        "Runs a simulated cluster from a seed, and looks after each event whether what must hold does",
    );
    let command = with_options(alloc, command, OPTIONS.as_slice())?;
    with_flags(alloc, command, FLAGS.as_slice())
}

/// The run that was asked for.
fn read_run(alloc: Global, found: &ArgMatches<'_>) -> Result<Wanted, WordsFault> {
    let asked = Asked {
        seed: number(found, "seed", u64::MAX)?.unwrap_or(0),
        validators: small(found, "validators", 2, 128)?,
        powers: powers(alloc, found)?,
        liars: small(found, "liars", 0, 128)?,
        clients: small(found, "clients", 0, MOST_CLIENTS)?,
        span: span(found)?,
        calm: milliseconds(found, "calm", 60_000)?,
        troubles: troubles(found)?,
        keeping: keeping(found)?,
        rest: number(found, "rest", MOST_REST)?,
    };
    Ok(Wanted {
        asked,
        until: number(found, "until", u64::MAX)?,
        traces: is_flagged(found, "trace"),
        shrinks: is_flagged(found, "shrink"),
    })
}

/// How long the run takes, in milliseconds, where it was said in minutes or in hours.
fn span(found: &ArgMatches<'_>) -> Result<Option<u64>, WordsFault> {
    let minutes = milliseconds(found, "minutes", 60_000)?;
    let hours = milliseconds(found, "hours", 3_600_000)?;
    Ok(minutes.or(hours))
}

/// The time of an option that may be left out, whose unit has so many milliseconds.
fn milliseconds(found: &ArgMatches<'_>, name: &str, unit: u64) -> Result<Option<u64>, WordsFault> {
    let count = number(found, name, MOST_MINUTES)?;
    Ok(count.map(|count| count.saturating_mul(unit)))
}

/// The number of an option that may be left out, which is at most so great.
fn number(found: &ArgMatches<'_>, name: &str, most: u64) -> Result<Option<u64>, WordsFault> {
    match found.get_str(name) {
        Some(word) => match word.parse::<u64>() {
            Ok(number) if number <= most => Ok(Some(number)),
            _ => Err(WordsFault::Usage),
        },
        None => Ok(None),
    }
}

/// The small number of an option that may be left out, within these bounds.
fn small(
    found: &ArgMatches<'_>,
    name: &str,
    least: u16,
    most: u16,
) -> Result<Option<u16>, WordsFault> {
    match found.get_str(name) {
        Some(word) => match word.parse::<u16>() {
            Ok(number) if least <= number && number <= most => Ok(Some(number)),
            _ => Err(WordsFault::Usage),
        },
        None => Ok(None),
    }
}

/// The powers, where they were given.
fn powers(alloc: Global, found: &ArgMatches<'_>) -> Result<Option<Vec<u32>>, WordsFault> {
    let Some(words) = found.get_str("powers") else {
        return Ok(None);
    };
    let mut powers = Vec::new(alloc);
    for word in words.split(',') {
        match word.parse::<u32>() {
            Ok(power) => powers.push(power)?,
            Err(_) => return Err(WordsFault::Usage),
        }
    }
    Ok(Some(powers))
}

/// Which faults come: all where none are named.
fn troubles(found: &ArgMatches<'_>) -> Result<Troubles, WordsFault> {
    match found.get_str("faults") {
        Some(words) => Troubles::of_words(words).ok_or(WordsFault::Usage),
        None => Ok(Troubles::ALL),
    }
}

/// How links are kept, where it was said.
fn keeping(found: &ArgMatches<'_>) -> Result<Option<Keeping>, WordsFault> {
    match found.get_str("links") {
        Some("open") => Ok(Some(Keeping::Open)),
        Some("guarded") => Ok(Some(Keeping::Guarded)),
        Some(_) => Err(WordsFault::Usage),
        None => Ok(None),
    }
}

/// Whether a flag was given.
fn is_flagged(found: &ArgMatches<'_>, name: &str) -> bool {
    found.get_str(name) == Some("true")
}
