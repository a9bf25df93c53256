//! What a command line asks for.

ghost use Rattle.std.specs.Prelude.{◌≡◌, IfOk, map};
ghost use Rattle.clap.specs.Words.{found_of, rows_of, kind_of, subcommand_rows_of};
ghost use Rattle.node_settings.specs.Words.{Gives};
ghost use Rattle.node_settings.specs.Failures.{settings_number};
ghost use Rattle.node_settings.specs.Lawful.{IsLawful, IsLawfulKeys};
ghost use Rattle.node_settings.specs.Settings.{keys_words, invocation_words, keys_of, entered_of, settings_of, asked_by};

use crate::command::node_command;
use crate::looking::JournalSettings;
use crate::options::{number, validators_of, word};
use clap::error::ErrorKind;
use clap::{ArgMatches, Error};
use log::LevelFilter;
use powers::Powers;
use protocol::MOST_CLIENTS;
use std::alloc::{AllocError, AllocFailed, Global};
use std::convert::AsStr;
use std::fmt;
use transactions::Op;

/// Why the words of a command line are no settings.
#[derive(Clone, Copy, Debug, PartialEq, Eq, thiserror::Error)]
pub enum SettingsFault {
    /// 1: the words are of no form of the command line, or one is no number, is outside its limits, or is no list or no
    /// bytes where it has to be.
    #[error("usage")]
    Usage = 1,
    /// 2: no memory is left.
    #[error("out of memory")]
    OutOfMemory = 2,
}

impl SettingsFault {
    /// The number of the fault, 1 or 2.
    pub fn number(self) -> u8
        ensures { result ≡ settings_number self }
    {
        self as u8
    }
}

impl From<AllocError> for SettingsFault {
    ghost use Rattle.node_settings.specs.declared.invocation.SettingsFault.TheVariants.{OutOfMemory};

    ghost from_gives = { λ _ fault. fault ≡ OutOfMemory };

    fn from(_error: AllocError) -> SettingsFault {
        SettingsFault::OutOfMemory
    }
}

impl<T: Drop> From<AllocFailed<T>> for SettingsFault {
    ghost use Rattle.node_settings.specs.declared.invocation.SettingsFault.TheVariants.{OutOfMemory};

    ghost from_gives = { λ _ fault. fault ≡ OutOfMemory };

    fn from(_error: AllocFailed<T>) -> SettingsFault {
        SettingsFault::OutOfMemory
    }
}

/// How a validator keeps its links.
#[derive(Clone, Copy, Debug, PartialEq, Eq)]
pub enum Keeping {
    /// Each address is dialed once, and every frame goes to every link.
    Open,
    /// An address is dialed again. Validators, clients and strangers are known apart, and an answer goes to who asked.
    Guarded,
}

/// The settings of `tmnode run`.
#[derive(Debug, Drop)]
pub struct RunSettings<'a> {
    /// The number of this validator, below their count.
    pub me: u16,
    /// The powers of the validators.
    pub powers: Powers,
    /// The key file's name.
    pub keys: &'a str,
    /// The journal's name.
    pub journal: &'a str,
    /// The address of each validator, this one too.
    pub peers: Vec<&'a str>,
    /// How long a timeout of round 0 lasts, in milliseconds: at most a day.
    pub start: u64,
    /// How much longer one of each further round lasts, in milliseconds: at most a day.
    pub delta: u64,
    /// How long a proposal of no transactions waits, in milliseconds: at most `start`.
    pub idle: u64,
    /// How long a height is held open with nothing waiting, in milliseconds: at most a day. With 0 it never is.
    pub rest: u64,
    /// How links are kept.
    pub keeping: Keeping,
    /// With guarded links: after how long an address is dialed again, in milliseconds: from 1 to a day.
    pub redial: u64,
    /// The position in the delivered list from which on it is printed.
    pub from: u64,
    /// After how many delivered items the program ends, from 1 on.
    pub stop: Option<u64>,
    /// The most verbose level that is logged.
    pub level: LevelFilter,
    /// The address at which it tells how far it is.
    pub status: Option<&'a str>,
    /// Where it reports its metrics over HTTP, if anywhere.
    pub metrics: Option<&'a str>,
}

/// What a client sends.
#[derive(Debug, Drop)]
pub enum Sending<'a> {
    /// One transaction: at most 1,024 bytes, or the close.
    One(Op),
    /// A transaction for each line of the file of this name.
    Lines(&'a str),
}

/// The settings of `tmnode send`.
#[derive(Debug, Drop)]
pub struct SendSettings<'a> {
    /// The client's number, at most 1,023.
    pub client: u16,
    /// How many validators there are, 2 to 128.
    pub validators: u16,
    /// The key file's name.
    pub keys: &'a str,
    /// The address of each validator that it is sent to.
    pub to: Vec<&'a str>,
    /// The place of the first among the session's transactions, from 1 to 2^48.
    pub number: u64,
    /// The client's session in which all of it is sent. Its first is 0.
    pub session: u32,
    /// What is sent.
    pub sending: Sending<'a>,
}

/// The settings of `tmnode keys`.
#[derive(Debug, Drop)]
pub struct KeysSettings<'a> {
    /// How many validators there are, 2 to 128.
    pub validators: u16,
    /// How many clients there are, at most 1,024.
    pub clients: u16,
    /// The name of the folder for the key files.
    pub out: &'a str,
}

/// The page that `--help` or `--version` asks for, with its line feeds.
#[derive(Debug, Drop)]
pub struct Page(Error);

impl fmt::Display for Page {
    fn fmt<W: fmt::Write>(&self, f: &mut fmt::Formatter<W>) -> fmt::Result {
        write!(f, "{}", self.0)
    }
}

/// What a command line asks for.
#[derive(Debug, Drop)]
pub enum Invocation<'a> {
    /// To run a validator.
    Run(RunSettings<'a>),
    /// To send transactions.
    Send(SendSettings<'a>),
    /// To make the key file of every party.
    Keys(KeysSettings<'a>),
    /// To print what a journal holds.
    Journal(JournalSettings<'a>),
    /// To print a page on standard output; the exit status is then 0.
    Page(Page),
}

/// Reads the words of a command line, of which the first is the program's name.
///
/// The fault is `Usage` (1) for words of no such form, or `OutOfMemory` (2).
pub fn settings<'a, W: AsStr>(
    alloc: Global,
    words: &'a [W],
) -> Result<Invocation<'a>, SettingsFault>
    ensures asked { Gives invocation_words result (settings_of (map W.text words.entry.now)) }
    ensures lawful { IfOk result IsLawful }
{
    match node_command(alloc)?.try_get_matches_from(words) {
        Ok(found) => entered(alloc, &found),
        Err(error) => page_of(error),
    }
}

/// The page that is asked for, or why the words couldn't be read.
fn page_of<'a>(error: Error) -> Result<Invocation<'a>, SettingsFault>
    ensures asked { Gives invocation_words result (asked_by (kind_of error)) }
    ensures lawful { IfOk result IsLawful }
{
    match error.kind() {
        ErrorKind::DisplayHelp | ErrorKind::DisplayVersion => Ok(Invocation::Page(Page(error))),
        ErrorKind::OutOfMemory => Err(SettingsFault::OutOfMemory),
        _ => Err(SettingsFault::Usage),
    }
}

/// The settings of the subcommand that was named.
fn entered<'a>(alloc: Global, found: &ArgMatches<'a>) -> Result<Invocation<'a>, SettingsFault>
    ensures asked { Gives invocation_words result (entered_of (subcommand_rows_of found.now)) }
    ensures lawful { IfOk result IsLawful }
{
    let Some((name, inner)) = found.subcommand() else {
        return Err(SettingsFault::Usage);
    };
    if name == "run" {
        Ok(Invocation::Run(RunSettings::read(alloc, inner)?))
    } else if name == "send" {
        Ok(Invocation::Send(SendSettings::read(alloc, inner)?))
    } else if name == "keys" {
        Ok(Invocation::Keys(KeysSettings::read(inner)?))
    } else {
        Ok(Invocation::Journal(JournalSettings::read(inner)?))
    }
}

impl<'a> KeysSettings<'a> {
    /// Those of the words behind `keys`.
    #[tactic(auto, unfolding(crate::specs::Settings::keys_of))]
    fn read(found: &ArgMatches<'a>) -> Result<KeysSettings<'a>, SettingsFault>
        ensures asked { Gives keys_words result (keys_of (rows_of (found_of found.now))) }
        ensures lawful { IfOk result IsLawfulKeys }
    {
        let validators = validators_of(found)?;
        let clients = number(found, "clients", 0, u64::from(MOST_CLIENTS))? as u16;
        let out = word(found, "out")?;
        Ok(KeysSettings {
            validators,
            clients,
            out,
        })
    }
}
