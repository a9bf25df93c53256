//! What the words behind `run` ask for.

ghost use Rattle.std.specs.Prelude.{◌≡◌, ◌<◌, ◌≤◌, IfOk, length, map};
ghost use Rattle.clap.specs.Words.{found_of, rows_of};
ghost use Rattle.node_settings.specs.Words.{Gives};
ghost use Rattle.node_settings.specs.Lawful.{IsLawfulRun, IsLawfulPlace, IsLawfulTimes};
ghost use Rattle.node_settings.specs.Running.{run_words, place_words, files_words, telling_words, cluster_of, place_of, files_of, times_of, keeping_of, links_of, level_of, telling_of, run_of};

use crate::invocation::{Keeping, RunSettings, SettingsFault};
use crate::lists::{powers_of, words_of};
use crate::options::{number, number_or, number_or_none, word, word_of};
use clap::ArgMatches;
use log::LevelFilter;
use powers::Powers;
use protocol::{MOST_MILLISECONDS, MOST_VALIDATORS};
use std::alloc::Global;

/// After how long an address is dialed again where nothing is named, in milliseconds.
const USUAL_REDIAL: u64 = 1_000;

/// A validator among all of them.
#[derive(Drop)]
struct Place<'a> {
    me: u16,
    powers: Powers,
    peers: Vec<&'a str>,
}

/// The names of a validator's files.
#[derive(Clone, Copy)]
struct Files<'a> {
    keys: &'a str,
    journal: &'a str,
}

/// The times of a validator, in milliseconds.
#[derive(Clone, Copy)]
struct Times {
    start: u64,
    delta: u64,
    idle: u64,
    rest: u64,
}

/// How a validator keeps its links.
#[derive(Clone, Copy)]
struct Links {
    keeping: Keeping,
    redial: u64,
}

/// When a validator ends, and what it tells until then.
#[derive(Clone, Copy)]
struct Telling<'a> {
    from: u64,
    stop: Option<u64>,
    level: LevelFilter,
    status: Option<&'a str>,
    metrics: Option<&'a str>,
}

impl<'a> RunSettings<'a> {
    /// Those of the words behind `run`.
    #[tactic(auto, unfolding(crate::specs::Running::run_of))]
    pub(crate) fn read(
        alloc: Global,
        found: &ArgMatches<'a>,
    ) -> Result<RunSettings<'a>, SettingsFault>
        ensures asked { Gives run_words result (run_of (rows_of (found_of found.now))) }
        ensures lawful { IfOk result IsLawfulRun }
    {
        let Place { me, powers, peers } = Place::read(alloc, found)?;
        let Files { keys, journal } = Files::read(found)?;
        let Times {
            start,
            delta,
            idle,
            rest,
        } = Times::read(found)?;
        let Links { keeping, redial } = Links::read(found)?;
        let Telling {
            from,
            stop,
            level,
            status,
            metrics,
        } = Telling::read(found)?;
        Ok(RunSettings {
            me,
            powers,
            keys,
            journal,
            peers,
            start,
            delta,
            idle,
            rest,
            keeping,
            redial,
            from,
            stop,
            level,
            status,
            metrics,
        })
    }
}

impl<'a> Place<'a> {
    /// Its number, and the powers and addresses of all validators.
    #[tactic(auto, unfolding(crate::specs::Running::place_of))]
    fn read(alloc: Global, found: &ArgMatches<'a>) -> Result<Place<'a>, SettingsFault>
        ensures asked { Gives place_words result (place_of (rows_of (found_of found.now))) }
        ensures lawful { IfOk result IsLawfulPlace }
    {
        let me = number(found, "id", 0, MOST_VALIDATORS as u64 - 1)? as u16;
        let (powers, peers) = cluster(alloc, word(found, "powers")?, word(found, "peers")?, me)?;
        Ok(Place { me, powers, peers })
    }
}

/// The powers and the addresses of as many validators, of which `me` is one.
#[tactic(auto, unfolding(crate::specs::Running::cluster_of))]
fn cluster<'a>(
    alloc: Global,
    powers: &str,
    peers: &'a str,
    me: u16,
) -> Result<(Powers, Vec<&'a str>), SettingsFault>
    ensures asked { Gives (λ both. (both.0, map (λ peer. peer.now) both.1.items)) result (cluster_of powers.now peers.entry.now me) }
    ensures lawful { IfOk result (λ both. (me < length both.0) × (length both.1.items ≡ length both.0)) }
{
    let powers = powers_of(alloc, powers)?;
    let peers = words_of(alloc, peers)?;
    if me < powers.count() && peers.len() == powers.count() as usize {
        Ok((powers, peers))
    } else {
        Err(SettingsFault::Usage)
    }
}

impl<'a> Files<'a> {
    #[tactic(auto, unfolding(crate::specs::Running::files_of))]
    fn read(found: &ArgMatches<'a>) -> Result<Files<'a>, SettingsFault>
        ensures { Gives files_words result (files_of (rows_of (found_of found.now))) }
    {
        let keys = word(found, "keys")?;
        let journal = word(found, "journal")?;
        Ok(Files { keys, journal })
    }
}

impl Times {
    /// A proposal of no transactions waits half as long as the propose timeout of round 0 where nothing is named, and
    /// at most as long as that. A height isn't held open where nothing is named.
    #[tactic(auto, unfolding(crate::specs::Running::times_of))]
    fn read(found: &ArgMatches<'_>) -> Result<Times, SettingsFault>
        ensures asked { result ≡ times_of (rows_of (found_of found.now)) }
        ensures lawful { IfOk result IsLawfulTimes }
    {
        let start = number(found, "start", 0, MOST_MILLISECONDS)?;
        let delta = number(found, "delta", 0, MOST_MILLISECONDS)?;
        let idle = number_or(found, "idle", start / 2, 0, start)?;
        let rest = number_or(found, "rest", 0, 0, MOST_MILLISECONDS)?;
        Ok(Times {
            start,
            delta,
            idle,
            rest,
        })
    }
}

impl Links {
    #[tactic(auto, unfolding(crate::specs::Running::links_of))]
    fn read(found: &ArgMatches<'_>) -> Result<Links, SettingsFault>
        ensures asked { result ≡ links_of (rows_of (found_of found.now)) }
        ensures lawful { IfOk result (λ links. (1 ≤ links.redial) × (links.redial ≤ 86400000)) }
    {
        let keeping = keeping_of(found)?;
        let redial = number_or(found, "redial", USUAL_REDIAL, 1, MOST_MILLISECONDS)?;
        Ok(Links { keeping, redial })
    }
}

/// How links are kept: openly where nothing is named.
#[tactic(auto, unfolding(crate::specs::Running::keeping_of))]
fn keeping_of(found: &ArgMatches<'_>) -> Result<Keeping, SettingsFault>
    ensures { result ≡ keeping_of (rows_of (found_of found.now)) }
{
    match word_of(found, "links") {
        None | Some("open") => Ok(Keeping::Open),
        Some("guarded") => Ok(Keeping::Guarded),
        Some(_) => Err(SettingsFault::Usage),
    }
}

impl<'a> Telling<'a> {
    #[tactic(auto, unfolding(crate::specs::Running::telling_of))]
    fn read(found: &ArgMatches<'a>) -> Result<Telling<'a>, SettingsFault>
        ensures { Gives telling_words result (telling_of (rows_of (found_of found.now))) }
    {
        let from = number_or(found, "from", 0, 0, u64::MAX)?;
        let stop = number_or_none(found, "stop", 1, u64::MAX)?;
        let level = level_of(found)?;
        let status = word_of(found, "status");
        let metrics = word_of(found, "metrics");
        Ok(Telling {
            from,
            stop,
            level,
            status,
            metrics,
        })
    }
}

/// The most verbose level that is logged: `info` where none is named.
#[tactic(auto, unfolding(crate::specs::Running::level_of))]
fn level_of(found: &ArgMatches<'_>) -> Result<LevelFilter, SettingsFault>
    ensures { result ≡ level_of (rows_of (found_of found.now)) }
{
    match word_of(found, "log") {
        Some(name) => name.parse().ok().ok_or(SettingsFault::Usage),
        None => Ok(LevelFilter::Info),
    }
}
