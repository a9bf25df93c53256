//! What a run is like: what is asked for, and the rest as the seed has it.

use crate::failure::Failure;
use crate::trouble::{Trouble, Troubles};
use cluster_parts::Chance;
use peer_core::Keeping;
use std::alloc::{AllocError, Global};

/// The shortest run, in milliseconds: faults cease at three quarters of it.
const SHORTEST_MS: u64 = 600_000;

/// How long it goes on at least once faults have ceased.
const CALM_MS: u64 = 150_000;

/// What a run is asked to be like. What isn't asked for is drawn from the seed.
#[derive(Drop)]
pub struct Asked {
    pub seed: u64,
    /// How many validators, 2 to 128; those of `powers` where these are given.
    pub validators: Option<u16>,
    pub powers: Option<Vec<u32>>,
    /// How many validators lie; fewer where these had a third of the power.
    pub liars: Option<u16>,
    /// How many clients.
    pub clients: Option<u16>,
    /// How long the run is, in milliseconds of virtual time.
    pub span: Option<u64>,
    /// When faults cease; at three quarters of the run where it isn't given.
    pub calm: Option<u64>,
    pub troubles: Troubles,
    pub keeping: Option<Keeping>,
    /// How long a height is held open with nothing waiting, in milliseconds.
    pub rest: Option<u64>,
}

impl Asked {
    /// A run of this seed, of which all else is drawn.
    pub fn of_seed(seed: u64) -> Asked {
        Asked {
            seed,
            validators: None,
            powers: None,
            liars: None,
            clients: None,
            span: None,
            calm: None,
            troubles: Troubles::ALL,
            keeping: None,
            rest: None,
        }
    }

    /// An equal one.
    pub fn copy(&self, alloc: Global) -> Result<Asked, AllocError> {
        let powers = match &self.powers {
            Some(powers) => Some(powers.to_vec(alloc)?),
            None => None,
        };
        Ok(Asked {
            seed: self.seed,
            validators: self.validators,
            powers,
            liars: self.liars,
            clients: self.clients,
            span: self.span,
            calm: self.calm,
            troubles: self.troubles,
            keeping: self.keeping,
            rest: self.rest,
        })
    }
}

/// What a run is like.
#[derive(Drop)]
pub struct Settings {
    pub seed: u64,
    pub powers: Vec<u32>,
    /// The numbers of those that lie.
    pub liars: Vec<u16>,
    /// How many correct clients there are; where clients lie, the one of the next number does.
    pub clients: u16,
    /// How long it is, in milliseconds of virtual time.
    pub span: u64,
    /// When faults cease.
    pub calm: u64,
    pub troubles: Troubles,
    pub keeping: Keeping,
    pub rest: u64,
    pub idle: u64,
    pub redial: u64,
    /// How long a timeout of round 0 lasts, and how much longer one of each further round.
    pub start: u64,
    pub delta: u64,
    /// How long a client waits between two transactions, in milliseconds.
    pub pause: u64,
    /// How long a byte is on its way, at most.
    pub delay: u64,
}

impl Settings {
    /// The run that is asked for. `Usage` where the powers are none's: none or more than 128, a power of 0, or one that is a quorum alone.
    pub fn drawn(alloc: Global, asked: Asked) -> Result<Settings, Failure> {
        let Asked {
            seed,
            validators,
            powers,
            liars,
            clients,
            span,
            calm,
            troubles,
            keeping,
            rest,
        } = asked;
        let mut chance = Chance::new(seed);
        let count = validators.unwrap_or(drawn_count(&mut chance));
        let powers = powers_of(alloc, &mut chance, powers, count)?;
        let liars = drawn_liars(alloc, &mut chance, &powers, liars, troubles)?;
        let keeping = drawn_keeping(&mut chance, keeping);
        let (span, calm) = times_of(&mut chance, span, calm);
        let drawn_rest = drawn_rest(&mut chance, keeping);
        let drawn_clients = small(chance.between(1, 5));
        Ok(Settings {
            seed,
            powers,
            liars,
            clients: clients.unwrap_or(drawn_clients),
            span,
            calm,
            troubles,
            keeping,
            rest: rest.unwrap_or(drawn_rest),
            idle: chance.one_of(&[100, 200, 500]),
            redial: chance.one_of(&[200, 500, 1_000]),
            start: chance.between(700, 1_500),
            delta: chance.between(100, 500),
            pause: chance.between(2_000, 30_000),
            delay: chance.one_of(&[2, 10, 40, 120]),
        })
    }
}

/// A number that fits, or the greatest that does.
pub fn small(number: u64) -> u16 {
    u16::try_from(number).unwrap_or(u16::MAX)
}

/// How many validators there are.
fn drawn_count(chance: &mut Chance) -> u16 {
    if chance.percent(60) { 4 } else { 7 }
}

/// The powers that were asked for, or drawn ones of so many validators.
fn powers_of(
    alloc: Global,
    chance: &mut Chance,
    asked: Option<Vec<u32>>,
    count: u16,
) -> Result<Vec<u32>, Failure> {
    let drawn = drawn_powers(alloc, chance, count)?;
    Ok(asked.unwrap_or(drawn))
}

/// How long a run is, and when faults cease.
fn times_of(chance: &mut Chance, span: Option<u64>, calm: Option<u64>) -> (u64, u64) {
    let drawn = chance.between(10, 40).saturating_mul(60_000);
    let span = span.unwrap_or(drawn).max(SHORTEST_MS);
    let calm = calm.unwrap_or((span / 4).saturating_mul(3));
    (span.max(calm.saturating_add(CALM_MS)), calm)
}

/// How long a height is held open: with open links none is.
fn drawn_rest(chance: &mut Chance, keeping: Keeping) -> u64 {
    let drawn = chance.one_of(&[0, 0, 1_000, 10_000, 60_000]);
    match keeping {
        Keeping::Open => 0,
        Keeping::Guarded => drawn,
    }
}

/// The powers of so many validators: equal, or some greater, but of none that is a quorum alone.
fn drawn_powers(alloc: Global, chance: &mut Chance, count: u16) -> Result<Vec<u32>, Failure> {
    let drawn = if chance.percent(50) { 1 } else { 4 };
    let most = if count < 4 { 1 } else { drawn };
    let mut powers = Vec::new(alloc);
    for _ in 0..count {
        powers.push(u32::try_from(chance.between(1, most)).unwrap_or(1))?;
    }
    Ok(powers)
}

/// How links are kept.
fn drawn_keeping(chance: &mut Chance, asked: Option<Keeping>) -> Keeping {
    let drawn = if chance.percent(25) {
        Keeping::Open
    } else {
        Keeping::Guarded
    };
    asked.unwrap_or(drawn)
}

/// Which validators lie: as many as are asked for, as long as they have less than a third of the power.
fn drawn_liars(
    alloc: Global,
    chance: &mut Chance,
    powers: &[u32],
    asked: Option<u16>,
    troubles: Troubles,
) -> Result<Vec<u16>, Failure> {
    let drawn = chance.below(4);
    let first = chance.place(powers.len()).unwrap_or(0);
    let wanted = match asked {
        Some(wanted) => u64::from(wanted),
        None if troubles.has(Trouble::Liars) => drawn,
        None => 0,
    };
    let total: u64 = powers
        .iter()
        .map(|power| u64::from(*power))
        .fold(0, u64::saturating_add);
    let mut liars = Vec::new(alloc);
    let mut lying = 0u64;
    for turn in 0..powers.len() {
        let place = turn
            .saturating_add(first)
            .checked_rem(powers.len())
            .unwrap_or(0);
        let power = powers.get(place).copied().map_or(0, u64::from);
        let more = lying.saturating_add(power);
        if (liars.len() as u64) < wanted && more.saturating_mul(3) < total {
            liars.push(u16::try_from(place).unwrap_or(0))?;
            lying = more;
        }
    }
    Ok(liars)
}
