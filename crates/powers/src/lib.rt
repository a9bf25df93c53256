//! The voting powers of a fixed set of validators.
//!
//! Fewer than a third of the total power are assumed to lie. More than two thirds of it is a quorum,
//! and more than a third a weak quorum: at least one of its members doesn't lie. (arXiv 1807.04938
//! writes 3f + 1, 2f + 1 and f + 1 for the total power, a quorum and a weak quorum.)
#![tactic(auto)]

ghost use Rattle.std.specs.Prelude.{◌≡◌, ◌<◌, ◌≤◌, ◌^◌, ◌*◌, ◌==◌, ℕ, Bool, nat_lt, length, slice_get, slice_index_or, false, IfOk};
ghost use Rattle.std.specs.List.{list_any};
ghost use Rattle.powers.specs.Power.{power, total, is_quorum, is_weak, first_above, proposer, ArePowers, QuorumsShare, QuorumsShareHonest, TurnsByPower, EqualPowersInTurn};
ghost use Rattle.powers.specs.Admission.{admitted};
ghost use Rattle.powers.specs.Numbers.{number_of};

use std::alloc::{AllocError, Global};
use std::marker::Model;

/// The greatest number of validators.
pub const MOST_VALIDATORS: usize = 128;

/// Why a list of powers is refused: the first cause in this order.
#[derive(Clone, Copy, Debug, PartialEq, Eq, thiserror::Error)]
pub enum PowersFault {
    /// 1: the list has no validator.
    #[error("there is no validator")]
    Empty = 1,
    /// 2: the list has more than 128 validators.
    #[error("there are more than 128 validators")]
    TooMany = 2,
    /// 3: a validator has no power.
    #[error("a validator has no power")]
    ZeroPower = 3,
    /// 4: one validator is a quorum alone: it has more than two thirds of the total power.
    #[error("one validator is a quorum alone")]
    Dominant = 4,
}

impl PowersFault {
    /// The number of the fault, 1 to 4.
    pub fn number(self) -> u8
        ensures { result ≡ number_of self }
    {
        self as u8
    }
}

/// The powers of 2 to 128 validators, none of which is a quorum alone. The validators are numbered
/// from 0 in the order of the list, and each has a power from 1 to 2^32 - 1.
#[derive(Debug, Drop)]
pub struct Powers {
    each: Vec<u32>,
    sum: u64,
}

impl Model for Powers {
    ghost use Rattle.std.specs.Prelude.{◌≡◌, ◌<◌, ◌^◌, ℕ, List};
    ghost use Rattle.powers.specs.Power.{ArePowers, total};

    ghost Value = { List ℕ };

    ghost view = { λ a. a.each.items };

    ghost invariant = { λ a. ArePowers a.each.items × (a.sum ≡ total a.each.items) × (a.sum < 2 ^ 39) };
}

impl Powers {
    /// The powers in order of the validators' numbers, or the first fault.
    pub fn new(powers: Vec<u32>) -> Result<Powers, PowersFault>
        ensures { result ≡ admitted powers.items }
    {
        if powers.is_empty() {
            return Err(PowersFault::Empty);
        }
        if powers.len() > MOST_VALIDATORS {
            return Err(PowersFault::TooMany);
        }
        if has_zero(&powers) {
            return Err(PowersFault::ZeroPower);
        }
        let total = total_of(&powers);
        if has_dominant(&powers, total) {
            return Err(PowersFault::Dominant);
        }
        Ok(Powers {
            each: powers,
            sum: total,
        })
    }

    /// Equal powers, or want of memory.
    pub fn copy(&self, alloc: Global) -> Result<Powers, AllocError>
        ensures { IfOk result (λ copy. copy ≡ self.now) }
    {
        Ok(Powers {
            each: Vec::from_slice(alloc, self.each.as_slice())?,
            sum: self.sum,
        })
    }

    /// How many validators there are, from 2 to 128.
    pub fn count(&self) -> u16
        ensures count { result ≡ length self.now }
        ensures lawful { ArePowers self.now }
    {
        self.each.len() as u16
    }

    /// The power of all validators together, below 2^39.
    pub fn total(&self) -> u64
        ensures total { result ≡ total self.now }
        ensures small { result < 2 ^ 39 }
    {
        self.sum
    }

    /// The power of one validator; none past the last one.
    pub fn power_of(&self, validator: u16) -> Option<u32>
        ensures { result ≡ slice_get self.now validator }
    {
        self.each.get(validator as usize).copied()
    }

    /// Whether this much power is more than two thirds of the total. Two sets with so much share a
    /// validator that doesn't lie (`quorums_share_honest`).
    #[tactic(auto, unfolding(crate::specs::Power::is_quorum))]
    pub fn is_quorum(&self, power: u64) -> bool
        ensures { result ≡ is_quorum self.now power }
    {
        power > 2 * self.sum / 3
    }

    /// Whether this much power is more than a third of the total. A set with so much has a validator
    /// that doesn't lie.
    #[tactic(auto, unfolding(crate::specs::Power::is_weak))]
    pub fn is_weak(&self, power: u64) -> bool
        ensures { result ≡ is_weak self.now power }
    {
        power > self.sum / 3
    }

    /// The power of a set of validators, by a mark for each member. Marks past the last validator count nothing.
    pub fn power_of_set(&self, members: &[bool; MOST_VALIDATORS]) -> u64
        ensures power { (set : ℕ → Bool) → ((i : ℕ) → i < 128 → slice_index_or members.now i false ≡ set i) → result ≡ power self.now set }
        ensures within { result ≤ total self.now }
    {
        set_power(self.each.as_slice(), members)
    }

    /// The validator that proposes in a round of a height (`proposer(h, round)` of line 14): of as many
    /// rounds or heights in a row as there is power in all, each proposes in as many as it has power
    /// (`turns_by_power`).
    #[tactic(auto, unfolding(crate::specs::Power::proposer))]
    pub fn proposer(&self, height: u64, round: u32) -> u16
        ensures turn { result ≡ proposer self.now height round }
        ensures within { result < length self.now }
    {
        let turn = (u128::from(height) + u128::from(round)) % u128::from(self.sum);
        first_above(self.each.as_slice(), turn as u64)
    }
}

fn has_zero(powers: &[u32]) -> bool
    ensures { result ≡ list_any (λ p. p == 0) powers.now }
{
    powers.iter().any(|power| *power == 0)
}

fn has_dominant(powers: &[u32], total: u64) -> bool
    requires { total < 2 ^ 39 }
    ensures { result ≡ list_any (λ p. nat_lt (2 * total) (3 * p)) powers.now }
{
    powers.iter().any(|power| 3 * u64::from(*power) > 2 * total)
}

fn is_member(members: &[bool], validator: usize) -> bool
    ensures { result ≡ slice_index_or members.now validator false }
{
    members.get(validator).copied().unwrap_or(false)
}

fn set_power(powers: &[u32], members: &[bool]) -> u64
    requires { total powers.now < 2 ^ 39 }
    ensures power { result ≡ power powers.now (λ v. slice_index_or members.now v false) }
    ensures within { result ≤ total powers.now }
{
    let mut total = 0u64;
    for (validator, power) in powers.iter().enumerate() {
        if is_member(members, validator) {
            total += u64::from(*power);
        }
    }
    total
}

fn total_of(powers: &[u32]) -> u64
    requires { length powers.now ≤ 128 }
    ensures total { result ≡ total powers.now }
    ensures small { result < 2 ^ 39 }
{
    let mut total = 0u64;
    for power in powers {
        total += u64::from(*power);
    }
    total
}

/// The first validator whose power and that of those before it are more than this; where the total isn't,
/// how many validators there are.
fn first_above(powers: &[u32], mut power: u64) -> u16
    requires { length powers.now ≤ 128 }
    ensures { result ≡ first_above powers.now power }
{
    for (validator, own) in powers.iter().enumerate() {
        if power < u64::from(*own) {
            return validator as u16;
        }
        power -= u64::from(*own);
    }
    powers.len() as u16
}

/// Two quorums have a weak quorum in common.
pub fn quorums_share()
    ensures { QuorumsShare }
{}

/// Where less than a third of the power lies, two quorums share a validator that does not lie.
pub fn quorums_share_honest()
    ensures { QuorumsShareHonest }
{}

/// Among as many heights or rounds in a row as there is power in all, a validator proposes in as many as
/// it has power.
pub fn turns_by_power()
    ensures { TurnsByPower }
{}

/// Validators of power 1 propose one after the other.
pub fn equal_powers_in_turn()
    ensures { EqualPowersInTurn }
{}
