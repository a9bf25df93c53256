//! In which heights a validator proposes first, so that it can say how far its next turn is.
//!
//! Who proposes in a round of a height is a matter of their sum (`Powers::proposer`): of as many heights in a row as there is power in
//! all, each validator proposes in the first rounds of as many as it has power, one behind the other.
#![tactic(auto)]

ghost use Rattle.std.specs.Prelude.{◌≡◌, ◌<◌, ℕ, List, slice_index};
ghost use Rattle.proposer_turns.specs.Turning.{turns_of, IsNext};

use powers::Powers;

/// The heights in whose first round a validator proposes: of each cycle of heights as many as it has power, one behind the other.
#[derive(Clone, Copy, Debug, PartialEq, Eq)]
pub struct Turns {
    /// How many heights of a cycle come before its first: the power of all validators of smaller numbers.
    before: u64,
    /// How many heights of a cycle are its: its power.
    own: u64,
    /// How many heights a cycle has: the power of all.
    cycle: u64,
}

impl Turns {
    /// Every height.
    pub const ALL: Turns = Turns {
        before: 0,
        own: 1,
        cycle: 1,
    };

    /// Those of a validator. One that isn't there has none, and what is said of its next one means nothing.
    pub fn of(powers: &Powers, validator: u16) -> Turns
        ensures { result ≡ turns_of powers.now validator }
    {
        let cycle = powers.total();
        let mut before = 0u64;
        for smaller in 0..validator {
            before += power_of(powers, smaller);
        }
        Turns {
            before,
            own: power_of(powers, validator),
            cycle,
        }
    }

    /// Returns how many heights after this one the next comes in whose first round the validator proposes: 1 where that is the very
    /// next. At most as many as there is power in all.
    pub fn heights_to_next(&self, height: u64) -> u64
        ensures { (powers : List ℕ) (validator : ℕ) → 0 < slice_index powers validator
            → self.now ≡ turns_of powers validator → IsNext powers validator height result }
    {
        let place = height.checked_rem(self.cycle).unwrap_or(0);
        let end = self.before.saturating_add(self.own);
        if place < self.before {
            self.before - place
        } else if place.saturating_add(1) < end {
            1
        } else {
            self.cycle.saturating_sub(place).saturating_add(self.before)
        }
    }
}

/// A validator's power, 0 where there is none of this number.
#[tactic(auto, using(crate::proofs::Next::none_there))]
fn power_of(powers: &Powers, validator: u16) -> u64
    ensures { result ≡ slice_index powers.now validator }
{
    match powers.power_of(validator) {
        Some(power) => u64::from(power),
        None => 0,
    }
}
