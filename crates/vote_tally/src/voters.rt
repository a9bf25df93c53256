//! Sets of validators, by a bit for each.

ghost use Rattle.std.specs.Prelude.{◌≡◌, ◌<◌, ◌==◌, ◌||◌, ℕ};
ghost use Rattle.vote_tally.specs.Totals.{has};

use powers::MOST_VALIDATORS;

/// A set of validators.
#[derive(Clone, Copy, Debug, PartialEq, Eq)]
pub struct Voters {
    /// One bit for each validator, from the lowest: as wide as there may be validators.
    bits: u128,
}

impl Voters {
    /// Nobody.
    pub const NONE: Voters = Voters { bits: 0 };

    /// Whether a validator is among them; none past the last one is.
    pub fn has(self, validator: u16) -> bool
        ensures { result ≡ has self validator }
    {
        usize::from(validator) < MOST_VALIDATORS && (self.bits >> validator) & 1 == 1
    }

    /// These and one more.
    pub fn with(self, validator: u16) -> Voters
        ensures { (i : ℕ) → i < 128 → has result i ≡ (has self i || (validator == i)) }
    {
        if usize::from(validator) < MOST_VALIDATORS {
            Voters {
                bits: self.bits | (1 << validator),
            }
        } else {
            self
        }
    }
}
