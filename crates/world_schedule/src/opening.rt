//! The opening of a world's validators.

ghost use Rattle.std.specs.Prelude.{◌≡◌, [], true, false, IfOk};
ghost use Rattle.vote_journal.specs.Layout.{IsWhole};
ghost use Rattle.world_parties.specs.Cast.{setting_of, is_validator};
ghost use Rattle.world_schedule.specs.Making.{beginning};
ghost use Rattle.world_schedule.specs.Validators.{IsUp};

use crate::validator::Validator;
use node_core::{Config, NodeCore};
use powers::Powers;
use std::alloc::Global;
use vote_journal::{Journal, Strikes};
use world_parties::{FaultNumber, Parties};

impl Validator {
    /// A validator over an empty store in memory, of which no rule has fired.
    pub(crate) fn open(
        alloc: Global,
        parties: &Parties,
        number: u16,
    ) -> Result<Validator, FaultNumber>
        requires { is_validator parties.now number ≡ true }
        ensures up { IfOk result (λ validator. IsUp (setting_of parties.now) beginning validator) }
        ensures number { IfOk result (λ validator. validator.number ≡ number) }
    {
        // There are 2 to 128 validators.
        let _count = parties.count();
        let ring = parties.ring_of(alloc, number)?;
        let powers = parties.powers().copy(alloc)?;
        let strikes = Strikes::new(alloc)?;
        let journal = Journal::struck_by(alloc, number, strikes.clone()?)?;
        let config = Config { me: number, powers };
        Ok(Validator {
            number,
            strikes,
            core: NodeCore::new(alloc, config, ring, journal),
            decisions_told: 0,
            owes: false,
        })
    }
}
