//! What stands at the number of a validator.

ghost use Rattle.std.specs.Prelude.{◌≡◌, ℕ, List, option_map, IfOk};
ghost use Rattle.world_schedule.specs.Restarting.{HasLeft};
ghost use Rattle.world_schedule.specs.Worlds.{machine_of};

use crate::event::Failing;
use crate::restarting::Stopped;
use crate::validator::Validator;
use round_states::State;
use std::alloc::{AllocError, Global};
use world_parties::FaultNumber;

/// What stands at the number of a validator.
#[derive(Drop)]
pub(crate) enum Seat {
    /// It lies, and so none of a world's code is its own.
    Liar,
    Up(Validator),
    /// Its last opening failed for the device: until one succeeds, there is no node.
    Closed(Stopped),
}

impl Seat {
    /// A call of the validator's store is to fail.
    pub(crate) fn strike(&self, failing: Failing) -> Result<(), AllocError> {
        match self {
            Seat::Liar => Ok(()),
            Seat::Up(validator) => validator.strike(failing),
            Seat::Closed(stopped) => stopped.strike(failing),
        }
    }

    /// The validator ends.
    pub(crate) fn stop(self, alloc: Global) -> Result<Stopped, FaultNumber>
        ensures { (powers : List ℕ) → IfOk result (HasLeft powers self) }
    {
        match self {
            Seat::Liar => Err(FaultNumber::NoSuchParty),
            Seat::Up(validator) => Ok(validator.stop(alloc)?),
            Seat::Closed(stopped) => Ok(stopped),
        }
    }

    /// The variables of the validator.
    pub(crate) fn state(&self) -> Option<&State>
        ensures { option_map (λ state. state.now) result ≡ machine_of self.now }
    {
        match self {
            Seat::Up(validator) => Some(validator.core.state()),
            Seat::Liar | Seat::Closed(_) => None,
        }
    }
}
