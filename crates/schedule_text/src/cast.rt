//! Who takes part in a schedule.

ghost use Rattle.std.specs.Prelude.{◌≡◌, [], true, IfOk};
ghost use Rattle.world_parties.specs.Cast.{LiesIn, is_correct};
ghost use Rattle.world_schedule.specs.Worlds.{HasOpened};

use crate::fault::LineFault;
use crate::numbers::number_in_u16;
use powers::Powers;
use std::alloc::{AllocError, Global};
use world_parties::Parties;
use world_schedule::World;

/// The validators and the clients, and which of the validators lie.
#[derive(Drop)]
pub(crate) struct Cast {
    pub(crate) parties: Parties,
    pub(crate) clients: u16,
    pub(crate) liars: Vec<u16>,
    ghost clients_are: { parties.clients ≡ clients },
    ghost lies: { LiesIn parties liars.items },
}

impl Cast {
    /// Validators of whom none lies, and so many clients.
    pub(crate) fn honest(alloc: Global, powers: Powers, clients: u16) -> Result<Cast, LineFault>
        ensures { IfOk result (λ cast. (cast.parties.powers ≡ powers) × (cast.clients ≡ clients) × (cast.liars.items ≡ [])) }
    {
        Cast::of(powers, clients, Vec::new(alloc))
    }

    /// The same parties, of whom these lie.
    pub(crate) fn with_liars(&self, alloc: Global, liars: Vec<u16>) -> Result<Cast, LineFault>
        ensures { IfOk result (λ cast. (cast.parties.powers ≡ self.now.parties.powers) × (cast.clients ≡ self.now.clients) × (cast.liars ≡ liars)) }
    {
        Cast::of(self.parties.powers().copy(alloc)?, self.clients, liars)
    }

    fn of(powers: Powers, clients: u16, liars: Vec<u16>) -> Result<Cast, LineFault>
        ensures { IfOk result (λ cast. (cast.parties.powers ≡ powers) × (cast.clients ≡ clients) × (cast.liars ≡ liars)) }
    {
        match Parties::new(powers, clients, &liars) {
            Ok(parties) => Ok(Cast {
                parties,
                clients,
                liars,
            }),
            Err(_) => Err(LineFault::BadLine),
        }
    }

    /// The correct validator that the word names.
    pub(crate) fn correct_in(&self, word: &[u8]) -> Result<u16, LineFault>
        ensures { IfOk result (λ number. is_correct self.now.parties number ≡ true) }
    {
        let number = number_in_u16(word).ok_or(LineFault::BadLine)?;
        match self.parties.correct_at(u64::from(number)) {
            Ok(correct) => Ok(correct),
            Err(_) => Err(LineFault::BadLine),
        }
    }

    /// Their world, opened and settled.
    pub(crate) fn world(&self, alloc: Global) -> Result<World, AllocError>
        ensures { IfOk result (λ world. HasOpened self.now.parties.powers self.now.clients self.now.liars.items world) }
    {
        let powers = self.parties.powers().copy(alloc)?;
        match World::new(alloc, powers, self.clients, &self.liars) {
            Ok(world) => Ok(world),
            Err(_) => Err(AllocError),
        }
    }
}
