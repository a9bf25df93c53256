//! All of a world that events change.

ghost use Rattle.std.specs.Prelude.{◌≡◌, ◌++◌, ◌∷◌, [], List, cond, length, map, IfOk, OnOk};
ghost use Rattle.std.specs.List.{list_any};
ghost use Rattle.protocol.specs.Tags.{Setting};
ghost use Rattle.protocol.specs.Messages.{below};
ghost use Rattle.protocol.specs.History.{Settle as Settling};
ghost use Rattle.world_parties.specs.Cast.{setting_of, is_correct, correct};
ghost use Rattle.world_schedule.specs.Making.{Hands, beginning};
ghost use Rattle.world_schedule.specs.Serving.{is_failure, AreServed};
ghost use Rattle.world_schedule.specs.Standings.{Holds};
ghost use Rattle.world_schedule.specs.Validators.{places};
ghost use Rattle.world_schedule.specs.declared.seat.Seat.{Seat as Seated};
ghost use Rattle.world_schedule.specs.Events.{asked_of};
ghost use Rattle.world_schedule.specs.Worlds.{HaveMet, HaveSettled};

use crate::brought::Brought;
use crate::chronicle::Chronicle;
use crate::clients::Clients;
use crate::report::{Told, What};
use crate::validator::Request;
use crate::validators::Validators;
use std::alloc::{AllocError, Global};
use world_parties::Parties;

/// The parties of a world, what came of them so far, and what is told of the present event.
#[derive(Drop)]
pub(crate) struct Stage {
    pub(crate) alloc: Global,
    pub(crate) parties: Parties,
    /// The numbers of the correct validators, in order.
    pub(crate) correct: Vec<u16>,
    pub(crate) validators: Validators,
    pub(crate) clients: Clients,
    pub(crate) brought: Brought,
    pub(crate) chronicle: Chronicle,
}

impl Stage {
    /// Opens and settles each correct validator, in order of number, as event 0.
    pub(crate) fn open(alloc: Global, parties: Parties, clients: u16) -> Result<Stage, AllocError>
        requires { parties.clients ≡ clients }
        ensures { IfOk result (λ stage. HaveSettled parties stage) }
    {
        let correct = correct_of(alloc, &parties)?;
        let clients = Clients::new(alloc, clients)?;
        let mut chronicle = Chronicle::new(alloc);
        let validators = settled(alloc, &parties, &correct, &mut chronicle)?;
        Ok(Stage {
            alloc,
            parties,
            correct,
            validators,
            clients,
            brought: Brought::new(alloc),
            chronicle,
        })
    }
}

/// The numbers of the correct validators.
fn correct_of(alloc: Global, parties: &Parties) -> Result<Vec<u16>, AllocError>
    ensures { IfOk result (λ found. found.items ≡ correct parties.now) }
{
    let mut found = Vec::new(alloc);
    for number in 0..parties.count() {
        put_correct(&mut found, parties, number)?;
    }
    Ok(found)
}

/// Puts the number there, where its validator is correct.
fn put_correct(found: &mut Vec<u16>, parties: &Parties, number: u16) -> Result<(), AllocError>
    ensures { OnOk result (found.new.items ≡ found.old.items ++ cond (is_correct parties.now number) (number ∷ []) []) }
{
    match parties.correct_at(u64::from(number)) {
        Ok(correct) => Ok(found.push(correct)?),
        Err(_) => Ok(()),
    }
}

/// The validators, opened and settled.
fn settled(
    alloc: Global,
    parties: &Parties,
    correct: &[u16],
    chronicle: &mut Chronicle,
) -> Result<Validators, AllocError>
    requires { (c : Setting) → Holds c [] chronicle.old.messages }
    ensures places { IfOk result (λ opened. places opened.each.items ≡ map (is_correct parties.now) (below (length parties.now.powers))) }
    ensures met { IfOk result (λ opened. (first : List Seated) × HaveMet (setting_of parties.now) beginning (map (asked_of (Hands Settling)) correct.now) first opened.each.items chronicle.old chronicle.new) }
    ensures served { OnOk result (AreServed chronicle.new.told.items) }
{
    let Ok(mut validators) = Validators::open(alloc, parties) else {
        return Err(AllocError);
    };
    let Ok(()) = validators.turn_all(correct, Request::Settle, chronicle) else {
        return Err(AllocError);
    };
    if tells_failure(&chronicle.told) {
        return Err(AllocError);
    }
    Ok(validators)
}

/// Whether one of the answers is that a save or an opening failed: of no call of a store that no event made fail.
fn tells_failure(told: &[Told]) -> bool
    ensures { result ≡ list_any (λ t. is_failure t.what) told.now }
{
    told.iter().any(|one| matches!(&one.what, What::Answered(answer) if answer.number == 17))
}
