//! The correct validators of a world.

ghost use Rattle.std.specs.Prelude.{◌≡◌, [], true, length, map, option_map, IfOk, OnOk};
ghost use Rattle.protocol.specs.Tags.{Setting};
ghost use Rattle.protocol.specs.Messages.{below};
ghost use Rattle.world_parties.specs.Cast.{setting_of, is_validator, is_correct};
ghost use Rattle.world_schedule.specs.Making.{Scene, beginning};
ghost use Rattle.world_schedule.specs.Standings.{Holds};
ghost use Rattle.world_schedule.specs.Worlds.{machine_at};
ghost use Rattle.world_schedule.specs.Validators.{request_of, IsUp, IsSeated, AreUp, HaveTurned, is_correct_seat, places};
ghost use Rattle.world_schedule.specs.Restarting.{HaveRestarted};

use crate::chronicle::Chronicle;
use crate::event::Failing;
use crate::report::{Answer, What};
use crate::seat::Seat;
use crate::validator::{Request, Validator};
use round_states::State;
use std::alloc::{AllocError, Global};
use std::mem::replace;
use world_parties::{FaultNumber, Parties};

/// What is told of a call of a validator that has no node.
const HALTED: Answer = Answer {
    number: 15,
    inner: 0,
};

/// The seats of the validators, by number.
#[derive(Drop)]
pub(crate) struct Validators {
    pub(crate) each: Vec<Seat>,
}

impl Validators {
    /// Opens each correct validator.
    pub(crate) fn open(alloc: Global, parties: &Parties) -> Result<Validators, FaultNumber>
        ensures up { IfOk result (λ opened. AreUp (setting_of parties.now) beginning opened.each.items) }
        ensures places { IfOk result (λ opened. places opened.each.items ≡ map (is_correct parties.now) (below (length parties.now.powers))) }
    {
        let mut each = Vec::with_capacity(alloc, usize::from(parties.count()))?;
        open_all(alloc, &mut each, parties)?;
        Ok(Validators { each })
    }

    /// A validator meets a request, and the others stay as they are. One that has no node answers that it has halted.
    pub(crate) fn turn(
        &mut self,
        number: u16,
        request: Request<'_>,
        chronicle: &mut Chronicle,
    ) -> Result<(), FaultNumber>
        ensures { (c : Setting) (s : Scene) → AreUp c s self.old.each.items → Holds c s.standing.numbered chronicle.old.messages
            → OnOk result (HaveTurned c s number (request_of request.entry) self.old.each.items self.new.each.items chronicle.old chronicle.new) }
    {
        let place = usize::from(number);
        if place >= self.each.len() {
            return Err(FaultNumber::NoSuchParty);
        }
        match &mut self.each[place] {
            Seat::Up(validator) => validator.turn(request, chronicle),
            Seat::Closed(_) => Ok(chronicle.tell(Some(number), What::Answered(HALTED))?),
            Seat::Liar => Err(FaultNumber::NoSuchParty),
        }
    }

    /// A validator is opened again over its journal and settled, and the others stay as they are. After a fault there is no
    /// validator at its place.
    pub(crate) fn restart(
        &mut self,
        parties: &Parties,
        number: u16,
        chronicle: &mut Chronicle,
    ) -> Result<(), FaultNumber>
        ensures { (s : Scene) → AreUp (setting_of parties.now) s self.old.each.items → Holds (setting_of parties.now) s.standing.numbered chronicle.old.messages
            → OnOk result (HaveRestarted (setting_of parties.now) s number self.old.each.items self.new.each.items chronicle.old chronicle.new) }
    {
        let place = usize::from(number);
        if place >= self.each.len() {
            return Err(FaultNumber::NoSuchParty);
        }
        let stopped = replace(&mut self.each[place], Seat::Liar).stop(chronicle.alloc)?;
        self.each[place] = stopped.restart(parties, chronicle)?;
        Ok(())
    }

    /// A call of a validator's store is to fail.
    pub(crate) fn strike(&self, number: u16, failing: Failing) -> Result<(), AllocError> {
        match self.each.get(usize::from(number)) {
            Some(seat) => seat.strike(failing),
            None => Ok(()),
        }
    }

    /// The variables of a validator that is up.
    pub(crate) fn state(&self, number: u64) -> Option<&State>
        ensures { option_map (λ state. state.now) result ≡ machine_at number self.now.each.items }
    {
        if number < self.each.len() as u64 {
            self.each[number as usize].state()
        } else {
            None
        }
    }
}

fn open_all(alloc: Global, each: &mut Vec<Seat>, parties: &Parties) -> Result<(), FaultNumber>
    requires { each.old.items ≡ [] }
    ensures up { OnOk result (AreUp (setting_of parties.now) beginning each.new.items) }
    ensures places { OnOk result (places each.new.items ≡ map (is_correct parties.now) (below (length parties.now.powers))) }
{
    for number in 0..parties.count() {
        let place = open_one(alloc, parties, number)?;
        each.push(place)?;
    }
    Ok(())
}

/// The validator of this number, where it is correct.
fn open_one(alloc: Global, parties: &Parties, number: u16) -> Result<Seat, FaultNumber>
    ensures up { IfOk result (λ place. IsSeated (setting_of parties.now) beginning number place) }
    ensures place { IfOk result (λ place. is_correct_seat place ≡ is_correct parties.now number) }
{
    match parties.correct_at(u64::from(number)) {
        Ok(correct) => Ok(Seat::Up(open_again(alloc, parties, correct)?)),
        Err(_) => Ok(Seat::Liar),
    }
}

/// Opens a validator; where memory was refused, once more.
fn open_again(alloc: Global, parties: &Parties, number: u16) -> Result<Validator, FaultNumber>
    requires { is_validator parties.now number ≡ true }
    ensures up { IfOk result (λ validator. IsUp (setting_of parties.now) beginning validator) }
    ensures number { IfOk result (λ validator. validator.number ≡ number) }
{
    match Validator::open(alloc, parties, number) {
        Ok(validator) => Ok(validator),
        Err(_) => Validator::open(alloc, parties, number),
    }
}
