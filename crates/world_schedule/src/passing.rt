//! What comes to several validators, one after the other.

ghost use Rattle.std.specs.Prelude.{◌≡◌, OnOk, map, filter, slice_get, Some};
ghost use Rattle.protocol.specs.Tags.{Setting};
ghost use Rattle.protocol.specs.Messages.{Body};
ghost use Rattle.protocol.specs.History.{Given};
ghost use Rattle.world_schedule.specs.Cores.{frame_in};
ghost use Rattle.world_schedule.specs.Making.{Scene, Hands};
ghost use Rattle.world_schedule.specs.Standings.{Holds, sayer};
ghost use Rattle.world_schedule.specs.Validators.{request_of, AreUp};
ghost use Rattle.world_schedule.specs.Events.{asked_of, is_wanting, passes};
ghost use Rattle.world_schedule.specs.Worlds.{has_come, HaveMet};

use crate::brought::Brought;
use crate::chronicle::Chronicle;
use crate::validator::Request;
use crate::validators::Validators;
use std::alloc::Global;
use world_parties::FaultNumber;

impl Validators {
    /// Each of these validators meets a request, in turn.
    pub(crate) fn turn_all(
        &mut self,
        validators: &[u16],
        request: Request<'_>,
        chronicle: &mut Chronicle,
    ) -> Result<(), FaultNumber>
        ensures { (c : Setting) (s : Scene) → AreUp c s self.old.each.items → Holds c s.standing.numbered chronicle.old.messages
            → OnOk result (HaveMet c s (map (asked_of (request_of request.entry)) validators.now) self.old.each.items self.new.each.items chronicle.old chronicle.new) }
    {
        for validator in validators {
            self.turn(*validator, request, chronicle)?;
        }
        Ok(())
    }

    /// Brings each message so far to each of these validators but its sender to which it was not brought, in order of its
    /// number and then of theirs.
    pub(crate) fn pass(
        &mut self,
        alloc: Global,
        validators: &[u16],
        brought: &Brought,
        chronicle: &mut Chronicle,
    ) -> Result<(), FaultNumber>
        ensures { (c : Setting) (s : Scene) → AreUp c s self.old.each.items → Holds c s.standing.numbered chronicle.old.messages
            → OnOk result (HaveMet c s (passes c (has_come brought.now) validators.now 0 s.standing.numbered) self.old.each.items self.new.each.items chronicle.old chronicle.new) }
    {
        for number in brought.passed..chronicle.messages.count() {
            self.bring(alloc, number, validators, brought, chronicle)?;
        }
        Ok(())
    }

    /// Brings one message.
    fn bring(
        &mut self,
        alloc: Global,
        number: u64,
        validators: &[u16],
        brought: &Brought,
        chronicle: &mut Chronicle,
    ) -> Result<(), FaultNumber>
        ensures { (c : Setting) (s : Scene) (b : Body) → AreUp c s self.old.each.items → Holds c s.standing.numbered chronicle.old.messages → slice_get s.standing.numbered number ≡ Some b
            → OnOk result (HaveMet c s (map (asked_of (Hands (Given (frame_in c b)))) (filter (is_wanting (has_come brought.now) number (sayer b)) validators.now)) self.old.each.items self.new.each.items chronicle.old chronicle.new) }
    {
        let Some(posted) = chronicle.messages.get(number) else {
            return Err(FaultNumber::NoSuchMessage);
        };
        let wanting = brought.wanting(alloc, number, posted.sayer, validators)?;
        let frame = posted.frame.to_vec(alloc)?;
        self.turn_all(&wanting, Request::Take(&frame), chronicle)
    }
}
