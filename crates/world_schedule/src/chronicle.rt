//! What is told of a run, as it goes on.

ghost use Rattle.std.specs.Prelude.{◌≡◌, ◌∷◌, [], List, ℕ, Some, OnOk, map};
ghost use Rattle.protocol.specs.Tags.{Setting};
ghost use Rattle.protocol.specs.Messages.{Body as AnyBody};
ghost use Rattle.world_schedule.specs.Standings.{Holds, Tells, Says, IsReadable, AreReadable};
ghost use Rattle.world_schedule.specs.Cores.{frame_in};
ghost use Rattle.world_schedule.specs.Reports.{decision_of};
ghost use Rattle.world_schedule.specs.declared.report.What.TheVariants.{Decided};

use crate::numbering::Messages;
use crate::report::{Decision, Release, Told, What};
use messages::{Bundle, Message, read};
use std::alloc::{AllocError, Global};
use world_parties::FaultNumber;

/// What is told of a run so far, and the messages of the world.
#[derive(Drop)]
pub(crate) struct Chronicle {
    pub(crate) alloc: Global,
    /// The event that happens now.
    pub(crate) event: u64,
    pub(crate) told: Vec<Told>,
    pub(crate) messages: Messages,
}

impl Chronicle {
    pub(crate) fn new(alloc: Global) -> Chronicle
        ensures told { result.told.items ≡ [] }
        ensures event { result.event ≡ 0 }
        ensures messages { (c : Setting) → Holds c [] result.messages }
    {
        Chronicle {
            alloc,
            event: 0,
            told: Vec::new(alloc),
            messages: Messages::new(alloc),
        }
    }

    /// Tells one thing of a validator or of a client.
    pub(crate) fn tell(&mut self, validator: Option<u16>, what: What) -> Result<(), AllocError>
        ensures told { OnOk result (Tells validator (what ∷ []) self.old self.new) }
        ensures messages { self.new.messages ≡ self.old.messages }
    {
        self.told.push(Told {
            event: self.event,
            validator,
            what,
        })?;
        Ok(())
    }

    /// Tells of a validator's decisions.
    pub(crate) fn tell_decisions(
        &mut self,
        validator: u16,
        decisions: &[Bundle],
    ) -> Result<(), FaultNumber>
        ensures told { OnOk result (Tells (Some validator) (map (λ b. Decided (decision_of b)) decisions.now) self.old self.new) }
        ensures messages { self.new.messages ≡ self.old.messages }
    {
        for bundle in decisions {
            let decision = Decision {
                height: bundle.height,
                round: bundle.round,
                id: bundle.id,
            };
            self.tell(Some(validator), What::Decided(decision))?;
        }
        Ok(())
    }

    /// Numbers the message of a frame, and tells of it where it is new.
    pub(crate) fn tell_message(
        &mut self,
        validator: Option<u16>,
        frame: &[u8],
    ) -> Result<(), FaultNumber>
        ensures { (c : Setting) (numbered : List AnyBody) (b : AnyBody) → Holds c numbered self.old.messages → frame.now ≡ frame_in c b → IsReadable c b
            → OnOk result (Says c numbered validator (b ∷ []) self.old self.new) }
    {
        let message = read(self.alloc, frame)?;
        match self.messages.number(self.alloc, frame, &message)? {
            Some(number) => self.tell_release(validator, number, message),
            None => Ok(()),
        }
    }

    fn tell_release(
        &mut self,
        validator: Option<u16>,
        number: u64,
        message: Message,
    ) -> Result<(), FaultNumber>
        ensures told { OnOk result (Tells validator (What.Released (record { number = number; body = message.body }) ∷ []) self.old self.new) }
        ensures messages { self.new.messages ≡ self.old.messages }
    {
        let Message { body, tags: _ } = message;
        self.tell(validator, What::Released(Release { number, body }))?;
        Ok(())
    }

    /// Numbers the messages of these frames, and tells of those that are new.
    pub(crate) fn tell_messages(
        &mut self,
        validator: Option<u16>,
        frames: &[Vec<u8>],
    ) -> Result<(), FaultNumber>
        ensures { (c : Setting) (numbered : List AnyBody) (bodies : List AnyBody) → Holds c numbered self.old.messages → map (λ frame. frame.items) frames.now ≡ map (frame_in c) bodies → AreReadable c bodies
            → OnOk result (Says c numbered validator bodies self.old self.new) }
    {
        for frame in frames {
            self.tell_message(validator, frame)?;
        }
        Ok(())
    }
}
