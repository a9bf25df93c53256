//! What each event does.

ghost use Rattle.std.specs.Prelude.{◌≡◌, ◌≢◌, true, IfOk, OnOk, IfErr};
ghost use Rattle.messages.specs.Framing.{SpellsFrame, IsMessage};
ghost use Rattle.protocol.specs.Tags.{Setting};
ghost use Rattle.protocol.specs.Messages.{tagged};
ghost use Rattle.world_parties.specs.Faults.{IsUnencoded};
ghost use Rattle.world_parties.specs.Cast.{Cast, setting_of, is_correct};
ghost use Rattle.world_schedule.specs.Reports.{said_as};
ghost use Rattle.world_schedule.specs.Making.{Scene, Request as Wanted};
ghost use Rattle.world_schedule.specs.Standings.{Holds};
ghost use Rattle.world_schedule.specs.Validators.{request_of, AreUp, HaveTurned};
ghost use Rattle.world_schedule.specs.Events.{Course, turns, CannotHappen, IsUnknown};
ghost use Rattle.world_schedule.specs.Worlds.{IsAt, HasActed, IsMet};
ghost use Rattle.world_schedule.specs.declared.event.Event.TheVariants as events;

use crate::event::{Event, Failing};
use crate::stage::Stage;
use crate::validator::Request;
use authenticators::Party;
use messages::Body;
use transactions::{Duplicate, Op, Seq, Tx};
use world_parties::{Bundling, FaultNumber, Proposing, Tagged, Voting};

impl Stage {
    /// An event. Its fault is found before anything is done, but for want of memory.
    pub(crate) fn happen(&mut self, event: &Event) -> Result<(), FaultNumber>
        ensures ok { (cast : Cast) (w : Course) → IsAt cast w self.old → OnOk result (HasActed cast w event.now self.old self.new) }
        ensures err { IfErr result (λ fault. fault ≢ FaultNumber.OutOfMemory → self.new ≡ self.old) }
        ensures cause { (cast : Cast) (w : Course) → IsAt cast w self.old → IfErr result (λ fault. CannotHappen fault cast w.scene.standing event.now) }
    {
        match event {
            Event::Send(client, op) => self.send(*client, op),
            Event::Open(client) => self.begin(*client),
            Event::Deliver(number, validator) => self.deliver(*number, *validator),
            Event::Pass => self.pass(),
            Event::Timeout(validator, timeout) => self.turn(*validator, Request::Expire(*timeout)),
            Event::Ask(validator) => self.turn(*validator, Request::Ask),
            Event::Resend(validator) => self.turn(*validator, Request::Resend),
            Event::Restart(validator) => self.restart(*validator),
            Event::Fail(validator, failing) => self.fail(*validator, *failing),
            Event::Frame(validator, bytes) => {
                self.turn(*validator, Request::Take(bytes.as_slice()))
            }
            Event::Submit(validator, line) => self.submit(*validator, line),
            Event::Propose(validator, line) => self.propose(*validator, line),
            Event::Vote(validator, line) => self.vote(*validator, line),
            Event::Bundle(validator, line) => self.bundle(*validator, line),
        }
    }

    fn submit(&mut self, validator: u64, line: &Tagged) -> Result<(), FaultNumber>
        ensures ok { (cast : Cast) (w : Course) → IsAt cast w self.old → OnOk result (HasActed cast w (events.Submit validator line.now) self.old self.new) }
        ensures err { IfErr result (λ fault. fault ≢ FaultNumber.OutOfMemory → self.new ≡ self.old) }
        ensures cause { (cast : Cast) (w : Course) → IsAt cast w self.old → IfErr result (λ fault. CannotHappen fault cast w.scene.standing (events.Submit validator line.now)) }
    {
        let to = self.parties.correct_at(validator)?;
        let frame = self.parties.frame_of_tx(self.alloc, line)?;
        self.meet(to, Request::Take(&frame))
    }

    fn propose(&mut self, validator: u64, line: &Proposing) -> Result<(), FaultNumber>
        ensures ok { (cast : Cast) (w : Course) → IsAt cast w self.old → OnOk result (HasActed cast w (events.Propose validator line.now) self.old self.new) }
        ensures err { IfErr result (λ fault. fault ≢ FaultNumber.OutOfMemory → self.new ≡ self.old) }
        ensures cause { (cast : Cast) (w : Course) → IsAt cast w self.old → IfErr result (λ fault. CannotHappen fault cast w.scene.standing (events.Propose validator line.now)) }
    {
        let to = self.parties.correct_at(validator)?;
        let frame = self.parties.frame_of_proposal(self.alloc, line)?;
        self.meet(to, Request::Take(&frame))
    }

    fn vote(&mut self, validator: u64, line: &Voting) -> Result<(), FaultNumber>
        ensures ok { (cast : Cast) (w : Course) → IsAt cast w self.old → OnOk result (HasActed cast w (events.Vote validator line.now) self.old self.new) }
        ensures err { IfErr result (λ fault. fault ≢ FaultNumber.OutOfMemory → self.new ≡ self.old) }
        ensures cause { (cast : Cast) (w : Course) → IsAt cast w self.old → IfErr result (λ fault. CannotHappen fault cast w.scene.standing (events.Vote validator line.now)) }
    {
        let to = self.parties.correct_at(validator)?;
        let frame = self.parties.frame_of_vote(self.alloc, line)?;
        self.meet(to, Request::Take(&frame))
    }

    fn bundle(&mut self, validator: u64, line: &Bundling) -> Result<(), FaultNumber>
        ensures ok { (cast : Cast) (w : Course) → IsAt cast w self.old → OnOk result (HasActed cast w (events.Bundle validator line.now) self.old self.new) }
        ensures err { IfErr result (λ fault. fault ≢ FaultNumber.OutOfMemory → self.new ≡ self.old) }
        ensures cause { (cast : Cast) (w : Course) → IsAt cast w self.old → IfErr result (λ fault. CannotHappen fault cast w.scene.standing (events.Bundle validator line.now)) }
    {
        let to = self.parties.correct_at(validator)?;
        let frame = self.parties.frame_of_bundle(self.alloc, line)?;
        self.meet(to, Request::Take(&frame))
    }

    /// A correct validator meets a request.
    fn turn(&mut self, validator: u64, request: Request<'_>) -> Result<(), FaultNumber>
        ensures met { (cast : Cast) (w : Course) → IsAt cast w self.old → OnOk result (IsMet cast w validator (request_of request.entry) self.old self.new) }
        ensures known { (cast : Cast) → self.old.parties ≡ cast → OnOk result (is_correct cast validator ≡ true) }
        ensures err { IfErr result (λ fault. fault ≢ FaultNumber.OutOfMemory → self.new ≡ self.old) }
        ensures unknown { (cast : Cast) → self.old.parties ≡ cast → IfErr result (IsUnknown cast validator) }
    {
        let to = self.parties.correct_at(validator)?;
        self.meet(to, request)
    }

    /// The same, of a validator that is correct. Nothing but memory can be wanting.
    fn meet(&mut self, validator: u16, request: Request<'_>) -> Result<(), FaultNumber>
        ensures met { (cast : Cast) (w : Course) → IsAt cast w self.old → OnOk result (IsMet cast w validator (request_of request.entry) self.old self.new) }
        ensures err { IfErr result (λ fault. fault ≡ FaultNumber.OutOfMemory) }
    {
        match self
            .validators
            .turn(validator, request, &mut self.chronicle)
        {
            Ok(()) => Ok(()),
            Err(_) => Err(FaultNumber::OutOfMemory),
        }
    }

    /// A correct validator is opened again over its journal. After a fault there may be no validator at its place.
    fn restart(&mut self, validator: u64) -> Result<(), FaultNumber>
        ensures ok { (cast : Cast) (w : Course) → IsAt cast w self.old → OnOk result (HasActed cast w (events.Restart validator) self.old self.new) }
        ensures err { IfErr result (λ fault. fault ≢ FaultNumber.OutOfMemory → self.new ≡ self.old) }
        ensures cause { (cast : Cast) (w : Course) → IsAt cast w self.old → IfErr result (λ fault. CannotHappen fault cast w.scene.standing (events.Restart validator)) }
    {
        let to = self.parties.correct_at(validator)?;
        match self
            .validators
            .restart(&self.parties, to, &mut self.chronicle)
        {
            Ok(()) => Ok(()),
            Err(_) => Err(FaultNumber::OutOfMemory),
        }
    }

    /// A call of a correct validator's store is to fail.
    fn fail(&mut self, validator: u64, failing: Failing) -> Result<(), FaultNumber>
        ensures ok { (cast : Cast) (w : Course) → IsAt cast w self.old → OnOk result (HasActed cast w (events.Fail validator failing) self.old self.new) }
        ensures err { IfErr result (λ fault. fault ≢ FaultNumber.OutOfMemory → self.new ≡ self.old) }
        ensures cause { (cast : Cast) (w : Course) → IsAt cast w self.old → IfErr result (λ fault. CannotHappen fault cast w.scene.standing (events.Fail validator failing)) }
    {
        let to = self.parties.correct_at(validator)?;
        Ok(self.validators.strike(to, failing)?)
    }

    /// A client sends its next transaction.
    fn send(&mut self, client: u64, op: &Op) -> Result<(), FaultNumber>
        ensures ok { (cast : Cast) (w : Course) → IsAt cast w self.old → OnOk result (HasActed cast w (events.Send client op.now) self.old self.new) }
        ensures err { IfErr result (λ fault. fault ≢ FaultNumber.OutOfMemory → self.new ≡ self.old) }
        ensures cause { (cast : Cast) (w : Course) → IsAt cast w self.old → IfErr result (λ fault. CannotHappen fault cast w.scene.standing (events.Send client op.now)) }
    {
        let sender = self.parties.client_at(client)?;
        let (session, number) = self.clients.next(sender)?;
        let frame = self.frame_of(sender, session, number, op)?;
        match self.chronicle.tell_message(None, &frame) {
            Ok(()) => {
                self.clients.note(sender, session, number, op);
                Ok(())
            }
            Err(_) => Err(FaultNumber::OutOfMemory),
        }
    }

    /// The frame of a client's transaction.
    fn frame_of(
        &self,
        client: u16,
        session: u32,
        number: u64,
        op: &Op,
    ) -> Result<Vec<u8>, FaultNumber>
        ensures frame { IfOk result (λ frame. SpellsFrame frame.items (tagged (setting_of self.now.parties) (said_as (record { client = client; session = session; number = number; op = op.now })))) }
        ensures err { IfErr result (IsUnencoded (IsMessage (tagged (setting_of self.now.parties) (said_as (record { client = client; session = session; number = number; op = op.now }))))) }
    {
        let tx = Tx {
            client,
            session,
            number,
            op: op.copy(self.alloc)?,
            tags: Seq::new(self.alloc),
        };
        self.parties
            .frame_from(self.alloc, Party::Client(client), Body::Tx(tx))
    }

    /// A closed client begins its next session.
    fn begin(&mut self, client: u64) -> Result<(), FaultNumber>
        ensures ok { (cast : Cast) (w : Course) → IsAt cast w self.old → OnOk result (HasActed cast w (events.Open client) self.old self.new) }
        ensures err { IfErr result (λ fault. fault ≢ FaultNumber.OutOfMemory → self.new ≡ self.old) }
        ensures cause { (cast : Cast) (w : Course) → IsAt cast w self.old → IfErr result (λ fault. CannotHappen fault cast w.scene.standing (events.Open client)) }
    {
        let sender = self.parties.client_at(client)?;
        self.clients.begin(sender)
    }

    /// A message comes to a validator.
    fn deliver(&mut self, number: u64, validator: u64) -> Result<(), FaultNumber>
        ensures ok { (cast : Cast) (w : Course) → IsAt cast w self.old → OnOk result (HasActed cast w (events.Deliver number validator) self.old self.new) }
        ensures err { IfErr result (λ fault. fault ≢ FaultNumber.OutOfMemory → self.new ≡ self.old) }
        ensures cause { (cast : Cast) (w : Course) → IsAt cast w self.old → IfErr result (λ fault. CannotHappen fault cast w.scene.standing (events.Deliver number validator)) }
    {
        let Some(posted) = self.chronicle.messages.get(number) else {
            return Err(FaultNumber::NoSuchMessage);
        };
        let to = self.parties.correct_at(validator)?;
        let frame = posted.frame.to_vec(self.alloc)?;
        self.meet(to, Request::Take(&frame))?;
        Ok(self.brought.note(number, to)?)
    }

    /// Each message comes to each correct validator but its sender to which it wasn't brought.
    fn pass(&mut self) -> Result<(), FaultNumber>
        ensures ok { (cast : Cast) (w : Course) → IsAt cast w self.old → OnOk result (HasActed cast w events.Pass self.old self.new) }
        ensures err { IfErr result (λ fault. fault ≢ FaultNumber.OutOfMemory → self.new ≡ self.old) }
        ensures cause { (cast : Cast) (w : Course) → IsAt cast w self.old → IfErr result (λ fault. CannotHappen fault cast w.scene.standing events.Pass) }
    {
        let count = self.chronicle.messages.count();
        match self.validators.pass(
            self.alloc,
            &self.correct,
            &self.brought,
            &mut self.chronicle,
        ) {
            Ok(()) => {
                self.brought.pass(count);
                Ok(())
            }
            Err(_) => Err(FaultNumber::OutOfMemory),
        }
    }
}
