//! One correct validator of a world.

ghost use Rattle.std.specs.Prelude.{◌≡◌, ◌<◌, ◌^◌, ◌∷◌, [], ℕ, List, Some, drop, length, map, IfOk, OnOk};
ghost use Rattle.protocol.specs.Tags.{Setting};
ghost use Rattle.protocol.specs.State.{Node};
ghost use Rattle.protocol.specs.Messages.{Body as AnyBody};
ghost use Rattle.world_schedule.specs.Health.{Health, HasHealth};
ghost use Rattle.world_schedule.specs.Handed.{told_numbers};
ghost use Rattle.world_schedule.specs.Cores.{StandsIn, frame_in};
ghost use Rattle.world_schedule.specs.Reports.{decision_of};
ghost use Rattle.world_schedule.specs.Making.{IsMetBy, Scene, Asks, Resends};
ghost use Rattle.world_schedule.specs.Standings.{Holds, Tells, Says, AreReadable};
ghost use Rattle.world_schedule.specs.Validators.{request_of, IsUp, HasMet, HasInsisted, HasTurned};
ghost use Rattle.world_schedule.specs.declared.report.What.TheVariants.{Decided};
ghost use Rattle.world_schedule.specs.declared.seat.Seat.TheVariants as seats;

use crate::chronicle::Chronicle;
use crate::handing::{hand_frame, hand_timeout, settle};
use crate::report::{Answer, What};
use messages::Bundle;
use node_core::NodeCore;
use protocol::{Refusal, Timeout};
use vote_journal::{Strikes, StrikingStore};
use world_parties::FaultNumber;

/// The number of the answer that memory was refused.
const NO_MEMORY: u8 = 16;

/// What is asked of a validator.
#[derive(Clone, Copy)]
pub(crate) enum Request<'a> {
    Settle,
    /// This frame comes.
    Take(&'a [u8]),
    /// This timeout is due.
    Expire(Timeout),
    /// An ask is to be let go.
    Ask,
    /// The own messages of the height are to be let go again.
    Resend,
}

/// A correct validator: its node, and what was told of it.
#[derive(Drop)]
pub(crate) struct Validator {
    pub(crate) number: u16,
    /// What makes calls of its store fail.
    pub(crate) strikes: Strikes,
    pub(crate) core: NodeCore<StrikingStore>,
    /// How many of its decisions were told.
    pub(crate) decisions_told: usize,
    /// Whether its last call was refused memory.
    pub(crate) owes: bool,
}

impl Validator {
    /// Meets a request. Where memory was refused to the last call, the validator is settled first.
    pub(crate) fn turn(
        &mut self,
        request: Request<'_>,
        chronicle: &mut Chronicle,
    ) -> Result<(), FaultNumber>
        ensures { (c : Setting) (s : Scene) → IsUp c s self.old → Holds c s.standing.numbered chronicle.old.messages
            → OnOk result (HasTurned c s (request_of request.entry) self.old.number (seats.Up self.new) chronicle.old chronicle.new) }
    {
        if !self.owes {
            return self.insist(request, chronicle);
        }
        let _refused = self.call(Request::Settle, chronicle)?;
        self.insist(request, chronicle)
    }

    /// Makes a call; where memory is refused to it, the validator is settled and the call made once more.
    fn insist(&mut self, request: Request<'_>, chronicle: &mut Chronicle) -> Result<(), FaultNumber>
        ensures { (c : Setting) (s : Scene) → IsUp c s self.old → Holds c s.standing.numbered chronicle.old.messages
            → OnOk result (HasInsisted c s (request_of request.entry) self.old.number (seats.Up self.new) chronicle.old chronicle.new) }
    {
        let refused = self.call(request, chronicle)?;
        if !refused {
            return Ok(());
        }
        let _settling = self.call(Request::Settle, chronicle)?;
        let _again = self.call(request, chronicle)?;
        Ok(())
    }

    /// Makes a call, and tells its answer, then what was decided, then what was released. Whether memory was refused to
    /// the call.
    pub(crate) fn call(
        &mut self,
        request: Request<'_>,
        chronicle: &mut Chronicle,
    ) -> Result<bool, FaultNumber>
        ensures { (c : Setting) (s : Scene) → IsUp c s self.old → Holds c s.standing.numbered chronicle.old.messages
            → IfOk result (λ starved. HasMet c s (request_of request.entry) starved self.old.number (seats.Up self.new) chronicle.old chronicle.new) }
    {
        let answer = answer_of(&self.make(request));
        self.owes = answer.number == NO_MEMORY;
        chronicle.tell(Some(self.number), What::Answered(answer))?;
        self.tell_decisions(chronicle)?;
        self.tell_messages(chronicle)?;
        Ok(self.owes)
    }

    /// Makes a call of the node.
    fn make(&mut self, request: Request<'_>) -> Result<(), Refusal>
        ensures met { (c : Setting) (n : Node) (h : Health) → StandsIn c self.old.number n self.old.core → self.old.number < 2 ^ 16 → HasHealth c self.old.number n h self.old.core.journal
            → IsMetBy c self.old.number n h (request_of request.entry) (told_numbers result) self.old.core.outgoing self.new.core }
        ensures number { self.new.number ≡ self.old.number }
        ensures told { self.new.decisions_told ≡ self.old.decisions_told }
    {
        match request {
            Request::Settle => settle(&mut self.core),
            Request::Take(frame) => hand_frame(&mut self.core, frame),
            Request::Expire(timeout) => hand_timeout(&mut self.core, timeout),
            Request::Ask => self.ask(),
            Request::Resend => self.resend(),
        }
    }

    /// Lets an ask go.
    fn ask(&mut self) -> Result<(), Refusal>
        ensures met { (c : Setting) (n : Node) (h : Health) → StandsIn c self.old.number n self.old.core → self.old.number < 2 ^ 16 → HasHealth c self.old.number n h self.old.core.journal
            → IsMetBy c self.old.number n h Asks (told_numbers result) self.old.core.outgoing self.new.core }
        ensures number { self.new.number ≡ self.old.number }
        ensures told { self.new.decisions_told ≡ self.old.decisions_told }
    {
        // It fits its type, so an ask for it has a spelling.
        let _height = self.core.height();
        self.core.ask()
    }

    /// Lets the own messages of the height go again.
    fn resend(&mut self) -> Result<(), Refusal>
        ensures met { (c : Setting) (n : Node) (h : Health) → StandsIn c self.old.number n self.old.core → HasHealth c self.old.number n h self.old.core.journal
            → IsMetBy c self.old.number n h Resends (told_numbers result) self.old.core.outgoing self.new.core }
        ensures number { self.new.number ≡ self.old.number }
        ensures told { self.new.decisions_told ≡ self.old.decisions_told }
    {
        self.core.resend()
    }

    /// Tells of the decisions that were not told.
    pub(crate) fn tell_decisions(&mut self, chronicle: &mut Chronicle) -> Result<(), FaultNumber>
        ensures told { OnOk result (Tells (Some self.old.number) (map (λ b. Decided (decision_of b)) (drop self.old.decisions_told self.old.core.decisions)) chronicle.old chronicle.new) }
        ensures messages { chronicle.new.messages ≡ chronicle.old.messages }
        ensures new { OnOk result (self.new ≡ record self.old { decisions_told = length self.old.core.decisions }) }
    {
        let decisions = self.core.decisions();
        chronicle.tell_decisions(self.number, after(decisions, self.decisions_told))?;
        self.decisions_told = decisions.len();
        Ok(())
    }

    /// Numbers the messages that were released, and tells of those that are new. The timeouts that were scheduled are let
    /// go: the events say which are due.
    pub(crate) fn tell_messages(&mut self, chronicle: &mut Chronicle) -> Result<(), FaultNumber>
        ensures told { (c : Setting) (numbered : List AnyBody) (bodies : List AnyBody) → Holds c numbered chronicle.old.messages → self.old.core.outgoing ≡ map (frame_in c) bodies → AreReadable c bodies
            → OnOk result (Says c numbered (Some self.old.number) bodies chronicle.old chronicle.new) }
        ensures new { self.new ≡ record self.old { core = record self.old.core { outgoing = []; scheduled = [] } } }
    {
        let frames = self.core.outgoing();
        let _ = self.core.scheduled();
        chronicle.tell_messages(Some(self.number), &frames)
    }
}

/// All decisions but the first ones.
fn after(decisions: &[Bundle], first: usize) -> &[Bundle]
    ensures { result.now ≡ drop first decisions.now }
{
    if first <= decisions.len() {
        &decisions[first..]
    } else {
        &[]
    }
}

/// What is told of an answer.
fn answer_of(answer: &Result<(), Refusal>) -> Answer
    ensures { result ≡ record { number = (told_numbers answer.now).0; inner = (told_numbers answer.now).1 } }
{
    match answer {
        Ok(()) => Answer {
            number: 0,
            inner: 0,
        },
        Err(refusal) => Answer {
            number: refusal.number(),
            inner: refusal.inner(),
        },
    }
}
