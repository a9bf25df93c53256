//! The change of a plan whose record is saved. It can't fail.

ghost use Rattle.std.specs.Prelude.{◌≡◌, ◌<◌, ◌^◌, ◌++◌, ◌∷◌, [], true, Some, None};
ghost use Rattle.transactions.specs.Grammar.{IsValue};
ghost use Rattle.proposal_validity.specs.Standing.{IsFrontierOf};
ghost use Rattle.protocol.specs.Values.{items};
ghost use Rattle.protocol.specs.Messages.{OfProposal, OfVote};
ghost use Rattle.protocol.specs.declared.types.Step.TheVariants as at_steps;
ghost use Rattle.protocol.specs.Rules.{decided, started, keeping, keeping_own, released_by};
ghost use Rattle.round_states.specs.Found.{IsFound};
ghost use Rattle.round_states.specs.Pending.{pending_of};
ghost use Rattle.round_states.specs.Plans.{moved, genuine_after, room_of, IsOfPlace};
ghost use Rattle.round_states.specs.Steps.{at};
ghost use Rattle.round_states.specs.declared.room.Room.TheVariants as rooms;

use crate::plans::Change;
use crate::rounds::Stage;
use crate::said::Said;
use crate::state::{KeptProposal, State};
use crate::taking::keep_in_room;
use messages::{Proposal, Vote};
use proposal_validity::Frontier;
use protocol::ValueAt;
use std::mem;
use transactions::{Named, Value};
use vote_journal::Saved;

impl State {
    /// Changes what a plan of this state changes, once its record is saved and there is room for it. What it says may be
    /// let go from then on.
    pub fn apply(&mut self, change: Change, saved: Option<Saved>) -> Option<Said>
        requires place { IsOfPlace self.old change saved }
        requires room { self.old.room ≡ room_of change }
        ensures ok { self.new ≡ record (at self.old (keeping_own (moved self.old.state change) (released_by self.old.me saved))) { genuine = genuine_after self.old.genuine change } }
        ensures said { result ≡ pending_of self.old.me saved }
    {
        match change {
            Change::Prevote(vote) => {
                let Some(saved) = saved else { unreachable!() };
                Some(self.apply_prevote(vote, saved))
            }
            Change::Precommit(vote) => {
                let Some(saved) = saved else { unreachable!() };
                Some(self.apply_precommit(vote, saved))
            }
            Change::Lock(vote, locked, found) => {
                let Some(saved) = saved else { unreachable!() };
                let said = self.apply_lock(vote, locked, saved);
                self.find(found);
                Some(said)
            }
            Change::Find(found) => {
                self.find(found);
                None
            }
            Change::AwaitPrevotes => {
                self.await_prevotes();
                None
            }
            Change::AwaitPrecommits => {
                self.await_precommits();
                None
            }
            Change::Propose(proposal, found) => {
                let Some(saved) = saved else { unreachable!() };
                Some(self.apply_proposal(proposal, found, saved))
            }
            Change::Begin(round) => {
                self.begin(round);
                None
            }
            Change::Decide(value, frontier) => {
                let Some(saved) = saved else { unreachable!() };
                Some(self.apply_decision(value, frontier, saved))
            }
        }
    }

    /// The step of prevotes begins, with the own prevote kept.
    fn apply_prevote(&mut self, vote: Vote, saved: Saved) -> Said
        requires begun { self.old.state.begun ≡ true }
        requires step { self.old.state.step ≡ at_steps.Propose }
        requires room { self.old.room ≡ Some (rooms.Vote vote) }
        ensures ok { self.new ≡ at self.old (keeping (record self.old.state { step = at_steps.Prevote }) (OfVote vote)) }
        ensures said { result ≡ record { sender = self.old.me; entry = saved } }
    {
        let (round, said) = match mem::replace(&mut self.stage, Stage::Before) {
            Stage::Propose(round) => round.prevote(saved),
            _ => unreachable!(),
        };
        self.stage = Stage::Prevote(round);
        self.tally.keep_reserved_vote(vote);
        self.room = None;
        said
    }

    /// The step of precommits begins, with the own precommit kept.
    fn apply_precommit(&mut self, vote: Vote, saved: Saved) -> Said
        requires begun { self.old.state.begun ≡ true }
        requires step { self.old.state.step ≡ at_steps.Prevote }
        requires room { self.old.room ≡ Some (rooms.Vote vote) }
        ensures ok { self.new ≡ at self.old (keeping (record self.old.state { step = at_steps.Precommit }) (OfVote vote)) }
        ensures said { result ≡ record { sender = self.old.me; entry = saved } }
    {
        let (round, said) = match mem::replace(&mut self.stage, Stage::Before) {
            Stage::Prevote(round) => round.precommit(saved),
            _ => unreachable!(),
        };
        self.stage = Stage::Precommit(round);
        self.tally.keep_reserved_vote(vote);
        self.room = None;
        said
    }

    /// The own precommit is kept, and its value is locked in this round.
    fn apply_lock(&mut self, vote: Vote, locked: Named, saved: Saved) -> Said
        requires begun { self.old.state.begun ≡ true }
        requires step { self.old.state.step ≡ at_steps.Prevote }
        requires room { self.old.room ≡ Some (rooms.Vote vote) }
        ensures ok { let s = self.old.state in self.new ≡ at self.old (keeping (record s { step = at_steps.Precommit; lock = Some (record { round = s.round; value = locked }) }) (OfVote vote)) }
        ensures said { result ≡ record { sender = self.old.me; entry = saved } }
    {
        let round = self.round();
        let said = self.apply_precommit(vote, saved);
        self.lock = Some(ValueAt {
            round,
            value: locked,
        });
        said
    }

    /// The value is found valid in the present round.
    fn find(&mut self, value: Named)
        requires begun { self.old.state.begun ≡ true }
        requires fits { IsValue value }
        ensures { let s = self.old.state in self.new ≡ record self.old { state = record s { valid_value = Some (record { round = s.round; value = value }); value_found = true } } }
    {
        self.valid_value = Some(ValueAt {
            round: self.round(),
            value,
        });
        self.value_found = true;
    }

    /// The timeout of prevotes is scheduled in this round.
    fn await_prevotes(&mut self)
        ensures { self.new ≡ record self.old { state = record self.old.state { prevotes_awaited = true } } }
    {
        self.prevotes_awaited = true;
    }

    /// The timeout of precommits is scheduled in this round.
    fn await_precommits(&mut self)
        ensures { self.new ≡ record self.old { state = record self.old.state { precommits_awaited = true } } }
    {
        self.precommits_awaited = true;
    }

    /// The own proposal is kept, and its round begins.
    fn apply_proposal(&mut self, proposal: Proposal, found: KeptProposal, saved: Saved) -> Said
        requires later { self.old.state.begun ≡ true → self.old.state.round < proposal.round }
        requires same { proposal ≡ found.proposal }
        requires found { IsFound self.old.state.delivered found }
        requires room { self.old.room ≡ Some (rooms.Proposal proposal.round) }
        ensures ok { self.new ≡ record (at self.old (keeping (started self.old.state proposal.round) (OfProposal proposal))) { genuine = self.old.genuine ++ found.is_genuine ∷ [] } }
        ensures said { result ≡ record { sender = self.old.me; entry = saved } }
    {
        let said = self.begin_own(proposal.round, saved);
        self.keep_own(proposal, found);
        said
    }

    /// The own proposal is kept.
    fn keep_own(&mut self, proposal: Proposal, found: KeptProposal)
        requires same { proposal ≡ found.proposal }
        requires found { IsFound self.old.state.delivered found }
        requires room { self.old.room ≡ Some (rooms.Proposal proposal.round) }
        ensures { self.new ≡ record (at self.old (keeping self.old.state (OfProposal proposal))) { genuine = self.old.genuine ++ found.is_genuine ∷ [] } }
    {
        keep_in_room(
            &mut self.kept,
            &mut self.places,
            &mut self.tally,
            proposal,
            found,
        );
        self.room = None;
    }

    /// The round that the own proposal begins is the present one, in its first step.
    fn begin_own(&mut self, number: u32, saved: Saved) -> Said
        requires { self.old.state.begun ≡ true → self.old.state.round < number }
        ensures ok { self.new ≡ record self.old { state = started self.old.state number } }
        ensures said { result ≡ record { sender = self.old.me; entry = saved } }
    {
        let stage = mem::replace(&mut self.stage, Stage::Before);
        let round = stage.next(self.tally.me(), self.height, number);
        let said = round.propose(saved);
        self.stage = Stage::Propose(round);
        self.prevotes_awaited = false;
        self.value_found = false;
        self.precommits_awaited = false;
        said
    }

    /// The round is the present one, in its first step.
    fn begin(&mut self, number: u32)
        requires { self.old.state.begun ≡ true → self.old.state.round < number }
        ensures { self.new ≡ record self.old { state = started self.old.state number } }
    {
        let stage = mem::replace(&mut self.stage, Stage::Before);
        self.stage = Stage::Propose(stage.next(self.tally.me(), self.height, number));
        self.prevotes_awaited = false;
        self.value_found = false;
        self.precommits_awaited = false;
    }

    /// The value is delivered, and the next height begins, of which no round has begun.
    fn apply_decision(&mut self, value: Value, frontier: Frontier, saved: Saved) -> Said
        requires small { self.old.state.height < 2 ^ 48 }
        requires frontier { IsFrontierOf (self.old.state.delivered ++ items value) frontier }
        requires room { self.old.room ≡ Some rooms.Decision }
        ensures ok { self.new ≡ record (at self.old (decided self.old.state value)) { genuine = [] } }
        ensures said { result ≡ record { sender = self.old.me; entry = saved } }
    {
        let stage = mem::replace(&mut self.stage, Stage::Before);
        let said = stage.decide(self.tally.me(), saved);
        self.decided.push_reserved(value);
        self.frontier = frontier;
        self.tally.clear();
        self.kept.clear();
        self.places.clear();
        self.stamps.clear();
        self.height += 1;
        self.lock = None;
        self.valid_value = None;
        self.prevotes_awaited = false;
        self.value_found = false;
        self.precommits_awaited = false;
        self.room = None;
        said
    }
}
