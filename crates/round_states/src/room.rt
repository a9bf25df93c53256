//! The room that a plan wants, which is made before its record is saved.

ghost use Rattle.std.specs.Prelude.{◌≡◌, Some, None, OnOk, OnErr};
ghost use Rattle.round_states.specs.Plans.{room_of};

use crate::plans::Change;
use crate::state::State;
use crate::taking::make_room_for;
use messages::Vote;
use std::alloc::AllocError;

/// What a state has room for.
#[derive(Clone, Copy, Debug)]
pub enum Room {
    /// This own vote.
    Vote(Vote),
    /// Any one proposal of this round.
    Proposal(u32),
    /// A decision.
    Decision,
}

impl State {
    /// Makes room for what a plan keeps, in place of what there was room for. Whatever changes the state forgets it.
    pub fn make_room(&mut self, change: &Change) -> Result<(), AllocError>
        ensures ok { OnOk result (self.new ≡ record self.old { room = room_of change.now }) }
        ensures err { OnErr result (self.new ≡ record self.old { room = None }) }
    {
        match change {
            Change::Prevote(vote) | Change::Precommit(vote) | Change::Lock(vote, _, _) => {
                self.make_room_for_vote(vote)
            }
            Change::Propose(proposal, _) => self.make_room_for_proposal(proposal.round),
            Change::Decide(_, _) => self.make_room_for_decision(),
            Change::Find(_) | Change::Begin(_) | Change::AwaitPrevotes | Change::AwaitPrecommits =>
                {
                    self.forget_room();
                    Ok(())
                }
        }
    }

    /// Forgets what there is room for, after a record that was not saved.
    pub fn forget_room(&mut self)
        ensures { self.new ≡ record self.old { room = None } }
    {
        self.tally.forget_reserved();
        self.room = None;
    }

    fn make_room_for_vote(&mut self, vote: &Vote) -> Result<(), AllocError>
        ensures ok { OnOk result (self.new ≡ record self.old { room = Some (Room.Vote vote.now) }) }
        ensures err { OnErr result (self.new ≡ record self.old { room = None }) }
    {
        self.forget_room();
        self.tally.reserve_vote(vote)?;
        self.room = Some(Room::Vote(*vote));
        Ok(())
    }

    fn make_room_for_proposal(&mut self, round: u32) -> Result<(), AllocError>
        ensures ok { OnOk result (self.new ≡ record self.old { room = Some (Room.Proposal round) }) }
        ensures err { OnErr result (self.new ≡ record self.old { room = None }) }
    {
        self.forget_room();
        make_room_for(
            self.alloc,
            &mut self.kept,
            &mut self.places,
            &mut self.tally,
            round,
        )?;
        self.room = Some(Room::Proposal(round));
        Ok(())
    }

    fn make_room_for_decision(&mut self) -> Result<(), AllocError>
        ensures ok { OnOk result (self.new ≡ record self.old { room = Some Room.Decision }) }
        ensures err { OnErr result (self.new ≡ record self.old { room = None }) }
    {
        self.forget_room();
        self.decided.reserve(1)?;
        self.room = Some(Room::Decision);
        Ok(())
    }
}
