//! Room made before a message is kept, so that keeping it can't fail.

ghost use Rattle.std.specs.Prelude.{◌≡◌, Some, None, OnOk, OnErr};
ghost use Rattle.vote_tally.specs.Kept.{with_vote, with_proposal};

use crate::counts::count_one;
use crate::{Tally, decisive, totals};
use messages::{Proposal, Vote};
use std::alloc::AllocError;

/// What a tally has room for.
#[derive(Clone, Copy, Debug)]
pub enum Ready {
    /// This vote.
    Vote(Vote),
    /// Any one proposal of this round.
    Proposal(u32),
}

impl Tally {
    /// Makes room for a vote, in place of what there was room for.
    pub fn reserve_vote(&mut self, vote: &Vote) -> Result<(), AllocError>
        ensures ok { OnOk result (self.new ≡ record self.old { ready = Some (Ready.Vote vote.now) }) }
        ensures err { OnErr result (self.new ≡ self.old) }
    {
        totals::make_room_for_vote(&mut self.totals, vote)?;
        self.decisive.reserve(1)?;
        self.votes.reserve(1)?;
        self.ready = Some(Ready::Vote(*vote));
        Ok(())
    }

    /// Keeps a vote for which room was made. It takes no memory.
    pub fn keep_reserved_vote(&mut self, vote: Vote)
        requires { self.old.ready ≡ Some (Ready.Vote vote) }
        ensures { self.new ≡ with_vote self.old vote }
    {
        self.votes.push_reserved(vote);
        totals::raise_vote(&mut self.totals, &self.powers, &vote);
        self.highest = totals::highest_with(self.highest, &self.totals, &self.powers, vote.round);
        decisive::note(&mut self.decisive, &self.totals, &self.powers, &vote);
        count_one(&mut self.counts, vote.sender);
        self.heights = self.heights.with(vote.height);
        self.ready = None;
    }

    /// Makes room for a proposal of a round, in place of what there was room for.
    pub fn reserve_proposal(&mut self, round: u32) -> Result<(), AllocError>
        ensures ok { OnOk result (self.new ≡ record self.old { ready = Some (Ready.Proposal round) }) }
        ensures err { OnErr result (self.new ≡ self.old) }
    {
        totals::make_room_for_proposal(&mut self.totals, round)?;
        self.proposals.reserve(1)?;
        self.ready = Some(Ready::Proposal(round));
        Ok(())
    }

    /// Keeps a proposal of the round for which room was made. It takes no memory.
    pub fn keep_reserved_proposal(&mut self, proposal: Proposal)
        requires { self.old.ready ≡ Some (Ready.Proposal proposal.round) }
        ensures { self.new ≡ with_proposal self.old proposal }
    {
        let (round, sender) = (proposal.round, proposal.sender);
        self.proposals.push_reserved(proposal);
        totals::raise_proposal(&mut self.totals, &self.powers, round, sender);
        self.highest = totals::highest_with(self.highest, &self.totals, &self.powers, round);
        count_one(&mut self.counts, sender);
        self.ready = None;
    }

    /// Forgets what there is room for. The room itself stays, for what is reserved next.
    pub fn forget_reserved(&mut self)
        ensures { self.new ≡ record self.old { ready = None } }
    {
        let _ = self.ready.take();
    }
}
