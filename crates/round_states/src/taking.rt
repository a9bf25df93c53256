//! Taking messages in.

ghost use Rattle.std.specs.Prelude.{◌≡◌, ◌≢◌, ◌<◌, ◌≤◌, ◌==◌, ◌||◌, ◌++◌, ◌∷◌, [], ℕ, OnOk, OnErr, Some, None, Err, Option, cond, is_some, option_to_list, length, vec_len, vec_capacity};
ghost use Rattle.transactions.specs.Grammar.{IsValue};
ghost use Rattle.protocol.specs.Values.{id as name_of};
ghost use Rattle.protocol.specs.Messages.{OfVote, step_of_vote};
ghost use Rattle.protocol.specs.State.{Context};
ghost use Rattle.protocol.specs.Arrivals.{kept_message, stamp_of};
ghost use Rattle.protocol.specs.Refusals.{first_cause, proposal_causes, vote_causes};
ghost use Rattle.vote_tally.specs.Kept.{with_proposal as with_kept};
ghost use Rattle.vote_tally.specs.declared.room.Ready.TheVariants as ready;
ghost use Rattle.round_states.specs.Machine.{Agrees};
ghost use Rattle.round_states.specs.Found.{IsFound};
ghost use Rattle.round_states.specs.Places.{places_at, HasRoom};
ghost use Rattle.round_states.specs.Taking.{IsTold, IsAnswer, with_proposal, place_answer};
ghost use Rattle.round_states.specs.Steps.{at};

use crate::places::{Places, add_place, make_room};
use crate::state::{KeptProposal, State};
use messages::{Precommit, Proposal, Step, Vote};
use protocol::{MOST_ROUNDS, ROUNDS_AHEAD, Refusal, Stamp};
use std::alloc::{AllocError, Global};
use transactions::{Duplicate, Id, Seq};
use vote_tally::Tally;

impl State {
    /// The first cause against keeping a proposal.
    ///
    /// It takes no memory.
    pub fn check_proposal(&self, proposal: &Proposal) -> Result<(), Refusal>
        ensures answer { IsAnswer (first_cause (proposal_causes self.now.powers self.now.me self.now.state proposal.now)) result }
        ensures memory { result ≢ Err Refusal.OutOfMemory }
    {
        self.check_place(proposal)?;
        match self.tally.fault_of_proposal(proposal) {
            Some(fault) => Err(fault.into()),
            None => Ok(()),
        }
    }

    /// Keeps a vote of a known sender, and of a precommit for a value its tags.
    pub fn take_vote(&mut self, vote: Vote, tags: Seq<[u8; 32]>) -> Result<(), Refusal>
        ensures answer { IsAnswer (first_cause (vote_causes self.old.me self.old.state vote)) result }
        ensures ok { OnOk result (self.new ≡ at self.old (kept_message self.old.state (record { body = OfVote vote; tags = tags }) (OfVote vote))) }
        ensures agrees { (g : Context) → Agrees g self.old → Agrees g self.new }
        ensures err { OnErr result (self.new ≡ self.old) }
    {
        self.check_vote(&vote)?;
        self.stamps.reserve(1)?;
        self.tally.keep(vote)?;
        self.room = None;
        if let Some(stamp) = stamp(&vote, tags) {
            self.stamps.push_reserved(stamp);
        }
        Ok(())
    }

    /// Keeps a proposal of a known sender. `id` is its value's, and `genuine` says whether the own tags of its
    /// transactions are right: nobody asks of one with a valid round. Whether it may be delivered next is
    /// found here, once. What there was room for is forgotten, also where it is refused.
    pub fn take_proposal(
        &mut self,
        proposal: Proposal,
        id: Id,
        genuine: bool,
    ) -> Result<(), Refusal>
        requires fits { IsValue proposal.value }
        requires id { id ≡ name_of proposal.value }
        ensures answer { IsAnswer (first_cause (proposal_causes self.old.powers self.old.me self.old.state proposal)) result }
        ensures ok { OnOk result (self.new ≡ with_proposal self.old proposal genuine) }
        ensures agrees { (g : Context) → Agrees g self.old → IsTold g proposal genuine → Agrees g self.new }
        ensures err { OnErr result (self.new ≡ record self.old { room = None }) }
    {
        self.forget_room();
        self.check_proposal(&proposal)?;
        self.keep_proposal(proposal, id, genuine)?;
        Ok(())
    }

    /// The first cause against keeping a vote. It takes no memory.
    fn check_vote(&self, vote: &Vote) -> Result<(), Refusal>
        ensures answer { IsAnswer (first_cause (vote_causes self.now.me self.now.state vote.now)) result }
        ensures memory { result ≢ Err Refusal.OutOfMemory }
    {
        if vote.height != self.height {
            return Err(Refusal::OtherHeight);
        }
        if vote.round > MOST_ROUNDS {
            return Err(Refusal::RoundLimit);
        }
        match self.tally.fault_of(vote) {
            Some(fault) => Err(fault.into()),
            None => Ok(()),
        }
    }

    /// The causes against a proposal's height, round and sender.
    fn check_place(&self, proposal: &Proposal) -> Result<(), Refusal>
        ensures { result ≡ place_answer self.now.powers self.now.state proposal.now }
    {
        if proposal.height != self.height {
            return Err(Refusal::OtherHeight);
        }
        if proposal.round > MOST_ROUNDS {
            return Err(Refusal::RoundLimit);
        }
        if u64::from(proposal.round) > u64::from(self.round()) + u64::from(ROUNDS_AHEAD) {
            return Err(Refusal::RoundAhead);
        }
        if proposal.sender != self.powers().proposer(proposal.height, proposal.round) {
            return Err(Refusal::WrongProposer);
        }
        Ok(())
    }

    /// Keeps a proposal that arrived, or that was said before the validator stopped, with its id and what is found of it.
    pub(crate) fn keep_proposal(
        &mut self,
        proposal: Proposal,
        id: Id,
        genuine: bool,
    ) -> Result<(), AllocError>
        requires fits { IsValue proposal.value }
        requires id { id ≡ name_of proposal.value }
        ensures ok { OnOk result (self.new ≡ with_proposal self.old proposal genuine) }
        ensures err { OnErr result (self.new ≡ record self.old { room = None }) }
    {
        self.tally.forget_reserved();
        self.room = None;
        let round = proposal.round;
        let copy = proposal.copy(self.alloc)?;
        let found = self.found(proposal, id, genuine);
        make_room_for(
            self.alloc,
            &mut self.kept,
            &mut self.places,
            &mut self.tally,
            round,
        )?;
        keep_in_room(
            &mut self.kept,
            &mut self.places,
            &mut self.tally,
            copy,
            found,
        );
        Ok(())
    }

    /// A proposal with its id, and what is found of it as it is kept.
    pub(crate) fn found(&self, proposal: Proposal, id: Id, genuine: bool) -> KeptProposal
        requires fits { IsValue proposal.value }
        requires id { id ≡ name_of proposal.value }
        ensures proposal { result.proposal ≡ proposal }
        ensures genuine { result.is_genuine ≡ (genuine || is_some proposal.valid_round) }
        ensures found { IsFound self.now.state.delivered result }
    {
        let is_valid = self.frontier.valid(&proposal.value);
        let is_genuine = genuine || proposal.valid_round.is_some();
        KeptProposal {
            proposal,
            id,
            is_valid,
            is_genuine,
        }
    }
}

/// Makes room for one more proposal of a round, which keeps nothing yet.
pub(crate) fn make_room_for(
    alloc: Global,
    kept: &mut Vec<KeptProposal>,
    places: &mut Places,
    tally: &mut Tally,
    round: u32,
) -> Result<(), AllocError>
    ensures kept { kept.new.items ≡ kept.old.items }
    ensures places { (r : ℕ) → places_at places.new r ≡ places_at places.old r }
    ensures ok { OnOk result (tally.new ≡ record tally.old { ready = Some (ready.Proposal round) }) }
    ensures room { OnOk result (HasRoom places.new round × (vec_len kept.new < vec_capacity kept.new)) }
    ensures err { OnErr result (tally.new ≡ tally.old) }
{
    kept.reserve(1)?;
    make_room(alloc, places, round)?;
    tally.reserve_proposal(round)
}

/// Keeps a proposal in room that was made before. It takes no memory.
pub(crate) fn keep_in_room(
    kept: &mut Vec<KeptProposal>,
    places: &mut Places,
    tally: &mut Tally,
    proposal: Proposal,
    found: KeptProposal,
)
    requires same { proposal ≡ found.proposal }
    requires ready { tally.old.ready ≡ Some (ready.Proposal proposal.round) }
    requires place { HasRoom places.old proposal.round }
    requires room { vec_len kept.old < vec_capacity kept.old }
    ensures kept { kept.new.items ≡ kept.old.items ++ found ∷ [] }
    ensures places { (r : ℕ) → places_at places.new r ≡ cond (proposal.round == r) (places_at places.old r ++ length kept.old.items ∷ []) (places_at places.old r) }
    ensures tally { tally.new ≡ with_kept tally.old proposal }
{
    add_place(places, proposal.round, kept.len());
    tally.keep_reserved_proposal(proposal);
    kept.push_reserved(found);
}

/// What is kept of a precommit for a value beside its vote.
fn stamp(vote: &Vote, tags: Seq<[u8; 32]>) -> Option<Stamp>
    ensures { option_to_list result ≡ stamp_of (step_of_vote vote.now.step) vote.now.round vote.now.sender vote.now.content tags }
{
    match (vote.step, vote.content) {
        (Step::Precommit, Some(id)) => Some(Stamp {
            round: vote.round,
            id,
            signed: Precommit {
                sender: vote.sender,
                tags,
            },
        }),
        _ => None,
    }
}
