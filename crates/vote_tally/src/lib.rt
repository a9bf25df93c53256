//! The proposals and votes of one height, and the power of those who sent them.
//!
//! A power is that of a *set* of validators: each counts once, however often it spoke.
#![tactic(auto)]

ghost use Rattle.std.specs.Prelude.{◌≡◌, ◌==◌, ◌<◌, ◌≤◌, ◌↔◌, ◌++◌, ◌∷◌, [], ℕ, false, Option, None, IfOk, OnOk, OnErr, length, nat_le};
ghost use Rattle.std.specs.List.{list_any, IsDistinct};
ghost use Rattle.protocol.specs.Values.{Id as Digest};
ghost use Rattle.protocol.specs.Messages.{◌∈◌, step_of_vote, vote_eq, proposal_eq};
ghost use Rattle.protocol.specs.declared.types.Step.{Step as RoundStep};
ghost use Rattle.protocol.specs.Tally.{is_vote_for, is_vote, senders, proposers};
ghost use Rattle.vote_tally.specs.Kept.{power_for, power_any, power_above, highest_weak, IsDecisive, with_vote, with_proposal};
ghost use Rattle.vote_tally.specs.Totals.{IsSmall};
ghost use Rattle.vote_tally.specs.Told.{sent};
ghost use Rattle.protocol.specs.Refusals.{is_full, has_two};
ghost use Rattle.vote_tally.specs.Faults.{vote_fault, proposal_fault, number_of, IsAnswer, OwnLimitsLaw};

mod counts;
mod decisive;
mod heights;
mod room;
mod scans;
mod totals;
mod voters;

use counts::{Counts, count_one, none_counted};
use heights::Heights;
use messages::{Proposal, Step, Vote};
use powers::{MOST_VALIDATORS, Powers};
use protocol::{MOST_MESSAGES, Refusal};
use room::Ready;
use std::alloc::{AllocError, AllocFailed, Global};
use std::collections::BTreeMap;
use std::marker::Model;
use totals::{Topic, Totals, total_at};
use transactions::{Duplicate, Id};

/// Why a message is not kept: the first cause in the order of `Repeat`, `VoterFull`.
#[derive(Clone, Copy, Debug, PartialEq, Eq, thiserror::Error)]
pub enum TallyFault {
    /// The same message is kept.
    #[error("the message is already kept")]
    Repeat = 1,
    /// Its sender has 512 messages in this height, or two other proposals in this round.
    #[error("too many messages of its sender are kept")]
    VoterFull = 2,
    /// A growth was refused memory.
    #[error("out of memory")]
    OutOfMemory = 3,
}

impl TallyFault {
    /// The number of the fault.
    pub fn number(self) -> u8
        ensures { result ≡ number_of self }
    {
        self as u8
    }
}

impl From<AllocError> for TallyFault {
    ghost use Rattle.vote_tally.specs.declared.TallyFault.TheVariants.{OutOfMemory};

    ghost from_gives = { λ _ e. e ≡ OutOfMemory };

    fn from(_e: AllocError) -> TallyFault {
        TallyFault::OutOfMemory
    }
}

impl<T: Drop> From<AllocFailed<T>> for TallyFault {
    ghost use Rattle.vote_tally.specs.declared.TallyFault.TheVariants.{OutOfMemory};

    ghost from_gives = { λ _ e. e ≡ OutOfMemory };

    fn from(_e: AllocFailed<T>) -> TallyFault {
        TallyFault::OutOfMemory
    }
}

impl From<TallyFault> for Refusal {
    ghost use Rattle.vote_tally.specs.Faults.{of_tally};

    ghost from_gives = { λ fault e. e ≡ of_tally fault };

    fn from(fault: TallyFault) -> Refusal {
        match fault {
            TallyFault::Repeat => Refusal::Repeat,
            TallyFault::VoterFull => Refusal::VoterFull,
            TallyFault::OutOfMemory => Refusal::OutOfMemory,
        }
    }
}

/// The kept messages of one height at one validator, in order of arrival.
#[derive(Drop)]
pub struct Tally {
    alloc: Global,
    powers: Powers,
    me: u16,
    proposals: Vec<Proposal>,
    votes: Vec<Vote>,
    totals: Totals,
    counts: Counts,
    heights: Heights,
    highest: Option<u32>,
    decisive: Vec<u32>,
    ready: Option<Ready>,
}

impl Model for Tally {
    ghost use Rattle.vote_tally.specs.Kept.{Kept};
    ghost use Rattle.vote_tally.specs.Told.{IsTold, AreDecisive, HasRoomFor};

    ghost Value = { Kept };

    ghost view = { λ a. record { powers = a.powers; me = a.me; proposals = a.proposals.items; votes = a.votes.items; ready = a.ready } };

    ghost invariant = { λ a. IsTold a.powers a.proposals.items a.votes.items a.totals a.counts a.heights a.highest × AreDecisive a.powers a.votes.items a.decisive.items × HasRoomFor a.ready a.totals a.votes a.decisive a.proposals };
}

impl Tally {
    /// An empty tally of validator `me`.
    pub fn new(alloc: Global, powers: Powers, me: u16) -> Tally
        ensures { result ≡ record { powers = powers; me = me; proposals = []; votes = []; ready = None } }
    {
        check_small(&powers);
        Tally {
            alloc,
            powers,
            me,
            proposals: Vec::new(alloc),
            votes: Vec::new(alloc),
            totals: BTreeMap::new(alloc),
            counts: none_counted(),
            heights: Heights::Nothing,
            highest: None,
            decisive: Vec::new(alloc),
            ready: None,
        }
    }

    /// The validators' powers.
    pub fn powers(&self) -> &Powers
        ensures { result.now ≡ self.now.powers }
    {
        &self.powers
    }

    /// The own number.
    pub fn me(&self) -> u16
        ensures { result ≡ self.now.me }
    {
        self.me
    }

    /// The first cause against keeping a vote that arrived. It takes no memory.
    pub fn fault_of(&self, vote: &Vote) -> Option<TallyFault>
        ensures { result ≡ vote_fault self.now vote.now }
    {
        if self.has_vote(vote) {
            Some(TallyFault::Repeat)
        } else if self.is_full(vote.sender) {
            Some(TallyFault::VoterFull)
        } else {
            None
        }
    }

    /// The first cause against keeping a proposal that arrived. It takes no memory.
    pub fn fault_of_proposal(&self, proposal: &Proposal) -> Option<TallyFault>
        ensures { result ≡ proposal_fault self.now proposal.now }
    {
        if self.has_proposal(proposal) {
            Some(TallyFault::Repeat)
        } else if self.is_full(proposal.sender) || self.has_two(proposal) {
            Some(TallyFault::VoterFull)
        } else {
            None
        }
    }

    /// Keeps a vote that arrived.
    pub fn add(&mut self, vote: Vote) -> Result<(), TallyFault>
        ensures answer { IsAnswer (vote_fault self.old vote) result }
        ensures ok { OnOk result (self.new ≡ with_vote self.old vote) }
        ensures err { OnErr result (self.new ≡ self.old) }
        // Every other sum stays.
        ensures others { (r : ℕ) (s : RoundStep) (x : Option Digest) → is_vote_for r s x vote ≡ false → power_for self.new r s x ≡ power_for self.old r s x }
        ensures others_any { (r : ℕ) (s : RoundStep) → is_vote r s vote ≡ false → power_any self.new r s ≡ power_any self.old r s }
        ensures others_above { (r : ℕ) → (vote.round == r) ≡ false → power_above self.new r ≡ power_above self.old r }
    {
        if let Some(fault) = self.fault_of(&vote) {
            return Err(fault);
        }
        self.keep(vote)?;
        Ok(())
    }

    /// Keeps a proposal that arrived.
    pub fn add_proposal(&mut self, proposal: &Proposal) -> Result<(), TallyFault>
        ensures answer { IsAnswer (proposal_fault self.old proposal.now) result }
        ensures ok { OnOk result (self.new ≡ with_proposal self.old proposal.now) }
        ensures err { OnErr result (self.new ≡ self.old) }
        // The sums of votes stay, and those of every other round.
        ensures votes_for { (r : ℕ) (s : RoundStep) (x : Option Digest) → power_for self.new r s x ≡ power_for self.old r s x }
        ensures votes_any { (r : ℕ) (s : RoundStep) → power_any self.new r s ≡ power_any self.old r s }
        ensures others_above { (r : ℕ) → (proposal.now.round == r) ≡ false → power_above self.new r ≡ power_above self.old r }
    {
        if let Some(fault) = self.fault_of_proposal(proposal) {
            return Err(fault);
        }
        self.keep_proposal(proposal)?;
        Ok(())
    }

    /// Keeps a vote without asking what is against it: an own one, on which there is no limit.
    pub fn keep(&mut self, vote: Vote) -> Result<(), AllocError>
        ensures ok { OnOk result (self.new ≡ with_vote self.old vote) }
        ensures err { OnErr result (self.new ≡ self.old) }
    {
        self.reserve_vote(&vote)?;
        self.keep_reserved_vote(vote);
        Ok(())
    }

    /// Keeps a proposal without asking what is against it: an own one, or one that was asked about.
    pub fn keep_proposal(&mut self, proposal: &Proposal) -> Result<(), AllocError>
        ensures ok { OnOk result (self.new ≡ with_proposal self.old proposal.now) }
        ensures err { OnErr result (self.new ≡ self.old) }
    {
        let copy = proposal.copy(self.alloc)?;
        self.reserve_proposal(copy.round)?;
        self.keep_reserved_proposal(copy);
        Ok(())
    }

    /// The tally of the next height, which keeps nothing yet.
    pub fn clear(&mut self)
        ensures { self.new ≡ record self.old { proposals = []; votes = []; ready = None } }
    {
        self.proposals.clear();
        self.votes.clear();
        self.totals.clear();
        self.counts = none_counted();
        self.heights = Heights::Nothing;
        self.highest = None;
        self.decisive.clear();
        self.ready = None;
    }

    /// Whether a validator voted for this content.
    pub fn has_voted(&self, validator: u16, round: u32, step: Step, content: Option<Id>) -> bool
        ensures { result ≡ senders self.now.votes (is_vote_for round (step_of_vote step) content) validator }
    {
        if usize::from(validator) < MOST_VALIDATORS {
            let topic = Topic::for_content(round, step, content);
            total_at(&self.totals, topic).voters.has(validator)
        } else {
            scans::has_voted(&self.votes, validator, round, step, content)
        }
    }

    /// The power of those who voted for this content: an id, or nil. It takes no memory.
    pub fn power_for(&self, round: u32, step: Step, content: Option<Id>) -> u64
        ensures { result ≡ power_for self.now round (step_of_vote step) content }
    {
        total_at(&self.totals, Topic::for_content(round, step, content)).power
    }

    /// The power of those who voted in this round and step, for whatever content. It takes no memory.
    pub fn power_any(&self, round: u32, step: Step) -> u64
        ensures { result ≡ power_any self.now round (step_of_vote step) }
    {
        total_at(&self.totals, Topic::of(round, step)).power
    }

    /// The power of those with a kept message of exactly this round, a proposal or a vote of either
    /// step: what line 55 of algorithm 1 of arXiv 1807.04938 asks of a later round. It takes no memory.
    pub fn power_above(&self, round: u32) -> u64
        ensures { result ≡ power_above self.now round }
    {
        total_at(&self.totals, Topic::Round(round)).power
    }

    /// The highest round in which a weak quorum has kept messages: the only one that line 55 may skip
    /// to.
    pub fn highest_weak(&self) -> Option<u32>
        ensures { result ≡ highest_weak self.now }
    {
        self.highest
    }

    /// The rounds in which a quorum precommitted one id, each once: the only ones that line 49 may decide in.
    /// As long as liars have less than a third of the power, the others precommitted in each of them.
    pub fn decisive(&self) -> &[u32]
        ensures each { (r : ℕ) → (r ∈ result.now) ↔ IsDecisive self.now r }
        ensures once { IsDistinct (λ a b. a == b) result.now }
    {
        &self.decisive
    }

    /// An equal tally, which has no room yet.
    pub fn copy(&self) -> Result<Tally, AllocError>
        ensures { IfOk result (λ copy. copy ≡ record self.now { ready = None }) }
    {
        let powers = self.powers.copy(self.alloc)?;
        let mut copy = Tally::new(self.alloc, powers, self.me);
        copy.keep_all(&self.proposals, &self.votes)?;
        Ok(copy)
    }

    fn keep_all(&mut self, proposals: &[Proposal], votes: &[Vote]) -> Result<(), AllocError>
        requires { self.old.ready ≡ None }
        ensures { OnOk result (self.new ≡ record self.old { proposals = self.old.proposals ++ proposals.now; votes = self.old.votes ++ votes.now; ready = None }) }
    {
        self.keep_proposals(proposals)?;
        self.keep_votes(votes)
    }

    fn keep_proposals(&mut self, proposals: &[Proposal]) -> Result<(), AllocError>
        requires { self.old.ready ≡ None }
        ensures { OnOk result (self.new ≡ record self.old { proposals = self.old.proposals ++ proposals.now; ready = None }) }
    {
        for proposal in proposals {
            self.keep_proposal(proposal)?;
        }
        Ok(())
    }

    fn keep_votes(&mut self, votes: &[Vote]) -> Result<(), AllocError>
        requires { self.old.ready ≡ None }
        ensures { OnOk result (self.new ≡ record self.old { votes = self.old.votes ++ votes.now; ready = None }) }
    {
        for vote in votes {
            self.keep(*vote)?;
        }
        Ok(())
    }

    /// The same vote is kept.
    fn has_vote(&self, vote: &Vote) -> bool
        ensures { result ≡ list_any (vote_eq vote.now) self.now.votes }
    {
        match self.heights {
            Heights::Nothing => false,
            Heights::One(height) => {
                is_at(vote, height)
                    && self.has_voted(vote.sender, vote.round, vote.step, vote.content)
            }
            Heights::Several => scans::has_vote(&self.votes, vote),
        }
    }

    /// The same proposal is kept. Only where one of its round and sender is, it is looked for.
    fn has_proposal(&self, proposal: &Proposal) -> bool
        ensures { result ≡ list_any (proposal_eq proposal.now) self.now.proposals }
    {
        self.may_have_proposed(proposal) && scans::has_proposal(&self.proposals, proposal)
    }

    /// A proposal of this one's round and sender is kept, or the sender is past the last validator.
    fn may_have_proposed(&self, proposal: &Proposal) -> bool
        ensures { result ≡ false → proposers self.now.proposals proposal.now.round proposal.now.sender ≡ false }
    {
        usize::from(proposal.sender) >= MOST_VALIDATORS
            || total_at(&self.totals, Topic::Proposals(proposal.round))
                .voters
                .has(proposal.sender)
    }

    /// Two proposals of this one's round and sender are kept.
    fn has_two(&self, proposal: &Proposal) -> bool
        ensures { result ≡ has_two self.now.proposals proposal.now }
    {
        if usize::from(proposal.sender) < MOST_VALIDATORS {
            total_at(&self.totals, Topic::SecondProposals(proposal.round))
                .voters
                .has(proposal.sender)
        } else {
            scans::has_two(&self.proposals, proposal)
        }
    }

    fn is_full(&self, sender: u16) -> bool
        ensures { result ≡ is_full self.now.me self.now.proposals self.now.votes sender }
    {
        sender != self.me && self.has_most(sender)
    }

    /// As many messages of a validator are kept as may be.
    fn has_most(&self, sender: u16) -> bool
        ensures { result ≡ nat_le 512 (sent self.now.proposals self.now.votes sender) }
    {
        let place = usize::from(sender);
        if place < MOST_VALIDATORS {
            usize::from(self.counts[place]) >= MOST_MESSAGES
        } else {
            scans::count_from(&self.proposals, &self.votes, sender) >= MOST_MESSAGES
        }
    }
}

fn is_at(vote: &Vote, height: u64) -> bool
    ensures { result ≡ (height == vote.now.height) }
{
    height == vote.height
}

/// Masks have room for all validators, and no sum of powers overflows.
fn check_small(powers: &Powers)
    ensures { IsSmall powers.now }
{
    let _ = powers.count();
    let _ = powers.total();
}

/// The answer to a validator's message depends on that validator's kept messages alone.
pub fn own_limits_law()
    ensures { OwnLimitsLaw }
{}
