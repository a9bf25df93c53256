//! The state: the variables of the algorithm at one validator. Line numbers are those of algorithm 1
//! of arXiv 1807.04938.

ghost use Rattle.std.specs.Prelude.{◌≡◌, ◌<◌, ◌≤◌, ◌^◌, false, None, IfOk, All, map, [], length};
ghost use Rattle.std.specs.Option.{option_copied};
ghost use Rattle.proposal_validity.specs.Standing.{IsFrontierOf};
ghost use Rattle.protocol.specs.declared.types.Step.TheVariants as at_steps;
ghost use Rattle.protocol.specs.Restart.{restart};
ghost use Rattle.round_states.specs.Found.{proposal_in, IsFound};
ghost use Rattle.round_states.specs.Places.{places_of};
ghost use Rattle.round_states.specs.Seen.{delivered_by, ready_of};

use crate::places::{Places, places_at, places_in};
use crate::room::Room;
use crate::rounds::Stage;
use messages::Proposal;
use powers::Powers;
use proposal_validity::Frontier;
use protocol::{Stamp, Step, ValueAt};
use std::alloc::{AllocError, Global};
use std::collections::BTreeMap;
use std::marker::Model;
use transactions::{Duplicate, Id, Value, copy_all};
use vote_tally::Tally;

/// A kept proposal, and what was found of it as it was kept.
#[derive(Debug, Drop)]
pub struct KeptProposal {
    /// As it came, or as it was made here.
    pub proposal: Proposal,
    /// The id of its value.
    pub id: Id,
    /// Whether its value may be delivered next.
    pub is_valid: bool,
    /// Whether the own tags of its transactions are right, as the caller said. It is asked of a
    /// proposal without a valid round alone; with one it is true.
    pub is_genuine: bool,
}

impl Duplicate for KeptProposal {
    fn copy(&self, alloc: Global) -> Result<KeptProposal, AllocError> {
        Ok(KeptProposal {
            proposal: self.proposal.copy(alloc)?,
            id: self.id,
            is_valid: self.is_valid,
            is_genuine: self.is_genuine,
        })
    }
}

/// The variables of one validator. Contracts see them as the state of the definitions, beside the
/// validators' powers, the own number, the answers that were handed in, and what there is room for.
#[derive(Drop)]
pub struct State {
    pub(crate) alloc: Global,
    pub(crate) tally: Tally,
    pub(crate) height: u64,
    pub(crate) stage: Stage,
    pub(crate) lock: Option<ValueAt>,
    pub(crate) valid_value: Option<ValueAt>,
    pub(crate) kept: Vec<KeptProposal>,
    pub(crate) places: Places,
    pub(crate) stamps: Vec<Stamp>,
    pub(crate) prevotes_awaited: bool,
    pub(crate) value_found: bool,
    pub(crate) precommits_awaited: bool,
    pub(crate) decided: Vec<Value>,
    pub(crate) frontier: Frontier,
    pub(crate) room: Option<Room>,
}

impl Model for State {
    ghost use Rattle.round_states.specs.Machine.{Machine};

    ghost Value = { Machine };

    ghost use Rattle.round_states.specs.Seen.{seen, IsSound};

    ghost view = { seen };

    ghost invariant = { IsSound };
}

impl State {
    /// Validator `me` at height 0, where nothing has come and no round has begun.
    #[tactic(auto, unfolding(protocol::specs::Restart::restart))]
    pub fn new(alloc: Global, powers: Powers, me: u16) -> State
        ensures { result ≡ record { state = restart me []; powers = powers; me = me; genuine = []; room = None } }
    {
        State {
            alloc,
            tally: Tally::new(alloc, powers, me),
            height: 0,
            stage: Stage::Before,
            lock: None,
            valid_value: None,
            kept: Vec::new(alloc),
            places: BTreeMap::new(alloc),
            stamps: Vec::new(alloc),
            prevotes_awaited: false,
            value_found: false,
            precommits_awaited: false,
            decided: Vec::new(alloc),
            frontier: Frontier::new(alloc),
            room: None,
        }
    }

    /// The own number.
    pub fn me(&self) -> u16
        ensures { result ≡ self.now.me }
    {
        self.tally.me()
    }

    /// The powers of the validators.
    pub fn powers(&self) -> &Powers
        ensures { result.now ≡ self.now.powers }
    {
        self.tally.powers()
    }

    /// The height that is being decided, `h_p`: from 0 to 2^48, which is never decided.
    pub fn height(&self) -> u64
        ensures height { result ≡ self.now.state.height }
        ensures small { result ≤ 2 ^ 48 }
    {
        self.height
    }

    /// Whether a round of the height has begun. Before, the round is 0, its step that of proposals, and
    /// no value was found valid.
    pub fn has_begun(&self) -> bool
        ensures begun { result ≡ self.now.state.begun }
        ensures before { self.now.state.begun ≡ false → (self.now.state.round ≡ 0) × (self.now.state.step ≡ at_steps.Propose) × (self.now.state.valid_value ≡ None) }
    {
        match self.stage {
            Stage::Before => false,
            Stage::Propose(_) | Stage::Prevote(_) | Stage::Precommit(_) => true,
        }
    }

    /// The present round, `round_p`; 0 where none has begun.
    pub fn round(&self) -> u32
        ensures { result ≡ self.now.state.round }
    {
        match &self.stage {
            Stage::Before => 0,
            Stage::Propose(round) => round.number(),
            Stage::Prevote(round) => round.number(),
            Stage::Precommit(round) => round.number(),
        }
    }

    /// The step of the present round, `step_p`; that of proposals where none has begun.
    pub fn step(&self) -> Step
        ensures { result ≡ self.now.state.step }
    {
        match self.stage {
            Stage::Before | Stage::Propose(_) => Step::Propose,
            Stage::Prevote(_) => Step::Prevote,
            Stage::Precommit(_) => Step::Precommit,
        }
    }

    /// The locked value, and the round in which it was locked (line 38: `lockedValue_p` and
    /// `lockedRound_p`). None stands for -1 and nil.
    pub fn lock(&self) -> Option<&ValueAt>
        ensures { option_copied result ≡ self.now.state.lock }
    {
        self.lock.as_ref()
    }

    /// The value that last had a quorum of prevotes, and the round of the quorum (line 42:
    /// `validValue_p` and `validRound_p`).
    pub fn valid_value(&self) -> Option<&ValueAt>
        ensures { option_copied result ≡ self.now.state.valid_value }
    {
        self.valid_value.as_ref()
    }

    /// The kept proposals of the height, in order of arrival.
    pub fn kept(&self) -> &[KeptProposal]
        ensures proposals { map proposal_in result.now ≡ self.now.state.proposals }
        ensures genuine { map (λ k. k.is_genuine) result.now ≡ self.now.genuine }
        ensures found { All (IsFound self.now.state.delivered) result.now }
    {
        &self.kept
    }

    /// The places of the kept proposals of a round, in order of arrival.
    pub fn places(&self, round: u32) -> &[usize]
        ensures places { result.now ≡ places_of round self.now.state.proposals }
        ensures within { All (λ place. place < length self.now.state.proposals) result.now }
    {
        places_at(&self.places, round)
    }

    /// The kept messages of the height, and the power of their senders.
    pub fn tally(&self) -> &Tally
        ensures { result.now ≡ record { powers = self.now.powers; me = self.now.me; proposals = self.now.state.proposals; votes = self.now.state.votes; ready = ready_of self.now.room } }
    {
        &self.tally
    }

    /// The kept precommits of others with their tags, in order of arrival: of them a certificate is made.
    pub fn stamps(&self) -> &[Stamp]
        ensures { result.now ≡ self.now.state.stamps }
    {
        &self.stamps
    }

    /// Whether the timeout of prevotes was scheduled in this round: line 34 acts once in a round.
    pub fn are_prevotes_awaited(&self) -> bool
        ensures { result ≡ self.now.state.prevotes_awaited }
    {
        self.prevotes_awaited
    }

    /// Whether a quorum of prevotes for a proposed value was met in this round: line 36 acts once
    /// in a round.
    pub fn is_value_found(&self) -> bool
        ensures { result ≡ self.now.state.value_found }
    {
        self.value_found
    }

    /// Whether the timeout of precommits was scheduled in this round: line 47 acts once in a round.
    pub fn are_precommits_awaited(&self) -> bool
        ensures { result ≡ self.now.state.precommits_awaited }
    {
        self.precommits_awaited
    }

    /// What the delivered list leaves behind: each client's next number, and whether it closed.
    pub fn frontier(&self) -> &Frontier
        ensures { IsFrontierOf self.now.state.delivered result.now }
    {
        &self.frontier
    }

    /// The decided values, in order of height: together they are the delivered list.
    pub fn decided(&self) -> &[Value]
        ensures { delivered_by result.now ≡ self.now.state.delivered }
    {
        &self.decided
    }

    /// An equal state, which has no room yet. Values are shared and not copied. The copy stands at the same step of the same round, so
    /// each of the two may vote there: whoever makes a copy lets go the votes of one of them alone.
    pub fn copy(&self) -> Result<State, AllocError>
        ensures { IfOk result (λ copy. copy ≡ record self.now { room = None }) }
    {
        Ok(State {
            alloc: self.alloc,
            tally: self.tally.copy()?,
            height: self.height,
            stage: self.stage.copy(),
            lock: copy_of(self.alloc, &self.lock)?,
            valid_value: copy_of(self.alloc, &self.valid_value)?,
            kept: copy_all(self.alloc, &self.kept)?,
            places: places_in(self.alloc, &self.kept)?,
            stamps: copy_all(self.alloc, &self.stamps)?,
            prevotes_awaited: self.prevotes_awaited,
            value_found: self.value_found,
            precommits_awaited: self.precommits_awaited,
            decided: copy_all(self.alloc, &self.decided)?,
            frontier: self.frontier.copy(self.alloc)?,
            room: None,
        })
    }
}

fn copy_of(alloc: Global, value: &Option<ValueAt>) -> Result<Option<ValueAt>, AllocError>
    ensures { IfOk result (λ copy. copy ≡ value.now) }
{
    match value {
        None => Ok(None),
        Some(value) => Ok(Some(value.copy(alloc)?)),
    }
}
