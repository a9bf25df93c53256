//! A node as it is, but for its delivered list and its journal: for who looks into one under its lock.

ghost use Rattle.std.specs.Prelude.{◌≡◌, IfOk, map};
ghost use Rattle.std.specs.Option.{option_copied};
ghost use Rattle.node_core.specs.Base.{AreVariables, IsBase};

use crate::node::NodeCore;
use mempool::Mempool;
use messages::Body;
use proposal_validity::Frontier;
use protocol::{Stamp, Step, Timeout, ValueAt};
use round_states::{KeptProposal, State};
use std::alloc::{AllocError, Global};
use transactions::{Duplicate, copy_all};
use vote_journal::Store;
use vote_tally::Tally;

/// The variables of the algorithm at a validator, without what it has delivered (lines 1 to 9 of algorithm 1 of arXiv
/// 1807.04938), and the messages that it has kept.
#[derive(Drop)]
pub struct Variables {
    /// The height that is being decided: from 0 to 2^48.
    pub height: u64,
    /// Whether a round of the height has begun.
    pub has_begun: bool,
    /// The present round; 0 where none has begun.
    pub round: u32,
    pub step: Step,
    pub lock: Option<ValueAt>,
    pub valid_value: Option<ValueAt>,
    /// Whether line 34 has acted in this round; and lines 36 and 47.
    pub are_prevotes_awaited: bool,
    pub is_value_found: bool,
    pub are_precommits_awaited: bool,
    /// The kept proposals, in order of arrival, and what was found of each.
    pub proposals: Vec<KeptProposal>,
    /// The powers and the own number, and what was kept of each round.
    pub tally: Tally,
    /// The kept precommits of others with their tags.
    pub stamps: Vec<Stamp>,
}

/// A node as it was at one moment, but for its delivered list, its decisions, its journal and its keys. Values are shared and not
/// copied.
#[derive(Drop)]
pub struct Base {
    pub variables: Variables,
    /// What the delivered list leaves behind: each client's next number, and whether it closed.
    pub frontier: Frontier,
    /// The transactions that wait to be proposed.
    pub queues: Mempool,
    /// The own messages of the height, in the order in which they were saved.
    pub said: Vec<Body>,
    /// The frames that were released and not yet taken, and the timeouts.
    pub outgoing: Vec<Vec<u8>>,
    pub scheduled: Vec<Timeout>,
    /// How often the last call fired a rule that is fired by itself.
    pub fired: u64,
}

impl Variables {
    fn of(alloc: Global, state: &State) -> Result<Variables, AllocError>
        ensures { IfOk result (AreVariables state.now) }
    {
        Ok(Variables {
            height: state.height(),
            has_begun: state.has_begun(),
            round: state.round(),
            step: state.step(),
            lock: copy_of(alloc, state.lock())?,
            valid_value: copy_of(alloc, state.valid_value())?,
            are_prevotes_awaited: state.are_prevotes_awaited(),
            is_value_found: state.is_value_found(),
            are_precommits_awaited: state.are_precommits_awaited(),
            stamps: copy_all(alloc, state.stamps())?,
            proposals: copy_all(alloc, state.kept())?,
            tally: state.tally().copy()?,
        })
    }
}

impl<S: Store + Drop> NodeCore<S> {
    /// Copies the node, but for its delivered list and its journal, or is refused memory: what was copied can be looked at once the
    /// node's lock is let go.
    pub fn base(&self) -> Result<Base, AllocError>
        ensures { IfOk result (IsBase self.now) }
    {
        // What owns most comes last: each way out of here has to leave all that was copied before it.
        Ok(Base {
            fired: self.fired,
            scheduled: Vec::from_slice(self.alloc, &self.scheduled)?,
            outgoing: copy_frames(self.alloc, &self.outgoing)?,
            said: copy_all(self.alloc, &self.said)?,
            frontier: self.state.frontier().copy(self.alloc)?,
            queues: self.mempool.copy()?,
            variables: Variables::of(self.alloc, &self.state)?,
        })
    }
}

fn copy_of(alloc: Global, value: Option<&ValueAt>) -> Result<Option<ValueAt>, AllocError>
    ensures { IfOk result (λ copy. copy ≡ option_copied value.entry) }
{
    match value {
        None => Ok(None),
        Some(value) => Ok(Some(value.copy(alloc)?)),
    }
}

fn copy_frames(alloc: Global, frames: &[Vec<u8>]) -> Result<Vec<Vec<u8>>, AllocError>
    ensures { IfOk result (λ copy. map (λ frame. frame.items) copy.items ≡ map (λ frame. frame.items) frames.now) }
{
    let mut copies = Vec::with_capacity(alloc, frames.len())?;
    for frame in frames {
        copies.push(Vec::from_slice(alloc, frame)?)?;
    }
    Ok(copies)
}
