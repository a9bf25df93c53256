//! What validators and clients tell each other.
//!
//! Proposals and votes are those of arXiv 1807.04938, algorithm 1.

ghost use Rattle.std.specs.Prelude.{◌≡◌, IfOk};
ghost use Rattle.messages.specs.Equality.{vote_eq, proposal_eq};

use std::alloc::{AllocError, Global};
use transactions::{Duplicate, Id, Seq, Tx, Value};

/// Which vote of a round: a prevote (arXiv 1807.04938, algorithm 1, lines 22 to 33 and 57 to 60) or a
/// precommit (lines 36 to 46 and 61 to 64).
#[derive(Clone, Copy, Debug, PartialEq, Eq)]
pub enum Step {
    Prevote,
    Precommit,
}

/// What the proposer of a round proposes (arXiv 1807.04938, algorithm 1, line 19).
#[derive(Debug, PartialEq, Eq, Drop)]
pub struct Proposal {
    pub height: u64,
    pub round: u32,
    /// The number of the validator that proposes.
    pub sender: u16,
    /// The round in which the value had a quorum of prevotes; below `u32::MAX` where it is spelled.
    pub valid_round: Option<u32>,
    pub value: Value,
}

/// A vote of a validator, for a value or for nil.
#[derive(Clone, Copy, Debug, PartialEq, Eq)]
pub struct Vote {
    pub step: Step,
    pub height: u64,
    pub round: u32,
    /// The number of the validator that votes.
    pub sender: u16,
    /// The id of the value that it is for, or none for nil.
    pub content: Option<Id>,
}

/// A validator that is behind asks for the decision of a height.
#[derive(Clone, Copy, Debug, PartialEq, Eq)]
pub struct Ask {
    pub height: u64,
    /// The number of the validator that asks.
    pub sender: u16,
}

/// A precommit in a bundle, which has its height, round and id in common with the others.
#[derive(Debug, Drop)]
pub struct Precommit {
    /// The number of the validator that precommitted.
    pub sender: u16,
    /// The tags that stood behind the precommit: 1 to 128.
    pub tags: Seq<[u8; 32]>,
}

/// A decision, with the precommits that show it.
#[derive(Debug, Drop)]
pub struct Bundle {
    pub height: u64,
    /// The number of the validator that sends it.
    pub sender: u16,
    /// The round of the precommits.
    pub round: u32,
    /// The id that the precommits are for.
    pub id: Id,
    pub value: Value,
    /// At most 128.
    pub precommits: Seq<Precommit>,
}

/// What a message says, of one of five kinds.
#[derive(Debug, Drop)]
pub enum Body {
    /// A transaction from its client; its tags are the message's, so it has none here.
    Tx(Tx),
    Proposal(Proposal),
    Vote(Vote),
    Ask(Ask),
    Bundle(Bundle),
}

/// A body with a tag for each validator: 1 to 128.
#[derive(Debug, Drop)]
pub struct Message {
    pub body: Body,
    pub tags: Seq<[u8; 32]>,
}

impl Duplicate for Proposal {
    fn copy(&self, alloc: Global) -> Result<Proposal, AllocError> {
        Ok(Proposal {
            height: self.height,
            round: self.round,
            sender: self.sender,
            valid_round: self.valid_round,
            value: self.value.copy(alloc)?,
        })
    }
}

impl Duplicate for Precommit {
    fn copy(&self, alloc: Global) -> Result<Precommit, AllocError> {
        Ok(Precommit {
            sender: self.sender,
            tags: self.tags.copy(alloc)?,
        })
    }
}

impl Duplicate for Bundle {
    fn copy(&self, alloc: Global) -> Result<Bundle, AllocError> {
        Ok(Bundle {
            height: self.height,
            sender: self.sender,
            round: self.round,
            id: self.id,
            value: self.value.copy(alloc)?,
            precommits: self.precommits.copy(alloc)?,
        })
    }
}

impl Duplicate for Message {
    fn copy(&self, alloc: Global) -> Result<Message, AllocError> {
        Ok(Message {
            body: self.body.copy(alloc)?,
            tags: self.tags.copy(alloc)?,
        })
    }
}

impl Duplicate for Body {
    fn copy(&self, alloc: Global) -> Result<Body, AllocError> {
        Ok(match self {
            Body::Tx(tx) => Body::Tx(tx.copy(alloc)?),
            Body::Proposal(proposal) => Body::Proposal(proposal.copy(alloc)?),
            Body::Vote(vote) => Body::Vote(*vote),
            Body::Ask(ask) => Body::Ask(*ask),
            Body::Bundle(bundle) => Body::Bundle(bundle.copy(alloc)?),
        })
    }
}

/// Whether two votes agree in every field.
pub fn same_vote(a: &Vote, b: &Vote) -> bool
    ensures { result ≡ vote_eq a.now b.now }
{
    *a == *b
}

/// Whether two proposals agree in every field, the tags of their transactions included.
pub fn same_proposal(a: &Proposal, b: &Proposal) -> bool
    ensures { result ≡ proposal_eq a.now b.now }
{
    a == b
}
