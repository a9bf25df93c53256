//! What the firing of a rule does, before it fires.

use crate::state::KeptProposal;
use messages::{Proposal, Vote};
use proposal_validity::Frontier;
use protocol::{Record, Timeout};
use transactions::{Named, Value};

/// What the firing of a rule saves, changes and schedules.
#[derive(Drop)]
pub struct Plan {
    /// What it saves, and says then.
    pub entry: Option<Record>,
    /// What it changes.
    pub change: Change,
    /// The timeout that begins with it.
    pub timeout: Option<Timeout>,
}

/// What a plan changes. Line numbers are those of algorithm 1 of arXiv 1807.04938.
#[derive(Drop)]
pub enum Change {
    /// The step of prevotes begins, with this own vote.
    Prevote(Vote),
    /// The step of precommits begins, with this own vote for nil.
    Precommit(Vote),
    /// The step of precommits begins, with this own vote for a value, which is locked and found valid.
    Lock(Vote, Named, Named),
    /// A value is found valid.
    Find(Named),
    /// The timeout of prevotes is scheduled: line 34 acts once in a round.
    AwaitPrevotes,
    /// The timeout of precommits is scheduled: line 47 acts once in a round.
    AwaitPrecommits,
    /// A later round begins, with this own proposal and what is found of it.
    Propose(Proposal, KeptProposal),
    /// A later round begins, in which another validator proposes.
    Begin(u32),
    /// The next height begins behind this value, with what the delivered list then leaves behind.
    Decide(Value, Frontier),
}

/// The value that a proposer picks of its clients' queues, and whether the own tags of its
/// transactions are right.
#[derive(Drop)]
pub struct Picked {
    /// At most 256 transactions, which take at most 500,000 bytes.
    pub value: Value,
    /// Whether the own tag of each of its transactions is right.
    pub genuine: bool,
}
