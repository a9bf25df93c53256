//! What liars and clients are to send.

use messages::Step;
use transactions::{Item, Seq, Value};

/// A transaction, with right tags for some validators or for all; the other tags are zeros.
#[derive(Debug, Drop)]
pub struct Tagged {
    pub item: Item,
    /// None where all tags are right.
    pub right: Option<Seq<u16>>,
}

/// A liar's proposal.
#[derive(Debug, Drop)]
pub struct Proposing {
    pub sender: u64,
    pub height: u64,
    pub round: u32,
    pub valid_round: Option<u32>,
    pub value: Value,
}

/// A liar's vote.
#[derive(Debug, Drop)]
pub struct Voting {
    pub sender: u64,
    pub step: Step,
    pub height: u64,
    pub round: u32,
    /// The value whose id it is for; none for nil.
    pub value: Option<Value>,
}

/// A liar's bundle: a value under the id of the same or of another one.
#[derive(Debug, Drop)]
pub struct Bundling {
    pub sender: u64,
    pub height: u64,
    pub round: u32,
    pub value: Value,
    /// The value whose id it has.
    pub named: Value,
    /// The liars whose precommits it has, one for each time that a number stands here.
    pub signers: Seq<u64>,
}
