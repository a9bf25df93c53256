//! What a validator saves: its own messages, and decisions.

use messages::Bundle;
use transactions::{Id, Named, Value};

/// What a validator says in a round.
#[derive(Debug, Drop)]
pub enum Act {
    /// A proposal: its valid round, if any, and its value.
    Proposing(Option<u32>, Value),
    /// A prevote for an id, or for nil.
    Prevoting(Option<Id>),
    /// A precommit for a value, which it locks, or for nil.
    Precommitting(Option<Named>),
}

/// An own message, without its sender.
#[derive(Debug, Drop)]
pub struct OwnMessage {
    pub height: u64,
    pub round: u32,
    pub act: Act,
}

/// What one save adds to a journal.
#[derive(Debug, Drop)]
pub enum Record {
    /// An own proposal or vote.
    Own(OwnMessage),
    /// A decision, under the own number, with the precommits that decided, in order of sender, each once.
    Decided(Bundle),
}
