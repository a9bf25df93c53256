//! What is said: an own message or a decision that is saved, and whose step is spent.

ghost use Rattle.std.specs.Prelude.{◌≡◌, option_map};
ghost use Rattle.protocol.specs.Values.{id};
ghost use Rattle.round_states.specs.Pending.{body_in};

use messages::{Body, Proposal, Step, Vote};
use protocol::{Act, OwnMessage, Record};
use std::marker::Model;
use transactions::{Id, Named};
use vote_journal::Saved;

/// An own message or a decision that is saved, and whose step is spent. Only it gives its message.
#[derive(Drop)]
pub struct Said {
    sender: u16,
    entry: Record,
}

impl Model for Said {
    ghost use Rattle.round_states.specs.Pending.{Pending};

    ghost Value = { Pending };

    ghost use Rattle.protocol.specs.Records.{record_of};

    ghost view = { λ a. record { sender = a.sender; entry = record_of a.entry } };
}

impl Said {
    /// What a validator saved, for whoever spends the step of it.
    pub(crate) fn of(sender: u16, saved: Saved) -> Said
        ensures { result ≡ record { sender = sender; entry = saved } }
    {
        Said {
            sender,
            entry: saved.into_record(),
        }
    }
}

/// Lets an own message go, or a decision as a bundle of the precommits that decided.
#[tactic(auto, unfolding(protocol::specs::Values::id))]
pub fn release(said: Said) -> Body
    ensures { result ≡ body_in said.sender said.entry }
{
    let Said { sender, entry } = said;
    let OwnMessage { height, round, act } = match entry {
        Record::Own(message) => message,
        Record::Decided(bundle) => return Body::Bundle(bundle),
    };
    match act {
        Act::Proposing(valid_round, value) => Body::Proposal(Proposal {
            height,
            round,
            sender,
            valid_round,
            value,
        }),
        Act::Prevoting(content) => vote_body(Step::Prevote, height, round, sender, content),
        Act::Precommitting(choice) => {
            let content = content_of(&choice);
            vote_body(Step::Precommit, height, round, sender, content)
        }
    }
}

fn vote_body(step: Step, height: u64, round: u32, sender: u16, content: Option<Id>) -> Body
    ensures { result ≡ Body.Vote (record { step = step; height = height; round = round; sender = sender; content = content }) }
{
    Body::Vote(Vote {
        step,
        height,
        round,
        sender,
        content,
    })
}

/// The content of a precommit: its value's id, or nil.
#[tactic(auto, unfolding(protocol::specs::Values::id))]
pub(crate) fn content_of(choice: &Option<Named>) -> Option<Id>
    ensures { result ≡ option_map id choice.now }
{
    match choice {
        None => None,
        Some(named) => Some(named.id()),
    }
}
