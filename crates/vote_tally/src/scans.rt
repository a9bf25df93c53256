//! Looking through kept messages, where no total answers: for a message of a number above every
//! validator's, for votes of differing heights, and for a proposal whose sender made one in its round.

ghost use Rattle.std.specs.Prelude.{◌≡◌, ◌+◌, ◌==◌, count_by, min};
ghost use Rattle.std.specs.List.{list_any};
ghost use Rattle.protocol.specs.Messages.{vote_eq, proposal_eq, step_of_vote};
ghost use Rattle.protocol.specs.Refusals.{has_two};
ghost use Rattle.protocol.specs.Tally.{senders, is_vote_for};

use messages::{Proposal, Step, Vote, same_proposal, same_vote};
use protocol::MOST_PROPOSALS;
use transactions::Id;

pub fn has_vote(votes: &[Vote], vote: &Vote) -> bool
    ensures { result ≡ list_any (vote_eq vote.now) votes.now }
{
    votes.iter().any(|other| same_vote(vote, other))
}

pub fn has_proposal(proposals: &[Proposal], proposal: &Proposal) -> bool
    ensures { result ≡ list_any (proposal_eq proposal.now) proposals.now }
{
    proposals.iter().any(|other| same_proposal(proposal, other))
}

/// Two proposals of this one's round and sender are kept.
pub fn has_two(proposals: &[Proposal], proposal: &Proposal) -> bool
    ensures { result ≡ has_two proposals.now proposal.now }
{
    proposals
        .iter()
        .filter(|other| other.round == proposal.round && other.sender == proposal.sender)
        .count()
        >= MOST_PROPOSALS
}

/// How many messages of a validator are kept, or `usize::MAX` where there are more.
pub fn count_from(proposals: &[Proposal], votes: &[Vote], sender: u16) -> usize
    ensures { result ≡ min (count_by (λ q. q.sender == sender) proposals.now + count_by (λ v. v.sender == sender) votes.now) usize.MAX }
{
    let proposed = proposals
        .iter()
        .filter(|proposal| proposal.sender == sender)
        .count();
    let voted = votes.iter().filter(|vote| vote.sender == sender).count();
    proposed.saturating_add(voted)
}

pub fn has_voted(
    votes: &[Vote],
    validator: u16,
    round: u32,
    step: Step,
    content: Option<Id>,
) -> bool
    ensures { result ≡ senders votes.now (is_vote_for round (step_of_vote step) content) validator }
{
    votes.iter().any(|vote| {
        vote.round == round
            && vote.step == step
            && vote.content == content
            && vote.sender == validator
    })
}
