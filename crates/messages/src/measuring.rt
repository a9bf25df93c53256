//! How long the spelling of a body is, or its first fault.

ghost use Rattle.std.specs.Prelude.{◌≡◌, ◌+◌, ◌≤◌, ◌^◌, [], nat_lt, length, OnOk, IfOk};
ghost use Rattle.std.specs.List.{AllByRecursion};
ghost use Rattle.transactions.specs.Grammar.{IsTxBody};
ghost use Rattle.messages.specs.Grammar.{valid_round_code, IsContent, IsProposal, IsVote, IsAsk, IsPrecommit, IsBundle, IsBody};
ghost use Rattle.messages.specs.Checking.{bare_tx_len, proposal_len, content_len, precommit_len, precommits_len, bundle_len, body_len};

use crate::body::{Ask, Body, Bundle, Precommit, Proposal, Vote};
use crate::limits::MOST_PRECOMMITS;
use transactions::{Fault, Id, Tx, len_of_tags, len_of_tx_body, len_of_value};

#[tactic(auto, unfolding(crate::specs::Checking::bare_tx_len))]
fn len_of_bare_tx(tx: &Tx) -> Result<usize, Fault>
    ensures len { result ≡ bare_tx_len tx.now }
    ensures fits { OnOk result (IsTxBody tx.now × (tx.now.tags ≡ [])) }
{
    let len = len_of_tx_body(tx)?;
    if tx.tags.len() != 0 {
        return Err(Fault::BadSpelling);
    }
    Ok(len)
}

/// Whether a valid round has a code: one more than it has to fit four bytes.
fn has_code(valid_round: Option<u32>) -> bool
    ensures { result ≡ nat_lt (valid_round_code valid_round) (2 ^ 32) }
{
    match valid_round {
        None => true,
        Some(round) => round < u32::MAX,
    }
}

#[tactic(auto, unfolding(crate::specs::Checking::proposal_len))]
fn len_of_proposal(proposal: &Proposal) -> Result<usize, Fault>
    ensures len { result ≡ proposal_len proposal.now }
    ensures fits { OnOk result (IsProposal proposal.now) }
    ensures small { IfOk result (λ n. n ≤ 500018) }
{
    let _height = proposal.height;
    let _round = proposal.round;
    let _sender = proposal.sender;
    if !has_code(proposal.valid_round) {
        return Err(Fault::BadSpelling);
    }
    Ok(18 + len_of_value(&proposal.value)?)
}

/// An id tells its own length.
fn len_of_id(id: &Id) -> usize
    ensures len { result ≡ 32 }
    ensures fits { length id.now ≡ 32 }
{
    id.len()
}

fn len_of_content(content: &Option<Id>) -> usize
    ensures len { result ≡ content_len content.now }
    ensures fits { IsContent content.now }
{
    match content {
        None => 1,
        Some(id) => 1 + len_of_id(id),
    }
}

fn len_of_vote(vote: &Vote) -> usize
    ensures len { result ≡ 15 + content_len vote.now.content }
    ensures fits { IsVote vote.now }
{
    let _height = vote.height;
    let _round = vote.round;
    let _sender = vote.sender;
    15 + len_of_content(&vote.content)
}

fn len_of_ask(ask: &Ask) -> usize
    ensures len { result ≡ 11 }
    ensures fits { IsAsk ask.now }
{
    let _height = ask.height;
    let _sender = ask.sender;
    11
}

#[tactic(auto, unfolding(crate::specs::Checking::precommit_len))]
fn len_of_precommit(precommit: &Precommit) -> Result<usize, Fault>
    ensures len { result ≡ precommit_len precommit.now }
    ensures fits { OnOk result (IsPrecommit precommit.now) }
    ensures small { IfOk result (λ n. n ≤ 4099) }
{
    let _sender = precommit.sender;
    Ok(2 + len_of_tags(precommit.tags.as_slice())?)
}

fn len_of_precommits(precommits: &[Precommit]) -> Result<usize, Fault>
    requires { length precommits.now ≤ 128 }
    ensures len { result ≡ precommits_len precommits.now }
    ensures fits { OnOk result (AllByRecursion IsPrecommit precommits.now) }
    ensures small { IfOk result (λ n. n ≤ 524672) }
{
    let mut total = 0usize;
    for precommit in precommits {
        let len = len_of_precommit(precommit)?;
        total += len;
    }
    Ok(total)
}

#[tactic(auto, unfolding(crate::specs::Checking::bundle_len))]
fn len_of_bundle(bundle: &Bundle) -> Result<usize, Fault>
    ensures len { result ≡ bundle_len bundle.now }
    ensures fits { OnOk result (IsBundle bundle.now) }
    ensures small { IfOk result (λ n. n ≤ 1024719) }
{
    let _height = bundle.height;
    let _sender = bundle.sender;
    let _round = bundle.round;
    let head = 14 + len_of_id(&bundle.id);
    let value = len_of_value(&bundle.value)?;
    if bundle.precommits.len() > MOST_PRECOMMITS {
        return Err(Fault::TooLong);
    }
    let precommits = len_of_precommits(bundle.precommits.as_slice())?;
    Ok(head + value + 1 + precommits)
}

/// The length of a body's spelling, or the first fault in the order of its fields.
#[tactic(auto, unfolding(crate::specs::Checking::body_len))]
pub fn len_of_body(body: &Body) -> Result<usize, Fault>
    ensures len { result ≡ body_len body.now }
    ensures fits { OnOk result (IsBody body.now) }
{
    match body {
        Body::Tx(tx) => len_of_bare_tx(tx),
        Body::Proposal(proposal) => Ok(1 + len_of_proposal(proposal)?),
        Body::Vote(vote) => Ok(len_of_vote(vote)),
        Body::Ask(ask) => Ok(len_of_ask(ask)),
        Body::Bundle(bundle) => Ok(1 + len_of_bundle(bundle)?),
    }
}
