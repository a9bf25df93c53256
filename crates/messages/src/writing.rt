//! Bodies as bytes.

ghost use Rattle.std.specs.Prelude.{◌≡◌, ◌<◌, ◌≤◌, ◌^◌, ◌++◌, ℕ, List, All, length, OnOk, IfOk, Ok};
ghost use Rattle.std.specs.List.{flat_map};
ghost use Rattle.transactions.specs.Fields.{Gives};
ghost use Rattle.messages.specs.Grammar.{valid_round_code, content_spelling, proposal_spelling, vote_spelling, ask_spelling, precommit_spelling, precommits_spelling, bundle_head_spelling, bundle_spelling, body_spelling, IsProposal, IsPrecommit, IsBundle, IsBody, SpellsBody};
ghost use Rattle.messages.specs.Checking.{body_spelled};

use crate::body::{Ask, Body, Bundle, Precommit, Proposal, Step, Vote};
use crate::measuring::len_of_body;
use std::alloc::{AllocError, Global};
use transactions::{Fault, Id, put_tags, put_tx_body, put_u16, put_u32, put_u64, put_value};

fn valid_code(valid_round: Option<u32>) -> u32
    requires { valid_round_code valid_round < 2 ^ 32 }
    ensures { result ≡ valid_round_code valid_round }
{
    match valid_round {
        None => 0,
        Some(round) => round + 1,
    }
}

#[tactic(auto, unfolding(crate::specs::Grammar::proposal_spelling))]
fn put_proposal(out: &mut Vec<u8>, proposal: &Proposal) -> Result<(), AllocError>
    requires { IsProposal proposal.now }
    ensures { OnOk result (out.new.items ≡ out.old.items ++ proposal_spelling proposal.now) }
{
    put_u64(out, proposal.height)?;
    put_u32(out, proposal.round)?;
    put_u16(out, proposal.sender)?;
    put_u32(out, valid_code(proposal.valid_round))?;
    put_value(out, &proposal.value)
}

fn put_content(out: &mut Vec<u8>, content: &Option<Id>) -> Result<(), AllocError>
    ensures { OnOk result (out.new.items ≡ out.old.items ++ content_spelling content.now) }
{
    match content {
        None => Ok(out.push(0)?),
        Some(id) => {
            out.push(1)?;
            out.extend_from_slice(id)
        }
    }
}

#[tactic(auto, unfolding(crate::specs::Grammar::vote_spelling))]
fn put_vote(out: &mut Vec<u8>, vote: &Vote) -> Result<(), AllocError>
    ensures { OnOk result (out.new.items ≡ out.old.items ++ vote_spelling vote.now) }
{
    put_u64(out, vote.height)?;
    put_u32(out, vote.round)?;
    put_u16(out, vote.sender)?;
    put_content(out, &vote.content)
}

#[tactic(auto, unfolding(crate::specs::Grammar::ask_spelling))]
fn put_ask(out: &mut Vec<u8>, ask: &Ask) -> Result<(), AllocError>
    ensures { OnOk result (out.new.items ≡ out.old.items ++ ask_spelling ask.now) }
{
    put_u64(out, ask.height)?;
    put_u16(out, ask.sender)
}

#[tactic(auto, unfolding(crate::specs::Grammar::precommit_spelling))]
fn put_precommit(out: &mut Vec<u8>, precommit: &Precommit) -> Result<(), AllocError>
    requires { IsPrecommit precommit.now }
    ensures { OnOk result (out.new.items ≡ out.old.items ++ precommit_spelling precommit.now) }
{
    put_u16(out, precommit.sender)?;
    put_tags(out, &precommit.tags)
}

fn put_precommit_list(out: &mut Vec<u8>, precommits: &[Precommit]) -> Result<(), AllocError>
    requires { All IsPrecommit precommits.now }
    ensures { OnOk result (out.new.items ≡ out.old.items ++ flat_map precommit_spelling precommits.now) }
{
    for precommit in precommits {
        put_precommit(out, precommit)?;
    }
    Ok(())
}

#[tactic(auto, unfolding(crate::specs::Grammar::precommits_spelling))]
fn put_precommits(out: &mut Vec<u8>, precommits: &[Precommit]) -> Result<(), AllocError>
    requires few { length precommits.now ≤ 128 }
    requires each { All IsPrecommit precommits.now }
    ensures { OnOk result (out.new.items ≡ out.old.items ++ precommits_spelling precommits.now) }
{
    out.push(precommits.len() as u8)?;
    put_precommit_list(out, precommits)
}

#[tactic(auto, unfolding(crate::specs::Grammar::bundle_head_spelling))]
fn put_bundle_head(out: &mut Vec<u8>, bundle: &Bundle) -> Result<(), AllocError>
    ensures { OnOk result (out.new.items ≡ out.old.items ++ bundle_head_spelling bundle.now) }
{
    put_u64(out, bundle.height)?;
    put_u16(out, bundle.sender)?;
    put_u32(out, bundle.round)?;
    out.extend_from_slice(&bundle.id)
}

#[tactic(auto, unfolding(crate::specs::Grammar::bundle_spelling), using(crate::proofs::Spelled::all_fit))]
fn put_bundle(out: &mut Vec<u8>, bundle: &Bundle) -> Result<(), AllocError>
    requires { IsBundle bundle.now }
    ensures { OnOk result (out.new.items ≡ out.old.items ++ bundle_spelling bundle.now) }
{
    put_bundle_head(out, bundle)?;
    put_value(out, &bundle.value)?;
    put_precommits(out, bundle.precommits.as_slice())
}

pub(crate) fn put_body(out: &mut Vec<u8>, body: &Body) -> Result<(), AllocError>
    requires { IsBody body.now }
    ensures { OnOk result (out.new.items ≡ out.old.items ++ body_spelling body.now) }
{
    match body {
        Body::Tx(tx) => put_tx_body(out, tx),
        Body::Proposal(proposal) => {
            out.push(0x10)?;
            put_proposal(out, proposal)
        }
        Body::Vote(vote) => {
            match vote.step {
                Step::Prevote => out.push(0x11)?,
                Step::Precommit => out.push(0x12)?,
            }
            put_vote(out, vote)
        }
        Body::Ask(ask) => {
            out.push(0x13)?;
            put_ask(out, ask)
        }
        Body::Bundle(bundle) => {
            out.push(0x14)?;
            put_bundle(out, bundle)
        }
    }
}

fn bytes_of_body(alloc: Global, body: &Body) -> Result<Vec<u8>, Fault>
    ensures ok { OnOk result (IsBody body.now) }
    ensures exact { Gives (λ v. v.items) result (body_spelled body.now) }
{
    let len = len_of_body(body)?;
    let mut out = Vec::with_capacity(alloc, len)?;
    put_body(&mut out, body)?;
    Ok(out)
}

/// The one spelling of a body, or the first fault in the order of its fields.
///
/// Faults: `TooLong` (2) for a count, a length or a value's total above its limit; `BadSpelling` (3)
/// for a client above 1,023, a transaction's number of 0 or above 2^48, a valid round of
/// `u32::MAX`, a precommit or a value's transaction without tags, and a transaction that is a body
/// and has tags; `OutOfMemory` (4). Memory is taken once, of the spelling's length.
pub fn spell_body(alloc: Global, body: &Body) -> Result<Vec<u8>, Fault>
    // What is written spells the body.
    ensures ok { IfOk result (λ bytes. SpellsBody bytes.items body.now) }
    // What has a spelling is written, unless memory runs out.
    ensures only { (bytes : List ℕ) → SpellsBody bytes body.now → Gives (λ v. v.items) result (Ok bytes) }
    // Which fault it is.
    ensures exact { Gives (λ v. v.items) result (body_spelled body.now) }
    // The longest is a bundle of 500,000 bytes of value and 128 precommits with 128 tags each.
    ensures short { IfOk result (λ bytes. length bytes.items ≤ 1024720) }
{
    bytes_of_body(alloc, body)
}
