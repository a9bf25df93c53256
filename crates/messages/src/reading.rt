//! Bodies from bytes.
//!
//! A reader whose name ends in `_of`, `_behind` or `_front` reads the front of the bytes, and gives
//! the bytes that are left too. The first field that isn't right tells the fault.

ghost use Rattle.std.specs.Prelude.{◌≡◌, true, IfOk, Ok};
ghost use Rattle.std.specs.Result.{result_map_both};
ghost use Rattle.transactions.specs.Fields.{Gives, Tells, repeat};
ghost use Rattle.messages.specs.declared.body.Body.{Body};
ghost use Rattle.messages.specs.Grammar.{SpellsBody};
ghost use Rattle.messages.specs.Reading.{valid_round_at, proposal_at, content_at, vote_at, ask_at, precommit_at, precommits_at, bundle_at, body_after, body_at, body_of, proposal_head, bundle_head, head_after, head_at};

use crate::body::{Ask, Body, Bundle, Precommit, Proposal, Step, Vote};
use crate::limits::MOST_PRECOMMITS;
use std::alloc::Global;
use transactions::fields::{array_at, u8_at, u16_at, u32_at, u64_at};
use transactions::{Fault, Id, Seq, tags_of, tx_fields_of, value_front};

#[tactic(auto, unfolding(crate::specs::Reading::valid_round_at))]
fn valid_round_of(bytes: &[u8]) -> Result<(Option<u32>, &[u8]), Fault>
    ensures { result_map_both (λ x. (x.0, x.1.now)) (λ fault. fault) result ≡ valid_round_at bytes.now }
{
    let (code, rest) = u32_at(bytes)?;
    Ok((code.checked_sub(1), rest))
}

#[tactic(auto, unfolding(crate::specs::Reading::proposal_at, crate::specs::Reading::proposal_head))]
fn proposal_of(alloc: Global, bytes: &[u8]) -> Result<(Proposal, &[u8]), Fault>
    ensures exact { Gives (λ x. (x.0, x.1.now)) result (proposal_at bytes.now) }
    ensures told { Tells result (proposal_head bytes.now) }
{
    let (height, rest) = u64_at(bytes)?;
    let (round, rest) = u32_at(rest)?;
    let (sender, rest) = u16_at(rest)?;
    let (valid_round, rest) = valid_round_of(rest)?;
    let (value, rest) = value_front(alloc, rest)?;
    Ok((
        Proposal {
            height,
            round,
            sender,
            valid_round,
            value,
        },
        rest,
    ))
}

#[tactic(auto, unfolding(crate::specs::Reading::content_at, crate::specs::Reading::content_after))]
fn content_of(bytes: &[u8]) -> Result<(Option<Id>, &[u8]), Fault>
    ensures { result_map_both (λ x. (x.0, x.1.now)) (λ fault. fault) result ≡ content_at bytes.now }
{
    let (flag, rest) = u8_at(bytes)?;
    match flag {
        0 => Ok((None, rest)),
        1 => {
            let (id, rest) = array_at(rest)?;
            Ok((Some(id), rest))
        }
        _ => Err(Fault::BadSpelling),
    }
}

#[tactic(auto, unfolding(crate::specs::Reading::vote_at))]
fn vote_of(step: Step, bytes: &[u8]) -> Result<(Vote, &[u8]), Fault>
    ensures { result_map_both (λ x. (x.0, x.1.now)) (λ fault. fault) result ≡ vote_at step bytes.now }
{
    let (height, rest) = u64_at(bytes)?;
    let (round, rest) = u32_at(rest)?;
    let (sender, rest) = u16_at(rest)?;
    let (content, rest) = content_of(rest)?;
    Ok((
        Vote {
            step,
            height,
            round,
            sender,
            content,
        },
        rest,
    ))
}

#[tactic(auto, unfolding(crate::specs::Reading::ask_at))]
fn ask_of(bytes: &[u8]) -> Result<(Ask, &[u8]), Fault>
    ensures { result_map_both (λ x. (x.0, x.1.now)) (λ fault. fault) result ≡ ask_at bytes.now }
{
    let (height, rest) = u64_at(bytes)?;
    let (sender, rest) = u16_at(rest)?;
    Ok((Ask { height, sender }, rest))
}

#[tactic(auto, unfolding(crate::specs::Reading::precommit_at))]
fn precommit_of(alloc: Global, bytes: &[u8]) -> Result<(Precommit, &[u8]), Fault>
    ensures { Gives (λ x. (x.0, x.1.now)) result (precommit_at bytes.now) }
{
    let (sender, rest) = u16_at(bytes)?;
    let (tags, rest) = tags_of(alloc, rest)?;
    Ok((Precommit { sender, tags }, rest))
}

fn precommit_list_of(
    alloc: Global,
    count: u8,
    bytes: &[u8],
) -> Result<(Vec<Precommit>, &[u8]), Fault>
    ensures { Gives (λ x. (x.0.items, x.1.now)) result (repeat precommit_at (λ _. true) count bytes.now) }
{
    let mut precommits = Vec::new(alloc);
    let mut rest = bytes;
    for _ in 0..count {
        let (precommit, after) = precommit_of(alloc, rest)?;
        precommits.push(precommit)?;
        rest = after;
    }
    Ok((precommits, rest))
}

#[tactic(auto, unfolding(crate::specs::Reading::precommits_at, transactions::specs::Fields::limited))]
fn precommits_of(alloc: Global, bytes: &[u8]) -> Result<(Seq<Precommit>, &[u8]), Fault>
    ensures { Gives (λ x. (x.0, x.1.now)) result (precommits_at bytes.now) }
{
    let (count, rest) = u8_at(bytes)?;
    if usize::from(count) > MOST_PRECOMMITS {
        return Err(Fault::TooLong);
    }
    let (precommits, rest) = precommit_list_of(alloc, count, rest)?;
    Ok((Seq::from_vec(precommits), rest))
}

#[tactic(auto, unfolding(crate::specs::Reading::bundle_at, crate::specs::Reading::bundle_head))]
fn bundle_of(alloc: Global, bytes: &[u8]) -> Result<(Bundle, &[u8]), Fault>
    ensures exact { Gives (λ x. (x.0, x.1.now)) result (bundle_at bytes.now) }
    ensures told { Tells result (bundle_head bytes.now) }
{
    let (height, rest) = u64_at(bytes)?;
    let (sender, rest) = u16_at(rest)?;
    let (round, rest) = u32_at(rest)?;
    let (id, rest) = array_at(rest)?;
    let (value, rest) = value_front(alloc, rest)?;
    let (precommits, rest) = precommits_of(alloc, rest)?;
    Ok((
        Bundle {
            height,
            sender,
            round,
            id,
            value,
            precommits,
        },
        rest,
    ))
}

#[tactic(auto, unfolding(crate::specs::Reading::body_after, crate::specs::Reading::head_after))]
fn body_behind(alloc: Global, kind: u8, bytes: &[u8]) -> Result<(Body, &[u8]), Fault>
    ensures exact { Gives (λ x. (x.0, x.1.now)) result (body_after kind bytes.now) }
    ensures told { Tells result (head_after kind bytes.now) }
{
    match kind {
        0x01 => {
            let (tx, rest) = tx_fields_of(alloc, false, bytes)?;
            Ok((Body::Tx(tx), rest))
        }
        0x02 => {
            let (tx, rest) = tx_fields_of(alloc, true, bytes)?;
            Ok((Body::Tx(tx), rest))
        }
        0x10 => {
            let (proposal, rest) = proposal_of(alloc, bytes)?;
            Ok((Body::Proposal(proposal), rest))
        }
        0x11 => {
            let (prevote, rest) = vote_of(Step::Prevote, bytes)?;
            Ok((Body::Vote(prevote), rest))
        }
        0x12 => {
            let (precommit, rest) = vote_of(Step::Precommit, bytes)?;
            Ok((Body::Vote(precommit), rest))
        }
        0x13 => {
            let (ask, rest) = ask_of(bytes)?;
            Ok((Body::Ask(ask), rest))
        }
        0x14 => {
            let (bundle, rest) = bundle_of(alloc, bytes)?;
            Ok((Body::Bundle(bundle), rest))
        }
        _ => Err(Fault::BadKind),
    }
}

#[tactic(auto, unfolding(crate::specs::Reading::body_at, crate::specs::Reading::head_at))]
pub(crate) fn body_front(alloc: Global, bytes: &[u8]) -> Result<(Body, &[u8]), Fault>
    ensures exact { Gives (λ x. (x.0, x.1.now)) result (body_at bytes.now) }
    ensures told { Tells result (head_at bytes.now) }
{
    let (kind, rest) = u8_at(bytes)?;
    body_behind(alloc, kind, rest)
}

#[tactic(auto, unfolding(transactions::specs::Fields::whole))]
fn whole_body(alloc: Global, bytes: &[u8]) -> Result<Body, Fault>
    ensures exact { Gives (λ x. x) result (body_of bytes.now) }
    ensures told { Tells result (head_at bytes.now) }
{
    let (body, rest) = body_front(alloc, bytes)?;
    if !rest.is_empty() {
        return Err(Fault::BadSpelling);
    }
    Ok(body)
}

/// The body that the bytes spell, all of the bytes.
///
/// Faults: `BadKind` (5) where the first byte names no kind; `Truncated` (1) where the bytes end
/// before a field does; `TooLong` (2) for a count or a length above its limit; `BadSpelling` (3) for
/// another field outside its range, and for bytes after the end; `OutOfMemory` (4).
pub fn read_body(alloc: Global, bytes: &[u8]) -> Result<Body, Fault>
    // What is read is spelled so.
    ensures found { IfOk result (λ body. SpellsBody bytes.now body) }
    // What is spelled so is read, unless memory runs out.
    ensures only { (body : Body) → SpellsBody bytes.now body → Gives (λ x. x) result (Ok body) }
    // Which fault it is.
    ensures exact { Gives (λ x. x) result (body_of bytes.now) }
    // No fault before the first memory is hidden by want of it.
    ensures told { Tells result (head_at bytes.now) }
{
    whole_body(alloc, bytes)
}
