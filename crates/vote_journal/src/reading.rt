//! Records from bytes.

ghost use Rattle.std.specs.Prelude.{◌≡◌, ◌≤◌, ◌<◌, ◌∷◌, ◌++◌, ℕ, List, length, option_map, MatchResult, IfOk};
ghost use Rattle.transactions.specs.Grammar.{IsValue, SpellsValue};
ghost use Rattle.messages.specs.Grammar.{SpellsBody};
ghost use Rattle.protocol.specs.Records.{act_of, record_of};
ghost use Rattle.vote_journal.specs.Grammar.{IsReading, is_rising};
ghost use Rattle.vote_journal.specs.Parts.{IsReadingOf, plain_act, plain_record, lock_record, is_decision, bundle_of};

use crate::fault::JournalFault;
use messages::{Body, Bundle, Precommit, Proposal, Step, Vote, read_body, same_vote};
use protocol::{Act, OwnMessage, Record};
use std::alloc::{AllocError, Global};
use transactions::{Fault, Named, Value, read_value, value_id};

/// How many bytes the body of a vote for a value has.
const VOTE_LEN: usize = 48;

fn body_in(alloc: Global, bytes: &[u8]) -> Result<Body, JournalFault>
    ensures { IsReadingOf (SpellsBody bytes.now) result }
{
    match read_body(alloc, bytes) {
        Ok(body) => Ok(body),
        Err(Fault::OutOfMemory) => Err(JournalFault::OutOfMemory),
        Err(_) => Err(JournalFault::BadRecord),
    }
}

fn value_in(alloc: Global, bytes: &[u8]) -> Result<Value, JournalFault>
    ensures { IsReadingOf (SpellsValue bytes.now) result }
{
    match read_value(alloc, bytes) {
        Ok(value) => Ok(value),
        Err(Fault::OutOfMemory) => Err(JournalFault::OutOfMemory),
        Err(_) => Err(JournalFault::BadRecord),
    }
}

/// What a vote says where no value goes with it: a precommit for a value has one.
fn plain_act(vote: &Vote) -> Option<Act>
    ensures { option_map act_of result ≡ plain_act vote.now }
{
    match (vote.step, vote.content) {
        (Step::Prevote, content) => Some(Act::Prevoting(content)),
        (Step::Precommit, None) => Some(Act::Precommitting(None)),
        (Step::Precommit, Some(_)) => None,
    }
}

/// The own message that a body is.
fn plain_record(me: u16, body: Body) -> Option<Record>
    ensures { option_map record_of result ≡ plain_record me body }
{
    match body {
        Body::Proposal(proposal) => own_proposal(me, proposal),
        Body::Vote(vote) => own_vote(me, &vote),
        _ => None,
    }
}

fn own_proposal(me: u16, proposal: Proposal) -> Option<Record>
    ensures { option_map record_of result ≡ plain_record me (Body.Proposal proposal) }
{
    let Proposal {
        height,
        round,
        sender,
        valid_round,
        value,
    } = proposal;
    if sender != me {
        return None;
    }
    Some(Record::Own(OwnMessage {
        height,
        round,
        act: Act::Proposing(valid_round, value),
    }))
}

fn own_vote(me: u16, vote: &Vote) -> Option<Record>
    ensures { option_map record_of result ≡ plain_record me (Body.Vote vote.now) }
{
    if vote.sender != me {
        return None;
    }
    let act = plain_act(vote)?;
    Some(Record::Own(OwnMessage {
        height: vote.height,
        round: vote.round,
        act,
    }))
}

/// Kind 01: a body.
fn read_plain(alloc: Global, me: u16, bytes: &[u8]) -> Result<Record, JournalFault>
    ensures { IsReading me (1 ∷ bytes.now) result }
{
    let body = body_in(alloc, bytes)?;
    match plain_record(me, body) {
        Some(entry) => Ok(entry),
        None => Err(JournalFault::BadRecord),
    }
}

/// A value beside its id. A value that was read has one, so that nothing but memory can be refused.
#[tactic(auto, unfolding(protocol::specs::Values::id))]
fn named(alloc: Global, value: Value) -> Result<Named, JournalFault>
    ensures ok { IfOk result (λ named. named ≡ value) }
    ensures memory { MatchResult result (λ _. Unit {0}) (λ e. e ≡ JournalFault.OutOfMemory) }
{
    match value_id(alloc, &value) {
        Ok(id) => Ok(Named::new(value, id)),
        Err(_) => Err(JournalFault::OutOfMemory),
    }
}

/// The own precommit for a value that a body and a value are.
#[tactic(auto, unfolding(protocol::specs::Values::id))]
fn lock_record(me: u16, body: &Body, named: Named) -> Option<Record>
    ensures { option_map record_of result ≡ lock_record me body.now named }
{
    let Body::Vote(vote) = body else {
        return None;
    };
    let own = Vote {
        step: Step::Precommit,
        height: vote.height,
        round: vote.round,
        sender: me,
        content: Some(named.id()),
    };
    if !same_vote(vote, &own) {
        return None;
    }
    Some(Record::Own(OwnMessage {
        height: vote.height,
        round: vote.round,
        act: Act::Precommitting(Some(named)),
    }))
}

/// Kind 02: the body of a precommit and the value that it is for.
fn read_lock(alloc: Global, me: u16, bytes: &[u8]) -> Result<Record, JournalFault>
    ensures { IsReading me (2 ∷ bytes.now) result }
{
    if bytes.len() < VOTE_LEN {
        return Err(JournalFault::BadRecord);
    }
    let (front, back) = bytes.split_at(VOTE_LEN);
    let body = body_in(alloc, front)?;
    let value = value_in(alloc, back)?;
    let named = named(alloc, value)?;
    match lock_record(me, &body, named) {
        Some(entry) => Ok(entry),
        None => Err(JournalFault::BadRecord),
    }
}

/// Whether each sender is above the one before.
fn is_rising(precommits: &[Precommit]) -> bool
    ensures { result ≡ is_rising precommits.now }
{
    match precommits {
        [first, others @ ..] => match others {
            [second, ..] => first.sender < second.sender && is_rising(others),
            [] => true,
        },
        [] => true,
    }
}

/// Whether a bundle is a decision under the own number: its id is its value's, and its precommits are in order.
#[tactic(auto, unfolding(protocol::specs::Values::id))]
fn is_decision(alloc: Global, me: u16, bundle: &Bundle) -> Result<bool, AllocError>
    requires { IsValue bundle.now.value }
    ensures { IfOk result (λ own. own ≡ is_decision me bundle.now) }
{
    let id = value_id(alloc, &bundle.value).map_err(|_| AllocError)?;
    Ok(bundle.sender == me && is_rising(bundle.precommits.as_slice()) && bundle.id == id)
}

/// The bundle that a body is.
fn bundle_of(body: Body) -> Option<Bundle>
    ensures { result ≡ bundle_of body }
{
    match body {
        Body::Bundle(bundle) => Some(bundle),
        _ => None,
    }
}

/// Kind 03: the bundle body of a decision.
fn read_decision(alloc: Global, me: u16, bytes: &[u8]) -> Result<Record, JournalFault>
    ensures { IsReading me (3 ∷ bytes.now) result }
{
    let body = body_in(alloc, bytes)?;
    let Some(bundle) = bundle_of(body) else {
        return Err(JournalFault::BadRecord);
    };
    match is_decision(alloc, me, &bundle) {
        Ok(true) => Ok(Record::Decided(bundle)),
        Ok(false) => Err(JournalFault::BadRecord),
        Err(_) => Err(JournalFault::OutOfMemory),
    }
}

/// A record by its kind.
fn read_kind(alloc: Global, me: u16, kind: u8, bytes: &[u8]) -> Result<Record, JournalFault>
    ensures { IsReading me (kind ∷ bytes.now) result }
{
    match kind {
        1 => read_plain(alloc, me, bytes),
        2 => read_lock(alloc, me, bytes),
        3 => read_decision(alloc, me, bytes),
        _ => Err(JournalFault::BadRecord),
    }
}

/// The record of validator `me` that the content behind a length spells.
///
/// Faults: `BadRecord` (3) for another kind, for bytes that spell no body or value of the kind, for another sender than
/// the own, for a value whose id isn't the precommit's or the decision's, and for precommits that aren't in order of
/// sender, each once; `OutOfMemory` (2).
#[tactic(auto, using(crate::proofs::RecordFormats::nothing_spelled))]
pub fn read_record(alloc: Global, me: u16, content: &[u8]) -> Result<Record, JournalFault>
    ensures { IsReading me content.now result }
{
    match content {
        [] => Err(JournalFault::BadRecord),
        [kind, bytes @ ..] => read_kind(alloc, me, *kind, bytes),
    }
}
