//! The first enabled rule: stages in a fixed order, each the first proposal or the highest round that fits.

ghost use Rattle.std.specs.Prelude.{◌≡◌, ◌<◌, option_map, true, false, Some, None, IfSome, IfNone};
ghost use Rattle.protocol.specs.State.{Context, Rule as AnyRule};
ghost use Rattle.protocol.specs.Rules.{holds, stands_at, quorum_for, quorum_any};
ghost use Rattle.protocol.specs.Messages.{step_eq, step_of_vote};
ghost use Rattle.protocol.specs.Order as order;
ghost use Rattle.round_machine.specs.Naming.{rule_of, IsPlaced};
ghost use Rattle.round_machine.specs.Judging.{can_lock, can_prevote_again, has_backing};

use crate::deciding::soonest_decidable;
use crate::rule::Rule;
use crate::seeking::{Sought, first_place};
use crate::skipping::highest_weak;
use messages::Step as VoteStep;
use protocol::{MOST_HEIGHT, Step};
use round_states::{KeptProposal, State};
use transactions::Id;

/// The first enabled rule, which holds: in the order of beginning, deciding, skipping rounds, prevoting,
/// prevoting again, locking, precommitting nil and awaiting. Where there is none, no rule holds but a
/// timeout's or a bundle's. It takes no memory.
pub fn enabled(state: &State) -> Option<Rule>
    ensures rule { option_map (rule_of state.now.state) result ≡ order.enabled state.now.powers state.now.state }
    ensures placed { IfSome result (λ rule. IsPlaced state.now.state rule) }
    ensures internal { IfSome result (λ rule. order.row (rule_of state.now.state rule) < 9) }
    ensures holds { IfSome result (λ rule. (g : Context) → g.powers ≡ state.now.powers → holds g state.now.state (rule_of state.now.state rule) ≡ true) }
    ensures quiet { IfNone result ((g : Context) → g.powers ≡ state.now.powers → (rule : AnyRule) → order.row rule < 9 → holds g state.now.state rule ≡ false) }
{
    first_named(state)
}

#[tactic(auto, unfolding(protocol::specs::Order::enabled))]
fn first_named(state: &State) -> Option<Rule>
    ensures rule { option_map (rule_of state.now.state) result ≡ order.enabled state.now.powers state.now.state }
    ensures placed { IfSome result (λ rule. IsPlaced state.now.state rule) }
{
    if !state.has_begun() {
        return Some(Rule::Start);
    }
    if let Some(rule) = deciding(state) {
        return Some(rule);
    }
    if let Some(rule) = skipping(state) {
        return Some(rule);
    }
    if let Some(rule) = prevoting(state) {
        return Some(rule);
    }
    if let Some(rule) = prevoting_again(state) {
        return Some(rule);
    }
    if let Some(rule) = locking(state) {
        return Some(rule);
    }
    if let Some(rule) = giving_up(state) {
        return Some(rule);
    }
    if let Some(rule) = awaiting_prevotes(state) {
        return Some(rule);
    }
    awaiting_precommits(state)
}

fn deciding(state: &State) -> Option<Rule>
    ensures rule { option_map (rule_of state.now.state) result ≡ order.deciding state.now.powers state.now.state }
    ensures placed { IfSome result (λ rule. IsPlaced state.now.state rule) }
{
    if state.height() >= MOST_HEIGHT {
        return None;
    }
    let place = soonest_decidable(state)?;
    Some(Rule::Decide(place))
}

fn skipping(state: &State) -> Option<Rule>
    ensures rule { option_map (rule_of state.now.state) result ≡ order.skipping state.now.powers state.now.state }
    ensures placed { IfSome result (λ rule. IsPlaced state.now.state rule) }
{
    let round = highest_weak(state)?;
    Some(Rule::SkipRound(round))
}

fn prevoting(state: &State) -> Option<Rule>
    ensures rule { option_map (rule_of state.now.state) result ≡ order.prevoting state.now.powers state.now.state }
    ensures placed { IfSome result (λ rule. IsPlaced state.now.state rule) }
{
    if !is_at(state, Step::Propose) {
        return None;
    }
    let place = first_place(state, state.round(), Sought::Fresh)?;
    Some(Rule::PrevoteFresh(place))
}

fn prevoting_again(state: &State) -> Option<Rule>
    ensures rule { option_map (rule_of state.now.state) result ≡ order.prevoting_again state.now.powers state.now.state }
    ensures placed { IfSome result (λ rule. IsPlaced state.now.state rule) }
{
    if !is_at(state, Step::Propose) {
        return None;
    }
    let place = first_place(state, state.round(), Sought::Backed)?;
    Some(Rule::PrevoteAgain(place))
}

fn locking(state: &State) -> Option<Rule>
    ensures rule { option_map (rule_of state.now.state) result ≡ order.locking state.now.powers state.now.state }
    ensures placed { IfSome result (λ rule. IsPlaced state.now.state rule) }
{
    if is_at(state, Step::Propose) || state.is_value_found() {
        return None;
    }
    let place = first_place(state, state.round(), Sought::Lockable)?;
    Some(Rule::Lock(place))
}

fn giving_up(state: &State) -> Option<Rule>
    ensures rule { option_map (rule_of state.now.state) result ≡ order.giving_up state.now.powers state.now.state }
    ensures placed { IfSome result (λ rule. IsPlaced state.now.state rule) }
{
    if is_at(state, Step::Prevote) && has_quorum(state, state.round(), VoteStep::Prevote, None) {
        Some(Rule::PrecommitNil)
    } else {
        None
    }
}

fn awaiting_prevotes(state: &State) -> Option<Rule>
    ensures rule { option_map (rule_of state.now.state) result ≡ order.awaiting_prevotes state.now.powers state.now.state }
    ensures placed { IfSome result (λ rule. IsPlaced state.now.state rule) }
{
    if is_at(state, Step::Prevote)
        && !state.are_prevotes_awaited()
        && has_any_quorum(state, VoteStep::Prevote)
    {
        Some(Rule::AwaitPrevotes)
    } else {
        None
    }
}

fn awaiting_precommits(state: &State) -> Option<Rule>
    ensures rule { option_map (rule_of state.now.state) result ≡ order.awaiting_precommits state.now.powers state.now.state }
    ensures placed { IfSome result (λ rule. IsPlaced state.now.state rule) }
{
    if !state.are_precommits_awaited() && has_any_quorum(state, VoteStep::Precommit) {
        Some(Rule::AwaitPrecommits)
    } else {
        None
    }
}

/// The present round is at this step.
fn is_at(state: &State, step: Step) -> bool
    ensures { result ≡ step_eq state.now.state.step step }
{
    state.step() == step
}

/// A quorum voted for this content.
pub(crate) fn has_quorum(state: &State, round: u32, step: VoteStep, content: Option<Id>) -> bool
    ensures { result ≡ quorum_for state.now.powers state.now.state round (step_of_vote step) content }
{
    state
        .powers()
        .is_quorum(state.tally().power_for(round, step, content))
}

/// A quorum voted in this step of the present round, for whatever content.
fn has_any_quorum(state: &State, step: VoteStep) -> bool
    ensures { result ≡ quorum_any state.now.powers state.now.state state.now.state.round (step_of_vote step) }
{
    state
        .powers()
        .is_quorum(state.tally().power_any(state.round(), step))
}

/// The proposal is of this round, and from its proposer.
pub(crate) fn stands_at(state: &State, kept: &KeptProposal, round: u32) -> bool
    ensures { result ≡ stands_at state.now.powers state.now.state round kept.now.proposal }
{
    kept.proposal.round == round
        && kept.proposal.sender == state.powers().proposer(state.height(), round)
}

pub(crate) fn is_fresh(state: &State, kept: &KeptProposal) -> bool
    ensures { result ≡ order.is_fresh state.now.powers state.now.state kept.now.proposal }
{
    stands_at(state, kept, state.round()) && kept.proposal.valid_round.is_none()
}

pub(crate) fn can_prevote_again(state: &State, kept: &KeptProposal) -> bool
    ensures { result ≡ can_prevote_again state.now.powers state.now.state kept.now }
{
    stands_at(state, kept, state.round()) && has_backing(state, kept.id, kept.proposal.valid_round)
}

/// The valid round is an earlier one, and a quorum prevoted this id in it.
fn has_backing(state: &State, id: Id, valid_round: Option<u32>) -> bool
    ensures { result ≡ has_backing state.now.powers state.now.state id valid_round }
{
    match valid_round {
        None => false,
        Some(round) => {
            round < state.round() && has_quorum(state, round, VoteStep::Prevote, Some(id))
        }
    }
}

pub(crate) fn can_lock(state: &State, kept: &KeptProposal) -> bool
    ensures { result ≡ can_lock state.now.powers state.now.state kept.now }
{
    let round = state.round();
    stands_at(state, kept, round)
        && kept.is_valid
        && has_quorum(state, round, VoteStep::Prevote, Some(kept.id))
}
