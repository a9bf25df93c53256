//! Single calls.

ghost use Rattle.std.specs.Prelude.{◌≡◌, []};
ghost use Rattle.transactions.specs.Grammar.{IsValue};
ghost use Rattle.protocol.specs.Restart.{restart};

use super::{assert_same, *};
use messages::Bundle;
use protocol::MOST_ROUNDS;

fn propose(rt: &impl Abort, validator: &mut Validator) {
    let mut bodies = Vec::new(validator.alloc);
    validator.settle(rt, &mut bodies);
    let id = id_of(rt, validator.alloc, Some(b'p'));
    let prevote = vote(VoteStep::Prevote, 0, 0, id);
    let opening = opening(rt, validator.alloc, &bodies);
    assert_same(rt, &opening, &(0, None, id, prevote));
}

#[test]
fn proposes(rt: HostRuntime) {
    let mut validator = Validator::new(&rt, rt.alloc(), 0, true);
    propose(&rt, &mut validator);
}

/// Which timeouts hold in round 0 before a proposal comes.
fn time_out_each(rt: &impl Abort, state: &State) {
    for (kind, height, round, holds) in [
        (Step::Propose, 0, 0, true),
        (Step::Propose, 1, 0, false),
        (Step::Propose, 0, 1, false),
        (Step::Prevote, 0, 0, false),
        (Step::Precommit, 0, 0, true),
    ] {
        let timeout = Timeout {
            kind,
            height,
            round,
        };
        assert_same(rt, &holds_timeout(state, timeout), &holds);
        assert_same(rt, &timeout_refusal(state, timeout), &None);
    }
}

fn await_proposal(rt: &impl Abort, validator: &mut Validator) {
    validator.settle_unheard(rt);
    time_out_each(rt, &validator.state);
}

#[test]
fn timeouts(rt: HostRuntime) {
    let mut validator = Validator::new(&rt, rt.alloc(), 3, true);
    await_proposal(&rt, &mut validator);
}

/// The last round has begun, and ends by no timeout.
fn assert_last_round(rt: &impl Abort, state: &State) {
    assert_same(rt, &state.round(), &1_000_000);
    let timeout = Timeout {
        kind: Step::Precommit,
        height: 0,
        round: 1_000_000,
    };
    assert!(rt; !holds_timeout(state, timeout));
    assert_same(
        rt,
        &timeout_refusal(state, timeout),
        &Some(Refusal::RoundLimit),
    );
}

fn skip_to_last_round(rt: &impl Abort, validator: &mut Validator) {
    hear_votes(rt, validator, VoteStep::Prevote, MOST_ROUNDS, (0, 2), None);
    validator.settle_unheard(rt);
    assert_last_round(rt, &validator.state);
}

#[test]
fn the_last_round(rt: HostRuntime) {
    let mut validator = Validator::new(&rt, rt.alloc(), 3, true);
    skip_to_last_round(&rt, &mut validator);
}

/// Validator 0 at the beginning.
fn first_of_four(rt: &impl Abort, alloc: Global) -> State
    ensures { (result.state ≡ restart 0 []) × (result.me ≡ 0) × (result.genuine ≡ []) }
{
    State::new(alloc, four(rt, alloc), 0)
}

/// A proposal's sender and round.
fn place_in(body: Option<Body>) -> Option<(u16, u32)> {
    match body {
        Some(Body::Proposal(proposal)) => Some((proposal.sender, proposal.round)),
        _ => None,
    }
}

/// Its plan to begin says its proposal, before anything is saved or has changed.
#[tactic(auto, unfolding(protocol::specs::Restart::restart))]
fn foretell_start(rt: &impl Abort, state: &State, alloc: Global)
    requires { (state.now.state ≡ restart 0 []) × (state.now.me ≡ 0) × (state.now.genuine ≡ []) }
{
    let input = Input::Picked(Picked {
        value: value_of(rt, alloc, 1, b'p'),
        genuine: true,
    });
    let plan = plan(state, Rule::Start, input).expect(rt, "there is a plan");
    let message = state.message_of(&plan).expect(rt, MEMORY);
    assert_same(rt, &place_in(message), &Some((0, 0)));
    assert!(rt; !state.has_begun() && plan.entry.is_some());
}

#[test]
fn foretells(rt: HostRuntime) {
    let state = first_of_four(&rt, rt.alloc());
    foretell_start(&rt, &state, rt.alloc());
}

/// Decides by a bundle of validator 1, of which every precommit is right.
#[tactic(auto, unfolding(protocol::specs::Values::id))]
fn decide_by(rt: &impl Abort, state: &mut State, alloc: Global, value: Value) -> Option<Body>
    requires fits { IsValue value }
    requires fresh { (state.old.state.height ≡ 0) × (state.old.state.proposals ≡ []) × (state.old.genuine ≡ []) }
{
    let powers = state.powers();
    assert!(rt; powers.is_quorum(powers.total()));
    assert!(rt; state.frontier().valid(&value));
    let bundle = Bundle {
        height: 0,
        sender: 1,
        round: 4,
        id: value_id(alloc, &value).expect(rt, "it has a spelling"),
        value,
        precommits: Seq::new(alloc),
    };
    let plan = plan_by_bundle(state, bundle).expect(rt, MEMORY);
    carry_out(rt, alloc, state, plan)
}

/// The sender and the round of the bundle that a firing lets go.
fn bundle_in(body: Option<Body>) -> Option<(u16, u32)> {
    match body {
        Some(Body::Bundle(bundle)) => Some((bundle.sender, bundle.round)),
        _ => None,
    }
}

fn take_decision(rt: &impl Abort, state: &mut State, alloc: Global)
    requires { (state.old.state.height ≡ 0) × (state.old.state.proposals ≡ []) × (state.old.genuine ≡ []) }
{
    let value = value_of(rt, alloc, 1, b'a');
    let bundle = decide_by(rt, state, alloc, value);
    assert_same(rt, &bundle_in(bundle), &Some((0, 4)));
    assert_same(rt, &state.height(), &1);
}

#[test]
#[tactic(auto, unfolding(protocol::specs::Restart::restart))]
fn decides_by_a_bundle(rt: HostRuntime) {
    let mut state = first_of_four(&rt, rt.alloc());
    take_decision(&rt, &mut state, rt.alloc());
}
