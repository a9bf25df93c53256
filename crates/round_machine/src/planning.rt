//! The plan of a rule: what its firing saves, changes and schedules.

ghost use Rattle.std.specs.Prelude.{◌≡◌, ◌<◌, ℕ, Some, true, IfOk, length};
ghost use Rattle.transactions.specs.Grammar.{IsValue};
ghost use Rattle.protocol.specs.Values.{Value as Handed};
ghost use Rattle.protocol.specs.State.{Context};
ghost use Rattle.protocol.specs.State as rules;
ghost use Rattle.protocol.specs.Rules.{holds, saved, changed, scheduled};
ghost use Rattle.round_states.specs.Machine.{Agrees};
ghost use Rattle.round_states.specs.Plans.{says, moved, applied, IsOfPlace};
ghost use Rattle.round_states.specs.Steps.{picked_value};
ghost use Rattle.round_machine.specs.Naming.{rule_of, IsPlaced, Serves, ServesTimeout, pick_in};
ghost use Rattle.round_machine.specs.Bundling.{Came};

use crate::content::{again_content, fresh_content};
use crate::rule::{Input, Rule};
use messages::Bundle;
use protocol::{Step, Timeout};
use round_states::{Plan, State};
use std::alloc::AllocError;

/// What the firing of a rule that holds saves, changes and schedules: nothing changes yet. It can be refused for want of
/// memory alone.
///
/// The state after it is that of the definitions once the plan is carried out: room is made for its change, its record is
/// saved, and the change is applied.
pub fn plan(state: &State, rule: Rule, input: Input) -> Result<Plan, AllocError>
    ghost g: { Context }
    requires agrees { Agrees g state.now }
    requires placed { IsPlaced state.now.state rule }
    requires holds { holds g state.now.state (rule_of state.now.state rule) ≡ true }
    requires serves { Serves g state.now rule input }
    ensures says { IfOk result (λ p. says p ≡ saved g (picked_value (pick_in input)) state.now.state (rule_of state.now.state rule)) }
    ensures moves { IfOk result (λ p. moved state.now.state p.change ≡ changed state.now.state (rule_of state.now.state rule)) }
    ensures timeout { IfOk result (λ p. p.timeout ≡ scheduled g state.now.state (rule_of state.now.state rule)) }
    ensures place { IfOk result (λ p. IsOfPlace state.now p.change (says p)) }
    ensures agrees { IfOk result (λ p. Agrees g (applied state.now p)) }
{
    match rule {
        Rule::Start => state.plan_start(0, input.into_picked()),
        Rule::Decide(place) => plan_decision(state, place, input),
        Rule::SkipRound(round) => state.plan_start(round, input.into_picked()),
        Rule::PrevoteFresh(place) => Ok(state.plan_prevote(fresh_content(state, place))),
        Rule::PrevoteAgain(place) => Ok(state.plan_prevote(again_content(state, place))),
        Rule::Lock(place) => state.plan_lock(place),
        Rule::PrecommitNil => Ok(state.plan_precommit()),
        Rule::AwaitPrevotes => Ok(state.plan_await_prevotes()),
        Rule::AwaitPrecommits => Ok(state.plan_await_precommits()),
        Rule::TimedOut(timeout) => plan_timeout(state, timeout, input),
    }
}

/// What line 49 saves, changes and schedules by a bundle that another validator collected.
///
/// The handed bundle is the one that came, with its precommits cut down to the right ones, the first of
/// each sender in order of sender: so it is kept as the decision's certificate, from the own number.
pub fn plan_by_bundle(state: &State, bundle: Bundle) -> Result<Plan, AllocError>
    ghost came: { Came }
    requires agrees { Agrees came.context state.now }
    requires holds { holds came.context state.now.state (rules.DecideByBundle came.bundle) ≡ true }
    requires certified { bundle ≡ record came.bundle { precommits = came.context.certified came.bundle } }
    requires fits { IsValue bundle.value }
    ensures says { IfOk result (λ p. (picked : Handed) → says p ≡ saved came.context picked state.now.state (rules.DecideByBundle came.bundle)) }
    ensures moves { IfOk result (λ p. moved state.now.state p.change ≡ changed state.now.state (rules.DecideByBundle came.bundle)) }
    ensures timeout { IfOk result (λ p. p.timeout ≡ scheduled came.context state.now.state (rules.DecideByBundle came.bundle)) }
    ensures place { IfOk result (λ p. IsOfPlace state.now p.change (says p)) }
    ensures agrees { IfOk result (λ p. Agrees came.context (applied state.now p)) }
{
    state.plan_decision_by_bundle(bundle)
}

/// Line 49.
fn plan_decision(state: &State, place: usize, input: Input) -> Result<Plan, AllocError>
    ghost g: { Context }
    requires agrees { Agrees g state.now }
    requires placed { place < length state.now.state.proposals }
    requires holds { holds g state.now.state (rule_of state.now.state (Rule.Decide place)) ≡ true }
    requires serves { Serves g state.now (Rule.Decide place) input }
    ensures says { IfOk result (λ p. says p ≡ saved g (picked_value (pick_in input)) state.now.state (rule_of state.now.state (Rule.Decide place))) }
    ensures moves { IfOk result (λ p. moved state.now.state p.change ≡ changed state.now.state (rule_of state.now.state (Rule.Decide place))) }
    ensures timeout { IfOk result (λ p. p.timeout ≡ scheduled g state.now.state (rule_of state.now.state (Rule.Decide place))) }
    ensures place { IfOk result (λ p. IsOfPlace state.now p.change (says p)) }
    ensures agrees { IfOk result (λ p. Agrees g (applied state.now p)) }
{
    state.plan_decision(place, input.own_tags())
}

/// Lines 57, 61 and 65.
fn plan_timeout(state: &State, timeout: Timeout, input: Input) -> Result<Plan, AllocError>
    ghost g: { Context }
    requires agrees { Agrees g state.now }
    requires holds { holds g state.now.state (rules.TimedOut timeout) ≡ true }
    requires serves { ServesTimeout g state.now timeout.kind input }
    ensures says { IfOk result (λ p. says p ≡ saved g (picked_value (pick_in input)) state.now.state (rules.TimedOut timeout)) }
    ensures moves { IfOk result (λ p. moved state.now.state p.change ≡ changed state.now.state (rules.TimedOut timeout)) }
    ensures timeout { IfOk result (λ p. p.timeout ≡ scheduled g state.now.state (rules.TimedOut timeout)) }
    ensures place { IfOk result (λ p. IsOfPlace state.now p.change (says p)) }
    ensures agrees { IfOk result (λ p. Agrees g (applied state.now p)) }
{
    match timeout.kind {
        Step::Propose => Ok(state.plan_prevote(None)),
        Step::Prevote => Ok(state.plan_precommit()),
        Step::Precommit => state.plan_start(state.round() + 1, input.into_picked()),
    }
}
