//! Rules fire: each whole, or, refused memory, not at all.

ghost use Rattle.std.specs.Prelude.{◌≡◌, ◌<◌, ◌≤◌, ◌+◌, ◌-◌, ◌^◌, ◌⊎◌, ◌++◌, ℕ, List, true, false, cond, All, Err, OnOk, OnErr, IfOk, IfErr, IfSome, Some, None, option_map, length, map, min, option_to_list, vec_len, vec_capacity};
ghost use Rattle.powers.specs.Power.{proposer};
ghost use Rattle.protocol.specs.State.{Context, Node, TimedOut};
ghost use Rattle.protocol.specs.Rules.{holds, fired};
ghost use Rattle.protocol.specs.Order.{enabled, row};
ghost use Rattle.protocol.specs.Queues.{pick, drop_delivered};
ghost use Rattle.protocol.specs.Values.{Item};
ghost use Rattle.round_machine.specs.Naming.{rule_of, IsPlaced};
ghost use Rattle.protocol.specs.Arrivals.{firing};
ghost use Rattle.node_core.specs.Core.{Stands, context_of, setting_of};
ghost use Rattle.node_core.specs.Calls.{HasFiredOnce, Leaves, IsUnfired, TellsJournal};
ghost use Rattle.node_core.specs.Running.{HasRun, IsCutOff};
ghost use Rattle.node_core.specs.Firing.{IsHanded, IsFit, IsReady, IsRoundHanded, decided_by, said_by, is_empty};
ghost use Rattle.state_journal.specs.Saving.{IsNarrow};

use crate::carrying::{Spelled, released};
use crate::node::NodeCore;
use crate::outlet::Outlet;
use frame_admission::{Tagger, own_tags};
use height_catchup::Decisions;
use mempool::Mempool;
use messages::Body;
use protocol::{Refusal, Step, Timeout};
use round_machine::{Input, Rule, enabled, plan};
use round_states::{Picked, Plan, Said, State, release};
use state_journal::{Fired, carry_out};
use std::alloc::AllocError;
use vote_journal::Store;

/// A firing that can be carried out: its plan, and the bytes of what it says.
#[derive(Drop)]
struct Ready {
    plan: Plan,
    spelled: Spelled,
}

impl<S: Store + Drop> NodeCore<S> {
    /// Fires the first enabled rule, again and again, until none is enabled, or one can't fire for memory or the journal.
    pub(crate) fn fire_all<T: Tagger + Outlet>(&mut self, tagger: &T) -> Result<(), Refusal>
        requires running { self.old.journal.failed ≡ false }
        ensures answer { IfErr result (λ r. (r ≡ Refusal.OutOfMemory) ⊎ (r ≡ Refusal.JournalFailed)) }
        ensures journal { TellsJournal result self.old.journal self.new.journal }
        ensures ran { HasRun self.old self.new }
        ensures broken { result ≡ Err Refusal.JournalFailed → IsCutOff self.old self.new }
        ensures quiet { OnOk result (enabled self.new.machine.powers self.new.machine.state ≡ None) }
    {
        self.fired = 0;
        while let Some(rule) = self.enabled() {
            self.fire(tagger, rule)?;
            self.fired = self.fired.saturating_add(1);
        }
        Ok(())
    }

    /// The first enabled rule.
    fn enabled(&self) -> Option<Rule>
        ensures rule { option_map (rule_of self.now.machine.state) result ≡ enabled self.now.machine.powers self.now.machine.state }
        ensures placed { IfSome result (λ rule. IsPlaced self.now.machine.state rule) }
        ensures internal { IfSome result (λ rule. row (rule_of self.now.machine.state rule) < 9) }
        ensures holds { IfSome result (λ rule. holds (context_of self.now) self.now.machine.state (rule_of self.now.machine.state rule) ≡ true) }
    {
        enabled(&self.state)
    }

    /// Fires a rule that holds.
    pub(crate) fn fire<T: Tagger + Outlet>(&mut self, tagger: &T, rule: Rule) -> Result<(), Refusal>
        ghost g: { Context }
        requires running { self.old.journal.failed ≡ false }
        requires context { g ≡ context_of self.old }
        requires placed { IsPlaced self.old.machine.state rule }
        requires holds { holds (context_of self.old) self.old.machine.state (rule_of self.old.machine.state rule) ≡ true }
        ensures ok { OnOk result ((n : Node) → Stands n self.old → HasFiredOnce n (rule_of self.old.machine.state rule) self.old self.new) }
        ensures broken { result ≡ Err Refusal.JournalFailed → (n : Node) → Stands n self.old → Leaves self.old.machine.powers self.old.machine.me n.journal (option_to_list (firing (setting_of self.old) self.old.machine.me n (rule_of self.old.machine.state rule)).wrote) self.new.journal }
        ensures state { OnOk result (self.new.machine.state ≡ fired (context_of self.old) (pick self.old.queues) self.old.machine.state (rule_of self.old.machine.state rule)) }
        ensures fired { self.new.fired ≡ self.old.fired }
        ensures journal { TellsJournal result self.old.journal self.new.journal }
        ensures err { IfErr result (λ r. IsUnfired r self.old self.new) }
    {
        let Ready {
            plan,
            spelled: Spelled { record, frame },
        } = self.prepare(tagger, rule)?;
        make_room(
            &mut self.outgoing,
            &mut self.scheduled,
            &mut self.decisions,
            &mut self.said,
        )?;
        let Fired { said, timeout } = carry_out(&mut self.state, plan, record, &mut self.journal)?;
        push_one(&mut self.outgoing, released(tagger, frame, &said));
        push_one(&mut self.scheduled, timeout);
        note(
            said,
            &self.state,
            &mut self.decisions,
            &mut self.mempool,
            &mut self.said,
        );
        Ok(())
    }

    /// Plans a rule that holds, and spells what it says. Nothing changes yet.
    fn prepare<T: Tagger>(&self, tagger: &T, rule: Rule) -> Result<Ready, AllocError>
        ghost g: { Context }
        requires context { g ≡ context_of self.now }
        requires placed { IsPlaced self.now.machine.state rule }
        requires holds { holds (context_of self.now) self.now.machine.state (rule_of self.now.machine.state rule) ≡ true }
        ensures { IfOk result (IsReady self.now rule) }
    {
        let input = self.input(rule)?;
        let plan = plan(&self.state, rule, input)?;
        let spelled = self.spelled(tagger, &plan)?;
        Ok(Ready { plan, spelled })
    }

    /// What the rule is handed.
    fn input(&self, rule: Rule) -> Result<Input, AllocError>
        requires placed { IsPlaced self.now.machine.state rule }
        requires holds { holds (context_of self.now) self.now.machine.state (rule_of self.now.machine.state rule) ≡ true }
        ensures handed { IfOk result (λ input. IsHanded self.now rule input) }
        ensures fit { OnOk result (IsFit self.now.machine.state rule) }
    {
        match rule {
            Rule::Start => self.input_of_start(0),
            Rule::SkipRound(round) => self.input_of_start(round),
            Rule::TimedOut(timeout) => self.input_of_timeout(timeout),
            Rule::Decide(place) => self.input_of_decision(place),
            Rule::Lock(place) => Ok(self.input_of_lock(place)),
            Rule::PrevoteFresh(_)
            | Rule::PrevoteAgain(_)
            | Rule::AwaitPrevotes
            | Rule::PrecommitNil
            | Rule::AwaitPrecommits => Ok(Input::Nothing),
        }
    }

    /// Line 65 starts the next round; lines 57 and 61 ask for nothing.
    fn input_of_timeout(&self, timeout: Timeout) -> Result<Input, AllocError>
        requires holds { holds (context_of self.now) self.now.machine.state (TimedOut timeout) ≡ true }
        ensures { IfOk result (λ input. IsHanded self.now (Rule.TimedOut timeout) input) }
    {
        match timeout.kind {
            Step::Propose | Step::Prevote => Ok(Input::Nothing),
            Step::Precommit => self.input_of_start(self.state.round() + 1),
        }
    }

    /// The own pick, where the own number is the round's proposer and has no valid value (lines 15 to 18).
    fn input_of_start(&self, round: u32) -> Result<Input, AllocError>
        ensures { IfOk result (λ input. IsRoundHanded self.now round input) }
    {
        let proposer = self.state.powers().proposer(self.state.height(), round);
        if proposer != self.state.me() || self.state.valid_value().is_some() {
            return Ok(Input::Nothing);
        }
        Ok(Input::Picked(Picked {
            value: self.mempool.pick()?,
            genuine: true,
        }))
    }

    /// Nothing is asked for a lock: its value can be spelled, as each kept one.
    fn input_of_lock(&self, place: usize) -> Input
        requires placed { place < length self.now.machine.state.proposals }
        ensures handed { IsHanded self.now (Rule.Lock place) result }
        ensures fit { IsFit self.now.machine.state (Rule.Lock place) }
    {
        let _ = &self.state.kept()[place];
        Input::Nothing
    }

    /// The tags of the own precommit for what is decided.
    fn input_of_decision(&self, place: usize) -> Result<Input, AllocError>
        requires placed { place < length self.now.machine.state.proposals }
        ensures handed { IfOk result (λ input. IsHanded self.now (Rule.Decide place) input) }
        ensures fit { OnOk result (IsFit self.now.machine.state (Rule.Decide place)) }
    {
        let kept = &self.state.kept()[place];
        let round = kept.proposal.round;
        let tags = own_tags(self.alloc, &self.ring, self.state.height(), round, kept.id)?;
        Ok(Input::OwnTags(tags))
    }
}

/// Makes room for one more in each of these.
pub(crate) fn make_room(
    outgoing: &mut Vec<Vec<u8>>,
    scheduled: &mut Vec<Timeout>,
    decisions: &mut Decisions,
    said: &mut Vec<Body>,
) -> Result<(), AllocError>
    ensures outgoing { outgoing.new.items ≡ outgoing.old.items }
    ensures scheduled { scheduled.new.items ≡ scheduled.old.items }
    ensures decisions { decisions.new.bundles ≡ decisions.old.bundles }
    ensures said { said.new.items ≡ said.old.items }
    ensures room { OnOk result ((vec_len outgoing.new < vec_capacity outgoing.new) × (vec_len scheduled.new < vec_capacity scheduled.new)) }
    ensures places { OnOk result ((0 < decisions.new.room) × (vec_len said.new < vec_capacity said.new)) }
{
    outgoing.reserve(1)?;
    scheduled.reserve(1)?;
    decisions.reserve(1)?;
    said.reserve(1)
}

/// Adds to a list that has room what there is to add.
pub(crate) fn push_one<T>(list: &mut Vec<T>, item: Option<T>)
    requires { vec_len list.old < vec_capacity list.old }
    ensures { list.new.items ≡ list.old.items ++ option_to_list item }
{
    match item {
        Some(item) => list.push_reserved(item),
        None => {}
    }
}

/// Notes what a firing said, in room that was made before: an own message is kept to be sent again; a decision is kept
/// with the others, what it delivered leaves the queues, and the own messages of its height are let go.
pub(crate) fn note(
    said: Option<Said>,
    state: &State,
    decisions: &mut Decisions,
    mempool: &mut Mempool,
    own: &mut Vec<Body>,
)
    requires height { All (λ b. b.height ≡ length decisions.old.bundles) (decided_by said) }
    requires room { 0 < decisions.old.room }
    requires own { vec_len own.old < vec_capacity own.old }
    ensures decisions { decisions.new.bundles ≡ decisions.old.bundles ++ decided_by said }
    ensures narrow { All IsNarrow (decided_by said) }
    ensures queues { mempool.new ≡ cond (is_empty (decided_by said)) mempool.old (drop_delivered state.now.state.delivered mempool.old) }
    ensures own { own.new.items ≡ said_by said own.old.items }
{
    match said {
        None => {}
        Some(said) => match release(said) {
            Body::Bundle(bundle) => {
                decisions.keep_reserved(bundle);
                mempool.drop_delivered(state.frontier());
                own.clear();
            }
            body => own.push_reserved(body),
        },
    }
}
