ghost use Rattle.std.specs.Prelude.{◌≡◌, false, true, [], None, cond, map, is_none, option_map, IsSome, IfSome};
ghost use Rattle.transactions.specs.Grammar.{IsValue};
ghost use Rattle.protocol.specs.State.{Context};
ghost use Rattle.protocol.specs.Records.{record_of};
ghost use Rattle.protocol.specs.Rules.{holds};
ghost use Rattle.round_states.specs.Machine.{Agrees};
ghost use Rattle.round_states.specs.Plans.{says, applied, IsOfPlace};
ghost use Rattle.round_machine.specs.Naming.{rule_of, pick_in, IsPlaced, Serves};

use crate::same::assert_same;
use messages::{Body, Proposal, Step as VoteStep, Vote};
use powers::Powers;
use protocol::{Record, Refusal, Step, Timeout};
use round_machine::*;
use round_states::{Picked, Plan, Said, State, release};
use std::alloc::Global;
use std::process::Abort;
use transactions::{Duplicate, Id, Seq, Value, read_value, value_id};
use vote_journal::{Journal, Saved, spell_record};

mod scenes;
mod single;
mod tallies;

/// What a call that only memory can fail is expected to find.
const MEMORY: &str = "memory is left";

/// What a firing says. A journal in memory has it.
fn fire<R: Abort>(
    rt: &R,
    alloc: Global,
    state: &mut State,
    rule: Rule,
    input: Input,
) -> Option<Body>
    ghost g: { Context }
    requires agrees { Agrees g state.old }
    requires placed { IsPlaced state.old.state rule }
    requires holds { holds g state.old.state (rule_of state.old.state rule) ≡ true }
    requires serves { Serves g state.old rule input }
    ensures { Agrees g state.new }
{
    let plan = plan(state, rule, input).expect(rt, "there is a plan");
    carry_out(rt, alloc, state, plan)
}

/// Carries a plan out, and gives what it says.
fn carry_out<R: Abort>(rt: &R, alloc: Global, state: &mut State, plan: Plan) -> Option<Body>
    requires { IsOfPlace state.old plan.change (says plan) }
    ensures { state.new ≡ applied state.old plan }
{
    let Plan {
        entry,
        change,
        timeout: _,
    } = plan;
    state.make_room(&change).expect(rt, MEMORY);
    let saved = save(rt, alloc, state.me(), entry);
    body_in(state.apply(change, saved))
}

/// What may be let go, as a body.
fn body_in(said: Option<Said>) -> Option<Body> {
    match said {
        None => None,
        Some(said) => Some(release(said)),
    }
}

/// Saves what there is to save, in a journal of this validator.
fn save(rt: &impl Abort, alloc: Global, me: u16, entry: Option<Record>) -> Option<Saved>
    ensures { result ≡ option_map record_of entry }
{
    match entry {
        None => None,
        Some(entry) => Some(save_one(rt, alloc, me, entry)),
    }
}

/// Saves a record, in a journal of this validator.
fn save_one(rt: &impl Abort, alloc: Global, me: u16, entry: Record) -> Saved
    ensures { result ≡ record_of entry }
{
    let mut journal = Journal::in_memory(alloc, me).expect(rt, MEMORY);
    let spelled = spell_record(alloc, me, &entry).expect(rt, "it has a spelling");
    journal.save(entry, &spelled).expect(rt, "it is saved")
}

/// Four validators of power 1.
fn four(rt: &impl Abort, alloc: Global) -> Powers {
    let powers = vec![in alloc; 1, 1, 1, 1].expect(rt, MEMORY);
    Powers::new(powers).expect(rt, "they are powers")
}

/// A validator among four of power 1, to which every value's own tags are right, or none's are.
#[derive(Drop)]
struct Validator {
    alloc: Global,
    state: State,
    genuine: bool,
    own_tags: Seq<[u8; 32]>,
    ghost told: { state.genuine ≡ map (λ q. cond (is_none q.valid_round) genuine true) state.state.proposals },
}

impl Validator {
    #[tactic(auto, unfolding(protocol::specs::Restart::restart))]
    fn new(rt: &impl Abort, alloc: Global, me: u16, genuine: bool) -> Validator {
        let own_tags = vec![in alloc; [9u8; 32]].expect(rt, MEMORY);
        Validator {
            alloc,
            state: State::new(alloc, four(rt, alloc), me),
            genuine,
            own_tags: Seq::from_vec(own_tags),
        }
    }

    /// Takes a proposal in.
    #[tactic(auto, unfolding(protocol::specs::Values::id))]
    fn hear(&mut self, proposal: Proposal) -> Result<(), Refusal>
        requires { IsValue proposal.value }
    {
        let Ok(id) = value_id(self.alloc, &proposal.value) else {
            return Err(Refusal::OutOfMemory);
        };
        self.state.take_proposal(proposal, id, self.genuine)
    }

    /// Takes a vote in, with one tag.
    fn hear_vote(&mut self, vote: Vote, tags: Seq<[u8; 32]>) -> Result<(), Refusal> {
        self.state.take_vote(vote, tags)
    }

    /// What it picks of its clients' queues.
    fn pick(&self, rt: &impl Abort) -> Input
        ensures { IfSome (pick_in result) (λ p. IsValue p.value × (p.genuine ≡ self.now.genuine)) × IsSome (pick_in result) }
    {
        Input::Picked(Picked {
            value: value_of(rt, self.alloc, 1, b'p'),
            genuine: self.genuine,
        })
    }

    /// Fires the first enabled rule, if there is one. What is let go joins these bodies.
    fn step<R: Abort>(&mut self, rt: &R, bodies: &mut Vec<Body>) -> bool
        ghost g: { Context }
        requires { g ≡ record { powers = self.old.state.powers; me = self.old.state.me; genuine = λ _. self.old.genuine; vouches = λ _ _. false; certified = λ _. []; own_tags = λ _ _ _. self.old.own_tags } }
    {
        let rule = match enabled(&self.state) {
            None => return false,
            Some(rule) => rule,
        };
        let input = match rule {
            Rule::Start | Rule::SkipRound(_) => self.pick(rt),
            Rule::Decide(_) => Input::OwnTags(self.own_tags.copy(self.alloc).expect(rt, MEMORY)),
            _ => Input::Nothing,
        };
        keep(
            rt,
            fire(rt, self.alloc, &mut self.state, rule, input),
            bodies,
        );
        true
    }

    /// Fires the rule of a timeout of the present height and round, if it holds. What is let go joins these bodies.
    fn time_out<R: Abort>(&mut self, rt: &R, kind: Step, bodies: &mut Vec<Body>) -> bool
        ghost g: { Context }
        requires { g ≡ record { powers = self.old.state.powers; me = self.old.state.me; genuine = λ _. self.old.genuine; vouches = λ _ _. false; certified = λ _. []; own_tags = λ _ _ _. self.old.own_tags } }
    {
        let timeout = Timeout {
            kind,
            height: self.state.height(),
            round: self.state.round(),
        };
        if !holds_timeout(&self.state, timeout) {
            return false;
        }
        let input = self.pick(rt);
        let body = fire(
            rt,
            self.alloc,
            &mut self.state,
            Rule::TimedOut(timeout),
            input,
        );
        keep(rt, body, bodies);
        true
    }

    /// Fires until no rule is enabled. What is let go joins these bodies.
    fn settle<R: Abort>(&mut self, rt: &R, bodies: &mut Vec<Body>) {
        for _ in 0..100 {
            if !self.step(rt, bodies) {
                return;
            }
        }
        panic!(rt; "it never settles");
    }

    /// Fires until no rule is enabled, for nobody to hear.
    fn settle_unheard<R: Abort>(&mut self, rt: &R) {
        let mut bodies = Vec::new(self.alloc);
        self.settle(rt, &mut bodies);
    }
}

/// Keeps what is let go, if anything.
fn keep(rt: &impl Abort, body: Option<Body>, bodies: &mut Vec<Body>) {
    if let Some(body) = body {
        assert!(rt; bodies.push(body).is_ok());
    }
}

/// What a proposer says as its round begins: its proposal's round, valid round and value, and its
/// prevote.
type Opening = (u32, Option<u32>, Option<Id>, Vote);

fn opening(rt: &impl Abort, alloc: Global, bodies: &[Body]) -> Opening {
    let [Body::Proposal(first), Body::Vote(last)] = bodies else {
        panic!(rt; "no proposal and prevote");
    };
    let id = value_id(alloc, &first.value).expect(rt, "it has a spelling");
    (first.round, first.valid_round, Some(id), *last)
}

/// The one transaction of client 7 with this number, which asks for this byte under zero tags.
fn value_of(rt: &impl Abort, alloc: Global, number: u8, byte: u8) -> Value
    ensures { IsValue result }
{
    let mut bytes = [0u8; 146];
    bytes[..18].copy_from_slice(&[0, 1, 1, 0, 7, 0, 0, 0, 0, 0, 0, 0, number, 0, 0, 1, byte, 4]);
    read_value(alloc, &bytes).expect(rt, "it spells a value")
}

/// The id of the value with this byte, or nil.
fn id_of(rt: &impl Abort, alloc: Global, byte: Option<u8>) -> Option<Id> {
    match byte {
        None => None,
        Some(byte) => {
            let value = value_of(rt, alloc, 1, byte);
            Some(value_id(alloc, &value).expect(rt, "it has a spelling"))
        }
    }
}

/// A vote of height 0.
fn vote(step: VoteStep, round: u32, sender: u16, content: Option<Id>) -> Vote {
    Vote {
        step,
        height: 0,
        round,
        sender,
        content,
    }
}

/// Hears the proposal of a round at height 0.
fn hear_proposal(
    rt: &impl Abort,
    validator: &mut Validator,
    round: u32,
    value: Value,
    valid_round: Option<u32>,
)
    requires { IsValue value }
{
    let proposal = Proposal {
        height: 0,
        round,
        sender: validator.state.powers().proposer(0, round),
        valid_round,
        value,
    };
    validator.hear(proposal).expect(rt, "it is taken in");
}

/// Hears votes of the validators from one up to another at height 0.
fn hear_votes(
    rt: &impl Abort,
    validator: &mut Validator,
    step: VoteStep,
    round: u32,
    senders: (u16, u16),
    content: Option<Id>,
) {
    for sender in senders.0..senders.1 {
        let tag = vec![in validator.alloc; [8u8; 32]].expect(rt, MEMORY);
        validator
            .hear_vote(vote(step, round, sender, content), Seq::from_vec(tag))
            .expect(rt, "it is taken in");
    }
}
