//! The plans of a state: what the rules save, change and schedule there. Making one changes nothing.
//! Line numbers are those of algorithm 1 of arXiv 1807.04938.

ghost use Rattle.std.specs.Prelude.{◌≡◌, ◌<◌, ◌^◌, ◌≤◌, ◌||◌, ◌++◌, ℕ, true, false, Some, None, IsSome, IfSome, IfOk, length, cond, is_some};
ghost use Rattle.std.specs.Option.{option_copied};
ghost use Rattle.powers.specs.Power.{proposer};
ghost use Rattle.transactions.specs.Grammar.{IsValue};
ghost use Rattle.messages.specs.Grammar.{IsBody, IsVote};
ghost use Rattle.proposal_validity.specs.Standing.{IsFrontierOf};
ghost use Rattle.protocol.specs.Values.{id, items, valid};
ghost use Rattle.protocol.specs.Messages.{Proposal as Offered, step_eq, Own, Proposing, Prevoting, Precommitting, Decided};
ghost use Rattle.protocol.specs.Records.{record_of};
ghost use Rattle.protocol.specs.declared.types.Step.TheVariants as at_steps;
ghost use Rattle.protocol.specs.State.{Context, Lock};
ghost use Rattle.protocol.specs.Rules.{proposal_of, changed, started, decided, released_by};
ghost use Rattle.round_states.specs.Machine.{Agrees, genuine_of};
ghost use Rattle.round_states.specs.Plans.{says, moved, applied, IsOfPlace};
ghost use Rattle.round_states.specs.Steps.{proposal_at, picked_value, IsPick, IsPickTold, opening, opening_timeout, certificate_with};

use crate::plans::{Change, Picked, Plan};
use crate::state::State;
use messages::{Body, Bundle, Proposal, Step as VoteStep, Vote};
use proposal_validity::Frontier;
use protocol::{Act, OwnMessage, Record, Step, Timeout};
use std::alloc::AllocError;
use transactions::{Duplicate, Id, Named, Value, value_id};

impl State {
    /// The own prevote in the present round, for an id or for nil (lines 24 to 27, 30 to 33, 59 and 60).
    pub fn plan_prevote(&self, content: Option<Id>) -> Plan
        requires begun { self.now.state.begun ≡ true }
        requires step { self.now.state.step ≡ at_steps.Propose }
        ensures says { let s = self.now.state in says result ≡ Some (Own s.height s.round (Prevoting content)) }
        ensures moves { let s = self.now.state in moved s result.change ≡ record s { step = at_steps.Prevote } }
        ensures timeout { result.timeout ≡ None }
        ensures place { IsOfPlace self.now result.change (says result) }
        ensures agrees { (g : Context) → Agrees g self.now → Agrees g (applied self.now result) }
    {
        Plan {
            entry: Some(self.own(Act::Prevoting(content))),
            change: Change::Prevote(self.own_vote(VoteStep::Prevote, content)),
            timeout: None,
        }
    }

    /// The own precommit for nil in the present round (lines 45, 46, 63 and 64).
    pub fn plan_precommit(&self) -> Plan
        requires begun { self.now.state.begun ≡ true }
        requires step { self.now.state.step ≡ at_steps.Prevote }
        ensures says { let s = self.now.state in says result ≡ Some (Own s.height s.round (Precommitting None)) }
        ensures moves { let s = self.now.state in moved s result.change ≡ record s { step = at_steps.Precommit } }
        ensures timeout { result.timeout ≡ None }
        ensures place { IsOfPlace self.now result.change (says result) }
        ensures agrees { (g : Context) → Agrees g self.now → Agrees g (applied self.now result) }
    {
        Plan {
            entry: Some(self.own(Act::Precommitting(None))),
            change: Change::Precommit(self.own_vote(VoteStep::Precommit, None)),
            timeout: None,
        }
    }

    /// A kept proposal's value has a quorum of prevotes in this round: it is the valid value from then on, and in the step
    /// of prevotes it is locked and precommitted (lines 37 to 43).
    #[tactic(auto, unfolding(protocol::specs::Values::id))]
    pub fn plan_lock(&self, place: usize) -> Result<Plan, AllocError>
        requires begun { self.now.state.begun ≡ true }
        requires step { step_eq self.now.state.step at_steps.Propose ≡ false }
        requires place { place < length self.now.state.proposals }
        ensures says { let s = self.now.state in let v = (proposal_at s place).value in IfOk result (λ p. says p ≡ cond (step_eq s.step at_steps.Prevote) (Some (Own s.height s.round (Precommitting (Some v)))) None) }
        ensures moves { let s = self.now.state in IfOk result (λ p. moved s p.change ≡ changed s (Lock (proposal_at s place).value)) }
        ensures timeout { IfOk result (λ p. p.timeout ≡ None) }
        ensures place { IfOk result (λ p. IsOfPlace self.now p.change (says p)) }
        ensures agrees { IfOk result (λ p. (g : Context) → Agrees g self.now → Agrees g (applied self.now p)) }
    {
        let found = self.named(place)?;
        match self.step() {
            Step::Prevote => {
                let vote = self.own_vote(VoteStep::Precommit, Some(found.id()));
                let said = self.named(place)?;
                Ok(Plan {
                    entry: Some(self.own(Act::Precommitting(Some(said)))),
                    change: Change::Lock(vote, self.named(place)?, found),
                    timeout: None,
                })
            }
            Step::Propose | Step::Precommit => Ok(Plan {
                entry: None,
                change: Change::Find(found),
                timeout: None,
            }),
        }
    }

    /// The timeout of prevotes is scheduled in this round (line 35).
    pub fn plan_await_prevotes(&self) -> Plan
        ensures says { says result ≡ None }
        ensures moves { let s = self.now.state in moved s result.change ≡ record s { prevotes_awaited = true } }
        ensures timeout { let s = self.now.state in result.timeout ≡ Some (record { kind = at_steps.Prevote; height = s.height; round = s.round }) }
        ensures place { IsOfPlace self.now result.change (says result) }
        ensures agrees { (g : Context) → Agrees g self.now → Agrees g (applied self.now result) }
    {
        Plan {
            entry: None,
            change: Change::AwaitPrevotes,
            timeout: Some(self.timeout_of(Step::Prevote, self.round())),
        }
    }

    /// The timeout of precommits is scheduled in this round (line 48).
    pub fn plan_await_precommits(&self) -> Plan
        ensures says { says result ≡ None }
        ensures moves { let s = self.now.state in moved s result.change ≡ record s { precommits_awaited = true } }
        ensures timeout { let s = self.now.state in result.timeout ≡ Some (record { kind = at_steps.Precommit; height = s.height; round = s.round }) }
        ensures place { IsOfPlace self.now result.change (says result) }
        ensures agrees { (g : Context) → Agrees g self.now → Agrees g (applied self.now result) }
    {
        Plan {
            entry: None,
            change: Change::AwaitPrecommits,
            timeout: Some(self.timeout_of(Step::Precommit, self.round())),
        }
    }

    /// The value of a kept proposal, with its id.
    #[tactic(auto, unfolding(protocol::specs::Values::id))]
    fn named(&self, place: usize) -> Result<Named, AllocError>
        requires { place < length self.now.state.proposals }
        ensures named { IfOk result (λ named. named ≡ (proposal_at self.now.state place).value) }
        ensures fits { IsValue (proposal_at self.now.state place).value }
    {
        let kept = &self.kept[place];
        Ok(Named::new(kept.proposal.value.copy(self.alloc)?, kept.id))
    }

    /// An own message of the present round, to be saved.
    fn own(&self, act: Act) -> Record
        ensures { record_of result ≡ record_of (Record.Own (record { height = self.now.state.height; round = self.now.state.round; act = act })) }
    {
        Record::Own(OwnMessage {
            height: self.height,
            round: self.round(),
            act,
        })
    }

    /// The own vote of the present round.
    fn own_vote(&self, step: VoteStep, content: Option<Id>) -> Vote
        ensures vote { result ≡ record { step = step; height = self.now.state.height; round = self.now.state.round; sender = self.now.me; content = content } }
        ensures spelled { IsVote result }
    {
        Vote {
            step,
            height: self.height(),
            round: self.round(),
            sender: self.me(),
            content,
        }
    }

    /// A timeout of the present height.
    fn timeout_of(&self, kind: Step, round: u32) -> Timeout
        ensures { result ≡ record { kind = kind; height = self.now.state.height; round = round } }
    {
        Timeout {
            kind,
            height: self.height,
            round,
        }
    }
}

impl State {
    /// The beginning of a round, which has to be a later one than the present (lines 11 to 21). Its proposer
    /// proposes the valid value with its round, or the picked one where there is none; any other schedules the timeout
    /// of proposals.
    pub fn plan_start(&self, round: u32, picked: Option<Picked>) -> Result<Plan, AllocError>
        requires later { self.now.state.begun ≡ true → self.now.state.round < round }
        requires pick { IsPick picked }
        requires some { proposer self.now.powers self.now.state.height round ≡ self.now.me → self.now.state.valid_value ≡ None → IsSome picked }
        ensures says { IfOk result (λ p. says p ≡ opening self.now round (picked_value picked)) }
        ensures moves { IfOk result (λ p. moved self.now.state p.change ≡ started self.now.state round) }
        ensures timeout { IfOk result (λ p. p.timeout ≡ opening_timeout self.now round) }
        ensures place { IfOk result (λ p. IsOfPlace self.now p.change (says p)) }
        ensures agrees { IfOk result (λ p. (g : Context) → Agrees g self.now → IsPickTold g picked → Agrees g (applied self.now p)) }
    {
        if self.powers().proposer(self.height, round) != self.me() {
            return Ok(Plan {
                entry: None,
                change: Change::Begin(round),
                timeout: Some(self.timeout_of(Step::Propose, round)),
            });
        }
        let (valid_round, value, genuine) = self.offer(picked.as_ref());
        let said = value.copy(self.alloc)?;
        let proposal = Proposal {
            height: self.height,
            round,
            sender: self.me(),
            valid_round,
            value: value.copy(self.alloc)?,
        };
        let id = self.offered_id(value)?;
        let copy = proposal.copy(self.alloc)?;
        let found = self.found(copy, id, genuine);
        Ok(Plan {
            entry: Some(Record::Own(OwnMessage {
                height: self.height,
                round,
                act: Act::Proposing(valid_round, said),
            })),
            change: Change::Propose(proposal, found),
            timeout: None,
        })
    }

    /// What the own number proposes: the valid value and its round, else the picked value; and whether the own tags of its
    /// transactions are right, of which nobody asks where there is a valid round.
    fn offer<'a>(&'a self, picked: Option<&'a Picked>) -> (Option<u32>, &'a Value, bool)
        requires pick { IsPick (option_copied picked) }
        requires some { self.now.state.valid_value ≡ None → IsSome (option_copied picked) }
        ensures proposes { (r : ℕ) → proposal_of self.now.state r (picked_value (option_copied picked.entry)) self.now.state.valid_value ≡ Own self.now.state.height r (Proposing result.0 result.1.now) }
        ensures fits { IsValue result.1.now }
        ensures valid { IfSome self.now.state.valid_value (λ l. l.value ≡ result.1.now) }
        ensures earlier { IfSome result.0 (λ r. (self.now.state.begun ≡ true) × (r ≤ self.now.state.round)) }
        ensures told { (g : Context) (q : Offered) → IsPickTold g (option_copied picked.entry) → q.valid_round ≡ result.0 → q.value ≡ result.1.now → (result.2 || is_some q.valid_round) ≡ genuine_of g q }
    {
        match (&self.valid_value, picked) {
            (Some(found), _) => (Some(found.round), found.value.value(), true),
            (None, Some(picked)) => (None, &picked.value, picked.genuine),
            (None, None) => unreachable!(),
        }
    }

    /// The id of what the own number proposes. That of the valid value was found before.
    #[tactic(auto, unfolding(protocol::specs::Values::id))]
    fn offered_id(&self, value: &Value) -> Result<Id, AllocError>
        requires fits { IsValue value.now }
        requires valid { IfSome self.now.state.valid_value (λ l. l.value ≡ value.now) }
        ensures { IfOk result (λ x. x ≡ id value.now) }
    {
        match &self.valid_value {
            Some(found) => Ok(found.value.id()),
            None => value_id(self.alloc, value).map_err(|_| AllocError),
        }
    }
}

impl State {
    /// The decision of the height by a kept proposal that a quorum precommitted in its round (lines 51 to 53). The own
    /// precommit of the certificate gets these tags, one for each validator.
    pub fn plan_decision(&self, place: usize, own_tags: &[[u8; 32]]) -> Result<Plan, AllocError>
        requires place { place < length self.now.state.proposals }
        requires room { self.now.state.height < 2 ^ 48 }
        requires valid { valid self.now.state.delivered (proposal_at self.now.state place).value ≡ true }
        ensures says { let s = self.now.state in let q = proposal_at s place in IfOk result (λ p. says p ≡ Some (Decided (record { height = s.height; sender = self.now.me; round = q.round; id = id q.value; value = q.value; precommits = certificate_with self.now own_tags.now q.round (id q.value) }))) }
        ensures moves { let s = self.now.state in IfOk result (λ p. moved s p.change ≡ decided s (proposal_at s place).value) }
        ensures timeout { IfOk result (λ p. p.timeout ≡ None) }
        ensures place { IfOk result (λ p. IsOfPlace self.now p.change (says p)) }
        ensures agrees { IfOk result (λ p. (g : Context) → Agrees g self.now → Agrees g (applied self.now p)) }
    {
        let kept = &self.kept[place];
        let (round, id) = (kept.proposal.round, kept.id);
        let value = kept.proposal.value.copy(self.alloc)?;
        let precommits = self.certificate(round, id, own_tags)?;
        self.plan_delivery(Bundle {
            height: self.height,
            sender: self.me(),
            round,
            id,
            value,
            precommits,
        })
    }

    /// The decision of the height by a bundle that another validator collected (lines 51 to 53). The bundle is kept as the
    /// own number's.
    pub fn plan_decision_by_bundle(&self, mut bundle: Bundle) -> Result<Plan, AllocError>
        requires room { self.now.state.height < 2 ^ 48 }
        requires fits { IsValue bundle.value }
        requires valid { valid self.now.state.delivered bundle.value ≡ true }
        ensures says { IfOk result (λ p. says p ≡ Some (Decided (record bundle { sender = self.now.me }))) }
        ensures moves { IfOk result (λ p. moved self.now.state p.change ≡ decided self.now.state bundle.value) }
        ensures timeout { IfOk result (λ p. p.timeout ≡ None) }
        ensures place { IfOk result (λ p. IsOfPlace self.now p.change (says p)) }
        ensures agrees { IfOk result (λ p. (g : Context) → Agrees g self.now → Agrees g (applied self.now p)) }
    {
        bundle.sender = self.me();
        self.plan_delivery(bundle)
    }

    /// A decision is saved, and its value delivered, which may be delivered next: the next height begins, of which no round
    /// has begun.
    fn plan_delivery(&self, bundle: Bundle) -> Result<Plan, AllocError>
        requires room { self.now.state.height < 2 ^ 48 }
        requires fits { IsValue bundle.value }
        requires valid { valid self.now.state.delivered bundle.value ≡ true }
        ensures says { IfOk result (λ p. says p ≡ Some (Decided bundle)) }
        ensures moves { IfOk result (λ p. moved self.now.state p.change ≡ decided self.now.state bundle.value) }
        ensures timeout { IfOk result (λ p. p.timeout ≡ None) }
        ensures place { IfOk result (λ p. IsOfPlace self.now p.change (says p)) }
        ensures agrees { IfOk result (λ p. (g : Context) → Agrees g self.now → Agrees g (applied self.now p)) }
    {
        let value = bundle.value.copy(self.alloc)?;
        let frontier = self.extended(&value)?;
        Ok(Plan {
            entry: Some(Record::Decided(bundle)),
            change: Change::Decide(value, frontier),
            timeout: None,
        })
    }

    /// The frontier after a value that may be delivered next.
    fn extended(&self, value: &Value) -> Result<Frontier, AllocError>
        requires fits { IsValue value.now }
        requires valid { valid self.now.state.delivered value.now ≡ true }
        ensures { IfOk result (λ f. IsFrontierOf (self.now.state.delivered ++ items value.now) f) }
    {
        let mut frontier = self.frontier.copy(self.alloc)?;
        frontier.extend(value)?;
        Ok(frontier)
    }
}

impl State {
    /// The message that a plan lets go once its record is saved: none for a decision, and for a plan that says nothing. It
    /// has a spelling, and takes no memory: the value of a proposal is shared.
    #[tactic(auto, unfolding(protocol::specs::Values::id))]
    pub fn message_of(&self, plan: &Plan) -> Result<Option<Body>, AllocError>
        requires { IsOfPlace self.now plan.now.change (says plan.now) }
        ensures body { IfOk result (λ body. body ≡ released_by self.now.me (says plan.now)) }
        ensures spelled { IfOk result (λ body. IfSome body IsBody) }
    {
        match &plan.change {
            Change::Prevote(vote) | Change::Precommit(vote) | Change::Lock(vote, _, _) => {
                Ok(Some(Body::Vote(*vote)))
            }
            Change::Propose(proposal, _) => { Ok(Some(Body::Proposal(proposal.copy(self.alloc)?))) }
            Change::Find(_)
            | Change::Begin(_)
            | Change::AwaitPrevotes
            | Change::AwaitPrecommits
            | Change::Decide(_, _) => Ok(None),
        }
    }
}
