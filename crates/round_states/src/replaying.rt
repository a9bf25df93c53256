//! What a validator that comes back makes of its journal: the decisions in order of height, and then the own messages
//! of the height behind the last, in the order in which they were saved.

ghost use Rattle.std.specs.Prelude.{◌≡◌, ◌<◌, ◌^◌, ◌∷◌, true, None, OnOk, OnErr, List, option_map};
ghost use Rattle.transactions.specs.Grammar.{IsValue};
ghost use Rattle.protocol.specs.Values.{id, valid};
ghost use Rattle.protocol.specs.Messages.{Record as Entry, Own, Decided, Bundle, OfVote, precommit, Precommitting};
ghost use Rattle.protocol.specs.Records.{act_of};
ghost use Rattle.protocol.specs.Restart.{restart, lock_by};
ghost use Rattle.protocol.specs.Rules.{keeping, decided};
ghost use Rattle.protocol.specs.State.{Context, fresh};
ghost use Rattle.round_states.specs.Machine.{Agrees};
ghost use Rattle.round_states.specs.Replaying.{with_own, IsActTold, HasProposedValue};
ghost use Rattle.round_states.specs.Steps.{at};
ghost use Rattle.round_states.specs.Taking.{with_proposal};

use crate::rounds::Stage;
use crate::said::content_of;
use crate::state::State;
use messages::{Proposal, Step as VoteStep, Vote};
use protocol::{Act, OwnMessage, Step, ValueAt};
use std::alloc::AllocError;
use transactions::{Duplicate, Id, Named, Value, value_id};

impl State {
    /// The next height begins behind a decided value that was read back, which may be delivered next. Nothing has come
    /// at this height, and none of its rounds has begun.
    pub fn replay_decision(&mut self, value: &Value) -> Result<(), AllocError>
        requires fresh { self.old.state ≡ fresh self.old.state.delivered self.old.state.height }
        requires room { self.old.state.height < 2 ^ 48 }
        requires fits { IsValue value.now }
        requires valid { valid self.old.state.delivered value.now ≡ true }
        ensures ok { OnOk result (self.new ≡ at self.old (decided self.old.state value.now)) }
        ensures restarts { OnOk result ((before : List Entry) (b : Bundle) → b.value ≡ value.now → self.old.state ≡ restart self.old.me before → self.new.state ≡ restart self.old.me (Decided b ∷ before)) }
        ensures agrees { OnOk result ((g : Context) → Agrees g self.old → Agrees g self.new) }
        ensures err { OnErr result (self.new ≡ record self.old { room = None }) }
    {
        self.tally.forget_reserved();
        self.room = None;
        let value = value.copy(self.alloc)?;
        self.decided.reserve(1)?;
        self.frontier.extend(&value)?;
        self.decided.push_reserved(value);
        self.height += 1;
        Ok(())
    }

    /// An own message of the present height that was read back is what the validator said last: it stands at the
    /// message's step of its round, where it may not say it again. A precommit for a value has locked it. `genuine` says
    /// of a proposal whether the own tags of its transactions are right: nobody asks of one with a valid round.
    ///
    /// It is for a state that was made of a journal alone, where no value was found valid.
    pub fn replay_own(&mut self, message: &OwnMessage, genuine: bool) -> Result<(), AllocError>
        requires height { message.now.height ≡ self.old.state.height }
        requires alone { self.old.state.valid_value ≡ None }
        requires fits { HasProposedValue (act_of message.now.act) }
        ensures ok { OnOk result (self.new ≡ with_own self.old message.now.round (act_of message.now.act) genuine) }
        ensures restarts { OnOk result ((before : List Entry) → self.old.state ≡ restart self.old.me before → self.new.state ≡ restart self.old.me (Own message.now.height message.now.round (act_of message.now.act) ∷ before)) }
        ensures agrees { OnOk result ((g : Context) → Agrees g self.old → IsActTold g (act_of message.now.act) genuine → Agrees g self.new) }
        ensures err { OnErr result (self.new ≡ record self.old { room = None }) }
    {
        self.forget_room();
        let round = message.round;
        let step = match &message.act {
            Act::Proposing(valid_round, value) => {
                self.keep_own_proposal(round, *valid_round, value, genuine)?;
                Step::Propose
            }
            Act::Prevoting(content) => {
                self.keep_own_vote(VoteStep::Prevote, round, *content)?;
                Step::Prevote
            }
            Act::Precommitting(choice) => {
                self.keep_own_precommit(round, choice)?;
                Step::Precommit
            }
        };
        self.stand_at(round, step);
        Ok(())
    }

    /// Keeps the own proposal of a round.
    #[tactic(auto, unfolding(protocol::specs::Values::id))]
    fn keep_own_proposal(
        &mut self,
        round: u32,
        valid_round: Option<u32>,
        value: &Value,
        genuine: bool,
    ) -> Result<(), AllocError>
        requires fits { IsValue value.now }
        ensures ok { OnOk result (self.new ≡ with_proposal self.old (record { height = self.old.state.height; round = round; sender = self.old.me; valid_round = valid_round; value = value.now }) genuine) }
        ensures err { OnErr result (self.new ≡ record self.old { room = None }) }
    {
        self.forget_room();
        let id = value_id(self.alloc, value).map_err(|_| AllocError)?;
        let proposal = Proposal {
            height: self.height,
            round,
            sender: self.me(),
            valid_round,
            value: value.copy(self.alloc)?,
        };
        self.keep_proposal(proposal, id, genuine)
    }

    /// Keeps the own vote of a round.
    fn keep_own_vote(
        &mut self,
        step: VoteStep,
        round: u32,
        content: Option<Id>,
    ) -> Result<(), AllocError>
        ensures ok { OnOk result (self.new ≡ at self.old (keeping self.old.state (OfVote (record { step = step; height = self.old.state.height; round = round; sender = self.old.me; content = content })))) }
        ensures err { OnErr result (self.new ≡ self.old) }
    {
        let vote = Vote {
            step,
            height: self.height,
            round,
            sender: self.me(),
            content,
        };
        self.tally.keep(vote)?;
        self.room = None;
        Ok(())
    }

    /// Keeps the own precommit of a round, and locks its value.
    fn keep_own_precommit(&mut self, round: u32, choice: &Option<Named>) -> Result<(), AllocError>
        ensures ok { let s = self.old.state in OnOk result (self.new ≡ at self.old (keeping (record s { lock = lock_by round (Precommitting choice.now) s.lock }) (OfVote (precommit s.height round self.old.me (option_map id choice.now))))) }
        ensures err { OnErr result (self.new ≡ self.old) }
    {
        let locked = match choice {
            None => None,
            Some(named) => Some(ValueAt {
                round,
                value: named.copy(self.alloc)?,
            }),
        };
        self.keep_own_vote(VoteStep::Precommit, round, content_of(choice))?;
        if locked.is_some() {
            self.lock = locked;
        }
        Ok(())
    }

    /// The round is the present one, in this step.
    fn stand_at(&mut self, round: u32, step: Step)
        requires { self.old.state.valid_value ≡ None }
        ensures { self.new ≡ at self.old (record self.old.state { begun = true; round = round; step = step }) }
    {
        self.tally.forget_reserved();
        self.room = None;
        self.stage = Stage::read_back(self.tally.me(), self.height, round, step);
    }
}
