//! What comes is taken in, or refused.

ghost use Rattle.std.specs.Prelude.{◌≡◌, ℕ, Bool, List, ◌++◌, ◌∷◌, ◌||◌, [], true, false, None, Err, IfOk, IfErr, IfSome, OnOk, OnErr, is_some, map, nat_lt, option_to_list};
ghost use Rattle.transactions.specs.Grammar.{IsTxBody, IsValue, AreTags};
ghost use Rattle.messages.specs.Grammar.{IsBundle, body_spelling};
ghost use Rattle.protocol.specs.Values.{id as id_of};
ghost use Rattle.protocol.specs.Tags.{Setting, Validator, right, tx_is_right};
ghost use Rattle.protocol.specs.Rings.{IsRingOf};
ghost use Rattle.protocol.specs.Messages.{OfProposal, OfVote, OfAsk};
ghost use Rattle.protocol.specs.State.{Node, DecideByBundle};
ghost use Rattle.protocol.specs.Rules.{holds, keeping};
ghost use Rattle.protocol.specs.Queues.{queued};
ghost use Rattle.protocol.specs.Arrivals.{kept_message, replies, bundles_of, received, firing};
ghost use Rattle.protocol.specs.Refusals.{first_cause, answering, NotQueued, tx_causes, proposal_causes, vote_causes, ask_causes, bundle_causes};
ghost use Rattle.frame_admission.specs.Gate.{gate_causes, state_causes};
ghost use Rattle.frame_admission.specs.Examined.{IsLawful, found_of};
ghost use Rattle.frame_admission.specs.declared.examined.Found.TheVariants as founds;
ghost use Rattle.round_machine.specs.Bundling.{Came};
ghost use Rattle.node_core.specs.Core.{Stands, setting_of, context_of, frame_by};
ghost use Rattle.protocol.specs.Answers.{IsAnswer};
ghost use Rattle.node_core.specs.Calls.{IsReceived, Leaves, IsRefused, IsUnfired, IsBeside, HasFiredOnce, TellsJournal};

use crate::carrying::Spelled;
use crate::firing::{make_room, note, push_one};
use crate::node::NodeCore;
use frame_admission::{Found, InTurn, LetIn, Tagger, frame_with};
use height_catchup::{certified, judge};
use messages::{Ask, Body, Bundle, Message, Proposal, Vote};
use protocol::{MOST_HEIGHT, Refusal};
use round_machine::plan_by_bundle;
use state_journal::{Fired, carry_out};
use std::alloc::AllocError;
use transactions::{Duplicate, Id, Seq, Tx};
use vote_journal::Store;

impl<S: Store + Drop> NodeCore<S> {
    /// Takes in a message that was let in, or tells the first cause against it.
    pub(crate) fn take<T: Tagger>(&mut self, tagger: &T, let_in: LetIn) -> Result<(), Refusal>
        requires lawful { IsLawful let_in }
        requires admitted { first_cause (gate_causes (setting_of self.old) self.old.machine.me let_in.message.body let_in.message.tags) ≡ None }
        requires found { (c : Setting) (p : ℕ) → IsRingOf c p self.old.ring → let_in.found ≡ found_of c p let_in.message let_in.message.body }
        requires running { self.old.journal.failed ≡ false }
        ensures answer { (n : Node) → Stands n self.old → IsAnswer (first_cause (state_causes (setting_of self.old) self.old.machine.me n let_in.message let_in.message.body)) result }
        ensures ok { OnOk result ((n : Node) → Stands n self.old → IsReceived n let_in.message self.old self.new) }
        ensures broken { result ≡ Err Refusal.JournalFailed → (n : Node) → Stands n self.old → Leaves self.old.machine.powers self.old.machine.me n.journal (option_to_list (received (setting_of self.old) self.old.machine.me n let_in.message let_in.message.body).wrote) self.new.journal }
        ensures fired { self.new.fired ≡ self.old.fired }
        ensures journal { TellsJournal result self.old.journal self.new.journal }
        ensures err { IfErr result (λ r. IsRefused r self.old self.new) }
    {
        let LetIn {
            message: Message { body, tags },
            found,
        } = let_in;
        match body {
            Body::Tx(tx) => self.take_tx(tx, tags, is_right(found)),
            Body::Proposal(proposal) => self.take_proposal(proposal, id(found)),
            Body::Vote(vote) => self.take_vote(vote, tags),
            Body::Ask(ask) => self.take_ask(tagger, ask),
            Body::Bundle(bundle) => self.take_bundle(bundle),
        }
    }

    /// A transaction is queued, with the message's tags.
    fn take_tx(&mut self, tx: Tx, tags: Seq<[u8; 32]>, is_right: bool) -> Result<(), Refusal>
        requires body { IsTxBody tx }
        requires tags { AreTags tags }
        requires right { (c : Setting) (p : ℕ) → IsRingOf c p self.old.ring → is_right ≡ tx_is_right c p (record tx { tags = tags }) }
        ensures answer { (n : Node) → Stands n self.old → IsAnswer (first_cause (answering NotQueued (tx_causes (setting_of self.old) self.old.machine.me n.state.delivered n.queues (record tx { tags = tags })))) result }
        ensures ok { OnOk result (self.new ≡ record self.old { queues = queued (record tx { tags = tags }) self.old.queues }) }
        ensures journal { TellsJournal result self.old.journal self.new.journal }
        ensures err { OnErr result (self.new ≡ self.old) }
    {
        let tx = Tx { tags, ..tx };
        let frontier = self.state.frontier();
        Ok(
            self.mempool
                .submit_found(tx, is_right, &self.ring, frontier)?,
        )
    }

    /// A vote is kept, with its tags.
    fn take_vote(&mut self, vote: Vote, tags: Seq<[u8; 32]>) -> Result<(), Refusal>
        requires tags { AreTags tags }
        requires right { right (setting_of self.old) self.old.machine.me (Validator vote.sender) (body_spelling (OfVote vote)) tags ≡ true }
        ensures answer { IsAnswer (first_cause (vote_causes self.old.machine.me self.old.machine.state vote)) result }
        ensures ok { OnOk result (self.new.machine.state ≡ kept_message self.old.machine.state (record { body = OfVote vote; tags = tags }) (OfVote vote)) }
        ensures beside { IsBeside self.old self.new }
        ensures journal { TellsJournal result self.old.journal self.new.journal }
        ensures err { OnErr result (self.new ≡ self.old) }
    {
        self.state.take_vote(vote, tags)?;
        Ok(())
    }

    /// A proposal is kept, with the answer whether its transactions' own tags are right.
    fn take_proposal(&mut self, proposal: Proposal, id: Id) -> Result<(), Refusal>
        requires fits { IsValue proposal.value }
        requires id { id ≡ id_of proposal.value }
        ensures answer { IsAnswer (first_cause (proposal_causes self.old.machine.powers self.old.machine.me self.old.machine.state proposal)) result }
        ensures ok { OnOk result (self.new.machine.state ≡ keeping self.old.machine.state (OfProposal proposal)) }
        ensures beside { IsBeside self.old self.new }
        ensures journal { TellsJournal result self.old.journal self.new.journal }
        ensures err { OnErr result (self.new ≡ self.old) }
    {
        self.state.check_proposal(&proposal)?;
        let genuine = self.is_genuine(&proposal);
        self.state.take_proposal(proposal, id, genuine)?;
        Ok(())
    }

    /// Whether the own tags of a proposal's transactions are right. Of one with a valid round nobody asks.
    fn is_genuine(&self, proposal: &Proposal) -> bool
        requires { IsValue proposal.now.value }
        ensures { (result || is_some proposal.now.valid_round) ≡ ((context_of self.now).genuine proposal.now.value || is_some proposal.now.valid_round) }
    {
        match proposal.valid_round {
            Some(_) => true,
            None => self.mempool.is_genuine(&self.ring, &proposal.value),
        }
    }

    /// An ask for a height below the own one is answered by its decision.
    fn take_ask<T: Tagger>(&mut self, tagger: &T, ask: Ask) -> Result<(), Refusal>
        ensures answer { IsAnswer (first_cause (ask_causes self.old.machine.state ask)) result }
        ensures ok { OnOk result ((n : Node) → Stands n self.old → self.new ≡ record self.old { outgoing = self.old.outgoing ++ map (frame_by self.old) (replies n (OfAsk ask)) }) }
        ensures fired { self.new.fired ≡ self.old.fired }
        ensures journal { TellsJournal result self.old.journal self.new.journal }
        ensures err { OnErr result (self.new ≡ self.old) }
    {
        match self.frame_of_decision(tagger, ask.height)? {
            None => Err(Refusal::OtherHeight),
            Some(frame) => {
                self.outgoing.reserve(1)?;
                self.outgoing.push_reserved(frame);
                Ok(())
            }
        }
    }

    /// The frame of the decision of a height below the own one.
    fn frame_of_decision<T: Tagger>(
        &self,
        tagger: &T,
        height: u64,
    ) -> Result<Option<Vec<u8>>, AllocError>
        ensures below { IfOk result (λ frame. is_some frame ≡ nat_lt height self.now.machine.state.height) }
        ensures frame { IfOk result (λ frame. IfSome frame (λ f. (n : Node) → Stands n self.now → map (frame_by self.now) (bundles_of height n.journal) ≡ f.items ∷ [])) }
    {
        // `len` ensures that each stands at the place of its height.
        let _ = self.decisions.len();
        match self.decisions.bundle_for(height) {
            None => Ok(None),
            Some(bundle) => {
                let body = Body::Bundle(bundle.copy(self.alloc)?);
                Ok(Some(frame_with(self.alloc, tagger, &self.ring, &body)?))
            }
        }
    }

    /// A bundle decides its height.
    fn take_bundle(&mut self, bundle: Bundle) -> Result<(), Refusal>
        requires spelled { IsBundle bundle }
        requires running { self.old.journal.failed ≡ false }
        ensures answer { IsAnswer (first_cause (bundle_causes (setting_of self.old) self.old.machine.me self.old.machine.state bundle)) result }
        ensures ok { OnOk result ((n : Node) → Stands n self.old → HasFiredOnce n (DecideByBundle bundle) self.old self.new) }
        ensures broken { result ≡ Err Refusal.JournalFailed → (n : Node) → Stands n self.old → Leaves self.old.machine.powers self.old.machine.me n.journal (option_to_list (firing (setting_of self.old) self.old.machine.me n (DecideByBundle bundle)).wrote) self.new.journal }
        ensures fired { self.new.fired ≡ self.old.fired }
        ensures journal { TellsJournal result self.old.journal self.new.journal }
        ensures err { IfErr result (λ r. IsRefused r self.old self.new) }
    {
        if bundle.height != self.state.height() || bundle.height >= MOST_HEIGHT {
            return Err(Refusal::OtherHeight);
        }
        judge(
            self.alloc,
            &bundle,
            self.state.powers(),
            &self.ring,
            self.state.frontier(),
        )?;
        self.decide(bundle)
    }

    /// Line 49, by precommits that another validator collected.
    fn decide(&mut self, bundle: Bundle) -> Result<(), Refusal>
        ghost came: { Came }
        requires running { self.old.journal.failed ≡ false }
        requires came { came ≡ record { context = context_of self.old; bundle = bundle } }
        requires holds { holds (context_of self.old) self.old.machine.state (DecideByBundle bundle) ≡ true }
        requires spelled { IsBundle bundle }
        ensures ok { OnOk result ((n : Node) → Stands n self.old → HasFiredOnce n (DecideByBundle bundle) self.old self.new) }
        ensures broken { result ≡ Err Refusal.JournalFailed → (n : Node) → Stands n self.old → Leaves self.old.machine.powers self.old.machine.me n.journal (option_to_list (firing (setting_of self.old) self.old.machine.me n (DecideByBundle bundle)).wrote) self.new.journal }
        ensures fired { self.new.fired ≡ self.old.fired }
        ensures journal { TellsJournal result self.old.journal self.new.journal }
        ensures err { IfErr result (λ r. IsUnfired r self.old self.new) }
    {
        let certificate = certified(self.alloc, bundle, &self.ring)?;
        let plan = plan_by_bundle(&self.state, certificate)?;
        let Spelled { record, frame: _ } = self.spelled(&InTurn, &plan)?;
        make_room(
            &mut self.outgoing,
            &mut self.scheduled,
            &mut self.decisions,
            &mut self.said,
        )?;
        let Fired { said, timeout } = carry_out(&mut self.state, plan, record, &mut self.journal)?;
        push_one(&mut self.scheduled, timeout);
        note(
            said,
            &self.state,
            &mut self.decisions,
            &mut self.mempool,
            &mut self.said,
        );
        Ok(())
    }
}

/// Whether a transaction's tag is right, as it was found.
fn is_right(found: Found) -> bool
    ensures { (right : Bool) → found ≡ founds.Tx right → result ≡ right }
{
    match found {
        Found::Tx(is_right) => is_right,
        Found::Proposal(_) | Found::Nothing => false,
    }
}

/// The id of a proposal's value, as it was found.
fn id(found: Found) -> Id
    requires { (x : List ℕ) × (found ≡ founds.Proposal x) }
    ensures { (x : List ℕ) → found ≡ founds.Proposal x → result ≡ x }
{
    match found {
        Found::Proposal(id) => id,
        Found::Tx(_) => unreachable!(),
        Found::Nothing => unreachable!(),
    }
}
