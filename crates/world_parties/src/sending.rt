//! The frames of what liars and clients send.

ghost use Rattle.std.specs.Prelude.{◌≡◌, ◌⊎◌, ◌≤◌, [], ◌∷◌, ℕ, List, true, false, None, map, length, IfOk, OnOk, IfErr, IsErrOf, option_map};
ghost use Rattle.std.specs.List.{list_all};
ghost use Rattle.messages.specs.Grammar.{body_spelling, IsBody};
ghost use Rattle.messages.specs.Framing.{SpellsFrame, IsMessage};
ghost use Rattle.protocol.specs.Values.{id};
ghost use Rattle.protocol.specs.Tags.{Validator, Client};
ghost use Rattle.protocol.specs.Messages.{OfTx, OfProposal, OfVote, OfBundle, sender_of, tagged};
ghost use Rattle.transactions.specs.Grammar.{tx_body_spelling, IsValue};
ghost use Rattle.world_parties.specs.Faults.{IsUnencoded};
ghost use Rattle.world_parties.specs.Keys.{tags_for};
ghost use Rattle.world_parties.specs.Cast.{setting_of, is_liar};
ghost use Rattle.world_parties.specs.Sending.{proposed, voted, bundled, submitted, bare_tx, precommit_by, FitsTx, FitsProposal, FitsVote, FitsBundle, HasId};

use crate::fault::FaultNumber;
use crate::keys::tags_of;
use crate::lines::{Bundling, Proposing, Tagged, Voting};
use crate::parties::Parties;
use authenticators::Party;
use messages::{
    Body, Bundle, MOST_PRECOMMITS, Message, Precommit, Proposal, Step, Vote, spell, spell_body,
};
use sha2::{Digest, Sha256};
use std::alloc::{AllocError, Global};
use transactions::{Duplicate, Id, Seq, Tx, Value, spell_value};

impl Parties {
    /// The frame of a liar's proposal, with right tags for everyone.
    pub fn frame_of_proposal(&self, alloc: Global, line: &Proposing) -> Result<Vec<u8>, FaultNumber>
        ensures frame { IfOk result (λ frame. SpellsFrame frame.items (tagged (setting_of self.now) (OfProposal (proposed line.now)))) }
        ensures known { OnOk result (is_liar self.now line.now.sender ≡ true) }
        ensures unknown { IsErrOf result FaultNumber.NoSuchParty → is_liar self.now line.now.sender ≡ false }
        ensures order { IsErrOf result FaultNumber.TooLong → is_liar self.now line.now.sender ≡ true }
        ensures err { IfErr result (λ fault. (fault ≡ FaultNumber.NoSuchParty) ⊎ IsUnencoded (FitsProposal (setting_of self.now) line.now) fault) }
    {
        let sender = self.liar_at(line.sender)?;
        let body = Body::Proposal(Proposal {
            height: line.height,
            round: line.round,
            sender,
            valid_round: line.valid_round,
            value: line.value.copy(alloc)?,
        });
        self.frame_from(alloc, Party::Validator(sender), body)
    }

    /// The frame of a liar's vote, with right tags for everyone.
    pub fn frame_of_vote(&self, alloc: Global, line: &Voting) -> Result<Vec<u8>, FaultNumber>
        ensures frame { IfOk result (λ frame. SpellsFrame frame.items (tagged (setting_of self.now) (OfVote (voted line.now)))) }
        ensures fits { OnOk result (FitsVote (setting_of self.now) line.now) }
        ensures known { OnOk result (is_liar self.now line.now.sender ≡ true) }
        ensures unknown { IsErrOf result FaultNumber.NoSuchParty → is_liar self.now line.now.sender ≡ false }
        ensures order { IsErrOf result FaultNumber.TooLong → is_liar self.now line.now.sender ≡ true }
        ensures err { IfErr result (λ fault. (fault ≡ FaultNumber.NoSuchParty) ⊎ IsUnencoded (FitsVote (setting_of self.now) line.now) fault) }
    {
        let sender = self.liar_at(line.sender)?;
        let body = Body::Vote(Vote {
            step: line.step,
            height: line.height,
            round: line.round,
            sender,
            content: content_of(alloc, &line.value)?,
        });
        self.frame_from(alloc, Party::Validator(sender), body)
    }

    /// The frame of a liar's bundle, with right tags for everyone.
    pub fn frame_of_bundle(&self, alloc: Global, line: &Bundling) -> Result<Vec<u8>, FaultNumber>
        ensures frame { IfOk result (λ frame. SpellsFrame frame.items (tagged (setting_of self.now) (OfBundle (bundled (setting_of self.now) line.now)))) }
        ensures fits { OnOk result (FitsBundle (setting_of self.now) line.now) }
        ensures known { OnOk result (list_all (is_liar self.now) (line.now.sender ∷ line.now.signers) ≡ true) }
        ensures unknown { IsErrOf result FaultNumber.NoSuchParty → list_all (is_liar self.now) (line.now.sender ∷ line.now.signers) ≡ false }
        ensures order { IsErrOf result FaultNumber.TooLong → list_all (is_liar self.now) (line.now.sender ∷ line.now.signers) ≡ true }
        ensures err { IfErr result (λ fault. (fault ≡ FaultNumber.NoSuchParty) ⊎ IsUnencoded (FitsBundle (setting_of self.now) line.now) fault) }
    {
        let sender = self.liar_at(line.sender)?;
        let signers = self.liars_at(alloc, line.signers.as_slice())?;
        let bundle = self.bundle_of(alloc, line, sender, &signers)?;
        self.frame_from(alloc, Party::Validator(sender), Body::Bundle(bundle))
    }

    /// The frame of a client's transaction, with the tags that are to be right.
    pub fn frame_of_tx(&self, alloc: Global, line: &Tagged) -> Result<Vec<u8>, FaultNumber>
        ensures frame { IfOk result (λ frame. SpellsFrame frame.items (submitted (length self.now.powers) line.now)) }
        ensures err { IfErr result (IsUnencoded (FitsTx (length self.now.powers) line.now)) }
    {
        let body = Body::Tx(bare_tx(alloc, line)?);
        let spelled = spelled(alloc, &body)?;
        let from = Party::Client(line.item.client);
        let tags = tags_of(alloc, from, self.count(), &line.right, &spelled)?;
        let tags = Seq::from_vec(tags);
        framed(alloc, &Message { body, tags })
    }

    /// The frame of a party's body, with right tags for everyone.
    pub fn frame_from(&self, alloc: Global, from: Party, body: Body) -> Result<Vec<u8>, FaultNumber>
        requires { sender_of body ≡ from }
        ensures frame { IfOk result (λ frame. SpellsFrame frame.items (tagged (setting_of self.now) body)) }
        ensures err { IfErr result (IsUnencoded (IsMessage (tagged (setting_of self.now) body))) }
    {
        let message = self.signed(alloc, from, body)?;
        framed(alloc, &message)
    }

    /// A party's body with right tags for everyone.
    #[tactic(auto, using(crate::proofs::Tags::tagged_by))]
    fn signed(&self, alloc: Global, from: Party, body: Body) -> Result<Message, FaultNumber>
        requires { sender_of body ≡ from }
        ensures tagged { IfOk result (λ message. message ≡ tagged (setting_of self.now) body) }
        ensures err { IfErr result (IsUnencoded (IsBody body)) }
    {
        match self.tags_by(alloc, from, &body) {
            Ok(tags) => Ok(Message { body, tags }),
            Err(fault) => Err(fault),
        }
    }

    /// A party's tags of a body, all of them right.
    fn tags_by(&self, alloc: Global, from: Party, body: &Body) -> Result<Seq<[u8; 32]>, FaultNumber>
        ensures tags { IfOk result (λ tags. tags ≡ tags_for None from (length self.now.powers) (body_spelling body.now)) }
        ensures err { IfErr result (IsUnencoded (IsBody body.now)) }
    {
        let spelled = spelled(alloc, body)?;
        let tags = match self.kept_of(from) {
            Some(keys) => keys.tags(alloc, &spelled)?,
            None => tags_of(alloc, from, self.count(), &None, &spelled)?,
        };
        Ok(Seq::from_vec(tags))
    }

    /// The bundle of a line, by these liars.
    fn bundle_of(
        &self,
        alloc: Global,
        line: &Bundling,
        sender: u16,
        signers: &[u16],
    ) -> Result<Bundle, FaultNumber>
        requires sender { sender ≡ line.now.sender }
        requires signers { signers.now ≡ line.now.signers }
        ensures bundle { IfOk result (λ bundle. bundle ≡ bundled (setting_of self.now) line.now) }
        ensures named { OnOk result (IsValue line.now.named) }
        ensures err { IfErr result (IsUnencoded (IsValue line.now.named × (length line.now.signers ≤ 128))) }
    {
        let id = id_of(alloc, &line.named)?;
        let precommits = self.precommits(alloc, signers, line.height, line.round, id)?;
        Ok(Bundle {
            height: line.height,
            sender,
            round: line.round,
            id,
            value: line.value.copy(alloc)?,
            precommits,
        })
    }

    /// The liars with these numbers.
    fn liars_at(&self, alloc: Global, numbers: &[u64]) -> Result<Vec<u16>, FaultNumber>
        ensures same { IfOk result (λ liars. liars.items ≡ numbers.now) }
        ensures known { OnOk result (list_all (is_liar self.now) numbers.now ≡ true) }
        ensures unknown { IsErrOf result FaultNumber.NoSuchParty → list_all (is_liar self.now) numbers.now ≡ false }
        ensures err { IfErr result (λ fault. (fault ≡ FaultNumber.NoSuchParty) ⊎ (fault ≡ FaultNumber.OutOfMemory)) }
    {
        let mut liars = Vec::with_capacity(alloc, numbers.len())?;
        for number in numbers {
            liars.push(self.liar_at(*number)?)?;
        }
        Ok(liars)
    }

    /// A precommit for the id by each of the signers.
    fn precommits(
        &self,
        alloc: Global,
        signers: &[u16],
        height: u64,
        round: u32,
        id: Id,
    ) -> Result<Seq<Precommit>, FaultNumber>
        ensures each { IfOk result (λ precommits. precommits ≡ map (precommit_by (setting_of self.now) height round id) signers.now) }
        ensures err { IfErr result (IsUnencoded (length signers.now ≤ 128)) }
    {
        if signers.len() > MOST_PRECOMMITS {
            return Err(FaultNumber::TooLong);
        }
        let mut precommits = Vec::with_capacity(alloc, signers.len())?;
        for signer in signers {
            precommits.push(self.precommit(alloc, *signer, height, round, id)?)?;
        }
        Ok(Seq::from_vec(precommits))
    }

    /// A validator's precommit for the id.
    fn precommit(
        &self,
        alloc: Global,
        sender: u16,
        height: u64,
        round: u32,
        id: Id,
    ) -> Result<Precommit, FaultNumber>
        ensures same { IfOk result (λ precommit. precommit ≡ precommit_by (setting_of self.now) height round id sender) }
        ensures err { IfErr result (λ fault. fault ≡ FaultNumber.OutOfMemory) }
    {
        let body = Body::Vote(Vote {
            step: Step::Precommit,
            height,
            round,
            sender,
            content: Some(id),
        });
        let Message { body: _, tags } = self.signed(alloc, Party::Validator(sender), body)?;
        Ok(Precommit { sender, tags })
    }
}

/// Nil, or the id of a value.
fn content_of(alloc: Global, value: &Option<Value>) -> Result<Option<Id>, FaultNumber>
    ensures content { IfOk result (λ content. content ≡ option_map id value.now) }
    ensures fits { OnOk result (HasId value.now) }
    ensures err { IfErr result (IsUnencoded (HasId value.now)) }
{
    match value {
        None => Ok(None),
        Some(value) => Ok(Some(id_of(alloc, value)?)),
    }
}

#[tactic(auto, unfolding(protocol::specs::Values::id))]
fn id_of(alloc: Global, value: &Value) -> Result<Id, FaultNumber>
    ensures id { IfOk result (λ x. x ≡ id value.now) }
    ensures fits { OnOk result (IsValue value.now) }
    ensures err { IfErr result (IsUnencoded (IsValue value.now)) }
{
    let bytes = spell_value(alloc, value)?;
    Ok(Sha256::digest(&bytes))
}

/// The transaction without tags.
fn bare_tx(alloc: Global, line: &Tagged) -> Result<Tx, AllocError>
    ensures { IfOk result (λ tx. tx ≡ bare_tx line.now) }
{
    Ok(Tx {
        client: line.item.client,
        session: line.item.session,
        number: line.item.number,
        op: line.item.op.copy(alloc)?,
        tags: Seq::new(alloc),
    })
}

fn spelled(alloc: Global, body: &Body) -> Result<Vec<u8>, FaultNumber>
    ensures spelling { IfOk result (λ bytes. bytes.items ≡ body_spelling body.now) }
    ensures err { IfErr result (IsUnencoded (IsBody body.now)) }
{
    Ok(spell_body(alloc, body)?)
}

fn framed(alloc: Global, message: &Message) -> Result<Vec<u8>, FaultNumber>
    ensures frame { IfOk result (λ frame. SpellsFrame frame.items message.now) }
    ensures err { IfErr result (IsUnencoded (IsMessage message.now)) }
{
    Ok(spell(alloc, message)?)
}
