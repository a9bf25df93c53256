//! Running totals: who spoke on each topic, and the power of these.

ghost use Rattle.std.specs.Prelude.{◌≡◌, ◌<◌, ◌==◌, ◌&&◌, ◌||◌, ℕ, OnOk, cond, Some, slice_index_or};
ghost use Rattle.powers.specs.Power.{is_weak};
ghost use Rattle.protocol.specs.Order.{higher};
ghost use Rattle.vote_tally.specs.declared.totals.Topic.{Topic as AnyTopic};
ghost use Rattle.vote_tally.specs.declared.totals.Topic.TheVariants.{Round, Proposals};
ghost use Rattle.vote_tally.specs.Totals.{has, IsSmall, IsTotal, AreTotals, HasRoom, HasRoomForVote, HasRoomForProposal, same_topic, total_at, topic_of, topic_for, is_about, is_proposed};

use crate::voters::Voters;
use messages::{Step, Vote};
use powers::Powers;
use std::alloc::AllocError;
use std::collections::BTreeMap;
use transactions::Id;

/// What kept messages are asked about: those of one round that have something in common.
#[derive(Clone, Copy, Debug, PartialEq, Eq, PartialOrd, Ord)]
pub enum Topic {
    /// All messages of the round.
    Round(u32),
    /// Its prevotes.
    Prevotes(u32),
    /// Its precommits.
    Precommits(u32),
    /// Its prevotes for a content: an id, or nil.
    PrevotesFor(u32, Option<Id>),
    /// Its precommits for a content.
    PrecommitsFor(u32, Option<Id>),
    /// Its proposals.
    Proposals(u32),
    /// Its proposals by those who made two or more.
    SecondProposals(u32),
}

impl Topic {
    /// The votes of a round and step.
    pub fn of(round: u32, step: Step) -> Topic
        ensures { result ≡ topic_of round step }
    {
        match step {
            Step::Prevote => Topic::Prevotes(round),
            Step::Precommit => Topic::Precommits(round),
        }
    }

    /// The votes of a round and step for a content.
    pub fn for_content(round: u32, step: Step, content: Option<Id>) -> Topic
        ensures { result ≡ topic_for round step content }
    {
        match step {
            Step::Prevote => Topic::PrevotesFor(round, content),
            Step::Precommit => Topic::PrecommitsFor(round, content),
        }
    }
}

/// Those who spoke on a topic, and their power together.
#[derive(Clone, Copy, Debug)]
pub struct Total {
    pub voters: Voters,
    pub power: u64,
}

impl Total {
    const NONE: Total = Total {
        voters: Voters::NONE,
        power: 0,
    };

    /// This total with one more voter, who counts once.
    fn with(self, powers: &Powers, validator: u16) -> Total
        requires small { IsSmall powers.now }
        requires total { IsTotal powers.now self }
        ensures total { IsTotal powers.now result }
        ensures voters { (i : ℕ) → i < 128 → has result.voters i ≡ (has self.voters i || (validator == i)) }
    {
        if self.voters.has(validator) {
            return self;
        }
        Total {
            voters: self.voters.with(validator),
            power: self.power + power_of(powers, validator),
        }
    }
}

/// A validator's power, or none.
fn power_of(powers: &Powers, validator: u16) -> u64
    ensures { result ≡ slice_index_or powers.now validator 0 }
{
    u64::from(powers.power_of(validator).unwrap_or(0))
}

/// The totals of a height by topic. A topic that isn't there has nobody's.
pub type Totals = BTreeMap<Topic, Total>;

/// The total of a topic.
pub fn total_at(totals: &Totals, topic: Topic) -> Total
    ensures { result ≡ total_at totals.now topic }
{
    totals.get(&topic).copied().unwrap_or(Total::NONE)
}

/// Makes room for a topic, which changes no total.
fn make_room(totals: &mut Totals, topic: Topic) -> Result<(), AllocError>
    ensures same { (t : AnyTopic) → total_at totals.new t ≡ total_at totals.old t }
    ensures kept { (t : AnyTopic) → HasRoom totals.old t → HasRoom totals.new t }
    ensures room { OnOk result (HasRoom totals.new topic) }
{
    if totals.contains_key(&topic) {
        return Ok(());
    }
    totals.insert(topic, Total::NONE)?;
    Ok(())
}

/// One more voter on a topic that has room.
fn raise(totals: &mut Totals, powers: &Powers, topic: Topic, validator: u16)
    requires small { IsSmall powers.now }
    requires totals { AreTotals powers.now totals.old }
    requires room { HasRoom totals.old topic }
    ensures totals { AreTotals powers.now totals.new }
    ensures voters { (t : AnyTopic) (i : ℕ) → i < 128 → has (total_at totals.new t).voters i ≡ (has (total_at totals.old t).voters i || (same_topic topic t && (validator == i))) }
    ensures kept { (t : AnyTopic) → HasRoom totals.old t → HasRoom totals.new t }
{
    if let Some(total) = totals.get_mut(&topic) {
        *total = total.with(powers, validator);
    }
}

/// Makes room for a vote, which changes no total.
pub fn make_room_for_vote(totals: &mut Totals, vote: &Vote) -> Result<(), AllocError>
    ensures same { (t : AnyTopic) → total_at totals.new t ≡ total_at totals.old t }
    ensures kept { (t : AnyTopic) → HasRoom totals.old t → HasRoom totals.new t }
    ensures room { OnOk result (HasRoomForVote totals.new vote.now) }
{
    make_room(totals, Topic::Round(vote.round))?;
    make_room(totals, Topic::of(vote.round, vote.step))?;
    make_room(
        totals,
        Topic::for_content(vote.round, vote.step, vote.content),
    )?;
    Ok(())
}

/// A vote's sender on each topic that the vote is about.
pub fn raise_vote(totals: &mut Totals, powers: &Powers, vote: &Vote)
    requires small { IsSmall powers.now }
    requires totals { AreTotals powers.now totals.old }
    requires room { HasRoomForVote totals.old vote.now }
    ensures totals { AreTotals powers.now totals.new }
    ensures voters { (t : AnyTopic) (i : ℕ) → i < 128 → has (total_at totals.new t).voters i ≡ (has (total_at totals.old t).voters i || (is_about t vote.now && (vote.now.sender == i))) }
{
    raise(totals, powers, Topic::Round(vote.round), vote.sender);
    raise(
        totals,
        powers,
        Topic::of(vote.round, vote.step),
        vote.sender,
    );
    let topic = Topic::for_content(vote.round, vote.step, vote.content);
    raise(totals, powers, topic, vote.sender);
}

/// Makes room for a proposal, which changes no total.
pub fn make_room_for_proposal(totals: &mut Totals, round: u32) -> Result<(), AllocError>
    ensures same { (t : AnyTopic) → total_at totals.new t ≡ total_at totals.old t }
    ensures kept { (t : AnyTopic) → HasRoom totals.old t → HasRoom totals.new t }
    ensures room { OnOk result (HasRoomForProposal totals.new round) }
{
    make_room(totals, Topic::Round(round))?;
    make_room(totals, Topic::Proposals(round))?;
    make_room(totals, Topic::SecondProposals(round))?;
    Ok(())
}

/// A proposal's sender on each topic that the proposal is about.
pub fn raise_proposal(totals: &mut Totals, powers: &Powers, round: u32, sender: u16)
    requires small { IsSmall powers.now }
    requires totals { AreTotals powers.now totals.old }
    requires room { HasRoomForProposal totals.old round }
    ensures totals { AreTotals powers.now totals.new }
    ensures voters { (t : AnyTopic) (i : ℕ) → i < 128 → has (total_at totals.new t).voters i ≡ (has (total_at totals.old t).voters i || (is_proposed t round (has (total_at totals.old (Proposals round)).voters sender) && (sender == i))) }
{
    let is_second = total_at(totals, Topic::Proposals(round)).voters.has(sender);
    raise(totals, powers, Topic::Round(round), sender);
    raise(totals, powers, Topic::Proposals(round), sender);
    if is_second {
        raise(totals, powers, Topic::SecondProposals(round), sender);
    }
}

/// The highest round of a weak quorum, after messages of a round grew.
pub fn highest_with(best: Option<u32>, totals: &Totals, powers: &Powers, round: u32) -> Option<u32>
    ensures { result ≡ cond (is_weak powers.now (total_at totals.now (Round round)).power) (Some (higher best round)) best }
{
    if !powers.is_weak(total_at(totals, Topic::Round(round)).power) {
        return best;
    }
    match best {
        None => Some(round),
        Some(best) => Some(best.max(round)),
    }
}
