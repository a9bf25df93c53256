ghost use Rattle.std.specs.Prelude.{◌≡◌, [], false, option_map, IfOk};
ghost use Rattle.transactions.specs.Grammar.{IsValue};
ghost use Rattle.protocol.specs.Records.{act_of, record_of};
ghost use Rattle.protocol.specs.State.{fresh};
ghost use Rattle.round_states.specs.Plans.{says, IsOfPlace};
ghost use Rattle.round_states.specs.Replaying.{HasProposedValue};

use crate::same::assert_same;
use messages::{Body, Proposal, Step as VoteStep, Vote};
use powers::Powers;
use protocol::{Act, OwnMessage, Record, Refusal, Step};
use round_states::{Picked, Plan, Said, State, release};
use std::alloc::Global;
use std::process::Abort;
use transactions::{Id, Named, Seq, Value, read_value, value_id};
use vote_journal::{Journal, JournalFault, Saved, Strikes, StrikingStore, spell_record};

/// The id of some value.
const A: Id = [0xaa; 32];

/// What a call that only memory can fail is expected to find.
const MEMORY: &str = "memory is left";

/// Whether the journal's device serves a save, or fails at it.
#[derive(Clone, Copy)]
enum Device {
    Serves,
    Fails,
}

/// A validator's journal without records.
fn journal_of(rt: &impl Abort, alloc: Global, me: u16, device: Device) -> Journal<StrikingStore>
    ensures { (result.me ≡ me) × (result.failed ≡ false) }
{
    let strikes = Strikes::new(alloc).expect(rt, MEMORY);
    if let Device::Fails = device {
        strikes.strike(1, 0).expect(rt, MEMORY);
    }
    Journal::struck_by(alloc, me, strikes).expect(rt, MEMORY)
}

/// Saves what there is to save, in a journal of this validator.
fn save(
    rt: &impl Abort,
    alloc: Global,
    me: u16,
    entry: Option<Record>,
    device: Device,
) -> Result<Option<Saved>, JournalFault>
    ensures { IfOk result (λ saved. saved ≡ option_map record_of entry) }
{
    let Some(entry) = entry else {
        return Ok(None);
    };
    let spelled = spell_record(alloc, me, &entry).expect(rt, "it has a spelling");
    let saved = journal_of(rt, alloc, me, device).save(entry, &spelled)?;
    Ok(Some(saved))
}

/// What may be let go, as a body.
fn body_in(said: Option<Said>) -> Option<Body> {
    match said {
        None => None,
        Some(said) => Some(release(said)),
    }
}

/// Carries a plan out, and gives what it says; or tells why its record was not saved, and then nothing has changed.
fn carry_out(
    rt: &impl Abort,
    alloc: Global,
    state: &mut State,
    plan: Plan,
    device: Device,
) -> Result<Option<Body>, JournalFault>
    requires { IsOfPlace state.old plan.change (says plan) }
{
    let Plan {
        entry,
        change,
        timeout: _,
    } = plan;
    state.make_room(&change).expect(rt, MEMORY);
    match save(rt, alloc, state.me(), entry, device) {
        Ok(saved) => Ok(body_in(state.apply(change, saved))),
        Err(fault) => {
            state.forget_room();
            Err(fault)
        }
    }
}

/// Carries a plan out whose record is saved, and gives what it says.
fn say(rt: &impl Abort, alloc: Global, state: &mut State, plan: Plan) -> Option<Body>
    requires { IsOfPlace state.old plan.change (says plan) }
{
    carry_out(rt, alloc, state, plan, Device::Serves).expect(rt, "it is saved")
}

/// A validator's state among four of power 1.
#[tactic(auto, unfolding(protocol::specs::Restart::restart))]
fn state_of(rt: &impl Abort, alloc: Global, me: u16) -> State
    ensures { result.state ≡ fresh [] 0 }
{
    let four = vec![in alloc; 1, 1, 1, 1].expect(rt, MEMORY);
    let powers = Powers::new(four).expect(rt, "they are powers");
    State::new(alloc, powers, me)
}

/// The one transaction of client 7 with this number, which asks for the byte 0x61 under zero tags.
fn value_of(rt: &impl Abort, alloc: Global, number: u8) -> Value
    ensures { IsValue result }
{
    let mut bytes = [0u8; 146];
    bytes[..18].copy_from_slice(&[0, 1, 1, 0, 7, 0, 0, 0, 0, 0, 0, 0, number, 0, 0, 1, 0x61, 4]);
    read_value(alloc, &bytes).expect(rt, "it spells a value")
}

/// The vote of this sender at this place.
fn vote(step: VoteStep, height: u64, round: u32, sender: u16, content: Option<Id>) -> Vote
    ensures { result ≡ record { step = step; height = height; round = round; sender = sender; content = content } }
{
    Vote {
        step,
        height,
        round,
        sender,
        content,
    }
}

/// A value of the clients' queues whose tags are right.
fn picked(rt: &impl Abort, alloc: Global, number: u8) -> Picked
    ensures { IsValue result.value }
{
    Picked {
        value: value_of(rt, alloc, number),
        genuine: true,
    }
}

/// The vote that a body is.
fn vote_in(body: Option<Body>) -> Option<Vote> {
    match body {
        Some(Body::Vote(vote)) => Some(vote),
        _ => None,
    }
}

/// Why a fresh proposal is refused, if it is: after its height, its round, its sender and its value's number.
#[tactic(auto, unfolding(protocol::specs::Values::id))]
fn propose(
    rt: &impl Abort,
    alloc: Global,
    state: &mut State,
    (height, round, sender, number): (u64, u32, u16, u8),
) -> Option<Refusal> {
    let arrived = Proposal {
        height,
        round,
        sender,
        valid_round: None,
        value: value_of(rt, alloc, number),
    };
    let id = value_id(alloc, &arrived.value).expect(rt, "it has a spelling");
    state.take_proposal(arrived, id, true).err()
}

/// Why a vote of validator 1 for nil is refused, if it is.
fn voted(
    alloc: Global,
    state: &mut State,
    step: VoteStep,
    height: u64,
    round: u32,
) -> Option<Refusal> {
    let arrived = vote(step, height, round, 1, None);
    state.take_vote(arrived, Seq::new(alloc)).err()
}

/// Begins a later round, and gives what it lets go.
fn begin(rt: &impl Abort, alloc: Global, state: &mut State, round: u32) -> Option<Body> {
    assert!(rt; !state.has_begun() || state.round() < round);
    let handed = Some(picked(rt, alloc, 1));
    let plan = state.plan_start(round, handed).expect(rt, MEMORY);
    say(rt, alloc, state, plan)
}

/// The own prevote.
fn prevote(rt: &impl Abort, alloc: Global, state: &mut State, content: Option<Id>) -> Option<Vote> {
    if !state.has_begun() || state.step() != Step::Propose {
        return None;
    }
    let plan = state.plan_prevote(content);
    vote_in(say(rt, alloc, state, plan))
}

/// The own precommit for nil.
fn precommit_nil(rt: &impl Abort, alloc: Global, state: &mut State) -> Option<Vote> {
    if !state.has_begun() || state.step() != Step::Prevote {
        return None;
    }
    let plan = state.plan_precommit();
    vote_in(say(rt, alloc, state, plan))
}

/// A fresh proposal's height, round, sender and value's number, and why it is refused, if it is.
type Proposed = ((u64, u32, u16, u8), Option<Refusal>);

/// Why each of these fresh proposals is refused, if it is: after its height, its round, its sender
/// and its value's number. At the end this many are kept.
fn propose_each(
    rt: &impl Abort,
    alloc: Global,
    state: &mut State,
    proposals: &[Proposed],
    kept: usize,
) {
    for (proposal, refusal) in proposals {
        assert_same(rt, &propose(rt, alloc, state, *proposal), refusal);
    }
    assert_same(rt, &state.kept().len(), &kept);
}

/// Proposals of which the last alone is kept.
const REFUSED: [Proposed; 6] = [
    ((1, 0, 1, 1), Some(Refusal::OtherHeight)),
    ((0, 1_000_001, 1, 1), Some(Refusal::RoundLimit)),
    ((0, 1_000_000, 0, 1), Some(Refusal::RoundAhead)),
    ((0, 3, 3, 1), Some(Refusal::RoundAhead)),
    ((0, 0, 1, 1), Some(Refusal::WrongProposer)),
    ((0, 2, 2, 1), None),
];

#[test]
fn proposals_refused(rt: HostRuntime) {
    let mut state = state_of(&rt, rt.alloc(), 3);
    propose_each(&rt, rt.alloc(), &mut state, &REFUSED, 1);
}

/// Proposals of one round, of which a validator keeps two.
const OF_A_ROUND: [Proposed; 4] = [
    ((0, 0, 0, 1), None),
    ((0, 0, 0, 1), Some(Refusal::Repeat)),
    ((0, 0, 0, 2), None),
    ((0, 0, 0, 3), Some(Refusal::VoterFull)),
];

#[test]
fn proposals_of_a_round(rt: HostRuntime) {
    let mut state = state_of(&rt, rt.alloc(), 3);
    propose_each(&rt, rt.alloc(), &mut state, &OF_A_ROUND, 2);
}

/// Proposals beyond round 1 by three rounds and by two.
const AHEAD: [Proposed; 2] = [
    ((0, 4, 0, 1), Some(Refusal::RoundAhead)),
    ((0, 3, 3, 1), None),
];

#[test]
fn proposals_ahead(rt: HostRuntime) {
    let mut state = state_of(&rt, rt.alloc(), 3);
    assert!(rt; begin(&rt, rt.alloc(), &mut state, 1).is_none());
    propose_each(&rt, rt.alloc(), &mut state, &AHEAD, 1);
}

/// A copy has the place of the one proposal of round 1.
fn assert_place_in_copy(rt: &impl Abort, state: &State) {
    let copy = state.copy().expect(rt, MEMORY);
    assert_same(rt, &copy.places(1), &[1].as_slice());
}

/// Proposals of round 0 before and after one of round 1.
const OF_TWO_ROUNDS: [Proposed; 3] = [
    ((0, 0, 0, 1), None),
    ((0, 1, 1, 1), None),
    ((0, 0, 0, 2), None),
];

/// The places of a round's proposals after one of another round, and none in a copy of the next height.
fn places_each(rt: &impl Abort, alloc: Global, state: &mut State) {
    propose_each(rt, alloc, state, &OF_TWO_ROUNDS, 3);
    assert_same(rt, &state.places(0), &[0, 2].as_slice());
    assert_place_in_copy(rt, state);
    assert!(rt; state.places(2).is_empty());
}

#[test]
fn places_by_round(rt: HostRuntime) {
    let mut state = state_of(&rt, rt.alloc(), 3);
    places_each(&rt, rt.alloc(), &mut state);
}

/// A vote's step, height and round, and why it is refused, if it is.
type Voted = (VoteStep, u64, u32, Option<Refusal>);

/// Votes of validator 1 for nil.
const VOTES: [Voted; 5] = [
    (VoteStep::Prevote, 1, 0, Some(Refusal::OtherHeight)),
    (VoteStep::Prevote, 0, 1_000_001, Some(Refusal::RoundLimit)),
    (VoteStep::Prevote, 0, 1_000_000, None),
    (VoteStep::Prevote, 0, 1_000_000, Some(Refusal::Repeat)),
    (VoteStep::Precommit, 0, 1_000_000, None),
];

/// The votes of validator 1 for nil that are refused, and those that are kept.
fn vote_each(rt: &impl Abort, alloc: Global, state: &mut State) {
    for (step, height, round, refusal) in &VOTES {
        assert_same(rt, &voted(alloc, state, *step, *height, *round), refusal);
    }
}

#[test]
fn votes_refused(rt: HostRuntime) {
    let mut state = state_of(&rt, rt.alloc(), 3);
    vote_each(&rt, rt.alloc(), &mut state);
}

/// Prevotes a value.
fn prevote_value(rt: &impl Abort, alloc: Global, state: &mut State) {
    let prevoted = Some(vote(VoteStep::Prevote, 0, 0, 3, Some(A)));
    assert_same(rt, &prevote(rt, alloc, state, Some(A)), &prevoted);
}

/// Precommits nil, which counts.
fn precommit_nothing(rt: &impl Abort, alloc: Global, state: &mut State) {
    let precommitted = Some(vote(VoteStep::Precommit, 0, 0, 3, None));
    assert_same(rt, &precommit_nil(rt, alloc, state), &precommitted);
    let power = state.tally().power_for(0, VoteStep::Precommit, None);
    assert_same(rt, &state.step(), &Step::Precommit);
    assert_same(rt, &power, &1);
}

/// A round in its own votes.
fn vote_in_round(rt: &impl Abort, alloc: Global, state: &mut State) {
    begin(rt, alloc, state, 0);
    prevote_value(rt, alloc, state);
    precommit_nothing(rt, alloc, state);
}

#[test]
fn votes_of_a_round(rt: HostRuntime) {
    let mut state = state_of(&rt, rt.alloc(), 3);
    vote_in_round(&rt, rt.alloc(), &mut state);
}

/// The round of a copy in which round 7 has begun.
fn round_of_copy(rt: &impl Abort, alloc: Global, state: &State) -> u32 {
    let mut copy = state.copy().expect(rt, MEMORY);
    begin(rt, alloc, &mut copy, 7);
    copy.round()
}

#[test]
fn a_copy(rt: HostRuntime) {
    let state = state_of(&rt, rt.alloc(), 3);
    assert_same(&rt, &round_of_copy(&rt, rt.alloc(), &state), &7);
    assert_same(&rt, &state.round(), &0);
}

/// Locks the first kept value, and gives the precommit for it.
fn lock(rt: &impl Abort, alloc: Global, state: &mut State) -> Option<Vote> {
    assert!(rt; state.has_begun() && state.step() != Step::Propose);
    assert!(rt; !state.kept().is_empty());
    let plan = state.plan_lock(0).expect(rt, MEMORY);
    vote_in(say(rt, alloc, state, plan))
}

/// How many precommits a decision has, and under whose number it is.
fn decision_in(rt: &impl Abort, body: Option<Body>) -> (usize, u16) {
    let Some(Body::Bundle(bundle)) = body else {
        panic!(rt; "no decision");
    };
    (bundle.precommits.len(), bundle.sender)
}

/// Decides the first kept value, and gives how many precommits decided it and under whose number, or why it was not saved.
fn decide(
    rt: &impl Abort,
    alloc: Global,
    state: &mut State,
    device: Device,
) -> Result<(usize, u16), JournalFault> {
    let first = state.kept().first().expect(rt, "a value is kept");
    assert!(rt; first.is_valid && state.height() < 1 << 48);
    let tags = [[7u8; 32]; 4];
    let plan = state.plan_decision(0, &tags).expect(rt, MEMORY);
    let body = carry_out(rt, alloc, state, plan, device)?;
    Ok(decision_in(rt, body))
}

/// A decision whose first save fails: the height goes on with the second one.
fn decide_again(rt: &impl Abort, alloc: Global, state: &mut State) {
    let failed = Err(JournalFault::Failed);
    assert_same(rt, &decide(rt, alloc, state, Device::Fails), &failed);
    assert_same(rt, &seen_in_copy(rt, state), &(0, 1, true));
    assert_same(rt, &state.decided().len(), &0);
    assert_same(rt, &decide(rt, alloc, state, Device::Serves), &Ok((1, 3)));
    assert_same(rt, &seen_in_copy(rt, state), &(1, 0, false));
    assert_same(rt, &state.decided().len(), &1);
}

/// The height of a copy, and how much it keeps and locks.
fn seen_in_copy(rt: &impl Abort, state: &State) -> (u64, usize, bool) {
    let copy = state.copy().expect(rt, MEMORY);
    (copy.height(), copy.kept().len(), copy.lock().is_some())
}

/// The id of the first kept value.
fn first_id(state: &State) -> Option<Id> {
    match state.kept() {
        [first, ..] => Some(first.id),
        [] => None,
    }
}

/// A height in its steps. A copy before the decision has what was kept and locked.
fn pass(rt: &impl Abort, alloc: Global, state: &mut State) {
    begin(rt, alloc, state, 0);
    assert_same(rt, &propose(rt, alloc, state, (0, 0, 0, 1)), &None);
    let id = first_id(state);
    prevote(rt, alloc, state, id);
    let precommitted = Some(vote(VoteStep::Precommit, 0, 0, 3, id));
    assert_same(rt, &lock(rt, alloc, state), &precommitted);
    assert_same(rt, &seen_in_copy(rt, state), &(0, 1, true));
    decide_again(rt, alloc, state);
}

#[test]
fn a_height(rt: HostRuntime) {
    let mut state = state_of(&rt, rt.alloc(), 3);
    pass(&rt, rt.alloc(), &mut state);
}

/// Schedules the timeout of prevotes, which says nothing.
fn await_prevotes(rt: &impl Abort, alloc: Global, state: &mut State) {
    let plan = state.plan_await_prevotes();
    assert!(rt; say(rt, alloc, state, plan).is_none());
}

/// Schedules the timeout of precommits, which says nothing.
fn await_precommits(rt: &impl Abort, alloc: Global, state: &mut State) {
    let plan = state.plan_await_precommits();
    assert!(rt; say(rt, alloc, state, plan).is_none());
}

/// Both timeouts are scheduled once in a round.
fn await_each(rt: &impl Abort, alloc: Global, state: &mut State) {
    for round in 0..2 {
        begin(rt, alloc, state, round);
        assert!(rt; !state.are_prevotes_awaited() && !state.are_precommits_awaited());
        await_prevotes(rt, alloc, state);
        assert!(rt; state.are_prevotes_awaited() && !state.are_precommits_awaited());
        await_precommits(rt, alloc, state);
        assert!(rt; state.are_precommits_awaited());
    }
}

#[test]
fn timeouts_awaited(rt: HostRuntime) {
    let mut state = state_of(&rt, rt.alloc(), 3);
    await_each(&rt, rt.alloc(), &mut state);
}

/// It is at the beginning, and nothing has come.
fn assert_new(rt: &impl Abort, state: &State) {
    assert_same(rt, &state.me(), &3);
    assert_same(rt, &state.height(), &0);
    assert_same(rt, &state.round(), &0);
    assert_same(rt, &state.powers().total(), &4);
    assert_same(rt, &state.decided().len(), &0);
    assert_same(rt, &state.frontier().next(7), &1);
    assert!(rt; state.lock().is_none() && state.valid_value().is_none());
    assert!(rt; !state.is_value_found());
}

#[test]
fn a_new_state(rt: HostRuntime) {
    let state = state_of(&rt, rt.alloc(), 3);
    assert_new(&rt, &state);
}

/// A proposal's height, round, sender and valid round.
fn place_in(body: Option<Body>) -> Option<(u64, u32, u16, Option<u32>)> {
    match body {
        Some(Body::Proposal(proposal)) => Some((
            proposal.height,
            proposal.round,
            proposal.sender,
            proposal.valid_round,
        )),
        _ => None,
    }
}

/// Begins round 0 as its proposer.
fn open_round(rt: &impl Abort, alloc: Global, state: &mut State) {
    let opened = place_in(begin(rt, alloc, state, 0));
    assert_same(rt, &opened, &Some((0, 0, 0, None)));
    assert_same(rt, &state.kept().len(), &1);
}

#[test]
fn the_proposer_proposes(rt: HostRuntime) {
    let mut state = state_of(&rt, rt.alloc(), 0);
    open_round(&rt, rt.alloc(), &mut state);
}

/// Why the own prevote for nil was not said, if it was not.
fn refused_prevote(
    rt: &impl Abort,
    alloc: Global,
    state: &mut State,
    device: Device,
) -> Option<JournalFault> {
    assert!(rt; state.has_begun() && state.step() == Step::Propose);
    let plan = state.plan_prevote(None);
    carry_out(rt, alloc, state, plan, device).err()
}

/// Why the own precommit for nil was not said, if it was not.
fn refused_precommit(
    rt: &impl Abort,
    alloc: Global,
    state: &mut State,
    device: Device,
) -> Option<JournalFault> {
    assert!(rt; state.has_begun() && state.step() == Step::Prevote);
    let plan = state.plan_precommit();
    carry_out(rt, alloc, state, plan, device).err()
}

/// It is in this step, with this power of the own votes in round 0.
fn assert_stands(rt: &impl Abort, state: &State, step: Step, prevotes: u64, precommits: u64) {
    let tally = state.tally();
    assert_same(rt, &state.step(), &step);
    assert_same(rt, &tally.power_any(0, VoteStep::Prevote), &prevotes);
    assert_same(rt, &tally.power_any(0, VoteStep::Precommit), &precommits);
}

/// Each vote is saved at the second try, and kept from then on alone.
fn vote_again(rt: &impl Abort, alloc: Global, state: &mut State) {
    begin(rt, alloc, state, 0);
    let failed = Some(JournalFault::Failed);
    assert_same(
        rt,
        &refused_prevote(rt, alloc, state, Device::Fails),
        &failed,
    );
    assert_stands(rt, state, Step::Propose, 0, 0);
    assert_same(
        rt,
        &refused_prevote(rt, alloc, state, Device::Serves),
        &None,
    );
    assert_stands(rt, state, Step::Prevote, 1, 0);
    assert_same(
        rt,
        &refused_precommit(rt, alloc, state, Device::Fails),
        &failed,
    );
    assert_stands(rt, state, Step::Prevote, 1, 0);
    assert_same(
        rt,
        &refused_precommit(rt, alloc, state, Device::Serves),
        &None,
    );
    assert_stands(rt, state, Step::Precommit, 1, 1);
}

#[test]
fn a_vote_that_was_not_saved(rt: HostRuntime) {
    let mut state = state_of(&rt, rt.alloc(), 3);
    vote_again(&rt, rt.alloc(), &mut state);
}

/// Why a round did not begin, if it did not.
fn refused_round(
    rt: &impl Abort,
    alloc: Global,
    state: &mut State,
    round: u32,
    device: Device,
) -> Option<JournalFault> {
    assert!(rt; !state.has_begun());
    let handed = Some(picked(rt, alloc, 1));
    let plan = state.plan_start(round, handed).expect(rt, MEMORY);
    carry_out(rt, alloc, state, plan, device).err()
}

/// A round has begun or not, and so many proposals are kept.
fn assert_begun(rt: &impl Abort, state: &State, has_begun: bool, kept: usize) {
    assert_same(rt, &state.has_begun(), &has_begun);
    assert_same(rt, &state.kept().len(), &kept);
}

/// A proposal is saved at the second try: only then its round begins.
fn propose_again(rt: &impl Abort, alloc: Global, state: &mut State) {
    let failed = Some(JournalFault::Failed);
    assert_same(
        rt,
        &refused_round(rt, alloc, state, 0, Device::Fails),
        &failed,
    );
    assert_begun(rt, state, false, 0);
    assert_same(
        rt,
        &refused_round(rt, alloc, state, 0, Device::Serves),
        &None,
    );
    assert_begun(rt, state, true, 1);
}

#[test]
fn a_proposal_that_was_not_saved(rt: HostRuntime) {
    let mut state = state_of(&rt, rt.alloc(), 0);
    propose_again(&rt, rt.alloc(), &mut state);
}

/// A validator that comes back behind the decision of one value.
fn state_behind(rt: &impl Abort, alloc: Global, me: u16) -> State {
    let mut state = state_of(rt, alloc, me);
    let value = value_of(rt, alloc, 1);
    assert!(rt; state.frontier().valid(&value));
    state.replay_decision(&value).expect(rt, MEMORY);
    state
}

/// The height after a decision that was read back: nothing has come, and the next value follows.
fn assert_behind(rt: &impl Abort, state: &State) {
    assert_same(rt, &state.height(), &1);
    assert_begun(rt, state, false, 0);
    assert_same(rt, &state.decided().len(), &1);
    assert_same(rt, &state.frontier().next(7), &2);
}

#[test]
fn a_decision_read_back(rt: HostRuntime) {
    let state = state_behind(&rt, rt.alloc(), 3);
    assert_behind(&rt, &state);
}

/// Takes up an own message of this height that was read back.
fn replay(rt: &impl Abort, state: &mut State, round: u32, act: Act)
    requires { HasProposedValue (act_of act) }
{
    assert!(rt; state.valid_value().is_none());
    let height = state.height();
    let message = OwnMessage { height, round, act };
    state.replay_own(&message, true).expect(rt, MEMORY);
}

/// It is in this step of this round.
fn assert_place(rt: &impl Abort, state: &State, round: u32, step: Step) {
    assert_same(rt, &state.round(), &round);
    assert_same(rt, &state.step(), &step);
}

/// A proposal that was read back is kept, and its round waits for the prevote.
fn replay_proposal(rt: &impl Abort, alloc: Global, state: &mut State) {
    let value = value_of(rt, alloc, 2);
    replay(rt, state, 2, Act::Proposing(None, value));
    assert_place(rt, state, 2, Step::Propose);
    let first = state.kept().first().expect(rt, "it is kept");
    assert!(rt; first.is_valid);
    assert_same(rt, &state.places(2), &[0].as_slice());
}

/// A prevote that was read back counts, and locks nothing.
fn replay_prevote(rt: &impl Abort, state: &mut State) {
    replay(rt, state, 2, Act::Prevoting(Some(A)));
    let power = state.tally().power_for(2, VoteStep::Prevote, Some(A));
    assert_same(rt, &state.step(), &Step::Prevote);
    assert_same(rt, &power, &1);
    assert!(rt; state.lock().is_none());
}

/// The round of the lock.
fn locked_in(state: &State) -> Option<u32> {
    match state.lock() {
        Some(lock) => Some(lock.round),
        None => None,
    }
}

/// A precommit for a value that was read back has locked it, and one for nil of a later round leaves the lock.
fn replay_precommits(rt: &impl Abort, alloc: Global, state: &mut State) {
    let value = value_of(rt, alloc, 2);
    let id = value_id(alloc, &value).expect(rt, "it has a spelling");
    let named = Named::new(value, id);
    replay(rt, state, 2, Act::Precommitting(Some(named)));
    let power = state.tally().power_for(2, VoteStep::Precommit, Some(id));
    assert_same(rt, &state.step(), &Step::Precommit);
    assert_same(rt, &power, &1);
    replay(rt, state, 5, Act::Precommitting(None));
    assert_place(rt, state, 5, Step::Precommit);
    assert_same(rt, &locked_in(state), &Some(2));
}

/// A height in its own messages, as a journal has them.
fn replay_each(rt: &impl Abort, alloc: Global, state: &mut State) {
    replay_proposal(rt, alloc, state);
    replay_prevote(rt, state);
    replay_precommits(rt, alloc, state);
}

#[test]
fn own_messages_read_back(rt: HostRuntime) {
    let mut state = state_behind(&rt, rt.alloc(), 3);
    replay_each(&rt, rt.alloc(), &mut state);
}
