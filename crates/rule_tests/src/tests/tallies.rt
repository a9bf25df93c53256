//! The tally of a validator: which messages it takes, and the power of their senders.

use super::assert_same;
use messages::{Proposal, Step, Vote};
use powers::Powers;
use std::alloc::Global;
use std::process::Abort;
use transactions::{Id, Shared, Value};
use vote_tally::*;

/// The id of a value A.
const A: Id = [0xaa; 32];

/// The id of another value.
const B: Id = [0xbb; 32];

/// The empty tally of a validator among others of these powers.
fn tally_among(rt: &impl Abort, alloc: Global, powers: &[u32], me: u16) -> Tally {
    let list = Vec::from_slice(alloc, powers).expect(rt, "no memory");
    let powers = Powers::new(list).expect(rt, "the powers are wrong");
    Tally::new(alloc, powers, me)
}

/// The empty tally of a validator among four of power 1.
fn tally_of(rt: &impl Abort, alloc: Global, me: u16) -> Tally {
    tally_among(rt, alloc, &[1; 4], me)
}

/// A prevote at height 0.
fn prevote(round: u32, sender: u16, content: Option<Id>) -> Vote {
    Vote {
        step: Step::Prevote,
        height: 0,
        round,
        sender,
        content,
    }
}

/// A proposal of the empty value. Those of one round and sender differ by their valid round.
fn proposal(
    rt: &impl Abort,
    alloc: Global,
    round: u32,
    sender: u16,
    valid_round: Option<u32>,
) -> Proposal {
    let txs = Shared::from_vec(alloc, Vec::new(alloc)).expect(rt, "no memory");
    Proposal {
        height: 0,
        round,
        sender,
        valid_round,
        value: Value { txs },
    }
}

/// Adds such a proposal, and tells what became of it.
fn propose(
    rt: &impl Abort,
    alloc: Global,
    tally: &mut Tally,
    round: u32,
    sender: u16,
    valid_round: Option<u32>,
) -> Result<(), TallyFault> {
    tally.add_proposal(&proposal(rt, alloc, round, sender, valid_round))
}

/// Keeps a proposal of this round and sender.
fn keep_proposal(rt: &impl Abort, alloc: Global, tally: &mut Tally, round: u32, sender: u16) {
    tally
        .keep_proposal(&proposal(rt, alloc, round, sender, None))
        .expect(rt, "no memory");
}

/// Keeps these prevotes, by round, sender and content.
fn keep_prevotes(rt: &impl Abort, tally: &mut Tally, votes: &[(u32, u16, Option<Id>)]) {
    for (round, sender, content) in votes {
        tally
            .keep(prevote(*round, *sender, *content))
            .expect(rt, "no memory");
    }
}

/// A vote of a sender counts once, however often it comes.
fn assert_repeats(rt: &impl Abort, tally: &mut Tally) {
    assert_same(rt, &tally.me(), &3);
    let first = prevote(0, 1, Some(A));
    assert_same(rt, &tally.add(first), &Ok(()));
    assert_same(rt, &tally.fault_of(&first), &Some(TallyFault::Repeat));
    for _ in 0..2 {
        assert_same(rt, &tally.add(first), &Err(TallyFault::Repeat));
    }
    let second = prevote(0, 0, Some(A));
    assert_same(rt, &tally.fault_of(&second), &None);
    assert_same(rt, &tally.add(second), &Ok(()));
    let power = tally.power_for(0, Step::Prevote, Some(A));
    assert_same(rt, &power, &2);
    assert_same(rt, &tally.powers().is_quorum(power), &false);
}

/// Whether these voted for A in round 0.
fn assert_voters(rt: &impl Abort, tally: &Tally, voters: &[(u16, Step, bool)]) {
    for (voter, step, has_voted) in voters {
        assert_same(rt, &tally.has_voted(*voter, 0, *step, Some(A)), has_voted);
    }
}

#[test]
fn repeats_count_once(rt: HostRuntime) {
    let mut tally = tally_of(&rt, rt.alloc(), 3);
    assert_repeats(&rt, &mut tally);
    let voters = [
        (1, Step::Prevote, true),
        (2, Step::Prevote, false),
        (1, Step::Precommit, false),
    ];
    assert_voters(&rt, &tally, &voters);
}

/// The power for each of these contents in a round and step.
fn assert_powers_for(rt: &impl Abort, tally: &Tally, powers: &[(u32, Step, Option<Id>, u64)]) {
    for (round, step, content, power) in powers {
        assert_same(rt, &tally.power_for(*round, *step, *content), power);
    }
}

#[test]
fn powers_of_contents(rt: HostRuntime) {
    let mut tally = tally_of(&rt, rt.alloc(), 3);
    for (sender, content) in [(0u16, A), (0, B), (1, A)] {
        assert_same(&rt, &tally.add(prevote(0, sender, Some(content))), &Ok(()));
    }
    let powers = [
        (0, Step::Prevote, Some(A), 2),
        (0, Step::Prevote, Some(B), 1),
        (0, Step::Prevote, None, 0),
        (0, Step::Precommit, Some(A), 0),
        (1, Step::Prevote, Some(A), 0),
    ];
    assert_powers_for(&rt, &tally, &powers);
    assert_same(&rt, &tally.power_any(0, Step::Prevote), &2);
    assert_same(&rt, &tally.power_any(0, Step::Precommit), &0);
}

/// Adds empty prevotes, by round and sender, and finds that this becomes of each.
fn assert_added(
    rt: &impl Abort,
    tally: &mut Tally,
    votes: &[(u32, u16)],
    answer: Result<(), TallyFault>,
) {
    for (round, sender) in votes {
        assert_same(rt, &tally.add(prevote(*round, *sender, None)), &answer);
    }
}

#[test]
fn a_voter_has_512_messages(rt: HostRuntime) {
    let mut tally = tally_of(&rt, rt.alloc(), 3);
    for round in 0..512 {
        assert_added(&rt, &mut tally, &[(round, 0), (round, 3)], Ok(()));
    }
    let full = Err(TallyFault::VoterFull);
    assert_added(&rt, &mut tally, &[(512, 0)], full);
    assert_added(&rt, &mut tally, &[(511, 0)], Err(TallyFault::Repeat));
    assert_same(
        &rt,
        &propose(&rt, rt.alloc(), &mut tally, 0, 0, None),
        &full,
    );
    assert_added(&rt, &mut tally, &[(512, 1), (512, 3)], Ok(()));
}

/// Of the proposals of a sender in a round two are taken, each once.
fn assert_two_taken(rt: &impl Abort, alloc: Global, tally: &mut Tally) {
    let full = Err(TallyFault::VoterFull);
    let third = proposal(rt, alloc, 5, 0, Some(2));
    for (valid_round, answer) in [
        (None, Ok(())),
        (None, Err(TallyFault::Repeat)),
        (Some(1), Ok(())),
    ] {
        assert_same(rt, &propose(rt, alloc, tally, 5, 0, valid_round), &answer);
    }
    assert_same(rt, &tally.fault_of_proposal(&third), &full.err());
    assert_same(rt, &tally.add_proposal(&third), &full);
}

#[test]
fn two_proposals_of_a_round(rt: HostRuntime) {
    for me in [3u16, 0] {
        let mut tally = tally_of(&rt, rt.alloc(), me);
        assert_two_taken(&rt, rt.alloc(), &mut tally);
        for (round, sender) in [(6, 0), (5, 1)] {
            let told = propose(&rt, rt.alloc(), &mut tally, round, sender, Some(2));
            assert_same(&rt, &told, &Ok(()));
        }
    }
}

/// The power of all with a message of each of these rounds.
fn assert_powers_above(rt: &impl Abort, tally: &Tally, powers: &[(u32, u64)]) {
    for (round, power) in powers {
        assert_same(rt, &tally.power_above(*round), power);
    }
}

#[test]
fn messages_of_one_round(rt: HostRuntime) {
    let mut tally = tally_of(&rt, rt.alloc(), 3);
    keep_proposal(&rt, rt.alloc(), &mut tally, 7, 0);
    let votes = [(7, 0, None), (7, 1, Some(A)), (8, 2, Some(A))];
    keep_prevotes(&rt, &mut tally, &votes);
    assert_powers_above(&rt, &tally, &[(6, 0), (7, 2), (8, 1)]);
    keep_proposal(&rt, rt.alloc(), &mut tally, 8, 3);
    assert_powers_above(&rt, &tally, &[(8, 2)]);
}

#[test]
fn copies_and_clears(rt: HostRuntime) {
    let mut tally = tally_of(&rt, rt.alloc(), 3);
    let vote = prevote(0, 1, Some(A));
    tally.keep(vote).expect(&rt, "no memory");
    keep_proposal(&rt, rt.alloc(), &mut tally, 0, 0);
    let copy = tally.copy().expect(&rt, "no memory");
    tally.clear();
    assert_same(&rt, &tally.power_above(0), &0);
    assert_same(&rt, &tally.powers().count(), &4);
    assert_same(&rt, &copy.power_above(0), &2);
    assert_same(&rt, &copy.me(), &3);
    assert_same(&rt, &tally.add(vote), &Ok(()));
}

/// Numbers that look random, the same in each run.
#[derive(Drop)]
struct Dice(u64);

impl Dice {
    /// The next number, of so many bits as the mask has.
    fn roll(&mut self, mask: u32) -> u32 {
        self.0 = self
            .0
            .wrapping_mul(6364136223846793005)
            .wrapping_add(1442695040888963407);
        u32::try_from((self.0 >> 33) & u64::from(mask)).unwrap_or(0)
    }

    /// A number of a sender: of a validator, of none, or past the masks.
    fn sender(&mut self) -> u16 {
        match self.roll(15) {
            0..4 => 0,
            4..7 => 1,
            7..10 => 2,
            10..13 => 3,
            13 => 127,
            14 => 128,
            _ => 1000,
        }
    }

    fn content(&mut self) -> Option<Id> {
        match self.roll(3) {
            0 => None,
            1 => Some(A),
            _ => Some(B),
        }
    }

    fn vote(&mut self) -> Vote {
        let step = match self.roll(1) {
            0 => Step::Prevote,
            _ => Step::Precommit,
        };
        Vote {
            step,
            height: u64::from(self.roll(63) / 60),
            round: self.roll(3),
            sender: self.sender(),
            content: self.content(),
        }
    }
}

/// Which votes are asked about.
#[derive(Drop)]
struct Wanted {
    round: u32,
    step: Option<Step>,
    content: Option<Option<Id>>,
}

impl Wanted {
    fn is_met(&self, vote: &Vote) -> bool {
        vote.round == self.round
            && (self.step.is_none() || self.step == Some(vote.step))
            && (self.content.is_none() || self.content == Some(vote.content))
    }
}

/// The powers of the validators in the long run.
const POWERS: [(u16, u64); 4] = [(0, 5), (1, 1), (2, 2), (3, 4)];

/// The power of those with a wanted vote, or with one of the proposals by round and sender.
fn plain_power(votes: &[Vote], proposals: &[(u32, u16)], wanted: &Wanted) -> u64 {
    let mut power = 0u64;
    for (validator, of_one) in POWERS {
        if votes
            .iter()
            .any(|vote| vote.sender == validator && wanted.is_met(vote))
            || proposals.contains(&(wanted.round, validator))
        {
            power = power.saturating_add(of_one);
        }
    }
    power
}

/// Whether the sums of a round, step and content are the plain ones.
fn agrees_for(tally: &Tally, votes: &[Vote], wanted: &Wanted) -> bool {
    match (wanted.step, wanted.content) {
        (Some(step), Some(content)) => {
            tally.power_for(wanted.round, step, content) == plain_power(votes, &[], wanted)
        }
        (Some(step), None) => {
            tally.power_any(wanted.round, step) == plain_power(votes, &[], wanted)
        }
        _ => true,
    }
}

/// Whether all sums of a round and step are the plain ones.
fn agrees_at(tally: &Tally, votes: &[Vote], round: u32, step: Step) -> bool {
    [None, Some(None), Some(Some(A)), Some(Some(B))]
        .iter()
        .all(|content| {
            let wanted = Wanted {
                round,
                step: Some(step),
                content: *content,
            };
            agrees_for(tally, votes, &wanted)
        })
}

/// The power of all with a message of the round.
fn plain_above(votes: &[Vote], proposals: &[(u32, u16)], round: u32) -> u64 {
    let wanted = Wanted {
        round,
        step: None,
        content: None,
    };
    plain_power(votes, proposals, &wanted)
}

/// Whether all that the tally tells of a round is plain.
fn agrees_in(tally: &Tally, votes: &[Vote], proposals: &[(u32, u16)], round: u32) -> bool {
    agrees_at(tally, votes, round, Step::Prevote)
        && agrees_at(tally, votes, round, Step::Precommit)
        && tally.power_above(round) == plain_above(votes, proposals, round)
}

/// The highest of the four rounds in which more than a third of the power of 12 spoke.
fn plain_highest(votes: &[Vote], proposals: &[(u32, u16)]) -> Option<u32> {
    (0..4)
        .rev()
        .find(|round| plain_above(votes, proposals, *round) > 4)
}

/// Whether all that the tally tells is plain.
fn agrees(tally: &Tally, votes: &[Vote], proposals: &[(u32, u16)]) -> bool {
    (0..4).all(|round| agrees_in(tally, votes, proposals, round))
        && tally.highest_weak() == plain_highest(votes, proposals)
}

/// Whether a tally and a list agree on whether a vote is a repeat.
fn agrees_of(tally: &Tally, votes: &[Vote], vote: &Vote) -> bool {
    let is_repeat = tally.fault_of(vote) == Some(TallyFault::Repeat);
    is_repeat == votes.contains(vote)
}

/// The long run: a tally, and lists of what it kept.
#[derive(Drop)]
struct Run {
    tally: Tally,
    votes: Vec<Vote>,
    /// The kept proposals, by round and sender.
    proposals: Vec<(u32, u16)>,
    dice: Dice,
}

/// The run that begins, of validators with the powers of the long run.
fn run_of(rt: &impl Abort, alloc: Global) -> Run {
    Run {
        tally: tally_among(rt, alloc, &[5, 1, 2, 4], 3),
        votes: Vec::new(alloc),
        proposals: Vec::new(alloc),
        dice: Dice(1),
    }
}

impl Run {
    /// Whether all that the tally tells is what the lists do.
    fn agrees(&self) -> bool {
        agrees(&self.tally, &self.votes, &self.proposals)
    }

    /// Adds a vote: whether the tally knew if it is a repeat.
    fn add(&mut self, rt: &impl Abort, vote: Vote) -> bool {
        let known = agrees_of(&self.tally, &self.votes, &vote);
        if self.tally.add(vote).is_ok() {
            self.votes.push(vote).expect(rt, "no memory");
        }
        known
    }

    /// Adds a proposal of the round and the sender of a vote.
    fn propose(&mut self, rt: &impl Abort, alloc: Global, vote: &Vote) {
        let Vote { round, sender, .. } = *vote;
        let valid_round = Some(self.dice.roll(1));
        if propose(rt, alloc, &mut self.tally, round, sender, valid_round).is_ok() {
            self.proposals.push((round, sender)).expect(rt, "no memory");
        }
    }

    /// Adds one message: whether the tally tells what the lists do after it.
    fn one_more(&mut self, rt: &impl Abort, alloc: Global) -> bool {
        let vote = self.dice.vote();
        if self.dice.roll(7) > 0 {
            return self.add(rt, vote) && self.agrees();
        }
        self.propose(rt, alloc, &vote);
        self.agrees()
    }
}

#[test]
fn sums_of_a_long_run(rt: HostRuntime) {
    let mut run = run_of(&rt, rt.alloc());
    let mut plain = true;
    for _ in 0..300 {
        plain &= run.one_more(&rt, rt.alloc());
    }
    assert!(rt; plain);
    assert!(rt; run.votes.len() > 100);
    assert!(rt; run.proposals.len() > 20);
}

/// Keeps these prevotes, and finds this highest round in which more than a third spoke.
fn assert_highest(
    rt: &impl Abort,
    tally: &mut Tally,
    votes: &[(u32, u16, Option<Id>)],
    highest: Option<u32>,
) {
    keep_prevotes(rt, tally, votes);
    assert_same(rt, &tally.highest_weak(), &highest);
}

#[test]
fn the_highest_weak_round(rt: HostRuntime) {
    let mut tally = tally_of(&rt, rt.alloc(), 3);
    assert_highest(&rt, &mut tally, &[], None);
    assert_highest(&rt, &mut tally, &[(5, 0, None), (9, 0, None)], None);
    assert_highest(&rt, &mut tally, &[(5, 1, Some(A))], Some(5));
    assert_highest(&rt, &mut tally, &[(2, 0, None), (2, 1, None)], Some(5));
    keep_proposal(&rt, rt.alloc(), &mut tally, 9, 2);
    assert_highest(&rt, &mut tally, &[], Some(9));
    tally.clear();
    assert_highest(&rt, &mut tally, &[], None);
}

/// Keeps these precommits, by round, sender and content.
fn keep_precommits(rt: &impl Abort, tally: &mut Tally, votes: &[(u32, u16, Id)]) {
    for (round, sender, content) in votes {
        let vote = Vote {
            step: Step::Precommit,
            ..prevote(*round, *sender, Some(*content))
        };
        tally.keep(vote).expect(rt, "no memory");
    }
}

#[test]
fn the_decisive_rounds(rt: HostRuntime) {
    let mut tally = tally_of(&rt, rt.alloc(), 3);
    let votes = [
        (7, 0, A),
        (5, 0, A),
        (5, 1, B),
        (5, 2, A),
        (5, 1, A),
        (5, 3, A),
    ];
    keep_precommits(&rt, &mut tally, &votes);
    assert_same(&rt, &tally.decisive(), &[5].as_slice());
    tally.clear();
    assert!(rt; tally.decisive().is_empty());
}

#[test]
fn numbers_of_faults(rt: HostRuntime) {
    assert_same(&rt, &TallyFault::Repeat.number(), &1);
    assert_same(&rt, &TallyFault::OutOfMemory.number(), &3);
}

/// The empty tally of validator 1 among 128 of power 1.
fn tally_of_128(rt: &impl Abort, alloc: Global) -> Tally {
    tally_among(rt, alloc, &[1; 128], 1)
}

/// Each of the senders is another validator than those before it: with its vote there is this much power.
fn assert_apart(rt: &impl Abort, tally: &mut Tally, votes: &[(u64, u16)]) {
    for (power, sender) in votes {
        assert!(rt; !tally.has_voted(*sender, 0, Step::Prevote, Some(A)));
        assert_same(rt, &tally.add(prevote(0, *sender, Some(A))), &Ok(()));
        assert_powers(rt, tally, *power, 0, *power);
        assert_same(rt, &tally.power_any(0, Step::Prevote), power);
    }
}

#[test]
fn both_halves_of_the_masks(rt: HostRuntime) {
    for votes in [
        [(1, 64), (2, 0), (3, 127), (4, 63)],
        [(1, 0), (2, 64), (3, 63), (4, 127)],
    ] {
        let mut tally = tally_of_128(&rt, rt.alloc());
        assert_apart(&rt, &mut tally, &votes);
    }
}

/// The tally tells these powers of the prevotes and precommits for A, and this of all messages of the round.
fn assert_powers(rt: &impl Abort, tally: &Tally, prevotes: u64, precommits: u64, all: u64) {
    assert_same(rt, &tally.power_for(0, Step::Prevote, Some(A)), &prevotes);
    assert_same(
        rt,
        &tally.power_for(0, Step::Precommit, Some(A)),
        &precommits,
    );
    assert_same(rt, &tally.power_above(0), &all);
}

/// Keeps a prevote and a precommit for A of a validator, behind those of all validators before it.
fn keep_both(rt: &impl Abort, tally: &mut Tally, sender: u16) {
    let before = u64::from(sender);
    assert_powers(rt, tally, before, before, before);
    let vote = prevote(0, sender, Some(A));
    tally.keep(vote).expect(rt, "no memory");
    assert_powers(rt, tally, before + 1, before, before + 1);
    keep_precommits(rt, tally, &[(0, sender, A)]);
    assert_same(rt, &tally.highest_weak().is_some(), &(before >= 42));
    assert_same(rt, &tally.decisive().is_empty(), &(before < 85));
}

#[test]
fn all_128_validators(rt: HostRuntime) {
    let mut tally = tally_of_128(&rt, rt.alloc());
    for sender in 0..128u16 {
        keep_both(&rt, &mut tally, sender);
    }
    for sender in [0u16, 63, 64, 127] {
        let again = tally.fault_of(&prevote(0, sender, Some(A)));
        assert_same(&rt, &again, &Some(TallyFault::Repeat));
    }
    assert_powers(&rt, &tally, 128, 128, 128);
}

/// Adds the same prevote twice for each sender: the second one is a repeat.
fn add_twice(rt: &impl Abort, tally: &mut Tally, senders: &[u16]) {
    for sender in senders {
        let vote = prevote(0, *sender, Some(A));
        assert_same(rt, &tally.add(vote), &Ok(()));
        assert_same(rt, &tally.add(vote), &Err(TallyFault::Repeat));
    }
}

#[test]
fn the_last_validator(rt: HostRuntime) {
    let mut tally = tally_of_128(&rt, rt.alloc());
    add_twice(&rt, &mut tally, &[127, 0, 64, 128]);
    assert_same(&rt, &tally.power_for(0, Step::Prevote, Some(A)), &3);
    assert_same(&rt, &tally.power_for(0, Step::Precommit, Some(A)), &0);
    let voters = [(128, Step::Prevote, true), (126, Step::Prevote, false)];
    assert_voters(&rt, &tally, &voters);
}

/// A vote that is kept in room that was made before.
fn keep_vote_in_room(rt: &impl Abort, tally: &mut Tally) {
    let vote = prevote(0, 1, Some(A));
    tally.reserve_vote(&vote).expect(rt, "no memory");
    assert_same(rt, &tally.power_for(0, Step::Prevote, Some(A)), &0);
    tally.keep_reserved_vote(vote);
    assert_same(rt, &tally.power_for(0, Step::Prevote, Some(A)), &1);
}

/// A proposal of round 7 that is kept in room that was made before.
fn keep_proposal_in_room(rt: &impl Abort, tally: &mut Tally, proposed: Proposal) {
    tally
        .reserve_proposal(proposed.round)
        .expect(rt, "no memory");
    assert_same(rt, &tally.power_above(7), &0);
    tally.keep_reserved_proposal(proposed);
    assert_same(rt, &tally.power_above(7), &1);
}

/// Room that nothing takes.
fn forget_room(rt: &impl Abort, tally: &mut Tally) {
    tally
        .reserve_vote(&prevote(0, 2, Some(A)))
        .expect(rt, "no memory");
    tally.forget_reserved();
    assert_same(rt, &tally.power_any(0, Step::Prevote), &1);
}

#[test]
fn room_before_a_message(rt: HostRuntime) {
    let mut tally = tally_of(&rt, rt.alloc(), 3);
    keep_vote_in_room(&rt, &mut tally);
    keep_proposal_in_room(&rt, &mut tally, proposal(&rt, rt.alloc(), 7, 2, None));
    forget_room(&rt, &mut tally);
}
