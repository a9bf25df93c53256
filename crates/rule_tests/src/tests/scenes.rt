//! Whole heights, scene by scene, at validator 3 unless it is told otherwise.

use super::{assert_same, *};

/// What comes to a validator at height 0.
#[derive(Clone, Copy)]
enum Comes {
    /// The proposal of a round, from its proposer: the round, its value's number and byte, and its
    /// valid round.
    Proposal(u32, u8, u8, Option<u32>),
    /// Votes of the validators from one up to another: for the value with this byte, or for nil.
    Votes(VoteStep, u32, (u16, u16), Option<u8>),
    /// A timeout of the present round.
    Due(Step),
}

/// What a validator then says.
#[derive(Clone, Copy)]
enum Says {
    Nothing,
    /// A vote in this round, for the value with this byte, or for nil.
    Vote(VoteStep, u32, Option<u8>),
    /// A decision in this round by this many precommits.
    Decision(u32, usize),
}

type Scene = (Comes, Says);

/// What was said.
#[derive(Clone, Copy, Debug, PartialEq, Eq)]
enum Said {
    Nothing,
    Vote(Vote),
    Decision(u16, u32, usize),
    Else,
}

/// What these bodies say.
fn outcome(bodies: &[Body]) -> Said {
    match bodies {
        [] => Said::Nothing,
        [Body::Vote(vote)] => Said::Vote(*vote),
        [Body::Bundle(bundle)] if bundle.height == 0 => {
            Said::Decision(bundle.sender, bundle.round, bundle.precommits.len())
        }
        _ => Said::Else,
    }
}

/// What is wanted of this validator.
fn wanted(rt: &impl Abort, validator: &Validator, says: Says) -> Said {
    let me = validator.state.me();
    match says {
        Says::Nothing => Said::Nothing,
        Says::Vote(step, round, byte) => {
            Said::Vote(vote(step, round, me, id_of(rt, validator.alloc, byte)))
        }
        Says::Decision(round, precommits) => Said::Decision(me, round, precommits),
    }
}

/// Lets come what comes. What is let go at once joins these bodies.
fn bring(rt: &impl Abort, validator: &mut Validator, comes: Comes, bodies: &mut Vec<Body>) {
    match comes {
        Comes::Proposal(round, number, byte, valid_round) => {
            let value = value_of(rt, validator.alloc, number, byte);
            hear_proposal(rt, validator, round, value, valid_round);
        }
        Comes::Votes(step, round, senders, byte) => {
            let content = id_of(rt, validator.alloc, byte);
            hear_votes(rt, validator, step, round, senders, content);
        }
        Comes::Due(kind) => {
            let holds = validator.time_out(rt, kind, bodies);
            assert!(rt; holds, "the timeout does not hold");
        }
    }
}

/// What a validator says after what comes.
fn play(rt: &impl Abort, validator: &mut Validator, comes: Comes) -> Said {
    let mut bodies = Vec::new(validator.alloc);
    bring(rt, validator, comes, &mut bodies);
    validator.settle(rt, &mut bodies);
    outcome(&bodies)
}

/// Follows these scenes: each is answered as it is wanted.
fn follow(rt: &impl Abort, validator: &mut Validator, scenes: &[Scene]) {
    for scene in scenes {
        let (comes, says) = *scene;
        let wanted = wanted(rt, validator, says);
        assert_same(rt, &play(rt, validator, comes), &wanted);
    }
}

/// The value with byte a is locked in round 0, at validator 1 or 3.
const LOCKING: [Scene; 3] = [
    (
        Comes::Proposal(0, 1, b'a', None),
        Says::Vote(VoteStep::Prevote, 0, Some(b'a')),
    ),
    (
        Comes::Votes(VoteStep::Prevote, 0, (0, 1), Some(b'a')),
        Says::Nothing,
    ),
    (
        Comes::Votes(VoteStep::Prevote, 0, (2, 3), Some(b'a')),
        Says::Vote(VoteStep::Precommit, 0, Some(b'a')),
    ),
];

/// Locks that value, and then follows these scenes.
fn lock_and_follow(rt: &impl Abort, validator: &mut Validator, scenes: &[Scene]) {
    follow(rt, validator, &LOCKING);
    follow(rt, validator, scenes);
}

fn assert_decided(rt: &impl Abort, state: &State) {
    let place = (state.height(), state.round(), state.step());
    assert_same(rt, &place, &(1, 0, Step::Propose));
    assert_same(rt, &state.decided().len(), &1);
    assert!(rt; state.lock().is_none());
}

fn decide(rt: &impl Abort, validator: &mut Validator) {
    let precommits = Comes::Votes(VoteStep::Precommit, 0, (0, 2), Some(b'a'));
    lock_and_follow(rt, validator, &[(precommits, Says::Decision(0, 3))]);
    assert_decided(rt, &validator.state);
}

#[test]
fn decides(rt: HostRuntime) {
    let mut validator = Validator::new(&rt, rt.alloc(), 3, true);
    decide(&rt, &mut validator);
}

/// A value whose transaction is not the client's next.
const LATER_VALUE: [Scene; 2] = [
    (
        Comes::Proposal(0, 3, b'a', None),
        Says::Vote(VoteStep::Prevote, 0, None),
    ),
    (
        Comes::Votes(VoteStep::Prevote, 0, (0, 2), None),
        Says::Vote(VoteStep::Precommit, 0, None),
    ),
];

fn refuse_later_value(rt: &impl Abort, validator: &mut Validator) {
    follow(rt, validator, &LATER_VALUE);
    assert!(rt; validator.state.lock().is_none());
}

#[test]
fn a_value_that_is_not_next(rt: HostRuntime) {
    let mut validator = Validator::new(&rt, rt.alloc(), 3, true);
    refuse_later_value(&rt, &mut validator);
}

/// A value with wrong tags at validator 2.
const WRONG_TAGS: [Scene; 3] = [
    (
        Comes::Proposal(0, 1, b'a', None),
        Says::Vote(VoteStep::Prevote, 0, None),
    ),
    (
        Comes::Votes(VoteStep::Precommit, 0, (3, 4), Some(b'a')),
        Says::Nothing,
    ),
    (
        Comes::Votes(VoteStep::Precommit, 0, (0, 2), Some(b'a')),
        Says::Decision(0, 3),
    ),
];

/// It is prevoted nil, and decided all the same.
#[test]
fn a_value_with_wrong_tags(rt: HostRuntime) {
    let mut validator = Validator::new(&rt, rt.alloc(), 2, false);
    follow(&rt, &mut validator, &WRONG_TAGS);
}

/// After a lock, what is prevoted for the value with this byte in round 1.
fn prevote_after_lock(rt: &impl Abort, validator: &mut Validator, byte: u8, prevoted: Option<u8>) {
    let scenes = [
        (Comes::Due(Step::Precommit), Says::Nothing),
        (
            Comes::Proposal(1, 1, byte, None),
            Says::Vote(VoteStep::Prevote, 1, prevoted),
        ),
    ];
    lock_and_follow(rt, validator, &scenes);
}

#[test]
fn a_lock_allows_its_value(rt: HostRuntime) {
    let mut validator = Validator::new(&rt, rt.alloc(), 3, true);
    prevote_after_lock(&rt, &mut validator, b'a', Some(b'a'));
}

#[test]
fn a_lock_forbids_another_value(rt: HostRuntime) {
    let mut validator = Validator::new(&rt, rt.alloc(), 3, true);
    prevote_after_lock(&rt, &mut validator, b'b', None);
}

/// What comes after the lock of round 0 until another value is decided.
const UNLOCKING: [Scene; 8] = [
    (Comes::Due(Step::Precommit), Says::Nothing),
    (
        Comes::Due(Step::Propose),
        Says::Vote(VoteStep::Prevote, 1, None),
    ),
    (
        Comes::Votes(VoteStep::Prevote, 1, (0, 3), Some(b'b')),
        Says::Nothing,
    ),
    (
        Comes::Due(Step::Prevote),
        Says::Vote(VoteStep::Precommit, 1, None),
    ),
    (Comes::Due(Step::Precommit), Says::Nothing),
    (
        Comes::Proposal(2, 1, b'b', Some(1)),
        Says::Vote(VoteStep::Prevote, 2, Some(b'b')),
    ),
    (
        Comes::Votes(VoteStep::Prevote, 2, (0, 2), Some(b'b')),
        Says::Vote(VoteStep::Precommit, 2, Some(b'b')),
    ),
    (
        Comes::Votes(VoteStep::Precommit, 2, (0, 2), Some(b'b')),
        Says::Decision(2, 3),
    ),
];

/// A quorum of round 1 lets go of the lock of round 0: the value of round 1 is decided in round 2.
#[test]
fn unlocks(rt: HostRuntime) {
    let mut validator = Validator::new(&rt, rt.alloc(), 3, true);
    lock_and_follow(&rt, &mut validator, &UNLOCKING);
}

fn skip_rounds(rt: &impl Abort, validator: &mut Validator) {
    for (step, round, sender, skipped_to) in [
        (VoteStep::Prevote, 5, 0, 0),
        (VoteStep::Prevote, 6, 1, 0),
        (VoteStep::Precommit, 5, 1, 5),
    ] {
        let votes = Comes::Votes(step, round, (sender, sender + 1), None);
        assert_same(rt, &play(rt, validator, votes), &Said::Nothing);
        assert_same(rt, &validator.state.round(), &skipped_to);
    }
}

#[test]
fn skips_rounds(rt: HostRuntime) {
    let mut validator = Validator::new(&rt, rt.alloc(), 3, true);
    skip_rounds(&rt, &mut validator);
}

/// What a validator says as its round's precommits time out, if it then proposes.
fn open_next_round(rt: &impl Abort, validator: &mut Validator) -> Opening {
    let mut bodies = Vec::new(validator.alloc);
    bring(rt, validator, Comes::Due(Step::Precommit), &mut bodies);
    validator.settle(rt, &mut bodies);
    opening(rt, validator.alloc, &bodies)
}

fn propose_again(rt: &impl Abort, validator: &mut Validator) {
    follow(rt, validator, &LOCKING);
    let id = id_of(rt, validator.alloc, Some(b'a'));
    let prevote = vote(VoteStep::Prevote, 1, 1, id);
    assert_same(
        rt,
        &open_next_round(rt, validator),
        &(1, Some(0), id, prevote),
    );
}

/// Validator 1 locks a value in round 0. As round 1 begins it proposes it again, and prevotes it.
#[test]
fn proposes_the_valid_value(rt: HostRuntime) {
    let mut validator = Validator::new(&rt, rt.alloc(), 1, true);
    propose_again(&rt, &mut validator);
}
