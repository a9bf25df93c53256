//! Heights that are held open while nothing waits.

use super::turns::turns_of;
use super::{
    GUARDED, PREVOTE, PROPOSAL, assert_same, came, dial_all, duties, of_round, on_edge, released,
};
use peer_core::{Manner, PeerCore};
use protocol::{Step, Timeout};
use std::alloc::AllocGlobal;
use std::process::Abort;

const RESTING: Manner = Manner {
    rest: 60_000,
    ..GUARDED
};

/// The propose timeout of a height's first round.
fn propose(height: u64) -> Timeout {
    Timeout {
        kind: Step::Propose,
        height,
        round: 0,
    }
}

/// Has the edge wait for the propose timeout of a height's first round.
fn schedule<R: Abort>(rt: &R, edge: &mut PeerCore, height: u64, now: u64) {
    edge.scheduled(propose(height), now)
        .expect(rt, "the timeout has room");
}

/// A transaction's front: a frame of kind 01.
const TRANSACTION: [u8; 5] = [0, 0, 0, 1, 1];

/// How many timeouts are fired between two times, a second at a time.
fn fired(edge: &mut PeerCore, from: u64, to: u64) -> u32 {
    let mut sum = 0u32;
    for second in from..=to {
        sum = sum.saturating_add(duties(edge, second.saturating_mul(1_000)).fired);
    }
    sum
}

/// It is held open for a minute, and then its timeout lasts as long as ever.
#[test]
fn a_height_is_held_open(rt: HostRuntime) {
    on_edge(&rt, RESTING, try_a_height_is_held_open);
}

fn try_a_height_is_held_open<R: Abort + AllocGlobal>(rt: &R, edge: &mut PeerCore) {
    dial_all(rt, edge);
    schedule(rt, edge, 0, 0);
    assert_same(rt, &fired(edge, 0, 60), &0);
    assert_same(rt, &fired(edge, 61, 62), &1);
}

/// A transaction wakes it, goes to all validators, and the next heights aren't held open.
#[test]
fn a_transaction_wakes(rt: HostRuntime) {
    on_edge(&rt, RESTING, try_a_transaction_wakes);
}

fn try_a_transaction_wakes<R: Abort + AllocGlobal>(rt: &R, edge: &mut PeerCore) {
    dial_all(rt, edge);
    let _ = duties(edge, 0);
    schedule(rt, edge, 0, 0);
    came(edge, 9, &TRANSACTION, Ok(()), 0, 1_000);
    assert_same(rt, &duties(edge, 1_000).sent, &1);
    assert_same(rt, &fired(edge, 1, 2), &1);
    assert!(rt; edge.told(1, 2_000));
    schedule(rt, edge, 1, 2_000);
    assert_same(rt, &fired(edge, 2, 3), &1);
}

/// A vote of the height that the node has just left doesn't say that the next one goes on, whose propose timeout it has scheduled.
#[test]
fn a_vote_of_the_height_before_wakes_nobody(rt: HostRuntime) {
    on_edge(&rt, RESTING, try_a_vote_of_the_height_before_wakes_nobody);
}

fn try_a_vote_of_the_height_before_wakes_nobody<R: Abort + AllocGlobal>(
    rt: &R,
    edge: &mut PeerCore,
) {
    dial_all(rt, edge);
    let _ = duties(edge, 0);
    schedule(rt, edge, 1, 0);
    came(edge, 1, &of_round(PREVOTE, 0, 0), Ok(()), 1, 0);
    assert_same(rt, &fired(edge, 0, 10), &0);
    came(edge, 1, &of_round(PREVOTE, 1, 0), Ok(()), 1, 10_000);
    assert_same(rt, &fired(edge, 10, 11), &1);
}

/// A vote for nil says that something happens in this height; one for a value that it goes on.
#[test]
fn a_vote_stirs(rt: HostRuntime) {
    on_edge(&rt, RESTING, try_a_vote_stirs);
}

fn try_a_vote_stirs<R: Abort + AllocGlobal>(rt: &R, edge: &mut PeerCore) {
    dial_all(rt, edge);
    schedule(rt, edge, 0, 0);
    let mut vote = of_round(PREVOTE, 0, 2);
    came(edge, 2, &vote, Ok(()), 0, 0);
    assert_same(rt, &fired(edge, 0, 1), &1);
    assert!(rt; edge.told(1, 1_000));
    schedule(rt, edge, 1, 1_000);
    assert_same(rt, &fired(edge, 1, 9), &0);
    vote[12] = 1;
    vote[19] = 0;
    came(edge, 2, &vote, Ok(()), 1, 9_000);
    assert_same(rt, &fired(edge, 9, 10), &1);
    assert!(rt; edge.told(2, 10_000));
    schedule(rt, edge, 2, 10_000);
    assert_same(rt, &fired(edge, 10, 19), &0);
}

/// A proposal of a transaction wakes it for more than its height.
#[test]
fn a_proposal_of_transactions_wakes(rt: HostRuntime) {
    on_edge(&rt, RESTING, try_a_proposal_of_transactions_wakes);
}

fn try_a_proposal_of_transactions_wakes<R: Abort + AllocGlobal>(rt: &R, edge: &mut PeerCore) {
    dial_all(rt, edge);
    schedule(rt, edge, 0, 0);
    let mut proposal = of_round(PROPOSAL, 0, 0);
    proposal[24] = 1;
    came(edge, 1, &proposal, Ok(()), 0, 0);
    assert_same(rt, &fired(edge, 0, 1), &1);
    assert!(rt; edge.told(1, 1_000));
    schedule(rt, edge, 1, 1_000);
    assert_same(rt, &fired(edge, 1, 2), &1);
}

/// A proposal of a transaction that comes behind the precommits which decide it wakes it too: its height has ended by then.
#[test]
fn a_proposal_that_ends_its_height_wakes(rt: HostRuntime) {
    on_edge(&rt, RESTING, try_a_proposal_that_ends_its_height_wakes);
}

fn try_a_proposal_that_ends_its_height_wakes<R: Abort + AllocGlobal>(rt: &R, edge: &mut PeerCore) {
    dial_all(rt, edge);
    assert!(rt; edge.told(1, 0));
    schedule(rt, edge, 1, 0);
    let mut proposal = of_round(PROPOSAL, 0, 0);
    proposal[24] = 1;
    came(edge, 1, &proposal, Ok(()), 1, 0);
    assert_same(rt, &fired(edge, 0, 1), &1);
    assert!(rt; edge.told(2, 1_000));
    schedule(rt, edge, 2, 1_000);
    assert_same(rt, &fired(edge, 1, 2), &1);
}

/// Its own proposal of no transactions waits as long, and goes once something happens.
#[test]
fn an_own_proposal_rests(rt: HostRuntime) {
    on_edge(&rt, RESTING, try_an_own_proposal_rests);
}

fn try_an_own_proposal_rests<R: Abort + AllocGlobal>(rt: &R, edge: &mut PeerCore) {
    dial_all(rt, edge);
    let _ = duties(edge, 0);
    assert_same(rt, &released(rt, edge, &of_round(PROPOSAL, 0, 1), 0), &0);
    assert_same(rt, &duties(edge, 59_999).sent, &0);
    came(edge, 9, &TRANSACTION, Ok(()), 0, 59_999);
    assert_same(rt, &duties(edge, 59_999).sent, &2);
}

/// A second transaction isn't passed on where its own turn comes soon.
#[test]
fn a_near_turn_is_waited_for(rt: HostRuntime) {
    on_edge(&rt, RESTING, try_a_near_turn_is_waited_for);
}

fn try_a_near_turn_is_waited_for<R: Abort + AllocGlobal>(rt: &R, edge: &mut PeerCore) {
    dial_all(rt, edge);
    let _ = duties(edge, 0);
    came(edge, 9, &TRANSACTION, Ok(()), 0, 1_000);
    assert_same(rt, &duties(edge, 1_000).sent, &1);
    came(edge, 9, &TRANSACTION, Ok(()), 0, 1_000);
    assert_same(rt, &duties(edge, 1_000).sent, &0);
    assert!(rt; edge.told(5, 2_000));
    schedule(rt, edge, 5, 2_000);
    assert_same(rt, &fired(edge, 2, 3), &1);
}

/// The second of four validators in this manner, whose turns are the height behind the first hundred of 301, and so on.
fn seldom<R: Abort + AllocGlobal>(rt: &R, manner: Manner) -> Manner {
    Manner {
        turns: turns_of(rt, &[100, 1, 100, 100], 1),
        ..manner
    }
}

/// Where its own turn is far it passes on each transaction of a client, and rests as soon as the others do.
#[test]
fn a_far_turn_is_not_waited_for(rt: HostRuntime) {
    on_edge(&rt, seldom(&rt, RESTING), try_a_far_turn_is_not_waited_for);
}

fn try_a_far_turn_is_not_waited_for<R: Abort + AllocGlobal>(rt: &R, edge: &mut PeerCore) {
    dial_all(rt, edge);
    let _ = duties(edge, 0);
    came(edge, 9, &TRANSACTION, Ok(()), 0, 1_000);
    came(edge, 9, &TRANSACTION, Ok(()), 0, 1_000);
    assert_same(rt, &duties(edge, 1_000).sent, &2);
    assert!(rt; edge.told(5, 2_000));
    schedule(rt, edge, 5, 2_000);
    assert_same(rt, &fired(edge, 2, 61), &0);
}

/// Where no height is held open it does so too, but not with what a validator passed on, nor shortly before its turn.
#[test]
fn awake_a_far_turn_is_not_waited_for(rt: HostRuntime) {
    on_edge(
        &rt,
        seldom(&rt, GUARDED),
        try_awake_a_far_turn_is_not_waited_for,
    );
}

fn try_awake_a_far_turn_is_not_waited_for<R: Abort + AllocGlobal>(rt: &R, edge: &mut PeerCore) {
    dial_all(rt, edge);
    let _ = duties(edge, 0);
    came(edge, 9, &TRANSACTION, Ok(()), 0, 1_000);
    assert_same(rt, &duties(edge, 1_000).sent, &1);
    came(edge, 2, &TRANSACTION, Ok(()), 0, 1_000);
    assert_same(rt, &duties(edge, 1_000).sent, &0);
    assert!(rt; edge.told(96, 1_000));
    came(edge, 9, &TRANSACTION, Ok(()), 96, 1_000);
    assert_same(rt, &duties(edge, 1_000).sent, &0);
}
