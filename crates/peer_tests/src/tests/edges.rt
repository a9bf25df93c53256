//! Early frames, catching up, and what a second without a decision brings.

use super::assert_same;
use super::frames::{ask, bundle, deciding, own_ask, own_nil, own_vote, proposal, vote};
use super::running::{Course, Peers, STILL, add_step, count, held, run};
use messages::Step as VoteStep;
use peer_links::Step;
use peer_threads::Ending;
use status_words::Status;
use std::alloc::Global;
use std::process::Abort;

/// The frames of heights 1 and 0, in this order.
fn early(rt: &impl Abort, alloc: Global) -> Peers {
    let mut peers = Peers::new(rt, alloc);
    let wire = peers.wire(rt);
    peers.add_steps(
        rt,
        wire,
        [
            Step::Bytes(deciding(rt, alloc, 1)),
            Step::Bytes(deciding(rt, alloc, 0)),
        ],
    );
    peers
}

#[test]
fn early_frames_are_handed_in_after_the_decision(rt: HostRuntime) {
    let alloc = rt.alloc();
    let course = Course {
        stop: Some(2),
        ..STILL
    };
    let status = Status {
        height: 2,
        delivered: 2,
    };
    let told = run(&rt, alloc, early(&rt, alloc), course);
    assert_same(&rt, &told.ending, &Ending::Stopped);
    assert_same(&rt, &told.status, &status);
    let precommit = own_vote(&rt, alloc, VoteStep::Precommit, 1);
    assert_same(&rt, &count(&rt, &told, 0, &precommit), &1);
}

/// How many heights the node is behind.
const BEHIND: u8 = 100;

/// An ask of a later height, and then a bundle for each ask of the node.
fn ahead(rt: &impl Abort, alloc: Global) -> Peers {
    let mut peers = Peers::new(rt, alloc);
    let wire = peers.wire(rt);
    let mut half = peers.half(rt, &wire, 4_096);
    add_step(rt, &mut half, Step::Bytes(ask(rt, alloc, BEHIND)));
    for height in 0..BEHIND {
        let hold = held(rt, alloc, &wire, &own_ask(rt, alloc, height), 1);
        add_step(rt, &mut half, hold);
        add_step(rt, &mut half, Step::Bytes(bundle(rt, alloc, height)));
    }
    peers.add(rt, wire, half);
    peers
}

#[test]
fn who_is_behind_catches_up_without_the_timer(rt: HostRuntime) {
    let alloc = rt.alloc();
    let course = Course {
        stop: Some(u64::from(BEHIND)),
        ..STILL
    };
    let told = run(&rt, alloc, ahead(&rt, alloc), course);
    assert_same(&rt, &told.ending, &Ending::Stopped);
    let last = own_ask(&rt, alloc, BEHIND - 1);
    assert_same(&rt, &count(&rt, &told, 0, &last), &1);
}

/// Validator 0's prevote on one link, and another link that waits until it comes.
fn one_prevote(rt: &impl Abort, alloc: Global) -> Peers {
    let mut peers = Peers::new(rt, alloc);
    let first = peers.wire(rt);
    let second = peers.wire(rt);
    let prevote = vote(rt, alloc, VoteStep::Prevote, 0, 0);
    let hold = held(rt, alloc, &second, &prevote, 2);
    peers.add_steps(rt, first, [Step::Bytes(prevote), Step::End]);
    peers.add_steps(rt, second, [hold, Step::End]);
    peers
}

#[test]
fn a_vote_that_reached_one_alone_is_passed_on(rt: HostRuntime) {
    let alloc = rt.alloc();
    let course = Course {
        start: 86_400_000,
        step: 100,
        ..STILL
    };
    let told = run(&rt, alloc, one_prevote(&rt, alloc), course);
    assert_same(&rt, &told.ending, &Ending::Ended);
    let prevote = vote(&rt, alloc, VoteStep::Prevote, 0, 0);
    assert!(rt; count(&rt, &told, 1, &prevote) >= 2);
}

/// A link that waits until the node prevotes nil, says it again, and asks.
fn silent(rt: &impl Abort, alloc: Global) -> Peers {
    let mut peers = Peers::new(rt, alloc);
    let wire = peers.wire(rt);
    let again = held(rt, alloc, &wire, &own_nil(rt, alloc), 2);
    let asked = held(rt, alloc, &wire, &own_ask(rt, alloc, 0), 1);
    peers.add_steps(rt, wire, [again, asked, Step::End]);
    peers
}

#[test]
fn a_timeout_fires_and_each_second_all_is_said_again(rt: HostRuntime) {
    let alloc = rt.alloc();
    let course = Course {
        start: 200,
        step: 50,
        ..STILL
    };
    let told = run(&rt, alloc, silent(&rt, alloc), course);
    assert_same(&rt, &told.ending, &Ending::Ended);
    assert!(rt; count(&rt, &told, 0, &own_nil(&rt, alloc)) >= 2);
    assert!(rt; count(&rt, &told, 0, &own_ask(&rt, alloc, 0)) >= 1);
}
