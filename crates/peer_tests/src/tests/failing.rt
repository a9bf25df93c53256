//! Links that fail, and a store that does.

use super::assert_same;
use super::frames::{ACCEPTED, HALTED, OLD_NUMBER, own_vote, proposal, put, transaction};
use super::running::{Course, Peers, STILL, Told, add_step, count, run};
use log::Log;
use messages::Step as VoteStep;
use peer_links::Step;
use peer_threads::{Ending, MOST_OPEN_LINKS};
use status_words::Status;
use std::alloc::Global;
use std::process::Abort;
use std::sync::Wait;
use std::thread::Threads;
use std::time::Clock;

const NOTHING: Status = Status {
    height: 0,
    delivered: 0,
};

/// One link, which fails once so many bytes of these came.
fn broken(rt: &impl Abort, alloc: Global, bytes: &[u8], after: usize) -> Peers {
    let mut peers = Peers::new(rt, alloc);
    let wire = peers.wire(rt);
    let mut half = peers.half(rt, &wire, 4_096);
    let bytes = bytes.to_vec(alloc).expect(rt, "no memory");
    add_step(rt, &mut half, Step::Bytes(bytes));
    half.fail_after(after);
    peers.add(rt, wire, half);
    peers
}

/// Whether nothing is sent, and the node has taken nothing in, of a proposal of which so many bytes came.
fn leaves_nothing<R: Abort + Threads + Wait + Clock + Log + Sync>(
    rt: &R,
    alloc: Global,
    frame: &[u8],
    after: usize,
) -> bool {
    let told = run(rt, alloc, broken(rt, alloc, frame, after), STILL);
    let prevote = own_vote(rt, alloc, VoteStep::Prevote, 0);
    let sent = count(rt, &told, 0, &prevote);
    told.ending == Ending::Ended && told.status == NOTHING && sent == 0
}

#[test]
fn a_frame_that_is_cut_leaves_nothing(rt: HostRuntime) {
    let alloc = rt.alloc();
    let frame = proposal(&rt, alloc, 0);
    for after in 0..frame.len() {
        assert!(rt; leaves_nothing(&rt, alloc, &frame, after));
    }
    assert!(rt; !leaves_nothing(&rt, alloc, &frame, frame.len()));
}

/// A transaction, a frame of no kind, a length above the limit, and a transaction behind it, byte by byte.
fn too_long(rt: &impl Abort, alloc: Global) -> Peers {
    let mut peers = Peers::new(rt, alloc);
    let wire = peers.wire(rt);
    let mut half = peers.half(rt, &wire, 1);
    let bad = vec![in alloc; 0u8, 0, 0, 1, 0x7f, 0, 0x10, 0, 1].expect(rt, "no memory");
    add_step(rt, &mut half, Step::Bytes(transaction(rt, alloc, 0, 1)));
    add_step(rt, &mut half, Step::Bytes(bad));
    add_step(rt, &mut half, Step::Bytes(transaction(rt, alloc, 0, 2)));
    peers.add(rt, wire, half);
    peers
}

#[test]
fn a_length_above_the_limit_ends_the_link(rt: HostRuntime) {
    let alloc = rt.alloc();
    let told = run(&rt, alloc, too_long(&rt, alloc), STILL);
    assert_same(&rt, &told.ending, &Ending::Ended);
    assert_same(&rt, &count(&rt, &told, 0, &ACCEPTED), &1);
}

/// A link that brings the proposal of height 0.
fn proposed(rt: &impl Abort, alloc: Global) -> Peers {
    let mut peers = Peers::new(rt, alloc);
    let wire = peers.wire(rt);
    peers.add_steps(rt, wire, [Step::Bytes(proposal(rt, alloc, 0))]);
    peers
}

/// A store whose third append or sync fails, as the node's first vote is saved.
#[test]
fn a_store_that_fails_halts(rt: HostRuntime) {
    let alloc = rt.alloc();
    let course = Course {
        failing: 4,
        ..STILL
    };
    let told = run(&rt, alloc, proposed(&rt, alloc), course);
    assert_same(&rt, &told.ending, &Ending::Halted);
    let prevote = own_vote(&rt, alloc, VoteStep::Prevote, 0);
    assert_same(&rt, &count(&rt, &told, 0, &prevote), &0);
}

/// A link that brings the proposal of height 0 and, with it, a transaction.
fn proposed_with_transaction(rt: &impl Abort, alloc: Global) -> Peers {
    let mut peers = Peers::new(rt, alloc);
    let wire = peers.wire(rt);
    let mut bytes = proposal(rt, alloc, 0);
    put(rt, &mut bytes, &transaction(rt, alloc, 0, 1));
    peers.add_steps(rt, wire, [Step::Bytes(bytes)]);
    peers
}

/// What is refused since the store has failed is replied before all ends.
#[test]
fn a_transaction_behind_a_failure_is_refused(rt: HostRuntime) {
    let alloc = rt.alloc();
    let course = Course {
        failing: 4,
        ..STILL
    };
    let told = run(&rt, alloc, proposed_with_transaction(&rt, alloc), course);
    assert_same(&rt, &told.ending, &Ending::Halted);
    assert_same(&rt, &count(&rt, &told, 0, &HALTED), &1);
}

/// A link that brings a transaction and then nothing, until it fails after fifteen seconds: long enough for
/// all others to be opened meanwhile, on a busy machine too.
fn add_lasting(rt: &impl Abort, alloc: Global, peers: &mut Peers) {
    let wire = peers.wire(rt);
    let mut half = peers.half_of_turns(rt, &wire, 4_096, 150);
    half.set_turn(100);
    add_step(rt, &mut half, Step::Bytes(transaction(rt, alloc, 0, 1)));
    peers.add(rt, wire, half);
}

/// One link more than may be open.
fn crowd(rt: &impl Abort, alloc: Global) -> Peers {
    let mut peers = Peers::new(rt, alloc);
    for _ in 0..=MOST_OPEN_LINKS {
        add_lasting(rt, alloc, &mut peers);
    }
    peers
}

/// How many of these links were answered.
fn answered<R: Wait>(rt: &R, told: &Told) -> usize {
    let mut links = 0usize;
    for link in 0..told.wires.len() {
        links = links
            .saturating_add(count(rt, told, link, &ACCEPTED))
            .saturating_add(count(rt, told, link, &OLD_NUMBER));
    }
    links
}

/// Of clients that were answered some make room for the last ones.
#[test]
fn a_crowd_is_answered(rt: HostRuntime) {
    let alloc = rt.alloc();
    let told = run(&rt, alloc, crowd(&rt, alloc), STILL);
    assert_same(&rt, &told.ending, &Ending::Ended);
    assert_same(&rt, &told.wires.len(), &(MOST_OPEN_LINKS + 1));
    assert!(rt; answered(&rt, &told) >= MOST_OPEN_LINKS);
}
