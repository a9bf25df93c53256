//! Clients whose transactions are answered, beside validators.

use super::assert_same;
use super::frames::{
    ACCEPTED, OLD_NUMBER, SESSION_AHEAD, close, deciding, later, own_vote, put, transaction,
};
use super::running::{Course, Peers, STILL, Told, add_step, count, held, run, sent_on};
use log::Log;
use messages::Step as VoteStep;
use peer_links::{MemoryLink, Step};
use peer_threads::Ending;
use status_words::Status;
use std::alloc::Global;
use std::process::Abort;
use std::sync::Wait;
use std::thread::Threads;
use std::time::Clock;

/// How often this frame was sent on a link.
fn assert_count<R: Abort + Wait>(rt: &R, told: &Told, link: usize, frame: &[u8], wanted: usize) {
    assert_same(rt, &count(rt, told, link, frame), &wanted);
}

/// Two links, of which the first one's first piece is held until the second one's transaction was answered.
fn one_waits(rt: &impl Abort, alloc: Global) -> Peers {
    let mut peers = Peers::new(rt, alloc);
    let first = peers.wire(rt);
    let second = peers.wire(rt);
    let hold = held(rt, alloc, &second, &ACCEPTED, 1);
    let bytes = transaction(rt, alloc, 0, 1);
    peers.add_steps(rt, first, [hold, Step::Bytes(bytes), Step::End]);
    let bytes = transaction(rt, alloc, 1, 1);
    peers.add_steps(rt, second, [Step::Bytes(bytes), Step::End]);
    peers
}

#[test]
fn a_link_that_waits_delays_no_other(rt: HostRuntime) {
    let alloc = rt.alloc();
    let told = run(&rt, alloc, one_waits(&rt, alloc), STILL);
    assert_same(&rt, &told.ending, &Ending::Ended);
    assert_count(&rt, &told, 0, &ACCEPTED, 1);
    assert_count(&rt, &told, 1, &ACCEPTED, 1);
}

/// A client that closes, goes on in its next session, says that again, and leaves a session out.
fn two_sessions(rt: &impl Abort, alloc: Global) -> Peers {
    let mut peers = Peers::new(rt, alloc);
    let wire = peers.wire(rt);
    peers.add_steps(
        rt,
        wire,
        [
            Step::Bytes(transaction(rt, alloc, 0, 1)),
            Step::Bytes(close(rt, alloc, 0, 2)),
            Step::Bytes(later(rt, alloc, 0, 1, 1)),
            Step::Bytes(later(rt, alloc, 0, 1, 1)),
            Step::Bytes(later(rt, alloc, 0, 3, 1)),
            Step::End,
        ],
    );
    peers
}

#[test]
fn transactions_of_later_sessions_are_answered(rt: HostRuntime) {
    let alloc = rt.alloc();
    let told = run(&rt, alloc, two_sessions(&rt, alloc), STILL);
    assert_same(&rt, &told.ending, &Ending::Ended);
    assert_count(&rt, &told, 0, &ACCEPTED, 3);
    assert_count(&rt, &told, 0, &OLD_NUMBER, 1);
    assert_count(&rt, &told, 0, &SESSION_AHEAD, 1);
}

/// A client's numbers 1 to 8, and 8 again.
fn nine(rt: &impl Abort, alloc: Global, client: u8) -> Vec<u8> {
    let mut bytes = Vec::new(alloc);
    for number in [1, 2, 3, 4, 5, 6, 7, 8, 8] {
        put(rt, &mut bytes, &transaction(rt, alloc, client, number));
    }
    bytes
}

/// Adds a client's link, for whose last answer the validator waits.
fn add_client(
    rt: &impl Abort,
    alloc: Global,
    peers: &mut Peers,
    validator: &mut MemoryLink,
    client: u8,
    piece: usize,
) {
    let wire = peers.wire(rt);
    add_step(rt, validator, held(rt, alloc, &wire, &OLD_NUMBER, 1));
    let mut half = peers.half(rt, &wire, piece);
    add_step(rt, &mut half, Step::Bytes(nine(rt, alloc, client)));
    peers.add(rt, wire, half);
}

/// So many clients, and a validator whose frames are held until all clients are answered.
fn clients_and_validator(rt: &impl Abort, alloc: Global, clients: u8, piece: usize) -> Peers {
    let mut peers = Peers::new(rt, alloc);
    let last = peers.wire(rt);
    let mut validator = peers.half(rt, &last, piece);
    for client in 0..clients {
        add_client(rt, alloc, &mut peers, &mut validator, client, piece);
    }
    add_step(rt, &mut validator, Step::Bytes(deciding(rt, alloc, 0)));
    peers.add(rt, last, validator);
    peers
}

/// Each link is sent the node's two votes of height 0, and that of each client its replies.
fn assert_served<R: Abort + Wait>(rt: &R, alloc: Global, told: &Told, clients: usize) {
    let status = Status {
        height: 1,
        delivered: 1,
    };
    assert_same(rt, &told.ending, &Ending::Stopped);
    assert_same(rt, &told.status, &status);
    for step in [VoteStep::Prevote, VoteStep::Precommit] {
        assert_on_each(rt, told, clients, &own_vote(rt, alloc, step, 0));
    }
    for link in 0..=clients {
        let replies = if link == 0 { (0, 0) } else { (8, 1) };
        assert_count(rt, told, link, &ACCEPTED, replies.0);
        assert_count(rt, told, link, &OLD_NUMBER, replies.1);
        if link > 0 {
            let sent = sent_on(rt, alloc, told, link);
            assert!(rt; ends_with_reply(&sent, &OLD_NUMBER, &ACCEPTED));
        }
    }
}

/// This frame is sent once on the validator's link, and on that of each client.
fn assert_on_each<R: Abort + Wait>(rt: &R, told: &Told, clients: usize, frame: &[u8]) {
    for link in 0..=clients {
        assert_count(rt, told, link, frame, 1);
    }
}

/// Returns whether this reply was sent, and none of the others behind it.
fn ends_with_reply(sent: &[u8], last: &[u8], other: &[u8]) -> bool {
    let begins = |at: usize, reply: &[u8]| sent
        .get(at..)
        .is_some_and(|rest| rest.starts_with(reply));
    match (0..sent.len()).find(|at| begins(*at, last)) {
        Some(first) => !(first..sent.len()).any(|at| begins(at, other)),
        None => false,
    }
}

/// Such a run decides, and each client gets its replies.
fn assert_serves<R: Abort + Threads + Wait + Clock + Log + Sync>(
    rt: &R,
    alloc: Global,
    clients: u8,
    piece: usize,
) {
    let peers = clients_and_validator(rt, alloc, clients, piece);
    let course = Course {
        stop: Some(1),
        ..STILL
    };
    let told = run(rt, alloc, peers, course);
    assert_served(rt, alloc, &told, usize::from(clients));
}

#[test]
fn one_to_seven_clients_in_pieces_of_any_length(rt: HostRuntime) {
    for clients in 1..=7u8 {
        for piece in [1, 7, 4_096] {
            assert_serves(&rt, rt.alloc(), clients, piece);
        }
    }
}
