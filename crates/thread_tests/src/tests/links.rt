//! What no contract says: that what was written down comes, and in pieces; whom dials reach.

use super::{assert_dials, assert_same};
use peer_links::{
    Dialed, Link, Links, MemoryLink, MemoryLinks, Next, PIECE_BYTES, Peer, Received, Sent, Step,
    Way, Wire,
};
use std::alloc::Global;
use std::process::Abort;
use std::sync::{Arc, Wait};
use std::time::Clock;

/// A wire on which nothing was sent.
fn wire_of<R: Abort>(rt: &R, alloc: Global) -> Arc<Wire> {
    Arc::new(alloc, Wire::new(alloc)).expect(rt, "no memory")
}

/// A link on this wire that brings nothing, with pieces of so many bytes, which fails after so many turns.
fn link_on<R: Abort>(
    rt: &R,
    alloc: Global,
    wire: &Arc<Wire>,
    piece: usize,
    turns: u64,
) -> MemoryLink {
    let shared = Arc::try_clone(wire).expect(rt, "no memory");
    MemoryLink::new(alloc, shared, piece, turns)
}

/// A link on a wire of its own.
fn link_of<R: Abort>(rt: &R, alloc: Global, piece: usize, turns: u64) -> MemoryLink {
    MemoryLink::new(alloc, wire_of(rt, alloc), piece, turns)
}

/// Adds what the link brings next.
fn add<R: Abort>(rt: &R, link: &mut MemoryLink, step: Step) {
    link.add(step).expect(rt, "no memory");
}

/// These bytes, for a step of a link.
fn bytes_of<R: Abort>(rt: &R, alloc: Global, bytes: &[u8]) -> Vec<u8> {
    Vec::from_slice(alloc, bytes).expect(rt, "no memory")
}

/// Writes what so many calls bring behind the other bytes: the last answer.
fn read_into<R: Abort + Wait + Clock>(
    rt: &R,
    link: &mut MemoryLink,
    calls: usize,
    all: &mut Vec<u8>,
) -> Received {
    let mut last = Received::Idle;
    for _ in 0..calls {
        let mut piece = [0u8; PIECE_BYTES];
        last = link.recv(rt, &mut piece);
        if let Received::Piece(count) = last {
            all.extend_from_slice(&piece[..count])
                .expect(rt, "no memory");
        }
    }
    last
}

/// So many calls bring these bytes, and the last of them gives this answer.
fn assert_read<R: Abort + Wait + Clock>(
    rt: &R,
    alloc: Global,
    link: &mut MemoryLink,
    calls: usize,
    wanted: (&[u8], Received),
) {
    let (bytes, last) = wanted;
    let mut all = Vec::new(alloc);
    assert_same(rt, &read_into(rt, link, calls, &mut all), &last);
    assert_same(rt, &all.as_slice(), &bytes);
}

#[test]
fn bytes_come_in_pieces(rt: HostRuntime) {
    let alloc = rt.alloc();
    let mut link = link_of(&rt, alloc, 2, 100);
    add(
        &rt,
        &mut link,
        Step::Bytes(bytes_of(&rt, alloc, &[1, 2, 3])),
    );
    let wanted = (&[1, 2, 3][..], Received::Piece(1));
    assert_read(&rt, alloc, &mut link, 2, wanted);
}

#[test]
fn fails_at_a_byte(rt: HostRuntime) {
    let alloc = rt.alloc();
    let mut link = link_of(&rt, alloc, 2, 100);
    let bytes = bytes_of(&rt, alloc, &[1, 2, 3, 4]);
    add(&rt, &mut link, Step::Bytes(bytes));
    link.fail_after(3);
    let wanted = (&[1, 2, 3][..], Received::Failed);
    assert_read(&rt, alloc, &mut link, 3, wanted);
    assert_same(&rt, &link.failures(), &1);
}

/// Lets the link bring nothing until 7 was sent on this wire, and then end.
fn add_hold<R: Abort>(rt: &R, alloc: Global, link: &mut MemoryLink, wire: Arc<Wire>) {
    let hold = Step::Hold {
        wire,
        bytes: bytes_of(rt, alloc, &[7]),
        count: 1,
    };
    add(rt, link, hold);
    add(rt, link, Step::End);
}

#[test]
fn waits_for_what_is_sent(rt: HostRuntime) {
    let alloc = rt.alloc();
    let wire = wire_of(&rt, alloc);
    let mut writer = link_on(&rt, alloc, &wire, 1, 100);
    let mut link = link_on(&rt, alloc, &wire, 9, 2);
    add_hold(&rt, alloc, &mut link, wire);
    assert_read(&rt, alloc, &mut link, 2, (&[], Received::Idle));
    assert_same(&rt, &writer.send(&rt, &[7]), &Sent::Taken(1));
    assert_read(&rt, alloc, &mut link, 2, (&[], Received::Ended));
}

/// What comes of sending these bytes, one after the other.
fn assert_sent<R: Abort + Wait + Clock>(rt: &R, link: &mut MemoryLink, calls: &[(&[u8], Sent)]) {
    for (bytes, sent) in calls {
        assert_same(rt, &link.send(rt, bytes), sent);
    }
}

#[test]
fn sends_until_a_byte(rt: HostRuntime) {
    let alloc = rt.alloc();
    let wire = wire_of(&rt, alloc);
    let mut link = link_on(&rt, alloc, &wire, 1, 100);
    link.fail_after(3);
    let calls = [(&[1, 2, 3, 4][..], Sent::Taken(3)), (&[4], Sent::Failed)];
    assert_sent(&rt, &mut link, &calls);
    assert_same(&rt, &link.failures(), &1);
    let sent = wire.bytes(&rt).expect(&rt, "no memory");
    assert_same(&rt, &sent.as_slice(), &&[1u8, 2, 3][..]);
}

#[test]
fn a_slow_link_takes_little_at_a_time(rt: HostRuntime) {
    let alloc = rt.alloc();
    let wire = wire_of(&rt, alloc);
    let mut link = link_on(&rt, alloc, &wire, 1, 0);
    link.take_at_most(2);
    link.take_nothing_for(1);
    let calls = [
        (&[1, 2, 3][..], Sent::Idle),
        (&[1, 2, 3], Sent::Taken(2)),
        (&[3], Sent::Taken(1)),
        (&[], Sent::Idle),
    ];
    assert_sent(&rt, &mut link, &calls);
    assert_same(&rt, &link.failures(), &0);
    assert_same(&rt, &wire.count(&rt, &[1, 2, 3]), &1);
}

#[test]
fn a_half_open_link_is_silent(rt: HostRuntime) {
    let alloc = rt.alloc();
    let mut link = link_of(&rt, alloc, 1, 0);
    add(&rt, &mut link, Step::Silence);
    add(&rt, &mut link, Step::End);
    assert_read(&rt, alloc, &mut link, 5, (&[], Received::Idle));
    assert_same(&rt, &link.send(&rt, &[1]), &Sent::Taken(1));
}

#[test]
fn a_reset_fails_both_halves(rt: HostRuntime) {
    let alloc = rt.alloc();
    let wire = wire_of(&rt, alloc);
    let mut writer = link_on(&rt, alloc, &wire, 1, 0);
    let mut reader = link_on(&rt, alloc, &wire, 1, 0);
    add(&rt, &mut reader, Step::Reset);
    assert_same(&rt, &writer.send(&rt, &[1]), &Sent::Taken(1));
    assert_read(&rt, alloc, &mut reader, 2, (&[], Received::Failed));
    assert_same(&rt, &writer.send(&rt, &[1]), &Sent::Failed);
    assert_same(&rt, &writer.failures(), &1);
}

/// A peer that brings nothing.
fn peer_of<R: Abort>(rt: &R, alloc: Global) -> Peer<MemoryLink> {
    let wire = wire_of(rt, alloc);
    Peer {
        reader: link_on(rt, alloc, &wire, 1, 0),
        writer: link_on(rt, alloc, &wire, 1, 0),
        name: format!(in alloc; "memory").expect(rt, "no memory"),
        way: Way::Accepted,
    }
}

/// A source that gives one peer. Dials reach validator 1, and validator 2 by the second one.
fn links_of<R: Abort>(rt: &R, alloc: Global) -> MemoryLinks {
    let mut links = MemoryLinks::new(alloc, 0).expect(rt, "no memory");
    links.add_unreached(2).expect(rt, "no memory");
    for validator in [1, 2] {
        links
            .add_reached(validator, peer_of(rt, alloc))
            .expect(rt, "no memory");
    }
    links.add(peer_of(rt, alloc)).expect(rt, "no memory");
    links
}

/// How the link of the source's next peer came about, if a peer is left.
fn next_way<R: Wait + Clock>(rt: &R, links: &mut MemoryLinks) -> Option<Way> {
    match links.next(rt) {
        Next::Peer(peer) => Some(peer.way),
        Next::Idle | Next::None => None,
    }
}

#[test]
fn dials_reach_whom_they_are_to(rt: HostRuntime) {
    let mut links = links_of(&rt, rt.alloc());
    let mut dialer = links.dialer().expect(&rt, "no memory");
    let dials = [
        (2, Dialed::Unreached),
        (2, Dialed::Reached),
        (2, Dialed::Unreached),
        (1, Dialed::Reached),
    ];
    assert_dials(&rt, &mut dialer, &dials);
    for way in [Way::Dialed(2), Way::Dialed(1), Way::Accepted] {
        assert_same(&rt, &next_way(&rt, &mut links), &Some(way));
    }
    assert_same(&rt, &next_way(&rt, &mut links), &None);
}
