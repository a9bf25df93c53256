//! What stands around a validator that runs: the count of its links, and the level of its log.

use super::assert_same;
use counted_links::{CountedLink, CountedLinks, OpenLinks};
use leveled_runtime::Leveled;
use log::{Level, LevelFilter, Log, Metadata};
use peer_links::{
    Dialed, Dialer, Link, Links, MemoryLink, MemoryLinks, Next, PIECE_BYTES, Peer, Received, Sent,
    Way, Wire,
};
use std::alloc::Global;
use std::process::Abort;
use std::sync::{Arc, Wait};
use std::time::Clock;

/// A half of a connection that brings nothing, and fails after a turn.
fn half_on(rt: &impl Abort, alloc: Global, wire: &Arc<Wire>) -> MemoryLink {
    let wire = Arc::try_clone(wire).expect(rt, "the count fits");
    MemoryLink::new(alloc, wire, 1, 1)
}

/// A peer whose half that reads brings nothing, and fails after a turn.
fn peer_on(rt: &impl Abort, alloc: Global, wire: &Arc<Wire>) -> Peer<MemoryLink> {
    Peer {
        reader: half_on(rt, alloc, wire),
        writer: half_on(rt, alloc, wire),
        name: format!(in alloc; "memory").expect(rt, "the name has room"),
        way: Way::Accepted,
    }
}

/// A source of a peer that a dial of validator 7 reaches, and of one that comes.
fn two_peers(rt: &impl Abort, alloc: Global, wire: &Arc<Wire>) -> MemoryLinks {
    let mut links = MemoryLinks::new(alloc, 0).expect(rt, "the source has room");
    links
        .add_reached(7, peer_on(rt, alloc, wire))
        .expect(rt, "the dial has room");
    links
        .add(peer_on(rt, alloc, wire))
        .expect(rt, "the peer has room");
    links
}

/// The next peer of a source that has one.
fn next_of<'a, R: Wait + Clock + Abort>(
    rt: &R,
    links: &mut CountedLinks<'a, MemoryLinks>,
) -> Peer<CountedLink<'a, MemoryLink>> {
    match links.next(rt) {
        Next::Peer(peer) => peer,
        Next::Idle | Next::None => rt.panic("no peer"),
    }
}

/// Whether no further peer comes.
fn has_no_more<R: Wait + Clock>(rt: &R, links: &mut CountedLinks<'_, MemoryLinks>) -> bool {
    matches!(links.next(rt), Next::None)
}

/// The dial of validator 7 reaches it.
fn assert_dialed<R: Wait + Clock + Abort>(rt: &R, links: &mut CountedLinks<'_, MemoryLinks>) {
    let mut dialer = links.dialer().expect(rt, "the dialer has room");
    assert_same(rt, &dialer.dial(rt, 7), &Dialed::Reached);
}

/// The counted links do as the links inside.
fn assert_as_inside<R: Wait + Clock + Abort>(
    rt: &R,
    peer: &mut Peer<CountedLink<'_, MemoryLink>>,
    wire: &Wire,
) {
    let mut piece = [0; PIECE_BYTES];
    assert!(rt; peer.writer.send(rt, b"ab") == Sent::Taken(2));
    assert_same(rt, &wire.count(rt, b"ab"), &1);
    assert!(rt; peer.reader.recv(rt, &mut piece) == Received::Idle);
    assert!(rt; peer.reader.recv(rt, &mut piece) == Received::Failed);
    assert_same(rt, &peer.reader.failures(), &1);
    assert_same(rt, &peer.writer.failures(), &0);
}

/// Both halves of a peer count as one open link, until the last of them is let go.
fn assert_let_go<R: Abort>(rt: &R, peer: Peer<CountedLink<'_, MemoryLink>>, open: &OpenLinks) {
    let Peer {
        reader,
        writer,
        name: _,
        way: _,
    } = peer;
    drop(reader);
    assert_same(rt, &open.count(), &2);
    drop(writer);
    assert_same(rt, &open.count(), &1);
}

/// The peers that come count as open links.
fn assert_counted<R: Wait + Clock + Abort>(
    rt: &R,
    links: &mut CountedLinks<'_, MemoryLinks>,
    wire: &Wire,
) {
    let open = links.open;
    assert_dialed(rt, links);
    assert_same(rt, &open.count(), &0);
    let mut first = next_of(rt, links);
    assert_same(rt, &first.way, &Way::Dialed(7));
    assert_same(rt, &open.count(), &1);
    let second = next_of(rt, links);
    assert_same(rt, &second.way, &Way::Accepted);
    assert_same(rt, &open.count(), &2);
    let is_end = has_no_more(rt, links);
    assert_same(rt, &is_end, &true);
    assert_as_inside(rt, &mut first, wire);
    assert_let_go(rt, first, open);
    drop(second);
    assert_same(rt, &open.count(), &0);
}

#[test]
fn open_links_are_counted(rt: HostRuntime) {
    let alloc = rt.alloc();
    let wire = Arc::new(alloc, Wire::new(alloc)).expect(&rt, "the wire has room");
    let open = OpenLinks::new();
    let mut links = CountedLinks {
        links: two_peers(&rt, alloc, &wire),
        open: &open,
    };
    assert_counted(&rt, &mut links, &wire);
}

#[test]
fn levels_that_are_logged(rt: HostRuntime) {
    for (level, most) in [
        (LevelFilter::Off, None),
        (LevelFilter::Warn, Some(Level::Warn)),
        (LevelFilter::Trace, Some(Level::Trace)),
    ] {
        let logged = Leveled { rt: &rt, level };
        for one in Level::iter() {
            let is_logged = logged.enabled(&Metadata::new(one, ""));
            let is_wanted = most.is_some_and(|most| one <= most);
            assert!(rt; is_logged == is_wanted, "{level} {one}");
        }
    }
}
