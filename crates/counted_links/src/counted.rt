//! Links, and a source of them, that are counted.

ghost use Rattle.std.specs.Prelude.{◌≡◌};

use crate::open_links::{OpenLinks, Place};
use peer_links::{Link, Links, Next, PIECE_BYTES, Peer, Received, Sent};
use std::alloc::AllocError;
use std::sync::Wait;
use std::time::Clock;

/// One half of a link. The half that writes keeps the link's place among those that are open.
#[derive(Drop)]
pub struct CountedLink<'a, L: Drop> {
    link: L,
    place: Option<Place<'a>>,
}

impl<L: Link + Drop> Link for CountedLink<'_, L> {
    ghost failures = { λ counted. L.failures counted.link };

    fn recv<R: Wait + Clock>(&mut self, rt: &R, piece: &mut [u8; PIECE_BYTES]) -> Received {
        self.link.recv(rt, piece)
    }

    fn send<R: Wait + Clock>(&mut self, rt: &R, bytes: &[u8]) -> Sent {
        self.link.send(rt, bytes)
    }

    fn failures(&self) -> u64 {
        self.link.failures()
    }
}

/// A source of peers whose links are counted.
#[derive(Drop)]
pub struct CountedLinks<'a, L> {
    pub links: L,
    pub open: &'a OpenLinks,
}

impl<'a, L: Links> Links for CountedLinks<'a, L> {
    type Link = CountedLink<'a, L::Link>;

    type Dialer = L::Dialer;

    fn me(&self) -> u16 {
        self.links.me()
    }

    fn validators(&self) -> u16 {
        self.links.validators()
    }

    fn dialer(&mut self) -> Result<L::Dialer, AllocError> {
        self.links.dialer()
    }

    fn next<R: Wait + Clock>(&mut self, rt: &R) -> Next<CountedLink<'a, L::Link>> {
        match self.links.next(rt) {
            Next::Peer(peer) => Next::Peer(counted(peer, self.open)),
            Next::Idle => Next::Idle,
            Next::None => Next::None,
        }
    }
}

/// Counts the link of a peer.
fn counted<L: Drop>(peer: Peer<L>, open: &OpenLinks) -> Peer<CountedLink<'_, L>>
    ensures reader { result.reader.link ≡ peer.reader }
    ensures writer { result.writer.link ≡ peer.writer }
    ensures name { result.name ≡ peer.name }
    ensures way { result.way ≡ peer.way }
{
    let Peer {
        reader,
        writer,
        name,
        way,
    } = peer;
    Peer {
        reader: CountedLink {
            link: reader,
            place: None,
        },
        writer: CountedLink {
            link: writer,
            place: Some(Place::take(open)),
        },
        name,
        way,
    }
}
