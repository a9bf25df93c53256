//! Where peers come from.

ghost use Rattle.std.specs.Prelude.{◌≡◌, ◌<◌, length, IfOk};

use crate::addresses::Addresses;
use crate::dialing::{ReachedPeers, TcpDialer};
use crate::tcp_link::{TcpLink, peer_of};
use log::{Log, warn};
use peer_links::{Links, Next, Peer, Way};
use std::alloc::{AllocError, Global};
use std::fmt::Display;
use std::io::ErrorKind;
use std::net::{Net, TcpListener, TcpStream};
use std::sync::{Arc, Wait};
use std::time::{Clock, Duration};
use std::{io, thread};

/// How long it waits where nobody dials, in milliseconds: at first, and at most. Each wait is twice as long as the one before.
const FIRST_WAIT_MS: u64 = 1;

const MOST_WAIT_MS: u64 = 100;

/// The peers of a node: those that its dialers reach, and those that dial it. What fails is logged.
#[derive(Drop)]
pub struct TcpLinks<'a, N> {
    alloc: Global,
    net: &'a N,
    listener: TcpListener,
    addresses: Addresses<'a>,
    reached: Arc<ReachedPeers>,
    /// How long it waits next where nobody dials.
    wait_ms: u64,
    /// Whether the last one that dialed could not be taken.
    fails: bool,
}

impl<'a, N: Log + Net<Stream = TcpStream, Listener = TcpListener>> TcpLinks<'a, N> {
    /// Listens on its own address, and dials nobody. The addresses are host names or numbers, each with a port, and
    /// each is at the place that its validator's number names; its own number is `me`.
    pub fn bind(
        alloc: Global,
        net: &'a N,
        peers: &[&'a str],
        me: usize,
    ) -> io::Result<TcpLinks<'a, N>>
        requires { me < length peers.now }
        ensures peers { IfOk result (λ links. links.addresses.all.items ≡ peers.now) }
        ensures me { IfOk result (λ links. links.addresses.me ≡ me) }
    {
        let addresses = Addresses::new(alloc, peers, me)?;
        let listener = TcpListener::bind(net, peers[me])?;
        listener.set_nonblocking(true)?;
        let reached = Arc::new(alloc, ReachedPeers::new(alloc))?;
        Ok(TcpLinks {
            alloc,
            net,
            listener,
            addresses,
            reached,
            wait_ms: FIRST_WAIT_MS,
            fails: false,
        })
    }

    /// Takes who dials, or waits for a moment where nobody does or can be taken. Of those in a row that can't be taken the first is logged.
    fn accept<R: Clock>(&mut self, rt: &R) -> Next<TcpLink> {
        match self.listener.accept() {
            Ok((stream, address)) => {
                if let Some(peer) = self.peer(stream, &address) {
                    (self.wait_ms, self.fails) = (FIRST_WAIT_MS, false);
                    return Next::Peer(peer);
                }
            }
            Err(error) => {
                if error.kind() != ErrorKind::WouldBlock && self.fails_first() {
                    warn!(self.net; "a peer cannot be taken: {error}");
                }
            }
        }
        self.wait(rt);
        Next::Idle
    }

    /// Notes that one can't be taken, and returns whether the one before could.
    fn fails_first(&mut self) -> bool {
        let is_first = !self.fails;
        self.fails = true;
        is_first
    }

    /// Waits for a moment, and the next time for twice as long.
    fn wait<R: Clock>(&mut self, rt: &R) {
        thread::sleep(rt, Duration::from_millis(self.wait_ms));
        self.wait_ms = self.wait_ms.saturating_mul(2).min(MOST_WAIT_MS);
    }

    /// Makes a peer of a connection that dialed this node, if it can be used.
    fn peer<A: Display>(&mut self, stream: TcpStream, address: &A) -> Option<Peer<TcpLink>> {
        match peer_of(self.alloc, stream, address, Way::Accepted) {
            Ok(peer) => Some(peer),
            Err(error) => {
                if self.fails_first() {
                    warn!(self.net; "{address}: cannot be used: {error}");
                }
                None
            }
        }
    }
}

impl<'a, N: Log + Net<Stream = TcpStream, Listener = TcpListener> + Sync> Links
    for TcpLinks<'a, N> {
    type Link = TcpLink;

    type Dialer = TcpDialer<'a, N>;

    fn me(&self) -> u16 {
        u16::try_from(self.addresses.me).unwrap_or(u16::MAX)
    }

    fn validators(&self) -> u16 {
        u16::try_from(self.addresses.all.len()).unwrap_or(u16::MAX)
    }

    fn dialer(&mut self) -> Result<TcpDialer<'a, N>, AllocError>
        ensures all { IfOk result (λ dialer. dialer.addresses.all.items ≡ self.old.addresses.all.items) }
        ensures me { IfOk result (λ dialer. dialer.addresses.me ≡ self.old.addresses.me) }
    {
        TcpDialer::new(self.alloc, self.net, &self.addresses, &self.reached)
    }

    fn next<R: Wait + Clock>(&mut self, rt: &R) -> Next<TcpLink> {
        match self.reached.take(rt) {
            Some(peer) => Next::Peer(peer),
            None => self.accept(rt),
        }
    }
}
