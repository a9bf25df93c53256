//! The peers that a node dials.

ghost use Rattle.std.specs.Prelude.{◌≡◌, IfOk};

use crate::addresses::Addresses;
use crate::last_dials::LastDials;
use crate::tcp_link::{TcpLink, peer_of};
use log::{Log, debug, warn};
use peer_links::{Dialed, Dialer, Peer, Way};
use std::alloc::{AllocError, AllocFailed, Global};
use std::collections::VecDeque;
use std::io;
use std::io::ErrorKind;
use std::net::{Net, SocketAddr, TcpStream, ToSocketAddrs};
use std::sync::{Arc, Mutex, Wait};
use std::time::{Clock, Duration};

/// How long a dial waits for its peer, in milliseconds.
const DIAL_MS: u64 = 1_000;

/// The peers that were reached and not yet taken, in order, as the thread that dials shares them with the
/// one that takes them.
#[derive(Drop)]
pub(crate) struct ReachedPeers {
    peers: Mutex<VecDeque<Peer<TcpLink>>>,
}

impl ReachedPeers {
    pub(crate) fn new(alloc: Global) -> ReachedPeers {
        ReachedPeers {
            peers: Mutex::new(VecDeque::new(alloc)),
        }
    }

    fn add<R: Wait>(&self, rt: &R, peer: Peer<TcpLink>) -> Result<(), AllocFailed<Peer<TcpLink>>> {
        self.peers.lock(rt).push_back(peer)
    }

    /// Takes the one that was reached first, if any is left.
    pub(crate) fn take<R: Wait>(&self, rt: &R) -> Option<Peer<TcpLink>> {
        self.peers.lock(rt).pop_front()
    }
}

/// Dials addresses when it is told to. A dial that fails is logged, as a warning if the dial of that address
/// before it did not fail, and else to debug.
///
/// A host's name is looked up first, and of its addresses the first one is dialed. Where a dial reached a validator before, its socket address is
/// dialed first, so that a peer which stays where it was is found again also while no name can be looked up.
#[derive(Drop)]
pub struct TcpDialer<'a, N> {
    alloc: Global,
    net: &'a N,
    addresses: Addresses<'a>,
    last_dials: LastDials,
    /// The socket address that was reached last of each validator.
    known: Vec<Option<SocketAddr>>,
    reached: Arc<ReachedPeers>,
}

impl<'a, N> TcpDialer<'a, N> {
    /// Makes a dialer that has dialed none of these addresses.
    pub(crate) fn new(
        alloc: Global,
        net: &'a N,
        addresses: &Addresses<'a>,
        reached: &Arc<ReachedPeers>,
    ) -> Result<TcpDialer<'a, N>, AllocError>
        ensures all { IfOk result (λ dialer. dialer.addresses.all.items ≡ addresses.now.all.items) }
        ensures me { IfOk result (λ dialer. dialer.addresses.me ≡ addresses.now.me) }
    {
        Ok(TcpDialer {
            alloc,
            net,
            addresses: Addresses::new(alloc, &addresses.all, addresses.me)?,
            last_dials: LastDials::new(alloc, addresses.all.len())?,
            known: vec![in alloc; None; addresses.all.len()]?,
            reached: Arc::try_clone(reached)?,
        })
    }
}

impl<N: Net<Stream = TcpStream>> TcpDialer<'_, N> {
    /// Connects to a validator's address, and hands the peer over.
    fn reach<R: Wait>(&mut self, rt: &R, validator: u16, address: &str) -> io::Result<()> {
        let stream = self.connect(validator, address)?;
        let peer = peer_of(self.alloc, stream, &address, Way::Dialed(validator))?;
        self.reached.add(rt, peer)?;
        Ok(())
    }

    /// Connects to the socket address that was reached last, or to the one that the address represents now.
    fn connect(&mut self, validator: u16, address: &str) -> io::Result<TcpStream> {
        let place = usize::from(validator);
        let known = self.known.get(place).copied().flatten();
        let mut failed = None;
        if let Some(known) = known {
            match connect_to(self.net, &known) {
                Ok(stream) => return Ok(stream),
                Err(error) => failed = Some(error),
            }
        }
        let found = found_at(self.net, address)?;
        if let Some(error) = failed
            && known == Some(found)
        {
            return Err(error);
        }
        let stream = connect_to(self.net, &found)?;
        if let Some(known) = self.known.get_mut(place) {
            *known = Some(found);
        }
        Ok(stream)
    }
}

impl<N: Log + Net<Stream = TcpStream>> Dialer for TcpDialer<'_, N> {
    fn dial<R: Wait + Clock>(&mut self, rt: &R, validator: u16) -> Dialed {
        let Some(address) = self.addresses.other(validator) else {
            return Dialed::Unreached;
        };
        let outcome = self.reach(rt, validator, address);
        let failed_before = self.last_dials.note(validator, outcome.is_err());
        let Err(error) = outcome else {
            return Dialed::Reached;
        };
        if failed_before {
            debug!(self.net; "{address}: still cannot be reached: {error}");
        } else {
            warn!(self.net; "{address}: cannot be reached: {error}");
        }
        Dialed::Unreached
    }
}

/// Returns the first of the socket addresses that an address represents.
fn found_at<N: Net>(net: &N, address: &str) -> io::Result<SocketAddr> {
    let Some(found) = address.to_socket_addrs(net)?.next() else {
        return Err(ErrorKind::AddrNotAvailable.into());
    };
    Ok(found)
}

/// Connects to a socket address, within a second.
fn connect_to<N: Net<Stream = TcpStream>>(net: &N, address: &SocketAddr) -> io::Result<TcpStream> {
    TcpStream::connect_timeout(net, address, Duration::from_millis(DIAL_MS))
}
