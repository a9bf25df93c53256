//! Whom a node dials over loopback, and who dials it meanwhile.

use super::{assert_dials, assert_same};
use log::kv::Source;
use log::span::Spans;
use log::{Level, Log, Metadata, Record};
use peer_links::{Dialed, Dialer, Links, Next, Way};
use std::alloc::Global;
use std::fmt::Display;
use std::net::{Net, SocketAddr, TcpListener, TcpStream};
use std::process::Abort;
use std::sync::Wait;
use std::sync::atomic::{AtomicU64, Ordering};
use std::thread::Threads;
use std::time::{Clock, Duration};
use std::{io, thread};
use tcp_links::TcpLinks;

/// How many calls a peer may take that has come. Each waits for some milliseconds.
const CALLS: u32 = 100;

/// Listens at a port that the host chooses.
fn listener_of<N: Abort + Net<Stream = TcpStream, Listener = TcpListener>>(net: &N) -> TcpListener {
    TcpListener::bind(net, "127.0.0.1:0").expect(net, "nobody can listen")
}

/// The address at which it listens.
fn address_of<R: Abort>(rt: &R, alloc: Global, listener: &TcpListener) -> String {
    let address = listener.local_addr().expect(rt, "no address");
    format!(in alloc; "{address}").expect(rt, "no memory")
}

/// An address at which nobody listens.
fn closed_address<N: Abort + Net<Stream = TcpStream, Listener = TcpListener>>(
    net: &N,
    alloc: Global,
) -> String {
    address_of(net, alloc, &listener_of(net))
}

/// A peer that listens, and its address.
#[derive(Drop)]
struct Open {
    listener: TcpListener,
    address: String,
}

/// A peer at a port that the host chooses.
fn open_peer<N: Abort + Net<Stream = TcpStream, Listener = TcpListener>>(
    net: &N,
    alloc: Global,
) -> Open {
    let listener = listener_of(net);
    let address = address_of(net, alloc, &listener);
    Open { listener, address }
}

/// One more dialer for these links.
fn dialer_of<R: Abort, L: Links>(rt: &R, links: &mut L) -> L::Dialer {
    links.dialer().expect(rt, "no memory")
}

/// How the link of the next peer came about, if the source gives one within so many calls.
fn next_way<L: Links, R: Wait + Clock>(rt: &R, links: &mut L, calls: u32) -> Option<Way> {
    for _ in 0..calls {
        if let Next::Peer(peer) = links.next(rt) {
            return Some(peer.way);
        }
    }
    None
}

/// The first of three addresses is the node's own. Nobody listens at the second one.
#[test]
fn who_comes_is_taken_and_who_is_dialed(rt: HostRuntime) {
    let alloc = rt.alloc();
    let me = closed_address(&rt, alloc);
    let unreachable = closed_address(&rt, alloc);
    let open = open_peer(&rt, alloc);
    let peers = [me.as_str(), unreachable.as_str(), open.address.as_str()];
    let mut links = TcpLinks::bind(alloc, &rt, &peers, 0).expect(&rt, "nobody can listen");
    try_who_comes_and_who_is_dialed(&rt, &mut links, me.as_str());
}

/// One peer comes by itself, and validator 2 alone is reached by dials.
fn try_who_comes_and_who_is_dialed<
    R: Abort + Wait + Clock + Net<Stream = TcpStream, Listener = TcpListener>,
    L: Links,
>(rt: &R, links: &mut L, me: &str) {
    let mut dialer = dialer_of(rt, links);
    let mut other = dialer_of(rt, links);
    let _comes = TcpStream::connect(rt, me).expect(rt, "nobody answers");
    assert_same(rt, &next_way(rt, links, CALLS), &Some(Way::Accepted));
    let nobody = [
        (0, Dialed::Unreached),
        (1, Dialed::Unreached),
        (3, Dialed::Unreached),
    ];
    assert_dials(rt, &mut dialer, &nobody);
    assert_same(rt, &next_way(rt, links, 2), &None);
    for _ in 0..2 {
        assert_dials(rt, &mut dialer, &[(2, Dialed::Reached)]);
        assert_same(rt, &next_way(rt, links, CALLS), &Some(Way::Dialed(2)));
    }
    assert_dials(rt, &mut other, &[(2, Dialed::Reached)]);
}

/// What a dial of validator 1 came to, and how the link of the peer came about that another thread
/// took meanwhile.
fn dialed_beside<R: Abort + Threads + Wait + Clock + Sync, L: Links + Send>(
    rt: &R,
    links: &mut L,
) -> (Dialed, Option<Way>) {
    let mut dialer = dialer_of(rt, links);
    thread::join(rt, || dialer.dial(rt, 1), || next_way(rt, links, CALLS))
}

#[test]
fn a_dialer_has_a_thread_of_its_own(rt: HostRuntime) {
    let alloc = rt.alloc();
    let me = closed_address(&rt, alloc);
    let open = open_peer(&rt, alloc);
    let peers = [me.as_str(), open.address.as_str()];
    let mut links = TcpLinks::bind(alloc, &rt, &peers, 0).expect(&rt, "nobody can listen");
    let (dialed, way) = dialed_beside(&rt, &mut links);
    assert_same(&rt, &dialed, &Dialed::Reached);
    assert_same(&rt, &way, &Some(Way::Dialed(1)));
}

/// A network that counts the warnings and the records for debugging that are logged.
#[derive(Drop)]
struct CountingNet<'a, N> {
    net: &'a N,
    warnings: AtomicU64,
    debugging: AtomicU64,
}

impl<N: Net<Stream = TcpStream, Listener = TcpListener>> Net for CountingNet<'_, N> {
    type Stream = TcpStream;

    type Listener = TcpListener;

    fn bind(&self, addr: SocketAddr) -> io::Result<TcpListener> {
        self.net.bind(addr)
    }

    fn connect(&self, addr: SocketAddr) -> io::Result<TcpStream> {
        self.net.connect(addr)
    }

    fn connect_timeout(&self, addr: SocketAddr, timeout: Duration) -> io::Result<TcpStream> {
        self.net.connect_timeout(addr, timeout)
    }
}

impl<N> Log for CountingNet<'_, N> {
    fn enabled(&self, _metadata: &Metadata<'_>) -> bool {
        true
    }

    fn log<D: Display, K: Source, S: Spans>(&self, record: &Record<'_, D, K, S>) {
        let counter = match record.level() {
            Level::Warn => &self.warnings,
            Level::Debug => &self.debugging,
            _ => return,
        };
        counter.fetch_add(1, Ordering::SeqCst);
    }

    fn flush(&self) {}

    fn target(&self) -> &str {
        ""
    }
}

/// Nobody listens at the dialed address, then somebody does, and then nobody does again.
#[test]
fn the_first_failure_in_a_row_is_a_warning(rt: HostRuntime) {
    let alloc = rt.alloc();
    let net = CountingNet {
        net: &rt,
        warnings: AtomicU64::new(0),
        debugging: AtomicU64::new(0),
    };
    let me = closed_address(&rt, alloc);
    let other = closed_address(&rt, alloc);
    let peers = [me.as_str(), other.as_str()];
    let mut links = TcpLinks::bind(alloc, &net, &peers, 0).expect(&rt, "nobody can listen");
    try_failures_in_a_row(&rt, &net, &mut links, other.as_str());
}

/// Of failures in a row the first is a warning, and the others are for debugging.
fn try_failures_in_a_row<
    R: Abort + Wait + Clock,
    N: Net<Stream = TcpStream, Listener = TcpListener>,
    L: Links,
>(rt: &R, net: &CountingNet<'_, N>, links: &mut L, address: &str) {
    let mut dialer = dialer_of(rt, links);
    assert_dials(rt, &mut dialer, &[(1, Dialed::Unreached); 3]);
    let listener = TcpListener::bind(net, address).expect(rt, "nobody can listen");
    assert_dials(rt, &mut dialer, &[(1, Dialed::Reached)]);
    drop(listener);
    assert_dials(rt, &mut dialer, &[(1, Dialed::Unreached)]);
    assert_same(rt, &net.warnings.load(Ordering::SeqCst), &2);
    assert_same(rt, &net.debugging.load(Ordering::SeqCst), &2);
}
