//! Links over loopback: what no contract says.

use super::assert_same;
use peer_links::{Bell, Clock, Link, PIECE_BYTES, Received, Sent};
use std::net::{Net, TcpListener, TcpStream};
use std::process::Abort;
use std::sync::Wait;
use std::time;
use tcp_links::{HostClock, TcpLink};

/// Both ends of a connection.
#[derive(Drop)]
struct Ends {
    near: TcpStream,
    far: TcpStream,
}

/// Makes a connection over loopback.
fn ends_of<N: Abort + Net<Stream = TcpStream, Listener = TcpListener>>(net: &N) -> Ends {
    let listener = TcpListener::bind(net, "127.0.0.1:0").expect(net, "nobody can listen");
    let address = listener.local_addr().expect(net, "no address");
    let near = TcpStream::connect(net, address).expect(net, "nobody answers");
    let (far, _) = listener.accept().expect(net, "nobody came");
    Ends { near, far }
}

/// The half that reads and the half that writes at one end.
#[derive(Drop)]
struct Halves {
    reader: TcpLink,
    writer: TcpLink,
}

/// Parts the stream of one end into its halves.
fn halves_of<R: Abort>(rt: &R, stream: TcpStream) -> Halves {
    let (reader, writer) = TcpLink::halves(stream).expect(rt, "a stream has no halves");
    Halves { reader, writer }
}

/// The half that writes at one end, once the one that reads is let go.
fn writer_of<R: Abort>(rt: &R, stream: TcpStream) -> TcpLink {
    let Halves { reader: _, writer } = halves_of(rt, stream);
    writer
}

/// These bytes come.
fn assert_comes<R: Abort + Wait + time::Clock>(rt: &R, reader: &mut TcpLink, bytes: &[u8]) {
    let mut piece = [0; PIECE_BYTES];
    let received = reader.recv(rt, &mut piece);
    assert_same(rt, &received, &Received::Piece(bytes.len()));
    assert_same(rt, &piece.get(..bytes.len()), &Some(bytes));
}

/// The end comes, and nothing failed.
fn assert_ends<R: Abort + Wait + time::Clock>(rt: &R, reader: &mut TcpLink) {
    let mut piece = [0; PIECE_BYTES];
    assert_same(rt, &reader.recv(rt, &mut piece), &Received::Ended);
    assert_same(rt, &reader.failures(), &0);
}

#[test]
fn bytes_pass_and_end(rt: HostRuntime) {
    let Ends { near, far } = ends_of(&rt);
    let mut writer = writer_of(&rt, near);
    let mut far = halves_of(&rt, far);
    assert_same(&rt, &writer.send(&rt, &[1, 2, 3]), &Sent::Taken(3));
    assert_comes(&rt, &mut far.reader, &[1, 2, 3]);
    drop(writer);
    assert_ends(&rt, &mut far.reader);
}

/// Once the half that writes is let go, the half that reads waits no more.
#[test]
fn nothing_comes(rt: HostRuntime) {
    let Ends { near, far: _far } = ends_of(&rt);
    let Halves { mut reader, writer } = halves_of(&rt, near);
    let mut piece = [0; PIECE_BYTES];
    assert_same(&rt, &reader.recv(&rt, &mut piece), &Received::Idle);
    drop(writer);
    assert_ends(&rt, &mut reader);
}

/// Sends until bytes aren't taken, and gives that answer.
fn fill<R: Wait + time::Clock>(rt: &R, writer: &mut TcpLink) -> Sent {
    for _ in rt.forever() {
        match writer.send(rt, &[7; PIECE_BYTES]) {
            Sent::Taken(_) => {}
            other => return other,
        }
    }
    unreachable!()
}

/// Reads until nothing comes, and gives that answer.
fn drain<R: Wait + time::Clock>(rt: &R, reader: &mut TcpLink) -> Received {
    let mut piece = [0; PIECE_BYTES];
    for _ in rt.forever() {
        match reader.recv(rt, &mut piece) {
            Received::Piece(_) => {}
            other => return other,
        }
    }
    unreachable!()
}

#[test]
fn a_slow_peer_is_no_failure(rt: HostRuntime) {
    let Ends { near, far } = ends_of(&rt);
    let mut writer = writer_of(&rt, near);
    let mut far = halves_of(&rt, far);
    assert_same(&rt, &fill(&rt, &mut writer), &Sent::Idle);
    assert_same(&rt, &writer.failures(), &0);
    assert_same(&rt, &drain(&rt, &mut far.reader), &Received::Idle);
    assert_same(&rt, &writer.send(&rt, &[1, 2, 3]), &Sent::Taken(3));
}

#[test]
fn a_peer_that_is_gone_is_a_failure(rt: HostRuntime) {
    let Ends { near, far } = ends_of(&rt);
    let mut writer = writer_of(&rt, near);
    drop(far);
    assert_same(&rt, &fill(&rt, &mut writer), &Sent::Failed);
    assert_same(&rt, &writer.failures(), &1);
}

#[test]
fn time_goes_on(rt: HostRuntime) {
    let clock = HostClock::new();
    let before = clock.now_ms(&rt);
    clock.wait_ms(&rt, 5);
    assert!(rt; clock.now_ms(&rt) > before);
}

/// A wait that a ring ends doesn't last as long as the host's clock waits at most.
#[test]
fn a_ring_ends_a_wait(rt: HostRuntime) {
    let (clock, bell) = (HostClock::new(), Bell::new());
    bell.ring(&rt);
    let before = clock.now_ms(&rt);
    clock.wait_for_ring(&rt, &bell, 1_000);
    assert!(rt; clock.now_ms(&rt) < before.saturating_add(1_000));
}

/// Where nobody rings it lasts as long as it was told to.
#[test]
fn without_a_ring_a_wait_lasts(rt: HostRuntime) {
    let (clock, bell) = (HostClock::new(), Bell::new());
    let before = clock.now_ms(&rt);
    clock.wait_for_ring(&rt, &bell, 5);
    assert!(rt; clock.now_ms(&rt) > before);
}
