//! Visitors over loopback.

use super::pages::report;
use node_metrics::{MOST_VISITORS, Server, Turn};
use std::io;
use std::io::{Read, Write};
use std::net::{Net, TcpListener, TcpStream};
use std::test::Fail;

/// A listener that doesn't wait, and a visitor who has connected to it.
fn listener_and_visitor<N: Net<Stream = TcpStream, Listener = TcpListener>>(
    net: &N,
) -> io::Result<(TcpListener, TcpStream)> {
    let listener = TcpListener::bind(net, "127.0.0.1:0")?;
    let visitor = TcpStream::connect(net, listener.local_addr()?)?;
    listener.set_nonblocking(true)?;
    Ok((listener, visitor))
}

/// Takes turns until nobody does anything.
fn serve(server: &mut Server, listener: &TcpListener, now: u64) -> io::Result<Turn> {
    for _ in 0..1_000 {
        let turn = server.turn(listener, &report(), now)?;
        if turn != Turn::Busy {
            return Ok(turn);
        }
    }
    Ok(Turn::Busy)
}

#[test]
fn a_visitor_is_answered_once(rt: HostRuntime) -> Result<(), Fail> {
    let (listener, mut visitor) = listener_and_visitor(&rt)?;
    let mut server = Server::new(rt.alloc());
    visitor.write_all(b"GET /healthz HTTP/1.1\r\n")?;
    assert!(rt; serve(&mut server, &listener, 0)? == Turn::Waiting);
    visitor.write_all(b"\r\n")?;
    assert!(rt; serve(&mut server, &listener, 4_999)? == Turn::Waiting);
    let mut heard = Vec::new(rt.alloc());
    visitor.read_to_end(&mut heard)?;
    assert!(rt; heard.starts_with(b"HTTP/1.1 200 OK\r\n"));
    assert!(rt; heard.ends_with(b"\r\n\r\nok\n"));
    drop(visitor);
    assert!(rt; serve(&mut server, &listener, 4_999)? == Turn::Empty);
    Ok(())
}

#[test]
fn a_slow_visitor_is_closed(rt: HostRuntime) -> Result<(), Fail> {
    let (listener, mut visitor) = listener_and_visitor(&rt)?;
    let mut server = Server::new(rt.alloc());
    assert!(rt; serve(&mut server, &listener, 0)? == Turn::Waiting);
    assert!(rt; serve(&mut server, &listener, 4_999)? == Turn::Waiting);
    assert!(rt; serve(&mut server, &listener, 5_000)? == Turn::Empty);
    let mut piece = [0u8; 1];
    assert!(rt; visitor.read(&mut piece)? == 0);
    assert!(rt; MOST_VISITORS == 16);
    Ok(())
}
