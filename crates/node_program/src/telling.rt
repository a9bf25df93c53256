//! How far the validator is, told to who connects.

use counted_links::OpenLinks;
use locked_node::LockedNode;
use log::{Log, warn};
use node_settings::StatusLine;
use peer_threads::Bell;
use status_words::{Node, Seat};
use std::alloc::Global;
use std::io::{ErrorKind, Write};
use std::net::{Net, TcpListener, TcpStream};
use std::sync::Wait;
use std::time::{Clock, Duration};
use std::{io, thread};
use vote_journal::Store;

/// How long it waits where nobody connects, in milliseconds.
const TURN_MS: u64 = 250;

/// Listens on the address. Taking a connection then doesn't wait for one.
pub(crate) fn listen<N: Net<Stream = TcpStream, Listener = TcpListener>>(
    net: &N,
    address: &str,
) -> io::Result<TcpListener> {
    let listener = TcpListener::bind(net, address)?;
    listener.set_nonblocking(true)?;
    Ok(listener)
}

/// Tells each who connects how far the node is, until the bell tells that the node's threads have ended.
pub(crate) fn tell_until_end<S: Store + Drop, J: Node, R: Wait + Clock + Log>(
    rt: &R,
    alloc: Global,
    node: &LockedNode<S, J>,
    listener: &TcpListener,
    open: &OpenLinks,
    bell: &Bell,
) {
    let mut seat = node.seat(rt);
    for _ in rt.forever() {
        if bell.is_over(rt) {
            break;
        }
        match listener.accept() {
            Ok((stream, _)) => tell(alloc, stream, line_of(node, &mut seat, open)),
            Err(error) => {
                if error.kind() != ErrorKind::WouldBlock {
                    warn!(rt; "nobody can be told how far it is: {error}");
                }
                thread::sleep(rt, Duration::from_millis(TURN_MS));
            }
        }
    }
}

/// How far the node is now, as it is told without a lock.
fn line_of<S: Store + Drop, J: Node>(
    node: &LockedNode<S, J>,
    seat: &mut Seat<J>,
    open: &OpenLinks,
) -> StatusLine {
    let status = node.status(seat);
    StatusLine {
        height: status.height,
        delivered: status.delivered,
        links: open.count(),
    }
}

/// Tells the line by one write, and closes the connection. Want of memory and a failed write are passed over.
fn tell(alloc: Global, mut stream: TcpStream, line: StatusLine) {
    if let Ok(text) = format!(in alloc; "{line}\n") {
        let _ = stream.write_all(text.as_bytes());
    }
}
