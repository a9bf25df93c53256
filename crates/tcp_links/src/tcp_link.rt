//! One half of a connection.

ghost use Rattle.std.specs.Prelude.{◌≡◌};
ghost use Rattle.peer_links.specs.Link.{one_more};

use peer_links::{Link, PIECE_BYTES, Peer, Received, Sent, Way};
use std::alloc::Global;
use std::fmt::Display;
use std::io;
use std::io::{ErrorKind, Read, Write};
use std::net::{Shutdown, TcpStream};
use std::sync::Wait;
use std::time::{Clock, Duration};

/// How long a read waits where nothing comes, in milliseconds. A link that is closed here ends it at once, since the half that writes is let
/// go then, so it only costs what a thread takes that wakes for nothing: of 128 validators on one machine 32,000 threads read.
const READ_MS: u64 = 10_000;

/// How long a write waits where nothing is taken, in milliseconds.
const WRITE_MS: u64 = 200;

/// One half of a connection, whose other half stands on the same socket.
///
/// Once the half that writes is let go, the peer is told that nothing more comes, and the half that
/// reads sees its end.
pub struct TcpLink {
    stream: TcpStream,
    failures: u64,
    closes: Shutdown,
}

impl TcpLink {
    /// Makes the half that reads and the half that writes. Small frames leave at once.
    pub fn halves(stream: TcpStream) -> io::Result<(TcpLink, TcpLink)> {
        stream.set_nodelay(true)?;
        stream.set_read_timeout(Some(Duration::from_millis(READ_MS)))?;
        stream.set_write_timeout(Some(Duration::from_millis(WRITE_MS)))?;
        let other = stream.try_clone()?;
        let reader = TcpLink::over(other, Shutdown::Read);
        Ok((reader, TcpLink::over(stream, Shutdown::Both)))
    }

    fn over(stream: TcpStream, closes: Shutdown) -> TcpLink
        ensures { result.failures ≡ 0 }
    {
        TcpLink {
            stream,
            failures: 0,
            closes,
        }
    }

    /// Counts a failure.
    fn fail(&mut self)
        ensures { self.new.failures ≡ one_more self.old.failures }
    {
        self.failures = self.failures.saturating_add(1);
    }
}

/// Makes a peer of a connection, under the name of its address.
pub(crate) fn peer_of<A: Display>(
    alloc: Global,
    stream: TcpStream,
    address: &A,
    way: Way,
) -> io::Result<Peer<TcpLink>> {
    let (reader, writer) = TcpLink::halves(stream)?;
    let name = format!(in alloc; "{address}")?;
    Ok(Peer {
        reader,
        writer,
        name,
        way,
    })
}

/// Returns whether a read only had nothing to give, or a write nothing to take it.
fn is_idle(error: &io::Error) -> bool {
    matches!(
        error.kind(),
        ErrorKind::WouldBlock | ErrorKind::TimedOut | ErrorKind::Interrupted
    )
}

impl Link for TcpLink {
    ghost failures = { λ link. link.failures };

    fn recv<R: Wait + Clock>(&mut self, _rt: &R, piece: &mut [u8; PIECE_BYTES]) -> Received {
        match self.stream.read(piece) {
            Ok(0) => Received::Ended,
            Ok(count) => Received::Piece(count),
            Err(error) if is_idle(&error) => Received::Idle,
            Err(_) => {
                self.fail();
                Received::Failed
            }
        }
    }

    fn send<R: Wait + Clock>(&mut self, _rt: &R, bytes: &[u8]) -> Sent {
        match self.stream.write(bytes) {
            Ok(0) => Sent::Idle,
            Ok(count) => Sent::Taken(count),
            Err(error) if is_idle(&error) => Sent::Idle,
            Err(_) => {
                self.fail();
                Sent::Failed
            }
        }
    }

    fn failures(&self) -> u64 {
        self.failures
    }
}

impl Drop for TcpLink {
    fn drop(self) {
        let _ = self.stream.shutdown(self.closes);
        let Self {
            stream: _,
            failures: _,
            closes: _,
        } = self;
    }
}
