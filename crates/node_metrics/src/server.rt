//! The visitors who are served.

use crate::report::Report;
use crate::visitor::Visitor;
use std::alloc::Global;
use std::io;
use std::io::ErrorKind;
use std::net::{TcpListener, TcpStream};

/// How many visitors are served at a time. More wait until they are accepted.
pub const MOST_VISITORS: usize = 16;

/// What came of a turn.
#[derive(Clone, Copy, Debug, PartialEq, Eq)]
pub enum Turn {
    /// Somebody was served as far as that went without waiting.
    Busy,
    /// Who is there does nothing.
    Waiting,
    /// Nobody is there.
    Empty,
}

/// Serves visitors, each once, without waiting for anybody.
///
/// A visitor is closed after five seconds, whatever it does. One for whom there is no memory is closed unanswered.
#[derive(Drop)]
pub struct Server {
    alloc: Global,
    visitors: Vec<Visitor>,
}

impl Server {
    /// Nobody is there. It takes no memory.
    pub fn new(alloc: Global) -> Server {
        Server {
            alloc,
            visitors: Vec::new(alloc),
        }
    }

    /// Lets in who waits at the listener, which doesn't wait itself, and serves all who are there with this report as far as that
    /// goes now. The error is that nobody can be let in.
    pub fn turn(&mut self, listener: &TcpListener, report: &Report, now: u64) -> io::Result<Turn> {
        let admitted = self.admit(listener, now);
        let mut is_busy = false;
        for visitor in self.visitors.iter_mut() {
            is_busy = visitor.advance(report) || is_busy;
        }
        self.visitors.retain(|visitor| !visitor.is_over(now));
        admitted?;
        Ok(self.turn_of(is_busy))
    }

    fn turn_of(&self, is_busy: bool) -> Turn {
        if is_busy {
            Turn::Busy
        } else if self.visitors.is_empty() {
            Turn::Empty
        } else {
            Turn::Waiting
        }
    }

    /// Lets in who waits, while there is room.
    fn admit(&mut self, listener: &TcpListener, now: u64) -> io::Result<()> {
        for _ in self.visitors.len()..MOST_VISITORS {
            match listener.accept() {
                Ok((stream, _)) => self.admit_one(stream, now),
                Err(error) if error.kind() == ErrorKind::WouldBlock => return Ok(()),
                Err(error) => return Err(error),
            }
        }
        Ok(())
    }

    /// Lets in a visitor, unless there is no memory for it.
    fn admit_one(&mut self, stream: TcpStream, now: u64) {
        if stream.set_nonblocking(true).is_ok() {
            let _ = self.visitors.push(Visitor::new(self.alloc, stream, now));
        }
    }
}
