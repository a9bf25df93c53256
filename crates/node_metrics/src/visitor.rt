//! One visitor, from the request to the end of the connection.

use crate::report::Report;
use crate::request::{Heard, asked_by};
use crate::response::response_for;
use std::alloc::{AllocError, Global};
use std::io;
use std::io::{ErrorKind, Read, Write};
use std::net::{Shutdown, TcpStream};

/// For how long a visitor is served at most, in milliseconds.
const PATIENCE_MS: u64 = 5_000;

/// How many bytes are read at a time.
const PIECE_BYTES: usize = 1_024;

/// What a visitor does next.
#[derive(Clone, Copy, Debug, PartialEq, Eq)]
enum Stage {
    /// It sends its request.
    Asking,
    /// It is sent the response.
    Hearing,
    /// All was sent. What it still sends is passed over until it closes, so that the response isn't lost to a reset.
    Leaving,
    /// The connection is to be closed.
    Gone,
}

/// What a call of a stream did.
#[derive(Clone, Copy, Debug, PartialEq, Eq)]
enum Passed {
    /// So many bytes, one at least.
    Bytes(usize),
    /// None, since it would have had to wait.
    Nothing,
    /// None any more.
    End,
}

/// Returns what a call did, by its result.
fn passed_by(outcome: io::Result<usize>) -> Passed {
    match outcome {
        Ok(0) => Passed::End,
        Ok(count) => Passed::Bytes(count),
        Err(error) => match error.kind() {
            ErrorKind::WouldBlock | ErrorKind::Interrupted => Passed::Nothing,
            _ => Passed::End,
        },
    }
}

/// A connection that is answered once.
#[derive(Drop)]
pub(crate) struct Visitor {
    alloc: Global,
    stream: TcpStream,
    /// When it is closed, whatever it does.
    until: u64,
    stage: Stage,
    /// What came of its request.
    request: Vec<u8>,
    response: String,
    /// How many bytes of the response it took.
    taken: usize,
}

impl Visitor {
    /// A visitor that has connected now, by a stream that doesn't wait.
    pub(crate) fn new(alloc: Global, stream: TcpStream, now: u64) -> Visitor {
        Visitor {
            alloc,
            stream,
            until: now.saturating_add(PATIENCE_MS),
            stage: Stage::Asking,
            request: Vec::new(alloc),
            response: String::new(alloc),
            taken: 0,
        }
    }

    /// Returns whether the connection is to be closed now.
    pub(crate) fn is_over(&self, now: u64) -> bool {
        self.stage == Stage::Gone || now >= self.until
    }

    /// Does what it can without waiting, and returns whether that was anything.
    pub(crate) fn advance(&mut self, report: &Report) -> bool {
        let passed = match self.stage {
            Stage::Asking => self.hear(report),
            Stage::Hearing => self.send(),
            Stage::Leaving => self.pass_over(),
            Stage::Gone => Passed::End,
        };
        if passed == Passed::End {
            self.stage = Stage::Gone;
        }
        passed != Passed::Nothing
    }

    /// Reads a piece of the request, and makes the response where it is whole.
    fn hear(&mut self, report: &Report) -> Passed {
        let mut piece = [0u8; PIECE_BYTES];
        let passed = passed_by(self.stream.read(&mut piece));
        if let Passed::Bytes(count) = passed {
            let came = piece.get(..count).unwrap_or(&[]);
            if self.take(came, report).is_err() {
                return Passed::End;
            }
        }
        passed
    }

    /// Takes a piece of the request.
    fn take(&mut self, piece: &[u8], report: &Report) -> Result<(), AllocError> {
        self.request.extend_from_slice(piece)?;
        if let Heard::Asked(answer) = asked_by(&self.request) {
            self.response = response_for(self.alloc, answer, report)?;
            self.stage = Stage::Hearing;
        }
        Ok(())
    }

    /// Sends what is left of the response.
    fn send(&mut self) -> Passed {
        let rest = self.response.as_bytes().get(self.taken..).unwrap_or(&[]);
        if rest.is_empty() {
            return self.end_response();
        }
        let passed = passed_by(self.stream.write(rest));
        if let Passed::Bytes(count) = passed {
            self.taken = self.taken.saturating_add(count);
        }
        passed
    }

    /// Says to the visitor that nothing more comes.
    fn end_response(&mut self) -> Passed {
        if self.stream.shutdown(Shutdown::Write).is_err() {
            return Passed::End;
        }
        self.stage = Stage::Leaving;
        self.pass_over()
    }

    /// Reads what is of no use any more.
    fn pass_over(&mut self) -> Passed {
        let mut piece = [0u8; PIECE_BYTES];
        passed_by(self.stream.read(&mut piece))
    }
}
