//! A connection to a validator: frames are sent, and replies come back.

use messages::{FrameReader, Reply, read_reply};
use node_settings::Failure;
use std::alloc::Global;
use std::io::{ErrorKind, Read, Write};
use std::time::{Clock, Duration, Instant};
use transactions::Fault;

/// How many bytes are read at a time at most.
const PIECE_BYTES: usize = 4_096;

/// How long a validator that answers nothing is waited for, in seconds.
pub(crate) const PATIENCE_SECONDS: u64 = 30;

/// What a fault of the bytes that come means for the program.
fn failure_of(fault: Fault) -> Failure {
    match fault {
        Fault::OutOfMemory => Failure::OutOfMemory,
        _ => Failure::CannotConnect,
    }
}

/// The first reply among the frames that are whole. Those that are no replies are passed over.
fn reply_among(reader: &mut FrameReader) -> Result<Option<Reply>, Failure> {
    for _ in 0..u64::MAX {
        match reader.next_frame() {
            Ok(Some(frame)) => {
                if let Ok(reply) = read_reply(frame) {
                    return Ok(Some(reply));
                }
            }
            Ok(None) => return Ok(None),
            Err(fault) => return Err(failure_of(fault)),
        }
    }
    Ok(None)
}

/// Takes in a piece of what comes: none, where nothing came although it had not ended.
fn feed_piece<S: Read>(stream: &mut S, reader: &mut FrameReader) -> Result<(), Failure> {
    let mut piece = [0; PIECE_BYTES];
    match stream.read(&mut piece) {
        Ok(0) => Err(Failure::CannotConnect),
        Ok(count) => reader.feed(&piece[..count]).map_err(failure_of),
        Err(error) if error.kind() == ErrorKind::Interrupted => Ok(()),
        Err(_) => Err(Failure::CannotConnect),
    }
}

/// Returns whether a reply that is waited for since then comes too late. Where there is no time, none does.
fn is_late<R: Clock>(rt: &R, began: Option<Instant>) -> bool {
    let Some(began) = began else {
        return false;
    };
    match began.elapsed(rt) {
        Ok(passed) => passed >= Duration::from_secs(PATIENCE_SECONDS),
        Err(_) => false,
    }
}

/// A stream to a validator, and what came of frames that are not whole.
#[derive(Drop)]
pub(crate) struct Connection<S> {
    stream: S,
    reader: FrameReader,
}

impl<S: Read + Write> Connection<S> {
    /// Nothing was sent yet.
    pub(crate) fn new(alloc: Global, stream: S) -> Connection<S> {
        Connection {
            stream,
            reader: FrameReader::new(alloc),
        }
    }

    /// Sends a frame. It is `CannotConnect` where the connection fails.
    pub(crate) fn send(&mut self, frame: &[u8]) -> Result<(), Failure> {
        match self.stream.write_all(frame) {
            Ok(()) => Ok(()),
            Err(_) => Err(Failure::CannotConnect),
        }
    }

    /// The next reply that comes back. It is `CannotConnect` where the connection ends before, or none has come for so long, whatever
    /// else comes.
    pub(crate) fn reply<R: Clock>(&mut self, rt: &R) -> Result<Reply, Failure> {
        let began = Instant::now(rt).ok();
        for _ in 0..u64::MAX {
            if let Some(reply) = reply_among(&mut self.reader)? {
                return Ok(reply);
            }
            if is_late(rt, began) {
                break;
            }
            feed_piece(&mut self.stream, &mut self.reader)?;
        }
        Err(Failure::CannotConnect)
    }
}
