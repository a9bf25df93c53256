//! The threads that read.

use crate::shared::Shared;
use edge_frames::LinkId;
use log::Log;
use messages::FrameReader;
use peer_links::{Clock, Link, PIECE_BYTES, Received};
use status_words::{Node, Seat};
use std::sync::Wait;
use std::thread::Threads;
use std::time;
use thiserror::Error;
use transactions::Fault;
use vote_journal::Store;

/// Why a link is read no more.
#[derive(Clone, Copy, Debug, Error, PartialEq, Eq)]
enum Over {
    #[error("it ended")]
    Ended,
    #[error("it fails")]
    Failed,
    #[error("a length is above the limit")]
    TooLong,
    #[error("memory is short")]
    OutOfMemory,
}

impl From<Fault> for Over {
    fn from(fault: Fault) -> Over {
        match fault {
            Fault::OutOfMemory => Over::OutOfMemory,
            _ => Over::TooLong,
        }
    }
}

impl<S: Store + Drop, J: Node, C: Clock> Shared<'_, S, J, C> {
    /// Reads a link until it is over or all ends, and hands in each whole frame.
    pub(crate) fn read_link<L: Link + Drop, R: Threads + Wait + time::Clock + Log + Sync>(
        &self,
        rt: &R,
        link: LinkId,
        mut half: L,
    ) {
        let mut seat = self.node.seat(rt);
        let mut frames = FrameReader::new(self.alloc);
        let mut piece = [0u8; PIECE_BYTES];
        for _ in rt.forever() {
            if self.is_over(rt, link) {
                break;
            }
            if let Err(over) = self.read_piece(
                rt,
                &mut seat,
                link,
                &mut half,
                &mut piece,
                &mut frames,
            ) {
                self.log_closed(rt, link, over);
                break;
            }
            self.look(rt, &mut seat);
        }
        self.leave(rt, link);
    }

    /// Returns whether all ends, or the link is closed.
    pub(crate) fn is_over<R: Wait>(&self, rt: &R, link: LinkId) -> bool {
        self.has_ended(rt) || !self.desk.lock(rt).outlets.is_open(link)
    }

    /// Reads a piece, and hands in the frames that it makes whole.
    fn read_piece<L: Link, R: Threads + Wait + time::Clock + Log + Sync>(
        &self,
        rt: &R,
        seat: &mut Seat<J>,
        link: LinkId,
        half: &mut L,
        piece: &mut [u8; PIECE_BYTES],
        frames: &mut FrameReader,
    ) -> Result<(), Over> {
        match half.recv(rt, piece) {
            Received::Piece(count) => {
                self.meters.received_bytes(count);
                self.hear(rt, link);
                frames.feed(&piece[..count])?;
            }
            Received::Idle => return Ok(()),
            Received::Ended => return Err(Over::Ended),
            Received::Failed => return Err(Over::Failed),
        }
        self.hand_in_whole(rt, seat, frames, link)
    }

    /// Notes that bytes came.
    fn hear<R: Wait + time::Clock>(&self, rt: &R, link: LinkId) {
        let now = self.clock.now_ms(rt);
        self.desk.lock(rt).core.heard(link, now);
    }

    /// Hands in each frame that is whole.
    fn hand_in_whole<R: Threads + Wait + time::Clock + Log + Sync>(
        &self,
        rt: &R,
        seat: &mut Seat<J>,
        frames: &mut FrameReader,
        link: LinkId,
    ) -> Result<(), Over> {
        for _ in rt.forever() {
            if self.take_in(rt, seat, link, frames) == 0 {
                break;
            }
        }
        // (what is left is no whole frame, or has a length above the limit)
        frames.next_frame()?;
        Ok(())
    }
}
