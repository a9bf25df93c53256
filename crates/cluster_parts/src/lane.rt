//! One direction of a link: bytes go in order, and arrive in pieces.

ghost use Rattle.std.specs.Prelude.{◌≡◌, ◌++◌, [], None, IfOk, IfSome, OnOk, OnErr, MatchBool};
ghost use Rattle.cluster_parts.specs.Lanes.{joined, flying, waiting, under_way};

use crate::chance::Chance;
use bytes::{Bytes, BytesMut};
use std::alloc::{AllocError, Global};
use std::collections::VecDeque;

/// How many frames wait at most.
pub const MOST_FRAMES: usize = 1_024;

/// Where more frames than these wait, those that only repair are dropped.
pub const MOST_REPAIR: usize = 16;

/// How many bytes go out by one write at most, where they are of several frames.
const MOST_BATCH_BYTES: usize = 16_384;

/// How many pieces a write arrives in at most.
const MOST_PIECES: u64 = 4;

/// Where a direction stands.
#[derive(Clone, Copy, PartialEq)]
pub enum Flow {
    /// What is sent arrives.
    Open,
    /// What waits is still sent, and then the other end sees that it ended.
    Closing,
    /// What waits and what is still sent vanishes, and nobody sees that.
    Lost,
}

/// What a write let go.
#[derive(Clone, Copy)]
pub struct Written {
    pub bytes: u64,
    pub pieces: u64,
}

/// One direction of a link: the frames that wait, and the pieces that are on their way.
///
/// Contracts see what was sent and hasn't arrived as one list of bytes (`under_way`): what is queued is added behind it, what arrives is
/// taken off its front, and nothing else changes it but what loses its end. So what arrives is a beginning of what was sent, in order.
#[derive(Drop)]
pub struct Lane {
    alloc: Global,
    /// The frames that wait.
    frames: VecDeque<Bytes>,
    /// The pieces that are on their way.
    pieces: VecDeque<Bytes>,
    flow: Flow,
    /// Whether a write is to come.
    pub is_writing: bool,
    /// From when on the next write may go.
    pub free_at: u64,
    /// When the last piece arrives.
    pub last: u64,
}

impl Lane {
    /// A direction on which nothing was sent. It takes no memory.
    pub fn new(alloc: Global) -> Lane
        ensures { under_way result ≡ [] }
    {
        Lane {
            alloc,
            frames: VecDeque::new(alloc),
            pieces: VecDeque::new(alloc),
            flow: Flow::Open,
            is_writing: false,
            free_at: 0,
            last: 0,
        }
    }

    /// Where it stands.
    pub fn flow(&self) -> Flow {
        self.flow
    }

    /// How many frames wait.
    pub fn waiting(&self) -> usize {
        self.frames.len()
    }

    /// Queues a frame, and returns whether it has room.
    pub fn offer(&mut self, frame: Bytes, is_repair: bool) -> Result<bool, AllocError>
        ensures queued { IfOk result (λ has_room. MatchBool has_room (under_way self.new ≡ under_way self.old ++ frame) (under_way self.new ≡ under_way self.old)) }
        ensures refused { OnErr result (under_way self.new ≡ under_way self.old) }
    {
        let most = if is_repair {
            MOST_REPAIR + 1
        } else {
            MOST_FRAMES
        };
        if self.flow == Flow::Closing || self.frames.len() >= most {
            return Ok(false);
        }
        match self.frames.push_back(frame) {
            Ok(()) => Ok(true),
            Err(_) => Err(AllocError),
        }
    }

    /// Lets go what waits, as far as one write takes it, in pieces that are cut at random places.
    pub fn write(&mut self, chance: &mut Chance) -> Result<Written, AllocError>
        ensures { OnOk result (under_way self.new ≡ under_way self.old) }
    {
        let Some(first) = self.frames.pop_front() else {
            return Ok(Written {
                bytes: 0,
                pieces: 0,
            });
        };
        let batch = self.batch(first)?;
        let bytes = batch.len() as u64;
        let pieces = self.launch(batch, chance)?;
        Ok(Written { bytes, pieces })
    }

    /// The bytes of one write: a frame, and those behind it that have room beside it.
    fn batch(&mut self, first: Bytes) -> Result<Bytes, AllocError>
        ensures order { IfOk result (λ bytes. bytes ++ waiting self.new ≡ first ++ waiting self.old) }
        ensures pieces { self.new.pieces ≡ self.old.pieces }
    {
        let count = self.fitting(first.len());
        if count == 0 {
            return Ok(first);
        }
        let mut bytes = BytesMut::new(self.alloc);
        bytes.extend_from_slice(&first)?;
        for _ in 0..count {
            if let Some(next) = self.frames.pop_front() {
                bytes.extend_from_slice(&next)?;
            }
        }
        Ok(bytes.freeze()?)
    }

    /// How many frames that wait fit one write, where it has so many bytes already.
    fn fitting(&self, taken: usize) -> usize {
        let mut length = taken;
        let mut count = 0usize;
        for frame in self.frames.iter() {
            length = length.saturating_add(frame.len());
            if length > MOST_BATCH_BYTES {
                break;
            }
            count = count.saturating_add(1);
        }
        count
    }

    /// Lets bytes go in pieces: how many.
    fn launch(&mut self, mut bytes: Bytes, chance: &mut Chance) -> Result<u64, AllocError>
        ensures order { OnOk result (flying self.new ≡ flying self.old ++ bytes) }
        ensures frames { self.new.frames ≡ self.old.frames }
    {
        let cuts = if chance.percent(25) {
            chance.below(MOST_PIECES)
        } else {
            0
        };
        let mut pieces = 1u64;
        for _ in 0..cuts {
            let place = chance.place(bytes.len()).unwrap_or(0);
            if 0 < place && place < bytes.len() {
                let piece = bytes.split_to(place)?;
                self.fly(piece)?;
                pieces = pieces.saturating_add(1);
            }
        }
        self.fly(bytes)?;
        Ok(pieces)
    }

    /// Lets a piece go: it arrives behind all that went before.
    fn fly(&mut self, piece: Bytes) -> Result<(), AllocError>
        ensures order { OnOk result (flying self.new ≡ flying self.old ++ piece) }
        ensures frames { self.new.frames ≡ self.old.frames }
    {
        match self.pieces.push_back(piece) {
            Ok(()) => Ok(()),
            Err(_) => Err(AllocError),
        }
    }

    /// Takes the piece that arrives now.
    pub fn land(&mut self) -> Option<Bytes>
        ensures some { IfSome result (λ piece. under_way self.old ≡ piece ++ under_way self.new) }
        ensures none { result ≡ None → under_way self.new ≡ under_way self.old }
    {
        self.pieces.pop_front()
    }

    /// Sends what waits and then ends.
    pub fn close(&mut self)
        ensures { under_way self.new ≡ under_way self.old }
    {
        if self.flow == Flow::Open {
            self.flow = Flow::Closing;
        }
    }

    /// Lets vanish what waits, and all that is still sent. What is on its way arrives.
    pub fn lose(&mut self)
        ensures { under_way self.old ≡ under_way self.new ++ waiting self.old }
    {
        self.flow = Flow::Lost;
        self.frames.clear();
    }

    /// Loses what waits, what is on its way, and all that is still sent.
    pub fn cut(&mut self)
        ensures { under_way self.new ≡ [] }
    {
        self.flow = Flow::Lost;
        self.frames.clear();
        self.pieces.clear();
    }
}
