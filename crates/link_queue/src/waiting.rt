//! What waits on a link, as it stands under the queue's lock, and the answers that it alone makes.

ghost use Rattle.std.specs.Prelude.{◌≡◌, ◌≤◌, ◌||◌, ◌&&◌, ℕ, false, true, Some, None, [], length, nat_le, nat_lt, IfOk, MatchResult, MatchBool};
ghost use Rattle.link_queue.specs.Line.{line, IsInOrder, with_accepted, Handed, HasEnded, IsIdle};

use crate::history::Frames;
use bytes::Bytes;
use std::alloc::{AllocError, Global};
use std::collections::VecDeque;
use std::marker::{Model, PhantomData};
use thiserror::Error;

/// How many frames wait on a link at most.
pub const MOST_FRAMES: usize = 1_024;

/// How many bytes they have at most, where it is more than one: 16 MiB.
pub const MOST_BYTES: usize = 16 * 1_024 * 1_024;

/// What is known of each frame that is offered, and so of each that is taken.
pub trait Sent {
    ghost use Rattle.std.specs.Prelude.{ℕ, List};

    ghost sent: { List ℕ → Type 0 };
}

/// Nothing is known of a frame.
pub struct Anything;

impl Sent for Anything {
    ghost use Rattle.std.specs.Prelude.{⊤};

    ghost sent = { λ frame. ⊤ };
}

/// Why a frame was dropped.
#[derive(Clone, Copy, Debug, Error, PartialEq, Eq)]
pub enum Cause {
    /// As many frames, or bytes, waited as a queue holds.
    #[error("the queue is full")]
    Full,
    /// The queue was closed.
    #[error("the queue is closed")]
    Closed,
}

/// A frame was taken in. Only the locked state makes it.
#[derive(Clone, Copy, Debug)]
pub struct Queued {
    waiting: usize,
}

/// A frame was dropped. Only the locked state makes it.
#[derive(Debug, Drop, Error)]
#[error("a frame was dropped: {cause}")]
pub struct Dropped {
    cause: Cause,
    frame: Bytes,
}

/// No frame was handed out. Only the locked state makes it.
#[derive(Clone, Copy, Debug, Error, PartialEq, Eq)]
#[error("no frame waits")]
pub struct Untaken {
    has_ended: bool,
}

impl Queued {
    ghost use Rattle.link_queue.specs.Answers.{count_of};

    /// How many frames then waited, from 1 to 1,024.
    pub fn waiting(self) -> usize
        ensures { result ≡ count_of self }
    {
        self.waiting
    }
}

impl Dropped {
    ghost use Rattle.link_queue.specs.Answers.{given_back, cause_of};

    /// Why it was dropped.
    pub fn cause(&self) -> Cause
        ensures { result ≡ cause_of self.now }
    {
        self.cause
    }

    /// The frame.
    pub fn into_frame(self) -> Bytes
        ensures { result ≡ given_back self }
    {
        let Dropped { cause: _, frame } = self;
        frame
    }
}

impl Untaken {
    ghost use Rattle.link_queue.specs.Answers.{is_end};

    /// Whether the queue was closed and nothing was left in it. If not, none waited yet.
    pub fn has_ended(self) -> bool
        ensures { result ≡ is_end self }
    {
        self.has_ended
    }
}

/// The frames that wait on a link, in the order in which they were taken in.
#[derive(Drop)]
pub struct Waiting<S: Sent> {
    frames: VecDeque<Bytes>,
    /// How many bytes these have.
    bytes: usize,
    is_closed: bool,
    accepted: Frames,
    taken: Frames,
    of: PhantomData<S>,
}

impl<S: Sent> Model for Waiting<S> {
    ghost use Rattle.std.specs.Prelude.{◌≡◌, ◌≤◌, All};
    ghost use Rattle.std.specs.VecDeque.{deque_capacity};
    ghost use Rattle.link_queue.specs.Line.{Line, line, bytes_of, IsInOrder};

    ghost Value = { Line };

    ghost view = { λ w. line w.accepted.frames w.taken.frames w.frames.items w.is_closed };

    ghost invariant = { λ w. (1024 ≤ deque_capacity w.frames) × IsInOrder (line w.accepted.frames w.taken.frames w.frames.items w.is_closed) × All S.sent w.frames.items × (w.bytes ≡ bytes_of w.frames.items) };
}

impl<S: Sent> Waiting<S> {
    ghost use Rattle.link_queue.specs.Answers.{is_full, refusal, given_back, cause_of, count_of, is_end};

    /// No frame, and room for as many as a queue holds.
    pub fn new(alloc: Global) -> Result<Waiting<S>, AllocError>
        ensures { IfOk result (λ w. w ≡ line [] [] [] false) }
    {
        Ok(Waiting {
            frames: VecDeque::with_capacity(alloc, MOST_FRAMES)?,
            bytes: 0,
            is_closed: false,
            accepted: Frames::none(),
            taken: Frames::none(),
            of: PhantomData,
        })
    }

    /// Whether no frame waits that could be taken, and one may still come.
    pub fn is_idle(&self) -> bool
        ensures answer { MatchBool result (IsIdle self.now) (IsIdle self.now → ⊥) }
    {
        !self.is_closed && self.frames.is_empty()
    }

    /// How many frames wait.
    pub fn count(&self) -> usize
        ensures count { result ≡ length self.now.queued }
        ensures within { result ≤ 1024 }
    {
        self.frames.len()
    }

    /// Takes a frame in, or drops it where the queue is closed or full, in this order. It takes no
    /// memory.
    pub fn offer(&mut self, frame: Bytes) -> Result<Queued, Dropped>
        requires sent { S.sent frame }
        ensures answer { MatchResult result
            (λ q. (refusal self.old frame ≡ None) × (self.new ≡ with_accepted self.old frame) × (count_of q ≡ length self.new.queued))
            (λ d. (refusal self.old frame ≡ Some (cause_of d)) × (given_back d ≡ frame) × (self.new ≡ self.old)) }
        ensures order { IsInOrder self.new }
    {
        let bytes = self.bytes.saturating_add(frame.len());
        let cause = if self.is_closed {
            Cause::Closed
        } else if self.is_full(bytes) {
            Cause::Full
        } else {
            self.accepted.add(frame.as_slice());
            self.bytes = bytes;
            self.frames.push_back_reserved(frame);
            return Ok(Queued {
                waiting: self.frames.len(),
            });
        };
        Err(Dropped { cause, frame })
    }

    /// Returns whether there is no room for one more frame, with which there would be so many bytes.
    fn is_full(&self, bytes: usize) -> bool
        ensures { result ≡ (nat_le 1024 (length self.now.queued) || (nat_lt 0 (length self.now.queued) && nat_lt 16777216 bytes)) }
    {
        let count = self.frames.len();
        count >= MOST_FRAMES || count > 0 && bytes > MOST_BYTES
    }

    /// Hands out the frame that waited longest. It takes no memory.
    pub fn take(&mut self) -> Result<Bytes, Untaken>
        ensures answer { MatchResult result
            (λ frame. Handed self.old frame self.new)
            (λ u. MatchBool (is_end u) (HasEnded self.old) (IsIdle self.old) × (self.new ≡ self.old)) }
        ensures sent { IfOk result S.sent }
        ensures order { IsInOrder self.new }
    {
        let Some(frame) = self.frames.pop_front() else {
            return Err(Untaken {
                has_ended: self.is_closed,
            });
        };
        self.bytes -= frame.len();
        self.taken.add(frame.as_slice());
        Ok(frame)
    }

    /// Takes nothing in from now on. What waits can still be taken.
    pub fn close(&mut self)
        ensures { self.new ≡ record self.old { closed = true } }
    {
        self.is_closed = true;
    }
}
