//! What a node answered to frames that were handed in together, and the replies to them.

ghost use Rattle.std.specs.Prelude.{◌≤◌};
ghost use Rattle.messages.specs.Replies.{IsReply};

use bytes::Bytes;
use locked_node::Done;
use messages::{Reply, spell_reply};
use peer_core::{halts, may_release};
use protocol::Refusal;
use std::alloc::{AllocError, Global};

/// How many frames are handed in at most while a node's lock is held.
pub(crate) const MOST_AT_ONCE: usize = 64;

/// What the node answered to a frame, and its height then.
#[derive(Clone, Copy, Debug)]
pub(crate) struct Answered {
    pub(crate) answer: Result<(), Refusal>,
    pub(crate) height: u64,
}

/// The answers to at most 64 frames, in their order.
#[derive(Drop)]
pub(crate) struct Answers {
    answers: [Answered; MOST_AT_ONCE],
    count: usize,
    ghost few: { count ≤ 64 },
}

impl Answers {
    /// None yet. It takes no memory.
    pub(crate) fn new() -> Answers {
        let none = Answered {
            answer: Ok(()),
            height: 0,
        };
        Answers {
            answers: [none; MOST_AT_ONCE],
            count: 0,
        }
    }

    /// Adds one, where there is room for it.
    pub(crate) fn add(&mut self, done: &Done<'_>) {
        if self.count < MOST_AT_ONCE {
            self.answers[self.count] = Answered {
                answer: done.answer(),
                height: done.status().height,
            };
            self.count += 1;
        }
    }

    pub(crate) fn as_slice(&self) -> &[Answered] {
        &self.answers[..self.count]
    }

    /// Returns the node's height at the last one, where the node may have released something by any.
    pub(crate) fn height_of_released(&self) -> Option<u64> {
        let answers = self.as_slice();
        if answers.iter().any(|answered| may_release(answered.answer)) {
            answers.last().map(|answered| answered.height)
        } else {
            None
        }
    }

    /// Returns whether the node has halted.
    pub(crate) fn tell_halt(&self) -> bool {
        self.as_slice()
            .iter()
            .any(|answered| halts(answered.answer))
    }
}

/// Replies that go out on one link by one write.
#[derive(Drop)]
pub(crate) struct Replies {
    bytes: Vec<u8>,
    count: u64,
    /// How many there was no memory for.
    lost: u64,
}

impl Replies {
    /// None yet. It takes no memory.
    pub(crate) fn new(alloc: Global) -> Replies {
        Replies {
            bytes: Vec::new(alloc),
            count: 0,
            lost: 0,
        }
    }

    /// Adds one, or counts it as lost where there is no memory for it.
    pub(crate) fn add(&mut self, reply: Reply)
        requires { IsReply reply }
    {
        let is_added = self.bytes.extend_from_slice(&spell_reply(reply)).is_ok();
        if is_added {
            self.count = self.count.saturating_add(1);
        } else {
            self.lost = self.lost.saturating_add(1);
        }
    }

    pub(crate) fn lost(&self) -> u64 {
        self.lost
    }

    pub(crate) fn count(&self) -> u64 {
        self.count
    }

    /// Returns their frames, one behind the other.
    pub(crate) fn into_frames(self) -> Result<Bytes, AllocError> {
        Ok(Bytes::from_vec(self.bytes)?)
    }
}
