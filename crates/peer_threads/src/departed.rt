//! The frames that left while the call went on which released them.

use bytes::Bytes;
use std::alloc::{AllocError, Global};
use std::collections::VecDeque;

/// Frames that left already and are still among the node's outgoing ones, in the same order.
#[derive(Drop)]
pub(crate) struct Departed {
    frames: VecDeque<Bytes>,
}

impl Departed {
    /// None yet. It takes no memory.
    pub(crate) fn new(alloc: Global) -> Departed {
        Departed {
            frames: VecDeque::new(alloc),
        }
    }

    /// Notes that a frame leaves, or is refused memory, and then it is not to leave yet.
    pub(crate) fn note(&mut self, frame: &Bytes) -> Result<(), AllocError> {
        self.frames.reserve(1)?;
        self.frames.push_back(frame.clone()?)?;
        Ok(())
    }

    /// Returns whether this outgoing frame has left already, and forgets it then.
    pub(crate) fn passes_over(&mut self, frame: &[u8]) -> bool {
        let has_left = self
            .frames
            .front()
            .is_some_and(|first| first.as_slice() == frame);
        if has_left {
            let _ = self.frames.pop_front();
        }
        has_left
    }
}
