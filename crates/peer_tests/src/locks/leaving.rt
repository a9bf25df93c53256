//! What is shown while a call goes on.

use authenticators::KeyRing;
use frame_admission::{InTurn, Tagger};
use node_core::{LeavingFrame, Outlet};
use std::alloc::{AllocError, Global};
use std::sync::{Mutex, Wait};

/// Keeps the frames that it is shown.
#[derive(Drop)]
pub(super) struct Shown {
    alloc: Global,
    frames: Mutex<Vec<Vec<u8>>>,
}

impl Shown {
    pub(super) fn new(alloc: Global) -> Shown {
        Shown {
            alloc,
            frames: Mutex::new(Vec::new(alloc)),
        }
    }

    /// Returns whether it was shown this frame and no other.
    pub(super) fn has_one<R: Wait>(&self, rt: &R, frame: Option<&Vec<u8>>) -> bool {
        let frames = self.frames.lock(rt);
        match (frame, frames.first()) {
            (Some(frame), Some(shown)) => frames.len() == 1 && frame.as_slice() == shown.as_slice(),
            _ => false,
        }
    }
}

impl Tagger for Shown {
    fn tags(
        &self,
        alloc: Global,
        ring: &KeyRing,
        body: &[u8],
    ) -> Result<Vec<[u8; 32]>, AllocError> {
        InTurn.tags(alloc, ring, body)
    }
}

impl Outlet for Shown {
    fn let_go(&self, frame: &LeavingFrame) {
        let copied = frame.as_slice().to_vec(self.alloc);
        if let (Ok(bytes), Some(mut frames)) = (copied, self.frames.try_lock()) {
            let _ = frames.push(bytes);
        }
    }
}
