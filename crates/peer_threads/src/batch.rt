//! Frames that go out by one write.

ghost use Rattle.std.specs.Prelude.{◌≡◌, ◌≤◌, ◌++◌, [], length, MatchBool};

use std::alloc::Global;
use std::marker::Model;

/// How many bytes go out by one write at most, where they are of several frames.
const MOST_BATCH_BYTES: usize = 16_384;

/// The frames of one write, one behind the other. A frame that has no room here goes out by itself.
#[derive(Drop)]
pub(crate) struct Batch {
    bytes: Vec<u8>,
}

impl Model for Batch {
    ghost use Rattle.std.specs.Prelude.{List, ℕ};

    ghost Value = { List ℕ };

    ghost view = { λ b. b.bytes.items };
}

impl Batch {
    /// No frame yet. It takes no memory.
    pub(crate) fn new(alloc: Global) -> Batch
        ensures { result ≡ [] }
    {
        Batch {
            bytes: Vec::new(alloc),
        }
    }

    /// Adds a frame, where it has room beside the others: whether it has. Without memory for it, it has none.
    pub(crate) fn add(&mut self, frame: &[u8]) -> bool
        ensures { MatchBool result
            ((self.new ≡ self.old ++ frame.now) × (length self.new ≤ 16384))
            (self.new ≡ self.old) }
    {
        if frame.len() > MOST_BATCH_BYTES || self.bytes.len() > MOST_BATCH_BYTES - frame.len() {
            return false;
        }
        self.bytes.extend_from_slice(frame).is_ok()
    }

    /// What is to be written.
    pub(crate) fn bytes(&self) -> &[u8]
        ensures { result.now ≡ self.now }
    {
        &self.bytes
    }

    /// Begins the next write.
    pub(crate) fn clear(&mut self)
        ensures { self.new ≡ [] }
    {
        self.bytes.clear();
    }
}
