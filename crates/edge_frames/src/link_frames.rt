//! The early frames of one link.

ghost use Rattle.std.specs.Prelude.{◌≡◌, ◌≤◌, ◌<◌, ◌+◌, [], false, Some, None, OnOk, OnErr, MatchOption, MatchBool, IsOkUnless, length, take};
ghost use Rattle.std.specs.List.{list_any};
ghost use Rattle.std.specs.VecDeque.{deque_len};
ghost use Rattle.edge_frames.specs.Early.{early, has_room, placed, of_heights_from, bytes_of, Fits, IsLongest, IsFirst, IsStart, IsEnd, is_of};

use crate::fault::KeepFault;
use bytes::Bytes;
use std::alloc::Global;
use std::collections::VecDeque;
use std::marker::Model;

/// How many early frames are kept for one link at most.
pub const MOST_LINK_FRAMES: usize = 256;

/// How many bytes the early frames of one link have at most: 2 MB, so that a frame of any length has
/// room.
pub const MOST_LINK_BYTES: usize = 2_097_152;

/// A frame that came before its height.
#[derive(Debug, Drop)]
pub struct Early {
    pub height: u64,
    pub frame: Bytes,
}

/// The early frames of one link. They are held in order of height, and those of one height in order
/// of arrival, so that none has to be looked for.
#[derive(Debug, Drop)]
pub struct LinkFrames {
    frames: VecDeque<Early>,
}

impl Model for LinkFrames {
    ghost use Rattle.std.specs.Prelude.{List};
    ghost use Rattle.std.specs.List.Sorted.{IsNonDecreasingBy};
    ghost use Rattle.edge_frames.specs.declared.link_frames.Early.{Early as AnyEarly};
    ghost use Rattle.edge_frames.specs.Early.{Fits};

    ghost Value = { List AnyEarly };

    ghost view = { λ a. a.frames.items };

    ghost invariant = { λ a. IsNonDecreasingBy (λ e. e.height) a.frames.items × Fits a.frames.items };
}

impl LinkFrames {
    /// No frames. It takes no memory.
    pub fn new(alloc: Global) -> LinkFrames
        ensures { result ≡ [] }
    {
        LinkFrames {
            frames: VecDeque::new(alloc),
        }
    }

    /// Keeps a frame, for which the last of those of greater heights make room.
    pub fn keep(&mut self, height: u64, frame: Bytes) -> Result<(), KeepFault>
        ensures answer { MatchBool (has_room (early height frame) self.old) (IsOkUnless result KeepFault.OutOfMemory) (result ≡ Err KeepFault.LinkFull) }
        ensures ok { OnOk result (IsLongest (placed (early height frame) self.old) self.new) }
        ensures err { OnErr result (self.new ≡ self.old) }
    {
        let place = self.end_of(height);
        if place >= MOST_LINK_FRAMES || self.bytes_before(place) + frame.len() > MOST_LINK_BYTES {
            return Err(KeepFault::LinkFull);
        }
        self.frames.insert(place, Early { height, frame })?;
        let count = fitting(&self.frames);
        self.frames.truncate(count);
        Ok(())
    }

    /// Forgets the frames of the heights below this one. It takes no memory.
    pub fn forget_below(&mut self, height: u64)
        ensures { self.new ≡ of_heights_from height self.old }
    {
        self.frames.retain(|early| early.height >= height);
    }

    /// Gives the first frame of this height, and no longer holds it. It takes no memory.
    pub fn take(&mut self, height: u64) -> Option<Bytes>
        ensures { MatchOption result
            ((list_any (is_of height) self.old ≡ false) × (self.new ≡ self.old))
            (λ frame. IsFirst height self.old frame self.new) }
    {
        let place = self.start_of(height);
        if self.frames.get(place)?.height != height {
            return None;
        }
        let early = self.frames.remove(place)?;
        Some(early.frame)
    }

    /// Where the frames of this height begin.
    fn start_of(&self, height: u64) -> usize
        ensures { IsStart height self.now result }
    {
        self.frames.partition_point(|early| early.height < height)
    }

    /// Where the frames of this height end.
    fn end_of(&self, height: u64) -> usize
        ensures { IsEnd height self.now result }
    {
        self.frames.partition_point(|early| early.height <= height)
    }

    /// How many bytes the first frames have, of which there are at least so many.
    fn bytes_before(&self, count: usize) -> usize
        requires { count ≤ length self.now }
        ensures { result ≡ bytes_of (take count self.now) }
    {
        let mut bytes = 0;
        for place in 0..count {
            bytes += self.frames[place].frame.len();
        }
        bytes
    }
}

/// How many of the first frames are within the bounds.
fn fitting(frames: &VecDeque<Early>) -> usize
    ensures within { result ≤ deque_len frames.now }
    ensures fits { Fits (take result frames.now.items) }
    ensures next { result < deque_len frames.now → ¬ Fits (take (result + 1) frames.now.items) }
{
    let mut bytes = 0;
    for count in 0..frames.len() {
        bytes += frames[count].frame.len();
        if count >= MOST_LINK_FRAMES || bytes > MOST_LINK_BYTES {
            return count;
        }
    }
    frames.len()
}
