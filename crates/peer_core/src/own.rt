//! The own messages of a height, as they were sent.

ghost use Rattle.std.specs.Prelude.{◌≡◌, ◌⊎◌, ◌∷◌, ◌++◌, [], OnOk, OnErr};
ghost use Rattle.edge_frames.specs.Passing.{sent};

use bytes::Bytes;
use edge_frames::{HeightFrames, PassFault, SentFrame};
use std::alloc::{AllocError, Global};
use std::marker::Model;

/// How many of the last ones are sent again: two rounds' proposals and votes.
pub const MOST_AGAIN: usize = 6;

/// How many of the last ones a link gets that has opened.
pub const MOST_GREETING: usize = 64;

/// The number under which the frames are kept.
const OWN: u16 = 0;

/// The frames of a validator's own proposals and votes of its height, in the order in which they were sent: at most 512, of at most
/// 2 MB. They are sent again as they are, so that nothing is tagged anew.
#[derive(Debug, Drop)]
pub struct OwnFrames {
    frames: HeightFrames,
}

impl Model for OwnFrames {
    ghost use Rattle.std.specs.Prelude.{List};
    ghost use Rattle.edge_frames.specs.declared.height_frames.SentFrame.{SentFrame as AnySentFrame};

    ghost Value = { List AnySentFrame };

    ghost view = { λ a. a.frames };
}

impl OwnFrames {
    /// No frames. It takes no memory.
    pub fn new(alloc: Global) -> OwnFrames
        ensures { result ≡ [] }
    {
        OwnFrames {
            frames: HeightFrames::new(alloc),
        }
    }

    /// Returns whether this frame is kept.
    pub fn has(&self, frame: &[u8]) -> bool {
        self.frames()
            .iter()
            .any(|kept| kept.frame.as_slice() == frame)
    }

    /// Keeps a frame behind the others. Where there is no room for it, the others are forgotten first.
    pub fn keep(&mut self, frame: &Bytes) -> Result<(), AllocError>
        ensures ok { OnOk result ((self.new ≡ self.old ++ sent 0 frame.now ∷ []) ⊎ (self.new ≡ sent 0 frame.now ∷ [])) }
        ensures err { OnErr result ((self.new ≡ self.old) ⊎ (self.new ≡ [])) }
    {
        match self.frames.keep(OWN, frame.clone()?) {
            Err(PassFault::SenderFull) => {
                self.frames.clear();
                self.keep_first(frame)
            }
            Err(_) => Err(AllocError),
            Ok(()) => Ok(()),
        }
    }

    /// Keeps a frame where none is kept.
    fn keep_first(&mut self, frame: &Bytes) -> Result<(), AllocError>
        ensures ok { OnOk result (self.new ≡ self.old ++ sent 0 frame.now ∷ []) }
        ensures err { OnErr result (self.new ≡ self.old) }
    {
        match self.frames.keep(OWN, frame.clone()?) {
            Ok(()) => Ok(()),
            Err(_) => Err(AllocError),
        }
    }

    /// The frames, in the order in which they were sent.
    pub fn frames(&self) -> &[SentFrame]
        ensures { result.now ≡ self.now }
    {
        self.frames.frames()
    }

    /// Forgets all frames, since the validator is in another height. It takes no memory.
    pub fn clear(&mut self)
        ensures { self.new ≡ [] }
    {
        self.frames.clear();
    }
}
