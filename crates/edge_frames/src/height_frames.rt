//! The frames that a node took in in its height, to be passed on.

ghost use Rattle.std.specs.Prelude.{◌≡◌, ◌∷◌, ◌++◌, ℕ, [], OnOk, OnErr, MatchOption, IsOkUnless};
ghost use Rattle.edge_frames.specs.Passing.{sent, of_sender, refusal, IsWithin};

use crate::fault::PassFault;
use bytes::Bytes;
use powers::MOST_VALIDATORS;
use std::alloc::Global;
use std::marker::Model;

/// How many frames of one sender are kept at most: as many messages as a node takes in of one validator in a height.
pub const MOST_SENDER_FRAMES: usize = 512;

/// How many bytes the kept frames of one sender have at most: two proposals of any length have room, and as many votes as may be kept,
/// of which the longest have 4,149 bytes, at 128 validators.
pub const MOST_SENDER_BYTES: usize = 2_124_288;

/// A frame that the node took in, and the number of the validator that sent it.
#[derive(Debug, Drop)]
pub struct SentFrame {
    pub sender: u16,
    pub frame: Bytes,
}

/// How much is kept of one sender.
#[derive(Clone, Copy, Debug)]
struct Load {
    frames: usize,
    bytes: usize,
}

const NO_LOAD: Load = Load {
    frames: 0,
    bytes: 0,
};

/// The proposals and votes that a node took in in its present height, as they came, in order of
/// arrival. While the height doesn't move they are sent again, since one that reached this node alone
/// may be all that the others lack.
#[derive(Debug, Drop)]
pub struct HeightFrames {
    frames: Vec<SentFrame>,
    loads: [Load; MOST_VALIDATORS],
}

impl Model for HeightFrames {
    ghost use Rattle.std.specs.Prelude.{List};
    ghost use Rattle.edge_frames.specs.declared.height_frames.SentFrame.{SentFrame as AnySentFrame};
    ghost use Rattle.edge_frames.specs.Passing.{IsMeasured};

    ghost Value = { List AnySentFrame };

    ghost view = { λ a. a.frames.items };

    ghost invariant = { λ a. IsMeasured a.loads a.frames.items };
}

impl HeightFrames {
    /// No frames. It takes no memory.
    pub fn new(alloc: Global) -> HeightFrames
        ensures { result ≡ [] }
    {
        HeightFrames {
            frames: Vec::new(alloc),
            loads: [NO_LOAD; MOST_VALIDATORS],
        }
    }

    /// Keeps a frame. Where its sender has no room, what came first stays.
    pub fn keep(&mut self, sender: u16, frame: Bytes) -> Result<(), PassFault>
        ensures answer { MatchOption (refusal sender frame self.old) (IsOkUnless result PassFault.OutOfMemory) (λ fault. result ≡ Err fault) }
        ensures ok { OnOk result (self.new ≡ self.old ++ sent sender frame ∷ []) }
        ensures err { OnErr result (self.new ≡ self.old) }
    {
        let place = usize::from(sender);
        if place >= MOST_VALIDATORS {
            return Err(PassFault::UnknownSender);
        }
        let Load { frames, bytes } = self.loads[place];
        let bytes = bytes + frame.len();
        if frames >= MOST_SENDER_FRAMES || bytes > MOST_SENDER_BYTES {
            return Err(PassFault::SenderFull);
        }
        self.frames.push(SentFrame { sender, frame })?;
        self.loads[place] = Load {
            frames: frames + 1,
            bytes,
        };
        Ok(())
    }

    /// The kept frames, in order of arrival.
    pub fn frames(&self) -> &[SentFrame]
        ensures frames { result.now ≡ self.now }
        ensures bounds { (s : ℕ) → IsWithin (of_sender s self.now) }
    {
        self.frames.as_slice()
    }

    /// Forgets all frames, since the node is in another height. It takes no memory.
    pub fn clear(&mut self)
        ensures { self.new ≡ [] }
    {
        self.frames.clear();
        self.loads = [NO_LOAD; MOST_VALIDATORS];
    }
}
