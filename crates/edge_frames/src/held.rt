//! An own proposal of no transactions, which waits.

ghost use Rattle.std.specs.Prelude.{◌≡◌, ◌<◌, ◌≤◌, None};
ghost use Rattle.edge_frames.specs.Holding.{holding, holds, answers, due_of};

use bytes::Bytes;
use std::marker::Model;

/// The frame of an own proposal of no transactions, which waits for its time or for a transaction.
///
/// Validators with nothing to propose would decide empty values without end. So a peer keeps back the first
/// frame of such a proposal of each height, and lets it go when its time has come, or as soon as a
/// transaction has: this one can stand in the height behind it. To the others it is a frame that took its
/// time.
#[derive(Debug, Drop)]
pub struct HeldProposal {
    last: Option<u64>,
    due: u64,
    frame: Option<Bytes>,
}

impl Model for HeldProposal {
    ghost use Rattle.edge_frames.specs.Holding.{Holding, holding};

    ghost Value = { Holding };

    ghost view = { λ a. holding a.last a.due a.frame };
}

impl HeldProposal {
    /// Nothing waits, and no height has had a proposal yet.
    pub fn new() -> HeldProposal
        ensures { result ≡ holding None 0 None }
    {
        HeldProposal {
            last: None,
            due: 0,
            frame: None,
        }
    }

    /// Takes the frame of a height's proposal. The first one of a height waits until `due`, in the place of one of an
    /// earlier height. Another one is dropped while the first waits, and is given back after that.
    pub fn hold(&mut self, height: u64, frame: Bytes, due: u64) -> Option<Bytes>
        ensures waiting { self.new ≡ holds height frame due self.old }
        ensures given { result ≡ answers height frame self.old }
    {
        if self.last == Some(height) {
            return match self.frame {
                Some(_) => None,
                None => Some(frame),
            };
        }
        self.last = Some(height);
        self.due = due;
        self.frame = Some(frame);
        None
    }

    /// Gives the frame that waits, where its time has come.
    pub fn take_due(&mut self, now: u64) -> Option<Bytes>
        ensures early { now < self.old.due → (result ≡ None) × (self.new ≡ self.old) }
        ensures due { self.old.due ≤ now → (result ≡ self.old.frame) × (self.new ≡ record self.old { frame = None }) }
    {
        if now < self.due { None } else { self.take() }
    }

    /// Returns until when a frame waits, if one does.
    pub fn next_due(&self) -> Option<u64>
        ensures { result ≡ due_of self.now }
    {
        match self.frame {
            Some(_) => Some(self.due),
            None => None,
        }
    }

    /// Gives the frame that waits, whenever its time is.
    pub fn take(&mut self) -> Option<Bytes>
        ensures given { result ≡ self.old.frame }
        ensures empty { self.new ≡ record self.old { frame = None } }
    {
        self.frame.take()
    }
}
