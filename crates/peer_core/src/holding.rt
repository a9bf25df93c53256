//! An own proposal of no transactions that waits, and the own frames behind it.

ghost use Rattle.std.specs.Prelude.{◌≡◌, ◌<◌, ◌≤◌, ◌∷◌, [], None, IfSome, IfOk, OnOk, OnErr, MatchOption};
ghost use Rattle.edge_frames.specs.Holding.{due_of, holds, answers};
ghost use Rattle.peer_core.specs.Waiting.{without, is_behind, followed, given_back};

use bytes::Bytes;
use edge_frames::HeldProposal;
use std::alloc::{AllocError, Global};
use std::collections::VecDeque;
use std::marker::Model;

/// How many own frames wait behind a proposal at most.
pub(crate) const MOST_BEHIND: usize = 8;

/// An own proposal that waits, and what goes out behind it: its proposer's vote would say before it that it exists.
#[derive(Debug, Drop)]
pub struct HeldFrames {
    proposal: HeldProposal,
    behind: VecDeque<Bytes>,
}

impl Model for HeldFrames {
    ghost use Rattle.std.specs.Prelude.{◌≤◌, ℕ, List, length};
    ghost use Rattle.edge_frames.specs.Holding.{Holding};

    ghost Value = { Holding × List (List ℕ) };

    ghost view = { λ a. (a.proposal, a.behind.items) };

    ghost invariant = { λ a. length a.behind.items ≤ 8 };
}

impl HeldFrames {
    /// Nothing waits. It takes no memory.
    pub fn new(alloc: Global) -> HeldFrames {
        HeldFrames {
            proposal: HeldProposal::new(),
            behind: VecDeque::new(alloc),
        }
    }

    /// Takes the frame of a height's proposal, which waits until this time; another one of this height is given back once the first has
    /// gone.
    pub fn hold(&mut self, height: u64, frame: Bytes, due: u64) -> Option<Bytes>
        ensures waiting { self.new ≡ (holds height frame due self.old.0, self.old.1) }
        ensures given { result ≡ answers height frame self.old.0 }
    {
        self.proposal.hold(height, frame, due)
    }

    /// Takes an own frame where a proposal waits, and gives it back where none does, or too many wait behind it.
    pub fn follow(&mut self, frame: Bytes) -> Result<Option<Bytes>, AllocError>
        ensures given { IfOk result (λ given. given ≡ given_back frame self.old) }
        ensures ok { OnOk result (self.new ≡ followed frame self.old) }
        ensures err { OnErr result (self.new ≡ self.old) }
    {
        if self.next_due().is_none() || self.behind.len() >= MOST_BEHIND {
            return Ok(Some(frame));
        }
        if !self.is_behind(&frame) {
            self.behind.push_back(frame)?;
        }
        Ok(None)
    }

    /// Returns whether this frame waits behind the proposal.
    fn is_behind(&self, frame: &[u8]) -> bool
        ensures { result ≡ is_behind frame.now self.now }
    {
        self.behind.iter().any(|kept| kept.as_slice() == frame)
    }

    /// Returns until when a proposal waits, if one does.
    pub fn next_due(&self) -> Option<u64>
        ensures { result ≡ due_of self.now.0 }
    {
        self.proposal.next_due()
    }

    /// Gives the proposal that waits, where its time has come.
    pub fn take_due(&mut self, now: u64) -> Option<Bytes>
        ensures early { now < self.old.0.due → (result ≡ None) × (self.new ≡ self.old) }
        ensures due { self.old.0.due ≤ now → (result ≡ self.old.0.frame) × (self.new ≡ without self.old) }
    {
        self.proposal.take_due(now)
    }

    /// Gives the proposal that waits, whenever its time is.
    pub fn take(&mut self) -> Option<Bytes>
        ensures given { result ≡ self.old.0.frame }
        ensures left { self.new ≡ without self.old }
    {
        self.proposal.take()
    }

    /// Gives the first frame behind the proposal.
    pub fn take_behind(&mut self) -> Option<Bytes>
        ensures { MatchOption result ((self.old.1 ≡ []) × (self.new ≡ self.old)) (λ frame. self.old.1 ≡ frame ∷ self.new.1) }
    {
        self.behind.pop_front()
    }

    /// Forgets what waits, since the validator is in another height.
    pub fn forget(&mut self)
        ensures proposal { self.new.0.frame ≡ None }
        ensures behind { self.new.1 ≡ [] }
    {
        let _ = self.proposal.take();
        self.behind.clear();
    }
}
