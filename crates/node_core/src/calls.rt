//! The calls that change a node.

ghost use Rattle.std.specs.Prelude.{◌≡◌, ◌⊎◌, ◌++◌, ◌∷◌, [], ℕ, true, false, None, Err, OnOk, OnErr, IfOk, IfErr, map};
ghost use Rattle.protocol.specs.Messages.{OfAsk};
ghost use Rattle.protocol.specs.State.{Node};
ghost use Rattle.protocol.specs.Order.{enabled};
ghost use Rattle.protocol.specs.Restart.{own_since};
ghost use Rattle.protocol.specs.Refusals.{answer};
ghost use Rattle.protocol.specs.Calls.{timeout_answer};
ghost use Rattle.protocol.specs.History.{Settle, Given, Due};
ghost use Rattle.node_core.specs.Core.{Stands, setting_of, frame_by};
ghost use Rattle.node_core.specs.Next.{HandlesNext};
ghost use Rattle.protocol.specs.Answers.{Answers};
ghost use Rattle.node_core.specs.Calls.{IsDone, IsBroken, LeavesBy, IsTaken, IsUnfired, IsUnchanged, TellsJournal, input_cut};

use crate::node::NodeCore;
use crate::outlet::Outlet;
use frame_admission::{Examined, InTurn, Tagger, frame_for};
use messages::{Ask, Body, FrameReader};
use protocol::{Refusal, Timeout};
use round_machine::{Rule, holds_timeout, timeout_refusal};
use std::alloc::AllocError;
use vote_journal::Store;

impl<S: Store + Drop> NodeCore<S> {
    /// Takes in one whole frame, and fires rules until none is enabled.
    pub fn handle(&mut self, frame: &[u8]) -> Result<(), Refusal>
        ensures answer { (n : Node) → Stands n self.old → Answers self.old.journal.failed (answer (setting_of self.old) self.old.machine.me n frame.now) result }
        ensures done { (n : Node) → Stands n self.old → IsDone n (Given frame.now) result self.old self.new }
        ensures broken { result ≡ Err Refusal.JournalFailed → (n : Node) → Stands n self.old → IsBroken n (Given frame.now) self.old self.new }
        ensures refused { IfErr result (λ r. (r ≡ Refusal.OutOfMemory) ⊎ (r ≡ Refusal.JournalFailed) ⊎ IsUnchanged self.old self.new) }
        ensures journal { TellsJournal result self.old.journal self.new.journal }
        ensures quiet { OnOk result (enabled self.new.machine.powers self.new.machine.state ≡ None) }
    {
        self.handle_with(&InTurn, frame)
    }

    /// As `handle`, where another one makes the tags of what is released, and is shown each frame as soon as it may leave.
    pub fn handle_with<T: Tagger + Outlet>(
        &mut self,
        tagger: &T,
        frame: &[u8],
    ) -> Result<(), Refusal>
        ensures answer { (n : Node) → Stands n self.old → Answers self.old.journal.failed (answer (setting_of self.old) self.old.machine.me n frame.now) result }
        ensures done { (n : Node) → Stands n self.old → IsDone n (Given frame.now) result self.old self.new }
        ensures broken { result ≡ Err Refusal.JournalFailed → (n : Node) → Stands n self.old → IsBroken n (Given frame.now) self.old self.new }
        ensures refused { IfErr result (λ r. (r ≡ Refusal.OutOfMemory) ⊎ (r ≡ Refusal.JournalFailed) ⊎ IsUnchanged self.old self.new) }
        ensures journal { TellsJournal result self.old.journal self.new.journal }
        ensures quiet { OnOk result (enabled self.new.machine.powers self.new.machine.state ≡ None) }
    {
        let examined = Examined::new(self.alloc, &self.ring, frame);
        self.handle_examined(tagger, examined)
    }

    /// As `handle_with` of a frame that was examined: what was found of it under keys of this node isn't found once more. The keys may be
    /// any: where they aren't the node's, it finds all by itself.
    pub fn handle_examined<T: Tagger + Outlet>(
        &mut self,
        tagger: &T,
        examined: Examined<'_>,
    ) -> Result<(), Refusal>
        ensures answer { (n : Node) → Stands n self.old → Answers self.old.journal.failed (answer (setting_of self.old) self.old.machine.me n examined.entry) result }
        ensures done { (n : Node) → Stands n self.old → IsDone n (Given examined.entry) result self.old self.new }
        ensures broken { result ≡ Err Refusal.JournalFailed → (n : Node) → Stands n self.old → IsBroken n (Given examined.entry) self.old self.new }
        ensures refused { IfErr result (λ r. (r ≡ Refusal.OutOfMemory) ⊎ (r ≡ Refusal.JournalFailed) ⊎ IsUnchanged self.old self.new) }
        ensures journal { TellsJournal result self.old.journal self.new.journal }
        ensures quiet { OnOk result (enabled self.new.machine.powers self.new.machine.state ≡ None) }
    {
        self.begin()?;
        let let_in = examined.let_in(&self.ring)?;
        self.take(tagger, let_in)?;
        self.fire_all(tagger)
    }

    /// Takes in the next frame of a stream, where it stands whole in this reader: whether it does. Then the call is as `handle` of
    /// that frame.
    ///
    /// `TooLong` also tells that the reader's next length is above the limit: the stream is of no more use.
    pub fn handle_next(&mut self, reader: &mut FrameReader) -> Result<bool, Refusal>
        ensures { HandlesNext reader.old result reader.new self.old self.new }
    {
        match reader.next_frame() {
            Ok(Some(frame)) => match self.handle(frame) {
                Ok(()) => Ok(true),
                Err(refusal) => Err(refusal),
            },
            Ok(None) => Ok(false),
            Err(_) => Err(Refusal::TooLong),
        }
    }

    /// A timeout is due. One that doesn't fit the height, the round or the step fires no rule of its own.
    pub fn fire_timeout(&mut self, timeout: Timeout) -> Result<(), Refusal>
        ensures answer { Answers self.old.journal.failed (timeout_answer self.old.machine.state timeout) result }
        ensures done { (n : Node) → Stands n self.old → IsDone n (Due timeout) result self.old self.new }
        ensures broken { result ≡ Err Refusal.JournalFailed → (n : Node) → Stands n self.old → IsBroken n (Due timeout) self.old self.new }
        ensures refused { IfErr result (λ r. (r ≡ Refusal.OutOfMemory) ⊎ (r ≡ Refusal.JournalFailed) ⊎ IsUnchanged self.old self.new) }
        ensures journal { TellsJournal result self.old.journal self.new.journal }
        ensures quiet { OnOk result (enabled self.new.machine.powers self.new.machine.state ≡ None) }
    {
        self.fire_timeout_with(&InTurn, timeout)
    }

    /// As `fire_timeout`, where another one makes the tags of what is released, and is shown each frame as soon as it may leave.
    pub fn fire_timeout_with<T: Tagger + Outlet>(
        &mut self,
        tagger: &T,
        timeout: Timeout,
    ) -> Result<(), Refusal>
        ensures answer { Answers self.old.journal.failed (timeout_answer self.old.machine.state timeout) result }
        ensures done { (n : Node) → Stands n self.old → IsDone n (Due timeout) result self.old self.new }
        ensures broken { result ≡ Err Refusal.JournalFailed → (n : Node) → Stands n self.old → IsBroken n (Due timeout) self.old self.new }
        ensures refused { IfErr result (λ r. (r ≡ Refusal.OutOfMemory) ⊎ (r ≡ Refusal.JournalFailed) ⊎ IsUnchanged self.old self.new) }
        ensures journal { TellsJournal result self.old.journal self.new.journal }
        ensures quiet { OnOk result (enabled self.new.machine.powers self.new.machine.state ≡ None) }
    {
        self.begin()?;
        if let Some(refusal) = timeout_refusal(&self.state, timeout) {
            return Err(refusal);
        }
        self.fire_due(tagger, timeout)?;
        self.fire_all(tagger)
    }

    /// Fires the timeout's own rule, where it holds.
    fn fire_due<T: Tagger + Outlet>(&mut self, tagger: &T, timeout: Timeout) -> Result<(), Refusal>
        requires running { self.old.journal.failed ≡ false }
        ensures ok { OnOk result ((n : Node) → Stands n self.old → IsTaken n (Due timeout) self.old self.new) }
        ensures broken { result ≡ Err Refusal.JournalFailed → (n : Node) → Stands n self.old → LeavesBy (setting_of self.old) self.old.machine.me n (input_cut (Due timeout)) self.new.journal }
        ensures journal { TellsJournal result self.old.journal self.new.journal }
        ensures err { IfErr result (λ r. IsUnfired r self.old self.new) }
    {
        if holds_timeout(&self.state, timeout) {
            self.fire(tagger, Rule::TimedOut(timeout))
        } else {
            Ok(())
        }
    }

    /// Fires rules until none is enabled: at the beginning, and after a call that was refused memory.
    pub fn settle(&mut self) -> Result<(), Refusal>
        ensures answer { Answers self.old.journal.failed None result }
        ensures done { (n : Node) → Stands n self.old → IsDone n Settle result self.old self.new }
        ensures broken { result ≡ Err Refusal.JournalFailed → (n : Node) → Stands n self.old → IsBroken n Settle self.old self.new }
        ensures refused { IfErr result (λ r. (r ≡ Refusal.OutOfMemory) ⊎ (r ≡ Refusal.JournalFailed) ⊎ IsUnchanged self.old self.new) }
        ensures journal { TellsJournal result self.old.journal self.new.journal }
        ensures quiet { OnOk result (enabled self.new.machine.powers self.new.machine.state ≡ None) }
    {
        self.settle_with(&InTurn)
    }

    /// As `settle`, where another one makes the tags of what is released, and is shown each frame as soon as it may leave.
    pub fn settle_with<T: Tagger + Outlet>(&mut self, tagger: &T) -> Result<(), Refusal>
        ensures answer { Answers self.old.journal.failed None result }
        ensures done { (n : Node) → Stands n self.old → IsDone n Settle result self.old self.new }
        ensures broken { result ≡ Err Refusal.JournalFailed → (n : Node) → Stands n self.old → IsBroken n Settle self.old self.new }
        ensures refused { IfErr result (λ r. (r ≡ Refusal.OutOfMemory) ⊎ (r ≡ Refusal.JournalFailed) ⊎ IsUnchanged self.old self.new) }
        ensures journal { TellsJournal result self.old.journal self.new.journal }
        ensures quiet { OnOk result (enabled self.new.machine.powers self.new.machine.state ≡ None) }
    {
        self.begin()?;
        self.fire_all(tagger)
    }

    /// A call begins, of which no rule has fired. A node that has halted refuses it.
    fn begin(&mut self) -> Result<(), Refusal>
        ensures running { OnOk result (self.old.journal.failed ≡ false) }
        ensures halted { IfErr result (λ r. (r ≡ Refusal.Halted) × (self.old.journal.failed ≡ true)) }
        ensures new { IsUnchanged self.old self.new }
    {
        self.fired = 0;
        if self.journal.has_failed() {
            return Err(Refusal::Halted);
        }
        Ok(())
    }

    /// Releases an ask for the decision of the own height.
    pub fn ask(&mut self) -> Result<(), Refusal>
        ensures answer { Answers self.old.journal.failed None result }
        ensures refusal { IfErr result (λ r. (r ≡ Refusal.Halted) ⊎ (r ≡ Refusal.OutOfMemory)) }
        ensures ok { OnOk result (self.new ≡ record self.old { outgoing = self.old.outgoing ++ frame_by self.old (OfAsk (record { height = self.old.machine.state.height; sender = self.old.machine.me })) ∷ []; fired = 0 }) }
        ensures err { OnErr result (IsUnchanged self.old self.new) }
    {
        self.begin()?;
        let body = Body::Ask(Ask {
            height: self.state.height(),
            sender: self.state.me(),
        });
        self.outgoing.reserve(1)?;
        let frame = frame_for(self.alloc, &self.ring, &body)?;
        self.outgoing.push_reserved(frame);
        Ok(())
    }

    /// Releases the own messages of the height once more, in the order in which they were saved.
    pub fn resend(&mut self) -> Result<(), Refusal>
        ensures answer { Answers self.old.journal.failed None result }
        ensures refusal { IfErr result (λ r. (r ≡ Refusal.Halted) ⊎ (r ≡ Refusal.OutOfMemory)) }
        ensures ok { (n : Node) → Stands n self.old → OnOk result (self.new ≡ record self.old { outgoing = self.old.outgoing ++ map (frame_by self.old) (own_since self.old.machine.me n.journal); fired = 0 }) }
        ensures err { OnErr result (IsUnchanged self.old self.new) }
    {
        self.begin()?;
        let mut frames = self.frames_said()?;
        Ok(self.outgoing.append(&mut frames)?)
    }

    /// The frames of the own messages of the height.
    fn frames_said(&self) -> Result<Vec<Vec<u8>>, AllocError>
        ensures { IfOk result (λ frames. map (λ frame. frame.items) frames.items ≡ map (frame_by self.now) self.now.said) }
    {
        let mut frames = Vec::new(self.alloc);
        for body in &self.said {
            frames.push(frame_for(self.alloc, &self.ring, body)?)?;
        }
        Ok(frames)
    }
}
