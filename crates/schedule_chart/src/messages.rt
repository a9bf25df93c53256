//! The messages of a run, by number.

ghost use Rattle.std.specs.Prelude.{◌≡◌, ◌==◌, ◌&&◌, ◌||◌, ℕ, false, length, slice_get, OnOk};
ghost use Rattle.schedule_chart.specs.Bringing.{has_come, is_wanted};

use crate::kind::Kind;
use crate::place::Place;
use indexmap::IndexSet;
use std::alloc::{AllocError, Global};

/// A message, and where it was sent.
#[derive(Clone, Copy, Debug)]
pub(crate) struct Message {
    pub(crate) kind: Kind,
    pub(crate) from: Place,
}

/// The messages so far, and which lanes each was brought to.
#[derive(Drop)]
pub(crate) struct Messages {
    each: Vec<Message>,
    /// Each message below this number was passed to all.
    passed: usize,
    /// What else was brought: a message's number, and a lane.
    early: IndexSet<(usize, usize)>,
}

impl Messages {
    /// Begins with none.
    pub(crate) fn new(alloc: Global) -> Messages {
        Messages {
            each: Vec::new(alloc),
            passed: 0,
            early: IndexSet::new(alloc),
        }
    }

    /// Adds the next one.
    pub(crate) fn push(&mut self, message: Message) -> Result<(), AllocError> {
        self.each.push(message)?;
        Ok(())
    }

    /// Returns the message with this number.
    pub(crate) fn get(&self, number: usize) -> Option<Message>
        ensures { result ≡ slice_get self.now.each.items number }
    {
        self.each.get(number).copied()
    }

    /// Returns the number of the first one that was not passed to all.
    pub(crate) fn passed(&self) -> usize {
        self.passed
    }

    /// Returns how many there are.
    pub(crate) fn count(&self) -> usize {
        self.each.len()
    }

    /// Returns whether a message was not brought to a lane that is another than its sender's.
    pub(crate) fn is_wanted(&self, number: usize, lane: usize) -> bool
        ensures { result ≡ is_wanted self.now number lane }
    {
        match self.get(number) {
            Some(message) => message.from.lane != lane && !self.early.contains(&(number, lane)),
            None => false,
        }
    }

    /// Notes that a message was brought to a lane.
    pub(crate) fn note(&mut self, number: usize, lane: usize) -> Result<(), AllocError>
        ensures { OnOk result ((i l : ℕ) → has_come self.new i l ≡ (has_come self.old i l || ((i == number) && (l == lane)))) }
    {
        self.early.insert((number, lane))?;
        Ok(())
    }

    /// Notes that all messages so far were passed to all.
    pub(crate) fn pass(&mut self)
        ensures passed { self.new.passed ≡ length self.new.each.items }
        ensures none { (i l : ℕ) → has_come self.new i l ≡ false }
        ensures same { self.new.each ≡ self.old.each }
    {
        self.passed = self.each.len();
        self.early.clear();
    }
}
