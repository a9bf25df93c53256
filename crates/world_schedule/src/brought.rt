//! Which messages were brought to whom.

ghost use Rattle.std.specs.Prelude.{◌≡◌, ◌==◌, ◌&&◌, ◌||◌, ℕ, false, filter, nat_lt, IfOk, OnOk};
ghost use Rattle.world_schedule.specs.Events.{is_wanting};
ghost use Rattle.world_schedule.specs.Worlds.{has_come};

use indexmap::IndexSet;
use std::alloc::{AllocError, Global};

/// Which messages were brought to which validators, by the numbers of both.
#[derive(Drop)]
pub(crate) struct Brought {
    /// Each message below this number was passed to all.
    pub(crate) passed: u64,
    /// What else was brought: a message, and to whom.
    pub(crate) early: IndexSet<(u64, u16)>,
}

impl Brought {
    /// Nothing was brought.
    pub(crate) fn new(alloc: Global) -> Brought
        ensures { (number p : ℕ) → has_come result number p ≡ false }
    {
        Brought {
            passed: 0,
            early: IndexSet::new(alloc),
        }
    }

    /// Whether a message was brought to a validator.
    pub(crate) fn has(&self, number: u64, validator: u16) -> bool
        ensures { result ≡ has_come self.now number validator }
    {
        number < self.passed || self.early.contains(&(number, validator))
    }

    /// A message was brought to a validator.
    pub(crate) fn note(&mut self, number: u64, validator: u16) -> Result<(), AllocError>
        ensures { OnOk result ((i p : ℕ) → has_come self.new i p ≡ (has_come self.old i p || ((i == number) && (p == validator)))) }
    {
        self.early.insert((number, validator))?;
        Ok(())
    }

    /// All messages below a number were passed to all.
    pub(crate) fn pass(&mut self, count: u64)
        ensures { (i p : ℕ) → has_come self.new i p ≡ nat_lt i count }
    {
        self.passed = count;
        self.early.clear();
    }

    /// Those of the validators to which the message of another one was not brought.
    pub(crate) fn wanting(
        &self,
        alloc: Global,
        number: u64,
        sayer: Option<u16>,
        validators: &[u16],
    ) -> Result<Vec<u16>, AllocError>
        ensures { IfOk result (λ wanting. wanting.items ≡ filter (is_wanting (has_come self.now) number sayer) validators.now) }
    {
        let mut wanting = Vec::new(alloc);
        for validator in validators {
            if sayer != Some(*validator) && !self.has(number, *validator) {
                wanting.push(*validator)?;
            }
        }
        Ok(wanting)
    }
}
